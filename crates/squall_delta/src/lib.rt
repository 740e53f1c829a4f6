//! What boards send each other in place of whole copies: deltas, pieces that fit a frame, digests,
//! and repairs by them.
//!
//! All of these are boards or digests of boards. Whoever merges the boards, in any order and any
//! number of times, has the same board in the end.
//!
//! # Example
//!
//! A node sends a digest of its board, and merges the repair that another node answers with.
//!
//! ```rust
//! fn repair_completes(
//!     rt: &impl Abort,
//!     alloc: Global,
//!     board: &mut Board,
//!     other: &Board,
//! ) -> Result<(), AllocError> {
//!     let shown = digest(alloc, board)?;
//!     let missing = repair(alloc, other, &shown)?;
//!     assert!(rt; other.covers(&missing));
//!     board.merge(&missing)?;
//!     assert!(rt; board.covers(other));
//!     Ok(())
//! }
//! ```
//!
//! Its tests are in `crates/squall_test_frames/src/delta.rt`.
#![tactic(auto)]

mod cut;
mod delta;
mod digests;
mod hashing;
pub mod laws;
mod piece_laws;
mod repair_laws;
mod repairing;
mod shown;

pub use cut::{CutFault, pieces, pieces_within};
pub use delta::{beyond, delta_of};
pub use digests::digest;
pub use repairing::repair;
