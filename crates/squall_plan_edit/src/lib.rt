//! Plans from plans: ranges of keys go to other partitions.
//!
//! # Example
//!
//! The keys of a span go to another partition. All other keys stay (`Span`, `PartId` and `Plan` are
//! of the crates below).
//!
//! ```rust
//! fn moves_a_span(rt: &impl Abort, alloc: Global, old: &Plan) -> Result<(), Fail> {
//!     let lo = Bound::new(2, 0).expect(rt, "a bound");
//!     let span = Span::new(lo, Bound::TOP).expect(rt, "a span");
//!     let part = PartId::new(9).expect(rt, "a partition");
//!     let new = moved(alloc, old, span, part)?;
//!     let key = Key::new(2, 7).expect(rt, "a key");
//!     assert!(rt; new.owner(key) == part);
//!     Ok(())
//! }
//! ```
//!
//! Its tests are in `crates/squall_test_plans/src/edit.rt`.
#![tactic(auto)]

mod apart;
mod edit;
mod fault;
pub mod laws;
mod share;

pub use apart::ranges_apart;
pub use edit::{moved, moved_in_turn};
pub use fault::EditFault;
pub use share::{shares_below, split};
