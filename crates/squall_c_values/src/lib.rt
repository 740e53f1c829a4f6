//! What C sees of moves, legs, spans, places and frames of reports, and how they are written into rooms.
//!
//! A *room* is a list that the caller lends. What fits is written from its start on, and the rest
//! of it stays.
//!
//! # Example
//!
//! In sub-plan 0 of the course, keys move to partitions 3 and 4.
//!
//! ```rust
//! fn writes_receivers(rt: &impl Abort, alloc: Global, course: &Course) -> Result<(), Fail> {
//!     let mut room = [7, 7, 7];
//!     assert!(rt; put_receivers(alloc, course, 0, &mut room)? == 2);
//!     assert!(rt; room[0] == 3 && room[1] == 4 && room[2] == 7);
//!     let mut short = [7];
//!     assert!(rt; put_receivers(alloc, course, 0, &mut short)? == 1);
//!     assert!(rt; short[0] == 3);
//!     Ok(())
//! }
//! ```
//!
//! Its tests are in `crates/squall_test_tables/src/rooms.rt`.
#![tactic(auto)]

mod frames;
mod legs;
mod moves;
mod places;
mod spans;
mod tail;

pub use frames::{NO_COUNT, put_report};
pub use legs::{CLeg, put_ranges};
pub use moves::{CMove, put_moves, put_receivers};
pub use places::{CPlace, put_places};
pub use spans::{CSpan, c_span, put_spans};
