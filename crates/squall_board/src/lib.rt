//! Boards: what was reported, and to which partition that sends each key.
//!
//! # Example
//!
//! A board takes a load, which moves a key of the course from partition 1 to 3. The course and the
//! load are those of the crate `squall_test_example`.
//!
//! ```rust
//! fn load_moves_a_key(rt: &impl Abort, course: &Course, board: &mut Board) -> Result<(), Fail> {
//!     let key = Key::read("2:0").ok_or("key")?;
//!     assert!(rt; board.route(course, key).get() == 1);
//!     let report = load("2:0", "3:0").ok_or("load")?;
//!     board.take(&report)?;
//!     assert!(rt; board.says_loaded(1, 0, 3, key));
//!     assert!(rt; board.route(course, key).get() == 3);
//!     Ok(())
//! }
//! ```
//!
//! Its tests are in `crates/squall_test_boards/src/board.rt`.
#![tactic(auto)]

mod beyond;
mod board;
mod cell;
mod facts_laws;
pub mod laws;
mod lent;
mod list;
mod listed;
mod newest;
mod opening;
mod put;
mod route_laws;
mod update;

pub use board::{Board, CellParts, Delta};
pub use cell::Cell;
pub use newest::issued_course;
pub use opening::Opening;
