//! How far a reconfiguration has come: what is loaded and what is missing, by a course and a board. Also a
//! board in numbers, and whether issues of a newer course clash.
//!
//! # Example
//!
//! A course has two moves, of a quarter and of three quarters of the keys. The second is complete
//! once its receiver, partition 4, is done.
//!
//! ```rust
//! fn one_of_two_moves(
//!     rt: &impl Abort,
//!     alloc: Global,
//!     course: &Course,
//!     board: &mut Board,
//! ) -> Result<(), Fail> {
//!     board.take(&Report::done(1, 0, 4).ok_or("report")?)?;
//!     let status = CourseStatus::of(alloc, course, board)?;
//!     let moves = status.moves();
//!     assert!(rt; !moves.first().ok_or("the first move")?.progress.is_complete());
//!     assert!(rt; moves.get(1).ok_or("the second move")?.progress.is_complete());
//!     assert!(rt; status.thousandths() == 750);
//!     Ok(())
//! }
//! ```
//!
//! A board takes a load, and is counted. The load is that of the crate `squall_test_example`.
//!
//! ```rust
//! fn counts_a_board(rt: &impl Abort, board: &mut Board) -> Result<(), Fail> {
//!     let report = load("2:0", "2:5").ok_or("load")?;
//!     board.take(&report)?;
//!     let tally = Tally::of(board)?;
//!     assert!(rt; tally.cells == 1 && tally.spans == 1);
//!     assert!(rt; tally.opened == 0 && tally.issues == 0);
//!     assert!(rt; !clashes_above(board, 1)?);
//!     Ok(())
//! }
//! ```
//!
//! Its tests are in `crates/squall_test_status/src/status.rt` and `crates/squall_test_status/src/tally.rt`.
#![tactic(auto)]

mod clash;
pub mod laws;
mod moving;
mod progress;
mod renewed;
mod share;
mod status;
mod subplan;
mod tally;
mod text;

pub use clash::clashes_above;
pub use progress::{MoveStatus, Progress};
pub use share::{complete_moves, course_share, ended_subplans};
pub use status::CourseStatus;
pub use subplan::SubplanStatus;
pub use tally::Tally;
pub use text::{Shown, add_course_line, add_move_line, add_status, add_subplan_line};
