//! The text of scenarios and races: the words of their lines, and reports as lines. It also says
//! why a line is bad, and how a board, a route and legs are shown.
//!
//! Its tests are the cases of `cases/run` and `cases/race`.
#![tactic(auto)]

mod board_text;
mod plans;
mod reason;
mod reports;
mod routes;
pub mod words;

pub use board_text::add_board;
pub use plans::read_plan;
pub use reason::{Reason, add_bad_line};
pub use reports::{ReportWords, report_line};
pub use routes::{add_legs, add_route};
