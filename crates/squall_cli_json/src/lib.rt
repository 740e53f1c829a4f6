//! What the program answers, as JSON: each answer as one JSON object.
//!
//! Its tests are in `crates/squall_test_status/src/json.rt`.
#![tactic(auto)]

mod board;
mod cell;
mod course;
mod plan;
mod refusal;
mod status;
mod write;

pub use board::board_json;
pub use course::course_json;
pub use plan::{legs_json, plan_json};
pub use refusal::refusal_json;
pub use status::status_json;
