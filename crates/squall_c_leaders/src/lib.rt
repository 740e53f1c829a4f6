//! Leaders behind handles: what they hear, which frames they send, the law of their logs, and the plan of
//! where a course leaves the keys.
//!
//! Its tests are in `bindings/c/leader_tests.c` and `bindings/c/leader_heap_tests.c`.
#![tactic(auto)]

mod fault;
mod feeding;
mod gathering;
mod hearing;
pub mod laws;
mod left;
mod node;

pub use fault::{LeftTextFault, RepairFault};
pub use left::left_text;
pub use node::LeaderNode;
