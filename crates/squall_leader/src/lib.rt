//! The leader, which begins one reconfiguration after another and opens their sub-plans.
//!
//! # Example
//!
//! A leader that has begun nothing has a course of one sub-plan run to the new plan:
//!
//! ```rust
//! fn course_runs(rt: &impl Abort, leader: &mut Leader, new: &Plan, done: &Board) -> Option<()> {
//!     assert!(rt; leader.begin(new).is_ok());
//!     assert!(rt; leader.open_next().is_ok());
//!     // The receivers of sub-plan 0 are waited for.
//!     assert!(rt; matches!(leader.open_next(), Err(LeaderFault::NotDone { sub: 0, .. })));
//!     assert!(rt; matches!(leader.begin(new), Err(LeaderFault::Running)));
//!     leader.absorb(done).ok()?;
//!     assert!(rt; matches!(leader.open_next(), Err(LeaderFault::NoMore)));
//!     assert!(rt; leader.finished());
//!     Some(())
//! }
//! ```
//!
//! Its tests are in `crates/squall_test_nodes/src/leader.rt`.
#![tactic(auto)]

mod fault;
pub mod laws;
mod leader;
pub mod left;
mod waiting;

pub use fault::{LeaderFault, LeftFault};
pub use leader::Leader;
