//! Scenarios: lines that set up plans, bring reports, let events happen in a world, put rows in it, and
//! ask, and what answers them.
//!
//! Its tests are the cases of `cases/run`.
#![tactic(auto)]

mod command;
mod frames;
pub mod laws;
mod legs;
mod replies;
mod rows;
mod scenario;
mod worlds;

pub use scenario::Scenario;
