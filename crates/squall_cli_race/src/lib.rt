//! Races by the lines of a file. The lines say which plans there are, how many senders and readers, what
//! each sender posts, and which keys are routed. What is shown is the board that the race comes to.
//!
//! An error of a call that "fails (memory)" means that an allocation failed, or that a count of
//! owners is full.
//!
//! Its tests are in `crates/squall_test_threads/src/race.rt`.
#![tactic(auto)]

mod file;
pub mod laws;
mod line;
mod lines;
mod show;

pub use show::answer_race;
