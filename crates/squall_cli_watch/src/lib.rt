//! Watches how far a course comes: takes the frames of boards from an input as they come,
//! and writes the lines of the status that change, or its JSON object. On a terminal it also draws a
//! bar.
//!
//! Its tests are the cases of `cases/watch`, `tools/faults/terminal` and `tools/faults/failing-system`.
#![tactic(auto)]

mod bar;
mod changed;
mod ending;
mod frames;
mod piece;
mod refusal;
mod status;
mod watcher;

pub use bar::{Bar, bar_text};
pub use ending::WatchEnd;
pub use frames::watch;
