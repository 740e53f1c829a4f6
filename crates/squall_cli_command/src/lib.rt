//! The words of the command line: what they ask for, and what is shown if they ask for help or
//! for nothing that there is.
//!
//! Its tests are the cases of `cases/`.
#![tactic(auto)]

mod boards;
mod courses;
mod exchange;
mod form;
mod inquiry;
pub mod laws;
mod line;
mod other;
mod parser;
mod stream;
mod task;

pub use form::Form;
pub use inquiry::{Ask, Inquiry, StatusAsk};
pub use line::{command, message};
pub use stream::{Follow, Stream, WatchAsk};
pub use task::{LineFault, Task};
