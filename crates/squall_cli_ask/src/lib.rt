//! Answers what is asked, at once or as it comes: reads the files that the words name, and answers what
//! is asked of them, or standard input by them. That is keys or the frames of boards, which are answered
//! by the newest course of two plans.
//!
//! What the program tells on standard error, and its statuses, are here too.
//!
//! Its tests are the cases of `cases/` and `tools/faults/failing-system`.
#![tactic(auto)]

mod answer;
mod audit;
mod bad_report;
mod console;
mod files;
mod inquiry;
mod keys;
pub mod laws;
mod lines;
mod messages;
mod reading;
mod shown;
mod stream;
mod watching;

pub use answer::answer_files;
pub use console::Console;
pub use files::Files;
pub use inquiry::answer_inquiry;
pub use lines::answer_keys;
pub use messages::{
    BAD_WORDS, say_named, tell_fault, tell_file_outcome, tell_outcome, tell_unopened,
};
pub use reading::read_named;
pub use stream::answer_stream;
pub use watching::watch_files;
