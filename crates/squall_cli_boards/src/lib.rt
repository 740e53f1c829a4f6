//! What the commands over files answer: the lines of a board, the frames of what boards tell, routes,
//! plans and keys.
//!
//! A board file is the frames of a board, one after the other. Several files are joined.
//!
//! Its tests are the cases of `cases/`.
#![tactic(auto)]

mod answer;
mod boards;
mod courses;
mod exchange;
mod file;
mod frames;
mod hearing;
mod inquiry;
mod joining;
mod known;
mod planned;
mod plans;
mod refusals;
mod report_words;
mod routes;
mod shared;
mod words;

pub use answer::Answer;
pub use courses::status_text;
pub use file::NamedFile;
pub use inquiry::answer_to;
pub use known::{Known, newest_of};
pub use plans::plans_in;
pub use report_words::{is_report, report_files};
