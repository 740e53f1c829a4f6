//! Events of a world and commands on rows as lines, and their answers as texts.
//!
//! Its tests are the cases of `cases/run`.
#![tactic(auto)]

mod answers;
mod events;
mod most;
mod nodes;
mod rows;
mod texts;
mod words;

pub use answers::add_answer;
pub use events::{Unfit, event_of};
pub use rows::{RowWords, add_row, row_line};
pub use words::{EventWords, NodeWords, event_line};
