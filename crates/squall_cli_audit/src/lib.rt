//! Logs of nodes as texts, and what `squall audit` answers: whether a run of a world has them.
//!
//! The text of a log has a line for each thing that a node did or received. Its first line names the
//! node. Lines without a word, and those that begin with `#`, say nothing.
//!
//! | First line | The other lines |
//! |---|---|
//! | `node leader` | `begin N C NEW`, `begin-from N C OLD NEW`, `open S` |
//! | `node part P` | `give LO HI to P course N sub S`, `load LO HI from P course N sub S new`, or `again`, `done N S`, `close N`, `serve K after A REPLY` |
//! | `node router R` | `route K P` |
//! | any of these | `heard loaded N S P LO HI`, `heard done N S P`, `heard opened N S`, `heard issued N OLD NEW` |
//!
//! A reply is `held`, `moved P N`, `pending P`, `behind` or `elsewhere P`. `C` is how many partitions there
//! are once the course is begun. A span of one key is given as that key. Any longer span is given as the
//! first keys that are to go, as many as it has.
//!
//! An error of a call that "fails (memory)" means that an allocation failed, or that a count of
//! owners is full.
//!
//! Its tests are in `crates/squall_test_cli_audit`.
#![tactic(auto)]

mod answer;
mod cause;
mod entry;
mod file;
mod files;
pub mod laws;
mod leader;
mod node;
mod part;
mod show;
mod text;
mod words;

pub use answer::answer_audit;
pub use file::LogFile;
