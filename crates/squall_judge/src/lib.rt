//! A judge of logs: whether what nodes wrote down is a run of the protocol.
//!
//! Each node writes a log of what it did, with each answer, and of what it received. [`judge`] takes
//! the logs and both plans, and merges the logs: of any log it takes the next entry that can come
//! then. It makes what a node did in a world of its own, compares the answers, finds chunks by what is
//! in them, and believes a report only if the node from which it comes knows it.
//!
//! - `Accepted`: there is a run in which each node did exactly what its log says. So all that is proved
//!   of runs holds of what happened ([`promises`](squall_protocol::promises)).
//! - `Refused`: so many first entries of each log are in a run, and no run has more of any log. No
//!   choice that the judge made matters (`squall_audit`). Each log with entries left has a [`Cause`].
//!
//! # Example
//!
//! A router says that it heard of the first sub-plan, and no leader says that it opened one. `log` and
//! the plans are of `squall_test_audit`:
//!
//! ```rust
//! fn hearsay(alloc: Global, old: &Plan, new: &Plan) -> Option<bool> {
//!     let heard = Entry::Heard(Report::opened(1, 0)?);
//!     let router = log(alloc, Node::Router(0), [heard])?;
//!     let leader = log(alloc, Node::Leader, [])?;
//!     match judge(alloc, old, new, &[router, leader]) {
//!         Ok(Judgment::Refused { taken, .. }) => Some(taken.as_slice() == [0, 0].as_slice()),
//!         Ok(Judgment::Accepted) | Err(_) => Some(false),
//!     }
//! }
//! ```
//!
//! # What it costs
//!
//! A chunk is found in a map, by what is in it. A log goes on as long as it can, and then the logs are
//! tried from the first on. If a node answers otherwise than its log says, all is taken anew up to
//! there: once for each such log, since a world cannot go back.
//!
//! Its tests are in `crates/squall_test_audit`.
#![tactic(auto)]

mod causes;
mod content;
mod given;
mod heads;
mod judging;
mod judgment;
mod log;
mod merge;
mod same;
mod same_answer;
mod stage;
mod turn;

pub use judging::judge;
pub use judgment::{Cause, JudgeFault, Judgment};
pub use log::{Entry, Log};
