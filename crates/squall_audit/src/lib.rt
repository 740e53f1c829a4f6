//! Laws of logs: whether what nodes wrote down is a run of the protocol.
//!
//! Each node of a real system writes a log: a line for each thing that it did, with its answer, and
//! for each report that it received. The theorem says how an audit of such logs goes, and what its
//! verdict means:
//!
//! 1. Begin with the first plans. Of all logs take any next line that can come then: the node
//!    could do this and answer so, or some node knew what this one received.
//! 2. Go on until no next line can come.
//! 3. If each log is used up, there is a run of the world in which each node did exactly what its
//!    log says. So all that is proved of runs holds of what happened.
//! 4. If lines are left, then no run has any of them. Neither another order of lines, nor other
//!    messages would have helped.
//!
//! [`laws::what_comes_happens`] is step 3, taken line by line. Step 4 is [`laws::logs_are_judged`],
//! or in one sentence [`laws::what_is_left_is_in_no_run`]. If the logs have lines for what was
//! sent, too, [`laws::merging_is_complete`] is all of it.
//!
//! # Why no choice has to be taken back
//!
//! A check of histories mostly has to search for an order of concurrent steps that fits. Here any
//! order does. A node acts by what it knows and keeps itself, and its own log decides that
//! ([`laws::logs_tell`]). All else that it needs is that something *has happened*: its chunk was
//! given, a report is known, a plan has named the partition, a key lies where the next course
//! begins. Other nodes never undo that ([`laws::events_enable`]). So a line that can come now can
//! come later, too.
//!
//! Two answers say that something has *not* happened yet: that what is named is not there, and that
//! a key lies elsewhere than in the plan from which a course is to begin early. They change nothing,
//! and have no line.
//!
//! # What an audit does not find
//!
//! - Something that never happens: a mover that stops in the middle leaves the logs of a run.
//! - Logs that lie consistently: a node that writes what it should have done.
//! - When a line happened, if someone else writes it than who does it. A reply that only the proxy
//!   writes down may be put earlier than it was given, and then a stale answer passes. So write the
//!   line where the deed is done, and in the same step.
//! - The lines of a lost tail. If a log was cut off, then lines of other logs that rest on its lost
//!   lines are named as well.
//!
//! The laws are about lines as values. `squall_judge` merges such logs, and `squall audit` reads their
//! texts.
#![tactic(auto)]

pub mod laws;

pub use laws::merging_is_complete;
