//! Partitions that are rebuilt from a log of their calls: a log leads to one partition.
//!
//! The example `bindings/c/examples/node/` rebuilds a partition from a log.
#![tactic(auto)]

mod call;
mod fault;
pub mod laws;
mod rebuilding;

pub use call::{Answer, Call};
pub use fault::CallFault;
pub use rebuilding::replay;
