//! Errands: each finds the partition that holds a key, by the replies of the partitions that it
//! asks.
//!
//! # Example
//!
//! Partition 1 gave the key to partition 3, in reconfiguration 1.
//!
//! ```rust
//! fn follows_the_replies(rt: HostRuntime) -> Result<(), Fail> {
//!     let source = PartId::new(1).ok_or("a partition")?;
//!     let dest = PartId::new(3).ok_or("a partition")?;
//!     let mut errand = Errand::at(source);
//!     assert!(rt; errand.asked() == source);
//!     assert!(rt; errand.heed(Reply::Moved { dest, number: 1 }) == Next::Ask(dest));
//!     assert!(rt; errand.asked() == dest);
//!     assert!(rt; errand.heed(Reply::Pending { source }) == Next::Again(dest));
//!     assert!(rt; errand.heed(Reply::Held) == Next::Served);
//!     Ok(())
//! }
//! ```
//!
//! Its tests are in `crates/squall_test_nodes`.
#![tactic(auto)]

mod errand;
pub mod laws;
mod routes;

pub use errand::{Errand, Next, Reply};
pub use routes::Routes;
