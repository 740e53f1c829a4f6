//! Routers, which answer for each key which partition to ask. Errands, which bring a key to its
//! partition by what partitions reply, start at a router.
//!
//! # Example
//!
//! `course` moves the keys from 2:0 to 3:0 from partition 1 to 3, and `load` reports that they are
//! loaded.
//!
//! ```rust
//! fn takes_a_load(
//!     rt: &impl Abort,
//!     alloc: Global,
//!     course: &Arc<Course>,
//!     load: &Report,
//! ) -> Result<(), Fail> {
//!     let key = Key::read("2:0").ok_or("a key")?;
//!     let mut router = Router::new(alloc, course)?;
//!     assert!(rt; router.route(key).get() == 1);
//!     router.take(load)?;
//!     assert!(rt; router.route(key).get() == 3);
//!     assert!(rt; router.course().number() == 1);
//!     Ok(())
//! }
//! ```
//!
//! Its tests are in `crates/squall_test_nodes/src/router.rt`.
#![tactic(auto)]

mod fault;
mod hear;
mod held;
mod issues;
mod known;
pub mod laws;
mod newest;
mod router;
mod small;

pub use fault::AbsorbFault;
pub use router::Router;
pub use squall_errand::{Errand, Next, Reply, Routes};
