//! Values that only grow: join semilattices, and maps, pairs and sets of keys as such.
//!
//! A join of two values is the least value that has all that either has. Values that are joined in
//! any order, and any number of times, give the same value.
//!
//! # Example
//!
//! A map of greatest numbers takes another one, and a second time without a change.
//!
//! ```rust
//! fn joins_maps(rt: HostRuntime) -> Result<(), AllocError> {
//!     let mut map = JoinMap::single(rt.alloc(), 1u32, Max::new(3))?;
//!     let other = JoinMap::single(rt.alloc(), 2u32, Max::new(5))?;
//!     assert!(rt; !map.covers(&other));
//!     map.join_in(rt.alloc(), &other)?;
//!     assert!(rt; map.covers(&other) && map.len() == 2);
//!     map.join_in(rt.alloc(), &other)?;
//!     assert!(rt; map.len() == 2);
//!     Ok(())
//! }
//! ```
//!
//! Its tests are in `crates/squall_test_values/src/join.rt`.
#![tactic(auto)]

mod basic;
mod beyond;
mod draft;
mod flat;
mod join;
pub mod laws;
mod map;
mod merge;
mod pair;
mod rest;
mod search;
mod set;
mod shared;
mod update;

pub use basic::{Flag, Max};
pub use beyond::Beyond;
pub use flat::{Exact, Flat};
pub use join::{Join, Whole};
pub use map::{JoinMap, MapKey};
pub use pair::Pair;
pub use shared::Shared;
pub use update::{Update, UpdateAt};
