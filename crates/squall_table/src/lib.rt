//! Route tables: the legs of all keys, each with the partition to ask, built from a course and a
//! board and patched for what a delta changed.
//!
//! A table has one leg for each longest run of keys that are asked for at one partition, by rising
//! key. So a course and a board have one table, however it came to be.
//!
//! Legs are kept in blocks, each as the bound at which it ends, with its partition. So a patch
//! moves only entries of the blocks that it changes, however many legs there are.
//!
//! # Example
//!
//! `course` moves the keys from 2:0 to 3:0 from partition 1 to 3, and `load` reports that they are
//! loaded.
//!
//! ```rust
//! fn takes_a_load(
//!     rt: &impl Abort,
//!     alloc: Global,
//!     course: &Course,
//!     load: &Report,
//! ) -> Result<(), Fail> {
//!     let key = Key::read("2:0").ok_or("a key")?;
//!     let mut board = Board::new(alloc);
//!     let table = RouteTable::build(alloc, course, &board)?;
//!     assert!(rt; table.owner(key).get() == 1);
//!     let ready = table.prepare(course, News::Report(load)).ok();
//!     let ready = ready.ok_or("a patch")?;
//!     board.take(load)?;
//!     assert!(rt; ready.make().owner(key).get() == 3);
//!     Ok(())
//! }
//! ```
//!
//! Its tests are in `crates/squall_test_tables/src/table.rt`.
#![tactic(auto)]

mod entries;
mod fresh;
pub mod laws;
mod legs;
mod load;
mod meter;
mod near;
mod news;
mod patch;
mod ready;
mod routes;
mod runs;
mod search;
mod single;
mod table;
mod touch;
mod view;

pub use meter::Meter;
pub use news::News;
pub use ready::Ready;
pub use table::{Leg, RouteTable};
pub use touch::touched;
pub use view::Legs;
