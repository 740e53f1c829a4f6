//! A world whose keys have rows: commands run on the row of a key at a partition, and rows travel with
//! chunks.
//!
//! A [`RowWorld`] is a [`World`](squall_world::World) that keeps rows of bytes in memory for each
//! partition, and for each chunk a copy of those that it brings. [`RowWorld::promised`] says of every
//! such world, whatever happened in it: all its partitions and chunks together are one map.
//!
//! # Example
//!
//! A row that was put at one partition is got at another one, once the key was given and loaded:
//!
//! ```rust
//! fn row_moves(
//!     rt: &impl Abort,
//!     world: &mut RowWorld,
//!     key: Key,
//!     from: PartId,
//!     to: PartId,
//!     put: &Command,
//! ) -> Option<()> {
//!     assert!(rt; matches!(world.ask(from, key, 0, put), Ok(RowAnswer::Ran(None))));
//!     assert!(rt; matches!(world.step(&Event::GiveAt(from, key)), Ok(Answer::Gave { index: 0, .. })));
//!     assert!(rt; matches!(world.step(&Event::Load(0)), Ok(Answer::Loaded(_))));
//!     assert!(rt; matches!(world.ask(to, key, 1, &Command::Get), Ok(RowAnswer::Ran(Some(_)))));
//!     Some(())
//! }
//! ```
//!
//! The test is in `crates/squall_test_store/src/world_rows/example.rt`.
#![tactic(auto)]

mod asking;
mod moving;
mod promise;
mod rows;
mod sent;
mod starting;
mod steps;
mod world;

pub use asking::RowAnswer;
pub use squall_store::{Bytes, Command};
pub use squall_world::{Answer, Event, MOST_ROUTERS, Node, Refusal, WorldFault};
pub use world::RowWorld;
