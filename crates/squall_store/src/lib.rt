//! A partition with its rows, over a database of the host.
//!
//! A [`Store`] is a [`Part`](squall_part::Part) and a database that has the trait [`Rows`]. It runs
//! a command only if the partition holds the key, and puts the rows of a chunk in place before the
//! partition loads the chunk. So the rows of all stores together are one map, of which
//! `squall_rows::one_map` is the theorem.
//!
//! [`MemoryRows`] are such a database: values of bytes in memory.
//!
//! # Example
//!
//! A key goes from one store to another, and its row with it:
//!
//! ```rust
//! fn row_moves(
//!     rt: &impl Abort,
//!     alloc: Global,
//!     source: &mut Store<MemoryRows>,
//!     dest: &mut Store<MemoryRows>,
//! ) -> Option<()> {
//!     let key = Key::new(2, 7)?;
//!     let put = Command::Put(Bytes::new(alloc, b"seven").ok()?);
//!     assert!(rt; ran(source.ask(key, 0, &put))?.is_none());
//!     let chunk = source.give_at(key).ok()?;
//!     let rows = source.copy(&chunk).ok()?;
//!     assert!(rt; matches!(dest.load(&chunk, &rows), Ok(Load::Loaded(_))));
//!     let row = ran(dest.ask(key, 1, &Command::Get))??;
//!     assert!(rt; row.as_slice() == b"seven".as_slice());
//!     Some(())
//! }
//! ```
//!
//! `ran` is the reply of a command that ran. The tests are in `crates/squall_test_store/src/example.rt`.
#![tactic(auto)]

mod bytes;
pub mod calls;
mod command;
pub mod laws;
mod memory;
mod rows;
mod store;

pub use bytes::Bytes;
pub use command::Command;
pub use memory::MemoryRows;
pub use rows::Rows;
pub use store::{Asked, Store};
