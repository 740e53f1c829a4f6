//! A store in memory with a log on disk.
//!
//! A [`LoggedStore`] is a [`Store`](squall_store::Store) of [`MemoryRows`](squall_store::MemoryRows)
//! and the bytes that wait to be written to its log. Each call that changes the store adds a
//! [`Record`] to them. [`LoggedStore::open`] makes the calls of a log again. If the log was cut off
//! anywhere, that is the store after the calls whose records are whole.
//!
//! # Example
//!
//! A value that was put is there after the store is opened from its log, and a torn tail is cut:
//!
//! ```rust
//! fn row_is_kept(
//!     rt: &impl Abort,
//!     alloc: Global,
//!     store: &mut LoggedStore,
//!     again: Part,
//!     key: Key,
//! ) -> Option<()> {
//!     let put = Record::Put(key, Bytes::new(alloc, b"seven").ok()?);
//!     assert!(rt; store.call(&put, 0).is_ok());
//!     let mut log = Vec::from_slice(alloc, store.waiting()).ok()?;
//!     log.extend_from_slice(&[0, 0]).ok()?;
//!     let mut opened = LoggedStore::open(alloc, again, &log).ok()?;
//!     assert!(rt; opened.size + 2 == log.len() && opened.end == End::Torn);
//!     let row = opened.store.get(key, 0).ok()??;
//!     assert!(rt; row.as_slice() == b"seven".as_slice());
//!     Some(())
//! }
//! ```
//!
//! `again` is the partition as it was when the log was begun, and the store had written nothing
//! before. The crate `squall_store_node` is a process that serves such a store over lines.
#![tactic(auto)]

mod answer;
mod batch;
mod disk;
mod fault;
mod fields;
pub mod laws;
mod listed;
mod logged;
mod make;
mod opening;
mod parts;
mod reading;
mod record;
mod rows;
mod writing;

pub use answer::{Answer, MakeFault};
pub use disk::Disk;
pub use fault::ReadFault;
pub use listed::Listed;
pub use logged::LoggedStore;
pub use opening::{Opened, Stop};
pub use reading::read_record;
pub use record::Record;
pub use writing::payload_of;
