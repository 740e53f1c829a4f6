//! The bytes of a log on disk: entries, each with its length, checksums and payload.
//!
//! A process that dies while it writes leaves a torn tail: a part of its last entry. So a log that
//! is read again has whole entries and then nothing, a torn tail, or damage. [`first_entry`] tells
//! these apart. A log that was cut off anywhere is never taken for a damaged one.
//!
//! # Example
//!
//! A log of two entries, of which the second is cut off:
//!
//! ```rust
//! fn torn_tail_is_cut(rt: &impl Abort, alloc: Global) -> Result<(), LogFault> {
//!     let mut log = Vec::new(alloc);
//!     push_entry(&mut log, b"first")?;
//!     push_entry(&mut log, b"second")?;
//!     let cut = log.split_at(log.len() - 1).0;
//!     let Ok((payload, rest)) = first_entry(cut) else {
//!         return Ok(());
//!     };
//!     assert!(rt; payload == b"first".as_slice());
//!     assert!(rt; matches!(first_entry(rest), Err(End::Torn)));
//!     Ok(())
//! }
//! ```
#![tactic(auto)]

mod check;
mod entry;
mod fault;
pub mod laws;
mod writing;

pub use entry::{End, PAYLOAD_LIMIT, first_entry};
pub use fault::LogFault;
pub use writing::push_entry;
