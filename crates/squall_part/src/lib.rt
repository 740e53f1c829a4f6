//! Partitions while data moves: what each holds, gives, loads, reports and replies.
//!
//! # Example
//!
//! Two partitions have heard that sub-plan 0 of course 1 is opened; `Reply` is of `squall_errand`:
//!
//! ```rust
//! fn keys_move(rt: &impl Abort, giver: &mut Part, receiver: &mut Part, key: Key) -> Option<()> {
//!     let (source, dest) = (giver.id(), receiver.id());
//!     let chunk = giver.give(u64::MAX).ok()?;
//!     assert!(rt; giver.serve(key, 0) == Reply::Moved { dest, number: 1 });
//!     assert!(rt; receiver.serve(key, 1) == Reply::Pending { source });
//!     assert!(rt; matches!(receiver.load(&chunk), Ok(Load::Loaded(_))));
//!     assert!(rt; receiver.serve(key, 1) == Reply::Held);
//!     // A chunk that comes again changes nothing.
//!     assert!(rt; matches!(receiver.load(&chunk), Ok(Load::Again)));
//!     assert!(rt; receiver.finish(0).is_ok());
//!     Some(())
//! }
//! ```
//!
//! Its tests are in `crates/squall_test_nodes/src/part.rt`.
#![tactic(auto)]

mod absorbing;
mod closing;
mod finishing;
mod giving;
mod knowing;
pub mod laws;
mod loading;
mod log;
mod moving;
mod part;
mod serving;

pub use finishing::FinishFault;
pub use giving::GiveFault;
pub use loading::{Load, LoadFault};
pub use part::Part;
pub use squall_protocol::Chunk;
