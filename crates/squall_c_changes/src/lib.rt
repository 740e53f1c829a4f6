//! The keys for which two route tables differ, as spans by rising key.
//!
//! # Example
//!
//! Two tables of one course: one before any report, and one after a load of the keys from 2:0 to 2:5
//! and the completion of partition 4.
//!
//! ```rust
//! fn lists_the_changes(rt: &impl Abort, before: &RouteTable, after: &RouteTable) {
//!     let mut room = [CSpan { lo: 0, hi: 0 }; 4];
//!     assert!(rt; put_changes(before, after, 0, u64::MAX, &mut room) == 2);
//!     // The keys from 2:0 on, below 2:5, and then those from 6:0 on, below 9:0.
//!     assert!(rt; room[0].lo == 8589934592 && room[0].hi == 8589934597);
//!     assert!(rt; room[1].lo == 25769803776 && room[1].hi == 38654705664);
//!     assert!(rt; put_changes(after, after, 0, u64::MAX, &mut room) == 0);
//! }
//! ```
//!
//! Its tests are in `crates/squall_test_tables/src/changes.rt`.
#![tactic(auto)]

pub mod laws;
mod put;
mod side;
mod walk;

pub use laws::owners_are_partitions;
pub use put::{put_changes, put_each_key};
