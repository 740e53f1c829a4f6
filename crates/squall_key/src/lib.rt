//! Keys, the bounds between them, and the partitions that keep them.
//!
//! A key is a pair of numbers, `root:second`. Keys are ordered by root, then by second. The rank of
//! a key or a bound, `root * 2^32 + second`, is its place in that order. Contracts see a key or a
//! bound as its rank, and a partition as its number.
//!
//! # Example
//!
//! A key is read from text, and compared with other keys and with bounds.
//!
//! ```rust
//! fn keys_and_bounds(rt: HostRuntime) {
//!     let key = Key::read("2:7").expect(&rt, "a key");
//!     assert!(rt; (key.root(), key.second()) == (2, 7));
//!     assert!(rt; Some(key) == Key::of_rank(8589934599));
//!     assert!(rt; Some(key) < Key::new(3, 0));
//!     assert!(rt; Bound::of_key(key) < Bound::TOP);
//!     assert!(rt; Bound::read("end") == Some(Bound::TOP));
//!     assert!(rt; Key::read("end").is_none());
//!     assert!(rt; PartId::new(10000).is_none());
//! }
//! ```
//!
//! Its tests are in `crates/squall_test_values/src/key.rt`.
#![tactic(auto)]

mod bound;
mod key;
pub mod laws;
mod number;
mod part;
mod search;

pub use bound::Bound;
pub use key::Key;
pub use number::read_number;
pub use part::{PART_LIMIT, PartId};
pub use search::{Ends, ended};
