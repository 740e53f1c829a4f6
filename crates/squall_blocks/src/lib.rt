//! Entries by rising end, kept in blocks: an edit moves the entries of one block, however many
//! there are in all.
//!
//! An entry has a value, and a bound at which it ends. A key belongs to the first entry that ends
//! beyond it. Contracts see one list of entries, and no blocks.
//!
//! # Example
//!
//! One entry has the keys below 2:0, and another one all others (`Bound` is of `squall_key`).
//!
//! ```rust
//! fn entries_above_a_key(rt: HostRuntime) -> Result<(), Fail> {
//!     let zero = Bound::new(0, 0).expect(&rt, "a bound");
//!     let two = Bound::new(2, 0).expect(&rt, "a bound");
//!     let mut fresh: Entries<u16> = Entries::new(rt.alloc());
//!     fresh.push(two, 1)?;
//!     fresh.push(Bound::TOP, 3)?;
//!     assert!(rt; fresh.is_between(zero, Bound::TOP));
//!     let mut blocks: Blocks<u16> = Blocks::new(rt.alloc());
//!     blocks.replace(rt.alloc(), zero, Bound::TOP, &fresh)?;
//!     assert!(rt; blocks.above(zero) == Some((two, 1)));
//!     assert!(rt; blocks.above(two) == Some((Bound::TOP, 3)));
//!     assert!(rt; blocks.end_before(two, zero) == two);
//!     Ok(())
//! }
//! ```
//!
//! Its tests are in `crates/squall_test_values/src/blocks.rt`.
#![tactic(auto)]

mod blocks;
mod draft;
mod edit;
mod entries;
mod iter;
mod lent;
mod prepared;
mod ready;
mod room;
mod search;
mod steps;

pub use blocks::Blocks;
pub use draft::Draft;
pub use entries::Entries;
pub use iter::Iter;
pub use lent::BlocksRef;
pub use prepared::{Prepared, Unprepared, Unready};
pub use room::ReadyEntries;
