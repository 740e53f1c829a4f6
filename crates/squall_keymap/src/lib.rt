//! The key of a row whose own key is bytes, as in a store of texts.
//!
//! All programs of a deployment have to map a row to the same key. [`key_of`] is that map. Bytes that
//! begin with two numbers, as `2:7` or `2:7:cart`, belong to the key of these numbers. All others
//! belong to the key of their hash, which may be any key. If they have a tag, as `cart{17}`, only the
//! bytes of the tag are hashed, so rows of one tag stay together.
//!
//! # Example
//!
//! A row of a pair, and two rows of one tag:
//!
//! ```rust
//! fn rows_and_their_keys(rt: HostRuntime) {
//!     assert!(rt; Some(key_of(b"2:7:cart")) == Key::new(2, 7));
//!     assert!(rt; key_of(b"cart{17}") == key_of(b"basket{17}"));
//!     assert!(rt; key_of(b"cart{17}") == key_of(b"17"));
//! }
//! ```
//!
//! Its tests are in `crates/squall_test_values/src/keymap.rt`.
#![tactic(auto)]

mod hash;
mod keymap;
pub mod laws;
mod tag;

pub use keymap::key_of;
