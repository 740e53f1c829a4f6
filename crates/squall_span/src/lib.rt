//! Spans of keys, and sets of keys.
//!
//! A span has the keys from a low bound on, below a high one. A set of keys is kept as spans in
//! order, none of which overlaps or touches the next. So each set has exactly one list of spans.
//!
//! # Example
//!
//! A set gets two spans, and then the keys between them (`Bound` and `Key` are of `squall_key`).
//!
//! ```rust
//! fn set_of_two_spans(rt: HostRuntime) -> Result<(), Fail> {
//!     let two = Bound::new(2, 0).expect(&rt, "a bound");
//!     let five = Bound::new(5, 0).expect(&rt, "a bound");
//!     let nine = Bound::new(9, 0).expect(&rt, "a bound");
//!     let mut set = SpanSet::empty(rt.alloc());
//!     set.insert(Span::new(two, five).expect(&rt, "a span"))?;
//!     set.insert(Span::new(nine, Bound::TOP).expect(&rt, "a span"))?;
//!     assert!(rt; set.has(Key::new(2, 0).expect(&rt, "a key")));
//!     assert!(rt; !set.has(Key::new(5, 0).expect(&rt, "a key")));
//!     set.insert(Span::new(five, nine).expect(&rt, "a span"))?;
//!     assert!(rt; set.len() == 1);
//!     Ok(())
//! }
//! ```
//!
//! Its tests are in `crates/squall_test_values/src/span.rt`.
#![tactic(auto)]

mod algebra;
mod alone;
mod changes;
mod common;
mod draft;
mod edit;
pub mod laws;
mod list;
mod many;
mod near;
mod ready;
mod search;
mod set;
mod span;
mod spans;
mod sweep;
mod walk;

pub use draft::SetDraft;
pub use list::SpanList;
pub use ready::ReadySet;
pub use set::SpanSet;
pub use span::Span;
pub use spans::Spans;
