//! Plans: which partition has which range of keys.
//!
//! A plan is read from a text, or made of ranges in any order. It has one list of ranges: by rising
//! key from 0:0 to the end without a gap, neighbours of different partitions. Contracts see a plan
//! as that list. The text of a plan reads as the same plan.
//!
//! The answer for a text or for ranges is defined twice. One definition is a function. The other is
//! its meaning: how many ranges have each key, and which partition owns it.
//!
//! # Examples
//!
//! A plan is read from text, and names the partition of a key (`Key` is of `squall_key`).
//!
//! ```rust
//! fn plan_of_two_ranges(rt: HostRuntime) -> Result<(), Fail> {
//!     let text = concat!(
//!         r#"{"plan":[{"part":3,"from":[2,0],"to":"end"},"#,
//!         r#"{"part":1,"from":[0,0],"to":[2,0]}]}"#,
//!     );
//!     let key = Key::new(2, 7).expect(&rt, "a key");
//!     let plan = Plan::read(rt.alloc(), text.as_bytes())?;
//!     assert!(rt; plan.owner(key).get() == 3);
//!     assert!(rt; plan.ranges().len() == 2);
//!     let other = Plan::read(rt.alloc(), b"{}".as_slice());
//!     assert!(rt; other.err() == Some(PlanFault::Shape(None)));
//!     Ok(())
//! }
//! ```
//!
//! The text of a plan is read again, and gives the same plan.
//!
//! ```rust
//! fn reads_as_itself(rt: &impl Abort, alloc: Global, plan: &Plan) -> Result<(), Fail> {
//!     let text = plan_text(alloc, plan)?;
//!     assert!(rt; Plan::read(alloc, text.as_bytes())? == *plan);
//!     Ok(())
//! }
//! ```
//!
//! Its tests are in `crates/squall_test_plans/src/plan.rt` and `text.rt`.
#![tactic(auto)]

mod fault;
mod form;
pub mod laws;
mod plan;
mod range;
mod search;
mod sweep;
mod tape;
mod text;

pub use fault::PlanFault;
pub use plan::{Plan, RANGE_LIMIT};
pub use range::PlanRange;
pub use text::plan_text;
