//! Courses: a course is a numbered change from an old plan to a new one, key by key.
//!
//! # Example
//!
//! The keys from 2:0 to 3:0 go from partition 1 to 3 (`OLD`, `NEW` and `plan` are of
//! `squall_test_example`).
//!
//! ```rust
//! fn owners_of_a_key(rt: HostRuntime) -> Result<(), Fail> {
//!     let key = Key::new(2, 7).expect(&rt, "a key");
//!     let old = plan(rt.alloc(), OLD).ok_or("a plan")?;
//!     let new = plan(rt.alloc(), NEW).ok_or("a plan")?;
//!     let course = Course::first(rt.alloc(), &old, &new)?;
//!     let owners = course.owners(key);
//!     assert!(rt; (owners.old.get(), owners.new.get()) == (1, 3));
//!     assert!(rt; owners.sub == Some(0));
//!     assert!(rt; course.dest(0, owners.old) == Some(owners.new));
//!     assert!(rt; (course.moves().len(), course.subplans()) == (2, 1));
//!     Ok(())
//! }
//! ```
//!
//! Its tests are in `crates/squall_test_plans/src/course.rt`.
#![tactic(auto)]

mod course;
mod fault;
mod filing;
mod gather;
pub mod laws;
mod link;
mod moving;
mod owners;
mod status;
mod transfer;

pub use course::Course;
pub use fault::CourseFault;
pub use moving::Move;
pub use owners::Owners;
pub use status::Status;
