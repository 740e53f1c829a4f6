//! Routers, views, courses, errands and leaders for C.
//!
//! Each handle that C holds leads to a slot: what was opened, or why there is none.
//! What a call does is a function over slots, which has its whole contract; an export only turns
//! pointers into borrows and says that contract again.
#![tactic(auto)]

mod changes;
mod course_exports;
mod courses;
mod errand_exports;
mod errands;
mod exports;
mod feeding;
mod frames;
mod handles;
mod hearing;
mod keymap_exports;
pub mod laws;
mod leader_exports;
mod leaders;
mod leading;
mod legs;
mod limit_exports;
mod limits;
mod numbers;
mod part_exports;
mod parts;
mod report_exports;
mod reports;
mod router;
mod status;
mod tallies;
mod texts;
mod told_exports;
mod view_exports;
mod views;

pub use courses::{CourseSlot, HeldCourse, course_may_cross};
pub use errands::{ErrandSlot, errand_may_cross};
pub use handles::{CCourse, CErrand, CPart, CRouter, CView};
pub use leader_exports::CLeader;
pub use leaders::{LeaderSlot, leader_may_cross};
pub use parts::{PartSlot, part_may_cross};
pub use router::{RouterSlot, Station, slot_may_cross};
pub use status::Cause;
pub use views::{View, ViewSlot, view_may_cross};
