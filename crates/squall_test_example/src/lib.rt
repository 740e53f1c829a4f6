//! What tests share: two example plans, the course between them, and a few makers of values from text.
#![tactic(auto)]

use squall_board::Board;
use squall_course::Course;
use squall_key::Bound;
use squall_plan::Plan;
use squall_report::{Issue, Report};
use squall_span::Span;
use std::alloc::Global;
use std::sync::Arc;

/// Ends the test if the condition does not hold.
///
/// As `assert!`, but a call: the prover looks at the way out in `check::holds` of the calling crate
/// alone, and not at each place that asserts. That function is in each crate of tests, since only
/// tests may end the process.
#[macro_export]
macro_rules! holds {
    ($rt:expr; $condition:expr) => {
        crate::check::holds($rt, $condition, stringify!($condition))
    };
    ($rt:expr; $condition:expr, $text:expr) => {
        crate::check::holds($rt, $condition, $text)
    };
}

/// Partition 1 below 3:0, then 2 below 5:0, then 3 below 9:0, then 4.
pub const OLD: &str = concat!(
    r#"{"plan":[{"part":1,"from":[0,0],"to":[3,0]},{"part":2,"from":[3,0],"to":[5,0]},"#,
    r#"{"part":3,"from":[5,0],"to":[9,0]},{"part":4,"from":[9,0],"to":"end"}]}"#,
);

/// From 2:0 to 3:0 the keys of partition 1 go to 3, and from 6:0 to 9:0 those of 3 go to 4. Both are
/// the first destination of their source, and so move in sub-plan 0.
pub const NEW: &str = concat!(
    r#"{"plan":[{"part":1,"from":[0,0],"to":[2,0]},{"part":2,"from":[3,0],"to":[5,0]},"#,
    r#"{"part":3,"from":[2,0],"to":[3,0]},{"part":3,"from":[5,0],"to":[6,0]},"#,
    r#"{"part":4,"from":[6,0],"to":"end"}]}"#,
);

/// The span of two bounds.
pub fn span(lo: &str, hi: &str) -> Option<Span> {
    Span::new(Bound::read(lo)?, Bound::read(hi)?)
}

/// The report of a load at partition 3, in sub-plan 0 of number 1.
pub fn load(lo: &str, hi: &str) -> Option<Report> {
    Report::loaded(1, 0, 3, span(lo, hi)?)
}

/// The plan of a text. Like all that follows, None if an allocation fails.
pub fn plan(alloc: Global, text: &str) -> Option<Plan> {
    Plan::read(alloc, text.as_bytes()).ok()
}

/// Course 1 from the plan to that of a text.
///
/// A proof costs more with each value that a function owns, on each way out of it. So a function here makes one value,
/// and lends it to another that makes the next.
fn course_from(alloc: Global, old: &Plan, new: &str) -> Option<Course> {
    let new = plan(alloc, new)?;
    Course::new(alloc, 1, old, &new).ok()
}

/// Course 1 between the plans of two texts.
pub fn course_between(alloc: Global, old: &str, new: &str) -> Option<Course> {
    let old = plan(alloc, old)?;
    course_from(alloc, &old, new)
}

/// Course 1 of the example plans.
pub fn course(alloc: Global) -> Option<Course> {
    course_between(alloc, OLD, NEW)
}

/// The issue of the plan and that of a text.
fn issue_from(alloc: Global, old: &Plan, new: &str) -> Option<Arc<Issue>> {
    let new = plan(alloc, new)?;
    Issue::new(alloc, old, &new).ok()
}

/// The issue of the plans of two texts.
pub fn issue(alloc: Global, old: &str, new: &str) -> Option<Arc<Issue>> {
    let old = plan(alloc, old)?;
    issue_from(alloc, &old, new)
}

/// The board takes the report, if there is one. None also if an allocation fails.
pub fn take(board: &mut Board, report: Option<Report>) -> Option<()> {
    let report = report?;
    board.take(&report).ok()
}
