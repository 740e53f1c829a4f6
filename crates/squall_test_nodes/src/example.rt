//! The course of the example plans, shared, and what is issued of them.

use squall_course::Course;
use squall_report::Report;
use std::alloc::Global;
use std::sync::Arc;

/// Course 1 of the example plans. None if an allocation fails.
pub(crate) fn course(alloc: Global) -> Option<Arc<Course>> {
    let course = squall_test_example::course(alloc)?;
    Arc::new(alloc, course).ok()
}

/// The report that the plan of a text follows that of another under the number. None also if an
/// allocation fails.
pub(crate) fn issued(alloc: Global, number: u32, old: &str, new: &str) -> Option<Report> {
    let issue = squall_test_example::issue(alloc, old, new)?;
    Report::issued(number, issue)
}
