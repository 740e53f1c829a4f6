//! The newest course that a board issues.

ghost use Rattle.std.specs.Prelude.{◌≡◌, ◌≤◌, IfOk, IfSome, option_map};
ghost use Rattle.std.specs.Arc.{arc_value};
ghost use Rattle.squall_board.specs.CourseRoute.{course_by};

use squall_board::issued_course;
use squall_course::Course;
use squall_join::Shared;
use squall_report::Issue;
use std::alloc::{AllocError, Global};
use std::sync::Arc;

/// The newest issue after a first course, with its number. `None` if there is none.
pub(crate) type Newest<'a> = Option<(u32, &'a Arc<Issue>)>;

/// The number of the newest course, or of the first if none is newer.
pub(crate) fn number_of(first: &Course, newest: &Newest<'_>) -> u32
    ensures { result ≡ (course_by first.now (option_map (λ e. (e.0, arc_value e.1.now)) newest.now)).number }
{
    match newest {
        Some((number, _)) => *number,
        None => first.number(),
    }
}

/// The newest course, or the first again if none is newer. An error means that an allocation
/// failed, or that the count of the first's owners is full.
pub(crate) fn course_of(
    alloc: Global,
    first: &Shared<Course>,
    newest: &Newest<'_>,
) -> Result<Shared<Course>, AllocError>
    requires { IfSome newest.now (λ e. 1 ≤ e.0) }
    ensures { IfOk result (λ c. c ≡ course_by first.now (option_map (λ e. (e.0, arc_value e.1.now)) newest.now)) }
{
    let Some((number, issue)) = newest else {
        return first.again();
    };
    let course = issued_course(alloc, *number, issue)?;
    Ok(Shared::new(Arc::new(alloc, course)?))
}
