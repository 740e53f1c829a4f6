//! What a caller that is given a course learns of it from the public contracts alone.

ghost use Rattle.std.specs.Prelude.{◌≡◌, ◌<◌, true};
ghost use Rattle.squall_key.specs.Keys.{part_limit};
ghost use Rattle.squall_course.specs.Change.{ArePlans};

use squall_course::Course;

/// Both plans of any course are plans.
pub fn are_plans(course: &Course)
    ensures { ArePlans course.now.old course.now.new }
{
    let _old = course.old_plan();
}

/// Whether the course has that sub-plan: then its number is one that a report may name.
pub fn may_be_opened(course: &Course, sub: u32) -> bool
    ensures { result ≡ true → sub < part_limit }
{
    sub < course.subplans()
}
