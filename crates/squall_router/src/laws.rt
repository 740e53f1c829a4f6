//! Laws of routers, each the contract of a function that does nothing.

ghost use Rattle.std.specs.Prelude.{◌≡◌, ℕ, ◌<◌, true, List};
ghost use Rattle.squall_key.specs.Keys.{top};
ghost use Rattle.squall_plan.specs.declared.range.PlanRange.{PlanRange};
ghost use Rattle.squall_course.specs.Subplans.{moves};
ghost use Rattle.squall_report.specs.declared.report.ReportKind.{ReportKind};
ghost use Rattle.squall_report.specs.Issues.{PlanPair};
ghost use Rattle.squall_report.specs.Told.{SameTold};
ghost use Rattle.squall_board.specs.Boards.{HasTaken, says, told};
ghost use Rattle.squall_board.specs.Route.{has_come};
ghost use Rattle.squall_board.specs.CourseRoute.{course_of_reports, route_by_reports};
ghost use Rattle.squall_router.specs.Routers.{course_of_router, route_of_router, IsTableOf};

use crate::router::Router;
pub use squall_errand::laws::ends_are_for_ever;

/// A router whose board has taken a list of reports uses the course of these reports, and sends
/// each key where they send it.
pub fn routers_follow_reports(router: &Router)
    ensures course { (rs : List (ReportKind PlanPair)) → HasTaken router.now.board rs → course_of_router router.now ≡ course_of_reports router.now.first rs }
    ensures route { (rs : List (ReportKind PlanPair)) (k : ℕ) → HasTaken router.now.board rs
        → route_of_router router.now k ≡ route_by_reports router.now.first rs k }
{
    router.known();
}

/// Routers of one first course whose boards tell the same are equal: they send each key to one
/// partition, and their tables are one list.
pub fn same_told_same_routers(one: &Router, other: &Router)
    ensures value { one.now.first ≡ other.now.first → SameTold (told one.now.board) (told other.now.board) → one.now ≡ other.now }
    ensures routes { one.now.first ≡ other.now.first → SameTold (told one.now.board) (told other.now.board) → (k : ℕ)
        → route_of_router one.now k ≡ route_of_router other.now k }
    ensures tables { one.now.first ≡ other.now.first → SameTold (told one.now.board) (told other.now.board) → (ls ms : List PlanRange)
        → IsTableOf one.now ls → IsTableOf other.now ms → ls ≡ ms }
{
    one.known();
    other.known();
}

/// Once each key that moves by a router's course has come, its table is the list of the new plan's
/// ranges.
pub fn all_in_is_the_new_plan(router: &Router)
    ensures { (ls : List PlanRange) → ((k : ℕ) → k < top
        → moves (course_of_router router.now).old (course_of_router router.now).new k ≡ true
        → has_come (course_of_router router.now) (says router.now.board) k ≡ true) → IsTableOf router.now ls
        → ls ≡ (course_of_router router.now).new }
{
    router.known();
}
