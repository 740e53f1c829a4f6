//! What callers of borrowed routers learn, from public names alone.

ghost use Rattle.std.specs.Prelude.{◌≡◌, ℕ, ◌<◌, true, List};
ghost use Rattle.std.specs.Arc.{arc_value};
ghost use Rattle.squall_key.specs.Keys.{top};
ghost use Rattle.squall_course.specs.Subplans.{moves};
ghost use Rattle.squall_report.specs.declared.report.ReportKind.{ReportKind};
ghost use Rattle.squall_report.specs.Issues.{PlanPair};
ghost use Rattle.squall_report.specs.Told.{SameTold};
ghost use Rattle.squall_board.specs.Boards.{HasTaken, says, told};
ghost use Rattle.squall_board.specs.Route.{has_come};
ghost use Rattle.squall_board.specs.CourseRoute.{course_of_reports, route_by_reports};
ghost use Rattle.squall_router.specs.Routers.{course_of_router};

use super::heard;
use super::legs::are_same;
use squall_course::Course;
use squall_key::{Key, PartId};
use squall_router::Router;
use squall_router::laws::{all_in_is_the_new_plan, routers_follow_reports, same_told_same_routers};
use squall_table::Legs;
use squall_test_example::holds;
use std::process::Abort;
use std::sync::Arc;

/// The course of the reports that the router has taken.
fn course_by_reports(router: &Router) -> &Arc<Course>
    ensures { (rs : List (ReportKind PlanPair)) → HasTaken router.now.board rs → arc_value result.now ≡ course_of_reports router.now.first rs }
{
    routers_follow_reports(router);
    router.course()
}

/// The partition to ask for the key by the reports that the router has taken.
fn part_by_reports(router: &Router, key: Key) -> PartId
    ensures { (rs : List (ReportKind PlanPair)) → HasTaken router.now.board rs → result ≡ route_by_reports router.now.first rs key }
{
    routers_follow_reports(router);
    router.route(key)
}

/// The legs of both tables: one list, if the routers began alike and heard the same.
fn both_entries<'a>(one: &'a Router, other: &'a Router) -> (Legs<'a>, Legs<'a>)
    ensures { one.now.first ≡ other.now.first → SameTold (told one.now.board) (told other.now.board) → result.0 ≡ result.1 }
{
    same_told_same_routers(one, other);
    (one.table().entries(), other.table().entries())
}

/// The partitions to ask for the key: one, if the routers began alike and heard the same.
fn both_parts(one: &Router, other: &Router, key: Key) -> (PartId, PartId)
    ensures { one.now.first ≡ other.now.first → SameTold (told one.now.board) (told other.now.board) → result.0 ≡ result.1 }
{
    same_told_same_routers(one, other);
    (one.route(key), other.route(key))
}

/// The legs of the table: the ranges of the new plan, once all has come.
fn entries_once_all_is_in(router: &Router) -> Legs<'_>
    ensures { ((k : ℕ) → k < top → moves (course_of_router router.now).old (course_of_router router.now).new k ≡ true
        → has_come (course_of_router router.now) (says router.now.board) k ≡ true) → result ≡ (course_of_router router.now).new }
{
    all_in_is_the_new_plan(router);
    router.table().entries()
}

/// What each client above says of the router is what it says.
fn look_at_router(rt: &impl Abort, router: &Router, key: Key) {
    let part = router.route(key);
    let (one, other) = both_parts(router, router, key);
    holds!(rt; (part_by_reports(router, key), one, other) == (part, part, part));
    holds!(rt; course_by_reports(router).number() == router.course().number());
    let (legs, others) = both_entries(router, router);
    holds!(rt; are_same(legs, router.table().entries()));
    holds!(rt; are_same(others, router.table().entries()));
    holds!(rt; are_same(entries_once_all_is_in(router), router.table().entries()));
}

#[test]
fn callers_learn(rt: HostRuntime) {
    let key = Key::read("2:0").expect(&rt, "key");
    let router = heard(rt.alloc(), &[]).expect(&rt, "a router");
    look_at_router(&rt, &router, key);
}
