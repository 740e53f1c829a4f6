//! Routes of a router, as a caller meets them, over public names alone. The answer of the router's own
//! call is the partition of the headline.

ghost use Rattle.std.specs.Prelude.{◌≡◌, ℕ, ◌<◌, ◌++◌, List, map, IfOk, OnOk};
ghost use Rattle.std.specs.Arc.{arc_value};
ghost use Rattle.squall_key.specs.Keys.{top};
ghost use Rattle.squall_plan.specs.Ranges.{owner_of};
ghost use Rattle.squall_report.specs.Facts.{reports_say};
ghost use Rattle.squall_board.specs.Boards.{HasTaken};
ghost use Rattle.squall_board.specs.CourseRoute.{course_of_reports};
ghost use Rattle.squall_headline.specs.Ways.{Reports, Way, ByTake, LeadOn, LeadTo, reports_of, IsSent};

use squall_board::{Board, Delta};
use squall_course::Course;
use squall_headline::headline;
use squall_key::{Key, PartId};
use squall_report::Report;
use squall_router::Router;
use squall_table::Legs;
use squall_test_example::{NEW, OLD, course, holds, issue, load};
use std::alloc::{AllocError, Global};
use std::process::Abort;
use std::sync::Arc;

/// The partition to ask for the key. Whatever reports came to the router, and in whatever ways: it is
/// the one to which they send the key.
fn part_of(router: &Router, key: Key) -> PartId
    ensures { (ws : List Way) → LeadTo ws router.now.board
        → IsSent (course_of_reports router.now.first (reports_of ws)) (reports_say (reports_of ws)) key result }
{
    // The proof learns that the key is below the top.
    let _rank = key.rank();
    headline(router.board(), router.board(), router, router);
    router.route(key)
}

/// The same by the router's table.
fn part_in_table(router: &Router, key: Key) -> PartId
    ensures { (ws : List Way) → LeadTo ws router.now.board
        → IsSent (course_of_reports router.now.first (reports_of ws)) (reports_say (reports_of ws)) key result }
{
    let _rank = key.rank();
    headline(router.board(), router.board(), router, router);
    router.table().owner(key)
}

/// The legs of the router's table: each key is in a leg of the partition to which the reports send it.
fn legs_of(router: &Router) -> Legs<'_>
    ensures { (ws : List Way) (k : ℕ) → LeadTo ws router.now.board → k < top
        → IsSent (course_of_reports router.now.first (reports_of ws)) (reports_say (reports_of ws)) k (owner_of result k) }
{
    headline(router.board(), router.board(), router, router);
    router.table().entries()
}

/// The router takes the reports, one after another.
fn take_each(router: &mut Router, reports: &[Report]) -> Result<(), AllocError>
    ensures first { router.new.first ≡ router.old.first }
    ensures ways { OnOk result (LeadOn (map ByTake reports.now) router.old.board router.new.board) }
{
    for report in reports {
        router.take(report)?;
    }
    Ok(())
}

/// The partition to ask for the key after the reports, by a router that takes them one by one.
fn part_after(
    alloc: Global,
    course: &Arc<Course>,
    reports: &[Report],
    key: Key,
) -> Result<PartId, AllocError>
    ensures { IfOk result (λ part. IsSent (course_of_reports (arc_value course.now) reports.now) (reports_say reports.now) key part) }
{
    let mut router = Router::new(alloc, course)?;
    take_each(&mut router, reports)?;
    Ok(part_of(&router, key))
}

/// The partition to ask for the key after the reports and the delta, by a router that takes the reports
/// one by one and then absorbs the delta.
fn part_after_both(
    alloc: Global,
    course: &Arc<Course>,
    reports: &[Report],
    delta: &Delta,
    key: Key,
) -> Result<PartId, AllocError>
    ensures { IfOk result (λ part. (rs : Reports) → HasTaken delta.now rs
        → IsSent (course_of_reports (arc_value course.now) (reports.now ++ rs)) (reports_say (reports.now ++ rs)) key part) }
{
    let mut router = Router::new(alloc, course)?;
    take_each(&mut router, reports)?;
    router.absorb(delta)?;
    Ok(part_of(&router, key))
}

/// A report of course 1, or of course 2, which goes back to the old plan.
#[derive(Clone, Copy)]
enum Said {
    /// From 2:0 to 2:7 the keys are loaded at partition 3.
    Half,
    /// The partition is done in sub-plan 0 of the number.
    Done { number: u32, part: u32 },
    /// Course 2 is issued.
    Back,
}

/// The report of what is said. None if an allocation fails.
fn report(alloc: Global, said: Said) -> Option<Report> {
    match said {
        Said::Half => load("2:0", "2:7"),
        Said::Done { number, part } => Report::done(number, 0, part),
        Said::Back => Report::issued(2, issue(alloc, NEW, OLD)?),
    }
}

/// How a router is given a report: it takes the report, or it absorbs a board that took it.
#[derive(Clone, Copy)]
enum By {
    Take,
    Absorb,
}

/// The router absorbs a board that took the report. None if an allocation fails.
fn absorb(alloc: Global, router: &mut Router, report: &Report) -> Option<()> {
    let mut delta = Board::new(alloc);
    delta.take(report).ok()?;
    router.absorb(&delta).ok()
}

/// The router is given the report of what is said. None if an allocation fails.
fn give(alloc: Global, router: &mut Router, said: Said, by: By) -> Option<()> {
    let report = report(alloc, said)?;
    match by {
        By::Take => router.take(&report).ok(),
        By::Absorb => absorb(alloc, router, &report),
    }
}

/// Keys beside the borders of the moves, and keys that stay.
const KEYS: [&str; 8] = ["0:0", "2:0", "2:6", "2:7", "3:0", "5:0", "6:0", "9:0"];

/// The partitions of these keys before any report: those of the old plan.
const BEFORE: [u32; 8] = [1, 1, 1, 1, 2, 3, 3, 4];

/// Reports that a router is given, and the partitions of the keys after each.
const STEPS: [(Said, By, [u32; 8]); 7] = [
    // The keys that are loaded go to partition 3.
    (Said::Half, By::Take, [1, 3, 3, 1, 2, 3, 3, 4]),
    // All that move to partition 4 go there.
    (
        Said::Done { number: 1, part: 4 },
        By::Absorb,
        [1, 3, 3, 1, 2, 3, 4, 4],
    ),
    // A report that is given again changes nothing. Nor does one of course 2 before that is issued.
    (Said::Half, By::Absorb, [1, 3, 3, 1, 2, 3, 4, 4]),
    (
        Said::Done { number: 2, part: 1 },
        By::Take,
        [1, 3, 3, 1, 2, 3, 4, 4],
    ),
    // The other keys that move to partition 3 go there too.
    (
        Said::Done { number: 1, part: 3 },
        By::Take,
        [1, 3, 3, 3, 2, 3, 4, 4],
    ),
    // By course 2 the keys that move to partition 1 have come, and those that move to 3 have not.
    (Said::Back, By::Absorb, [1, 1, 1, 1, 2, 3, 4, 4]),
    (
        Said::Done { number: 2, part: 3 },
        By::Take,
        [1, 1, 1, 1, 2, 3, 3, 4],
    ),
];

/// The partition of the leg that has the key.
fn part_in_legs(router: &Router, key: Key) -> Option<PartId> {
    for leg in legs_of(router) {
        if leg.span.has(key) {
            return Some(leg.part);
        }
    }
    None
}

/// By the router, its table and its legs the key goes to that partition.
fn key_goes(rt: &impl Abort, router: &Router, text: &str, part: u32) {
    let key = Key::read(text).expect(rt, "key");
    holds!(rt; part_of(router, key).get() == part, text);
    holds!(rt; part_in_table(router, key).get() == part, text);
    holds!(rt; part_in_legs(router, key) == PartId::new(part), text);
}

/// The keys go to these partitions.
fn keys_go(rt: &impl Abort, router: &Router, parts: [u32; 8]) {
    for at in 0..8usize {
        key_goes(rt, router, KEYS[at], parts[at]);
    }
}

/// The router is given one report after another, and sends the keys where the rows say.
fn steps_send_keys(
    rt: &impl Abort,
    alloc: Global,
    router: &mut Router,
    steps: &[(Said, By, [u32; 8])],
) {
    keys_go(rt, router, BEFORE);
    for (said, by, parts) in steps {
        give(alloc, router, *said, *by).expect(rt, "memory");
        keys_go(rt, router, *parts);
    }
}

/// The example's course, shared. None if an allocation fails.
fn shared(alloc: Global) -> Option<Arc<Course>> {
    Arc::new(alloc, course(alloc)?).ok()
}

#[test]
fn routers_send_keys(rt: HostRuntime) {
    let course = shared(rt.alloc()).expect(&rt, "a course");
    let mut router = Router::new(rt.alloc(), &course).expect(&rt, "a router");
    steps_send_keys(&rt, rt.alloc(), &mut router, &STEPS)
}

/// After the reports, and after them and the delta, the key goes to these partitions.
fn key_goes_after(
    rt: &impl Abort,
    alloc: Global,
    course: &Arc<Course>,
    reports: &[Report],
    delta: &Delta,
    row: (&str, u32, u32),
) {
    let (text, part, both) = row;
    let key = Key::read(text).expect(rt, "key");
    let taken = part_after(alloc, course, reports, key).expect(rt, "memory");
    holds!(rt; taken.get() == part, text);
    let absorbed = part_after_both(alloc, course, reports, delta, key).expect(rt, "memory");
    holds!(rt; absorbed.get() == both, text);
}

/// Keys, each with its partition after the load alone, and after the completion of partition 4 too.
const ROWS: [(&str, u32, u32); 5] = [
    ("2:0", 3, 3),
    ("2:7", 1, 1),
    ("5:0", 3, 3),
    ("6:0", 3, 4),
    ("9:0", 4, 4),
];

/// The keys go to the partitions of their rows.
fn rows_hold(rt: &impl Abort, alloc: Global, course: &Arc<Course>, load: Report, delta: &Delta) {
    let reports = [load];
    for row in ROWS {
        key_goes_after(rt, alloc, course, &reports, delta, row);
    }
}

/// The board of the completion. None if an allocation fails.
fn completion(alloc: Global) -> Option<Delta> {
    let mut delta = Board::new(alloc);
    delta.take(&Report::done(1, 0, 4)?).ok()?;
    Some(delta)
}

/// The keys go by the load and the completion to where these send them.
fn reports_hold(rt: &impl Abort, alloc: Global, course: &Arc<Course>) {
    let delta = completion(alloc).expect(rt, "memory");
    let load = load("2:0", "2:7").expect(rt, "load");
    rows_hold(rt, alloc, course, load, &delta)
}

#[test]
fn reports_send_keys(rt: HostRuntime) {
    let course = shared(rt.alloc()).expect(&rt, "a course");
    reports_hold(&rt, rt.alloc(), &course)
}
