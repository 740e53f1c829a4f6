//! Leaders that a host rebuilds from their logs, by public names alone.

ghost use Rattle.std.specs.Prelude.{◌≡◌, List};
ghost use Rattle.std.specs.Arc.{arc_value};
ghost use Rattle.std.specs.Result.{result_map_both};
ghost use Rattle.squall_leader.specs.Leaders.{LeaderValue, IsBegun, IsOpened};
ghost use Rattle.squall_c_leaders.specs.Replay.{Try, Ran, Replays, log_of};

use squall_board::{Board, Delta};
use squall_c_leaders::laws::leader_replay;
use squall_course::Course;
use squall_leader::{Leader, LeaderFault};
use squall_plan::Plan;
use squall_report::Report;
use squall_test_example::{OLD, course, plan};
use std::alloc::Global;
use std::process::Abort;
use std::sync::Arc;

/// The rebuilt leader opens its next sub-plan. The old one, which made the calls of the log among
/// others that failed, would open the same.
fn opens_as(old: &Leader, rebuilt: &mut Leader) -> Result<Report, LeaderFault>
    ensures { (l : LeaderValue) (tries : List Try) → Ran l tries old.now → Replays l (log_of tries) rebuilt.old → IsOpened old.now result rebuilt.new }
{
    leader_replay();
    rebuilt.open_next()
}

/// The rebuilt leader begins a course. The old one would issue the same.
fn begins_as(old: &Leader, rebuilt: &mut Leader, plan: &Plan) -> Result<Arc<Course>, LeaderFault>
    ensures { let course = result_map_both (λ course. arc_value course) (λ fault. fault) result in (l : LeaderValue) (tries : List Try)
        → Ran l tries old.now → Replays l (log_of tries) rebuilt.old → IsBegun old.now plan.now course rebuilt.new }
{
    leader_replay();
    rebuilt.begin(plan)
}

/// A leader in the midst of the example's course. None if an allocation fails.
fn begun(alloc: Global) -> Option<Leader> {
    let course = Arc::new(alloc, course(alloc)?).ok()?;
    Leader::begun(alloc, &course).ok()
}

/// The partitions to which keys go in the example's course are done. None if an allocation fails.
fn done(alloc: Global) -> Option<Delta> {
    let mut delta = Board::new(alloc);
    delta.take(&Report::done(1, 0, 3)?).ok()?;
    delta.take(&Report::done(1, 0, 4)?).ok()?;
    Some(delta)
}

/// Whether the leader does both calls of the log.
fn does_log(leader: &mut Leader, delta: &Delta) -> bool {
    leader.open_next().is_ok() && leader.absorb(delta).is_ok()
}

/// Whether the leader does these two, and refuses one before, one between and one after them.
fn does_log_among_others(leader: &mut Leader, delta: &Delta, plan: &Plan) -> bool {
    let is_running = leader.begin(plan).is_err();
    let is_open = leader.open_next().is_ok();
    let is_waiting = leader.open_next().is_err();
    let is_done = leader.absorb(delta).is_ok();
    is_running && is_open && is_waiting && is_done && leader.open_next().is_err()
}

/// Whether the rebuilt leader has no more to open, and begins course 2, as the old one would.
fn goes_on_as(old: &Leader, rebuilt: &mut Leader, plan: &Plan) -> bool {
    let is_over = matches!(opens_as(old, rebuilt), Err(LeaderFault::NoMore));
    match begins_as(old, rebuilt, plan) {
        Ok(course) => is_over && course.number() == 2,
        Err(_) => false,
    }
}

/// Whether a leader that is rebuilt from the log goes on as the old one would. None if an allocation
/// fails.
fn goes_on(alloc: Global, old: &Leader, delta: &Delta, plan: &Plan) -> Option<bool> {
    let mut rebuilt = begun(alloc)?;
    Some(does_log(&mut rebuilt, delta) && goes_on_as(old, &mut rebuilt, plan))
}

/// The same once the old leader has made its calls.
fn is_rebuilt(alloc: Global, delta: &Delta, plan: &Plan) -> Option<bool> {
    let mut old = begun(alloc)?;
    let is_logged = does_log_among_others(&mut old, delta, plan);
    Some(is_logged && goes_on(alloc, &old, delta, plan)?)
}

#[test]
fn a_log_rebuilds_a_leader(rt: HostRuntime) {
    let delta = done(rt.alloc()).expect(&rt, "a delta");
    let plan = plan(rt.alloc(), OLD).expect(&rt, "a plan");
    assert!(&rt; is_rebuilt(rt.alloc(), &delta, &plan) == Some(true));
}
