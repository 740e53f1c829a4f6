//! The judge.

ghost use Rattle.std.specs.Prelude.{◌≡◌, ◌<◌, ◌≤◌, ℕ, Some, Err, length, map, IsTrue, IsFalse, IfOk, IfErr, OnOk};
ghost use Rattle.std.specs.List.{slice_get};
ghost use Rattle.squall_protocol.specs.Worlds.{most_routers, start};
ghost use Rattle.squall_judge.specs.declared.judgment.JudgeFault.TheVariants.{TwoLogs, TooManyRouters, NoMemory};
ghost use Rattle.squall_judge.specs.declared.log.Log.{Log};
ghost use Rattle.squall_judge.specs.Entries.{AreApart, HasTwoLogs, HasNoRouter};
ghost use Rattle.squall_judge.specs.Merges.{AreCut, IsEndOf};
ghost use Rattle.squall_judge.specs.Judging.{AreAllTaken, HasMore, IsJudged};

use crate::causes::causes_of;
use crate::heads::{are_apart, lengths_of, routers_of};
use crate::judgment::{JudgeFault, Judgment};
use crate::log::Log;
use crate::merge::Merge;
use squall_audit::laws::{logs_answer, logs_are_judged, what_is_left_is_in_no_run};
use squall_plan::Plan;
use std::alloc::Global;

/// Whether all entries of each log were taken.
fn are_all(logs: &[Log], taken: &[usize]) -> bool
    requires { length taken.now ≡ length logs.now }
    ensures all { IsTrue result → AreAllTaken logs.now taken.now }
    ensures some { IsFalse result → HasMore logs.now taken.now }
{
    for at in 0..logs.len() {
        let log = &logs[at];
        if taken[at] < log.entries.len() {
            return false;
        }
    }
    true
}

/// Takes entries until no next one can come, of each log at most as many as the limit says. If a node
/// answers otherwise than its log says, its log is cut before that entry, and all is taken anew. The
/// limits are what each log was cut to.
fn merged(
    alloc: Global,
    old: &Plan,
    new: &Plan,
    routers: u32,
    logs: &[Log],
    mut limits: Vec<usize>,
) -> Result<(Merge, Vec<usize>), JudgeFault>
    requires apart { AreApart logs.now }
    requires limits { limits.items ≡ map (λ (log : Log). length log.entries.items) logs.now }
    ensures ok { IfOk result (λ m. IsEndOf (start old.now new.now routers) logs.now m.1.items m.0) }
    ensures err { IfErr result (λ e. e ≡ NoMemory) }
{
    logs_answer();
    what_is_left_is_in_no_run();
    logs_are_judged();
    loop {
        let Ok(mut merge) = Merge::new(alloc, old, new, routers, logs) else {
            return Err(JudgeFault::NoMemory);
        };
        let Ok(wrong) = merge.run(logs, &limits) else {
            return Err(JudgeFault::NoMemory);
        };
        let Some(at) = wrong else {
            return Ok((merge, limits));
        };
        limits[at] = merge.taken[at];
    }
}

/// Judges logs of nodes, of at most one log for each node: whether there is a run that has them.
///
/// The world begins with course 1 from the old plan to the new one, and with as many routers as the
/// logs name. Of any log the judge takes the next entry that can come, until none can. What a node did
/// is done in a world, and the answers are compared. What a node received has to be known where it
/// comes from. So nothing that a log says is taken on trust.
///
/// If the logs are accepted, a run has them, and all that holds in every run holds where it ends. If
/// they are refused, no run has any of the entries that are left, and the next one of each log has a
/// cause.
///
/// `TwoLogs` if two logs are of one node, whatever memory there is. `TooManyRouters` if one is of a
/// router that no world can have. `NoMemory` if an allocation fails.
pub fn judge(alloc: Global, old: &Plan, new: &Plan, logs: &[Log]) -> Result<Judgment, JudgeFault>
    ensures ok { IfOk result (λ judgment. IsJudged old.now new.now logs.now judgment) }
    ensures apart { OnOk result (AreApart logs.now) }
    ensures two { HasTwoLogs logs.now → result ≡ Err TwoLogs }
    ensures two_logs { IfErr result (λ e. e ≡ TwoLogs → HasTwoLogs logs.now) }
    ensures routers { IfErr result (λ e. e ≡ TooManyRouters → HasNoRouter logs.now) }
{
    are_apart(logs)?;
    let routers = routers_of(logs)?;
    let limits = lengths_of(alloc, logs)?;
    let ended = merged(alloc, old, new, routers, logs, limits)?;
    if are_all(logs, &ended.0.taken) {
        return Ok(Judgment::Accepted);
    }
    let Ok(causes) = causes_of(alloc, &ended.0, logs, &ended.1) else {
        return Err(JudgeFault::NoMemory);
    };
    Ok(Judgment::Refused {
        taken: ended.0.taken,
        causes,
    })
}
