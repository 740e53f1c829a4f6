//! Why entries are left.

ghost use Rattle.std.specs.Prelude.{◌≡◌, None, Some, length, IsTrue, IsFalse, IfOk, IfSome, IfNone};
ghost use Rattle.std.specs.List.{slice_get};
ghost use Rattle.squall_world.specs.Views.{view};
ghost use Rattle.squall_judge.specs.declared.log.Entry.{Entry};
ghost use Rattle.squall_judge.specs.Stages.{KnowsChunks};
ghost use Rattle.squall_judge.specs.Merges.{world_of};
ghost use Rattle.squall_judge.specs.Seen.{IsAwaited, IsSeen, AreSeen};

use crate::judgment::Cause;
use crate::log::{Entry, Log};
use crate::merge::Merge;
use crate::stage::{Stage, is_there};
use std::alloc::{AllocError, Global};

/// What the entry of a node that is there waits for.
fn awaited(stage: &Stage, entry: &Entry) -> Cause
    requires { KnowsChunks stage.now }
    ensures { IsAwaited (view stage.now.world) entry.now result }
{
    match entry {
        Entry::Arrival(chunk, _) => match stage.chunks.find(*chunk) {
            Some(_) => Cause::Running,
            None => Cause::NotGiven,
        },
        Entry::Heard(_) => Cause::NotReported,
        Entry::Own(_, _) | Entry::Gift(_, _) => Cause::Running,
    }
}

/// Why the entry of this index is left, of a log that was cut to so many. None if there is no such
/// entry.
fn cause_of(stage: &Stage, log: &Log, count: usize, limit: usize) -> Option<Cause>
    requires { KnowsChunks stage.now }
    ensures some { IfSome result (λ cause. (entry : Entry) → slice_get log.now.entries.items count ≡ Some entry
        → IsSeen (view stage.now.world) log.now.node count limit entry cause) }
    ensures none { IfNone result (slice_get log.now.entries.items count ≡ None) }
{
    let entry = log.entries.get(count)?;
    if count == limit {
        return Some(Cause::Answer);
    }
    if !is_there(&stage.world, &log.node) {
        return Some(Cause::NoSuch);
    }
    Some(awaited(stage, entry))
}

/// Why the next entry of each log is left, of logs that were cut to so many.
pub(crate) fn causes_of(
    alloc: Global,
    merge: &Merge,
    logs: &[Log],
    limits: &[usize],
) -> Result<Vec<Option<Cause>>, AllocError>
    requires chunks { KnowsChunks merge.now.stage }
    requires taken { length merge.now.taken.items ≡ length logs.now }
    requires limits { length limits.now ≡ length logs.now }
    ensures { IfOk result (λ causes. AreSeen (world_of merge.now) logs.now merge.now.taken.items limits.now causes.items) }
{
    let mut causes = Vec::new(alloc);
    for at in 0..logs.len() {
        let log = &logs[at];
        let count = merge.taken[at];
        causes.push(cause_of(&merge.stage, log, count, limits[at]))?;
    }
    Ok(causes)
}
