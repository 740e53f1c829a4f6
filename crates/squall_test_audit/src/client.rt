//! A client of the judge: what is proved of every run holds of logs that are accepted.

ghost use Rattle.std.specs.Prelude.{◌≡◌, IsTrue, IfOk};
ghost use Rattle.squall_judge.specs.declared.judgment.Judgment.TheVariants.{Accepted};
ghost use Rattle.squall_test_audit.specs.Clients.{HasPromisedRun};

use squall_judge::{JudgeFault, Judgment, Log, judge};
use squall_plan::Plan;
use squall_protocol::promises;
use std::alloc::Global;

/// Whether the logs were accepted.
fn is_accepted(judgment: &Judgment) -> bool
    ensures { IsTrue result → judgment.now ≡ Accepted }
{
    matches!(judgment, Judgment::Accepted)
}

/// Whether a run has the logs. If one has, each key has one carrier where it ends.
pub fn judged_logs_keep_promises(
    alloc: Global,
    old: &Plan,
    new: &Plan,
    logs: &[Log],
) -> Result<bool, JudgeFault>
    ensures { IfOk result (λ accepted. IsTrue accepted → HasPromisedRun old.now new.now logs.now) }
{
    promises();
    let judgment = judge(alloc, old, new, logs)?;
    Ok(is_accepted(&judgment))
}
