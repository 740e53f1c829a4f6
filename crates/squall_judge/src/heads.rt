//! Of which nodes logs are, and how many entries they have.

ghost use Rattle.std.specs.Prelude.{◌≡◌, ◌<◌, ◌≤◌, ℕ, length, map, replicate, IsTrue, IsFalse, IfOk, IfErr, IfSome, IfNone, OnOk};
ghost use Rattle.squall_protocol.specs.declared.event.Node.TheVariants.{Router};
ghost use Rattle.squall_protocol.specs.Worlds.{most_routers};
ghost use Rattle.squall_judge.specs.declared.judgment.JudgeFault.TheVariants.{TwoLogs, TooManyRouters};
ghost use Rattle.squall_judge.specs.declared.log.Log.{Log};
ghost use Rattle.squall_judge.specs.Entries.{IsLogAt, AreApart, HasTwoLogs, HasNoRouter, AreRouters, IsCount};

use crate::judgment::JudgeFault;
use crate::log::Log;
use crate::turn::same_node;
use squall_protocol::Node;
use squall_world::MOST_ROUTERS;
use std::alloc::{AllocError, Global};

/// Whether a log before the place is of that node.
fn is_before(logs: &[Log], end: usize, node: &Node) -> bool
    requires { end ≤ length logs.now }
    ensures some { IsTrue result → (i : ℕ) × (i < end) × IsLogAt logs.now i node.now }
    ensures none { IsFalse result → (i : ℕ) → i < end → IsLogAt logs.now i node.now → ⊥ }
{
    for at in 0..end {
        if same_node(&logs[at].node, node) {
            return true;
        }
    }
    false
}

/// That no two logs are of one node.
pub(crate) fn are_apart(logs: &[Log]) -> Result<(), JudgeFault>
    ensures ok { OnOk result (AreApart logs.now) }
    ensures err { IfErr result (λ e. (e ≡ TwoLogs) × HasTwoLogs logs.now) }
{
    for at in 0..logs.len() {
        if is_before(logs, at, &logs[at].node) {
            return Err(JudgeFault::TwoLogs);
        }
    }
    Ok(())
}

/// The router that the log is of.
fn router_of(log: &Log) -> Option<u32>
    ensures some { IfSome result (λ r. log.now.node ≡ Router r) }
    ensures none { IfNone result ((r : ℕ) → log.now.node ≡ Router r → ⊥) }
{
    match &log.node {
        Node::Router(router) => Some(*router),
        Node::Leader | Node::Part(_) => None,
    }
}

/// How many routers a world needs for the log, too.
fn count_with(count: u32, log: &Log) -> Result<u32, JudgeFault>
    requires { count ≤ most_routers }
    ensures ok { IfOk result (λ n. IsCount count log.now n) }
    ensures err { IfErr result (λ e. (e ≡ TooManyRouters) × ((r : ℕ) × (log.now.node ≡ Router r) × (most_routers ≤ r))) }
{
    let Some(router) = router_of(log) else {
        return Ok(count);
    };
    if router >= MOST_ROUTERS {
        return Err(JudgeFault::TooManyRouters);
    }
    if router < count {
        return Ok(count);
    }
    Ok(router + 1)
}

/// How many routers a world needs: as few as can be for the logs.
pub(crate) fn routers_of(logs: &[Log]) -> Result<u32, JudgeFault>
    ensures ok { IfOk result (λ n. AreRouters logs.now n) }
    ensures err { IfErr result (λ e. (e ≡ TooManyRouters) × HasNoRouter logs.now) }
{
    let mut count: u32 = 0;
    for at in 0..logs.len() {
        count = match count_with(count, &logs[at]) {
            Ok(with) => with,
            Err(fault) => return Err(fault),
        };
    }
    Ok(count)
}

/// So many zeros.
pub(crate) fn zeros(alloc: Global, count: usize) -> Result<Vec<usize>, AllocError>
    ensures { IfOk result (λ ns. ns.items ≡ replicate count 0) }
{
    let mut counts = Vec::new(alloc);
    counts.resize(count, 0)?;
    Ok(counts)
}

/// How many entries each log has.
pub(crate) fn lengths_of(alloc: Global, logs: &[Log]) -> Result<Vec<usize>, AllocError>
    ensures { IfOk result (λ ns. ns.items ≡ map (λ (log : Log). length log.entries.items) logs.now) }
{
    let mut lengths = Vec::new(alloc);
    for log in logs {
        lengths.push(log.entries.len())?;
    }
    Ok(lengths)
}
