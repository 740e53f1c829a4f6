//! Why logs are not judged.

ghost use Rattle.std.specs.Prelude.{◌≡◌, ◌<◌, ◌≤◌, ℕ, length, IsTrue, IsFalse, IfSome};
ghost use Rattle.squall_protocol.specs.declared.event.Node.TheVariants.{Router};
ghost use Rattle.squall_protocol.specs.Worlds.{most_routers};
ghost use Rattle.squall_judge.specs.Entries.{IsLogAt};
ghost use Rattle.squall_cli_audit.specs.Audits.{IsFirstTwin, IsFirstStray};

use squall_judge::Log;
use squall_protocol::Node;

/// The most routers that a world may have.
const MOST_ROUTERS: u32 = 1000;

/// Whether the nodes are the same.
fn same_node(a: &Node, b: &Node) -> bool
    ensures same { IsTrue result → a.now ≡ b.now }
    ensures apart { IsFalse result → a.now ≡ b.now → ⊥ }
{
    *a == *b
}

/// Whether a log before the place is of that node.
fn is_before(logs: &[Log], end: usize, node: &Node) -> bool
    requires { end ≤ length logs.now }
    ensures some { IsTrue result → (i : ℕ) × (i < end) × IsLogAt logs.now i node.now }
    ensures none { IsFalse result → (i : ℕ) → i < end → IsLogAt logs.now i node.now → ⊥ }
{
    for at in 0..end {
        if same_node(&logs[at].node, node) {
            return true;
        }
    }
    false
}

/// The first log whose node has a log before it.
pub(crate) fn first_twin(logs: &[Log]) -> Option<usize>
    ensures twin { IfSome result (λ j. IsFirstTwin logs.now j) }
    ensures there { IfSome result (λ j. j < length logs.now) }
{
    for at in 0..logs.len() {
        if is_before(logs, at, &logs[at].node) {
            return Some(at);
        }
    }
    None
}

/// Whether that is a router that no world can have.
fn is_stray(node: &Node) -> bool
    ensures yes { IsTrue result → (r : ℕ) × (node.now ≡ Router r) × (most_routers ≤ r) }
    ensures no { IsFalse result → (r : ℕ) → node.now ≡ Router r → r < most_routers }
{
    match node {
        Node::Router(router) => *router >= MOST_ROUTERS,
        Node::Leader | Node::Part(_) => false,
    }
}

/// The first log of a router that no world can have.
pub(crate) fn first_stray(logs: &[Log]) -> Option<usize>
    ensures stray { IfSome result (λ j. IsFirstStray logs.now j) }
    ensures there { IfSome result (λ j. j < length logs.now) }
{
    for at in 0..logs.len() {
        if is_stray(&logs[at].node) {
            return Some(at);
        }
    }
    None
}
