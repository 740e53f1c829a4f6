//! How much frames may tell a router, and how many it took, as C calls it.

ghost use Rattle.std.specs.Prelude.{◌≡◌};
ghost use Rattle.std.specs.Borrow.{sem};
ghost use Rattle.squall_c.specs.declared.router.RouterSlot.{RouterSlot};
ghost use Rattle.squall_c.specs.Handles.{router_at, router_such};
ghost use Rattle.squall_c.specs.Limits.{Limits, most_of, taken_count};

use crate::handles::CRouter;
use crate::limits::{limit, taken};
use crate::router::RouterSlot;

/// Sets the most that the router may tell after a frame: how many cells, spans of keys loaded, opened
/// sub-plans and issued numbers. From then on a frame or a piece of a stream that brings more is
/// refused (7), and nothing changes. If all four are the greatest number of 64 bits, there is no limit.
/// No router (3): then nothing changes.
#[unsafe(no_mangle)]
pub unsafe extern "C" fn squall_router_limit(
    router: *mut CRouter,
    cells: u64,
    spans: u64,
    opened: u64,
    issues: u64,
) -> u32
    ghost s: { RouterSlot }
    requires* { sem 𝓛 (router_at router s) }
    ensures* { sem 𝓛 (router_such router (λ now. Limits (most_of cells spans opened issues) s now result)) }
{
    limit(
        &mut *(router as *mut RouterSlot),
        cells,
        spans,
        opened,
        issues,
    )
}

/// How many frames the router has taken: 0 if there is no router. It stops at the greatest number of
/// 64 bits. It allocates nothing.
#[unsafe(no_mangle)]
pub unsafe extern "C" fn squall_router_taken(router: *const CRouter) -> u64
    ghost s: { RouterSlot }
    requires* { sem 𝓛 (router_at router s) }
    ensures* { sem 𝓛 (router_at router s) ∗ ⌜ result ≡ taken_count s.station ⌝ }
{
    taken(&*(router as *const RouterSlot))
}
