//! What a router says of itself, and for which keys two views differ, as C calls them.

ghost use Rattle.std.specs.Borrow.{sem};
ghost use Rattle.squall_c_changes.specs.Changes.{PutsChanges};
ghost use Rattle.squall_c.specs.declared.router.RouterSlot.{RouterSlot};
ghost use Rattle.squall_c.specs.declared.views.ViewSlot.{ViewSlot};
ghost use Rattle.squall_c.specs.Handles.{router_at, view_at};
ghost use Rattle.squall_c.specs.Views.{seen};
ghost use Rattle.squall_c.specs.Telling.{TellsClash, PutsTally, PutsStatus, PutsPicture};

use crate::changes::view_changes;
use crate::handles::{CRouter, CView};
use crate::router::RouterSlot;
use crate::tallies::{clashed, counts};
use crate::texts::{router_picture, status_text};
use crate::views::ViewSlot;
use squall_c_values::CSpan;
use squall_status::Tally;

/// 1 if the router heard of different pairs of plans under a number above that of its course, else 0:
/// also if there is no router. It allocates: if that fails, the answer is the greatest number of its type.
#[unsafe(no_mangle)]
pub unsafe extern "C" fn squall_router_clashed(router: *const CRouter) -> usize
    ghost s: { RouterSlot }
    requires* { sem 𝓛 (router_at router s) }
    ensures* { sem 𝓛 (router_at router s) ∗ ⌜ TellsClash s.station result ⌝ }
{
    clashed(&*(router as *const RouterSlot))
}

/// Puts how much the router heard, in numbers, into the room, and answers 1: 0 if there is no router, or
/// the room holds none. It allocates: if that fails, the answer is the greatest number of
/// its type. At all but 1 the room stays.
#[unsafe(no_mangle)]
pub unsafe extern "C" fn squall_router_counts(router: *const CRouter, room: &mut [Tally]) -> usize
    ghost s: { RouterSlot }
    requires* { sem 𝓛 (router_at router s) }
    ensures* { sem 𝓛 (router_at router s) ∗ ⌜ PutsTally s.station room.old room.new result ⌝ }
{
    counts(&*(router as *const RouterSlot), room)
}

/// Puts the lines of how far the router's newest course has come into the room, if that holds them, and
/// answers how many bytes they have: 0 if there is no router. It allocates: if that fails, the answer is
/// the greatest number of its type. If the room is too short, it stays.
#[unsafe(no_mangle)]
pub unsafe extern "C" fn squall_router_status_text(router: *const CRouter, room: &mut [u8]) -> usize
    ghost s: { RouterSlot }
    requires* { sem 𝓛 (router_at router s) }
    ensures* { sem 𝓛 (router_at router s) ∗ ⌜ PutsStatus s.station room.old room.new result ⌝ }
{
    status_text(&*(router as *const RouterSlot), room)
}

/// Puts the picture of the router's newest course into the room, as `squall_router_status_text` does.
#[unsafe(no_mangle)]
pub unsafe extern "C" fn squall_router_picture(router: *const CRouter, room: &mut [u8]) -> usize
    ghost s: { RouterSlot }
    requires* { sem 𝓛 (router_at router s) }
    ensures* { sem 𝓛 (router_at router s) ∗ ⌜ PutsPicture s.station room.old room.new result ⌝ }
{
    router_picture(&*(router as *const RouterSlot), room)
}

/// Puts the longest spans of the keys from rank `lo` on, below rank `hi`, whose routes by the two views
/// differ, into the room, by rising key, as many as it holds, and answers how many. The rest of the room
/// stays. It allocates nothing.
#[unsafe(no_mangle)]
pub unsafe extern "C" fn squall_view_changes(
    before: *const CView,
    after: *const CView,
    lo: u64,
    hi: u64,
    room: &mut [CSpan],
) -> usize
    ghost s: { ViewSlot × ViewSlot }
    requires* { sem 𝓛 (view_at before s.0) ∗ sem 𝓛 (view_at after s.1) }
    ensures* { sem 𝓛 (view_at before s.0) ∗ sem 𝓛 (view_at after s.1)
        ∗ ⌜ PutsChanges (seen s.0.view) (seen s.1.view) lo hi room.old room.new result ⌝ }
{
    view_changes(
        &*(before as *const ViewSlot),
        &*(after as *const ViewSlot),
        lo,
        hi,
        room,
    )
}
