//! Views as C calls them: what a router answered at one moment. All views of a moment share one
//! table. Reading threads share a view, or each has one of its own.

ghost use Rattle.std.specs.Prelude.{◌≡◌, length};
ghost use Rattle.std.specs.Borrow.{sem};
ghost use Rattle.squall_c.specs.declared.router.RouterSlot.{RouterSlot};
ghost use Rattle.squall_c.specs.declared.views.ViewSlot.{ViewSlot};
ghost use Rattle.squall_c.specs.Handles.{view_bytes, router_at, view_room, view_at, view_such};
ghost use Rattle.squall_c_values.specs.Rooms.{over};
ghost use Rattle.squall_c.specs.Showing.{that_fit};
ghost use Rattle.squall_c.specs.Views.{IsViewOf, IsSameView, seen, seen_number, routes_that_fit, places_of_view, legs_of_view};

use crate::handles::{CRouter, CView};
use crate::router::RouterSlot;
use crate::views::{
    ViewSlot, again, close_view, view_legs, view_locate, view_number, view_of, view_route,
    view_routes, view_status,
};
use squall_c_values::{CLeg, CPlace};
use std::alloc::Global;

/// How many bytes the room of a view has at least. It is aligned to 16.
#[unsafe(no_mangle)]
pub extern "C" fn squall_view_size() -> usize
    ensures { result ≡ view_bytes }
{
    size_of::<ViewSlot>()
}

/// Puts into the room a view of what the router answers now; or why there is none, which
/// `squall_view_status` tells. Either way the room is to be closed. It allocates: the router's
/// table is copied.
#[unsafe(no_mangle)]
pub unsafe extern "C" fn squall_view_open(alloc: Global, router: *const CRouter, room: *mut CView)
    ghost s: { RouterSlot }
    requires* { sem 𝓛 (router_at router s) ∗ sem 𝓛 (view_room room) }
    ensures* { sem 𝓛 (router_at router s) ∗ sem 𝓛 (view_such room (λ v. IsViewOf s.station v)) }
{
    std::ptr::write(
        room as *mut ViewSlot,
        view_of(alloc, &*(router as *const RouterSlot)),
    );
}

/// Puts the same view into the room once more, for another reader; or, if too many share it, that
/// there is no memory (1). The room is to be closed. It allocates nothing.
#[unsafe(no_mangle)]
pub unsafe extern "C" fn squall_view_again(view: *const CView, room: *mut CView)
    ghost s: { ViewSlot }
    requires* { sem 𝓛 (view_at view s) ∗ sem 𝓛 (view_room room) }
    ensures* { sem 𝓛 (view_at view s) ∗ sem 𝓛 (view_such room (λ v. IsSameView s v)) }
{
    std::ptr::write(room as *mut ViewSlot, again(&*(view as *const ViewSlot)));
}

/// 0, or why there is no view: no memory (1), or no router (3).
#[unsafe(no_mangle)]
pub unsafe extern "C" fn squall_view_status(view: *const CView) -> u32
    ghost s: { ViewSlot }
    requires* { sem 𝓛 (view_at view s) }
    ensures* { sem 𝓛 (view_at view s) ∗ ⌜ result ≡ s.status ⌝ }
{
    view_status(&*(view as *const ViewSlot))
}

/// The partition to ask for the key of that rank; 2^32 - 1 where the rank is no key's, or there is
/// no view. It allocates nothing.
#[unsafe(no_mangle)]
pub unsafe extern "C" fn squall_view_route(view: *const CView, rank: u64) -> u32
    ghost s: { ViewSlot }
    requires* { sem 𝓛 (view_at view s) }
    ensures* { sem 𝓛 (view_at view s) ∗ ⌜ result ≡ seen s.view rank ⌝ }
{
    view_route(&*(view as *const ViewSlot), rank)
}

/// Puts the partitions to ask for the keys of these ranks into the room, as many as it holds, and
/// answers how many. Each is what `squall_view_route` answers. The rest of the room stays. It allocates
/// nothing.
#[unsafe(no_mangle)]
pub unsafe extern "C" fn squall_view_routes(
    view: *const CView,
    ranks: &[u64],
    room: &mut [u32],
) -> usize
    ghost s: { ViewSlot }
    requires* { sem 𝓛 (view_at view s) }
    ensures* { sem 𝓛 (view_at view s)
        ∗ ⌜ (room.new ≡ over (routes_that_fit s.view ranks.now room.old) room.old) × (result ≡ length (routes_that_fit s.view ranks.now room.old)) ⌝ }
{
    view_routes(&*(view as *const ViewSlot), ranks, room)
}

/// Puts into the room at which partitions the keys of these ranks are, as many as it holds, and answers
/// how many: 0 if there is no view. A key whose `part` is its `dest` stays there until another course
/// begins. The rest of the room stays. It allocates nothing.
#[unsafe(no_mangle)]
pub unsafe extern "C" fn squall_view_locate(
    view: *const CView,
    ranks: &[u64],
    room: &mut [CPlace],
) -> usize
    ghost s: { ViewSlot }
    requires* { sem 𝓛 (view_at view s) }
    ensures* { sem 𝓛 (view_at view s)
        ∗ ⌜ (room.new ≡ over (places_of_view s.view ranks.now room.old) room.old) × (result ≡ length (places_of_view s.view ranks.now room.old)) ⌝ }
{
    view_locate(&*(view as *const ViewSlot), ranks, room)
}

/// Puts the legs from rank `lo` to rank `hi` into the room, as many as it holds, and
/// answers how many those are: 0 where no key lies between them, one is no bound, or there is no
/// view. The rest of the room stays. It allocates nothing.
#[unsafe(no_mangle)]
pub unsafe extern "C" fn squall_view_legs(
    view: *const CView,
    lo: u64,
    hi: u64,
    room: &mut [CLeg],
) -> usize
    ghost s: { ViewSlot }
    requires* { sem 𝓛 (view_at view s) }
    ensures* { sem 𝓛 (view_at view s)
        ∗ ⌜ (room.new ≡ over (that_fit (legs_of_view s.view lo hi) room.old) room.old) × (result ≡ length (that_fit (legs_of_view s.view lo hi) room.old)) ⌝ }
{
    view_legs(&*(view as *const ViewSlot), lo, hi, room)
}

/// The number of the course by which the view answers; 0 where there is no view.
#[unsafe(no_mangle)]
pub unsafe extern "C" fn squall_view_number(view: *const CView) -> u32
    ghost s: { ViewSlot }
    requires* { sem 𝓛 (view_at view s) }
    ensures* { sem 𝓛 (view_at view s) ∗ ⌜ result ≡ seen_number s.view ⌝ }
{
    view_number(&*(view as *const ViewSlot))
}

/// Drops the view, and gives the room back. The table goes with the last view that shares it.
#[unsafe(no_mangle)]
pub unsafe extern "C" fn squall_view_close(view: *mut CView)
    ghost s: { ViewSlot }
    requires* { sem 𝓛 (view_at view s) }
    ensures* { sem 𝓛 (view_room view) }
{
    close_view(std::ptr::read(view as *const ViewSlot))
}
