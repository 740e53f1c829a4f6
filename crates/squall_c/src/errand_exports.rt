//! Errands as C calls them: the search for the partition that holds a key, by what partitions reply.
//! No call of an errand allocates.

ghost use Rattle.std.specs.Prelude.{◌≡◌};
ghost use Rattle.std.specs.Borrow.{sem};
ghost use Rattle.squall_c.specs.declared.errands.ErrandSlot.{ErrandSlot};
ghost use Rattle.squall_c.specs.declared.router.RouterSlot.{RouterSlot};
ghost use Rattle.squall_c.specs.declared.views.ViewSlot.{ViewSlot};
ghost use Rattle.squall_c.specs.Handles.{errand_bytes, router_at, view_at, errand_room, errand_at, errand_such};
ghost use Rattle.squall_c.specs.ErrandSlots.{errand_of_station, errand_of_view, asked_by, moved_number, reply_of, heeded};

use crate::errands::{
    ErrandSlot, asked, close_errand, errand_number, errand_status, heed, start, start_at,
};
use crate::handles::{CErrand, CRouter, CView};
use crate::router::RouterSlot;
use crate::views::ViewSlot;

/// How many bytes the room of an errand has at least. It is aligned to 16.
#[unsafe(no_mangle)]
pub extern "C" fn squall_errand_size() -> usize
    ensures { result ≡ errand_bytes }
{
    size_of::<ErrandSlot>()
}

/// Puts into the room an errand for the key of that rank, which asks where the router sends it; or
/// why there is none, which `squall_errand_status` tells. Either way the room is to be closed.
#[unsafe(no_mangle)]
pub unsafe extern "C" fn squall_errand_start(router: *const CRouter, rank: u64, room: *mut CErrand)
    ghost s: { RouterSlot }
    requires* { sem 𝓛 (router_at router s) ∗ sem 𝓛 (errand_room room) }
    ensures* { sem 𝓛 (router_at router s) ∗ sem 𝓛 (errand_such room (λ e. e ≡ errand_of_station s.station rank)) }
{
    std::ptr::write(
        room as *mut ErrandSlot,
        start(&*(router as *const RouterSlot), rank),
    );
}

/// The same by a view.
#[unsafe(no_mangle)]
pub unsafe extern "C" fn squall_errand_start_at(view: *const CView, rank: u64, room: *mut CErrand)
    ghost s: { ViewSlot }
    requires* { sem 𝓛 (view_at view s) ∗ sem 𝓛 (errand_room room) }
    ensures* { sem 𝓛 (view_at view s) ∗ sem 𝓛 (errand_such room (λ e. e ≡ errand_of_view s.view rank)) }
{
    std::ptr::write(
        room as *mut ErrandSlot,
        start_at(&*(view as *const ViewSlot), rank),
    );
}

/// 0, or why there is no errand: the rank is no key's (2), or there is no router or view (3).
#[unsafe(no_mangle)]
pub unsafe extern "C" fn squall_errand_status(errand: *const CErrand) -> u32
    ghost s: { ErrandSlot }
    requires* { sem 𝓛 (errand_at errand s) }
    ensures* { sem 𝓛 (errand_at errand s) ∗ ⌜ result ≡ s.status ⌝ }
{
    errand_status(&*(errand as *const ErrandSlot))
}

/// The partition to ask; 2^32 - 1 if there is no errand.
#[unsafe(no_mangle)]
pub unsafe extern "C" fn squall_errand_asked(errand: *const CErrand) -> u32
    ghost s: { ErrandSlot }
    requires* { sem 𝓛 (errand_at errand s) }
    ensures* { sem 𝓛 (errand_at errand s) ∗ ⌜ result ≡ asked_by s.errand ⌝ }
{
    asked(&*(errand as *const ErrandSlot))
}

/// The number of the last reply "moved" that was followed. The partition that is asked needs it. It is
/// 0 before the first, and if there is no errand.
#[unsafe(no_mangle)]
pub unsafe extern "C" fn squall_errand_number(errand: *const CErrand) -> u32
    ghost s: { ErrandSlot }
    requires* { sem 𝓛 (errand_at errand s) }
    ensures* { sem 𝓛 (errand_at errand s) ∗ ⌜ result ≡ moved_number s.errand ⌝ }
{
    errand_number(&*(errand as *const ErrandSlot))
}

/// Takes the reply of the partition that was asked: held (0), moved to `part` in the
/// reconfiguration of that number (1), pending from `part` (2), behind (3), elsewhere, at `part` (4).
/// Answers what to do: nothing, the key was found (0); ask the partition to which it went (1); ask
/// the same one again, later (2); start anew once the router has heard more, since the replies
/// contradict each other (3). What is no reply is answered by 255 and changes nothing.
#[unsafe(no_mangle)]
pub unsafe extern "C" fn squall_errand_heed(
    errand: *mut CErrand,
    reply: u32,
    part: u32,
    number: u32,
) -> u32
    ghost s: { ErrandSlot }
    requires* { sem 𝓛 (errand_at errand s) }
    ensures* { sem 𝓛 (errand_such errand (λ now. (result ≡ (heeded s (reply_of reply part number)).answer)
        × (now ≡ (heeded s (reply_of reply part number)).slot))) }
{
    heed(&mut *(errand as *mut ErrandSlot), reply, part, number)
}

/// Drops the errand, and gives the room back.
#[unsafe(no_mangle)]
pub unsafe extern "C" fn squall_errand_close(errand: *mut CErrand)
    ghost s: { ErrandSlot }
    requires* { sem 𝓛 (errand_at errand s) }
    ensures* { sem 𝓛 (errand_room errand) }
{
    close_errand(std::ptr::read(errand as *const ErrandSlot))
}
