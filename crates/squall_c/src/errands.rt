//! Errands behind handles.

ghost use Rattle.std.specs.Prelude.{◌≡◌, Some};
ghost use Rattle.squall_c.specs.Status.{ok};
ghost use Rattle.squall_c.specs.ErrandSlots.{no_errand, errand_of_station, errand_of_view, asked_by, moved_number, reply_of, answer_of, heeded};

use crate::router::{RouterSlot, may_cross};
use crate::status::{CLOSED, LIMIT, NOWHERE, OK};
use crate::views::ViewSlot;
use squall_key::{Key, PartId};
use squall_router::{Errand, Next, Reply};

/// The answer to what is no reply.
const NO_ANSWER: u32 = 255;

/// What lies behind the handle of an errand: an errand, or why there is none.
#[derive(Drop)]
pub struct ErrandSlot {
    pub(crate) status: u32,
    pub(crate) errand: Option<Errand>,
}

/// No errand, for that reason.
fn none(status: u32) -> ErrandSlot
    ensures { result ≡ no_errand status }
{
    ErrandSlot {
        status,
        errand: None,
    }
}

/// That errand.
fn begun(errand: Errand) -> ErrandSlot
    ensures status { result.status ≡ ok }
    ensures errand { result.errand ≡ Some errand }
{
    ErrandSlot {
        status: OK,
        errand: Some(errand),
    }
}

/// An errand for the key of that rank, which asks where the router sends it. `LIMIT` where the rank
/// is no key's, `CLOSED` if there is no router.
pub(crate) fn start(slot: &RouterSlot, rank: u64) -> ErrandSlot
    ensures { result ≡ errand_of_station slot.now.station rank }
{
    let Some(station) = &slot.station else {
        return none(CLOSED);
    };
    match Key::of_rank(rank) {
        Some(key) => begun(Errand::start(&station.router, key)),
        None => none(LIMIT),
    }
}

/// The same by a view. `CLOSED` where there is no view.
pub(crate) fn start_at(slot: &ViewSlot, rank: u64) -> ErrandSlot
    ensures { result ≡ errand_of_view slot.now.view rank }
{
    let Some(view) = &slot.view else {
        return none(CLOSED);
    };
    match Key::of_rank(rank) {
        Some(key) => begun(Errand::at(view.table.as_arc().owner(key))),
        None => none(LIMIT),
    }
}

/// 0, or why there is no errand.
pub(crate) fn errand_status(slot: &ErrandSlot) -> u32
    ensures { result ≡ slot.now.status }
{
    slot.status
}

/// The partition to ask, or `NOWHERE` if there is no errand.
pub(crate) fn asked(slot: &ErrandSlot) -> u32
    ensures { result ≡ asked_by slot.now.errand }
{
    match &slot.errand {
        Some(errand) => errand.asked().get(),
        None => NOWHERE,
    }
}

/// The number of the last `Moved` that was followed. The partition that is asked needs it. It is 0
/// before the first, and if there is no errand.
pub(crate) fn errand_number(slot: &ErrandSlot) -> u32
    ensures { result ≡ moved_number slot.now.errand }
{
    match &slot.errand {
        Some(errand) => errand.number(),
        None => 0,
    }
}

/// The reply of a number, with the partition and the number that it names, if there is one.
fn reply_of(reply: u32, part: u32, number: u32) -> Option<Reply>
    ensures { result ≡ reply_of reply part number }
{
    match reply {
        0 => Some(Reply::Held),
        1 => Some(Reply::Moved {
            dest: PartId::new(part)?,
            number,
        }),
        2 => Some(Reply::Pending {
            source: PartId::new(part)?,
        }),
        3 => Some(Reply::Behind),
        4 => Some(Reply::Elsewhere {
            dest: PartId::new(part)?,
        }),
        _ => None,
    }
}

/// The number of an answer.
fn answer_of(next: Next) -> u32
    ensures { result ≡ answer_of next }
{
    match next {
        Next::Served => 0,
        Next::Ask(_) => 1,
        Next::Again(_) => 2,
        Next::Lost => 3,
    }
}

/// Takes the reply of the partition that was asked, and says what to do: 0 nothing, the key was
/// found; 1 ask where the key went; 2 ask the same partition again, later; 3 the replies contradict
/// each other. Whom to ask is `asked`.
///
/// A reply is 0 held, 1 moved to `part` in the reconfiguration of that number, 2 pending from
/// `part`, 3 behind, 4 elsewhere, at `part`; `part` and `number` count only if they are named
/// here. What is no reply is answered by 255, and changes nothing.
pub(crate) fn heed(slot: &mut ErrandSlot, reply: u32, part: u32, number: u32) -> u32
    ensures answer { result ≡ (heeded slot.old (reply_of reply part number)).answer }
    ensures after { slot.new ≡ (heeded slot.old (reply_of reply part number)).slot }
{
    match (&mut slot.errand, reply_of(reply, part, number)) {
        (Some(errand), Some(reply)) => answer_of(errand.heed(reply)),
        _ => NO_ANSWER,
    }
}

/// Drops the errand.
pub(crate) fn close_errand(slot: ErrandSlot) {}

/// The slot of an errand may cross threads.
pub fn errand_may_cross(slot: &ErrandSlot) {
    may_cross(slot)
}
