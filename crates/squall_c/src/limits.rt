//! How much frames may tell a router behind a handle.

ghost use Rattle.std.specs.Prelude.{◌≡◌, ◌≢◌, [], Err, OnOk, OnErr, IsTrue, IsFalse, length};
ghost use Rattle.std.specs.List.{AllByRecursion};
ghost use Rattle.squall_board.specs.Boards.{board_join};
ghost use Rattle.squall_wire.specs.Messages.{IsMessage};
ghost use Rattle.squall_delta.specs.Pieces.{joined_boards};
ghost use Rattle.squall_router.specs.declared.fault.AbsorbFault.TheVariants.{Full};
ghost use Rattle.squall_router.specs.Routers.{router_with};
ghost use Rattle.squall_c_frames.specs.Joined.{deltas_of};
ghost use Rattle.squall_c.specs.Limits.{IsWithinLimit, IsBeyondLimit, Limits, count_after, limit_of, most_of, taken_count};

use crate::router::RouterSlot;
use crate::status::{CLOSED, OK};
use squall_board::Delta;
use squall_c_frames::{alone, joined};
use squall_router::{AbsorbFault, Router};
use squall_status::Tally;
use squall_wire::Message;
use std::alloc::Global;

/// The numbers that mean no limit.
const NO_LIMIT: Tally = Tally {
    cells: u64::MAX,
    spans: u64::MAX,
    opened: u64::MAX,
    issues: u64::MAX,
};

/// Has the router absorb the delta, if what it then tells is within the limit. It changes nothing if
/// it fails.
pub(crate) fn absorb(
    router: &mut Router,
    most: &Option<Tally>,
    delta: &Delta,
) -> Result<(), AbsorbFault>
    ensures ok { OnOk result (router.new ≡ router_with router.old.first (board_join router.old.board delta.now)) }
    ensures within { OnOk result (IsWithinLimit most.now (board_join router.old.board delta.now)) }
    ensures full { result ≡ Err Full → IsBeyondLimit most.now (board_join router.old.board delta.now) }
    ensures err { OnErr result (router.new ≡ router.old) }
{
    match most {
        Some(most) => router.absorb_within(delta, most),
        None => Ok(router.absorb(delta)?),
    }
}

/// Whether some message brings a board.
pub(crate) fn brings_boards(messages: &[Message]) -> bool
    ensures some { IsTrue result → deltas_of messages.now ≢ [] }
    ensures none { IsFalse result → deltas_of messages.now ≡ [] }
{
    for message in messages {
        match message {
            Message::Delta(_) => return true,
            Message::Digest(_) => {}
        }
    }
    false
}

/// Has the router absorb all that the messages tell, as [`absorb`] does. A delta that came alone is
/// absorbed as it is, since to join several costs a copy of each.
pub(crate) fn absorb_all(
    alloc: Global,
    router: &mut Router,
    most: &Option<Tally>,
    messages: &[Message],
) -> Result<(), AbsorbFault>
    requires { AllByRecursion IsMessage messages.now }
    ensures ok { OnOk result (router.new ≡ router_with router.old.first (board_join router.old.board (joined_boards (deltas_of messages.now)))) }
    ensures within { OnOk result (IsWithinLimit most.now (board_join router.old.board (joined_boards (deltas_of messages.now)))) }
    ensures full { result ≡ Err Full → IsBeyondLimit most.now (board_join router.old.board (joined_boards (deltas_of messages.now))) }
    ensures err { OnErr result (router.new ≡ router.old) }
{
    if let Some(delta) = alone(messages) {
        return absorb(router, most, delta);
    }
    let delta = joined(alloc, messages)?;
    absorb(router, most, &delta)
}

/// How many frames were taken, with `more` further ones.
pub(crate) fn taken_after(taken: u64, more: usize) -> u64
    ensures { result ≡ count_after taken more }
{
    taken.saturating_add(more as u64)
}

/// The limit of those numbers: none if each is the greatest of 64 bits.
fn limit_of(most: Tally) -> Option<Tally>
    ensures { result ≡ limit_of most }
{
    if most == NO_LIMIT { None } else { Some(most) }
}

/// Sets the limit on what frames may tell, in place of the one before.
pub(crate) fn limit(slot: &mut RouterSlot, cells: u64, spans: u64, opened: u64, issues: u64) -> u32
    ensures { Limits (most_of cells spans opened issues) slot.old slot.new result }
{
    let Some(station) = &mut slot.station else {
        return CLOSED;
    };
    station.most = limit_of(Tally {
        cells,
        spans,
        opened,
        issues,
    });
    OK
}

/// How many frames the router has taken, 0 if there is none.
pub(crate) fn taken(slot: &RouterSlot) -> u64
    ensures { result ≡ taken_count slot.now.station }
{
    match &slot.station {
        Some(station) => station.taken,
        None => 0,
    }
}
