//! Views: what a router answered at one moment, for readers that share one table.

ghost use Rattle.std.specs.Prelude.{◌≡◌, IfOk, Some, length};
ghost use Rattle.squall_c_values.specs.Rooms.{over};
ghost use Rattle.squall_c.specs.Showing.{that_fit};
ghost use Rattle.squall_c.specs.Views.{places_of_view, Shows, IsViewOf, IsSameView};
ghost use Rattle.squall_c.specs.Views.{seen, seen_number, routes_that_fit, legs_of_view, blank_view, slot_of_view};

use crate::legs::put_legs;
use crate::router::{RouterSlot, Station, may_cross};
use crate::status::{CLOSED, NO_MEMORY, NOWHERE, OK};
use squall_c_values::{CLeg, CPlace, put_places};
use squall_course::Course;
use squall_join::Shared;
use squall_key::Key;
use squall_table::RouteTable;
use std::alloc::{AllocError, Global};
use std::sync::Arc;

/// What a router answered at one moment.
#[derive(Drop)]
pub struct View {
    /// Its table, which all views of that moment share.
    pub(crate) table: Shared<RouteTable>,
    /// Its course, which the router and all its views share.
    pub(crate) course: Shared<Course>,
}

/// What lies behind the handle of a view: a view, or why there is none.
#[derive(Drop)]
pub struct ViewSlot {
    pub(crate) status: u32,
    pub(crate) view: Option<View>,
}

/// No view, for that reason.
fn blank(status: u32) -> ViewSlot
    ensures { result ≡ blank_view status }
{
    ViewSlot { status, view: None }
}

/// The view, or that there was no memory for one.
fn slot_of(view: Result<View, AllocError>) -> ViewSlot
    ensures { result ≡ slot_of_view view }
{
    match view {
        Ok(view) => ViewSlot {
            status: OK,
            view: Some(view),
        },
        Err(_) => blank(NO_MEMORY),
    }
}

/// What the router answers now. It fails if an allocation fails.
fn shown(alloc: Global, station: &Station) -> Result<View, AllocError>
    ensures { IfOk result (λ v. Shows station.now.router (Some v)) }
{
    let table = station.router.table().copied(alloc)?;
    Ok(View {
        table: Shared::new(Arc::new(alloc, table)?),
        course: Shared::new(Arc::try_clone(station.router.course())?),
    })
}

/// A view of what the router answers now, or why there is none.
pub(crate) fn view_of(alloc: Global, slot: &RouterSlot) -> ViewSlot
    ensures { IsViewOf slot.now.station result }
{
    match &slot.station {
        Some(station) => slot_of(shown(alloc, station)),
        None => blank(CLOSED),
    }
}

/// The same view. It fails only if the count of a table's owners is full.
fn shared(view: &View) -> Result<View, AllocError>
    ensures { IfOk result (λ v. v ≡ view.now) }
{
    Ok(View {
        table: view.table.again()?,
        course: view.course.again()?,
    })
}

/// The same view for one more reader, of which nothing is copied, or why there is none.
pub(crate) fn again(slot: &ViewSlot) -> ViewSlot
    ensures { IsSameView slot.now result }
{
    match &slot.view {
        Some(view) => slot_of(shared(view)),
        None => blank(slot.status),
    }
}

/// 0, or why there is no view.
pub(crate) fn view_status(slot: &ViewSlot) -> u32
    ensures { result ≡ slot.now.status }
{
    slot.status
}

/// The partition to ask for the key of that rank, or `NOWHERE` where there is no such key, or no
/// view.
pub(crate) fn view_route(slot: &ViewSlot, rank: u64) -> u32
    ensures { result ≡ seen slot.now.view rank }
{
    match (&slot.view, Key::of_rank(rank)) {
        (Some(view), Some(key)) => view.table.as_arc().owner(key).get(),
        _ => NOWHERE,
    }
}

/// Puts the partitions to ask for the keys of these ranks into the room, as many as it holds, and
/// answers how many. Each is that of [`view_route`].
pub(crate) fn view_routes(slot: &ViewSlot, ranks: &[u64], room: &mut [u32]) -> usize
    ensures parts { room.new ≡ over (routes_that_fit slot.now.view ranks.now room.old) room.old }
    ensures count { result ≡ length (routes_that_fit slot.now.view ranks.now room.old) }
{
    let count = ranks.len().min(room.len());
    for at in 0..count {
        room[at] = view_route(slot, ranks[at]);
    }
    count
}

/// Writes the places of the keys of these ranks into the room, as many as it holds, and answers how
/// many: 0 if there is no view.
pub(crate) fn view_locate(slot: &ViewSlot, ranks: &[u64], room: &mut [CPlace]) -> usize
    ensures places { room.new ≡ over (places_of_view slot.now.view ranks.now room.old) room.old }
    ensures count { result ≡ length (places_of_view slot.now.view ranks.now room.old) }
{
    match &slot.view {
        Some(view) => put_places(view.course.as_arc(), view.table.as_arc(), ranks, room),
        None => 0,
    }
}

/// Puts the legs from rank `lo` to rank `hi` into the room, as many as it holds, and
/// answers how many those are. None where no key lies between them, or one is no bound.
pub(crate) fn view_legs(slot: &ViewSlot, lo: u64, hi: u64, room: &mut [CLeg]) -> usize
    ensures legs { room.new ≡ over (that_fit (legs_of_view slot.now.view lo hi) room.old) room.old }
    ensures count { result ≡ length (that_fit (legs_of_view slot.now.view lo hi) room.old) }
{
    match &slot.view {
        Some(view) => put_legs(view.table.as_arc(), lo, hi, room),
        None => 0,
    }
}

/// The number of the course by which the view answers, or 0 where there is no view.
pub(crate) fn view_number(slot: &ViewSlot) -> u32
    ensures { result ≡ seen_number slot.now.view }
{
    match &slot.view {
        Some(view) => view.course.as_arc().number(),
        None => 0,
    }
}

/// Drops the view.
pub(crate) fn close_view(slot: ViewSlot) {}

/// The slot of a view may cross threads.
pub fn view_may_cross(slot: &ViewSlot) {
    may_cross(slot)
}
