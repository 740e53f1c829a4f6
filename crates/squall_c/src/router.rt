//! Routers behind handles: how they are opened and closed, and what they answer.

ghost use Rattle.std.specs.Prelude.{◌≡◌, ◌≤◌, IfOk, Some, length};
ghost use Rattle.squall_plan.specs.Form.{plan_of_text};
ghost use Rattle.squall_c.specs.Status.{GivesSeen, PlacesMemory, NeedsNumber, plan_or_cause};
ghost use Rattle.squall_c.specs.Opening.{first_course, slot_of_router, IsNew, IsStationOf, IsOpened};
ghost use Rattle.squall_c.specs.Showing.{routed, course_number, legs_of_station, that_fit};
ghost use Rattle.squall_c_values.specs.Rooms.{over};

use crate::legs::put_legs;
use crate::status::{
    CLOSED, Cause, IN_NEW_PLAN, IN_OLD_PLAN, LIMIT, NO_MEMORY, NO_PLACE, NOWHERE, OK,
};
use squall_c_frames::{Frames, TwinFeed};
use squall_c_values::CLeg;
use squall_course::Course;
use squall_key::Key;
use squall_plan::{Plan, PlanFault};
use squall_router::Router;
use squall_status::Tally;
use squall_wire::Digest;
use std::alloc::{AllocError, Global};
use std::sync::Arc;

/// What a handle of a router leads to if the router was opened.
#[derive(Drop)]
pub struct Station {
    pub(crate) alloc: Global,
    pub(crate) router: Router,
    /// What hears frames.
    pub(crate) feed: TwinFeed,
    /// The digest that was heard last.
    pub(crate) heard: Option<Digest>,
    /// The frames that wait to be fetched.
    pub(crate) frames: Frames,
    /// The most that the board may tell after a frame, if there is a limit.
    pub(crate) most: Option<Tally>,
    /// How many frames were taken.
    pub(crate) taken: u64,
}

/// What lies behind the handle of a router: a router, or why there is none.
#[derive(Drop)]
pub struct RouterSlot {
    /// 0, or why there is no router.
    pub(crate) status: u32,
    /// The place of the last fault of a plan.
    pub(crate) fault_at: u64,
    pub(crate) station: Option<Station>,
}

/// The plan that was read, or the cause of its fault, to whose number so much is added.
fn plan_or_cause(added: u32, read: Result<Plan, PlanFault>) -> Result<Plan, Cause>
    requires { added ≤ 20 }
    ensures plan { result ≡ plan_or_cause added read }
    ensures place { PlacesMemory result }
{
    match read {
        Ok(plan) => Ok(plan),
        Err(fault) => Err(Cause::of_fault(added, &fault)),
    }
}

/// The plan of the text, or why there is none.
pub(crate) fn read_plan(alloc: Global, text: &[u8], added: u32) -> Result<Plan, Cause>
    requires { added ≤ 20 }
    ensures plan { GivesSeen (λ p. p) result (plan_or_cause added (plan_of_text text.now)) }
    ensures place { PlacesMemory result }
{
    plan_or_cause(added, Plan::read(alloc, text))
}

/// The first course of the router of two texts, or why there is none.
pub(crate) fn first_course(
    alloc: Global,
    number: u32,
    old: &[u8],
    new: &[u8],
) -> Result<Course, Cause>
    ensures course { GivesSeen (λ c. c) result (first_course number old.now new.now) }
    ensures place { PlacesMemory result }
    ensures numbered { NeedsNumber number result }
{
    if number == 0 {
        return Err(Cause::with(LIMIT));
    }
    let old = read_plan(alloc, old, IN_OLD_PLAN)?;
    let new = read_plan(alloc, new, IN_NEW_PLAN)?;
    match Course::new(alloc, number, &old, &new) {
        Ok(course) => Ok(course),
        Err(_) => Err(Cause::with(NO_MEMORY)),
    }
}

/// A station of the course that has heard nothing. It fails if an allocation fails, or if a
/// count of owners is full.
fn station_of(alloc: Global, course: Course) -> Result<Station, AllocError>
    ensures { IfOk result (λ s. IsNew course (Some s)) }
{
    let course = Arc::new(alloc, course)?;
    let router = Router::new(alloc, &course)?;
    Ok(Station {
        alloc,
        router,
        feed: TwinFeed::new(alloc),
        heard: None,
        frames: Frames::new(alloc),
        most: None,
        taken: 0,
    })
}

/// A station of the plans of both texts that has heard nothing, or why there is none.
fn station_of_plans(alloc: Global, number: u32, old: &[u8], new: &[u8]) -> Result<Station, Cause>
    ensures station { IsStationOf (first_course number old.now new.now) result }
    ensures place { PlacesMemory result }
    ensures numbered { NeedsNumber number result }
{
    let course = first_course(alloc, number, old, new)?;
    Ok(station_of(alloc, course)?)
}

/// The slot of the station, or of why there is none.
fn slot_of(station: Result<Station, Cause>) -> RouterSlot
    ensures { result ≡ slot_of_router station }
{
    match station {
        Ok(station) => RouterSlot {
            status: OK,
            fault_at: NO_PLACE,
            station: Some(station),
        },
        Err(cause) => RouterSlot {
            status: cause.status,
            fault_at: cause.at,
            station: None,
        },
    }
}

/// The router of the plans of both texts, before any report, or why there is none.
pub(crate) fn open(alloc: Global, number: u32, old: &[u8], new: &[u8]) -> RouterSlot
    ensures { IsOpened number old.now new.now result }
{
    slot_of(station_of_plans(alloc, number, old, new))
}

/// 0, or why there is no router.
pub(crate) fn status(slot: &RouterSlot) -> u32
    ensures { result ≡ slot.now.status }
{
    slot.status
}

/// The place of the last fault of a plan: the index of its entry, or the rank of the bound that it
/// names; `NO_PLACE` if there was none, or it has no place.
pub(crate) fn fault_at(slot: &RouterSlot) -> u64
    ensures { result ≡ slot.now.fault_at }
{
    slot.fault_at
}

/// The partition to ask for the key of that rank, or `NOWHERE` where there is no such key, or no
/// router.
pub(crate) fn route(slot: &RouterSlot, rank: u64) -> u32
    ensures { result ≡ routed slot.now.station rank }
{
    match (&slot.station, Key::of_rank(rank)) {
        (Some(station), Some(key)) => station.router.route(key).get(),
        _ => NOWHERE,
    }
}

/// The number of the router's course, or 0 if there is no router.
pub(crate) fn number(slot: &RouterSlot) -> u32
    ensures { result ≡ course_number slot.now.station }
{
    match &slot.station {
        Some(station) => station.router.course().number(),
        None => 0,
    }
}

/// Puts the legs from rank `lo` to rank `hi` into the room, as many as it holds, and
/// answers how many those are. None where no key lies between them, or one is no bound.
pub(crate) fn legs(slot: &RouterSlot, lo: u64, hi: u64, room: &mut [CLeg]) -> usize
    ensures legs { room.new ≡ over (that_fit (legs_of_station slot.now.station lo hi) room.old) room.old }
    ensures count { result ≡ length (that_fit (legs_of_station slot.now.station lo hi) room.old) }
{
    match &slot.station {
        Some(station) => put_legs(station.router.table(), lo, hi, room),
        None => 0,
    }
}

/// Drops the router.
pub(crate) fn close(slot: RouterSlot) {}

/// Takes what may cross threads.
pub(crate) fn may_cross<T: Send + Sync>(_value: &T) {}

/// The slot of a router may cross threads.
pub fn slot_may_cross(slot: &RouterSlot) {
    may_cross(slot)
}
