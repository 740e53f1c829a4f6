//! Events.

use squall_board::Board;
use squall_key::{Key, PartId};
use squall_plan::Plan;

/// A node of a world.
#[derive(Clone, Copy, Debug, PartialEq, Eq)]
pub enum Node {
    /// The leader, which begins reconfigurations and opens their sub-plans.
    Leader,
    /// The partition of that number.
    Part(PartId),
    /// A router, of those counted from 0.
    Router(u32),
}

/// What may happen in a world.
#[derive(Drop)]
pub enum Event {
    /// The leader opens the next sub-plan of the course begun last.
    OpenNext,
    /// The leader begins a course from the newest plan to this one.
    Begin(Plan),
    /// The leader begins a course to the second plan, from the first, which says where the keys are.
    BeginFrom(Plan, Plan),
    /// A partition gives no more in the newest course that it knows.
    Close(PartId),
    /// A partition gives the first keys that are to go and are still there, at most that many.
    Give(PartId, u64),
    /// A partition gives one key.
    GiveAt(PartId, Key),
    /// The chunk of that index, from 0, comes to its destination.
    Load(usize),
    /// A partition reports that it has all keys of a sub-plan.
    Finish(PartId, u32),
    /// A node sends what it has heard and what it has reported itself.
    Send(Node),
    /// A node sends a part of that, as a board: one report, a delta, a piece or a repair.
    SendPart(Node, Board),
    /// The message of that index, from 0, comes to a node.
    Deliver(usize, Node),
    /// A router is asked where to send a key.
    Route(u32, Key),
    /// A partition is asked for a key, with the number of the last move that was followed, or 0 if
    /// there was none.
    Serve(PartId, Key, u32),
}
