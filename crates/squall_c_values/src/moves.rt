//! Moves and receivers, as C sees them.

ghost use Rattle.std.specs.Prelude.{◌≡◌, IfOk, OnErr, OnOk, length};
ghost use Rattle.squall_c_values.specs.Rooms.{over};
ghost use Rattle.squall_c_values.specs.Values.{c_move, firsts_that_fit, moves_that_fit, receivers_that_fit};

use crate::tail::tail_from;
use squall_course::{Course, Move};
use squall_key::PartId;
use std::alloc::{AllocError, Global};

/// The keys from rank `lo` on, below rank `hi`, go from a partition to another in a sub-plan.
#[repr(C)]
#[derive(Clone, Copy, Debug, PartialEq, Eq)]
pub struct CMove {
    /// The rank of the least key.
    pub lo: u64,
    /// The rank above the greatest key.
    pub hi: u64,
    /// The partition that gives the keys.
    pub source: u32,
    /// The partition that loads them.
    pub dest: u32,
    /// The sub-plan, from 0.
    pub sub: u32,
}

/// The move as C sees it.
fn move_of(one: &Move) -> CMove
    ensures { result ≡ c_move one.now }
{
    CMove {
        lo: one.span.lo().rank(),
        hi: one.span.hi().rank(),
        source: one.source.get(),
        dest: one.dest.get(),
        sub: one.sub,
    }
}

/// Writes the moves into the room, from its start on, as many as it holds, and answers how many.
fn put_all(moves: &[Move], room: &mut [CMove]) -> usize
    ensures moves { room.new ≡ over (firsts_that_fit c_move moves.now room.old) room.old }
    ensures count { result ≡ length (firsts_that_fit c_move moves.now room.old) }
{
    let count = moves.len().min(room.len());
    for at in 0..count {
        room[at] = move_of(&moves[at]);
    }
    count
}

/// Writes the moves of the course by rising key, from the place `from` on, into the room, as many
/// as it holds, and answers how many.
pub fn put_moves(course: &Course, from: usize, room: &mut [CMove]) -> usize
    ensures moves { room.new ≡ over (moves_that_fit course.now from room.old) room.old }
    ensures count { result ≡ length (moves_that_fit course.now from room.old) }
{
    put_all(tail_from(course.moves(), from), room)
}

/// Writes the partitions into the room, from its start on, as many as it holds, and answers how many.
fn put_parts(parts: &[PartId], room: &mut [u32]) -> usize
    ensures parts { room.new ≡ over (firsts_that_fit (λ p. p) parts.now room.old) room.old }
    ensures count { result ≡ length (firsts_that_fit (λ p. p) parts.now room.old) }
{
    let count = parts.len().min(room.len());
    for at in 0..count {
        room[at] = parts[at].get();
    }
    count
}

/// Writes the partitions to which keys move in the sub-plan, in rising number, into the room, as
/// many as it holds, and answers how many. An error means that an allocation failed: nothing is
/// then written.
pub fn put_receivers(
    alloc: Global,
    course: &Course,
    sub: u32,
    room: &mut [u32],
) -> Result<usize, AllocError>
    ensures receivers { OnOk result (room.new ≡ over (receivers_that_fit course.now sub room.old) room.old) }
    ensures count { IfOk result (λ count. count ≡ length (receivers_that_fit course.now sub room.old)) }
    ensures err { OnErr result (room.new ≡ room.old) }
{
    let receivers = course.receivers(alloc, sub)?;
    Ok(put_parts(&receivers, room))
}
