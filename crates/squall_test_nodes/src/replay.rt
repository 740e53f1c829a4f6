//! Logs of calls, which are made anew.

ghost use Rattle.std.specs.Prelude.{IfOk};
ghost use Rattle.std.specs.Arc.{arc_value};
ghost use Rattle.squall_part.specs.Parts.{IsPart, new_part};
ghost use Rattle.squall_replay.specs.Calls.{Leads, IsSamePart};

use crate::example::course;
use squall_board::Board;
use squall_course::Course;
use squall_key::{Key, PartId};
use squall_part::{Chunk, LoadFault, Part};
use squall_replay::laws::one_partition;
use squall_replay::{Answer, Call, CallFault, replay};
use squall_report::Report;
use squall_test_example::{holds, span};
use std::alloc::Global;
use std::process::Abort;
use std::sync::Arc;

/// The partition that the calls of a log make of a new one.
fn rebuilt(
    alloc: Global,
    id: PartId,
    first: &Arc<Course>,
    calls: &[Call],
) -> Result<Part, CallFault>
    ensures fresh { IfOk result (λ p. IsPart (new_part id (arc_value first.now))) }
    ensures leads { IfOk result (λ p. Leads (new_part id (arc_value first.now)) calls.now p) }
{
    let mut part = Part::new(alloc, id, first)?;
    part.known();
    replay(&mut part, calls)?;
    Ok(part)
}

/// Two partitions that were rebuilt from one log are one: no call tells them apart.
fn rebuilt_twice(
    alloc: Global,
    id: PartId,
    first: &Arc<Course>,
    calls: &[Call],
) -> Result<(Part, Part), CallFault>
    ensures { IfOk result (λ parts. IsSamePart parts.0 parts.1) }
{
    one_partition();
    let one = rebuilt(alloc, id, first, calls)?;
    let other = rebuilt(alloc, id, first, calls)?;
    Ok((one, other))
}

/// The call that absorbs that sub-plan 0 is opened. None if an allocation fails.
fn opening(alloc: Global) -> Option<Call> {
    let mut board = Board::new(alloc);
    board.take(&Report::opened(1, 0)?).ok()?;
    Some(Call::Absorb(board))
}

/// The chunk of the keys of root 2.
fn chunk() -> Option<Chunk> {
    Chunk::new(1, 0, PartId::new(1)?, PartId::new(3)?, span("2:0", "3:0")?)
}

/// A log of the source. None if an allocation fails.
fn source_log(alloc: Global) -> Option<Vec<Call>> {
    let mut calls = Vec::new(alloc);
    calls.push(opening(alloc)?).ok()?;
    calls.push(Call::GiveAt(Key::new(2, 7)?)).ok()?;
    calls.push(Call::Give(5)).ok()?;
    calls.push(Call::Close).ok()?;
    Some(calls)
}

/// A log of the destination. None if an allocation fails.
fn dest_log(alloc: Global) -> Option<Vec<Call>> {
    let mut calls = Vec::new(alloc);
    calls.push(opening(alloc)?).ok()?;
    calls.push(Call::Load(chunk()?)).ok()?;
    calls.push(Call::Load(chunk()?)).ok()?;
    calls.push(Call::Finish(0)).ok()?;
    calls.push(Call::Close).ok()?;
    Some(calls)
}

/// Whether both hold the same keys, have one board, and are closed in course 1.
fn is_same(one: &Part, other: &Part) -> bool {
    *one.held() == *other.held()
        && *one.board() == *other.board()
        && one.closed(1)
        && other.closed(1)
}

/// Whether two partitions that the log makes are one, and hold so many keys. None if an allocation
/// fails.
fn rebuilds(rt: &impl Abort, alloc: Global, id: u32, calls: &[Call], held: u64) -> Option<()> {
    let course = course(alloc)?;
    let (one, other) = rebuilt_twice(alloc, PartId::new(id)?, &course, calls).ok()?;
    holds!(rt; is_same(&one, &other));
    holds!(rt; one.held().count() == held);
    Some(())
}

/// How many keys lie below 1:0.
const ROOT: u64 = 4294967296;

/// The partitions of both logs are rebuilt. None if an allocation fails.
fn rebuilds_both(rt: &impl Abort, alloc: Global) -> Option<()> {
    let source = source_log(alloc)?;
    rebuilds(rt, alloc, 1, &source, 3 * ROOT - 6)?;
    let dest = dest_log(alloc)?;
    rebuilds(rt, alloc, 3, &dest, 5 * ROOT)
}

#[test]
fn logs_rebuild_partitions(rt: HostRuntime) {
    holds!(&rt; rebuilds_both(&rt, rt.alloc()).is_some());
}

#[test]
fn tolerant_replay(rt: HostRuntime) {
    let _rebuilt = rebuilds_both(&rt, rt.alloc());
}

/// The answers of a destination, one a call of its log.
fn is_answer(call: usize, answer: &Answer) -> bool {
    match answer {
        Answer::Absorbed => call == 0,
        Answer::Loaded(_) => call == 1,
        Answer::Again => call == 2,
        Answer::Finished(_) => call == 3,
        Answer::Closed(number) => call == 4 && *number == 1,
        Answer::Gave(_) => false,
    }
}

/// Each call of the log is answered by the partition. None if an allocation fails.
fn answers_all(rt: &impl Abort, part: &mut Part, calls: &[Call]) -> Option<()> {
    for at in 0..calls.len() {
        let answer = calls[at].make(part).ok()?;
        holds!(rt; is_answer(at, &answer));
    }
    Some(())
}

/// A destination makes the calls of its log. None if an allocation fails.
fn answers_log(rt: &impl Abort, alloc: Global) -> Option<()> {
    let course = course(alloc)?;
    let mut part = Part::new(alloc, PartId::new(3)?, &course).ok()?;
    let log = dest_log(alloc)?;
    answers_all(rt, &mut part, &log)
}

#[test]
fn calls_are_answered(rt: HostRuntime) {
    holds!(&rt; answers_log(&rt, rt.alloc()).is_some());
}

/// Whether the fault is that of a chunk that comes from a stranger.
fn is_stranger(fault: &CallFault) -> bool {
    matches!(fault, CallFault::Load(LoadFault::Stranger))
}

/// Whether the partition refuses a chunk of the log as that of a stranger. The log ends there.
fn ends_at_a_stranger(part: &mut Part, calls: &[Call]) -> bool {
    match replay(part, calls) {
        Ok(()) => false,
        Err(fault) => is_stranger(&fault),
    }
}

/// The same of a new partition and the log of the destination. None if an allocation fails before.
fn refuses_the_log(alloc: Global, id: u32) -> Option<bool> {
    let course = course(alloc)?;
    let mut part = Part::new(alloc, PartId::new(id)?, &course).ok()?;
    let log = dest_log(alloc)?;
    Some(ends_at_a_stranger(&mut part, &log))
}

/// At the source the chunk is a stranger's.
#[test]
fn a_log_ends_at_a_refused_call(rt: HostRuntime) {
    holds!(&rt; refuses_the_log(rt.alloc(), 1) == Some(true));
    holds!(&rt; refuses_the_log(rt.alloc(), 3) == Some(false));
}
