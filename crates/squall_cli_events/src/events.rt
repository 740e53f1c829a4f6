//! Events within their limits.

ghost use Rattle.std.specs.Prelude.{◌≡◌, [], ◌∷◌, IfOk};
ghost use Rattle.std.specs.Option.{option_map, ok_or};
ghost use Rattle.squall_protocol.specs.declared.event.Node.{Node};
ghost use Rattle.squall_protocol.specs.declared.event.Event.{Event};
ghost use Rattle.squall_protocol.specs.declared.event.Event.TheVariants.{Finish, GiveAt};
ghost use Rattle.squall_cli_events.specs.declared.events.Unfit.TheVariants.{OverLimit};
ghost use Rattle.squall_cli_events.specs.EventLines.{line_seen, at_part, at_sub, at_node, said_of, begin_of, begin_from_of, event_of};
ghost use Rattle.squall_plan.specs.Form.{plan_of_text};
ghost use Rattle.squall_span.specs.Spans.{span_at};
ghost use Rattle.squall_cli_words.specs.ReportLines.{load_of};
ghost use Rattle.squall_board.specs.Takes.{board_by};

use crate::words::{EventWords, NodeWords};
use squall_board::Board;
use squall_cli_words::read_plan;
use squall_key::{Bound, Key, PART_LIMIT, PartId};
use squall_plan::{Plan, PlanFault};
use squall_protocol::{Event, Node};
use squall_report::Report;
use squall_span::Span;
use std::alloc::{AllocError, Global};

/// Why a line is no event.
#[derive(Clone, Copy, Debug, PartialEq, Eq)]
pub enum Unfit {
    /// The number of a partition or of a sub-plan is above 9999.
    OverLimit,
    /// Its text is no plan.
    NoPlan(PlanFault),
}

/// The event that begins a course to the plan.
fn begin_event(plan: Result<Plan, PlanFault>) -> Result<Event, Unfit>
    ensures { result ≡ begin_of plan }
{
    match plan {
        Ok(plan) => Ok(Event::Begin(plan)),
        Err(fault) => Err(Unfit::NoPlan(fault)),
    }
}

/// The event that begins a course from the first plan to the second.
fn begin_from_event(
    old: Result<Plan, PlanFault>,
    new: Result<Plan, PlanFault>,
) -> Result<Event, Unfit>
    ensures { result ≡ begin_from_of old new }
{
    let old = match old {
        Ok(old) => old,
        Err(fault) => return Err(Unfit::NoPlan(fault)),
    };
    let new = match new {
        Ok(new) => new,
        Err(fault) => return Err(Unfit::NoPlan(fault)),
    };
    Ok(Event::BeginFrom(old, new))
}

/// That the partition gives the key. None if the partition is above 9999.
fn give_at_event(part: u32, key: Key) -> Option<Event>
    ensures { ok_or result OverLimit ≡ at_part part (GiveAt part key) }
{
    Some(Event::GiveAt(PartId::new(part)?, key))
}

/// That the partition has all keys of the sub-plan. None if the partition or the sub-plan is above
/// 9999.
fn finish_event(part: u32, sub: u32) -> Option<Event>
    ensures { ok_or result OverLimit ≡ at_sub sub (at_part part (Finish part sub)) }
{
    if sub >= PART_LIMIT {
        return None;
    }
    Some(Event::Finish(PartId::new(part)?, sub))
}

/// The node. None if a partition's number is above 9999.
fn node_within(node: NodeWords) -> Option<Node>
    ensures { (event : Node → Event) → ok_or (option_map event result) OverLimit ≡ at_node node event }
{
    match node {
        NodeWords::Leader => Some(Node::Leader),
        NodeWords::Part(part) => Some(Node::Part(PartId::new(part)?)),
        NodeWords::Router(router) => Some(Node::Router(router)),
    }
}

/// The board of one report.
fn board_of(alloc: Global, report: &Report) -> Result<Board, AllocError>
    ensures { IfOk result (λ board. board ≡ board_by (report.now ∷ [])) }
{
    let mut board = Board::new(alloc);
    board.take(report)?;
    Ok(board)
}

/// The report of a load, if its numbers lie within their limits and the span has a key.
fn load_report(number: u32, sub: u32, part: u32, lo: Bound, hi: Bound) -> Option<Report>
    ensures { result ≡ load_of (span_at lo hi) number sub part }
{
    let span = Span::new(lo, hi)?;
    Report::loaded(number, sub, part, span)
}

/// That the node sends this one report, or why not: a number of either is outside its limits.
fn send_part_event(
    alloc: Global,
    node: NodeWords,
    report: Option<Report>,
) -> Result<Result<Event, Unfit>, AllocError>
    ensures { IfOk result (λ event. event ≡ said_of node report) }
{
    let Some(report) = report else {
        return Ok(Err(Unfit::OverLimit));
    };
    let Some(node) = node_within(node) else {
        return Ok(Err(Unfit::OverLimit));
    };
    let board = board_of(alloc, &report)?;
    Ok(Ok(Event::SendPart(node, board)))
}

/// The event that begins a course to the plan of the text, or why there is none.
fn begin_line(alloc: Global, text: &[u8]) -> Result<Result<Event, Unfit>, AllocError>
    ensures { IfOk result (λ event. event ≡ begin_of (plan_of_text text.now)) }
{
    Ok(begin_event(read_plan(alloc, text)?))
}

/// The event that begins a course from the plan of the one text to that of the other, or why there is
/// none: the fault of the first, or else that of the second.
fn begin_from_lines(
    alloc: Global,
    old: &[u8],
    new: &[u8],
) -> Result<Result<Event, Unfit>, AllocError>
    ensures { IfOk result (λ event. event ≡ begin_from_of (plan_of_text old.now) (plan_of_text new.now)) }
{
    let old = read_plan(alloc, old)?;
    let new = read_plan(alloc, new)?;
    Ok(begin_from_event(old, new))
}

/// The event, or that a number is outside its limits.
fn within(event: Option<Event>) -> Result<Result<Event, Unfit>, AllocError>
    ensures { IfOk result (λ found. found ≡ ok_or event OverLimit) }
{
    Ok(event.ok_or(Unfit::OverLimit))
}

/// The event of a line, or why it is none; and apart from both a failed allocation, which only the
/// plans of `begin` and `begin-from` and the report of `send` may meet. A router, a chunk or a
/// message may have any number: one that is not there is for the world to refuse.
pub fn event_of(alloc: Global, words: EventWords) -> Result<Result<Event, Unfit>, AllocError>
    ensures { IfOk result (λ event. event_of (line_seen words.entry) ≡ event) }
{
    match words {
        EventWords::Open => within(Some(Event::OpenNext)),
        EventWords::Begin(text) => begin_line(alloc, text),
        EventWords::BeginFrom { old, new } => begin_from_lines(alloc, old, new),
        EventWords::Close(part) => within(PartId::new(part).map(|part| Event::Close(part))),
        EventWords::Give { part, most } => within(PartId::new(part).map(|p| Event::Give(p, most))),
        EventWords::GiveAt { part, key } => within(give_at_event(part, key)),
        EventWords::Load(chunk) => within(Some(Event::Load(chunk as usize))),
        EventWords::Finish { part, sub } => within(finish_event(part, sub)),
        EventWords::Send(node) => within(node_within(node).map(|node| Event::Send(node))),
        EventWords::SendLoaded {
            node,
            number,
            sub,
            part,
            lo,
            hi,
        } => send_part_event(alloc, node, load_report(number, sub, part, lo, hi)),
        EventWords::SendDone {
            node,
            number,
            sub,
            part,
        } => send_part_event(alloc, node, Report::done(number, sub, part)),
        EventWords::SendOpened { node, number, sub } => {
            send_part_event(alloc, node, Report::opened(number, sub))
        }
        EventWords::Deliver { message, node } => {
            within(node_within(node).map(|node| Event::Deliver(message as usize, node)))
        }
        EventWords::Route { router, key } => within(Some(Event::Route(router, key))),
        EventWords::Serve { part, key, after } => {
            within(PartId::new(part).map(|part| Event::Serve(part, key, after)))
        }
    }
}
