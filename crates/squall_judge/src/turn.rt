//! What comes of entries, and what their events, answers and reports say.

ghost use Rattle.std.specs.Prelude.{◌≡◌, ℕ, true, Some, IsTrue, IsFalse, IfOk, IfSome, IfNone};
ghost use Rattle.squall_report.specs.Facts.{is_report};
ghost use Rattle.squall_board.specs.Boards.{report_board};
ghost use Rattle.squall_protocol.specs.Chunks.{ChunkValue};
ghost use Rattle.squall_protocol.specs.declared.answer.Answer.TheVariants.{Gave, Sent, Refused};
ghost use Rattle.squall_protocol.specs.declared.answer.Refusal.TheVariants.{NoSuch};
ghost use Rattle.squall_audit.specs.Lines.{IsNotYet};
ghost use Rattle.squall_judge.specs.Turns.{place_of, origin_of};

use squall_board::Board;
use squall_key::PartId;
use squall_protocol::{Answer, Chunk, Event, Node, Refusal};
use squall_report::{Report, ReportKind};
use std::alloc::{AllocError, Global};

/// What comes of an entry.
#[derive(Clone, Copy)]
pub(crate) enum Turn {
    /// It was taken.
    Taken,
    /// It cannot come now.
    Waits,
    /// The node answers otherwise, now and ever. The world may be of use no more.
    Never,
}

/// The node of an event that is written as it is. None if the event is of a chunk or a message that
/// comes or is sent.
fn place_of(event: &Event) -> Option<Node>
    ensures { result ≡ place_of event.now }
{
    match event {
        Event::OpenNext | Event::Begin(_) | Event::BeginFrom(_, _) => Some(Node::Leader),
        Event::Close(part)
        | Event::Give(part, _)
        | Event::GiveAt(part, _)
        | Event::Finish(part, _)
        | Event::Serve(part, _, _) => Some(Node::Part(*part)),
        Event::Route(router, _) => Some(Node::Router(*router)),
        Event::Load(_) | Event::Send(_) | Event::SendPart(_, _) | Event::Deliver(_, _) => None,
    }
}

/// Whether the nodes are the same.
pub(crate) fn same_node(a: &Node, b: &Node) -> bool
    ensures same { IsTrue result → a.now ≡ b.now }
    ensures apart { IsFalse result → a.now ≡ b.now → ⊥ }
{
    *a == *b
}

/// Whether that is the node of the event.
pub(crate) fn is_place(event: &Event, node: &Node) -> bool
    ensures same { IsTrue result → place_of event.now ≡ Some node.now }
    ensures apart { IsFalse result → place_of event.now ≡ Some node.now → ⊥ }
{
    match place_of(event) {
        Some(place) => same_node(&place, node),
        None => false,
    }
}

/// The node from which a report comes.
pub(crate) fn origin_of(report: &Report) -> Node
    ensures { result ≡ origin_of report.now }
{
    match report.kind() {
        ReportKind::Loaded { part, .. } | ReportKind::Done { part, .. } => Node::Part(PartId::of(
            part,
        )),
        ReportKind::Opened { .. } | ReportKind::Issued { .. } => Node::Leader,
    }
}

/// Whether the answer says that something is not so yet.
pub(crate) fn is_not_yet(event: &Event, answer: &Answer) -> bool
    ensures yes { IsTrue result → IsNotYet event.now answer.now }
    ensures no { IsFalse result → IsNotYet event.now answer.now → ⊥ }
{
    match (event, answer) {
        (_, Answer::Refused(Refusal::NoSuch)) => true,
        (Event::BeginFrom(_, _), Answer::Refused(Refusal::Running)) => true,
        _ => false,
    }
}

/// The board of the report alone.
pub(crate) fn board_of(alloc: Global, report: &Report) -> Result<Board, AllocError>
    ensures board { IfOk result (λ board. board ≡ report_board report.now) }
    ensures limits { IfOk result (λ board. is_report report.now ≡ true) }
{
    let mut board = Board::new(alloc);
    board.take(report)?;
    // The proof learns that the report is within its limits.
    let _kind = report.kind();
    Ok(board)
}

/// Whether the answer is that what was named is not there.
pub(crate) fn is_no_such(answer: &Answer) -> bool
    ensures same { IsTrue result → answer.now ≡ Refused NoSuch }
    ensures apart { IsFalse result → answer.now ≡ Refused NoSuch → ⊥ }
{
    matches!(answer, Answer::Refused(Refusal::NoSuch))
}

/// The index of the message that was sent.
pub(crate) fn sent_index(answer: &Answer) -> Option<usize>
    ensures some { IfSome result (λ index. answer.now ≡ Sent index) }
    ensures none { IfNone result ((index : ℕ) → answer.now ≡ Sent index → ⊥) }
{
    match answer {
        Answer::Sent { index } => Some(*index),
        _ => None,
    }
}

/// The chunk that was given.
pub(crate) fn gift_of(answer: &Answer) -> Option<Chunk>
    ensures some { IfSome result (λ chunk. (index : ℕ) × (answer.now ≡ Gave index chunk)) }
    ensures none { IfNone result ((index : ℕ) (chunk : ChunkValue) → answer.now ≡ Gave index chunk → ⊥) }
{
    match answer {
        Answer::Gave { chunk, .. } => Some(*chunk),
        _ => None,
    }
}

/// Whether a chunk was given.
pub(crate) fn is_gift(answer: &Answer) -> bool
    ensures some { IsTrue result → (index : ℕ) × (chunk : ChunkValue) × (answer.now ≡ Gave index chunk) }
    ensures none { IsFalse result → (index : ℕ) (chunk : ChunkValue) → answer.now ≡ Gave index chunk → ⊥ }
{
    matches!(answer, Answer::Gave { .. })
}
