//! Clients of the headline: boards and routers that public calls made, to which the same came.

ghost use Rattle.std.specs.Prelude.{◌≡◌, ◌++◌, ℕ, List, [], ◌∷◌, Option, IfOk, OnOk};
ghost use Rattle.std.specs.List.{AllByRecursion};
ghost use Rattle.std.specs.Arc.{arc_value};
ghost use Rattle.squall_report.specs.Told.{SameTold, told_by};
ghost use Rattle.squall_wire.specs.declared.fault.WireFault.{WireFault};
ghost use Rattle.squall_wire.specs.declared.message.Message.{Message as MessageValue};
ghost use Rattle.squall_wire.specs.Messages.{IsMessage, spell_all};
ghost use Rattle.squall_wire.specs.Hearing.{HearsOn, new_feed};
ghost use Rattle.squall_headline.specs.Ways.{Way, ByTake, ByTakeAll, ByMerge, Packed, Sent, reports_sent, reports_of, messages_of, ArePacked};
ghost use Rattle.squall_headline.specs.Ways.{TakesIn, LeadTo, AreComing, Brings};

use squall_board::Board;
use squall_course::Course;
use squall_headline::headline;
use squall_headline::laws::pieces_bring_messages;
use squall_report::Report;
use squall_router::Router;
use squall_wire::{Feed, Message, encode};
use std::alloc::{AllocError, Global};
use std::sync::Arc;

/// A board that takes two reports, one after the other.
fn by_takes(alloc: Global, first: &Report, second: &Report) -> Result<Board, AllocError>
    ensures { IfOk result (λ b. LeadTo (ByTake first.now ∷ (ByTake second.now ∷ [])) b) }
{
    let mut board = Board::new(alloc);
    board.take(first)?;
    board.take(second)?;
    Ok(board)
}

/// A board that takes a list of reports.
fn by_list(alloc: Global, reports: &[Report]) -> Result<Board, AllocError>
    ensures { IfOk result (λ b. LeadTo (ByTakeAll reports.now ∷ []) b) }
{
    let mut board = Board::new(alloc);
    board.take_all(reports)?;
    Ok(board)
}

/// A board that takes a report, and then the board of another.
fn by_merge(alloc: Global, first: &Report, second: &Report) -> Result<Board, AllocError>
    ensures { IfOk result (λ b. (p : Packed) × (p.reports ≡ second.now ∷ []) × LeadTo (ByTake first.now ∷ (ByMerge p ∷ [])) b) }
{
    let mut other = Board::new(alloc);
    other.take(second)?;
    let mut board = Board::new(alloc);
    board.take(first)?;
    board.merge(&other)?;
    Ok(board)
}

/// Absorbs the deltas among the messages.
fn absorb_all(router: &mut Router, messages: &[Message]) -> Result<(), AllocError>
    ensures first { router.new.first ≡ router.old.first }
    ensures taken { OnOk result (TakesIn messages.now router.old.board router.new.board) }
{
    for message in messages {
        if let Message::Delta(delta) = message {
            router.absorb(delta)?;
        }
    }
    Ok(())
}

/// Pushes a piece of a stream, and absorbs what is heard.
fn hear(feed: &mut Feed, router: &mut Router, piece: &[u8]) -> Result<(), AllocError>
    ensures first { router.new.first ≡ router.old.first }
    ensures heard { OnOk result ((messages : List MessageValue) × (fault : Option WireFault)
        × HearsOn feed.old piece.now messages fault feed.new × TakesIn messages router.old.board router.new.board) }
{
    match feed.push(piece) {
        Ok(heard) => absorb_all(router, &heard.messages),
        Err(_) => Err(AllocError),
    }
}

/// Pushes the next piece of a stream, and absorbs what is heard.
fn hear_next(feed: &mut Feed, router: &mut Router, piece: &[u8]) -> Result<(), AllocError>
    ensures first { router.new.first ≡ router.old.first }
    ensures brings { OnOk result ((sent : List Sent) (coming : List ℕ) → AreComing sent feed.old (piece.now ++ coming)
        → Brings sent piece.now coming router.old.board router.new.board feed.new) }
{
    pieces_bring_messages();
    hear(feed, router, piece)
}

/// A router that hears two streams, each in two pieces, which come in turn.
fn in_turn(
    alloc: Global,
    course: &Arc<Course>,
    one: (&[u8], &[u8]),
    other: (&[u8], &[u8]),
) -> Result<Router, AllocError>
    ensures first { IfOk result (λ r. r.first ≡ arc_value course.now) }
    ensures ways { IfOk result (λ r. (ss qs : List Sent) → AreComing ss new_feed (one.entry.0.now ++ one.entry.1.now)
        → AreComing qs new_feed (other.entry.0.now ++ other.entry.1.now)
        → (ws : List Way) × LeadTo ws r.board × SameTold (told_by (reports_of ws)) (told_by (reports_sent ss ++ reports_sent qs))) }
{
    let mut feed = Feed::new(alloc);
    let mut beside = Feed::new(alloc);
    let mut router = Router::new(alloc, course)?;
    hear_next(&mut feed, &mut router, one.0)?;
    hear_next(&mut beside, &mut router, other.0)?;
    hear_next(&mut feed, &mut router, one.1)?;
    hear_next(&mut beside, &mut router, other.1)?;
    pieces_bring_messages();
    Ok(router)
}

/// The frames of the messages, one after the other.
fn frames(alloc: Global, messages: &[Message]) -> Result<Vec<u8>, AllocError>
    ensures spelled { IfOk result (λ bytes. bytes.items ≡ spell_all messages.now) }
    ensures each { IfOk result (λ _. AllByRecursion IsMessage messages.now) }
{
    let mut bytes = Vec::new(alloc);
    for message in messages {
        let Ok(frame) = encode(alloc, message) else {
            return Err(AllocError);
        };
        bytes.extend_from_slice(&frame)?;
    }
    Ok(bytes)
}

/// A router that hears the messages of two senders: the stream of each is cut in two at a place, and
/// the pieces come in turn.
fn by_feeds(
    alloc: Global,
    course: &Arc<Course>,
    one: &[Message],
    other: &[Message],
    cuts: (usize, usize),
) -> Result<Router, AllocError>
    ensures first { IfOk result (λ r. r.first ≡ arc_value course.now) }
    ensures ways { IfOk result (λ r. (ss qs : List Sent) → ArePacked ss → ArePacked qs → messages_of ss ≡ one.now → messages_of qs ≡ other.now
        → (ws : List Way) × LeadTo ws r.board × SameTold (told_by (reports_of ws)) (told_by (reports_sent ss ++ reports_sent qs))) }
{
    let stream = frames(alloc, one)?;
    let beside = frames(alloc, other)?;
    let at = cuts.0.min(stream.len());
    let also = cuts.1.min(beside.len());
    let pieces = stream.split_at(at);
    let others = beside.split_at(also);
    in_turn(alloc, course, pieces, others)
}

/// A router that hears boards and digests from two senders, in pieces that come in turn, and a board
/// that takes a list of reports. They have one board where the boards that were sent have taken what
/// the list tells.
fn heard_as_taken(
    alloc: Global,
    course: &Arc<Course>,
    one: &[Message],
    other: &[Message],
    cuts: (usize, usize),
    reports: &[Report],
) -> Result<(Router, Board), AllocError>
    ensures { IfOk result (λ made. (ss qs : List Sent) → ArePacked ss → ArePacked qs → messages_of ss ≡ one.now → messages_of qs ≡ other.now
        → SameTold (told_by (reports_sent ss ++ reports_sent qs)) (told_by reports.now) → made.0.board ≡ made.1) }
{
    let router = by_feeds(alloc, course, one, other, cuts)?;
    let board = by_list(alloc, reports)?;
    headline(router.board(), &board, &router, &router);
    Ok((router, board))
}

/// Two reports come to a board in turn, and to another in the other order and the first of them by a
/// merge: both are one board.
fn whatever_the_way(
    alloc: Global,
    course: &Arc<Course>,
    first: &Report,
    second: &Report,
) -> Result<(Board, Board), AllocError>
    ensures { IfOk result (λ made. made.1 ≡ made.0) }
{
    let one = by_takes(alloc, first, second)?;
    let merged = by_merge(alloc, second, first)?;
    let router = Router::new(alloc, course)?;
    headline(&merged, &one, &router, &router);
    Ok((one, merged))
}
