//! What the messages of a stream tell together.

ghost use Rattle.std.specs.Prelude.{◌≡◌, IfOk, IfSome, IfNone, OnOk, None};
ghost use Rattle.std.specs.List.{AllByRecursion};
ghost use Rattle.squall_wire.specs.Messages.{IsMessage};
ghost use Rattle.squall_delta.specs.Pieces.{joined_boards};
ghost use Rattle.squall_c_frames.specs.Joined.{IsOneDelta, JoinsMessage, deltas_of, last_digest};

use squall_board::{Board, Delta};
use squall_wire::{Digest, Message};
use std::alloc::{AllocError, Global};

/// Joins to a board what a message tells: a digest tells nothing. An error leaves the
/// board unchanged.
fn join_message(board: &mut Board, message: &Message) -> Result<(), AllocError>
    ensures { OnOk result (JoinsMessage board.old message.now board.new) }
{
    match message {
        Message::Delta(delta) => board.merge(delta),
        Message::Digest(_) => Ok(()),
    }
}

/// All that the messages tell, as one board. It fails if an allocation fails, or if the count
/// of an issue's owners is full.
pub fn joined(alloc: Global, messages: &[Message]) -> Result<Delta, AllocError>
    requires { AllByRecursion IsMessage messages.now }
    ensures { IfOk result (λ delta. delta ≡ joined_boards (deltas_of messages.now)) }
{
    let mut board = Board::new(alloc);
    for message in messages {
        join_message(&mut board, message)?;
    }
    Ok(board)
}

/// The delta that the messages are, if they are one delta alone.
#[tactic(auto, using(crate::specs::JoinedLaws::one_delta))]
pub fn alone(messages: &[Message]) -> Option<&Delta>
    requires { AllByRecursion IsMessage messages.now }
    ensures delta { IfSome result (λ delta. delta.now ≡ joined_boards (deltas_of messages.now)) }
    ensures none { IfNone result (IsOneDelta messages.now → ⊥) }
{
    match messages.first()? {
        Message::Delta(delta) if messages.len() == 1 => Some(delta),
        _ => None,
    }
}

/// The last digest among the messages.
#[tactic(auto, using(crate::specs::JoinedLaws::last_delta, crate::specs::JoinedLaws::last_is))]
fn last_digest(messages: Vec<Message>) -> Option<Digest>
    ensures { result ≡ last_digest None messages.items }
{
    let mut messages = messages;
    while let Some(message) = messages.pop() {
        match message {
            Message::Digest(digest) => return Some(digest),
            Message::Delta(delta) => drop(delta),
        }
    }
    None
}

/// Keeps the last digest among the messages, if there is one, in place of the one before.
#[tactic(auto, using(crate::specs::JoinedLaws::last_none, crate::specs::JoinedLaws::last_some))]
pub fn keep_digest(heard: &mut Option<Digest>, messages: Vec<Message>)
    ensures { heard.new ≡ last_digest heard.old messages.items }
{
    let Some(digest) = last_digest(messages) else {
        return;
    };
    *heard = Some(digest);
}
