//! The lines that hear frames and show them.

ghost use Rattle.std.specs.Prelude.{◌≡◌, ◌++◌, OnOk, OnErr, IfOk, map, string_bytes};
ghost use Rattle.hex.specs.Hex.{decode_of};
ghost use Rattle.squall_wire.specs.Messages.{body_of};
ghost use Rattle.squall_cli_scenario.specs.Frames.{heard_line, heard_lines, text_of_heard, after_body, after_bodies, frame_text};
ghost use Rattle.squall_cli_scenario.specs.Replies.{hear_reply, bytes_reply, frame_reply};
ghost use Rattle.squall_cli_scenario.specs.Answered.{Answers};
ghost use Rattle.squall_cli_scenario.specs.Stages.{meant};

use crate::scenario::{Scenario, Stage};
use hex::FromHexError;
use squall_board::Board;
use squall_cli_words::Reason;
use squall_router::Router;
use squall_wire::laws::{heard_frame_by_frame, lists_make_the_board};
use squall_wire::{EncodeFault, FeedFault, Heard, Message, encode_board};
use std::alloc::AllocError;

/// Adds the line of a message.
fn add_message(message: &Message, out: &mut String) -> Result<(), AllocError>
    ensures { OnOk result (string_bytes out.new ≡ string_bytes out.old ++ heard_line (body_of message.now)) }
{
    match message {
        Message::Delta(_) => write!(out, "heard delta\n"),
        Message::Digest(_) => write!(out, "heard digest\n"),
    }
}

/// Adds a line for each message.
fn add_messages(messages: &[Message], out: &mut String) -> Result<(), AllocError>
    ensures { OnOk result (string_bytes out.new ≡ string_bytes out.old ++ heard_lines (map body_of messages.now)) }
{
    for message in messages {
        add_message(message, out)?;
    }
    Ok(())
}

/// Adds what was heard: a line for each message and one for the fault, or that there was nothing.
fn add_heard(heard: &Heard, out: &mut String) -> Result<(), AllocError>
    ensures { OnOk result (string_bytes out.new ≡ string_bytes out.old ++ text_of_heard (map body_of heard.now.messages.items) heard.now.fault) }
{
    add_messages(&heard.messages, out)?;
    match heard.fault {
        Some(fault) => write!(out, "fault {fault}\n"),
        None if heard.messages.is_empty() => write!(out, "heard nothing\n"),
        None => Ok(()),
    }
}

/// Has the router hear a delta. A digest has no effect.
fn absorb_message(router: &mut Router, message: &Message) -> Result<(), AllocError>
    ensures first { router.new.first ≡ router.old.first }
    ensures board { OnOk result (router.new.board ≡ after_body router.old.board (body_of message.now)) }
{
    match message {
        Message::Delta(delta) => {
            lists_make_the_board(delta);
            router.absorb(delta)
        }
        Message::Digest(_) => Ok(()),
    }
}

/// Has the router hear the deltas, one after the other.
fn absorb_messages(router: &mut Router, messages: &[Message]) -> Result<(), AllocError>
    ensures first { router.new.first ≡ router.old.first }
    ensures board { OnOk result (router.new.board ≡ after_bodies router.old.board (map body_of messages.now)) }
{
    for message in messages {
        absorb_message(router, message)?;
    }
    Ok(())
}

/// Hears the bytes, once both plans are read and if no fault has ended the feed.
fn hear_piece(
    scenario: &mut Scenario,
    bytes: &[u8],
    out: &mut String,
) -> Result<Option<Reason>, AllocError>
    ensures { Answers result (string_bytes out.old) (string_bytes out.new) (meant scenario.new)
        (bytes_reply (meant scenario.old) (meant scenario.old).stage bytes.now) }
{
    let Stage::Running(router) = &mut scenario.stage else {
        return Ok(Some(Reason::Order));
    };
    let heard = match scenario.feed.push(bytes) {
        Ok(heard) => heard,
        Err(FeedFault::Failed) => {
            write!(out, "no Failed\n")?;
            return Ok(None);
        }
        Err(FeedFault::NoMemory) => return Err(AllocError),
    };
    heard_frame_by_frame();
    absorb_messages(router, &heard.messages)?;
    add_heard(&heard, out)?;
    Ok(None)
}

/// Hears the bytes that the digits write.
pub(crate) fn hear(
    scenario: &mut Scenario,
    digits: &[u8],
    out: &mut String,
) -> Result<Option<Reason>, AllocError>
    ensures { Answers result (string_bytes out.old) (string_bytes out.new) (meant scenario.new) (hear_reply (meant scenario.old) (decode_of digits.now)) }
{
    let bytes = match hex::decode(*out.allocator(), digits) {
        Ok(bytes) => bytes,
        Err(FromHexError::OutOfMemory) => return Err(AllocError),
        Err(_) => return Ok(Some(Reason::Word)),
    };
    hear_piece(scenario, &bytes, out)
}

/// Adds the frame of the board, or that it would be too long.
fn add_frame(board: &Board, out: &mut String) -> Result<(), AllocError>
    ensures { OnOk result (string_bytes out.new ≡ string_bytes out.old ++ frame_text board.now) }
{
    let alloc = *out.allocator();
    let bytes = match encode_board(alloc, board) {
        Ok(bytes) => bytes,
        Err(EncodeFault::TooLong) => return write!(out, "no TooLong\n"),
        Err(EncodeFault::NoMemory) => return Err(AllocError),
    };
    let digits = hex::encode(alloc, &bytes)?;
    write!(out, "frame {digits}\n")
}

/// Shows the frame of the board, once both plans are read.
pub(crate) fn show_frame(
    scenario: &Scenario,
    out: &mut String,
) -> Result<Option<Reason>, AllocError>
    ensures { Answers result (string_bytes out.old) (string_bytes out.new) (meant scenario.now) (frame_reply (meant scenario.now) (meant scenario.now).stage) }
{
    let Stage::Running(router) = &scenario.stage else {
        return Ok(Some(Reason::Order));
    };
    add_frame(router.board(), out)?;
    Ok(None)
}
