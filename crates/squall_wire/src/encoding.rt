//! Messages as the bytes of frames.

ghost use Rattle.std.specs.Prelude.{◌≡◌, ◌<◌, ◌≤◌, ◌++◌, length, IfOk, Err, Some};
ghost use Rattle.squall_board.specs.Listed.{issues_of};
ghost use Rattle.squall_wire.specs.declared.encoding.EncodeFault.TheVariants.{TooLong, NoMemory};
ghost use Rattle.squall_wire.specs.declared.message.Message.TheVariants.{Delta, Digest as DigestMessage};
ghost use Rattle.squall_wire.specs.FaultText.{text_of_encode_fault};
ghost use Rattle.squall_wire.specs.Limits.{body_limit};
ghost use Rattle.squall_wire.specs.Messages.{body_of, lists_of, spell, spell_lists, spell_body, spell_frame, version_with, AreLists, IsMessage};
ghost use Rattle.squall_wire.specs.Spelling.{spell_cell};

use crate::cells::{write_cell, write_cells};
use crate::digest::Digest;
use crate::message::Message;
use crate::write::{BODY_LIMIT, count_bytes, version_of, write_all, write_some};
use squall_board::{Board, Cell};
use std::alloc::{AllocError, Global};
use std::error::Error;
use std::fmt;

/// The fourth byte of the frame of a delta.
const DELTA: u8 = 1;

/// The fourth byte of the frame of a digest.
const DIGEST: u8 = 2;

/// Why a message has no frame.
#[derive(Clone, Copy, Debug, PartialEq, Eq)]
pub enum EncodeFault {
    /// Its body would have more than 1,048,576 bytes.
    TooLong,
    /// An allocation failed.
    NoMemory,
}

/// The name of the fault.
impl fmt::Display for EncodeFault {
    ghost output = { λ e. Some (text_of_encode_fault e) };

    fn fmt<W: fmt::Write>(&self, f: &mut fmt::Formatter<W>) -> fmt::Result {
        match self {
            EncodeFault::TooLong => write!(f, "TooLong"),
            EncodeFault::NoMemory => write!(f, "NoMemory"),
        }
    }
}

impl Error for EncodeFault {}

impl From<AllocError> for EncodeFault {
    ghost use Rattle.std.specs.Prelude.{◌≡◌};
    ghost use Rattle.squall_wire.specs.declared.encoding.EncodeFault.TheVariants.{NoMemory};

    ghost from_gives = { λ _ e. e ≡ NoMemory };

    fn from(_e: AllocError) -> EncodeFault {
        EncodeFault::NoMemory
    }
}

/// The frame of a body of that version and kind, in the body's own memory. `TooLong` if the body is
/// too long.
///
/// The head is added at the end and then rotated to the beginning, which is one block move. A second allocation of the
/// size of the frame would cost more than the move.
fn frame(version: u8, kind: u8, body: Vec<u8>) -> Result<Vec<u8>, EncodeFault>
    ensures spelled { IfOk result (λ bytes. bytes.items ≡ spell_frame version kind body.items) }
    ensures short { IfOk result (λ _. length body.items ≤ body_limit) }
    ensures long { result ≡ Err TooLong → body_limit < length body.items }
{
    if body.len() > BODY_LIMIT {
        return Err(EncodeFault::TooLong);
    }
    let count = count_bytes(body.len());
    let mut bytes = body;
    bytes.extend_from_slice(&[83, 81, version, kind])?;
    bytes.extend_from_slice(&count)?;
    bytes.rotate_right(8);
    Ok(bytes)
}

/// Adds the lists of the board, and returns the version of their frame. `TooLong` means that the
/// bytes are too many for a body.
fn write_lists(out: &mut Vec<u8>, board: &Board) -> Result<u8, EncodeFault>
    ensures written { IfOk result (λ _. out.new.items ≡ out.old.items ++ spell_lists (lists_of board.now)) }
    ensures version { IfOk result (λ version. version ≡ version_with (issues_of board.now)) }
    ensures lists { IfOk result (λ _. length (spell_lists (lists_of board.now)) ≤ body_limit → AreLists (lists_of board.now)) }
    ensures long { result ≡ Err TooLong → body_limit < length (out.old.items ++ spell_lists (lists_of board.now)) }
{
    board.known();
    let openings = board.openings()?;
    let issues = board.issues()?;
    write_all(out, &openings)?;
    write_some(out, &issues)?;
    write_cells(out, board)?;
    Ok(version_of(&issues))
}

/// The frame of a delta, which is the board. Keys are copied into the frame alone.
///
/// `TooLong` if its body would have more than 1,048,576 bytes.
pub fn encode_board(alloc: Global, board: &Board) -> Result<Vec<u8>, EncodeFault>
    ensures spelled { IfOk result (λ bytes. bytes.items ≡ spell (Delta board.now)) }
    ensures message { IfOk result (λ _. IsMessage (Delta board.now)) }
    ensures long { result ≡ Err TooLong → body_limit < length (spell_body (body_of (Delta board.now))) }
{
    board.known();
    let mut body = Vec::new(alloc);
    let version = write_lists(&mut body, board)?;
    frame(version, DELTA, body)
}

/// The frame of a digest.
fn encode_digest(alloc: Global, digest: &Digest) -> Result<Vec<u8>, EncodeFault>
    ensures spelled { IfOk result (λ bytes. bytes.items ≡ spell (DigestMessage digest.now)) }
    ensures message { IfOk result (λ _. IsMessage (DigestMessage digest.now)) }
    ensures long { result ≡ Err TooLong → body_limit < length (spell_body (body_of (DigestMessage digest.now))) }
{
    digest.known();
    let mut body = Vec::new(alloc);
    write_all(&mut body, digest.openings())?;
    write_some(&mut body, digest.issue_rows())?;
    write_all(&mut body, digest.rows())?;
    frame(version_of(digest.issue_rows()), DIGEST, body)
}

/// The frame of the message. Keys are copied into the frame alone.
///
/// `TooLong` if its body would have more than 1,048,576 bytes.
pub fn encode(alloc: Global, message: &Message) -> Result<Vec<u8>, EncodeFault>
    ensures spelled { IfOk result (λ bytes. bytes.items ≡ spell message.now) }
    ensures message { IfOk result (λ _. IsMessage message.now) }
    ensures long { result ≡ Err TooLong → body_limit < length (spell_body (body_of message.now)) }
{
    match message {
        Message::Delta(board) => encode_board(alloc, board),
        Message::Digest(digest) => encode_digest(alloc, digest),
    }
}

/// The bytes of the cell in a delta, with its spans. An error means that an allocation failed.
pub fn cell_bytes(alloc: Global, cell: &Cell) -> Result<Vec<u8>, AllocError>
    ensures { IfOk result (λ bytes. bytes.items ≡ spell_cell cell.now) }
{
    let mut bytes = Vec::new(alloc);
    write_cell(&mut bytes, cell.place(), cell.complete(), cell.spans())?;
    Ok(bytes)
}
