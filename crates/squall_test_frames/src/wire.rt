//! Tests of frames. What a router hears of them, and that a refused allocation changes nothing, the tests in C show.

mod clients;
mod digests;
mod example;
mod feeds;
mod frames;
mod tolerant;

use squall_board::Board;
use squall_test_example::holds;
use squall_wire::*;
use std::alloc::{AllocError, Global};
use std::process::Abort;

/// The frame of the load of the keys from 2:0 to 3:0 at partition 3, in sub-plan 0 of number 1.
pub(crate) const LOAD: &str =
    "53510101 00000029 00000000 00000001 00000001 00000000 00000003 00 00000001 0000000200000000 0000000300000000";

/// The frame of a delta of nothing.
pub(crate) const EMPTY_DELTA: &str = "53510101 00000008 00000000 00000000";

/// The frame of a digest of nothing.
const EMPTY_DIGEST: &str = "53510102 00000008 00000000 00000000";

/// The frame of the digest of the load.
const LOAD_DIGEST: &str =
    "53510102 00000030 00000000 00000001 00000001 00000000 25868db80855a707339da598e4f3a16ab6b7b5400f2c937e7a625817d02bfa4a";

/// The bytes that the text writes in hexadecimal digits. Blanks are passed over.
pub(crate) fn hex(alloc: Global, text: &str) -> Result<Vec<u8>, AllocError> {
    let mut bytes = Vec::new(alloc);
    let mut high = None;
    for character in text.as_bytes() {
        let digit = match *character {
            b'0'..=b'9' => *character - b'0',
            b'a'..=b'f' => *character - b'a' + 10,
            _ => continue,
        };
        high = match high {
            None => Some(digit),
            Some(first) => {
                bytes.push((first << 4) | digit)?;
                None
            }
        };
    }
    Ok(bytes)
}

/// Whether the bytes are those that the text writes.
///
/// A proof of a test costs more with each value that the test owns, on each way out of it. So tests
/// lend what they made to functions that own little, as this one.
pub(crate) fn are_of(alloc: Global, bytes: &[u8], text: &str) -> Result<bool, AllocError> {
    let wanted = hex(alloc, text)?;
    Ok(*bytes == *wanted.as_slice())
}

/// The board of the delta whose frame the text begins with.
pub(crate) fn board_of(alloc: Global, text: &str) -> Result<Board, WireFault> {
    let bytes = hex(alloc, text)?;
    let (message, _used) = decode(alloc, &bytes)?;
    match message {
        Message::Delta(board) => Ok(board),
        Message::Digest(_digest) => Err(WireFault::Kind),
    }
}

/// Whether the frame of the board is the one that the text writes.
pub(crate) fn is_framed_as(alloc: Global, board: &Board, text: &str) -> Result<bool, EncodeFault> {
    let bytes = encode_board(alloc, board)?;
    Ok(are_of(alloc, &bytes, text)?)
}

/// The frame of the board is still the one that the text writes. It looks only if no allocation
/// fails.
pub(crate) fn is_still(rt: &impl Abort, alloc: Global, board: &Board, text: &str) {
    if let Ok(same) = is_framed_as(alloc, board, text) {
        holds!(rt; same);
    }
}

/// Whether the frame of the message is the one that the text writes.
fn message_is_framed_as(alloc: Global, message: &Message, text: &str) -> Result<bool, EncodeFault> {
    let bytes = encode(alloc, message)?;
    Ok(are_of(alloc, &bytes, text)?)
}

/// Whether the frame of the digest is the one that the text writes.
pub(crate) fn digest_is_framed_as(
    alloc: Global,
    digest: Digest,
    text: &str,
) -> Result<bool, EncodeFault> {
    let message = Message::Digest(digest);
    message_is_framed_as(alloc, &message, text)
}
