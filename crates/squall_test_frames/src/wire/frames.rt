//! Frames that are read, and written again. Bytes that are no frame the tests in C show.

use super::*;
use squall_test_example::holds;
use std::alloc::Global;
use std::process::Abort;

/// Each kind of item of a delta. Number 1 has 10,000 openings and the greatest number 2. Number 1
/// leads from partition 1, which has all keys, to partition 2, and number 2 is a clash. The cells
/// are that of the load, and the completion of partition 9999 in sub-plan 9999 of the greatest
/// number.
pub(crate) const EACH: &str = concat!(
    "53510201 00000078 00000002 00000001 00002710 ffffffff 00000002 00000002 00000001 01 ",
    "00000001 ffffffff00000000 00000001 00000001 ffffffff00000000 00000002 00000002 02 00000002 ",
    "00000001 00000000 00000003 00 00000001 0000000200000000 0000000300000000 ffffffff 0000270f ",
    "0000270f 01 00000000",
);

/// The hash of the issue of number 1.
const ISSUE_ROW: &str =
    "53510202 00000030 00000000 00000001 00000001 25868db80855a707339da598e4f3a16ab6b7b5400f2c937e7a625817d02bfa4a 00000000";

/// Whether a frame of that length is first in the bytes, and its message has that frame. None if an
/// allocation fails.
fn is_written_again(alloc: Global, bytes: &[u8], length: usize) -> Option<bool> {
    let (message, used) = decode(alloc, bytes).ok()?;
    let again = encode(alloc, &message).ok()?;
    Some(used == length && again.len() == length && bytes.starts_with(&again))
}

/// Whether a frame of that length is first in the text, and its message has that frame. None if an
/// allocation fails.
fn comes_back(alloc: Global, text: &str, length: usize) -> Option<bool> {
    let bytes = hex(alloc, text).ok()?;
    is_written_again(alloc, &bytes, length)
}

/// The frame of each text comes back.
fn come_back(rt: &impl Abort, alloc: Global, rows: &[(&str, usize)]) {
    for (text, length) in rows {
        holds!(rt; comes_back(alloc, text, *length).expect(rt, "memory"), text);
    }
}

/// Texts that begin with a frame, and how many bytes it has. Other frames of boards the tests in C show.
const FRAMES: [(&str, usize); 6] = [
    (EACH, 128),
    (EMPTY_DIGEST, 16),
    (ISSUE_ROW, 56),
    (LOAD_DIGEST, 56),
    ("53510101 00000008 00000000 00000000 ff", 16),
    (
        "53510102 00000038 00000001 00000001 00000001 00000001 00000001 00000000 25868db80855a707339da598e4f3a16ab6b7b5400f2c937e7a625817d02bfa4a",
        64,
    ),
];

#[test]
fn frames_come_back(rt: HostRuntime) {
    come_back(&rt, rt.alloc(), &FRAMES)
}
