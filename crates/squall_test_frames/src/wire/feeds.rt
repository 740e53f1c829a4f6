//! What follows a frame. Streams in pieces the tests in C show.

use super::*;
use squall_test_example::holds;
use std::alloc::Global;
use std::process::Abort;

/// A load, and then bytes with which no frame begins.
const FAULTY: &str =
    "53510101 00000029 00000000 00000001 00000001 00000000 00000003 00 00000001 0000000200000000 0000000300000000 5352";

/// How many messages the bytes begin with, and how many bytes follow them. None if an allocation fails.
fn heard_at_once(alloc: Global, bytes: &[u8]) -> Option<(usize, usize)> {
    let (heard, rest) = squall_wire::hear(alloc, bytes).ok()?;
    Some((heard.messages.len(), rest.len()))
}

/// What follows the frames is left, with a fault or without.
fn look_at_the_rest(rt: &impl Abort, alloc: Global, bytes: &[u8]) {
    assert!(rt; bytes.len() == 51);
    let (frame, _) = bytes.split_at(49);
    holds!(rt; heard_at_once(alloc, frame).expect(rt, "memory") == (1, 0));
    holds!(rt; heard_at_once(alloc, bytes).expect(rt, "memory") == (1, 2));
}

#[test]
fn bytes_after_a_frame(rt: HostRuntime) {
    let bytes = hex(rt.alloc(), FAULTY).expect(&rt, "memory");
    look_at_the_rest(&rt, rt.alloc(), &bytes);
}
