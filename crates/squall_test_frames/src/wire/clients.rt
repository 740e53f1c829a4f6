//! What callers of a feed can learn from its contract.

ghost use Rattle.std.specs.Prelude.{◌++◌, IfOk};
ghost use Rattle.squall_wire.specs.Hearing.{HearsOn};

use super::*;
use squall_test_example::holds;
use squall_wire::laws::{faults_end_the_stream, pushes_are_one};
use std::process::Abort;

/// Pushes one piece, and then the other if the first has no fault. What is heard is what the feed
/// would hear in both as one piece.
fn push_both(feed: &mut Feed, first: &[u8], second: &[u8]) -> Result<Heard, FeedFault>
    ensures { IfOk result (λ heard. HearsOn feed.old (first.now ++ second.now) heard.messages.items heard.fault feed.new) }
{
    pushes_are_one();
    faults_end_the_stream();
    let Heard {
        mut messages,
        fault,
    } = feed.push(first)?;
    if fault.is_some() {
        return Ok(Heard { messages, fault });
    }
    let mut second = feed.push(second)?;
    messages.append(&mut second.messages)?;
    Ok(Heard {
        messages,
        fault: second.fault,
    })
}

/// How many messages the feed hears in two pieces, and the fault that it finds.
fn hear_both(
    feed: &mut Feed,
    first: &[u8],
    second: &[u8],
) -> Result<(usize, Option<WireFault>), FeedFault> {
    let heard = push_both(feed, first, second)?;
    Ok((heard.messages.len(), heard.fault))
}

/// The feed hears the frame in two pieces, and then nothing after a fault, which ends the stream.
fn look_at_pieces(rt: &impl Abort, feed: &mut Feed, frame: &[u8]) {
    assert!(rt; frame.len() == 49);
    let (first, second) = frame.split_at(30);
    holds!(rt; hear_both(feed, first, second).expect(rt, "memory") == (1, None));
    holds!(rt; hear_both(feed, &[0x54], frame).expect(rt, "memory") == (0, Some(WireFault::Magic)));
    holds!(rt; feed.failed() && feed.push(&[]).err() == Some(FeedFault::Failed));
}

#[test]
fn two_pieces_as_one(rt: HostRuntime) {
    let frame = hex(rt.alloc(), LOAD).expect(&rt, "memory");
    let mut feed = Feed::new(rt.alloc());
    look_at_pieces(&rt, &mut feed, &frame);
}
