//! The example of the first page of `squall_part`.

use crate::part::{fresh_part, hears_opening};
use squall_errand::Reply;
use squall_key::Key;
use squall_part::{FinishFault, GiveFault, Load, Part};
use std::alloc::Global;
use std::process::Abort;

/// The keys of sub-plan 0, of which one is `key`, go from one partition to another.
fn keys_move(rt: &impl Abort, giver: &mut Part, receiver: &mut Part, key: Key) -> Option<()> {
    let (source, dest) = (giver.id(), receiver.id());
    let chunk = giver.give(u64::MAX).ok()?;
    assert!(rt; giver.serve(key, 0) == Reply::Moved { dest, number: 1 });
    assert!(rt; receiver.serve(key, 1) == Reply::Pending { source });
    assert!(rt; matches!(receiver.load(&chunk), Ok(Load::Loaded(_))));
    assert!(rt; receiver.serve(key, 1) == Reply::Held);
    // A chunk that comes again changes nothing.
    assert!(rt; matches!(receiver.load(&chunk), Ok(Load::Again)));
    assert!(rt; receiver.finish(0).is_ok());
    Some(())
}

/// The keys go from a partition to partition 3. None if an allocation fails before.
fn keys_come(rt: &impl Abort, alloc: Global, giver: &mut Part) -> Option<()> {
    let mut receiver = fresh_part(alloc, 3)?;
    assert!(rt; hears_opening(alloc, &mut receiver, 1)?);
    keys_move(rt, giver, &mut receiver, Key::new(2, 0)?)
}

/// The keys go from partition 1 to partition 3. None if an allocation fails before.
fn keys_go(rt: &impl Abort, alloc: Global) -> Option<()> {
    let mut giver = fresh_part(alloc, 1)?;
    assert!(rt; hears_opening(alloc, &mut giver, 1)?);
    keys_come(rt, alloc, &mut giver)
}

#[test]
fn partitions_hand_over_keys(rt: HostRuntime) {
    assert!(rt; keys_go(&rt, rt.alloc()).is_some());
}

/// A partition gives one key, is closed, and gives no more in this course. It loads what comes.
fn gives_no_more(rt: &impl Abort, giver: &mut Part, receiver: &mut Part, key: Key) -> Option<()> {
    let chunk = giver.give_at(key).ok()?;
    assert!(rt; !giver.closed(1));
    assert!(rt; giver.close() == 1);
    assert!(rt; giver.close() == 1);
    assert!(rt; giver.closed(1) && !giver.closed(2));
    assert!(rt; matches!(giver.give(u64::MAX), Err(GiveFault::Ended)));
    assert!(rt; matches!(giver.give_at(key), Err(GiveFault::Ended)));
    assert!(rt; receiver.close() == 1);
    assert!(rt; matches!(receiver.load(&chunk), Ok(Load::Loaded(_))));
    assert!(rt; matches!(receiver.finish(0), Err(FinishFault::NotAll(_))));
    Some(())
}

/// Partition 1 is closed after it gave a key to partition 3. None if an allocation fails before.
fn closes(rt: &impl Abort, alloc: Global, giver: &mut Part) -> Option<()> {
    let mut receiver = fresh_part(alloc, 3)?;
    assert!(rt; hears_opening(alloc, &mut receiver, 1)?);
    gives_no_more(rt, giver, &mut receiver, Key::new(2, 5)?)
}

/// The same of a partition that has heard of the opening.
fn closes_amid_a_course(rt: &impl Abort, alloc: Global) -> Option<()> {
    let mut giver = fresh_part(alloc, 1)?;
    assert!(rt; hears_opening(alloc, &mut giver, 1)?);
    closes(rt, alloc, &mut giver)
}

#[test]
fn closed_partitions_give_no_more(rt: HostRuntime) {
    assert!(rt; closes_amid_a_course(&rt, rt.alloc()).is_some());
}
