//! The example of the first page of `squall_nodes`.

use crate::nodes::{fresh_part, hears_opening};
use squall_errand::Reply;
use squall_key::Key;
use squall_nodes::calls::{give_at_beside, load_beside, serve_beside};
use squall_part::{Load, Part};
use std::alloc::Global;
use std::process::Abort;

/// Of two partitions one gives a key, and the other loads it.
fn key_moves(rt: &impl Abort, source: &mut Part, dest: &mut Part, key: Key) -> Option<()> {
    let chunk = give_at_beside(source, key).ok()?;
    assert!(rt; matches!(load_beside(dest, &chunk), Ok(Load::Loaded(_))));
    assert!(rt; serve_beside(dest, key, 1) == Reply::Held);
    Some(())
}

/// The key 2:0 goes from a partition to partition 3. None if an allocation fails before.
fn key_comes(rt: &impl Abort, alloc: Global, source: &mut Part) -> Option<()> {
    let mut dest = fresh_part(alloc, 3)?;
    assert!(rt; hears_opening(alloc, &mut dest)?);
    key_moves(rt, source, &mut dest, Key::new(2, 0)?)
}

/// The key goes from partition 1. None if an allocation fails before.
fn key_goes(rt: &impl Abort, alloc: Global) -> Option<()> {
    let mut source = fresh_part(alloc, 1)?;
    assert!(rt; hears_opening(alloc, &mut source)?);
    key_comes(rt, alloc, &mut source)
}

#[test]
fn keys_move_beside_a_world(rt: HostRuntime) {
    assert!(rt; key_goes(&rt, rt.alloc()).is_some());
}
