//! The example of the first page of `squall_store`.

use crate::stores::{ran, store};
use squall_key::Key;
use squall_part::Load;
use squall_store::{Bytes, Command, MemoryRows, Store};
use std::alloc::Global;
use std::process::Abort;

fn row_moves(
    rt: &impl Abort,
    alloc: Global,
    source: &mut Store<MemoryRows>,
    dest: &mut Store<MemoryRows>,
) -> Option<()> {
    let key = Key::new(2, 7)?;
    let put = Command::Put(Bytes::new(alloc, b"seven").ok()?);
    assert!(rt; ran(source.ask(key, 0, &put))?.is_none());
    let chunk = source.give_at(key).ok()?;
    let rows = source.copy(&chunk).ok()?;
    assert!(rt; matches!(dest.load(&chunk, &rows), Ok(Load::Loaded(_))));
    let row = ran(dest.ask(key, 1, &Command::Get))??;
    assert!(rt; row.as_slice() == b"seven".as_slice());
    Some(())
}

/// The same to partition 3. Each store is made in a function of its own: both in one took minutes to prove.
fn comes(rt: &impl Abort, alloc: Global, source: &mut Store<MemoryRows>) -> Option<()> {
    let mut dest = store(alloc, 3)?;
    row_moves(rt, alloc, source, &mut dest)
}

/// The same from partition 1.
fn goes(rt: &impl Abort, alloc: Global) -> Option<()> {
    let mut source = store(alloc, 1)?;
    comes(rt, alloc, &mut source)
}

#[test]
fn a_row_moves(rt: HostRuntime) {
    goes(&rt, rt.alloc()).expect(&rt, "memory");
}
