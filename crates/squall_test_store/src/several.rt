//! Several keys of one store, changed as one transaction.

use crate::stores::{is_row, put, ran, store};
use squall_errand::Reply;
use squall_key::Key;
use squall_store::{Bytes, Command, MemoryRows, Store};
use std::alloc::Global;
use std::process::Abort;

/// The reply of the command, which could be made. None if it did not run, or if an allocation fails.
fn asks(
    store: &mut Store<MemoryRows>,
    key: Key,
    command: Option<Command>,
) -> Option<Option<Bytes>> {
    let command = command?;
    ran(store.ask(key, 0, &command))
}

/// What one key had is put at another.
fn takes(store: &mut Store<MemoryRows>, from: Key, to: Key) -> Option<()> {
    let value = asks(store, from, Some(Command::Delete))??;
    asks(store, to, Some(Command::Put(value)))?;
    Some(())
}

/// Whether the key has these bytes.
fn has(store: &mut Store<MemoryRows>, key: Key, bytes: &[u8]) -> bool {
    match asks(store, key, Some(Command::Get)) {
        Some(row) => is_row(&row, Some(bytes)),
        None => false,
    }
}

/// A value goes from one key to another, while the partition holds both. Once one is given, that is
/// the first that is not held.
fn value_goes(rt: &impl Abort, alloc: Global, store: &mut Store<MemoryRows>) -> Option<()> {
    let (from, to) = (Key::new(2, 1)?, Key::new(2, 2)?);
    let keys = [from, to];
    assert!(rt; store.first_not_held(&keys, 0).is_none());
    asks(store, from, put(alloc, b"seven"))?;
    takes(store, from, to)?;
    assert!(rt; has(store, to, b"seven"));
    store.give_at(to).ok()?;
    assert!(rt;
        matches!(
            store.first_not_held(&keys, 0),
            Some((1, Reply::Moved { .. }))
        )
    );
    Some(())
}

fn goes(rt: &impl Abort, alloc: Global) -> Option<()> {
    let mut store = store(alloc, 1)?;
    value_goes(rt, alloc, &mut store)
}

#[test]
fn several_keys_change_together(rt: HostRuntime) {
    goes(&rt, rt.alloc()).expect(&rt, "memory");
}
