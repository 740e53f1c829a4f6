//! The examples of the first pages of `squall_log` and `squall_store_log`, and a log that is cut off at each byte.

use squall_key::{Key, PartId};
use squall_log::{End, LogFault, first_entry, push_entry};
use squall_part::Part;
use squall_store::Bytes;
use squall_store_log::{LoggedStore, Record};
use squall_test_example::course;
use std::alloc::Global;
use std::process::Abort;
use std::sync::Arc;

fn torn_tail_is_cut(rt: &impl Abort, alloc: Global) -> Result<(), LogFault> {
    let mut log = Vec::new(alloc);
    push_entry(&mut log, b"first")?;
    push_entry(&mut log, b"second")?;
    let cut = log.split_at(log.len() - 1).0;
    let Ok((payload, rest)) = first_entry(cut) else {
        return Ok(());
    };
    assert!(rt; payload == b"first".as_slice());
    assert!(rt; matches!(first_entry(rest), Err(End::Torn)));
    Ok(())
}

#[test]
fn a_torn_tail_is_cut(rt: HostRuntime) {
    assert!(rt; torn_tail_is_cut(&rt, rt.alloc()).is_ok());
}

/// Partition 1, which has heard nothing.
fn part(alloc: Global) -> Option<Part> {
    let id = PartId::new(1)?;
    let course = Arc::new(alloc, course(alloc)?).ok()?;
    Part::new(alloc, id, &course).ok()
}

/// Its store, with an empty log.
fn store(alloc: Global) -> Option<LoggedStore> {
    let opened = LoggedStore::open(alloc, part(alloc)?, &[]).ok()?;
    Some(opened.store)
}

fn row_is_kept(
    rt: &impl Abort,
    alloc: Global,
    store: &mut LoggedStore,
    again: Part,
    key: Key,
) -> Option<()> {
    let put = Record::Put(key, Bytes::new(alloc, b"seven").ok()?);
    assert!(rt; store.call(&put, 0).is_ok());
    let mut log = Vec::from_slice(alloc, store.waiting()).ok()?;
    log.extend_from_slice(&[0, 0]).ok()?;
    let mut opened = LoggedStore::open(alloc, again, &log).ok()?;
    assert!(rt; opened.size + 2 == log.len() && opened.end == End::Torn);
    let row = opened.store.get(key, 0).ok()??;
    assert!(rt; row.as_slice() == b"seven".as_slice());
    Some(())
}

/// The same on a key of the partition.
fn keeps(rt: &impl Abort, alloc: Global) -> Option<()> {
    let mut store = store(alloc)?;
    row_is_kept(rt, alloc, &mut store, part(alloc)?, Key::new(1, 7)?)
}

#[test]
fn a_row_is_kept(rt: HostRuntime) {
    keeps(&rt, rt.alloc()).expect(&rt, "memory");
}

/// Opens the first bytes of a log of one entry.
fn opens(rt: &impl Abort, alloc: Global, log: &[u8], cut: usize) -> Option<()> {
    let whole = log.len();
    let opened = LoggedStore::open(alloc, part(alloc)?, log.get(..cut)?).ok()?;
    assert!(rt; opened.end != End::Damaged);
    assert!(rt; opened.size == if cut == whole { whole } else { 0 });
    Some(())
}

/// Opens each beginning of the log of a put.
fn opens_each(rt: &impl Abort, alloc: Global, store: &mut LoggedStore) -> Option<()> {
    let put = Record::Put(Key::new(1, 7)?, Bytes::new(alloc, b"seven").ok()?);
    assert!(rt; store.call(&put, 0).is_ok());
    let log = Vec::from_slice(alloc, store.waiting()).ok()?;
    // 4 + 4 + 4 bytes in front, a byte for the kind, 8 for the key and 5 for the value.
    assert!(rt; log.len() == 26);
    for cut in 0..27 {
        opens(rt, alloc, &log, cut)?;
    }
    Some(())
}

/// The same of a new store.
fn cuts(rt: &impl Abort, alloc: Global) -> Option<()> {
    let mut store = store(alloc)?;
    opens_each(rt, alloc, &mut store)
}

#[test]
fn a_log_is_cut_anywhere(rt: HostRuntime) {
    cuts(&rt, rt.alloc()).expect(&rt, "memory");
}

/// The end of the log of a put of which one byte is another.
fn end_of(alloc: Global, store: &mut LoggedStore, at: usize) -> Option<End> {
    let put = Record::Put(Key::new(1, 7)?, Bytes::new(alloc, b"seven").ok()?);
    store.call(&put, 0).ok()?;
    let mut log = Vec::from_slice(alloc, store.waiting()).ok()?;
    let byte = log.get_mut(at)?;
    *byte ^= 1;
    let opened = LoggedStore::open(alloc, part(alloc)?, &log).ok()?;
    Some(opened.end)
}

/// Whether another byte at that place is damage.
fn is_found(alloc: Global, at: usize) -> Option<bool> {
    let mut store = store(alloc)?;
    Some(end_of(alloc, &mut store, at)? == End::Damaged)
}

#[test]
fn each_changed_byte_is_damage(rt: HostRuntime) {
    for at in 0..26 {
        assert!(rt; is_found(rt.alloc(), at) == Some(true));
    }
}
