//! Rows in memory, by what a map in shards has to do.

use crate::stores::{is_row, put};
use squall_key::Key;
use squall_span::SpanSet;
use squall_store::{Command, MemoryRows, Rows};
use squall_test_example::span;
use std::alloc::Global;
use std::process::Abort;

/// Whether the command is answered by these bytes, or none.
fn replies(rows: &mut MemoryRows, key: Key, command: &Command, bytes: Option<&[u8]>) -> bool {
    match rows.run(key, command) {
        Ok(row) => is_row(&row, bytes),
        Err(_) => false,
    }
}

/// Puts the bytes at the key of root 2.
fn puts(alloc: Global, rows: &mut MemoryRows, second: u32, bytes: &[u8]) -> Option<()> {
    let command = put(alloc, bytes)?;
    rows.run(Key::new(2, second)?, &command).ok()?;
    Some(())
}

/// Whether the key of root 2 has these bytes, or none.
fn has(rows: &mut MemoryRows, second: u32, bytes: Option<&[u8]>) -> bool {
    match Key::new(2, second) {
        Some(key) => replies(rows, key, &Command::Get, bytes),
        None => false,
    }
}

/// The command, which could be made, is answered by these bytes, or none.
fn run_one(
    rt: &impl Abort,
    rows: &mut MemoryRows,
    key: Key,
    command: Option<Command>,
    bytes: Option<&[u8]>,
) {
    let command = command.expect(rt, "memory");
    assert!(rt; replies(rows, key, &command, bytes));
}

/// Each command is answered by the row before it.
fn run_all(rt: &impl Abort, alloc: Global, rows: &mut MemoryRows, key: Key) {
    run_one(rt, rows, key, Some(Command::Get), None);
    run_one(rt, rows, key, put(alloc, b"one"), None);
    run_one(rt, rows, key, put(alloc, b""), Some(b"one"));
    run_one(rt, rows, key, Some(Command::Get), Some(b""));
    run_one(rt, rows, key, Some(Command::Delete), Some(b""));
    run_one(rt, rows, key, Some(Command::Delete), None)
}

#[test]
fn commands_are_answered_by_the_row_before(rt: HostRuntime) {
    let mut rows = MemoryRows::new(rt.alloc());
    let key = Key::new(2, 7).expect(&rt, "a key");
    run_all(&rt, rt.alloc(), &mut rows, key);
}

/// Rows a, b and c at 2:0, 2:1 and 2:5.
fn three(alloc: Global) -> Option<MemoryRows> {
    let mut rows = MemoryRows::new(alloc);
    puts(alloc, &mut rows, 0, b"a")?;
    puts(alloc, &mut rows, 1, b"b")?;
    puts(alloc, &mut rows, 5, b"c")?;
    Some(rows)
}

/// The keys of root 2 from one second number up to another, of which 2:3 and 2:4 are left out.
fn keys(alloc: Global) -> Option<SpanSet> {
    let mut keys = SpanSet::of(alloc, &span("2:0", "2:7")?).ok()?;
    keys.remove(span("2:3", "2:5")?).ok()?;
    Some(keys)
}

/// Rows that are installed take the place of what was there, and keys without a value lose theirs.
/// Keys that are left out keep their rows.
fn take_over(
    rt: &impl Abort,
    rows: &mut MemoryRows,
    batch: &MemoryRows,
    keys: &SpanSet,
) -> Option<()> {
    rows.install(batch, keys).ok()?;
    assert!(rt; has(rows, 0, Some(b"a")));
    assert!(rt; has(rows, 1, Some(b"b")));
    assert!(rt; has(rows, 2, None));
    assert!(rt; has(rows, 4, Some(b"old")));
    assert!(rt; has(rows, 5, None));
    assert!(rt; has(rows, 7, Some(b"old")));
    Some(())
}

/// Rows that had other values.
fn others(alloc: Global) -> Option<MemoryRows> {
    let mut rows = MemoryRows::new(alloc);
    for second in [1, 2, 4, 5, 7] {
        puts(alloc, &mut rows, second, b"old")?;
    }
    Some(rows)
}

/// A copy of those from 2:0 up to 2:2.
fn copied(alloc: Global) -> Option<MemoryRows> {
    let rows = three(alloc)?;
    rows.copy(span("2:0", "2:2")?).ok()
}

/// Other rows take over those of the keys.
fn others_take_over(
    rt: &impl Abort,
    alloc: Global,
    batch: &MemoryRows,
    keys: &SpanSet,
) -> Option<()> {
    let mut rows = others(alloc)?;
    take_over(rt, &mut rows, batch, keys)
}

/// The copy is installed for other keys, too: these have no value in it.
fn copy_moves(rt: &impl Abort, alloc: Global, batch: &MemoryRows) -> Option<()> {
    let keys = keys(alloc)?;
    others_take_over(rt, alloc, batch, &keys)
}

/// The same of a copy that is made.
fn copies_move(rt: &impl Abort, alloc: Global) -> Option<()> {
    let batch = copied(alloc)?;
    copy_moves(rt, alloc, &batch)
}

#[test]
fn copies_take_the_place_of_rows(rt: HostRuntime) {
    copies_move(&rt, rt.alloc()).expect(&rt, "memory");
}
