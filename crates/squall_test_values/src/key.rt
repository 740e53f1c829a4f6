//! Tests of keys, bounds and partitions.

mod example;

use squall_key::*;
use squall_test_example::holds;
use std::alloc::Global;
use std::fmt::Display;
use std::process::Abort;

/// The value is printed so.
fn shows<T: Display>(rt: &impl Abort, alloc: Global, value: &T, wanted: &str) {
    let text = value.to_string(alloc).expect(rt, "memory");
    holds!(rt; text.as_str() == wanted);
}

/// The key of the pair has the rank.
fn look_at_key(rt: &impl Abort, root: u32, second: u32, rank: u64) {
    let key = Key::new(root, second).expect(rt, "a key");
    holds!(rt; (key.root(), key.second(), key.rank()) == (root, second, rank));
    holds!(rt; Key::of_rank(rank) == Some(key));
    holds!(rt; Some(Bound::of_key(key)) == Bound::new(root, second));
    holds!(rt; Bound::of_key(key) < Bound::TOP);
}

#[test]
fn keys(rt: HostRuntime) {
    look_at_key(&rt, 2, 7, 8589934599);
    look_at_key(&rt, 4294967294, 4294967295, 18446744069414584319);
    holds!(&rt; Key::new(4294967295, 0) == None);
    holds!(&rt; Key::of_rank(18446744069414584320) == None);
    holds!(&rt; Key::new(1, 4294967295) < Key::new(2, 7));
}

#[test]
fn bounds(rt: HostRuntime) {
    holds!(&rt; Bound::new(4294967295, 0) == Some(Bound::TOP));
    holds!(&rt; Bound::new(4294967295, 1) == None);
    holds!(&rt; Bound::of_rank(18446744069414584320) == Some(Bound::TOP));
    holds!(&rt; Bound::of_rank(18446744069414584321) == None);
    holds!(&rt; Bound::TOP.rank() == 18446744069414584320);
    holds!(&rt; (Bound::TOP.root(), Bound::TOP.second()) == (4294967295, 0));
}

#[test]
fn steps(rt: HostRuntime) {
    let low = Bound::new(0, 0).expect(&rt, "the lowest bound");
    let next = Bound::new(0, 1).expect(&rt, "the next bound");
    let top = Bound::TOP;
    for (at, other, step, wanted) in [
        (next, low, 5, 5),
        (low, next, 5, 0),
        (low, low, 5, 0),
        (top, low, usize::MAX, usize::MAX),
        (low, top, usize::MAX, 0),
        (top, next, 0, 0),
    ] {
        holds!(&rt; at.step_beyond(other, step) == wanted);
    }
}

#[test]
fn texts(rt: HostRuntime) {
    for (text, root, second) in [
        ("end", 4294967295, 0),
        ("4294967295:0", 4294967295, 0),
        ("02:7", 2, 7),
        ("0000000002:0000000007", 2, 7),
    ] {
        holds!(&rt; Bound::read(text) == Bound::new(root, second), text);
        holds!(&rt; Key::read(text) == Key::new(root, second), text);
    }
}

#[test]
fn other_texts(rt: HostRuntime) {
    for text in [
        "END",
        "4294967295:1",
        "2:",
        ":7",
        "2",
        "",
        "2:7:1",
        "+2:7",
        "2: 7",
        "00000000002:7",
        "2:4294967296",
    ] {
        holds!(&rt; Bound::read(text) == None && Key::read(text) == None, text);
    }
}

/// Looks at the printed texts of a bound, of the key and bound of the same pair, and of a partition.
fn look_at_printed(rt: &impl Abort, alloc: Global, key: Key, part: PartId) {
    shows(rt, alloc, &Bound::TOP, "end");
    shows(rt, alloc, &key, "2:7");
    shows(rt, alloc, &Bound::of_key(key), "2:7");
    shows(rt, alloc, &part, "9999")
}

#[test]
fn parts_and_printed_texts(rt: HostRuntime) {
    let key = Key::new(2, 7).expect(&rt, "a key");
    let part = PartId::new(9999).expect(&rt, "the last partition");
    holds!(&rt; part.get() == 9999 && PartId::new(10000) == None);
    holds!(&rt; PartId::new(7) < Some(part));
    look_at_printed(&rt, rt.alloc(), key, part);
}
