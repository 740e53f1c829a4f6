//! The course of the example plans, whose moves were worked out by hand. Other courses, and that a refused allocation
//! answers so, the tests in C and the cases of the built program show.

mod clients;
mod example;

use squall_course::{Course, Owners, Status};
use squall_key::{Bound, Key, PartId};
use squall_span::{Span, SpanSet};
use squall_test_example::{course, holds};
use std::alloc::Global;
use std::process::Abort;

/// The root of the end.
const END: u32 = 4294967295;

fn part(rt: &impl Abort, number: u32) -> PartId {
    PartId::new(number).expect(rt, "a partition")
}

fn key(rt: &impl Abort, root: u32) -> Key {
    Key::new(root, 0).expect(rt, "a key")
}

fn bound(rt: &impl Abort, pair: (u32, u32)) -> Bound {
    Bound::new(pair.0, pair.1).expect(rt, "a bound")
}

/// The keys from the pair `lo` on, below the pair `hi`.
fn span(rt: &impl Abort, lo: (u32, u32), hi: (u32, u32)) -> Span {
    Span::new(bound(rt, lo), bound(rt, hi)).expect(rt, "a span")
}

/// Whether the moves of the course are these: each its first root, the root after it, its source, its destination and
/// its sub-plan.
fn has_moves(rt: &impl Abort, course: &Course, wanted: &[(u32, u32, u32, u32, u32)]) -> bool {
    let moves = course.moves();
    if moves.len() != wanted.len() {
        return false;
    }
    let mut right = true;
    for (at, (lo, hi, source, dest, sub)) in wanted.iter().enumerate() {
        let one = &moves[at];
        right &= one.span == span(rt, (*lo, 0), (*hi, 0)) && one.sub == *sub;
        right &= (one.source.get(), one.dest.get()) == (*source, *dest);
    }
    right
}

/// The course has two moves, both in one sub-plan, in which each source has its destination.
fn look_at_two(rt: &impl Abort, course: &Course) {
    holds!(rt; has_moves(rt, course, &[(2, 3, 1, 3, 0), (6, 9, 3, 4, 0)]));
    holds!(rt; course.subplans() == 1);
    let source = part(rt, 3);
    holds!(rt; course.dest(0, source) == Some(part(rt, 4)));
    holds!(rt; course.dest(1, source).is_none());
}

/// Looks at the owners of a key that moves, and of one that does not.
fn look_at_owners(rt: &impl Abort, course: &Course) {
    let moving = key(rt, 2);
    let still = key(rt, 3);
    holds!(rt; course.subplan_of(moving) == Some(0));
    holds!(rt; course.subplan_of(still).is_none());
    holds!(rt; course.old_owner(moving).get() == 1);
    holds!(rt; course.new_owner(moving).get() == 3);
    let old = part(rt, 1);
    let new = part(rt, 3);
    let sub = Some(0);
    holds!(rt; course.owners(moving) == Owners { old, new, sub });
    holds!(rt; course.owners(still).sub.is_none());
}

/// Of the roots of the first sub-plan those from `lo` on, below `hi`, come to the partition.
fn roots_come(rt: &impl Abort, alloc: Global, course: &Course, number: u32, lo: u32, hi: u32) {
    let incoming = course
        .incoming(alloc, 0, part(rt, number))
        .expect(rt, "memory");
    holds!(rt; incoming.first() == Some(span(rt, (lo, 0), (hi, 0))) && incoming.len() == 1);
}

/// Of the roots of the first sub-plan those from 2 on, below 3, go from the partition 1.
fn roots_go(rt: &impl Abort, alloc: Global, course: &Course) {
    let outgoing = course.outgoing(alloc, 0, part(rt, 1)).expect(rt, "memory");
    holds!(rt; outgoing.first() == Some(span(rt, (2, 0), (3, 0))) && outgoing.len() == 1);
}

/// No keys come to the partition 4 in the second sub-plan.
fn none_come_later(rt: &impl Abort, alloc: Global, course: &Course) {
    let later = course.incoming(alloc, 1, part(rt, 4)).expect(rt, "memory");
    holds!(rt; later.is_empty());
}

/// Keys come to the partitions 3 and 4 in the first sub-plan.
fn two_receive(rt: &impl Abort, alloc: Global, course: &Course) {
    let receivers = course.receivers(alloc, 0).expect(rt, "memory");
    holds!(rt; receivers.as_slice() == [part(rt, 3), part(rt, 4)].as_slice());
}

/// A span is complete beside the set of its keys.
fn look_at_status(rt: &impl Abort, alloc: Global, course: &Course) {
    let prefix = span(rt, (2, 0), (2, 7));
    let some = SpanSet::of(alloc, &prefix).expect(rt, "memory");
    holds!(rt; course.status(&prefix, &some) == Status::Complete);
}

/// Each call that the course of the example answers.
fn look_at_example(rt: &impl Abort, alloc: Global, course: &Course) {
    look_at_two(rt, course);
    look_at_owners(rt, course);
    roots_come(rt, alloc, course, 4, 6, 9);
    roots_go(rt, alloc, course);
    none_come_later(rt, alloc, course);
    two_receive(rt, alloc, course);
    look_at_status(rt, alloc, course);
    clients::are_plans(course);
    holds!(rt; clients::may_be_opened(course, 0) && !clients::may_be_opened(course, 1));
}

#[test]
fn moves_of_the_example(rt: HostRuntime) {
    let course = course(rt.alloc()).expect(&rt, "a course");
    look_at_example(&rt, rt.alloc(), &course);
}

/// How many keys from 2:0 on, below 3:0, are in the set of the keys between these.
fn status_between(rt: &impl Abort, alloc: Global, lo: (u32, u32), hi: (u32, u32)) -> Status {
    let set = SpanSet::of(alloc, &span(rt, lo, hi)).expect(rt, "memory");
    Status::of(&span(rt, (2, 0), (3, 0)), &set)
}

#[test]
fn status_of_a_span(rt: HostRuntime) {
    for (lo, hi, wanted) in [
        ((3, 0), (END, 0), Status::NotStarted),
        ((2, 0), (2, 7), Status::Partial),
        ((0, 0), (END, 0), Status::Complete),
    ] {
        holds!(&rt; status_between(&rt, rt.alloc(), lo, hi) == wanted);
    }
}
