//! The example of the first page of `squall_world_rows`.

use crate::stores::put;
use squall_course::Course;
use squall_key::{Key, PartId};
use squall_store::Command;
use squall_test_example::course;
use squall_world_rows::{Answer, Event, Node, RowAnswer, RowWorld};
use std::alloc::Global;
use std::process::Abort;
use std::sync::Arc;

fn row_moves(
    rt: &impl Abort,
    world: &mut RowWorld,
    key: Key,
    from: PartId,
    to: PartId,
    put: &Command,
) -> Option<()> {
    assert!(rt; matches!(world.ask(from, key, 0, put), Ok(RowAnswer::Ran(None))));
    assert!(rt;
        matches!(
            world.step(&Event::GiveAt(from, key)),
            Ok(Answer::Gave { index: 0, .. })
        )
    );
    assert!(rt; matches!(world.step(&Event::Load(0)), Ok(Answer::Loaded(_))));
    assert!(rt;
        matches!(
            world.ask(to, key, 1, &Command::Get),
            Ok(RowAnswer::Ran(Some(_)))
        )
    );
    Some(())
}

/// Partitions 1 and 3 hear that sub-plan 0 is opened.
fn opened(rt: &impl Abort, world: &mut RowWorld, from: PartId, to: PartId) -> Option<()> {
    assert!(rt; world.parts() == 4);
    world.step(&Event::OpenNext).ok()?;
    world.step(&Event::Send(Node::Leader)).ok()?;
    world.step(&Event::Deliver(0, Node::Part(from))).ok()?;
    world.step(&Event::Deliver(0, Node::Part(to))).ok()?;
    Some(())
}

/// The key 2:0 goes from partition 1 to 3.
fn key_moves(rt: &impl Abort, world: &mut RowWorld, put: &Command) -> Option<()> {
    let (from, to) = (PartId::new(1)?, PartId::new(3)?);
    opened(rt, world, from, to)?;
    row_moves(rt, world, Key::read("2:0")?, from, to, put)
}

/// The world of a course, without a router. None also if the course is not the first.
fn world_of(alloc: Global, course: Course) -> Option<RowWorld> {
    if course.number() != 1 {
        return None;
    }
    let course = Arc::new(alloc, course).ok()?;
    RowWorld::over(alloc, &course, 0).ok()
}

/// The world of the example plans.
fn world(alloc: Global) -> Option<RowWorld> {
    world_of(alloc, course(alloc)?)
}

fn moves(rt: &impl Abort, alloc: Global, put: &Command) -> Option<()> {
    let mut world = world(alloc)?;
    key_moves(rt, &mut world, put)
}

#[test]
fn a_row_moves_in_a_world(rt: HostRuntime) {
    let put = put(rt.alloc(), b"seven").expect(&rt, "memory");
    moves(&rt, rt.alloc(), &put).expect(&rt, "memory");
}
