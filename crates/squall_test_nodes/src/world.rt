//! A world of the example plans: the keys from 2:0 up to 3:0 go from partition 1 to 3, and those from
//! 6:0 up to 9:0 from 3 to 4, each in sub-plan 0. Longer runs, and each event with its answers, are
//! shown by the cases of the built program.

mod clients;
mod example;

use squall_test_example::{NEW, OLD, holds, plan};
use squall_world::{Answer, Event, Node, World};
use std::alloc::Global;

/// The world, with one router. None if an allocation fails.
fn world(alloc: Global) -> Option<World> {
    let old = plan(alloc, OLD)?;
    let new = plan(alloc, NEW)?;
    World::new(alloc, &old, &new, 1).ok()
}

/// How many answers the world gives to these events in one run. None if an allocation fails before.
fn answered(alloc: Global, events: &[Event]) -> Option<usize> {
    let mut world = world(alloc)?;
    let mut answers: Vec<Answer> = Vec::new(alloc);
    world.run(events, &mut answers).ok()?;
    Some(answers.len())
}

#[test]
fn events_run(rt: HostRuntime) {
    let events = [
        Event::OpenNext,
        Event::Send(Node::Leader),
        Event::Deliver(0, Node::Router(0)),
    ];
    holds!(&rt; answered(rt.alloc(), &events) == Some(3));
}
