//! The example of the crate's first page.

use crate::world::world;
use squall_errand::Reply;
use squall_key::{Key, PartId};
use squall_world::{Answer, Node, World};
use std::process::Abort;
use std::test::Fail;

fn moves(rt: &impl Abort, world: &mut World, key: Key, from: PartId, to: PartId) -> Option<()> {
    assert!(rt; matches!(world.open_next(), Ok(Answer::Opened { sub: 0 })));
    assert!(rt; matches!(world.send(Node::Leader), Ok(Answer::Sent { index: 0 })));
    world.deliver(0, Node::Part(from)).ok()?;
    world.deliver(0, Node::Part(to)).ok()?;
    assert!(rt; matches!(world.give_at(from, key), Ok(Answer::Gave { index: 0, .. })));
    assert!(rt; matches!(world.load(0), Ok(Answer::Loaded(_))));
    assert!(rt; matches!(world.serve(to, key, 1), Answer::Served(Reply::Held)));
    // The router has not heard of the load yet.
    let Answer::Routed(part) = world.route(0, key) else {
        return None;
    };
    assert!(rt; part.get() == from.get());
    Some(())
}

/// The key 2:0 goes from partition 1 to 3.
fn first_key_moves(rt: &impl Abort, world: &mut World) -> Option<()> {
    let key = Key::read("2:0")?;
    moves(rt, world, key, PartId::new(1)?, PartId::new(3)?)
}

#[test]
fn key_moves(rt: HostRuntime) -> Result<(), Fail> {
    let mut world = world(rt.alloc()).ok_or("a world")?;
    first_key_moves(&rt, &mut world).ok_or("a move")?;
    Ok(())
}
