//! A world: a leader, partitions and routers that take events one by one, with messages lost,
//! repeated and in any order.
//!
//! # Example
//!
//! In a new world with a router, `key` moves in sub-plan 0; `Reply` is of `squall_errand`:
//!
//! ```rust
//! fn moves(rt: &impl Abort, world: &mut World, key: Key, from: PartId, to: PartId) -> Option<()> {
//!     assert!(rt; matches!(world.open_next(), Ok(Answer::Opened { sub: 0 })));
//!     assert!(rt; matches!(world.send(Node::Leader), Ok(Answer::Sent { index: 0 })));
//!     world.deliver(0, Node::Part(from)).ok()?;
//!     world.deliver(0, Node::Part(to)).ok()?;
//!     assert!(rt; matches!(world.give_at(from, key), Ok(Answer::Gave { index: 0, .. })));
//!     assert!(rt; matches!(world.load(0), Ok(Answer::Loaded(_))));
//!     assert!(rt; matches!(world.serve(to, key, 1), Answer::Served(Reply::Held)));
//!     // The router has not heard of the load yet.
//!     let Answer::Routed(part) = world.route(0, key) else {
//!         return None;
//!     };
//!     assert!(rt; part.get() == from.get());
//!     Some(())
//! }
//! ```
//!
//! Its tests are in `crates/squall_test_nodes/src/world.rt`.
#![tactic(auto)]

mod acting;
mod counts;
mod leading;
mod message;
mod moving;
mod naming;
mod net;
mod peer;
mod promise;
mod refusal;
mod reports;
mod sending;
mod starting;
mod steps;
mod world;

pub use squall_protocol::{Answer, Event, Node, Refusal, promises};
pub use steps::{MOST_ROUTERS, WorldFault};
pub use world::World;
