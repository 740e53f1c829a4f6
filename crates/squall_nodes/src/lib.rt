//! A host's partitions, leader and routers are the nodes of a world. So all that
//! `squall_protocol::promises` says of every run holds of them, too.
//!
//! A world is the definition by which these promises are proved, and a host has none. It has values
//! of [`Part`](squall_part::Part), [`Leader`](squall_leader::Leader) and
//! [`Router`](squall_router::Router), and calls them. The laws say that each call is a step of a
//! world with the corresponding answer, and changes no other node ([`laws`]). A call that lacks
//! memory is no step. A host's nodes that began with one course, and that exchange chunks as they
//! were given and any parts of what their boards tell, stand beside a world that is reached
//! ([`laws::a_system_is_a_world`]). Messages may be lost, repeated and late. So each key has one
//! carrier, what nodes have heard did happen, and routes and moves lead to the key
//! ([`laws::systems_keep_promises`]). In [`calls`] each call is made once, with its law as the
//! contract.
//!
//! # Example
//!
//! Of two partitions one gives a key, and the other loads it. `Reply` is of `squall_errand`:
//!
//! ```rust
//! fn key_moves(rt: &impl Abort, source: &mut Part, dest: &mut Part, key: Key) -> Option<()> {
//!     let chunk = give_at_beside(source, key).ok()?;
//!     assert!(rt; matches!(load_beside(dest, &chunk), Ok(Load::Loaded(_))));
//!     assert!(rt; serve_beside(dest, key, 1) == Reply::Held);
//!     Some(())
//! }
//! ```
//!
//! Its tests are in `crates/squall_test_nodes/src/nodes.rt`.
#![tactic(auto)]

pub mod calls;
pub mod laws;
