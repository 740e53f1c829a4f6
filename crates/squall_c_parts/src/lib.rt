//! Partitions for C: what a node of one partition keeps, and what each call of it does. The handles
//! are in `squall_c`.
//!
//! Its tests are in `bindings/c/part_tests.c`.
#![tactic(auto)]

mod calls;
mod chunks;
mod feeding;
mod frames;
mod hearing;
pub mod laws;
mod node;
mod status;

pub use chunks::{CAnswer, CChunk};
pub use node::Node;
