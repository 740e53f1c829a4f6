//! Frames behind handles: those that wait until they are fetched, single ones that come in whole, and
//! streams of them that come in pieces.
//!
//! Its tests are in `bindings/c/leader_tests.c` and `bindings/c/leader_heap_tests.c`.
#![tactic(auto)]

mod boards;
mod fault;
mod frames;
mod head;
mod messages;
mod single;
mod status;
mod twin_feed;

pub use boards::{board_frames, digest_frame, repair_frames};
pub use fault::FrameFault;
pub use frames::Frames;
pub use messages::{alone, joined, keep_digest};
pub use single::whole;
pub use status::{feed_status, hear_status, heard_status, memory_status, wire_status};
pub use twin_feed::TwinFeed;
