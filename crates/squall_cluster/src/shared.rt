//! What the threads of a race share.

use crate::halt::{Halt, Off, Stop};
use std::alloc::Global;

/// What the threads of a race share: the handle that starts threads and waits for them, the allocator,
/// the gate, and what calls the race off.
#[derive(Drop)]
pub(crate) struct Shared<G, R> {
    pub(crate) rt: R,
    pub(crate) alloc: Global,
    pub(crate) gate: G,
    pub(crate) halt: Halt,
}

impl<G, R> Shared<G, R> {
    /// What the threads of a race share that is not called off.
    pub(crate) fn new(rt: R, alloc: Global, gate: G) -> Shared<G, R> {
        Shared {
            rt,
            alloc,
            gate,
            halt: Halt::new(),
        }
    }

    /// Calls the race off.
    pub(crate) fn stop(&self, cause: Stop) -> Off {
        self.halt.stop(cause)
    }
}
