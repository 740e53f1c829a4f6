//! Leaders between plans whose moves were worked out by hand. What else they answer, and that a refused allocation
//! changes nothing, the tests in C show.

mod clients;
mod early;
mod example;

use squall_leader::Leader;
use squall_test_example::{OLD, plan};
use std::alloc::Global;

/// A leader of the old plan. None if an allocation fails.
fn leader(alloc: Global) -> Option<Leader> {
    let plan = plan(alloc, OLD)?;
    Leader::new(alloc, &plan).ok()
}
