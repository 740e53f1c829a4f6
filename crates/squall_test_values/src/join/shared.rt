//! Values with several owners, in maps.

use super::tolerant::{answers, tries};
use squall_join::{Flat, JoinMap, Shared};
use std::alloc::{AllocError, Global};
use std::process::Abort;
use std::sync::Arc;

type Held = JoinMap<u32, Flat<Shared<u32>>>;

fn shared(alloc: Global, value: u32) -> Result<Shared<u32>, AllocError> {
    Ok(Shared::new(Arc::new(alloc, value)?))
}

fn one(alloc: Global, key: u32, value: u32) -> Result<Held, AllocError> {
    JoinMap::single(alloc, key, Flat::One(shared(alloc, value)?))
}

/// Joins one entry into the map, and asks the map with it.
fn tries_one(rt: &impl Abort, alloc: Global, held: &mut Held, key: u32, value: u32) {
    if let Ok(other) = one(alloc, key, value) {
        answers(rt, alloc, held, &other);
        tries(rt, alloc, held, &other);
    }
}

#[test]
fn tolerant_shared_values(rt: HostRuntime) {
    if let Ok(mut held) = one(rt.alloc(), 5, 7) {
        tries_one(&rt, rt.alloc(), &mut held, 2, 9);
        tries_one(&rt, rt.alloc(), &mut held, 5, 8);
    }
}
