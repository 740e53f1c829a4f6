//! What a router has heard, and hears again: each answer is Ok, whichever allocation is refused.

use super::{Said, delta, heard, report};
use squall_router::Router;
use squall_test_example::holds;
use std::alloc::Global;
use std::test::Fail;

/// What is said at first.
const FIRST: [Said; 5] = [
    Said::Half,
    Said::Load,
    Said::Opened,
    Said::Done,
    Said::Back(2),
];

/// Some of it, as boards of one cell.
const CELLS: [Said; 3] = [Said::Half, Said::Load, Said::Done];

/// Whether the router takes the report of what is said. Also if that could not be made.
fn takes(alloc: Global, router: &mut Router, said: Said) -> bool {
    match report(alloc, said) {
        Some(report) => router.take(&report).is_ok(),
        None => true,
    }
}

/// Whether the router absorbs the board of what is said. Also if that could not be made.
fn absorbs(alloc: Global, router: &mut Router, said: Said) -> bool {
    match delta(alloc, said) {
        Some(delta) => router.absorb(&delta).is_ok(),
        None => true,
    }
}

#[test]
fn tolerant_take_again(rt: HostRuntime) -> Result<(), Fail> {
    if let Some(mut router) = heard(rt.alloc(), &FIRST) {
        for said in FIRST {
            holds!(&rt; takes(rt.alloc(), &mut router, said));
        }
    }
    Ok(())
}

#[test]
fn tolerant_absorb_again(rt: HostRuntime) -> Result<(), Fail> {
    if let Some(mut router) = heard(rt.alloc(), &FIRST) {
        for said in CELLS {
            holds!(&rt; absorbs(rt.alloc(), &mut router, said));
        }
    }
    Ok(())
}
