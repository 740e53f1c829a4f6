//! Tests of routers and errands. What routers do with reports and frames, and that a refused allocation changes
//! nothing, the tests in C show.

mod clients;
mod errands;
mod example;
mod known;
mod legs;
mod ways;

use crate::example::{course, issued};
use squall_board::Board;
use squall_report::Report;
use squall_router::Router;
use squall_test_example::{NEW, OLD, load, take};
use std::alloc::Global;

/// What a message tells.
#[derive(Clone, Copy)]
pub(crate) enum Said {
    /// From 2:0 to 2:7 the keys are loaded at partition 3, in sub-plan 0 of number 1.
    Half,
    /// From 2:0 to 3:0 they are.
    Load,
    /// Sub-plan 0 of number 1 is opened.
    Opened,
    /// Partition 4 is done in sub-plan 0 of number 1.
    Done,
    /// The old plan follows the new one under the number.
    Back(u32),
}

/// The report of what is said.
pub(crate) fn report(alloc: Global, said: Said) -> Option<Report> {
    match said {
        Said::Half => load("2:0", "2:7"),
        Said::Load => load("2:0", "3:0"),
        Said::Opened => Report::opened(1, 0),
        Said::Done => Report::done(1, 0, 4),
        Said::Back(number) => issued(alloc, number, NEW, OLD),
    }
}

/// The board of one report.
pub(crate) fn delta(alloc: Global, said: Said) -> Option<Board> {
    let report = report(alloc, said);
    let mut delta = Board::new(alloc);
    take(&mut delta, report)?;
    Some(delta)
}

/// The router takes the board of one report.
fn hear(alloc: Global, router: &mut Router, said: Said) -> Option<()> {
    let delta = delta(alloc, said)?;
    router.absorb(&delta).ok()
}

/// A router that begins with course 1.
pub(crate) fn router(alloc: Global) -> Option<Router> {
    let course = course(alloc)?;
    Router::new(alloc, &course).ok()
}

/// A router that begins with course 1 and has heard so much, each in a board of its own.
pub(crate) fn heard(alloc: Global, said: &[Said]) -> Option<Router> {
    let mut router = router(alloc)?;
    for one in said {
        hear(alloc, &mut router, *one)?;
    }
    Some(router)
}
