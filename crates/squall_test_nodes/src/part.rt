//! Partitions between plans whose moves were worked out by hand. The keys from 2:0 up to 3:0 go
//! from partition 1 to 3, and those from 6:0 up to 9:0 from 3 to 4, each in sub-plan 0. That a refused allocation
//! changes nothing the tests in C show.

mod example;

use crate::example::course;
use squall_board::Board;
use squall_key::PartId;
use squall_part::Part;
use squall_report::Report;
use std::alloc::Global;

/// A partition that has heard nothing.
fn fresh_part(alloc: Global, number: u32) -> Option<Part> {
    let id = PartId::new(number)?;
    let course = course(alloc)?;
    Part::new(alloc, id, &course).ok()
}

/// Whether the partition absorbed the report.
fn hears(alloc: Global, part: &mut Part, report: &Report) -> bool {
    let mut delta = Board::new(alloc);
    delta.take(report).is_ok() && part.absorb(&delta).is_ok()
}

/// Whether the partition absorbed that sub-plan 0 of the number is opened.
fn hears_opening(alloc: Global, part: &mut Part, number: u32) -> Option<bool> {
    let opening = Report::opened(number, 0)?;
    Some(hears(alloc, part, &opening))
}
