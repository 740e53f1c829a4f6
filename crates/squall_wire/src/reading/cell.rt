//! Cells in a list.

ghost use Rattle.std.specs.Prelude.{◌≡◌};
ghost use Rattle.squall_report.specs.Cells.{place_at};
ghost use Rattle.squall_wire.specs.Limits.{is_later, after_cell};
ghost use Rattle.squall_wire.specs.Reading.{Gives, head_at, cell_at};
ghost use Rattle.squall_wire.specs.Views.{head_seen};

use crate::fault::WireFault;
use crate::reading::field::{byte_at, word_at};
use crate::reading::item::Item;
use crate::reading::span::spans_of;
use squall_board::Cell;
use squall_key::PART_LIMIT;
use std::alloc::Global;
use std::marker::Model;

/// The number, sub-plan and partition of the last cell, all 0 before the first. Contracts see it as
/// these three numbers.
#[derive(Clone, Copy)]
pub(crate) struct CellPoint {
    number: u32,
    sub: u32,
    part: u32,
}

impl Model for CellPoint {
    ghost use Rattle.squall_report.specs.Cells.{CellPlace, place_at};

    ghost Value = { CellPlace };

    ghost view = { λ p. place_at p.number p.sub p.part };

    ghost inverse = { λ c. record { number = c.number; sub = c.sub; part = c.part } };
}

impl CellPoint {
    /// Before every cell.
    pub(crate) const START: CellPoint = CellPoint {
        number: 0,
        sub: 0,
        part: 0,
    };

    /// Whether the three numbers come after it.
    fn is_before(self, number: u32, sub: u32, part: u32) -> bool
        ensures { result ≡ is_later self (place_at number sub part) }
    {
        if number != self.number {
            return self.number < number;
        }
        if sub != self.sub {
            return self.sub < sub;
        }
        self.part < part
    }
}

/// What comes before the spans of a cell.
#[derive(Clone, Copy)]
struct CellHead {
    number: u32,
    sub: u32,
    part: u32,
    done: u8,
    count: u32,
}

/// The head that begins the bytes, and the bytes after it.
#[tactic(auto, unfolding(crate::specs::Reading::head_at))]
fn head_of(last: CellPoint, bytes: &[u8]) -> Result<(CellHead, &[u8]), WireFault>
    ensures { Gives (λ x. (head_seen x.0, x.1.now)) result (head_at last bytes.now) }
{
    let (number, rest) = word_at(bytes)?;
    let (sub, rest) = word_at(rest)?;
    let (part, rest) = word_at(rest)?;
    let (done, rest) = byte_at(rest)?;
    let (count, rest) = word_at(rest)?;
    if number < 1
        || sub >= PART_LIMIT
        || part >= PART_LIMIT
        || done > 1
        || (done != 1 && count < 1)
    {
        return Err(WireFault::Range);
    }
    if !last.is_before(number, sub, part) {
        return Err(WireFault::Order);
    }
    let head = CellHead {
        number,
        sub,
        part,
        done,
        count,
    };
    Ok((head, rest))
}

/// The point is the place of the last cell.
impl Item for Cell {
    type Point = CellPoint;

    ghost read_at = { cell_at };

    ghost next = { after_cell };

    #[tactic(auto, unfolding(crate::specs::Reading::cell_at))]
    fn read(alloc: Global, last: CellPoint, bytes: &[u8]) -> Result<(Cell, &[u8]), WireFault> {
        let (head, rest) = head_of(last, bytes)?;
        let (spans, rest) = spans_of(alloc, head.count, rest)?;
        let cell = Cell::new(head.number, head.sub, head.part, head.done == 1, spans).ok_or(
            WireFault::Range,
        )?;
        Ok((cell, rest))
    }

    fn after(&self, _last: CellPoint) -> CellPoint {
        CellPoint {
            number: self.number(),
            sub: self.sub(),
            part: self.part(),
        }
    }
}
