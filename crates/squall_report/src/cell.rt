//! The place of a cell on a board.

ghost use Rattle.std.specs.Prelude.{◌≡◌, true, ◌≤◌, ◌<◌};
ghost use Rattle.squall_key.specs.Keys.{part_limit};
ghost use Rattle.squall_report.specs.Cells.{place_at, place_of, is_cell_place};

use squall_key::{PART_LIMIT, PartId};
use std::marker::Model;

/// A partition in a sub-plan of a reconfiguration: the place of a cell on a board.
///
/// The number of the reconfiguration is at least 1. Sub-plan and partition are at most 9999. Cells
/// rise by number, then by sub-plan, then by partition. Contracts see a cell's place as these three
/// numbers.
#[derive(Clone, Copy, Debug, PartialEq, Eq, PartialOrd, Ord)]
pub struct CellId {
    number: u32,
    sub: u32,
    part: PartId,
}

impl Model for CellId {
    ghost use Rattle.std.specs.Prelude.{◌≡◌, true};
    ghost use Rattle.squall_report.specs.Cells.{CellPlace, place_at, is_cell_place};

    ghost Value = { CellPlace };

    ghost view = { λ c. place_at c.number c.sub c.part };

    ghost invariant = { λ c. is_cell_place (place_at c.number c.sub c.part) ≡ true };

    ghost inverse = { λ c. record { number = c.number; sub = c.sub; part = c.part } };
}

impl CellId {
    /// The cell of the partition in that sub-plan of the reconfiguration of that number. None if
    /// the number is 0, or the sub-plan or the partition is above 9999.
    pub fn new(number: u32, sub: u32, part: u32) -> Option<CellId>
        ensures { result ≡ place_of number sub part }
    {
        if number == 0 || sub >= PART_LIMIT {
            return None;
        }
        let part = PartId::new(part)?;
        Some(CellId { number, sub, part })
    }

    /// The cell of three numbers that are known to lie within their limits.
    pub fn of(number: u32, sub: u32, part: u32) -> CellId
        requires limits { is_cell_place (place_at number sub part) ≡ true }
        ensures { result ≡ place_at number sub part }
    {
        let part = PartId::of(part);
        CellId { number, sub, part }
    }

    /// The number of the reconfiguration, from 1 on.
    pub fn number(self) -> u32
        ensures value { result ≡ self.number }
        ensures least { 1 ≤ result }
    {
        self.number
    }

    /// The sub-plan, at most 9999.
    pub fn sub(self) -> u32
        ensures value { result ≡ self.sub }
        ensures limit { result < part_limit }
    {
        self.sub
    }

    /// The partition.
    pub fn part(self) -> PartId
        ensures value { result ≡ self.part }
        ensures limit { result < part_limit }
    {
        self.part
    }

    /// Changes nothing. A proof learns from it that the numbers lie within their limits.
    pub fn known(self)
        ensures { is_cell_place self ≡ true }
    {
        let _number = self.number;
    }
}
