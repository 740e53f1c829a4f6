//! The cells of a board, lent.

ghost use Rattle.std.specs.Prelude.{◌≡◌, ◌++◌, map, IfOk, OnOk};
ghost use Rattle.squall_board.specs.Boards.{cells_in};
ghost use Rattle.squall_board.specs.Listed.{AreCellsOfParts, AreCellsOfSubs, AreCellsOfNumbers, AreSomeRows, cell_entry, cells_of_parts};
ghost use Rattle.squall_board.specs.Listed.{cells_of_subs, cells_of_numbers, cells_of};

use crate::board::{Board, CellParts};
use squall_join::JoinMap;
use squall_report::CellId;
use std::alloc::AllocError;

/// Adds the cells of the partitions.
fn push_parts<'a>(
    out: &mut Vec<(CellId, &'a CellParts)>,
    number: u32,
    sub: u32,
    parts: &'a [(u32, CellParts)],
) -> Result<(), AllocError>
    requires { AreCellsOfParts number sub parts.now }
    ensures { OnOk result (map (λ c. cell_entry c.0 c.1.now) out.new.items
        ≡ map (λ c. cell_entry c.0 c.1.now) out.old.items ++ cells_of_parts number sub parts.now) }
{
    for entry in parts {
        out.reserve(1)?;
        out.push_reserved((CellId::of(number, sub, entry.0), &entry.1));
    }
    Ok(())
}

/// Adds the cells of the sub-plans.
fn push_subs<'a>(
    out: &mut Vec<(CellId, &'a CellParts)>,
    number: u32,
    subs: &'a [(u32, JoinMap<u32, CellParts>)],
) -> Result<(), AllocError>
    requires { AreCellsOfSubs number subs.now }
    ensures { OnOk result (map (λ c. cell_entry c.0 c.1.now) out.new.items ≡ map (λ c. cell_entry c.0 c.1.now) out.old.items ++ cells_of_subs number subs.now) }
{
    for entry in subs {
        push_parts(out, number, entry.0, entry.1.entries())?;
    }
    Ok(())
}

/// Adds the cells of the numbers.
fn push_numbers<'a>(
    out: &mut Vec<(CellId, &'a CellParts)>,
    numbers: &'a [(u32, JoinMap<u32, JoinMap<u32, CellParts>>)],
) -> Result<(), AllocError>
    requires { AreCellsOfNumbers numbers.now }
    ensures { OnOk result (map (λ c. cell_entry c.0 c.1.now) out.new.items ≡ map (λ c. cell_entry c.0 c.1.now) out.old.items ++ cells_of_numbers numbers.now) }
{
    for entry in numbers {
        push_subs(out, entry.0, entry.1.entries())?;
    }
    Ok(())
}

impl Board {
    /// The cells of which something was reported, by number, by sub-plan and by partition. No entry
    /// of the maps is empty.
    pub fn cell_map(&self) -> &JoinMap<u32, JoinMap<u32, JoinMap<u32, CellParts>>>
        ensures cells { result.now ≡ cells_in self.now }
        ensures within { AreCellsOfNumbers result.now }
        ensures rows { AreSomeRows result.now }
    {
        self.known();
        &self.parts.second
    }

    /// The cells of which something was reported, each with its place, by rising number, sub-plan
    /// and partition. No keys are copied. An error means that an allocation failed.
    pub fn lent_cells(&self) -> Result<Vec<(CellId, &CellParts)>, AllocError>
        ensures { IfOk result (λ cells. map (λ c. cell_entry c.0 c.1.now) cells.items ≡ cells_of self.now) }
    {
        self.known();
        let mut cells = Vec::new(self.allocator());
        push_numbers(&mut cells, self.parts.second.entries())?;
        Ok(cells)
    }
}
