//! Boards that take what lists of a board hold.

ghost use Rattle.std.specs.Prelude.{◌≡◌, ◌≢◌, ◌≤◌, ◌<◌, ◌++◌, [], List, OnOk, OnErr};
ghost use Rattle.std.specs.Arc.{arc_value};
ghost use Rattle.squall_key.specs.Keys.{part_limit};
ghost use Rattle.squall_join.specs.Flats.{flat_map};
ghost use Rattle.squall_board.specs.Boards.{row_board};
ghost use Rattle.squall_board.specs.Takes.{TakesBoard, TakesCell, TakesCount, TakesIssue};
ghost use Rattle.squall_board.specs.Listed.{entry_value, AreCellsOfParts};

use crate::board::{Board, CellParts};
use crate::cell::Cell;
use crate::opening::Opening;
use crate::update::{Issuing, OwnCell, Row, WholeCell};
use squall_join::{Flat, Join, JoinMap, UpdateAt};
use squall_report::Issue;
use std::alloc::AllocError;
use std::sync::Arc;

impl Board {
    /// Takes the opening: the sub-plans of its number below its count are opened. An error means
    /// that an allocation failed: the board is then unchanged.
    pub fn put_opening(&mut self, opening: &Opening) -> Result<(), AllocError>
        requires number { 1 ≤ opening.now.number }
        requires count { (0 < opening.now.count) × (opening.now.count ≤ part_limit) }
        ensures takes { OnOk result (TakesCount self.old opening.now.number opening.now.count self.new) }
        ensures err { OnErr result (self.new ≡ self.old) }
    {
        self.update_opening(opening.number, opening.count)
    }

    /// Takes what the cell says of its partition. An error means that an allocation failed: the
    /// board is then unchanged.
    pub fn put_cell(&mut self, cell: &Cell) -> Result<(), AllocError>
        ensures takes { OnOk result (TakesCell self.old cell.now.cell (entry_value cell.now) self.new) }
        ensures err { OnErr result (self.new ≡ self.old) }
    {
        self.update_cell(cell.place(), WholeCell { cell })
    }

    /// Takes what the cell says of its partition, and the cell with it. If the board has no cell of
    /// that place, the keys are moved into the board and not copied. An error means that an
    /// allocation failed: the board is then unchanged.
    pub fn take_cell(&mut self, cell: Cell) -> Result<(), AllocError>
        ensures takes { OnOk result (TakesCell self.old cell.cell (entry_value cell) self.new) }
        ensures err { OnErr result (self.new ≡ self.old) }
    {
        self.update_cell(cell.place(), OwnCell { cell })
    }

    /// Takes all that the cells of a row say. The row has the cells of one number and sub-plan, by
    /// partition. It is copied if the board has none there. An error means that an allocation
    /// failed: the board is then unchanged.
    pub fn put_row(
        &mut self,
        number: u32,
        sub: u32,
        row: &JoinMap<u32, CellParts>,
    ) -> Result<(), AllocError>
        requires cells { AreCellsOfParts number sub row.now }
        requires some { row.now ≢ [] }
        ensures takes { OnOk result (TakesBoard self.old (row_board number sub row.now) self.new) }
        ensures err { OnErr result (self.new ≡ self.old) }
    {
        row.known();
        let alloc = self.allocator();
        let at_sub = UpdateAt::new(sub, Row { cells: row });
        self.parts.second.update_at(alloc, number, at_sub)
    }

    /// Takes what is issued under the number, of which nothing is copied. An error means that an
    /// allocation failed, or that the count of the issue's owners is full: the board is then
    /// unchanged.
    pub fn put_issue(&mut self, number: u32, issue: &Flat<Arc<Issue>>) -> Result<(), AllocError>
        requires { 1 ≤ number }
        ensures takes { OnOk result (TakesIssue self.old number (flat_map arc_value issue.now) self.new) }
        ensures err { OnErr result (self.new ≡ self.old) }
    {
        match issue {
            Flat::Unknown => Ok(()),
            Flat::One(issue) => self.update_issue(number, Issuing::One(issue)),
            Flat::Clash => self.update_issue(number, Issuing::Clash),
        }
    }
}
