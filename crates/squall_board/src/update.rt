//! What boards take in place: loads, completions, whole cells, openings and issues.

ghost use Rattle.std.specs.Prelude.{◌≡◌, ◌≢◌, ◌≤◌, ◌<◌, ◌++◌, ◌∷◌, [], List, true, false, OnOk, OnErr};
ghost use Rattle.std.specs.Arc.{arc_value};
ghost use Rattle.squall_key.specs.Keys.{part_limit};
ghost use Rattle.squall_join.specs.Pairs.{pair_of};
ghost use Rattle.squall_board.specs.Boards.{cell_board, opening_board, issue_board};
ghost use Rattle.squall_board.specs.Takes.{TakesBoard};
ghost use Rattle.squall_board.specs.Listed.{entry_value};
ghost use Rattle.squall_board.specs.Updates.{issuing_value};

use crate::board::{Board, CellParts};
use crate::cell::Cell;
use squall_join::{Flag, Flat, Join, JoinMap, Max, Pair, Shared, Update, UpdateAt};
use squall_report::{CellId, Issue};
use squall_span::{Span, SpanSet};
use std::alloc::{AllocError, Global};
use std::sync::Arc;

/// A load of a cell: the keys of a span.
#[derive(Clone, Copy)]
pub(crate) struct Load {
    pub(crate) span: Span,
}

impl Update<CellParts> for Load {
    ghost value = { λ load. pair_of (load.span ∷ []) false };

    fn known(&self) {
        let _bounds = (self.span.lo(), self.span.hi());
    }

    fn build(self, alloc: Global) -> Result<CellParts, AllocError> {
        let keys = SpanSet::of(alloc, &self.span)?;
        Ok(Pair::new(keys, Flag::new(false)))
    }

    fn apply(self, _alloc: Global, target: &mut CellParts) -> Result<(), AllocError> {
        target.first.insert(self.span)
    }
}

/// The completion of a cell's partition.
#[derive(Clone, Copy)]
pub(crate) struct Completion;

impl Update<CellParts> for Completion {
    ghost value = { λ _. pair_of [] true };

    fn known(&self) {}

    fn build(self, alloc: Global) -> Result<CellParts, AllocError> {
        Ok(Pair::new(SpanSet::empty(alloc), Flag::new(true)))
    }

    fn apply(self, alloc: Global, target: &mut CellParts) -> Result<(), AllocError> {
        target.second.join_in(alloc, &Flag::new(true))
    }
}

/// All that a cell says.
#[derive(Clone, Copy)]
pub(crate) struct WholeCell<'a> {
    pub(crate) cell: &'a Cell,
}

impl<'a> Update<CellParts> for WholeCell<'a> {
    ghost value = { λ whole. entry_value whole.cell.now };

    fn known(&self) {
        self.cell.known();
    }

    fn build(self, alloc: Global) -> Result<CellParts, AllocError> {
        let keys = self.cell.spans().copied(alloc)?;
        Ok(Pair::new(keys, Flag::new(self.cell.complete())))
    }

    fn apply(self, alloc: Global, target: &mut CellParts) -> Result<(), AllocError> {
        target.first.join_in(alloc, self.cell.spans())?;
        target.second = Flag::new(target.second.get() || self.cell.complete());
        Ok(())
    }
}

/// A cell that is given away, and all that it says.
#[derive(Drop)]
pub(crate) struct OwnCell {
    pub(crate) cell: Cell,
}

impl Update<CellParts> for OwnCell {
    ghost value = { λ own. entry_value own.cell };

    fn known(&self) {
        self.cell.known();
    }

    fn build(self, _alloc: Global) -> Result<CellParts, AllocError> {
        let complete = self.cell.complete();
        Ok(Pair::new(self.cell.into_spans(), Flag::new(complete)))
    }

    fn apply(self, alloc: Global, target: &mut CellParts) -> Result<(), AllocError> {
        let cell = &self.cell;
        WholeCell { cell }.apply(alloc, target)
    }
}

/// A row: all cells of one number and sub-plan.
#[derive(Clone, Copy)]
pub(crate) struct Row<'a> {
    pub(crate) cells: &'a JoinMap<u32, CellParts>,
    ghost some: { cells.now ≢ [] },
}

impl<'a> Update<JoinMap<u32, CellParts>> for Row<'a> {
    ghost value = { λ row. row.cells.now };

    fn known(&self) {
        self.cells.known();
    }

    fn build(self, alloc: Global) -> Result<JoinMap<u32, CellParts>, AllocError> {
        self.cells.copied(alloc)
    }

    fn apply(self, alloc: Global, target: &mut JoinMap<u32, CellParts>) -> Result<(), AllocError> {
        target.join_in(alloc, self.cells)
    }
}

/// How many sub-plans are opened: one or more.
#[derive(Clone, Copy)]
struct Opened {
    count: u32,
    ghost some: { 0 < count },
}

impl Update<Max> for Opened {
    ghost value = { λ opened. opened.count };

    fn known(&self) {
        let _count = self.count;
    }

    fn build(self, _alloc: Global) -> Result<Max, AllocError> {
        Ok(Max::new(self.count))
    }

    fn apply(self, alloc: Global, target: &mut Max) -> Result<(), AllocError> {
        target.join_in(alloc, &Max::new(self.count))
    }
}

/// What is issued under a number: one pair of plans, or different pairs.
#[derive(Clone, Copy)]
pub(crate) enum Issuing<'a> {
    One(&'a Arc<Issue>),
    Clash,
}

impl<'a> Update<Flat<Shared<Issue>>> for Issuing<'a> {
    ghost value = { issuing_value };

    fn known(&self) {}

    fn build(self, _alloc: Global) -> Result<Flat<Shared<Issue>>, AllocError> {
        match self {
            Issuing::One(issue) => Ok(Flat::One(Shared::new(Arc::try_clone(issue)?))),
            Issuing::Clash => Ok(Flat::Clash),
        }
    }

    fn apply(self, alloc: Global, target: &mut Flat<Shared<Issue>>) -> Result<(), AllocError> {
        let value = self.build(alloc)?;
        target.join_in(alloc, &value)
    }
}

impl Board {
    /// Joins an update into a cell, or inserts the value of the update if there was none.
    pub(crate) fn update_cell<U: Update<CellParts>>(
        &mut self,
        cell: CellId,
        update: U,
    ) -> Result<(), AllocError>
        ensures takes { OnOk result (TakesBoard self.old (cell_board cell (U.value update)) self.new) }
        ensures err { OnErr result (self.new ≡ self.old) }
    {
        update.known();
        cell.known();
        let alloc = self.allocator();
        let at_sub = UpdateAt::new(cell.sub(), UpdateAt::new(cell.part().get(), update));
        self.parts.second.update_at(alloc, cell.number(), at_sub)
    }

    /// Takes an opening: the sub-plans of the number below the count are opened.
    pub(crate) fn update_opening(&mut self, number: u32, count: u32) -> Result<(), AllocError>
        requires number { 1 ≤ number }
        requires count { (0 < count) × (count ≤ part_limit) }
        ensures takes { OnOk result (TakesBoard self.old (opening_board number count) self.new) }
        ensures err { OnErr result (self.new ≡ self.old) }
    {
        let alloc = self.allocator();
        let opened = Opened { count };
        self.parts.first.first.update_at(alloc, number, opened)
    }

    /// Takes what is issued under the number.
    pub(crate) fn update_issue(
        &mut self,
        number: u32,
        issuing: Issuing<'_>,
    ) -> Result<(), AllocError>
        requires { 1 ≤ number }
        ensures takes { OnOk result (TakesBoard self.old (issue_board number (issuing_value issuing.entry)) self.new) }
        ensures err { OnErr result (self.new ≡ self.old) }
    {
        let alloc = self.allocator();
        self.parts.first.second.update_at(alloc, number, issuing)
    }
}
