//! Boards as nested joins.

ghost use Rattle.std.specs.Prelude.{◌≡◌, ◌≢◌, ◌≤◌, ◌<◌, ◌+◌, ◌++◌, ◌∷◌, [], List, ℕ, true, false, nat_lt, IfOk, OnOk, OnErr, IsTrue, ◌↔◌, ◌||◌, option_copied};
ghost use Rattle.std.specs.Arc.{arc_value};
ghost use Rattle.squall_span.specs.Spans.{has};
ghost use Rattle.squall_join.specs.Flats.{flat_map};
ghost use Rattle.squall_join.specs.Pairs.{pair_of};
ghost use Rattle.squall_report.specs.declared.report.ReportKind.{ReportKind};
ghost use Rattle.squall_report.specs.Issues.{PlanPair};
ghost use Rattle.squall_report.specs.Cells.{place_at};
ghost use Rattle.squall_report.specs.Facts.{Fact, LoadedKey, DonePart, OpenedSub, is_fact};
ghost use Rattle.squall_join.specs.declared.flat.Flat.TheVariants.{Unknown};
ghost use Rattle.squall_report.specs.Told.{TellsAll};
ghost use Rattle.squall_board.specs.Boards.{IsBoard, is_nested, HasTaken, openings_in, issues_in, empty_board, cell_bottom, found_in, cell_of};
ghost use Rattle.squall_board.specs.Boards.{opened_count, issued, says, told};
ghost use Rattle.squall_board.specs.Takes.{board_by, TakesReport, TakesReports, TakesBoard};
ghost use Rattle.squall_board.specs.Equal.{is_same_board};
ghost use Rattle.squall_board.specs.EqualLaws.{boards_equal};
ghost use Rattle.squall_board.specs.Route.{route};
ghost use Rattle.std.specs.Cmp.{partial_equiv_from_equiv};

use crate::update::{Completion, Issuing, Load};
use squall_course::Course;
use squall_join::{Flag, Flat, Join, JoinMap, Max, Pair, Shared};
use squall_key::{Key, PartId};
use squall_report::{CellId, Issue, Report, ReportKind};
use squall_span::SpanSet;
use std::alloc::{AllocError, Global};
use std::marker::Model;
use std::sync::Arc;

/// The keys loaded at a partition in a sub-plan, and whether the partition is done.
pub type CellParts = Pair<SpanSet, Flag>;

/// Cells by partition.
type Parts = JoinMap<u32, CellParts>;

/// Cells by sub-plan and partition.
type Subs = JoinMap<u32, Parts>;

/// Cells by number, sub-plan and partition.
type Cells = JoinMap<u32, Subs>;

/// How many sub-plans are opened, by number.
pub(crate) type Openings = JoinMap<u32, Max>;

/// What is issued, by number.
pub(crate) type Issues = JoinMap<u32, Flat<Shared<Issue>>>;

/// What was reported: the sub-plans opened and the plans issued under each number, and what was
/// loaded and is complete at each partition.
///
/// Boards are joined: a board that takes a report, or another board, tells what it told before and
/// what it takes. So boards that have taken the same reports are equal, in whatever order,
/// grouping and repetition.
#[derive(Drop)]
pub struct Board {
    pub(crate) parts: Pair<Pair<Openings, Issues>, Cells>,
}

/// A board that is made to be merged into others.
pub type Delta = Board;

impl Model for Board {
    ghost use Rattle.squall_board.specs.Boards.{BoardValue, IsBoard};

    ghost Value = { BoardValue };

    ghost view = { λ b. b.parts };

    ghost invariant = { λ b. IsBoard b.parts };
}

/// The board of a list of reports.
fn reports_board(alloc: Global, reports: &[Report]) -> Result<Board, AllocError>
    ensures taken { IfOk result (λ b. HasTaken b reports.now) }
    ensures board { IfOk result (λ b. b ≡ board_by reports.now) }
{
    let mut board = Board::new(alloc);
    for report in reports {
        board.take(report)?;
    }
    Ok(board)
}

/// Whether the cell has the key, or is complete.
fn has_or_done(cell: &CellParts, key: Key) -> bool
    ensures { result ≡ (has cell.now.first key || cell.now.second) }
{
    cell.first.has(key) || cell.second.get()
}

/// What the map has at the key, if there is a map.
fn found_in<V: Join>(map: Option<&JoinMap<u32, V>>, key: u32) -> Option<&V>
    ensures { option_copied result ≡ found_in key (option_copied map.entry) }
{
    match map {
        Some(map) => map.get(&key),
        None => None,
    }
}

impl Board {
    /// The board of no report. It allocates nothing.
    pub fn new(alloc: Global) -> Board
        ensures empty { result ≡ empty_board }
        ensures taken { HasTaken result [] }
    {
        let first = Pair::new(JoinMap::empty(alloc), JoinMap::empty(alloc));
        Board {
            parts: Pair::new(first, JoinMap::empty(alloc)),
        }
    }

    /// The allocator that the board was made with.
    pub(crate) fn allocator(&self) -> Global {
        self.parts.second.allocator()
    }

    /// How many sub-plans are opened, by number.
    pub(crate) fn opening_map(&self) -> &Openings
        ensures { result.now ≡ openings_in self.now }
    {
        &self.parts.first.first
    }

    /// What is issued, by number.
    pub(crate) fn issue_map(&self) -> &Issues
        ensures { result.now ≡ issues_in self.now }
    {
        &self.parts.first.second
    }

    /// Changes nothing: after it a proof knows what holds of every board. Its three maps are in
    /// order and without empty parts, its facts lie within the limits of facts, and nothing is
    /// issued under the number 0.
    pub fn known(&self)
        ensures board { IsBoard self.now }
        ensures nested { is_nested self.now }
        ensures facts { (fact : Fact) → says self.now fact ≡ true → is_fact fact ≡ true }
        ensures issues { issued self.now 0 ≡ Unknown }
    {
        let _parts = &self.parts;
    }

    /// Takes a report, in place: a binary search for each level of the cell, and at most one
    /// insertion. An error means that an allocation failed, or that the count of an issue's owners
    /// is full: the board is then unchanged.
    pub fn take(&mut self, report: &Report) -> Result<(), AllocError>
        ensures takes { OnOk result (TakesReport self.old report.now self.new) }
        ensures err { OnErr result (self.new ≡ self.old) }
    {
        match report.kind() {
            ReportKind::Loaded {
                number,
                sub,
                part,
                span,
            } => self.update_cell(CellId::of(number, sub, part), Load { span }),
            ReportKind::Done { number, sub, part } => {
                self.update_cell(CellId::of(number, sub, part), Completion)
            }
            ReportKind::Opened { number, sub } => self.update_opening(number, sub + 1),
            ReportKind::Issued { number, issue } => self.update_issue(number, Issuing::One(issue)),
        }
    }

    /// Takes each report of the list, or none of them. An error means that an allocation failed:
    /// the board is then unchanged.
    pub fn take_all(&mut self, reports: &[Report]) -> Result<(), AllocError>
        ensures takes { OnOk result (TakesReports self.old reports.now self.new) }
        ensures err { OnErr result (self.new ≡ self.old) }
    {
        let delta = reports_board(self.allocator(), reports)?;
        self.merge(&delta)
    }

    /// Takes all that the other board tells. An error means that an allocation failed: the board is
    /// then unchanged.
    pub fn merge(&mut self, other: &Board) -> Result<(), AllocError>
        ensures takes { OnOk result (TakesBoard self.old other.now self.new) }
        ensures err { OnErr result (self.new ≡ self.old) }
    {
        other.known();
        let alloc = self.allocator();
        self.parts.join_in(alloc, &other.parts)
    }

    /// Whether this board tells all that the other tells.
    pub fn covers(&self, other: &Board) -> bool
        ensures { IsTrue result ↔ TellsAll (told self.now) (told other.now) }
    {
        self.known();
        other.known();
        self.parts.covers(&other.parts)
    }

    /// The cell at that number, sub-plan and partition, within limits or not.
    fn found_at(&self, number: u32, sub: u32, part: u32) -> Option<&CellParts>
        ensures { option_copied result ≡ cell_of self.now (place_at number sub part) }
    {
        let subs = self.parts.second.get(&number);
        let parts = found_in(subs, sub);
        found_in(parts, part)
    }

    /// What was reported of the cell, by binary searches. None if nothing was.
    pub fn cell_at(&self, cell: CellId) -> Option<&CellParts>
        ensures { option_copied result ≡ cell_of self.now cell }
    {
        self.found_at(cell.number(), cell.sub(), cell.part().get())
    }

    /// Whether a report said the key loaded at the partition, in that sub-plan of that number.
    pub fn says_loaded(&self, number: u32, sub: u32, part: u32, key: Key) -> bool
        ensures { result ≡ says self.now (LoadedKey (place_at number sub part) key) }
    {
        match self.found_at(number, sub, part) {
            Some(cell) => cell.first.has(key),
            None => false,
        }
    }

    /// Whether a report said the partition done, in that sub-plan of that number.
    pub fn says_done(&self, number: u32, sub: u32, part: u32) -> bool
        ensures { result ≡ says self.now (DonePart (place_at number sub part)) }
    {
        match self.found_at(number, sub, part) {
            Some(cell) => cell.second.get(),
            None => false,
        }
    }

    /// How many sub-plans of that number are opened: those below the result.
    pub fn opened(&self, number: u32) -> u32
        ensures count { result ≡ opened_count self.now number }
        ensures facts { (sub : ℕ) → says self.now (OpenedSub number sub) ≡ nat_lt sub result }
    {
        match self.opening_map().get(&number) {
            Some(count) => count.get(),
            None => 0,
        }
    }

    /// What is issued under that number: nothing, the issue of one pair of plans, or a clash if
    /// different pairs were.
    pub fn issuing(&self, number: u32) -> Flat<&Arc<Issue>>
        ensures { flat_map (λ issue. arc_value issue.now) result ≡ issued self.now number }
    {
        match self.issue_map().get(&number) {
            Some(Flat::One(issue)) => Flat::One(issue.as_arc()),
            Some(Flat::Clash) => Flat::Clash,
            Some(Flat::Unknown) | None => Flat::Unknown,
        }
    }

    /// Whether a report said the key loaded at the partition, or the partition done, in that
    /// sub-plan of that number. It looks up the cell once.
    fn has_come(&self, number: u32, sub: u32, part: u32, key: Key) -> bool
        ensures { result ≡ (says self.now (LoadedKey (place_at number sub part) key) || says self.now (DonePart (place_at number sub part))) }
    {
        match self.found_at(number, sub, part) {
            Some(cell) => has_or_done(cell, key),
            None => false,
        }
    }

    /// The partition to ask for the key while the course runs: the new one if the key does not move
    /// or has come there, and else the old one. A key has come if its load there, or that
    /// partition's completion, was reported for its own sub-plan of the course's number.
    pub fn route(&self, course: &Course, key: Key) -> PartId
        ensures { result ≡ route course.now (says self.now) key }
    {
        let owners = course.owners(key);
        let Some(sub) = owners.sub else {
            return owners.new;
        };
        if self.has_come(course.number(), sub, owners.new.get(), key) {
            owners.new
        } else {
            owners.old
        }
    }

    /// A copy, which tells the same. An error means that an allocation failed.
    pub fn copied(&self, alloc: Global) -> Result<Board, AllocError>
        ensures { IfOk result (λ b. b ≡ self.now) }
    {
        let parts = self.parts.copied(alloc)?;
        Ok(Board { parts })
    }
}

/// Boards are equal if all that they hold is equal, and so if they tell the same.
impl PartialEq for Board {
    ghost eq = { is_same_board };

    ghost laws = { partial_equiv_from_equiv boards_equal };

    fn eq(&self, other: &Board) -> bool {
        self.parts.same(&other.parts)
    }
}

impl Eq for Board {
    ghost laws = { boards_equal };
}
