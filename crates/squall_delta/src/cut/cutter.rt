//! Items are put into pieces, one after the other.

ghost use Rattle.std.specs.Prelude.{◌≡◌, ◌<◌, ◌≤◌, ◌+◌, ◌-◌, ◌*◌, ◌++◌, ◌∷◌, [], map, length, IfOk, OnOk, Some, Err};
ghost use Rattle.std.specs.Arc.{arc_value};
ghost use Rattle.std.specs.List.{flat_map};
ghost use Rattle.squall_join.specs.Flats.{flat_map as flat_with};
ghost use Rattle.squall_board.specs.Listed.{cell_entry};
ghost use Rattle.squall_wire.specs.Limits.{body_limit};
ghost use Rattle.squall_delta.specs.Items.{Item, opening as an_opening, issue as an_issue, done as a_done, loaded as a_load, flag_items};
ghost use Rattle.squall_delta.specs.Items.{items_of_cell};
ghost use Rattle.squall_delta.specs.Cutting.{AreNext, IsFed, HasTooLong, IsMeasured, cut_with, uncut};
ghost use Rattle.squall_delta.specs.Cutting.{turned, roomy, pieces_with, issue_cost, span_bytes, is_last};
ghost use Rattle.squall_delta.specs.declared.cut.fault.CutFault.TheVariants.{TooLong};
ghost use Rattle.squall_delta.specs.PieceStepLaws.{IsFeeding};

use crate::cut::cells::{cell_of, completion};
use crate::cut::fault::CutFault;
use crate::cut::sizes::issue_bytes;
use squall_board::{Board, CellParts, Opening};
use squall_join::Flat;
use squall_report::{CellId, Issue};
use squall_span::Span;
use std::alloc::{AllocError, Global};
use std::mem;
use std::sync::Arc;

/// The bytes of a body without items: the counts of its openings and of its cells.
const EMPTY_BYTES: usize = 8;

/// The bytes of an opening.
const OPENING_BYTES: usize = 8;

/// The bytes of a cell without spans.
const CELL_BYTES: usize = 17;

/// The bytes of a span.
const SPAN_BYTES: usize = 16;

/// A board that is cut: the pieces that are finished, the piece that takes the next items, and
/// what is known of its body.
#[derive(Drop)]
pub(crate) struct Cutter {
    /// The most bytes that the body of a piece may have.
    most: usize,
    finished: Vec<Board>,
    piece: Board,
    /// How many bytes the body of the piece has.
    length: usize,
    /// Whether the piece has an issue.
    has_issues: bool,
    /// The place of the last cell of the piece.
    last: Option<CellId>,
    alloc: Global,
    ghost short: { most ≤ body_limit },
}

impl Cutter {
    /// No piece is finished, and nothing is in the one that takes the next items.
    pub(crate) fn new(alloc: Global, most: usize) -> Cutter
        requires { most ≤ body_limit }
        ensures measured { IsMeasured result.piece result.length result.has_issues result.last }
        ensures uncut { cut_with result.most result.finished.items result.piece ≡ uncut most }
    {
        Cutter {
            most,
            finished: Vec::new(alloc),
            piece: Board::new(alloc),
            length: EMPTY_BYTES,
            has_issues: false,
            last: None,
            alloc,
        }
    }

    /// Finishes the piece, and begins the next.
    fn turn(&mut self) -> Result<(), AllocError>
        ensures measured { OnOk result (IsMeasured self.new.piece self.new.length self.new.has_issues self.new.last) }
        ensures fed { OnOk result (cut_with self.new.most self.new.finished.items self.new.piece
            ≡ turned (cut_with self.old.most self.old.finished.items self.old.piece)) }
    {
        self.finished.reserve(1)?;
        let piece = mem::replace(&mut self.piece, Board::new(self.alloc));
        self.finished.push_reserved(piece);
        self.length = EMPTY_BYTES;
        self.has_issues = false;
        self.last = None;
        Ok(())
    }

    /// Finishes the piece if its body would be too long with `bytes` more bytes.
    fn make_room(&mut self, bytes: usize) -> Result<(), AllocError>
        requires measured { IsMeasured self.old.piece self.old.length self.old.has_issues self.old.last }
        requires few { bytes ≤ 100000 }
        ensures measured { OnOk result (IsMeasured self.new.piece self.new.length self.new.has_issues self.new.last) }
        ensures fed { OnOk result (cut_with self.new.most self.new.finished.items self.new.piece
            ≡ roomy (cut_with self.old.most self.old.finished.items self.old.piece) (self.old.length + bytes)) }
    {
        if self.length + bytes > self.most {
            self.turn()?;
        }
        Ok(())
    }

    /// Looks whether an item has room in a piece of its own, whose body it brings `bytes` bytes.
    fn look(&self, bytes: usize) -> Result<(), CutFault>
        requires few { bytes ≤ 100000 }
        ensures room { OnOk result (8 + bytes ≤ self.now.most) }
        ensures long { result ≡ Err TooLong → self.now.most < 8 + bytes }
    {
        if EMPTY_BYTES + bytes > self.most {
            return Err(CutFault::TooLong);
        }
        Ok(())
    }

    /// Puts an opening into the piece.
    fn put_opening(&mut self, opening: &Opening) -> Result<(), CutFault>
        requires measured { IsMeasured self.old.piece self.old.length self.old.has_issues self.old.last }
        requires next { AreNext self.old.piece (an_opening opening.now ∷ []) }
        ensures measured { OnOk result (IsMeasured self.new.piece self.new.length self.new.has_issues self.new.last) }
        ensures fed { OnOk result (IsFed (cut_with self.old.most self.old.finished.items self.old.piece)
            (cut_with self.new.most self.new.finished.items self.new.piece) (an_opening opening.now ∷ [])) }
        ensures long { result ≡ Err TooLong → HasTooLong self.old.most (an_opening opening.now ∷ []) }
    {
        self.look(OPENING_BYTES)?;
        self.make_room(OPENING_BYTES)?;
        self.piece.put_opening(opening)?;
        self.length += OPENING_BYTES;
        Ok(())
    }

    /// How many bytes the piece's body grows by with an issue of `bytes` bytes. The first issue
    /// brings the count of the issues.
    fn bytes_with_count(&self, bytes: usize) -> usize
        requires { bytes ≤ 98317 }
        ensures { result ≡ issue_cost self.now.has_issues bytes }
    {
        if self.has_issues { bytes } else { bytes + 4 }
    }

    /// Puts what is issued under a number into the piece.
    fn put_issue(&mut self, number: u32, issue: &Flat<Arc<Issue>>) -> Result<(), CutFault>
        requires measured { IsMeasured self.old.piece self.old.length self.old.has_issues self.old.last }
        requires next { AreNext self.old.piece (an_issue (number, flat_with arc_value issue.now) ∷ []) }
        ensures measured { OnOk result (IsMeasured self.new.piece self.new.length self.new.has_issues self.new.last) }
        ensures fed { OnOk result (IsFed (cut_with self.old.most self.old.finished.items self.old.piece)
            (cut_with self.new.most self.new.finished.items self.new.piece) (an_issue (number, flat_with arc_value issue.now) ∷ [])) }
        ensures long { result ≡ Err TooLong → HasTooLong self.old.most (an_issue (number, flat_with arc_value issue.now) ∷ []) }
    {
        let bytes = issue_bytes(issue);
        self.look(bytes + 4)?;
        self.make_room(self.bytes_with_count(bytes))?;
        self.piece.put_issue(number, issue)?;
        self.length += self.bytes_with_count(bytes);
        self.has_issues = true;
        Ok(())
    }

    /// Puts the completion of a cell into the piece.
    fn put_done(&mut self, place: CellId) -> Result<(), CutFault>
        requires measured { IsMeasured self.old.piece self.old.length self.old.has_issues self.old.last }
        requires next { AreNext self.old.piece (a_done place ∷ []) }
        ensures measured { OnOk result (IsMeasured self.new.piece self.new.length self.new.has_issues self.new.last) }
        ensures fed { OnOk result (IsFed (cut_with self.old.most self.old.finished.items self.old.piece)
            (cut_with self.new.most self.new.finished.items self.new.piece) (a_done place ∷ [])) }
        ensures long { result ≡ Err TooLong → HasTooLong self.old.most (a_done place ∷ []) }
    {
        self.look(CELL_BYTES)?;
        self.make_room(CELL_BYTES)?;
        let report = completion(place);
        self.piece.take(&report)?;
        self.length += CELL_BYTES;
        self.last = Some(place);
        Ok(())
    }

    /// Puts the completion of a cell into the piece, if the cell is complete.
    fn put_flag(&mut self, place: CellId, complete: bool) -> Result<(), CutFault>
        requires measured { IsMeasured self.old.piece self.old.length self.old.has_issues self.old.last }
        requires next { AreNext self.old.piece (flag_items place complete) }
        ensures measured { OnOk result (IsMeasured self.new.piece self.new.length self.new.has_issues self.new.last) }
        ensures fed { OnOk result (IsFed (cut_with self.old.most self.old.finished.items self.old.piece)
            (cut_with self.new.most self.new.finished.items self.new.piece) (flag_items place complete)) }
        ensures long { result ≡ Err TooLong → HasTooLong self.old.most (flag_items place complete) }
    {
        if complete {
            return self.put_done(place);
        }
        Ok(())
    }

    /// How many bytes the piece's body grows by with a span of the cell.
    fn bytes_with_cell(&self, place: CellId) -> usize
        ensures { result ≡ span_bytes (is_last self.now.last place) }
    {
        if self.last == Some(place) {
            SPAN_BYTES
        } else {
            CELL_BYTES + SPAN_BYTES
        }
    }

    /// How many spans of the cell the piece has room for.
    fn spans_with_room(&self, place: CellId) -> usize
        requires { self.now.length + span_bytes (is_last self.now.last place) ≤ self.now.most }
        ensures some { 1 ≤ result }
        ensures fit { self.now.length + (span_bytes (is_last self.now.last place) + 16 * (result - 1)) ≤ self.now.most }
    {
        1 + (self.most - self.length - self.bytes_with_cell(place)) / SPAN_BYTES
    }

    /// Puts spans of a cell into the piece, which has room for all of them.
    fn put_run(&mut self, place: CellId, run: &[Span]) -> Result<(), AllocError>
        requires measured { IsMeasured self.old.piece self.old.length self.old.has_issues self.old.last }
        requires next { AreNext self.old.piece (map (a_load place) run.now) }
        requires some { 0 < length run.now }
        requires wide { 41 ≤ self.old.most }
        requires fit { self.old.length + (span_bytes (is_last self.old.last place) + 16 * (length run.now - 1)) ≤ self.old.most }
        ensures measured { OnOk result (IsMeasured self.new.piece self.new.length self.new.has_issues self.new.last) }
        ensures fed { OnOk result (IsFed (cut_with self.old.most self.old.finished.items self.old.piece)
            (cut_with self.new.most self.new.finished.items self.new.piece) (map (a_load place) run.now)) }
    {
        let bytes = self.bytes_with_cell(place) + SPAN_BYTES * (run.len() - 1);
        let cell = cell_of(self.alloc, place, run)?;
        self.piece.take_cell(cell)?;
        self.length += bytes;
        self.last = Some(place);
        Ok(())
    }

    /// Puts as many of the first spans of a cell into a piece as it has room for, at least one, and
    /// gives the others.
    fn put_some<'a>(&mut self, place: CellId, spans: &'a [Span]) -> Result<&'a [Span], AllocError>
        requires measured { IsMeasured self.old.piece self.old.length self.old.has_issues self.old.last }
        requires next { AreNext self.old.piece (map (a_load place) spans.now) }
        requires some { 0 < length spans.now }
        requires wide { 41 ≤ self.old.most }
        ensures measured { OnOk result (IsMeasured self.new.piece self.new.length self.new.has_issues self.new.last) }
        ensures feeding { IfOk result (λ rest. IsFeeding (cut_with self.old.most self.old.finished.items self.old.piece)
            (cut_with self.new.most self.new.finished.items self.new.piece)
            (map (a_load place) spans.now) (map (a_load place) rest.now)) }
        ensures less { IfOk result (λ rest. length rest.now < length spans.now) }
    {
        self.make_room(self.bytes_with_cell(place))?;
        let count = self.spans_with_room(place).min(spans.len());
        let (run, rest) = spans.split_at(count);
        self.put_run(place, run)?;
        Ok(rest)
    }

    /// Puts openings into pieces.
    pub(crate) fn put_openings(&mut self, openings: &[Opening]) -> Result<(), CutFault>
        requires measured { IsMeasured self.old.piece self.old.length self.old.has_issues self.old.last }
        requires next { AreNext self.old.piece (map an_opening openings.now) }
        ensures measured { OnOk result (IsMeasured self.new.piece self.new.length self.new.has_issues self.new.last) }
        ensures fed { OnOk result (IsFed (cut_with self.old.most self.old.finished.items self.old.piece)
            (cut_with self.new.most self.new.finished.items self.new.piece) (map an_opening openings.now)) }
        ensures long { result ≡ Err TooLong → HasTooLong self.old.most (map an_opening openings.now) }
    {
        for opening in openings {
            self.put_opening(opening)?;
        }
        Ok(())
    }

    /// Puts issues into pieces.
    pub(crate) fn put_issues(&mut self, issues: &[(u32, Flat<Arc<Issue>>)]) -> Result<(), CutFault>
        requires measured { IsMeasured self.old.piece self.old.length self.old.has_issues self.old.last }
        requires next { AreNext self.old.piece (map (λ e. an_issue (e.0, flat_with arc_value e.1)) issues.now) }
        ensures measured { OnOk result (IsMeasured self.new.piece self.new.length self.new.has_issues self.new.last) }
        ensures fed { OnOk result (IsFed (cut_with self.old.most self.old.finished.items self.old.piece)
            (cut_with self.new.most self.new.finished.items self.new.piece) (map (λ e. an_issue (e.0, flat_with arc_value e.1)) issues.now)) }
        ensures long { result ≡ Err TooLong → HasTooLong self.old.most (map (λ e. an_issue (e.0, flat_with arc_value e.1)) issues.now) }
    {
        for entry in issues {
            self.put_issue(entry.0, &entry.1)?;
        }
        Ok(())
    }

    /// Puts spans of a cell into pieces, each of which has room for a span.
    fn put_runs(&mut self, place: CellId, spans: &[Span]) -> Result<(), AllocError>
        requires measured { IsMeasured self.old.piece self.old.length self.old.has_issues self.old.last }
        requires next { AreNext self.old.piece (map (a_load place) spans.now) }
        requires wide { 41 ≤ self.old.most }
        ensures measured { OnOk result (IsMeasured self.new.piece self.new.length self.new.has_issues self.new.last) }
        ensures fed { OnOk result (IsFed (cut_with self.old.most self.old.finished.items self.old.piece)
            (cut_with self.new.most self.new.finished.items self.new.piece) (map (a_load place) spans.now)) }
    {
        let mut rest = spans;
        while !rest.is_empty() {
            rest = self.put_some(place, rest)?;
        }
        Ok(())
    }

    /// Puts spans of a cell into pieces.
    fn put_spans(&mut self, place: CellId, spans: &[Span]) -> Result<(), CutFault>
        requires measured { IsMeasured self.old.piece self.old.length self.old.has_issues self.old.last }
        requires next { AreNext self.old.piece (map (a_load place) spans.now) }
        ensures measured { OnOk result (IsMeasured self.new.piece self.new.length self.new.has_issues self.new.last) }
        ensures fed { OnOk result (IsFed (cut_with self.old.most self.old.finished.items self.old.piece)
            (cut_with self.new.most self.new.finished.items self.new.piece) (map (a_load place) spans.now)) }
        ensures long { result ≡ Err TooLong → HasTooLong self.old.most (map (a_load place) spans.now) }
    {
        if spans.is_empty() {
            return Ok(());
        }
        self.look(CELL_BYTES + SPAN_BYTES)?;
        self.put_runs(place, spans)?;
        Ok(())
    }

    /// Puts a cell into pieces: its completion, and each of its spans.
    fn put_cell(&mut self, place: CellId, cell: &CellParts) -> Result<(), CutFault>
        requires measured { IsMeasured self.old.piece self.old.length self.old.has_issues self.old.last }
        requires next { AreNext self.old.piece (items_of_cell (cell_entry place cell.now)) }
        ensures measured { OnOk result (IsMeasured self.new.piece self.new.length self.new.has_issues self.new.last) }
        ensures fed { OnOk result (IsFed (cut_with self.old.most self.old.finished.items self.old.piece)
            (cut_with self.new.most self.new.finished.items self.new.piece) (items_of_cell (cell_entry place cell.now))) }
        ensures long { result ≡ Err TooLong → HasTooLong self.old.most (items_of_cell (cell_entry place cell.now)) }
    {
        self.put_flag(place, cell.second.get())?;
        let list = cell.first.list(self.alloc)?;
        self.put_spans(place, list.spans())
    }

    /// Puts cells into pieces.
    pub(crate) fn put_cells(&mut self, cells: &[(CellId, &CellParts)]) -> Result<(), CutFault>
        requires measured { IsMeasured self.old.piece self.old.length self.old.has_issues self.old.last }
        requires next { AreNext self.old.piece (flat_map (λ c. items_of_cell (cell_entry c.0 c.1.now)) cells.now) }
        ensures measured { OnOk result (IsMeasured self.new.piece self.new.length self.new.has_issues self.new.last) }
        ensures fed { OnOk result (IsFed (cut_with self.old.most self.old.finished.items self.old.piece)
            (cut_with self.new.most self.new.finished.items self.new.piece) (flat_map (λ c. items_of_cell (cell_entry c.0 c.1.now)) cells.now)) }
        ensures long { result ≡ Err TooLong → HasTooLong self.old.most (flat_map (λ c. items_of_cell (cell_entry c.0 c.1.now)) cells.now) }
    {
        for cell in cells {
            self.put_cell(cell.0, cell.1)?;
        }
        Ok(())
    }

    /// The pieces, with the one that took the last items.
    pub(crate) fn finish(mut self) -> Result<Vec<Board>, AllocError>
        requires { IsMeasured self.piece self.length self.has_issues self.last }
        ensures { IfOk result (λ ps. ps.items ≡ pieces_with (cut_with self.most self.finished.items self.piece)) }
    {
        if self.length > EMPTY_BYTES {
            self.turn()?;
        }
        Ok(self.finished)
    }
}
