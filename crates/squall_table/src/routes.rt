//! The legs of a route by the moves of a course.

ghost use Rattle.std.specs.Prelude.{◌≡◌, ℕ, ◌≤◌, OnOk, IfOk, option_copied};
ghost use Rattle.squall_key.specs.Keys.{top};
ghost use Rattle.squall_plan.specs.Ranges.{owner_of, IsCanonical};
ghost use Rattle.squall_report.specs.Cells.{place_at};
ghost use Rattle.squall_board.specs.Boards.{says};
ghost use Rattle.squall_board.specs.MovesRoute.{has_come_to, cell_has_come, route_in_move};
ghost use Rattle.squall_table.specs.Legs.{Grows, pick, MovesRise, FirstMove, EndMove, said, route_told};

use crate::legs::{copy_legs, push_leg};
use crate::table::Leg;
use squall_board::laws::coming_by_the_cell;
use squall_board::{Board, CellParts};
use squall_course::Move;
use squall_key::{Bound, PartId, ended};
use squall_report::CellId;
use squall_span::SpanSet;
use std::alloc::AllocError;

/// What is heard of the keys of moves.
#[derive(Clone, Copy)]
pub(crate) enum Heard<'a> {
    /// What the board has.
    Board(&'a Board),
    /// That each of them has come.
    All,
}

/// Makes room for the legs of a set of many spans, if it begins among the keys from `lo` to `hi`. It
/// reserves two legs a span, so a list that becomes long is not copied again and again. It does
/// nothing if the spans are few.
fn make_room(out: &mut Vec<Leg>, set: &SpanSet, lo: Bound, hi: Bound) -> Result<(), AllocError>
    ensures { out.new.items ≡ out.old.items }
{
    let Some(first) = set.first() else {
        return Ok(());
    };
    let count = set.len();
    if count < 64 || first.lo() < lo || hi <= first.lo() {
        return Ok(());
    }
    out.reserve(count.saturating_mul(2))
}

/// Adds the keys from `lo` to `hi`: those of the set to `dest`, the others to `source`.
fn push_picked(
    out: &mut Vec<Leg>,
    set: &SpanSet,
    dest: PartId,
    source: PartId,
    lo: Bound,
    hi: Bound,
) -> Result<(), AllocError>
    requires { lo ≤ hi }
    ensures { OnOk result (Grows (pick set.now dest source) lo hi out.old.items out.new.items) }
{
    let mut reach = lo;
    for span in set.spans_beyond(lo) {
        if hi.rank() <= span.lo().rank() {
            push_leg(out, reach, hi, source)?;
            return Ok(());
        }
        let start = span.lo().max(reach);
        push_leg(out, reach, start, source)?;
        reach = span.hi().min(hi);
        push_leg(out, start, reach, dest)?;
    }
    push_leg(out, reach, hi, source)?;
    Ok(())
}

/// What the board has of the cell to which a move goes.
fn cell_of_move<'a>(board: &'a Board, number: u32, moved: &Move) -> Option<&'a CellParts>
    ensures { (k : ℕ) → has_come_to (says board.now) (place_at number moved.now.sub moved.now.dest) k ≡ cell_has_come (option_copied result) k }
{
    board.known();
    coming_by_the_cell(board);
    match CellId::new(number, moved.sub, moved.dest.get()) {
        Some(cell) => board.cell_at(cell),
        None => None,
    }
}

/// Adds the keys from `lo` to `hi` of a move.
fn push_move(
    out: &mut Vec<Leg>,
    moved: &Move,
    number: u32,
    heard: Heard,
    lo: Bound,
    hi: Bound,
) -> Result<(), AllocError>
    requires { lo ≤ hi }
    ensures { OnOk result (Grows (route_in_move number (said heard.entry) moved.now) lo hi out.old.items out.new.items) }
{
    let board = match heard {
        Heard::Board(board) => board,
        Heard::All => return push_leg(out, lo, hi, moved.dest),
    };
    let Some(cell) = cell_of_move(board, number, moved) else {
        return push_leg(out, lo, hi, moved.source);
    };
    if cell.second.get() {
        return push_leg(out, lo, hi, moved.dest);
    }
    let set = &cell.first;
    make_room(out, set, lo, hi)?;
    push_picked(out, set, moved.dest, moved.source, lo, hi)
}

/// Index of the first move that ends beyond `bound`, by a search without a branch on it.
pub(crate) fn first_move(moves: &[Move], bound: Bound) -> usize
    requires { MovesRise 0 moves.now }
    ensures { FirstMove moves.now bound result }
{
    ended(moves, bound)
}

/// What decides the route of each key. For a key of a move it is the course's number, the move, and
/// what is heard of its keys. For a key of no move it is the legs.
#[derive(Clone, Copy)]
pub(crate) struct Routes<'a> {
    pub(crate) legs: &'a [Leg],
    pub(crate) moves: &'a [Move],
    pub(crate) number: u32,
    pub(crate) heard: Heard<'a>,
}

/// Adds the keys from `lo` to `hi` by their routes. `first` is the index of the first move that
/// ends beyond `lo`. The result is the index after the last move that begins below `hi`. After an
/// error the list may have changed.
pub(crate) fn push_routes(
    out: &mut Vec<Leg>,
    routes: Routes,
    first: usize,
    lo: Bound,
    hi: Bound,
) -> Result<usize, AllocError>
    requires canonical { IsCanonical routes.legs.now }
    requires rise { MovesRise 0 routes.moves.now }
    requires first { FirstMove routes.moves.now lo first }
    requires order { lo ≤ hi }
    ensures grows { OnOk result (Grows (route_told routes.entry) lo hi out.old.items out.new.items) }
    ensures end { IfOk result (EndMove routes.entry.moves.now hi first) }
{
    let moves = routes.moves;
    let mut reach = lo;
    let mut at = first;
    while at < moves.len() && moves[at].span.lo().rank() < hi.rank() {
        let moved = moves[at];
        let start = moved.span.lo().max(reach);
        copy_legs(out, routes.legs, reach, start)?;
        reach = moved.span.hi().min(hi);
        push_move(out, &moved, routes.number, routes.heard, start, reach)?;
        at += 1;
    }
    copy_legs(out, routes.legs, reach, hi)?;
    Ok(at)
}
