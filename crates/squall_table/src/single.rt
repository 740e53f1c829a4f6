//! Fast path: one load, alone in a delta or as a report, all of whose keys one move brings. What it
//! touches needs no set.

ghost use Rattle.std.specs.Prelude.{◌≡◌, ℕ, ◌&&◌, true, false, List, [], ◌∷◌, IfSome};
ghost use Rattle.squall_span.specs.Spans.{has, span_has, IsSet};
ghost use Rattle.squall_course.specs.declared.moving.Move.{Move};
ghost use Rattle.squall_course.specs.Moves.{moves_of};
ghost use Rattle.squall_report.specs.Facts.{report_says};
ghost use Rattle.squall_board.specs.Boards.{says};
ghost use Rattle.squall_table.specs.Legs.{MovesRise};
ghost use Rattle.squall_table.specs.Touched.{is_touched};
ghost use Rattle.squall_table.specs.Touching.{brought, touched_by_subs};
ghost use Rattle.squall_table.specs.Patching.{ComesTo};

use crate::routes::first_move;
use squall_board::{CellParts, Delta};
use squall_course::{Course, Move};
use squall_join::JoinMap;
use squall_key::PartId;
use squall_report::{Report, ReportKind};
use squall_span::Span;

/// The one span of a cell that has no other and is not complete.
fn single_span(cell: &CellParts) -> Option<Span>
    ensures span { IfSome result (λ s. cell.now.first ≡ s ∷ []) }
    ensures open { IfSome result (λ s. cell.now.second ≡ false) }
{
    if cell.second.get() || cell.first.len() != 1 {
        return None;
    }
    cell.first.first()
}

/// The one load of sub-plans that tell nothing else: its sub-plan, its partition and its keys.
fn single_load(subs: &[(u32, JoinMap<u32, CellParts>)]) -> Option<(u32, u32, Span)>
    ensures { IfSome result (λ l. (ms : List Move) (k : ℕ) → touched_by_subs ms subs.now k ≡ (span_has l.2 k && brought l.0 l.1 ms k)) }
{
    if subs.len() != 1 {
        return None;
    }
    let parts = subs[0].1.entries();
    if parts.len() != 1 {
        return None;
    }
    let span = single_span(&parts[0].1)?;
    Some((subs[0].0, parts[0].0, span))
}

/// A load all of whose keys one move brings to its cell.
#[derive(Clone, Copy)]
pub(crate) struct Brought {
    pub(crate) span: Span,
    /// The partition to which the move brings them.
    pub(crate) dest: PartId,
}

/// The move that has all keys of the span. `None` if there is no such move.
pub(crate) fn move_of<'a>(moves: &'a [Move], span: Span) -> Option<&'a Move>
    requires { MovesRise 0 moves.now }
    ensures there { IfSome result (λ m. (k : ℕ) → span_has span k ≡ true → brought m.now.sub m.now.dest moves.now k ≡ true) }
    ensures dest { IfSome result (λ m. ComesTo moves.now span m.now.dest) }
{
    let at = first_move(moves, span.lo());
    if at >= moves.len() {
        return None;
    }
    let one = &moves[at];
    if span.lo().rank() < one.span.lo().rank() || one.span.hi().rank() < span.hi().rank() {
        return None;
    }
    Some(one)
}

/// The span with its destination, if one move brings all of its keys to the partition in the
/// sub-plan.
fn brought_there(moves: &[Move], sub: u32, part: u32, span: Span) -> Option<Brought>
    requires { MovesRise 0 moves.now }
    ensures span { IfSome result (λ b. b.span ≡ span) }
    ensures there { IfSome result (λ b. (k : ℕ) → span_has span k ≡ true → brought sub part moves.now k ≡ true) }
    ensures dest { IfSome result (λ b. ComesTo moves.now span b.dest) }
{
    let one = move_of(moves, span)?;
    let dest = one.dest;
    if one.sub == sub && dest.get() == part {
        Some(Brought { span, dest })
    } else {
        None
    }
}

/// The keys that the delta touches, if it tells one load alone under the course's number, and one
/// move brings all keys of that load to its cell. `None` means: use `touched`.
pub(crate) fn touched_load(course: &Course, delta: &Delta) -> Option<Brought>
    ensures set { IfSome result (λ b. IsSet (b.span ∷ [])) }
    ensures keys { IfSome result (λ b. (k : ℕ) → has (b.span ∷ []) k ≡ is_touched course.now (says delta.now) k) }
    ensures dest { IfSome result (λ b. ComesTo (moves_of course.now.old course.now.new) b.span b.dest) }
{
    let subs = delta.cell_map().get(&course.number())?;
    let (sub, part, span) = single_load(subs.entries())?;
    brought_there(course.moves(), sub, part, span)
}

/// The keys that the report touches, if it is a load under the course's number, and one move brings
/// all of its keys to its cell. `None` means: use `touched_by_report`.
pub(crate) fn reported_load(course: &Course, report: &Report) -> Option<Brought>
    ensures set { IfSome result (λ b. IsSet (b.span ∷ [])) }
    ensures keys { IfSome result (λ b. (k : ℕ) → has (b.span ∷ []) k ≡ is_touched course.now (report_says report.now) k) }
    ensures dest { IfSome result (λ b. ComesTo (moves_of course.now.old course.now.new) b.span b.dest) }
{
    let ReportKind::Loaded {
        number,
        sub,
        part,
        span,
    } = report.kind()
    else {
        return None;
    };
    if number != course.number() {
        return None;
    }
    brought_there(course.moves(), sub, part, span)
}
