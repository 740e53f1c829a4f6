//! Which deltas are small.

ghost use Rattle.std.specs.Prelude.{◌≡◌, [], ◌∷◌, IfSome};
ghost use Rattle.squall_board.specs.Boards.{cells_in};

use squall_board::{CellParts, Delta};

/// The most spans of a cell that count as few.
const FEW: usize = 4;

/// A cell of a delta: the number of its reconfiguration, its sub-plan, its partition, and what is
/// reported of it.
#[derive(Clone, Copy)]
pub(crate) struct OneCell<'a> {
    pub(crate) number: u32,
    pub(crate) sub: u32,
    pub(crate) part: u32,
    pub(crate) cell: &'a CellParts,
}

/// The item of a list of one. `None` for other lists.
fn only<T>(list: &[T]) -> Option<&T>
    ensures { IfSome result (λ item. list.now ≡ item.now ∷ []) }
{
    if list.len() == 1 { list.first() } else { None }
}

/// The cell of a delta of one cell with few spans. `None` for other deltas.
///
/// To take such a delta is faster than to compare it with what a board has. A delta that is taken
/// twice changes nothing, so any cell may be left out here.
pub(crate) fn few_spans(delta: &Delta) -> Option<OneCell<'_>>
    ensures { IfSome result (λ one. cells_in delta.now ≡ (one.number, (one.sub, (one.part, one.cell.now) ∷ []) ∷ []) ∷ []) }
{
    let (number, subs) = only(delta.cell_map().entries())?;
    let (sub, parts) = only(subs.entries())?;
    let (part, cell) = only(parts.entries())?;
    if cell.first.len() > FEW {
        return None;
    }
    Some(OneCell {
        number: *number,
        sub: *sub,
        part: *part,
        cell,
    })
}
