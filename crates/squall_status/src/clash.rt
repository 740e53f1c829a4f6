//! Issues that clash.

ghost use Rattle.std.specs.Prelude.{◌≡◌, ◌↔◌, map, IfOk, IsTrue};
ghost use Rattle.std.specs.Arc.{arc_value};
ghost use Rattle.squall_join.specs.Flats.{flat_map};
ghost use Rattle.squall_board.specs.Boards.{issued};
ghost use Rattle.squall_status.specs.Tallies.{clash_above, has_clash_above, HasClashAbove};

use squall_board::Board;
use squall_join::Flat;
use squall_report::Issue;
use std::alloc::AllocError;
use std::sync::Arc;

/// What a board lists of a number: the number, and what is issued under it.
type Entry = (u32, Flat<Arc<Issue>>);

/// Whether the entry is a clash under a number above `low`.
fn is_clash_above(entry: &Entry, low: u32) -> bool
    ensures { result ≡ clash_above low (entry.now.0, flat_map arc_value entry.now.1) }
{
    match &entry.1 {
        Flat::Clash => low < entry.0,
        Flat::Unknown | Flat::One(_) => false,
    }
}

/// Whether some entry is a clash under a number above `low`.
fn has_clash_above(entries: &[Entry], low: u32) -> bool
    ensures { result ≡ has_clash_above low (map (λ e. (e.0, flat_map arc_value e.1)) entries.now) }
{
    for entry in entries {
        if is_clash_above(entry, low) {
            return true;
        }
    }
    false
}

/// Whether different pairs of plans were issued under some number above `low`. It fails only if an
/// allocation fails, or if the count of an issue's owners is full.
pub fn clashes_above(board: &Board, low: u32) -> Result<bool, AllocError>
    ensures { IfOk result (λ clashes. IsTrue clashes ↔ HasClashAbove (issued board.now) low) }
{
    let entries = board.issues()?;
    Ok(has_clash_above(&entries, low))
}
