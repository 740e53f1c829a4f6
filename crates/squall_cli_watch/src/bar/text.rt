//! The text of a bar.

ghost use Rattle.std.specs.Prelude.{◌≡◌, ◌≤◌, IfOk, string_bytes};
ghost use Rattle.squall_cli_watch.specs.Bars.{counts_text, bar_text};

use std::alloc::{AllocError, Global};

/// The cells of a bar that is full.
const FULL: &[u8] = b"####################";

/// The cells of a bar that is empty.
const EMPTY: &[u8] = b"....................";

/// How many thousandths one cell is.
const CELL: u32 = 50;

/// How far a course has come.
#[derive(Clone, Copy, Debug, PartialEq, Eq)]
pub struct Bar {
    /// The mean of the shares of the moves that are loaded, in thousandths.
    pub share: u32,
    /// How many moves are complete.
    pub complete: usize,
    /// How many moves there are.
    pub moves: usize,
    /// How many sub-plans have ended.
    pub ended: usize,
    /// How many sub-plans there are.
    pub subplans: usize,
}

/// The share and the counts beside the cells.
fn counts_text(alloc: Global, bar: &Bar) -> Result<String, AllocError>
    ensures { IfOk result (λ text. string_bytes text ≡ counts_text bar.now) }
{
    let share = bar.share;
    let complete = bar.complete;
    let moves = bar.moves;
    let ended = bar.ended;
    let subplans = bar.subplans;
    format!(in alloc;
        "] {share}/1000, moves {complete} of {moves}, sub-plans {ended} of {subplans}"
    )
}

/// The text of the bar, which begins with a CR. It has less than 80 columns if there are fewer than
/// ten thousand moves, as there always are.
pub fn bar_text(alloc: Global, bar: &Bar) -> Result<Vec<u8>, AllocError>
    requires { bar.now.share ≤ 1000 }
    ensures { IfOk result (λ text. text.items ≡ bar_text bar.now) }
{
    let full = (bar.share / CELL) as usize;
    let counts = counts_text(alloc, bar)?;
    let mut text = Vec::from_slice(alloc, b"\r[")?;
    text.extend_from_slice(&FULL[..full])?;
    text.extend_from_slice(&EMPTY[full..])?;
    text.extend_from_slice(counts.as_bytes())?;
    Ok(text)
}
