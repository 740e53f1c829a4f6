//! Boards of one report, and of what one board tells beyond another.

ghost use Rattle.std.specs.Prelude.{◌≡◌, ◌∷◌, [], IfOk};
ghost use Rattle.squall_report.specs.Told.{SameTold, TellsAll, told_by_report};
ghost use Rattle.squall_board.specs.Boards.{HasTaken, board_join, report_board, told};
ghost use Rattle.squall_board.specs.BoardBeyond.{TellsBeyond};

use squall_board::{Board, Delta};
use squall_report::Report;
use std::alloc::{AllocError, Global};

/// The board that has taken the report alone. An error means that an allocation failed, or that the
/// count of an issue's owners is full.
pub fn delta_of(alloc: Global, report: &Report) -> Result<Delta, AllocError>
    ensures value { IfOk result (λ d. d ≡ report_board report.now) }
    ensures told { IfOk result (λ d. SameTold (told d) (told_by_report report.now)) }
    ensures taken { IfOk result (λ d. HasTaken d (report.now ∷ [])) }
{
    let mut delta = Board::new(alloc);
    delta.take(report)?;
    // The proof learns that the delta is a board and the report one within its limits, so that what
    // the delta tells is all that it is.
    delta.known();
    let _kind = report.kind();
    Ok(delta)
}

/// What board `a` tells beyond board `b`: the loads and completions that `b` lacks, and each count
/// of openings greater than that of `b`. It also has what is issued under each number, unless `b`
/// covers it. An error means that an allocation failed, or that the count of an issue's owners is
/// full.
pub fn beyond(alloc: Global, a: &Board, b: &Board) -> Result<Delta, AllocError>
    ensures told { IfOk result (λ c. TellsBeyond a.now b.now c) }
    ensures joined { IfOk result (λ c. board_join c b.now ≡ board_join a.now b.now) }
    ensures at_most { IfOk result (λ c. TellsAll (told a.now) (told c)) }
{
    a.beyond(alloc, b)
}
