//! What one board tells beyond another.

ghost use Rattle.std.specs.Prelude.{◌≡◌, IfOk};
ghost use Rattle.squall_report.specs.Told.{TellsAll};
ghost use Rattle.squall_board.specs.Boards.{board_join, empty_board, told};
ghost use Rattle.squall_board.specs.BoardBeyond.{TellsBeyond};

use crate::board::Board;
use squall_join::Beyond;
use std::alloc::{AllocError, Global};

impl Board {
    /// What this board tells beyond the other: the loads and completions that the other lacks, and
    /// each count of openings greater than the other's. It also has what is issued under each
    /// number, unless the other covers it. An error means that an allocation failed, or that the
    /// count of an issue's owners is full.
    pub fn beyond(&self, alloc: Global, other: &Board) -> Result<Board, AllocError>
        ensures told { IfOk result (λ c. TellsBeyond self.now other.now c) }
        ensures joined { IfOk result (λ c. board_join c other.now ≡ board_join self.now other.now) }
        ensures at_most { IfOk result (λ c. TellsAll (told self.now) (told c)) }
    {
        let parts = self.parts.beyond(alloc, &other.parts)?;
        Ok(Board { parts })
    }
}

/// What a board tells beyond another is one board.
pub fn one_beyond(a: &Board, b: &Board, c: &Board, d: &Board)
    ensures { TellsBeyond a.now b.now c.now → TellsBeyond a.now b.now d.now → c.now ≡ d.now }
{
    a.known();
    b.known();
    c.known();
    d.known();
}

/// A board tells nothing beyond a board that covers it.
pub fn beyond_covered_is_empty(a: &Board, b: &Board, c: &Board)
    ensures { TellsAll (told b.now) (told a.now) → TellsBeyond a.now b.now c.now → c.now ≡ empty_board }
{
    a.known();
    b.known();
    c.known();
}
