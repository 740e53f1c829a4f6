//! How far a course has come.

ghost use Rattle.std.specs.Prelude.{◌≡◌, ◌↔◌, ℕ, ◌≤◌, IfOk};
ghost use Rattle.squall_key.specs.Keys.{top};
ghost use Rattle.squall_board.specs.Boards.{says};
ghost use Rattle.squall_status.specs.News.{IsStatusBefore};
ghost use Rattle.squall_status.specs.Steps.{open_of};
ghost use Rattle.squall_status.specs.Summary.{thousandths, IsStatusOf};

use crate::moving::{move_statuses, sum_keys, sum_loaded};
use crate::progress::MoveStatus;
use crate::renewed::{renewed_moves, renewed_subplans};
use crate::subplan::{SubplanStatus, subplan_statuses};
use squall_board::Board;
use squall_course::Course;
use std::alloc::{AllocError, Global};
use std::marker::Model;

/// How far a course has come, as a board says.
///
/// Contracts see it as the number of the course, and the statuses of its moves and of its
/// sub-plans. They also see the sub-plan that is open, how many keys move, and how many of them are
/// loaded.
#[derive(Drop)]
pub struct CourseStatus {
    number: u32,
    moves: Vec<MoveStatus>,
    subplans: Vec<SubplanStatus>,
    open_sub: Option<u32>,
    keys: u64,
    loaded: u64,
}

impl Model for CourseStatus {
    ghost use Rattle.std.specs.Prelude.{◌≤◌};
    ghost use Rattle.squall_key.specs.Keys.{top};
    ghost use Rattle.squall_status.specs.Summary.{StatusValue};

    ghost Value = { StatusValue };

    ghost view = { λ s. record {
      number = s.number;
      moves = s.moves.items;
      subplans = s.subplans.items;
      open_sub = s.open_sub;
      keys = s.keys;
      loaded = s.loaded;
    } };

    ghost invariant = { λ s. (s.loaded ≤ s.keys) × (s.keys ≤ top) };
}

/// The last one opened of `subplans` sub-plans, if `opened` are opened.
fn open_of(opened: u32, subplans: u32) -> Option<u32>
    ensures { result ≡ open_of opened subplans }
{
    opened.min(subplans).checked_sub(1)
}

impl CourseStatus {
    /// How far the course has come, as the board says. It walks over the moves, and over the spans
    /// of their cells that touch them. An error means that an allocation failed.
    pub fn of(alloc: Global, course: &Course, board: &Board) -> Result<CourseStatus, AllocError>
        ensures { IfOk result (λ s. IsStatusOf course.now (says board.now) s) }
    {
        let moves = move_statuses(alloc, course, board)?;
        let subplans = subplan_statuses(alloc, course, board)?;
        let number = course.number();
        let open_sub = open_of(board.opened(number), course.subplans());
        let keys = sum_keys(&moves);
        let loaded = sum_loaded(&moves);
        Ok(CourseStatus {
            number,
            moves,
            subplans,
            open_sub,
            keys,
            loaded,
        })
    }

    /// How far the course has come after news, as `board` says: the board of this status with the news
    /// joined in. Only moves and sub-plans are looked up of which there are news. An error means that
    /// an allocation failed.
    pub fn renewed(
        &self,
        alloc: Global,
        course: &Course,
        news: &Board,
        board: &Board,
    ) -> Result<CourseStatus, AllocError>
        requires before { IsStatusBefore course.now (says news.now) (says board.now) self.now }
        ensures { IfOk result (λ s. IsStatusOf course.now (says board.now) s) }
    {
        let moves = renewed_moves(alloc, course, &self.moves, news, board)?;
        let subplans = renewed_subplans(alloc, course, &self.subplans, news, board)?;
        let open_sub = open_of(board.opened(self.number), course.subplans());
        let loaded = sum_loaded(&moves);
        Ok(CourseStatus {
            number: self.number,
            moves,
            subplans,
            open_sub,
            keys: self.keys,
            loaded,
        })
    }

    /// The number of the course.
    pub fn number(&self) -> u32
        ensures { result ≡ self.now.number }
    {
        self.number
    }

    /// How far each move has come, by rising key.
    pub fn moves(&self) -> &[MoveStatus]
        ensures { result.now ≡ self.now.moves }
    {
        &self.moves
    }

    /// How far each sub-plan has come, by rising number.
    pub fn subplans(&self) -> &[SubplanStatus]
        ensures { result.now ≡ self.now.subplans }
    {
        &self.subplans
    }

    /// The sub-plan that is open: the one of the course that was opened last. None if none is
    /// opened.
    pub fn open_subplan(&self) -> Option<u32>
        ensures { result ≡ self.now.open_sub }
    {
        self.open_sub
    }

    /// How many keys move.
    pub fn keys(&self) -> u64
        ensures value { result ≡ self.now.keys }
        ensures most { result ≤ top }
    {
        self.keys
    }

    /// How many of the keys that move are loaded.
    pub fn loaded(&self) -> u64
        ensures value { result ≡ self.now.loaded }
        ensures most { result ≤ self.now.keys }
    {
        self.loaded
    }

    /// The share of the keys that are loaded, in whole thousandths, rounded down. 1000 exactly if
    /// all are loaded, as they are if no key moves.
    pub fn thousandths(&self) -> u32
        ensures value { result ≡ thousandths self.now.loaded self.now.keys }
        ensures whole { (result ≡ 1000) ↔ (self.now.loaded ≡ self.now.keys) }
        ensures most { result ≤ 1000 }
    {
        if self.keys == 0 {
            return 1000;
        }
        (u128::from(self.loaded) * 1000 / u128::from(self.keys)) as u32
    }
}
