//! The courses that a partition knows, and the places of their logs.

ghost use Rattle.std.specs.Prelude.{◌≡◌, ◌<◌, ◌≤◌, ◌+◌, ℕ, None, Some, IfSome, IfNone, MatchOption, is_some};
ghost use Rattle.squall_key.specs.Keys.{part_limit};
ghost use Rattle.squall_course.specs.Change.{Change};
ghost use Rattle.squall_part.specs.Logs.{IsLogAt};
ghost use Rattle.squall_part.specs.Parts.{known_to, course_of_part, opened_at};

use crate::log::place_of;
use crate::part::Part;
use squall_join::Flat;
use std::alloc::Global;

impl Part {
    /// The allocator that the partition was made with.
    pub(crate) fn allocator(&self) -> Global {
        *self.logs.allocator()
    }

    /// Whether it knows the course of the number.
    pub(crate) fn knows(&self, number: u32) -> bool
        ensures { result ≡ is_some (known_to self.now number) }
    {
        if number == self.first.as_arc().number() {
            return true;
        }
        match self.board.issuing(number) {
            Flat::One(_) => true,
            Flat::Unknown | Flat::Clash => false,
        }
    }

    /// The place of the log of the number's course. None if it does not know that course.
    pub(crate) fn known_place(&self, number: u32) -> Option<usize>
        ensures some { IfSome result (λ at. (c : Change) × (known_to self.now number ≡ Some c) × IsLogAt self.now.logs c at) }
        ensures none { IfNone result (known_to self.now number ≡ None) }
    {
        if !self.knows(number) {
            return None;
        }
        self.known();
        place_of(&self.logs, number)
    }

    /// The number of the newest course that it knows.
    pub(crate) fn newest_number(&self) -> u32
        ensures { result ≡ (course_of_part self.now).number }
    {
        match self.board.newest(self.first.as_arc()) {
            Some((number, _)) => number,
            None => self.first.as_arc().number(),
        }
    }

    /// The place of the log of the newest course that it knows.
    pub(crate) fn newest_place(&self) -> usize
        ensures { IsLogAt self.now.logs (course_of_part self.now) result }
    {
        self.known();
        let Some(at) = self.known_place(self.newest_number()) else {
            unreachable!();
        };
        at
    }

    /// How many sub-plans of the number it knows to be opened.
    pub(crate) fn opened(&self, number: u32) -> u32
        ensures count { result ≡ opened_at self.now number }
        ensures limit { result ≤ part_limit }
    {
        self.board.known();
        self.board.opened(number)
    }

    /// The sub-plan of the number that it knows to be opened last. None if none is opened.
    pub(crate) fn current_sub(&self, number: u32) -> Option<u32>
        ensures { MatchOption result (opened_at self.now number ≡ 0) (λ sub. (opened_at self.now number ≡ sub + 1) × (sub < part_limit)) }
    {
        self.opened(number).checked_sub(1)
    }
}
