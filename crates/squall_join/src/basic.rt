//! The greatest number, and a flag.

ghost use Rattle.std.specs.Prelude.{◌≡◌, ◌||◌, max, nat_le, false};
ghost use Rattle.squall_join.specs.Basic.{is_max};
ghost use Rattle.squall_join.specs.BasicLaws.{max_laws, flag_laws};
ghost use Rattle.squall_join.specs.Rests.{max_beyond, flag_covered, flag_beyond};
ghost use Rattle.squall_join.specs.Units.{whole_unit};
ghost use Rattle.squall_join.specs.BeyondLaws.{max_beyond_laws, flag_beyond_laws};

use crate::{Beyond, Join, Whole};
use std::alloc::{AllocError, Global};
use std::marker::Model;

/// A number, of which a join keeps the greatest. The least value is 0.
///
/// Contracts see it as that number.
#[derive(Clone, Copy, Debug, PartialEq, Eq)]
pub struct Max {
    number: u32,
}

impl Model for Max {
    ghost use Rattle.std.specs.Prelude.{ℕ};

    ghost Value = { ℕ };

    ghost view = { λ m. m.number };

    ghost inverse = { λ n. record { number = n } };
}

impl Max {
    /// The value of a number.
    pub fn new(number: u32) -> Max
        ensures { result ≡ number }
    {
        Max { number }
    }

    /// The number.
    pub fn get(self) -> u32
        ensures { result ≡ self }
    {
        self.number
    }
}

impl Join for Max {
    ghost is_value = { is_max };

    ghost bottom = { 0 };

    ghost join = { max };

    ghost laws = { max_laws };

    type Draft = Whole<Max>;

    ghost is_draft = { λ _. Unit {0} };

    ghost before = { λ d. d.before };

    ghost after = { λ d. d.after };

    fn known(&self) {
        let _number = self.number;
    }

    fn bottom(_alloc: Global) -> Max {
        Max { number: 0 }
    }

    fn is_bottom(&self) -> bool {
        self.number == 0
    }

    fn covers(&self, other: &Max) -> bool {
        other.number <= self.number
    }

    fn joined(&self, _alloc: Global, other: &Max) -> Result<Max, AllocError> {
        Ok(Max::new(self.number.max(other.number)))
    }

    fn copied(&self, _alloc: Global) -> Result<Max, AllocError> {
        Ok(*self)
    }

    fn join_in(&mut self, _alloc: Global, other: &Max) -> Result<(), AllocError> {
        self.number = self.number.max(other.number);
        Ok(())
    }

    fn draft_join(&mut self, alloc: Global, other: &Max) -> Result<Whole<Max>, AllocError> {
        let before = *self;
        let after = Max::new(before.number.max(other.number));
        *self = Max::bottom(alloc);
        Ok(Whole { before, after })
    }

    fn keep(draft: Whole<Max>) -> Max {
        draft.after
    }

    fn undo(draft: Whole<Max>) -> Max {
        draft.before
    }
}

impl Beyond for Max {
    ghost covered = { nat_le };

    ghost unit = { whole_unit };

    ghost beyond = { max_beyond };

    ghost beyond_laws = { max_beyond_laws };

    fn beyond(&self, _alloc: Global, other: &Max) -> Result<Max, AllocError> {
        if self.number <= other.number {
            return Ok(Max::new(0));
        }
        Ok(Max::new(self.number))
    }
}

/// A flag, which a join sets if either is set. The least value is `false`.
///
/// Contracts see it as that `bool`.
#[derive(Clone, Copy, Debug, PartialEq, Eq)]
pub struct Flag {
    is_set: bool,
}

impl Model for Flag {
    ghost use Rattle.std.specs.Prelude.{Bool};

    ghost Value = { Bool };

    ghost view = { λ f. f.is_set };

    ghost inverse = { λ b. record { is_set = b } };
}

impl Flag {
    /// The flag that is set as the argument says.
    pub fn new(is_set: bool) -> Flag
        ensures { result ≡ is_set }
    {
        Flag { is_set }
    }

    /// Whether it is set.
    pub fn get(self) -> bool
        ensures { result ≡ self }
    {
        self.is_set
    }
}

impl Join for Flag {
    ghost bottom = { false };

    ghost join = { ◌||◌ };

    ghost laws = { flag_laws };

    type Draft = Whole<Flag>;

    ghost is_draft = { λ _. Unit {0} };

    ghost before = { λ d. d.before };

    ghost after = { λ d. d.after };

    fn known(&self) {}

    fn bottom(_alloc: Global) -> Flag {
        Flag { is_set: false }
    }

    fn is_bottom(&self) -> bool {
        !self.is_set
    }

    fn covers(&self, other: &Flag) -> bool {
        self.is_set | !other.is_set
    }

    fn joined(&self, _alloc: Global, other: &Flag) -> Result<Flag, AllocError> {
        Ok(Flag::new(self.is_set | other.is_set))
    }

    fn copied(&self, _alloc: Global) -> Result<Flag, AllocError> {
        Ok(*self)
    }

    fn join_in(&mut self, _alloc: Global, other: &Flag) -> Result<(), AllocError> {
        self.is_set = self.is_set | other.is_set;
        Ok(())
    }

    fn draft_join(&mut self, alloc: Global, other: &Flag) -> Result<Whole<Flag>, AllocError> {
        let before = *self;
        let after = Flag::new(before.is_set | other.is_set);
        *self = Flag::bottom(alloc);
        Ok(Whole { before, after })
    }

    fn keep(draft: Whole<Flag>) -> Flag {
        draft.after
    }

    fn undo(draft: Whole<Flag>) -> Flag {
        draft.before
    }
}

impl Beyond for Flag {
    ghost covered = { flag_covered };

    ghost unit = { whole_unit };

    ghost beyond = { flag_beyond };

    ghost beyond_laws = { flag_beyond_laws };

    fn beyond(&self, _alloc: Global, other: &Flag) -> Result<Flag, AllocError> {
        Ok(Flag::new(self.is_set & !other.is_set))
    }
}
