//! Searches among the ends of entries, and among those of blocks.

ghost use Rattle.std.specs.Prelude.{◌≡◌, ℕ, ◌+◌, ◌-◌, ◌<◌, ◌≤◌, length, slice_index};
ghost use Rattle.squall_key.specs.Search.{Rises, IsSought};
ghost use Rattle.squall_blocks.specs.Blocks.{IsNear};

use squall_key::{Bound, Ends};
use std::marker::Model;

/// A bound at which an entry or a block ends.
#[derive(Clone, Copy)]
pub(crate) struct End {
    pub(crate) bound: Bound,
}

impl Model for End {
    ghost use Rattle.std.specs.Prelude.{ℕ};

    ghost Value = { ℕ };

    ghost view = { λ e. e.bound };

    ghost inverse = { λ n. record { bound = n } };
}

impl Ends for End {
    ghost end = { λ e. e };

    fn end(&self) -> Bound {
        self.bound
    }
}

/// How many ends lie at the key or before it.
#[inline(always)]
pub(crate) fn ended(ends: &[End], key: Bound) -> usize
    requires { Rises (slice_index ends.now) (length ends.now) }
    ensures { IsSought (slice_index ends.now) (length ends.now) key result 0 }
{
    squall_key::ended(ends, key)
}

/// The block to look into for a key: the first that ends beyond it, or the last.
pub(crate) fn near(lasts: &[End], key: Bound) -> usize
    requires rise { Rises (slice_index lasts.now) (length lasts.now) }
    requires some { 0 < length lasts.now }
    ensures { IsNear lasts.now key result }
{
    ended(lasts, key).min(lasts.len() - 1)
}

/// The block to look into for a key, if all blocks before `first` end at the key or before it. If
/// that block has the key, no search is needed.
pub(crate) fn near_from(lasts: &[End], first: usize, key: Bound) -> usize
    requires rise { Rises (slice_index lasts.now) (length lasts.now) }
    requires within { first < length lasts.now }
    requires before { (j : ℕ) → j < first → slice_index lasts.now j ≤ key }
    ensures { IsNear lasts.now key result }
{
    if key.rank() < lasts[first].end().rank() {
        return first;
    }
    near(lasts, key)
}
