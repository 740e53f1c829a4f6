//! Iteration over entries in blocks.

ghost use Rattle.std.specs.Prelude.{◌≡◌, ◌++◌, length};
ghost use Rattle.std.specs.List.{zip};
ghost use Rattle.std.specs.Iterator.{YieldsFirst, item_count};
ghost use Rattle.squall_blocks.specs.Blocks.{flat, AreFull};

use crate::entries::Entries;
use crate::search::End;
use squall_key::{Bound, Ends};
use std::marker::Model;

/// The entries that an iterator has left: those of one block, and the blocks behind it.
///
/// Contracts see the list of these entries.
#[derive(Drop)]
pub struct Iter<'a, V: Copy> {
    ends: &'a [End],
    values: &'a [V],
    behind: &'a [Entries<V>],
}

impl<'a, V: Copy> Model for Iter<'a, V> {
    ghost use Rattle.std.specs.Prelude.{List, ℕ, ◌++◌};
    ghost use Rattle.std.specs.List.{zip};
    ghost use Rattle.squall_blocks.specs.Blocks.{flat, IsIter};

    ghost Value = { List (ℕ × V) };

    ghost view = { λ s. zip s.ends.now s.values.now ++ flat s.behind.now };

    ghost invariant = { λ s. IsIter s.ends.now s.values.now s.behind.now };
}

impl<'a, V: Copy> Iter<'a, V> {
    /// These entries, and those of the blocks.
    pub(crate) fn over(ends: &'a [End], values: &'a [V], behind: &'a [Entries<V>]) -> Iter<'a, V>
        requires same { length ends.now ≡ length values.now }
        requires full { AreFull behind.now }
        ensures { result ≡ zip ends.now values.now ++ flat behind.now }
    {
        if ends.is_empty() {
            if let Some((first, others)) = behind.split_first() {
                let (ends, values) = first.lists();
                return Iter {
                    ends,
                    values,
                    behind: others,
                };
            }
        }
        Iter {
            ends,
            values,
            behind,
        }
    }
}

impl<'a, V: Copy> Iterator for Iter<'a, V> {
    type Item = (Bound, V);

    ghost next_gives = { YieldsFirst (λ s. s) };

    ghost remaining = { item_count (λ s. s) };

    fn next(&mut self) -> Option<(Bound, V)> {
        let (end, ends) = self.ends.split_first()?;
        let value = self.values[0];
        let values = &self.values[1..];
        *self = Iter::over(ends, values, self.behind);
        Some((end.end(), value))
    }
}
