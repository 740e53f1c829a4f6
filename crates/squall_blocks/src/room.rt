//! Entries with room for more.

ghost use Rattle.std.specs.Prelude.{◌≡◌, ◌+◌, ◌<◌, ◌≤◌, [], ◌∷◌, ◌++◌, length, IfOk, IfErr};
ghost use Rattle.std.specs.List.{splice};

use crate::entries::Entries;
use crate::ready::{replace_ready, reserve_some};
use crate::search::End;
use squall_key::Bound;
use std::alloc::{AllocError, Global};
use std::marker::Model;

/// Entries with room for more. With room for `n` of them, `n` entries can be pushed, which cannot
/// fail.
///
/// Use it where the number of entries is known: then memory is asked for once, and not at each entry.
///
/// Contracts see it as the list of its entries, `entries`, and how many more it has room for, `room`.
#[derive(Drop)]
pub struct ReadyEntries<V: Copy> {
    ends: Vec<End>,
    values: Vec<V>,
}

impl<V: Copy> Model for ReadyEntries<V> {
    ghost use Rattle.std.specs.Prelude.{◌≡◌, ◌-◌, min, length, vec_len, vec_capacity};
    ghost use Rattle.std.specs.List.{zip};
    ghost use Rattle.squall_blocks.specs.Room.{ReadyValue};

    ghost Value = { ReadyValue V };

    ghost view = { λ s. record {
      entries = zip s.ends.items s.values.items;
      room = min (vec_capacity s.ends - vec_len s.ends) (vec_capacity s.values - vec_len s.values);
    } };

    ghost invariant = { λ s. length s.ends.items ≡ length s.values.items };
}

impl<V: Copy> ReadyEntries<V> {
    /// No entries, with room for `count` of them. An error means that an allocation failed.
    pub fn with_room(alloc: Global, count: usize) -> Result<ReadyEntries<V>, AllocError>
        ensures none { IfOk result (λ r. r.entries ≡ []) }
        ensures room { IfOk result (λ r. r.room ≡ count) }
    {
        let ends = Vec::with_capacity(alloc, count)?;
        let values = Vec::with_capacity(alloc, count)?;
        Ok(ReadyEntries { ends, values })
    }

    /// Adds an entry at the end. It needs room for one entry, and allocates nothing.
    pub fn push(&mut self, end: Bound, value: V)
        requires room { 0 < self.old.room }
        ensures entries { self.new.entries ≡ self.old.entries ++ (end, value) ∷ [] }
        ensures room { self.old.room ≡ self.new.room + 1 }
    {
        self.ends.push_reserved(End { bound: end });
        self.values.push_reserved(value);
    }

    /// The entries with room for `more`. An error means that an allocation failed, and hands the
    /// entries back.
    pub(crate) fn of(entries: Entries<V>, more: usize) -> Result<ReadyEntries<V>, Entries<V>>
        ensures entries { IfOk result (λ r. r.entries ≡ entries) }
        ensures room { IfOk result (λ r. more ≤ r.room) }
        ensures err { IfErr result (λ e. e ≡ entries) }
    {
        let (ends, values) = entries.into_lists();
        let mut ends = ends;
        let mut values = values;
        if reserve_some(&mut ends, more).is_err() || reserve_some(&mut values, more).is_err() {
            return Err(Entries::of_lists(ends, values));
        }
        Ok(ReadyEntries { ends, values })
    }

    /// Puts the fresh entries in place of those from `first` to `end`. It needs room for them, and
    /// allocates nothing.
    pub(crate) fn replace(&mut self, first: usize, end: usize, fresh: &Entries<V>)
        requires order { first ≤ end }
        requires within { end ≤ length self.old.entries }
        requires room { length fresh.now ≤ self.old.room }
        ensures { self.new.entries ≡ splice self.old.entries first end fresh.now }
    {
        let (ends, values) = fresh.lists();
        replace_ready(&mut self.ends, first, end, ends);
        replace_ready(&mut self.values, first, end, values);
    }

    /// The entries alone. They keep the room that is left.
    pub fn into_entries(self) -> Entries<V>
        ensures { result ≡ self.entries }
    {
        Entries::of_lists(self.ends, self.values)
    }
}
