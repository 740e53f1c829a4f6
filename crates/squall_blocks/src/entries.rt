//! Entries, each an end and a value, in one list.

ghost use Rattle.std.specs.Prelude.{◌≡◌, ◌↔◌, ◌+◌, ◌-◌, ◌<◌, ◌≤◌, [], ◌∷◌, ◌++◌, length, take, drop, slice_get, IsTrue};
ghost use Rattle.std.specs.Prelude.{Some, IfSome, IfOk, OnOk, OnErr, option_map};
ghost use Rattle.std.specs.List.{zip, splice};
ghost use Rattle.squall_blocks.specs.Entries.{RiseFrom, last_from, beyond, up_to};

use crate::ready::{replace_ready, reserve_some};
use crate::search::{End, ended};
use squall_key::{Bound, Ends};
use std::alloc::{AllocError, Global};
use std::marker::Model;

/// Entries, each a bound at which it ends and a value. Ends and values are in two lists: no memory
/// is lost between them, and a search reads ends alone.
///
/// Contracts see the list of the entries.
#[derive(Drop)]
pub struct Entries<V: Copy> {
    ends: Vec<End>,
    values: Vec<V>,
}

impl<V: Copy> Model for Entries<V> {
    ghost use Rattle.std.specs.Prelude.{List, ℕ, ◌≡◌, length};
    ghost use Rattle.std.specs.List.{zip};

    ghost Value = { List (ℕ × V) };

    ghost view = { λ s. zip s.ends.items s.values.items };

    ghost invariant = { λ s. length s.ends.items ≡ length s.values.items };
}

/// Three lists, one after the other.
fn chained<T: Copy>(alloc: Global, a: &[T], b: &[T], c: &[T]) -> Result<Vec<T>, AllocError>
    ensures { IfOk result (λ v. v.items ≡ a.now ++ (b.now ++ c.now)) }
{
    let room = a.len().saturating_add(b.len()).saturating_add(c.len());
    let mut all = Vec::with_capacity(alloc, room)?;
    all.extend_from_slice(a)?;
    all.extend_from_slice(b)?;
    all.extend_from_slice(c)?;
    Ok(all)
}

impl<V: Copy> Entries<V> {
    /// No entries. It takes no memory.
    pub fn new(alloc: Global) -> Entries<V>
        ensures { result ≡ [] }
    {
        Entries {
            ends: Vec::new(alloc),
            values: Vec::new(alloc),
        }
    }

    /// The entries with these ends and values, with the room that the lists have.
    pub(crate) fn of_lists(ends: Vec<End>, values: Vec<V>) -> Entries<V>
        requires { length ends.items ≡ length values.items }
        ensures { result ≡ zip ends.items values.items }
    {
        Entries { ends, values }
    }

    /// The ends and the values, with the room that they have.
    pub(crate) fn into_lists(self) -> (Vec<End>, Vec<V>)
        ensures same { length result.0.items ≡ length result.1.items }
        ensures both { zip result.0.items result.1.items ≡ self }
    {
        let Entries { ends, values } = self;
        (ends, values)
    }

    /// How many entries there are.
    pub fn len(&self) -> usize
        ensures { result ≡ length self.now }
    {
        self.ends.len()
    }

    /// The entry at a place. None if the place is `len` or more.
    pub fn get(&self, place: usize) -> Option<(Bound, V)>
        ensures { result ≡ slice_get self.now place }
    {
        if place < self.len() {
            Some(self.at(place))
        } else {
            None
        }
    }

    /// The entry at a place.
    pub(crate) fn at(&self, place: usize) -> (Bound, V)
        requires { place < length self.now }
        ensures { slice_get self.now place ≡ Some result }
    {
        (self.ends[place].end(), self.values[place])
    }

    /// Adds an entry at the end. An error means that an allocation failed: the entries are then
    /// unchanged.
    pub fn push(&mut self, end: Bound, value: V) -> Result<(), AllocError>
        ensures ok { OnOk result (self.new ≡ self.old ++ (end, value) ∷ []) }
        ensures err { OnErr result (self.new ≡ self.old) }
    {
        self.ends.reserve(1)?;
        self.values.reserve(1)?;
        self.ends.push_reserved(End { bound: end });
        self.values.push_reserved(value);
        Ok(())
    }

    /// Whether the ends rise, the first beyond `from` and the last not beyond `to`.
    pub fn is_between(&self, from: Bound, to: Bound) -> bool
        ensures { IsTrue result ↔ (RiseFrom from self.now × (last_from from self.now ≤ to)) }
    {
        let len = self.len();
        let mut last = from;
        for at in 0..len {
            let end = self.at(at).0;
            if end.rank() <= last.rank() {
                return false;
            }
            last = end;
        }
        last.rank() <= to.rank()
    }

    /// The ends and the values.
    pub(crate) fn lists(&self) -> (&[End], &[V])
        ensures ends { length result.0.now ≡ length self.now }
        ensures values { length result.1.now ≡ length self.now }
        ensures both { zip result.0.now result.1.now ≡ self.now }
    {
        (&self.ends, &self.values)
    }

    /// How many entries end at the key or before it.
    pub(crate) fn ended(&self, key: Bound) -> usize
        requires { RiseFrom 0 self.now }
        ensures within { result ≤ length self.now }
        ensures up_to { up_to key self.now ≡ take result self.now }
        ensures beyond { beyond key self.now ≡ drop result self.now }
    {
        let (ends, _) = self.lists();
        ended(ends, key)
    }

    /// The first entry that ends beyond the key.
    pub(crate) fn above(&self, key: Bound) -> Option<(Bound, V)>
        requires { RiseFrom 0 self.now }
        ensures { result ≡ slice_get (beyond key self.now) 0 }
    {
        let at = self.ended(key);
        if at < self.len() {
            Some(self.at(at))
        } else {
            None
        }
    }

    /// The first entry that ends beyond the key, after the bound at which it begins: the end of the
    /// entry before it, `least` if there is none.
    pub(crate) fn whole_above(&self, key: Bound, least: Bound) -> Option<(Bound, (Bound, V))>
        requires { RiseFrom 0 self.now }
        ensures begin { IfSome result (λ e. e.0 ≡ last_from least (up_to key self.now)) }
        ensures entry { option_map (λ e. e.1) result ≡ slice_get (beyond key self.now) 0 }
    {
        let at = self.ended(key);
        if at >= self.len() {
            return None;
        }
        let begin = if at == 0 { least } else { self.at(at - 1).0 };
        Some((begin, self.at(at)))
    }

    /// The bound at which the last entry ends.
    pub(crate) fn last_end(&self) -> End
        requires { 0 < length self.now }
        ensures { result ≡ last_from 0 self.now }
    {
        End {
            bound: self.at(self.len() - 1).0,
        }
    }

    /// The end of the last entry that ends at the key or before it, `least` if there is none.
    pub(crate) fn end_before(&self, key: Bound, least: Bound) -> Bound
        requires { RiseFrom 0 self.now }
        ensures { result ≡ last_from least (up_to key self.now) }
    {
        let at = self.ended(key);
        if at == 0 {
            return least;
        }
        self.at(at - 1).0
    }

    /// The head's entries before the place `to`, then the fresh ones, then the tail's from the
    /// place `from` on. An error means that an allocation failed.
    pub(crate) fn joined(
        alloc: Global,
        head: &Entries<V>,
        to: usize,
        fresh: &Entries<V>,
        tail: &Entries<V>,
        from: usize,
    ) -> Result<Entries<V>, AllocError>
        requires to { to ≤ length head.now }
        requires from { from ≤ length tail.now }
        ensures { IfOk result (λ e. e ≡ take to head.now ++ (fresh.now ++ drop from tail.now)) }
    {
        let (head_ends, head_values) = head.lists();
        let (fresh_ends, fresh_values) = fresh.lists();
        let (tail_ends, tail_values) = tail.lists();
        let ends = chained(alloc, &head_ends[..to], fresh_ends, &tail_ends[from..])?;
        let values = chained(
            alloc,
            &head_values[..to],
            fresh_values,
            &tail_values[from..],
        )?;
        Ok(Entries { ends, values })
    }

    /// The entries from one place to another. An error means that an allocation failed.
    pub(crate) fn part(
        &self,
        alloc: Global,
        from: usize,
        to: usize,
    ) -> Result<Entries<V>, AllocError>
        requires order { from ≤ to }
        requires within { to ≤ length self.now }
        ensures { IfOk result (λ e. e ≡ take (to - from) (drop from self.now)) }
    {
        let (ends, values) = self.lists();
        let ends = Vec::from_slice(alloc, &ends[from..to])?;
        let values = Vec::from_slice(alloc, &values[from..to])?;
        Ok(Entries { ends, values })
    }

    /// Puts the fresh entries in place of those from `first` to `end`. An error means that an
    /// allocation failed: the entries are then unchanged.
    pub(crate) fn replace(
        &mut self,
        first: usize,
        end: usize,
        fresh: &Entries<V>,
    ) -> Result<(), AllocError>
        requires order { first ≤ end }
        requires within { end ≤ length self.old }
        ensures ok { OnOk result (self.new ≡ splice self.old first end fresh.now) }
        ensures err { OnErr result (self.new ≡ self.old) }
    {
        let (ends, values) = fresh.lists();
        reserve_some(&mut self.ends, ends.len())?;
        reserve_some(&mut self.values, values.len())?;
        replace_ready(&mut self.ends, first, end, ends);
        replace_ready(&mut self.values, first, end, values);
        Ok(())
    }

    /// Puts the fresh entries in place of those from `first` to `end`, which are as many or more.
    /// It needs no room, and allocates nothing.
    pub(crate) fn replace_by_fewer(&mut self, first: usize, end: usize, fresh: &Entries<V>)
        requires order { first ≤ end }
        requires within { end ≤ length self.old }
        requires fewer { length fresh.now ≤ end - first }
        ensures { self.new ≡ splice self.old first end fresh.now }
    {
        let (ends, values) = fresh.lists();
        replace_ready(&mut self.ends, first, end, ends);
        replace_ready(&mut self.values, first, end, values);
    }
}
