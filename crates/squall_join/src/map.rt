//! Maps whose values have a join.

ghost use Rattle.std.specs.Prelude.{◌≡◌, ◌≢◌, ◌≤◌, IfOk, IfErr, IfSome, IfNone, OnOk, OnErr, [], ◌∷◌, length, option_copied, slice_get};
ghost use Rattle.std.specs.FinMap.Entries.{find};
ghost use Rattle.std.proofs.lemmas.Map.Lookups.{CmpEqualImpliesEq, exact_unsigned};
ghost use Rattle.std.specs.declared.cmp.Ordering.TheVariants.{Less};
ghost use Rattle.squall_join.specs.Entries.{merged, IsMap, IsAt, IsGap};
ghost use Rattle.squall_join.specs.MapLaws.{map_laws};
ghost use Rattle.squall_join.specs.Drafts.{IsMapDraft, map_before, map_after};
ghost use Rattle.squall_join.specs.Rests.{map_covered, map_beyond};
ghost use Rattle.squall_join.specs.Units.{entry_unit};
ghost use Rattle.squall_join.specs.MapBeyondLaws.{map_beyond_laws};

use crate::draft::{MapDraft, adds_few, draft_entries, join_entries, kept_entries, undone_entries};
use crate::merge::{merge, push_copies};
use crate::rest::rests;
use crate::search::seek;
use crate::update::Borrowed;
use crate::{Beyond, Join};
use std::alloc::{AllocError, Global};
use std::marker::Model;
use std::mem::replace;

/// Keys of a map: in an order in which only equal keys tie.
pub trait MapKey: Ord + Copy {
    /// The step if this key is less than the other, else 0. A search computes it without a branch,
    /// since a branch on keys is mostly mispredicted.
    fn step_if_less(self, other: Self, step: usize) -> usize
        ensures less { Self.cmp self other ≡ Less → result ≡ step }
        ensures not_less { Self.cmp self other ≢ Less → result ≡ 0 };

    /// How far this key is behind the first key of a map, as a number of keys: its index if no key
    /// between is absent. A search looks there first, so any number will do.
    fn steps_from(self, first: Self) -> usize;

    /// Keys that tie are equal.
    ghost exact: { CmpEqualImpliesEq Self.cmp };
}

impl MapKey for u32 {
    ghost exact = { exact_unsigned };

    /// The bits of a borrow.
    fn step_if_less(self, other: u32, step: usize) -> usize {
        let borrow = u128::from(self).wrapping_sub(u128::from(other)) >> 64;
        step & borrow as usize
    }

    fn steps_from(self, first: u32) -> usize {
        self.wrapping_sub(first) as usize
    }
}

/// A map that keeps no least value: an absent key has the least value.
///
/// Contracts see a map as the list of its entries, in the order of their keys. A join has at
/// each key the join of both values.
#[derive(Drop)]
pub struct JoinMap<K: MapKey, V: Join> {
    pub(crate) entries: Vec<(K, V)>,
}

impl<K: MapKey, V: Join> Model for JoinMap<K, V> {
    ghost use Rattle.std.specs.Prelude.{List};
    ghost use Rattle.squall_join.specs.Entries.{IsMap};

    ghost Value = { List (K × V) };

    ghost view = { λ m. m.entries.items };

    ghost invariant = { λ m. IsMap K.cmp V.is_value V.bottom m.entries.items };
}

impl<K: MapKey, V: Join> JoinMap<K, V> {
    /// The map of no entries. It allocates nothing.
    pub fn empty(alloc: Global) -> Self
        ensures { result ≡ [] }
    {
        JoinMap {
            entries: Vec::new(alloc),
        }
    }

    /// The map of one entry, or the empty map if the value is the least one. An error means that an
    /// allocation failed.
    pub fn single(alloc: Global, key: K, value: V) -> Result<Self, AllocError>
        ensures empty { value ≡ V.bottom → IfOk result (λ m. m ≡ []) }
        ensures one { value ≢ V.bottom → IfOk result (λ m. m ≡ (key, value) ∷ []) }
    {
        value.known();
        if value.is_bottom() {
            return Ok(JoinMap::empty(alloc));
        }
        let mut entries = Vec::with_capacity(alloc, 1)?;
        entries.push((key, value))?;
        Ok(JoinMap { entries })
    }

    /// How many entries the map has.
    pub fn len(&self) -> usize
        ensures { result ≡ length self.now }
    {
        self.entries.len()
    }

    /// The value at a key, by a binary search. None if the key is absent.
    pub fn get(&self, key: &K) -> Option<&V>
        ensures { option_copied result ≡ find K.cmp key.now self.now }
    {
        match self.search(*key) {
            Ok(at) => Some(&self.entries[at].1),
            Err(_) => None,
        }
    }

    /// The entry at an index, in the order of the keys. None if the index is the length or more.
    pub fn at(&self, index: usize) -> Option<(&K, &V)>
        ensures some { IfSome result (λ e. slice_get self.now index ≡ Some (e.0.now, e.1.now)) }
        ensures none { IfNone result (length self.now ≤ index) }
    {
        let entry = self.entries.get(index)?;
        Some((&entry.0, &entry.1))
    }

    /// All entries, in the order of their keys.
    pub fn entries(&self) -> &[(K, V)]
        ensures entries { result.now ≡ self.now }
        ensures map { IsMap K.cmp V.is_value V.bottom self.now }
    {
        self.entries.as_slice()
    }

    /// The allocator that the map was made with.
    pub fn allocator(&self) -> Global {
        *self.entries.allocator()
    }

    /// The index of the key, or as an error the index at which it would be inserted.
    pub(crate) fn search(&self, key: K) -> Result<usize, usize>
        ensures found { IfOk result (IsAt K.cmp self.now key) }
        ensures absent { IfErr result (IsGap K.cmp self.now key) }
    {
        seek(&self.entries, key)
    }
}

impl<K: MapKey, V: Join> Join for JoinMap<K, V> {
    ghost is_value = { IsMap K.cmp V.is_value V.bottom };

    ghost bottom = { [] };

    ghost join = { merged K.cmp V.join };

    ghost laws = { map_laws K.total K.exact V.laws };

    type Draft = MapDraft<K, V, V::Draft>;

    ghost is_draft = { IsMapDraft K.cmp V.before V.after V.is_draft (IsMap K.cmp V.is_value V.bottom) };

    ghost before = { map_before K.cmp V.before V.after };

    ghost after = { map_after K.cmp V.before V.after };

    fn known(&self) {
        let _ = &self.entries;
    }

    fn bottom(alloc: Global) -> Self {
        JoinMap::empty(alloc)
    }

    fn is_bottom(&self) -> bool {
        self.entries.is_empty()
    }

    fn covers(&self, other: &Self) -> bool {
        self.known();
        other.known();
        for entry in &other.entries {
            match self.get(&entry.0) {
                None => return false,
                Some(value) => {
                    if !value.covers(&entry.1) {
                        return false;
                    }
                }
            }
        }
        true
    }

    fn joined(&self, alloc: Global, other: &Self) -> Result<Self, AllocError> {
        let entries = merge(alloc, &self.entries, &other.entries)?;
        Ok(JoinMap { entries })
    }

    fn copied(&self, alloc: Global) -> Result<Self, AllocError> {
        let mut entries = Vec::with_capacity(alloc, self.entries.len())?;
        push_copies(alloc, &mut entries, &self.entries)?;
        Ok(JoinMap { entries })
    }

    /// Joins a map of one entry in place: a binary search, and at most one insertion.
    ///
    /// A map of more entries is joined in place too. The join at each of its keys is drafted, which
    /// a failed allocation undoes. Each new key moves the entries behind it. If more than 64 keys
    /// are new, it makes the joined map instead, which copies each value of both.
    fn join_in(&mut self, alloc: Global, other: &Self) -> Result<(), AllocError> {
        if other.entries.len() == 1 {
            let entry = &other.entries[0];
            let value = &entry.1;
            return self.update_at(alloc, entry.0, Borrowed { value });
        }
        if adds_few(&self.entries, &other.entries) {
            return join_entries(alloc, &mut self.entries, &other.entries);
        }
        let joined = self.joined(alloc, other)?;
        *self = joined;
        Ok(())
    }

    /// Drafts the join at each key of the other map, and makes room for all entries if keys are new.
    /// If more than 64 keys are new, it makes the joined map.
    fn draft_join(&mut self, alloc: Global, other: &Self) -> Result<Self::Draft, AllocError> {
        if !adds_few(&self.entries, &other.entries) {
            let after = merge(alloc, &self.entries, &other.entries)?;
            let before = replace(&mut self.entries, Vec::new(alloc));
            return Ok(MapDraft::Whole(before, after));
        }
        let parts = draft_entries(alloc, &mut self.entries, &other.entries)?;
        let entries = replace(&mut self.entries, Vec::new(alloc));
        Ok(MapDraft::Parts(entries, parts))
    }

    fn keep(draft: Self::Draft) -> Self {
        JoinMap {
            entries: kept_entries(draft),
        }
    }

    fn undo(draft: Self::Draft) -> Self {
        JoinMap {
            entries: undone_entries(draft),
        }
    }
}

impl<K: MapKey, V: Beyond> Beyond for JoinMap<K, V> {
    ghost covered = { map_covered K.cmp V.bottom V.covered };

    ghost unit = { entry_unit K.cmp V.bottom V.unit };

    ghost beyond = { map_beyond K.cmp V.covered V.beyond };

    ghost beyond_laws = { map_beyond_laws K.total K.exact V.laws V.beyond_laws };

    /// It searches the other map for each key of this one, by doubled steps from the index of the
    /// key before. So the time for a small map beyond a large one grows with the small one. For two
    /// maps of similar size it grows with the sum of both.
    fn beyond(&self, alloc: Global, other: &Self) -> Result<Self, AllocError> {
        let entries = rests(alloc, &self.entries, &other.entries)?;
        Ok(JoinMap { entries })
    }
}
