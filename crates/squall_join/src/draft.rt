//! Joins of maps that are kept or undone.

ghost use Rattle.std.specs.Prelude.{◌≡◌, ◌+◌, ◌<◌, ◌≤◌, T, [], ◌∷◌, length, vec_len, vec_capacity, IfOk, OnOk, OnErr};
ghost use Rattle.std.specs.List.{insert as inserted};
ghost use Rattle.std.specs.FinMap.Entries.{is_sorted, find};
ghost use Rattle.squall_join.specs.Entries.{merged, IsMap, IsPlace};
ghost use Rattle.squall_join.specs.Drafts.{later, missing, fresh_of, fresh_count, value_after, entry_before, IsThere, IsValid};
ghost use Rattle.squall_join.specs.Drafts.{IsPartOf, IsDrafted, undone, kept, map_before, map_after, IsMapDraft};

use crate::Join;
use crate::map::MapKey;
use crate::search::{reach, seek, settle};
use std::alloc::{AllocError, Global};

/// The most new keys that are inserted in place. Each moves the entries behind it, and a new map
/// copies each value of both. Near a hundred new keys both take the same time, in maps of any size.
const FEW: usize = 64;

/// What is drafted for one entry of a map that is joined into another.
#[derive(Drop)]
pub enum Part<V, A> {
    /// The draft of the join with the value at its key. That value was taken out of the entries.
    Joined(A),
    /// A copy of its value, since its key is absent.
    Fresh(V),
}

/// A map with the join of another one drafted.
#[derive(Drop)]
pub enum MapDraft<K, V, A> {
    /// The entries before the join, and with it.
    Whole(Vec<(K, V)>, Vec<(K, V)>),
    /// The entries, which have room for new ones, and a part for each entry of the other map.
    Parts(Vec<(K, V)>, Vec<(K, Part<V, A>)>),
}

/// Drafts the join of a value at a key, if `at` entries have smaller keys. An error means that an
/// allocation failed: the entries are then unchanged.
fn draft_at<K: MapKey, V: Join>(
    alloc: Global,
    entries: &mut Vec<(K, V)>,
    at: usize,
    key: K,
    value: &V,
) -> Result<Part<V, V::Draft>, AllocError>
    requires sorted { T (is_sorted K.cmp entries.old.items) }
    requires place { IsPlace K.cmp entries.old.items key at }
    ensures part { IfOk result (λ p. IsPartOf K.cmp V.bottom V.join V.before V.after V.is_draft entries.old.items entries.new.items key value.now p) }
    ensures err { OnErr result (entries.new.items ≡ entries.old.items) }
    ensures len { vec_len entries.new ≡ vec_len entries.old }
{
    match settle(entries, key, at) {
        Ok(at) => {
            let entry = &mut entries[at];
            let draft = entry.1.draft_join(alloc, value)?;
            Ok(Part::Joined(draft))
        }
        Err(_) => Ok(Part::Fresh(value.copied(alloc)?)),
    }
}

/// Drafts the join of each of the other entries, for which there is room among the parts. Each key
/// is searched from the index of the key before it on. An error means that an allocation failed:
/// the parts are then those of some entries.
fn draft_parts<K: MapKey, V: Join>(
    alloc: Global,
    entries: &mut Vec<(K, V)>,
    others: &[(K, V)],
    parts: &mut Vec<(K, Part<V, V::Draft>)>,
) -> Result<(), AllocError>
    requires map { IsMap K.cmp V.is_value V.bottom entries.old.items }
    requires others { IsMap K.cmp V.is_value V.bottom others.now }
    requires none { parts.old.items ≡ [] }
    requires room { length others.now ≤ vec_capacity parts.old }
    ensures drafted { IsDrafted K.cmp V.before V.after V.is_draft entries.new.items parts.new.items }
    ensures before { undone K.cmp V.before V.after entries.new.items parts.new.items ≡ entries.old.items }
    ensures after { OnOk result (kept K.cmp V.before V.after entries.new.items parts.new.items ≡ merged K.cmp V.join entries.old.items others.now) }
{
    let mut at = 0;
    for entry in others {
        at = reach(entries, entry.0, at);
        let part = draft_at(alloc, entries, at, entry.0, &entry.1)?;
        parts.push_reserved((entry.0, part));
    }
    Ok(())
}

/// How many entries the part adds.
fn adds<V, A>(part: &Part<V, A>) -> usize
    ensures { result ≡ fresh_of part.now }
{
    match part {
        Part::Joined(_) => 0,
        Part::Fresh(_) => 1,
    }
}

/// How many entries the parts add.
fn count_fresh<K: Copy, V, A>(parts: &[(K, Part<V, A>)]) -> usize
    ensures { result ≡ fresh_count parts.now }
{
    let mut count = 0;
    for part in parts {
        count += adds(&part.1);
    }
    count
}

/// Inserts an entry at an index, before those from there on, in spare capacity.
///
/// It is used in place of `Vec::insert`, since a rotation by one compiles to one block move of what
/// follows.
fn put_ready<K: MapKey, V: Join>(entries: &mut Vec<(K, V)>, at: usize, entry: (K, V))
    requires within { at ≤ length entries.old.items }
    requires room { vec_len entries.old < vec_capacity entries.old }
    ensures value { entries.new.items ≡ inserted entries.old.items at entry }
    ensures len { vec_len entries.new ≡ vec_len entries.old + 1 }
    ensures capacity { vec_capacity entries.new ≡ vec_capacity entries.old }
{
    entries.push_reserved(entry);
    entries[at..].rotate_right(1);
}

/// Puts a value at a key, in place of the one that is there, or as a new entry, for which there is
/// room.
fn put<K: MapKey, V: Join>(entries: &mut Vec<(K, V)>, key: K, value: V)
    requires sorted { T (is_sorted K.cmp entries.old.items) }
    requires room { vec_len entries.old + missing (find K.cmp key entries.old.items) ≤ vec_capacity entries.old }
    ensures value { entries.new.items ≡ merged K.cmp later entries.old.items ((key, value) ∷ []) }
    ensures len { vec_len entries.new ≡ vec_len entries.old + missing (find K.cmp key entries.old.items) }
    ensures capacity { vec_capacity entries.new ≡ vec_capacity entries.old }
{
    match seek(entries, key) {
        Ok(at) => entries[at].1 = value,
        Err(at) => put_ready(entries, at, (key, value)),
    }
}

/// Keeps the draft of one part, at its key.
fn keep_part<K: MapKey, V: Join>(entries: &mut Vec<(K, V)>, key: K, part: Part<V, V::Draft>)
    requires sorted { T (is_sorted K.cmp entries.old.items) }
    requires there { IsThere (find K.cmp key entries.old.items) part }
    requires valid { IsValid V.is_draft part }
    requires room { vec_len entries.old + fresh_of part ≤ vec_capacity entries.old }
    ensures value { entries.new.items ≡ merged K.cmp later entries.old.items ((key, value_after V.after part) ∷ []) }
    ensures len { vec_len entries.new ≤ vec_len entries.old + fresh_of part }
    ensures capacity { vec_capacity entries.new ≡ vec_capacity entries.old }
{
    match part {
        Part::Joined(draft) => put(entries, key, V::keep(draft)),
        Part::Fresh(value) => put(entries, key, value),
    }
}

/// Keeps the drafts of all parts, from the last to the first.
fn keep_parts<K: MapKey, V: Join>(entries: &mut Vec<(K, V)>, parts: Vec<(K, Part<V, V::Draft>)>)
    requires drafted { IsDrafted K.cmp V.before V.after V.is_draft entries.old.items parts.items }
    requires room { vec_len entries.old + fresh_count parts.items ≤ vec_capacity entries.old }
    ensures { entries.new.items ≡ kept K.cmp V.before V.after entries.old.items parts.items }
{
    let mut left = parts;
    while let Some(last) = left.pop() {
        keep_part(entries, last.0, last.1);
    }
}

/// Undoes the draft of one part, at its key.
fn undo_part<K: MapKey, V: Join>(entries: &mut Vec<(K, V)>, key: K, part: Part<V, V::Draft>)
    requires sorted { T (is_sorted K.cmp entries.old.items) }
    requires there { IsThere (find K.cmp key entries.old.items) part }
    requires valid { IsValid V.is_draft part }
    ensures value { entries.new.items ≡ merged K.cmp later entries.old.items (entry_before V.before key part []) }
{
    match part {
        Part::Joined(draft) => put(entries, key, V::undo(draft)),
        Part::Fresh(_) => (),
    }
}

/// Undoes the drafts of all parts, from the last to the first.
fn undo_parts<K: MapKey, V: Join>(entries: &mut Vec<(K, V)>, parts: Vec<(K, Part<V, V::Draft>)>)
    requires { IsDrafted K.cmp V.before V.after V.is_draft entries.old.items parts.items }
    ensures { entries.new.items ≡ undone K.cmp V.before V.after entries.old.items parts.items }
{
    let mut left = parts;
    while let Some(last) = left.pop() {
        undo_part(entries, last.0, last.1);
    }
}

/// Drafts the join of each of the other entries, and makes room for those with new keys. An error
/// means that an allocation failed: the parts are then those of some entries.
fn draft_with_room<K: MapKey, V: Join>(
    alloc: Global,
    entries: &mut Vec<(K, V)>,
    others: &[(K, V)],
    parts: &mut Vec<(K, Part<V, V::Draft>)>,
) -> Result<(), AllocError>
    requires map { IsMap K.cmp V.is_value V.bottom entries.old.items }
    requires others { IsMap K.cmp V.is_value V.bottom others.now }
    requires none { parts.old.items ≡ [] }
    requires room { length others.now ≤ vec_capacity parts.old }
    ensures drafted { IsDrafted K.cmp V.before V.after V.is_draft entries.new.items parts.new.items }
    ensures before { undone K.cmp V.before V.after entries.new.items parts.new.items ≡ entries.old.items }
    ensures after { OnOk result (kept K.cmp V.before V.after entries.new.items parts.new.items ≡ merged K.cmp V.join entries.old.items others.now) }
    ensures room { OnOk result (vec_len entries.new + fresh_count parts.new.items ≤ vec_capacity entries.new) }
{
    draft_parts(alloc, entries, others, parts)?;
    entries.reserve(count_fresh(parts))
}

/// Drafts the join of the other entries. An error means that an allocation failed: the entries are
/// then unchanged.
pub(crate) fn draft_entries<K: MapKey, V: Join>(
    alloc: Global,
    entries: &mut Vec<(K, V)>,
    others: &[(K, V)],
) -> Result<Vec<(K, Part<V, V::Draft>)>, AllocError>
    requires map { IsMap K.cmp V.is_value V.bottom entries.old.items }
    requires others { IsMap K.cmp V.is_value V.bottom others.now }
    ensures drafted { IfOk result (λ parts. IsDrafted K.cmp V.before V.after V.is_draft entries.new.items parts.items) }
    ensures before { IfOk result (λ parts. undone K.cmp V.before V.after entries.new.items parts.items ≡ entries.old.items) }
    ensures after { IfOk result (λ parts. kept K.cmp V.before V.after entries.new.items parts.items ≡ merged K.cmp V.join entries.old.items others.now) }
    ensures room { IfOk result (λ parts. vec_len entries.new + fresh_count parts.items ≤ vec_capacity entries.new) }
    ensures err { OnErr result (entries.new.items ≡ entries.old.items) }
{
    let mut parts = Vec::with_capacity(alloc, others.len())?;
    match draft_with_room(alloc, entries, others, &mut parts) {
        Ok(()) => Ok(parts),
        Err(e) => {
            undo_parts(entries, parts);
            Err(e)
        }
    }
}

/// The entries with the drafted join.
pub(crate) fn kept_entries<K: MapKey, V: Join>(draft: MapDraft<K, V, V::Draft>) -> Vec<(K, V)>
    requires { IsMapDraft K.cmp V.before V.after V.is_draft (IsMap K.cmp V.is_value V.bottom) draft }
    ensures { result.items ≡ map_after K.cmp V.before V.after draft }
{
    match draft {
        MapDraft::Whole(_, after) => after,
        MapDraft::Parts(entries, parts) => {
            let mut entries = entries;
            keep_parts(&mut entries, parts);
            entries
        }
    }
}

/// The entries before the drafted join.
pub(crate) fn undone_entries<K: MapKey, V: Join>(draft: MapDraft<K, V, V::Draft>) -> Vec<(K, V)>
    requires { IsMapDraft K.cmp V.before V.after V.is_draft (IsMap K.cmp V.is_value V.bottom) draft }
    ensures { result.items ≡ map_before K.cmp V.before V.after draft }
{
    match draft {
        MapDraft::Whole(before, _) => before,
        MapDraft::Parts(entries, parts) => {
            let mut entries = entries;
            undo_parts(&mut entries, parts);
            entries
        }
    }
}

/// Joins the other entries into the first, all of them or none. An error means that an allocation
/// failed: the first entries are then unchanged.
pub(crate) fn join_entries<K: MapKey, V: Join>(
    alloc: Global,
    entries: &mut Vec<(K, V)>,
    others: &[(K, V)],
) -> Result<(), AllocError>
    requires map { IsMap K.cmp V.is_value V.bottom entries.old.items }
    requires others { IsMap K.cmp V.is_value V.bottom others.now }
    ensures ok { OnOk result (entries.new.items ≡ merged K.cmp V.join entries.old.items others.now) }
    ensures err { OnErr result (entries.new.items ≡ entries.old.items) }
{
    let parts = draft_entries(alloc, entries, others)?;
    keep_parts(entries, parts);
    Ok(())
}

/// Whether at most a few keys of the second are new to the first.
pub(crate) fn adds_few<K: MapKey, V: Join>(a: &[(K, V)], b: &[(K, V)]) -> bool
    requires { T (is_sorted K.cmp a.now) }
{
    if b.len() <= FEW {
        return true;
    }
    let mut left = FEW;
    for entry in b {
        if seek(a, entry.0).is_err() {
            if left == 0 {
                return false;
            }
            left -= 1;
        }
    }
    true
}
