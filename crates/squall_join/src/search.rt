//! Searches for a key among the entries of a map.

ghost use Rattle.std.specs.Prelude.{T, option_copied, ◌≡◌, IfOk, IfErr, IfSome};
ghost use Rattle.std.specs.FinMap.Entries.{is_sorted, find};
ghost use Rattle.squall_join.specs.Entries.{IsPlace, IsAmong, IsFrom, IsAt, IsGap};

use crate::Join;
use crate::map::MapKey;

/// How many entries have smaller keys, if that is known to be at least `low` and at most
/// `low + left`.
fn place_among<K: MapKey, V: Join>(entries: &[(K, V)], key: K, low: usize, left: usize) -> usize
    requires sorted { T (is_sorted K.cmp entries.now) }
    requires among { IsAmong K.cmp entries.now key low left }
    ensures { IsPlace K.cmp entries.now key result }
{
    let mut from = low;
    let mut size = left;
    while size > 1 {
        let half = size / 2;
        from += entries[from + half - 1].0.step_if_less(key, half);
        size -= half;
    }
    if size == 1 {
        from += entries[from].0.step_if_less(key, 1);
    }
    from
}

/// The index of the key, if none is absent between the first key and it. None if one is, or the key
/// is absent.
///
/// Keys mostly follow one another. So this looks where a search, which waits for memory at each step
/// in a large map, would end.
fn place_in_row<K: MapKey, V: Join>(entries: &[(K, V)], key: K) -> Option<usize>
    requires { T (is_sorted K.cmp entries.now) }
    ensures { IfSome result (IsPlace K.cmp entries.now key) }
{
    let first = entries.first()?;
    let at = key.steps_from(first.0);
    if at < entries.len() && entries[at].0.cmp(&key).is_eq() {
        Some(at)
    } else {
        None
    }
}

/// How many entries have smaller keys.
pub(crate) fn place_of<K: MapKey, V: Join>(entries: &[(K, V)], key: K) -> usize
    requires { T (is_sorted K.cmp entries.now) }
    ensures { IsPlace K.cmp entries.now key result }
{
    match place_in_row(entries, key) {
        Some(at) => at,
        None => place_among(entries, key, 0, entries.len()),
    }
}

/// How many entries have smaller keys, if the first `from` have. It looks from there on by doubled
/// steps, and then within the last one. So it takes little time if the index is near.
pub(crate) fn reach<K: MapKey, V: Join>(entries: &[(K, V)], key: K, from: usize) -> usize
    requires sorted { T (is_sorted K.cmp entries.now) }
    requires from { IsFrom K.cmp entries.now key from }
    ensures { IsPlace K.cmp entries.now key result }
{
    if let Some(at) = place_in_row(entries, key) {
        return at;
    }
    let mut low = from;
    while low < entries.len() {
        let step = (low - from).min(entries.len() - 1 - low);
        let last = low + step;
        if !entries[last].0.cmp(&key).is_lt() {
            return place_among(entries, key, low, step);
        }
        low = last + 1;
    }
    low
}

/// The value at a key, if `at` entries have smaller keys. None if the key is absent.
pub(crate) fn value_at<K: MapKey, V: Join>(entries: &[(K, V)], key: K, at: usize) -> Option<&V>
    requires sorted { T (is_sorted K.cmp entries.now) }
    requires place { IsPlace K.cmp entries.now key at }
    ensures { option_copied result ≡ find K.cmp key entries.now }
{
    if at < entries.len() && entries[at].0.cmp(&key).is_eq() {
        Some(&entries[at].1)
    } else {
        None
    }
}

/// The index of the key, or as an error the index at which it would be inserted, if `at` entries
/// have smaller keys.
pub(crate) fn settle<K: MapKey, V: Join>(
    entries: &[(K, V)],
    key: K,
    at: usize,
) -> Result<usize, usize>
    requires sorted { T (is_sorted K.cmp entries.now) }
    requires place { IsPlace K.cmp entries.now key at }
    ensures found { IfOk result (IsAt K.cmp entries.now key) }
    ensures absent { IfErr result (IsGap K.cmp entries.now key) }
{
    if at < entries.len() && entries[at].0.cmp(&key).is_eq() {
        Ok(at)
    } else {
        Err(at)
    }
}

/// The index of the key, or as an error the index at which it would be inserted.
pub(crate) fn seek<K: MapKey, V: Join>(entries: &[(K, V)], key: K) -> Result<usize, usize>
    requires { T (is_sorted K.cmp entries.now) }
    ensures found { IfOk result (IsAt K.cmp entries.now key) }
    ensures absent { IfErr result (IsGap K.cmp entries.now key) }
{
    settle(entries, key, place_of(entries, key))
}
