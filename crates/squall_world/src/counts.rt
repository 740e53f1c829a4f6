//! Counts of the reports of each node, by place. The count is 0 beyond the end of the list.

ghost use Rattle.std.specs.Prelude.{◌≡◌, ◌≤◌, ◌<◌, length, OnOk, vec_capacity, slice_index_or};
ghost use Rattle.squall_world.specs.Nets.{noted, raised, is_behind};

use std::alloc::AllocError;

/// The count at a place.
pub(crate) fn count_at(counts: &[usize], at: usize) -> usize
    ensures { result ≡ slice_index_or counts.now at 0 }
{
    match counts.get(at) {
        Some(count) => *count,
        None => 0,
    }
}

/// Whether some count of the second list is greater than that of the first.
pub(crate) fn is_behind(known: &[usize], counts: &[usize]) -> bool
    ensures { result ≡ is_behind known.now counts.now }
{
    for at in 0..counts.len() {
        if count_at(known, at) < counts[at] {
            return true;
        }
    }
    false
}

/// Room for the place in the list.
pub(crate) fn make_room(known: &mut Vec<usize>, at: usize) -> Result<(), AllocError>
    ensures items { known.new.items ≡ known.old.items }
    ensures room { OnOk result (at < vec_capacity known.new) }
{
    if at < known.len() {
        return Ok(());
    }
    let missing = at - known.len();
    match missing.checked_add(1) {
        Some(more) => known.reserve(more),
        None => Err(AllocError),
    }
}

/// Notes the count at the place, in room that was made.
pub(crate) fn note(known: &mut Vec<usize>, at: usize, count: usize)
    requires { at < vec_capacity known.old }
    ensures { known.new.items ≡ noted at count known.old.items }
{
    while known.len() <= at {
        known.push_reserved(0);
    }
    known[at] = count;
}

/// Keeps the greater of two counts at the place, in room that was made.
pub(crate) fn raise(known: &mut Vec<usize>, counts: &[usize])
    requires { length counts.now ≤ vec_capacity known.old }
    ensures { known.new.items ≡ raised known.old.items counts.now }
{
    for at in 0..counts.len() {
        let count = counts[at];
        if at == known.len() {
            known.push_reserved(count);
        } else if known[at] < count {
            known[at] = count;
        }
    }
}
