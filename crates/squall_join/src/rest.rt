//! What the entries of one map have beyond another.

ghost use Rattle.std.specs.Prelude.{◌≡◌, ◌++◌, T, Some, IfOk, OnOk, option_copied};
ghost use Rattle.std.specs.FinMap.Entries.{is_sorted};
ghost use Rattle.squall_join.specs.Rests.{found_beyond, entry_of, map_beyond};

use crate::Beyond;
use crate::map::MapKey;
use crate::search::{reach, value_at};
use std::alloc::{AllocError, Global};

/// Adds what the entry's value has beyond the one that was found, unless that is the least value.
/// If none was found, it adds the whole entry.
fn push_rest<K: MapKey, V: Beyond>(
    alloc: Global,
    out: &mut Vec<(K, V)>,
    entry: &(K, V),
    found: Option<&V>,
) -> Result<(), AllocError>
    ensures { OnOk result (out.new.items
        ≡ out.old.items ++ entry_of entry.now.0 (found_beyond V.covered V.beyond (Some entry.now.1) (option_copied found.entry))) }
{
    let value = &entry.1;
    let Some(other) = found else {
        out.push((entry.0, value.copied(alloc)?))?;
        return Ok(());
    };
    value.known();
    other.known();
    let rest = value.beyond(alloc, other)?;
    if !rest.is_bottom() {
        out.push((entry.0, rest))?;
    }
    Ok(())
}

/// What the first entries have beyond the second. Each key is searched from the index of the key
/// before it on.
pub(crate) fn rests<K: MapKey, V: Beyond>(
    alloc: Global,
    a: &[(K, V)],
    b: &[(K, V)],
) -> Result<Vec<(K, V)>, AllocError>
    requires first { T (is_sorted K.cmp a.now) }
    requires second { T (is_sorted K.cmp b.now) }
    ensures { IfOk result (λ out. out.items ≡ map_beyond K.cmp V.covered V.beyond a.now b.now) }
{
    let mut out = Vec::new(alloc);
    let mut at = 0;
    for entry in a {
        at = reach(b, entry.0, at);
        push_rest(alloc, &mut out, entry, value_at(b, entry.0, at))?;
    }
    Ok(out)
}
