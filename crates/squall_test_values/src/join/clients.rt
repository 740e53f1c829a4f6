//! What callers learn of a borrowed map, over public names alone.

ghost use Rattle.std.specs.Prelude.{T};
ghost use Rattle.std.specs.FinMap.Entries.{is_sorted};

use super::map;
use squall_join::{Join, JoinMap, MapKey};

/// Its keys rise.
fn keys_rise<K: MapKey, V: Join>(map: &JoinMap<K, V>)
    ensures { T (is_sorted K.cmp map.now) }
{
    let _entries = map.entries();
}

#[test]
fn clients(rt: HostRuntime) {
    let map = map(rt.alloc(), (4, 1), (1, 3)).expect(&rt, "memory");
    keys_rise(&map);
}
