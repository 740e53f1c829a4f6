//! Laws of joins, each the contract of a function that does nothing.

ghost use Rattle.std.specs.Prelude.{◌≡◌, Bool, List, [], ◌||◌};
ghost use Rattle.std.specs.FinMap.Entries.{find};
ghost use Rattle.squall_join.specs.Laws.{JoinLaws, IsLeastUpperBound};
ghost use Rattle.squall_join.specs.Entries.{join_found, merged, IsMap};
ghost use Rattle.squall_join.specs.Looked.{looked};
ghost use Rattle.squall_join.specs.Pairs.{pair_of, pair_is, pair_join};
ghost use Rattle.squall_join.specs.Facts.{Factual, pair_says, map_says};
ghost use Rattle.squall_join.specs.Rests.{BeyondLaws, map_beyond};

use crate::map::MapKey;
use crate::{Beyond, Join};

/// The join of two values is the least value that covers both.
pub fn join_is_least_upper_bound<J: Join>()
    ensures laws { JoinLaws J.is_value J.bottom J.join }
    ensures least { (x y : J) → J.is_value x → J.is_value y → IsLeastUpperBound J.is_value J.join x y (J.join x y) }
{}

/// Maps with equal look-ups are equal.
pub fn equal_lookups_equal_maps<K: MapKey, V: Join>()
    ensures { (x y : List (K × V)) → IsMap K.cmp V.is_value V.bottom x → IsMap K.cmp V.is_value V.bottom y
        → ((q : K) → find K.cmp q x ≡ find K.cmp q y) → x ≡ y }
{}

/// A joined map has at each key the join of both values.
pub fn join_of_entries<K: MapKey, V: Join>()
    ensures { (x y : List (K × V)) (q : K) → IsMap K.cmp V.is_value V.bottom x → IsMap K.cmp V.is_value V.bottom y
        → find K.cmp q (merged K.cmp V.join x y) ≡ join_found V.join (find K.cmp q x) (find K.cmp q y) }
{}

/// A joined map has at each key the join of what both have there. An absent key has the least
/// value. Maps that have the same at each key are equal.
pub fn join_of_lookups<K: MapKey, V: Join>()
    ensures joined { (x y : List (K × V)) (q : K) → IsMap K.cmp V.is_value V.bottom x → IsMap K.cmp V.is_value V.bottom y
        → looked V.bottom (find K.cmp q (merged K.cmp V.join x y)) ≡ V.join (looked V.bottom (find K.cmp q x)) (looked V.bottom (find K.cmp q y)) }
    ensures same { (x y : List (K × V)) → IsMap K.cmp V.is_value V.bottom x → IsMap K.cmp V.is_value V.bottom y
        → ((q : K) → looked V.bottom (find K.cmp q x) ≡ looked V.bottom (find K.cmp q y)) → x ≡ y }
{}

/// If facts distinguish the values of each half, the facts of both halves distinguish pairs, and a
/// join of pairs has the facts of either.
pub fn pairs_lift_facts<A: Join, B: Join, F, G>()
    ensures { (p : A → F → Bool) (q : B → G → Bool) → Factual A.is_value A.bottom A.join p → Factual B.is_value B.bottom B.join q
        → Factual (pair_is A.is_value B.is_value) (pair_of A.bottom B.bottom) (pair_join A.join B.join) (pair_says p q) }
{}

/// If facts distinguish the values, the facts at each key distinguish maps, and a join of maps has
/// the facts of either.
pub fn maps_lift_facts<K: MapKey, V: Join, F>()
    ensures { (says : V → F → Bool) → Factual V.is_value V.bottom V.join says
        → Factual (IsMap K.cmp V.is_value V.bottom) [] (merged K.cmp V.join) (map_says K.cmp says) }
{}

/// What a value has beyond another, joined with the other, is the join of both. It is the least
/// value with each unit of the value that the other lacks.
pub fn beyond_joins_to_the_join<J: Beyond>()
    ensures { BeyondLaws J.is_value J.bottom J.join J.covered J.unit J.beyond }
{}

/// What a map has beyond another is a map. At each key it has what the one has there beyond what
/// the other has there. An absent key has the least value.
pub fn beyond_of_lookups<K: MapKey, V: Beyond>()
    ensures map { (x y : List (K × V)) → IsMap K.cmp V.is_value V.bottom x → IsMap K.cmp V.is_value V.bottom y
        → IsMap K.cmp V.is_value V.bottom (map_beyond K.cmp V.covered V.beyond x y) }
    ensures beyond { (x y : List (K × V)) (q : K) → IsMap K.cmp V.is_value V.bottom x → IsMap K.cmp V.is_value V.bottom y
        → looked V.bottom (find K.cmp q (map_beyond K.cmp V.covered V.beyond x y))
        ≡ V.beyond (looked V.bottom (find K.cmp q x)) (looked V.bottom (find K.cmp q y)) }
{}
