//! Laws of keys and bounds, each the contract of a function that does nothing.

ghost use Rattle.std.specs.Prelude.{◌≡◌, ℕ, ◌<◌, ◌≤◌, ◌^◌, ◌↔◌, ◌⊎◌, Some};
ghost use Rattle.std.specs.Ordering.{nat_cmp};
ghost use Rattle.squall_key.specs.Keys.{top, rank_of, key_of, text_of_key, bound_of, text_of_bound};

use crate::{Bound, Key, PartId};

/// The printed text of a key is read as that key.
pub fn printed_key_is_read()
    ensures { (key : ℕ) → key < top → key_of (text_of_key key) ≡ Some key }
{}

/// The printed text of a bound is read as that bound.
pub fn printed_bound_is_read()
    ensures { (bound : ℕ) → bound ≤ top → bound_of (text_of_bound bound) ≡ Some bound }
{}

/// Ranks order pairs by root, then by second.
pub fn rank_is_in_order()
    ensures { (root second other_root other_second : ℕ) → second < 2 ^ 32 → other_second < 2 ^ 32
        → (rank_of root second < rank_of other_root other_second) ↔ ((root < other_root) ⊎ ((root ≡ other_root) × (second < other_second))) }
{}

/// Keys and bounds compare as their ranks do, partitions as their numbers.
pub fn order_is_by_number()
    ensures keys { (a b : ℕ) → ⟦<Key as Ord>⟧.cmp a b ≡ nat_cmp a b }
    ensures bounds { (a b : ℕ) → ⟦<Bound as Ord>⟧.cmp a b ≡ nat_cmp a b }
    ensures parts { (a b : ℕ) → ⟦<PartId as Ord>⟧.cmp a b ≡ nat_cmp a b }
{}
