//! Laws of sets of keys, each the contract of a function that does nothing.

ghost use Rattle.std.specs.Prelude.{◌≡◌, ◌↔◌, ℕ, ◌<◌, ◌≤◌, ◌||◌, ◌&&◌, not, nat_lt, nat_le, true, Some, List};
ghost use Rattle.squall_key.specs.Keys.{top};
ghost use Rattle.squall_span.specs.Spans.{Interval, has, span_has, IsCanonical, EndsBy, IsSet, insert_span, union, minus, meet, keys_below};
ghost use Rattle.squall_span.specs.Spans.{keys_from, first_span, IsFirstRun, total_length, how_many, spans_eq};

/// Sets with the same keys have the same list of spans.
pub fn same_keys_same_set()
    ensures { (a b : List Interval) → IsSet a → IsSet b → ((k : ℕ) → k < top → has a k ≡ has b k) → a ≡ b }
{}

/// The sum of the lengths of the spans is the number of keys of the set.
pub fn lengths_count_keys()
    ensures { (set : List Interval) (n : ℕ) → IsCanonical set → EndsBy n set → how_many (has set) n ≡ total_length set }
{}

/// A set with one span added is a set again: it has the keys of the span and those of the set.
pub fn insert_adds_the_span()
    ensures set { (s : Interval) (a : List Interval) → s.lo < s.hi → s.hi ≤ top → IsSet a → IsSet (insert_span s a) }
    ensures canonical { (s : Interval) (a : List Interval) → s.lo < s.hi → IsCanonical a → IsCanonical (insert_span s a) }
    ensures keys { (s : Interval) (a : List Interval) (k : ℕ) → s.lo < s.hi → IsCanonical a → has (insert_span s a) k ≡ (span_has s k || has a k) }
{}

/// A union is a set again, of the keys of either.
pub fn union_has_both()
    ensures set { (a b : List Interval) → IsSet a → IsSet b → IsSet (union a b) }
    ensures canonical { (a b : List Interval) → IsCanonical a → IsCanonical b → IsCanonical (union a b) }
    ensures keys { (a b : List Interval) (k : ℕ) → IsCanonical a → IsCanonical b → has (union a b) k ≡ (has a k || has b k) }
{}

/// The keys of the first set that the second lacks are a set again.
pub fn minus_is_a_set()
    ensures set { (a b : List Interval) → IsSet a → IsSet b → IsSet (minus a b) }
    ensures keys { (a b : List Interval) (k : ℕ) → has (minus a b) k ≡ (has a k && not (has b k)) }
{}

/// The keys of both sets are a set again.
pub fn meet_is_a_set()
    ensures set { (a b : List Interval) → IsSet a → IsSet b → IsSet (meet a b) }
    ensures keys { (a b : List Interval) (k : ℕ) → has (meet a b) k ≡ (has a k && has b k) }
{}

/// The keys of a set below a bound are a set again, and so are the others.
pub fn split_makes_sets()
    ensures first { (bound : ℕ) (a : List Interval) → IsSet a → IsSet (keys_below bound a) }
    ensures second { (bound : ℕ) (a : List Interval) → IsSet a → IsSet (keys_from bound a) }
    ensures below { (bound : ℕ) (a : List Interval) (k : ℕ) → has (keys_below bound a) k ≡ (has a k && nat_lt k bound) }
    ensures others { (bound : ℕ) (a : List Interval) (k : ℕ) → has (keys_from bound a) k ≡ (has a k && nat_le bound k) }
{}

/// The first span of a set is the longest run of keys from the least one on.
pub fn first_span_is_longest()
    ensures { (a : List Interval) (s : Interval) → IsSet a → (first_span a ≡ Some s) ↔ IsFirstRun a s }
{}

/// `==` on sets says whether they are equal.
pub fn equality_is_exact()
    ensures { (a b : List Interval) → (spans_eq a b ≡ true) ↔ (a ≡ b) }
{}
