//! Laws of logs, each the contract of a function that does nothing.

ghost use Rattle.std.specs.Prelude.{◌≡◌, ◌++◌, ◌≤◌, ℕ, List, length, take};
ghost use Rattle.std.specs.List.{AllByRecursion};
ghost use Rattle.squall_log.specs.declared.entry.End.{End as EndValue};
ghost use Rattle.squall_log.specs.Entries.{payload_limit, entry, entries, IsRead, IsCut};

/// Each payload has one entry, and no entry begins another.
pub fn one_entry()
    ensures { (p q x y : List ℕ) → length p ≤ payload_limit → length q ≤ payload_limit → entry p ++ x ≡ entry q ++ y → (p ≡ q) × (x ≡ y) }
{}

/// A log has one reading: one list of payloads, one end and one rest.
pub fn one_reading()
    ensures { (bytes : List ℕ) (ps qs : List (List ℕ)) (e f : EndValue) (r s : List ℕ) → IsRead bytes ps e r → IsRead bytes qs f s
        → (ps ≡ qs) × (e ≡ f) × (r ≡ s) }
{}

/// A torn tail is cut. Of a log that is cut off anywhere exactly the entries are read that are whole
/// before the cut. What is left of the next one is never taken for damage.
pub fn a_cut_log_is_no_damage()
    ensures { (all : List (List ℕ)) (n : ℕ) (done : List (List ℕ)) (e : EndValue) (r : List ℕ) → AllByRecursion (λ p. length p ≤ payload_limit) all
        → IsRead (take n (entries all)) done e r → IsCut all done n e r }
{}
