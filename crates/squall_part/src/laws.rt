//! Laws of partitions, each the contract of a function that does little or nothing.

ghost use Rattle.std.specs.Prelude.{◌≡◌, ◌<◌, ◌≤◌, ◌==◌, ◌||◌, ℕ, List, true, false, Ok};
ghost use Rattle.squall_key.specs.Keys.{top};
ghost use Rattle.squall_span.specs.Spans.{Interval, span_has, has, IsSet};
ghost use Rattle.squall_errand.specs.declared.errand.Reply.{Reply};
ghost use Rattle.squall_part.specs.Parts.{PartValue, course_of_part, given_by, loaded_by, closed_by};
ghost use Rattle.squall_protocol.specs.Chunks.{ChunkValue};
ghost use Rattle.squall_part.specs.Giving.{IsClosed, IsGiven, IsGivenAt, after_giving, after_close};
ghost use Rattle.squall_part.specs.Loading.{IsFresh, after_load, is_new};
ghost use Rattle.squall_part.specs.Serving.{IsLastGiven, IsLastComing, IsReply};

use crate::part::Part;

/// A partition gave a key last under at most one number. There is also at most one last number by
/// which the key comes in and is not loaded.
pub fn one_last_number(part: &Part)
    ensures given { (key g h : ℕ) → IsLastGiven part.now key g → IsLastGiven part.now key h → g ≡ h }
    ensures coming { (key c d : ℕ) → IsLastComing part.now key c → IsLastComing part.now key d → c ≡ d }
{
    part.known();
}

/// A partition has one reply for a key and a number that was followed.
pub fn one_reply(part: &Part)
    ensures { (key after : ℕ) (r q : Reply) → IsReply part.now key after r → IsReply part.now key after q → r ≡ q }
{
    part.known();
}

/// Keys that a partition gives are held no longer, and are given under the newest course.
pub fn given_keys_are_gone(part: &Part)
    ensures held { (s : Interval) (k : ℕ) → s.lo < s.hi → s.hi ≤ top → span_has s k ≡ true → has (after_giving part.now s).held k ≡ false }
    ensures given { (s : Interval) (k : ℕ) → s.lo < s.hi → s.hi ≤ top → span_has s k ≡ true
        → has (given_by (after_giving part.now s) (course_of_part part.now).number) k ≡ true }
{
    part.known();
}

/// A partition that is closed gives nothing, be it asked for many keys or for one. The call `close`
/// closes the newest course. Of every other number it leaves whether it is closed.
pub fn closed_partitions_give_nothing(part: &Part)
    ensures chunks { (most : ℕ) (c : ChunkValue) (q : PartValue) → IsClosed part.now → IsGiven part.now most (Ok c) q → ⊥ }
    ensures keys { (k : ℕ) (c : ChunkValue) (q : PartValue) → IsClosed part.now → IsGivenAt part.now k (Ok c) q → ⊥ }
    ensures newest { closed_by (after_close part.now) (course_of_part part.now).number ≡ true }
    ensures all { (n : ℕ) → closed_by (after_close part.now) n ≡ (n == (course_of_part part.now).number || closed_by part.now n) }
{
    part.known();
}

/// What a partition holds, and what it gave and loaded under each number, are sets of keys.
pub fn partitions_keep_sets(part: &Part)
    ensures held { IsSet part.now.held }
    ensures given { (n : ℕ) → IsSet (given_by part.now n) }
    ensures loaded { (n : ℕ) → IsSet (loaded_by part.now n) }
{
    part.known();
}

/// A load adds the new keys of the chunk to the keys that the partition holds, and no others. These
/// keys are one list of spans.
pub fn new_keys_are_held(part: &Part)
    ensures held { (c : ChunkValue) (k : ℕ) → c.span.lo < c.span.hi → c.span.hi ≤ top
        → has (after_load part.now c).held k ≡ (has part.now.held k || is_new part.now c k) }
    ensures one { (c : ChunkValue) (a b : List Interval) → IsFresh part.now c (Ok a) → IsFresh part.now c (Ok b) → a ≡ b }
{
    part.known();
}
