//! Laws of the owners of a table, and of the spans in which two tables differ.

ghost use Rattle.std.specs.Prelude.{◌≡◌, ◌≤◌, ◌<◌, ℕ, List};
ghost use Rattle.squall_key.specs.Keys.{top, part_limit};
ghost use Rattle.squall_span.specs.Spans.{has};
ghost use Rattle.squall_plan.specs.Ranges.{owner_of};
ghost use Rattle.squall_c_values.specs.declared.spans.CSpan.{CSpan as CSpanValue};
ghost use Rattle.squall_c_changes.specs.Changes.{PutsChanges, differs, reached, given, keys_of};

use squall_table::RouteTable;

/// Changes nothing: after it a proof knows that no rank from the top on has an owner, and that each owner
/// is a partition that there can be.
pub fn owners_are_partitions(table: &RouteTable)
    ensures past { (k : ℕ) → top ≤ k → owner_of table.now k ≡ 0 }
    ensures part { (k : ℕ) → owner_of table.now k < part_limit }
{
    let _legs = table.entries();
}

/// Changes nothing: after it a proof knows what the spans tell that were written. A key lies in one of
/// them exactly if the routes of the key differ. This is so up to the end of the last one, or up to
/// `hi` if the room has space for more.
pub fn given_spans_tell_the_keys()
    ensures { (before after : ℕ → ℕ) (lo hi : ℕ) (old new : List CSpanValue) (count k : ℕ) → PutsChanges before after lo hi old new count
        → lo ≤ k → k < reached lo hi old new count → has (keys_of (given new count)) k ≡ differs before after k }
{}
