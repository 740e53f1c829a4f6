//! Legs as entries in blocks, and back.

ghost use Rattle.std.specs.Prelude.{◌≡◌, ◌<◌, ◌≤◌, ◌-◌, IfOk, OnOk};
ghost use Rattle.squall_key.specs.Keys.{top};
ghost use Rattle.squall_plan.specs.Ranges.{owner_of, IsCanonical};
ghost use Rattle.squall_blocks.specs.Entries.{last_from, up_to};
ghost use Rattle.squall_table.specs.Legs.{Grows};
ghost use Rattle.squall_table.specs.LegEntries.{legs_from, entries_of};
ghost use Rattle.squall_table.specs.Patching.{IsReach};

use crate::legs::push_leg;
use crate::table::{Leg, bottom};
use squall_blocks::{BlocksRef, Entries, ReadyEntries};
use squall_key::{Bound, PartId};
use std::alloc::{AllocError, Global};

/// The entries of legs. An error means that an allocation failed.
pub(crate) fn entries_of(alloc: Global, legs: &[Leg]) -> Result<Entries<PartId>, AllocError>
    ensures { IfOk result (λ es. es ≡ entries_of legs.now) }
{
    let mut entries = ReadyEntries::with_room(alloc, legs.len())?;
    for leg in legs {
        entries.push(leg.span.hi(), leg.part);
    }
    Ok(entries.into_entries())
}

/// Adds the legs of a table from `lo` to `hi` at the end. After an error the list may have changed.
pub(crate) fn copy_entries(
    out: &mut Vec<Leg>,
    table: &BlocksRef<'_, PartId>,
    lo: Bound,
    hi: Bound,
) -> Result<(), AllocError>
    requires canonical { IsCanonical (legs_from 0 table.now) }
    requires order { lo ≤ hi }
    ensures { OnOk result (Grows (owner_of (legs_from 0 table.now)) lo hi out.old.items out.new.items) }
{
    if lo.rank() == hi.rank() {
        return Ok(());
    }
    let mut reach = lo;
    let mut rest = table.iter_from(lo);
    while reach.rank() < hi.rank() {
        let Some(entry) = rest.next() else {
            unreachable!()
        };
        let stop = entry.0.min(hi);
        push_leg(out, reach, stop, entry.1)?;
        reach = stop;
    }
    Ok(())
}

/// The bound before `bound`. For the least bound it is that bound itself.
pub(crate) fn bound_before(bound: Bound) -> Bound
    ensures { result ≡ bound - 1 }
{
    Bound::of_rank(bound.rank().saturating_sub(1)).unwrap_or(bound)
}

/// The bounds of the legs that are replaced when the keys from `low` to `high` are renewed. They
/// are the start of the leg with the key before `low`, and the end of the leg with the key `high`.
pub(crate) fn reach_of(table: &BlocksRef<'_, PartId>, low: Bound, high: Bound) -> (Bound, Bound)
    requires canonical { IsCanonical (legs_from 0 table.now) }
    requires order { low < high }
    ensures { IsReach table.now low high result.0 result.1 }
{
    let _top = high.rank();
    let lo = table.end_before(bound_before(low), bottom());
    match table.above(high) {
        Some(entry) => (lo, entry.0),
        None => (lo, Bound::TOP),
    }
}
