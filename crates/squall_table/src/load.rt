//! The legs about a load all of whose keys go to one partition.

ghost use Rattle.std.specs.Prelude.{◌≡◌, ◌≢◌, ◌<◌, ◌≤◌, [], ◌∷◌, IsTrue, IsFalse, IfOk, IfErr};
ghost use Rattle.squall_key.specs.Keys.{top};
ghost use Rattle.squall_span.specs.Spans.{IsSet};
ghost use Rattle.squall_plan.specs.Ranges.{IsCanonical};
ghost use Rattle.squall_course.specs.Moves.{moves_of};
ghost use Rattle.squall_blocks.specs.Entries.{RiseFrom, last_from, replaced};
ghost use Rattle.squall_table.specs.declared.routes.Heard.TheVariants.{All};
ghost use Rattle.squall_table.specs.LegEntries.{legs_from};
ghost use Rattle.squall_table.specs.Legs.{Legs, said};
ghost use Rattle.squall_table.specs.Patching.{ComesTo, IsBeside, IsRenewed, about};

use crate::entries::bound_before;
use crate::fresh::Renewal;
use crate::single::Brought;
use crate::table::bottom;
use squall_blocks::{Blocks, BlocksRef, Entries, Prepared, ReadyEntries, Unprepared, Unready};
use squall_course::Course;
use squall_key::{Bound, PartId};
use squall_span::Span;
use std::alloc::{AllocError, Global};

/// The legs at both ends of a span: where the one with the key right below it begins, where the one
/// with the key right above it ends, and the partitions of both.
#[derive(Clone, Copy)]
struct Beside {
    lo: Bound,
    before: PartId,
    hi: Bound,
    after: PartId,
}

/// The legs at both ends of a span. A search finds each.
fn legs_beside(table: &BlocksRef<'_, PartId>, span: Span) -> Beside
    requires canonical { IsCanonical (legs_from 0 table.now) }
    requires order { span.lo < span.hi }
    requires high { span.hi ≤ top }
    ensures { IsBeside table.now span result.lo result.before result.hi result.after }
{
    let Some(leg) = table.whole_above(bound_before(span.lo()), bottom()) else {
        unreachable!()
    };
    let (lo, before) = (leg.0, leg.1.1);
    match table.above(span.hi()) {
        Some(entry) => Beside {
            lo,
            before,
            hi: entry.0,
            after: entry.1,
        },
        None => Beside {
            lo,
            before,
            hi: Bound::TOP,
            after: before,
        },
    }
}

/// Whether there are keys from `lo` to `hi`, and `part` is not the partition of their neighbours.
fn is_apart(lo: Bound, hi: Bound, part: PartId, other: PartId) -> bool
    ensures some { IsTrue result → lo < hi }
    ensures differ { IsTrue result → part ≢ other }
    ensures same { IsFalse result → lo < hi → part ≡ other }
{
    if hi.rank() <= lo.rank() {
        return false;
    }
    part != other
}

/// The entries that send the keys of the span to `dest`, and those beside it where they went. There
/// are three at most. An error means that an allocation failed.
fn entries_about(
    alloc: Global,
    span: Span,
    dest: PartId,
    at: Beside,
) -> Result<Entries<PartId>, AllocError>
    requires order { span.lo < span.hi }
    requires low { at.lo ≤ span.lo }
    requires high { span.hi ≤ at.hi }
    ensures { IfOk result (λ es. Legs (about at.before dest at.after span) at.lo at.hi (legs_from at.lo es)) }
{
    let mut fresh = ReadyEntries::with_room(alloc, 3)?;
    if is_apart(at.lo, span.lo(), at.before, dest) {
        fresh.push(span.lo(), at.before);
    }
    if is_apart(span.hi(), at.hi, at.after, dest) {
        fresh.push(span.hi(), dest);
        fresh.push(at.hi, at.after);
        return Ok(fresh.into_entries());
    }
    fresh.push(at.hi, dest);
    Ok(fresh.into_entries())
}

/// The replacement that renews the keys of a load in a table, once they have come. All of them go
/// to one partition.
pub(crate) fn renew_load(
    alloc: Global,
    table: &BlocksRef<'_, PartId>,
    course: &Course,
    load: Brought,
) -> Result<Renewal, AllocError>
    requires table { IsCanonical (legs_from 0 table.now) }
    requires set { IsSet (load.span ∷ []) }
    requires comes { ComesTo (moves_of course.now.old course.now.new) load.span load.dest }
    ensures rise { IfOk result (λ r. RiseFrom r.lo r.fresh) }
    ensures last { IfOk result (λ r. last_from r.lo r.fresh ≤ r.hi) }
    ensures legs { IfOk result (λ r.
        IsRenewed course.now (said All) (load.span ∷ []) (legs_from 0 table.now) (legs_from 0 (replaced r.lo r.hi r.fresh table.now))) }
{
    let Brought { span, dest } = load;
    let at = legs_beside(table, span);
    let (lo, hi) = (at.lo, at.hi);
    let fresh = entries_about(alloc, span, dest, at)?;
    Ok(Renewal {
        lo,
        hi,
        fresh,
        moves: 1,
    })
}

/// Prepares the entries of a table for a load all of whose keys go to one partition. An error hands
/// them back as they were, and says why: the edit does not stay in one block, or an allocation
/// failed.
pub(crate) fn prepare_load(
    whole: Blocks<PartId>,
    course: &Course,
    load: Brought,
) -> Result<Prepared<PartId>, Unprepared<PartId>>
    requires table { IsCanonical (legs_from 0 whole) }
    requires set { IsSet (load.span ∷ []) }
    requires comes { ComesTo (moves_of course.now.old course.now.new) load.span load.dest }
    ensures before { IfOk result (λ p. p.0 ≡ whole) }
    ensures after { IfOk result (λ p. IsRenewed course.now (said All) (load.span ∷ []) (legs_from 0 whole) (legs_from 0 p.1)) }
    ensures err { IfErr result (λ e. e.blocks ≡ whole) }
{
    match renew_load(whole.allocator(), &whole.lent(), course, load) {
        Ok(made) => Prepared::of(whole, made.lo, made.hi, made.fresh),
        Err(_) => Err(Unprepared {
            blocks: whole,
            why: Unready::NoMemory,
        }),
    }
}
