//! Legs that replace others.

ghost use Rattle.std.specs.Prelude.{◌≡◌, ◌<◌, ◌≤◌, ◌^◌, [], length, IfOk};
ghost use Rattle.squall_key.specs.Keys.{top};
ghost use Rattle.squall_span.specs.Spans.{IsCanonical as IsCanonicalSet, IsSet, EndsBy};
ghost use Rattle.squall_plan.specs.Ranges.{owner_of, IsCanonical};
ghost use Rattle.squall_course.specs.Change.{ArePlans};
ghost use Rattle.squall_course.specs.Moves.{moves_of, AreMoves};
ghost use Rattle.squall_board.specs.MovesRoute.{route_by_moves};
ghost use Rattle.squall_blocks.specs.Entries.{RiseFrom, last_from, up_to, replaced};
ghost use Rattle.squall_table.specs.LegEntries.{legs_from};
ghost use Rattle.squall_table.specs.Legs.{Legs, Grows, MovesRise, said, route_told};
ghost use Rattle.squall_table.specs.Patching.{StartsFrom, IsRenewed, renewed};
ghost use Rattle.squall_table.specs.Reach.{moves_in};

use crate::entries::{copy_entries, entries_of, reach_of};
use crate::routes::{Heard, Routes, first_move, push_routes};
use crate::table::Leg;
use squall_blocks::{BlocksRef, Entries};
use squall_course::Course;
use squall_key::{Bound, PartId};
use squall_span::Span;
use std::alloc::{AllocError, Global};

/// Legs for the keys from `lo` to `hi`: by their routes for keys of the set, and as in the table
/// for the others. With them comes the number of moves that share a key with the set. A move counts
/// once, even if it shares keys with several spans.
fn fresh_legs(
    alloc: Global,
    routes: Routes,
    table: &BlocksRef<'_, PartId>,
    set: &[Span],
    lo: Bound,
    hi: Bound,
) -> Result<(Vec<Leg>, usize), AllocError>
    requires legs { IsCanonical routes.legs.now }
    requires table { IsCanonical (legs_from 0 table.now) }
    requires rise { MovesRise 0 routes.moves.now }
    requires set { IsCanonicalSet set.now }
    requires starts { StartsFrom lo set.now }
    requires ends { EndsBy hi set.now }
    requires order { lo ≤ hi }
    ensures legs { IfOk result (λ made. Grows (renewed set.now (route_told routes.entry) (owner_of (legs_from 0 table.now))) lo hi [] made.0.items) }
    ensures moves { IfOk result (λ made. made.1 ≡ moves_in set.now routes.entry.moves.now) }
{
    let moves = routes.moves;
    let mut out = Vec::new(alloc);
    let mut reach = lo;
    let mut seen = 0;
    let mut taken = 0;
    for span in set {
        copy_entries(&mut out, table, reach, span.lo())?;
        let first = first_move(moves, span.lo());
        let (from, to) = (span.lo(), span.hi());
        let end = push_routes(&mut out, routes, first, from, to)?;
        taken += end.saturating_sub(first.max(seen));
        seen = seen.max(end);
        reach = span.hi();
    }
    copy_entries(&mut out, table, reach, hi)?;
    Ok((out, taken))
}

/// Changes nothing: after it a proof knows the moves of the course by their meaning, and that they
/// are few, since its plans have few ranges.
pub(crate) fn know_moves(course: &Course)
    ensures meaning { AreMoves course.now.old course.now.new (moves_of course.now.old course.now.new) }
    ensures plans { ArePlans course.now.old course.now.new }
    ensures few { length (moves_of course.now.old course.now.new) ≤ 2 ^ 24 }
{
    let _moves = course.moves();
    let _old = course.old_plan().ranges();
    let _new = course.new_plan().ranges();
}

/// The replacement that renews the keys of a set in a table: fresh legs for those between two
/// bounds.
#[derive(Drop)]
pub(crate) struct Renewal {
    pub(crate) lo: Bound,
    pub(crate) hi: Bound,
    pub(crate) fresh: Entries<PartId>,
    /// How many moves share a key with the set.
    pub(crate) moves: usize,
}

/// The replacement for the legs from the first to the last that share a key with the set or border
/// on it. The set is not empty. No other legs need be joined with the fresh ones.
pub(crate) fn renew(
    alloc: Global,
    table: &BlocksRef<'_, PartId>,
    course: &Course,
    heard: Heard,
    set: &[Span],
) -> Result<Renewal, AllocError>
    requires table { IsCanonical (legs_from 0 table.now) }
    requires set { IsSet set.now }
    requires some { 0 < length set.now }
    ensures begins { IfOk result (λ r. last_from 0 (up_to r.lo table.now) ≡ r.lo) }
    ensures rise { IfOk result (λ r. RiseFrom r.lo r.fresh) }
    ensures last { IfOk result (λ r. last_from r.lo r.fresh ≤ r.hi) }
    ensures legs { IfOk result (λ r.
        IsRenewed course.now (said heard.entry) set.now (legs_from 0 table.now) (legs_from 0 (replaced r.lo r.hi r.fresh table.now))) }
    ensures moves { IfOk result (λ r. r.moves ≡ moves_in set.now (moves_of course.now.old course.now.new)) }
{
    let (lo, hi) = reach_of(table, set[0].lo(), set[set.len() - 1].hi());
    let routes = Routes {
        legs: course.old_plan().ranges(),
        moves: course.moves(),
        number: course.number(),
        heard,
    };
    let (legs, moves) = fresh_legs(alloc, routes, table, set, lo, hi)?;
    let fresh = entries_of(alloc, &legs)?;
    Ok(Renewal {
        lo,
        hi,
        fresh,
        moves,
    })
}
