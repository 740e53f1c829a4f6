//! Tables that are renewed run by run.

ghost use Rattle.std.specs.Prelude.{◌≡◌, ◌<◌, ◌≤◌, length, IfOk, OnOk};
ghost use Rattle.squall_span.specs.Spans.{IsSet};
ghost use Rattle.squall_plan.specs.Ranges.{IsCanonical};
ghost use Rattle.squall_blocks.specs.Entries.{RiseFrom, last_from, replaced};
ghost use Rattle.squall_table.specs.declared.routes.Heard.TheVariants.{All};
ghost use Rattle.squall_table.specs.LegEntries.{legs_from};
ghost use Rattle.squall_table.specs.Legs.{said};
ghost use Rattle.squall_table.specs.Patching.{IsRenewed};

use crate::fresh::{Renewal, renew};
use crate::load::renew_load;
use crate::routes::Heard;
use crate::single::{Brought, move_of};
use squall_blocks::{BlocksRef, Draft};
use squall_course::Course;
use squall_key::PartId;
use squall_span::Span;
use std::alloc::{AllocError, Global};

/// Index after the last span of the run that begins at the index `at`. The spans of a run end in
/// the block in which the first of them begins. So few legs lie between them, and all of these are
/// made anew at once.
fn run_end(table: &BlocksRef<'_, PartId>, spans: &[Span], at: usize) -> usize
    requires { at < length spans.now }
    ensures some { at < result }
    ensures within { result ≤ length spans.now }
{
    let mut end = at + 1;
    if end >= spans.len() {
        return end;
    }
    let stop = table.block_end(spans[at].lo());
    while end < spans.len() && spans[end].hi().rank() < stop.rank() {
        end += 1;
    }
    end
}

/// The replacement that renews the keys of a run in a table. Each of these keys has come.
fn renew_run(
    alloc: Global,
    table: &BlocksRef<'_, PartId>,
    course: &Course,
    run: &[Span],
) -> Result<Renewal, AllocError>
    requires table { IsCanonical (legs_from 0 table.now) }
    requires set { IsSet run.now }
    requires some { 0 < length run.now }
    ensures rise { IfOk result (λ r. RiseFrom r.lo r.fresh) }
    ensures last { IfOk result (λ r. last_from r.lo r.fresh ≤ r.hi) }
    ensures legs { IfOk result (λ r.
        IsRenewed course.now (said All) run.now (legs_from 0 table.now) (legs_from 0 (replaced r.lo r.hi r.fresh table.now))) }
{
    if run.len() == 1 {
        let span = run[0];
        if let Some(one) = move_of(course.moves(), span) {
            let dest = one.dest;
            return renew_load(alloc, table, course, Brought { span, dest });
        }
    }
    renew(alloc, table, course, Heard::All, run)
}

/// Renews the legs for the keys of the spans, run by run. Each of these keys has come. An error
/// means that an allocation failed: some runs are then renewed.
pub(crate) fn renew_runs(
    alloc: Global,
    draft: &mut Draft<PartId>,
    course: &Course,
    spans: &[Span],
) -> Result<(), AllocError>
    requires table { IsCanonical (legs_from 0 draft.old.1) }
    requires set { IsSet spans.now }
    ensures before { draft.new.0 ≡ draft.old.0 }
    ensures legs { OnOk result (IsRenewed course.now (said All) spans.now (legs_from 0 draft.old.1) (legs_from 0 draft.new.1)) }
{
    let mut at = 0;
    while at < spans.len() {
        let table = draft.lent();
        let end = run_end(&table, spans, at);
        let made = renew_run(alloc, &table, course, &spans[at..end])?;
        draft.replace(alloc, made.lo, made.hi, &made.fresh)?;
        at = end;
    }
    Ok(())
}
