//! Reports that are brought to routers behind handles.

ghost use Rattle.std.specs.Prelude.{◌≡◌, ◌≤◌, IfOk, OnOk, OnErr};
ghost use Rattle.squall_report.specs.Facts.{done_of, opened_of, issued_of};
ghost use Rattle.squall_report.specs.Issues.{plan_pair};
ghost use Rattle.squall_c.specs.Reporting.{loaded_report, told_station, TakesInStation, Takes, Issues};

use crate::router::{RouterSlot, Station, read_plan};
use crate::status::{CLOSED, IN_NEW_PLAN, LIMIT, NO_MEMORY};
use squall_c_frames::memory_status;
use squall_key::Bound;
use squall_plan::Plan;
use squall_report::{Issue, Report};
use squall_span::Span;
use std::alloc::AllocError;

/// The station's router takes the report. It fails if an allocation fails, or if a count of
/// owners is full, and then the station is unchanged.
fn take_in_router(station: &mut Station, report: &Report) -> Result<(), AllocError>
    ensures told { OnOk result (station.new ≡ told_station station.old report.now) }
    ensures err { OnErr result (station.new ≡ station.old) }
{
    station.router.take(report)
}

/// Takes the report, if there is one.
fn take_report(station: &mut Station, report: Option<Report>) -> u32
    ensures { TakesInStation report station.old station.new result }
{
    match report {
        Some(report) => memory_status(take_in_router(station, &report)),
        None => LIMIT,
    }
}

/// The same where there may be no router.
fn take(slot: &mut RouterSlot, report: Option<Report>) -> u32
    ensures { Takes report slot.old slot.new result }
{
    match &mut slot.station {
        Some(station) => take_report(station, report),
        None => CLOSED,
    }
}

/// The report of a load of the keys from rank `lo` on, below rank `hi`, if there is one.
pub(crate) fn loaded_report(number: u32, sub: u32, part: u32, lo: u64, hi: u64) -> Option<Report>
    ensures { result ≡ loaded_report number sub part lo hi }
{
    let lo = Bound::of_rank(lo)?;
    let hi = Bound::of_rank(hi)?;
    let span = Span::new(lo, hi)?;
    Report::loaded(number, sub, part, span)
}

/// Takes the report that in the sub-plan the partition has loaded the keys from rank `lo` on, below
/// rank `hi`. `LIMIT` where there is no such report.
pub(crate) fn loaded(
    slot: &mut RouterSlot,
    number: u32,
    sub: u32,
    part: u32,
    lo: u64,
    hi: u64,
) -> u32
    ensures { Takes (loaded_report number sub part lo hi) slot.old slot.new result }
{
    take(slot, loaded_report(number, sub, part, lo, hi))
}

/// Takes the report that the partition has all the keys that the sub-plan brings it. `LIMIT` where
/// there is no such report.
pub(crate) fn done(slot: &mut RouterSlot, number: u32, sub: u32, part: u32) -> u32
    ensures { Takes (done_of number sub part) slot.old slot.new result }
{
    take(slot, Report::done(number, sub, part))
}

/// Takes the report that the sub-plan is opened, and all those before it. `LIMIT` where there is no
/// such report.
pub(crate) fn opened(slot: &mut RouterSlot, number: u32, sub: u32) -> u32
    ensures { Takes (opened_of number sub) slot.old slot.new result }
{
    take(slot, Report::opened(number, sub))
}

/// The issue under the number from the new plan of the router's first course to this plan. It
/// fails if an allocation fails.
fn issue_to(station: &Station, number: u32, plan: &Plan) -> Result<Option<Report>, AllocError>
    ensures { IfOk result (λ report. report ≡ issued_of number (plan_pair station.now.router.first.new plan.now)) }
{
    let issue = Issue::new(station.alloc, station.router.first().new_plan(), plan)?;
    Ok(Report::issued(number, issue))
}

/// Takes the issue of that plan.
fn take_issue(station: &mut Station, number: u32, plan: &Plan) -> u32
    requires { 1 ≤ number }
    ensures { TakesInStation (issued_of number (plan_pair station.old.router.first.new plan.now)) station.old station.new result }
{
    match issue_to(station, number, plan) {
        Ok(report) => take_report(station, report),
        Err(_) => NO_MEMORY,
    }
}

/// Takes the report that under the number the plan changes from the new plan of the router's first
/// course to that of the text. `LIMIT` where the number is 0, and else the fault of the text where it
/// has one, whose place the slot keeps.
pub(crate) fn issued(slot: &mut RouterSlot, number: u32, text: &[u8]) -> u32
    ensures { Issues number text.now slot.old slot.new result }
{
    let Some(station) = &mut slot.station else {
        return CLOSED;
    };
    if number == 0 {
        return LIMIT;
    }
    match read_plan(station.alloc, text, IN_NEW_PLAN) {
        Ok(plan) => take_issue(station, number, &plan),
        Err(cause) => {
            if cause.status != NO_MEMORY {
                slot.fault_at = cause.at;
            }
            cause.status
        }
    }
}
