//! The end of a sub-plan at a partition.

ghost use Rattle.std.specs.Prelude.{◌≡◌, ◌≤◌, ◌<◌};
ghost use Rattle.squall_key.specs.Keys.{part_limit};
ghost use Rattle.squall_report.specs.declared.report.ReportKind.TheVariants.{Done};
ghost use Rattle.squall_part.specs.declared.finishing.FinishFault.TheVariants.{NoMemory};
ghost use Rattle.squall_part.specs.Loading.{IsFinished};

use crate::part::Part;
use squall_key::PartId;
use squall_report::Report;
use squall_span::Span;
use std::alloc::AllocError;
use thiserror::Error;

/// Why a sub-plan is not finished.
#[derive(Debug, Drop, Error)]
pub enum FinishFault {
    /// As far as the partition knows, the sub-plan is not opened under its newest course.
    #[error("NotOpen")]
    NotOpen,
    /// Keys are missing: the first span of those that come in and are not loaded.
    #[error("NotAll {0}")]
    NotAll(Span),
    /// No key comes in, in that sub-plan.
    #[error("NothingDue")]
    NothingDue,
    /// An allocation failed.
    #[error("NoMemory")]
    NoMemory,
}

impl From<AllocError> for FinishFault {
    ghost from_gives = { λ _ e. e ≡ NoMemory };

    fn from(_error: AllocError) -> FinishFault {
        FinishFault::NoMemory
    }
}

/// The report that the partition has all keys of the sub-plan.
fn done_report(number: u32, sub: u32, part: PartId) -> Report
    requires number { 1 ≤ number }
    requires sub { sub < part_limit }
    ensures { result ≡ Done number sub part }
{
    let Some(report) = Report::done(number, sub, part.get()) else {
        unreachable!();
    };
    report
}

impl Part {
    /// Reports that all keys which come in, in the sub-plan of the newest course, are loaded. The
    /// partition's own board takes the report. A repeat gives the same report.
    ///
    /// `NotOpen`, `NotAll`, `NothingDue`, the first of these that is so; or `NoMemory`. A fault
    /// leaves the partition unchanged.
    pub fn finish(&mut self, sub: u32) -> Result<Report, FinishFault>
        ensures answer { IsFinished self.old sub result self.new }
    {
        self.known();
        let alloc = self.allocator();
        let log = &self.logs[self.newest_place()];
        let course = log.course();
        if self.opened(course.number()) <= sub {
            return Err(FinishFault::NotOpen);
        }
        let incoming = course.incoming(alloc, sub, self.id)?;
        let missing = incoming.minus(alloc, &log.loaded)?;
        if let Some(first) = missing.first() {
            return Err(FinishFault::NotAll(first));
        }
        if incoming.is_empty() {
            return Err(FinishFault::NothingDue);
        }
        let report = done_report(course.number(), sub, self.id);
        self.board.take(&report)?;
        self.board.known();
        Ok(report)
    }
}
