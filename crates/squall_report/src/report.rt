//! Reports.

ghost use Rattle.std.specs.Prelude.{◌≡◌, true, IfOk};
ghost use Rattle.std.specs.Arc.{arc_value};
ghost use Rattle.squall_report.specs.Facts.{is_opening, is_report, loaded_of, done_of, opened_of, issued_of, kind_with};

use crate::{CellId, Issue};
use squall_join::Shared;
use squall_key::PART_LIMIT;
use squall_span::Span;
use std::alloc::{AllocError, Global};
use std::marker::Model;
use std::sync::Arc;

/// What a report says, with the number of its reconfiguration. `I` is the form of an issue: a
/// report holds it as a shared value, and shows a reference to it.
#[derive(Drop)]
pub enum ReportKind<I> {
    /// In the sub-plan the partition has loaded the keys of the span.
    Loaded {
        number: u32,
        sub: u32,
        part: u32,
        span: Span,
    },
    /// The partition has all the keys that the sub-plan brings it.
    Done {
        number: u32,
        sub: u32,
        part: u32,
    },
    /// The sub-plan is opened, and all those before it.
    Opened {
        number: u32,
        sub: u32,
    },
    /// The reconfiguration leads from one plan to another.
    Issued {
        number: u32,
        issue: I,
    },
}

/// A report whose numbers lie within their limits: a reconfiguration from 1 on, a sub-plan and a
/// partition from 0 to 9999. Contracts see it as its kind, with the pair of plans that it issues.
#[derive(Drop)]
pub struct Report {
    kind: ReportKind<Shared<Issue>>,
}

impl Model for Report {
    ghost use Rattle.std.specs.Prelude.{◌≡◌, true};
    ghost use Rattle.squall_report.specs.declared.report.ReportKind.{ReportKind};
    ghost use Rattle.squall_report.specs.Issues.{PlanPair};
    ghost use Rattle.squall_report.specs.Facts.{is_report};

    ghost Value = { ReportKind PlanPair };

    ghost view = { λ r. r.kind };

    ghost invariant = { λ r. is_report r.kind ≡ true };

    ghost inverse = { λ kind. record { kind = kind } };
}

/// Whether the numbers of an opening lie within their limits.
fn is_opening(number: u32, sub: u32) -> bool
    ensures { result ≡ is_opening number sub }
{
    number >= 1 && sub < PART_LIMIT
}

impl Report {
    /// The report that the partition has loaded the keys of the span. None if the number is 0, or
    /// the sub-plan or the partition is above 9999.
    pub fn loaded(number: u32, sub: u32, part: u32, span: Span) -> Option<Report>
        ensures { result ≡ loaded_of number sub part span }
    {
        let _cell = CellId::new(number, sub, part)?;
        // The proof learns that the span has a key and ends by the top.
        let _bounds = (span.lo(), span.hi());
        let kind = ReportKind::Loaded {
            number,
            sub,
            part,
            span,
        };
        Some(Report { kind })
    }

    /// The report that the partition has all the keys that the sub-plan brings it. None if the
    /// number is 0, or the sub-plan or the partition is above 9999.
    pub fn done(number: u32, sub: u32, part: u32) -> Option<Report>
        ensures { result ≡ done_of number sub part }
    {
        let _cell = CellId::new(number, sub, part)?;
        let kind = ReportKind::Done { number, sub, part };
        Some(Report { kind })
    }

    /// The report that the sub-plan is opened, and all those before it. None if the number is 0, or
    /// the sub-plan is above 9999.
    pub fn opened(number: u32, sub: u32) -> Option<Report>
        ensures { result ≡ opened_of number sub }
    {
        if !is_opening(number, sub) {
            return None;
        }
        let kind = ReportKind::Opened { number, sub };
        Some(Report { kind })
    }

    /// The report that the reconfiguration of that number leads from the old plan of the issue to
    /// its new one. None if the number is 0.
    pub fn issued(number: u32, issue: Arc<Issue>) -> Option<Report>
        ensures { result ≡ issued_of number (arc_value issue) }
    {
        if number == 0 {
            return None;
        }
        let kind = ReportKind::Issued {
            number,
            issue: Shared::new(issue),
        };
        Some(Report { kind })
    }

    /// A copy of the report. An issue is not copied, and has one more owner then. An error means that
    /// the count of its owners is full.
    pub fn copied(&self) -> Result<Report, AllocError>
        ensures value { IfOk result (λ r. r ≡ self.now) }
    {
        let kind = match self.kind() {
            ReportKind::Loaded {
                number,
                sub,
                part,
                span,
            } => ReportKind::Loaded {
                number,
                sub,
                part,
                span,
            },
            ReportKind::Done { number, sub, part } => ReportKind::Done { number, sub, part },
            ReportKind::Opened { number, sub } => ReportKind::Opened { number, sub },
            ReportKind::Issued { number, issue } => ReportKind::Issued {
                number,
                issue: Shared::new(Arc::try_clone(issue)?),
            },
        };
        Ok(Report { kind })
    }

    /// What the report says. An issue is lent, and stays the report's own.
    pub fn kind(&self) -> ReportKind<&Arc<Issue>>
        ensures kind { kind_with (λ issue. arc_value issue.now) result ≡ self.now }
        ensures limits { is_report self.now ≡ true }
    {
        match &self.kind {
            ReportKind::Loaded {
                number,
                sub,
                part,
                span,
            } => ReportKind::Loaded {
                number: *number,
                sub: *sub,
                part: *part,
                span: *span,
            },
            ReportKind::Done { number, sub, part } => ReportKind::Done {
                number: *number,
                sub: *sub,
                part: *part,
            },
            ReportKind::Opened { number, sub } => ReportKind::Opened {
                number: *number,
                sub: *sub,
            },
            ReportKind::Issued { number, issue } => ReportKind::Issued {
                number: *number,
                issue: issue.as_arc(),
            },
        }
    }
}
