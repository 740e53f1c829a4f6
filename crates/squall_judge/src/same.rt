//! Whether two values are the same.

ghost use Rattle.std.specs.Prelude.{◌≡◌, IsTrue, IsFalse};
ghost use Rattle.std.specs.Arc.{arc_value};
ghost use Rattle.squall_report.specs.declared.report.ReportKind.TheVariants.{Loaded, Done, Opened, Issued};

use squall_report::{Issue, Report, ReportKind};
use squall_span::Span;
use std::sync::Arc;

/// Whether the spans have the same bounds.
pub(crate) fn same_span(a: Span, b: Span) -> bool
    ensures same { IsTrue result → a ≡ b }
    ensures apart { IsFalse result → a ≡ b → ⊥ }
{
    a.lo().rank() == b.lo().rank() && a.hi().rank() == b.hi().rank()
}

/// Whether the report is of that load.
fn is_loaded(report: &Report, number: u32, sub: u32, part: u32, span: Span) -> bool
    ensures same { IsTrue result → report.now ≡ Loaded number sub part span }
    ensures apart { IsFalse result → report.now ≡ Loaded number sub part span → ⊥ }
{
    match report.kind() {
        ReportKind::Loaded {
            number: n,
            sub: s,
            part: p,
            span: keys,
        } => { n == number && s == sub && p == part && same_span(keys, span) }
        _ => false,
    }
}

/// Whether the report is of that completion.
fn is_done(report: &Report, number: u32, sub: u32, part: u32) -> bool
    ensures same { IsTrue result → report.now ≡ Done number sub part }
    ensures apart { IsFalse result → report.now ≡ Done number sub part → ⊥ }
{
    match report.kind() {
        ReportKind::Done {
            number: n,
            sub: s,
            part: p,
        } => n == number && s == sub && p == part,
        _ => false,
    }
}

/// Whether the report is of that opening.
fn is_opened(report: &Report, number: u32, sub: u32) -> bool
    ensures same { IsTrue result → report.now ≡ Opened number sub }
    ensures apart { IsFalse result → report.now ≡ Opened number sub → ⊥ }
{
    match report.kind() {
        ReportKind::Opened { number: n, sub: s } => n == number && s == sub,
        _ => false,
    }
}

/// Whether both plans are the same.
fn same_issue(a: &Issue, b: &Issue) -> bool
    ensures same { IsTrue result → a.now ≡ b.now }
    ensures apart { IsFalse result → a.now ≡ b.now → ⊥ }
{
    *a == *b
}

/// Whether the report is of that issue.
fn is_issued(report: &Report, number: u32, issue: &Arc<Issue>) -> bool
    ensures same { IsTrue result → report.now ≡ Issued number (arc_value issue.now) }
    ensures apart { IsFalse result → report.now ≡ Issued number (arc_value issue.now) → ⊥ }
{
    match report.kind() {
        ReportKind::Issued {
            number: n,
            issue: pair,
        } => n == number && same_issue(pair, issue),
        _ => false,
    }
}

/// Whether the reports say the same.
pub(crate) fn same_report(a: &Report, b: &Report) -> bool
    ensures same { IsTrue result → a.now ≡ b.now }
    ensures apart { IsFalse result → a.now ≡ b.now → ⊥ }
{
    match a.kind() {
        ReportKind::Loaded {
            number,
            sub,
            part,
            span,
        } => is_loaded(b, number, sub, part, span),
        ReportKind::Done { number, sub, part } => is_done(b, number, sub, part),
        ReportKind::Opened { number, sub } => is_opened(b, number, sub),
        ReportKind::Issued { number, issue } => is_issued(b, number, issue),
    }
}
