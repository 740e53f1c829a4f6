//! Reports as lines.

ghost use Rattle.std.specs.Prelude.{◌≡◌};
ghost use Rattle.squall_cli_lines.specs.Words.{words_of};
ghost use Rattle.squall_span.specs.Spans.{span_at};
ghost use Rattle.squall_cli_words.specs.ReportLines.{loaded_line, done_line, opened_line, report_line, load_of, report_of};

use crate::words::{cell_first, no_word, number_first, two_bounds};
use squall_cli_lines::words::only_word;
use squall_key::{Bound, read_number};
use squall_report::Report;
use squall_span::Span;

/// A report as a line writes it, whatever its numbers are.
#[derive(Clone, Copy, Debug)]
pub enum ReportWords {
    /// `loaded N S P LO HI`
    Loaded {
        /// The number of the reconfiguration.
        number: u32,
        /// The sub-plan.
        sub: u32,
        /// The partition that loaded the keys.
        part: u32,
        /// The first key.
        lo: Bound,
        /// The end of the keys.
        hi: Bound,
    },
    /// `done N S P`
    Done {
        /// The number of the reconfiguration.
        number: u32,
        /// The sub-plan.
        sub: u32,
        /// The partition that has all its keys.
        part: u32,
    },
    /// `opened N S`
    Opened {
        /// The number of the reconfiguration.
        number: u32,
        /// The sub-plan.
        sub: u32,
    },
}

/// `loaded N S P LO HI`
fn loaded_line(rest: &[u8]) -> Option<ReportWords>
    ensures { result ≡ loaded_line (words_of rest.now) }
{
    let (number, sub, part, rest) = cell_first(rest)?;
    let (lo, hi) = two_bounds(rest)?;
    Some(ReportWords::Loaded {
        number,
        sub,
        part,
        lo,
        hi,
    })
}

/// `done N S P`
fn done_line(rest: &[u8]) -> Option<ReportWords>
    ensures { result ≡ done_line (words_of rest.now) }
{
    let (number, sub, part, rest) = cell_first(rest)?;
    no_word(rest)?;
    Some(ReportWords::Done { number, sub, part })
}

/// `opened N S`
fn opened_line(rest: &[u8]) -> Option<ReportWords>
    ensures { result ≡ opened_line (words_of rest.now) }
{
    let (number, rest) = number_first(rest)?;
    let sub = read_number(only_word(rest)?)?;
    Some(ReportWords::Opened { number, sub })
}

/// The report that a line writes whose first word is the name. None if the name is that of no
/// report, or if the rest of the line does not have that report's form.
pub fn report_line(name: &[u8], rest: &[u8]) -> Option<ReportWords>
    ensures { result ≡ report_line name.now (words_of rest.now) }
{
    if name == b"loaded".as_slice() {
        return loaded_line(rest);
    }
    if name == b"done".as_slice() {
        return done_line(rest);
    }
    if name == b"opened".as_slice() {
        return opened_line(rest);
    }
    None
}

/// The report of a load, if its numbers lie within their limits and the span has a key.
fn load_report(number: u32, sub: u32, part: u32, lo: Bound, hi: Bound) -> Option<Report>
    ensures { result ≡ load_of (span_at lo hi) number sub part }
{
    let span = Span::new(lo, hi)?;
    Report::loaded(number, sub, part, span)
}

impl ReportWords {
    /// The report, if its numbers lie within their limits and its span has a key.
    pub fn report(self) -> Option<Report>
        ensures { result ≡ report_of self }
    {
        match self {
            ReportWords::Loaded {
                number,
                sub,
                part,
                lo,
                hi,
            } => load_report(number, sub, part, lo, hi),
            ReportWords::Done { number, sub, part } => Report::done(number, sub, part),
            ReportWords::Opened { number, sub } => Report::opened(number, sub),
        }
    }
}
