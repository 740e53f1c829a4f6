//! The spans of a set, one after the other.

ghost use Rattle.std.specs.Prelude.{◌≡◌, ◌++◌, OnOk};
ghost use Rattle.std.specs.Iterator.{YieldsFirst, item_count};
ghost use Rattle.squall_span.specs.Spans.{IsCanonical};
ghost use Rattle.squall_span.specs.Many.{spans_of};
ghost use Rattle.squall_span.specs.Left.{spans_left};

use crate::span::Span;
use squall_blocks::Iter;
use squall_key::Bound;
use std::alloc::AllocError;
use std::marker::Model;

/// The spans of a set that are still to come, by rising key.
///
/// Contracts see the list of these spans.
#[derive(Drop)]
pub struct Spans<'a> {
    rest: Rest<'a>,
}

/// The spans that are still to come: in one list, or in blocks.
#[derive(Drop)]
enum Rest<'a> {
    Few(&'a [Span]),
    Many(Iter<'a, Bound>),
}

impl<'a> Model for Spans<'a> {
    ghost use Rattle.std.specs.Prelude.{List};
    ghost use Rattle.squall_span.specs.Spans.{Interval, IsCanonical};
    ghost use Rattle.squall_span.specs.Left.{spans_left};

    ghost Value = { List Interval };

    ghost view = { λ s. spans_left s.rest };

    ghost invariant = { λ s. IsCanonical (spans_left s.rest) };
}

impl<'a> Spans<'a> {
    /// The spans of a list.
    pub(crate) fn few(spans: &'a [Span]) -> Spans<'a>
        requires { IsCanonical spans.now }
        ensures { result ≡ spans.now }
    {
        Spans {
            rest: Rest::Few(spans),
        }
    }

    /// The spans of entries by rising end.
    pub(crate) fn many(entries: Iter<'a, Bound>) -> Spans<'a>
        requires { IsCanonical (spans_of entries) }
        ensures { result ≡ spans_of entries.entry }
    {
        Spans {
            rest: Rest::Many(entries),
        }
    }

    /// Adds the spans behind others: those of one list at once. After an error some may have been
    /// added.
    pub(crate) fn append_to(self, out: &mut Vec<Span>) -> Result<(), AllocError>
        ensures { OnOk result (out.new.items ≡ out.old.items ++ self.entry) }
    {
        if let Rest::Few(spans) = &self.rest {
            out.extend_from_slice(spans)?;
            return Ok(());
        }
        for span in self {
            out.push(span)?;
        }
        Ok(())
    }
}

impl<'a> Iterator for Spans<'a> {
    type Item = Span;

    ghost next_gives = { YieldsFirst (λ s. s) };

    ghost remaining = { item_count (λ s. s) };

    fn next(&mut self) -> Option<Span> {
        match &mut self.rest {
            Rest::Few(spans) => {
                let (first, rest) = spans.split_first()?;
                *spans = rest;
                Some(*first)
            }
            Rest::Many(entries) => {
                let (hi, lo) = entries.next()?;
                Some(Span::between(lo, hi))
            }
        }
    }
}
