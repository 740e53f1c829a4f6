//! The spans of a set in one list.

ghost use Rattle.std.specs.Prelude.{◌≡◌, ◌∷◌, IfOk};
ghost use Rattle.squall_span.specs.Spans.{IsSet};

use crate::span::Span;
use crate::spans::Spans;
use std::alloc::{AllocError, Global};
use std::marker::Model;

/// Spans of a set in one list: that of the set itself, or a copy if the set keeps them in blocks.
///
/// Contracts see the list of the spans.
#[derive(Drop)]
pub struct SpanList<'a> {
    held: Held<'a>,
}

/// A list of spans that is lent, or one that is kept.
#[derive(Drop)]
enum Held<'a> {
    Lent(&'a [Span]),
    Own(Vec<Span>),
}

impl<'a> Model for SpanList<'a> {
    ghost use Rattle.std.specs.Prelude.{List};
    ghost use Rattle.squall_span.specs.Spans.{Interval, IsSet};
    ghost use Rattle.squall_span.specs.Listed.{spans_held};

    ghost Value = { List Interval };

    ghost view = { λ s. spans_held s.held };

    ghost invariant = { λ s. IsSet (spans_held s.held) };
}

impl<'a> SpanList<'a> {
    /// A list that is lent.
    pub(crate) fn lent(spans: &'a [Span]) -> SpanList<'a>
        requires { IsSet spans.now }
        ensures { result ≡ spans.now }
    {
        SpanList {
            held: Held::Lent(spans),
        }
    }

    /// A list that is kept.
    pub(crate) fn own(spans: Vec<Span>) -> SpanList<'a>
        requires { IsSet spans.items }
        ensures { result ≡ spans.items }
    {
        SpanList {
            held: Held::Own(spans),
        }
    }

    /// The spans, in order, none of which overlaps or touches the next.
    pub fn spans(&self) -> &[Span]
        ensures value { result.now ≡ self.now }
        ensures set { IsSet result.now }
    {
        match &self.held {
            Held::Lent(spans) => spans,
            Held::Own(spans) => spans,
        }
    }
}

/// The spans in one list, with room for `room` of them. An error means that an allocation failed.
pub(crate) fn listed(alloc: Global, room: usize, spans: Spans<'_>) -> Result<Vec<Span>, AllocError>
    ensures { IfOk result (λ list. list.items ≡ spans.entry) }
{
    let mut list = Vec::with_capacity(alloc, room)?;
    spans.append_to(&mut list)?;
    Ok(list)
}

/// A span and those behind it in one list, with room for `room` of them. An error means that an
/// allocation failed.
pub(crate) fn listed_with(
    alloc: Global,
    room: usize,
    span: Span,
    rest: Spans<'_>,
) -> Result<Vec<Span>, AllocError>
    ensures { IfOk result (λ list. list.items ≡ span ∷ rest.entry) }
{
    let mut list = Vec::with_capacity(alloc, room)?;
    list.push(span)?;
    rest.append_to(&mut list)?;
    Ok(list)
}
