//! Many spans, in blocks.

ghost use Rattle.std.specs.Prelude.{◌≡◌, ◌↔◌, ◌<◌, [], length, IfOk, IsTrue, OnOk, OnErr};
ghost use Rattle.squall_span.specs.Spans.{IsSet, first_span, spans_beyond, insert_span, without_span};
ghost use Rattle.squall_span.specs.Many.{spans_of};

use crate::changes::{entries_of, insertion, removal};
use crate::span::Span;
use squall_blocks::{Blocks, Iter};
use squall_key::Bound;
use std::alloc::{AllocError, Global};
use std::marker::Model;

/// The spans of a set, in blocks: an edit moves the spans of one block, however many there are in
/// all. Each span is an entry that ends where the span does, and whose value is where it begins.
#[derive(Drop)]
pub(crate) struct ManySpans {
    pub(crate) ends: Blocks<Bound>,
}

impl Model for ManySpans {
    ghost use Rattle.std.specs.Prelude.{List};
    ghost use Rattle.squall_span.specs.Spans.{Interval, IsSet};
    ghost use Rattle.squall_span.specs.Many.{spans_of};

    ghost Value = { List Interval };

    ghost view = { λ s. spans_of s.ends };

    ghost invariant = { λ s. IsSet (spans_of s.ends) };
}

impl ManySpans {
    /// No spans. It takes no memory.
    pub(crate) fn empty(alloc: Global) -> ManySpans
        ensures { result ≡ [] }
    {
        ManySpans {
            ends: Blocks::new(alloc),
        }
    }

    /// The spans of a set, in blocks. An error means that an allocation failed.
    pub(crate) fn of_spans(alloc: Global, spans: &[Span]) -> Result<ManySpans, AllocError>
        requires { IsSet spans.now }
        ensures { IfOk result (λ many. many ≡ spans.now) }
    {
        let entries = entries_of(alloc, spans)?;
        let ends = Blocks::of(alloc, entries)?;
        Ok(ManySpans { ends })
    }

    /// The same spans, in blocks of their own. An error means that an allocation failed.
    pub(crate) fn copied(&self, alloc: Global) -> Result<ManySpans, AllocError>
        ensures { IfOk result (λ many. many ≡ self.now) }
    {
        let ends = self.ends.copied(alloc)?;
        Ok(ManySpans { ends })
    }

    /// Whether there are no spans.
    pub(crate) fn is_empty(&self) -> bool
        ensures { IsTrue result ↔ (self.now ≡ []) }
    {
        self.ends.is_empty()
    }

    /// How many spans there are.
    pub(crate) fn len(&self) -> usize
        ensures { result ≡ length self.now }
    {
        self.ends.len()
    }

    /// The first span that ends beyond the bound.
    pub(crate) fn first_beyond(&self, bound: Bound) -> Option<Span>
        ensures { result ≡ first_span (spans_beyond bound self.now) }
    {
        let (hi, lo) = self.ends.above(bound)?;
        Some(Span::between(lo, hi))
    }

    /// The first span.
    pub(crate) fn first(&self) -> Option<Span>
        ensures { result ≡ first_span self.now }
    {
        let (hi, lo) = self.ends.iter().next()?;
        Some(Span::between(lo, hi))
    }

    /// The entries of the spans, by rising end.
    pub(crate) fn iter(&self) -> Iter<'_, Bound>
        ensures { spans_of result ≡ self.now }
    {
        self.ends.iter()
    }

    /// The entries of the spans that end beyond the bound, by rising end.
    pub(crate) fn iter_beyond(&self, bound: Bound) -> Iter<'_, Bound>
        ensures { spans_of result ≡ spans_beyond bound self.now }
    {
        self.ends.iter_from(bound)
    }

    /// Adds the keys of a span. An error means that an allocation failed: the spans are then
    /// unchanged.
    pub(crate) fn insert(&mut self, span: Span) -> Result<(), AllocError>
        ensures ok { OnOk result (self.new ≡ insert_span span self.old) }
        ensures err { OnErr result (self.new ≡ self.old) }
    {
        let alloc = self.ends.allocator();
        let change = insertion(alloc, &self.ends.lent(), span)?;
        self.ends
            .replace(alloc, change.from, change.to, &change.fresh)
    }

    /// Removes the keys of a span. An error means that an allocation failed: the spans are then
    /// unchanged.
    pub(crate) fn remove(&mut self, span: Span) -> Result<(), AllocError>
        ensures ok { OnOk result (self.new ≡ without_span span self.old) }
        ensures err { OnErr result (self.new ≡ self.old) }
    {
        let alloc = self.ends.allocator();
        let change = removal(alloc, &self.ends.lent(), span)?;
        self.ends
            .replace(alloc, change.from, change.to, &change.fresh)
    }
}
