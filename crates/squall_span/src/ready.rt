//! Sets of keys with room for more spans.

ghost use Rattle.std.specs.Prelude.{◌≡◌, ℕ, ◌+◌, ◌-◌, ◌<◌, ◌≤◌, ◌&&◌, ◌||◌, not, [], IfOk};
ghost use Rattle.squall_span.specs.Spans.{has, span_has, insert_span, without_span};

use crate::edit::{insert_ready, remove_ready};
use crate::set::SpanSet;
use crate::span::Span;
use std::alloc::{AllocError, Global};
use std::marker::Model;

/// A set of keys that is made span by span, with room for more. With room for `n` of them, `n` edits
/// cannot fail.
///
/// Use it where the number of spans is known: then memory is asked for once, and not at each span.
///
/// Contracts see it as the list of its spans, `set`, and how many more spans it has room for,
/// `room`. An edit adds one span at most.
#[derive(Drop)]
pub struct ReadySet {
    spans: Vec<Span>,
}

impl Model for ReadySet {
    ghost use Rattle.std.specs.Prelude.{◌-◌, vec_len, vec_capacity};
    ghost use Rattle.squall_span.specs.Ready.{ReadyValue};
    ghost use Rattle.squall_span.specs.Spans.{IsSet};

    ghost Value = { ReadyValue };

    ghost view = { λ s. record { set = s.spans.items; room = vec_capacity s.spans - vec_len s.spans } };

    ghost invariant = { λ s. IsSet s.spans.items };
}

impl ReadySet {
    /// The set of no keys, with room for `count` spans. An error means that an allocation failed.
    pub fn with_room(alloc: Global, count: usize) -> Result<ReadySet, AllocError>
        ensures none { IfOk result (λ r. r.set ≡ []) }
        ensures room { IfOk result (λ r. r.room ≡ count) }
    {
        let spans = Vec::with_capacity(alloc, count)?;
        Ok(ReadySet { spans })
    }

    /// How many more spans the set has room for.
    pub fn room(&self) -> usize
        ensures { result ≡ self.now.room }
    {
        self.spans.capacity() - self.spans.len()
    }

    /// Adds the keys of a span. It needs room for one span, and allocates nothing.
    pub fn insert(&mut self, span: Span)
        requires room { 0 < self.old.room }
        ensures set { self.new.set ≡ insert_span span self.old.set }
        ensures keys { (k : ℕ) → has self.new.set k ≡ (span_has span k || has self.old.set k) }
        ensures room { self.old.room ≤ self.new.room + 1 }
    {
        insert_ready(&mut self.spans, span);
    }

    /// Removes the keys of a span. It needs room for one span, since a span may be cut in two, and
    /// allocates nothing.
    pub fn remove(&mut self, span: Span)
        requires room { 0 < self.old.room }
        ensures set { self.new.set ≡ without_span span self.old.set }
        ensures keys { (k : ℕ) → has self.new.set k ≡ (has self.old.set k && not (span_has span k)) }
        ensures room { self.old.room ≤ self.new.room + 1 }
    {
        remove_ready(&mut self.spans, span);
    }

    /// The set alone. It keeps the room that is left.
    pub fn into_set(self) -> SpanSet
        ensures { result ≡ self.set }
    {
        SpanSet::of_spans(self.spans)
    }
}
