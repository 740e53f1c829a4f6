//! Sets of keys.

ghost use Rattle.std.specs.Prelude.{◌≡◌, ◌↔◌, ℕ, ◌+◌, ◌<◌, ◌≤◌, true, false, List, [], ◌∷◌, length, IsTrue, IfOk, IfSome, OnOk, OnErr};
ghost use Rattle.std.specs.Prelude.{◌&&◌, ◌||◌, not};
ghost use Rattle.squall_key.specs.Keys.{top};
ghost use Rattle.squall_span.specs.Spans.{Interval, has, span_has, IsSet, insert_span, without_span};
ghost use Rattle.squall_span.specs.Spans.{first_span, spans_beyond, first_keys, total_length, how_many, spans_eq};
ghost use Rattle.squall_span.specs.Stored.{spans_in};
ghost use Rattle.squall_span.specs.SpanLaws.{spans_eq-laws, spans_eq-equivalence};

use crate::edit::{insert, remove};
use crate::list::{SpanList, listed};
use crate::many::ManySpans;
use crate::search::ended;
use crate::span::Span;
use crate::spans::Spans;
use crate::walk::{are_same, covers};
use squall_key::{Bound, Key};
use std::alloc::{AllocError, Global};
use std::marker::Model;

/// The most spans of a list in which a span is put before others. A longer list is made blocks
/// first: an edit then moves the spans of one block alone.
const FEW: usize = 256;

/// A set of keys, kept as spans in order, none of which overlaps or touches the next. A few spans
/// are in one list, and many are in blocks, so an edit takes about as long in a large set as in a
/// small one.
///
/// Contracts see a set as the list of its spans. No other such list has the same keys.
#[derive(Drop)]
pub struct SpanSet {
    pub(crate) store: Store,
}

/// The spans of a set: in one list, or in blocks.
#[derive(Drop)]
pub(crate) enum Store {
    Few(Vec<Span>),
    Many(Box<ManySpans>),
}

impl Store {
    /// Adds the keys of a span. An error means that an allocation failed: the spans are then
    /// unchanged.
    fn insert(&mut self, span: Span) -> Result<(), AllocError>
        requires { IsSet (spans_in self.old) }
        ensures ok { OnOk result (spans_in self.new ≡ insert_span span (spans_in self.old)) }
        ensures err { OnErr result (spans_in self.new ≡ spans_in self.old) }
    {
        match self {
            Store::Few(spans) => insert(spans, span),
            Store::Many(many) => many.insert(span),
        }
    }

    /// Removes the keys of a span. An error means that an allocation failed: the spans are then
    /// unchanged.
    fn remove(&mut self, span: Span) -> Result<(), AllocError>
        requires { IsSet (spans_in self.old) }
        ensures ok { OnOk result (spans_in self.new ≡ without_span span (spans_in self.old)) }
        ensures err { OnErr result (spans_in self.new ≡ spans_in self.old) }
    {
        match self {
            Store::Few(spans) => remove(spans, span),
            Store::Many(many) => many.remove(span),
        }
    }
}

impl Model for SpanSet {
    ghost use Rattle.std.specs.Prelude.{List};
    ghost use Rattle.squall_span.specs.Spans.{Interval, IsSet};
    ghost use Rattle.squall_span.specs.Stored.{spans_in};

    ghost Value = { List Interval };

    ghost view = { λ s. spans_in s.store };

    ghost invariant = { λ s. IsSet (spans_in s.store) };
}

impl SpanSet {
    /// The set of no keys. It allocates nothing.
    pub fn empty(alloc: Global) -> SpanSet
        ensures { result ≡ [] }
    {
        SpanSet::of_spans(Vec::new(alloc))
    }

    /// The set of these spans.
    pub(crate) fn of_spans(spans: Vec<Span>) -> SpanSet
        requires { IsSet spans.items }
        ensures { result ≡ spans.items }
    {
        SpanSet {
            store: Store::Few(spans),
        }
    }

    /// The set of spans that are in the order of a set: each ends before the next begins, and none
    /// touches the next. They are copied at once. An error means that an allocation failed.
    pub fn from_spans(alloc: Global, spans: &[Span]) -> Result<SpanSet, AllocError>
        requires { IsSet spans.now }
        ensures { IfOk result (λ set. set ≡ spans.now) }
    {
        let spans = Vec::from_slice(alloc, spans)?;
        Ok(SpanSet::of_spans(spans))
    }

    /// The set of the keys of a span. An error means that an allocation failed.
    pub fn of(alloc: Global, span: &Span) -> Result<SpanSet, AllocError>
        ensures { IfOk result (λ set. set ≡ span.now ∷ []) }
    {
        let mut set = SpanSet::empty(alloc);
        set.insert(*span)?;
        Ok(set)
    }

    /// A copy of the set. An error means that an allocation failed.
    pub fn copied(&self, alloc: Global) -> Result<SpanSet, AllocError>
        ensures { IfOk result (λ set. set ≡ self.now) }
    {
        match &self.store {
            Store::Few(spans) => SpanSet::from_spans(alloc, spans),
            Store::Many(many) => {
                let many = many.copied(alloc)?;
                let store = Store::Many(Box::new(alloc, many)?);
                Ok(SpanSet { store })
            }
        }
    }

    /// Changes nothing: after it a proof knows that the list of the set is that of a set.
    pub fn known(&self)
        ensures { IsSet self.now }
    {
        let _store = &self.store;
    }

    /// The spans of the set, in order, none of which overlaps or touches the next.
    pub fn spans(&self) -> Spans<'_>
        ensures value { result ≡ self.now }
        ensures set { IsSet self.now }
    {
        match &self.store {
            Store::Few(spans) => Spans::few(spans),
            Store::Many(many) => Spans::many(many.iter()),
        }
    }

    /// The spans of the set from the first on that ends beyond the bound, which a binary search
    /// finds.
    pub fn spans_beyond(&self, bound: Bound) -> Spans<'_>
        ensures value { result ≡ spans_beyond bound self.now }
        ensures set { IsSet self.now }
    {
        match &self.store {
            Store::Few(spans) => Spans::few(&spans[ended(spans, bound)..]),
            Store::Many(many) => Spans::many(many.iter_beyond(bound)),
        }
    }

    /// The first span that ends beyond the bound, which a binary search finds.
    pub fn first_beyond(&self, bound: Bound) -> Option<Span>
        ensures value { result ≡ first_span (spans_beyond bound self.now) }
        ensures set { IsSet self.now }
    {
        match &self.store {
            Store::Few(spans) => {
                let at = ended(spans, bound);
                if at < spans.len() {
                    Some(spans[at])
                } else {
                    None
                }
            }
            Store::Many(many) => many.first_beyond(bound),
        }
    }

    /// The first span of the set. None if the set is empty.
    pub fn first(&self) -> Option<Span>
        ensures value { result ≡ first_span self.now }
        ensures set { IsSet self.now }
    {
        match &self.store {
            Store::Few(spans) => spans.first().copied(),
            Store::Many(many) => many.first(),
        }
    }

    /// How many spans the set has.
    pub fn len(&self) -> usize
        ensures { result ≡ length self.now }
    {
        match &self.store {
            Store::Few(spans) => spans.len(),
            Store::Many(many) => many.len(),
        }
    }

    /// Whether the set has no key.
    pub fn is_empty(&self) -> bool
        ensures value { IsTrue result ↔ (self.now ≡ []) }
    {
        match &self.store {
            Store::Few(spans) => spans.is_empty(),
            Store::Many(many) => many.is_empty(),
        }
    }

    /// Whether the key is in the set, by a binary search.
    pub fn has(&self, key: Key) -> bool
        ensures { result ≡ has self.now key }
    {
        match self.first_beyond(Bound::of_key(key)) {
            Some(span) => span.has(key),
            None => false,
        }
    }

    /// Whether each key of the other set is in this one.
    pub fn covers(&self, other: &SpanSet) -> bool
        ensures { IsTrue result ↔ ((k : ℕ) → has other.now k ≡ true → has self.now k ≡ true) }
    {
        covers(self.spans(), other.spans())
    }

    /// How many keys the set has.
    pub fn count(&self) -> u64
        ensures value { result ≡ total_length self.now }
        ensures number { result ≡ how_many (has self.now) top }
    {
        let mut count = 0;
        for span in self.spans() {
            count += span.count();
        }
        count
    }

    /// The first keys of the set without a gap: the prefix of its first span, of at most `max`
    /// keys. None if the set is empty or `max` is 0.
    pub fn first_keys(&self, max: u64) -> Option<Span>
        ensures value { result ≡ first_keys max self.now }
        ensures kept { IfSome result (λ s. (k : ℕ) → span_has s k ≡ true → has self.now k ≡ true) }
        ensures least { IfSome result (λ s. (k : ℕ) → has self.now k ≡ true → s.lo ≤ k) }
        ensures few { IfSome result (λ s. s.hi ≤ s.lo + max) }
        ensures whole { IfSome result (λ s. s.hi < s.lo + max → has self.now s.hi ≡ false) }
    {
        let first = self.first()?;
        if max == 0 {
            return None;
        }
        if first.count() <= max {
            return Some(first);
        }
        let hi = Bound::of_rank(first.lo().rank() + max)?;
        Some(Span::between(first.lo(), hi))
    }

    /// The spans of the set in one list. A few are lent, and many are copied. An error means that an
    /// allocation failed.
    pub fn list(&self, alloc: Global) -> Result<SpanList<'_>, AllocError>
        ensures { IfOk result (λ list. list ≡ self.now) }
    {
        match &self.store {
            Store::Few(spans) => Ok(SpanList::lent(spans)),
            Store::Many(_) => {
                let spans = listed(alloc, self.len(), self.spans())?;
                Ok(SpanList::own(spans))
            }
        }
    }

    /// The spans of the set in one list. A few are moved, and many are copied. An error means that an
    /// allocation failed: the set is then gone.
    pub fn into_list(self, alloc: Global) -> Result<Vec<Span>, AllocError>
        ensures { IfOk result (λ list. list.items ≡ self) }
    {
        let SpanSet { store } = self;
        match store {
            Store::Few(spans) => Ok(spans),
            Store::Many(many) => listed(alloc, many.len(), Spans::many(many.iter())),
        }
    }

    /// Puts the spans into blocks if they are in a list that is too long for an edit in it.
    pub(crate) fn spread(&mut self) -> Result<(), AllocError>
        ensures { self.new ≡ self.old }
    {
        if let Store::Few(spans) = &self.store {
            if spans.len() >= FEW {
                let alloc = *spans.allocator();
                let many = ManySpans::of_spans(alloc, spans)?;
                self.store = Store::Many(Box::new(alloc, many)?);
            }
        }
        Ok(())
    }

    /// Puts the spans into blocks if they are in a list that is too long for the span to be added in
    /// it. A span that starts where the last one does, or beyond, changes only the end of a list,
    /// however long it is.
    fn ready_for(&mut self, span: Span) -> Result<(), AllocError>
        ensures { self.new ≡ self.old }
    {
        if let Store::Few(spans) = &self.store {
            if let Some(last) = spans.last() {
                if last.lo() <= span.lo() {
                    return Ok(());
                }
            }
        }
        self.spread()
    }

    /// Adds the keys of a span. An error means that an allocation failed: the set is then
    /// unchanged.
    pub fn insert(&mut self, span: Span) -> Result<(), AllocError>
        ensures value { OnOk result (self.new ≡ insert_span span self.old) }
        ensures keys { OnOk result ((k : ℕ) → has self.new k ≡ (span_has span k || has self.old k)) }
        ensures err { OnErr result (self.new ≡ self.old) }
    {
        self.ready_for(span)?;
        self.store.insert(span)
    }

    /// Removes the keys of a span. An error means that an allocation failed: the set is then
    /// unchanged.
    pub fn remove(&mut self, span: Span) -> Result<(), AllocError>
        ensures value { OnOk result (self.new ≡ without_span span self.old) }
        ensures keys { OnOk result ((k : ℕ) → has self.new k ≡ (has self.old k && not (span_has span k))) }
        ensures err { OnErr result (self.new ≡ self.old) }
    {
        self.spread()?;
        self.store.remove(span)
    }
}

/// Whether both sets have the same keys.
impl PartialEq for SpanSet {
    ghost eq = { spans_eq };

    ghost laws = { spans_eq-laws };

    fn eq(&self, other: &SpanSet) -> bool {
        are_same(self.spans(), other.spans())
    }
}

impl Eq for SpanSet {
    ghost laws = { spans_eq-equivalence };
}
