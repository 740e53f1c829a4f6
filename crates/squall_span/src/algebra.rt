//! Sets that are made of two, or of one at a bound.

ghost use Rattle.std.specs.Prelude.{◌≡◌, ℕ, ◌&&◌, ◌||◌, not, nat_lt, nat_le, IfOk, IfErr, OnOk, OnErr};
ghost use Rattle.squall_span.specs.Spans.{has, union, minus, meet, keys_below, keys_from};
ghost use Rattle.squall_span.specs.Within.{HasBeside};

use crate::alone::alone;
use crate::common::common;
use crate::draft::{SetDraft, draft_whole};
use crate::edit::cut;
use crate::list::listed;
use crate::near::listed_near;
use crate::set::SpanSet;
use crate::span::Span;
use crate::sweep::merge;
use squall_key::Bound;
use std::alloc::{AllocError, Global};
use std::mem::replace;

/// The most spans that are added in place.
const FEW: usize = 64;

impl SpanSet {
    /// The keys of either set. An error means that an allocation failed.
    ///
    /// A few spans are added to a copy of many. Else the spans of both are merged.
    pub fn union(&self, alloc: Global, other: &SpanSet) -> Result<SpanSet, AllocError>
        ensures value { IfOk result (λ set. set ≡ union self.now other.now) }
        ensures keys { IfOk result (λ set. (k : ℕ) → has set k ≡ (has self.now k || has other.now k)) }
    {
        self.known();
        other.known();
        if self.are_few(other.len()) {
            self.with_few(alloc, other)
        } else {
            self.merged(alloc, other)
        }
    }

    /// The keys of either set, whose spans are merged.
    pub(crate) fn merged(&self, alloc: Global, other: &SpanSet) -> Result<SpanSet, AllocError>
        ensures { IfOk result (λ set. set ≡ union self.now other.now) }
    {
        let room = self.len().saturating_add(other.len());
        let spans = merge(alloc, room, self.spans(), other.spans())?;
        Ok(SpanSet::of_spans(spans))
    }

    /// A copy of this set with the keys of the other, which has few spans.
    fn with_few(&self, alloc: Global, other: &SpanSet) -> Result<SpanSet, AllocError>
        ensures { IfOk result (λ set. set ≡ union self.now other.now) }
    {
        let list = other.list(alloc)?;
        let mut both = self.copied(alloc)?;
        both.insert_each(list.spans())?;
        Ok(both)
    }

    /// Adds the keys of spans one by one, from the last to the first. After an error some may have
    /// been added.
    fn insert_each(&mut self, spans: &[Span]) -> Result<(), AllocError>
        ensures { OnOk result (self.new ≡ union self.old spans.now) }
    {
        let mut at = spans.len();
        while at > 0 {
            at -= 1;
            self.insert(spans[at])?;
        }
        Ok(())
    }

    /// Whether this set has so few spans beside the other that a search for each of them is faster
    /// than a walk along the other.
    fn is_far_less(&self, other: &SpanSet) -> bool {
        self.len() <= other.len() / 32
    }

    /// The spans of this set that share a key with the other, which has far fewer. An error means
    /// that an allocation failed.
    fn beside(&self, alloc: Global, other: &SpanSet) -> Result<SpanSet, AllocError>
        ensures { IfOk result (λ near. HasBeside other.now self.now near) }
    {
        let list = other.list(alloc)?;
        let spans = listed_near(alloc, list.spans(), self)?;
        Ok(SpanSet::of_spans(spans))
    }

    /// The keys of this set that the other lacks, by a walk along both.
    fn walked_minus(&self, alloc: Global, other: &SpanSet) -> Result<SpanSet, AllocError>
        ensures { IfOk result (λ set. set ≡ minus self.now other.now) }
    {
        other.known();
        let mut rest = self.spans();
        let Some(first) = rest.next() else {
            return Ok(SpanSet::empty(alloc));
        };
        let others = other.spans_beyond(first.lo());
        let spans = alone(alloc, self.len(), first, rest, others)?;
        Ok(SpanSet::of_spans(spans))
    }

    /// The keys of this set that the other lacks. An error means that an allocation failed.
    pub fn minus(&self, alloc: Global, other: &SpanSet) -> Result<SpanSet, AllocError>
        ensures value { IfOk result (λ set. set ≡ minus self.now other.now) }
        ensures keys { IfOk result (λ set. (k : ℕ) → has set k ≡ (has self.now k && not (has other.now k))) }
    {
        self.known();
        other.known();
        if self.is_far_less(other) {
            let near = other.beside(alloc, self)?;
            near.known();
            return self.walked_minus(alloc, &near);
        }
        self.walked_minus(alloc, other)
    }

    /// The keys that are in both sets, by a walk along both.
    fn walked_meet(&self, alloc: Global, other: &SpanSet) -> Result<SpanSet, AllocError>
        ensures { IfOk result (λ set. set ≡ meet self.now other.now) }
    {
        self.known();
        other.known();
        let spans = common(alloc, self, other)?;
        Ok(SpanSet::of_spans(spans))
    }

    /// The keys that are in both sets. An error means that an allocation failed.
    pub fn meet(&self, alloc: Global, other: &SpanSet) -> Result<SpanSet, AllocError>
        ensures value { IfOk result (λ set. set ≡ meet self.now other.now) }
        ensures keys { IfOk result (λ set. (k : ℕ) → has set k ≡ (has self.now k && has other.now k)) }
    {
        self.known();
        other.known();
        if self.is_far_less(other) {
            let near = other.beside(alloc, self)?;
            near.known();
            return self.walked_meet(alloc, &near);
        }
        if other.is_far_less(self) {
            let near = self.beside(alloc, other)?;
            near.known();
            return near.walked_meet(alloc, other);
        }
        self.walked_meet(alloc, other)
    }

    /// The keys below the bound, and the others. An error means that an allocation failed.
    pub fn split_at(&self, alloc: Global, bound: Bound) -> Result<(SpanSet, SpanSet), AllocError>
        ensures first { IfOk result (λ sets. sets.0 ≡ keys_below bound self.now) }
        ensures second { IfOk result (λ sets. sets.1 ≡ keys_from bound self.now) }
        ensures below { IfOk result (λ sets. (k : ℕ) → has sets.0 k ≡ (has self.now k && nat_lt k bound)) }
        ensures others { IfOk result (λ sets. (k : ℕ) → has sets.1 k ≡ (has self.now k && nat_le bound k)) }
    {
        let list = self.list(alloc)?;
        let (below, others) = cut(alloc, list.spans(), bound)?;
        Ok((SpanSet::of_spans(below), SpanSet::of_spans(others)))
    }

    /// Whether `more` spans are added in place. Each is a search and a move of what follows it in a
    /// list or in a block, and a union copies each span once. One span in place takes about as long
    /// as the union of a set of eight.
    fn are_few(&self, more: usize) -> bool {
        more <= FEW && more <= self.len() / 8
    }

    /// Adds the keys of spans in place, all of them or none. An error means that an allocation
    /// failed: the set is then unchanged.
    fn add_few(&mut self, alloc: Global, spans: &[Span]) -> Result<(), AllocError>
        ensures ok { OnOk result (self.new ≡ union self.old spans.now) }
        ensures err { OnErr result (self.new ≡ self.old) }
    {
        let spans = Vec::from_slice(alloc, spans)?;
        match replace(self, SpanSet::empty(alloc)).draft_insert_all(spans) {
            Ok(draft) => {
                *self = draft.keep();
                Ok(())
            }
            Err(unchanged) => {
                *self = unchanged;
                Err(AllocError)
            }
        }
    }

    /// Adds the keys of the other set: one span, or a few to many, in place, and else by the union of
    /// both. An error means that an allocation failed: the set is then unchanged.
    pub fn add(&mut self, alloc: Global, other: &SpanSet) -> Result<(), AllocError>
        ensures ok { OnOk result (self.new ≡ union self.old other.now) }
        ensures err { OnErr result (self.new ≡ self.old) }
    {
        if other.len() > 1 && !self.are_few(other.len()) {
            let both = self.merged(alloc, other)?;
            *self = both;
            return Ok(());
        }
        let list = other.list(alloc)?;
        match list.spans() {
            [] => Ok(()),
            [span] => self.insert(*span),
            spans => self.add_few(alloc, spans),
        }
    }

    /// A draft that adds the keys of the other set: one span, or a few to many, in place, and else
    /// by the union of both. If an allocation fails, the error is the unchanged set.
    pub fn draft_add(self, alloc: Global, other: &SpanSet) -> Result<SetDraft, SpanSet>
        ensures before { IfOk result (λ d. d.before ≡ self) }
        ensures after { IfOk result (λ d. d.after ≡ union self other.now) }
        ensures err { IfErr result (λ s. s ≡ self) }
    {
        if other.len() > 1 && !self.are_few(other.len()) {
            return draft_whole(alloc, self, other);
        }
        match listed(alloc, other.len(), other.spans()) {
            Ok(spans) => self.draft_insert_all(spans),
            Err(_) => Err(self),
        }
    }
}
