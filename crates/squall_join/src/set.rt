//! Sets of keys under their union.

ghost use Rattle.std.specs.Prelude.{◌≡◌, []};
ghost use Rattle.squall_span.specs.Spans.{IsSet, union, minus};
ghost use Rattle.squall_join.specs.SetLaws.{set_laws};
ghost use Rattle.squall_join.specs.Rests.{set_covered};
ghost use Rattle.squall_join.specs.Units.{key_unit};
ghost use Rattle.squall_join.specs.BeyondLaws.{set_beyond_laws};

use crate::{Beyond, Join};
use squall_span::{SetDraft, SpanSet};
use std::alloc::{AllocError, Global};
use std::mem::replace;

impl Join for SpanSet {
    ghost is_value = { IsSet };

    ghost bottom = { [] };

    ghost join = { union };

    ghost laws = { set_laws };

    type Draft = SetDraft;

    ghost is_draft = { λ _. Unit {0} };

    ghost before = { λ d. d.before };

    ghost after = { λ d. d.after };

    fn known(&self) {
        SpanSet::known(self);
    }

    fn bottom(alloc: Global) -> SpanSet {
        SpanSet::empty(alloc)
    }

    fn is_bottom(&self) -> bool {
        self.is_empty()
    }

    fn covers(&self, other: &SpanSet) -> bool {
        self.known();
        other.known();
        SpanSet::covers(self, other)
    }

    fn joined(&self, alloc: Global, other: &SpanSet) -> Result<SpanSet, AllocError> {
        self.union(alloc, other)
    }

    fn copied(&self, alloc: Global) -> Result<SpanSet, AllocError> {
        SpanSet::copied(self, alloc)
    }

    /// Adds one span in place, and a few to many: each takes a search and a move of spans of one
    /// block. Else it makes the union, whose time grows with the sum of both.
    fn join_in(&mut self, alloc: Global, other: &SpanSet) -> Result<(), AllocError> {
        self.add(alloc, other)
    }

    fn draft_join(&mut self, alloc: Global, other: &SpanSet) -> Result<SetDraft, AllocError> {
        match replace(self, SpanSet::empty(alloc)).draft_add(alloc, other) {
            Ok(draft) => Ok(draft),
            Err(unchanged) => {
                *self = unchanged;
                Err(AllocError)
            }
        }
    }

    fn keep(draft: SetDraft) -> SpanSet {
        draft.keep()
    }

    fn undo(draft: SetDraft) -> SpanSet {
        draft.undo()
    }
}

impl Beyond for SpanSet {
    ghost covered = { set_covered };

    ghost unit = { key_unit };

    ghost beyond = { minus };

    ghost beyond_laws = { set_beyond_laws };

    fn beyond(&self, alloc: Global, other: &SpanSet) -> Result<SpanSet, AllocError> {
        self.minus(alloc, other)
    }
}
