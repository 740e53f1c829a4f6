//! Edits of a set that are kept or undone.

ghost use Rattle.std.specs.Prelude.{◌≡◌, ◌+◌, ◌<◌, ◌≤◌, length, vec_len, vec_capacity, IfOk, IfErr, OnOk};
ghost use Rattle.squall_span.specs.Spans.{IsSet, insert_span, union, without_span};
ghost use Rattle.squall_span.specs.Many.{spans_of};
ghost use Rattle.squall_span.specs.Pending.{edited, most_added};

use crate::changes::{insertion, removal};
use crate::edit::{insert_ready, remove_ready};
use crate::many::ManySpans;
use crate::set::{SpanSet, Store};
use crate::span::Span;
use squall_blocks::{Blocks, Draft};
use squall_key::Bound;
use std::alloc::{AllocError, Global};
use std::marker::Model;
use std::mem::replace;

/// A set with an edit that is kept or undone, neither of which can fail.
///
/// Use it to make all of several edits or none, without a copy of a set. A caller takes its sets
/// out of its fields and drafts an edit of each. Then it does whatever else can fail. If anything
/// has failed, it undoes the edits. Otherwise it keeps them.
///
/// Contracts see it as the list of its spans before the edit, `before`, and with it, `after`.
#[derive(Drop)]
pub struct SetDraft {
    pending: Pending,
}

/// An edit, and the spans: in a list that has room for it, or in blocks in which it is made. The
/// box is that of the blocks, without them. An edit that makes the set anew keeps both sets.
#[derive(Drop)]
enum Pending {
    Few(Vec<Span>, Edit),
    Many(Box<ManySpans>, Draft<Bound>),
    Whole(SpanSet, SpanSet),
}

/// An edit of a set.
#[derive(Drop)]
enum Edit {
    /// Adds the keys of a span.
    Insert(Span),
    /// Adds the keys of spans.
    InsertAll(Vec<Span>),
    /// Removes the keys of a span.
    Remove(Span),
}

impl Model for SetDraft {
    ghost use Rattle.squall_span.specs.Drafts.{DraftValue};
    ghost use Rattle.squall_span.specs.Pending.{before, after, IsPending};

    ghost Value = { DraftValue };

    ghost view = { λ s. record { before = before s.pending; after = after s.pending } };

    ghost invariant = { λ s. IsPending s.pending };
}

/// How many spans the edit adds at most.
fn most_added(edit: &Edit) -> usize
    ensures { result ≡ most_added edit.now }
{
    match edit {
        Edit::InsertAll(spans) => spans.len(),
        Edit::Insert(_) | Edit::Remove(_) => 1,
    }
}

/// Adds the keys of a span, in spare capacity.
fn insert_one(list: &mut Vec<Span>, span: Span)
    requires set { IsSet list.old.items }
    requires room { vec_len list.old < vec_capacity list.old }
    ensures value { list.new.items ≡ insert_span span list.old.items }
    ensures set { IsSet list.new.items }
    ensures len { vec_len list.new ≤ vec_len list.old + 1 }
    ensures capacity { vec_capacity list.new ≡ vec_capacity list.old }
{
    insert_ready(list, span);
}

/// Removes the keys of a span. There is room for one more.
fn remove_one(list: &mut Vec<Span>, span: Span)
    requires set { IsSet list.old.items }
    requires room { vec_len list.old < vec_capacity list.old }
    ensures value { list.new.items ≡ without_span span list.old.items }
    ensures set { IsSet list.new.items }
{
    remove_ready(list, span);
}

/// Adds the keys of spans from the last to the first, in spare capacity.
fn insert_all(list: &mut Vec<Span>, spans: &[Span])
    requires set { IsSet list.old.items }
    requires room { vec_len list.old + length spans.now ≤ vec_capacity list.old }
    ensures value { list.new.items ≡ union list.old.items spans.now }
    ensures set { IsSet list.new.items }
{
    let mut at = spans.len();
    while at > 0 {
        at -= 1;
        insert_one(list, spans[at]);
    }
}

/// Makes the edit in a list that has room for it.
fn make(list: &mut Vec<Span>, edit: &Edit)
    requires set { IsSet list.old.items }
    requires room { vec_len list.old + most_added edit.now ≤ vec_capacity list.old }
    ensures value { list.new.items ≡ edited edit.now list.old.items }
    ensures set { IsSet list.new.items }
{
    match edit {
        Edit::Insert(span) => insert_one(list, *span),
        Edit::InsertAll(spans) => insert_all(list, spans),
        Edit::Remove(span) => remove_one(list, *span),
    }
}

/// Adds the keys of a span, in blocks. An error means that an allocation failed: the spans are then
/// unchanged.
fn draft_with(draft: &mut Draft<Bound>, span: Span) -> Result<(), AllocError>
    requires set { IsSet (spans_of draft.old.1) }
    requires some { 0 < length draft.old.1 }
    ensures before { draft.new.0 ≡ draft.old.0 }
    ensures after { OnOk result (spans_of draft.new.1 ≡ insert_span span (spans_of draft.old.1)) }
    ensures set { OnOk result (IsSet (spans_of draft.new.1)) }
{
    let alloc = draft.allocator();
    let change = insertion(alloc, &draft.lent(), span)?;
    draft.replace(alloc, change.from, change.to, &change.fresh)
}

/// Adds the keys of spans from the last to the first, in blocks. After an error some have been
/// added.
fn draft_all(draft: &mut Draft<Bound>, spans: &[Span]) -> Result<(), AllocError>
    requires set { IsSet (spans_of draft.old.1) }
    requires some { 0 < length draft.old.1 }
    ensures before { draft.new.0 ≡ draft.old.0 }
    ensures after { OnOk result (spans_of draft.new.1 ≡ union (spans_of draft.old.1) spans.now) }
    ensures set { OnOk result (IsSet (spans_of draft.new.1)) }
{
    let mut at = spans.len();
    while at > 0 {
        at -= 1;
        draft_with(draft, spans[at])?;
    }
    Ok(())
}

/// Removes the keys of a span, in blocks. An error means that an allocation failed.
fn draft_without(draft: &mut Draft<Bound>, span: Span) -> Result<(), AllocError>
    requires set { IsSet (spans_of draft.old.1) }
    requires some { 0 < length draft.old.1 }
    ensures before { draft.new.0 ≡ draft.old.0 }
    ensures after { OnOk result (spans_of draft.new.1 ≡ without_span span (spans_of draft.old.1)) }
    ensures set { OnOk result (IsSet (spans_of draft.new.1)) }
{
    let alloc = draft.allocator();
    let change = removal(alloc, &draft.lent(), span)?;
    draft.replace(alloc, change.from, change.to, &change.fresh)
}

/// Makes the edit in blocks. After an error a part of it may have been made.
fn make_draft(draft: &mut Draft<Bound>, edit: &Edit) -> Result<(), AllocError>
    requires set { IsSet (spans_of draft.old.1) }
    requires some { 0 < length draft.old.1 }
    ensures before { draft.new.0 ≡ draft.old.0 }
    ensures after { OnOk result (spans_of draft.new.1 ≡ edited edit.now (spans_of draft.old.1)) }
    ensures set { OnOk result (IsSet (spans_of draft.new.1)) }
{
    match edit {
        Edit::Insert(span) => draft_with(draft, *span),
        Edit::InsertAll(spans) => draft_all(draft, spans),
        Edit::Remove(span) => draft_without(draft, *span),
    }
}

/// The set of the blocks, in that box.
fn set_of(room: Box<ManySpans>, ends: Blocks<Bound>) -> SpanSet
    requires { IsSet (spans_of ends) }
    ensures { result ≡ spans_of ends }
{
    let mut room = room;
    *room = ManySpans { ends };
    SpanSet {
        store: Store::Many(room),
    }
}

/// A draft of the edit in a list. If an allocation fails, the error is the unchanged set.
fn draft_few(list: Vec<Span>, edit: Edit) -> Result<SetDraft, SpanSet>
    requires { IsSet list.items }
    ensures before { IfOk result (λ d. d.before ≡ list.items) }
    ensures after { IfOk result (λ d. d.after ≡ edited edit list.items) }
    ensures err { IfErr result (λ s. s ≡ list.items) }
{
    let mut list = list;
    match list.reserve(most_added(&edit)) {
        Ok(()) => Ok(SetDraft {
            pending: Pending::Few(list, edit),
        }),
        Err(_) => Err(SpanSet::of_spans(list)),
    }
}

/// A draft of the edit in blocks. If an allocation fails, the error is the unchanged set.
fn draft_many(room: Box<ManySpans>, edit: Edit) -> Result<SetDraft, SpanSet>
    ensures before { IfOk result (λ d. d.before ≡ room.value) }
    ensures after { IfOk result (λ d. d.after ≡ edited edit room.value) }
    ensures err { IfErr result (λ s. s ≡ room.value) }
{
    let mut room = room;
    let alloc = room.ends.allocator();
    if room.is_empty() {
        return draft_few(Vec::new(alloc), edit);
    }
    let many = replace(&mut *room, ManySpans::empty(alloc));
    let mut draft = Draft::of(many.ends);
    match make_draft(&mut draft, &edit) {
        Ok(()) => Ok(SetDraft {
            pending: Pending::Many(room, draft),
        }),
        Err(_) => Err(set_of(room, draft.undo())),
    }
}

/// A draft of the edit. If an allocation fails, the error is the unchanged set.
fn draft(set: SpanSet, edit: Edit) -> Result<SetDraft, SpanSet>
    ensures before { IfOk result (λ d. d.before ≡ set) }
    ensures after { IfOk result (λ d. d.after ≡ edited edit set) }
    ensures err { IfErr result (λ s. s ≡ set) }
{
    let mut set = set;
    if set.spread().is_err() {
        return Err(set);
    }
    let SpanSet { store } = set;
    match store {
        Store::Few(list) => draft_few(list, edit),
        Store::Many(room) => draft_many(room, edit),
    }
}

/// A draft of the union with the other set, which is made anew. If an allocation fails, the error
/// is the unchanged set.
pub(crate) fn draft_whole(alloc: Global, set: SpanSet, other: &SpanSet) -> Result<SetDraft, SpanSet>
    ensures before { IfOk result (λ d. d.before ≡ set) }
    ensures after { IfOk result (λ d. d.after ≡ union set other.now) }
    ensures err { IfErr result (λ s. s ≡ set) }
{
    match set.merged(alloc, other) {
        Ok(both) => Ok(SetDraft {
            pending: Pending::Whole(set, both),
        }),
        Err(_) => Err(set),
    }
}

impl SpanSet {
    /// A draft that adds the keys of a span. If an allocation fails, the error is the unchanged set.
    pub fn draft_insert(self, span: Span) -> Result<SetDraft, SpanSet>
        ensures before { IfOk result (λ d. d.before ≡ self) }
        ensures after { IfOk result (λ d. d.after ≡ insert_span span self) }
        ensures err { IfErr result (λ s. s ≡ self) }
    {
        draft(self, Edit::Insert(span))
    }

    /// A draft that adds the keys of spans. If an allocation fails, the error is the unchanged set.
    pub fn draft_insert_all(self, spans: Vec<Span>) -> Result<SetDraft, SpanSet>
        ensures before { IfOk result (λ d. d.before ≡ self) }
        ensures after { IfOk result (λ d. d.after ≡ union self spans.items) }
        ensures err { IfErr result (λ s. s ≡ self) }
    {
        draft(self, Edit::InsertAll(spans))
    }

    /// A draft that removes the keys of a span. If an allocation fails, the error is the unchanged
    /// set.
    pub fn draft_remove(self, span: Span) -> Result<SetDraft, SpanSet>
        ensures before { IfOk result (λ d. d.before ≡ self) }
        ensures after { IfOk result (λ d. d.after ≡ without_span span self) }
        ensures err { IfErr result (λ s. s ≡ self) }
    {
        draft(self, Edit::Remove(span))
    }
}

impl SetDraft {
    /// Keeps the edit.
    pub fn keep(self) -> SpanSet
        ensures { result ≡ self.after }
    {
        match self.pending {
            Pending::Few(list, edit) => {
                let mut list = list;
                make(&mut list, &edit);
                SpanSet::of_spans(list)
            }
            Pending::Many(room, draft) => set_of(room, draft.keep()),
            Pending::Whole(_, after) => after,
        }
    }

    /// Undoes the edit: the set is the one before it.
    pub fn undo(self) -> SpanSet
        ensures { result ≡ self.before }
    {
        match self.pending {
            Pending::Few(list, _) => SpanSet::of_spans(list),
            Pending::Many(room, draft) => set_of(room, draft.undo()),
            Pending::Whole(before, _) => before,
        }
    }
}
