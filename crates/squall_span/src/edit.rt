//! Edits of the spans of a set.

ghost use Rattle.std.specs.Prelude.{◌≡◌, ◌+◌, ◌<◌, ◌≤◌, ◌++◌, length, take, drop, option_to_list, vec_len, vec_capacity, IsTrue, IsFalse, IfOk, OnOk, OnErr};
ghost use Rattle.std.specs.List.{insert as inserted};
ghost use Rattle.squall_span.specs.Places.{Ended, IsCut};
ghost use Rattle.squall_span.specs.Spans.{IsCanonical, IsSet, insert_span, keys_below, keys_from, without_span};

use crate::search::{all_apart, apart, ended, started};
use crate::span::Span;
use squall_key::Bound;
use std::alloc::{AllocError, Global};

/// Puts a span at a place, before those from there on. There must be room for it.
///
/// It is used instead of `Vec::insert`, since a rotation by one compiles to one block move of what
/// follows.
fn put(spans: &mut Vec<Span>, at: usize, span: Span)
    requires within { at ≤ length spans.old.items }
    requires room { vec_len spans.old < vec_capacity spans.old }
    ensures value { spans.new.items ≡ inserted spans.old.items at span }
    ensures len { vec_len spans.new ≡ vec_len spans.old + 1 }
    ensures capacity { vec_capacity spans.new ≡ vec_capacity spans.old }
{
    spans.push_reserved(span);
    spans[at..].rotate_right(1);
}

/// Takes out the spans from one place to another.
fn cut_out(spans: &mut Vec<Span>, from: usize, to: usize)
    requires order { from ≤ to }
    requires within { to ≤ length spans.old.items }
    ensures value { spans.new.items ≡ take from spans.old.items ++ drop to spans.old.items }
    ensures len { vec_len spans.new ≤ vec_len spans.old }
    ensures capacity { vec_capacity spans.new ≡ vec_capacity spans.old }
{
    // If none goes, a move would only write what follows over itself.
    if from < to {
        let left = spans.len() - (to - from);
        spans.copy_within(to.., from);
        spans.truncate(left);
    }
}

/// Adds the keys of a span. There must be room for one more.
pub(crate) fn insert_ready(spans: &mut Vec<Span>, span: Span)
    requires canonical { IsCanonical spans.old.items }
    requires room { vec_len spans.old < vec_capacity spans.old }
    ensures value { spans.new.items ≡ insert_span span spans.old.items }
    ensures len { vec_len spans.new ≤ vec_len spans.old + 1 }
    ensures capacity { vec_capacity spans.new ≡ vec_capacity spans.old }
{
    // Spans mostly come in order, so one beyond the last is added at the end without a search.
    if all_apart(spans, span.lo()) {
        spans.push_reserved(span);
        return;
    }
    let from = apart(spans, span.lo());
    let to = started(spans, span.hi());
    if from == to {
        put(spans, from, span);
        return;
    }
    let lo = span.lo().min(spans[from].lo());
    let hi = span.hi().max(spans[to - 1].hi());
    spans[from] = Span::between(lo, hi);
    cut_out(spans, from + 1, to);
}

/// Adds the keys of a span to the last span, if that one starts no later and is touched. Says
/// whether it did.
///
/// A load in chunks makes the last span longer again and again. That takes no search and no memory.
fn lengthen(spans: &mut Vec<Span>, span: Span) -> bool
    requires { IsCanonical spans.old.items }
    ensures yes { IsTrue result → spans.new.items ≡ insert_span span spans.old.items }
    ensures no { IsFalse result → spans.new.items ≡ spans.old.items }
{
    let Some(last) = spans.last() else {
        return false;
    };
    if span.lo() < last.lo() || last.hi() < span.lo() {
        return false;
    }
    let both = Span::between(last.lo(), span.hi().max(last.hi()));
    let at = spans.len() - 1;
    spans[at] = both;
    true
}

/// Adds the keys of a span.
pub(crate) fn insert(spans: &mut Vec<Span>, span: Span) -> Result<(), AllocError>
    requires { IsCanonical spans.old.items }
    ensures value { OnOk result (spans.new.items ≡ insert_span span spans.old.items) }
    ensures err { OnErr result (spans.new.items ≡ spans.old.items) }
{
    if lengthen(spans, span) {
        return Ok(());
    }
    spans.reserve(1)?;
    insert_ready(spans, span);
    Ok(())
}

/// The keys below the bound that the span at a place has. That span is the first that ends beyond
/// the bound.
fn head_of(spans: &[Span], at: usize, bound: Bound) -> Option<Span>
    requires set { IsSet spans.now }
    requires ended { Ended spans.now bound at }
    ensures { take at spans.now ++ option_to_list result ≡ keys_below bound spans.now }
{
    if at < spans.len() {
        Span::new(spans[at].lo(), bound)
    } else {
        None
    }
}

/// Cuts the keys below the bound off the span at a place. That span is the first that ends beyond
/// the bound.
fn trim(spans: &mut Vec<Span>, at: usize, bound: Bound)
    requires set { IsSet spans.old.items }
    requires ended { Ended spans.old.items bound at }
    ensures before { take at spans.new.items ≡ take at spans.old.items }
    ensures from { drop at spans.new.items ≡ keys_from bound spans.old.items }
    ensures len { vec_len spans.new ≡ vec_len spans.old }
    ensures capacity { vec_capacity spans.new ≡ vec_capacity spans.old }
{
    if at < spans.len() && spans[at].lo() < bound {
        spans[at] = Span::between(bound, spans[at].hi());
    }
}

/// Puts one span, or none, in place of those from one place to another. There must be room for one
/// more.
fn swap_for(spans: &mut Vec<Span>, from: usize, to: usize, head: Option<Span>)
    requires order { from ≤ to }
    requires within { to ≤ length spans.old.items }
    requires room { vec_len spans.old < vec_capacity spans.old }
    ensures value { spans.new.items ≡ take from spans.old.items ++ (option_to_list head ++ drop to spans.old.items) }
    ensures len { vec_len spans.new ≤ vec_len spans.old + 1 }
    ensures capacity { vec_capacity spans.new ≡ vec_capacity spans.old }
{
    match head {
        None => cut_out(spans, from, to),
        Some(head) if from < to => {
            spans[from] = head;
            cut_out(spans, from + 1, to);
        }
        Some(head) => put(spans, from, head),
    }
}

/// Removes the keys of a span. There must be room for one more, since a span may be cut in two.
pub(crate) fn remove_ready(spans: &mut Vec<Span>, span: Span)
    requires set { IsSet spans.old.items }
    requires room { vec_len spans.old < vec_capacity spans.old }
    ensures value { spans.new.items ≡ without_span span spans.old.items }
    ensures len { vec_len spans.new ≤ vec_len spans.old + 1 }
    ensures capacity { vec_capacity spans.new ≡ vec_capacity spans.old }
{
    let from = ended(spans, span.lo());
    let to = ended(spans, span.hi());
    let head = head_of(spans, from, span.lo());
    trim(spans, to, span.hi());
    swap_for(spans, from, to, head);
}

/// Removes the keys of a span.
pub(crate) fn remove(spans: &mut Vec<Span>, span: Span) -> Result<(), AllocError>
    requires { IsSet spans.old.items }
    ensures value { OnOk result (spans.new.items ≡ without_span span spans.old.items) }
    ensures err { OnErr result (spans.new.items ≡ spans.old.items) }
{
    spans.reserve(1)?;
    remove_ready(spans, span);
    Ok(())
}

/// The spans of the keys below the bound, and those of the others.
pub(crate) fn cut(
    alloc: Global,
    spans: &[Span],
    bound: Bound,
) -> Result<(Vec<Span>, Vec<Span>), AllocError>
    requires { IsCanonical spans.now }
    ensures { IfOk result (λ sets. IsCut spans.now bound sets.0.items sets.1.items) }
{
    let at = ended(spans, bound);
    let mut below = Vec::from_slice(alloc, &spans[..at])?;
    let mut others = Vec::from_slice(alloc, &spans[at..])?;
    if at < spans.len() && spans[at].lo() < bound {
        below.push(Span::between(spans[at].lo(), bound))?;
        others[0] = Span::between(bound, spans[at].hi());
    }
    Ok((below, others))
}
