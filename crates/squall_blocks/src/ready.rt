//! Splices that cannot fail, in room that was reserved, and splices of two lists at once.

ghost use Rattle.std.specs.Prelude.{◌≡◌, ◌+◌, ◌-◌, ◌≤◌, ◌++◌, length, take, drop, vec_len, vec_capacity, OnOk, OnErr};
ghost use Rattle.std.specs.List.{splice, copy_within};

use crate::blocks::MOST;
use std::alloc::AllocError;

/// By how many items the list of a block grows, if it needs more room.
const GROWTH: usize = 32;

/// Reserves room in the list of a block: for these items more, and if there is none for some beyond
/// them, up to the length of the longest block. Doubled lists would leave a third of their memory
/// empty. After an error the list is unchanged.
pub(crate) fn reserve_some<T>(items: &mut Vec<T>, more: usize) -> Result<(), AllocError>
    ensures items { items.new.items ≡ items.old.items }
    ensures room { OnOk result (vec_len items.new + more ≤ vec_capacity items.new) }
    ensures capacity { vec_capacity items.old ≤ vec_capacity items.new }
{
    let len = items.len();
    if items.capacity() - len >= more {
        return Ok(());
    }
    let some = MOST.saturating_sub(len).min(GROWTH);
    items.reserve_exact(more.max(some))
}

/// Reserves room in both lists. After an error there may be more room than before.
pub(crate) fn reserve_both<T, U>(
    keys: &mut Vec<T>,
    items: &mut Vec<U>,
    more_keys: usize,
    more_items: usize,
) -> Result<(), AllocError>
    ensures keys { keys.new.items ≡ keys.old.items }
    ensures items { items.new.items ≡ items.old.items }
    ensures keys_room { OnOk result (vec_len keys.new + more_keys ≤ vec_capacity keys.new) }
    ensures items_room { OnOk result (vec_len items.new + more_items ≤ vec_capacity items.new) }
    ensures keys_capacity { vec_capacity keys.old ≤ vec_capacity keys.new }
    ensures items_capacity { vec_capacity items.old ≤ vec_capacity items.new }
{
    keys.reserve(more_keys)?;
    items.reserve(more_items)
}

/// Moves the items from a place on up by some places, to the end.
fn move_up_from<T: Copy>(items: &mut [T], first: usize, by: usize)
    requires { first + by ≤ length items.old }
    ensures { items.new ≡ copy_within items.old first (length items.old - by) (first + by) }
{
    let kept = items.len() - by;
    items.copy_within(first..kept, first + by);
}

/// Moves the items from `end` on to the place `at`. Of the items before it, some are not yet right:
/// others are to be written over them. If both places are the same, nothing moves.
fn move_tail<T: Copy>(items: &mut Vec<T>, end: usize, at: usize, fresh: &[T])
    requires within { end ≤ length items.old.items }
    requires fits { at ≤ end + length fresh.now }
    requires room { vec_len items.old + at ≤ vec_capacity items.old + end }
    ensures capacity { vec_capacity items.old ≤ vec_capacity items.new }
    ensures items { items.new.items ≡ take at (items.old.items ++ fresh.now) ++ drop end items.old.items }
{
    if at < end {
        let len = items.len();
        items.copy_within(end..len, at);
        items.truncate(len - (end - at));
    } else if end < at {
        let _done = items.extend_from_slice(&fresh[..at - end]);
        move_up_from(items, end, at - end);
    }
}

/// Writes items over those from a place on.
fn write_over<T: Copy>(items: &mut Vec<T>, first: usize, fresh: &[T])
    requires { first + length fresh.now ≤ length items.old.items }
    ensures capacity { vec_capacity items.old ≤ vec_capacity items.new }
    ensures items { items.new.items ≡ take first items.old.items ++ (fresh.now ++ drop (first + length fresh.now) items.old.items) }
{
    items[first..first + fresh.len()].copy_from_slice(fresh);
}

/// Puts other items in place of those from `first` to `end`. What follows is moved once.
pub(crate) fn replace_ready<T: Copy>(items: &mut Vec<T>, first: usize, end: usize, fresh: &[T])
    requires order { first ≤ end }
    requires within { end ≤ length items.old.items }
    requires room { vec_len items.old + length fresh.now ≤ vec_capacity items.old + (end - first) }
    ensures capacity { vec_capacity items.old ≤ vec_capacity items.new }
    ensures items { items.new.items ≡ splice items.old.items first end fresh.now }
{
    move_tail(items, end, first + fresh.len(), fresh);
    write_over(items, first, fresh);
}

/// Turns the items from a place on.
fn turn_from<U>(items: &mut Vec<U>, from: usize, by: usize)
    requires within { from + by ≤ length items.old.items }
    ensures capacity { vec_capacity items.old ≤ vec_capacity items.new }
    ensures items { items.new.items ≡ take from items.old.items ++ (drop by (drop from items.old.items) ++ take by (drop from items.old.items)) }
{
    let tail = &mut items[from..];
    tail.rotate_left(by);
}

/// Puts other items in place of as many from `first` on, and returns those that were there.
pub(crate) fn swap_in<U: Drop>(items: &mut Vec<U>, first: usize, fresh: Vec<U>) -> Vec<U>
    requires within { first + vec_len fresh ≤ length items.old.items }
    ensures capacity { vec_capacity items.old ≤ vec_capacity items.new }
    ensures items { items.new.items ≡ splice items.old.items first (first + vec_len fresh) fresh.items }
    ensures gone { result.items ≡ take (vec_len fresh) (drop first items.old.items) }
{
    let mut fresh = fresh;
    let end = first + fresh.len();
    items[first..end].swap_with_slice(&mut fresh);
    fresh
}

/// Lets the first fresh items change places with as many others, from `first` on.
fn swap_first<U: Drop>(items: &mut Vec<U>, first: usize, fresh: &mut Vec<U>, count: usize)
    requires within { first + count ≤ length items.old.items }
    requires some { count ≤ length fresh.old.items }
    ensures capacity { vec_capacity items.old ≤ vec_capacity items.new }
    ensures items { items.new.items ≡ take first items.old.items ++ (take count fresh.old.items ++ drop (first + count) items.old.items) }
    ensures fresh { fresh.new.items ≡ take count (drop first items.old.items) ++ drop count fresh.old.items }
    ensures len { vec_len items.new ≡ vec_len items.old }
    ensures fresh_len { vec_len fresh.new ≡ vec_len fresh.old }
{
    items[first..first + count].swap_with_slice(&mut fresh[0..count]);
}

/// Puts more items, or as many, in place of those from `first` to `end`. What follows is moved once.
fn put_more<U: Drop>(items: &mut Vec<U>, first: usize, end: usize, fresh: Vec<U>)
    requires order { first ≤ end }
    requires within { end ≤ length items.old.items }
    requires more { end - first ≤ vec_len fresh }
    requires room { vec_len items.old + vec_len fresh ≤ vec_capacity items.old }
    ensures capacity { vec_capacity items.old ≤ vec_capacity items.new }
    ensures items { items.new.items ≡ splice items.old.items first end fresh.items }
{
    let mut fresh = fresh;
    let len = items.len();
    let gone = end - first;
    let more = fresh.len() - gone;
    swap_first(items, first, &mut fresh, gone);
    let _done = items.append(&mut fresh);
    turn_from(items, end, len - first);
    items.truncate(len + more);
}

/// Puts fewer items, or as many, in place of those from `first` to `end`. What follows is moved at
/// most once.
fn put_fewer<U: Drop>(items: &mut Vec<U>, first: usize, end: usize, fresh: Vec<U>)
    requires order { first ≤ end }
    requires within { end ≤ length items.old.items }
    requires fewer { vec_len fresh ≤ end - first }
    ensures capacity { vec_capacity items.old ≤ vec_capacity items.new }
    ensures items { items.new.items ≡ splice items.old.items first end fresh.items }
{
    let stop = first + fresh.len();
    let left = items.len() - (end - stop);
    let _gone = swap_in(items, first, fresh);
    if stop < end {
        turn_from(items, stop, end - stop);
        items.truncate(left);
    }
}

/// Puts other items in place of those from `first` to `end`, in room that was reserved. It cannot
/// fail, and needs no copies. What follows is moved only if their number changes.
pub(crate) fn exchange_ready<U: Drop>(items: &mut Vec<U>, first: usize, end: usize, fresh: Vec<U>)
    requires order { first ≤ end }
    requires within { end ≤ length items.old.items }
    requires room { vec_len items.old + vec_len fresh ≤ vec_capacity items.old }
    ensures capacity { vec_capacity items.old ≤ vec_capacity items.new }
    ensures items { items.new.items ≡ splice items.old.items first end fresh.items }
{
    if fresh.len() > end - first {
        put_more(items, first, end, fresh);
    } else {
        put_fewer(items, first, end, fresh);
    }
}

/// Puts other items in place of those from `first` to `end`, in both lists or in none.
pub(crate) fn splice_both<T: Copy, U: Drop>(
    keys: &mut Vec<T>,
    items: &mut Vec<U>,
    first: usize,
    end: usize,
    fresh_keys: &[T],
    fresh_items: Vec<U>,
) -> Result<(), AllocError>
    requires order { first ≤ end }
    requires keys { end ≤ length keys.old.items }
    requires items { end ≤ length items.old.items }
    ensures keys { OnOk result (keys.new.items ≡ splice keys.old.items first end fresh_keys.now) }
    ensures items { OnOk result (items.new.items ≡ splice items.old.items first end fresh_items.items) }
    ensures keys_err { OnErr result (keys.new.items ≡ keys.old.items) }
    ensures items_err { OnErr result (items.new.items ≡ items.old.items) }
{
    keys.reserve(fresh_keys.len())?;
    let _gone = items.splice(first..end, fresh_items)?;
    replace_ready(keys, first, end, fresh_keys);
    Ok(())
}
