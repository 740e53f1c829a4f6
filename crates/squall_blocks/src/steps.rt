//! What undoes an edit of blocks.

ghost use Rattle.std.specs.Prelude.{◌≡◌, ◌+◌, ◌-◌, ◌≤◌, [], ◌∷◌, length, take, drop, slice_index_or, vec_len, vec_capacity, IfOk, OnOk, OnErr};
ghost use Rattle.std.specs.List.{splice};
ghost use Rattle.squall_blocks.specs.Drafts.{AreAmong, AreInBlock, IsWithin, Undoes, blocks_before, kept_by, lasts_before};
ghost use Rattle.squall_blocks.specs.Blocks.{put};

use crate::entries::Entries;
use crate::ready::{exchange_ready, replace_ready, reserve_both, swap_in};
use crate::search::End;
use std::alloc::{AllocError, Global};
use std::marker::Model;
use std::mem::replace;

/// The blocks that were there before those from `first` to `end`.
///
/// Contracts see their places, the bounds at which they end, and their entries.
#[derive(Drop)]
pub(crate) struct OldBlocks<V: Copy> {
    first: usize,
    end: usize,
    lasts: Vec<End>,
    blocks: Vec<Entries<V>>,
}

impl<V: Copy> Model for OldBlocks<V> {
    ghost use Rattle.squall_blocks.specs.Steps.{OldBlocksValue};

    ghost Value = { OldBlocksValue V };

    ghost view = { λ s. record { first = s.first; end = s.end; lasts = s.lasts.items; blocks = s.blocks.items } };
}

/// The entries that were in the block `at` before those from `first` to `end`. They are no more
/// than those, so they fit in again.
///
/// Contracts see their places, the bound at which the block ended, and the entries.
#[derive(Drop)]
pub(crate) struct OldEntries<V: Copy> {
    pub(crate) at: usize,
    pub(crate) first: usize,
    pub(crate) end: usize,
    pub(crate) last: End,
    pub(crate) gone: Entries<V>,
}

impl<V: Copy> Model for OldEntries<V> {
    ghost use Rattle.squall_blocks.specs.Steps.{OldEntriesValue};

    ghost Value = { OldEntriesValue V };

    ghost view = { λ s. record { at = s.at; first = s.first; end = s.end; last = s.last; gone = s.gone } };
}

/// What undoes an edit.
#[derive(Drop)]
pub(crate) enum Step<V: Copy> {
    Blocks(OldBlocks<V>),
    Entries(OldEntries<V>),
}

impl<V: Copy> Step<V> {
    /// The place of the first block that changed.
    pub(crate) fn first(&self) -> usize {
        match self {
            Step::Blocks(old) => old.first,
            Step::Entries(old) => old.at,
        }
    }
}

/// Takes the blocks from `first` to `end` out, and leaves blocks without entries there. An error
/// means that an allocation failed: the blocks are then unchanged.
fn take_out<V: Copy>(
    alloc: Global,
    blocks: &mut Vec<Entries<V>>,
    first: usize,
    end: usize,
) -> Result<Vec<Entries<V>>, AllocError>
    requires order { first ≤ end }
    requires within { end ≤ length blocks.old.items }
    ensures gone { IfOk result (λ gone. gone.items ≡ take (end - first) (drop first blocks.old.items)) }
    ensures front { OnOk result (take first blocks.new.items ≡ take first blocks.old.items) }
    ensures behind { OnOk result (drop end blocks.new.items ≡ drop end blocks.old.items) }
    ensures len { length blocks.new.items ≡ length blocks.old.items }
    ensures capacity { vec_capacity blocks.old ≤ vec_capacity blocks.new }
    ensures err { OnErr result (blocks.new.items ≡ blocks.old.items) }
{
    let mut gone = Vec::with_capacity(alloc, end - first)?;
    for at in first..end {
        let block = replace(&mut blocks[at], Entries::new(alloc));
        gone.push_reserved(block);
    }
    Ok(gone)
}

/// Puts other blocks in place of as many from `first` on, and returns what undoes it: the blocks
/// change places with those that were there. It cannot fail.
fn trade<V: Copy>(
    lasts: &mut Vec<End>,
    blocks: &mut Vec<Entries<V>>,
    first: usize,
    ends: Vec<End>,
    fresh: Vec<Entries<V>>,
) -> Step<V>
    requires lasts { first + length ends.items ≤ length lasts.old.items }
    requires blocks { first + length fresh.items ≤ length blocks.old.items }
    requires same { length ends.items ≡ length fresh.items }
    ensures lasts { lasts.new.items ≡ splice lasts.old.items first (first + length ends.items) ends.items }
    ensures blocks { blocks.new.items ≡ splice blocks.old.items first (first + length fresh.items) fresh.items }
    ensures step { Undoes result lasts.old.items lasts.new.items blocks.old.items blocks.new.items }
    ensures few { kept_by result ≡ length fresh.items }
    ensures lasts_capacity { vec_capacity lasts.old ≤ vec_capacity lasts.new }
    ensures blocks_capacity { vec_capacity blocks.old ≤ vec_capacity blocks.new }
{
    let end = first + fresh.len();
    let old = swap_in(lasts, first, ends);
    let gone = swap_in(blocks, first, fresh);
    Step::Blocks(OldBlocks {
        first,
        end,
        lasts: old,
        blocks: gone,
    })
}

/// Puts more or fewer blocks in place of those from `first` to `end`, and returns what undoes it.
/// There must be room for the fresh ones. An error means that an allocation failed: both lists are
/// then unchanged.
fn exchange_other<V: Copy>(
    lasts: &mut Vec<End>,
    blocks: &mut Vec<Entries<V>>,
    first: usize,
    end: usize,
    ends: &[End],
    fresh: Vec<Entries<V>>,
) -> Result<Step<V>, AllocError>
    requires order { first ≤ end }
    requires lasts { end ≤ length lasts.old.items }
    requires blocks { end ≤ length blocks.old.items }
    requires same { length ends.now ≡ length fresh.items }
    requires lasts_room { vec_len lasts.old + length ends.now ≤ vec_capacity lasts.old }
    requires blocks_room { vec_len blocks.old + length ends.now ≤ vec_capacity blocks.old }
    ensures lasts { OnOk result (lasts.new.items ≡ splice lasts.old.items first end ends.now) }
    ensures blocks { OnOk result (blocks.new.items ≡ splice blocks.old.items first end fresh.items) }
    ensures step { IfOk result (λ s. Undoes s lasts.old.items lasts.new.items blocks.old.items blocks.new.items) }
    ensures few { IfOk result (λ s. kept_by s ≡ end - first) }
    ensures lasts_err { OnErr result (lasts.new.items ≡ lasts.old.items) }
    ensures blocks_err { OnErr result (blocks.new.items ≡ blocks.old.items) }
    ensures lasts_capacity { vec_capacity lasts.old ≤ vec_capacity lasts.new }
    ensures blocks_capacity { vec_capacity blocks.old ≤ vec_capacity blocks.new }
{
    let alloc = *lasts.allocator();
    let old = Vec::from_slice(alloc, &lasts[first..end])?;
    let gone = take_out(alloc, blocks, first, end)?;
    let stop = first + fresh.len();
    replace_ready(lasts, first, end, ends);
    exchange_ready(blocks, first, end, fresh);
    Ok(Step::Blocks(OldBlocks {
        first,
        end: stop,
        lasts: old,
        blocks: gone,
    }))
}

/// Puts other blocks in place of those from `first` to `end`, and returns what undoes it. Both
/// lists then have room for what was there, and for `kept` blocks more. An error means that an
/// allocation failed: both lists are then unchanged.
pub(crate) fn exchange<V: Copy>(
    lasts: &mut Vec<End>,
    blocks: &mut Vec<Entries<V>>,
    first: usize,
    end: usize,
    ends: Vec<End>,
    fresh: Vec<Entries<V>>,
    kept: usize,
) -> Result<Step<V>, AllocError>
    requires order { first ≤ end }
    requires lasts { end ≤ length lasts.old.items }
    requires blocks { end ≤ length blocks.old.items }
    requires same { length ends.items ≡ length fresh.items }
    ensures lasts { OnOk result (lasts.new.items ≡ splice lasts.old.items first end ends.items) }
    ensures blocks { OnOk result (blocks.new.items ≡ splice blocks.old.items first end fresh.items) }
    ensures step { IfOk result (λ s. Undoes s lasts.old.items lasts.new.items blocks.old.items blocks.new.items) }
    ensures few { IfOk result (λ s. kept_by s ≡ end - first) }
    ensures lasts_room { OnOk result (vec_len lasts.new + (kept + (end - first)) ≤ vec_capacity lasts.new) }
    ensures blocks_room { OnOk result (vec_len blocks.new + (kept + (end - first)) ≤ vec_capacity blocks.new) }
    ensures lasts_err { OnErr result (lasts.new.items ≡ lasts.old.items) }
    ensures blocks_err { OnErr result (blocks.new.items ≡ blocks.old.items) }
    ensures lasts_capacity { vec_capacity lasts.old ≤ vec_capacity lasts.new }
    ensures blocks_capacity { vec_capacity blocks.old ≤ vec_capacity blocks.new }
{
    let room = kept.saturating_add(ends.len());
    reserve_both(lasts, blocks, room, room)?;
    if ends.len() == end - first {
        return Ok(trade(lasts, blocks, first, ends, fresh));
    }
    exchange_other(lasts, blocks, first, end, &ends, fresh)
}

/// Puts old blocks back, in room that was reserved. It cannot fail.
fn put_blocks_back<V: Copy>(lasts: &mut Vec<End>, blocks: &mut Vec<Entries<V>>, old: OldBlocks<V>)
    requires within { AreAmong old lasts.old.items blocks.old.items }
    requires lasts_room { vec_len lasts.old + length old.blocks ≤ vec_capacity lasts.old }
    requires blocks_room { vec_len blocks.old + length old.blocks ≤ vec_capacity blocks.old }
    ensures lasts { lasts.new.items ≡ splice lasts.old.items old.first old.end old.lasts }
    ensures blocks { blocks.new.items ≡ splice blocks.old.items old.first old.end old.blocks }
    ensures lasts_capacity { vec_capacity lasts.old ≤ vec_capacity lasts.new }
    ensures blocks_capacity { vec_capacity blocks.old ≤ vec_capacity blocks.new }
{
    let OldBlocks {
        first,
        end,
        lasts: ends,
        blocks: old,
    } = old;
    replace_ready(lasts, first, end, &ends);
    exchange_ready(blocks, first, end, old);
}

/// Puts old entries back into their block. They need no room, so it cannot fail.
fn put_entries_back<V: Copy>(lasts: &mut Vec<End>, blocks: &mut Vec<Entries<V>>, old: OldEntries<V>)
    requires within { AreInBlock old lasts.old.items blocks.old.items }
    ensures lasts { lasts.new.items ≡ splice lasts.old.items old.at (old.at + 1) (old.last ∷ []) }
    ensures blocks { blocks.new.items ≡ put blocks.old.items old.at (splice (slice_index_or blocks.old.items old.at []) old.first old.end old.gone) }
    ensures lasts_capacity { vec_capacity lasts.old ≤ vec_capacity lasts.new }
    ensures blocks_capacity { vec_capacity blocks.old ≤ vec_capacity blocks.new }
{
    let OldEntries {
        at,
        first,
        end,
        last,
        gone,
    } = old;
    let block = &mut blocks[at];
    block.replace_by_fewer(first, end, &gone);
    lasts[at] = last;
}

/// Undoes an edit, in room that was reserved. It cannot fail.
pub(crate) fn undo<V: Copy>(lasts: &mut Vec<End>, blocks: &mut Vec<Entries<V>>, step: Step<V>)
    requires within { IsWithin step lasts.old.items blocks.old.items }
    requires lasts_room { vec_len lasts.old + kept_by step ≤ vec_capacity lasts.old }
    requires blocks_room { vec_len blocks.old + kept_by step ≤ vec_capacity blocks.old }
    ensures lasts { lasts.new.items ≡ lasts_before step lasts.old.items }
    ensures blocks { blocks.new.items ≡ blocks_before step blocks.old.items }
    ensures lasts_capacity { vec_capacity lasts.old ≤ vec_capacity lasts.new }
    ensures blocks_capacity { vec_capacity blocks.old ≤ vec_capacity blocks.new }
{
    match step {
        Step::Blocks(old) => put_blocks_back(lasts, blocks, old),
        Step::Entries(old) => put_entries_back(lasts, blocks, old),
    }
}
