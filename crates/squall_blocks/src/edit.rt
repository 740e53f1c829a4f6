//! Edits of blocks.

ghost use Rattle.std.specs.Prelude.{◌≡◌, ◌+◌, ◌-◌, ◌<◌, ◌≤◌, [], ◌∷◌, ◌++◌, length, take, drop, slice_index_or, vec_capacity, IsTrue, IfOk, OnOk, OnErr};
ghost use Rattle.std.specs.List.{splice};
ghost use Rattle.squall_blocks.specs.Entries.{RiseFrom, replaced};
ghost use Rattle.squall_blocks.specs.Blocks.{flat, most, few, joined_at, AreBlocks, IsEdit};
ghost use Rattle.squall_blocks.specs.Drafts.{kept_by, Undoes};

use crate::blocks::{Blocks, MOST};
use crate::entries::Entries;
use crate::ready::splice_both;
use crate::search::{End, near, near_from};
use crate::steps::{OldEntries, Step};
use squall_key::Bound;
use std::alloc::{AllocError, Global};
use std::mem::replace;

/// Two neighbours with at most this many entries together are made one block.
const FEW: usize = 64;

/// The places of an edit: the blocks `first` and `end` of the first and the last entry that goes.
/// Of the one block the entries before `start` stay, of the other those from `stop` on.
#[derive(Clone, Copy)]
pub(crate) struct Places {
    pub(crate) first: usize,
    pub(crate) start: usize,
    pub(crate) end: usize,
    pub(crate) stop: usize,
}

/// The places of an edit between two keys.
pub(crate) fn places_of<V: Copy>(
    lasts: &Vec<End>,
    blocks: &Vec<Entries<V>>,
    from: Bound,
    to: Bound,
) -> Places
    requires blocks { AreBlocks lasts.now.items blocks.now.items }
    requires some { 0 < length blocks.now.items }
    requires order { from ≤ to }
    ensures edit { IsEdit lasts.now.items blocks.now.items from to result.first result.end result.start result.stop }
    ensures order { result.first ≡ result.end → result.start ≤ result.stop }
{
    let first = near(lasts, from);
    let end = near_from(lasts, first, to);
    let head = &blocks[first];
    let tail = &blocks[end];
    let start = head.ended(from);
    let stop = tail.ended(to);
    Places {
        first,
        start,
        end,
        stop,
    }
}

/// Whether an edit stays in one block, of `len` entries. With `more` fresh ones the block is then
/// neither empty nor too long.
pub(crate) fn fits(at: Places, len: usize, more: usize) -> bool
    requires order { at.first ≡ at.end → at.start ≤ at.stop }
    requires within { at.first ≡ at.end → at.stop ≤ len }
    ensures one { IsTrue result → at.first ≡ at.end }
    ensures some { IsTrue result → 0 < len - (at.stop - at.start) + more }
    ensures few { IsTrue result → len - (at.stop - at.start) + more ≤ most }
{
    if at.first != at.end {
        return false;
    }
    let left = len - (at.stop - at.start);
    more <= MOST && left <= MOST - more && (left > 0 || more > 0)
}

/// Whether an edit fits, and puts in no fewer entries than go. What goes then needs no room if it
/// is put in again.
pub(crate) fn fits_again(at: Places, len: usize, more: usize) -> bool
    requires order { at.first ≡ at.end → at.start ≤ at.stop }
    requires within { at.first ≡ at.end → at.stop ≤ len }
    ensures one { IsTrue result → at.first ≡ at.end }
    ensures some { IsTrue result → 0 < len - (at.stop - at.start) + more }
    ensures few { IsTrue result → len - (at.stop - at.start) + more ≤ most }
    ensures no_fewer { IsTrue result → at.stop - at.start ≤ more }
{
    if !fits(at, len, more) {
        return false;
    }
    at.stop - at.start <= more
}

/// Makes an edit that stays in one block.
fn replace_within<V: Copy>(
    lasts: &mut Vec<End>,
    blocks: &mut Vec<Entries<V>>,
    from: Bound,
    to: Bound,
    at: Places,
    fresh: &Entries<V>,
) -> Result<(), AllocError>
    requires edit { IsEdit lasts.old.items blocks.old.items from to at.first at.first at.start at.stop }
    requires order { at.start ≤ at.stop }
    requires rise { RiseFrom 0 (replaced from to fresh.now (flat blocks.old.items)) }
    requires some { 0 < length (splice (slice_index_or blocks.old.items at.first []) at.start at.stop fresh.now) }
    requires few { length (splice (slice_index_or blocks.old.items at.first []) at.start at.stop fresh.now) ≤ most }
    ensures blocks { AreBlocks lasts.new.items blocks.new.items }
    ensures ok { OnOk result (flat blocks.new.items ≡ replaced from to fresh.now (flat blocks.old.items)) }
    ensures err { OnErr result (flat blocks.new.items ≡ flat blocks.old.items) }
{
    let block = &mut blocks[at.first];
    block.replace(at.start, at.stop, fresh)?;
    let last = block.last_end();
    lasts[at.first] = last;
    Ok(())
}

/// Makes an edit that stays in one block and puts in no fewer entries than go. It answers what
/// undoes it. An error means that an allocation failed: the blocks are then unchanged.
pub(crate) fn edit_within<V: Copy>(
    alloc: Global,
    lasts: &mut Vec<End>,
    blocks: &mut Vec<Entries<V>>,
    from: Bound,
    to: Bound,
    at: Places,
    fresh: &Entries<V>,
) -> Result<Step<V>, AllocError>
    requires edit { IsEdit lasts.old.items blocks.old.items from to at.first at.first at.start at.stop }
    requires order { at.start ≤ at.stop }
    requires rise { RiseFrom 0 (replaced from to fresh.now (flat blocks.old.items)) }
    requires some { 0 < length (splice (slice_index_or blocks.old.items at.first []) at.start at.stop fresh.now) }
    requires few { length (splice (slice_index_or blocks.old.items at.first []) at.start at.stop fresh.now) ≤ most }
    requires no_fewer { at.stop - at.start ≤ length fresh.now }
    ensures blocks { OnOk result (AreBlocks lasts.new.items blocks.new.items) }
    ensures ok { OnOk result (flat blocks.new.items ≡ replaced from to fresh.now (flat blocks.old.items)) }
    ensures step { IfOk result (λ s. Undoes s lasts.old.items lasts.new.items blocks.old.items blocks.new.items) }
    ensures few { IfOk result (λ s. kept_by s ≡ 0) }
    ensures lasts_err { OnErr result (lasts.new.items ≡ lasts.old.items) }
    ensures blocks_err { OnErr result (blocks.new.items ≡ blocks.old.items) }
    ensures lasts_len { length lasts.new.items ≡ length lasts.old.items }
    ensures blocks_len { length blocks.new.items ≡ length blocks.old.items }
    ensures lasts_capacity { vec_capacity lasts.old ≤ vec_capacity lasts.new }
    ensures blocks_capacity { vec_capacity blocks.old ≤ vec_capacity blocks.new }
{
    let block = &mut blocks[at.first];
    let gone = block.part(alloc, at.start, at.stop)?;
    block.replace(at.start, at.stop, fresh)?;
    let last = block.last_end();
    let last = replace(&mut lasts[at.first], last);
    Ok(Step::Entries(OldEntries {
        at: at.first,
        first: at.start,
        end: at.start + fresh.len(),
        last,
        gone,
    }))
}

/// The blocks that come in place of those of an edit, from the first to the last.
pub(crate) fn pieces<V: Copy>(
    alloc: Global,
    lasts: &Vec<End>,
    blocks: &Vec<Entries<V>>,
    from: Bound,
    to: Bound,
    at: Places,
    fresh: &Entries<V>,
) -> Result<Blocks<V>, AllocError>
    requires edit { IsEdit lasts.now.items blocks.now.items from to at.first at.end at.start at.stop }
    requires rise { RiseFrom 0 (replaced from to fresh.now (flat blocks.now.items)) }
    ensures { IfOk result (λ m. m
        ≡ take at.start (slice_index_or blocks.now.items at.first []) ++ (fresh.now ++ drop at.stop (slice_index_or blocks.now.items at.end []))) }
{
    let _count = lasts.len();
    let head = &blocks[at.first];
    let tail = &blocks[at.end];
    let whole = Entries::joined(alloc, head, at.start, fresh, tail, at.stop)?;
    Blocks::of(alloc, whole)
}

/// Makes an edit by new blocks.
fn replace_across<V: Copy>(
    alloc: Global,
    lasts: &mut Vec<End>,
    blocks: &mut Vec<Entries<V>>,
    from: Bound,
    to: Bound,
    at: Places,
    fresh: &Entries<V>,
) -> Result<(), AllocError>
    requires edit { IsEdit lasts.old.items blocks.old.items from to at.first at.end at.start at.stop }
    requires rise { RiseFrom 0 (replaced from to fresh.now (flat blocks.old.items)) }
    ensures blocks { AreBlocks lasts.new.items blocks.new.items }
    ensures ok { OnOk result (flat blocks.new.items ≡ replaced from to fresh.now (flat blocks.old.items)) }
    ensures err { OnErr result (flat blocks.new.items ≡ flat blocks.old.items) }
{
    let middle = pieces(alloc, lasts, blocks, from, to, at, fresh)?;
    let Blocks {
        lasts: middle_lasts,
        blocks: middle_blocks,
    } = middle;
    splice_both(
        lasts,
        blocks,
        at.first,
        at.end + 1,
        &middle_lasts,
        middle_blocks,
    )?;
    Ok(())
}

/// Makes an edit. An error means that an allocation failed: the entries are then unchanged.
pub(crate) fn replace_at<V: Copy>(
    alloc: Global,
    lasts: &mut Vec<End>,
    blocks: &mut Vec<Entries<V>>,
    from: Bound,
    to: Bound,
    at: Places,
    fresh: &Entries<V>,
) -> Result<(), AllocError>
    requires edit { IsEdit lasts.old.items blocks.old.items from to at.first at.end at.start at.stop }
    requires order { at.first ≡ at.end → at.start ≤ at.stop }
    requires rise { RiseFrom 0 (replaced from to fresh.now (flat blocks.old.items)) }
    ensures blocks { AreBlocks lasts.new.items blocks.new.items }
    ensures ok { OnOk result (flat blocks.new.items ≡ replaced from to fresh.now (flat blocks.old.items)) }
    ensures err { OnErr result (flat blocks.new.items ≡ flat blocks.old.items) }
{
    let head = &blocks[at.first];
    if fits(at, head.len(), fresh.len()) {
        return replace_within(lasts, blocks, from, to, at, fresh);
    }
    replace_across(alloc, lasts, blocks, from, to, at, fresh)
}

/// Makes one block of the two at a place and behind it.
fn join<V: Copy>(
    alloc: Global,
    lasts: &mut Vec<End>,
    blocks: &mut Vec<Entries<V>>,
    at: usize,
) -> Result<(), AllocError>
    requires blocks { AreBlocks lasts.old.items blocks.old.items }
    requires within { at + 1 < length blocks.old.items }
    requires few { length (slice_index_or blocks.old.items at []) + length (slice_index_or blocks.old.items (at + 1) []) ≤ most }
    ensures blocks { AreBlocks lasts.new.items blocks.new.items }
    ensures same { flat blocks.new.items ≡ flat blocks.old.items }
    ensures one { OnOk result (blocks.new.items
        ≡ splice blocks.old.items at (at + 2) ((slice_index_or blocks.old.items at [] ++ slice_index_or blocks.old.items (at + 1) []) ∷ [])) }
    ensures err { OnErr result (blocks.new.items ≡ blocks.old.items) }
{
    let head = &blocks[at];
    let tail = &blocks[at + 1];
    let none = Entries::new(alloc);
    let whole = Entries::joined(alloc, head, head.len(), &none, tail, 0)?;
    let last = whole.last_end();
    let mut fresh = Vec::with_capacity(alloc, 1)?;
    fresh.push(whole)?;
    splice_both(lasts, blocks, at, at + 2, &[last], fresh)?;
    Ok(())
}

/// Makes one block of the two at a place and behind it, if both are there and have few entries
/// together.
fn join_few<V: Copy>(
    alloc: Global,
    lasts: &mut Vec<End>,
    blocks: &mut Vec<Entries<V>>,
    at: usize,
) -> Result<(), AllocError>
    requires blocks { AreBlocks lasts.old.items blocks.old.items }
    ensures blocks { AreBlocks lasts.new.items blocks.new.items }
    ensures same { flat blocks.new.items ≡ flat blocks.old.items }
    ensures joined { OnOk result (blocks.new.items ≡ joined_at at blocks.old.items) }
    ensures err { OnErr result (blocks.new.items ≡ blocks.old.items) }
{
    let count = blocks.len();
    let next = at.saturating_add(1);
    if next >= count {
        return Ok(());
    }
    let head = &blocks[at];
    let tail = &blocks[next];
    let len = head.len();
    let more = tail.len();
    let both = len.saturating_add(more);
    if both > FEW {
        return Ok(());
    }
    join(alloc, lasts, blocks, at)
}

/// Joins a block with the one behind it, then with the one before it, if they have few entries
/// together. An allocation may fail in either: these blocks are then unchanged.
pub(crate) fn join_around<V: Copy>(
    alloc: Global,
    lasts: &mut Vec<End>,
    blocks: &mut Vec<Entries<V>>,
    at: usize,
)
    requires blocks { AreBlocks lasts.old.items blocks.old.items }
    ensures blocks { AreBlocks lasts.new.items blocks.new.items }
    ensures same { flat blocks.new.items ≡ flat blocks.old.items }
{
    let _behind = join_few(alloc, lasts, blocks, at);
    let _front = join_few(alloc, lasts, blocks, at.saturating_sub(1));
}
