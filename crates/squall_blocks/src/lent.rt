//! Blocks that are lent for look-ups.

ghost use Rattle.std.specs.Prelude.{◌≡◌, ◌↔◌, ◌-◌, ◌<◌, ◌≤◌, length, slice_get, slice_index, IsTrue, IfSome, option_map};
ghost use Rattle.squall_blocks.specs.Entries.{last_from, beyond, up_to};
ghost use Rattle.squall_blocks.specs.Blocks.{flat, AreBlocks};

use crate::entries::Entries;
use crate::iter::Iter;
use crate::search::{End, ended};
use squall_key::{Bound, Ends};
use std::marker::Model;

/// Entries by rising end, in blocks that are lent.
///
/// Contracts see the list of the entries.
#[derive(Drop)]
pub struct BlocksRef<'a, V: Copy> {
    lasts: &'a [End],
    blocks: &'a [Entries<V>],
}

impl<'a, V: Copy> Model for BlocksRef<'a, V> {
    ghost use Rattle.std.specs.Prelude.{List, ℕ};
    ghost use Rattle.squall_blocks.specs.Blocks.{flat, AreBlocks};

    ghost Value = { List (ℕ × V) };

    ghost view = { λ s. flat s.blocks.now };

    ghost invariant = { λ s. AreBlocks s.lasts.now s.blocks.now };
}

/// The bound at which the block before a place ends, `least` if there is none.
fn last_before(lasts: &[End], at: usize, least: Bound) -> Bound
    requires { at ≤ length lasts.now }
    ensures none { at ≡ 0 → result ≡ least }
    ensures some { 0 < at → result ≡ slice_index lasts.now (at - 1) }
{
    if at == 0 { least } else { lasts[at - 1].end() }
}

impl<'a, V: Copy> BlocksRef<'a, V> {
    /// The entries of the blocks, which end at these bounds.
    pub(crate) fn over(lasts: &'a [End], blocks: &'a [Entries<V>]) -> BlocksRef<'a, V>
        requires { AreBlocks lasts.now blocks.now }
        ensures { result ≡ flat blocks.now }
    {
        BlocksRef { lasts, blocks }
    }

    /// Whether there are no entries.
    pub fn is_empty(&self) -> bool
        ensures { IsTrue result ↔ (length self.now ≡ 0) }
    {
        let count = self.blocks.len();
        if count == 0 {
            return true;
        }
        false
    }

    /// The first entry that ends beyond the key.
    pub fn above(&self, key: Bound) -> Option<(Bound, V)>
        ensures { result ≡ slice_get (beyond key self.now) 0 }
    {
        let at = ended(self.lasts, key);
        if at >= self.blocks.len() {
            return None;
        }
        self.blocks[at].above(key)
    }

    /// The bound at which the entry above the key begins: the end of the last entry that ends at
    /// the key or before it. If there is none, it is `least`.
    pub fn end_before(&self, key: Bound, least: Bound) -> Bound
        ensures { result ≡ last_from least (up_to key self.now) }
    {
        let at = ended(self.lasts, key);
        let last = last_before(self.lasts, at, least);
        if at >= self.blocks.len() {
            return last;
        }
        self.blocks[at].end_before(key, last)
    }

    /// The first entry that ends beyond the key, after the bound at which it begins: the end of the
    /// entry before it, `least` if there is none. It takes one search.
    pub fn whole_above(&self, key: Bound, least: Bound) -> Option<(Bound, (Bound, V))>
        ensures begin { IfSome result (λ e. e.0 ≡ last_from least (up_to key self.now)) }
        ensures entry { option_map (λ e. e.1) result ≡ slice_get (beyond key self.now) 0 }
    {
        let at = ended(self.lasts, key);
        let last = last_before(self.lasts, at, least);
        if at >= self.blocks.len() {
            return None;
        }
        self.blocks[at].whole_above(key, last)
    }

    /// The entries that end beyond the key, by rising end.
    pub fn iter_from(&self, key: Bound) -> Iter<'a, V>
        ensures { result ≡ beyond key self.now }
    {
        let at = ended(self.lasts, key);
        if at >= self.blocks.len() {
            return Iter::over(&[], &[], &[]);
        }
        let block = &self.blocks[at];
        let place = block.ended(key);
        let (ends, values) = block.lists();
        Iter::over(&ends[place..], &values[place..], &self.blocks[at + 1..])
    }

    /// The bound at which the key's block ends, which lies beyond the key. It is the greatest bound
    /// if the key lies beyond all blocks.
    pub fn block_end(&self, key: Bound) -> Bound {
        let at = ended(self.lasts, key);
        if at < self.lasts.len() {
            self.lasts[at].end()
        } else {
            Bound::TOP
        }
    }
}
