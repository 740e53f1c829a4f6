//! Entries by rising end, in blocks.

ghost use Rattle.std.specs.Prelude.{◌≡◌, ◌↔◌, ◌<◌, ◌≤◌, [], ◌++◌, length, slice_get, IfOk, IsTrue, OnOk, OnErr};
ghost use Rattle.squall_blocks.specs.Entries.{RiseFrom, last_from, beyond, up_to, replaced};
ghost use Rattle.squall_blocks.specs.Blocks.{most};

use crate::edit::{join_around, places_of, replace_at};
use crate::entries::Entries;
use crate::iter::Iter;
use crate::lent::BlocksRef;
use crate::search::End;
use squall_key::{Bound, Ends};
use std::alloc::{AllocError, Global};
use std::marker::Model;

/// The most entries of a block.
pub(crate) const MOST: usize = 128;

/// The most entries that each block gets if there are too many for one block.
const SOME: usize = 96;

/// Entries by rising end, in blocks of at most 128. The bounds at which blocks end are kept beside
/// them, so a search looks into one block alone.
///
/// Contracts see one list of all entries.
#[derive(Drop)]
pub struct Blocks<V: Copy> {
    pub(crate) lasts: Vec<End>,
    pub(crate) blocks: Vec<Entries<V>>,
}

impl<V: Copy> Model for Blocks<V> {
    ghost use Rattle.std.specs.Prelude.{List, ℕ};
    ghost use Rattle.squall_blocks.specs.Blocks.{flat, AreBlocks};

    ghost Value = { List (ℕ × V) };

    ghost view = { λ s. flat s.blocks.items };

    ghost invariant = { λ s. AreBlocks s.lasts.items s.blocks.items };
}

/// How many entries each block but the last gets, if `len` entries are cut into blocks.
fn block_len(len: usize) -> usize
    ensures some { 0 < result }
    ensures few { result ≤ most }
{
    let blocks = len / SOME + 1;
    (len / blocks).min(MOST - 1) + 1
}

impl<V: Copy> Blocks<V> {
    /// No entries. It takes no memory.
    pub fn new(alloc: Global) -> Blocks<V>
        ensures { result ≡ [] }
    {
        Blocks {
            lasts: Vec::new(alloc),
            blocks: Vec::new(alloc),
        }
    }

    /// The entries in blocks. An error means that an allocation failed.
    pub fn of(alloc: Global, entries: Entries<V>) -> Result<Blocks<V>, AllocError>
        requires { RiseFrom 0 entries }
        ensures { IfOk result (λ b. b ≡ entries) }
    {
        if entries.len() > MOST {
            return Blocks::cut(alloc, &entries);
        }
        let mut blocks = Blocks::new(alloc);
        if entries.len() > 0 {
            blocks.append(entries)?;
        }
        Ok(blocks)
    }

    /// The entries in blocks of about the same length.
    fn cut(alloc: Global, entries: &Entries<V>) -> Result<Blocks<V>, AllocError>
        requires { RiseFrom 0 entries.now }
        ensures { IfOk result (λ b. b ≡ entries.now) }
    {
        let mut blocks = Blocks::new(alloc);
        let len = entries.len();
        let size = block_len(len);
        let mut at = 0;
        while at < len {
            let end = at + size.min(len - at);
            let block = entries.part(alloc, at, end)?;
            blocks.append(block)?;
            at = end;
        }
        Ok(blocks)
    }

    /// Adds a block at the end. An error means that an allocation failed: the entries are then
    /// unchanged.
    fn append(&mut self, block: Entries<V>) -> Result<(), AllocError>
        requires some { 0 < length block }
        requires few { length block ≤ most }
        requires rise { RiseFrom (last_from 0 self.old) block }
        ensures ok { OnOk result (self.new ≡ self.old ++ block) }
        ensures err { OnErr result (self.new ≡ self.old) }
    {
        self.lasts.reserve(1)?;
        self.blocks.reserve(1)?;
        let last = block.last_end();
        self.lasts.push_reserved(last);
        self.blocks.push_reserved(block);
        Ok(())
    }

    /// The same entries, in blocks of their own. An error means that an allocation failed.
    pub fn copied(&self, alloc: Global) -> Result<Blocks<V>, AllocError>
        ensures { IfOk result (λ b. b ≡ self.now) }
    {
        let mut all = Blocks::new(alloc);
        for block in &self.blocks {
            let copy = block.part(alloc, 0, block.len())?;
            all.append(copy)?;
        }
        Ok(all)
    }

    /// The allocator that the blocks were made with.
    pub fn allocator(&self) -> Global {
        *self.lasts.allocator()
    }

    /// Whether there are no entries.
    pub fn is_empty(&self) -> bool
        ensures { IsTrue result ↔ (length self.now ≡ 0) }
    {
        self.lent().is_empty()
    }

    /// How many entries there are: one look at each block.
    pub fn len(&self) -> usize
        ensures { result ≡ length self.now }
    {
        let Some(last) = self.lasts.last() else {
            return 0;
        };
        // The proof learns that the last entry ends by the top, so that the count fits.
        let _top = last.end().rank();
        let mut len = 0;
        for block in &self.blocks {
            len += block.len();
        }
        len
    }

    /// The entries, lent for look-ups.
    pub fn lent(&self) -> BlocksRef<'_, V>
        ensures { result ≡ self.now }
    {
        BlocksRef::over(&self.lasts, &self.blocks)
    }

    /// The first entry that ends beyond the key.
    pub fn above(&self, key: Bound) -> Option<(Bound, V)>
        ensures { result ≡ slice_get (beyond key self.now) 0 }
    {
        self.lent().above(key)
    }

    /// The bound at which the entry above the key begins: the end of the last entry that ends at
    /// the key or before it. If there is none, it is `least`.
    pub fn end_before(&self, key: Bound, least: Bound) -> Bound
        ensures { result ≡ last_from least (up_to key self.now) }
    {
        self.lent().end_before(key, least)
    }

    /// The entries, by rising end.
    pub fn iter(&self) -> Iter<'_, V>
        ensures { result ≡ self.now }
    {
        Iter::over(&[], &[], &self.blocks)
    }

    /// The entries that end beyond the key, by rising end.
    pub fn iter_from(&self, key: Bound) -> Iter<'_, V>
        ensures { result ≡ beyond key self.now }
    {
        self.lent().iter_from(key)
    }

    /// Puts the fresh entries in place of those that end beyond `from` and not beyond `to`. The
    /// first block that changed is then joined with its neighbours, if they have few entries
    /// together. An error means that an allocation failed: the entries are then unchanged.
    pub fn replace(
        &mut self,
        alloc: Global,
        from: Bound,
        to: Bound,
        fresh: &Entries<V>,
    ) -> Result<(), AllocError>
        requires rise { RiseFrom from fresh.now }
        requires last { last_from from fresh.now ≤ to }
        ensures ok { OnOk result (self.new ≡ replaced from to fresh.now self.old) }
        ensures err { OnErr result (self.new ≡ self.old) }
    {
        if self.blocks.is_empty() {
            let made = Blocks::cut(alloc, fresh)?;
            *self = made;
            return Ok(());
        }
        let at = places_of(&self.lasts, &self.blocks, from, to);
        replace_at(
            alloc,
            &mut self.lasts,
            &mut self.blocks,
            from,
            to,
            at,
            fresh,
        )?;
        join_around(alloc, &mut self.lasts, &mut self.blocks, at.first);
        Ok(())
    }
}
