//! Edits that may still be undone.

ghost use Rattle.std.specs.Prelude.{◌≡◌, ◌<◌, ◌≤◌, length, IfOk, OnOk, OnErr};
ghost use Rattle.squall_blocks.specs.Entries.{RiseFrom, last_from, replaced};

use crate::blocks::Blocks;
use crate::edit::{edit_within, fits_again, join_around, pieces, places_of};
use crate::entries::Entries;
use crate::lent::BlocksRef;
use crate::search::End;
use crate::steps::{Step, exchange, undo};
use squall_key::Bound;
use std::alloc::{AllocError, Global};
use std::marker::Model;

/// Blocks with edits that may still be undone. Undoing them cannot fail, since each edit keeps what
/// goes: the entries of one block if at least as many come in, and else whole blocks.
///
/// Contracts see the entries before the first edit, and those after the last one.
#[derive(Drop)]
pub struct Draft<V: Copy> {
    lasts: Vec<End>,
    blocks: Vec<Entries<V>>,
    steps: Vec<Step<V>>,
    /// How many blocks the steps keep.
    kept: usize,
}

impl<V: Copy> Model for Draft<V> {
    ghost use Rattle.std.specs.Prelude.{List, ℕ, ◌≡◌, ◌+◌, ◌≤◌, vec_len, vec_capacity};
    ghost use Rattle.squall_blocks.specs.Blocks.{flat};
    ghost use Rattle.squall_blocks.specs.Drafts.{undone, kept_in, IsDraft};

    ghost Value = { List (ℕ × V) × List (ℕ × V) };

    ghost view = { λ d. (flat (undone d.steps.items d.blocks.items), flat d.blocks.items) };

    ghost invariant = { λ d. IsDraft d.lasts.items d.blocks.items d.steps.items × (d.kept ≡ kept_in d.steps.items)
        × (vec_len d.lasts + d.kept ≤ vec_capacity d.lasts) × (vec_len d.blocks + d.kept ≤ vec_capacity d.blocks) };
}

impl<V: Copy> Draft<V> {
    /// A draft of the blocks, with no edit so far. It takes no memory.
    pub fn of(whole: Blocks<V>) -> Draft<V>
        ensures before { result.0 ≡ whole }
        ensures after { result.1 ≡ whole }
    {
        let Blocks { lasts, blocks } = whole;
        let steps = Vec::new(*lasts.allocator());
        Draft {
            lasts,
            blocks,
            steps,
            kept: 0,
        }
    }

    /// The allocator that the blocks were made with.
    pub fn allocator(&self) -> Global {
        *self.lasts.allocator()
    }

    /// The entries after the last edit, lent for look-ups.
    pub fn lent(&self) -> BlocksRef<'_, V>
        ensures { result ≡ self.now.1 }
    {
        BlocksRef::over(&self.lasts, &self.blocks)
    }

    /// Puts the fresh entries in place of those that end beyond `from` and not beyond `to`. An
    /// error means that an allocation failed: the entries are then unchanged.
    pub fn replace(
        &mut self,
        alloc: Global,
        from: Bound,
        to: Bound,
        fresh: &Entries<V>,
    ) -> Result<(), AllocError>
        requires some { 0 < length self.old.1 }
        requires rise { RiseFrom from fresh.now }
        requires last { last_from from fresh.now ≤ to }
        ensures before { self.new.0 ≡ self.old.0 }
        ensures after { OnOk result (self.new.1 ≡ replaced from to fresh.now self.old.1) }
        ensures err { OnErr result (self.new.1 ≡ self.old.1) }
    {
        let at = places_of(&self.lasts, &self.blocks, from, to);
        let len = self.blocks[at.first].len();
        if !fits_again(at, len, fresh.len()) {
            return self.trade(alloc, from, to, fresh);
        }
        self.steps.reserve(1)?;
        let (lasts, blocks) = (&mut self.lasts, &mut self.blocks);
        let step = edit_within(alloc, lasts, blocks, from, to, at, fresh)?;
        self.steps.push_reserved(step);
        Ok(())
    }

    /// Makes any edit by new blocks, which change places with the old ones.
    fn trade(
        &mut self,
        alloc: Global,
        from: Bound,
        to: Bound,
        fresh: &Entries<V>,
    ) -> Result<(), AllocError>
        requires some { 0 < length self.old.1 }
        requires rise { RiseFrom from fresh.now }
        requires last { last_from from fresh.now ≤ to }
        ensures before { self.new.0 ≡ self.old.0 }
        ensures after { OnOk result (self.new.1 ≡ replaced from to fresh.now self.old.1) }
        ensures err { OnErr result (self.new.1 ≡ self.old.1) }
    {
        let at = places_of(&self.lasts, &self.blocks, from, to);
        let made = pieces(alloc, &self.lasts, &self.blocks, from, to, at, fresh)?;
        let Blocks {
            lasts: ends,
            blocks: fresh,
        } = made;
        self.steps.reserve(1)?;
        let (lasts, blocks) = (&mut self.lasts, &mut self.blocks);
        let end = at.end + 1;
        let step = exchange(lasts, blocks, at.first, end, ends, fresh, self.kept)?;
        self.kept += end - at.first;
        self.steps.push_reserved(step);
        Ok(())
    }

    /// Keeps the edits. The first block of each edit is then joined with its neighbours, if they
    /// have few entries together and no allocation fails.
    pub fn keep(self) -> Blocks<V>
        ensures { result ≡ self.1 }
    {
        let Draft {
            lasts,
            blocks,
            steps,
            kept: _,
        } = self;
        let mut lasts = lasts;
        let mut blocks = blocks;
        let mut steps = steps;
        let alloc = *lasts.allocator();
        while let Some(step) = steps.pop() {
            join_around(alloc, &mut lasts, &mut blocks, step.first());
        }
        Blocks { lasts, blocks }
    }

    /// Undoes the edits: the entries are then those before the first edit.
    pub fn undo(self) -> Blocks<V>
        ensures { result ≡ self.0 }
    {
        let Draft {
            lasts,
            blocks,
            steps,
            kept: _,
        } = self;
        let mut lasts = lasts;
        let mut blocks = blocks;
        let mut steps = steps;
        while let Some(step) = steps.pop() {
            undo(&mut lasts, &mut blocks, step);
        }
        Blocks { lasts, blocks }
    }
}
