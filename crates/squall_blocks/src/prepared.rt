//! An edit that is prepared, so that it cannot fail.

ghost use Rattle.std.specs.Prelude.{◌≡◌, ◌<◌, ◌≤◌, length, IfOk, IfErr};
ghost use Rattle.squall_blocks.specs.Entries.{RiseFrom, last_from, replaced};

use crate::blocks::Blocks;
use crate::edit::{fits, join_around, places_of};
use crate::entries::Entries;
use crate::room::ReadyEntries;
use crate::search::End;
use squall_key::Bound;
use std::marker::Model;
use std::mem::replace;

/// Why an edit is not prepared.
#[derive(Clone, Copy, Debug, PartialEq, Eq)]
pub enum Unready {
    /// The edit does not stay in one block, or leaves too many entries in it, or none.
    Spread,
    /// An allocation failed.
    NoMemory,
}

/// Blocks of which an edit is not prepared: they are as they were.
#[derive(Drop)]
pub struct Unprepared<V: Copy> {
    pub blocks: Blocks<V>,
    pub why: Unready,
}

/// Blocks with an edit that is prepared. To make it cannot fail, and neither can leaving it out.
///
/// The edit stays in one block. That block is out of its place meanwhile, and has room for the
/// entries that come in. So no block is made anew.
///
/// Contracts see the entries before the edit, and those after it.
#[derive(Drop)]
pub struct Prepared<V: Copy> {
    lasts: Vec<End>,
    blocks: Vec<Entries<V>>,
    /// The place of the block.
    at: usize,
    block: ReadyEntries<V>,
    /// The entries of the block from `first` to `end` go.
    first: usize,
    end: usize,
    fresh: Entries<V>,
}

impl<V: Copy> Model for Prepared<V> {
    ghost use Rattle.std.specs.Prelude.{List, ℕ, ◌≤◌, length};
    ghost use Rattle.std.specs.List.{splice};
    ghost use Rattle.squall_blocks.specs.Blocks.{flat, put, IsPrepared};

    ghost Value = { List (ℕ × V) × List (ℕ × V) };

    ghost view = { λ p. (
      flat (put p.blocks.items p.at p.block.entries),
      flat (put p.blocks.items p.at (splice p.block.entries p.first p.end p.fresh)),
    ) };

    ghost invariant = { λ p. IsPrepared p.lasts.items p.blocks.items p.at p.block.entries (splice p.block.entries p.first p.end p.fresh)
        × (p.first ≤ p.end) × (p.end ≤ length p.block.entries) × (length p.fresh ≤ p.block.room) };
}

impl<V: Copy> Prepared<V> {
    /// Prepares to put the fresh entries in place of those that end beyond `from` and not beyond
    /// `to`. An error hands the blocks back as they were.
    ///
    /// - `Spread`: the edit does not stay in one block, or leaves too many entries in it, or none.
    ///   [`Draft`](crate::Draft) makes any edit.
    /// - `NoMemory`: an allocation failed.
    pub fn of(
        whole: Blocks<V>,
        from: Bound,
        to: Bound,
        fresh: Entries<V>,
    ) -> Result<Prepared<V>, Unprepared<V>>
        requires some { 0 < length whole }
        requires rise { RiseFrom from fresh }
        requires last { last_from from fresh ≤ to }
        ensures before { IfOk result (λ p. p.0 ≡ whole) }
        ensures after { IfOk result (λ p. p.1 ≡ replaced from to fresh whole) }
        ensures err { IfErr result (λ e. e.blocks ≡ whole) }
    {
        let Blocks { lasts, blocks } = whole;
        let mut blocks = blocks;
        let at = places_of(&lasts, &blocks, from, to);
        if !fits(at, blocks[at.first].len(), fresh.len()) {
            let blocks = Blocks { lasts, blocks };
            let why = Unready::Spread;
            return Err(Unprepared { blocks, why });
        }
        let block = replace(&mut blocks[at.first], Entries::new(*lasts.allocator()));
        match ReadyEntries::of(block, fresh.len()) {
            Ok(block) => Ok(Prepared {
                lasts,
                blocks,
                at: at.first,
                block,
                first: at.start,
                end: at.stop,
                fresh,
            }),
            Err(block) => {
                blocks[at.first] = block;
                let blocks = Blocks { lasts, blocks };
                let why = Unready::NoMemory;
                Err(Unprepared { blocks, why })
            }
        }
    }

    /// Makes the edit. Its block is then joined with its neighbours, if they have few entries
    /// together and no allocation fails.
    pub fn make(self) -> Blocks<V>
        ensures { result ≡ self.1 }
    {
        let Prepared {
            lasts,
            blocks,
            at,
            block,
            first,
            end,
            fresh,
        } = self;
        let mut lasts = lasts;
        let mut blocks = blocks;
        let mut block = block;
        block.replace(first, end, &fresh);
        let block = block.into_entries();
        lasts[at] = block.last_end();
        blocks[at] = block;
        let alloc = *lasts.allocator();
        join_around(alloc, &mut lasts, &mut blocks, at);
        Blocks { lasts, blocks }
    }

    /// Leaves the edit out: the entries are those before it.
    pub fn leave(self) -> Blocks<V>
        ensures { result ≡ self.0 }
    {
        let Prepared {
            lasts,
            blocks,
            at,
            block,
            first: _,
            end: _,
            fresh: _,
        } = self;
        let mut blocks = blocks;
        blocks[at] = block.into_entries();
        Blocks { lasts, blocks }
    }
}
