//! Route tables.

ghost use Rattle.std.specs.Prelude.{◌≡◌, IfOk};
ghost use Rattle.squall_plan.specs.Ranges.{owner_of, AreRanges, IsCanonical};
ghost use Rattle.squall_table.specs.LegEntries.{legs_from, legs_beyond};
ghost use Rattle.squall_table.specs.Tables.{AreLegs, IsTable};

use crate::entries::{copy_entries, entries_of};
use crate::routes::{Heard, Routes, first_move, push_routes};
use crate::view::Legs;
use squall_blocks::Blocks;
use squall_board::Board;
use squall_course::Course;
use squall_key::{Bound, Key, PartId};
use squall_plan::PlanRange;
use squall_span::Span;
use std::alloc::{AllocError, Global};
use std::marker::Model;

/// The keys of a span, and the partition to ask for them. It is the same type as a range of a plan.
pub type Leg = PlanRange;

/// Which partition to ask for each key: legs by rising key, without a hole. Neighbours have
/// different partitions.
///
/// Contracts see a table as the list of its legs.
#[derive(Drop)]
pub struct RouteTable {
    pub(crate) legs: Blocks<PartId>,
}

impl Model for RouteTable {
    ghost use Rattle.std.specs.Prelude.{List};
    ghost use Rattle.squall_plan.specs.declared.range.PlanRange.{PlanRange};
    ghost use Rattle.squall_plan.specs.Ranges.{IsCanonical, AreRanges};
    ghost use Rattle.squall_table.specs.LegEntries.{legs_from};

    ghost Value = { List PlanRange };

    ghost view = { λ t. legs_from 0 t.legs };

    ghost invariant = { λ t. IsCanonical (legs_from 0 t.legs) × AreRanges (legs_from 0 t.legs) };
}

/// The bound at the least key.
pub(crate) fn bottom() -> Bound
    ensures { result ≡ 0 }
{
    Bound::of_rank(0).unwrap_or(Bound::TOP)
}

impl RouteTable {
    /// The table of the course and the board. An error means that an allocation failed.
    pub fn build(alloc: Global, course: &Course, board: &Board) -> Result<RouteTable, AllocError>
        ensures table { IfOk result (IsTable course.now board.now) }
    {
        let mut legs = Vec::new(alloc);
        let moves = course.moves();
        let old = course.old_plan().ranges();
        let first = first_move(moves, bottom());
        let routes = Routes {
            legs: old,
            moves,
            number: course.number(),
            heard: Heard::Board(board),
        };
        push_routes(&mut legs, routes, first, bottom(), Bound::TOP)?;
        let entries = entries_of(alloc, &legs)?;
        let legs = Blocks::of(alloc, entries)?;
        Ok(RouteTable { legs })
    }

    /// The partition to ask for the key, by a binary search among the blocks and one in a block.
    pub fn owner(&self, key: Key) -> PartId
        ensures { result ≡ owner_of self.now key }
    {
        let Some(entry) = self.legs.above(Bound::of_key(key)) else {
            unreachable!()
        };
        entry.1
    }

    /// The legs, by rising key.
    pub fn entries(&self) -> Legs<'_>
        ensures value { result ≡ self.now }
        ensures canonical { IsCanonical result }
        ensures ranges { AreRanges result }
    {
        Legs::over(bottom(), self.legs.iter())
    }

    /// The legs by rising key, from the leg of a key on. A binary search finds that leg.
    pub fn entries_from(&self, key: Key) -> Legs<'_>
        ensures legs { result ≡ legs_beyond key self.now }
        ensures canonical { IsCanonical self.now }
    {
        let key = Bound::of_key(key);
        let from = self.legs.end_before(key, bottom());
        Legs::over(from, self.legs.iter_from(key))
    }

    /// A table with the same legs. An error means that an allocation failed.
    pub fn copied(&self, alloc: Global) -> Result<RouteTable, AllocError>
        ensures { IfOk result (λ t. t ≡ self.now) }
    {
        let legs = self.legs.copied(alloc)?;
        Ok(RouteTable { legs })
    }

    /// The legs cut to a span. An error means that an allocation failed.
    pub fn legs(&self, alloc: Global, span: &Span) -> Result<Vec<Leg>, AllocError>
        ensures { IfOk result (λ legs. AreLegs (owner_of self.now) span.now.lo span.now.hi legs.items) }
    {
        let mut legs = Vec::new(alloc);
        copy_entries(&mut legs, &self.legs.lent(), span.lo(), span.hi())?;
        Ok(legs)
    }
}
