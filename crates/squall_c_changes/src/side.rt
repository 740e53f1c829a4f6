//! The legs of one table that are left of a walk.

ghost use Rattle.std.specs.Prelude.{◌≡◌};
ghost use Rattle.squall_plan.specs.Ranges.{owner_of};
ghost use Rattle.squall_c_changes.specs.Walks.{first_end, first_part, passed, AreLeft};

use squall_key::{Key, PartId};
use squall_table::{Leg, Legs, RouteTable};
use std::marker::Model;

/// Legs of a table, from the one that has a key on. Contracts see the list of them.
#[derive(Drop)]
pub(crate) struct Side<'a> {
    leg: Leg,
    rest: Legs<'a>,
}

impl<'a> Model for Side<'a> {
    ghost use Rattle.std.specs.Prelude.{List, ◌∷◌};
    ghost use Rattle.squall_plan.specs.declared.range.PlanRange.{PlanRange};

    ghost Value = { List PlanRange };

    ghost view = { λ s. s.leg ∷ s.rest };

    ghost invariant = { λ _. Unit {0} };
}

impl<'a> Side<'a> {
    /// The legs of the table, from that of the key on.
    pub(crate) fn from(table: &'a RouteTable, key: Key) -> Side<'a>
        ensures { AreLeft (owner_of table.now) key result }
    {
        // The proof learns that the key lies below the top.
        let _rank = key.rank();
        let mut rest = table.entries_from(key);
        let Some(leg) = rest.next() else {
            unreachable!()
        };
        Side { leg, rest }
    }

    /// The rank at which the first leg ends.
    pub(crate) fn end(&self) -> u64
        ensures { result ≡ first_end self.now }
    {
        self.leg.span.hi().rank()
    }

    /// The partition of the first leg.
    pub(crate) fn part(&self) -> PartId
        ensures { result ≡ first_part self.now }
    {
        self.leg.part
    }

    /// Drops the first leg if it ends at the rank or below, and another one follows.
    pub(crate) fn pass(&mut self, rank: u64)
        ensures { self.new ≡ passed rank self.old }
    {
        if self.leg.span.hi().rank() <= rank {
            if let Some(leg) = self.rest.next() {
                self.leg = leg;
            }
        }
    }
}
