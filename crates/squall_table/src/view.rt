//! The legs of a table, one after the other.

ghost use Rattle.std.specs.Prelude.{◌≡◌};
ghost use Rattle.std.specs.Iterator.{YieldsFirst, item_count};
ghost use Rattle.squall_blocks.specs.Entries.{RiseFrom};
ghost use Rattle.squall_table.specs.LegEntries.{legs_from};

use crate::table::Leg;
use squall_blocks::Iter;
use squall_key::{Bound, PartId};
use squall_span::Span;
use std::marker::Model;

/// The legs of a table that are still to come, by rising key.
///
/// Contracts see the list of these legs.
#[derive(Drop)]
pub struct Legs<'a> {
    from: Bound,
    rest: Iter<'a, PartId>,
}

impl<'a> Model for Legs<'a> {
    ghost use Rattle.std.specs.Prelude.{List};
    ghost use Rattle.squall_plan.specs.declared.range.PlanRange.{PlanRange};
    ghost use Rattle.squall_blocks.specs.Entries.{RiseFrom};
    ghost use Rattle.squall_table.specs.LegEntries.{legs_from};

    ghost Value = { List PlanRange };

    ghost view = { λ s. legs_from s.from s.rest };

    ghost invariant = { λ s. RiseFrom s.from s.rest };
}

impl<'a> Legs<'a> {
    /// The legs of the entries. The first begins at `from`.
    pub(crate) fn over(from: Bound, rest: Iter<'a, PartId>) -> Legs<'a>
        requires { RiseFrom from rest }
        ensures { result ≡ legs_from from rest.entry }
    {
        Legs { from, rest }
    }
}

impl<'a> Iterator for Legs<'a> {
    type Item = Leg;

    ghost next_gives = { YieldsFirst (λ s. s) };

    ghost remaining = { item_count (λ s. s) };

    fn next(&mut self) -> Option<Leg> {
        let entry = self.rest.next()?;
        let Some(span) = Span::new(self.from, entry.0) else {
            unreachable!()
        };
        self.from = entry.0;
        Some(Leg {
            span,
            part: entry.1,
        })
    }
}
