//! Patches of route tables.

ghost use Rattle.std.specs.Prelude.{◌≡◌, ℕ, ◌<◌, ◌≤◌, ◌+◌, ◌^◌, false, OnOk, OnErr};
ghost use Rattle.squall_key.specs.Keys.{top};
ghost use Rattle.squall_span.specs.Spans.{has};
ghost use Rattle.squall_plan.specs.Ranges.{owner_of};
ghost use Rattle.squall_course.specs.Moves.{moves_of};
ghost use Rattle.squall_table.specs.Tables.{IsTable};
ghost use Rattle.squall_table.specs.Touched.{WasTable};
ghost use Rattle.squall_table.specs.Reach.{moves_in, reach};

use crate::fresh::{know_moves, renew};
use crate::meter::Meter;
use crate::near::near_count;
use crate::routes::Heard;
use crate::table::RouteTable;
use squall_board::Board;
use squall_course::Course;
use squall_span::SpanSet;
use std::alloc::AllocError;

impl RouteTable {
    /// Makes the table that of the board. Before, it has to be that of an older board, whose routes
    /// differ from those of the board at most in the set. The call searches for the legs about the
    /// set, and replaces them.
    ///
    /// The meter counts the moves that share a key with the set. It also counts some of the old
    /// entries that share one, or border on a span of the set. An error means that an allocation
    /// failed: table and meter are then unchanged.
    ///
    /// [`RouteTable::build`] and this call say whose table it is. [`touched`](crate::touched) says
    /// that routes change at most in its set.
    pub fn patch(
        &mut self,
        course: &Course,
        board: &Board,
        set: &SpanSet,
        meter: &mut Meter,
    ) -> Result<(), AllocError>
        requires was { WasTable course.now board.now set.now self.old }
        requires room { meter.old < 2 ^ 63 }
        ensures table { OnOk result (IsTable course.now board.now self.new) }
        ensures others { OnOk result ((k : ℕ) → k < top → has set.now k ≡ false → owner_of self.new k ≡ owner_of self.old k) }
        ensures at_least { OnOk result (meter.old + moves_in set.now (moves_of course.now.old course.now.new) ≤ meter.new) }
        ensures at_most { OnOk result (meter.new ≤ meter.old + reach set.now (moves_of course.now.old course.now.new) self.old) }
        ensures err { OnErr result (self.new ≡ self.old) }
        ensures unmetered { OnErr result (meter.new ≡ meter.old) }
    {
        know_moves(course);
        if set.is_empty() {
            return Ok(());
        }
        let alloc = self.legs.allocator();
        let list = set.list(alloc)?;
        let table = self.legs.lent();
        let made = renew(alloc, &table, course, Heard::Board(board), list.spans())?;
        let entries = near_count(&table, set, made.lo, made.hi);
        self.legs.replace(alloc, made.lo, made.hi, &made.fresh)?;
        meter.count += made.moves as u64;
        meter.count = meter.count.saturating_add(entries as u64);
        Ok(())
    }
}
