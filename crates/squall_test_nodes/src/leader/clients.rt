//! What a caller that is lent a leader learns of it from the public contracts alone.

ghost use Rattle.std.specs.Prelude.{◌≡◌, ℕ, ◌<◌, ◌≤◌, ◌^◌, ◌-◌, true, false, Some, None};
ghost use Rattle.squall_key.specs.Keys.{top};
ghost use Rattle.squall_course.specs.Change.{Change};
ghost use Rattle.squall_course.specs.Moves.{is_incoming};
ghost use Rattle.squall_report.specs.Cells.{place_at};
ghost use Rattle.squall_report.specs.Facts.{DonePart};
ghost use Rattle.squall_board.specs.Boards.{says};
ghost use Rattle.squall_leader.specs.Leaders.{waited_for};

use squall_course::laws::receivers_have_keys;
use squall_leader::Leader;

/// The number of the course begun last is one that a report may have.
pub fn numbers_fit(leader: &Leader)
    ensures { (c : Change) → leader.now.course ≡ Some c → (1 ≤ c.number) × (c.number ≤ 2 ^ 32 - 1) }
{
    leader.known();
}

/// Keys go to a partition that the leader waits for, and its board does not say it done. If it
/// waits for none, the board says each partition done to which keys go.
pub fn waits_for_keys(leader: &Leader)
    ensures some { (c : Change) (sub part : ℕ) → leader.now.course ≡ Some c → waited_for c leader.now.board sub ≡ Some part
        → (says leader.now.board (DonePart (place_at c.number sub part)) ≡ false)
        × ((k : ℕ) × (k < top) × (is_incoming c.old c.new sub part k ≡ true)) }
    ensures none { (c : Change) (sub part k : ℕ) → leader.now.course ≡ Some c → waited_for c leader.now.board sub ≡ None
        → k < top → is_incoming c.old c.new sub part k ≡ true → says leader.now.board (DonePart (place_at c.number sub part)) ≡ true }
{
    leader.known();
    receivers_have_keys();
}
