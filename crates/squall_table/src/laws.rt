//! Laws of route tables, each the contract of a function that does nothing.

ghost use Rattle.std.specs.Prelude.{◌≡◌, ◌↔◌, ℕ, ◌<◌, ◌≤◌, true, false, Bool, List};
ghost use Rattle.squall_key.specs.Keys.{top};
ghost use Rattle.squall_span.specs.Spans.{Interval, has};
ghost use Rattle.squall_plan.specs.declared.range.PlanRange.{PlanRange};
ghost use Rattle.squall_plan.specs.Ranges.{owner_of, IsCanonical};
ghost use Rattle.squall_course.specs.Change.{Change, ArePlans};
ghost use Rattle.squall_course.specs.Subplans.{moves};
ghost use Rattle.squall_report.specs.Facts.{Fact};
ghost use Rattle.squall_board.specs.Boards.{BoardValue, says};
ghost use Rattle.squall_board.specs.Route.{has_come, route};
ghost use Rattle.squall_table.specs.Tables.{AreLegs, IsTable, legs_between};
ghost use Rattle.squall_table.specs.Touched.{is_touched, cell_touches, WasTable};

/// From one bound to another a route has one list of legs. So a course and a board have one table,
/// and tables of the same routes are equal.
pub fn one_list_of_legs()
    ensures { (f g : ℕ → ℕ) (lo hi : ℕ) (a b : List PlanRange) → ((k : ℕ) → lo ≤ k → k < hi → f k ≡ g k) → AreLegs f lo hi a → AreLegs g lo hi b → a ≡ b }
{}

/// The legs of a route are those that are made key by key.
pub fn legs_are_key_by_key()
    ensures { (f : ℕ → ℕ) (lo hi : ℕ) (ls : List PlanRange) → lo ≤ hi → AreLegs f lo hi ls ↔ (ls ≡ legs_between f lo hi) }
{}

/// If each moving key has come, the table is the list of the new plan's ranges.
pub fn all_in_is_the_new_plan()
    ensures { (c : Change) (b : BoardValue) (ls : List PlanRange) → IsCanonical c.new
        → ((k : ℕ) → k < top → moves c.old c.new k ≡ true → has_come c (says b) k ≡ true) → IsTable c b ls → ls ≡ c.new }
{}

/// The table of an older board, whose routes differ at most in a set, has the route of each key
/// outside the set. A key that does not move has its one owner.
pub fn older_tables_stay_outside()
    ensures outside { (c : Change) (b : BoardValue) (set : List Interval) (ls : List PlanRange) (k : ℕ) → WasTable c b set ls → k < top
        → has set k ≡ false → owner_of ls k ≡ route c (says b) k }
    ensures unmoved { (c : Change) (b : BoardValue) (set : List Interval) (ls : List PlanRange) (k : ℕ) → WasTable c b set ls → k < top
        → moves c.old c.new k ≡ false → owner_of ls k ≡ owner_of c.new k }
{}

/// A key is touched exactly if some cell of the course's number touches it.
pub fn touched_by_cells()
    ensures { (c : Change) (says : Fact → Bool) (k : ℕ) → (is_touched c says k ≡ true) ↔ ((sub : ℕ) × (part : ℕ) × (cell_touches c says sub part k ≡ true)) }
{}
