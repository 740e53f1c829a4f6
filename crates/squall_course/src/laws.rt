//! Laws of moves and sub-plans, each the contract of a function that does nothing.

ghost use Rattle.std.specs.Prelude.{◌≡◌, ◌↔◌, ℕ, ◌<◌, ◌≤◌, true, Some, List, All, length};
ghost use Rattle.squall_key.specs.Keys.{top, part_limit};
ghost use Rattle.squall_plan.specs.declared.range.PlanRange.{PlanRange};
ghost use Rattle.squall_plan.specs.Ranges.{owner_of};
ghost use Rattle.squall_course.specs.Subplans.{moves, feeds, IsFed, sub_of, subplan_count, dest_of, IsSingle, IsSplit};
ghost use Rattle.squall_course.specs.Moves.{moves_of, AreMoves, receivers_of, is_incoming};
ghost use Rattle.std.specs.List.{Contains, range_with_len};
ghost use Rattle.squall_course.specs.declared.moving.Move.{Move};
ghost use Rattle.squall_course.specs.Change.{ArePlans};

/// The moves as a function of the plans are the moves by their meaning.
pub fn moves_have_meaning()
    ensures { (old new : List PlanRange) → ArePlans old new → AreMoves old new (moves_of old new) }
{}

/// Two plans have one list of moves.
pub fn one_list_of_moves()
    ensures { (old new : List PlanRange) (ms : List Move) → ArePlans old new → AreMoves old new ms → ms ≡ moves_of old new }
{}

/// A partition receives in a sub-plan exactly if a key moves to it in that sub-plan.
pub fn receivers_have_keys()
    ensures { (old new : List PlanRange) (sub part : ℕ) → ArePlans old new
        → (Contains (receivers_of (moves_of old new) sub) part) ↔ ((k : ℕ) × (k < top) × (is_incoming old new sub part k ≡ true)) }
{}

/// The test of ranges finds that a source feeds a destination exactly if a key goes from the one to
/// the other.
pub fn feeds_where_keys_go()
    ensures { (old new : List PlanRange) (p q : ℕ) → ArePlans old new → (feeds old new p q ≡ true) ↔ IsFed old new p q }
{}

/// In a sub-plan a source has one destination at most: the moving keys of one source and one
/// sub-plan have one new owner.
pub fn one_destination_a_subplan()
    ensures { (old new : List PlanRange) (j k : ℕ) → ArePlans old new → j < top → k < top → moves old new j ≡ true → moves old new k ≡ true
        → owner_of old j ≡ owner_of old k → sub_of old new j ≡ sub_of old new k → owner_of new j ≡ owner_of new k }
{}

/// The destination of a moving key's source in the key's sub-plan is the key's new owner.
pub fn keys_go_to_destinations()
    ensures { (old new : List PlanRange) (k : ℕ) → ArePlans old new → k < top → moves old new k ≡ true
        → dest_of old new (sub_of old new k) (owner_of old k) ≡ Some (owner_of new k) }
{}

/// The sub-plan of a moving key is below the number of sub-plans.
pub fn subplans_are_counted()
    ensures { (old new : List PlanRange) (k : ℕ) → ArePlans old new → k < top → moves old new k ≡ true → sub_of old new k < subplan_count old new }
{}

/// There are at most as many sub-plans as the limit of partitions. So the sub-plan of a moving key
/// is below that limit.
pub fn subplans_at_most_partitions()
    ensures count { (old new : List PlanRange) → subplan_count old new ≤ part_limit }
    ensures keys { (old new : List PlanRange) (k : ℕ) → ArePlans old new → k < top → moves old new k ≡ true → sub_of old new k < part_limit }
{}

/// The sub-plan of each move is below the number of sub-plans.
pub fn moves_in_counted_subplans()
    ensures { (old new : List PlanRange) → ArePlans old new → All (λ m. m.sub < subplan_count old new) (moves_of old new) }
{}

/// Moving keys can be numbered so that those of one source and one number have one new owner. No
/// such numbering uses fewer numbers than there are sub-plans: a list of all numbers in use is at
/// least that long. So a bound above all numbers is at least that high. The sub-plans are such a
/// numbering.
pub fn no_fewer_subplans()
    ensures used { (old new : List PlanRange) (number : ℕ → ℕ) (used : List ℕ) → ArePlans old new → IsSplit old new number used
        → subplan_count old new ≤ length used }
    ensures below { (old new : List PlanRange) (number : ℕ → ℕ) (n : ℕ) → ArePlans old new
        → ((k : ℕ) → k < top → moves old new k ≡ true → number k < n) → IsSingle old new number → subplan_count old new ≤ n }
    ensures reached { (old new : List PlanRange) → ArePlans old new → IsSplit old new (sub_of old new) (range_with_len 0 (subplan_count old new)) }
{}
