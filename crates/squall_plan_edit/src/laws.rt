//! Laws of ranges that are given away, and of shares, each the contract of a function that does nothing.

ghost use Rattle.std.specs.Prelude.{◌≡◌, ◌==◌, ◌++◌, ◌∷◌, [], ℕ, ◌+◌, ◌/◌, ◌<◌, ◌≤◌, List, if◌then◌else◌};
ghost use Rattle.squall_span.specs.Spans.{how_many};
ghost use Rattle.squall_plan.specs.declared.range.PlanRange.{PlanRange};
ghost use Rattle.squall_plan.specs.Ranges.{holders, range_has, owner_of};
ghost use Rattle.squall_plan_edit.specs.Moved.{owner_after};
ghost use Rattle.squall_plan_edit.specs.Shares.{share_at};

/// A key that no range has stays at its partition.
pub fn other_keys_stay()
    ensures { (given old : List PlanRange) (k : ℕ) → holders k given ≡ 0 → owner_after given old k ≡ owner_of old k }
{}

/// Of all ranges the last one takes its keys, and leaves the others where those before it brought them.
pub fn the_last_range_decides()
    ensures { (given old : List PlanRange) (last : PlanRange) (k : ℕ)
        → owner_after (given ++ last ∷ []) old k ≡ (if range_has k last then last.part else owner_after given old k) }
{}

/// Each share has as many units as there are for each, rounded down, or one more.
pub fn shares_are_even()
    ensures { (units shares share : ℕ) → 0 < units → share < shares
        → (units / shares ≤ how_many (λ unit. share_at units shares unit == share) units)
        × (how_many (λ unit. share_at units shares unit == share) units ≤ units / shares + 1) }
{}
