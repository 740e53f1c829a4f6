//! Laws of what has come and of tallies, each the contract of a function that does nothing.

ghost use Rattle.std.specs.Prelude.{◌≡◌, ◌↔◌, ℕ, ◌<◌, ◌≤◌, true, Bool, List, All};
ghost use Rattle.std.specs.List.{sum_by};
ghost use Rattle.squall_key.specs.Keys.{top};
ghost use Rattle.squall_span.specs.Spans.{Interval, span_has};
ghost use Rattle.squall_course.specs.Change.{Change, ArePlans};
ghost use Rattle.squall_report.specs.Facts.{Fact};
ghost use Rattle.squall_board.specs.Boards.{BoardValue, board_join};
ghost use Rattle.squall_board.specs.Route.{route};
ghost use Rattle.squall_status.specs.declared.progress.Progress.{Progress};
ghost use Rattle.squall_status.specs.declared.progress.Progress.TheVariants.{Complete};
ghost use Rattle.squall_status.specs.declared.progress.MoveStatus.{MoveStatus};
ghost use Rattle.squall_status.specs.Coming.{IsProgress, come_count, loaded_in};
ghost use Rattle.squall_status.specs.Summary.{StatusValue, move_keys, move_loaded, AreMoveStatuses, IsStatusOf};
ghost use Rattle.squall_status.specs.Tallies.{tally_of, tally_sum, IsWithin};

/// The keys of a span have one progress, which says how many of them have come.
pub fn one_progress()
    ensures one { (span : Interval) (come : ℕ → Bool) (p q : Progress) → span.lo < span.hi
        → IsProgress span come p → IsProgress span come q → p ≡ q }
    ensures loaded { (span : Interval) (come : ℕ → Bool) (p : Progress) → span.lo < span.hi → span.hi ≤ top
        → IsProgress span come p → loaded_in span p ≡ come_count span come }
{}

/// What is said of a course gives it one status.
pub fn one_status()
    ensures { (c : Change) (says : Fact → Bool) (s t : StatusValue) → ArePlans c.old c.new → IsStatusOf c says s → IsStatusOf c says t → s ≡ t }
{}

/// How many keys move, and how many are loaded, are the sums over the moves.
pub fn loads_are_the_sum()
    ensures keys { (c : Change) (says : Fact → Bool) (s : StatusValue) → ArePlans c.old c.new → IsStatusOf c says s → sum_by move_keys s.moves ≡ s.keys }
    ensures loaded { (c : Change) (says : Fact → Bool) (s : StatusValue) → ArePlans c.old c.new → IsStatusOf c says s → sum_by move_loaded s.moves ≡ s.loaded }
{}

/// A move is complete exactly if each of its keys is routed to its new partition.
pub fn complete_where_routed()
    ensures { (c : Change) (says : Fact → Bool) (ss : List MoveStatus) → ArePlans c.old c.new → AreMoveStatuses c says ss
        → All (λ s. (s.progress ≡ Complete) ↔ ((k : ℕ) → span_has s.moving.span k ≡ true → route c says k ≡ s.moving.dest)) ss }
{}

/// A join of two boards tells at most as much as both: no number of it is above the sum of theirs.
pub fn a_join_is_within_the_sum()
    ensures { (a b : BoardValue) → IsWithin (tally_of (board_join a b)) (tally_sum (tally_of a) (tally_of b)) }
{}
