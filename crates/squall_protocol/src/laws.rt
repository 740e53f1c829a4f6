//! Laws of what may happen: to each event there is one answer at most, and one world after it; and in
//! each world that is reached there is one.

ghost use Rattle.std.specs.Prelude.{◌≡◌, ℕ, ◌≤◌, List};
ghost use Rattle.squall_plan.specs.declared.range.PlanRange.{PlanRange};
ghost use Rattle.squall_protocol.specs.declared.event.Event.{Event};
ghost use Rattle.squall_protocol.specs.declared.answer.Answer.{Answer};
ghost use Rattle.squall_protocol.specs.Worlds.{WorldValue, SameWorld};
ghost use Rattle.squall_protocol.specs.Steps.{Step, Run, LeavesAt, HoldsOwn, IsWhereLeft};
ghost use Rattle.squall_protocol.specs.Acts.{ActsAreAnswered};
ghost use Rattle.squall_protocol.specs.Promises.{IsReached};

/// To an event there is one answer at most in any world, and one world after it.
pub fn one_answer()
    ensures answer { (w v u : WorldValue) (event : Event) (a b : Answer) → Step w event a v → Step w event b u → a ≡ b }
    ensures world { (w v u : WorldValue) (event : Event) (a b : Answer) → Step w event a v → Step w event b u → SameWorld v u }
{}

/// So two runs of the same events from one world have the same answers, and end in one world.
pub fn one_run()
    ensures answers { (w v u : WorldValue) (events : List Event) (a b : List Answer) → Run w events a v → Run w events b u → a ≡ b }
    ensures world { (w v u : WorldValue) (events : List Event) (a b : List Answer) → Run w events a v → Run w events b u → SameWorld v u }
{}

/// No world that is reached blocks: to each act of a node there is an answer, and a world after it.
///
/// An act is any event, if a course begins between plans. A `Plan` of the code always is one, so an
/// event that is no act is none that a node could do: a world need not answer it.
pub fn some_answer()
    ensures { ActsAreAnswered }
{}

/// Where a course leaves a key is found out once and for all: it stays true, whatever happens next.
/// So partitions may be asked one after another. A plan by which each partition holds what is its
/// own, and gives no more, has each key where the course begun last leaves it.
pub fn where_left()
    ensures stays { (w : WorldValue) → IsReached w → (n k p : ℕ) → n ≤ w.last → LeavesAt w n k p
        → (events : List Event) (answers : List Answer) (v : WorldValue) → Run w events answers v → LeavesAt v n k p }
    ensures each { (w : WorldValue) → IsReached w → (old : List PlanRange) → ((p : ℕ) → HoldsOwn w old p) → IsWhereLeft w old }
{}
