//! A law of errands, the contract of a function that does nothing.

ghost use Rattle.std.specs.Prelude.{◌≡◌, List, map};
ghost use Rattle.squall_errand.specs.declared.errand.Reply.{Reply};
ghost use Rattle.squall_errand.specs.declared.errand.Next.TheVariants.{Served, Lost};
ghost use Rattle.squall_errand.specs.Errands.{ErrandValue, step_of, answers_of};

/// Once an errand has answered `Served` or `Lost`, it answers the same for ever, whatever the
/// replies are.
pub fn ends_are_for_ever()
    ensures served { (e : ErrandValue) (reply : Reply) (replies : List Reply) → (step_of e reply).next ≡ Served
        → answers_of (step_of e reply).after replies ≡ map (λ _. Served) replies }
    ensures lost { (e : ErrandValue) (reply : Reply) (replies : List Reply) → (step_of e reply).next ≡ Lost
        → answers_of (step_of e reply).after replies ≡ map (λ _. Lost) replies }
{}
