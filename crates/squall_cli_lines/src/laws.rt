//! Laws of outcomes, each the contract of a function that does nothing.

ghost use Rattle.std.specs.Prelude.{ℕ, List, Result};
ghost use Rattle.squall_cli_lines.specs.declared.Ended.{Ended};
ghost use Rattle.squall_cli_lines.specs.declared.RunFault.{RunFault};
ghost use Rattle.squall_cli_lines.specs.Script.{Script, PlaysOnly, IsByLine, IsOutcome, IsOutcomeOf};

/// A machine that has one script for each list of lines, and answers them line by line, has the
/// outcome of that script. Nothing is lost if the machine has no choice.
pub fn outcome_of_function()
    ensures { (script : List (List ℕ) → Script) → IsByLine script → (result : Result Ended RunFault) (read written : List ℕ)
        → IsOutcome result (PlaysOnly script) read written → IsOutcomeOf result script read written }
{}
