//! Laws of what is answered, each the contract of a function that does nothing.

ghost use Rattle.std.specs.Prelude.{ℕ};
ghost use Rattle.squall_cli_lines.specs.Script.{IsByLine};
ghost use Rattle.squall_cli_ask.specs.Keys.{keys_script};

/// Lines of keys are answered line by line: what the first lines bring, they bring among all lines.
pub fn keys_are_answered_by_line()
    ensures { (to_part : ℕ → ℕ) (before : ℕ) → IsByLine (keys_script to_part before) }
{}
