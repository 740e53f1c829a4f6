//! What answers lines.
ghost use Rattle.std.specs.Prelude.{◌≡◌, ℕ, List, [], ◌++◌, ◌<◌, length, IfOk, string_bytes};
ghost use Rattle.squall_cli_lines.specs.declared.Flow.TheVariants.{End};
ghost use Rattle.squall_cli_lines.specs.declared.TheConstants.{LONGEST_PIECE};
ghost use Rattle.squall_cli_lines.specs.Script.{Script, TakesLine, silence};

use super::Flow;
use std::alloc::AllocError;

/// What answers lines, one after another, until one is bad.
pub trait Machine {
    /// Whether it may play this script to the lines that come from here on.
    ghost plays: { Self → List (List ℕ) → Script → Type 0 };

    /// Takes the next line, here without its LF, and adds the answer to `out`. `End` means that the
    /// line was bad. A line of more than `LONGEST_PIECE` bytes always is bad.
    ///
    /// After a failed allocation nothing is known of the machine or of `out`.
    fn take(&mut self, line: &[u8], out: &mut String) -> Result<Flow, AllocError>
        ensures answered { IfOk result (λ flow. (text : List ℕ) × (string_bytes out.new ≡ string_bytes out.old ++ text)
            × TakesLine flow text (plays self.old) (plays self.new) line.now) }
        ensures long { LONGEST_PIECE < length line.now → IfOk result (λ flow. flow ≡ End) };

    /// If no line comes it may answer nothing.
    ghost silent_at_first: { (s : Self) → plays s [] silence };
}
