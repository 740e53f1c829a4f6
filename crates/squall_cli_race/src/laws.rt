//! Laws of what a race shows, each the contract of a function that does nothing.

ghost use Rattle.std.specs.Prelude.{◌≡◌, ◌⊎◌, ℕ, List};
ghost use Rattle.squall_cli_lines.specs.declared.Ended.TheVariants.{Fine, Refused};
ghost use Rattle.squall_cli_words.specs.Endings.{EndsInBadLine, EndsInNoBadLine, EndsInRefusal, EndsInNoRefusal};
ghost use Rattle.squall_cli_race.specs.RaceText.{MayShow};

/// A race that is fine shows one text for the text of its file, whatever the schedule of its threads.
pub fn one_race_text()
    ensures { (text shown other : List ℕ) → MayShow text Fine shown → MayShow text Fine other → shown ≡ other }
{}

/// A race is refused exactly if the last line that it shows says why a line is bad, or begins with
/// `refused`.
pub fn refused_race_ends_in_a_refusal()
    ensures refused { (text shown : List ℕ) → MayShow text Refused shown → EndsInBadLine shown ⊎ EndsInRefusal shown }
    ensures good { (text shown : List ℕ) → MayShow text Fine shown → EndsInNoBadLine shown }
    ensures fine { (text shown : List ℕ) → MayShow text Fine shown → EndsInNoRefusal shown }
{}
