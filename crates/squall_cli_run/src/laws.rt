//! Laws of what is written, each the contract of a function that does nothing.

ghost use Rattle.std.specs.Prelude.{◌≡◌, ℕ, List, true, false};
ghost use Rattle.squall_cli_words.specs.Endings.{EndsInRefusal, EndsInNoRefusal};
ghost use Rattle.squall_cli_run.specs.Output.{check_of, course_of};

pub use squall_cli_scenario::laws::{fine_has_no_bad_line, one_script, refused_ends_in_a_bad_line};

/// A check is refused exactly when the last line of its output begins with `refused`.
pub fn refused_check_ends_in_a_refusal()
    ensures refused { (plan : List ℕ) → (check_of plan).refused ≡ true → EndsInRefusal (check_of plan).text }
    ensures fine { (plan : List ℕ) → (check_of plan).refused ≡ false → EndsInNoRefusal (check_of plan).text }
{}

/// A course is refused exactly when the last line of its output begins with `refused`.
pub fn refused_course_ends_in_a_refusal()
    ensures refused { (old new : List ℕ) → (course_of old new).refused ≡ true → EndsInRefusal (course_of old new).text }
    ensures fine { (old new : List ℕ) → (course_of old new).refused ≡ false → EndsInNoRefusal (course_of old new).text }
{}
