//! Laws of what scenarios answer, each the contract of a function that does nothing.

ghost use Rattle.std.specs.Prelude.{◌≡◌, ◌≢◌, ℕ, List, length, true, false, Some};
ghost use Rattle.squall_protocol.specs.declared.event.Event.{Event};
ghost use Rattle.squall_protocol.specs.declared.answer.Answer.{Answer};
ghost use Rattle.squall_rows.specs.RowSteps.{Plain, Ask, Answered, Ran};
ghost use Rattle.squall_store.specs.declared.command.Command.{Command};
ghost use Rattle.squall_store.specs.declared.command.Command.TheVariants.{Put};
ghost use Rattle.squall_world_rows.specs.Seen.{BytesRow};
ghost use Rattle.squall_world_rows.specs.Maps.{MapWorld, MapStep};
ghost use Rattle.squall_cli_lines.specs.Script.{Script, text_of};
ghost use Rattle.squall_cli_words.specs.Endings.{EndsInBadLine, HasNoBadLine, EndsInNoBadLine};
ghost use Rattle.squall_cli_scenario.specs.Text.{IsScript};

/// There is one script at most for any lines: to each event of a world, and to each command on a row,
/// there is one answer.
pub fn one_script()
    ensures { (lines : List (List ℕ)) (a b : Script) → IsScript lines a → IsScript lines b → a ≡ b }
{}

/// If a run is refused, the last line of its text says why a line is bad.
pub fn refused_ends_in_a_bad_line()
    ensures { (lines : List (List ℕ)) (script : Script) → IsScript lines script → script.refused ≡ true → EndsInBadLine (text_of script) }
{}

/// If a run is not refused, no line of its text says that a line is bad, so the last one does not.
/// Each line has its answer then.
pub fn fine_has_no_bad_line()
    ensures none { (lines : List (List ℕ)) (script : Script) → IsScript lines script → script.refused ≡ false → HasNoBadLine (text_of script) }
    ensures last { (lines : List (List ℕ)) (script : Script) → IsScript lines script → script.refused ≡ false → EndsInNoBadLine (text_of script) }
    ensures answered { (lines : List (List ℕ)) (script : Script) → IsScript lines script → script.refused ≡ false → length script.answers ≡ length lines }
{}

/// A row is got as it was put. The next command on its key that runs, at whatever partition, shows it.
/// A put changes no row of another key, and events and commands that do not run change no row.
pub fn rows_are_got_as_put()
    ensures put { (w v u : MapWorld) (p q k n m : ℕ) (text : List ℕ) (command : Command) (before row : BytesRow)
        → MapStep w (Ask p k n (Put text)) (Ran before) v → MapStep v (Ask q k m command) (Ran row) u → row ≡ Some text }
    ensures others { (w v : MapWorld) (p k n j : ℕ) (text : List ℕ) (before : BytesRow)
        → MapStep w (Ask p k n (Put text)) (Ran before) v → j ≢ k → v.map j ≡ w.map j }
    ensures event { (w v : MapWorld) (event : Event) (answer : Answer) → MapStep w (Plain event) (Answered answer) v → v.map ≡ w.map }
    ensures refused { (w v : MapWorld) (p k n : ℕ) (command : Command) (answer : Answer) → MapStep w (Ask p k n command) (Answered answer) v → v.map ≡ w.map }
{}
