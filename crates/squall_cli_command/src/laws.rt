//! Laws of the words, each the contract of a function that does nothing.

ghost use Rattle.std.specs.Prelude.{◌≢◌, ◌⊎◌, ◌∷◌, [], List, true, false, codes};
ghost use Rattle.clap.specs.Words.{Text};
ghost use Rattle.squall_cli_command.specs.declared.inquiry.Inquiry.TheVariants.{Report, Board, Status, Routes, NamedRoutes, Legs, Beyond, Cover};
ghost use Rattle.squall_cli_command.specs.declared.inquiry.Inquiry.TheVariants.{Plan, Split, Diff, Names, Audit};
ghost use Rattle.squall_cli_command.specs.declared.stream.Stream.TheVariants.{Keys, Frames};
ghost use Rattle.squall_cli_command.specs.declared.form.Form.TheVariants.{Lines, Json};
ghost use Rattle.squall_cli_command.specs.Asking.{status_asked};
ghost use Rattle.squall_cli_command.specs.Streams.{watch_asked};
ghost use Rattle.squall_cli_command.specs.Line.{Asks, AsksForHelp, IsFaulty, faults_in, check, course, run, ask, stream};

/// Standard input is run without a command, and by `run -`; it is checked by `check -`.
pub fn standard_input()
    ensures alone { (name : Text) → Asks (name ∷ []) (run (codes "-")) }
    ensures run { (name : Text) → Asks (name ∷ codes "run" ∷ codes "-" ∷ []) (run (codes "-")) }
    ensures check { (name : Text) → Asks (name ∷ codes "check" ∷ codes "-" ∷ []) (check Lines (codes "-")) }
{}

/// The words after `report` are those of the inquiry, and those after `board` its files, in their order.
pub fn words_of_boards()
    ensures report { (name : Text) → Asks (name ∷ codes "report" ∷ codes "opened" ∷ codes "1" ∷ codes "2" ∷ [])
        (ask Report (codes "opened" ∷ codes "1" ∷ codes "2" ∷ []) []) }
    ensures board { (name : Text) → Asks (name ∷ codes "board" ∷ codes "b" ∷ codes "-" ∷ []) (ask (Board Lines) [] (codes "b" ∷ codes "-" ∷ [])) }
{}

/// A flag is no file of the inquiry, and changes what is asked.
pub fn flags_of_boards()
    ensures status { (name : Text) → Asks (name ∷ codes "status" ∷ codes "o" ∷ codes "n" ∷ codes "b" ∷ [])
        (ask (Status (status_asked Lines false false)) [] (codes "o" ∷ codes "n" ∷ codes "b" ∷ [])) }
    ensures waiting { (name : Text) → Asks (name ∷ codes "status" ∷ codes "--waiting" ∷ codes "o" ∷ codes "n" ∷ [])
        (ask (Status (status_asked Lines true false)) [] (codes "o" ∷ codes "n" ∷ [])) }
    ensures judged { (name : Text) → Asks (name ∷ codes "status" ∷ codes "--exit-status" ∷ codes "o" ∷ codes "n" ∷ [])
        (ask (Status (status_asked Lines false true)) [] (codes "o" ∷ codes "n" ∷ [])) }
    ensures beyond { (name : Text) → Asks (name ∷ codes "beyond" ∷ codes "a" ∷ codes "b" ∷ []) (ask Beyond [] (codes "a" ∷ codes "b" ∷ [])) }
    ensures quiet { (name : Text) → Asks (name ∷ codes "beyond" ∷ codes "a" ∷ codes "b" ∷ codes "--quiet" ∷ []) (ask Cover [] (codes "a" ∷ codes "b" ∷ [])) }
{}

/// The files of a route and of legs are the two plans and those of `--board`, before or after the
/// other words. The words are the keys or names, and the bounds. Of a status the other words are files, too, and
/// come before those of `--board`.
pub fn files_of_routes()
    ensures route { (name : Text) → Asks (name ∷ codes "route" ∷ codes "o" ∷ codes "n" ∷ codes "2:0" ∷ codes "--board" ∷ codes "b" ∷ codes "3:0" ∷ [])
        (ask Routes (codes "2:0" ∷ codes "3:0" ∷ []) (codes "o" ∷ codes "n" ∷ codes "b" ∷ [])) }
    ensures names { (name : Text) → Asks (name ∷ codes "route" ∷ codes "--name" ∷ codes "o" ∷ codes "n" ∷ codes "a"
        ∷ codes "--board" ∷ codes "b" ∷ codes "-" ∷ [])
        (ask NamedRoutes (codes "a" ∷ codes "-" ∷ []) (codes "o" ∷ codes "n" ∷ codes "b" ∷ [])) }
    ensures legs { (name : Text) → Asks (name ∷ codes "legs" ∷ codes "--board" ∷ codes "b" ∷ codes "o" ∷ codes "n" ∷ [])
        (ask (Legs Lines) [] (codes "o" ∷ codes "n" ∷ codes "b" ∷ [])) }
    ensures status { (name : Text) → Asks (name ∷ codes "status" ∷ codes "--board" ∷ codes "b" ∷ codes "o" ∷ codes "n" ∷ codes "f" ∷ [])
        (ask (Status (status_asked Lines false false)) [] (codes "o" ∷ codes "n" ∷ codes "f" ∷ codes "b" ∷ [])) }
{}

/// The words after `plan` and its file are those of the inquiry, those after `split` a bound and
/// partitions, and those after `key` names, in their order. The words after `diff` are files.
pub fn words_of_plans()
    ensures one { (name : Text) → Asks (name ∷ codes "plan" ∷ codes "o" ∷ codes "2:0" ∷ codes "3:0" ∷ codes "7" ∷ [])
        (ask Plan (codes "2:0" ∷ codes "3:0" ∷ codes "7" ∷ []) (codes "o" ∷ [])) }
    ensures more { (name : Text) → Asks (name ∷ codes "plan" ∷ codes "o" ∷ codes "2:0" ∷ codes "3:0" ∷ codes "7" ∷ codes "5:0" ∷ codes "end" ∷ codes "8" ∷ [])
        (ask Plan (codes "2:0" ∷ codes "3:0" ∷ codes "7" ∷ codes "5:0" ∷ codes "end" ∷ codes "8" ∷ []) (codes "o" ∷ [])) }
    ensures split { (name : Text) → Asks (name ∷ codes "split" ∷ codes "8:0" ∷ codes "1-3" ∷ codes "7" ∷ [])
        (ask Split (codes "8:0" ∷ codes "1-3" ∷ codes "7" ∷ []) []) }
    ensures diff { (name : Text) → Asks (name ∷ codes "diff" ∷ codes "o" ∷ codes "n" ∷ []) (ask Diff [] (codes "o" ∷ codes "n" ∷ [])) }
    ensures key { (name : Text) → Asks (name ∷ codes "key" ∷ codes "2:7:a" ∷ codes "b" ∷ []) (ask Names (codes "2:7:a" ∷ codes "b" ∷ []) []) }
{}

/// The words after `audit` are the files of both plans, and then those of logs, in their order.
pub fn files_of_audits()
    ensures { (name : Text) → Asks (name ∷ codes "audit" ∷ codes "o" ∷ codes "n" ∷ codes "a" ∷ codes "b" ∷ [])
        (ask Audit [] (codes "o" ∷ codes "n" ∷ codes "a" ∷ codes "b" ∷ [])) }
{}

/// Without a key, and with `-` as the only one, a route's keys are those of standard input.
pub fn keys_of_standard_input()
    ensures none { (name : Text) → Asks (name ∷ codes "route" ∷ codes "o" ∷ codes "n" ∷ codes "--board" ∷ codes "b" ∷ [])
        (stream Keys (codes "o" ∷ codes "n" ∷ codes "b" ∷ [])) }
    ensures dash { (name : Text) → Asks (name ∷ codes "route" ∷ codes "o" ∷ codes "n" ∷ codes "-" ∷ []) (stream Keys (codes "o" ∷ codes "n" ∷ [])) }
{}

/// `watch` reads frames from standard input. Its files are the two plans. A flag is no file, and
/// changes what is asked.
pub fn frames_of_standard_input()
    ensures lines { (name : Text) → Asks (name ∷ codes "watch" ∷ codes "o" ∷ codes "n" ∷ [])
        (stream (Frames (watch_asked Lines false)) (codes "o" ∷ codes "n" ∷ [])) }
    ensures json { (name : Text) → Asks (name ∷ codes "watch" ∷ codes "o" ∷ codes "--json" ∷ codes "n" ∷ [])
        (stream (Frames (watch_asked Json false)) (codes "o" ∷ codes "n" ∷ [])) }
    ensures until { (name : Text) → Asks (name ∷ codes "watch" ∷ codes "--until-complete" ∷ codes "o" ∷ codes "n" ∷ [])
        (stream (Frames (watch_asked Lines true)) (codes "o" ∷ codes "n" ∷ [])) }
    ensures both { (name : Text) → Asks (name ∷ codes "watch" ∷ codes "o" ∷ codes "n" ∷ codes "--until-complete" ∷ codes "--json" ∷ [])
        (stream (Frames (watch_asked Json true)) (codes "o" ∷ codes "n" ∷ [])) }
{}

/// `--json` is no file either: it asks for the same as JSON.
pub fn forms_of_answers()
    ensures check { (name : Text) → Asks (name ∷ codes "check" ∷ codes "--json" ∷ codes "p" ∷ []) (check Json (codes "p")) }
    ensures course { (name : Text) → Asks (name ∷ codes "course" ∷ codes "o" ∷ codes "n" ∷ codes "--json" ∷ []) (course Json (codes "o") (codes "n")) }
    ensures board { (name : Text) → Asks (name ∷ codes "board" ∷ codes "--json" ∷ codes "b" ∷ []) (ask (Board Json) [] (codes "b" ∷ [])) }
    ensures status { (name : Text) → Asks (name ∷ codes "status" ∷ codes "o" ∷ codes "n" ∷ codes "--json" ∷ [])
        (ask (Status (status_asked Json false false)) [] (codes "o" ∷ codes "n" ∷ [])) }
    ensures waiting { (name : Text) → Asks (name ∷ codes "status" ∷ codes "--waiting" ∷ codes "--json" ∷ codes "o" ∷ codes "n" ∷ [])
        (ask (Status (status_asked Json true false)) [] (codes "o" ∷ codes "n" ∷ [])) }
    ensures legs { (name : Text) → Asks (name ∷ codes "legs" ∷ codes "--json" ∷ codes "o" ∷ codes "n" ∷ [])
        (ask (Legs Json) [] (codes "o" ∷ codes "n" ∷ [])) }
{}

/// Words that have a fault ask for help or are bad, and never both.
pub fn a_fault_is_help_or_bad()
    ensures one { (words : List Text) → faults_in words ≢ [] → AsksForHelp words ⊎ IsFaulty words }
    ensures other { (words : List Text) → AsksForHelp words → IsFaulty words → ⊥ }
{}
