//! How an answer is to be written, and by which word.

ghost use Rattle.std.specs.Prelude.{◌≡◌};
ghost use Rattle.clap.specs.Words.{found_of, rows_of};
ghost use Rattle.squall_cli_command.specs.Asking.{is_set, form_in};

use clap::ArgMatches;

/// How an answer is written.
#[derive(Clone, Copy, Debug, PartialEq, Eq)]
pub enum Form {
    /// As lines.
    Lines,
    /// As a JSON object.
    Json,
}

/// Whether the flag is among what was parsed.
#[tactic(auto, using(crate::proofs::Rows::first_is))]
pub(crate) fn is_set(matches: &ArgMatches, id: &str) -> bool
    ensures { result ≡ is_set id.now (rows_of (found_of matches.now)) }
{
    match matches.get_str(id) {
        Some(value) => value == "true",
        None => false,
    }
}

/// The form that the words ask for.
pub(crate) fn form_of(matches: &ArgMatches) -> Form
    ensures { result ≡ form_in (rows_of (found_of matches.now)) }
{
    if is_set(matches, "json") {
        Form::Json
    } else {
        Form::Lines
    }
}
