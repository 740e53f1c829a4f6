//! The commands about reports and boards, with their help, as `clap` reads them.

ghost use Rattle.std.specs.Prelude.{◌≡◌, IfOk, false, codes};
ghost use Rattle.clap.specs.Words.{app_of, new_app, shape_of, rule_of};
ghost use Rattle.clap.specs.declared.builder.command.Command.TheViews.{out-Command as fields_of};
ghost use Rattle.squall_cli_command.specs.Rules.{words_rule, files_rule, flag_rule};
ghost use Rattle.squall_cli_command.specs.Asking.{report_shape, board_shape, merge_shape};

use clap::{Arg, ArgAction, Command};
use std::alloc::{AllocError, Global};

const REPORTS: &str = "Reports:
  loaded N S P LO HI  partition P has loaded [LO,HI) in sub-plan S of course N
  done N S P          partition P has all that sub-plan S of course N brings it
  opened N S          sub-plan S of course N is opened, and all those before it
  issued N OLD NEW    course N leads from the plan of file OLD to that of file NEW

Example:
  squall report done 1 2 4 >done.bin";

const BOARD: &str =
    "A file has the frames of a board. If a file has a fault, the only line is: refused FILE FAULT

Example:
  squall board a.bin b.bin
  squall board --json a.bin b.bin";

const MERGE: &str = "A file has the frames of a board. The output has as few frames as can be.

Example:
  squall merge a.bin b.bin >both.bin";

/// A command with its help, and with no arguments yet.
pub(crate) fn described<'a>(
    alloc: Global,
    name: &'a str,
    about: &'a str,
    after_help: &'a str,
) -> Command<'a>
    ensures app { app_of result ≡ new_app name.entry.now }
    ensures globals { (fields_of result).has_globals ≡ false }
{
    Command::new(alloc, name)
        .about(about)
        .after_help(after_help)
}

/// A word, of which there is one or more.
pub(crate) fn words<'a>(alloc: Global, name: &'a str, help: &'a str) -> Arg<'a>
    ensures rule { rule_of result ≡ words_rule name.entry.now }
    ensures global { result.global ≡ false }
{
    Arg::new(alloc, name)
        .required(true)
        .action(ArgAction::Append)
        .help(help)
}

/// A word, such as the name of a file, of which there is any number.
pub(crate) fn files<'a>(alloc: Global, name: &'a str, help: &'a str) -> Arg<'a>
    ensures rule { rule_of result ≡ files_rule name.entry.now }
    ensures global { result.global ≡ false }
{
    Arg::new(alloc, name).action(ArgAction::Append).help(help)
}

/// `--name`, which may be there.
pub(crate) fn flag<'a>(alloc: Global, name: &'a str, help: &'a str) -> Arg<'a>
    ensures rule { rule_of result ≡ flag_rule name.entry.now }
    ensures global { result.global ≡ false }
{
    Arg::new(alloc, name)
        .long(name)
        .action(ArgAction::SetTrue)
        .help(help)
}

/// `--json`, which may be there.
pub(crate) fn json<'a>(alloc: Global) -> Arg<'a>
    ensures rule { rule_of result ≡ flag_rule (codes "json") }
    ensures global { result.global ≡ false }
{
    flag(alloc, "json", "Writes a JSON object instead of lines")
}

/// `report WORD..`
pub(crate) fn report_command<'a>(alloc: Global) -> Result<Command<'a>, AllocError>
    ensures shape { IfOk result (λ c. shape_of c ≡ report_shape) }
    ensures globals { IfOk result (λ c. (fields_of c).has_globals ≡ false) }
{
    described(alloc, "report", "Writes the frame of a report", REPORTS).arg(words(
        alloc,
        "WORD",
        "The words of the report",
    ))
}

/// `board FILE.. [--json]`
pub(crate) fn board_command<'a>(alloc: Global) -> Result<Command<'a>, AllocError>
    ensures shape { IfOk result (λ c. shape_of c ≡ board_shape) }
    ensures globals { IfOk result (λ c. (fields_of c).has_globals ≡ false) }
{
    described(
        alloc,
        "board",
        "Shows the board that files tell of, as lines",
        BOARD,
    )
    .arg(words(alloc, "FILE", "The files of frames, or -"))?
    .arg(json(alloc))
}

/// `merge FILE..`
pub(crate) fn merge_command<'a>(alloc: Global) -> Result<Command<'a>, AllocError>
    ensures shape { IfOk result (λ c. shape_of c ≡ merge_shape) }
    ensures globals { IfOk result (λ c. (fields_of c).has_globals ≡ false) }
{
    described(
        alloc,
        "merge",
        "Joins the boards of files, and writes the frames of the result",
        MERGE,
    )
    .arg(words(alloc, "FILE", "The files of frames, or -"))
}
