//! The commands about the newest course, with their help, as `clap` reads them.

ghost use Rattle.std.specs.Prelude.{◌≡◌, IfOk, false};
ghost use Rattle.clap.specs.Words.{app_of, shape_of, rule_of};
ghost use Rattle.clap.specs.declared.builder.command.Command.TheViews.{out-Command as fields_of};
ghost use Rattle.squall_cli_command.specs.Asking.{of_plans, of_boards, status_shape, picture_shape, watch_shape, route_shape, legs_shape};
ghost use Rattle.squall_cli_command.specs.Rules.{option_rule};

use crate::boards::{described, files, flag, json};
use crate::parser::file;
use clap::{Arg, ArgAction, Command};
use std::alloc::{AllocError, Global};

const STATUS: &str =
    "OLD and NEW are the plans of the first course. The status is that of the newest one that
the files tell of.

With --exit-status the exit status is 5 as long as a move of that course is not complete.

Example:
  squall status --waiting old.json new.json --board board.bin
  squall status --json old.json new.json --board board.bin
  squall status --exit-status old.json new.json --board board.bin >/dev/null && echo complete";

const PICTURE: &str =
    "OLD and NEW are the plans of the first course. The picture is that of the newest one that
the files tell of: its old plan above, its new plan below, and a band between them for each move.
The loaded share of a band is filled.

Example:
  squall picture old.json new.json --board board.bin >move.svg";

const WATCH: &str =
    "OLD and NEW are the plans of the first course. Frames of boards are read from standard
input as they come, so that no file can be -. Each frame is answered before the next read: with the
lines of squall status that it changes, and the first frame with all of them. A frame that is broken
ends the answers.

With --json each frame that changes the object of squall status --json is answered with that object,
on one line.

With --until-complete the command ends with status 0 after the frame with which each move of the
newest course is complete, and reads no more. If the input ends before that, the status is 5.

If standard error is a terminal, a bar there shows how many moves and sub-plans are complete.

Example:
  tail -c +1 -f board.bin | squall watch old.json new.json
  tail -c +1 -f board.bin | squall watch --json old.json new.json
  tail -c +1 -f board.bin | squall watch --until-complete old.json new.json >/dev/null && echo complete";

const ROUTE: &str =
    "OLD and NEW are the plans of the first course. A key is written ROOT:SECOND, as 2:0. The
answers are the lines that a scenario answers to: route KEY. See: squall help run

Without a key, and with - as the only one, keys are read from standard input, one a line, and no
file can be -. Each line is answered before the next read. The first bad line ends the answers.

With --name each KEY is the name of a row, and the answer has the name. See: squall help key

Example:
  squall route old.json new.json 2:0 6:0 --board board.bin
  squall route --name old.json new.json 2:7:cart --board board.bin
  squall route old.json new.json --board board.bin <keys.txt";

const LEGS: &str =
    "OLD and NEW are the plans of the first course. LO and HI are two bounds, as 2:0 and end.
Without them all keys are shown. The answers are the lines that a scenario answers to: legs LO HI.
See: squall help run

Example:
  squall legs old.json new.json 2:0 3:0 --board board.bin
  squall legs --json old.json new.json --board board.bin";

/// `--name FILE`, any number of times.
fn option<'a>(alloc: Global, name: &'a str, help: &'a str) -> Arg<'a>
    ensures rule { rule_of result ≡ option_rule name.entry.now }
    ensures global { result.global ≡ false }
{
    Arg::new(alloc, name)
        .long(name)
        .value_name("FILE")
        .action(ArgAction::Append)
        .help(help)
}

/// A command of two plans, without what may follow: `NAME OLD NEW`.
pub(crate) fn of_plans<'a>(
    alloc: Global,
    name: &'a str,
    about: &'a str,
    after_help: &'a str,
) -> Result<Command<'a>, AllocError>
    ensures app { IfOk result (λ c. app_of c ≡ of_plans name.entry.now) }
    ensures globals { IfOk result (λ c. (fields_of c).has_globals ≡ false) }
{
    described(alloc, name, about, after_help)
        .arg(file(alloc, "OLD", "The file of the old plan, or -"))?
        .arg(file(alloc, "NEW", "The file of the new plan, or -"))
}

/// A command of two plans and board files, without what may follow: `NAME OLD NEW [FILE..] [--board FILE]..`.
fn of_boards<'a>(
    alloc: Global,
    name: &'a str,
    about: &'a str,
    after_help: &'a str,
) -> Result<Command<'a>, AllocError>
    ensures app { IfOk result (λ c. app_of c ≡ of_boards name.entry.now) }
    ensures globals { IfOk result (λ c. (fields_of c).has_globals ≡ false) }
{
    of_plans(alloc, name, about, after_help)?
        .arg(files(alloc, "FILE", "The same as --board FILE"))?
        .arg(option(alloc, "board", "A file of frames, or -"))
}

/// `status OLD NEW [FILE..] [--board FILE].. [--waiting] [--json] [--exit-status]`
pub(crate) fn status_command<'a>(alloc: Global) -> Result<Command<'a>, AllocError>
    ensures shape { IfOk result (λ c. shape_of c ≡ status_shape) }
    ensures globals { IfOk result (λ c. (fields_of c).has_globals ≡ false) }
{
    of_boards(
        alloc,
        "status",
        "Shows how far the newest course is",
        STATUS,
    )?
    .arg(flag(
        alloc,
        "waiting",
        "Shows only the moves that are not complete",
    ))?
    .arg(json(alloc))?
    .arg(flag(
        alloc,
        "exit-status",
        "Ends with status 5 if a move is not complete",
    ))
}

/// `picture OLD NEW [FILE..] [--board FILE]..`
pub(crate) fn picture_command<'a>(alloc: Global) -> Result<Command<'a>, AllocError>
    ensures shape { IfOk result (λ c. shape_of c ≡ picture_shape) }
    ensures globals { IfOk result (λ c. (fields_of c).has_globals ≡ false) }
{
    of_boards(
        alloc,
        "picture",
        "Draws how far the newest course is, as an SVG image",
        PICTURE,
    )
}

/// `watch OLD NEW [--json] [--until-complete]`
pub(crate) fn watch_command<'a>(alloc: Global) -> Result<Command<'a>, AllocError>
    ensures shape { IfOk result (λ c. shape_of c ≡ watch_shape) }
    ensures globals { IfOk result (λ c. (fields_of c).has_globals ≡ false) }
{
    of_plans(
        alloc,
        "watch",
        "Shows how far the newest course is, as frames come on standard input",
        WATCH,
    )?
    .arg(json(alloc))?
    .arg(flag(
        alloc,
        "until-complete",
        "Ends once each move of the newest course is complete",
    ))
}

/// `route OLD NEW [KEY].. [--board FILE].. [--name]`
pub(crate) fn route_command<'a>(alloc: Global) -> Result<Command<'a>, AllocError>
    ensures shape { IfOk result (λ c. shape_of c ≡ route_shape) }
    ensures globals { IfOk result (λ c. (fields_of c).has_globals ≡ false) }
{
    of_plans(
        alloc,
        "route",
        "Shows which partition to ask for keys",
        ROUTE,
    )?
    .arg(files(
        alloc,
        "KEY",
        "The keys; without one they are read from standard input",
    ))?
    .arg(option(alloc, "board", "A file of frames, or -"))?
    .arg(flag(alloc, "name", "Takes each KEY as the name of a row"))
}

/// `legs OLD NEW [BOUND].. [--board FILE].. [--json]`
pub(crate) fn legs_command<'a>(alloc: Global) -> Result<Command<'a>, AllocError>
    ensures shape { IfOk result (λ c. shape_of c ≡ legs_shape) }
    ensures globals { IfOk result (λ c. (fields_of c).has_globals ≡ false) }
{
    of_plans(
        alloc,
        "legs",
        "Shows which partitions to ask for all keys, or for those of a span",
        LEGS,
    )?
    .arg(files(alloc, "BOUND", "LO and HI, the bounds of the span"))?
    .arg(option(alloc, "board", "A file of frames, or -"))?
    .arg(json(alloc))
}
