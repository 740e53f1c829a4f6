//! The commands of the program, with their help, as `clap` reads them.

ghost use Rattle.std.specs.Prelude.{◌≡◌, IfOk, false};
ghost use Rattle.clap.specs.Words.{app_of, shape_of, rule_of};
ghost use Rattle.clap.specs.declared.builder.command.Command.TheViews.{out-Command as fields_of};
ghost use Rattle.squall_cli_command.specs.Line.{squall_app, edits_app, names_app, digests_app, boards_app, routes_app, watch_app, courses_app};
ghost use Rattle.squall_cli_command.specs.Line.{reports_app, runs_app, plans_app, program_app};
ghost use Rattle.squall_cli_command.specs.Line.{check_shape, course_shape, run_shape, race_shape};
ghost use Rattle.squall_cli_command.specs.Rules.{file_rule};
ghost use Rattle.squall_cli_command.specs.Commands.{Adds};

use crate::boards::{board_command, described, json, merge_command, report_command};
use crate::courses::{
    legs_command, of_plans, picture_command, route_command, status_command, watch_command,
};
use crate::exchange::{beyond_command, digest_command, repair_command};
use crate::other::{audit_command, diff_command, key_command, plan_command, split_command};
use clap::{Arg, ArgAction, Command};
use std::alloc::{AllocError, Global};

/// Makes `clap` take `--version`. `message` shows its caller's title in the place of this text.
const VERSION: &str = "-";

const ABOUT: &str =
    "Says where each key is while a database moves from one partition plan to another.";

const AFTER_HELP: &str = "Plans:        check, course, plan, split, diff
A move:       status, watch, picture, route, legs
Board files:  report, board, merge, beyond, digest, repair
Rows:         key
Logs:         audit
Trials:       run, race

A board file has frames, which say what was reported: partitions, proxies and squall report write
them. A file named - is standard input. Without a command the scenario on standard input is run.

Example:
  squall check new.json
  squall course old.json new.json
  squall report loaded 1 0 3 2:0 3:0 >board.bin
  squall status old.json new.json --board board.bin
  squall run scenario.txt

squall help COMMAND shows the help of a command: squall help run has the lines of a scenario, and
squall help race those of a race.";

const CHECK: &str = "Example:
  squall check new.json
  squall check --json new.json";

const COURSE: &str = "Example:
  squall course old.json new.json
  squall course --json old.json new.json";

const SCENARIO: &str = "Lines of a scenario, one question or report each:
  old JSON            the old plan, first: {\"plan\":[{\"part\":1,\"from\":[0,0],\"to\":\"end\"}]}
  new JSON            the new plan, right after the old one
  loaded N S P LO HI  partition P has loaded [LO,HI) in sub-plan S of course N
  done N S P          partition P has all that sub-plan S of course N brings it
  opened N S          sub-plan S of course N is opened, and all those before it
  issued N JSON       course N leads from the new plan to this one
  route K             asks which partition has key K
  legs LO HI          asks which partitions have the keys of [LO,HI)
  board               asks what was reported
  hear HEX            hears the next bytes of a stream of frames, and takes their reports
  frame               asks for the frame of the board
  world R             begins a world with R routers. Each further line is an event
  # REMARK            is skipped, as is a line without words

Events of a world. NODE is l, the leader; p3, partition 3; or r0, router 0:
  open                the leader opens the next sub-plan
  begin JSON          the leader begins the next course, to this plan
  begin-from OLD NEW  the leader begins the next course before the last one is over: OLD is the
                      plan that says where the keys are
  close P             partition P gives no more in the newest course that it knows
  give P MAX          partition P sends on the first keys that are to go, at most MAX
  giveat P K          partition P sends on key K
  load I              chunk I comes to its destination
  finish P S          partition P reports that it has all keys of sub-plan S
  send NODE           the node sends all that it knows
  send NODE REPORT    the node sends one report, in the words of loaded, done or opened
  deliver I NODE      message I comes to the node
  route R K           asks to which partition router R sends key K
  serve P K [N]       asks what partition P replies for key K after move N
  put P K TEXT        puts the row TEXT under key K at partition P, and shows the row before
  get P K             asks partition P for the row of key K
  del P K             removes the row of key K at partition P, and shows the row before";

const RACE: &str = "Lines of a race, which is run once all of them are read:
  old JSON    the old plan, first: {\"plan\":[{\"part\":1,\"from\":[0,0],\"to\":\"end\"}]}
  new JSON    the new plan, before all lines below
  capacity C  how many letters the inbox holds, 1 to 65536; 16 without this line
  readers N   how many threads route each key once, at most 64; 1 without this line
  senders N   how many threads post reports, 1 to 64, before the first report; 2 without this line
  N REPORT    sender N, counted from 0, posts this report: a line loaded, done or opened
              of a scenario
  key K       the board at the end shows the route of key K
  # REMARK    is skipped, as is a line without words";

/// A word, such as a file's name, that has to be there.
pub(crate) fn file<'a>(alloc: Global, name: &'a str, help: &'a str) -> Arg<'a>
    ensures rule { rule_of result ≡ file_rule name.entry.now }
    ensures global { result.global ≡ false }
{
    Arg::new(alloc, name)
        .required(true)
        .action(ArgAction::Set)
        .help(help)
}

/// `check PLAN [--json]`
fn check_command<'a>(alloc: Global) -> Result<Command<'a>, AllocError>
    ensures shape { IfOk result (λ c. shape_of c ≡ check_shape) }
    ensures globals { IfOk result (λ c. (fields_of c).has_globals ≡ false) }
{
    described(
        alloc,
        "check",
        "Checks a plan: shows its ranges by rising key, or the fault that makes it no plan",
        CHECK,
    )
    .arg(file(alloc, "PLAN", "The file of the plan, or -"))?
    .arg(json(alloc))
}

/// `course OLD NEW [--json]`
fn course_command<'a>(alloc: Global) -> Result<Command<'a>, AllocError>
    ensures shape { IfOk result (λ c. shape_of c ≡ course_shape) }
    ensures globals { IfOk result (λ c. (fields_of c).has_globals ≡ false) }
{
    of_plans(
        alloc,
        "course",
        "Shows which ranges move between two plans, from and to which partition, and in which sub-plan",
        COURSE,
    )?
    .arg(json(alloc))
}

/// `run FILE`
fn run_command<'a>(alloc: Global) -> Result<Command<'a>, AllocError>
    ensures shape { IfOk result (λ c. shape_of c ≡ run_shape) }
    ensures globals { IfOk result (λ c. (fields_of c).has_globals ≡ false) }
{
    described(
        alloc,
        "run",
        "Answers the lines of a scenario: plans, reports of what was loaded, and questions for routes",
        SCENARIO,
    )
    .arg(file(alloc, "FILE", "The file of the scenario, or -"))
}

/// `race FILE`
fn race_command<'a>(alloc: Global) -> Result<Command<'a>, AllocError>
    ensures shape { IfOk result (λ c. shape_of c ≡ race_shape) }
    ensures globals { IfOk result (λ c. (fields_of c).has_globals ≡ false) }
{
    described(
        alloc,
        "race",
        "Runs senders, readers and an owner as threads at once, and shows the board they come to",
        RACE,
    )
    .arg(file(alloc, "FILE", "The file of the race, or -"))
}

/// The program without its commands. `help` is no command of its own: it is read as `--help`.
fn program<'a>(alloc: Global) -> Command<'a>
    ensures { app_of result ≡ program_app }
{
    Command::new(alloc, "squall")
        .version(VERSION)
        .disable_help_subcommand(true)
        .about(ABOUT)
        .after_help(AFTER_HELP)
}

/// The program with one more command, if both could be made. It takes results, so that a caller has
/// no way out while it owns a command.
fn added<'a>(
    program: Result<Command<'a>, AllocError>,
    command: Result<Command<'a>, AllocError>,
) -> Result<Command<'a>, AllocError>
    requires { IfOk command (λ s. (fields_of s).has_globals ≡ false) }
    ensures { IfOk result (λ c. Adds program.entry command.entry c) }
{
    program?.subcommand(command?)
}

/// The program with its commands about plans.
fn with_plans<'a>(alloc: Global) -> Result<Command<'a>, AllocError>
    ensures { IfOk result (λ c. app_of c ≡ plans_app) }
{
    added(
        added(Ok(program(alloc)), check_command(alloc)),
        course_command(alloc),
    )
}

/// And with those of scenarios and races.
fn with_runs<'a>(alloc: Global) -> Result<Command<'a>, AllocError>
    ensures { IfOk result (λ c. app_of c ≡ runs_app) }
{
    added(
        added(with_plans(alloc), run_command(alloc)),
        race_command(alloc),
    )
}

/// And with those of one board.
fn with_reports<'a>(alloc: Global) -> Result<Command<'a>, AllocError>
    ensures { IfOk result (λ c. app_of c ≡ reports_app) }
{
    added(
        added(with_runs(alloc), report_command(alloc)),
        board_command(alloc),
    )
}

/// And with those of the newest course.
fn with_courses<'a>(alloc: Global) -> Result<Command<'a>, AllocError>
    ensures { IfOk result (λ c. app_of c ≡ courses_app) }
{
    added(
        added(with_reports(alloc), status_command(alloc)),
        picture_command(alloc),
    )
}

/// And with that of the same as frames come.
fn with_watch<'a>(alloc: Global) -> Result<Command<'a>, AllocError>
    ensures { IfOk result (λ c. app_of c ≡ watch_app) }
{
    added(with_courses(alloc), watch_command(alloc))
}

/// And with those of its routes.
fn with_routes<'a>(alloc: Global) -> Result<Command<'a>, AllocError>
    ensures { IfOk result (λ c. app_of c ≡ routes_app) }
{
    added(
        added(with_watch(alloc), route_command(alloc)),
        legs_command(alloc),
    )
}

/// And with those of several boards.
fn with_boards<'a>(alloc: Global) -> Result<Command<'a>, AllocError>
    ensures { IfOk result (λ c. app_of c ≡ boards_app) }
{
    added(
        added(with_routes(alloc), merge_command(alloc)),
        beyond_command(alloc),
    )
}

/// And with those of digests.
fn with_digests<'a>(alloc: Global) -> Result<Command<'a>, AllocError>
    ensures { IfOk result (λ c. app_of c ≡ digests_app) }
{
    added(
        added(with_boards(alloc), digest_command(alloc)),
        repair_command(alloc),
    )
}

/// And with those of a plan and of names.
fn with_names<'a>(alloc: Global) -> Result<Command<'a>, AllocError>
    ensures { IfOk result (λ c. app_of c ≡ names_app) }
{
    added(
        added(with_digests(alloc), plan_command(alloc)),
        key_command(alloc),
    )
}

/// And with those of other plans.
fn with_edits<'a>(alloc: Global) -> Result<Command<'a>, AllocError>
    ensures { IfOk result (λ c. app_of c ≡ edits_app) }
{
    added(
        added(with_names(alloc), split_command(alloc)),
        diff_command(alloc),
    )
}

/// The program's command line: also with that of logs.
pub(crate) fn parser<'a>(alloc: Global) -> Result<Command<'a>, AllocError>
    ensures { IfOk result (λ c. app_of c ≡ squall_app) }
{
    added(with_edits(alloc), audit_command(alloc))
}
