//! What a scenario answers to a line.

ghost use Rattle.std.specs.Prelude.{◌≡◌, ◌++◌, ℕ, List, IfOk, string_bytes, codes, refl};
ghost use Rattle.squall_cli_lines.specs.declared.Flow.TheVariants.{End};
ghost use Rattle.squall_cli_words.specs.Reasons.{bad_line};
ghost use Rattle.squall_cli_scenario.specs.Replies.{old_reply, new_reply, report_reply, issued_reply, route_reply, board_reply, reply_to_line, MayAnswer};
ghost use Rattle.squall_cli_scenario.specs.Answered.{Answers, IsAnswer};
ghost use Rattle.squall_cli_scenario.specs.Stages.{meant};

use crate::command::{Command, read_line};
use crate::frames::{hear, show_frame};
use crate::legs::show_legs;
use crate::rows::{ask, command_of};
use crate::scenario::{Scenario, Stage};
use crate::worlds::{happen, make_world};
use squall_cli_events::event_of;
use squall_cli_lines::Flow;
use squall_cli_lines::machine::Machine;
use squall_cli_lines::words::without_cr;
use squall_cli_words::{Reason, add_bad_line, add_board, add_route, read_plan};
use squall_course::Course;
use squall_key::Key;
use squall_report::{Issue, Report};
use squall_router::Router;
use squall_span::Span;
use std::alloc::AllocError;
use std::sync::Arc;

/// Takes the old plan, which comes before all else.
fn old_plan(
    scenario: &mut Scenario,
    text: &[u8],
    out: &mut String,
) -> Result<Option<Reason>, AllocError>
    ensures { Answers result (string_bytes out.old) (string_bytes out.new) (meant scenario.new)
        (old_reply (meant scenario.old) (meant scenario.old).stage text.now) }
{
    let Stage::Unplanned = &scenario.stage else {
        return Ok(Some(Reason::Order));
    };
    let plan = match read_plan(*out.allocator(), text)? {
        Ok(plan) => plan,
        Err(fault) => return Ok(Some(Reason::Plan(fault))),
    };
    let ranges = plan.ranges().len();
    write!(out, "old {ranges}\n")?;
    scenario.stage = Stage::Planned(plan);
    Ok(None)
}

/// Takes the new plan, which comes right after the old one.
fn new_plan(
    scenario: &mut Scenario,
    text: &[u8],
    out: &mut String,
) -> Result<Option<Reason>, AllocError>
    ensures { Answers result (string_bytes out.old) (string_bytes out.new) (meant scenario.new)
        (new_reply (meant scenario.old) (meant scenario.old).stage text.now) }
{
    let Stage::Planned(old) = &scenario.stage else {
        return Ok(Some(Reason::Order));
    };
    let alloc = *out.allocator();
    let plan = match read_plan(alloc, text)? {
        Ok(plan) => plan,
        Err(fault) => return Ok(Some(Reason::Plan(fault))),
    };
    let course = Arc::new(alloc, Course::first(alloc, old, &plan)?)?;
    let router = Router::new(alloc, &course)?;
    let ranges = plan.ranges().len();
    write!(out, "new {ranges}\n")?;
    scenario.stage = Stage::Running(router);
    Ok(None)
}

/// Takes the report, if there is one, once both plans are read.
fn take_report(
    scenario: &mut Scenario,
    report: Option<Report>,
    out: &mut String,
) -> Result<Option<Reason>, AllocError>
    ensures { Answers result (string_bytes out.old) (string_bytes out.new) (meant scenario.new)
        (report_reply (meant scenario.old) (meant scenario.old).stage report) }
{
    let Stage::Running(router) = &mut scenario.stage else {
        return Ok(Some(Reason::Order));
    };
    let Some(report) = report else {
        return Ok(Some(Reason::Limit));
    };
    router.take(&report)?;
    write!(out, "taken\n")?;
    Ok(None)
}

/// Takes the issue of that number from the new plan to the plan of the text, once both plans are
/// read.
fn take_issue(
    scenario: &mut Scenario,
    number: u32,
    text: &[u8],
    out: &mut String,
) -> Result<Option<Reason>, AllocError>
    ensures { Answers result (string_bytes out.old) (string_bytes out.new) (meant scenario.new)
        (issued_reply (meant scenario.old) (meant scenario.old).stage number text.now) }
{
    let Stage::Running(router) = &scenario.stage else {
        return Ok(Some(Reason::Order));
    };
    if number == 0 {
        return Ok(Some(Reason::Limit));
    }
    let alloc = *out.allocator();
    let plan = match read_plan(alloc, text)? {
        Ok(plan) => plan,
        Err(fault) => return Ok(Some(Reason::Plan(fault))),
    };
    let issue = Issue::new(alloc, router.first().new_plan(), &plan)?;
    take_report(scenario, Report::issued(number, issue), out)
}

/// Says which partition to ask for the key, once both plans are read.
fn route(scenario: &Scenario, key: Key, out: &mut String) -> Result<Option<Reason>, AllocError>
    ensures { Answers result (string_bytes out.old) (string_bytes out.new) (meant scenario.now)
        (route_reply (meant scenario.now) (meant scenario.now).stage key) }
{
    let Stage::Running(router) = &scenario.stage else {
        return Ok(Some(Reason::Order));
    };
    let part = router.route(key);
    add_route(key, part, out)?;
    Ok(None)
}

/// Shows the board, once both plans are read.
fn show_board(scenario: &Scenario, out: &mut String) -> Result<Option<Reason>, AllocError>
    ensures { Answers result (string_bytes out.old) (string_bytes out.new) (meant scenario.now) (board_reply (meant scenario.now) (meant scenario.now).stage) }
{
    let Stage::Running(router) = &scenario.stage else {
        return Ok(Some(Reason::Order));
    };
    add_board(router.board(), out)?;
    Ok(None)
}

/// Does what the line asks for, and adds the answer to `out`, or says why the line is bad.
fn reply(
    scenario: &mut Scenario,
    line: &[u8],
    out: &mut String,
) -> Result<Option<Reason>, AllocError>
    ensures { Answers result (string_bytes out.old) (string_bytes out.new) (meant scenario.new) (reply_to_line (meant scenario.old) line.now) }
{
    match read_line(scenario.has_world(), line) {
        Command::Skip => Ok(None),
        Command::Old(text) => old_plan(scenario, text, out),
        Command::New(text) => new_plan(scenario, text, out),
        Command::Report(words) => take_report(scenario, words.report(), out),
        Command::Issued { number, text } => take_issue(scenario, number, text, out),
        Command::Route(key) => route(scenario, key, out),
        Command::Legs { lo, hi } => show_legs(scenario, Span::new(lo, hi), out),
        Command::Board => show_board(scenario, out),
        Command::Hear(digits) => hear(scenario, digits, out),
        Command::Frame => show_frame(scenario, out),
        Command::World(routers) => make_world(scenario, routers, out),
        Command::Happen(words) => happen(scenario, event_of(*out.allocator(), words)?, out),
        Command::Row(words) => ask(
            scenario,
            words.part(),
            words.key(),
            &command_of(*out.allocator(), &words)?,
            out,
        ),
        Command::Bad(reason) => Ok(Some(reason)),
    }
}

/// Adds to `out` why the line of that number is bad.
fn end(number: u64, reason: Reason, out: &mut String) -> Result<Flow, AllocError>
    ensures { IfOk result (λ flow. (flow ≡ End) × (string_bytes out.new ≡ string_bytes out.old ++ (bad_line number reason ++ codes "\n"))) }
{
    add_bad_line(number, reason, out)?;
    Ok(Flow::End)
}

/// Answers the line, whose line end is taken off, or says why it is bad.
fn answer(scenario: &mut Scenario, line: &[u8], out: &mut String) -> Result<Flow, AllocError>
    ensures { IfOk result (λ flow. (text : List ℕ) × (string_bytes out.new ≡ string_bytes out.old ++ text)
        × IsAnswer flow text (meant scenario.new) scenario.old.line (reply_to_line (meant scenario.old) line.now)) }
{
    let number = scenario.line;
    match reply(scenario, line, out) {
        Ok(None) => Ok(Flow::On),
        Ok(Some(reason)) => end(number, reason, out),
        Err(error) => Err(error),
    }
}

impl Machine for Scenario {
    ghost plays = { λ s. MayAnswer (meant s) };

    ghost silent_at_first = { λ s. refl };

    fn take(&mut self, line: &[u8], out: &mut String) -> Result<Flow, AllocError> {
        self.line = self.line.saturating_add(1);
        answer(self, without_cr(line), out)
    }
}
