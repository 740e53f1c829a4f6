//! What a line asks for.

ghost use Rattle.std.specs.Prelude.{◌≡◌};
ghost use Rattle.std.specs.Option.{option_map};
ghost use Rattle.squall_cli_lines.specs.Words.{words_of, is_letter, from_first};
ghost use Rattle.squall_cli_scenario.specs.Requests.{issued_line, route_line, route_by, legs_line, board_line, hear_line, frame_line, world_line};
ghost use Rattle.squall_cli_scenario.specs.Requests.{other_line, happen_line, act_line, request_by, request_of};
ghost use Rattle.squall_cli_words.specs.ReportLines.{report_line};
ghost use Rattle.squall_cli_scenario.specs.Answered.{request_seen};

use squall_cli_events::{EventWords, RowWords, event_line, row_line};
use squall_cli_lines::LONGEST_LINE;
use squall_cli_lines::words::{after_blanks, next_word, only_word};
use squall_cli_words::words::{no_word, number_first, two_bounds};
use squall_cli_words::{Reason, ReportWords, report_line};
use squall_key::{Bound, Key, read_number};

/// What a line asks for.
#[derive(Clone, Copy, Debug)]
pub(crate) enum Command<'a> {
    /// Nothing: a line without words, or a remark.
    Skip,
    /// To take the plan of this text as the old one.
    Old(&'a [u8]),
    /// To take the plan of this text as the new one.
    New(&'a [u8]),
    /// To take a report.
    Report(ReportWords),
    /// To take the issue of a number, whose plan is that of this text.
    Issued { number: u32, text: &'a [u8] },
    Route(Key),
    /// To show the legs between two bounds.
    Legs { lo: Bound, hi: Bound },
    Board,
    /// To hear the bytes that these digits write.
    Hear(&'a [u8]),
    Frame,
    /// To make a world of this many routers.
    World(u32),
    /// To let an event happen in the world.
    Happen(EventWords<'a>),
    /// To do a command on a row in the world.
    Row(RowWords<'a>),
    Bad(Reason),
}

/// `issued N JSON`
#[tactic(auto, using(squall_cli_events::proofs::LineWords::after_first_word_again))]
fn issued_line(rest: &[u8]) -> Option<Command>
    ensures { option_map request_seen result ≡ issued_line (words_of rest.now) (from_first is_letter rest.now) }
{
    let (word, rest) = next_word(rest)?;
    let number = read_number(word)?;
    let text = after_blanks(rest);
    Some(Command::Issued { number, text })
}

/// `route K`
fn route_line(rest: &[u8]) -> Option<Command<'static>>
    ensures { option_map request_seen result ≡ route_line (words_of rest.now) }
{
    let key = Key::read_bytes(only_word(rest)?)?;
    Some(Command::Route(key))
}

/// `legs LO HI`
fn legs_line(rest: &[u8]) -> Option<Command<'static>>
    ensures { option_map request_seen result ≡ legs_line (words_of rest.now) }
{
    let (lo, hi) = two_bounds(rest)?;
    Some(Command::Legs { lo, hi })
}

/// `board`
fn board_line(rest: &[u8]) -> Option<Command<'static>>
    ensures { option_map request_seen result ≡ board_line (words_of rest.now) }
{
    no_word(rest)?;
    Some(Command::Board)
}

/// `hear HEX`
fn hear_line(rest: &[u8]) -> Option<Command>
    ensures { option_map request_seen result ≡ hear_line (words_of rest.now) }
{
    Some(Command::Hear(only_word(rest)?))
}

/// `frame`
fn frame_line(rest: &[u8]) -> Option<Command<'static>>
    ensures { option_map request_seen result ≡ frame_line (words_of rest.now) }
{
    no_word(rest)?;
    Some(Command::Frame)
}

/// `world R`
fn world_line(rest: &[u8]) -> Option<Command<'static>>
    ensures { option_map request_seen result ≡ world_line (words_of rest.now) }
{
    Some(Command::World(read_number(only_word(rest)?)?))
}

/// An event of a world.
fn happen_line<'a>(name: &[u8], rest: &'a [u8]) -> Option<Command<'a>>
    ensures { option_map request_seen result ≡ happen_line name.now (words_of rest.now) (from_first is_letter rest.now) }
{
    match event_line(name, rest) {
        Some(words) => Some(Command::Happen(words)),
        None => None,
    }
}

/// An event of a world, or a command on a row in it.
fn act_line<'a>(name: &[u8], rest: &'a [u8]) -> Option<Command<'a>>
    ensures { option_map request_seen result ≡ act_line name.now (words_of rest.now) (from_first is_letter rest.now) }
{
    if let Some(event) = happen_line(name, rest) {
        return Some(event);
    }
    match row_line(name, rest) {
        Some(row) => Some(Command::Row(row)),
        None => None,
    }
}

/// A report, or what happens in a world.
fn other_line<'a>(name: &[u8], rest: &'a [u8]) -> Option<Command<'a>>
    ensures { option_map request_seen result ≡ other_line (report_line name.now (words_of rest.now))
        (act_line name.now (words_of rest.now) (from_first is_letter rest.now)) }
{
    match report_line(name, rest) {
        Some(report) => Some(Command::Report(report)),
        None => act_line(name, rest),
    }
}

/// The route of a key, or in a world by a router.
fn route_by<'a>(in_world: bool, name: &[u8], rest: &'a [u8]) -> Option<Command<'a>>
    ensures { option_map request_seen result ≡ route_by in_world name.now (words_of rest.now) (from_first is_letter rest.now) }
{
    if in_world {
        happen_line(name, rest)
    } else {
        route_line(rest)
    }
}

/// The command that the first word names, if what follows it has that command's form.
fn command_by<'a>(in_world: bool, name: &[u8], rest: &'a [u8]) -> Option<Command<'a>>
    ensures { option_map request_seen result ≡ request_by in_world name.now (words_of rest.now) (from_first is_letter rest.now) }
{
    if name == b"old".as_slice() {
        return Some(Command::Old(after_blanks(rest)));
    }
    if name == b"new".as_slice() {
        return Some(Command::New(after_blanks(rest)));
    }
    if name == b"issued".as_slice() {
        return issued_line(rest);
    }
    if name == b"route".as_slice() {
        return route_by(in_world, name, rest);
    }
    if name == b"legs".as_slice() {
        return legs_line(rest);
    }
    if name == b"board".as_slice() {
        return board_line(rest);
    }
    if name == b"hear".as_slice() {
        return hear_line(rest);
    }
    if name == b"frame".as_slice() {
        return frame_line(rest);
    }
    if name == b"world".as_slice() {
        return world_line(rest);
    }
    other_line(name, rest)
}

/// What the line asks for, without its line end, if there is a world or none.
pub(crate) fn read_line(in_world: bool, line: &[u8]) -> Command
    ensures { request_seen result ≡ request_of in_world line.now }
{
    if line.len() > LONGEST_LINE {
        return Command::Bad(Reason::Long);
    }
    let Some((name, rest)) = next_word(line) else {
        return Command::Skip;
    };
    if name.first() == Some(&b'#') {
        return Command::Skip;
    }
    match command_by(in_world, name, rest) {
        Some(command) => command,
        None => Command::Bad(Reason::Word),
    }
}
