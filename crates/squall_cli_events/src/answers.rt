//! Answers as texts.

ghost use Rattle.std.specs.Prelude.{◌≡◌, ◌++◌, OnOk, string_bytes};
ghost use Rattle.squall_cli_events.specs.AnswerText.{text_of_refusal, text_of_reply, text_of_chunk, text_of_report, asked_key, text_of_answer, answer_line};

use squall_errand::Reply;
use squall_key::Key;
use squall_protocol::{Answer, Chunk, Event, Refusal};
use squall_report::{Report, ReportKind};
use std::alloc::AllocError;

/// Adds why nothing changed.
fn add_refusal(why: &Refusal, out: &mut String) -> Result<(), AllocError>
    ensures { OnOk result (string_bytes out.new ≡ string_bytes out.old ++ text_of_refusal why.now) }
{
    match why {
        Refusal::NoSuch => write!(out, "NoSuch"),
        Refusal::NotDone { sub, part } => write!(out, "NotDone {sub} {part}"),
        Refusal::NoMore => write!(out, "NoMore"),
        Refusal::Running => write!(out, "Running"),
        Refusal::NoNumber => write!(out, "NoNumber"),
        Refusal::NotOpen => write!(out, "NotOpen"),
        Refusal::Ended => write!(out, "Ended"),
        Refusal::NothingLeft => write!(out, "NothingLeft"),
        Refusal::ZeroMax => write!(out, "ZeroMax"),
        Refusal::NotOutgoing => write!(out, "NotOutgoing"),
        Refusal::Given => write!(out, "Given"),
        Refusal::NotHeld => write!(out, "NotHeld"),
        Refusal::Stranger => write!(out, "Stranger"),
        Refusal::NotAll(span) => write!(out, "NotAll {span}"),
        Refusal::NothingDue => write!(out, "NothingDue"),
        Refusal::NotKnown => write!(out, "NotKnown"),
    }
}

/// Adds a partition's reply.
fn add_reply(reply: Reply, out: &mut String) -> Result<(), AllocError>
    ensures { OnOk result (string_bytes out.new ≡ string_bytes out.old ++ text_of_reply reply) }
{
    match reply {
        Reply::Held => write!(out, "held"),
        Reply::Moved { dest, number } => write!(out, "moved {dest} {number}"),
        Reply::Pending { source } => write!(out, "pending {source}"),
        Reply::Behind => write!(out, "behind"),
        Reply::Elsewhere { dest } => write!(out, "elsewhere {dest}"),
    }
}

/// Adds a chunk and its index.
fn add_chunk(index: usize, chunk: Chunk, out: &mut String) -> Result<(), AllocError>
    ensures { OnOk result (string_bytes out.new ≡ string_bytes out.old ++ text_of_chunk index chunk) }
{
    let sub = chunk.sub();
    let source = chunk.source();
    let dest = chunk.dest();
    let span = chunk.span();
    write!(out, "chunk {index} sub {sub} {source} to {dest} {span}")
}

/// Adds a report that a partition made.
fn add_report(made: &Report, out: &mut String) -> Result<(), AllocError>
    ensures { OnOk result (string_bytes out.new ≡ string_bytes out.old ++ text_of_report made.now) }
{
    match made.kind() {
        ReportKind::Loaded { part, span, .. } => write!(out, "loaded {part} {span}"),
        ReportKind::Done { sub, part, .. } => write!(out, "done {sub} {part}"),
        ReportKind::Opened { sub, .. } => write!(out, "opened {sub}"),
        ReportKind::Issued { number, .. } => write!(out, "issued {number}"),
    }
}

/// The key that the event asks for; the least key if it asks for none.
fn asked_key(event: &Event) -> Key
    ensures { result ≡ asked_key event.now }
{
    match event {
        Event::GiveAt(_, key) | Event::Route(_, key) | Event::Serve(_, key, _) => *key,
        _ => Key::of_rank(0).unwrap(),
    }
}

/// Adds the answer to the event, without its line end.
fn add_text(event: &Event, answer: &Answer, out: &mut String) -> Result<(), AllocError>
    ensures { OnOk result (string_bytes out.new ≡ string_bytes out.old ++ text_of_answer event.now answer.now) }
{
    match answer {
        Answer::Opened { sub } => write!(out, "opened {sub}"),
        Answer::Begun { number, parts } => write!(out, "begun {number} {parts}"),
        Answer::Closed { number } => write!(out, "closed {number}"),
        Answer::Gave { index, chunk } => add_chunk(*index, *chunk, out),
        Answer::Loaded(made) => add_report(made, out),
        Answer::Again => write!(out, "again"),
        Answer::Finished(made) => add_report(made, out),
        Answer::Sent { index } => write!(out, "sent {index}"),
        Answer::Delivered => write!(out, "delivered"),
        Answer::Routed(part) => {
            let key = asked_key(event);
            write!(out, "route {key} {part}")
        }
        Answer::Served(reply) => add_reply(*reply, out),
        Answer::Refused(why) => {
            write!(out, "no ")?;
            add_refusal(why, out)
        }
    }
}

/// Adds the line that answers the event.
pub fn add_answer(event: &Event, answer: &Answer, out: &mut String) -> Result<(), AllocError>
    ensures { OnOk result (string_bytes out.new ≡ string_bytes out.old ++ answer_line event.now answer.now) }
{
    add_text(event, answer, out)?;
    write!(out, "\n")
}
