//! What partitions and routers write.

ghost use Rattle.std.specs.Prelude.{◌≡◌};
ghost use Rattle.squall_cli_lines.specs.Words.{words_of};
ghost use Rattle.squall_cli_audit.specs.LogLines.{give_event, give_line, load_answer, load_line, done_line, close_line, moved_reply, reply_by, reply_line};
ghost use Rattle.squall_cli_audit.specs.LogLines.{serve_line, part_line, route_line, router_line};

use crate::words::{named_number, number_alone, part_of, span_of, two_first, way_first};
use squall_cli_lines::words::{next_word, only_word};
use squall_cli_words::words::{no_word, number_first};
use squall_errand::Reply;
use squall_judge::Entry;
use squall_key::{Key, PartId};
use squall_protocol::{Answer, Chunk, Event};
use squall_report::Report;
use squall_span::Span;

/// That the partition gives the keys of the span: one key, or the first ones, as many as the span has.
fn give_event(part: PartId, span: Span) -> Event
    ensures { result ≡ give_event part span }
{
    let count = span.count();
    if count == 1 {
        return Event::GiveAt(part, Key::of_rank(span.lo().rank()).unwrap());
    }
    Event::Give(part, count)
}

/// `give LO HI to P course N sub S`
fn give_line(part: PartId, rest: &[u8]) -> Option<Entry>
    ensures { result ≡ give_line part (words_of rest.now) }
{
    let (lo, hi, rest) = two_first(rest)?;
    let (dest, number, sub, rest) = way_first(b"to", rest)?;
    no_word(rest)?;
    let span = span_of(lo, hi)?;
    let dest = part_of(dest)?;
    let chunk = Chunk::new(number, sub, part, dest, span)?;
    Some(Entry::Gift(give_event(part, span), chunk))
}

/// What the load of a chunk was, by a word: `new` or `again`.
fn load_answer(chunk: Chunk, word: &[u8]) -> Option<Answer>
    ensures { result ≡ load_answer chunk word.now }
{
    if word == b"new".as_slice() {
        let report = Report::loaded(
            chunk.number(),
            chunk.sub(),
            chunk.dest().get(),
            chunk.span(),
        )?;
        return Some(Answer::Loaded(report));
    }
    if word == b"again".as_slice() {
        return Some(Answer::Again);
    }
    None
}

/// `load LO HI from P course N sub S new`, or the same with `again`
fn load_line(part: PartId, rest: &[u8]) -> Option<Entry>
    ensures { result ≡ load_line part (words_of rest.now) }
{
    let (lo, hi, rest) = two_first(rest)?;
    let (source, number, sub, rest) = way_first(b"from", rest)?;
    let word = only_word(rest)?;
    let span = span_of(lo, hi)?;
    let source = part_of(source)?;
    let chunk = Chunk::new(number, sub, source, part, span)?;
    Some(Entry::Arrival(chunk, load_answer(chunk, word)?))
}

/// `done N S`
fn done_line(part: PartId, rest: &[u8]) -> Option<Entry>
    ensures { result ≡ done_line part (words_of rest.now) }
{
    let (number, rest) = number_first(rest)?;
    let sub = number_alone(rest)?;
    let report = Report::done(number, sub, part.get())?;
    Some(Entry::Own(Event::Finish(part, sub), Answer::Finished(report)))
}

/// `close N`
fn close_line(part: PartId, rest: &[u8]) -> Option<Entry>
    ensures { result ≡ close_line part (words_of rest.now) }
{
    let number = number_alone(rest)?;
    Some(Entry::Own(Event::Close(part), Answer::Closed { number }))
}

/// `moved P N`
fn moved_reply(rest: &[u8]) -> Option<Reply>
    ensures { result ≡ moved_reply (words_of rest.now) }
{
    let (part, rest) = number_first(rest)?;
    let number = number_alone(rest)?;
    let dest = part_of(part)?;
    Some(Reply::Moved { dest, number })
}

/// The reply of the name and the words after it.
fn reply_by(name: &[u8], rest: &[u8]) -> Option<Reply>
    ensures { result ≡ reply_by name.now (words_of rest.now) }
{
    if name == b"held".as_slice() {
        no_word(rest)?;
        return Some(Reply::Held);
    }
    if name == b"moved".as_slice() {
        return moved_reply(rest);
    }
    if name == b"pending".as_slice() {
        let source = part_of(number_alone(rest)?)?;
        return Some(Reply::Pending { source });
    }
    if name == b"behind".as_slice() {
        no_word(rest)?;
        return Some(Reply::Behind);
    }
    if name == b"elsewhere".as_slice() {
        let dest = part_of(number_alone(rest)?)?;
        return Some(Reply::Elsewhere { dest });
    }
    None
}

/// A reply: `held`, `moved P N`, `pending P`, `behind` or `elsewhere P`
fn reply_line(rest: &[u8]) -> Option<Reply>
    ensures { result ≡ reply_line (words_of rest.now) }
{
    let (name, rest) = next_word(rest)?;
    reply_by(name, rest)
}

/// `serve K after A REPLY`
fn serve_line(part: PartId, rest: &[u8]) -> Option<Entry>
    ensures { result ≡ serve_line part (words_of rest.now) }
{
    let (word, rest) = next_word(rest)?;
    let (after, rest) = named_number(b"after", rest)?;
    let key = Key::read_bytes(word)?;
    let reply = reply_line(rest)?;
    Some(Entry::Own(Event::Serve(part, key, after), Answer::Served(reply)))
}

/// The entry of a partition's line that begins with the name.
pub(crate) fn part_line(part: PartId, name: &[u8], rest: &[u8]) -> Option<Entry>
    ensures { result ≡ part_line part name.now (words_of rest.now) }
{
    if name == b"give".as_slice() {
        return give_line(part, rest);
    }
    if name == b"load".as_slice() {
        return load_line(part, rest);
    }
    if name == b"done".as_slice() {
        return done_line(part, rest);
    }
    if name == b"close".as_slice() {
        return close_line(part, rest);
    }
    if name == b"serve".as_slice() {
        return serve_line(part, rest);
    }
    None
}

/// `route K P`
fn route_line(router: u32, rest: &[u8]) -> Option<Entry>
    ensures { result ≡ route_line router (words_of rest.now) }
{
    let (word, rest) = next_word(rest)?;
    let key = Key::read_bytes(word)?;
    let part = part_of(number_alone(rest)?)?;
    Some(Entry::Own(Event::Route(router, key), Answer::Routed(part)))
}

/// The entry of a router's line that begins with the name.
pub(crate) fn router_line(router: u32, name: &[u8], rest: &[u8]) -> Option<Entry>
    ensures { result ≡ router_line router name.now (words_of rest.now) }
{
    if name == b"route".as_slice() {
        return route_line(router, rest);
    }
    None
}
