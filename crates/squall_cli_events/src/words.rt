//! Events as lines write them.

ghost use Rattle.std.specs.Prelude.{◌≡◌};
ghost use Rattle.std.specs.Option.{option_map};
ghost use Rattle.squall_cli_lines.specs.Words.{words_of, is_letter, from_first};
ghost use Rattle.squall_cli_events.specs.EventLines.{SendPart, line_seen, after_of, begin_from_line, close_line, give_line, give_at_line};
ghost use Rattle.squall_cli_events.specs.EventLines.{load_line, finish_line, send_line, deliver_line, route_line, serve_line, message_line, event_line};

use crate::most::read_most;
use crate::nodes::read_node;
use crate::texts::first_length;
use squall_cli_lines::words::{after_blanks, next_word, only_word};
use squall_cli_words::words::{no_word, number_first};
use squall_cli_words::{ReportWords, report_line};
use squall_key::{Bound, Key, read_number};

/// A node as a line writes it, whatever its number is.
#[derive(Clone, Copy, Debug)]
pub enum NodeWords {
    /// `l`
    Leader,
    /// `p3`
    Part(u32),
    /// `r0`
    Router(u32),
}

/// An event as a line writes it, whatever its numbers are.
#[derive(Clone, Copy, Debug)]
pub enum EventWords<'a> {
    /// `open`
    Open,
    /// `begin JSON`: the text of the plan.
    Begin(&'a [u8]),
    /// `begin-from OLD NEW`
    BeginFrom {
        /// The text of the plan that says where the keys are.
        old: &'a [u8],
        /// The text of the plan to which they go.
        new: &'a [u8],
    },
    /// `close P`: the partition.
    Close(u32),
    /// `give P MAX`
    Give {
        /// The partition.
        part: u32,
        /// How many keys at most.
        most: u64,
    },
    /// `giveat P K`
    GiveAt {
        /// The partition.
        part: u32,
        /// The key.
        key: Key,
    },
    /// `load I`: the index of a chunk.
    Load(u32),
    /// `finish P S`
    Finish {
        /// The partition.
        part: u32,
        /// The sub-plan.
        sub: u32,
    },
    /// `send NODE`
    Send(NodeWords),
    /// `send NODE loaded N S P LO HI`
    SendLoaded {
        /// The node that sends.
        node: NodeWords,
        /// The number of the reconfiguration.
        number: u32,
        /// The sub-plan.
        sub: u32,
        /// The partition that loaded the keys.
        part: u32,
        /// The first key.
        lo: Bound,
        /// The end of the keys.
        hi: Bound,
    },
    /// `send NODE done N S P`
    SendDone {
        /// The node that sends.
        node: NodeWords,
        /// The number of the reconfiguration.
        number: u32,
        /// The sub-plan.
        sub: u32,
        /// The partition that has all its keys.
        part: u32,
    },
    /// `send NODE opened N S`
    SendOpened {
        /// The node that sends.
        node: NodeWords,
        /// The number of the reconfiguration.
        number: u32,
        /// The sub-plan.
        sub: u32,
    },
    /// `deliver I NODE`
    Deliver {
        /// The index of a message.
        message: u32,
        /// The node to which it comes.
        node: NodeWords,
    },
    /// `route R K`
    Route {
        /// The router.
        router: u32,
        /// The key.
        key: Key,
    },
    /// `serve P K`, or `serve P K N`
    Serve {
        /// The partition.
        part: u32,
        /// The key.
        key: Key,
        /// The number of the last move that was followed, 0 if none was.
        after: u32,
    },
}

/// `begin-from OLD NEW`
fn begin_from_line(text: &[u8]) -> Option<EventWords>
    ensures { option_map line_seen result ≡ begin_from_line text.now }
{
    let (old, rest) = text.split_at(first_length(text));
    let new = after_blanks(rest);
    if new.is_empty() {
        return None;
    }
    Some(EventWords::BeginFrom { old, new })
}

/// `close P`
fn close_line(rest: &[u8]) -> Option<EventWords<'static>>
    ensures { option_map line_seen result ≡ close_line (words_of rest.now) }
{
    let part = read_number(only_word(rest)?)?;
    Some(EventWords::Close(part))
}

/// `give P MAX`
fn give_line(rest: &[u8]) -> Option<EventWords<'static>>
    ensures { option_map line_seen result ≡ give_line (words_of rest.now) }
{
    let (part, rest) = number_first(rest)?;
    let most = read_most(only_word(rest)?)?;
    Some(EventWords::Give { part, most })
}

/// `giveat P K`
fn give_at_line(rest: &[u8]) -> Option<EventWords<'static>>
    ensures { option_map line_seen result ≡ give_at_line (words_of rest.now) }
{
    let (part, rest) = number_first(rest)?;
    let key = Key::read_bytes(only_word(rest)?)?;
    Some(EventWords::GiveAt { part, key })
}

/// `load I`
fn load_line(rest: &[u8]) -> Option<EventWords<'static>>
    ensures { option_map line_seen result ≡ load_line (words_of rest.now) }
{
    let chunk = read_number(only_word(rest)?)?;
    Some(EventWords::Load(chunk))
}

/// `finish P S`
fn finish_line(rest: &[u8]) -> Option<EventWords<'static>>
    ensures { option_map line_seen result ≡ finish_line (words_of rest.now) }
{
    let (part, rest) = number_first(rest)?;
    let sub = read_number(only_word(rest)?)?;
    Some(EventWords::Finish { part, sub })
}

/// That the node sends the one report.
fn sent(node: NodeWords, report: ReportWords) -> EventWords<'static>
    ensures { line_seen result ≡ SendPart node report }
{
    match report {
        ReportWords::Loaded {
            number,
            sub,
            part,
            lo,
            hi,
        } => EventWords::SendLoaded {
            node,
            number,
            sub,
            part,
            lo,
            hi,
        },
        ReportWords::Done { number, sub, part } => EventWords::SendDone {
            node,
            number,
            sub,
            part,
        },
        ReportWords::Opened { number, sub } => EventWords::SendOpened { node, number, sub },
    }
}

/// `send NODE`, or `send NODE REPORT`
fn send_line(rest: &[u8]) -> Option<EventWords<'static>>
    ensures { option_map line_seen result ≡ send_line (words_of rest.now) }
{
    let (word, rest) = next_word(rest)?;
    let node = read_node(word)?;
    let Some((name, rest)) = next_word(rest) else {
        return Some(EventWords::Send(node));
    };
    let report = report_line(name, rest)?;
    Some(sent(node, report))
}

/// `deliver I NODE`
fn deliver_line(rest: &[u8]) -> Option<EventWords<'static>>
    ensures { option_map line_seen result ≡ deliver_line (words_of rest.now) }
{
    let (message, rest) = number_first(rest)?;
    let node = read_node(only_word(rest)?)?;
    Some(EventWords::Deliver { message, node })
}

/// `route R K`
fn route_line(rest: &[u8]) -> Option<EventWords<'static>>
    ensures { option_map line_seen result ≡ route_line (words_of rest.now) }
{
    let (router, rest) = number_first(rest)?;
    let key = Key::read_bytes(only_word(rest)?)?;
    Some(EventWords::Route { router, key })
}

/// The number of the last move that was followed: the one word, or 0 if no word is left.
fn after_first(rest: &[u8]) -> Option<u32>
    ensures { result ≡ after_of (words_of rest.now) }
{
    if no_word(rest).is_some() {
        return Some(0);
    }
    read_number(only_word(rest)?)
}

/// `serve P K`, or `serve P K N`
fn serve_line(rest: &[u8]) -> Option<EventWords<'static>>
    ensures { option_map line_seen result ≡ serve_line (words_of rest.now) }
{
    let (part, rest) = number_first(rest)?;
    let (word, rest) = next_word(rest)?;
    let key = Key::read_bytes(word)?;
    let after = after_first(rest)?;
    Some(EventWords::Serve { part, key, after })
}

/// The event of a message or a request that the word names: `send`, `deliver`, `route` or `serve`.
fn message_line(name: &[u8], rest: &[u8]) -> Option<EventWords<'static>>
    ensures { option_map line_seen result ≡ message_line name.now (words_of rest.now) }
{
    if name == b"send".as_slice() {
        return send_line(rest);
    }
    if name == b"deliver".as_slice() {
        return deliver_line(rest);
    }
    if name == b"route".as_slice() {
        return route_line(rest);
    }
    if name == b"serve".as_slice() {
        return serve_line(rest);
    }
    None
}

/// The event that a line writes whose first word is the name. None if the name is that of no event,
/// or if the rest of the line does not have that event's form.
pub fn event_line<'a>(name: &[u8], rest: &'a [u8]) -> Option<EventWords<'a>>
    ensures { option_map line_seen result ≡ event_line name.now (words_of rest.now) (from_first is_letter rest.now) }
{
    if name == b"open".as_slice() {
        no_word(rest)?;
        return Some(EventWords::Open);
    }
    if name == b"begin".as_slice() {
        return Some(EventWords::Begin(after_blanks(rest)));
    }
    if name == b"begin-from".as_slice() {
        return begin_from_line(after_blanks(rest));
    }
    if name == b"close".as_slice() {
        return close_line(rest);
    }
    if name == b"give".as_slice() {
        return give_line(rest);
    }
    if name == b"giveat".as_slice() {
        return give_at_line(rest);
    }
    if name == b"load".as_slice() {
        return load_line(rest);
    }
    if name == b"finish".as_slice() {
        return finish_line(rest);
    }
    message_line(name, rest)
}
