//! Answers as texts.

use squall_errand::Reply;
use squall_key::Key;
use squall_protocol::Chunk;
use squall_replay::Answer as PartAnswer;
use squall_store::Bytes;
use squall_store_log::{Answer, Listed, LoggedStore, MakeFault};
use squall_wire::encode_board;
use std::alloc::{AllocError, Global};
use std::fmt::Write;

/// The text of a row.
fn add_row(out: &mut String, row: &Option<Bytes>) -> Result<(), AllocError> {
    match row {
        Some(value) => match str::from_utf8(value.as_slice()) {
            Ok(text) => write!(out, "row {text}\n"),
            Err(_) => write!(out, "row\n"),
        },
        None => write!(out, "none\n"),
    }
}

/// The text of one row that travels.
fn add_travelling(out: &mut String, row: &(Key, Bytes)) -> Result<(), AllocError> {
    let digits = hex::encode(*out.allocator(), row.1.as_slice())?;
    let key = row.0;
    write!(out, " {key}={digits}")
}

/// The text of a chunk and its rows.
fn add_chunk(out: &mut String, chunk: &Chunk, rows: &Listed) -> Result<(), AllocError> {
    let (number, sub, source, dest) = (chunk.number(), chunk.sub(), chunk.source(), chunk.dest());
    let (lo, hi) = (chunk.span().lo(), chunk.span().hi());
    write!(out, "chunk {number} {sub} {source} {dest} {lo} {hi}")?;
    for row in rows.as_slice() {
        add_travelling(out, row)?;
    }
    write!(out, "\n")
}

/// The text of a partition's answer.
fn add_part(out: &mut String, store: &LoggedStore, answer: &PartAnswer) -> Result<(), AllocError> {
    match answer {
        PartAnswer::Absorbed => write!(out, "heard\n"),
        PartAnswer::Gave(chunk) => {
            let rows = store.rows_of(chunk)?;
            add_chunk(out, chunk, &rows)
        }
        PartAnswer::Loaded(_) => write!(out, "loaded\n"),
        PartAnswer::Again => write!(out, "again\n"),
        PartAnswer::Finished(_) => write!(out, "finished\n"),
        PartAnswer::Closed(number) => write!(out, "closed {number}\n"),
    }
}

/// The text of a reply of a partition that does not hold a key.
fn add_reply(out: &mut String, reply: &Reply) -> Result<(), AllocError> {
    match reply {
        Reply::Held => write!(out, "held\n"),
        Reply::Moved { dest, number } => write!(out, "moved {dest} {number}\n"),
        Reply::Pending { source } => write!(out, "pending {source}\n"),
        Reply::Behind => write!(out, "behind\n"),
        Reply::Elsewhere { dest } => write!(out, "elsewhere {dest}\n"),
    }
}

/// The text of a fault.
fn add_fault(out: &mut String, fault: &MakeFault) -> Result<(), AllocError> {
    match fault {
        MakeFault::NotHeld(reply) => add_reply(out, reply),
        MakeFault::Refused(fault) => write!(out, "no {fault}\n"),
        MakeFault::NoMemory => write!(out, "no NoMemory\n"),
        MakeFault::TooLong => write!(out, "no TooLong\n"),
    }
}

/// The answer to a command or a call.
pub(crate) fn add_answer(
    out: &mut String,
    store: &LoggedStore,
    made: &Result<Answer, MakeFault>,
) -> Result<(), AllocError> {
    match made {
        Ok(Answer::Row(row)) => add_row(out, row),
        Ok(Answer::Part(answer)) => add_part(out, store, answer),
        Err(fault) => add_fault(out, fault),
    }
}

/// The answer to a question for a row.
pub(crate) fn add_got(
    out: &mut String,
    got: &Result<Option<Bytes>, MakeFault>,
) -> Result<(), AllocError> {
    match got {
        Ok(row) => add_row(out, row),
        Err(fault) => add_fault(out, fault),
    }
}

/// Whether the partition gave all keys of the chunk.
fn has_given(store: &LoggedStore, chunk: &Chunk) -> bool {
    let part = store.store().part();
    if part.id() != chunk.source() {
        return false;
    }
    match part.given(chunk.number()) {
        Some(given) => given.spans().any(|span| span.lo() <= chunk.span().lo()
            && chunk.span().hi() <= span.hi()),
        None => false,
    }
}

/// The rows of a chunk that was given, once more.
pub(crate) fn add_copy(
    out: &mut String,
    store: &LoggedStore,
    chunk: &Chunk,
) -> Result<(), AllocError> {
    if !has_given(store, chunk) {
        return write!(out, "no NotGiven\n");
    }
    let rows = store.rows_of(chunk)?;
    add_chunk(out, chunk, &rows)
}

/// The frame of the board.
pub(crate) fn add_board(
    out: &mut String,
    alloc: Global,
    store: &LoggedStore,
) -> Result<(), AllocError> {
    match encode_board(alloc, store.store().part().board()) {
        Ok(frame) => {
            let digits = hex::encode(alloc, &frame)?;
            write!(out, "frame {digits}\n")
        }
        Err(_) => write!(out, "no frame\n"),
    }
}
