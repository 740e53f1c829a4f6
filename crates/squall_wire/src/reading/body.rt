//! The bodies of frames.

ghost use Rattle.std.specs.Prelude.{◌≡◌};
ghost use Rattle.squall_wire.specs.BodyLaws.{IsVersion};
ghost use Rattle.squall_wire.specs.Messages.{body_of, lists_of};
ghost use Rattle.squall_wire.specs.Reading.{Gives, whole, lists_at, digest_at, body_at};
ghost use Rattle.squall_wire.specs.Views.{lists_seen, rows_seen};

use crate::build::board_of;
use crate::digest::{Digest, DigestRow, IssueRow};
use crate::fault::WireFault;
use crate::issue::IssueItem;
use crate::message::Message;
use crate::reading::cell::CellPoint;
use crate::reading::list::{list, second};
use squall_board::{Board, Cell, Opening};
use std::alloc::Global;

/// The lists of a delta.
#[derive(Drop)]
struct Lists {
    openings: Vec<Opening>,
    issues: Vec<IssueItem>,
    cells: Vec<Cell>,
}

/// The lists of a digest.
#[derive(Drop)]
struct Rows {
    openings: Vec<Opening>,
    issue_rows: Vec<IssueRow>,
    rows: Vec<DigestRow>,
}

/// The lists of a delta whose body is the bytes.
#[tactic(auto, unfolding(crate::specs::Reading::lists_at, crate::specs::Reading::whole))]
fn read_lists(alloc: Global, version: u8, bytes: &[u8]) -> Result<Lists, WireFault>
    ensures { Gives lists_seen result (whole (lists_at version bytes.now)) }
{
    let (openings, rest) = list(alloc, 0, bytes)?;
    let (issues, rest) = second(alloc, version, 0, rest)?;
    let (cells, rest) = list(alloc, CellPoint::START, rest)?;
    if !rest.is_empty() {
        return Err(WireFault::Spare);
    }
    Ok(Lists {
        openings,
        issues,
        cells,
    })
}

/// The lists of a digest whose body is the bytes.
#[tactic(auto, unfolding(crate::specs::Reading::digest_at, crate::specs::Reading::whole))]
fn read_rows(alloc: Global, version: u8, bytes: &[u8]) -> Result<Rows, WireFault>
    ensures { Gives rows_seen result (whole (digest_at version bytes.now)) }
{
    let (openings, rest) = list(alloc, 0, bytes)?;
    let (issue_rows, rest) = second(alloc, version, 0, rest)?;
    let (rows, rest) = list(alloc, (0, 0), rest)?;
    if !rest.is_empty() {
        return Err(WireFault::Spare);
    }
    Ok(Rows {
        openings,
        issue_rows,
        rows,
    })
}

/// The board whose delta has the bytes as its body.
fn read_delta(alloc: Global, version: u8, bytes: &[u8]) -> Result<Board, WireFault>
    requires { IsVersion version }
    ensures { Gives lists_of result (whole (lists_at version bytes.now)) }
{
    let lists = read_lists(alloc, version, bytes)?;
    let cells = lists.cells;
    let board = board_of(alloc, &lists.openings, &lists.issues, cells)?;
    Ok(board)
}

/// The digest whose body is the bytes.
fn read_digest(alloc: Global, version: u8, bytes: &[u8]) -> Result<Digest, WireFault>
    requires { IsVersion version }
    ensures { Gives (λ d. d) result (whole (digest_at version bytes.now)) }
{
    let rows = read_rows(alloc, version, bytes)?;
    Ok(Digest::of_lists(rows.openings, rows.issue_rows, rows.rows))
}

/// The message of a kind whose body is the bytes.
#[tactic(auto, unfolding(crate::specs::Reading::body_at))]
pub(crate) fn message_of(
    alloc: Global,
    version: u8,
    kind: u8,
    bytes: &[u8],
) -> Result<Message, WireFault>
    requires { IsVersion version }
    ensures { Gives body_of result (body_at version kind bytes.now) }
{
    if kind == 1 {
        Ok(Message::Delta(read_delta(alloc, version, bytes)?))
    } else {
        Ok(Message::Digest(read_digest(alloc, version, bytes)?))
    }
}
