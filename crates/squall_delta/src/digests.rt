//! Digests of boards.

ghost use Rattle.std.specs.Prelude.{◌≡◌, ◌<◌, ◌++◌, map, IfOk, OnOk};
ghost use Rattle.std.specs.Arc.{arc_value};
ghost use Rattle.std.specs.List.{flat_map as flat_list, AllByRecursion};
ghost use Rattle.squall_join.specs.Flats.{flat_map};
ghost use Rattle.squall_board.specs.Listed.{AreCellsOfSubs, AreCellsOfNumbers};
ghost use Rattle.squall_wire.specs.Fits.{IsWordOpening};
ghost use Rattle.squall_wire.specs.Limits.{word_limit};
ghost use Rattle.squall_delta.specs.Hashes.{row_of, issue_row_of, digest_of};

use crate::hashing::{issue_hash, row_hash};
use squall_board::{Board, CellParts, Opening};
use squall_join::{Flat, JoinMap};
use squall_report::Issue;
use squall_wire::{Digest, DigestRow, IssueRow};
use std::alloc::{AllocError, Global};
use std::sync::Arc;

/// The most rows that four bytes can count.
const MOST_ROWS: usize = 4_294_967_295;

/// Changes nothing: after it a proof knows that four bytes hold the number.
fn word_known(number: u32)
    ensures { number < word_limit }
{}

/// Changes nothing: after it a proof knows that four bytes hold the number of each opening.
fn words_known(openings: &[Opening])
    ensures { AllByRecursion IsWordOpening openings.now }
{
    for opening in openings {
        word_known(opening.number);
    }
}

/// The hash of each issue.
fn issue_rows(
    alloc: Global,
    issues: &[(u32, Flat<Arc<Issue>>)],
) -> Result<Vec<IssueRow>, AllocError>
    ensures rows { IfOk result (λ rows. rows.items ≡ map (λ e. issue_row_of (e.0, flat_map arc_value e.1)) issues.now) }
    ensures words { IfOk result (λ rows. AllByRecursion (λ row. row.number < word_limit) rows.items) }
{
    let mut rows = Vec::new(alloc);
    for entry in issues {
        let hash = issue_hash(alloc, entry.0, &entry.1)?;
        rows.push(IssueRow {
            number: entry.0,
            hash,
        })?;
    }
    Ok(rows)
}

/// Adds the hash of each row of the number.
fn push_rows(
    rows: &mut Vec<DigestRow>,
    buffer: &mut Vec<u8>,
    number: u32,
    subs: &[(u32, JoinMap<u32, CellParts>)],
) -> Result<(), AllocError>
    requires { AreCellsOfSubs number subs.now }
    ensures rows { OnOk result (rows.new.items ≡ rows.old.items ++ map (row_of number) subs.now) }
    ensures word { number < word_limit }
{
    for entry in subs {
        let hash = row_hash(buffer, number, entry.0, &entry.1)?;
        rows.push(DigestRow {
            number,
            sub: entry.0,
            hash,
        })?;
    }
    Ok(())
}

/// The hash of each row.
fn rows(
    alloc: Global,
    numbers: &[(u32, JoinMap<u32, JoinMap<u32, CellParts>>)],
) -> Result<Vec<DigestRow>, AllocError>
    requires { AreCellsOfNumbers numbers.now }
    ensures rows { IfOk result (λ rows. rows.items ≡ flat_list (λ e. map (row_of e.0) e.1) numbers.now) }
    ensures words { IfOk result (λ _. AllByRecursion (λ e. e.0 < word_limit) numbers.now) }
{
    let mut rows = Vec::new(alloc);
    let mut buffer = Vec::new(alloc);
    for entry in numbers {
        push_rows(&mut rows, &mut buffer, entry.0, entry.1.entries())?;
    }
    Ok(rows)
}

/// The digest of the board: its openings, and SHA-256 of each issue and of each row. An error means
/// that an allocation failed, or that the board has more than 4,294,967,295 rows, which no frame
/// could count.
pub fn digest(alloc: Global, board: &Board) -> Result<Digest, AllocError>
    ensures { IfOk result (λ d. d ≡ digest_of board.now) }
{
    board.known();
    let openings = board.openings()?;
    words_known(&openings);
    let issues = board.issues()?;
    let issue_rows = issue_rows(alloc, &issues)?;
    let rows = rows(alloc, board.cell_map().entries())?;
    if rows.len() > MOST_ROWS {
        return Err(AllocError);
    }
    Ok(Digest::of_lists(openings, issue_rows, rows))
}
