//! What a digest shows.

ghost use Rattle.std.specs.Prelude.{◌≡◌, ◌==◌, ◌&&◌, false, ℕ, List, IfOk, IfSome, IfNone};
ghost use Rattle.std.specs.Arc.{arc_value};
ghost use Rattle.std.specs.List.{list_any};
ghost use Rattle.squall_join.specs.Flats.{flat_map};
ghost use Rattle.squall_board.specs.Listed.{AreCellsOfParts};
ghost use Rattle.squall_wire.specs.Limits.{AreListed, FitsOpening, after_opening, FitsIssueRow, after_issue_row, FitsRow, after_row};
ghost use Rattle.squall_delta.specs.Hashes.{row_hash, issue_hash};
ghost use Rattle.squall_delta.specs.Repairs.{count_in, is_same_hash, shows_issue, shows_row};

use crate::hashing::{issue_hash, row_hash};
use squall_board::{CellParts, Opening};
use squall_join::{Flat, JoinMap};
use squall_report::Issue;
use squall_wire::{Digest, DigestRow, IssueRow};
use std::alloc::{AllocError, Global};
use std::sync::Arc;

/// The count that the openings give the number, 0 if they give none.
pub(crate) fn count_in(openings: &[Opening], number: u32) -> u32
    requires { AreListed FitsOpening after_opening 0 openings.now }
    ensures { result ≡ count_in openings.now number }
{
    match openings.binary_search_by_key(&number, |opening| opening.number) {
        Ok(at) => openings[at].count,
        Err(_) => 0,
    }
}

/// The hash that the rows show of what is issued under the number.
fn issue_shown(rows: &[IssueRow], number: u32) -> Option<[u8; 32]>
    requires { AreListed FitsIssueRow after_issue_row 0 rows.now }
    ensures some { IfSome result (λ shown. (hash : List ℕ)
        → list_any (λ r. (r.number == number) && is_same_hash r.hash hash) rows.now ≡ is_same_hash shown hash) }
    ensures none { IfNone result ((hash : List ℕ) → list_any (λ r. (r.number == number) && is_same_hash r.hash hash) rows.now ≡ false) }
{
    match rows.binary_search_by_key(&number, |row| row.number) {
        Ok(at) => Some(rows[at].hash),
        Err(_) => None,
    }
}

/// The hash that the rows show of the row of the number and sub-plan.
fn row_shown(rows: &[DigestRow], number: u32, sub: u32) -> Option<[u8; 32]>
    requires { AreListed FitsRow after_row (0, 0) rows.now }
    ensures some { IfSome result (λ shown. (hash : List ℕ)
        → list_any (λ r. (r.number == number) && ((r.sub == sub) && is_same_hash r.hash hash)) rows.now ≡ is_same_hash shown hash) }
    ensures none { IfNone result ((hash : List ℕ) → list_any (λ r. (r.number == number) && ((r.sub == sub) && is_same_hash r.hash hash)) rows.now ≡ false) }
{
    match rows.binary_search_by_key(&(number, sub), |row| (row.number, row.sub)) {
        Ok(at) => Some(rows[at].hash),
        Err(_) => None,
    }
}

/// Whether the digest shows the hash of what is issued under the number. It is computed only if the
/// digest shows one for that number.
pub(crate) fn shows_issue(
    alloc: Global,
    digest: &Digest,
    number: u32,
    issue: &Flat<Arc<Issue>>,
) -> Result<bool, AllocError>
    ensures { IfOk result (λ shows. shows ≡ shows_issue digest.now number (issue_hash number (flat_map arc_value issue.now))) }
{
    match issue_shown(digest.issue_rows(), number) {
        None => Ok(false),
        Some(shown) => Ok(shown == issue_hash(alloc, number, issue)?),
    }
}

/// Whether the digest shows the hash of the row. It is computed only if the digest shows one for
/// that number and sub-plan.
pub(crate) fn shows_row(
    buffer: &mut Vec<u8>,
    digest: &Digest,
    number: u32,
    sub: u32,
    row: &JoinMap<u32, CellParts>,
) -> Result<bool, AllocError>
    requires { AreCellsOfParts number sub row.now }
    ensures { IfOk result (λ shows. shows ≡ shows_row digest.now number sub (row_hash number sub row.now)) }
{
    match row_shown(digest.rows(), number, sub) {
        None => Ok(false),
        Some(shown) => Ok(shown == row_hash(buffer, number, sub, row)?),
    }
}
