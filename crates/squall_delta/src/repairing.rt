//! What a digest does not show.

ghost use Rattle.std.specs.Prelude.{◌≡◌, ◌≢◌, ◌≤◌, [], ◌∷◌, map, IfOk, OnOk};
ghost use Rattle.std.specs.Arc.{arc_value};
ghost use Rattle.std.specs.List.{AllByRecursion};
ghost use Rattle.squall_join.specs.Flats.{flat_map};
ghost use Rattle.squall_board.specs.Listed.{IsOpening, AreCellsOfParts, AreCellsOfSubs, AreCellsOfNumbers, AreSomeRows};
ghost use Rattle.squall_delta.specs.Kept.{with_newer_openings, with_lacking_issues, with_lacking_rows, with_lacking_cells};
ghost use Rattle.squall_delta.specs.Repairs.{IsRepair};

use crate::shown::{count_in, shows_issue, shows_row};
use squall_board::{Board, CellParts, Delta, Opening};
use squall_join::{Flat, JoinMap};
use squall_report::Issue;
use squall_wire::Digest;
use std::alloc::{AllocError, Global};
use std::sync::Arc;

/// Puts in each opening whose count is greater than the digest's.
fn put_openings(delta: &mut Delta, digest: &Digest, openings: &[Opening]) -> Result<(), AllocError>
    requires { AllByRecursion IsOpening openings.now }
    ensures { OnOk result (delta.new ≡ with_newer_openings digest.now.openings delta.old openings.now) }
{
    for opening in openings {
        if count_in(digest.openings(), opening.number) < opening.count {
            delta.put_opening(opening)?;
        }
    }
    Ok(())
}

/// Puts in each issue that the digest does not show.
fn put_issues(
    alloc: Global,
    delta: &mut Delta,
    digest: &Digest,
    issues: &[(u32, Flat<Arc<Issue>>)],
) -> Result<(), AllocError>
    requires { AllByRecursion (λ e. 1 ≤ e.0) issues.now }
    ensures { OnOk result (delta.new ≡ with_lacking_issues digest.now delta.old (map (λ e. (e.0, flat_map arc_value e.1)) issues.now)) }
{
    for entry in issues {
        if !shows_issue(alloc, digest, entry.0, &entry.1)? {
            delta.put_issue(entry.0, &entry.1)?;
        }
    }
    Ok(())
}

/// Puts in the row, unless the digest shows it.
fn put_row(
    delta: &mut Delta,
    buffer: &mut Vec<u8>,
    digest: &Digest,
    number: u32,
    sub: u32,
    row: &JoinMap<u32, CellParts>,
) -> Result<(), AllocError>
    requires cells { AreCellsOfParts number sub row.now }
    requires some { row.now ≢ [] }
    ensures { OnOk result (delta.new ≡ with_lacking_rows digest.now number delta.old ((sub, row.now) ∷ [])) }
{
    if shows_row(buffer, digest, number, sub, row)? {
        return Ok(());
    }
    delta.put_row(number, sub, row)
}

/// Puts in each row of the number that the digest does not show.
fn put_rows(
    delta: &mut Delta,
    buffer: &mut Vec<u8>,
    digest: &Digest,
    number: u32,
    subs: &[(u32, JoinMap<u32, CellParts>)],
) -> Result<(), AllocError>
    requires cells { AreCellsOfSubs number subs.now }
    requires some { AllByRecursion (λ e. e.1 ≢ []) subs.now }
    ensures { OnOk result (delta.new ≡ with_lacking_rows digest.now number delta.old subs.now) }
{
    for entry in subs {
        put_row(delta, buffer, digest, number, entry.0, &entry.1)?;
    }
    Ok(())
}

/// Puts in each row that the digest does not show.
fn put_cells(
    delta: &mut Delta,
    buffer: &mut Vec<u8>,
    digest: &Digest,
    numbers: &[(u32, JoinMap<u32, JoinMap<u32, CellParts>>)],
) -> Result<(), AllocError>
    requires cells { AreCellsOfNumbers numbers.now }
    requires some { AreSomeRows numbers.now }
    ensures { OnOk result (delta.new ≡ with_lacking_cells digest.now delta.old numbers.now) }
{
    for entry in numbers {
        put_rows(delta, buffer, digest, entry.0, entry.1.entries())?;
    }
    Ok(())
}

/// What the board has that the digest does not show. That is each opening with a greater count than
/// the digest gives its number. It is also each whole issue and row that the digest lacks or shows
/// with another hash. An error means that an allocation failed.
pub fn repair(alloc: Global, board: &Board, digest: &Digest) -> Result<Delta, AllocError>
    ensures { IfOk result (λ delta. IsRepair board.now digest.now delta) }
{
    board.known();
    let mut delta = Board::new(alloc);
    let mut buffer = Vec::new(alloc);
    let openings = board.openings()?;
    put_openings(&mut delta, digest, &openings)?;
    let issues = board.issues()?;
    put_issues(alloc, &mut delta, digest, &issues)?;
    put_cells(&mut delta, &mut buffer, digest, board.cell_map().entries())?;
    Ok(delta)
}
