//! Digests of boards.

ghost use Rattle.std.specs.Prelude.{◌≡◌, IfOk, Err, Some};
ghost use Rattle.squall_wire.specs.DigestValue.{digest_with, IsDigest};
ghost use Rattle.squall_wire.specs.FaultText.{text_of_digest_fault};
ghost use Rattle.squall_wire.specs.Limits.{AreListed, FitsOpening, after_opening, FitsIssueRow, after_issue_row, FitsRow, after_row};
ghost use Rattle.squall_wire.specs.declared.digest.DigestFault.TheVariants.{BadDigest, NoMemory};

use crate::order::{are_issue_rows, are_openings, are_rows};
use squall_board::Opening;
use std::alloc::{AllocError, Global};
use std::error::Error;
use std::fmt;
use std::marker::Model;

/// The hash of what is issued under a number.
#[derive(Clone, Copy, Debug, PartialEq, Eq)]
pub struct IssueRow {
    /// The reconfiguration's number, from 1 on.
    pub number: u32,
    /// The SHA-256 of the bytes of the issue in a delta.
    pub hash: [u8; 32],
}

/// The hash of the cells of one number and sub-plan: of a row.
#[derive(Clone, Copy, Debug, PartialEq, Eq)]
pub struct DigestRow {
    /// The reconfiguration's number, from 1 on.
    pub number: u32,
    /// The sub-plan, at most 9999.
    pub sub: u32,
    /// The SHA-256 of the bytes of the row's cells in a delta, one after the other.
    pub hash: [u8; 32],
}

/// Why lists are not a digest.
#[derive(Clone, Copy, Debug, PartialEq, Eq)]
pub enum DigestFault {
    /// A list is not in order, or a number lies outside its limits.
    BadDigest,
    /// An allocation failed.
    NoMemory,
}

/// The name of the fault.
impl fmt::Display for DigestFault {
    ghost output = { λ e. Some (text_of_digest_fault e) };

    fn fmt<W: fmt::Write>(&self, f: &mut fmt::Formatter<W>) -> fmt::Result {
        match self {
            DigestFault::BadDigest => write!(f, "BadDigest"),
            DigestFault::NoMemory => write!(f, "NoMemory"),
        }
    }
}

impl Error for DigestFault {}

impl From<AllocError> for DigestFault {
    ghost from_gives = { λ _ e. e ≡ NoMemory };

    fn from(_e: AllocError) -> DigestFault {
        DigestFault::NoMemory
    }
}

/// What is opened, and hashes of what else a board holds: its issues by number, its cells by rows
/// of one number and sub-plan.
///
/// Contracts see a digest as its three lists.
#[derive(Drop)]
pub struct Digest {
    openings: Vec<Opening>,
    issue_rows: Vec<IssueRow>,
    rows: Vec<DigestRow>,
}

impl Model for Digest {
    ghost use Rattle.squall_wire.specs.DigestValue.{DigestValue, digest_with, IsDigest};

    ghost Value = { DigestValue };

    ghost view = { λ d. digest_with d.openings.items d.issue_rows.items d.rows.items };

    ghost invariant = { λ d. IsDigest (digest_with d.openings.items d.issue_rows.items d.rows.items) };
}

impl Digest {
    /// The digest of three lists: how many sub-plans are opened and the hashes of issues, both by
    /// rising number, and the hashes of rows, by rising number and sub-plan.
    ///
    /// `BadDigest` if a list is not in order or has more items than four bytes can count. It is
    /// also the answer if a number is 0, a count is 0 or above 10,000, or a sub-plan is above 9999.
    /// All of this is checked before anything is allocated. `NoMemory` if an allocation fails.
    pub fn of(
        alloc: Global,
        openings: &[Opening],
        issue_rows: &[IssueRow],
        rows: &[DigestRow],
    ) -> Result<Digest, DigestFault>
        ensures value { IfOk result (λ d. d ≡ digest_with openings.now issue_rows.now rows.now) }
        ensures ok { IfOk result (λ _. IsDigest (digest_with openings.now issue_rows.now rows.now)) }
        ensures bad { result ≡ Err BadDigest → IsDigest (digest_with openings.now issue_rows.now rows.now) → ⊥ }
        ensures memory { result ≡ Err NoMemory → IsDigest (digest_with openings.now issue_rows.now rows.now) }
    {
        if !are_openings(openings) || !are_issue_rows(issue_rows) || !are_rows(rows) {
            return Err(DigestFault::BadDigest);
        }
        let openings = Vec::from_slice(alloc, openings)?;
        let issue_rows = Vec::from_slice(alloc, issue_rows)?;
        let rows = Vec::from_slice(alloc, rows)?;
        Ok(Digest {
            openings,
            issue_rows,
            rows,
        })
    }

    /// How many sub-plans are opened, by rising number.
    pub fn openings(&self) -> &[Opening]
        ensures value { result.now ≡ self.now.openings }
        ensures listed { AreListed FitsOpening after_opening 0 result.now }
    {
        &self.openings
    }

    /// The hashes of issues, by rising number.
    pub fn issue_rows(&self) -> &[IssueRow]
        ensures value { result.now ≡ self.now.issue_rows }
        ensures listed { AreListed FitsIssueRow after_issue_row 0 result.now }
    {
        &self.issue_rows
    }

    /// The hashes of rows, by rising number and sub-plan.
    pub fn rows(&self) -> &[DigestRow]
        ensures value { result.now ≡ self.now.rows }
        ensures listed { AreListed FitsRow after_row (0, 0) result.now }
    {
        &self.rows
    }

    /// Changes nothing: after it a proof knows that each list is in order and within its limits.
    pub fn known(&self)
        ensures { IsDigest self.now }
    {
        let _openings = &self.openings;
    }

    /// The digest of three lists that are known to be in order and within their limits.
    pub fn of_lists(
        openings: Vec<Opening>,
        issue_rows: Vec<IssueRow>,
        rows: Vec<DigestRow>,
    ) -> Digest
        requires { IsDigest (digest_with openings.items issue_rows.items rows.items) }
        ensures { result ≡ digest_with openings.items issue_rows.items rows.items }
    {
        Digest {
            openings,
            issue_rows,
            rows,
        }
    }
}
