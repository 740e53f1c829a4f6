//! Rows of a digest in a list.

ghost use Rattle.squall_wire.specs.Limits.{after_issue_row, after_row};
ghost use Rattle.squall_wire.specs.Reading.{issue_row_at, row_at};

use crate::digest::{DigestRow, IssueRow};
use crate::fault::WireFault;
use crate::reading::field::{hash_at, word_at};
use crate::reading::item::Item;
use squall_key::PART_LIMIT;
use std::alloc::Global;

/// The point is the number of the last row, 0 before the first.
impl Item for IssueRow {
    type Point = u32;

    ghost read_at = { issue_row_at };

    ghost next = { after_issue_row };

    #[tactic(auto, unfolding(crate::specs::Reading::issue_row_at))]
    fn read(_alloc: Global, last: u32, bytes: &[u8]) -> Result<(IssueRow, &[u8]), WireFault> {
        let (number, rest) = word_at(bytes)?;
        let (hash, rest) = hash_at(rest)?;
        if number < 1 {
            return Err(WireFault::Range);
        }
        if number <= last {
            return Err(WireFault::Order);
        }
        Ok((IssueRow { number, hash }, rest))
    }

    fn after(&self, _last: u32) -> u32 {
        self.number
    }
}

/// The point is the number and the sub-plan of the last row, both 0 before the first.
impl Item for DigestRow {
    type Point = (u32, u32);

    ghost read_at = { row_at };

    ghost next = { after_row };

    #[tactic(auto, unfolding(crate::specs::Reading::row_at))]
    fn read(
        _alloc: Global,
        last: (u32, u32),
        bytes: &[u8],
    ) -> Result<(DigestRow, &[u8]), WireFault> {
        let (number, rest) = word_at(bytes)?;
        let (sub, rest) = word_at(rest)?;
        let (hash, rest) = hash_at(rest)?;
        if number < 1 || sub >= PART_LIMIT {
            return Err(WireFault::Range);
        }
        if number < last.0 || (number == last.0 && sub <= last.1) {
            return Err(WireFault::Order);
        }
        Ok((DigestRow { number, sub, hash }, rest))
    }

    fn after(&self, _last: (u32, u32)) -> (u32, u32) {
        (self.number, self.sub)
    }
}
