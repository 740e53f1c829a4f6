//! What is issued, in a list.

ghost use Rattle.std.specs.Arc.{arc_value};
ghost use Rattle.squall_join.specs.Flats.{flat_map};
ghost use Rattle.squall_wire.specs.Limits.{after_issue};
ghost use Rattle.squall_wire.specs.Reading.{Gives, issue_head_at, issued_at, issue_at};

use crate::fault::WireFault;
use crate::issue::IssueItem;
use crate::reading::field::{byte_at, word_at};
use crate::reading::item::Item;
use crate::reading::plan::plan_of;
use squall_join::Flat;
use squall_report::Issue;
use std::alloc::Global;
use std::sync::Arc;

/// The number and the mark that begin the bytes, and the bytes after them.
#[tactic(auto, unfolding(crate::specs::Reading::issue_head_at))]
fn head_of(last: u32, bytes: &[u8]) -> Result<(u32, u8, &[u8]), WireFault>
    ensures { Gives (λ x. ((x.0, x.1), x.2.now)) result (issue_head_at last bytes.now) }
{
    let (number, rest) = word_at(bytes)?;
    let (mark, rest) = byte_at(rest)?;
    if number < 1 || mark < 1 || mark > 2 {
        return Err(WireFault::Range);
    }
    if number <= last {
        return Err(WireFault::Order);
    }
    Ok((number, mark, rest))
}

/// What is issued, at the beginning of the bytes, and the bytes after it: a clash after mark 2,
/// else two plans.
#[tactic(auto, unfolding(crate::specs::Reading::issued_at))]
fn issued_of(alloc: Global, mark: u8, bytes: &[u8]) -> Result<(Flat<Arc<Issue>>, &[u8]), WireFault>
    ensures { Gives (λ x. (flat_map arc_value x.0, x.1.now)) result (issued_at mark bytes.now) }
{
    if mark == 2 {
        return Ok((Flat::Clash, bytes));
    }
    let (old, rest) = plan_of(alloc, bytes)?;
    let (new, rest) = plan_of(alloc, rest)?;
    let issue = Issue::new(alloc, &old, &new)?;
    Ok((Flat::One(issue), rest))
}

/// The point is the number of the last issue, 0 before the first.
impl Item for IssueItem {
    type Point = u32;

    ghost read_at = { issue_at };

    ghost next = { after_issue };

    #[tactic(auto, unfolding(crate::specs::Reading::issue_at))]
    fn read(alloc: Global, last: u32, bytes: &[u8]) -> Result<(IssueItem, &[u8]), WireFault> {
        let (number, mark, rest) = head_of(last, bytes)?;
        let (issue, rest) = issued_of(alloc, mark, rest)?;
        Ok((IssueItem::new(number, issue), rest))
    }

    fn after(&self, _last: u32) -> u32 {
        self.number()
    }
}
