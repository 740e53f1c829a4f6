//! How the items of lists are written.

ghost use Rattle.std.specs.Prelude.{◌≡◌, ◌<◌, ◌++◌, IfOk, OnOk};
ghost use Rattle.std.specs.Arc.{arc_value};
ghost use Rattle.squall_join.specs.Flats.{flat_map, flat_is};
ghost use Rattle.squall_wire.specs.Limits.{word_limit, FitsPlan};
ghost use Rattle.squall_wire.specs.Fits.{ArePlans, IsWordOpening, IsWordIssue};
ghost use Rattle.squall_wire.specs.Spelling.{rank, spell_opening, spell_span, spell_range, spell_plan, spell_issued, spell_issue, spell_issue_row, spell_row};

use crate::digest::{DigestRow, IssueRow};
use crate::write::{Spelled, write_list};
use squall_board::Opening;
use squall_join::Flat;
use squall_key::Bound;
use squall_plan::{Plan, PlanRange};
use squall_report::Issue;
use squall_span::Span;
use std::alloc::{AllocError, Global};
use std::sync::Arc;

/// Adds the eight bytes of the bound's rank.
fn write_bound(out: &mut Vec<u8>, bound: Bound) -> Result<(), AllocError>
    ensures { OnOk result (out.new.items ≡ out.old.items ++ rank bound) }
{
    out.extend_from_slice(&bound.rank().to_be_bytes())
}

impl Spelled for Opening {
    ghost spelling = { spell_opening };

    ghost holds = { IsWordOpening };

    fn write(&self, out: &mut Vec<u8>) -> Result<(), AllocError> {
        out.extend_from_slice(&self.number.to_be_bytes())?;
        out.extend_from_slice(&self.count.to_be_bytes())
    }
}

/// The bytes of a span.
fn span_bytes(span: Span) -> [u8; 16]
    ensures { result ≡ spell_span span }
{
    let mut bytes = [0; 16];
    bytes[..8].copy_from_slice(&span.lo().rank().to_be_bytes());
    bytes[8..].copy_from_slice(&span.hi().rank().to_be_bytes());
    bytes
}

impl Spelled for Span {
    ghost spelling = { spell_span };

    fn write(&self, out: &mut Vec<u8>) -> Result<(), AllocError> {
        out.extend_from_slice(&span_bytes(*self))
    }
}

impl Spelled for PlanRange {
    ghost spelling = { spell_range };

    fn write(&self, out: &mut Vec<u8>) -> Result<(), AllocError> {
        write_bound(out, self.span.hi())?;
        out.extend_from_slice(&self.part.get().to_be_bytes())
    }
}

impl Spelled for IssueRow {
    ghost spelling = { spell_issue_row };

    fn write(&self, out: &mut Vec<u8>) -> Result<(), AllocError> {
        out.extend_from_slice(&self.number.to_be_bytes())?;
        out.extend_from_slice(&self.hash)
    }
}

impl Spelled for DigestRow {
    ghost spelling = { spell_row };

    fn write(&self, out: &mut Vec<u8>) -> Result<(), AllocError> {
        out.extend_from_slice(&self.number.to_be_bytes())?;
        out.extend_from_slice(&self.sub.to_be_bytes())?;
        out.extend_from_slice(&self.hash)
    }
}

/// Adds the ranges of the plan.
fn write_plan(out: &mut Vec<u8>, plan: &Plan) -> Result<(), AllocError>
    ensures written { OnOk result (out.new.items ≡ out.old.items ++ spell_plan plan.now) }
    ensures known { OnOk result (FitsPlan plan.now) }
{
    write_list(out, plan.ranges())
}

/// Adds what is issued: a mark, and both plans of a pair.
fn write_issued(out: &mut Vec<u8>, issue: &Flat<Arc<Issue>>) -> Result<(), AllocError>
    ensures written { OnOk result (out.new.items ≡ out.old.items ++ spell_issued (flat_map arc_value issue.now)) }
    ensures known { OnOk result (ArePlans (flat_map arc_value issue.now)) }
{
    match issue {
        Flat::Unknown => Ok(()),
        Flat::One(issue) => {
            out.push(1)?;
            write_plan(out, issue.old())?;
            write_plan(out, issue.new_plan())
        }
        Flat::Clash => {
            out.push(2)?;
            Ok(())
        }
    }
}

/// The bytes in a delta of what is issued under the number: the number, a mark, and both plans of a
/// pair. An error means that an allocation failed.
pub fn issue_bytes(
    alloc: Global,
    number: u32,
    issue: &Flat<Arc<Issue>>,
) -> Result<Vec<u8>, AllocError>
    ensures { IfOk result (λ bytes. bytes.items ≡ spell_issue (number, flat_map arc_value issue.now)) }
{
    let mut bytes = Vec::new(alloc);
    bytes.extend_from_slice(&number.to_be_bytes())?;
    write_issued(&mut bytes, issue)?;
    Ok(bytes)
}

/// A number, and what is issued under it.
impl Spelled for (u32, Flat<Arc<Issue>>) {
    ghost spelling = { λ entry. spell_issue (entry.0, flat_map arc_value entry.1) };

    ghost holds = { λ entry. IsWordIssue (entry.0, flat_map arc_value entry.1) };

    fn write(&self, out: &mut Vec<u8>) -> Result<(), AllocError> {
        out.extend_from_slice(&self.0.to_be_bytes())?;
        write_issued(out, &self.1)
    }
}
