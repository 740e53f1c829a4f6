//! What is issued under a number, in the form of a frame.

ghost use Rattle.std.specs.Prelude.{◌≡◌};
ghost use Rattle.std.specs.Arc.{arc_value};
ghost use Rattle.squall_join.specs.Flats.{flat_map};

use squall_join::Flat;
use squall_report::Issue;
use std::marker::Model;
use std::sync::Arc;

/// What is issued under a number. Contracts see it as the number and the pair of plans, or a clash.
#[derive(Drop)]
pub(crate) struct IssueItem {
    number: u32,
    issue: Flat<Arc<Issue>>,
}

impl Model for IssueItem {
    ghost use Rattle.std.specs.Prelude.{ℕ};
    ghost use Rattle.std.specs.Arc.{arc_value};
    ghost use Rattle.squall_join.specs.declared.flat.Flat.{Flat};
    ghost use Rattle.squall_join.specs.Flats.{flat_map};
    ghost use Rattle.squall_report.specs.Issues.{PlanPair};

    ghost Value = { ℕ × Flat PlanPair };

    ghost view = { λ e. (e.number, flat_map arc_value e.issue) };
}

impl IssueItem {
    /// What is issued under the number.
    pub(crate) fn new(number: u32, issue: Flat<Arc<Issue>>) -> IssueItem
        ensures { result ≡ (number, flat_map arc_value issue) }
    {
        IssueItem { number, issue }
    }

    /// The reconfiguration's number.
    pub(crate) fn number(&self) -> u32
        ensures { result ≡ self.now.0 }
    {
        self.number
    }

    /// One pair of plans, or a clash.
    pub(crate) fn issue(&self) -> &Flat<Arc<Issue>>
        ensures { flat_map arc_value result.now ≡ self.now.1 }
    {
        &self.issue
    }
}
