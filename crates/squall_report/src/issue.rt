//! The pair of plans of a reconfiguration.

ghost use Rattle.std.specs.Prelude.{◌≡◌, IfOk};
ghost use Rattle.std.specs.Arc.{arc_value};
ghost use Rattle.squall_report.specs.Issues.{plan_pair, is_same_pair};
ghost use Rattle.squall_report.specs.IssueLaws.{same_pairs_are_equal, pairs_equal};
ghost use Rattle.std.specs.Cmp.{partial_equiv_from_equiv};

use squall_join::Exact;
use squall_plan::Plan;
use std::alloc::{AllocError, Global};
use std::marker::Model;
use std::sync::Arc;

/// The plan from which a reconfiguration leads, and the plan to which it leads.
///
/// Contracts see an issue as the pair of both plans.
#[derive(Drop)]
pub struct Issue {
    old: Plan,
    new: Plan,
}

impl Model for Issue {
    ghost use Rattle.squall_report.specs.Issues.{PlanPair, plan_pair};

    ghost Value = { PlanPair };

    ghost view = { λ i. plan_pair i.old i.new };
}

impl Issue {
    /// The issue of a copy of both plans, to be shared. An error means that an allocation failed.
    pub fn new(alloc: Global, old: &Plan, new: &Plan) -> Result<Arc<Issue>, AllocError>
        ensures { IfOk result (λ issue. arc_value issue ≡ plan_pair old.now new.now) }
    {
        let old = old.copied(alloc)?;
        let new = new.copied(alloc)?;
        let issue = Arc::new(alloc, Issue { old, new })?;
        Ok(issue)
    }

    /// The plan from which the reconfiguration leads.
    pub fn old(&self) -> &Plan
        ensures { result.now ≡ self.now.old }
    {
        &self.old
    }

    /// The plan to which the reconfiguration leads.
    pub fn new_plan(&self) -> &Plan
        ensures { result.now ≡ self.now.new }
    {
        &self.new
    }
}

/// Issues are equal if both plans are.
impl PartialEq for Issue {
    ghost eq = { is_same_pair };

    ghost laws = { partial_equiv_from_equiv pairs_equal };

    fn eq(&self, other: &Issue) -> bool {
        self.old == other.old && self.new == other.new
    }
}

impl Eq for Issue {
    ghost laws = { pairs_equal };
}

impl Exact for Issue {
    ghost eq = { is_same_pair };

    ghost exact = { same_pairs_are_equal };

    fn known(&self) {}

    fn is_same(&self, other: &Issue) -> bool {
        *self == *other
    }

    fn copied(&self, alloc: Global) -> Result<Issue, AllocError> {
        let old = self.old.copied(alloc)?;
        let new = self.new.copied(alloc)?;
        Ok(Issue { old, new })
    }
}
