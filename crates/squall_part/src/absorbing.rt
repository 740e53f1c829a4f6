//! The logs of courses that become known.

ghost use Rattle.std.specs.Prelude.{◌≡◌, ◌≤◌, ◌++◌, ℕ, List, map, IfOk, OnOk};
ghost use Rattle.std.specs.Arc.{arc_value};
ghost use Rattle.std.specs.List.{AllByRecursion};
ghost use Rattle.squall_join.specs.Flats.{flat_map};
ghost use Rattle.squall_course.specs.Change.{ArePlans};
ghost use Rattle.squall_board.specs.Listed.{issues_of};
ghost use Rattle.squall_part.specs.Parts.{IsLog};
ghost use Rattle.squall_part.specs.Fresh.{is_new, fresh_log, fresh_logs};

use crate::log::Log;
use crate::part::Part;
use squall_board::{Delta, issued_course};
use squall_course::Course;
use squall_join::{Flat, Shared};
use squall_report::Issue;
use std::alloc::{AllocError, Global};
use std::sync::Arc;

/// The course of the number and the issue, to be shared.
fn made(alloc: Global, number: u32, issue: &Issue) -> Result<Shared<Course>, AllocError>
    requires { 1 ≤ number }
    ensures course { IfOk result (λ c. c ≡ record { number = number; old = issue.now.old; new = issue.now.new }) }
    ensures plans { IfOk result (λ c. ArePlans c.old c.new) }
{
    let course = issued_course(alloc, number, issue)?;
    Ok(Shared::new(Arc::new(alloc, course)?))
}

impl Part {
    /// Whether the number is not that of the first course, and the partition knows of no issue
    /// under it. No log has such a number.
    fn is_new(&self, number: u32) -> bool
        ensures { result ≡ is_new self.now.first self.now.board number }
    {
        if number == self.first.as_arc().number() {
            return false;
        }
        matches!(self.board.issuing(number), Flat::Unknown)
    }

    /// Adds the log of the issue, if its number is new and it has one pair of plans.
    fn push_fresh(
        &self,
        logs: &mut Vec<Log>,
        number: u32,
        issue: &Flat<Arc<Issue>>,
    ) -> Result<(), AllocError>
        requires { 1 ≤ number }
        ensures logs { OnOk result (logs.new.items ≡ logs.old.items ++ fresh_log self.now.first self.now.board (number, flat_map arc_value issue.now)) }
        ensures kept { OnOk result (AllByRecursion IsLog logs.old.items → AllByRecursion IsLog logs.new.items) }
    {
        let Flat::One(issue) = issue else {
            return Ok(());
        };
        if !self.is_new(number) {
            return Ok(());
        }
        let alloc = self.allocator();
        let course = made(alloc, number, issue)?;
        logs.push(Log::new(alloc, self.id, course)?)?;
        Ok(())
    }

    /// Adds the logs of the courses that become known by the issues.
    fn push_all_fresh(
        &self,
        logs: &mut Vec<Log>,
        issues: &[(u32, Flat<Arc<Issue>>)],
    ) -> Result<(), AllocError>
        requires { AllByRecursion (λ e. 1 ≤ e.0) issues.now }
        ensures logs { OnOk result (logs.new.items ≡ logs.old.items
            ++ fresh_logs self.now.first self.now.board (map (λ e. (e.0, flat_map arc_value e.1)) issues.now)) }
        ensures kept { OnOk result (AllByRecursion IsLog logs.old.items → AllByRecursion IsLog logs.new.items) }
    {
        for entry in issues {
            self.push_fresh(logs, entry.0, &entry.1)?;
        }
        Ok(())
    }

    /// The logs of the courses that become known by the delta's issues. If it issues nothing there
    /// are none, and nothing is allocated.
    pub(crate) fn fresh_logs(&self, delta: &Delta) -> Result<Vec<Log>, AllocError>
        ensures value { IfOk result (λ logs. logs.items ≡ fresh_logs self.now.first self.now.board (issues_of delta.now)) }
        ensures logs { IfOk result (λ logs. AllByRecursion IsLog logs.items) }
    {
        let mut logs = Vec::new(self.allocator());
        let issues = delta.issues()?;
        self.push_all_fresh(&mut logs, &issues)?;
        Ok(logs)
    }
}
