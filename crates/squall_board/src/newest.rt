//! The newest course that a board tells of.

ghost use Rattle.std.specs.Prelude.{◌≡◌, ◌≤◌, ◌<◌, IfOk, IfSome, option_map, unwrap_or};
ghost use Rattle.std.specs.Arc.{arc_value};
ghost use Rattle.squall_course.specs.Change.{ArePlans};
ghost use Rattle.squall_board.specs.Boards.{issued};
ghost use Rattle.squall_board.specs.Newest.{IsNewest, one_above, newest_in, newest_of};
ghost use Rattle.squall_board.specs.CourseRoute.{course_of_board};

use crate::Board;
use squall_course::Course;
use squall_join::{Flat, Shared};
use squall_report::Issue;
use std::alloc::{AllocError, Global};
use std::sync::Arc;

/// The entry's number and issue, if it has one pair of plans and a number above `low`.
fn one_above(entry: &(u32, Flat<Shared<Issue>>), low: u32) -> Option<(u32, &Arc<Issue>)>
    ensures { option_map (λ e. (e.0, arc_value e.1.now)) result ≡ one_above low entry.now }
{
    match &entry.1 {
        Flat::One(issue) => {
            if low < entry.0 {
                Some((entry.0, issue.as_arc()))
            } else {
                None
            }
        }
        Flat::Unknown | Flat::Clash => None,
    }
}

/// The last entry that has one pair of plans and a number above `low`.
fn newest_in(issues: &[(u32, Flat<Shared<Issue>>)], low: u32) -> Option<(u32, &Arc<Issue>)>
    ensures { option_map (λ e. (e.0, arc_value e.1.now)) result ≡ newest_in low issues.now }
{
    let mut at = issues.len();
    while at > 0 {
        at -= 1;
        let found = one_above(&issues[at], low);
        if found.is_some() {
            return found;
        }
    }
    None
}

/// The course of the issue under the number. An error means that an allocation failed.
pub fn issued_course(alloc: Global, number: u32, issue: &Issue) -> Result<Course, AllocError>
    requires { 1 ≤ number }
    ensures course { IfOk result (λ c. c ≡ record { number = number; old = issue.now.old; new = issue.now.new }) }
    ensures plans { IfOk result (λ c. ArePlans c.old c.new) }
{
    match Course::new(alloc, number, issue.old(), issue.new_plan()) {
        Ok(course) => {
            // The proof learns that a course has plans.
            let _old = course.old_plan();
            Ok(course)
        }
        // The number is not 0, so that only memory is missing.
        Err(_) => Err(AllocError),
    }
}

impl Board {
    /// The newest course after the given first one: the greatest number above the first course's
    /// under which one pair of plans is issued, with its issue. A number under which different
    /// pairs were issued is skipped. None if there is no such number.
    pub fn newest(&self, first: &Course) -> Option<(u32, &Arc<Issue>)>
        ensures newest { option_map (λ e. (e.0, arc_value e.1.now)) result ≡ newest_of self.now first.now.number }
        ensures meaning { IsNewest (issued self.now) first.now.number (option_map (λ e. (e.0, arc_value e.1.now)) result) }
    {
        self.known();
        newest_in(self.issue_map().entries(), first.number())
    }

    /// The newest course that the board issues after the given first one. `None` if it issues none,
    /// so that the first is the newest. An error means that an allocation failed.
    pub fn newest_course(&self, alloc: Global, first: &Course) -> Result<Option<Course>, AllocError>
        ensures course { IfOk result (λ newest. unwrap_or newest first.now ≡ course_of_board first.now self.now) }
        ensures newer { IfOk result (λ newest. IfSome newest (λ c. first.now.number < c.number)) }
    {
        match self.newest(first) {
            Some((number, issue)) => Ok(Some(issued_course(alloc, number, issue)?)),
            None => Ok(None),
        }
    }
}
