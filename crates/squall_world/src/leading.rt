//! What the leader does.

ghost use Rattle.std.specs.Prelude.{◌≡◌, ◌≤◌, ◌<◌, ◌+◌, ◌++◌, ◌∷◌, [], vec_len, vec_capacity, IfOk, IsTrue, ◌↔◌};
ghost use Rattle.std.specs.Arc.{arc_value};
ghost use Rattle.squall_report.specs.declared.report.ReportKind.TheVariants.{Issued};
ghost use Rattle.squall_report.specs.Issues.{plan_pair};
ghost use Rattle.squall_world.specs.Nets.{IsNet, first_of};
ghost use Rattle.squall_world.specs.Events.{IsOpenIn, IsCourseIn, IsBeginIn, HasRange, IsLeftIn, IsBeginFromIn, part_peers, named_first};
ghost use Rattle.squall_world.specs.Naming.{AreNoted, AreRoles};

use crate::naming::{PARTS, mark, new_parts, note_places, repeated};
use crate::net::Net;
use crate::peer::Peer;
use crate::refusal::{not_opened, refused};
use squall_course::Course;
use squall_join::Shared;
use squall_plan::{Plan, PlanRange};
use squall_protocol::{Answer, Node, Refusal};
use squall_report::{Issue, Report};
use std::alloc::{AllocError, Global};
use std::sync::Arc;

/// The report that issues a course under the number.
pub(crate) fn issue(
    alloc: Global,
    number: u32,
    old: &Plan,
    new: &Plan,
) -> Result<Report, AllocError>
    requires { 1 ≤ number }
    ensures { IfOk result (λ report. report ≡ Issued number (plan_pair old.now new.now)) }
{
    let issue = Issue::new(alloc, old, new)?;
    Ok(Report::issued(number, issue).unwrap())
}

/// Adds nodes at the end, in room that was reserved.
fn append_ready(peers: &mut Vec<Peer>, mut more: Vec<Peer>)
    requires room { vec_len peers.old + vec_len more ≤ vec_capacity peers.old }
    ensures { peers.new.items ≡ peers.old.items ++ more.items }
{
    let _done = peers.append(&mut more);
}

/// Adds a course and nodes, in room that was made, and notes the places of the nodes.
fn add(
    courses: &mut Vec<Shared<Course>>,
    peers: &mut Vec<Peer>,
    places: &mut [Option<usize>],
    course: Arc<Course>,
    more: Vec<Peer>,
)
    requires course { vec_len courses.old < vec_capacity courses.old }
    requires room { vec_len peers.old + vec_len more ≤ vec_capacity peers.old }
    requires noted { AreNoted peers.old.items places.old }
    ensures courses { courses.new.items ≡ courses.old.items ++ arc_value course ∷ [] }
    ensures peers { peers.new.items ≡ peers.old.items ++ more.items }
    ensures noted { AreNoted peers.new.items places.new }
{
    courses.push_reserved(Shared::new(course));
    let from = peers.len();
    append_ready(peers, more);
    note_places(peers, from, places);
}

impl Net {
    /// The leader opens the next sub-plan of the course begun last.
    pub(crate) fn open_next(&mut self) -> Result<Answer, AllocError>
        requires { IsNet self.old }
        ensures { IsOpenIn self.old result self.new }
    {
        match self.peers[0].open_next() {
            Ok(sub) => Ok(Answer::Opened { sub }),
            Err(fault) => not_opened(fault),
        }
    }

    /// The nodes of the partitions that the plan names and that are not there yet.
    fn parts_for(&self, plan: &Plan) -> Result<Vec<Peer>, AllocError>
        requires { IsNet self.now }
        ensures nodes { IfOk result (λ peers. peers.items ≡ part_peers (first_of self.now) (named_first self.now plan.now)) }
        ensures valid { IfOk result (λ peers. AreRoles peers.items) }
    {
        let mut named = repeated(self.alloc, PARTS, false)?;
        mark(&mut named, plan);
        new_parts(self.alloc, self.courses[0].as_arc(), &named, &self.places)
    }

    /// The leader begins a course between the plans, whatever became of the one before. The
    /// partitions that the new plan is the first to name are added.
    fn begin_course(&mut self, old: &Plan, new: &Plan) -> Result<Answer, AllocError>
        requires { IsNet self.old }
        ensures { IsCourseIn self.old old.now new.now result self.new }
    {
        let Some(number) = self.newest().number().checked_add(1) else {
            return refused(Refusal::NoNumber);
        };
        let report = issue(self.alloc, number, old, new)?;
        let parts = self.parts_for(new)?;
        self.courses.reserve(1)?;
        self.ended.reserve(1)?;
        self.peers.reserve(parts.len())?;
        let opened = self.peers[0].opened();
        let course = match self.peers[0].begin(old, new, report) {
            Ok(course) => course,
            // There is a number: no fault is left but a failed allocation.
            Err(_) => return Err(AllocError),
        };
        self.ended.push_reserved(opened);
        add(
            &mut self.courses,
            &mut self.peers,
            &mut self.places,
            course,
            parts,
        );
        let parts = self.peers.len() - 1 - self.routers as usize;
        Ok(Answer::Begun { number, parts })
    }

    /// The leader begins a course from the newest plan to this one, once the course begun last is
    /// over.
    pub(crate) fn begin(&mut self, plan: &Plan) -> Result<Answer, AllocError>
        requires { IsNet self.old }
        ensures { IsBeginIn self.old plan.now result self.new }
    {
        if !self.peers[0].finished() {
            return refused(Refusal::Running);
        }
        let newest = Arc::try_clone(self.newest_shared())?;
        self.begin_course(newest.new_plan(), plan)
    }

    /// Whether the partition of the range is there and holds its keys. If one of them is to leave it
    /// by the course begun last, it has to give no more in that.
    fn has_range(&self, range: &PlanRange) -> Result<bool, AllocError>
        requires { IsNet self.now }
        ensures { IfOk result (λ has. IsTrue has ↔ HasRange self.now range.now) }
    {
        let Some(at) = self.place(Node::Part(range.part)) else {
            return Ok(false);
        };
        self.peers[at].has_range(self.alloc, self.newest(), range)
    }

    /// Whether this is so of each range of the plan.
    fn is_left(&self, plan: &Plan) -> Result<bool, AllocError>
        requires { IsNet self.now }
        ensures { IfOk result (λ left. IsTrue left ↔ IsLeftIn self.now plan.now) }
    {
        for range in plan.ranges() {
            let has = self.has_range(range)?;
            if !has {
                return Ok(false);
            }
        }
        Ok(true)
    }

    /// The leader begins a course between the plans, if the old one has each key where the course
    /// begun last leaves it.
    pub(crate) fn begin_from(&mut self, old: &Plan, new: &Plan) -> Result<Answer, AllocError>
        requires { IsNet self.old }
        ensures { IsBeginFromIn self.old old.now new.now result self.new }
    {
        if !self.is_left(old)? {
            return refused(Refusal::Running);
        }
        self.begin_course(old, new)
    }
}
