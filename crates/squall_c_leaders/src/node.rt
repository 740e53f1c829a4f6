//! A leader with its allocator, its feed, the digest that it heard last and the frames that wait.

ghost use Rattle.std.specs.Prelude.{◌≡◌, ◌↔◌, IfOk, IsTrue, length};
ghost use Rattle.std.specs.Arc.{arc_value};
ghost use Rattle.std.specs.Option.{option_map};
ghost use Rattle.squall_report.specs.declared.report.ReportKind.TheVariants.{Opened};
ghost use Rattle.squall_leader.specs.Leaders.{IsFinished, new_leader};
ghost use Rattle.squall_c_leaders.specs.Nodes.{new_node, begun_leader, Begins, BeginsFrom, Opens, OpensAs};

use squall_c_frames::{Frames, TwinFeed};
use squall_course::Course;
use squall_join::Shared;
use squall_leader::{Leader, LeaderFault};
use squall_plan::Plan;
use squall_report::{Report, ReportKind};
use squall_wire::Digest;
use std::alloc::{AllocError, Global};
use std::marker::Model;
use std::sync::Arc;

/// What a handle of a leader leads to: the leader, the feed that hears its stream of frames, the digest
/// that it heard last and the frames that wait to be fetched. Contracts see it as these four.
#[derive(Drop)]
pub struct LeaderNode {
    pub(crate) alloc: Global,
    pub(crate) leader: Leader,
    /// The course that the leader began last.
    pub(crate) course: Option<Shared<Course>>,
    /// What hears a stream of frames.
    pub(crate) feed: TwinFeed,
    /// The digest that was heard last.
    pub(crate) heard: Option<Digest>,
    /// The frames that wait to be fetched.
    pub(crate) frames: Frames,
}

impl Model for LeaderNode {
    ghost use Rattle.std.specs.Prelude.{◌≡◌};
    ghost use Rattle.squall_c_leaders.specs.Nodes.{NodeValue};

    ghost Value = { NodeValue };

    ghost view = { λ n. record { leader = n.leader; feed = n.feed; heard = n.heard; frames = n.frames } };

    ghost invariant = { λ n. n.course ≡ n.leader.course };
}

/// The sub-plan that the report says opened, and 0 if it says something else.
fn opened_sub(report: &Report) -> u32
    ensures { OpensAs report.now result }
{
    match report.kind() {
        ReportKind::Opened { sub, .. } => sub,
        _ => 0,
    }
}

impl LeaderNode {
    /// A leader of data that lies as the plan says, which goes on after the number `last`. It has
    /// heard and begun nothing. It fails only if an allocation fails.
    pub fn new(alloc: Global, plan: &Plan, last: u32) -> Result<LeaderNode, AllocError>
        ensures { IfOk result (λ n. n ≡ new_node (new_leader plan.now last)) }
    {
        Ok(LeaderNode {
            alloc,
            leader: Leader::after(alloc, plan, last)?,
            course: None,
            feed: TwinFeed::new(alloc),
            heard: None,
            frames: Frames::new(alloc),
        })
    }

    /// A leader in the midst of the course, of which it knows nothing but that it was issued. It fails
    /// only if an allocation fails, or if a count of owners is full.
    pub fn resumed(alloc: Global, course: &Arc<Course>) -> Result<LeaderNode, AllocError>
        ensures { IfOk result (λ n. n ≡ new_node (begun_leader (arc_value course.now))) }
    {
        Ok(LeaderNode {
            alloc,
            leader: Leader::begun(alloc, course)?,
            course: Some(Shared::new(Arc::try_clone(course)?)),
            feed: TwinFeed::new(alloc),
            heard: None,
            frames: Frames::new(alloc),
        })
    }

    /// What allocates for it.
    pub fn allocator(&self) -> Global {
        self.alloc
    }

    /// Begins the course that leads from the newest plan to this one, under the last number plus 1.
    /// `Running`, `NoNumber` or `NoMemory` as [`Leader::begin`], and then nothing changes.
    pub fn begin(&mut self, plan: &Plan) -> Result<(), LeaderFault>
        ensures { Begins plan.now self.old result self.new }
    {
        let course = self.leader.begin(plan)?;
        self.course = Some(Shared::new(course));
        Ok(())
    }

    /// Begins the course that leads from the old plan to the new one, under the last number plus 1, as
    /// [`Leader::begin_from`]. `NoNumber` or `NoMemory` as that, and then nothing changes.
    pub fn begin_from(&mut self, old: &Plan, new: &Plan) -> Result<(), LeaderFault>
        ensures { BeginsFrom old.now new.now self.old result self.new }
    {
        let course = self.leader.begin_from(old, new)?;
        self.course = Some(Shared::new(course));
        Ok(())
    }

    /// Opens the next sub-plan of the course begun last, and answers which one that is. `Idle`,
    /// `NotDone`, `NoMore` or `NoMemory` as [`Leader::open_next`], and then nothing changes.
    pub fn open_next(&mut self) -> Result<u32, LeaderFault>
        ensures { Opens self.old result self.new }
    {
        let report = self.leader.open_next()?;
        Ok(opened_sub(&report))
    }

    /// The course that it began last, if it began one.
    pub fn course(&self) -> Option<&Shared<Course>>
        ensures { option_map (λ course. course.now) result ≡ self.now.leader.course }
    {
        self.course.as_ref()
    }

    /// How many bytes of its stream of frames wait for the rest of their frame: 0 if the stream can end
    /// here, or a fault has ended it.
    pub fn waiting(&self) -> usize
        ensures { result ≡ length self.now.feed.waiting }
    {
        self.feed.waiting()
    }

    /// Whether a course is begun, all its sub-plans are opened, and the last one is done.
    pub fn finished(&self) -> bool
        ensures { IsTrue result ↔ IsFinished self.now.leader }
    {
        self.leader.finished()
    }
}
