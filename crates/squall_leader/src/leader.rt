//! The leader.

ghost use Rattle.std.specs.Prelude.{◌≡◌, ◌<◌, ◌≤◌, ◌↔◌, ◌^◌, ◌+◌, ◌-◌, OnOk, OnErr, IfOk, IfErr, IsTrue};
ghost use Rattle.std.specs.Result.{result_map_both};
ghost use Rattle.std.specs.Arc.{arc_value};
ghost use Rattle.squall_report.specs.declared.report.ReportKind.TheVariants.{Issued};
ghost use Rattle.squall_report.specs.Issues.{plan_pair};
ghost use Rattle.squall_board.specs.Takes.{TakesBoard};
ghost use Rattle.squall_board.specs.Boards.{board_join};
ghost use Rattle.squall_protocol.specs.Known.{last_number};
ghost use Rattle.squall_leader.specs.declared.fault.LeaderFault.TheVariants.{NoNumber};
ghost use Rattle.squall_leader.specs.Leaders.{IsLeader, IsOver, IsRunning, IsBegun, IsBegunFrom, IsOpened, IsFinished, new_leader, after_begin};
ghost use Rattle.squall_leader.specs.Waiting.{IsWaited, IsOpening};

use crate::fault::LeaderFault;
use crate::waiting::waited_for;
use squall_board::{Board, Delta};
use squall_course::{Course, CourseFault};
use squall_join::Shared;
use squall_key::PartId;
use squall_plan::Plan;
use squall_report::{Issue, Report};
use std::alloc::{AllocError, Global};
use std::marker::Model;
use std::sync::Arc;

/// The leader: it begins one reconfiguration after another, each from the plan to which the one
/// before it led. It opens the sub-plans of each in turn. Before it opens the next one, all
/// partitions that receive keys in the sub-plan before have reported that they have all of them.
///
/// Contracts see a leader as its newest plan, the last number used, the course begun last, the
/// count of its opened sub-plans, and its board.
#[derive(Drop)]
pub struct Leader {
    plan: Plan,
    last: u32,
    course: Option<Shared<Course>>,
    opened: u32,
    board: Board,
    alloc: Global,
}

impl Model for Leader {
    ghost use Rattle.squall_leader.specs.Leaders.{LeaderValue, IsLeader};

    ghost Value = { LeaderValue };

    ghost view = { λ l. record { plan = l.plan; last = l.last; course = l.course; opened = l.opened; board = l.board } };

    ghost invariant = { λ l. IsLeader (record { plan = l.plan; last = l.last; course = l.course; opened = l.opened; board = l.board }) };
}

/// The course of the number from the old plan to the new one, to be shared.
fn new_course(alloc: Global, number: u32, old: &Plan, new: &Plan) -> Result<Arc<Course>, AllocError>
    requires { 1 ≤ number }
    ensures { IfOk result (λ course. arc_value course ≡ record { number = number; old = old.now; new = new.now }) }
{
    let course = match Course::new(alloc, number, old, new) {
        Ok(course) => course,
        Err(CourseFault::ZeroNumber) => unreachable!(),
        Err(CourseFault::NoMemory) => return Err(AllocError),
    };
    let course = Arc::new(alloc, course)?;
    Ok(course)
}

/// The report that the reconfiguration of the number leads from the old plan to the new one.
fn issue_report(alloc: Global, number: u32, old: &Plan, new: &Plan) -> Result<Report, AllocError>
    requires { 1 ≤ number }
    ensures { IfOk result (λ report. report ≡ Issued number (plan_pair old.now new.now)) }
{
    let issue = Issue::new(alloc, old, new)?;
    Ok(Report::issued(number, issue).unwrap())
}

impl Leader {
    /// A leader that has begun nothing, of data that is placed as the plan says. Its first
    /// reconfiguration will have the number 1. An error means that an allocation failed.
    pub fn new(alloc: Global, plan: &Plan) -> Result<Leader, AllocError>
        ensures { IfOk result (λ l. l ≡ new_leader plan.now 0) }
    {
        Leader::after(alloc, plan, 0)
    }

    /// A leader that has begun nothing, if numbers up to `last` were used before. An error means
    /// that an allocation failed.
    pub fn after(alloc: Global, plan: &Plan, last: u32) -> Result<Leader, AllocError>
        ensures { IfOk result (λ l. l ≡ new_leader plan.now last) }
    {
        let plan = plan.copied(alloc)?;
        Ok(Leader {
            plan,
            last,
            course: None,
            opened: 0,
            board: Board::new(alloc),
            alloc,
        })
    }

    /// A leader that has begun the course, as [`Leader::begin`] leaves it if the course is the
    /// first that it begins. The course is shared, and not computed again. An error means that an
    /// allocation failed, or that a count of owners is full.
    pub fn begun(alloc: Global, course: &Arc<Course>) -> Result<Leader, AllocError>
        ensures { IfOk result (λ l. l ≡ after_begin (new_leader (arc_value course.now).old ((arc_value course.now).number - 1)) (arc_value course.now)) }
    {
        let (number, new) = (course.number(), course.new_plan());
        let issued = issue_report(alloc, number, course.old_plan(), new)?;
        let mut board = Board::new(alloc);
        board.take(&issued)?;
        // The proof learns that what took a report is a board.
        board.known();
        Ok(Leader {
            plan: new.copied(alloc)?,
            last: number,
            course: Some(Shared::new(Arc::try_clone(course)?)),
            opened: 0,
            board,
            alloc,
        })
    }

    /// Changes nothing: after it a proof knows what holds of every leader.
    pub fn known(&self)
        ensures leader { IsLeader self.now }
        ensures number { self.now.last ≤ 2 ^ 32 - 1 }
    {
        let _last = self.last;
    }

    /// Whom the leader waits for before it opens or begins anything, with the sub-plan opened last.
    fn waited_after(&self, course: &Course) -> Option<(u32, PartId)>
        ensures { IsWaited self.now course.now result }
    {
        let sub = self.opened.checked_sub(1)?;
        let part = waited_for(course, &self.board, sub)?;
        Some((sub, part))
    }

    /// Whether all sub-plans of the course are opened, and the last one is done.
    fn is_over(&self, course: &Course) -> bool
        ensures { IsTrue result ↔ IsOver self.now course.now }
    {
        self.opened == course.subplans() && self.waited_after(course).is_none()
    }

    /// Whether a course is begun, and it is not over.
    fn is_running(&self) -> bool
        ensures { IsTrue result ↔ IsRunning self.now }
    {
        match &self.course {
            Some(course) => !self.is_over(course.as_arc()),
            None => false,
        }
    }

    /// The report that opens the next sub-plan, or why there is none.
    fn opening(&self) -> Result<Report, LeaderFault>
        ensures { IsOpening self.now result }
    {
        let Some(course) = &self.course else {
            return Err(LeaderFault::Idle);
        };
        let course = course.as_arc();
        if let Some((sub, part)) = self.waited_after(course) {
            return Err(LeaderFault::NotDone { sub, part });
        }
        if self.opened == course.subplans() {
            return Err(LeaderFault::NoMore);
        }
        Ok(Report::opened(course.number(), self.opened).unwrap())
    }

    /// The number of the next course, the last one plus 1. `NoNumber` if the greatest is used.
    fn next_number(&self) -> Result<u32, LeaderFault>
        ensures ok { IfOk result (λ number. (number ≡ self.now.last + 1) × (self.now.last < last_number)) }
        ensures err { IfErr result (λ fault. (fault ≡ NoNumber) × (self.now.last ≡ last_number)) }
    {
        match self.last.checked_add(1) {
            Some(number) => Ok(number),
            None => Err(LeaderFault::NoNumber),
        }
    }

    /// Begins the course. The leader's own board takes the report that issues it. An error leaves
    /// the leader unchanged.
    fn start(&mut self, course: Arc<Course>) -> Result<Arc<Course>, AllocError>
        ensures ok { IfOk result (λ given. (arc_value given ≡ arc_value course) × (self.new ≡ after_begin self.old (arc_value course))) }
        ensures err { OnErr result (self.new ≡ self.old) }
    {
        let (number, new) = (course.number(), course.new_plan());
        let issued = issue_report(self.alloc, number, course.old_plan(), new)?;
        let newest = new.copied(self.alloc)?;
        let given = Arc::try_clone(&course)?;
        self.board.take(&issued)?;
        // The proof learns that what took a report is a board.
        self.board.known();
        self.plan = newest;
        self.last = number;
        self.course = Some(Shared::new(course));
        self.opened = 0;
        Ok(given)
    }

    /// Begins the reconfiguration that leads from the newest plan to another, under the last number
    /// plus 1. The leader's own board takes the report that issues it.
    ///
    /// `Running` while the course begun last is not over, then `NoNumber` if the greatest number is
    /// used. `NoMemory` if an allocation failed or a count of owners is full. A fault leaves the
    /// leader unchanged.
    pub fn begin(&mut self, plan: &Plan) -> Result<Arc<Course>, LeaderFault>
        ensures answer { IsBegun self.old plan.now (result_map_both (λ course. arc_value course) (λ fault. fault) result) self.new }
    {
        if self.is_running() {
            return Err(LeaderFault::Running);
        }
        let number = self.next_number()?;
        let course = new_course(self.alloc, number, &self.plan, plan)?;
        Ok(self.start(course)?)
    }

    /// Begins the reconfiguration that leads from the old plan to the new one, under the last number
    /// plus 1. The leader's own board takes the report that issues it. The course begun last may
    /// end early so: it need not be over.
    ///
    /// The caller makes sure that the old plan has each key where the course begun last leaves it.
    /// So each partition holds the keys that the old plan gives it. It has closed the course begun
    /// last if such a key was to leave it. What was given must be loaded. What each partition
    /// answers to this stays true, so they may be asked one after another.
    ///
    /// `NoNumber` if the greatest number is used. `NoMemory` if an allocation failed or a count of
    /// owners is full. A fault leaves the leader unchanged.
    pub fn begin_from(&mut self, old: &Plan, new: &Plan) -> Result<Arc<Course>, LeaderFault>
        ensures answer { IsBegunFrom self.old old.now new.now (result_map_both (λ course. arc_value course) (λ fault. fault) result) self.new }
    {
        let number = self.next_number()?;
        let course = new_course(self.alloc, number, old, new)?;
        Ok(self.start(course)?)
    }

    /// Opens the next sub-plan of the course begun last. The leader's own board takes the report.
    ///
    /// `Idle` if no course is begun. `NotDone` with the least partition that is waited for.
    /// `NoMore` if all sub-plans are opened and the last one is done. The fault is the first of
    /// these that is so; or `NoMemory`. A fault leaves the leader unchanged.
    pub fn open_next(&mut self) -> Result<Report, LeaderFault>
        ensures answer { IsOpened self.old result self.new }
    {
        let report = self.opening()?;
        self.board.take(&report)?;
        // The proof learns that what took a report is a board.
        self.board.known();
        self.opened += 1;
        Ok(report)
    }

    /// Whether a course is begun and over. It is over once all its sub-plans are opened and the
    /// last one is done: all partitions that receive keys in it have reported that they have all. A
    /// course without sub-plans is over at once.
    pub fn finished(&self) -> bool
        ensures { IsTrue result ↔ IsFinished self.now }
    {
        match &self.course {
            Some(course) => self.is_over(course.as_arc()),
            None => false,
        }
    }

    /// Takes every report of the delta. It changes only the board. An error means that an
    /// allocation failed, or that a count of owners is full. The leader is then unchanged.
    pub fn absorb(&mut self, delta: &Delta) -> Result<(), AllocError>
        ensures ok { OnOk result (self.new ≡ record self.old { board = board_join self.old.board delta.now }) }
        ensures takes { OnOk result (TakesBoard self.old.board delta.now self.new.board) }
        ensures err { OnErr result (self.new ≡ self.old) }
    {
        let merged = self.board.merge(delta);
        // The proof learns that what took a delta is a board.
        self.board.known();
        merged
    }

    /// How many sub-plans of the course begun last it has opened; 0 if none is begun.
    pub fn opened(&self) -> u32
        ensures { result ≡ self.now.opened }
    {
        self.opened
    }

    /// What it has heard, and what it reported itself.
    pub fn board(&self) -> &Board
        ensures { result.now ≡ self.now.board }
    {
        &self.board
    }
}
