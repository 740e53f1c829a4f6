//! What nodes do by themselves.

ghost use Rattle.std.specs.Prelude.{◌≡◌, ◌<◌, ◌↔◌, ◌++◌, ◌∷◌, [], length, IsTrue, IfOk, OnOk, vec_len, vec_capacity};
ghost use Rattle.std.specs.Arc.{arc_value};
ghost use Rattle.std.specs.List.{list_any};
ghost use Rattle.std.specs.Result.{result_map_both};
ghost use Rattle.squall_part.specs.Parts.{PartValue};
ghost use Rattle.squall_part.specs.Giving.{IsGiven, IsGivenAt};
ghost use Rattle.squall_leader.specs.Leaders.{LeaderValue, IsFinished};
ghost use Rattle.squall_world.specs.declared.peer.Role.TheVariants.{Leader as LeaderRole, Part as PartRole};
ghost use Rattle.squall_world.specs.Nets.{noted};
ghost use Rattle.squall_world.specs.Acts.{IsPartPeer, IsLeaderPeer, Gives, Closes, Loads, Finishes, Opens, Begins, HasKeys, Loses, takes};

use crate::counts::{make_room, note};
use crate::peer::{Peer, Role};
use crate::reports::again;
use squall_course::{Course, Move};
use squall_key::Key;
use squall_leader::LeaderFault;
use squall_part::{Chunk, FinishFault, GiveFault, Load, LoadFault};
use squall_plan::{Plan, PlanRange};
use squall_report::{Report, ReportKind};
use squall_span::SpanSet;
use std::alloc::{AllocError, Global};
use std::sync::Arc;

/// Room for one more report of the node at the place.
fn room(reports: &mut Vec<Report>, known: &mut Vec<usize>, at: usize) -> Result<(), AllocError>
    ensures reports { reports.new.items ≡ reports.old.items }
    ensures known { known.new.items ≡ known.old.items }
    ensures room { OnOk result (vec_len reports.new < vec_capacity reports.new) }
    ensures place { OnOk result (at < vec_capacity known.new) }
{
    reports.reserve(1)?;
    make_room(known, at)
}

/// Keeps a report of the node at the place, in room that was made.
fn keep(reports: &mut Vec<Report>, known: &mut Vec<usize>, at: usize, report: Report)
    requires room { vec_len reports.old < vec_capacity reports.old }
    requires place { at < vec_capacity known.old }
    ensures reports { reports.new.items ≡ reports.old.items ++ report ∷ [] }
    ensures known { known.new.items ≡ noted at (length (reports.old.items ++ report ∷ [])) known.old.items }
{
    reports.push_reserved(report);
    note(known, at, reports.len());
}

/// Whether the move takes keys of the range from its partition.
fn takes(one: &Move, range: &PlanRange) -> bool
    ensures { result ≡ takes one.now range.now }
{
    one.source == range.part && one.span.lo() < range.span.hi() && range.span.lo() < one.span.hi()
}

/// Whether one of the moves takes keys of the range from its partition.
fn any_takes(moves: &[Move], range: &PlanRange) -> bool
    ensures { result ≡ list_any (λ m. takes m range.now) moves.now }
{
    moves.iter().any(|one| takes(one, range))
}

/// Whether a key of the range is to leave its partition by the course.
fn loses(course: &Course, range: &PlanRange) -> bool
    ensures { IsTrue result ↔ Loses course.now range.now }
{
    // The proof learns that the range has a key.
    let _lo = range.span.lo();
    any_takes(course.moves(), range)
}

impl Peer {
    /// A partition sends the first keys, at most `max`, that are to go.
    pub(crate) fn give(&mut self, max: u64) -> Result<Chunk, GiveFault>
        requires { IsPartPeer self.old }
        ensures { Gives (λ a r b. IsGiven a max r b) self.old result self.new }
    {
        let Role::Part(part) = &mut self.role else {
            unreachable!();
        };
        let given = part.give(max);
        // The proof learns that it is a partition still.
        part.known();
        given
    }

    /// A partition sends one key.
    pub(crate) fn give_at(&mut self, key: Key) -> Result<Chunk, GiveFault>
        requires { IsPartPeer self.old }
        ensures { Gives (λ a r b. IsGivenAt a key r b) self.old result self.new }
    {
        let Role::Part(part) = &mut self.role else {
            unreachable!();
        };
        let given = part.give_at(key);
        part.known();
        given
    }

    /// A partition gives no more in its newest course, whose number is the answer.
    pub(crate) fn close(&mut self) -> u32
        requires { IsPartPeer self.old }
        ensures { Closes self.old result self.new }
    {
        let Role::Part(part) = &mut self.role else {
            unreachable!();
        };
        let number = part.close();
        // The proof learns that it is a partition still.
        part.known();
        number
    }

    /// Whether a partition holds the keys of the range, and gives no more in the course if one of
    /// them is to leave it by that.
    pub(crate) fn has_range(
        &self,
        alloc: Global,
        course: &Course,
        range: &PlanRange,
    ) -> Result<bool, AllocError>
        requires { IsPartPeer self.now }
        ensures { IfOk result (λ has. (a : PartValue) → self.now.role ≡ PartRole a → IsTrue has ↔ HasKeys course.now a range.now) }
    {
        let Role::Part(part) = &self.role else {
            unreachable!();
        };
        let keys = SpanSet::of(alloc, &range.span)?;
        // The proof learns that the span has keys.
        keys.known();
        if !part.held().covers(&keys) {
            return Ok(false);
        }
        Ok(part.closed(course.number()) || !loses(course, range))
    }

    /// A partition takes a chunk, and keeps the report that it makes.
    pub(crate) fn load(&mut self, at: usize, chunk: &Chunk) -> Result<Load, LoadFault>
        requires { IsPartPeer self.old }
        ensures { Loads at self.old chunk.now result self.new }
    {
        room(&mut self.reports, &mut self.known, at)?;
        let Role::Part(part) = &mut self.role else {
            unreachable!();
        };
        let load = part.load(chunk)?;
        part.known();
        if let Load::Loaded(report) = &load {
            keep(&mut self.reports, &mut self.known, at, again(report));
        }
        Ok(load)
    }

    /// A partition reports that it has all keys of the sub-plan, and keeps that report.
    pub(crate) fn finish(&mut self, at: usize, sub: u32) -> Result<Report, FinishFault>
        requires { IsPartPeer self.old }
        ensures { Finishes at self.old sub result self.new }
    {
        room(&mut self.reports, &mut self.known, at)?;
        let Role::Part(part) = &mut self.role else {
            unreachable!();
        };
        let report = part.finish(sub)?;
        part.known();
        keep(&mut self.reports, &mut self.known, at, again(&report));
        Ok(report)
    }

    /// A leader opens the next sub-plan, and keeps that report.
    pub(crate) fn open_next(&mut self) -> Result<u32, LeaderFault>
        requires { IsLeaderPeer self.old }
        ensures { Opens self.old result self.new }
    {
        room(&mut self.reports, &mut self.known, 0)?;
        let Role::Leader(leader) = &mut self.role else {
            unreachable!();
        };
        let report = leader.open_next()?;
        leader.known();
        let ReportKind::Opened { sub, .. } = report.kind() else {
            unreachable!();
        };
        keep(&mut self.reports, &mut self.known, 0, report);
        Ok(sub)
    }

    /// Whether the course that a leader began last is over.
    pub(crate) fn finished(&self) -> bool
        requires { IsLeaderPeer self.now }
        ensures { (a : LeaderValue) → self.now.role ≡ LeaderRole a → IsTrue result ↔ IsFinished a }
    {
        let Role::Leader(leader) = &self.role else {
            unreachable!();
        };
        leader.finished()
    }

    /// How many sub-plans of the course begun last a leader has opened.
    pub(crate) fn opened(&self) -> u32
        requires { IsLeaderPeer self.now }
        ensures { (a : LeaderValue) → self.now.role ≡ LeaderRole a → result ≡ a.opened }
    {
        let Role::Leader(leader) = &self.role else {
            unreachable!();
        };
        leader.opened()
    }

    /// A leader begins a course between the plans, and keeps the report that issues it.
    pub(crate) fn begin(
        &mut self,
        old: &Plan,
        new: &Plan,
        report: Report,
    ) -> Result<Arc<Course>, LeaderFault>
        requires { IsLeaderPeer self.old }
        ensures { Begins self.old old.now new.now report (result_map_both (λ course. arc_value course) (λ fault. fault) result) self.new }
    {
        room(&mut self.reports, &mut self.known, 0)?;
        let Role::Leader(leader) = &mut self.role else {
            unreachable!();
        };
        let course = leader.begin_from(old, new)?;
        leader.known();
        keep(&mut self.reports, &mut self.known, 0, report);
        Ok(course)
    }
}
