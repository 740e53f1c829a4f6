//! What a world is asked, and what may happen in it.

ghost use Rattle.std.specs.Prelude.{◌≡◌, ◌<◌, ◌≤◌, ◌↔◌, ℕ, length, take, IfOk, IfErr, OnOk, OnErr};
ghost use Rattle.std.specs.Arc.{arc_value};
ghost use Rattle.squall_world.specs.declared.steps.WorldFault.TheVariants.{NoMemory, TooManyRouters};
ghost use Rattle.squall_plan.specs.Ranges.{IsCanonical, AreRanges};
ghost use Rattle.squall_protocol.specs.Worlds.{most_routers, start, SameWorld};
ghost use Rattle.squall_protocol.specs.Steps.{OpenStep, BeginStep, BeginFromStep, CloseStep, GiveStep, GiveAtStep, LoadStep, FinishStep};
ghost use Rattle.squall_protocol.specs.Steps.{SendStep, SendPartStep, DeliverStep, RouteStep, ServeStep, Step};
ghost use Rattle.squall_protocol.specs.Promises.{IsReached};
ghost use Rattle.squall_world.specs.Runs.{IsRun};
ghost use Rattle.squall_world.specs.Views.{view};

use crate::net::Net;
use crate::world::World;
use squall_board::Board;
use squall_course::Course;
use squall_key::{Key, PartId};
use squall_plan::Plan;
use squall_protocol::{Answer, Event, Node};
use std::alloc::{AllocError, Global};
use std::sync::Arc;
use thiserror::Error;

/// The most routers that a world may have.
pub const MOST_ROUTERS: u32 = 1000;

/// Why there is no such world.
#[derive(Debug, Drop, Error)]
pub enum WorldFault {
    /// More than [`MOST_ROUTERS`] routers.
    #[error("TooManyRouters")]
    TooManyRouters,
    /// An allocation failed.
    #[error("NoMemory")]
    NoMemory,
}

impl From<AllocError> for WorldFault {
    ghost from_gives = { λ _ e. e ≡ NoMemory };

    fn from(_error: AllocError) -> WorldFault {
        WorldFault::NoMemory
    }
}

/// That a world may have this many routers.
fn may_have(routers: u32) -> Result<(), WorldFault>
    ensures few { OnOk result (routers ≤ most_routers) }
    ensures err { IfErr result (λ e. (e ≡ TooManyRouters) × (most_routers < routers)) }
{
    if routers > MOST_ROUTERS {
        return Err(WorldFault::TooManyRouters);
    }
    Ok(())
}

/// The course of number 1 between the plans, to be shared.
fn first_course(alloc: Global, old: &Plan, new: &Plan) -> Result<Arc<Course>, AllocError>
    ensures { IfOk result (λ course. arc_value course ≡ record { number = 1; old = old.now; new = new.now }) }
{
    let course = Course::first(alloc, old, new)?;
    Ok(Arc::new(alloc, course)?)
}

/// Changes nothing. A proof learns from it what holds of the ranges of a plan.
fn know_plan(plan: &Plan)
    ensures canonical { IsCanonical plan.now }
    ensures ranges { AreRanges plan.now }
{
    let _ranges = plan.ranges();
}

impl World {
    /// The world in which course 1, from the old plan to the new one, is begun. Each key lies at
    /// its partition of the old plan. The world has one partition node for each partition that a
    /// plan names, and this many routers.
    ///
    /// `TooManyRouters` above [`MOST_ROUTERS`], whatever memory there is; or `NoMemory`.
    pub fn new(alloc: Global, old: &Plan, new: &Plan, routers: u32) -> Result<World, WorldFault>
        ensures ok { IfOk result (λ w. SameWorld (view w) (start old.now new.now routers)) }
        ensures reached { IfOk result (λ w. IsReached (view w)) }
        ensures routers { OnOk result (routers ≤ most_routers) }
        ensures err { IfErr result (λ e. (e ≡ TooManyRouters) ↔ (most_routers < routers)) }
    {
        may_have(routers)?;
        let first = first_course(alloc, old, new)?;
        World::over(alloc, &first, routers)
    }

    /// [`World::new`] of the plans of a course of number 1, which is shared and not computed again.
    pub fn over(alloc: Global, first: &Arc<Course>, routers: u32) -> Result<World, WorldFault>
        requires { (arc_value first.now).number ≡ 1 }
        ensures ok { IfOk result (λ w. SameWorld (view w) (start (arc_value first.now).old (arc_value first.now).new routers)) }
        ensures reached { IfOk result (λ w. IsReached (view w)) }
        ensures routers { OnOk result (routers ≤ most_routers) }
        ensures err { IfErr result (λ e. (e ≡ TooManyRouters) ↔ (most_routers < routers)) }
    {
        may_have(routers)?;
        let net = Net::new(alloc, first, routers)?;
        Ok(World { net })
    }

    /// How many partitions there are.
    pub fn parts(&self) -> usize
        ensures { result ≡ length (view self.now).parts }
    {
        self.net.parts()
    }

    /// The leader opens the next sub-plan of the course begun last: `Opened`. Refused as `NotDone`
    /// while a partition is waited for, and as `NoMore` after the last. As with each call here, an
    /// error means that an allocation failed, or that a count of owners is full. Nothing has then
    /// changed.
    pub fn open_next(&mut self) -> Result<Answer, AllocError>
        ensures ok { IfOk result (λ answer. OpenStep (view self.old) answer (view self.new)) }
        ensures err { OnErr result (self.new ≡ self.old) }
    {
        self.net.open_next()
    }

    /// The leader begins a course from the newest plan to this one: `Begun`. The partitions that
    /// this plan is the first to name are added. Refused as `Running` while the course begun last
    /// is not over, and as `NoNumber` if the greatest number is used.
    pub fn begin(&mut self, plan: &Plan) -> Result<Answer, AllocError>
        ensures ok { IfOk result (λ answer. BeginStep (view self.old) plan.now answer (view self.new)) }
        ensures err { OnErr result (self.new ≡ self.old) }
    {
        self.net.begin(plan)
    }

    /// The leader begins a course between these plans, whether or not the course begun last is over:
    /// `Begun`. The partitions that the new plan is the first to name are added. Refused as `Running`
    /// if the old plan has a key elsewhere than where the course begun last leaves it. That is so if
    /// the key's partition does not hold it, or may still give it. Refused as `NoNumber` if the
    /// greatest number is used.
    pub fn begin_from(&mut self, old: &Plan, new: &Plan) -> Result<Answer, AllocError>
        ensures ok { IfOk result (λ answer. BeginFromStep (view self.old) old.now new.now answer (view self.new)) }
        ensures err { OnErr result (self.new ≡ self.old) }
    {
        know_plan(old);
        self.net.begin_from(old, new)
    }

    /// The partition gives no more in the newest course that it knows: `Closed`. Refused as `NoSuch`.
    /// It takes no memory.
    pub fn close(&mut self, part: PartId) -> Answer
        ensures { CloseStep (view self.old) part result (view self.new) }
    {
        self.net.close(part)
    }

    /// The partition sends the first keys, at most `max`, that are to go in the sub-plan opened
    /// last: `Gave`. Refused as `NoSuch`, `NotOpen`, `Ended`, `NothingLeft` or `ZeroMax`.
    pub fn give(&mut self, part: PartId, max: u64) -> Result<Answer, AllocError>
        ensures ok { IfOk result (λ answer. GiveStep (view self.old) part max answer (view self.new)) }
        ensures err { OnErr result (self.new ≡ self.old) }
    {
        self.net.give(part, max)
    }

    /// The partition sends one key: `Gave`. Refused as `NoSuch`, `NotOpen`, `Ended`, `NotOutgoing`,
    /// `Given` or `NotHeld`.
    pub fn give_at(&mut self, part: PartId, key: Key) -> Result<Answer, AllocError>
        ensures ok { IfOk result (λ answer. GiveAtStep (view self.old) part key answer (view self.new)) }
        ensures err { OnErr result (self.new ≡ self.old) }
    {
        self.net.give_at(part, key)
    }

    /// The chunk of that index comes to its destination: `Loaded`, or `Again` if each of its keys
    /// was loaded before. Refused as `NoSuch`, `NotOpen` or `Stranger`.
    pub fn load(&mut self, chunk: usize) -> Result<Answer, AllocError>
        ensures ok { IfOk result (λ answer. LoadStep (view self.old) chunk answer (view self.new)) }
        ensures err { OnErr result (self.new ≡ self.old) }
    {
        self.net.load(chunk)
    }

    /// The partition reports that it has all keys of the sub-plan: `Finished`. Refused as `NoSuch`,
    /// `NotOpen`, `NotAll` or `NothingDue`.
    pub fn finish(&mut self, part: PartId, sub: u32) -> Result<Answer, AllocError>
        ensures ok { IfOk result (λ answer. FinishStep (view self.old) part sub answer (view self.new)) }
        ensures err { OnErr result (self.new ≡ self.old) }
    {
        self.net.finish(part, sub)
    }

    /// What the node has heard and reported itself becomes the next message: `Sent`. Refused as `NoSuch`.
    pub fn send(&mut self, node: Node) -> Result<Answer, AllocError>
        ensures ok { IfOk result (λ answer. SendStep (view self.old) node answer (view self.new)) }
        ensures err { OnErr result (self.new ≡ self.old) }
    {
        self.net.send(node)
    }

    /// What the board tells becomes the next message: `Sent`. It may be any part of what the node has
    /// heard and reported itself: one report, a delta, a piece or a repair. Refused as `NoSuch`, and
    /// as `NotKnown` if the node does not know all of it.
    pub fn send_part(&mut self, node: Node, said: &Board) -> Result<Answer, AllocError>
        ensures ok { IfOk result (λ answer. SendPartStep (view self.old) node said.now answer (view self.new)) }
        ensures err { OnErr result (self.new ≡ self.old) }
    {
        self.net.send_part(node, said)
    }

    /// The message of that index comes to the node: `Delivered`. Refused as `NoSuch`.
    pub fn deliver(&mut self, message: usize, node: Node) -> Result<Answer, AllocError>
        ensures ok { IfOk result (λ answer. DeliverStep (view self.old) message node answer (view self.new)) }
        ensures err { OnErr result (self.new ≡ self.old) }
    {
        self.net.deliver(message, node)
    }

    /// The partition to which the router sends the key: `Routed`. Refused as `NoSuch`. It takes no memory.
    pub fn route(&self, router: u32, key: Key) -> Answer
        ensures { RouteStep (view self.now) router key result (view self.now) }
    {
        self.net.route(router, key)
    }

    /// What the partition replies for the key, asked with the number of the last move that was
    /// followed: `Served`. Refused as `NoSuch`. It takes no memory.
    pub fn serve(&self, part: PartId, key: Key, after: u32) -> Answer
        ensures { ServeStep (view self.now) part key after result (view self.now) }
    {
        self.net.serve(part, key, after)
    }

    /// Answers as the method of the event's name does.
    fn answer(&mut self, event: &Event) -> Result<Answer, AllocError>
        ensures ok { IfOk result (λ answer. Step (view self.old) event.now answer (view self.new)) }
        ensures err { OnErr result (self.new ≡ self.old) }
    {
        match event {
            Event::OpenNext => self.open_next(),
            Event::Begin(plan) => self.begin(plan),
            Event::BeginFrom(old, new) => self.begin_from(old, new),
            Event::Close(part) => Ok(self.close(*part)),
            Event::Give(part, max) => self.give(*part, *max),
            Event::GiveAt(part, key) => self.give_at(*part, *key),
            Event::Load(chunk) => self.load(*chunk),
            Event::Finish(part, sub) => self.finish(*part, *sub),
            Event::Send(node) => self.send(*node),
            Event::SendPart(node, said) => self.send_part(*node, said),
            Event::Deliver(message, node) => self.deliver(*message, *node),
            Event::Route(router, key) => Ok(self.route(*router, *key)),
            Event::Serve(part, key, after) => Ok(self.serve(*part, *key, *after)),
        }
    }

    /// Takes an event, and answers as the method of its name does. The world is then one to which a
    /// run leads, as every world is (`World::promised`).
    pub fn step(&mut self, event: &Event) -> Result<Answer, AllocError>
        ensures ok { IfOk result (λ answer. Step (view self.old) event.now answer (view self.new)) }
        ensures err { OnErr result (self.new ≡ self.old) }
        ensures reached { IsReached (view self.new) }
    {
        let answer = self.answer(event);
        self.promised();
        answer
    }

    /// Takes the events one after another, and adds their answers to the list. If an allocation
    /// fails, the events whose answers were added took effect, and no others.
    pub fn run(&mut self, events: &[Event], answers: &mut Vec<Answer>) -> Result<(), AllocError>
        ensures ok { OnOk result (IsRun (view self.old) events.now answers.old.items (view self.new) answers.new.items) }
        ensures err { OnErr result ((n : ℕ) × (n < length events.now)
            × IsRun (view self.old) (take n events.now) answers.old.items (view self.new) answers.new.items) }
        ensures reached { IsReached (view self.new) }
    {
        self.promised();
        for event in events {
            answers.reserve(1)?;
            let answer = self.step(event)?;
            answers.push_reserved(answer);
        }
        Ok(())
    }
}
