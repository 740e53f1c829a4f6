//! A world in which entries are taken one by one.

ghost use Rattle.std.specs.Prelude.{◌≡◌, ◌↔◌, ◌<◌, IfOk, IfErr};
ghost use Rattle.squall_report.specs.Queries.{queries_by_report};
ghost use Rattle.squall_protocol.specs.Worlds.{is_node, most_routers, start, SameWorld};
ghost use Rattle.squall_protocol.specs.Promises.{IsReached};
ghost use Rattle.squall_audit.specs.Lines.{Own, Gift, Arrival, Hearing};
ghost use Rattle.squall_world.specs.declared.steps.WorldFault.TheVariants.{TooManyRouters};
ghost use Rattle.squall_world.specs.Views.{view};
ghost use Rattle.squall_judge.specs.Entries.{line_of};
ghost use Rattle.squall_judge.specs.Turns.{IsTurn, IsMade};
ghost use Rattle.squall_judge.specs.Stages.{KnowsChunks};

use crate::given::Given;
use crate::log::Entry;
use crate::same_answer::{same_answer, same_chunk};
use crate::turn::{
    Turn, board_of, gift_of, is_gift, is_no_such, is_not_yet, is_place, origin_of, same_node,
    sent_index,
};
use squall_audit::laws::what_comes_happens;
use squall_key::Key;
use squall_plan::Plan;
use squall_protocol::{Answer, Chunk, Event, Node, Refusal};
use squall_report::Report;
use squall_world::{World, WorldFault};
use std::alloc::{AllocError, Global};

/// The world as far as entries were taken, and the chunks that were given in it.
#[derive(Drop)]
pub(crate) struct Stage {
    alloc: Global,
    pub(crate) world: World,
    pub(crate) chunks: Given,
}

/// Whether the node is there. One that is not refuses each question as `NoSuch`.
pub(crate) fn is_there(world: &World, node: &Node) -> bool
    ensures { result ≡ is_node (view world.now) node.now }
{
    let key = Key::of_rank(0).unwrap();
    let answer = match node {
        Node::Leader => return true,
        Node::Part(part) => world.serve(*part, key, 0),
        Node::Router(router) => world.route(*router, key),
    };
    !matches!(answer, Answer::Refused(Refusal::NoSuch))
}

impl Stage {
    /// The world as it begins, in which no chunk was given.
    pub(crate) fn new(
        alloc: Global,
        old: &Plan,
        new: &Plan,
        routers: u32,
    ) -> Result<Stage, WorldFault>
        ensures start { IfOk result (λ s. SameWorld (view s.world) (start old.now new.now routers)) }
        ensures reached { IfOk result (λ s. IsReached (view s.world)) }
        ensures known { IfOk result (λ s. KnowsChunks s) }
        ensures err { IfErr result (λ e. (e ≡ TooManyRouters) ↔ (most_routers < routers)) }
    {
        let world = World::new(alloc, old, new, routers)?;
        Ok(Stage {
            alloc,
            world,
            chunks: Given::none(alloc),
        })
    }

    /// Makes the event at the node. None if it cannot happen there now.
    fn happen(&mut self, node: &Node, event: &Event) -> Result<Option<Answer>, AllocError>
        ensures ok { IfOk result (λ made. IsMade (view self.old.world) node.now event.now made (view self.new.world)) }
        ensures chunks { self.new.chunks ≡ self.old.chunks }
    {
        if !is_place(event, node) {
            return Ok(None);
        }
        let answer = self.world.step(event)?;
        if is_not_yet(event, &answer) {
            return Ok(None);
        }
        Ok(Some(answer))
    }

    /// Takes the entry of an event that was so answered, and gave nothing.
    fn own(&mut self, node: &Node, event: &Event, answer: &Answer) -> Result<Turn, AllocError>
        requires { KnowsChunks self.old }
        ensures { IfOk result (λ turn. IsTurn (view self.old.world) node.now (Own event.now answer.now) turn (view self.new.world) self.new.chunks) }
    {
        let Some(got) = self.happen(node, event)? else {
            return Ok(Turn::Waits);
        };
        if is_gift(&got) {
            return Ok(Turn::Never);
        }
        if !same_answer(&got, answer) {
            return Ok(Turn::Never);
        }
        Ok(Turn::Taken)
    }

    /// Takes the entry of an event that gave the chunk.
    fn gift(&mut self, node: &Node, event: &Event, chunk: Chunk) -> Result<Turn, AllocError>
        requires { KnowsChunks self.old }
        ensures { IfOk result (λ turn. IsTurn (view self.old.world) node.now (Gift event.now chunk) turn (view self.new.world) self.new.chunks) }
    {
        let Some(got) = self.happen(node, event)? else {
            return Ok(Turn::Waits);
        };
        let Some(given) = gift_of(&got) else {
            return Ok(Turn::Never);
        };
        if !same_chunk(given, chunk) {
            return Ok(Turn::Never);
        }
        self.chunks.push(given)?;
        Ok(Turn::Taken)
    }

    /// Takes the entry of a chunk that came, and was so answered. The chunk is found by what is in it.
    fn arrival(&mut self, node: &Node, chunk: Chunk, answer: &Answer) -> Result<Turn, AllocError>
        requires { KnowsChunks self.old }
        ensures { IfOk result (λ turn. IsTurn (view self.old.world) node.now (Arrival chunk answer.now) turn (view self.new.world) self.new.chunks) }
    {
        if !same_node(node, &Node::Part(chunk.dest())) {
            return Ok(Turn::Waits);
        }
        let Some(at) = self.chunks.find(chunk) else {
            return Ok(Turn::Waits);
        };
        let got = self.world.load(at)?;
        if is_no_such(&got) {
            return Ok(Turn::Waits);
        }
        if !same_answer(&got, answer) {
            return Ok(Turn::Never);
        }
        Ok(Turn::Taken)
    }

    /// Takes the entry of a report that the node received, if the node from which it comes knows it.
    fn heard(&mut self, node: &Node, report: &Report) -> Result<Turn, AllocError>
        requires { KnowsChunks self.old }
        ensures { IfOk result (λ turn. IsTurn (view self.old.world) node.now (Hearing (queries_by_report report.now)) turn
            (view self.new.world) self.new.chunks) }
    {
        self.world.promised();
        if !is_there(&self.world, node) {
            return Ok(Turn::Waits);
        }
        what_comes_happens();
        let said = board_of(self.alloc, report)?;
        let sent = self.world.send_part(origin_of(report), &said)?;
        let Some(index) = sent_index(&sent) else {
            return Ok(Turn::Waits);
        };
        self.world.deliver(index, *node)?;
        Ok(Turn::Taken)
    }

    /// Takes the next entry of the node's log, if it can come.
    pub(crate) fn turn(&mut self, node: &Node, entry: &Entry) -> Result<Turn, AllocError>
        requires { KnowsChunks self.old }
        ensures { IfOk result (λ turn. IsTurn (view self.old.world) node.now (line_of entry.now) turn (view self.new.world) self.new.chunks) }
    {
        match entry {
            Entry::Own(event, answer) => self.own(node, event, answer),
            Entry::Gift(event, chunk) => self.gift(node, event, *chunk),
            Entry::Arrival(chunk, answer) => self.arrival(node, *chunk, answer),
            Entry::Heard(report) => self.heard(node, report),
        }
    }
}
