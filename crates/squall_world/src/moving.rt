//! What partitions send, load and finish.

ghost use Rattle.std.specs.Prelude.{◌≡◌, ◌<◌, ◌++◌, ◌∷◌, [], vec_len, vec_capacity};
ghost use Rattle.squall_protocol.specs.declared.answer.Answer.TheVariants.{Gave};
ghost use Rattle.squall_world.specs.Nets.{IsNet};
ghost use Rattle.squall_world.specs.Events.{IsGiveIn, IsGiveAtIn, IsCloseIn, IsLoadIn, IsFinishIn};

use crate::net::Net;
use crate::refusal::{not_finished, not_given, not_loaded, refused};
use squall_key::{Key, PartId};
use squall_part::{Chunk, Load};
use squall_protocol::{Answer, Node, Refusal};
use std::alloc::AllocError;

/// The chunk is on its way, in room that was made.
fn gave(chunks: &mut Vec<Chunk>, chunk: Chunk) -> Answer
    requires { vec_len chunks.old < vec_capacity chunks.old }
    ensures chunks { chunks.new.items ≡ chunks.old.items ++ chunk ∷ [] }
    ensures answer { result ≡ Gave (vec_len chunks.old) chunk }
{
    let index = chunks.len();
    chunks.push_reserved(chunk);
    Answer::Gave { index, chunk }
}

impl Net {
    /// The partition sends the first keys, at most `max`, that are to go.
    pub(crate) fn give(&mut self, part: PartId, max: u64) -> Result<Answer, AllocError>
        requires { IsNet self.old }
        ensures { IsGiveIn self.old part max result self.new }
    {
        let Some(at) = self.place(Node::Part(part)) else {
            return refused(Refusal::NoSuch);
        };
        self.chunks.reserve(1)?;
        match self.peers[at].give(max) {
            Ok(chunk) => Ok(gave(&mut self.chunks, chunk)),
            Err(fault) => not_given(fault),
        }
    }

    /// The partition sends one key.
    pub(crate) fn give_at(&mut self, part: PartId, key: Key) -> Result<Answer, AllocError>
        requires { IsNet self.old }
        ensures { IsGiveAtIn self.old part key result self.new }
    {
        let Some(at) = self.place(Node::Part(part)) else {
            return refused(Refusal::NoSuch);
        };
        self.chunks.reserve(1)?;
        match self.peers[at].give_at(key) {
            Ok(chunk) => Ok(gave(&mut self.chunks, chunk)),
            Err(fault) => not_given(fault),
        }
    }

    /// The partition gives no more in the newest course that it knows.
    pub(crate) fn close(&mut self, part: PartId) -> Answer
        requires { IsNet self.old }
        ensures { IsCloseIn self.old part result self.new }
    {
        let Some(at) = self.place(Node::Part(part)) else {
            return Answer::Refused(Refusal::NoSuch);
        };
        let number = self.peers[at].close();
        Answer::Closed { number }
    }

    /// The chunk comes to its destination.
    pub(crate) fn load(&mut self, index: usize) -> Result<Answer, AllocError>
        requires { IsNet self.old }
        ensures { IsLoadIn self.old index result self.new }
    {
        let Some(chunk) = self.chunks.get(index) else {
            return refused(Refusal::NoSuch);
        };
        let chunk = *chunk;
        let Some(at) = self.place(Node::Part(chunk.dest())) else {
            return refused(Refusal::NoSuch);
        };
        match self.peers[at].load(at, &chunk) {
            Ok(Load::Loaded(report)) => Ok(Answer::Loaded(report)),
            Ok(Load::Again) => Ok(Answer::Again),
            Err(fault) => not_loaded(fault),
        }
    }

    /// The partition reports that it has all keys of the sub-plan.
    pub(crate) fn finish(&mut self, part: PartId, sub: u32) -> Result<Answer, AllocError>
        requires { IsNet self.old }
        ensures { IsFinishIn self.old part sub result self.new }
    {
        let Some(at) = self.place(Node::Part(part)) else {
            return refused(Refusal::NoSuch);
        };
        match self.peers[at].finish(at, sub) {
            Ok(report) => Ok(Answer::Finished(report)),
            Err(fault) => not_finished(fault),
        }
    }
}
