//! Commands on rows.

ghost use Rattle.std.specs.Prelude.{◌≡◌, ◌↔◌, IsTrue, IfOk, OnErr};
ghost use Rattle.squall_errand.specs.declared.errand.Reply.TheVariants.{Held};
ghost use Rattle.squall_protocol.specs.declared.answer.Answer.TheVariants.{Served};
ghost use Rattle.squall_rows.specs.RowSteps.{Ask, RowStep, RestartStep};
ghost use Rattle.squall_store.specs.Memory.{run_on};
ghost use Rattle.squall_world_rows.specs.Seen.{seen, outcome_of};
ghost use Rattle.squall_world_rows.specs.Maps.{MapStep, mapped};

use crate::rows::run;
use crate::world::RowWorld;
use squall_errand::Reply;
use squall_key::{Key, PartId};
use squall_store::{Bytes, Command};
use squall_world::Answer;
use std::alloc::AllocError;

/// The outcome of a command.
#[derive(Drop)]
pub enum RowAnswer {
    /// The partition holds the key, and the command ran. This is the row as it was before.
    Ran(Option<Bytes>),
    /// Nothing ran: what the partition answers to an event `Serve`, or that it is not there.
    Answered(Answer),
}

/// Whether the partition answered that it holds the key.
fn is_held(answer: &Answer) -> bool
    ensures { IsTrue result ↔ (answer.now ≡ Served Held) }
{
    matches!(answer, Answer::Served(Reply::Held))
}

impl RowWorld {
    /// Does a command on a key at a partition, if it holds the key. `after` is the number of the last
    /// move that was followed, or 0. The reply is that of one map.
    ///
    /// An error means that an allocation failed. The world is then as it was, and so is each row of a
    /// key that is held or on its way.
    pub fn ask(
        &mut self,
        part: PartId,
        key: Key,
        after: u32,
        command: &Command,
    ) -> Result<RowAnswer, AllocError>
        ensures ok { IfOk result (λ answer. RowStep run_on (seen self.old) (Ask part key after command.now) (outcome_of answer) (seen self.new)) }
        ensures map { IfOk result (λ answer. MapStep (mapped self.old) (Ask part key after command.now) (outcome_of answer) (mapped self.new)) }
        ensures err { OnErr result (RestartStep (seen self.old) (seen self.new)) }
    {
        // The proof learns that the key lies below the top, and what holds of the world.
        let _rank = key.rank();
        self.world.promised();
        let answer = self.world.serve(part, key, after);
        if !is_held(&answer) {
            return Ok(RowAnswer::Answered(answer));
        }
        let reply = run(self.alloc, &mut self.rows, part, key, command)?;
        Ok(RowAnswer::Ran(reply))
    }
}
