//! Calls of a partition, as a log keeps them.

ghost use Rattle.std.specs.Prelude.{◌≡◌, IfOk, IfErr, OnErr};
ghost use Rattle.squall_replay.specs.Calls.{Happens, Refuses};

use crate::fault::CallFault;
use squall_board::Delta;
use squall_key::Key;
use squall_part::{Chunk, Load, Part};
use squall_report::Report;

/// A call that changes a partition.
#[derive(Drop)]
pub enum Call {
    /// It absorbs the delta.
    Absorb(Delta),
    /// It gives the first keys, up to that number of keys.
    Give(u64),
    /// It gives one key.
    GiveAt(Key),
    /// It loads the chunk.
    Load(Chunk),
    /// It finishes the sub-plan.
    Finish(u32),
    /// It gives no more in its newest course.
    Close,
}

/// The answer to a call that the partition did not refuse.
#[derive(Drop)]
pub enum Answer {
    /// It absorbed the delta.
    Absorbed,
    /// It gave the chunk.
    Gave(Chunk),
    /// It loaded the chunk, and reports so.
    Loaded(Report),
    /// It had loaded each key of the chunk before.
    Again,
    /// It finished the sub-plan, and reports so.
    Finished(Report),
    /// It gives no more in the course of that number.
    Closed(u32),
}

impl Call {
    /// Makes the call. The error is the one of the partition's own call: the partition refuses it, or
    /// an allocation failed. The partition stays unchanged then.
    pub fn make(&self, part: &mut Part) -> Result<Answer, CallFault>
        ensures answer { IfOk result (λ answer. Happens part.old self.now answer part.new) }
        ensures fault { IfErr result (λ fault. Refuses part.old self.now fault part.new) }
        ensures err { OnErr result (part.new ≡ part.old) }
    {
        match self {
            Call::Absorb(delta) => {
                part.absorb(delta)?;
                Ok(Answer::Absorbed)
            }
            Call::Give(max) => Ok(Answer::Gave(part.give(*max)?)),
            Call::GiveAt(key) => Ok(Answer::Gave(part.give_at(*key)?)),
            Call::Load(chunk) => match part.load(chunk)? {
                Load::Loaded(report) => Ok(Answer::Loaded(report)),
                Load::Again => Ok(Answer::Again),
            },
            Call::Finish(sub) => Ok(Answer::Finished(part.finish(*sub)?)),
            Call::Close => Ok(Answer::Closed(part.close())),
        }
    }
}
