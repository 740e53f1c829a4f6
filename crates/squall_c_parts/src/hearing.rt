//! Whole frames that a partition hears.

ghost use Rattle.std.specs.Prelude.{◌≡◌, OnErr, OnOk};
ghost use Rattle.squall_replay.specs.Calls.{Absorbs};
ghost use Rattle.squall_c_parts.specs.PartHearing.{AbsorbsDelta, TakesMessage, TakesFrame, HearsFrame};

use crate::node::Node;
use squall_board::Delta;
use squall_c_frames::{hear_status, whole};
use squall_part::Part;
use squall_wire::{Message, WireFault};
use std::alloc::AllocError;

/// Has the partition absorb the delta. If it fails, nothing changes.
pub(crate) fn absorb(part: &mut Part, delta: &Delta) -> Result<(), AllocError>
    ensures ok { OnOk result (Absorbs part.old delta.now part.new) }
    ensures err { OnErr result (part.new ≡ part.old) }
{
    part.absorb(delta)
}

impl Node {
    /// Has the partition absorb the delta. If it fails, nothing changes.
    fn absorb(&mut self, delta: &Delta) -> Result<(), AllocError>
        ensures ok { OnOk result (AbsorbsDelta self.old delta.now self.new) }
        ensures err { OnErr result (self.new ≡ self.old) }
    {
        absorb(&mut self.part, delta)
    }

    /// Takes the message: a delta is absorbed, a digest kept. If it fails, nothing changes.
    fn take(&mut self, message: Message) -> Result<(), AllocError>
        ensures ok { OnOk result (TakesMessage self.old message self.new) }
        ensures err { OnErr result (self.new ≡ self.old) }
    {
        match message {
            Message::Delta(delta) => self.absorb(&delta),
            Message::Digest(digest) => {
                self.heard = Some(digest);
                Ok(())
            }
        }
    }

    /// Has the partition take the message of the frame. If it fails, nothing changes.
    fn take_frame(&mut self, frame: &[u8]) -> Result<(), WireFault>
        ensures { TakesFrame frame.now self.old result self.new }
    {
        let message = whole(self.alloc, frame)?;
        self.take(message)?;
        Ok(())
    }

    /// Hears one whole frame: its message is taken, or the status tells its fault and nothing changes.
    /// An allocation that fails is told only of bytes that begin with a whole frame. What was fed of a
    /// stream before waits on.
    pub fn hear(&mut self, frame: &[u8]) -> u32
        ensures { HearsFrame frame.now self.old self.new result }
    {
        hear_status(self.take_frame(frame))
    }
}
