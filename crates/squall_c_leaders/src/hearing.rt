//! Frames that a leader behind a handle hears.

ghost use Rattle.std.specs.Prelude.{◌≡◌, OnOk, OnErr};
ghost use Rattle.squall_wire.specs.Messages.{IsMessage};
ghost use Rattle.squall_c_leaders.specs.Nodes.{HearsFrame, heard_node};

use crate::node::LeaderNode;
use squall_c_frames::whole;
use squall_wire::{Message, WireFault};
use std::alloc::AllocError;

impl LeaderNode {
    /// Hears the message. It changes nothing if it fails.
    fn take_message(&mut self, message: Message) -> Result<(), AllocError>
        requires { IsMessage message }
        ensures heard { OnOk result (self.new ≡ heard_node self.old message) }
        ensures err { OnErr result (self.new ≡ self.old) }
    {
        match message {
            Message::Delta(delta) => self.leader.absorb(&delta),
            Message::Digest(digest) => {
                self.heard = Some(digest);
                Ok(())
            }
        }
    }

    /// Hears one whole frame, no more and no less: a delta is absorbed, and a digest is kept for the
    /// next repair. If the bytes are no frame the answer is their first fault, and `NoMemory` if an
    /// allocation fails or a count of owners is full. Then nothing changes. What was fed of a stream before
    /// waits on.
    pub fn hear(&mut self, frame: &[u8]) -> Result<(), WireFault>
        ensures { HearsFrame frame.now self.old result self.new }
    {
        let message = whole(self.alloc, frame)?;
        match self.take_message(message) {
            Ok(()) => Ok(()),
            Err(_) => Err(WireFault::NoMemory),
        }
    }
}
