//! The frames that a leader behind a handle sends: they wait until they are fetched.

ghost use Rattle.std.specs.Prelude.{◌≡◌};
ghost use Rattle.squall_c_frames.specs.Queues.{room_after, first_length};
ghost use Rattle.squall_c_leaders.specs.Nodes.{KeepsBoard, KeepsDigest, KeepsRepair, node_after};

use crate::fault::RepairFault;
use crate::node::LeaderNode;
use squall_c_frames::{FrameFault, board_frames, digest_frame, repair_frames};

impl LeaderNode {
    /// Has the frames of all that the leader heard and reported itself wait, in place of those that
    /// waited before. Each has at most `limit` bytes. `TooLong` if an item of that has no such frame,
    /// or `NoMemory`, and then nothing changes.
    pub fn gather_board(&mut self, limit: usize) -> Result<(), FrameFault>
        ensures { KeepsBoard limit self.old result self.new }
    {
        self.frames = board_frames(self.alloc, self.leader.board(), limit)?;
        Ok(())
    }

    /// Has the frame of the digest of that wait, likewise. `TooLong` if it would have more than `limit`
    /// bytes, or more rows than fit a frame.
    pub fn gather_digest(&mut self, limit: usize) -> Result<(), FrameFault>
        ensures { KeepsDigest limit self.old result self.new }
    {
        self.frames = digest_frame(self.alloc, self.leader.board(), limit)?;
        Ok(())
    }

    /// Has the frames of what the digest heard last does not show wait, likewise. `NoDigest` if none
    /// was heard, and then nothing changes.
    pub fn gather_repair(&mut self, limit: usize) -> Result<(), RepairFault>
        ensures { KeepsRepair limit self.old result self.new }
    {
        let Some(digest) = &self.heard else {
            return Err(RepairFault::NoDigest);
        };
        self.frames = repair_frames(self.alloc, self.leader.board(), digest, limit)?;
        Ok(())
    }

    /// Writes the first frame that waits into the room from its start on, if that has as many bytes,
    /// and it waits no longer then. Answers how long it is, and 0 if none waits.
    pub fn next_frame(&mut self, room: &mut [u8]) -> usize
        ensures room { room.new ≡ room_after self.old.frames room.old }
        ensures node { self.new ≡ node_after self.old room.old }
        ensures count { result ≡ first_length self.old.frames }
    {
        self.frames.fetch(room)
    }
}
