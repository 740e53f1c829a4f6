//! The frames that a partition sends: they wait in its node until they are fetched.

ghost use Rattle.std.specs.Prelude.{◌≡◌};
ghost use Rattle.squall_c_frames.specs.Queues.{room_after, first_length};
ghost use Rattle.squall_c_parts.specs.PartFrames.{Keeps, GathersBoard, GathersDigest, GathersRepair, node_after};

use crate::node::Node;
use crate::status::{NO_DIGEST, NO_MEMORY, OK, TOO_LONG};
use squall_c_frames::{FrameFault, Frames, board_frames, digest_frame, repair_frames};

impl Node {
    /// Has the frames wait, in place of those that waited before, or tells why there are none.
    fn keep(&mut self, made: Result<Frames, FrameFault>) -> u32
        ensures { Keeps made self.old self.new result }
    {
        match made {
            Ok(frames) => {
                self.frames = frames;
                OK
            }
            Err(FrameFault::TooLong) => TOO_LONG,
            Err(FrameFault::NoMemory) => NO_MEMORY,
        }
    }

    /// Has the frames of all that the partition knows and reports wait, in place of those that waited
    /// before. Each has at most `limit` bytes. `TOO_LONG` if an item of that has no such frame, and
    /// then nothing changes.
    pub fn gather_board(&mut self, limit: usize) -> u32
        ensures { GathersBoard limit self.old self.new result }
    {
        let made = board_frames(self.alloc, self.part.board(), limit);
        self.keep(made)
    }

    /// Has the frame of a digest of that wait, likewise. `TOO_LONG` if it would have more than `limit`
    /// bytes, or more rows than fit a frame.
    pub fn gather_digest(&mut self, limit: usize) -> u32
        ensures { GathersDigest limit self.old self.new result }
    {
        let made = digest_frame(self.alloc, self.part.board(), limit);
        self.keep(made)
    }

    /// Has the frames of what the digest heard last does not show wait, likewise. `NO_DIGEST` if no
    /// digest was heard.
    pub fn gather_repair(&mut self, limit: usize) -> u32
        ensures { GathersRepair limit self.old self.new result }
    {
        let Some(digest) = &self.heard else {
            return NO_DIGEST;
        };
        let made = repair_frames(self.alloc, self.part.board(), digest, limit);
        self.keep(made)
    }

    /// Writes the first frame that waits into the room, from its start on, if the room has as many
    /// bytes. It waits no longer then. Answers how long it is, and 0 if none waits.
    pub fn frame(&mut self, room: &mut [u8]) -> usize
        ensures room { room.new ≡ room_after self.old.frames room.old }
        ensures node { self.new ≡ node_after self.old room.old }
        ensures count { result ≡ first_length self.old.frames }
    {
        self.frames.fetch(room)
    }
}
