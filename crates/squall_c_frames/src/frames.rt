//! A queue of frames.

ghost use Rattle.std.specs.Prelude.{◌≡◌, [], ◌∷◌, ◌++◌, OnOk, OnErr};
ghost use Rattle.squall_c_frames.specs.Queues.{frames_after, room_after, first_length};

use std::alloc::{AllocError, Global};
use std::collections::VecDeque;
use std::marker::Model;

/// Frames in the order in which they are to be fetched. Contracts see them as the list of their
/// bytes.
#[derive(Drop)]
pub struct Frames {
    waiting: VecDeque<Vec<u8>>,
}

impl Model for Frames {
    ghost use Rattle.std.specs.Prelude.{ℕ, List, map};

    ghost Value = { List (List ℕ) };

    ghost view = { λ f. map (λ v. v.items) f.waiting.items };
}

impl Frames {
    /// No frame. It allocates nothing.
    pub fn new(alloc: Global) -> Frames
        ensures { result ≡ [] }
    {
        Frames {
            waiting: VecDeque::new(alloc),
        }
    }

    /// Adds a frame, behind the others. It fails only if an allocation fails, and then the others wait
    /// on.
    pub fn push(&mut self, frame: Vec<u8>) -> Result<(), AllocError>
        ensures ok { OnOk result (self.new ≡ self.old ++ frame.items ∷ []) }
        ensures err { OnErr result (self.new ≡ self.old) }
    {
        self.waiting.push_back(frame)?;
        Ok(())
    }

    /// Writes the first frame into the room from its start on, if that has as many bytes, and drops it.
    /// Answers how long it is, and 0 if there is none.
    pub fn fetch(&mut self, room: &mut [u8]) -> usize
        ensures room { room.new ≡ room_after self.old room.old }
        ensures frames { self.new ≡ frames_after self.old room.old }
        ensures count { result ≡ first_length self.old }
    {
        let Some(frame) = self.waiting.front() else {
            return 0;
        };
        let count = frame.len();
        if count <= room.len() {
            room[..count].copy_from_slice(frame);
            let _ = self.waiting.pop_front();
        }
        count
    }
}
