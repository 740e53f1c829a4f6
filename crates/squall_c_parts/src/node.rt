//! Nodes of one partition: what they keep, and what they show.

ghost use Rattle.std.specs.Prelude.{◌≡◌, IfOk, length};
ghost use Rattle.std.specs.Arc.{arc_value};
ghost use Rattle.std.specs.Option.{option_map};
ghost use Rattle.squall_c_values.specs.Rooms.{over};
ghost use Rattle.squall_c_values.specs.Values.{spans_that_fit};
ghost use Rattle.squall_c_parts.specs.Nodes.{new_node, spans_in, given_spans, loaded_spans};

use squall_c_frames::{Frames, TwinFeed};
use squall_c_values::{CSpan, put_spans};
use squall_course::Course;
use squall_key::PartId;
use squall_part::Part;
use squall_span::SpanSet;
use squall_wire::Digest;
use std::alloc::{AllocError, Global};
use std::marker::Model;
use std::sync::Arc;

/// A partition with the feed that hears its stream of frames, with the digest that it heard last, and
/// with the frames that wait to be fetched.
///
/// Contracts see it as these four.
#[derive(Drop)]
pub struct Node {
    pub(crate) alloc: Global,
    pub(crate) part: Part,
    pub(crate) feed: TwinFeed,
    pub(crate) heard: Option<Digest>,
    pub(crate) frames: Frames,
}

impl Model for Node {
    ghost use Rattle.squall_c_parts.specs.Nodes.{NodeValue};

    ghost Value = { NodeValue };

    ghost view = { λ n. record { part = n.part; feed = n.feed; heard = n.heard; frames = n.frames } };
}

/// Writes the spans of the set, from the place `from` on, into the room. Without a set it writes none.
fn put_set(set: Option<&SpanSet>, from: usize, room: &mut [CSpan]) -> usize
    ensures spans { room.new ≡ over (spans_that_fit (spans_in (option_map (λ s. s.now) set.entry)) from room.old) room.old }
    ensures count { result ≡ length (spans_that_fit (spans_in (option_map (λ s. s.now) set.entry)) from room.old) }
{
    match set {
        Some(set) => put_spans(set.spans(), from, room),
        None => 0,
    }
}

impl Node {
    /// The partition of that number, which has heard nothing. It holds the keys that the old plan of the
    /// course gives it. It fails only if an allocation fails, or if a count of owners is full.
    pub fn new(alloc: Global, id: PartId, course: &Arc<Course>) -> Result<Node, AllocError>
        ensures { IfOk result (λ n. n ≡ new_node id (arc_value course.now)) }
    {
        Ok(Node {
            alloc,
            part: Part::new(alloc, id, course)?,
            feed: TwinFeed::new(alloc),
            heard: None,
            frames: Frames::new(alloc),
        })
    }

    /// How many bytes of its stream of frames wait for the rest of their frame: 0 if the stream can end
    /// here, or a fault has ended it.
    pub fn waiting(&self) -> usize
        ensures { result ≡ length self.now.feed.waiting }
    {
        self.feed.waiting()
    }

    /// Writes the spans of the keys that the partition holds, by rising key, from the place `from` on,
    /// into the room, as many as it holds, and answers how many.
    pub fn held(&self, from: usize, room: &mut [CSpan]) -> usize
        ensures spans { room.new ≡ over (spans_that_fit self.now.part.held from room.old) room.old }
        ensures count { result ≡ length (spans_that_fit self.now.part.held from room.old) }
    {
        put_spans(self.part.held().spans(), from, room)
    }

    /// The same of the keys that it gave under the number: none if it does not know the course.
    pub fn given(&self, number: u32, from: usize, room: &mut [CSpan]) -> usize
        ensures spans { room.new ≡ over (spans_that_fit (given_spans self.now number) from room.old) room.old }
        ensures count { result ≡ length (spans_that_fit (given_spans self.now number) from room.old) }
    {
        put_set(self.part.given(number), from, room)
    }

    /// The same of the keys that it loaded under the number.
    pub fn loaded(&self, number: u32, from: usize, room: &mut [CSpan]) -> usize
        ensures spans { room.new ≡ over (spans_that_fit (loaded_spans self.now number) from room.old) room.old }
        ensures count { result ≡ length (spans_that_fit (loaded_spans self.now number) from room.old) }
    {
        put_set(self.part.loaded(number), from, room)
    }
}
