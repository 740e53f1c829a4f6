//! Answers.

use crate::chunk::Chunk;
use squall_errand::Reply;
use squall_key::PartId;
use squall_report::Report;
use squall_span::Span;
use thiserror::Error;

/// Why an event changes nothing.
#[derive(Debug, Drop, Error)]
pub enum Refusal {
    /// A node, chunk or message that the event names, or a chunk's destination, is not there.
    #[error("NoSuch")]
    NoSuch,
    /// A partition did not report that it has all keys of the sub-plan opened last. The least such
    /// partition is named.
    #[error("NotDone {sub} {part}")]
    NotDone {
        /// The sub-plan opened last.
        sub: u32,
        /// The partition.
        part: PartId,
    },
    /// All sub-plans are opened, and the last one is done.
    #[error("NoMore")]
    NoMore,
    /// The course begun last is not over; or a key lies elsewhere than in the plan from which a course
    /// is to begin.
    #[error("Running")]
    Running,
    /// The greatest number is used.
    #[error("NoNumber")]
    NoNumber,
    /// As far as the partition knows, the sub-plan is not opened.
    #[error("NotOpen")]
    NotOpen,
    /// The partition gives no more in the newest course that it knows.
    #[error("Ended")]
    Ended,
    /// The partition holds no key that goes out in the sub-plan opened last.
    #[error("NothingLeft")]
    NothingLeft,
    /// No key was asked for.
    #[error("ZeroMax")]
    ZeroMax,
    /// The key does not go out in the sub-plan opened last.
    #[error("NotOutgoing")]
    NotOutgoing,
    /// The key was given in this course before.
    #[error("Given")]
    Given,
    /// The key goes out, and is neither given in this course nor held.
    #[error("NotHeld")]
    NotHeld,
    /// The destination does not know the chunk's course, or the chunk does not fit it.
    #[error("Stranger")]
    Stranger,
    /// Keys of the sub-plan are missing. The first span of them is named.
    #[error("NotAll {0}")]
    NotAll(Span),
    /// No key comes in, in that sub-plan.
    #[error("NothingDue")]
    NothingDue,
    /// The node does not know all that the message would tell.
    #[error("NotKnown")]
    NotKnown,
}

/// The answer to an event.
#[derive(Drop)]
pub enum Answer {
    /// The leader opened the sub-plan.
    Opened {
        /// The sub-plan.
        sub: u32,
    },
    /// The leader began a course.
    Begun {
        /// Its number.
        number: u32,
        /// How many partitions there are now.
        parts: usize,
    },
    /// A partition gives no more in a course.
    Closed {
        /// Its number.
        number: u32,
    },
    /// A partition gave keys.
    Gave {
        /// The chunk's index.
        index: usize,
        /// The chunk.
        chunk: Chunk,
    },
    /// The chunk's destination now holds those of its keys that were not loaded before, and reports
    /// the load.
    Loaded(Report),
    /// Each key of the chunk was loaded before.
    Again,
    /// The partition reports that it has all keys of the sub-plan.
    Finished(Report),
    /// The message is on its way.
    Sent {
        /// Its index.
        index: usize,
    },
    /// The node has heard what the message tells.
    Delivered,
    /// The router sends the key to the partition.
    Routed(PartId),
    /// The partition's reply.
    Served(Reply),
    /// Nothing changed.
    Refused(Refusal),
}
