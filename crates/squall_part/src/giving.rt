//! What a partition gives to others.

ghost use Rattle.std.specs.Prelude.{◌≡◌, ℕ, ◌+◌, ◌≤◌, ◌<◌, Err, IfOk, IfErr, OnOk, OnErr};
ghost use Rattle.squall_key.specs.Keys.{part_limit};
ghost use Rattle.squall_protocol.specs.Chunks.{chunk_with};
ghost use Rattle.squall_part.specs.Parts.{course_of_part};
ghost use Rattle.squall_part.specs.Logs.{IsLogAt};
ghost use Rattle.squall_part.specs.Steps.{given_on};
ghost use Rattle.squall_span.specs.Spans.{interval};
ghost use Rattle.squall_part.specs.declared.giving.GiveFault.TheVariants.{NoMemory};
ghost use Rattle.squall_part.specs.Giving.{IsCurrent, IsGiven, IsGivenAt, after_giving};

use crate::moving::hand_over;
use crate::part::Part;
use squall_key::{Bound, Key, PartId};
use squall_protocol::Chunk;
use squall_span::Span;
use std::alloc::AllocError;
use thiserror::Error;

/// Why nothing is given.
#[derive(Debug, Drop, Error)]
pub enum GiveFault {
    /// As far as the partition knows, no sub-plan of its newest course is opened.
    #[error("NotOpen")]
    NotOpen,
    /// The partition gives no more in its newest course.
    #[error("Ended")]
    Ended,
    /// It holds no key that goes out in the sub-plan opened last.
    #[error("NothingLeft")]
    NothingLeft,
    /// No key was asked for.
    #[error("ZeroMax")]
    ZeroMax,
    /// The key does not go out in the sub-plan opened last.
    #[error("NotOutgoing")]
    NotOutgoing,
    /// The key was given under this course before.
    #[error("Given")]
    Given,
    /// The key goes out, and is neither given under this course nor held.
    #[error("NotHeld")]
    NotHeld,
    /// An allocation failed.
    #[error("NoMemory")]
    NoMemory,
}

impl From<AllocError> for GiveFault {
    ghost from_gives = { λ _ e. e ≡ NoMemory };

    fn from(_error: AllocError) -> GiveFault {
        GiveFault::NoMemory
    }
}

/// The chunk of numbers within their limits.
fn chunk_of(number: u32, sub: u32, source: PartId, dest: PartId, span: Span) -> Chunk
    requires number { 1 ≤ number }
    requires sub { sub < part_limit }
    ensures { result ≡ chunk_with number sub source dest span }
{
    let Some(chunk) = Chunk::new(number, sub, source, dest, span) else {
        unreachable!();
    };
    chunk
}

/// The span of one key.
fn span_of(key: Key) -> Span
    ensures { result ≡ interval key (key + 1) }
{
    // The proof learns that the rank lies below the top.
    let rank = key.rank();
    let Some(hi) = Bound::of_rank(rank + 1) else {
        unreachable!();
    };
    let Some(span) = Span::new(Bound::of_key(key), hi) else {
        unreachable!();
    };
    span
}

impl Part {
    /// The sub-plan opened last of the newest course, if the partition still gives in that course.
    /// `at` is the place of its log.
    ///
    /// `Ended`, `NotOpen`, the first of these that is so.
    fn giving_sub(&self, at: usize) -> Result<u32, GiveFault>
        requires { IsLogAt self.now.logs (course_of_part self.now) at }
        ensures current { IfOk result (λ sub. IsCurrent self.now sub) }
        ensures limit { IfOk result (λ sub. sub < part_limit) }
        ensures chunk { IfErr result (λ e. (max : ℕ) → IsGiven self.now max (Err e) self.now) }
        ensures key { IfErr result (λ e. (key : ℕ) → IsGivenAt self.now key (Err e) self.now) }
    {
        self.known();
        let log = &self.logs[at];
        if log.closed {
            return Err(GiveFault::Ended);
        }
        let Some(sub) = self.current_sub(log.number()) else {
            return Err(GiveFault::NotOpen);
        };
        Ok(sub)
    }

    /// The chunk of the first keys, at most `max`, that are left in the sub-plan opened last of the
    /// newest course. `at` is the place of its log.
    fn first_chunk(&self, at: usize, max: u64) -> Result<Chunk, GiveFault>
        requires { IsLogAt self.now.logs (course_of_part self.now) at }
        ensures { IsGiven self.now max result (given_on self.now result) }
    {
        self.known();
        let sub = self.giving_sub(at)?;
        let alloc = self.allocator();
        let course = self.logs[at].course();
        let Some(dest) = course.dest(sub, self.id) else {
            return Err(GiveFault::NothingLeft);
        };
        let left = course
            .outgoing(alloc, sub, self.id)?
            .meet(alloc, &self.held)?;
        if left.is_empty() {
            return Err(GiveFault::NothingLeft);
        }
        let Some(span) = left.first_keys(max) else {
            return Err(GiveFault::ZeroMax);
        };
        Ok(chunk_of(course.number(), sub, self.id, dest, span))
    }

    /// The chunk of the key, if it is left in the sub-plan opened last of the newest course. `at`
    /// is the place of its log.
    fn key_chunk(&self, at: usize, key: Key) -> Result<Chunk, GiveFault>
        requires { IsLogAt self.now.logs (course_of_part self.now) at }
        ensures { IsGivenAt self.now key result (given_on self.now result) }
    {
        self.known();
        let sub = self.giving_sub(at)?;
        let log = &self.logs[at];
        let course = log.course();
        let owners = course.owners(key);
        if owners.sub != Some(sub) || owners.old != self.id {
            return Err(GiveFault::NotOutgoing);
        }
        if log.given.has(key) {
            return Err(GiveFault::Given);
        }
        if !self.held.has(key) {
            return Err(GiveFault::NotHeld);
        }
        Ok(chunk_of(course.number(), sub, self.id, owners.new, span_of(key)))
    }

    /// Gives the keys of the span under the newest course; `at` is the place of its log. An error
    /// means that an allocation failed. The partition is then unchanged.
    fn give_on(&mut self, at: usize, span: Span) -> Result<(), AllocError>
        requires { IsLogAt self.old.logs (course_of_part self.old) at }
        ensures ok { OnOk result (self.new ≡ after_giving self.old span) }
        ensures err { OnErr result (self.new ≡ self.old) }
    {
        let alloc = self.allocator();
        hand_over(alloc, &mut self.held, &mut self.logs[at].given, span)
    }

    /// Gives keys that go out in the sub-plan opened last and that it still holds. The first of
    /// them, at most `max`, become a chunk for the partition to which they go. Then it holds them
    /// no longer.
    ///
    /// `Ended`, `NotOpen`, `NothingLeft`, `ZeroMax`, the first of these that is so; or `NoMemory`. A
    /// fault leaves the partition unchanged.
    pub fn give(&mut self, max: u64) -> Result<Chunk, GiveFault>
        ensures answer { IsGiven self.old max result self.new }
    {
        let at = self.newest_place();
        let chunk = self.first_chunk(at, max)?;
        self.give_on(at, chunk.span())?;
        Ok(chunk)
    }

    /// Gives one key, as a chunk.
    ///
    /// `Ended`, `NotOpen`, `NotOutgoing`, `Given`, `NotHeld`, the first of these that is so; or
    /// `NoMemory`. A fault leaves the partition unchanged.
    pub fn give_at(&mut self, key: Key) -> Result<Chunk, GiveFault>
        ensures answer { IsGivenAt self.old key result self.new }
    {
        let at = self.newest_place();
        let chunk = self.key_chunk(at, key)?;
        self.give_on(at, chunk.span())?;
        Ok(chunk)
    }
}
