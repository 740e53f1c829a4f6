//! What a partition gives, loads, finishes and replies.

ghost use Rattle.std.specs.Prelude.{◌≡◌};
ghost use Rattle.squall_c_parts.specs.PartStatus.{give_status};
ghost use Rattle.squall_c_parts.specs.PartCalls.{chunk_after, span_or_none, Gives, GivesAt, LoadsChunk, Loads, FindsFresh, Finds};
ghost use Rattle.squall_part.specs.Parts.{closed_by};
ghost use Rattle.squall_c_parts.specs.PartCalls.{Closes, Finishes, Serves};

use crate::chunks::{CAnswer, CChunk, c_answer, c_chunk, chunk_in};
use crate::node::Node;
use crate::status::{LIMIT, OK, finish_status, give_status, load_fault_status, load_status};
use squall_c_values::{CSpan, c_span};
use squall_key::{Bound, Key};
use squall_part::{Chunk, GiveFault};
use squall_span::Span;

/// Writes the chunk that was given, if one was, and answers how it ended.
fn write_gift(answer: &Result<Chunk, GiveFault>, out: &mut CChunk) -> u32
    ensures chunk { out.new ≡ chunk_after answer.now out.old }
    ensures told { result ≡ give_status answer.now }
{
    if let Ok(chunk) = answer {
        *out = c_chunk(chunk);
    }
    give_status(answer)
}

/// The span as C sees it. One without a key if there is none.
fn span_or_none(found: Option<Span>) -> CSpan
    ensures { result ≡ span_or_none found }
{
    match found {
        Some(span) => c_span(span),
        None => CSpan {
            lo: Bound::TOP.rank(),
            hi: Bound::TOP.rank(),
        },
    }
}

impl Node {
    /// Gives the first keys, at most `max`, that are left in the sub-plan opened last, and writes their
    /// chunk. Any other status than `OK` says why not: then nothing changes, and nothing is written.
    pub fn give(&mut self, max: u64, out: &mut CChunk) -> u32
        ensures { Gives max self.old out.old self.new out.new result }
    {
        write_gift(&self.part.give(max), out)
    }

    /// Gives the key of that rank, and writes its chunk. `LIMIT` if the rank is no key's.
    pub fn give_at(&mut self, rank: u64, out: &mut CChunk) -> u32
        ensures { GivesAt rank self.old out.old self.new out.new result }
    {
        match Key::of_rank(rank) {
            Some(key) => write_gift(&self.part.give_at(key), out),
            None => LIMIT,
        }
    }

    /// Ends what the partition gives in the newest course that it knows, and answers the number of that
    /// course. It loads as before.
    pub fn close_course(&mut self) -> u32
        ensures { Closes self.old self.new result }
    {
        self.part.close()
    }

    /// Whether the partition gives no more under the number.
    pub fn closed(&self, number: u32) -> bool
        ensures { result ≡ closed_by self.now.part number }
    {
        self.part.closed(number)
    }

    /// Loads the chunk.
    fn load_chunk(&mut self, chunk: &Chunk) -> u32
        ensures { LoadsChunk chunk.now self.old self.new result }
    {
        load_status(&self.part.load(chunk))
    }

    /// Loads the chunk. A status of its own says that each of its keys was loaded before. `LIMIT` if the
    /// numbers are no chunk's.
    pub fn load(&mut self, chunk: &CChunk) -> u32
        ensures { Loads chunk.now self.old self.new result }
    {
        match chunk_in(chunk) {
            Some(chunk) => self.load_chunk(&chunk),
            None => LIMIT,
        }
    }

    /// Looks at the new keys of the chunk from the bound on.
    fn fresh_from(&self, chunk: &Chunk, from: Bound, out: &mut CSpan) -> u32
        ensures { FindsFresh chunk.now from self.now out.old out.new result }
    {
        match self.part.fresh(chunk) {
            Ok(keys) => {
                *out = span_or_none(keys.first_beyond(from));
                OK
            }
            Err(fault) => load_fault_status(&fault),
        }
    }

    /// Writes the first span of the new keys of the chunk that ends above the rank `from`. New keys
    /// are neither loaded nor held. If there is none, the span has no key. `LIMIT` if the numbers are
    /// no chunk's, or the rank is no bound's. Any other status than `OK` says why the chunk may not be
    /// loaded, or that an allocation failed: then nothing is written.
    pub fn fresh(&self, chunk: &CChunk, from: u64, out: &mut CSpan) -> u32
        ensures { Finds chunk.now from self.now out.old out.new result }
    {
        let Some(chunk) = chunk_in(chunk) else {
            return LIMIT;
        };
        match Bound::of_rank(from) {
            Some(from) => self.fresh_from(&chunk, from, out),
            None => LIMIT,
        }
    }

    /// Finishes the sub-plan: each key that comes in is loaded, and the partition reports so.
    pub fn finish(&mut self, sub: u32) -> u32
        ensures { Finishes sub self.old self.new result }
    {
        finish_status(&self.part.finish(sub))
    }

    /// Writes the reply to a request for the key of that rank. The request followed a `Moved` of the
    /// number `after` to this partition, or none if `after` is 0. `LIMIT` if the rank is no key's.
    pub fn serve(&self, rank: u64, after: u32, out: &mut CAnswer) -> u32
        ensures { Serves rank after self.now out.old out.new result }
    {
        let Some(key) = Key::of_rank(rank) else {
            return LIMIT;
        };
        *out = c_answer(self.part.serve(key, after));
        OK
    }
}
