//! Chunks and replies, as C sees them.

ghost use Rattle.std.specs.Prelude.{◌≡◌};
ghost use Rattle.squall_c_parts.specs.PartValues.{c_chunk, chunk_in, c_answer};

use squall_errand::Reply;
use squall_key::{Bound, PartId};
use squall_part::Chunk;
use squall_span::Span;

/// The keys from rank `lo` on, below rank `hi`, go from a partition to another in a sub-plan of the
/// course of the number.
#[repr(C)]
#[derive(Clone, Copy, Debug, PartialEq, Eq)]
pub struct CChunk {
    /// The rank of the least key.
    pub lo: u64,
    /// The rank above the greatest key.
    pub hi: u64,
    /// The number of the course, from 1 on.
    pub number: u32,
    /// The sub-plan, from 0.
    pub sub: u32,
    /// The partition that gave the keys.
    pub source: u32,
    /// The partition that is to load them.
    pub dest: u32,
}

/// The reply of a partition to a request for a key.
#[repr(C)]
#[derive(Clone, Copy, Debug, PartialEq, Eq)]
pub struct CAnswer {
    /// 0 held, 1 moved, 2 pending, 3 behind, 4 elsewhere.
    pub reply: u32,
    /// The partition that the reply names, or 0.
    pub part: u32,
    /// The number that the reply names, or 0.
    pub number: u32,
}

/// The chunk as C sees it.
pub(crate) fn c_chunk(chunk: &Chunk) -> CChunk
    ensures { result ≡ c_chunk chunk.now }
{
    CChunk {
        lo: chunk.span().lo().rank(),
        hi: chunk.span().hi().rank(),
        number: chunk.number(),
        sub: chunk.sub(),
        source: chunk.source().get(),
        dest: chunk.dest().get(),
    }
}

/// The chunk of these numbers. None if one lies outside its limits, or if no key lies between the
/// ranks.
pub(crate) fn chunk_in(chunk: &CChunk) -> Option<Chunk>
    ensures { result ≡ chunk_in chunk.now }
{
    let lo = Bound::of_rank(chunk.lo)?;
    let hi = Bound::of_rank(chunk.hi)?;
    let span = Span::new(lo, hi)?;
    let source = PartId::new(chunk.source)?;
    let dest = PartId::new(chunk.dest)?;
    Chunk::new(chunk.number, chunk.sub, source, dest, span)
}

/// The reply as C sees it.
pub(crate) fn c_answer(reply: Reply) -> CAnswer
    ensures { result ≡ c_answer reply }
{
    let (reply, part, number) = match reply {
        Reply::Held => (0, 0, 0),
        Reply::Moved { dest, number } => (1, dest.get(), number),
        Reply::Pending { source } => (2, source.get(), 0),
        Reply::Behind => (3, 0, 0),
        Reply::Elsewhere { dest } => (4, dest.get(), 0),
    };
    CAnswer {
        reply,
        part,
        number,
    }
}
