//! Chunks in the payloads of records.

ghost use Rattle.std.specs.Prelude.{◌≡◌, ◌≢◌, ◌++◌, ◌<◌, ◌≤◌, ℕ, List, length, IfSome, IfNone, OnOk};
ghost use Rattle.squall_key.specs.Keys.{top};
ghost use Rattle.squall_protocol.specs.Chunks.{ChunkValue, chunk_with};
ghost use Rattle.squall_span.specs.Spans.{interval};
ghost use Rattle.squall_store_log.specs.Records.{word, rank, spell_chunk, FitsChunk, AreWords};

use crate::fields::{rank_at, word_at, write_rank, write_word};
use squall_key::{Bound, PartId};
use squall_protocol::Chunk;
use squall_span::Span;
use std::alloc::AllocError;

/// The numbers of a chunk.
#[derive(Clone, Copy)]
struct Numbers {
    number: u32,
    sub: u32,
    source: u32,
    dest: u32,
    lo: u64,
    hi: u64,
}

/// The numbers of the chunk that begins the bytes, and the bytes after it.
fn numbers_at(bytes: &[u8]) -> Option<(Numbers, &[u8])>
    ensures some { IfSome result (λ x. bytes.now ≡ spell_chunk (chunk_with x.0.number x.0.sub x.0.source x.0.dest (interval x.0.lo x.0.hi)) ++ x.1.now) }
    ensures none { IfNone result (length bytes.now < 32) }
{
    let (number, rest) = word_at(bytes)?;
    let (sub, rest) = word_at(rest)?;
    let (source, rest) = word_at(rest)?;
    let (dest, rest) = word_at(rest)?;
    let (lo, rest) = rank_at(rest)?;
    let (hi, rest) = rank_at(rest)?;
    let numbers = Numbers {
        number,
        sub,
        source,
        dest,
        lo,
        hi,
    };
    Some((numbers, rest))
}

/// The span between two ranks.
fn span_between(lo: u64, hi: u64) -> Option<Span>
    ensures some { IfSome result (λ s. (s ≡ interval lo hi) × (lo < hi) × (hi ≤ top)) }
    ensures none { IfNone result (lo < hi → hi ≤ top → ⊥) }
{
    Span::new(Bound::of_rank(lo)?, Bound::of_rank(hi)?)
}

/// The chunk of these numbers, if they lie within their limits.
fn chunk_from(n: Numbers) -> Option<Chunk>
    ensures some { IfSome result (λ c. (c ≡ chunk_with n.number n.sub n.source n.dest (interval n.lo n.hi)) × FitsChunk c) }
    ensures none { IfNone result (FitsChunk (chunk_with n.number n.sub n.source n.dest (interval n.lo n.hi)) → ⊥) }
    ensures words { AreWords (chunk_with n.number n.sub n.source n.dest (interval n.lo n.hi)) }
{
    let span = span_between(n.lo, n.hi)?;
    let source = PartId::new(n.source)?;
    let dest = PartId::new(n.dest)?;
    Chunk::new(n.number, n.sub, source, dest, span)
}

/// The chunk that begins the bytes, and the bytes after it.
pub(crate) fn chunk_at(bytes: &[u8]) -> Option<(Chunk, &[u8])>
    ensures some { IfSome result (λ x. FitsChunk x.0 × (bytes.now ≡ spell_chunk x.0 ++ x.1.now)) }
    ensures none { IfNone result ((c : ChunkValue) (rest : List ℕ) → FitsChunk c → bytes.now ≢ spell_chunk c ++ rest) }
{
    let (numbers, rest) = numbers_at(bytes)?;
    let Some(chunk) = chunk_from(numbers) else {
        return None;
    };
    Some((chunk, rest))
}

/// Adds the bytes of the chunk. An error means that an allocation failed.
pub(crate) fn write_chunk(out: &mut Vec<u8>, chunk: &Chunk) -> Result<(), AllocError>
    ensures written { OnOk result (out.new.items ≡ out.old.items ++ spell_chunk chunk.now) }
    ensures fits { OnOk result (FitsChunk chunk.now) }
{
    write_word(out, chunk.number())?;
    write_word(out, chunk.sub())?;
    write_word(out, chunk.source().get())?;
    write_word(out, chunk.dest().get())?;
    write_rank(out, chunk.span().lo().rank())?;
    write_rank(out, chunk.span().hi().rank())?;
    Ok(())
}
