//! What is in a chunk, as it is looked for.

ghost use Rattle.std.specs.Prelude.{◌≡◌};
ghost use Rattle.squall_judge.specs.Found.{content_of};

use squall_protocol::Chunk;

/// All that is in a chunk, in the order in which chunks are kept.
#[derive(Clone, Copy, PartialEq, Eq, PartialOrd, Ord)]
pub(crate) struct Content {
    number: u32,
    sub: u32,
    source: u32,
    dest: u32,
    lo: u64,
    hi: u64,
}

/// What is in the chunk.
pub(crate) fn content_of(chunk: Chunk) -> Content
    ensures { result ≡ content_of chunk }
{
    Content {
        number: chunk.number(),
        sub: chunk.sub(),
        source: chunk.source().get(),
        dest: chunk.dest().get(),
        lo: chunk.span().lo().rank(),
        hi: chunk.span().hi().rank(),
    }
}
