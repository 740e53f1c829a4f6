//! Chunks with their rows.

ghost use Rattle.std.specs.Prelude.{◌≡◌, ◌<◌, length};
ghost use Rattle.squall_world_rows.specs.Seen.{with_loaded, sent_after, IsLoad};

use squall_protocol::{Answer, Chunk};
use squall_store::MemoryRows;

/// A chunk, a copy of the rows of its keys, made when it was given, and whether it was loaded.
#[derive(Drop)]
pub(crate) struct Sent {
    pub(crate) chunk: Chunk,
    pub(crate) rows: MemoryRows,
    pub(crate) loaded: bool,
}

/// Notes that the chunk of the index was loaded.
fn note_loaded(sent: &mut [Sent], index: usize)
    requires { index < length sent.old }
    ensures { sent.new ≡ with_loaded index sent.old }
{
    let one = &mut sent[index];
    one.loaded = true;
}

/// Notes that the chunk of the index was loaded, if the answer says so.
pub(crate) fn note(sent: &mut [Sent], index: usize, answer: &Answer)
    requires { IsLoad answer.now → index < length sent.old }
    ensures { sent.new ≡ sent_after answer.now index sent.old }
{
    if let Answer::Loaded(_) = answer {
        note_loaded(sent, index);
    }
}
