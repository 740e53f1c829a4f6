//! The chunks that were given, found by what is in them.

ghost use Rattle.std.specs.Prelude.{◌≡◌, ◌++◌, ◌∷◌, [], ℕ, Some, IfSome, IfNone, OnOk};
ghost use Rattle.std.specs.List.{slice_get};

use crate::content::{Content, content_of};
use crate::same_answer::same_chunk;
use squall_protocol::Chunk;
use std::alloc::{AllocError, Global};
use std::collections::BTreeMap;
use std::marker::Model;

/// The chunks that were given, in that order. A chunk is found in as many steps as the logarithm of
/// their number. Contracts see the list.
#[derive(Drop)]
pub(crate) struct Given {
    chunks: Vec<Chunk>,
    places: BTreeMap<Content, usize>,
}

impl Model for Given {
    ghost use Rattle.std.specs.Prelude.{List};
    ghost use Rattle.squall_protocol.specs.Chunks.{ChunkValue};
    ghost use Rattle.squall_judge.specs.Found.{AreFound};

    ghost Value = { List ChunkValue };

    ghost view = { λ g. g.chunks.items };

    ghost invariant = { λ g. AreFound g.chunks.items g.places };
}

impl Given {
    /// None was given.
    pub(crate) fn none(alloc: Global) -> Given
        ensures { result ≡ [] }
    {
        Given {
            chunks: Vec::new(alloc),
            places: BTreeMap::new(alloc),
        }
    }

    /// The index of the chunk.
    pub(crate) fn find(&self, chunk: Chunk) -> Option<usize>
        ensures some { IfSome result (λ at. slice_get self.now at ≡ Some chunk) }
        ensures none { IfNone result ((at : ℕ) → slice_get self.now at ≡ Some chunk → ⊥) }
    {
        let at = *self.places.get(&content_of(chunk))?;
        let found = self.chunks.get(at)?;
        if same_chunk(*found, chunk) {
            Some(at)
        } else {
            None
        }
    }

    /// The chunk was given, too. It fails (memory).
    pub(crate) fn push(&mut self, chunk: Chunk) -> Result<(), AllocError>
        ensures { OnOk result (self.new ≡ self.old ++ chunk ∷ []) }
    {
        self.chunks.reserve(1)?;
        let at = self.chunks.len();
        self.places.insert(content_of(chunk), at)?;
        self.chunks.push_reserved(chunk);
        Ok(())
    }
}
