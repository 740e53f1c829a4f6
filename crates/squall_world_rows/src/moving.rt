//! Events that move rows.

ghost use Rattle.std.specs.Prelude.{◌≡◌, ◌<◌, ◌+◌, ℕ, true, IfOk, OnErr, vec_len, vec_capacity};
ghost use Rattle.squall_key.specs.Keys.{top};
ghost use Rattle.squall_span.specs.Spans.{span_has, interval};
ghost use Rattle.squall_protocol.specs.declared.event.Event.TheVariants.{Give, GiveAt, Load};
ghost use Rattle.squall_rows.specs.RowSteps.{PlainStep, RestartStep};
ghost use Rattle.squall_store.specs.Memory.{value_at};
ghost use Rattle.squall_world_rows.specs.Seen.{seen, IsKept};

use crate::rows::{copied, install};
use crate::sent::{Sent, note};
use crate::world::RowWorld;
use squall_key::{Bound, Key, PartId};
use squall_span::Span;
use squall_store::{MemoryRows, Rows};
use squall_world::Answer;
use std::alloc::AllocError;

/// The span of all keys.
fn all_keys() -> Span
    ensures { (k : ℕ) → k < top → span_has result k ≡ true }
{
    Span::new(Bound::of_rank(0).unwrap(), Bound::TOP).unwrap()
}

/// The span of one key.
fn one_key(key: Key) -> Span
    ensures { result ≡ interval key (key + 1) }
{
    let after = Bound::of_rank(key.rank() + 1).unwrap();
    Span::new(Bound::of_key(key), after).unwrap()
}

/// The rows of a span alone. If an allocation fails, these are all rows.
fn narrowed(rows: MemoryRows, span: Span) -> MemoryRows
    ensures { (k : ℕ) → span_has span k ≡ true → value_at result k ≡ value_at rows k }
{
    match rows.copy(span) {
        Ok(narrow) => narrow,
        Err(_) => rows,
    }
}

/// Keeps the chunk, if one was given, with its part of the rows, in room that was made.
fn keep(sent: &mut Vec<Sent>, answer: &Answer, rows: MemoryRows)
    requires { vec_len sent.old < vec_capacity sent.old }
    ensures { IsKept answer.now rows sent.old.items sent.new.items }
{
    if let Answer::Gave { chunk, .. } = answer {
        let rows = narrowed(rows, chunk.span());
        sent.push_reserved(Sent {
            chunk: *chunk,
            rows,
            loaded: false,
        });
    }
}

impl RowWorld {
    /// The partition gives keys, as `World::give` says, and the chunk takes a copy of their rows along.
    /// An error means that an allocation failed. Nothing has then changed.
    ///
    /// It takes time by how many keys have a row at the partition: which of these the chunk takes is
    /// known only once it is given, and from then on no allocation may fail.
    pub fn give(&mut self, part: PartId, max: u64) -> Result<Answer, AllocError>
        ensures ok { IfOk result (λ answer. PlainStep (seen self.old) (Give part max) answer (seen self.new)) }
        ensures err { OnErr result (self.new ≡ self.old) }
    {
        // The proof learns that a run leads to the world, and so elsewhere.
        self.world.promised();
        let rows = copied(self.alloc, &self.rows, part, all_keys())?;
        self.sent.reserve(1)?;
        let answer = self.world.give(part, max)?;
        keep(&mut self.sent, &answer, rows);
        Ok(answer)
    }

    /// The partition gives one key, as `World::give_at` says, and the chunk takes a copy of its row
    /// along. An error means that an allocation failed. Nothing has then changed.
    pub fn give_at(&mut self, part: PartId, key: Key) -> Result<Answer, AllocError>
        ensures ok { IfOk result (λ answer. PlainStep (seen self.old) (GiveAt part key) answer (seen self.new)) }
        ensures err { OnErr result (self.new ≡ self.old) }
    {
        self.world.promised();
        let rows = copied(self.alloc, &self.rows, part, one_key(key))?;
        self.sent.reserve(1)?;
        let answer = self.world.give_at(part, key)?;
        keep(&mut self.sent, &answer, rows);
        Ok(answer)
    }

    /// The chunk comes to its destination, as `World::load` says. The rows of the keys that are new
    /// there are put in place first, over whatever was left there: a key that has no row in the chunk
    /// has none then.
    ///
    /// An error means that an allocation failed. The world is then as it was, and so is each row of a
    /// key that is held or on its way.
    pub fn load(&mut self, chunk: usize) -> Result<Answer, AllocError>
        ensures ok { IfOk result (λ answer. PlainStep (seen self.old) (Load chunk) answer (seen self.new)) }
        ensures err { OnErr result (RestartStep (seen self.old) (seen self.new)) }
    {
        self.world.promised();
        install(self.alloc, &mut self.rows, &self.sent, chunk)?;
        let answer = self.world.load(chunk)?;
        note(&mut self.sent, chunk, &answer);
        Ok(answer)
    }
}
