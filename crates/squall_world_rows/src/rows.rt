//! The rows of partitions, in a list by the partitions' numbers.

ghost use Rattle.std.specs.Prelude.{◌≡◌, ◌≢◌, ◌<◌, ℕ, length, true, false, IfOk, OnOk, OnErr};
ghost use Rattle.std.specs.List.{slice_get};
ghost use Rattle.squall_span.specs.Spans.{span_has};
ghost use Rattle.squall_store.specs.Memory.{value_at, run_on};
ghost use Rattle.squall_world_rows.specs.Seen.{stored_in, carried_by, brings};

use crate::sent::Sent;
use squall_key::{Key, PartId};
use squall_span::{Span, SpanSet};
use squall_store::{Bytes, Command, MemoryRows, Rows};
use std::alloc::{AllocError, Global};

/// The list with rows of the partition, which may be none. No key has another row for it.
#[tactic(auto, using(crate::proofs::Placed::grown))]
fn reach(alloc: Global, rows: &mut Vec<MemoryRows>, part: usize) -> Result<(), AllocError>
    ensures reached { OnOk result (part < length rows.new.items) }
    ensures same { (p k : ℕ) → stored_in rows.new.items p k ≡ stored_in rows.old.items p k }
{
    while rows.len() <= part {
        rows.push(MemoryRows::new(alloc))?;
    }
    Ok(())
}

/// A copy of the partition's rows of a span.
pub(crate) fn copied(
    alloc: Global,
    rows: &[MemoryRows],
    part: PartId,
    span: Span,
) -> Result<MemoryRows, AllocError>
    ensures { IfOk result (λ batch. (k : ℕ) → span_has span k ≡ true → value_at batch k ≡ stored_in rows.now part k) }
{
    match rows.get(part.get() as usize) {
        Some(rows) => rows.copy(span),
        None => Ok(MemoryRows::new(alloc)),
    }
}

/// Does a command on a row of the partition.
pub(crate) fn run(
    alloc: Global,
    rows: &mut Vec<MemoryRows>,
    part: PartId,
    key: Key,
    command: &Command,
) -> Result<Option<Bytes>, AllocError>
    ensures reply { IfOk result (λ reply. reply ≡ (run_on command.now (stored_in rows.old.items part key)).1) }
    ensures made { OnOk result (stored_in rows.new.items part key ≡ (run_on command.now (stored_in rows.old.items part key)).0) }
    ensures err { OnErr result (stored_in rows.new.items part key ≡ stored_in rows.old.items part key) }
    ensures others { (p k : ℕ) → ((p ≡ part) × (k ≡ key) → ⊥) → stored_in rows.new.items p k ≡ stored_in rows.old.items p k }
{
    let part = part.get() as usize;
    reach(alloc, rows, part)?;
    rows[part].run(key, command)
}

/// Puts the rows of a chunk in place at its destination, unless it was loaded before. After an error
/// the keys of the chunk may have any rows there. No other row changes.
pub(crate) fn install(
    alloc: Global,
    rows: &mut Vec<MemoryRows>,
    sent: &[Sent],
    index: usize,
) -> Result<(), AllocError>
    ensures inside { OnOk result ((p k : ℕ) → brings (slice_get sent.now index) p k ≡ true
        → stored_in rows.new.items p k ≡ carried_by (slice_get sent.now index) k) }
    ensures outside { (p k : ℕ) → brings (slice_get sent.now index) p k ≡ false → stored_in rows.new.items p k ≡ stored_in rows.old.items p k }
{
    let Some(sent) = sent.get(index) else {
        return Ok(());
    };
    if sent.loaded {
        return Ok(());
    }
    put_in(
        alloc,
        rows,
        sent.chunk.dest(),
        &sent.rows,
        sent.chunk.span(),
    )
}

/// Puts the rows of a batch in place at a partition, for the keys of a span.
fn put_in(
    alloc: Global,
    rows: &mut Vec<MemoryRows>,
    part: PartId,
    batch: &MemoryRows,
    span: Span,
) -> Result<(), AllocError>
    ensures inside { OnOk result ((k : ℕ) → span_has span k ≡ true → stored_in rows.new.items part k ≡ value_at batch.now k) }
    ensures outside { (p k : ℕ) → ((p ≡ part) × (span_has span k ≡ true) → ⊥) → stored_in rows.new.items p k ≡ stored_in rows.old.items p k }
{
    let keys = SpanSet::of(alloc, &span)?;
    let part = part.get() as usize;
    reach(alloc, rows, part)?;
    rows[part].install(batch, &keys)
}
