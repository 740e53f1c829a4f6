//! Rows in memory.

ghost use Rattle.std.specs.Prelude.{◌≡◌, ℕ, ◌≤◌, ◌<◌, ◌++◌, ◌∷◌, true, false, [], None, Some, IfOk, IfSome, IfNone, OnOk};
ghost use Rattle.squall_key.specs.Keys.{top};
ghost use Rattle.squall_span.specs.Spans.{span_has};
ghost use Rattle.squall_store.specs.Memory.{value_at, run_on, IsEmptyFrom, AreAlikeFrom, AreAlikeBeside};

use crate::bytes::Bytes;
use crate::command::Command;
use crate::rows::Rows;
use squall_key::Key;
use squall_span::{Span, SpanSet};
use std::alloc::{AllocError, Global};
use std::collections::BTreeMap;
use std::marker::Model;

/// Rows in memory: the value of each key that has one. A row is a value or none.
///
/// A command takes time by the logarithm of how many keys have a value. Copies and loads take that
/// for each value of their spans.
///
/// Contracts see the list of the keys that have a value, with their values, in the order of keys.
#[derive(Drop)]
pub struct MemoryRows {
    alloc: Global,
    // By the ranks of keys.
    values: BTreeMap<u64, Bytes>,
}

impl Model for MemoryRows {
    ghost use Rattle.squall_store.specs.Memory.{Values};

    ghost Value = { Values };

    ghost view = { λ r. r.values.entries };
}

/// The key of a rank.
fn key_of(rank: u64) -> Key
    requires { rank < top }
    ensures { result ≡ rank }
{
    match Key::of_rank(rank) {
        Some(key) => key,
        None => unreachable!(),
    }
}

/// Adds a value at the end. An error means that an allocation failed.
fn push_value(values: &mut Vec<(Key, Bytes)>, key: Key, value: Bytes) -> Result<(), AllocError>
    ensures { OnOk result (values.new.items ≡ values.old.items ++ ((key, value) ∷ [])) }
{
    values.push((key, value))?;
    Ok(())
}

impl MemoryRows {
    /// Rows of which none has a value. It takes no memory.
    pub fn new(alloc: Global) -> MemoryRows
        ensures { result ≡ [] }
    {
        MemoryRows {
            alloc,
            values: BTreeMap::new(alloc),
        }
    }

    /// The first key at `from` or later and below `to` that has a value, and that value. Bounds and
    /// keys are ranks.
    fn first_in(&self, from: u64, to: u64) -> Option<(u64, &Bytes)>
        requires { from ≤ to }
        ensures inside { IfSome result (λ e. (from ≤ e.0) × (e.0 < to)) }
        ensures value { IfSome result (λ e. value_at self.now e.0 ≡ Some e.1.now) }
        ensures first { IfSome result (λ e. IsEmptyFrom self.now from e.0) }
        ensures none { IfNone result (IsEmptyFrom self.now from to) }
    {
        let (key, value) = self.values.range(from..to).next()?;
        Some((*key, value))
    }

    /// Removes the values of the keys at `from` or later and below `to`.
    fn clear(&mut self, from: u64, to: u64)
        requires { from ≤ to }
        ensures cleared { IsEmptyFrom self.new from to }
        ensures others { AreAlikeBeside self.new self.old from to }
    {
        let mut at = from;
        while let Some((key, _)) = self.first_in(at, to) {
            self.values.remove(&key);
            at = key + 1;
        }
    }

    /// Copies the values of other rows for the keys at `from` or later and below `to`, none of which
    /// has a value here. After an error some may have been copied.
    fn bring(&mut self, others: &MemoryRows, from: u64, to: u64) -> Result<(), AllocError>
        requires order { from ≤ to }
        requires room { IsEmptyFrom self.old from to }
        ensures ok { OnOk result (AreAlikeFrom self.new others.now from to) }
        ensures others { AreAlikeBeside self.new self.old from to }
    {
        let mut at = from;
        while let Some((key, value)) = others.first_in(at, to) {
            let value = value.copied(self.alloc)?;
            self.values.insert(key, value)?;
            at = key + 1;
        }
        Ok(())
    }

    /// Copies of the values of a span's keys, in the keys' order. So rows are sent, or written to a
    /// log. An error means that an allocation failed.
    pub fn listed(&self, span: Span) -> Result<Vec<(Key, Bytes)>, AllocError>
        ensures inside { IfOk result (λ values. (k : ℕ) → span_has span k ≡ true → value_at values.items k ≡ value_at self.now k) }
        ensures outside { IfOk result (λ values. (k : ℕ) → span_has span k ≡ false → value_at values.items k ≡ None) }
    {
        let (mut at, to) = (span.lo().rank(), span.hi().rank());
        let mut values = Vec::new(self.alloc);
        while let Some((key, value)) = self.first_in(at, to) {
            let value = value.copied(self.alloc)?;
            push_value(&mut values, key_of(key), value)?;
            at = key + 1;
        }
        Ok(values)
    }

    /// Puts other rows in place of its own for the keys of a span. After an error these keys may have
    /// any rows.
    fn replace(&mut self, others: &MemoryRows, span: Span) -> Result<(), AllocError>
        ensures inside { OnOk result ((k : ℕ) → span_has span k ≡ true → value_at self.new k ≡ value_at others.now k) }
        ensures outside { (k : ℕ) → span_has span k ≡ false → value_at self.new k ≡ value_at self.old k }
    {
        let (from, to) = (span.lo().rank(), span.hi().rank());
        self.clear(from, to);
        self.bring(others, from, to)
    }

    /// A copy of the row of a key.
    fn row(&self, key: Key) -> Result<Option<Bytes>, AllocError>
        ensures { IfOk result (λ row. row ≡ value_at self.now key) }
    {
        match self.values.get(&key.rank()) {
            Some(value) => Ok(Some(value.copied(self.alloc)?)),
            None => Ok(None),
        }
    }
}

impl Rows for MemoryRows {
    type Row = Option<Bytes>;

    type Command = Command;

    type Reply = Option<Bytes>;

    type Batch = MemoryRows;

    ghost row_of = { value_at };

    ghost copied = { value_at };

    ghost run = { run_on };

    fn run(&mut self, key: Key, command: &Command) -> Result<Option<Bytes>, AllocError> {
        match command {
            Command::Get => self.row(key),
            Command::Put(value) => {
                let value = value.copied(self.alloc)?;
                Ok(self.values.insert(key.rank(), value)?)
            }
            Command::Delete => Ok(self.values.remove(&key.rank())),
        }
    }

    fn copy(&self, span: Span) -> Result<MemoryRows, AllocError> {
        let mut batch = MemoryRows::new(self.alloc);
        batch.bring(self, span.lo().rank(), span.hi().rank())?;
        Ok(batch)
    }

    fn install(&mut self, batch: &MemoryRows, keys: &SpanSet) -> Result<(), AllocError> {
        for span in keys.spans() {
            self.replace(batch, span)?;
        }
        Ok(())
    }
}
