//! A store with a log on disk.

ghost use Rattle.std.specs.Prelude.{◌≡◌, ◌++◌, ◌≤◌, [], ℕ, true, length, IfOk, IfErr, OnOk, OnErr};
ghost use Rattle.squall_cli_device.specs.States.{TookBytes};
ghost use Rattle.squall_log.specs.Entries.{payload_limit, entry};
ghost use Rattle.squall_span.specs.Spans.{has, span_has};
ghost use Rattle.squall_store.specs.Memory.{value_at};
ghost use Rattle.squall_store_log.specs.Records.{spell_record, Fits};
ghost use Rattle.squall_store_log.specs.Steps.{IsAlike, IsNotHeld, Makes, Declines, IsRecord, changes, logged_by};

use crate::answer::{Answer, MakeFault};
use crate::disk::Disk;
use crate::listed::Listed;
use crate::make::{make, set};
use crate::record::Record;
use crate::writing::payload_of;
use squall_cli_device::DeviceFault;
use squall_cli_lines::send;
use squall_key::Key;
use squall_log::{LogFault, push_entry};
use squall_protocol::Chunk;
use squall_replay::Answer as PartAnswer;
use squall_store::{Bytes, Command, MemoryRows, Store};
use std::alloc::{AllocError, Global};
use std::marker::Model;

/// A partition with its rows in memory and a log. Each call that changes it adds its record to the
/// bytes that wait.
///
/// A host writes what waits to its disk before it answers a client. Contracts see the store and the
/// bytes that wait.
#[derive(Drop)]
pub struct LoggedStore {
    pub(crate) alloc: Global,
    pub(crate) store: Store<MemoryRows>,
    pub(crate) waiting: Vec<u8>,
}

impl Model for LoggedStore {
    ghost use Rattle.squall_store_log.specs.Steps.{LoggedValue};

    ghost Value = { LoggedValue };

    ghost view = { λ s. record { store = s.store; waiting = s.waiting.items } };
}

/// Whether a call changed the store. A chunk that comes again changes nothing.
fn has_changed(made: &Result<Answer, MakeFault>) -> bool
    ensures { result ≡ changes made.now }
{
    match made {
        Ok(Answer::Part(PartAnswer::Again)) => false,
        Ok(_) => true,
        Err(_) => false,
    }
}

/// Adds the record to the log. After an error the log is unchanged.
fn note(log: &mut Vec<u8>, alloc: Global, record: &Record) -> Result<(), LogFault>
    ensures added { OnOk result (log.new.items ≡ log.old.items ++ entry (spell_record record.now)) }
    ensures fits { OnOk result (Fits record.now) }
    ensures short { OnOk result (length (spell_record record.now) ≤ payload_limit) }
    ensures err { OnErr result (log.new.items ≡ log.old.items) }
{
    let payload = match payload_of(alloc, record) {
        Ok(payload) => payload,
        Err(fault) => return Err(fault),
    };
    push_entry(log, &payload)
}

impl LoggedStore {
    /// The store.
    pub fn store(&self) -> &Store<MemoryRows>
        ensures { result.now ≡ self.now.store }
    {
        &self.store
    }

    /// What waits to be written to the log.
    pub fn waiting(&self) -> &[u8]
        ensures { result.now ≡ self.now.waiting }
    {
        self.waiting.as_slice()
    }

    /// A copy of the value of a key, if the partition holds the key. `after` is as in `call`. It adds
    /// no record.
    pub fn get(&mut self, key: Key, after: u32) -> Result<Option<Bytes>, MakeFault>
        ensures held { OnOk result (has self.old.store.part.held key ≡ true) }
        ensures row { IfOk result (λ row. row ≡ value_at self.old.store.rows key) }
        ensures fault { IfErr result (λ f. IsNotHeld self.old.store.part key after f) }
        ensures waiting { self.new.waiting ≡ self.old.waiting }
        ensures store { IsAlike self.old.store self.new.store }
    {
        set(&mut self.store, key, after, &Command::Get)
    }

    /// Copies of the rows that travel with a chunk.
    pub fn rows_of(&self, chunk: &Chunk) -> Result<Listed, AllocError>
        ensures { IfOk result (λ rows. (k : ℕ) → span_has chunk.now.span k ≡ true → value_at rows k ≡ value_at self.now.store.rows k) }
    {
        let rows = self.store.rows().listed(chunk.span())?;
        Ok(Listed { rows })
    }

    /// Makes the call of a record, and adds the record to what waits if the call changed the store.
    /// `after` is the number of the last move that a client followed, or 0.
    ///
    /// After an error nothing that the store holds has changed, and nothing was added. The record is
    /// made first, so a call whose record gets no memory is not made.
    pub fn call(&mut self, record: &Record, after: u32) -> Result<Answer, MakeFault>
        ensures ok { IfOk result (λ a. Makes self.old.store record.now a self.new.store) }
        ensures record { OnOk result (IsRecord record.now) }
        ensures logged { self.new.waiting ≡ self.old.waiting ++ logged_by result record.now }
        ensures fault { IfErr result (λ f. Declines self.old.store.part record.now after f) }
        ensures err { OnErr result (IsAlike self.old.store self.new.store) }
    {
        let had = self.waiting.len();
        match note(&mut self.waiting, self.alloc, record) {
            Ok(()) => {}
            Err(LogFault::TooLong) => return Err(MakeFault::TooLong),
            Err(LogFault::NoMemory) => return Err(MakeFault::NoMemory),
        }
        let made = make(&mut self.store, self.alloc, record, after);
        if !has_changed(&made) {
            self.waiting.truncate(had);
        }
        made
    }

    /// Writes what waits to the disk, and makes it durable if that is asked for. Then nothing waits.
    /// Nothing may be answered to a client before its record was flushed.
    ///
    /// After a fault all of it waits still, and the disk has a part of it: what was torn there is cut
    /// when the log is opened. So the host opens the log again.
    pub fn flush<K: Disk>(&mut self, disk: &mut K, durable: bool) -> Result<(), DeviceFault>
        ensures took { OnOk result (TookBytes (K.state disk.old) (K.state disk.new) self.old.waiting) }
        ensures empty { OnOk result (self.new.waiting ≡ []) }
        ensures err { OnErr result (self.new.waiting ≡ self.old.waiting) }
        ensures store { self.new.store ≡ self.old.store }
    {
        send(disk, &self.waiting)?;
        if durable {
            disk.sync()?;
        }
        self.waiting.clear();
        Ok(())
    }
}
