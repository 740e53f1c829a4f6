//! The call of a record: one function for new calls and for those of a log.

ghost use Rattle.std.specs.Prelude.{◌≡◌, ℕ, Some, None, IfOk, IfErr, OnErr};
ghost use Rattle.squall_replay.specs.declared.call.Call.TheVariants.{Absorb as AbsorbCall, Give as GiveCall, GiveAt as GiveAtCall};
ghost use Rattle.squall_replay.specs.declared.call.Call.TheVariants.{Load as LoadCall, Finish as FinishCall, Close as CloseCall};
ghost use Rattle.squall_store.specs.Memory.{value_at, run_on};
ghost use Rattle.squall_store_log.specs.Records.{Fits};
ghost use Rattle.squall_store_log.specs.Steps.{IsAlike, Sets, Calls, Loads, Makes, IsNotHeld, IsRefused, Declines, part_of, row_of};

use crate::answer::{Answer, MakeFault};
use crate::batch::batch_of;
use crate::listed::Listed;
use crate::record::Record;
use squall_board::Delta;
use squall_key::Key;
use squall_part::laws::new_keys_are_held;
use squall_part::{Load, LoadFault};
use squall_protocol::Chunk;
use squall_replay::{Answer as PartAnswer, CallFault};
use squall_store::{Asked, Bytes, Command, MemoryRows, Store};
use std::alloc::Global;

/// Does a command that sets the row of a key.
pub(crate) fn set(
    store: &mut Store<MemoryRows>,
    key: Key,
    after: u32,
    command: &Command,
) -> Result<Option<Bytes>, MakeFault>
    ensures row { IfOk result (λ row. Sets store.old key (run_on command.now (value_at store.old.rows key)).0 store.new) }
    ensures before { IfOk result (λ row. row ≡ (run_on command.now (value_at store.old.rows key)).1) }
    ensures fault { IfErr result (λ f. IsNotHeld store.old.part key after f) }
    ensures err { OnErr result (IsAlike store.old store.new) }
{
    match store.ask(key, after, command) {
        Ok(Asked::Ran(row)) => Ok(row),
        Ok(Asked::NotHeld(reply)) => Err(MakeFault::NotHeld(reply)),
        Err(_) => Err(MakeFault::NoMemory),
    }
}

/// Puts a value under a key.
fn put(
    store: &mut Store<MemoryRows>,
    alloc: Global,
    key: Key,
    after: u32,
    value: &Bytes,
) -> Result<Option<Bytes>, MakeFault>
    ensures row { IfOk result (λ row. Sets store.old key (Some value.now) store.new) }
    ensures before { IfOk result (λ row. row ≡ value_at store.old.rows key) }
    ensures fault { IfErr result (λ f. IsNotHeld store.old.part key after f) }
    ensures err { OnErr result (IsAlike store.old store.new) }
{
    let Ok(value) = value.copied(alloc) else {
        return Err(MakeFault::NoMemory);
    };
    set(store, key, after, &Command::Put(value))
}

/// Gives keys.
fn give(store: &mut Store<MemoryRows>, most: u64) -> Result<PartAnswer, MakeFault>
    ensures ok { IfOk result (λ a. Calls store.old (GiveCall most) a store.new) }
    ensures fault { IfErr result (λ f. IsRefused store.old.part (GiveCall most) f) }
    ensures err { OnErr result (IsAlike store.old store.new) }
{
    let given = store.give(most);
    store.part().known();
    match given {
        Ok(chunk) => Ok(PartAnswer::Gave(chunk)),
        Err(fault) => Err(MakeFault::Refused(CallFault::Give(fault))),
    }
}

/// Gives one key.
fn give_at(store: &mut Store<MemoryRows>, key: Key) -> Result<PartAnswer, MakeFault>
    ensures ok { IfOk result (λ a. Calls store.old (GiveAtCall key) a store.new) }
    ensures fault { IfErr result (λ f. IsRefused store.old.part (GiveAtCall key) f) }
    ensures err { OnErr result (IsAlike store.old store.new) }
{
    let given = store.give_at(key);
    store.part().known();
    match given {
        Ok(chunk) => Ok(PartAnswer::Gave(chunk)),
        Err(fault) => Err(MakeFault::Refused(CallFault::Give(fault))),
    }
}

/// Loads a chunk with rows.
fn load(
    store: &mut Store<MemoryRows>,
    alloc: Global,
    chunk: &Chunk,
    rows: &Listed,
) -> Result<PartAnswer, MakeFault>
    ensures ok { IfOk result (λ a. Loads store.old chunk.now rows.now a store.new) }
    ensures fault { IfErr result (λ f. IsRefused store.old.part (LoadCall chunk.now) f) }
    ensures err { OnErr result (IsAlike store.old store.new) }
{
    new_keys_are_held(store.part());
    let Ok(batch) = batch_of(alloc, rows) else {
        return Err(MakeFault::NoMemory);
    };
    let loaded = store.load(chunk, &batch);
    store.part().known();
    match loaded {
        Ok(Load::Loaded(report)) => Ok(PartAnswer::Loaded(report)),
        Ok(Load::Again) => Ok(PartAnswer::Again),
        Err(LoadFault::NoMemory) => Err(MakeFault::NoMemory),
        Err(fault) => Err(MakeFault::Refused(CallFault::Load(fault))),
    }
}

/// Absorbs a delta.
fn absorb(store: &mut Store<MemoryRows>, delta: &Delta) -> Result<PartAnswer, MakeFault>
    ensures ok { IfOk result (λ a. Calls store.old (AbsorbCall delta.now) a store.new) }
    ensures fault { IfErr result (λ f. IsRefused store.old.part (AbsorbCall delta.now) f) }
    ensures err { OnErr result (IsAlike store.old store.new) }
{
    let absorbed = store.absorb(delta);
    store.part().known();
    match absorbed {
        Ok(()) => Ok(PartAnswer::Absorbed),
        Err(_) => Err(MakeFault::NoMemory),
    }
}

/// Finishes a sub-plan.
fn finish(store: &mut Store<MemoryRows>, sub: u32) -> Result<PartAnswer, MakeFault>
    ensures ok { IfOk result (λ a. Calls store.old (FinishCall sub) a store.new) }
    ensures fault { IfErr result (λ f. IsRefused store.old.part (FinishCall sub) f) }
    ensures err { OnErr result (IsAlike store.old store.new) }
{
    let finished = store.finish(sub);
    store.part().known();
    match finished {
        Ok(report) => Ok(PartAnswer::Finished(report)),
        Err(fault) => Err(MakeFault::Refused(CallFault::Finish(fault))),
    }
}

/// Gives no more.
fn close(store: &mut Store<MemoryRows>) -> PartAnswer
    ensures { Calls store.old CloseCall result store.new }
{
    let number = store.close();
    store.part().known();
    PartAnswer::Closed(number)
}

/// Makes the call of a record. `after` is the number of the last move that a client followed, or 0.
pub(crate) fn make(
    store: &mut Store<MemoryRows>,
    alloc: Global,
    record: &Record,
    after: u32,
) -> Result<Answer, MakeFault>
    ensures ok { IfOk result (λ a. Makes store.old record.now a store.new) }
    ensures fault { IfErr result (λ f. Declines store.old.part record.now after f) }
    ensures err { OnErr result (IsAlike store.old store.new) }
{
    match record {
        Record::Put(key, value) => of_row(put(store, alloc, *key, after, value)),
        Record::Delete(key) => of_row(set(store, *key, after, &Command::Delete)),
        Record::Give(most) => of_part(give(store, *most)),
        Record::GiveAt(key) => of_part(give_at(store, *key)),
        Record::Load(chunk, rows) => of_part(load(store, alloc, chunk, rows)),
        Record::Absorb(delta) => of_part(absorb(store, delta)),
        Record::Finish(sub) => of_part(finish(store, *sub)),
        Record::Close => Ok(Answer::Part(close(store))),
    }
}

/// The answer of a partition.
fn of_part(made: Result<PartAnswer, MakeFault>) -> Result<Answer, MakeFault>
    ensures { result ≡ part_of made }
{
    match made {
        Ok(answer) => Ok(Answer::Part(answer)),
        Err(fault) => Err(fault),
    }
}

/// The answer of a row.
fn of_row(made: Result<Option<Bytes>, MakeFault>) -> Result<Answer, MakeFault>
    ensures { result ≡ row_of made }
{
    match made {
        Ok(row) => Ok(Answer::Row(row)),
        Err(fault) => Err(fault),
    }
}
