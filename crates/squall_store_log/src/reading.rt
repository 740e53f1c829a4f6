//! Records from their payloads.

ghost use Rattle.std.specs.Prelude.{◌≡◌, ◌≢◌, ◌++◌, ◌∷◌, ◌<◌, ◌^◌, [], ℕ, IfSome, IfNone};
ghost use Rattle.squall_key.specs.Keys.{top};
ghost use Rattle.squall_store_log.specs.Records.{word, rank, Reads};

use crate::fault::ReadFault;
use crate::fields::{key_at, rank_at, word_at};
use crate::parts::chunk_at;
use crate::record::Record;
use crate::rows::rows_of;
use squall_key::Key;
use squall_store::Bytes;
use squall_wire::{Message, WireFault, decode};
use std::alloc::Global;

/// The key of eight bytes.
fn key_of(fields: &[u8]) -> Option<Key>
    ensures some { IfSome result (λ k. (k < top) × (fields.now ≡ rank k)) }
    ensures none { IfNone result ((k : ℕ) → k < top → fields.now ≢ rank k) }
{
    match key_at(fields) {
        Some((key, [])) => Some(key),
        _ => None,
    }
}

/// The number of eight bytes.
fn rank_of(fields: &[u8]) -> Option<u64>
    ensures some { IfSome result (λ n. fields.now ≡ rank n) }
    ensures none { IfNone result ((n : ℕ) → fields.now ≢ rank n) }
{
    match rank_at(fields) {
        Some((number, [])) => Some(number),
        _ => None,
    }
}

/// The number of four bytes.
fn word_of(fields: &[u8]) -> Option<u32>
    ensures some { IfSome result (λ n. fields.now ≡ word n) }
    ensures none { IfNone result ((n : ℕ) → fields.now ≢ word n) }
{
    match word_at(fields) {
        Some((number, [])) => Some(number),
        _ => None,
    }
}

/// A put, of its fields.
fn put_of(alloc: Global, fields: &[u8]) -> Result<Record, ReadFault>
    ensures { Reads (1 ∷ fields.now) result }
{
    let Some((key, value)) = key_at(fields) else {
        return Err(ReadFault::Strange);
    };
    let value = Bytes::new(alloc, value)?;
    Ok(Record::Put(key, value))
}

/// A delete, of its fields.
fn delete_of(fields: &[u8]) -> Result<Record, ReadFault>
    ensures { Reads (2 ∷ fields.now) result }
{
    match key_of(fields) {
        Some(key) => Ok(Record::Delete(key)),
        None => Err(ReadFault::Strange),
    }
}

/// A gift, of its fields.
fn give_of(fields: &[u8]) -> Result<Record, ReadFault>
    ensures { Reads (3 ∷ fields.now) result }
{
    match rank_of(fields) {
        Some(most) => Ok(Record::Give(most)),
        None => Err(ReadFault::Strange),
    }
}

/// The gift of a key, of its fields.
fn give_at_of(fields: &[u8]) -> Result<Record, ReadFault>
    ensures { Reads (4 ∷ fields.now) result }
{
    match key_of(fields) {
        Some(key) => Ok(Record::GiveAt(key)),
        None => Err(ReadFault::Strange),
    }
}

/// A load, of its fields.
fn load_of(alloc: Global, fields: &[u8]) -> Result<Record, ReadFault>
    ensures { Reads (5 ∷ fields.now) result }
{
    let Some((chunk, rest)) = chunk_at(fields) else {
        return Err(ReadFault::Strange);
    };
    match rows_of(alloc, rest) {
        Ok(rows) => Ok(Record::Load(chunk, rows)),
        Err(fault) => Err(fault),
    }
}

/// A delta that was absorbed, of its fields.
fn absorb_of(alloc: Global, fields: &[u8]) -> Result<Record, ReadFault>
    ensures { Reads (6 ∷ fields.now) result }
{
    let (message, used) = match decode(alloc, fields) {
        Ok(read) => read,
        Err(WireFault::NoMemory) => return Err(ReadFault::NoMemory),
        Err(_) => return Err(ReadFault::Strange),
    };
    if used != fields.len() {
        return Err(ReadFault::Strange);
    }
    match message {
        Message::Delta(delta) => Ok(Record::Absorb(delta)),
        Message::Digest(_) => Err(ReadFault::Strange),
    }
}

/// The end of a sub-plan, of its fields.
fn finish_of(fields: &[u8]) -> Result<Record, ReadFault>
    ensures { Reads (7 ∷ fields.now) result }
{
    match word_of(fields) {
        Some(sub) => Ok(Record::Finish(sub)),
        None => Err(ReadFault::Strange),
    }
}

/// The end of what is given, of its fields, of which it has none.
fn close_of(fields: &[u8]) -> Result<Record, ReadFault>
    ensures { Reads (8 ∷ fields.now) result }
{
    if fields.is_empty() {
        Ok(Record::Close)
    } else {
        Err(ReadFault::Strange)
    }
}

/// The record of a kind, of its fields.
fn record_of(alloc: Global, kind: u8, fields: &[u8]) -> Result<Record, ReadFault>
    ensures { Reads (kind ∷ fields.now) result }
{
    match kind {
        1 => put_of(alloc, fields),
        2 => delete_of(fields),
        3 => give_of(fields),
        4 => give_at_of(fields),
        5 => load_of(alloc, fields),
        6 => absorb_of(alloc, fields),
        7 => finish_of(fields),
        8 => close_of(fields),
        _ => Err(ReadFault::Strange),
    }
}

/// The record of a payload. `Strange` means that it is the payload of none.
pub fn read_record(alloc: Global, payload: &[u8]) -> Result<Record, ReadFault>
    ensures { Reads payload.now result }
{
    match payload {
        [] => Err(ReadFault::Strange),
        [kind, fields @ ..] => record_of(alloc, *kind, fields),
    }
}
