//! Payloads of records.

ghost use Rattle.std.specs.Prelude.{◌≡◌, ◌++◌, ◌∷◌, ◌<◌, [], IfOk, OnOk};
ghost use Rattle.std.specs.List.{AllByRecursion};
ghost use Rattle.squall_key.specs.Keys.{top};
ghost use Rattle.squall_wire.specs.declared.message.Message.TheVariants.{Delta as DeltaMessage};
ghost use Rattle.squall_wire.specs.Messages.{spell, IsMessage};
ghost use Rattle.squall_store_log.specs.Records.{word, rank, spell_chunk, spell_row, spell_rows, spell_record, Fits, FitsChunk, FitsRow};

use crate::fields::{write_rank, write_word};
use crate::listed::Listed;
use crate::parts::write_chunk;
use crate::record::Record;
use squall_board::Delta;
use squall_key::Key;
use squall_log::{LogFault, PAYLOAD_LIMIT};
use squall_protocol::Chunk;
use squall_store::Bytes;
use squall_wire::{EncodeFault, encode_board};
use std::alloc::{AllocError, Global};

/// A payload that has only its kind yet.
fn started(alloc: Global, kind: u8) -> Result<Vec<u8>, AllocError>
    ensures { IfOk result (λ bytes. bytes.items ≡ kind ∷ []) }
{
    Vec::from_slice(alloc, &[kind])
}

/// The payload of a kind, a key and what follows it.
fn key_payload(alloc: Global, kind: u8, key: Key, rest: &[u8]) -> Result<Vec<u8>, AllocError>
    ensures bytes { IfOk result (λ bytes. bytes.items ≡ kind ∷ (rank key ++ rest.now)) }
    ensures below { key < top }
{
    let number = key.rank();
    let mut out = started(alloc, kind)?;
    write_rank(&mut out, number)?;
    out.extend_from_slice(rest)?;
    Ok(out)
}

/// The payload of a kind and a number of eight bytes.
fn rank_payload(alloc: Global, kind: u8, number: u64) -> Result<Vec<u8>, AllocError>
    ensures { IfOk result (λ bytes. bytes.items ≡ kind ∷ rank number) }
{
    let mut out = started(alloc, kind)?;
    write_rank(&mut out, number)?;
    Ok(out)
}

/// The payload of a kind and a number of four bytes.
fn word_payload(alloc: Global, kind: u8, number: u32) -> Result<Vec<u8>, AllocError>
    ensures { IfOk result (λ bytes. bytes.items ≡ kind ∷ word number) }
{
    let mut out = started(alloc, kind)?;
    write_word(&mut out, number)?;
    Ok(out)
}

/// Adds the bytes of a row.
fn write_row(out: &mut Vec<u8>, key: Key, value: &Bytes) -> Result<(), LogFault>
    ensures written { OnOk result (out.new.items ≡ out.old.items ++ spell_row (key, value.now)) }
    ensures fits { OnOk result (FitsRow (key, value.now)) }
{
    let value = value.as_slice();
    if value.len() > PAYLOAD_LIMIT {
        return Err(LogFault::TooLong);
    }
    write_rank(out, key.rank())?;
    write_word(out, value.len() as u32)?;
    out.extend_from_slice(value)?;
    Ok(())
}

/// Adds the bytes of rows.
fn write_rows(out: &mut Vec<u8>, rows: &[(Key, Bytes)]) -> Result<(), LogFault>
    ensures written { OnOk result (out.new.items ≡ out.old.items ++ spell_rows rows.now) }
    ensures fits { OnOk result (AllByRecursion FitsRow rows.now) }
{
    for row in rows {
        write_row(out, row.0, &row.1)?;
    }
    Ok(())
}

/// The payload of a load.
fn load_payload(alloc: Global, chunk: &Chunk, rows: &Listed) -> Result<Vec<u8>, LogFault>
    ensures bytes { IfOk result (λ bytes. bytes.items ≡ 5 ∷ (spell_chunk chunk.now ++ spell_rows rows.now)) }
    ensures chunk { OnOk result (FitsChunk chunk.now) }
    ensures rows { OnOk result (AllByRecursion FitsRow rows.now) }
{
    let mut out = started(alloc, 5)?;
    write_chunk(&mut out, chunk)?;
    write_rows(&mut out, rows.as_slice())?;
    Ok(out)
}

/// The payload of a delta that was absorbed.
fn absorb_payload(alloc: Global, delta: &Delta) -> Result<Vec<u8>, LogFault>
    ensures bytes { IfOk result (λ bytes. bytes.items ≡ 6 ∷ spell (DeltaMessage delta.now)) }
    ensures fits { OnOk result (IsMessage (DeltaMessage delta.now)) }
{
    let frame = match encode_board(alloc, delta) {
        Ok(frame) => frame,
        Err(EncodeFault::TooLong) => return Err(LogFault::TooLong),
        Err(EncodeFault::NoMemory) => return Err(LogFault::NoMemory),
    };
    let mut out = started(alloc, 6)?;
    out.extend_from_slice(&frame)?;
    Ok(out)
}

/// The payload of a record. `TooLong` means that a delta has no frame, or that a value is too long.
pub fn payload_of(alloc: Global, record: &Record) -> Result<Vec<u8>, LogFault>
    ensures bytes { IfOk result (λ bytes. bytes.items ≡ spell_record record.now) }
    ensures fits { OnOk result (Fits record.now) }
{
    match record {
        Record::Put(key, value) => Ok(key_payload(alloc, 1, *key, value.as_slice())?),
        Record::Delete(key) => Ok(key_payload(alloc, 2, *key, &[])?),
        Record::Give(most) => Ok(rank_payload(alloc, 3, *most)?),
        Record::GiveAt(key) => Ok(key_payload(alloc, 4, *key, &[])?),
        Record::Load(chunk, rows) => load_payload(alloc, chunk, rows),
        Record::Absorb(delta) => absorb_payload(alloc, delta),
        Record::Finish(sub) => Ok(word_payload(alloc, 7, *sub)?),
        Record::Close => Ok(started(alloc, 8)?),
    }
}
