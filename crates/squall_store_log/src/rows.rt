//! Rows in the payloads of records.

ghost use Rattle.std.specs.Prelude.{◌≡◌, ◌≢◌, ◌++◌, ◌<◌, ◌^◌, ℕ, List, length, IfOk, IfSome, IfNone, Err};
ghost use Rattle.squall_store_log.specs.Records.{word, spell_row, FitsRow, IsPushed, ReadsRows};
ghost use Rattle.squall_store_log.specs.declared.fault.ReadFault.TheVariants.{Strange};

use crate::fault::ReadFault;
use crate::fields::{key_at, word_at};
use crate::listed::Listed;
use squall_key::Key;
use squall_store::Bytes;
use std::alloc::{AllocError, Global};

/// The length and the value that begin the bytes, and the bytes after them.
fn value_at(bytes: &[u8]) -> Option<(&[u8], &[u8])>
    ensures some { IfSome result (λ x. (length x.0.now < 2 ^ 32) × (bytes.now ≡ word (length x.0.now) ++ (x.0.now ++ x.1.now))) }
    ensures none { IfNone result ((v : List ℕ) (rest : List ℕ) → length v < 2 ^ 32 → bytes.now ≢ word (length v) ++ (v ++ rest)) }
{
    let (size, rest) = word_at(bytes)?;
    if rest.len() < size as usize {
        return None;
    }
    Some(rest.split_at(size as usize))
}

/// The row that begins the bytes, and the bytes after it.
fn row_at(alloc: Global, bytes: &[u8]) -> Result<((Key, Bytes), &[u8]), ReadFault>
    ensures some { IfOk result (λ x. FitsRow x.0 × (bytes.now ≡ spell_row x.0 ++ x.1.now)) }
    ensures strange { result ≡ Err Strange → (e : ℕ × List ℕ) (rest : List ℕ) → FitsRow e → bytes.now ≢ spell_row e ++ rest }
{
    let Some((key, rest)) = key_at(bytes) else {
        return Err(ReadFault::Strange);
    };
    let Some((value, rest)) = value_at(rest) else {
        return Err(ReadFault::Strange);
    };
    Ok(((key, Bytes::new(alloc, value)?), rest))
}

/// Adds the row that begins the bytes, and gives the bytes after it.
fn push_row<'a>(rows: &mut Listed, alloc: Global, bytes: &'a [u8]) -> Result<&'a [u8], ReadFault>
    ensures ok { IfOk result (λ rest. IsPushed rows.old rows.new bytes.now rest.now) }
    ensures strange { result ≡ Err Strange → (e : ℕ × List ℕ) (rest : List ℕ) → FitsRow e → bytes.now ≢ spell_row e ++ rest }
{
    let ((key, value), rest) = match row_at(alloc, bytes) {
        Ok(read) => read,
        Err(fault) => return Err(fault),
    };
    rows.push(key, value)?;
    Ok(rest)
}

/// The rows of bytes.
pub(crate) fn rows_of(alloc: Global, bytes: &[u8]) -> Result<Listed, ReadFault>
    ensures { ReadsRows bytes.now result }
{
    let mut rows = Listed::new(alloc);
    let mut rest = bytes;
    while !rest.is_empty() {
        match push_row(&mut rows, alloc, rest) {
            Ok(after) => rest = after,
            Err(fault) => return Err(fault),
        }
    }
    Ok(rows)
}
