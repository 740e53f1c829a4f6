//! Entries at the end of a log.

ghost use Rattle.std.specs.Prelude.{◌≡◌, ◌++◌, ◌<◌, ◌≤◌, length, Err, IfOk, OnOk, OnErr};
ghost use Rattle.squall_log.specs.declared.fault.LogFault.TheVariants.{TooLong};
ghost use Rattle.squall_log.specs.Entries.{payload_limit, head, entry};

use crate::check::sum_of;
use crate::entry::PAYLOAD_LIMIT;
use crate::fault::LogFault;
use std::alloc::{AllocError, Global};

/// How many bytes an entry has before its payload.
const FRONT: usize = 12;

/// The head of an entry whose payload has that many bytes.
#[tactic(auto, unfolding(crate::specs::Entries::head))]
fn head_of(size: u32) -> [u8; 8]
    ensures { result ≡ head size }
{
    let word = size.to_be_bytes();
    let mut bytes = [0; 8];
    bytes[..4].copy_from_slice(&word);
    bytes[4..].copy_from_slice(&sum_of(&word));
    bytes
}

/// The bytes of an entry. An error means that an allocation failed.
fn entry_of(alloc: Global, payload: &[u8]) -> Result<Vec<u8>, AllocError>
    requires { length payload.now ≤ payload_limit }
    ensures { IfOk result (λ bytes. bytes.items ≡ entry payload.now) }
{
    let mut bytes = Vec::with_capacity(alloc, FRONT + payload.len())?;
    bytes.extend_from_slice(&head_of(payload.len() as u32))?;
    bytes.extend_from_slice(&sum_of(payload))?;
    bytes.extend_from_slice(payload)?;
    Ok(bytes)
}

/// Adds the entry of the payload to the log. After an error the log is unchanged.
pub fn push_entry(log: &mut Vec<u8>, payload: &[u8]) -> Result<(), LogFault>
    ensures added { OnOk result (log.new.items ≡ log.old.items ++ entry payload.now) }
    ensures short { OnOk result (length payload.now ≤ payload_limit) }
    ensures long { result ≡ Err TooLong → payload_limit < length payload.now }
    ensures err { OnErr result (log.new.items ≡ log.old.items) }
{
    if payload.len() > PAYLOAD_LIMIT {
        return Err(LogFault::TooLong);
    }
    let entry = entry_of(*log.allocator(), payload)?;
    log.extend_from_slice(&entry)?;
    Ok(())
}
