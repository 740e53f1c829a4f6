//! What one frame of a file says.

ghost use Rattle.std.specs.Prelude.{◌≡◌, ◌≢◌, [], Err, IfOk, IfErr};
ghost use Rattle.squall_board.specs.Boards.{BoardValue};
ghost use Rattle.squall_wire.specs.Messages.{body_of};
ghost use Rattle.squall_cli_boards.specs.Files.{joined_file, digest_of_file};
ghost use Rattle.squall_cli_boards.specs.Joined.{IsFirstOf};

use squall_wire::{Digest, Message, WireFault, decode};
use std::alloc::{AllocError, Global};

/// The fault of a file, unless it is that of a failed allocation.
fn file_fault(fault: WireFault) -> Result<WireFault, AllocError>
    ensures { IfOk result (λ told. (told ≡ fault) × (fault ≢ WireFault.NoMemory)) }
{
    match fault {
        WireFault::NoMemory => Err(AllocError),
        other => Ok(other),
    }
}

/// What the first frame of a file says, and the bytes after the frame; or the fault of the file. An
/// error means that an allocation failed.
pub(crate) fn first_frame(
    alloc: Global,
    bytes: &[u8],
) -> Result<Result<(Message, &[u8]), WireFault>, AllocError>
    requires { bytes.now ≢ [] }
    ensures frame { IfOk result (λ first. IfOk first (λ x. IsFirstOf bytes.now (body_of x.0) x.1.now)) }
    ensures fault { IfOk result (λ first. IfErr first (λ fault. (board : BoardValue) → joined_file board bytes.now ≡ Err fault)) }
{
    match decode(alloc, bytes) {
        Ok((message, used)) => Ok(Ok((message, bytes.split_at(used).1))),
        Err(fault) => Ok(Err(file_fault(fault)?)),
    }
}

/// The digest of a file that is the frame of one, or the fault of the file; and apart from both a
/// failed allocation.
pub(crate) fn read_digest(
    alloc: Global,
    bytes: &[u8],
) -> Result<Result<Digest, WireFault>, AllocError>
    ensures { IfOk result (λ digest. digest_of_file bytes.now ≡ digest) }
{
    match decode(alloc, bytes) {
        Ok((Message::Digest(digest), used)) if used == bytes.len() => Ok(Ok(digest)),
        Ok((Message::Digest(_), _)) => Ok(Err(WireFault::Spare)),
        Ok((Message::Delta(_), _)) => Ok(Err(WireFault::Kind)),
        Err(fault) => Ok(Err(file_fault(fault)?)),
    }
}
