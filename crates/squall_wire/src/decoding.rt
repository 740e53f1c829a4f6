//! Messages from the bytes of frames.

ghost use Rattle.std.specs.Prelude.{◌≡◌, ◌≤◌, ◌++◌, ℕ, List, Ok, length, take, IfOk};
ghost use Rattle.squall_wire.specs.declared.message.Message.{Message as MessageValue};
ghost use Rattle.squall_wire.specs.Messages.{body_of, spell, IsMessage, IsContent};
ghost use Rattle.squall_wire.specs.Reading.{Gives, message_at};

use crate::fault::WireFault;
use crate::message::Message;
use crate::reading::body::message_of;
use crate::reading::frame::frame_of;
use std::alloc::Global;

/// Changes nothing: after it a proof knows that a board is one.
fn know(message: &Message)
    ensures { IsContent message.now }
{
    if let Message::Delta(board) = message {
        board.known();
    }
}

/// What the first frame says, and how many bytes the frame takes.
#[tactic(auto, unfolding(crate::specs::Reading::message_at))]
fn read(alloc: Global, bytes: &[u8]) -> Result<(Message, usize), WireFault>
    ensures answer { Gives (λ x. (body_of x.0, x.1)) result (message_at bytes.now) }
    ensures content { IfOk result (λ x. IsContent x.0) }
{
    let frame = frame_of(bytes)?;
    let message = message_of(alloc, frame.version, frame.kind, frame.body)?;
    know(&message);
    Ok((message, 8 + frame.body.len()))
}

/// The message whose frame is first in the bytes, and how many bytes the frame takes. The body is
/// read only if it is whole, and what follows the frame is not read. It allocates no more than the
/// bytes of the body justify.
///
/// The error is the first fault from the beginning of the bytes, or that an allocation failed.
pub fn decode(alloc: Global, bytes: &[u8]) -> Result<(Message, usize), WireFault>
    ensures answer { Gives (λ x. (body_of x.0, x.1)) result (message_at bytes.now) }
    ensures spelled { IfOk result (λ x. IsMessage x.0 × (x.1 ≤ length bytes.now) × (take x.1 bytes.now ≡ spell x.0)) }
    ensures only { (m : MessageValue) (rest : List ℕ) → IsMessage m → bytes.now ≡ spell m ++ rest → Gives (λ x. x) result (Ok (m, length (spell m))) }
{
    read(alloc, bytes)
}
