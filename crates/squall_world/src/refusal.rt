//! The faults of nodes as refusals.

ghost use Rattle.std.specs.Prelude.{◌≡◌, ◌≢◌, Ok};
ghost use Rattle.squall_protocol.specs.declared.answer.Answer.TheVariants.{Refused};
ghost use Rattle.squall_leader.specs.declared.fault.LeaderFault.TheVariants.{Running, NoNumber, Idle};
ghost use Rattle.squall_nodes.specs.PartCalls.{give_refusal, load_refusal, finish_refusal};
ghost use Rattle.squall_nodes.specs.LeaderCalls.{open_refusal};
ghost use Rattle.squall_world.specs.Events.{answer_of};

use squall_leader::LeaderFault;
use squall_part::{FinishFault, GiveFault, LoadFault};
use squall_protocol::{Answer, Refusal};
use std::alloc::AllocError;

/// The answer that nothing changed.
pub(crate) fn refused(refusal: Refusal) -> Result<Answer, AllocError>
    ensures { result ≡ Ok (Refused refusal) }
{
    Ok(Answer::Refused(refusal))
}

/// Why nothing was given.
pub(crate) fn not_given(fault: GiveFault) -> Result<Answer, AllocError>
    ensures { answer_of (give_refusal fault) result }
{
    refused(match fault {
        GiveFault::NotOpen => Refusal::NotOpen,
        GiveFault::Ended => Refusal::Ended,
        GiveFault::NothingLeft => Refusal::NothingLeft,
        GiveFault::ZeroMax => Refusal::ZeroMax,
        GiveFault::NotOutgoing => Refusal::NotOutgoing,
        GiveFault::Given => Refusal::Given,
        GiveFault::NotHeld => Refusal::NotHeld,
        GiveFault::NoMemory => return Err(AllocError),
    })
}

/// Why a chunk was not loaded.
pub(crate) fn not_loaded(fault: LoadFault) -> Result<Answer, AllocError>
    ensures { answer_of (load_refusal fault) result }
{
    refused(match fault {
        LoadFault::NotOpen => Refusal::NotOpen,
        LoadFault::Stranger => Refusal::Stranger,
        LoadFault::NoMemory => return Err(AllocError),
    })
}

/// Why a sub-plan was not finished.
pub(crate) fn not_finished(fault: FinishFault) -> Result<Answer, AllocError>
    ensures { answer_of (finish_refusal fault) result }
{
    refused(match fault {
        FinishFault::NotOpen => Refusal::NotOpen,
        FinishFault::NotAll(span) => Refusal::NotAll(span),
        FinishFault::NothingDue => Refusal::NothingDue,
        FinishFault::NoMemory => return Err(AllocError),
    })
}

/// Why no sub-plan was opened, if a course is begun.
pub(crate) fn not_opened(fault: LeaderFault) -> Result<Answer, AllocError>
    requires running { fault ≢ Running }
    requires number { fault ≢ NoNumber }
    requires idle { fault ≢ Idle }
    ensures { answer_of (open_refusal fault) result }
{
    refused(match fault {
        LeaderFault::NotDone { sub, part } => Refusal::NotDone { sub, part },
        LeaderFault::NoMore => Refusal::NoMore,
        LeaderFault::NoMemory => return Err(AllocError),
        LeaderFault::Running | LeaderFault::NoNumber | LeaderFault::Idle => unreachable!(),
    })
}
