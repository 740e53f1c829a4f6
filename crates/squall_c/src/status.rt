//! The numbers that say how a call ended.

ghost use Rattle.std.specs.Prelude.{◌≡◌, ◌≢◌, ◌≤◌};
ghost use Rattle.squall_plan.specs.declared.fault.PlanFault.TheVariants.{NoMemory};
ghost use Rattle.squall_c.specs.Status.{no_memory, no_place, plan_status, plan_place, cause_with, cause_of_fault};

use squall_plan::PlanFault;
use std::alloc::AllocError;

/// It was done.
pub(crate) const OK: u32 = 0;

/// An allocation failed.
pub(crate) const NO_MEMORY: u32 = 1;

/// A number lies outside its limits, or a span has no key.
pub(crate) const LIMIT: u32 = 2;

/// There is no router behind the handle.
pub(crate) const CLOSED: u32 = 3;

/// A fault ended the stream of frames before.
pub(crate) const FAILED: u32 = 4;

/// A frame would have more bytes than it may have.
pub(crate) const TOO_LONG: u32 = 5;

/// No digest was heard.
pub(crate) const NO_DIGEST: u32 = 6;

/// The router would hear of more than its limit.
pub(crate) const FULL: u32 = 7;

/// No partition.
pub(crate) const NOWHERE: u32 = 4294967295;

/// No entry of a plan, and no key.
pub(crate) const NO_PLACE: u64 = 18446744073709551615;

/// Added to the number of a fault of the old plan.
pub(crate) const IN_OLD_PLAN: u32 = 0;

/// Added to the number of a fault of the new plan.
pub(crate) const IN_NEW_PLAN: u32 = 20;

/// Why a call did nothing.
#[derive(Clone, Copy, Debug, PartialEq, Eq)]
pub struct Cause {
    /// The number that says so.
    pub status: u32,
    /// The place of a fault of a plan: the index of its entry, or the rank of its bound.
    pub at: u64,
}

impl Cause {
    /// The cause that lies in no plan.
    pub(crate) fn with(status: u32) -> Cause
        ensures { result ≡ cause_with status }
    {
        Cause {
            status,
            at: NO_PLACE,
        }
    }

    /// The fault of a plan, to whose number so much is added.
    pub(crate) fn of_fault(added: u32, fault: &PlanFault) -> Cause
        requires { added ≤ 20 }
        ensures cause { result ≡ cause_of_fault added fault.now }
        ensures told { fault.now ≢ NoMemory → result.status ≢ no_memory }
        ensures memory { fault.now ≡ NoMemory → result ≡ cause_with no_memory }
    {
        Cause {
            status: plan_status(added, fault),
            at: plan_place(fault),
        }
    }
}

impl From<AllocError> for Cause {
    ghost use Rattle.std.specs.Prelude.{◌≡◌};
    ghost use Rattle.squall_c.specs.Status.{no_memory, cause_with};

    ghost from_gives = { λ _ e. e ≡ cause_with no_memory };

    fn from(_error: AllocError) -> Cause {
        Cause::with(NO_MEMORY)
    }
}

/// The number of a fault of a plan, with this added to it.
fn plan_status(added: u32, fault: &PlanFault) -> u32
    requires { added ≤ 20 }
    ensures { result ≡ plan_status added fault.now }
{
    match fault {
        PlanFault::Json => 11 + added,
        PlanFault::Shape(_) => 12 + added,
        PlanFault::BadPart(_) => 13 + added,
        PlanFault::BadBound(_) => 14 + added,
        PlanFault::EmptyRange(_) => 15 + added,
        PlanFault::TooMany => 16 + added,
        PlanFault::Overlap(_) => 17 + added,
        PlanFault::Gap(_) => 18 + added,
        PlanFault::NoMemory => NO_MEMORY,
    }
}

/// The place of a fault of a plan.
fn plan_place(fault: &PlanFault) -> u64
    ensures { result ≡ plan_place fault.now }
{
    match fault {
        PlanFault::Shape(Some(entry)) => *entry as u64,
        PlanFault::BadPart(entry) => *entry as u64,
        PlanFault::BadBound(entry) => *entry as u64,
        PlanFault::EmptyRange(entry) => *entry as u64,
        PlanFault::Overlap(bound) => bound.rank(),
        PlanFault::Gap(bound) => bound.rank(),
        PlanFault::Json => NO_PLACE,
        PlanFault::Shape(None) => NO_PLACE,
        PlanFault::TooMany => NO_PLACE,
        PlanFault::NoMemory => NO_PLACE,
    }
}
