//! Why there is no plan that differs as asked.

ghost use Rattle.std.specs.Prelude.{◌≡◌, Some};
ghost use Rattle.squall_plan_edit.specs.declared.fault.EditFault.TheVariants.{NoMemory};
ghost use Rattle.squall_plan_edit.specs.Faults.{text_of_fault};

use std::alloc::AllocError;
use std::error::Error;
use std::fmt;

/// Why there is no plan that differs as asked.
#[derive(Clone, Copy, Debug, PartialEq, Eq)]
pub enum EditFault {
    /// The plan would have more than 4096 ranges.
    Many,
    /// An allocation failed.
    NoMemory,
}

/// The name of the fault.
impl fmt::Display for EditFault {
    ghost output = { λ e. Some (text_of_fault e) };

    fn fmt<W: fmt::Write>(&self, f: &mut fmt::Formatter<W>) -> fmt::Result {
        match self {
            EditFault::Many => write!(f, "Many"),
            EditFault::NoMemory => write!(f, "NoMemory"),
        }
    }
}

impl Error for EditFault {}

impl From<AllocError> for EditFault {
    ghost from_gives = { λ _ e. e ≡ NoMemory };

    fn from(_error: AllocError) -> EditFault {
        EditFault::NoMemory
    }
}
