//! Why there is no course.

ghost use Rattle.std.specs.Prelude.{◌≡◌, Some};
ghost use Rattle.squall_course.specs.declared.fault.CourseFault.TheVariants.{NoMemory};
ghost use Rattle.squall_course.specs.Faults.{text_of_fault};

use std::alloc::{AllocError, AllocFailed};
use std::error::Error;
use std::fmt;

/// Why two plans make no course.
#[derive(Clone, Copy, Debug, PartialEq, Eq)]
pub enum CourseFault {
    /// The number is 0: reconfigurations count from 1.
    ZeroNumber,
    /// An allocation failed.
    NoMemory,
}

/// The name of the fault.
impl fmt::Display for CourseFault {
    ghost output = { λ e. Some (text_of_fault e) };

    fn fmt<W: fmt::Write>(&self, f: &mut fmt::Formatter<W>) -> fmt::Result {
        match self {
            CourseFault::ZeroNumber => write!(f, "ZeroNumber"),
            CourseFault::NoMemory => write!(f, "NoMemory"),
        }
    }
}

impl Error for CourseFault {}

impl From<AllocError> for CourseFault {
    ghost from_gives = { λ _ e. e ≡ NoMemory };

    fn from(_e: AllocError) -> CourseFault {
        CourseFault::NoMemory
    }
}
