//! Why bytes are not a message.

ghost use Rattle.std.specs.Prelude.{◌≡◌, Some};
ghost use Rattle.squall_wire.specs.declared.fault.WireFault.TheVariants.{NoMemory};
ghost use Rattle.squall_wire.specs.FaultText.{text_of_fault};

use std::alloc::{AllocError, AllocFailed};
use std::error::Error;
use std::fmt;

/// Why bytes do not begin with the frame of a message: the first fault from the beginning.
#[derive(Clone, Copy, Debug, PartialEq, Eq)]
pub enum WireFault {
    /// The first two bytes are not 53 and 51.
    Magic,
    /// The third byte is neither 01 nor 02.
    Version,
    /// The fourth byte is neither 01 nor 02.
    Kind,
    /// By its head the body has more than 1,048,576 bytes.
    TooLong,
    /// The bytes end before the head or the body does.
    Short,
    /// The body has too few bytes left for the next item.
    Count,
    /// A field of an item lies outside its limits, or a cell says nothing.
    Range,
    /// An item does not come after the one before it.
    Order,
    /// Bytes are left in the body after its last item.
    Spare,
    /// An allocation failed.
    NoMemory,
}

/// The name of the fault.
impl fmt::Display for WireFault {
    ghost output = { λ e. Some (text_of_fault e) };

    fn fmt<W: fmt::Write>(&self, f: &mut fmt::Formatter<W>) -> fmt::Result {
        match self {
            WireFault::Magic => write!(f, "Magic"),
            WireFault::Version => write!(f, "Version"),
            WireFault::Kind => write!(f, "Kind"),
            WireFault::TooLong => write!(f, "TooLong"),
            WireFault::Short => write!(f, "Short"),
            WireFault::Count => write!(f, "Count"),
            WireFault::Range => write!(f, "Range"),
            WireFault::Order => write!(f, "Order"),
            WireFault::Spare => write!(f, "Spare"),
            WireFault::NoMemory => write!(f, "NoMemory"),
        }
    }
}

impl Error for WireFault {}

impl From<AllocError> for WireFault {
    ghost from_gives = { λ _ e. e ≡ NoMemory };

    fn from(_e: AllocError) -> WireFault {
        WireFault::NoMemory
    }
}

impl<T: Drop> From<AllocFailed<T>> for WireFault {
    ghost from_gives = { λ _ e. e ≡ NoMemory };

    fn from(_e: AllocFailed<T>) -> WireFault {
        WireFault::NoMemory
    }
}
