//! What a value has beyond another.

ghost use Rattle.std.specs.Prelude.{◌≡◌, Bool, IfOk};
ghost use Rattle.squall_join.specs.Rests.{BeyondLaws};

use crate::Join;
use std::alloc::{AllocError, Global};

/// A type of which what a value has beyond another is a value again.
///
/// A value is made of units. The units of a set are its keys, those of a pair are the units of its
/// halves, and those of a map are the units of its entries. A number, a flag and at most one value
/// are one unit each. What a value has beyond another is the least value with each of its units
/// that the other lacks.
pub trait Beyond: Join {
    /// Whether the second value has all that the first has.
    ghost covered: { Self → Self → Bool };

    /// The units of a value, each as a value of its own.
    ghost unit: { Self → Self → Type 0 };

    /// What the first value has beyond the second.
    ghost beyond: { Self → Self → Self };

    /// What this value has beyond the other. An error means that an allocation failed.
    fn beyond(&self, alloc: Global, other: &Self) -> Result<Self, AllocError>
        ensures { IfOk result (λ v. v ≡ beyond self.now other.now) };

    /// The laws of what a value has beyond another.
    ghost beyond_laws: { BeyondLaws Self.is_value Self.bottom Self.join covered unit beyond };
}
