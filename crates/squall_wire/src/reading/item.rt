//! Items of lists.

ghost use Rattle.std.specs.Prelude.{◌≡◌, ℕ, List};
ghost use Rattle.squall_wire.specs.Reading.{Gives, Read};

use crate::fault::WireFault;
use std::alloc::Global;

/// An item of a list. Whether it fits depends on the point: on what matters of the list so far.
pub(crate) trait Item: Drop {
    /// What matters of a list so far.
    type Point: Copy;

    /// The item that begins bytes.
    ghost read_at: { Self.Point → List ℕ → Read Self };

    /// The point of a list after an item.
    ghost next: { Self.Point → Self → Self.Point };

    /// The item that begins the bytes, and the bytes after it. The error is the first fault of the
    /// item, or that an allocation failed.
    fn read(alloc: Global, point: Self::Point, bytes: &[u8]) -> Result<(Self, &[u8]), WireFault>
        ensures { Gives (λ x. (x.0, x.1.now)) result (read_at point bytes.now) };

    /// The point after the item, of a list that was at this point.
    fn after(&self, point: Self::Point) -> Self::Point
        ensures { result ≡ next point self.now };
}
