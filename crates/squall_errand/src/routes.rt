//! What sends keys to partitions.

ghost use Rattle.std.specs.Prelude.{◌≡◌, ℕ};

use squall_key::{Key, PartId};

/// What sends each key to a partition, as a router does. An errand starts there.
pub trait Routes {
    /// The partition to which it sends the key of a rank.
    ghost routed: { Self → ℕ → ℕ };

    /// The partition to ask for the key.
    fn route(&self, key: Key) -> PartId
        ensures { result ≡ routed self.now key };
}
