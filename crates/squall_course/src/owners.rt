//! Which partition has a key before a change, and which after it.

use squall_key::PartId;

/// The owners of a key, and the sub-plan in which it moves from the one to the other. Contracts see
/// the partitions as their numbers.
#[derive(Clone, Copy, Debug, PartialEq, Eq)]
pub struct Owners {
    /// Its partition in the old plan.
    pub old: PartId,
    /// Its partition in the new plan.
    pub new: PartId,
    /// The sub-plan in which it moves. None if both partitions are the same.
    pub sub: Option<u32>,
}
