//! Legs that the table of a router lends, beside others.

use squall_table::Legs;

/// Whether both are the same legs.
pub(crate) fn are_same(one: Legs, other: Legs) -> bool {
    let mut other = other;
    let mut right = true;
    for leg in one {
        right &= other.next() == Some(leg);
    }
    right && other.next().is_none()
}
