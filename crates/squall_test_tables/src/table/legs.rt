//! Legs that a table lends, beside others.

use squall_table::Legs;

/// How many legs there are.
pub(crate) fn count(legs: Legs) -> usize {
    let mut count = 0usize;
    for _leg in legs {
        count = count.wrapping_add(1);
    }
    count
}

/// Whether both are the same legs.
pub(crate) fn are_same(one: Legs, other: Legs) -> bool {
    let mut other = other;
    let mut right = true;
    for leg in one {
        right &= other.next() == Some(leg);
    }
    right && other.next().is_none()
}
