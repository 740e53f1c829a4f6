//! The search among items that end at rising bounds.

ghost use Rattle.std.specs.Prelude.{◌≡◌, ℕ, ◌+◌, ◌-◌, ◌*◌, ◌<◌, ◌≤◌, length};
ghost use Rattle.std.specs.List.Sorted.{IsNonDecreasingBy};
ghost use Rattle.squall_key.specs.Search.{EndedBy, IsSoughtEnd};

use crate::bound::Bound;

/// A search by quarters is slower than one item after the other if at most this many are left.
const FEW: usize = 8;

/// Something that ends at a bound, such as a range of keys.
pub trait Ends {
    /// The bound at which it ends.
    ghost end: { Self → ℕ };

    /// The bound at which it ends.
    fn end(&self) -> Bound
        ensures { result ≡ end self.now };
}

/// The first place of the quarter in which a search goes on. Three ends are read side by side.
#[inline(always)]
fn quarter<T: Ends>(items: &[T], bound: Bound, base: usize, size: usize, step: usize) -> usize
    requires rises { IsNonDecreasingBy T.end items.now }
    requires sought { IsSoughtEnd T.end items.now bound base size }
    requires some { 0 < step }
    requires parts { 4 * step ≤ size + 1 }
    ensures { IsSoughtEnd T.end items.now bound result (size - 3 * step) }
{
    let first = base + step;
    let second = first + step;
    let third = second + step;
    third
        - items[first - 1].end().step_beyond(bound, step)
        - items[second - 1].end().step_beyond(bound, step)
        - items[third - 1].end().step_beyond(bound, step)
}

/// How many items end at the bound or before it. The few items that are left are read one after the
/// other.
#[inline(always)]
fn in_turn<T: Ends>(items: &[T], bound: Bound, base: usize, size: usize) -> usize
    requires rises { IsNonDecreasingBy T.end items.now }
    requires sought { IsSoughtEnd T.end items.now bound base size }
    ensures { EndedBy T.end items.now bound result }
{
    let mut place = base;
    for at in base..base + size {
        place += usize::from(items[at].end() <= bound);
    }
    place
}

/// How many items end at the bound or before it. Their ends must not decrease.
///
/// It searches by quarters, without a branch on the bound: on random keys a processor would
/// mispredict such a branch half the time. The number of turns of its loop depends on the number of
/// items alone.
#[inline(always)]
pub fn ended<T: Ends>(items: &[T], bound: Bound) -> usize
    requires { IsNonDecreasingBy T.end items.now }
    ensures { EndedBy T.end items.now bound result }
{
    let mut base = 0;
    let mut size = items.len();
    while size > FEW {
        // That is (size + 1) / 4. If items have size 0, there may be too many to add 1.
        let step = 1 + (size - 3) / 4;
        base = quarter(items, bound, base, size, step);
        size -= 3 * step;
    }
    in_turn(items, bound, base, size)
}
