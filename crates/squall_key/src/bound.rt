//! Bounds between keys.

ghost use Rattle.std.specs.Prelude.{◌≡◌, ℕ, ◌+◌, ◌*◌, ◌/◌, ◌%◌, ◌^◌, ◌<◌, ◌≤◌, Some, SomeIff};
ghost use Rattle.squall_key.specs.Keys.{top, bound_at, bound_of, text_of_bound};

use crate::key::{Key, TOP};
use crate::number::read_pair;
use std::fmt;
use std::marker::Model;

/// A bound of a range of keys: a key, or the top, which lies above all keys.
///
/// Contracts see a bound as its rank, a number up to 18446744069414584320, the rank of the top.
#[derive(Clone, Copy, Debug, PartialEq, Eq, PartialOrd, Ord)]
pub struct Bound {
    rank: u64,
}

impl Model for Bound {
    ghost use Rattle.std.specs.Prelude.{ℕ, ◌≤◌};
    ghost use Rattle.squall_key.specs.Keys.{top};

    ghost Value = { ℕ };

    ghost view = { λ b. b.rank };

    ghost invariant = { λ b. b.rank ≤ top };

    ghost inverse = { λ n. record { rank = n } };
}

impl Bound {
    /// The bound above all keys: (4294967295, 0), printed `end`.
    pub const TOP: Bound = Bound { rank: TOP };

    /// The bound `root:second`. None if root is 4294967295 and second is not 0, since the top is
    /// the only bound of that root.
    pub fn new(root: u32, second: u32) -> Option<Bound>
        ensures { result ≡ bound_at root second }
    {
        Bound::of_rank(u64::from(root) * 4294967296 + u64::from(second))
    }

    /// The bound of a rank. None above 18446744069414584320.
    pub fn of_rank(rank: u64) -> Option<Bound>
        ensures { SomeIff result (rank ≤ top) rank }
    {
        if rank > TOP {
            return None;
        }
        Some(Bound { rank })
    }

    /// The bound at a key.
    pub fn of_key(key: Key) -> Bound
        ensures { result ≡ key }
    {
        Bound { rank: key.rank() }
    }

    /// The bound that the text spells: `end` for the top, else `r:s`, each number 1 to 10 decimal
    /// digits, leading zeros allowed. None for any other text.
    pub fn read(text: &str) -> Option<Bound>
        ensures { result ≡ bound_of text.now }
    {
        Bound::read_bytes(text.as_bytes())
    }

    /// [`Bound::read`] of bytes that may be no UTF-8.
    pub fn read_bytes(text: &[u8]) -> Option<Bound>
        ensures { result ≡ bound_of text.now }
    {
        if text == b"end".as_slice() {
            return Some(Bound::TOP);
        }
        let (root, second) = read_pair(text)?;
        Bound::new(root, second)
    }

    /// The place of the bound in the order of bounds: how many keys lie below it.
    pub fn rank(self) -> u64
        ensures value { result ≡ self }
        ensures high { result ≤ top }
    {
        self.rank
    }

    /// The first number of the bound.
    pub fn root(self) -> u32
        ensures { result ≡ self / 2 ^ 32 }
    {
        (self.rank / 4294967296) as u32
    }

    /// The second number of the bound.
    pub fn second(self) -> u32
        ensures { result ≡ self % 2 ^ 32 }
    {
        (self.rank % 4294967296) as u32
    }

    /// `step` if this bound lies beyond the other, else 0. It is made of the bits of a borrow, so a
    /// search that steps by it has no branch on the bounds that it compares.
    #[inline(always)]
    pub fn step_beyond(self, other: Bound, step: usize) -> usize
        ensures beyond { other < self → result ≡ step }
        ensures not_beyond { self ≤ other → result ≡ 0 }
    {
        let borrow = u128::from(other.rank).wrapping_sub(u128::from(self.rank)) >> 64;
        step & borrow as usize
    }
}

/// `root:second`, without leading zeros, or `end` for the top.
impl fmt::Display for Bound {
    ghost output = { λ b. Some (text_of_bound b) };

    fn fmt<W: fmt::Write>(&self, f: &mut fmt::Formatter<W>) -> fmt::Result {
        if self.rank == TOP {
            return write!(f, "end");
        }
        let root = self.root();
        let second = self.second();
        write!(f, "{root}:{second}")
    }
}
