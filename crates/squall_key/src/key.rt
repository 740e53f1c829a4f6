//! Keys.

ghost use Rattle.std.specs.Prelude.{◌≡◌, ℕ, ◌+◌, ◌*◌, ◌/◌, ◌%◌, ◌^◌, ◌<◌, Some, SomeIff};
ghost use Rattle.squall_key.specs.Keys.{top, key_at, key_of, text_of_key};

use crate::number::read_pair;
use std::fmt;
use std::marker::Model;

/// The rank of the pair (4294967295, 0). Each key's rank is below it.
pub(crate) const TOP: u64 = 18446744069414584320;

/// A key: a root from 0 to 4294967294 and a second from 0 to 4294967295.
///
/// Contracts see a key as its rank, `root * 2^32 + second`, a number below
/// 18446744069414584320.
#[derive(Clone, Copy, Debug, PartialEq, Eq, PartialOrd, Ord)]
pub struct Key {
    rank: u64,
}

impl Model for Key {
    ghost use Rattle.std.specs.Prelude.{ℕ, ◌<◌};
    ghost use Rattle.squall_key.specs.Keys.{top};

    ghost Value = { ℕ };

    ghost view = { λ k. k.rank };

    ghost invariant = { λ k. k.rank < top };

    ghost inverse = { λ n. record { rank = n } };
}

impl Key {
    /// The key `root:second`. None if root is 4294967295, which no key has.
    pub fn new(root: u32, second: u32) -> Option<Key>
        ensures { result ≡ key_at root second }
    {
        if root == u32::MAX {
            return None;
        }
        Some(Key {
            rank: u64::from(root) * 4294967296 + u64::from(second),
        })
    }

    /// The key of a rank. None if it is 18446744069414584320 or more.
    pub fn of_rank(rank: u64) -> Option<Key>
        ensures { SomeIff result (rank < top) rank }
    {
        if rank >= TOP {
            return None;
        }
        Some(Key { rank })
    }

    /// The key that the text spells: `r:s`, each number 1 to 10 decimal digits, leading zeros
    /// allowed. None for any other text.
    pub fn read(text: &str) -> Option<Key>
        ensures { result ≡ key_of text.now }
    {
        Key::read_bytes(text.as_bytes())
    }

    /// [`Key::read`] of bytes that may be no UTF-8.
    pub fn read_bytes(text: &[u8]) -> Option<Key>
        ensures { result ≡ key_of text.now }
    {
        let (root, second) = read_pair(text)?;
        Key::new(root, second)
    }

    /// The place of the key in the order of keys.
    pub fn rank(self) -> u64
        ensures value { result ≡ self }
        ensures below { result < top }
    {
        self.rank
    }

    /// The first number of the key.
    pub fn root(self) -> u32
        ensures { result ≡ self / 2 ^ 32 }
    {
        (self.rank / 4294967296) as u32
    }

    /// The second number of the key.
    pub fn second(self) -> u32
        ensures { result ≡ self % 2 ^ 32 }
    {
        (self.rank % 4294967296) as u32
    }
}

/// `root:second`, without leading zeros.
impl fmt::Display for Key {
    ghost output = { λ k. Some (text_of_key k) };

    fn fmt<W: fmt::Write>(&self, f: &mut fmt::Formatter<W>) -> fmt::Result {
        let root = self.root();
        let second = self.second();
        write!(f, "{root}:{second}")
    }
}
