//! Partitions.

ghost use Rattle.std.specs.Prelude.{◌≡◌, ℕ, ◌<◌, Some, SomeIff};
ghost use Rattle.std.specs.Fmt.{decimal};
ghost use Rattle.squall_key.specs.Keys.{part_limit};

use std::fmt;
use std::marker::Model;

/// The numbers of partitions and sub-plans are below it.
pub const PART_LIMIT: u32 = 10000;

/// The number of a partition, from 0 to 9999. Contracts see it as that number.
#[derive(Clone, Copy, Debug, PartialEq, Eq, PartialOrd, Ord)]
pub struct PartId {
    number: u32,
}

impl Model for PartId {
    ghost use Rattle.std.specs.Prelude.{ℕ, ◌<◌};
    ghost use Rattle.squall_key.specs.Keys.{part_limit};

    ghost Value = { ℕ };

    ghost view = { λ p. p.number };

    ghost invariant = { λ p. p.number < part_limit };

    ghost inverse = { λ n. record { number = n } };
}

impl PartId {
    /// The partition of a number. None above 9999.
    pub fn new(number: u32) -> Option<PartId>
        ensures { SomeIff result (number < part_limit) number }
    {
        if number >= PART_LIMIT {
            return None;
        }
        Some(PartId { number })
    }

    /// The partition of a number that is known to be below the limit.
    pub fn of(number: u32) -> PartId
        requires { number < part_limit }
        ensures { result ≡ number }
    {
        PartId { number }
    }

    /// The number of the partition.
    pub fn get(self) -> u32
        ensures value { result ≡ self }
        ensures below { result < part_limit }
    {
        self.number
    }
}

/// The number in decimal.
impl fmt::Display for PartId {
    ghost output = { λ p. Some (decimal p) };

    fn fmt<W: fmt::Write>(&self, f: &mut fmt::Formatter<W>) -> fmt::Result {
        let number = self.number;
        write!(f, "{number}")
    }
}
