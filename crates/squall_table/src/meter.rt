//! What patches took up, counted.

ghost use Rattle.std.specs.Prelude.{◌≡◌};

use std::marker::Model;

/// Counts what patches of a table take up: moves of the course, and entries of the table before the
/// patch. Each counts at most once a patch. Contracts see a meter as that count.
#[derive(Debug, Drop)]
pub struct Meter {
    pub(crate) count: u64,
}

impl Model for Meter {
    ghost use Rattle.std.specs.Prelude.{ℕ};

    ghost Value = { ℕ };

    ghost view = { λ m. m.count };
}

impl Meter {
    /// A meter that has counted nothing.
    pub fn new() -> Meter
        ensures { result ≡ 0 }
    {
        Meter { count: 0 }
    }

    /// How many moves and entries were taken up.
    pub fn count(&self) -> u64
        ensures { result ≡ self.now }
    {
        self.count
    }
}
