//! Rows in a list.

ghost use Rattle.std.specs.Prelude.{◌≡◌, ◌++◌, ◌∷◌, [], OnOk, OnErr};

use squall_key::Key;
use squall_store::Bytes;
use std::alloc::{AllocError, Global};
use std::marker::Model;

/// Keys that have a value, with their values, in any order. If a key comes twice, its first value
/// counts.
///
/// Contracts see the list.
#[derive(Drop)]
pub struct Listed {
    pub(crate) rows: Vec<(Key, Bytes)>,
}

impl Model for Listed {
    ghost use Rattle.squall_store.specs.Memory.{Values};

    ghost Value = { Values };

    ghost view = { λ l. l.rows.items };
}

impl Listed {
    /// No rows.
    pub fn new(alloc: Global) -> Listed
        ensures { result ≡ [] }
    {
        let rows = Vec::new(alloc);
        Listed { rows }
    }

    /// Adds the value of a key at the end. After an error the list is unchanged.
    pub fn push(&mut self, key: Key, value: Bytes) -> Result<(), AllocError>
        ensures pushed { OnOk result (self.new ≡ self.old ++ ((key, value) ∷ [])) }
        ensures err { OnErr result (self.new ≡ self.old) }
    {
        self.rows.push((key, value))?;
        Ok(())
    }

    /// The keys and their values.
    pub fn as_slice(&self) -> &[(Key, Bytes)]
        ensures { result.now ≡ self.now }
    {
        self.rows.as_slice()
    }
}
