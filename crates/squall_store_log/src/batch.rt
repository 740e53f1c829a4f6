//! Rows of a list as rows in memory.

ghost use Rattle.std.specs.Prelude.{◌≡◌, ℕ, IfOk};
ghost use Rattle.squall_store.specs.Memory.{value_at};

use crate::listed::Listed;
use squall_store::{Command, MemoryRows, Rows};
use std::alloc::{AllocError, Global};

/// Rows in memory that have the values of the list. They are put last to first, so the first one of
/// a key stays.
pub(crate) fn batch_of(alloc: Global, rows: &Listed) -> Result<MemoryRows, AllocError>
    ensures { IfOk result (λ batch. (k : ℕ) → value_at batch k ≡ value_at rows.now k) }
{
    let rows = rows.as_slice();
    let mut batch = MemoryRows::new(alloc);
    let mut at = rows.len();
    while at > 0 {
        at -= 1;
        let (key, value) = &rows[at];
        let put = Command::Put(value.copied(alloc)?);
        drop(batch.run(*key, &put)?);
    }
    Ok(batch)
}
