//! The entries of two maps, merged.

ghost use Rattle.std.specs.Prelude.{◌≡◌, ◌++◌, IfOk, OnOk};
ghost use Rattle.squall_join.specs.Entries.{merged};

use crate::Join;
use crate::map::MapKey;
use std::alloc::{AllocError, Global};
use std::cmp::Ordering;

/// Adds copies of the entries at the end.
pub(crate) fn push_copies<K: MapKey, V: Join>(
    alloc: Global,
    out: &mut Vec<(K, V)>,
    entries: &[(K, V)],
) -> Result<(), AllocError>
    ensures { OnOk result (out.new.items ≡ out.old.items ++ entries.now) }
{
    for entry in entries {
        out.push((entry.0, entry.1.copied(alloc)?))?;
    }
    Ok(())
}

/// The entries of both, in one pass. Room is made at first for as many as the longer one has: they
/// are no fewer.
pub(crate) fn merge<K: MapKey, V: Join>(
    alloc: Global,
    a: &[(K, V)],
    b: &[(K, V)],
) -> Result<Vec<(K, V)>, AllocError>
    ensures { IfOk result (λ out. out.items ≡ merged K.cmp V.join a.now b.now) }
{
    let mut out = Vec::with_capacity(alloc, a.len().max(b.len()))?;
    let mut i = 0;
    let mut j = 0;
    while i < a.len() && j < b.len() {
        let x = &a[i];
        let y = &b[j];
        match x.0.cmp(&y.0) {
            Ordering::Less => {
                out.push((x.0, x.1.copied(alloc)?))?;
                i += 1;
            }
            Ordering::Equal => {
                out.push((x.0, x.1.joined(alloc, &y.1)?))?;
                i += 1;
                j += 1;
            }
            Ordering::Greater => {
                out.push((y.0, y.1.copied(alloc)?))?;
                j += 1;
            }
        }
    }
    push_copies(alloc, &mut out, &a[i..])?;
    push_copies(alloc, &mut out, &b[j..])?;
    Ok(out)
}
