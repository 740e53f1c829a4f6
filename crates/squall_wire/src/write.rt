//! Writing at the end of bytes.

ghost use Rattle.std.specs.Prelude.{◌≡◌, ◌++◌, ◌<◌, ℕ, List, length, OnOk, Err};
ghost use Rattle.std.specs.List.{flat_map, AllByRecursion};
ghost use Rattle.squall_wire.specs.declared.encoding.EncodeFault.TheVariants.{TooLong};
ghost use Rattle.squall_wire.specs.Limits.{body_limit};
ghost use Rattle.squall_wire.specs.Messages.{version_with};
ghost use Rattle.squall_wire.specs.Spelling.{word, spell_list, spell_some};

use crate::encoding::EncodeFault;
use std::alloc::AllocError;

/// The most bytes that a body of a frame has.
pub(crate) const BODY_LIMIT: usize = 1_048_576;

/// A type whose values have a spelling.
pub(crate) trait Spelled {
    /// The bytes of a value.
    ghost spelling: { Self → List ℕ };

    /// What holds of each value of the type.
    ghost holds: { Self → Type 0 } = { λ _. Unit {0} };

    /// Adds the bytes of the value. An error means that an allocation failed.
    fn write(&self, out: &mut Vec<u8>) -> Result<(), AllocError>
        ensures written { OnOk result (out.new.items ≡ out.old.items ++ spelling self.now) }
        ensures known { OnOk result (holds self.now) };
}

/// The four bytes of a count, modulo 2^32.
pub(crate) fn count_bytes(count: usize) -> [u8; 4]
    ensures { result ≡ word count }
{
    ((count % 4_294_967_296) as u32).to_be_bytes()
}

/// Adds the items. An error means that an allocation failed.
pub(crate) fn write_items<T: Spelled>(out: &mut Vec<u8>, items: &[T]) -> Result<(), AllocError>
    ensures written { OnOk result (out.new.items ≡ out.old.items ++ flat_map T.spelling items.now) }
    ensures known { OnOk result (AllByRecursion T.holds items.now) }
{
    for item in items {
        item.write(out)?;
    }
    Ok(())
}

/// Adds the count of the items and the items. An error means that an allocation failed.
pub(crate) fn write_list<T: Spelled>(out: &mut Vec<u8>, items: &[T]) -> Result<(), AllocError>
    ensures written { OnOk result (out.new.items ≡ out.old.items ++ spell_list T.spelling items.now) }
    ensures known { OnOk result (AllByRecursion T.holds items.now) }
{
    out.extend_from_slice(&count_bytes(items.len()))?;
    write_items(out, items)
}

/// Adds the value. `TooLong` means that the bytes with it are too many for a body.
fn write_within<T: Spelled>(out: &mut Vec<u8>, item: &T) -> Result<(), EncodeFault>
    ensures written { OnOk result (out.new.items ≡ out.old.items ++ T.spelling item.now) }
    ensures known { OnOk result (T.holds item.now) }
    ensures long { result ≡ Err TooLong → body_limit < length (out.old.items ++ T.spelling item.now) }
{
    item.write(out)?;
    if out.len() > BODY_LIMIT {
        return Err(EncodeFault::TooLong);
    }
    Ok(())
}

/// Adds the count of the items and the items. `TooLong` means that the bytes are too many for a
/// body.
pub(crate) fn write_all<T: Spelled>(out: &mut Vec<u8>, items: &[T]) -> Result<(), EncodeFault>
    ensures written { OnOk result (out.new.items ≡ out.old.items ++ spell_list T.spelling items.now) }
    ensures known { OnOk result (AllByRecursion T.holds items.now) }
    ensures long { result ≡ Err TooLong → body_limit < length (out.old.items ++ spell_list T.spelling items.now) }
{
    out.extend_from_slice(&count_bytes(items.len()))?;
    for item in items {
        write_within(out, item)?;
    }
    Ok(())
}

/// Adds the count of the items and the items, if there is an item. `TooLong` means that the bytes
/// are too many for a body.
pub(crate) fn write_some<T: Spelled>(out: &mut Vec<u8>, items: &[T]) -> Result<(), EncodeFault>
    ensures written { OnOk result (out.new.items ≡ out.old.items ++ spell_some T.spelling items.now) }
    ensures known { OnOk result (AllByRecursion T.holds items.now) }
    ensures long { result ≡ Err TooLong → body_limit < length (out.old.items ++ spell_some T.spelling items.now) }
{
    if items.is_empty() {
        return Ok(());
    }
    write_all(out, items)
}

/// The version of a frame with the list that the first version lacks.
pub(crate) fn version_of<T>(items: &[T]) -> u8
    ensures { result ≡ version_with items.now }
{
    if items.is_empty() { 1 } else { 2 }
}
