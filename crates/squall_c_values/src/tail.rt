//! The end of a list.

ghost use Rattle.std.specs.Prelude.{◌≡◌, drop};

/// The items after the first `from`. The list is empty if there are no more.
pub(crate) fn tail_from<T>(items: &[T], from: usize) -> &[T]
    ensures { result.now ≡ drop from items.now }
{
    match items.get(from..) {
        Some(tail) => tail,
        None => &[],
    }
}
