//! Lists of items.

ghost use Rattle.squall_wire.specs.Reading.{Gives, many_at, list_at, some_at, second_at};

use crate::fault::WireFault;
use crate::reading::field::word_at;
use crate::reading::item::Item;
use std::alloc::Global;

/// Memory for one item in each 16 bytes is allocated at once, and more as items come. Openings, and
/// the ranges of plans, have fewer bytes.
const BYTES_OF_ROOM: usize = 16;

/// The first `count` items of the bytes, and the bytes after them. At first it allocates memory for
/// at most one item in each 16 bytes. So a great count before few bytes costs nothing.
pub(crate) fn many<T: Item>(
    alloc: Global,
    count: u32,
    start: T::Point,
    bytes: &[u8],
) -> Result<(Vec<T>, &[u8]), WireFault>
    ensures { Gives (λ x. (x.0.items, x.1.now)) result (many_at T.read_at T.next count start bytes.now) }
{
    let mut items = Vec::new(alloc);
    items.reserve((count as usize).min(bytes.len() / BYTES_OF_ROOM))?;
    let mut point = start;
    let mut rest = bytes;
    for _ in 0..count {
        let (item, after) = T::read(alloc, point, rest)?;
        point = item.after(point);
        items.push(item)?;
        rest = after;
    }
    Ok((items, rest))
}

/// The items after the count that begins the bytes, as many as it says, and the bytes after them.
#[tactic(auto, unfolding(crate::specs::Reading::list_at))]
pub(crate) fn list<T: Item>(
    alloc: Global,
    start: T::Point,
    bytes: &[u8],
) -> Result<(Vec<T>, &[u8]), WireFault>
    ensures { Gives (λ x. (x.0.items, x.1.now)) result (list_at T.read_at T.next start bytes.now) }
{
    let (count, rest) = word_at(bytes)?;
    many(alloc, count, start, rest)
}

/// The same, of at least one item.
#[tactic(auto, unfolding(crate::specs::Reading::some_at))]
pub(crate) fn some<T: Item>(
    alloc: Global,
    start: T::Point,
    bytes: &[u8],
) -> Result<(Vec<T>, &[u8]), WireFault>
    ensures { Gives (λ x. (x.0.items, x.1.now)) result (some_at T.read_at T.next start bytes.now) }
{
    let (count, rest) = word_at(bytes)?;
    if count < 1 {
        return Err(WireFault::Range);
    }
    many(alloc, count, start, rest)
}

/// The list that only the second version has, of at least one item. In the first version there is
/// no item.
pub(crate) fn second<T: Item>(
    alloc: Global,
    version: u8,
    start: T::Point,
    bytes: &[u8],
) -> Result<(Vec<T>, &[u8]), WireFault>
    ensures { Gives (λ x. (x.0.items, x.1.now)) result (second_at version T.read_at T.next start bytes.now) }
{
    if version == 2 {
        return some(alloc, start, bytes);
    }
    Ok((Vec::new(alloc), bytes))
}
