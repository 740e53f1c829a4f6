//! Numbers that are written into rooms.

ghost use Rattle.std.specs.Prelude.{◌≡◌, length, take};
ghost use Rattle.squall_c_values.specs.Rooms.{over};

/// Writes the numbers into the room, from its start on, as many as it holds, and answers how many.
pub(crate) fn put_numbers(numbers: &[u32], room: &mut [u32]) -> usize
    ensures numbers { room.new ≡ over (take (length room.old) numbers.now) room.old }
    ensures count { result ≡ length (take (length room.old) numbers.now) }
{
    let count = numbers.len().min(room.len());
    room[..count].copy_from_slice(&numbers[..count]);
    count
}
