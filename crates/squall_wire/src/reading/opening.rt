//! Openings in a list.

ghost use Rattle.squall_wire.specs.Limits.{after_opening};
ghost use Rattle.squall_wire.specs.Reading.{opening_at};

use crate::fault::WireFault;
use crate::reading::field::word_at;
use crate::reading::item::Item;
use squall_board::Opening;
use squall_key::PART_LIMIT;
use std::alloc::Global;

/// The point is the number of the last opening, 0 before the first.
impl Item for Opening {
    type Point = u32;

    ghost read_at = { opening_at };

    ghost next = { after_opening };

    #[tactic(auto, unfolding(crate::specs::Reading::opening_at))]
    fn read(_alloc: Global, last: u32, bytes: &[u8]) -> Result<(Opening, &[u8]), WireFault> {
        let (number, rest) = word_at(bytes)?;
        let (count, rest) = word_at(rest)?;
        if number < 1 || count < 1 || count > PART_LIMIT {
            return Err(WireFault::Range);
        }
        if number <= last {
            return Err(WireFault::Order);
        }
        Ok((Opening { number, count }, rest))
    }

    fn after(&self, _last: u32) -> u32 {
        self.number
    }
}
