//! The example of the crate's first page.

use squall_blocks::{Blocks, Entries};
use squall_key::Bound;
use std::test::Fail;

#[test]
fn entries_above_a_key(rt: HostRuntime) -> Result<(), Fail> {
    let zero = Bound::new(0, 0).expect(&rt, "a bound");
    let two = Bound::new(2, 0).expect(&rt, "a bound");
    let mut fresh: Entries<u16> = Entries::new(rt.alloc());
    fresh.push(two, 1)?;
    fresh.push(Bound::TOP, 3)?;
    assert!(rt; fresh.is_between(zero, Bound::TOP));
    let mut blocks: Blocks<u16> = Blocks::new(rt.alloc());
    blocks.replace(rt.alloc(), zero, Bound::TOP, &fresh)?;
    assert!(rt; blocks.above(zero) == Some((two, 1)));
    assert!(rt; blocks.above(two) == Some((Bound::TOP, 3)));
    assert!(rt; blocks.end_before(two, zero) == two);
    Ok(())
}
