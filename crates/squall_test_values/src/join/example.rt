//! The example of the crate's first page.

use squall_join::{Join, JoinMap, Max};
use std::alloc::AllocError;

#[test]
fn joins_maps(rt: HostRuntime) -> Result<(), AllocError> {
    let mut map = JoinMap::single(rt.alloc(), 1u32, Max::new(3))?;
    let other = JoinMap::single(rt.alloc(), 2u32, Max::new(5))?;
    assert!(rt; !map.covers(&other));
    map.join_in(rt.alloc(), &other)?;
    assert!(rt; map.covers(&other) && map.len() == 2);
    map.join_in(rt.alloc(), &other)?;
    assert!(rt; map.len() == 2);
    Ok(())
}
