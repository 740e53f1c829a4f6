//! The example of the crate's first page.

use squall_errand::{Errand, Next, Reply};
use squall_key::PartId;
use std::test::Fail;

#[test]
fn follows_the_replies(rt: HostRuntime) -> Result<(), Fail> {
    let source = PartId::new(1).ok_or("a partition")?;
    let dest = PartId::new(3).ok_or("a partition")?;
    let mut errand = Errand::at(source);
    assert!(rt; errand.asked() == source);
    assert!(rt; errand.heed(Reply::Moved { dest, number: 1 }) == Next::Ask(dest));
    assert!(rt; errand.asked() == dest);
    assert!(rt; errand.heed(Reply::Pending { source }) == Next::Again(dest));
    assert!(rt; errand.heed(Reply::Held) == Next::Served);
    Ok(())
}
