//! The example of the crate's first page.

use squall_key::PartId;
use squall_protocol::Chunk;
use squall_test_example::span;
use std::test::Fail;

#[test]
fn chunk_of_a_move(rt: HostRuntime) -> Result<(), Fail> {
    let source = PartId::new(1).ok_or("a partition")?;
    let dest = PartId::new(3).ok_or("a partition")?;
    let keys = span("2:0", "3:0").ok_or("a span")?;
    let chunk = Chunk::new(1, 0, source, dest, keys).ok_or("a chunk")?;
    assert!(rt; chunk.number() == 1 && chunk.sub() == 0);
    assert!(rt; chunk.source() == source && chunk.dest() == dest);
    assert!(rt; chunk.span() == keys);
    assert!(rt; Chunk::new(0, 0, source, dest, keys).is_none());
    Ok(())
}
