//! The example of the crate's first page.

use squall_key::{Bound, Key, PartId};

#[test]
fn keys_and_bounds(rt: HostRuntime) {
    let key = Key::read("2:7").expect(&rt, "a key");
    assert!(rt; (key.root(), key.second()) == (2, 7));
    assert!(rt; Some(key) == Key::of_rank(8589934599));
    assert!(rt; Some(key) < Key::new(3, 0));
    assert!(rt; Bound::of_key(key) < Bound::TOP);
    assert!(rt; Bound::read("end") == Some(Bound::TOP));
    assert!(rt; Key::read("end").is_none());
    assert!(rt; PartId::new(10000).is_none());
}
