//! The example of the crate's first page.

use squall_key::Key;
use squall_keymap::key_of;

#[test]
fn rows_and_their_keys(rt: HostRuntime) {
    assert!(rt; Some(key_of(b"2:7:cart")) == Key::new(2, 7));
    assert!(rt; key_of(b"cart{17}") == key_of(b"basket{17}"));
    assert!(rt; key_of(b"cart{17}") == key_of(b"17"));
}
