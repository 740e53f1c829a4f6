//! The key of a row, for hosts whose rows have bytes for keys.

ghost use Rattle.std.specs.Prelude.{◌≡◌};
ghost use Rattle.squall_keymap.specs.KeyMap.{key_of_bytes};

use squall_keymap::key_of;

/// The rank of the key to which a row belongs whose own key is these bytes.
#[unsafe(no_mangle)]
pub extern "C" fn squall_key_of(bytes: &[u8]) -> u64
    ensures { result ≡ key_of_bytes bytes.now }
{
    key_of(bytes).rank()
}
