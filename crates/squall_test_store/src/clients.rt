//! A client of the theorem that all stores of a system are one map.

ghost use Rattle.squall_test_store.specs.Clients.{PutIsGot};

use squall_store::laws::stores_are_one_map;
use squall_store::{Bytes, Command};

/// Whoever gets a value after it was put, and after no other command on its key, gets what was put.
/// In between the key may have gone from store to store, and stores may have died and come back.
pub fn what_was_put_is_got()
    ensures { PutIsGot }
{
    stores_are_one_map::<Option<Bytes>, Command, Option<Bytes>>();
}
