//! A client of the theorem that all partitions together are one map.

ghost use Rattle.squall_test_nodes.specs.Clients.{PutIsGot};

use squall_rows::one_map;

/// A command on a row. Its reply is the row as it was.
#[derive(Clone, Copy)]
pub enum Command {
    /// Leaves the row as it is.
    Get,
    /// Puts another row in its place, or none.
    Put(Option<u64>),
}

/// Whoever gets a row after it was put gets what was put, though any events of the protocol came in
/// between: the key may have moved from partition to partition.
pub fn what_was_put_is_got()
    ensures { PutIsGot }
{
    one_map::<Option<u64>, Command, Option<u64>>();
}
