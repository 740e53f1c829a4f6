//! Laws of stores, each the contract of a function that does little or nothing.

ghost use Rattle.squall_store.specs.Systems.{StoresReplyAsOneMap, StoresAreOneMap};
ghost use Rattle.squall_store.specs.Acts.{AsksByAct, GivesWithRows, GivesAtWithRows, LoadsWithRows, FinishesWithRows, AbsorbsWithRows};

use squall_nodes::laws::a_part_is_a_partition;
use squall_rows::laws::{new_is_held_nowhere, one_map, rows_follow};

/// Each call of a store is an act of any world with rows in which the store stands for a partition.
/// The act has the corresponding outcome. After it the new value stands for that partition, and other
/// values for other nodes as before, also other stores. A call for which memory was missing is no act.
///
/// A load is one if the batch has the rows that the chunk carries. A copy has these, as `giving`
/// says: the chunk carries the rows that the source had when it gave.
pub fn a_store_is_a_partition_with_rows<Row, Command, Reply>()
    ensures asking { (run : Command → Row → Row × Reply) → AsksByAct run }
    ensures giving { GivesWithRows Row }
    ensures giving_at { GivesAtWithRows Row }
    ensures loading { LoadsWithRows Row }
    ensures finishing { FinishesWithRows Row }
    ensures absorbing { AbsorbsWithRows Row }
{
    a_part_is_a_partition();
    new_is_held_nowhere();
}

/// All stores of a system together are one map, in every run: however often ranges move, with reports
/// and chunks lost, repeated and late, and with stores that die and come back.
///
/// The map begins with the row of each key in the store of its owner by the old plan. Each command
/// that ran read the map's row of its key and changed it, in the order of the calls: its reply is the
/// map's (`replies`). At every moment the map's row of a key is at the key's one carrier: in the store
/// that holds it, or in the copies of the chunk that has it on its way (`rows`).
///
/// A run is any order of calls of stores, leader and routers, each with a chunk that was given or a
/// board that was sent. [`calls`](crate::calls) makes each call of a store once.
pub fn stores_are_one_map<Row, Command, Reply>()
    ensures replies { (run : Command → Row → Row × Reply) → StoresReplyAsOneMap run }
    ensures rows { (run : Command → Row → Row × Reply) → StoresAreOneMap run }
{
    a_store_is_a_partition_with_rows::<Row, Command, Reply>();
    one_map::<Row, Command, Reply>();
    rows_follow::<Row, Command, Reply>();
}
