//! Laws of rows in every run, each the contract of a function that does little or nothing.

ghost use Rattle.squall_rows.specs.OneMap.{RepliesOfOneMap, RowsOfOneMap};
ghost use Rattle.squall_rows.specs.Whole.{ChunksLoadWhole};
ghost use Rattle.squall_rows.specs.Follows.{RowsFollow, CommandsFollow, NewIsHeldNowhere};

use squall_protocol::promises;

/// All partitions together are one map, in every run.
///
/// The map begins with the row of each key at its owner by the old plan. Each command that was
/// answered read the map's row of its key and changed it, in the order of the run: its reply is the
/// map's (`replies`). At every moment the map's row of a key is the row at the key's one carrier:
/// the partition that holds it, or the chunk that is on its way (`rows`).
///
/// So a move loses no row and no change, and brings no old row back. The order of a run is that in
/// which things happened. So each key is linearizable.
pub fn one_map<Row, Command, Reply>()
    ensures replies { (run : Command → Row → Row × Reply) → RepliesOfOneMap run }
    ensures rows { (run : Command → Row → Row × Reply) → RowsOfOneMap run }
{
    promises();
}

/// Rows forbid nothing. To each step of the protocol from a reached world there is one with rows.
/// If a partition holds a key, each command on it can run. So `one_map` does not hold for want of
/// runs.
pub fn rows_follow<Row, Command, Reply>()
    ensures moves { RowsFollow Row }
    ensures commands { (run : Command → Row → Row × Reply) → CommandsFollow run }
{
    promises();
}

/// No partition holds a key of a chunk that the chunk's destination has not loaded. So a host may
/// put the key's row in place before it loads the chunk, over whatever was left there.
pub fn new_is_held_nowhere()
    ensures { NewIsHeldNowhere }
{
    promises();
}

/// A chunk is loaded whole, or not at all. So a host that passes chunks on as they were given puts
/// all rows of a new chunk in place, and no row of one that was loaded before.
pub fn chunks_load_whole()
    ensures { ChunksLoadWhole }
{}
