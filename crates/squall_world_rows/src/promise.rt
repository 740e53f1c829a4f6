//! What holds in every world with rows.

ghost use Rattle.squall_rows.specs.Rows.{AreOneMap};
ghost use Rattle.squall_world_rows.specs.Seen.{seen};
ghost use Rattle.squall_world_rows.specs.Maps.{map_of};
ghost use Rattle.squall_world_rows.specs.Runs.{IsOneMap};

use crate::world::RowWorld;
use squall_rows::one_map;
use squall_store::{Bytes, Command};

impl RowWorld {
    /// All partitions and chunks together are one map, whatever happened in the world. Each command
    /// that ran had that map's reply, in the order of the calls. Each key has one carrier, the
    /// partition that holds it or the chunk that has it on its way, and its row there is the map's.
    ///
    /// The call does nothing. It states this to a caller who only borrows the world.
    pub fn promised(&self)
        ensures one_map { IsOneMap (seen self.now) }
        ensures map { AreOneMap (seen self.now) (map_of (seen self.now)) }
    {
        // The proof learns what every such world keeps.
        let _alloc = &self.alloc;
        self.world.promised();
        one_map::<Option<Bytes>, Command, Option<Bytes>>();
    }
}
