//! Worlds with rows as they begin.

ghost use Rattle.std.specs.Prelude.{◌≡◌, ◌<◌, ◌≤◌, ◌↔◌, length, IfOk, IfErr, OnOk};
ghost use Rattle.std.specs.Arc.{arc_value};
ghost use Rattle.squall_protocol.specs.Worlds.{most_routers, start, SameWorld};
ghost use Rattle.squall_world.specs.declared.steps.WorldFault.TheVariants.{TooManyRouters};
ghost use Rattle.squall_world_rows.specs.Maps.{no_rows, mapped};

use crate::world::RowWorld;
use squall_course::Course;
use squall_world::{World, WorldFault};
use std::alloc::Global;
use std::sync::Arc;

impl RowWorld {
    /// The world of the plans of a course of number 1, with this many routers, as `World::over` makes
    /// it. No key has a row.
    ///
    /// `TooManyRouters` above [`MOST_ROUTERS`](squall_world::MOST_ROUTERS), whatever memory there is;
    /// or `NoMemory`.
    pub fn over(alloc: Global, first: &Arc<Course>, routers: u32) -> Result<RowWorld, WorldFault>
        requires { (arc_value first.now).number ≡ 1 }
        ensures ok { IfOk result (λ w. SameWorld (mapped w).world (start (arc_value first.now).old (arc_value first.now).new routers)) }
        ensures empty { IfOk result (λ w. (mapped w).map ≡ no_rows) }
        ensures routers { OnOk result (routers ≤ most_routers) }
        ensures err { IfErr result (λ e. (e ≡ TooManyRouters) ↔ (most_routers < routers)) }
    {
        let world = World::over(alloc, first, routers)?;
        // The proof learns that both are plans.
        let _old = first.old_plan();
        Ok(RowWorld {
            alloc,
            world,
            rows: Vec::new(alloc),
            sent: Vec::new(alloc),
        })
    }

    /// How many partitions there are.
    pub fn parts(&self) -> usize
        ensures { result ≡ length (mapped self.now).world.parts }
    {
        self.world.parts()
    }
}
