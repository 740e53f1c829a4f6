//! What may happen in a world with rows.

ghost use Rattle.std.specs.Prelude.{◌≡◌, IfOk, OnErr};
ghost use Rattle.squall_rows.specs.RowSteps.{Plain, Answered, PlainStep, RestartStep};
ghost use Rattle.squall_world_rows.specs.Seen.{seen, MovesNone};
ghost use Rattle.squall_world_rows.specs.Maps.{MapStep, mapped};

use crate::world::RowWorld;
use squall_world::{Answer, Event};
use std::alloc::AllocError;

impl RowWorld {
    /// Takes an event that moves no rows, as the world does.
    fn pass(&mut self, event: &Event) -> Result<Answer, AllocError>
        requires { MovesNone event.now }
        ensures ok { IfOk result (λ answer. PlainStep (seen self.old) event.now answer (seen self.new)) }
        ensures err { OnErr result (self.new ≡ self.old) }
    {
        self.world.promised();
        self.world.step(event)
    }

    /// Takes an event, by the call that moves its rows.
    #[tactic(auto, using(crate::proofs::Going::no_change_if))]
    fn happen(&mut self, event: &Event) -> Result<Answer, AllocError>
        ensures ok { IfOk result (λ answer. PlainStep (seen self.old) event.now answer (seen self.new)) }
        ensures err { OnErr result (RestartStep (seen self.old) (seen self.new)) }
    {
        match event {
            Event::Give(part, max) => self.give(*part, *max),
            Event::GiveAt(part, key) => self.give_at(*part, *key),
            Event::Load(chunk) => self.load(*chunk),
            _ => self.pass(event),
        }
    }

    /// Takes an event, as `World::step` does, and moves the rows of the keys that it moves. The map of
    /// all rows stays the same.
    ///
    /// An error means that an allocation failed. The world is then as it was, and so is each row of a
    /// key that is held or on its way.
    pub fn step(&mut self, event: &Event) -> Result<Answer, AllocError>
        ensures ok { IfOk result (λ answer. PlainStep (seen self.old) event.now answer (seen self.new)) }
        ensures map { IfOk result (λ answer. MapStep (mapped self.old) (Plain event.now) (Answered answer) (mapped self.new)) }
        ensures err { OnErr result (RestartStep (seen self.old) (seen self.new)) }
    {
        self.world.promised();
        self.happen(event)
    }
}
