//! What a caller that is lent a world learns of it from the public contracts alone.

ghost use Rattle.std.specs.Prelude.{◌≡◌, ◌≢◌, ℕ, true};
ghost use Rattle.squall_plan.specs.Ranges.{owner_of};
ghost use Rattle.squall_course.specs.Change.{Change};
ghost use Rattle.squall_board.specs.CourseRoute.{IsCourseBy};
ghost use Rattle.squall_protocol.specs.declared.answer.Answer.TheVariants.{Routed};
ghost use Rattle.squall_protocol.specs.declared.event.Node.TheVariants.{Router};
ghost use Rattle.squall_protocol.specs.Worlds.{first_course};
ghost use Rattle.squall_world.specs.Views.{view};

use squall_key::Key;
use squall_world::{Answer, Event, World};

/// Asks the router where the key is. A partition that is not the key's old one, by the newest course
/// that the router knows, has loaded the key.
pub fn asks(world: &World, router: u32, key: Key) -> Answer
    ensures { (c : Change) (part : ℕ) → IsCourseBy (first_course (view world.now)) ((view world.now).facts (Router router)) c
        → result ≡ Routed part → part ≢ owner_of c.old key → (view world.now).loaded c.number part key ≡ true }
{
    world.promised();
    world.route(router, key)
}

/// Lets the events happen, whether all do or an allocation fails, and asks the router then.
pub fn asks_after(
    world: &mut World,
    events: &[Event],
    answers: &mut Vec<Answer>,
    router: u32,
    key: Key,
) -> Answer
    ensures { (c : Change) (part : ℕ) → IsCourseBy (first_course (view world.new)) ((view world.new).facts (Router router)) c
        → result ≡ Routed part → part ≢ owner_of c.old key → (view world.new).loaded c.number part key ≡ true }
{
    let _done = world.run(events, answers);
    asks(world, router, key)
}
