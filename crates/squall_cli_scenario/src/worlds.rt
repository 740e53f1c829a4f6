//! The lines that make a world, and those of its events.

ghost use Rattle.std.specs.Prelude.{◌≡◌, ◌≤◌, ◌<◌, ◌↔◌, ◌++◌, IfOk, IfErr, OnOk, string_bytes};
ghost use Rattle.squall_protocol.specs.Worlds.{most_routers};
ghost use Rattle.squall_world.specs.declared.steps.WorldFault.TheVariants.{TooManyRouters};
ghost use Rattle.squall_rows.specs.RowSteps.{Plain, Answered};
ghost use Rattle.squall_world_rows.specs.Maps.{MapStep, mapped};
ghost use Rattle.squall_cli_events.specs.AnswerText.{answer_line};
ghost use Rattle.squall_cli_scenario.specs.Replies.{world_text, first_world, world_reply, happen_reply};
ghost use Rattle.squall_cli_scenario.specs.Answered.{Answers};
ghost use Rattle.squall_cli_scenario.specs.Stages.{meant};

use crate::scenario::{Scenario, Stage};
use squall_cli_events::{Unfit, add_answer};
use squall_cli_words::Reason;
use squall_router::Router;
use squall_world_rows::{Answer, Event, RowWorld, WorldFault};
use std::alloc::{AllocError, Global};

/// The world of the router's first course, with this many routers; or why there is none.
fn world_of(alloc: Global, router: &Router, routers: u32) -> Result<RowWorld, WorldFault>
    requires { router.now.first.number ≡ 1 }
    ensures ok { IfOk result (λ w. mapped w ≡ first_world router.now.first.old router.now.first.new routers) }
    ensures few { OnOk result (routers ≤ most_routers) }
    ensures err { IfErr result (λ e. (e ≡ TooManyRouters) ↔ (most_routers < routers)) }
{
    RowWorld::over(alloc, router.first(), routers)
}

/// Adds how many partitions and routers there are.
fn add_world(world: &RowWorld, routers: u32, out: &mut String) -> Result<(), AllocError>
    ensures { OnOk result (string_bytes out.new ≡ string_bytes out.old ++ world_text (mapped world.now).world.parts routers) }
{
    let parts = world.parts();
    write!(out, "world {parts} {routers}\n")
}

/// Makes a world, once both plans are read.
pub(crate) fn make_world(
    scenario: &mut Scenario,
    routers: u32,
    out: &mut String,
) -> Result<Option<Reason>, AllocError>
    ensures { Answers result (string_bytes out.old) (string_bytes out.new) (meant scenario.new)
        (world_reply (meant scenario.old) (meant scenario.old).stage routers) }
{
    let Stage::Running(router) = &scenario.stage else {
        return Ok(Some(Reason::Order));
    };
    let world = match world_of(*out.allocator(), router, routers) {
        Ok(world) => world,
        Err(WorldFault::TooManyRouters) => return Ok(Some(Reason::Limit)),
        Err(WorldFault::NoMemory) => return Err(AllocError),
    };
    add_world(&world, routers, out)?;
    scenario.stage = Stage::Happening(world);
    Ok(None)
}

/// Lets the event happen in the world, and adds the line that answers it. The result is what was
/// answered.
fn step_world(world: &mut RowWorld, event: &Event, out: &mut String) -> Result<Answer, AllocError>
    ensures step { IfOk result (λ answer. MapStep (mapped world.old) (Plain event.now) (Answered answer) (mapped world.new)) }
    ensures text { IfOk result (λ answer. string_bytes out.new ≡ string_bytes out.old ++ answer_line event.now answer) }
{
    let answer = world.step(event)?;
    add_answer(event, &answer, out)?;
    Ok(answer)
}

/// Lets the event happen, once there is a world, or says why the line is no event.
pub(crate) fn happen(
    scenario: &mut Scenario,
    event: Result<Event, Unfit>,
    out: &mut String,
) -> Result<Option<Reason>, AllocError>
    ensures { Answers result (string_bytes out.old) (string_bytes out.new) (meant scenario.new)
        (happen_reply (meant scenario.old) (meant scenario.old).stage event) }
{
    let Stage::Happening(world) = &mut scenario.stage else {
        return Ok(Some(Reason::Order));
    };
    let event = match event {
        Ok(event) => event,
        Err(Unfit::OverLimit) => return Ok(Some(Reason::Limit)),
        Err(Unfit::NoPlan(fault)) => return Ok(Some(Reason::Plan(fault))),
    };
    let _answer = step_world(world, &event, out)?;
    Ok(None)
}
