//! What the line `legs` shows.

ghost use Rattle.std.specs.Prelude.{string_bytes};
ghost use Rattle.squall_cli_scenario.specs.Replies.{legs_reply};
ghost use Rattle.squall_cli_scenario.specs.Answered.{Answers};
ghost use Rattle.squall_cli_scenario.specs.Stages.{meant};

use crate::scenario::{Scenario, Stage};
use squall_cli_words::{Reason, add_legs};
use squall_span::Span;
use std::alloc::AllocError;

/// Shows the legs of the span, if it has a key, once both plans are read.
pub(crate) fn show_legs(
    scenario: &Scenario,
    span: Option<Span>,
    out: &mut String,
) -> Result<Option<Reason>, AllocError>
    ensures { Answers result (string_bytes out.old) (string_bytes out.new) (meant scenario.now)
        (legs_reply (meant scenario.now) (meant scenario.now).stage span) }
{
    let Stage::Running(router) = &scenario.stage else {
        return Ok(Some(Reason::Order));
    };
    let Some(span) = span else {
        return Ok(Some(Reason::Limit));
    };
    let legs = router.route_span(*out.allocator(), &span)?;
    add_legs(&legs, out)?;
    Ok(None)
}
