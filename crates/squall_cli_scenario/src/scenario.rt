//! The state of a scenario: what its lines have set up so far.

ghost use Rattle.std.specs.Prelude.{◌≡◌};
ghost use Rattle.squall_cli_scenario.specs.State.{at_start, has_world};
ghost use Rattle.squall_cli_scenario.specs.Stages.{meant};

use squall_plan::Plan;
use squall_router::Router;
use squall_wire::Feed;
use squall_world_rows::RowWorld;
use std::alloc::Global;
use std::marker::Model;

/// How far a scenario is.
#[derive(Drop)]
pub(crate) enum Stage {
    /// No plan.
    Unplanned,
    /// The old plan.
    Planned(Plan),
    /// Both plans: a router of the course from the old one to the new one, which has heard what was
    /// reported.
    Running(Router),
    /// A world of that course, which takes events and commands on rows.
    Happening(RowWorld),
}

/// A scenario after some lines: what they set up, and what answers the lines to come.
///
/// Contracts see the lines counted, the plans that are read or the world, the board, and the feed.
/// The board is that of the router. Before both plans are read no line can report anything, and in
/// a world each node has a board of its own. What the world keeps they see as a world with one map of
/// rows.
#[derive(Drop)]
pub struct Scenario {
    /// How many lines there were, bad and skipped ones too.
    pub(crate) line: u64,
    pub(crate) stage: Stage,
    /// What hears frames.
    pub(crate) feed: Feed,
}

impl Model for Scenario {
    ghost use Rattle.squall_world_rows.specs.Seen.{RowNetValue};
    ghost use Rattle.squall_cli_scenario.specs.State.{ScenarioOf};

    ghost Value = { ScenarioOf RowNetValue };

    ghost use Rattle.squall_cli_scenario.specs.Stages.{stage_seen, board_seen, IsFirstCourse};

    ghost view = { λ s. record { line = s.line; stage = stage_seen s.stage; board = board_seen s.stage; feed = s.feed } };

    ghost invariant = { λ s. IsFirstCourse s.stage };
}

impl Scenario {
    /// A scenario before its first line. It takes no memory.
    pub fn new(alloc: Global) -> Scenario
        ensures { meant result ≡ at_start }
    {
        Scenario {
            line: 0,
            stage: Stage::Unplanned,
            feed: Feed::new(alloc),
        }
    }

    /// Whether a world takes events.
    pub(crate) fn has_world(&self) -> bool
        ensures { result ≡ has_world (meant self.now).stage }
    {
        match &self.stage {
            Stage::Happening(_) => true,
            Stage::Unplanned | Stage::Planned(_) | Stage::Running(_) => false,
        }
    }
}
