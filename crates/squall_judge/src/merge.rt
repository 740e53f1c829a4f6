//! Logs, merged as far as their entries come.

ghost use Rattle.std.specs.Prelude.{◌≡◌, ◌<◌, length, IfOk};
ghost use Rattle.squall_judge.specs.Entries.{AreApart};
ghost use Rattle.squall_judge.specs.Merges.{IsReady, AreLimits, IsNext, IsRound, HasRun, IsFresh};

use crate::heads::zeros;
use crate::log::Log;
use crate::stage::Stage;
use crate::turn::Turn;
use squall_audit::laws::what_comes_happens;
use squall_plan::Plan;
use squall_world::WorldFault;
use std::alloc::{AllocError, Global};

/// A world, and how many entries of each log were taken in it.
#[derive(Drop)]
pub(crate) struct Merge {
    pub(crate) stage: Stage,
    pub(crate) taken: Vec<usize>,
}

/// What comes of one round over the logs.
enum Round {
    /// The next entry of the log at this place was taken.
    Moved(usize),
    /// No next entry can come.
    Stuck,
    /// The node of the log at this place answers otherwise than its next entry says.
    Never(usize),
}

impl Merge {
    /// The world as it begins. No entry was taken.
    pub(crate) fn new(
        alloc: Global,
        old: &Plan,
        new: &Plan,
        routers: u32,
        logs: &[Log],
    ) -> Result<Merge, WorldFault>
        ensures { IfOk result (λ merge. IsFresh old.now new.now routers logs.now merge) }
    {
        let stage = Stage::new(alloc, old, new, routers)?;
        let taken = zeros(alloc, logs.len())?;
        Ok(Merge { stage, taken })
    }

    /// Takes the next entry of the log at the place, if it is within the limit and can come.
    fn next(&mut self, logs: &[Log], limits: &[usize], at: usize) -> Result<Turn, AllocError>
        requires ready { IsReady logs.now limits.now self.old }
        requires limits { AreLimits logs.now limits.now }
        requires place { at < length logs.now }
        ensures { IfOk result (λ turn. IsNext logs.now limits.now self.old at turn self.new) }
    {
        let count = self.taken[at];
        if count >= limits[at] {
            return Ok(Turn::Waits);
        }
        let log = &logs[at];
        let turn = self.stage.turn(&log.node, &log.entries[count])?;
        match turn {
            Turn::Taken => {
                self.taken[at] = count + 1;
                Ok(Turn::Taken)
            }
            Turn::Waits => Ok(Turn::Waits),
            Turn::Never => Ok(Turn::Never),
        }
    }

    /// Takes the next entry of the first log whose next entry can come.
    fn round(&mut self, logs: &[Log], limits: &[usize]) -> Result<Round, AllocError>
        requires ready { IsReady logs.now limits.now self.old }
        requires limits { AreLimits logs.now limits.now }
        ensures { IfOk result (λ round. IsRound logs.now limits.now self.old round self.new) }
    {
        for at in 0..logs.len() {
            match self.next(logs, limits, at)? {
                Turn::Taken => return Ok(Round::Moved(at)),
                Turn::Waits => {}
                Turn::Never => return Ok(Round::Never(at)),
            }
        }
        Ok(Round::Stuck)
    }

    /// Takes the next entry of the log at the place, if it can come, and else of the first log whose next
    /// entry can. A log goes on as long as it can, so logs that wait are seldom tried.
    fn go_on(&mut self, logs: &[Log], limits: &[usize], at: usize) -> Result<Round, AllocError>
        requires ready { IsReady logs.now limits.now self.old }
        requires limits { AreLimits logs.now limits.now }
        ensures { IfOk result (λ round. IsRound logs.now limits.now self.old round self.new) }
    {
        if at >= logs.len() {
            return self.round(logs, limits);
        }
        match self.next(logs, limits, at)? {
            Turn::Taken => Ok(Round::Moved(at)),
            Turn::Waits => self.round(logs, limits),
            Turn::Never => Ok(Round::Never(at)),
        }
    }

    /// Takes entries until no next one can come. A log is named if its node answers otherwise than its
    /// next entry says.
    pub(crate) fn run(
        &mut self,
        logs: &[Log],
        limits: &[usize],
    ) -> Result<Option<usize>, AllocError>
        requires ready { IsReady logs.now limits.now self.old }
        requires limits { AreLimits logs.now limits.now }
        requires apart { AreApart logs.now }
        ensures { IfOk result (λ wrong. HasRun logs.now limits.now self.old wrong self.new) }
    {
        what_comes_happens();
        let mut last = 0;
        loop {
            match self.go_on(logs, limits, last)? {
                Round::Moved(at) => last = at,
                Round::Stuck => return Ok(None),
                Round::Never(at) => return Ok(Some(at)),
            }
        }
    }
}
