//! What a judge says of logs.

ghost use Rattle.std.specs.Prelude.{◌≡◌};
ghost use Rattle.squall_judge.specs.declared.judgment.JudgeFault.TheVariants.{NoMemory};

use std::alloc::AllocError;
use thiserror::Error;

/// Why the next entry of a log is left.
#[derive(Clone, Copy, Debug, PartialEq, Eq)]
pub enum Cause {
    /// The node answers otherwise. Its own log decides that, whatever others do.
    Answer,
    /// The node is not there: no plan names the partition.
    NoSuch,
    /// The chunk was not given.
    NotGiven,
    /// No node knows what the report tells.
    NotReported,
    /// The event cannot happen so far, as a course that begins early while keys are elsewhere.
    Running,
}

/// Whether a run has all entries of the logs.
#[derive(Drop)]
pub enum Judgment {
    /// There is such a run.
    Accepted,
    /// There is none. A run has all entries that were taken, and no run has more of any log.
    Refused {
        /// Of each log, in the order of the logs, how many first entries were taken. So each log with
        /// entries left stops at the entry of this index.
        taken: Vec<usize>,
        /// Of each log, why the entry of that index is left. None if no entry is left.
        causes: Vec<Option<Cause>>,
    },
}

/// Why logs are not judged.
#[derive(Debug, Drop, Error)]
pub enum JudgeFault {
    /// Two logs are of one node.
    #[error("TwoLogs")]
    TwoLogs,
    /// A log is of a router that no world can have.
    #[error("TooManyRouters")]
    TooManyRouters,
    /// An allocation failed, or a count of owners is full.
    #[error("NoMemory")]
    NoMemory,
}

impl From<AllocError> for JudgeFault {
    ghost from_gives = { λ _ e. e ≡ NoMemory };

    fn from(_error: AllocError) -> JudgeFault {
        JudgeFault::NoMemory
    }
}
