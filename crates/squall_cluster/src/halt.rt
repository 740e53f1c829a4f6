//! How the threads of a race hear that it is off, and why.

ghost use Rattle.std.specs.Prelude.{◌≡◌};
ghost use Rattle.squall_cluster.specs.Faults.{InLimits, FaultOf};
ghost use Rattle.squall_cluster.specs.RaceFaults.{RaceFaultOf, fault_of_cluster, fault_of_stop, stop_of_seat};

use crate::cluster::ClusterFault;
use squall_cluster_desk::SeatFault;
use std::sync::OnceLock;
use thiserror::Error;

/// Why a race gave no result.
#[derive(Debug, Drop, Error)]
pub enum RaceFault {
    /// It has 1 to 64 lists.
    #[error("BadSenders")]
    BadSenders,
    /// It has at most 64 readers.
    #[error("BadReaders")]
    BadReaders,
    /// Its inbox has room for 1 to 65536 letters.
    #[error("BadCapacity")]
    BadCapacity,
    /// A reader got no seat, or no look at what is published.
    #[error("NoPlace")]
    NoPlace,
    /// A thread could not be started.
    #[error("NoThread")]
    NoThread,
    /// An allocation failed, or a count of owners is full: of an issue, of the course, of the inbox or
    /// of the desk.
    #[error("NoMemory")]
    NoMemory,
}

impl From<ClusterFault> for RaceFault {
    fn from(fault: ClusterFault) -> RaceFault
        ensures same { result ≡ fault_of_cluster fault }
        ensures of_sizes { (sizes : _) → FaultOf sizes fault → RaceFaultOf sizes result }
    {
        match fault {
            ClusterFault::BadSenders => RaceFault::BadSenders,
            ClusterFault::BadReaders => RaceFault::BadReaders,
            ClusterFault::BadCapacity => RaceFault::BadCapacity,
            ClusterFault::NoMemory => RaceFault::NoMemory,
        }
    }
}

/// Why a race was called off: the faults that one of its threads may report.
#[derive(Clone, Copy, Debug, PartialEq)]
pub(crate) enum Stop {
    NoPlace,
    NoThread,
    NoMemory,
}

impl From<SeatFault> for Stop {
    fn from(fault: SeatFault) -> Stop
        ensures { result ≡ stop_of_seat fault }
    {
        match fault {
            SeatFault::NoPlace => Stop::NoPlace,
            SeatFault::NoMemory => Stop::NoMemory,
        }
    }
}

impl From<Stop> for RaceFault {
    fn from(stop: Stop) -> RaceFault
        ensures same { result ≡ fault_of_stop stop }
        ensures of_sizes { (sizes : _) → InLimits sizes → RaceFaultOf sizes result }
    {
        match stop {
            Stop::NoPlace => RaceFault::NoPlace,
            Stop::NoThread => RaceFault::NoThread,
            Stop::NoMemory => RaceFault::NoMemory,
        }
    }
}

/// The race is off. Its [`Halt`] has the cause.
#[derive(Clone, Copy, Debug)]
pub(crate) struct Off;

/// Set by the first thread of a race that cannot go on. The others look at it, and stop.
#[derive(Drop)]
pub(crate) struct Halt {
    cause: OnceLock<Stop>,
}

impl Halt {
    /// Nothing is called off.
    pub(crate) fn new() -> Halt {
        Halt {
            cause: OnceLock::new(),
        }
    }

    /// Calls the race off, unless it is off already. The cause that was given first stays.
    pub(crate) fn stop(&self, cause: Stop) -> Off {
        let _told = self.cause.try_set(cause);
        Off
    }

    /// Goes on, unless the race is off.
    pub(crate) fn check(&self) -> Result<(), Off> {
        match self.cause.get() {
            Some(_) => Err(Off),
            None => Ok(()),
        }
    }

    /// The cause that was given first, once all threads of a race that is off have ended.
    pub(crate) fn cause(&self) -> Stop {
        match self.cause.get() {
            Some(cause) => *cause,
            None => Stop::NoMemory,
        }
    }
}
