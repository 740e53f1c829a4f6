//! Errands.

ghost use Rattle.std.specs.Prelude.{◌≡◌, Some};
ghost use Rattle.squall_errand.specs.Errands.{errand_from, errand_with, step_of, step_on};
ghost use Rattle.squall_errand.specs.declared.errand.Reply.TheVariants.{Moved};

use crate::routes::Routes;
use squall_key::{Key, PartId};
use std::marker::Model;

/// What a partition replies when it is asked for a key.
#[derive(Clone, Copy, Debug, PartialEq, Eq)]
pub enum Reply {
    /// It holds the key.
    Held,
    /// It gave the key to `dest` in the reconfiguration of that number.
    Moved {
        /// The partition to which the key went.
        dest: PartId,
        /// The reconfiguration's number.
        number: u32,
    },
    /// The key is on its way from `source`.
    Pending {
        /// The partition from which it comes.
        source: PartId,
    },
    /// It has not heard of the reconfiguration by which the key was sent to it.
    Behind,
    /// The key was never there: the old plan has it at `dest`.
    Elsewhere {
        /// The key's partition in the old plan.
        dest: PartId,
    },
}

/// What to do after a reply.
#[derive(Clone, Copy, Debug, PartialEq, Eq)]
pub enum Next {
    /// Ask this partition, to which the key went.
    Ask(PartId),
    /// Ask this partition again, later.
    Again(PartId),
    /// The key was found: nothing is left to do.
    Served,
    /// The replies contradict each other: start a new errand once the router has heard more.
    Lost,
}

/// The search for the partition that holds a key: it starts at the partition to which a router
/// sends the key, and follows the partitions' replies. It changes no board: a reply is no report.
///
/// Contracts see an errand as the partition that it asks, the number of its last `Moved` and how it
/// ended.
#[derive(Clone, Copy, Debug)]
pub struct Errand {
    asked: PartId,
    number: u32,
    ended: Option<Next>,
}

impl Model for Errand {
    ghost use Rattle.squall_errand.specs.Errands.{ErrandValue, errand_with};

    ghost Value = { ErrandValue };

    ghost view = { λ e. errand_with e.asked e.number e.ended };

    ghost inverse = { λ v. record { asked = v.asked; number = v.number; ended = v.ended } };
}

impl Errand {
    /// An errand for the key, which asks the partition to which the router sends it.
    pub fn start<R: Routes>(router: &R, key: Key) -> Errand
        ensures { result ≡ errand_from (R.routed router.now key) }
    {
        Errand::at(router.route(key))
    }

    /// An errand for a key that some route sends to the partition.
    pub fn at(part: PartId) -> Errand
        ensures { result ≡ errand_from part }
    {
        Errand {
            asked: part,
            number: 0,
            ended: None,
        }
    }

    /// The partition to ask.
    pub fn asked(&self) -> PartId
        ensures { result ≡ self.now.asked }
    {
        self.asked
    }

    /// The number of the last `Moved` that was followed, 0 before the first. Send it with the
    /// question: a partition that has not heard of that reconfiguration replies `Behind`.
    pub fn number(&self) -> u32
        ensures { result ≡ self.now.number }
    {
        self.number
    }

    /// How it ended, if it has.
    fn ended(&self) -> Option<Next>
        ensures { result ≡ self.now.ended }
    {
        self.ended
    }

    /// Takes the reply of the partition that was asked, and says what to do. Once it has said
    /// `Served` or `Lost`, it says the same for ever.
    pub fn heed(&mut self, reply: Reply) -> Next
        ensures next { result ≡ (step_of self.old reply).next }
        ensures after { self.new ≡ (step_of self.old reply).after }
    {
        if let Some(next) = self.ended() {
            return next;
        }
        let before = *self;
        let (next, after) = before.step(reply);
        *self = after;
        next
    }

    /// The errand, ended by `next`.
    fn ending(self, next: Next) -> Errand
        ensures { result ≡ errand_with self.asked self.number (Some next) }
    {
        Errand {
            asked: self.asked,
            number: self.number,
            ended: Some(next),
        }
    }

    /// What comes next after the reply, and the errand then, if the errand has not ended.
    fn step(self, reply: Reply) -> (Next, Errand)
        ensures next { result.0 ≡ (step_on self reply).next }
        ensures after { result.1 ≡ (step_on self reply).after }
    {
        match reply {
            Reply::Held => (Next::Served, self.ending(Next::Served)),
            Reply::Moved { dest, number } => self.sent_on(dest, number),
            Reply::Pending { .. } | Reply::Behind => (Next::Again(self.asked), self),
            Reply::Elsewhere { .. } => (Next::Lost, self.ending(Next::Lost)),
        }
    }

    /// What comes next after a reply that the key went to `dest` in the reconfiguration of that
    /// number. It has to be greater than the last number, since a key moves on under greater
    /// numbers only. If it is not, the replies contradict each other.
    fn sent_on(self, dest: PartId, number: u32) -> (Next, Errand)
        ensures next { result.0 ≡ (step_on self (Moved dest number)).next }
        ensures after { result.1 ≡ (step_on self (Moved dest number)).after }
    {
        if number <= self.number {
            return (Next::Lost, self.ending(Next::Lost));
        }
        let errand = Errand {
            asked: dest,
            number,
            ended: None,
        };
        (Next::Ask(dest), errand)
    }
}
