//! What is called round each step of a race.

/// One of those that act in a race. Senders and readers are numbered from 0.
#[derive(Clone, Copy, Debug, PartialEq)]
pub enum Actor {
    /// The sender that posts the list of that number.
    Sender(usize),
    /// The one that takes letters and publishes them.
    Owner,
    /// The reader of that number.
    Reader(usize),
}

/// What a race calls in the thread of an actor, right before and right after each of its steps. A step
/// is a post of a sender (also one that found the inbox full), a turn of the owner, or a route of a
/// reader.
///
/// The steps of each actor are counted from 1. A count that has reached the greatest `u64` stays.
pub trait Gate {
    /// The actor is about to take that step.
    fn before(&self, actor: Actor, call: u64);

    /// The actor has taken that step.
    fn after(&self, actor: Actor, call: u64);
}

/// A gate that is lent is a gate.
impl<'a, G: Gate> Gate for &'a G {
    fn before(&self, actor: Actor, call: u64) {
        (**self).before(actor, call);
    }

    fn after(&self, actor: Actor, call: u64) {
        (**self).after(actor, call);
    }
}

/// The steps of one actor, between the calls of its gate.
#[derive(Drop)]
pub(crate) struct Steps<'a, G> {
    gate: &'a G,
    actor: Actor,
    calls: u64,
}

impl<'a, G: Gate> Steps<'a, G> {
    pub(crate) fn new(gate: &'a G, actor: Actor) -> Steps<'a, G> {
        Steps {
            gate,
            actor,
            calls: 0,
        }
    }

    /// Before the next step.
    pub(crate) fn begin(&mut self) {
        self.calls = self.calls.saturating_add(1);
        self.gate.before(self.actor, self.calls);
    }

    /// After the step that began last.
    pub(crate) fn end(&self) {
        self.gate.after(self.actor, self.calls);
    }
}
