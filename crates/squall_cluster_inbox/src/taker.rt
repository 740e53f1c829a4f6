//! The taker's end of the inbox.

ghost use Rattle.std.specs.Prelude.{◌≡◌, ◌+◌, ◌<◌, ◌++◌, ◌∷◌, [], IfOk, OnOk, OnErr, IfSome, IfNone};
ghost use Rattle.std.specs.Arc.{arc_value};
ghost use Rattle.squall_cluster_inbox.specs.Inbox.{taker};
ghost use Rattle.squall_cluster_inbox.specs.Ends.{Taking, Whole, knows_of, taking_with, posting_of, room_of};
ghost use Rattle.squall_cluster_inbox.specs.Letters.{IsLetter, AreLetters, letters_of};

use crate::constants::Constants;
use crate::letter::Parcel;
use crate::queue::{Hand, Hires, Queue, Retires, Takes};
use crate::sender::{Sender, Spent};
use std::alloc::{AllocError, Global};
use std::marker::Model;
use std::sync::{Arc, Wait};

/// The most senders that may be made.
const MOST: u64 = 1 << 62;

/// The one end of the inbox that takes. Contracts see the inbox, the parcels taken in order, and
/// how many senders were made. They also see what each sender posted that was joined to it.
#[derive(Drop)]
pub struct Taker<K: Constants> {
    inbox: Arc<Queue<K>>,
    hand: Hand,
    made: u64,
}

impl<K: Constants> Model for Taker<K> {
    ghost Value = { Taking };

    ghost view = { λ t. record { inbox = t.hand.table_id; taken = (knows_of t.hand).taken; made = t.made; vouched = (knows_of t.hand).vouched } };

    ghost invariant = { λ t.
        (t.hand.table_id ≡ (arc_value t.inbox).table.shared.table_id) × (t.hand.me.1 ≡ [])
        × (knows_of t.hand ≡ taker (knows_of t.hand).taken (knows_of t.hand).made (knows_of t.hand).vouched)
        × (t.made ≡ (knows_of t.hand).made)
        × AreLetters K.allowed (letters_of (knows_of t.hand).taken) };
}

impl<K: Constants> Taker<K> {
    /// The taker of a new inbox, with room for `capacity` letters. An error means that an
    /// allocation failed.
    pub fn open(alloc: Global, capacity: usize) -> Result<Taker<K>, AllocError>
        requires { 0 < capacity }
        ensures new { IfOk result (λ t. t ≡ taking_with t.inbox 0) }
        ensures room { IfOk result (λ t. room_of t.inbox ≡ capacity) }
    {
        let (queue, hand) = Queue::<K>::ruled(alloc, capacity)?;
        let inbox = Arc::new(alloc, queue)?;
        Ok(Taker {
            inbox,
            hand,
            made: 0,
        })
    }

    /// Changes nothing: after it a proof knows that each letter taken is one that the cluster allows.
    pub fn known(&self)
        ensures { AreLetters K.allowed (letters_of self.now.taken) }
    {
        let _hand = &self.hand;
    }

    /// A new sender, with the least number that none has. An error means that the count of the
    /// inbox's owners is full, or that 2^62 senders were made: the taker is then unchanged.
    pub fn hire(&mut self) -> Result<Sender<K>, AllocError>
        ensures sender { IfOk result (λ s. s ≡ posting_of self.old.inbox self.old.made []) }
        ensures made { OnOk result (self.new ≡ record self.old { made = self.old.made + 1 }) }
        ensures err { OnErr result (self.new ≡ self.old) }
    {
        if self.made >= MOST {
            return Err(AllocError);
        }
        let inbox = Arc::try_clone(&self.inbox)?;
        let hand = self.inbox.another::<Hires>(&mut self.hand);
        let from = self.made;
        self.made += 1;
        Ok(Sender::<K>::of_parts(inbox, hand, from))
    }

    /// Takes the first parcel of the inbox. `None` means that the inbox was empty, and then nothing
    /// changed. If all senders are joined to the taker, it also means that all that they posted is
    /// taken.
    ///
    /// It may wait while another thread is inside a call on the inbox.
    pub fn take<R: Wait>(&mut self, rt: &R) -> Option<Parcel>
        ensures taken { IfSome result (λ x. self.new ≡ record self.old { taken = self.old.taken ++ x ∷ [] }) }
        ensures letter { IfSome result (λ x. IsLetter K.allowed x.letter) }
        ensures none { IfNone result (self.new ≡ self.old) }
        ensures whole { IfNone result (Whole self.new) }
    {
        let Some(parcel) = self.inbox.pop_as::<Takes<K>, R>(rt, &mut self.hand) else {
            return None;
        };
        Some(parcel)
    }

    /// Joins a sender that has ended: the taker vouches from then on for what it posted.
    pub fn join(&mut self, spent: Spent)
        requires { spent.inbox ≡ self.old.inbox }
        ensures { self.new ≡ record self.old { vouched = (spent.from, spent.posted) ∷ self.old.vouched } }
    {
        self.inbox.absorb::<Retires>(&mut self.hand, spent.hand);
    }
}
