//! The senders' ends of the inbox.

ghost use Rattle.std.specs.Prelude.{◌≡◌, ◌++◌, ◌∷◌, [], OnOk, IfErr, OnErr};
ghost use Rattle.std.specs.Arc.{arc_value};
ghost use Rattle.squall_cluster_inbox.specs.Inbox.{sender};
ghost use Rattle.squall_cluster_inbox.specs.Ends.{Posting, FoundFull, knows_of};
ghost use Rattle.squall_cluster_inbox.specs.Letters.{IsAllowed};

use crate::constants::Constants;
use crate::letter::{Letter, Parcel};
use crate::queue::{Hand, Posts, Queue};
use std::marker::Model;
use std::sync::{Arc, Wait};

/// The inbox was full: the letter comes back.
#[derive(Drop)]
pub struct Full(pub Letter);

/// A sender of a cluster. Contracts see its inbox, its number, and the letters that it posted.
#[derive(Drop)]
pub struct Sender<K: Constants> {
    inbox: Arc<Queue<K>>,
    hand: Hand,
    from: u64,
}

impl<K: Constants> Model for Sender<K> {
    ghost Value = { Posting };

    ghost view = { λ s. record { inbox = s.hand.table_id; from = s.from; posted = (knows_of s.hand).put } };

    ghost invariant = { λ s. (s.hand.table_id ≡ (arc_value s.inbox).table.shared.table_id) × (s.hand.me.1 ≡ [])
        × (knows_of s.hand ≡ sender s.from (knows_of s.hand).put) };
}

/// A sender that has ended. Contracts see what the sender was.
#[derive(Drop)]
pub struct Spent {
    pub(crate) hand: Hand,
    pub(crate) from: u64,
}

impl Model for Spent {
    ghost Value = { Posting };

    ghost view = { λ s. record { inbox = s.hand.table_id; from = s.from; posted = (knows_of s.hand).put } };

    ghost invariant = { λ s. (s.hand.me.1 ≡ []) × (knows_of s.hand ≡ sender s.from (knows_of s.hand).put) };
}

impl<K: Constants> Sender<K> {
    /// The sender of that number, with its end of the inbox.
    pub(crate) fn of_parts(inbox: Arc<Queue<K>>, hand: Hand, from: u64) -> Sender<K>
        requires { (hand.table_id ≡ (arc_value inbox).table.shared.table_id) × (hand.me.1 ≡ []) × (knows_of hand ≡ sender from []) }
        ensures { result ≡ record { inbox = hand.table_id; from = from; posted = [] } }
    {
        Sender { inbox, hand, from }
    }

    /// Posts a letter at the back of the inbox. It answers [`Full`], with the letter, if the inbox
    /// was full at one moment of the call: as many letters waited as it has room for. Then nothing
    /// was posted.
    ///
    /// It may wait while another thread is inside a call on the inbox.
    pub fn post<R: Wait>(&mut self, rt: &R, letter: Letter) -> Result<(), Full>
        requires { IsAllowed K.allowed letter }
        ensures inbox { self.new.inbox ≡ self.old.inbox }
        ensures from { self.new.from ≡ self.old.from }
        ensures posted { OnOk result (self.new.posted ≡ self.old.posted ++ letter ∷ []) }
        ensures letter_back { IfErr result (λ full. full.0 ≡ letter) }
        ensures nothing_posted { OnErr result (self.new.posted ≡ self.old.posted) }
        ensures full { OnErr result (FoundFull self.old) }
    {
        letter.known();
        let parcel = Parcel {
            from: self.from,
            letter,
        };
        match self.inbox.push_as::<Posts, R>(rt, &mut self.hand, parcel) {
            Ok(()) => Ok(()),
            Err(parcel) => Err(Full(parcel.letter)),
        }
    }

    /// Ends the sender. What comes back is needed to close the cluster.
    pub fn end(self) -> Spent
        ensures { result ≡ self }
    {
        let Sender { inbox, hand, from } = self;
        drop(inbox);
        Spent { hand, from }
    }
}
