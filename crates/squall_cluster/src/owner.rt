//! The owner of a cluster, which takes letters and publishes them.

ghost use Rattle.std.specs.Prelude.{◌≡◌, ◌⊎◌, ◌+◌, ◌≤◌, ◌<◌, ◌^◌, ◌++◌, ◌∷◌, [], length, IfOk, OnOk, OnErr, MatchBool, IsFalse};
ghost use Rattle.squall_cluster_inbox.specs.declared.letter.Parcel.{Parcel};
ghost use Rattle.squall_cluster_inbox.specs.Ends.{posting_of, room_of};
ghost use Rattle.squall_cluster_inbox.specs.Letters.{AreLetters, letters_of, board_after};
ghost use Rattle.squall_cluster_desk.specs.Start.{IsStartOf};
ghost use Rattle.squall_cluster.specs.Owners.{Owning, Whole, owning_with, SameSenders, TookOne, Finished, Idle};

use crate::cluster::Sizes;
use squall_board::Board;
use squall_cluster_desk::{Notice, Places, Publisher, Start};
use squall_cluster_inbox::{Constants, Sender, Spent, Taker};
use std::alloc::{AllocError, Global};
use std::marker::Model;
use std::sync::Wait;

/// What a turn did.
#[derive(Drop)]
pub struct Turn<K: Constants> {
    /// Whether it published a letter: one that it took, or one that an earlier turn left in hand.
    pub took: bool,
    /// The list of letters that is published when the turn ends.
    pub notice: Notice<K>,
}

/// The owner of a cluster: the one that takes letters from the inbox, and publishes them. Contracts see
/// the inbox, the parcels taken in order, the list of letters published, and the letter in hand (taken
/// and not yet published), if there is one. They also see how many senders were made, and what each
/// sender posted that was joined to it.
///
/// If it is dropped, seats see nothing from then on. The drop waits for those that are looking.
#[derive(Drop)]
pub struct Owner<K: Constants, R: Wait + Drop> {
    taker: Taker<K>,
    publisher: Publisher<K, R>,
}

impl<K: Constants, R: Wait + Drop> Model for Owner<K, R> {
    ghost Value = { Owning };

    ghost view = { λ o. record {
      inbox = o.taker.inbox;
      taken = o.taker.taken;
      published = o.publisher.published;
      hand = o.publisher.hand;
      made = o.taker.made;
      vouched = o.taker.vouched;
    } };

    ghost invariant = { λ o. letters_of o.taker.taken ≡ o.publisher.published ++ o.publisher.hand };
}

impl<K: Constants, R: Wait + Drop> Owner<K, R> {
    /// The owner of a new cluster of these sizes, which has no sender yet, and the places for its
    /// seats. It fails (memory).
    pub(crate) fn open(
        rt: R,
        alloc: Global,
        start: Start,
        sizes: Sizes,
    ) -> Result<(Owner<K, R>, Places<K>), AllocError>
        requires start { IsStartOf K.book K.first K.opening start }
        requires limits { (sizes.readers < 2 ^ 32) × (0 < sizes.capacity) }
        ensures new { IfOk result (λ ends. ends.0 ≡ owning_with ends.0.inbox 0) }
        ensures room { IfOk result (λ ends. room_of ends.0.inbox ≡ sizes.capacity) }
        ensures places { IfOk result (λ ends. ends.1 ≡ sizes.readers) }
    {
        let taker = Taker::<K>::open(alloc, sizes.capacity)?;
        let (publisher, places) = Publisher::<K, R>::open(rt, alloc, start, sizes.readers)?;
        Ok((Owner { taker, publisher }, places))
    }

    /// Changes nothing: after it a proof knows what holds of every owner. The letters taken are those
    /// published and then the one in hand, if there is one, and each is one that the cluster allows. A
    /// count of 64 bits holds the number of those published.
    pub fn known(&self)
        ensures published_is_taken { letters_of self.now.taken ≡ self.now.published ++ self.now.hand }
        ensures hand { length self.now.hand ≤ 1 }
        ensures count { length self.now.published < 2 ^ 64 }
        ensures letters { AreLetters K.allowed (letters_of self.now.taken) }
    {
        self.taker.known();
        self.publisher.known();
    }

    /// Takes the first letter of the inbox in hand, if none is in hand. It answers whether one is
    /// in hand then.
    fn take(&mut self) -> bool
        ensures same { (self.new.published ≡ self.old.published) × SameSenders self.old self.new }
        ensures hand { MatchBool result (length self.new.hand ≡ 1) (self.new.hand ≡ []) }
        ensures empty { IsFalse result → Whole self.new }
        ensures taken { (self.new ≡ self.old)
            ⊎ ((self.old.hand ≡ []) × ((x : Parcel) × (self.new.taken ≡ self.old.taken ++ x ∷ []) × (self.new.hand ≡ x.letter ∷ []))) }
    {
        if self.publisher.has_letter() {
            return true;
        }
        let Some(parcel) = self.taker.take(self.publisher.handle()) else {
            return false;
        };
        self.publisher.lay(parcel.letter);
        true
    }

    /// Takes at most one letter and publishes it. If a letter is in hand, the turn publishes that one, and
    /// takes no other.
    ///
    /// It fails (memory) only with a letter, and then nothing more is published: the letter stays in
    /// hand, and the next turn publishes it. It waits for seats that are looking.
    pub fn turn(&mut self) -> Result<Turn<K>, AllocError>
        ensures senders { SameSenders self.old self.new }
        ensures at_most_one { (self.new.taken ≡ self.old.taken) ⊎ TookOne self.old self.new }
        ensures published_is_taken { OnOk result (self.new.published ≡ letters_of self.new.taken) }
        ensures nothing_in_hand { OnOk result (self.new.hand ≡ []) }
        ensures took { IfOk result (λ turn. MatchBool turn.took (Finished self.old self.new) (Idle self.old self.new)) }
        ensures whole { IfOk result (λ turn. IsFalse turn.took → Whole self.new) }
        ensures notice { IfOk result (λ turn. turn.notice ≡ self.new.published) }
        ensures err { OnErr result (self.new.published ≡ self.old.published) }
        ensures left_in_hand { OnErr result ((letters_of self.new.taken ≡ self.new.published ++ self.new.hand) × (length self.new.hand ≡ 1)) }
    {
        let took = self.take();
        let shown = self.publisher.publish();
        self.known();
        shown?;
        let notice = self.publisher.notice();
        Ok(Turn { took, notice })
    }

    /// Joins a sender that has ended: the owner vouches from then on for what it posted.
    pub(crate) fn join(&mut self, spent: Spent)
        requires { spent.inbox ≡ self.old.inbox }
        ensures { self.new ≡ record self.old { vouched = (spent.from, spent.posted) ∷ self.old.vouched } }
    {
        self.taker.join(spent);
    }

    /// A new sender. It fails (memory), and then nothing changed.
    pub(crate) fn hire(&mut self) -> Result<Sender<K>, AllocError>
        ensures sender { IfOk result (λ s. s ≡ posting_of self.old.inbox self.old.made []) }
        ensures made { OnOk result (self.new ≡ record self.old { made = self.old.made + 1 }) }
        ensures err { OnErr result (self.new ≡ self.old) }
    {
        self.taker.hire()
    }

    /// Ends the cluster: seats see nothing from then on. It waits for those that are looking.
    pub(crate) fn into_board(self) -> Board
        ensures { result ≡ board_after K.opening self.published }
    {
        let Self { taker, publisher } = self;
        drop(taker);
        publisher.into_board()
    }
}
