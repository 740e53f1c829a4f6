//! The queue between senders and taker, under a rule, and the kinds of its steps.

ghost use Rattle.std.specs.Prelude.{◌≡◌, ◌+◌, ℕ, [], ◌∷◌, ◌++◌, length};
ghost use Rattle.squall_cluster_inbox.specs.Inbox.{of, posted, AreLast, taker, sender, nobody, Ruled};
ghost use Rattle.squall_cluster_inbox.specs.Letters.{IsLetter};

use crate::constants::Constants;
use crate::knows::Knows;
use crate::letter::Parcel;
use crossbeam_queue::protocol::{Join, Lesson, Outcome, Protocol, Split};
use crossbeam_queue::{Pass, RuledArrayQueue};
use std::marker::PhantomData;

/// The rule: what each sender posted is what was taken of it, and then what the queue still holds
/// of it. The queue holds only letters that the cluster allows.
pub struct InOrder<K> {
    of: PhantomData<K>,
}

impl<K: Constants> Protocol<Parcel, Knows> for InOrder<K> {
    ghost holds = { Ruled K.allowed };

    ghost first = { taker [] 0 [] };
}

/// A pass is split: a new sender gets one, and has posted nothing.
pub struct Hires;

impl Split<Knows> for Hires {
    ghost left = { λ v. taker v.taken (v.made + 1) v.vouched };

    ghost right = { λ v. sender v.made [] };
}

/// A pass is joined: the taker vouches from then on for what that sender posted.
pub struct Retires;

impl Join<Knows> for Retires {
    ghost both = { λ v w. taker v.taken v.made ((w.from, w.put) ∷ v.vouched) };

    ghost spent = { nobody };
}

/// A push: the list of what the sender posted grows by the letter. A push that is refused changes
/// nothing. It shows that the letters of this sender that wait are the last that it posted.
pub struct Posts;

impl Outcome<Parcel, Knows> for Posts {
    ghost then = { λ v x w. w ≡ sender v.from (v.put ++ x.letter ∷ []) };
}

impl Lesson<Parcel, Knows> for Posts {
    ghost fact = { λ v items. AreLast (of v.from items) v.put };
}

/// A pop: the list of what was taken grows by the parcel. A pop that finds nothing changes nothing.
/// If the passes of all senders are joined, it shows that all that they posted is taken.
pub struct Takes<K> {
    of: PhantomData<K>,
}

impl<K: Constants> Outcome<Parcel, Knows> for Takes<K> {
    ghost then = { λ v x w. (w ≡ taker (v.taken ++ x ∷ []) v.made v.vouched) × IsLetter K.allowed x.letter };
}

impl<K: Constants> Lesson<Parcel, Knows> for Takes<K> {
    ghost fact = { λ v items. length v.vouched ≡ v.made → (p : ℕ) → of p (v.taken ++ items) ≡ posted p v.vouched };
}

/// The queue.
pub type Queue<K> = RuledArrayQueue<Parcel, Knows, InOrder<K>>;

/// A pass of the queue.
pub type Hand = Pass<Parcel, Knows>;
