//! One list of letters that only grows. It exists in the proofs alone: what runs is a count.

ghost use Rattle.std.specs.Prelude.{◌≡◌, ◌^◌, ◌<◌, ◌≤◌, ◌++◌, ◌∷◌, ◌⊎◌, [], length, IsTrue, false};
ghost use mathlib.Core.List.{IsPrefix};
ghost use Rattle.logbook.specs.Pages.{Book};
ghost use Rattle.squall_cluster_desk.specs.Track.{head_of, Run, AreOfOneList};

use logbook::{Gain, Offer, Plain, Play, Rule, Seen, Start, Word};
use squall_cluster_inbox::Letter;
use std::marker::Model;

pub struct Law;

impl Rule<Letter, u64> for Law {
    ghost use base.Fml.{ftrue};
    ghost use Rattle.squall_cluster_desk.specs.Track.{IsKept};

    ghost holds = { λ cells log. IsKept cells log };

    ghost first = { [] };

    ghost hinted = { λ n log. Unit {0} };

    ghost shows = { λ log. [] };

    ghost keeps = { λ names log. ftrue };

    ghost moves = { λ ask before after answer. Unit {0} };
}

pub struct Nothing;

impl Gain<Letter, u64> for Nothing {
    ghost use base.Fml.{ftrue};

    ghost after = { λ names about answer. ftrue };
}

pub struct Add;

impl Play<Letter, u64> for Add {
    ghost use Rattle.squall_cluster_desk.specs.Track.{Adds};

    ghost then = { Adds };
}

impl Plain<Letter, Letter, u64> for Add {
    ghost use Rattle.std.specs.Prelude.{None};

    ghost ask = { λ letter. letter };

    ghost state = { λ letter. None };
}

/// The right to add to a list. A contract sees its book.
#[derive(Drop)]
pub struct Track {
    head: Word<Letter, u64, Law>,
}

impl Model for Track {
    ghost Value = { Book };

    ghost view = { λ t. t.head.book };

    ghost invariant = { λ t. t.head ≡ head_of t.head.book };
}

/// A prefix of the list.
#[derive(Drop)]
pub struct Prefix {
    count: u64,
    seen: Seen<Letter, u64, Law>,
}

impl Model for Prefix {
    ghost Value = { Run };

    ghost view = { λ f. record { book = f.seen.book; log = f.seen.log } };

    ghost invariant = { λ f. f.count ≡ length f.seen.log };
}

impl Prefix {
    /// A new list, with no letter, and the right to add to it.
    pub fn open() -> (Track, Prefix)
        ensures { (result.0 ≡ result.1.book) × (result.1.log ≡ []) }
    {
        let (seen, mut first, _second) = Seen::open(Start::alone(), 0, 0);
        let head = Word::tracked(0, &mut first);
        (Track { head }, Prefix { count: 0, seen })
    }

    /// How many letters it has.
    pub fn len(&self) -> u64
        ensures { result ≡ length self.now.log }
    {
        self.count
    }

    /// The same prefix once more.
    pub fn again(&self) -> Prefix
        ensures { result ≡ self.now }
    {
        Prefix {
            count: self.count,
            seen: self.seen.again(),
        }
    }

    /// Whether the other is at least as long. If so it begins with this one.
    pub fn begins(&self, other: &Prefix) -> bool
        requires { other.now.book ≡ self.now.book }
        ensures begins { IsTrue result → IsPrefix self.now.log other.now.log }
        ensures longer { (result ≡ false) → IsPrefix other.now.log self.now.log }
        ensures exact { IsPrefix self.now.log other.now.log → IsTrue result }
    {
        let mut both = self.seen.again();
        both.learn(&other.seen);
        self.count <= other.count
    }

    /// Changes nothing: after it a proof knows that both are prefixes of one list.
    pub fn beside(&self, other: &Prefix)
        requires { other.now.book ≡ self.now.book }
        ensures { AreOfOneList self.now.log other.now.log }
    {
        let _goes_as_far = self.begins(other);
    }

    /// Adds a letter to all that was seen, and says whether it did. It did not if the list is longer
    /// than what was seen.
    pub fn add(&mut self, track: &Track, letter: &Letter) -> bool
        requires room { length self.old.log < 2 ^ 62 }
        requires book { track.now ≡ self.old.book }
        ensures book { self.new.book ≡ self.old.book }
        ensures added { IsTrue result → self.new.log ≡ self.old.log ++ letter.now ∷ [] }
    {
        let mut offer: Offer<Letter, u64, Law, Nothing> = self
            .seen
            .plain::<Nothing, Letter, Add>(letter);
        let mut pen = self.seen.no_pen();
        let count = self.count;
        let found = track
            .head
            .compare_exchange::<Add, Nothing>(
                count,
                count + 1,
                &mut self.seen,
                &mut offer,
                &mut pen,
            );
        self.count = if found == count { count + 1 } else { found };
        found == count
    }
}
