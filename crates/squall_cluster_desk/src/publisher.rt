//! The publisher, which brings the desk up to date.

ghost use Rattle.std.specs.Prelude.{◌≡◌, ◌↔◌, ◌+◌, ◌≤◌, ◌<◌, ◌^◌, ◌++◌, ◌∷◌, [], length, IfOk, OnOk, OnErr, IsTrue, MatchResult, MatchBool, None};
ghost use Rattle.squall_cluster_inbox.specs.Letters.{IsLetter, AreLetters, board_after};
ghost use Rattle.squall_cluster_desk.specs.Start.{IsStartOf};
ghost use Rattle.squall_cluster_desk.specs.Hand.{listed, letters, Follows, Pending, ShowsAll};
ghost use Rattle.squall_cluster_desk.specs.Writers.{shown, unshown, HasShown, StillWaits};
ghost use Rattle.squall_cluster_desk.specs.Seats.{Showing};

use crate::places::Places;
use crate::rule::{DeskWriter, Looking};
use crate::seat::Notice;
use crate::shown::Entry;
use crate::start::Start;
use crate::track::{Prefix, Track};
use core::mem::replace_with;
use squall_board::Board;
use squall_cluster_inbox::{Constants, Letter};
use std::alloc::{AllocError, Global};
use std::marker::Model;
use std::sync::Wait;

/// The most letters that may be published.
const MOST: u64 = 1 << 62;

/// The one end of the desk that publishes. Contracts see the list of letters that is published, and the
/// letter in hand, if there is one.
///
/// If it is dropped, readers see nothing from then on. The drop waits for those that are reading.
pub struct Publisher<K: Constants, R: Wait + Drop> {
    track: Track,
    held: Option<Entry>,
    writer: DeskWriter<K>,
    rt: R,
}

impl<K: Constants, R: Wait + Drop> Model for Publisher<K, R> {
    ghost Value = { Showing };

    ghost view = { λ p. record { published = (shown p.writer).prefix.log; hand = letters (unshown p.writer ++ listed p.held) } };

    ghost invariant = { λ p.
        Follows K.allowed K.book (shown p.writer).prefix.log (unshown p.writer ++ listed p.held)
        × (length (unshown p.writer ++ listed p.held) ≤ 1)
        × ((shown p.writer).prefix.book ≡ K.book) × (p.track ≡ K.book)
        × ShowsAll K.allowed K.first K.opening (shown p.writer) };
}

/// Whether a letter may be added to the list: it has fewer than the most.
fn has_room(list: &Prefix) -> bool
    ensures { IsTrue result ↔ (length list.now.log < 2 ^ 62) }
{
    list.len() < MOST
}

/// The list with the letter at its end. The publisher alone lengthens the list, so the first
/// attempt adds the letter.
fn lengthened<R: Wait>(rt: &R, track: &Track, before: &Prefix, letter: &Letter) -> Prefix
    requires { track.now ≡ before.now.book }
    ensures { (result.book ≡ before.now.book) × (result.log ≡ before.now.log ++ letter.now ∷ []) }
{
    for _ in rt.forever() {
        let mut front = before.again();
        if has_room(&front) && front.add(track, letter) {
            return front;
        }
    }
    unreachable!()
}

/// Puts the letter in hand into the writer's log, unless it is there already. At `Err` nothing changed.
fn settle<K: Constants>(
    held: &mut Option<Entry>,
    writer: &mut DeskWriter<K>,
) -> Result<(), AllocError>
    ensures desk { writer.new.desk ≡ writer.old.desk }
    ensures ok { OnOk result ((held.new ≡ None) × (unshown writer.new ≡ unshown writer.old ++ listed held.old)) }
    ensures err { OnErr result ((held.new ≡ held.old) × (unshown writer.new ≡ unshown writer.old)) }
    ensures tried { OnErr result (length (listed held.old) ≡ 1) }
{
    if let Some(entry) = held.take() {
        if let Err(entry) = writer.append(entry) {
            *held = Some(entry);
            return Err(AllocError);
        }
    }
    Ok(())
}

/// Shows readers the letter that is pending. At `Err` they see what they saw before.
fn show<K: Constants, R: Wait>(
    rt: &R,
    writer: DeskWriter<K>,
) -> (DeskWriter<K>, Result<(), AllocError>)
    requires pending { Pending K.allowed K.book (shown writer) (unshown writer) }
    requires all { ShowsAll K.allowed K.first K.opening (shown writer) }
    ensures { MatchResult result.1 (λ _. HasShown K.allowed K.book K.first K.opening writer result.0) (λ _. StillWaits writer result.0) }
{
    writer.publish_as::<Looking<K>, R>(rt)
}

impl<K: Constants, R: Wait + Drop> Publisher<K, R> {
    /// The two ends of a new desk: its publisher, and its places for that many readers. It fails
    /// (memory).
    pub fn open(
        rt: R,
        alloc: Global,
        start: Start,
        readers: usize,
    ) -> Result<(Publisher<K, R>, Places<K>), AllocError>
        requires start { IsStartOf K.book K.first K.opening start }
        requires readers { readers < 2 ^ 32 }
        ensures publisher { IfOk result (λ ends. ends.0 ≡ record { published = []; hand = [] }) }
        ensures places { IfOk result (λ ends. ends.1 ≡ readers) }
    {
        let one = start.shown(alloc)?;
        let other = start.shown(alloc)?;
        let writer = DeskWriter::new(alloc, one, other, readers.max(1))?;
        let Start {
            first: _,
            opening: _,
            track,
            prefix,
        } = start;
        let publisher = Publisher {
            track,
            held: None,
            writer,
            rt,
        };
        let places = publisher.places(prefix, readers)?;
        Ok((publisher, places))
    }

    /// Changes nothing: after it a proof knows that each published letter is one that the cluster
    /// allows, and that at most one letter is in hand. It also knows that a count of 64 bits holds
    /// the number of published letters.
    pub fn known(&self)
        ensures letters { AreLetters K.allowed self.now.published }
        ensures count { length self.now.published < 2 ^ 64 }
        ensures hand { length self.now.hand ≤ 1 }
    {
        let _count = self.writer.published().prefix.len();
    }

    /// The handle with which it waits.
    pub fn handle(&self) -> &R {
        &self.rt
    }

    /// Whether a letter is in hand.
    pub fn has_letter(&self) -> bool
        ensures { MatchBool result (length self.now.hand ≡ 1) (self.now.hand ≡ []) }
    {
        self.held.is_some() || self.writer.has_pending_operations()
    }

    /// Takes a letter in hand, to be published.
    pub fn lay(&mut self, letter: Letter)
        requires free { self.old.hand ≡ [] }
        requires letter { IsLetter K.allowed letter }
        ensures published { self.new.published ≡ self.old.published }
        ensures hand { self.new.hand ≡ letter ∷ [] }
    {
        let prefix = lengthened(
            &self.rt,
            &self.track,
            &self.writer.published().prefix,
            &letter,
        );
        self.held = Some(Entry { letter, prefix });
    }

    /// Publishes the letter in hand, if there is one: the router that readers see takes it, and no board
    /// and no table is copied. It fails (memory) only with a letter in hand, and then nothing changed.
    ///
    /// It waits for readers that still read the other copy.
    pub fn publish(&mut self) -> Result<(), AllocError>
        ensures published { OnOk result (self.new.published ≡ self.old.published ++ self.old.hand) }
        ensures hand { OnOk result (self.new.hand ≡ []) }
        ensures err { OnErr result (self.new ≡ self.old) }
        ensures failed { OnErr result (length self.old.hand ≡ 1) }
    {
        settle(&mut self.held, &mut self.writer)?;
        if !self.writer.has_pending_operations() {
            return Ok(());
        }
        replace_with(
            &mut self.writer,
            &self.rt,
            |writer: DeskWriter<K>, rt: &R| -> (DeskWriter<K>, Result<(), AllocError>)
                requires { Pending K.allowed K.book (shown writer) (unshown writer) × ShowsAll K.allowed K.first K.opening (shown writer) }
                ensures { MatchResult result.1 (λ _. HasShown K.allowed K.book K.first K.opening writer result.0) (λ _. StillWaits writer result.0) }
            { show(rt, writer) },
        )
    }

    /// What is published now.
    pub fn notice(&self) -> Notice<K>
        ensures { result ≡ self.now.published }
    {
        Notice::of_prefix(&self.writer.published().prefix)
    }

    /// Its places for that many readers, from an empty list. It fails (memory).
    fn places(&self, start: Prefix, readers: usize) -> Result<Places<K>, AllocError>
        requires { (start.book ≡ K.book) × (start.log ≡ []) }
        ensures { IfOk result (λ places. places ≡ readers) }
    {
        let factory = self.writer.factory().another()?;
        Ok(Places::of_parts(factory, start, readers))
    }

    /// Ends the desk: readers see nothing from then on. It waits for those that are reading. A letter in
    /// hand is dropped.
    pub fn into_board(self) -> Board
        ensures { result ≡ board_after K.opening self.published }
    {
        let Self {
            track,
            held,
            writer,
            rt,
        } = self;
        let shown = writer.take(&rt);
        drop((track, held, rt));
        Box::into_inner(shown).router.into_board()
    }
}

impl<K: Constants, R: Wait + Drop> Drop for Publisher<K, R> {
    fn drop(self) {
        drop(self.into_board());
    }
}
