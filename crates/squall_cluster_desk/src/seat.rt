//! The seats: readers of the desk.

ghost use Rattle.std.specs.Prelude.{◌≡◌, ◌⊎◌, IfSome, OnSome, IfNone, IsTrue, false};
ghost use mathlib.Core.List.{IsPrefix};
ghost use Rattle.squall_board.specs.CourseRoute.{route_by_newest};
ghost use Rattle.squall_cluster_inbox.specs.Letters.{AreLetters, board_after};
ghost use Rattle.squall_cluster_desk.specs.Seats.{Seen, IsLook};
ghost use Rattle.squall_cluster_desk.specs.Track.{AreOfOneList};

use crate::rule::{DeskReader, Looking};
use crate::track::Prefix;
use core::mem::replace_with;
use squall_cluster_inbox::Constants;
use squall_key::{Key, PartId};
use std::marker::{Model, PhantomData};

/// What a turn tells: the list of letters that was published when it ended. Contracts see it as that
/// list.
#[derive(Drop)]
pub struct Notice<K: Constants> {
    prefix: Prefix,
    of: PhantomData<K>,
}

impl<K: Constants> Model for Notice<K> {
    ghost use Rattle.std.specs.Prelude.{◌≡◌, List};
    ghost use Rattle.squall_board.specs.Boards.{BoardValue};

    ghost Value = { List BoardValue };

    ghost view = { λ n. n.prefix.log };

    ghost invariant = { λ n. n.prefix.book ≡ K.book };
}

impl<K: Constants> Notice<K> {
    /// The same notice once more.
    pub fn again(&self) -> Notice<K>
        ensures { result ≡ self.now }
    {
        Notice {
            prefix: self.prefix.again(),
            of: PhantomData,
        }
    }

    /// The notice of that list.
    pub(crate) fn of_prefix(prefix: &Prefix) -> Notice<K>
        requires { prefix.now.book ≡ K.book }
        ensures { result ≡ prefix.now.log }
    {
        Notice {
            prefix: prefix.again(),
            of: PhantomData,
        }
    }
}

/// One look at the desk by a reader that is not reading: the partition to ask for the key, and the
/// list that the router had taken.
fn look<K: Constants>(reader: DeskReader<K>, key: Key) -> (DeskReader<K>, Option<(PartId, Prefix)>)
    ensures { IfSome result.1 (IsLook K.allowed K.book K.first K.opening key) }
{
    match reader.enter_as::<Looking<K>>() {
        Ok(reading) => {
            let shown = reading.get();
            let part = shown.router.route(key);
            let prefix = shown.prefix.again();
            (reading.leave(), Some((part, prefix)))
        }
        Err(reader) => (reader, None),
    }
}

/// A seat: a reader of the desk, with a place of its own. Contracts see two prefixes of the
/// published list: the letters that were published at its last look, and those that it knows from
/// that look and from notices.
///
/// A seat that is dropped gives its place back.
#[derive(Drop)]
pub struct Seat<K: Constants> {
    reader: DeskReader<K>,
    seen: Prefix,
    known: Prefix,
}

impl<K: Constants> Model for Seat<K> {
    ghost Value = { Seen };

    ghost view = { λ s. record { seen = s.seen.log; known = s.known.log } };

    ghost invariant = { λ s. (s.seen.book ≡ K.book) × (s.known.book ≡ K.book) };
}

impl<K: Constants> Seat<K> {
    /// A seat that has seen the list of the start.
    pub(crate) fn of_parts(reader: DeskReader<K>, start: &Prefix) -> Seat<K>
        requires { start.now.book ≡ K.book }
        ensures { result ≡ record { seen = start.now.log; known = start.now.log } }
    {
        Seat {
            reader,
            seen: start.again(),
            known: start.again(),
        }
    }

    /// The partition to ask for the key, by a look at the desk. It is the route of a router that
    /// has taken the letters then seen. `None` if the owner of the desk is gone, and then nothing
    /// changed. `None` also if the look shows less than the seat knows, which no desk does.
    ///
    /// It waits for nobody and allocates nothing.
    pub fn route(&mut self, key: Key) -> Option<PartId>
        ensures route_of_seen { IfSome result (λ part. part ≡ route_by_newest K.first (board_after K.opening self.new.seen) key) }
        ensures seen_begins_with_known { OnSome result (IsPrefix self.old.known self.new.seen) }
        ensures known { OnSome result (self.new.known ≡ self.new.seen) }
        ensures letters { OnSome result (AreLetters K.allowed self.new.seen) }
        ensures none { IfNone result (self.new ≡ self.old) }
    {
        let looked = replace_with(
            &mut self.reader,
            key,
            |reader: DeskReader<K>, key: Key| -> (DeskReader<K>, Option<(PartId, Prefix)>)
                ensures { IfSome result.1 (IsLook K.allowed K.book K.first K.opening key) }
            { look(reader, key) },
        );
        let (part, prefix) = looked?;
        if !self.known.begins(&prefix) {
            return None;
        }
        self.seen = prefix.again();
        self.known = prefix;
        Some(part)
    }

    /// Whether the seat knows all that the notice tells. If not, the notice tells all that the seat
    /// knows, and more.
    pub fn knows(&self, notice: &Notice<K>) -> bool
        ensures known { IsTrue result → IsPrefix notice.now self.now.known }
        ensures exact { IsPrefix notice.now self.now.known → IsTrue result }
        ensures more { (result ≡ false) → IsPrefix self.now.known notice.now }
    {
        notice.prefix.begins(&self.known)
    }

    /// From now on the seat knows what the notice tells: its later looks see at least that.
    pub fn learn(&mut self, notice: &Notice<K>)
        ensures seen { self.new.seen ≡ self.old.seen }
        ensures learnt { IsPrefix notice.now self.new.known }
        ensures kept { IsPrefix self.old.known self.new.known }
        ensures nothing_else { (self.new.known ≡ self.old.known) ⊎ (self.new.known ≡ notice.now) }
    {
        if self.known.begins(&notice.prefix) {
            self.known = notice.prefix.again();
        }
    }
}

/// The seats of a cluster see one list: what two of them have seen or know are prefixes of one
/// list. It changes nothing, and a proof knows this after it.
pub fn one_list<K: Constants>(one: &Seat<K>, other: &Seat<K>)
    ensures seen { AreOfOneList one.now.seen other.now.seen }
    ensures known { AreOfOneList one.now.known other.now.known }
    ensures seen_and_known { AreOfOneList one.now.seen other.now.known }
{
    one.seen.beside(&other.seen);
    one.known.beside(&other.known);
    one.seen.beside(&other.known);
}

/// A notice of a cluster tells a prefix of the list that its seats see. It changes nothing, and a
/// proof knows this after it.
pub fn one_list_of_notice<K: Constants>(seat: &Seat<K>, notice: &Notice<K>)
    ensures seen { AreOfOneList seat.now.seen notice.now }
    ensures known { AreOfOneList seat.now.known notice.now }
{
    seat.seen.beside(&notice.prefix);
    seat.known.beside(&notice.prefix);
}
