//! The places of the desk.

ghost use Rattle.std.specs.Prelude.{◌≡◌, ◌<◌, ℕ, [], Err, IfOk, OnOk};
ghost use Rattle.squall_cluster_desk.specs.Seats.{Seen, nothing_seen};
ghost use Rattle.squall_cluster_desk.specs.declared.places.SeatFault.TheVariants.{NoPlace};

use crate::rule::DeskFactory;
use crate::seat::Seat;
use crate::track::Prefix;
use squall_cluster_inbox::Constants;
use std::marker::Model;
use thiserror::Error;

/// Why there is no seat.
#[derive(Debug, Drop, Error)]
pub enum SeatFault {
    /// Each place was found taken. That may happen too while other threads take places and give them
    /// back.
    #[error("NoPlace")]
    NoPlace,
    /// The count of the desk's owners is full.
    #[error("NoMemory")]
    NoMemory,
}

/// The places of a desk, for seats. Threads may share them. Contracts see how many there are.
#[derive(Drop)]
pub struct Places<K: Constants> {
    factory: DeskFactory<K>,
    start: Prefix,
    readers: usize,
}

impl<K: Constants> Model for Places<K> {
    ghost Value = { ℕ };

    ghost view = { λ p. p.readers };

    ghost invariant = { λ p. (p.start.book ≡ K.book) × (p.start.log ≡ []) };
}

impl<K: Constants> Places<K> {
    /// The places of the desk for that many readers. A desk has one place at least, which is never
    /// handed out if `readers` is 0.
    pub(crate) fn of_parts(factory: DeskFactory<K>, start: Prefix, readers: usize) -> Places<K>
        requires { (start.book ≡ K.book) × (start.log ≡ []) }
        ensures { result ≡ readers }
    {
        Places {
            factory,
            start,
            readers,
        }
    }

    /// A seat that has seen nothing. It answers [`SeatFault::NoPlace`] if each place is taken, and
    /// always if there are no readers. It answers [`SeatFault::NoMemory`] if the count of the desk's
    /// owners is full. It allocates nothing, and after a fault nothing changed.
    pub fn seat(&self) -> Result<Seat<K>, SeatFault>
        ensures nothing_seen { IfOk result (λ seat. seat ≡ nothing_seen) }
        ensures places { OnOk result (0 < self.now) }
        ensures no_places { (self.now ≡ 0) → result ≡ Err NoPlace }
    {
        if self.readers == 0 {
            return Err(SeatFault::NoPlace);
        }
        let Ok(factory) = self.factory.another() else {
            return Err(SeatFault::NoMemory);
        };
        match factory.reader() {
            Ok(reader) => Ok(Seat::of_parts(reader, &self.start)),
            Err(_) => Err(SeatFault::NoPlace),
        }
    }
}
