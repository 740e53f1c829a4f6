//! The example of the crate's first page.

ghost use Rattle.std.specs.Prelude.{◌≡◌, [], None};
ghost use Rattle.squall_cluster_inbox.specs.Letters.{IsLetter};
ghost use Rattle.squall_cluster_desk.specs.Start.{IsStartOf};

use crate::cluster::{empty_origin, load_alone, load_letter};
use squall_cluster_desk::{Places, Publisher, Seat, Start};
use squall_cluster_inbox::{Constants, Letter};
use squall_key::{Key, PartId};
use std::alloc::Global;
use std::marker::Brand;
use std::process::Abort;
use std::sync::Wait;
use std::test::Fail;

/// The seat sends 2:0 to its old partition, and to its new one once the letter of its load is
/// published.
fn sees_what_is_published<K: Constants, R: Abort + Wait>(
    rt: &R,
    publisher: &mut Publisher<K, &R>,
    seat: &mut Seat<K>,
    letter: Letter,
) -> Result<(), Fail>
    requires { (publisher.old.hand ≡ []) × IsLetter K.allowed letter }
{
    let key = Key::new(2, 0).ok_or("a key")?;
    assert!(rt; seat.route(key) == PartId::new(1));
    publisher.lay(letter);
    publisher.publish()?;
    assert!(rt; seat.route(key) == PartId::new(3));
    Ok(())
}

/// The same with a seat of these places.
fn sees_the_load<K: Constants, R: Abort + Wait>(
    rt: &R,
    publisher: &mut Publisher<K, &R>,
    places: &Places<K>,
    letter: Letter,
) -> Result<(), Fail>
    requires hand { publisher.old.hand ≡ [] }
    requires allowed { K.allowed ≡ None }
{
    let mut seat = places.seat().ok().ok_or("a seat")?;
    letter.known();
    sees_what_is_published(rt, publisher, &mut seat, letter)
}

/// The same with a new desk for one reader.
fn shows_the_load<K: Constants, R: Abort + Wait>(
    rt: &R,
    alloc: Global,
    start: Start,
    letter: Letter,
) -> Result<(), Fail>
    requires start { IsStartOf K.book K.first K.opening start }
    requires allowed { K.allowed ≡ None }
{
    let (mut publisher, places) = Publisher::<K, &R>::open(rt, alloc, start, 1)?;
    sees_the_load(rt, &mut publisher, &places, letter)
}

#[test]
fn board_published(rt: HostRuntime) -> Result<(), Fail> {
    let origin = empty_origin(rt.alloc()).ok_or("an origin")?;
    let letter = load_letter(rt.alloc()).ok_or("a letter")?;
    shows_the_load::<Brand, _>(&rt, rt.alloc(), origin.start(), letter)
}

#[test]
fn report_published(rt: HostRuntime) -> Result<(), Fail> {
    let origin = empty_origin(rt.alloc()).ok_or("an origin")?;
    let letter = load_alone().ok_or("a letter")?;
    shows_the_load::<Brand, _>(&rt, rt.alloc(), origin.start(), letter)
}
