//! A cluster step by step.

ghost use Rattle.std.specs.Prelude.{◌≡◌, None};
ghost use Rattle.squall_cluster_desk.specs.Start.{IsStartOf};

use super::{closed, empty_origin, is_board_of_both, moving_key, opened, two_letters};
use squall_board::Board;
use squall_cluster::{
    Cluster, Constants, Full, Letter, Notice, Owner, Seat, SeatFault, Sender, Start,
};
use squall_key::PartId;
use std::alloc::Global;
use std::marker::Brand;
use std::sync::Wait;
use std::test::Fail;

/// Two seats, after which there is no place.
fn two_seats<K: Constants>(cluster: &Cluster<K>) -> Option<(Seat<K>, Seat<K>)> {
    let one = cluster.seat().ok()?;
    let other = cluster.seat().ok()?;
    match cluster.seat() {
        Err(SeatFault::NoPlace) => Some((one, other)),
        _ => None,
    }
}

/// Posts a letter that fills the inbox, and another that comes back.
fn post_and_get_back<K: Constants, R: Wait>(
    rt: &R,
    first: &mut Sender<K>,
    second: &mut Sender<K>,
    letters: (Letter, Letter),
) -> Option<Letter>
    requires { K.allowed ≡ None }
    ensures first { first.new.inbox ≡ first.old.inbox }
    ensures second { second.new.inbox ≡ second.old.inbox }
{
    first.post(rt, letters.0).ok()?;
    match second.post(rt, letters.1) {
        Ok(()) => None,
        Err(Full(back)) => Some(back),
    }
}

/// Whether the seat sends 2:0 to partition 3, to which it moves, once it learns.
fn sees_new<K: Constants>(seat: &mut Seat<K>, notice: &Notice<K>) -> Option<()> {
    seat.learn(notice);
    let sees = seat.route(moving_key()?) == PartId::new(3);
    sees.then_some(())
}

/// A turn that takes the letter, which the seat that learns of it sees.
fn turn_and_learn<K: Constants, R: Wait + Drop>(
    owner: &mut Owner<K, R>,
    seat: &mut Seat<K>,
) -> Option<()>
    ensures inbox { owner.new.inbox ≡ owner.old.inbox }
    ensures senders { (owner.new.made ≡ owner.old.made) × (owner.new.vouched ≡ owner.old.vouched) }
{
    let turn = owner.turn().ok()?;
    if turn.took {
        sees_new(seat, &turn.notice)
    } else {
        None
    }
}

/// A turn that finds no letter.
fn turn_for_nothing<K: Constants, R: Wait + Drop>(owner: &mut Owner<K, R>) -> Option<()>
    ensures inbox { owner.new.inbox ≡ owner.old.inbox }
    ensures senders { (owner.new.made ≡ owner.old.made) × (owner.new.vouched ≡ owner.old.vouched) }
{
    let turn = owner.turn().ok()?;
    (!turn.took).then_some(())
}

/// Whether the seat sends 2:0 to partition 1, from which it moves, or to partition 3.
fn sees_either<K: Constants>(seat: &mut Seat<K>) -> Option<()> {
    let part = seat.route(moving_key()?)?;
    (part.get() == 1 || part.get() == 3).then_some(())
}

/// Two turns, of which the first takes a letter, as both seats see, and the second takes none.
fn turn_before<K: Constants, R: Wait + Drop>(
    owner: &mut Owner<K, R>,
    one: &mut Seat<K>,
    other: &mut Seat<K>,
) -> Option<()>
    ensures inbox { owner.new.inbox ≡ owner.old.inbox }
    ensures senders { (owner.new.made ≡ owner.old.made) × (owner.new.vouched ≡ owner.old.vouched) }
{
    turn_and_learn(owner, one)?;
    sees_either(other)?;
    turn_for_nothing(owner)
}

/// Two turns, of which the first takes a letter, as two seats see, and the second takes none.
fn turn_twice<K: Constants, R: Wait + Drop>(
    cluster: &Cluster<K>,
    owner: &mut Owner<K, R>,
) -> Option<()>
    ensures inbox { owner.new.inbox ≡ owner.old.inbox }
    ensures senders { (owner.new.made ≡ owner.old.made) × (owner.new.vouched ≡ owner.old.vouched) }
{
    let (mut one, mut other) = two_seats(cluster)?;
    turn_before(owner, &mut one, &mut other)
}

/// A cluster in which two letters are posted, if each step answers as it should. None if one does
/// not, or if an allocation fails.
fn take_steps<K: Constants, R: Wait>(
    rt: &R,
    cluster: &Cluster<K>,
    first: &mut Sender<K>,
    second: &mut Sender<K>,
    owner: &mut Owner<K, &R>,
    letters: (Letter, Letter),
) -> Option<()>
    requires { K.allowed ≡ None }
    ensures first { first.new.inbox ≡ first.old.inbox }
    ensures second { second.new.inbox ≡ second.old.inbox }
    ensures inbox { owner.new.inbox ≡ owner.old.inbox }
    ensures senders { (owner.new.made ≡ owner.old.made) × (owner.new.vouched ≡ owner.old.vouched) }
{
    let back = post_and_get_back(rt, first, second, letters)?;
    turn_twice(cluster, owner)?;
    second.post(rt, back).ok()
}

/// The board of a cluster after these steps.
fn steps<K: Constants, R: Wait>(
    rt: &R,
    alloc: Global,
    start: Start,
    letters: (Letter, Letter),
) -> Option<Board>
    requires start { IsStartOf K.book K.first K.opening start }
    requires allowed { K.allowed ≡ None }
{
    let pair = opened::<K, &R>(rt, alloc, start, 2, 1)?;
    let (mut first, mut second, mut owner) = (pair.first, pair.second, pair.owner);
    take_steps(
        rt,
        &pair.cluster,
        &mut first,
        &mut second,
        &mut owner,
        letters,
    )?;
    closed(alloc, first, second, owner)
}

/// Whether the board after the steps is that of both reports. None if a step does not answer as it
/// should, or if an allocation fails.
fn are_right<K: Constants, R: Wait>(rt: &R, alloc: Global, start: Start) -> Option<bool>
    requires start { IsStartOf K.book K.first K.opening start }
    requires allowed { K.allowed ≡ None }
{
    let letters = two_letters(alloc)?;
    let closed = steps::<K, R>(rt, alloc, start, letters)?;
    is_board_of_both(alloc, &closed)
}

#[test]
fn step_by_step(rt: HostRuntime) -> Result<(), Fail> {
    let origin = empty_origin(rt.alloc()).ok_or("an origin")?;
    let right = are_right::<Brand, _>(&rt, rt.alloc(), origin.start());
    assert!(rt; right == Some(true));
    Ok(())
}
