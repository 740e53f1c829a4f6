//! If an allocation fails nothing is lost.

ghost use Rattle.std.specs.Prelude.{◌≡◌, None};
ghost use Rattle.squall_cluster_desk.specs.Start.{IsStartOf};

use super::{closed, empty_origin, is_board_of_both, moving_key, opened, two_letters};
use squall_board::Board;
use squall_cluster::{Constants, Letter, Owner, Seat, Start};
use squall_key::PartId;
use std::alloc::Global;
use std::marker::Brand;
use std::sync::Wait;
use std::test::Fail;

/// Whether the seat sends 2:0 to the partition.
fn sends_to<K: Constants>(seat: &mut Seat<K>, part: u32) -> bool {
    match moving_key() {
        Some(key) => seat.route(key) == PartId::new(part),
        None => false,
    }
}

/// Whether a turn takes the letter that was posted, at the first or at the second try. The seat
/// then sees it, but not after a first try that failed.
fn turns<K: Constants, R: Wait + Drop>(owner: &mut Owner<K, R>, seat: &mut Seat<K>) -> bool
    ensures inbox { owner.new.inbox ≡ owner.old.inbox }
    ensures senders { (owner.new.made ≡ owner.old.made) × (owner.new.vouched ≡ owner.old.vouched) }
{
    let took = match owner.turn() {
        Ok(turn) => turn.took,
        Err(_) => sends_to(seat, 1) && matches!(owner.turn(), Ok(turn) if turn.took),
    };
    took && sends_to(seat, 3)
}

/// Whether each step of a cluster that takes two letters answers as it should, and its board, closed at a
/// second try if the first had no memory. None if an allocation fails elsewhere.
fn takes_both<K: Constants, R: Wait>(
    rt: &R,
    alloc: Global,
    start: Start,
    letters: (Letter, Letter),
) -> Option<(bool, Board)>
    requires start { IsStartOf K.book K.first K.opening start }
    requires allowed { K.allowed ≡ None }
{
    let pair = opened::<K, &R>(rt, alloc, start, 1, 1)?;
    let (mut first, mut second, mut owner) = (pair.first, pair.second, pair.owner);
    let mut seat = pair.cluster.seat().ok()?;
    let posted = first.post(rt, letters.0).is_ok();
    let turned = turns(&mut owner, &mut seat);
    let posted_too = second.post(rt, letters.1).is_ok();
    let board = closed(alloc, first, second, owner)?;
    Some((posted && turned && posted_too, board))
}

/// Whether a cluster loses nothing. Also if an allocation fails before there is one.
fn loses_nothing<K: Constants, R: Wait>(rt: &R, alloc: Global, start: Start) -> Option<bool>
    requires start { IsStartOf K.book K.first K.opening start }
    requires allowed { K.allowed ≡ None }
{
    let letters = two_letters(alloc)?;
    let (right, closed) = takes_both::<K, R>(rt, alloc, start, letters)?;
    let told = is_board_of_both(alloc, &closed)?;
    Some(right && told)
}

#[test]
fn tolerant_cluster(rt: HostRuntime) -> Result<(), Fail> {
    let Some(origin) = empty_origin(rt.alloc()) else {
        return Ok(());
    };
    let answer = loses_nothing::<Brand, _>(&rt, rt.alloc(), origin.start());
    assert!(rt; answer != Some(false));
    assert!(rt; origin.first.number() == 1);
    Ok(())
}
