//! The example of the crate's first page.

ghost use Rattle.std.specs.Prelude.{◌≡◌, None};

use squall_board::Board;
use squall_cluster_inbox::{Constants, Letter, Taker};
use std::alloc::Global;
use std::marker::Brand;
use std::process::Abort;
use std::sync::Wait;
use std::test::Fail;

/// The taker takes the letter that a sender posts, and then finds none.
fn takes_what_is_posted<K: Constants, R: Abort + Wait>(
    rt: &R,
    alloc: Global,
    letter: Letter,
) -> Result<(), Fail>
    requires { K.allowed ≡ None }
{
    let mut taker = Taker::<K>::open(alloc, 1)?;
    let mut sender = taker.hire()?;
    assert!(rt; sender.post(rt, letter).is_ok());
    assert!(rt; taker.take(rt).is_some());
    assert!(rt; taker.take(rt).is_none());
    Ok(())
}

#[test]
fn posted_and_taken(rt: HostRuntime) -> Result<(), Fail> {
    let letter = Letter::new(Board::new(rt.alloc()));
    takes_what_is_posted::<Brand, _>(&rt, rt.alloc(), letter)
}
