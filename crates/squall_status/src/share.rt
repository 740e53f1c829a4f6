//! How far a course has come, counted by its moves and sub-plans.

ghost use Rattle.std.specs.Prelude.{◌≡◌, ◌≤◌, ◌*◌, length};
ghost use Rattle.std.specs.List.{count_by, sum_by};
ghost use Rattle.squall_status.specs.Shares.{is_over, is_ended, move_share, course_share};

use crate::progress::{MoveStatus, Progress};
use crate::subplan::SubplanStatus;

/// The whole of a share, in thousandths.
const WHOLE: u32 = 1000;

/// How many of the moves are complete: each key of such a move is loaded.
pub fn complete_moves(moves: &[MoveStatus]) -> usize
    ensures { result ≡ count_by is_over moves.now }
{
    let mut over = 0;
    for status in moves {
        if status.progress.is_complete() {
            over += 1;
        }
    }
    over
}

/// How many of the sub-plans have ended: each partition that receives keys in such a one is done.
pub fn ended_subplans(subplans: &[SubplanStatus]) -> usize
    ensures { result ≡ count_by is_ended subplans.now }
{
    let mut ended = 0;
    for status in subplans {
        if status.done == status.receivers {
            ended += 1;
        }
    }
    ended
}

/// The share of the move's keys that are loaded, in whole thousandths.
fn move_share(status: &MoveStatus) -> u32
    ensures value { result ≡ move_share status.now }
    ensures most { result ≤ 1000 }
{
    let keys = status.keys();
    if keys == 0 {
        return WHOLE;
    }
    match status.progress {
        Progress::NotStarted => 0,
        Progress::Partial { loaded, .. } => {
            let share = u128::from(loaded) * 1000 / u128::from(keys);
            share.min(1000) as u32
        }
        Progress::Complete => WHOLE,
    }
}

/// The sum of the shares of the moves.
fn sum_shares(moves: &[MoveStatus]) -> u128
    ensures value { result ≡ sum_by move_share moves.now }
    ensures most { result ≤ 1000 * length moves.now }
{
    let mut sum = 0;
    for status in moves {
        sum += u128::from(move_share(status));
    }
    sum
}

/// The share of a course with these moves, in whole thousandths, rounded down: the mean of the shares
/// of the moves. So a move counts as any other, however many keys it has. 1000 if there is none.
pub fn course_share(moves: &[MoveStatus]) -> u32
    ensures value { result ≡ course_share moves.now }
    ensures most { result ≤ 1000 }
{
    if moves.is_empty() {
        return WHOLE;
    }
    (sum_shares(moves) / moves.len() as u128) as u32
}
