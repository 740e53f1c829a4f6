//! Laws of repairs, each the contract of a function that does nothing.

ghost use Rattle.std.specs.Prelude.{◌≡◌, ℕ, List};
ghost use Rattle.std.specs.Ordering.{nat_cmp};
ghost use Rattle.std.specs.FinMap.Entries.{find};
ghost use Rattle.squall_board.specs.Boards.{board_join, cells_in, empty_board, found_in, issues_in};
ghost use Rattle.squall_delta.specs.Hashes.{digest_of};
ghost use Rattle.squall_delta.specs.Repairs.{IsRepair, NoCollisions, issue_is_hashed, row_is_hashed, shows_issue, shows_row};

use squall_board::Board;
use squall_wire::Digest;

/// A board and a digest have one repair.
pub fn one_repair(board: &Board, digest: &Digest, repair: &Board, other: &Board)
    ensures { IsRepair board.now digest.now repair.now → IsRepair board.now digest.now other.now → repair.now ≡ other.now }
{
    repair.known();
    other.known();
}

/// A board that takes the repair of another board by its own digest has all that either has. This
/// holds if no two different rows or issues of the two boards, at one place, have the same hash.
pub fn repairs_complete(board: &Board, other: &Board, repair: &Board)
    ensures { NoCollisions board.now other.now → IsRepair other.now (digest_of board.now) repair.now
        → board_join repair.now board.now ≡ board_join board.now other.now }
{
    board.known();
    other.known();
    repair.known();
}

/// The repair of a board by its own digest is empty.
pub fn repair_of_own_digest_is_empty(board: &Board, repair: &Board)
    ensures { IsRepair board.now (digest_of board.now) repair.now → repair.now ≡ empty_board }
{
    board.known();
    repair.known();
}

/// The digest of a board shows the hash of each issue and of each row of the board, and no other.
pub fn digests_list_the_board(board: &Board)
    ensures issues { (number : ℕ) (hash : List ℕ)
        → shows_issue (digest_of board.now) number hash ≡ issue_is_hashed number hash (find nat_cmp number (issues_in board.now)) }
    ensures rows { (number sub : ℕ) (hash : List ℕ)
        → shows_row (digest_of board.now) number sub hash ≡ row_is_hashed number sub hash (found_in sub (find nat_cmp number (cells_in board.now))) }
{
    board.known();
}
