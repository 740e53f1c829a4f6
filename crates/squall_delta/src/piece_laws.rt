//! Laws of the pieces of a board, each the contract of a function that does nothing.

ghost use Rattle.std.specs.Prelude.{◌≡◌, ◌<◌, ◌↔◌, List, [], length};
ghost use Rattle.std.specs.List.{AllByRecursion};
ghost use Rattle.squall_board.specs.Boards.{BoardValue, empty_board};
ghost use Rattle.squall_wire.specs.declared.message.Message.TheVariants.{Delta};
ghost use Rattle.squall_wire.specs.Limits.{body_limit};
ghost use Rattle.squall_wire.specs.Messages.{body_of, spell_body};
ghost use Rattle.squall_delta.specs.Pieces.{ArePieces, FitsFrame, joined_boards};

use squall_board::Board;

/// A board has one list of pieces.
pub fn one_list_of_pieces(board: &Board)
    ensures { (ps qs : List BoardValue) → ArePieces board.now ps → ArePieces board.now qs → ps ≡ qs }
{
    board.known();
}

/// The pieces of a board, merged, are that board.
pub fn pieces_join_to_the_board(board: &Board)
    ensures { (ps : List BoardValue) → ArePieces board.now ps → joined_boards ps ≡ board.now }
{
    board.known();
}

/// Each piece of a board fits a frame.
pub fn pieces_fit_frames()
    ensures { (b : BoardValue) (ps : List BoardValue) → ArePieces b ps → AllByRecursion FitsFrame ps }
{}

/// A board that fits a frame has one: its body is not too long.
pub fn pieces_have_frames(piece: &Board)
    ensures { FitsFrame piece.now → body_limit < length (spell_body (body_of (Delta piece.now))) → ⊥ }
{}

/// The board that tells nothing has no pieces, and each other board has some.
pub fn no_items_no_pieces(board: &Board)
    ensures none { (ps : List BoardValue) → ArePieces empty_board ps → ps ≡ [] }
    ensures empty { ArePieces board.now [] → board.now ≡ empty_board }
{
    board.known();
}
