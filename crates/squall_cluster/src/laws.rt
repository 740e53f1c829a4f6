//! Laws of letters, each the contract of a function that does nothing.

ghost use Rattle.std.specs.Prelude.{◌≡◌, ◌++◌, ◌∷◌, [], ℕ, List};
ghost use Rattle.squall_course.specs.Change.{Change};
ghost use Rattle.squall_board.specs.Boards.{BoardValue};
ghost use Rattle.squall_board.specs.CourseRoute.{route_by_newest};
ghost use Rattle.squall_router.specs.Routers.{route_of_router};
ghost use Rattle.squall_cluster_inbox.specs.Letters.{Allowance, AreLetters, board_after};
ghost use Rattle.squall_cluster.specs.Joined.{IsJoinOfAll, AreSameLetters, HasFactsOf, HasAbsorbed, shown_router};

use squall_board::Board;
pub use squall_cluster_desk::laws::{one_list, one_list_of_notice};

/// The board after letters is the join of the opening board and all letters. It has the facts of these
/// boards and no other. The order of the letters, and how often each one comes, do not matter.
pub fn letters_are_joined(opening: &Board)
    ensures join { (allowed : Allowance) (letters : List BoardValue) → AreLetters allowed letters
        → IsJoinOfAll opening.now letters (board_after opening.now letters) }
    ensures facts { (allowed : Allowance) (letters : List BoardValue) → AreLetters allowed letters
        → HasFactsOf opening.now letters (board_after opening.now letters) }
    ensures any_order { (allowed : Allowance) (letters others : List BoardValue) → AreLetters allowed letters → AreLetters allowed others
        → AreSameLetters letters others → board_after opening.now letters ≡ board_after opening.now others }
{
    opening.known();
}

/// Publishing a letter has the effect of one router that absorbs it, as a message delivered to it.
/// The desk then shows the router that it showed before, with the letter absorbed. A look at the
/// desk is that router's route.
pub fn publishing_is_absorbing()
    ensures absorbed { (first : Change) (opening : BoardValue) (published : List BoardValue) (letter : BoardValue)
        → HasAbsorbed (shown_router first opening published) letter (shown_router first opening (published ++ letter ∷ [])) }
    ensures route { (first : Change) (opening : BoardValue) (seen : List BoardValue) (k : ℕ)
        → route_of_router (shown_router first opening seen) k ≡ route_by_newest first (board_after opening seen) k }
{}
