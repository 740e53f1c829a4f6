//! What is fixed for one cluster.

ghost use Rattle.std.specs.Prelude.{[], None};
ghost use Rattle.logbook.specs.Pages.{Book};
ghost use Rattle.squall_course.specs.Change.{Change};
ghost use Rattle.squall_board.specs.Boards.{BoardValue, empty_board};
ghost use Rattle.squall_cluster_inbox.specs.Letters.{Allowance};

use std::marker::Brand;

/// What is fixed for one cluster: its first course, the board that it opens with, and the letters
/// that may be posted in it. It also has the book in which the proofs keep the list of published
/// letters.
///
/// No value of it is made. A program picks these when it calls a function over a `K: Constants`,
/// with [`Brand`] as the type argument. It may pick others at each call.
pub trait Constants {
    ghost book: { Book };

    ghost first: { Change };

    ghost opening: { BoardValue };

    ghost allowed: { Allowance };
}

impl Constants for Brand {
    ghost book = { record { number = 0; log_name = 0; cells_name = 0 } };

    ghost first = { record { number = 0; old = []; new = [] } };

    ghost opening = { empty_board };

    ghost allowed = { None };
}
