//! What seats read.

ghost use Rattle.std.specs.Prelude.{◌≡◌};
ghost use Rattle.squall_board.specs.Boards.{board_join};
ghost use Rattle.squall_router.specs.Routers.{router_with};

use crate::track::Prefix;
use left_right::Absorb;
use squall_cluster_inbox::{Letter, News};
use squall_router::Router;
use std::alloc::AllocError;

/// A letter with the list that ends with it.
#[derive(Drop)]
pub struct Entry {
    pub letter: Letter,
    pub prefix: Prefix,
}

/// A router, with the list of the letters that it took.
#[derive(Drop)]
pub struct Shown {
    pub router: Router,
    pub prefix: Prefix,
}

impl Absorb<Entry> for Shown {
    type State = (Router, Prefix);

    ghost state = { λ s. (s.router, s.prefix) };

    ghost applied = { λ t x. (router_with t.0.first (board_join t.0.board x.letter), x.prefix) };

    fn absorb_first(&mut self, operation: &Entry, _other: &Shown) -> Result<(), AllocError> {
        match operation.letter.news() {
            News::Delta(delta) => self.router.absorb(delta)?,
            News::Report(report) => self.router.take(report)?,
        }
        self.prefix = operation.prefix.again();
        Ok(())
    }
}
