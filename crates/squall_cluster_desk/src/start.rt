//! What a cluster begins with.

ghost use Rattle.std.specs.Prelude.{◌≡◌, [], IfOk};
ghost use Rattle.std.specs.Arc.{arc_value};
ghost use Rattle.squall_board.specs.Boards.{IsBoard};
ghost use Rattle.squall_router.specs.Routers.{router_with};

use crate::shown::Shown;
use crate::track::{Prefix, Track};
use squall_board::Board;
use squall_course::Course;
use squall_router::Router;
use std::alloc::{AllocError, Global};
use std::marker::Model;
use std::sync::Arc;

/// What a cluster begins with: its first course, its opening board, and an empty list of letters of
/// its own. Contracts see the course, the board, and the book in which the proofs keep that list.
#[derive(Drop)]
pub struct Start<'a> {
    pub(crate) first: &'a Arc<Course>,
    pub(crate) opening: &'a Board,
    pub(crate) track: Track,
    pub(crate) prefix: Prefix,
}

impl<'a> Model for Start<'a> {
    ghost use Rattle.std.specs.Prelude.{◌≡◌, []};
    ghost use Rattle.std.specs.Arc.{arc_value};
    ghost use Rattle.squall_cluster_desk.specs.Start.{Opening};

    ghost Value = { Opening };

    ghost view = { λ s. record { book = s.track; first = arc_value s.first.now; board = s.opening.now } };

    ghost invariant = { λ s. (s.prefix.book ≡ s.track) × (s.prefix.log ≡ []) };
}

impl<'a> Start<'a> {
    /// The start of a new cluster.
    pub fn new(first: &'a Arc<Course>, opening: &'a Board) -> Start<'a>
        ensures first { result.first ≡ arc_value first.now }
        ensures board { result.board ≡ opening.now }
    {
        let (track, prefix) = Prefix::open();
        Start {
            first,
            opening,
            track,
            prefix,
        }
    }

    /// Changes nothing: after it a proof knows that the opening board is a board.
    pub fn known(&self)
        ensures { IsBoard self.now.board }
    {
        let opening = self.opening;
        opening.known();
    }

    /// What readers see first: a router of the first course with the opening board, and the empty
    /// list. It fails (memory).
    pub(crate) fn shown(&self, alloc: Global) -> Result<Shown, AllocError>
        ensures router { IfOk result (λ shown. shown.router ≡ router_with self.now.first self.now.board) }
        ensures prefix { IfOk result (λ shown. (shown.prefix.book ≡ self.now.book) × (shown.prefix.log ≡ [])) }
    {
        let opening = self.opening;
        opening.known();
        let mut router = Router::new(alloc, self.first)?;
        router.absorb(opening)?;
        Ok(Shown {
            router,
            prefix: self.prefix.again(),
        })
    }
}
