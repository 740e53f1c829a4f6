//! Pairs.

ghost use Rattle.std.specs.Prelude.{◌≡◌};
ghost use Rattle.squall_join.specs.Pairs.{pair_of, pair_is, pair_join};
ghost use Rattle.squall_join.specs.PairLaws.{pair_laws};
ghost use Rattle.squall_join.specs.Rests.{pair_covered, pair_beyond};
ghost use Rattle.squall_join.specs.Units.{pair_unit};
ghost use Rattle.squall_join.specs.BeyondLaws.{pair_beyond_laws};

use crate::{Beyond, Join};
use std::alloc::{AllocError, Global};

/// Two values, each of which is joined on its own.
#[derive(Debug, PartialEq, Eq, Drop)]
pub struct Pair<A, B> {
    /// The first value.
    pub first: A,
    /// The second value.
    pub second: B,
}

impl<A, B> Pair<A, B> {
    /// The pair of two values.
    pub fn new(first: A, second: B) -> Pair<A, B>
        ensures { result ≡ pair_of first second }
    {
        Pair { first, second }
    }
}

impl<A: Join, B: Join> Join for Pair<A, B> {
    ghost is_value = { pair_is A.is_value B.is_value };

    ghost bottom = { pair_of A.bottom B.bottom };

    ghost join = { pair_join A.join B.join };

    ghost laws = { pair_laws A.laws B.laws };

    type Draft = Pair<A::Draft, B::Draft>;

    ghost is_draft = { λ d. A.is_draft d.first × B.is_draft d.second };

    ghost before = { λ d. pair_of (A.before d.first) (B.before d.second) };

    ghost after = { λ d. pair_of (A.after d.first) (B.after d.second) };

    fn known(&self) {
        self.first.known();
        self.second.known();
    }

    fn bottom(alloc: Global) -> Pair<A, B> {
        Pair {
            first: A::bottom(alloc),
            second: B::bottom(alloc),
        }
    }

    fn is_bottom(&self) -> bool {
        self.first.is_bottom() && self.second.is_bottom()
    }

    fn covers(&self, other: &Pair<A, B>) -> bool {
        self.first.covers(&other.first) && self.second.covers(&other.second)
    }

    fn joined(&self, alloc: Global, other: &Pair<A, B>) -> Result<Pair<A, B>, AllocError> {
        Ok(Pair {
            first: self.first.joined(alloc, &other.first)?,
            second: self.second.joined(alloc, &other.second)?,
        })
    }

    fn copied(&self, alloc: Global) -> Result<Pair<A, B>, AllocError> {
        Ok(Pair {
            first: self.first.copied(alloc)?,
            second: self.second.copied(alloc)?,
        })
    }

    /// Joins one half in place if the other half of the argument is the least value. Else it drafts
    /// the join of the first halves, and keeps it if the second halves are joined. So both halves
    /// are joined, or neither is.
    fn join_in(&mut self, alloc: Global, other: &Pair<A, B>) -> Result<(), AllocError> {
        if other.second.is_bottom() {
            self.second.known();
            return self.first.join_in(alloc, &other.first);
        }
        if other.first.is_bottom() {
            self.first.known();
            return self.second.join_in(alloc, &other.second);
        }
        let first = self.first.draft_join(alloc, &other.first)?;
        match self.second.join_in(alloc, &other.second) {
            Ok(()) => {
                self.first = A::keep(first);
                Ok(())
            }
            Err(e) => {
                self.first = A::undo(first);
                Err(e)
            }
        }
    }

    fn draft_join(&mut self, alloc: Global, other: &Pair<A, B>) -> Result<Self::Draft, AllocError> {
        let first = self.first.draft_join(alloc, &other.first)?;
        match self.second.draft_join(alloc, &other.second) {
            Ok(second) => Ok(Pair { first, second }),
            Err(e) => {
                self.first = A::undo(first);
                Err(e)
            }
        }
    }

    fn keep(draft: Self::Draft) -> Pair<A, B> {
        Pair {
            first: A::keep(draft.first),
            second: B::keep(draft.second),
        }
    }

    fn undo(draft: Self::Draft) -> Pair<A, B> {
        Pair {
            first: A::undo(draft.first),
            second: B::undo(draft.second),
        }
    }
}

impl<A: Beyond, B: Beyond> Beyond for Pair<A, B> {
    ghost covered = { pair_covered A.covered B.covered };

    ghost unit = { pair_unit A.unit B.unit A.bottom B.bottom };

    ghost beyond = { pair_beyond A.beyond B.beyond };

    ghost beyond_laws = { pair_beyond_laws A.laws B.laws A.beyond_laws B.beyond_laws };

    fn beyond(&self, alloc: Global, other: &Pair<A, B>) -> Result<Pair<A, B>, AllocError> {
        Ok(Pair {
            first: self.first.beyond(alloc, &other.first)?,
            second: self.second.beyond(alloc, &other.second)?,
        })
    }
}
