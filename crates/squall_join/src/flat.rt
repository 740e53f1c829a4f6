//! At most one value: two different ones clash.

ghost use Rattle.std.specs.Prelude.{◌≡◌, ◌==◌, IfOk, Bool};
ghost use Rattle.squall_join.specs.Flats.{IsExactEq, flat_bottom, flat_is, flat_join, flat_map};
ghost use Rattle.squall_join.specs.FlatLaws.{flat_laws, number_exact};
ghost use Rattle.squall_join.specs.Rests.{flat_covered, flat_beyond};
ghost use Rattle.squall_join.specs.Units.{whole_unit};
ghost use Rattle.squall_join.specs.BeyondLaws.{flat_beyond_laws};

use crate::{Beyond, Join, Whole};
use std::alloc::{AllocError, Global};
use std::mem::replace;

/// A type whose values can be compared exactly, and copied.
pub trait Exact: Drop {
    /// What holds of each value of the type.
    ghost is_one: { Self → Type 0 } = { λ _. Unit {0} };

    /// The test whether two values are equal.
    ghost eq: { Self → Self → Bool };

    /// Shows what holds of each value of the type. It does nothing.
    fn known(&self)
        ensures { is_one self.now };

    /// Whether both are the same value.
    fn is_same(&self, other: &Self) -> bool
        ensures { result ≡ eq self.now other.now };

    /// A copy. An error means that an allocation failed, or that a count of owners is full.
    fn copied(&self, alloc: Global) -> Result<Self, AllocError>
        ensures { IfOk result (λ v. v ≡ self.now) };

    /// The test is exact.
    ghost exact: { IsExactEq is_one eq };
}

impl Exact for u32 {
    ghost eq = { ◌==◌ };

    ghost exact = { number_exact };

    fn known(&self) {}

    fn is_same(&self, other: &u32) -> bool {
        *self == *other
    }

    fn copied(&self, _alloc: Global) -> Result<u32, AllocError> {
        Ok(*self)
    }
}

/// Nothing yet, one value, or a clash of different values. The least value is `Unknown`, and
/// different values join to `Clash`.
#[derive(Debug, Drop)]
pub enum Flat<T> {
    /// No value yet.
    Unknown,
    /// One value.
    One(T),
    /// Different values were joined.
    Clash,
}

impl<T> Flat<T> {
    /// The same with a reference to the one value.
    pub fn as_ref(&self) -> Flat<&T>
        ensures { flat_map (λ r. r.now) result ≡ self.now }
    {
        match self {
            Flat::Unknown => Flat::Unknown,
            Flat::One(x) => Flat::One(x),
            Flat::Clash => Flat::Clash,
        }
    }
}

impl<T: Exact> Join for Flat<T> {
    ghost is_value = { flat_is T.is_one };

    ghost bottom = { flat_bottom };

    ghost join = { flat_join T.eq };

    ghost laws = { flat_laws T.exact };

    type Draft = Whole<Flat<T>>;

    ghost is_draft = { λ _. Unit {0} };

    ghost before = { λ d. d.before };

    ghost after = { λ d. d.after };

    fn known(&self) {
        if let Flat::One(x) = self {
            x.known();
        }
    }

    fn bottom(_alloc: Global) -> Self {
        Flat::Unknown
    }

    fn is_bottom(&self) -> bool {
        matches!(self, Flat::Unknown)
    }

    fn covers(&self, other: &Self) -> bool {
        match (self, other) {
            (_, Flat::Unknown) => true,
            (Flat::Clash, _) => true,
            (Flat::One(x), Flat::One(y)) => x.is_same(y),
            _ => false,
        }
    }

    fn copied(&self, alloc: Global) -> Result<Self, AllocError> {
        match self {
            Flat::Unknown => Ok(Flat::Unknown),
            Flat::One(x) => Ok(Flat::One(x.copied(alloc)?)),
            Flat::Clash => Ok(Flat::Clash),
        }
    }

    fn joined(&self, alloc: Global, other: &Self) -> Result<Self, AllocError> {
        match (self, other) {
            (Flat::Unknown, _) => other.copied(alloc),
            (Flat::One(x), Flat::Unknown) => Ok(Flat::One(x.copied(alloc)?)),
            (Flat::One(x), Flat::One(y)) => {
                if x.is_same(y) {
                    Ok(Flat::One(x.copied(alloc)?))
                } else {
                    Ok(Flat::Clash)
                }
            }
            _ => Ok(Flat::Clash),
        }
    }

    fn join_in(&mut self, alloc: Global, other: &Self) -> Result<(), AllocError> {
        let joined = self.joined(alloc, other)?;
        *self = joined;
        Ok(())
    }

    fn draft_join(&mut self, alloc: Global, other: &Self) -> Result<Whole<Self>, AllocError> {
        let after = self.joined(alloc, other)?;
        let before = replace(self, Flat::Unknown);
        Ok(Whole { before, after })
    }

    fn keep(draft: Whole<Self>) -> Self {
        draft.after
    }

    fn undo(draft: Whole<Self>) -> Self {
        draft.before
    }
}

impl<T: Exact> Beyond for Flat<T> {
    ghost covered = { flat_covered T.eq };

    ghost unit = { whole_unit };

    ghost beyond = { flat_beyond T.eq };

    ghost beyond_laws = { flat_beyond_laws T.exact };

    fn beyond(&self, alloc: Global, other: &Self) -> Result<Self, AllocError> {
        match (self, other) {
            (Flat::Unknown, _) | (_, Flat::Clash) => Ok(Flat::Unknown),
            (Flat::One(x), Flat::One(y)) if x.is_same(y) => Ok(Flat::Unknown),
            (Flat::One(x), _) => Ok(Flat::One(x.copied(alloc)?)),
            (Flat::Clash, _) => Ok(Flat::Clash),
        }
    }
}
