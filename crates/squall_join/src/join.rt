//! The trait of values with a join.

ghost use Rattle.std.specs.Prelude.{◌≡◌, IsTrue, IfOk, OnOk, OnErr, ◌↔◌};
ghost use Rattle.squall_join.specs.Laws.{JoinLaws, Covers};

use std::alloc::{AllocError, Global};

/// The values before a join and after it, if the joined value was made anew.
#[derive(Drop)]
pub struct Whole<V> {
    /// The value before the join.
    pub(crate) before: V,
    /// The value after it.
    pub(crate) after: V,
}

/// A type whose values have a join: a join semilattice with a least value.
pub trait Join: Drop {
    /// What holds of each value of the type.
    ghost is_value: { Self → Type 0 } = { λ _. Unit {0} };

    /// The least value.
    ghost bottom: { Self };

    /// The join of two values.
    ghost join: { Self → Self → Self };

    /// Shows what holds of each value of the type. It does nothing.
    fn known(&self)
        ensures { is_value self.now };

    /// The least value.
    fn bottom(alloc: Global) -> Self
        ensures { result ≡ bottom };

    /// Whether this is the least value.
    fn is_bottom(&self) -> bool
        ensures { IsTrue result ↔ (self.now ≡ bottom) };

    /// Whether this value has all that the other has: whether their join is this value.
    fn covers(&self, other: &Self) -> bool
        ensures { IsTrue result ↔ Covers join self.now other.now };

    /// The join of both. An error means that an allocation failed.
    fn joined(&self, alloc: Global, other: &Self) -> Result<Self, AllocError>
        ensures { IfOk result (λ v. v ≡ join self.now other.now) };

    /// A copy. An error means that an allocation failed.
    fn copied(&self, alloc: Global) -> Result<Self, AllocError>
        ensures { IfOk result (λ v. v ≡ self.now) };

    /// Joins the other value into this one. An error means that an allocation failed: this value is
    /// then unchanged.
    fn join_in(&mut self, alloc: Global, other: &Self) -> Result<(), AllocError>
        ensures ok { OnOk result (self.new ≡ join self.old other.now) }
        ensures err { OnErr result (self.new ≡ self.old) };

    /// A value with the join of another one drafted. It is kept or undone, neither of which can
    /// fail. So several values can be joined in place, either all or none.
    type Draft: Drop;

    /// What holds of each draft.
    ghost is_draft: { Self.Draft → Type 0 };

    /// The value before the drafted join.
    ghost before: { Self.Draft → Self };

    /// The value with it.
    ghost after: { Self.Draft → Self };

    /// Takes the value out, with the join of the other one drafted: the least value takes its
    /// place. An error means that an allocation failed: the value is then unchanged.
    fn draft_join(&mut self, alloc: Global, other: &Self) -> Result<Self::Draft, AllocError>
        ensures draft { IfOk result (λ d. is_draft d) }
        ensures before { IfOk result (λ d. before d ≡ self.old) }
        ensures after { IfOk result (λ d. after d ≡ join self.old other.now) }
        ensures ok { OnOk result (self.new ≡ bottom) }
        ensures err { OnErr result (self.new ≡ self.old) };

    /// The value with the drafted join.
    fn keep(draft: Self::Draft) -> Self
        requires { is_draft draft }
        ensures { result ≡ after draft };

    /// The value before the drafted join.
    fn undo(draft: Self::Draft) -> Self
        requires { is_draft draft }
        ensures { result ≡ before draft };

    /// The laws of the join.
    ghost laws: { JoinLaws is_value bottom join };

    /// Whether both are the same value.
    final fn same(&self, other: &Self) -> bool
        ensures { IsTrue result ↔ (self.now ≡ other.now) }
    {
        self.known();
        other.known();
        self.covers(other) && other.covers(self)
    }
}
