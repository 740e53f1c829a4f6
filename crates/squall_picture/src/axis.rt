//! The positions of keys in a picture.

ghost use Rattle.std.specs.Prelude.{◌≡◌, ◌+◌, ◌*◌, ◌≤◌, ◌^◌, IfOk};
ghost use Rattle.squall_key.specs.Keys.{top};
ghost use Rattle.squall_picture.specs.Scale.{column, columns, unit_of, x_of, width_of, total_width, filled, step_of, is_written, ticks};

use crate::scale;
use squall_key::Bound;
use squall_plan::PlanRange;
use squall_span::Span;
use std::alloc::{AllocError, Global};
use std::marker::Model;

/// The bounds of both plans, and their positions. Contracts see it as these bounds.
#[derive(Drop)]
pub(crate) struct Axis {
    ticks: Vec<Bound>,
    unit: usize,
}

impl Model for Axis {
    ghost use Rattle.std.specs.Prelude.{◌≡◌, ℕ, List};
    ghost use Rattle.std.specs.List.Sorted.{IsNonDecreasing};
    ghost use Rattle.squall_picture.specs.Scale.{unit_of};

    ghost Value = { List ℕ };

    ghost view = { λ a. a.ticks.items };

    ghost invariant = { λ a. (a.unit ≡ unit_of a.ticks.items) × IsNonDecreasing a.ticks.items };
}

impl Axis {
    /// The axis of both plans.
    pub(crate) fn of(
        alloc: Global,
        old: &[PlanRange],
        new: &[PlanRange],
    ) -> Result<Axis, AllocError>
        ensures { IfOk result (λ a. a ≡ ticks old.now new.now) }
    {
        let ticks = scale::ticks(alloc, old, new)?;
        let columns = scale::column(&ticks, Bound::TOP);
        let unit = (960 / columns.max(1)).max(1);
        Ok(Axis { ticks, unit })
    }

    /// The bounds.
    pub(crate) fn ticks(&self) -> &[Bound]
        ensures { result.now ≡ self.now }
    {
        &self.ticks
    }

    /// How many columns are to the left of the bound.
    fn column(&self, bound: Bound) -> usize
        ensures value { result ≡ column self.now bound }
        ensures most { result ≤ columns self.now }
    {
        // The proof learns that no bound lies beyond the top.
        let _rank = bound.rank();
        scale::column(&self.ticks, bound)
    }

    /// How many columns there are.
    fn columns(&self) -> usize
        ensures { result ≡ columns self.now }
    {
        self.column(Bound::TOP)
    }

    /// How wide `count` columns are.
    fn wide(&self, count: usize) -> usize
        requires { count ≤ columns self.now }
        ensures value { result ≡ unit_of self.now * count }
        ensures most { result ≤ 2 ^ 63 + 960 }
    {
        self.unit * count
    }

    /// How far the bound is from the left.
    pub(crate) fn x(&self, bound: Bound) -> usize
        ensures { result ≡ x_of self.now bound }
    {
        96 + self.wide(self.column(bound))
    }

    /// How wide a span is.
    pub(crate) fn width(&self, span: Span) -> usize
        ensures { result ≡ width_of self.now span }
    {
        let lo = self.column(span.lo());
        let hi = self.column(span.hi());
        self.wide(hi.saturating_sub(lo))
    }

    /// How wide the picture is, with its margins.
    pub(crate) fn total(&self) -> usize
        ensures { result ≡ total_width self.now }
    {
        128 + self.wide(self.columns()).max(960)
    }

    /// Whether the bound is written.
    pub(crate) fn writes(&self, bound: Bound) -> bool
        ensures { result ≡ is_written self.now bound }
    {
        let column = self.column(bound);
        let columns = self.columns();
        let step = 1 + 59 / self.unit;
        column == columns || (column % step == 0 && step <= columns.saturating_sub(column))
    }
}

/// How much of a width is filled if `loaded` of `keys` keys are loaded, rounded down.
pub(crate) fn filled(width: usize, loaded: u64, keys: u64) -> u128
    ensures { result ≡ filled width loaded keys }
{
    width as u128 * u128::from(loaded) / u128::from(keys.max(1))
}
