//! Partitions.

ghost use Rattle.std.specs.Prelude.{◌≡◌, ℕ, IfOk, OnOk, OnErr};
ghost use Rattle.std.specs.Arc.{arc_value};
ghost use Rattle.std.specs.Option.{option_map};
ghost use Rattle.squall_board.specs.Takes.{TakesBoard};
ghost use Rattle.squall_span.specs.Spans.{IsSet};
ghost use Rattle.squall_part.specs.Parts.{IsPart, new_part, ranges_of, known_to, given_by, loaded_by, closed_by};

use crate::log::{Log, put_all_ready};
use squall_board::{Board, Delta};
use squall_course::Course;
use squall_join::Shared;
use squall_key::PartId;
use squall_plan::Plan;
use squall_span::SpanSet;
use std::alloc::{AllocError, Global};
use std::marker::Model;
use std::sync::Arc;

/// A partition: the keys that it holds, what it has heard, and what it gave and loaded under each
/// course that it knows. It knows its first course, and the course of every number for which its
/// board has exactly one issue. It uses the one of the greatest number.
///
/// Contracts see a partition as its number, its first course, its board, the keys that it holds
/// and its logs, one for each course.
#[derive(Drop)]
pub struct Part {
    pub(crate) id: PartId,
    pub(crate) first: Shared<Course>,
    pub(crate) board: Board,
    pub(crate) held: SpanSet,
    // By rising number of their courses.
    pub(crate) logs: Vec<Log>,
}

impl Model for Part {
    ghost use Rattle.squall_part.specs.Parts.{PartValue, IsPart};

    ghost Value = { PartValue };

    ghost view = { λ p. record { id = p.id; first = p.first; board = p.board; held = p.held; logs = p.logs.items } };

    ghost invariant = { λ p. IsPart (record { id = p.id; first = p.first; board = p.board; held = p.held; logs = p.logs.items }) };
}

/// Changes nothing: after it a proof knows what holds of every set of keys.
pub(crate) fn know_set(set: &SpanSet)
    ensures { IsSet set.now }
{
    set.known();
}

/// The keys that the plan gives a partition.
fn ranges_of(alloc: Global, id: PartId, plan: &Plan) -> Result<SpanSet, AllocError>
    ensures { IfOk result (λ set. set ≡ ranges_of id plan.now) }
{
    let mut held = SpanSet::empty(alloc);
    for range in plan.ranges() {
        if range.part == id {
            held.insert(range.span)?;
        }
    }
    know_set(&held);
    Ok(held)
}

impl Part {
    /// A partition that has heard nothing: it knows the first course, and holds the keys that the
    /// course's old plan gives it. An error means that an allocation failed, or that the count of
    /// the course's owners is full.
    pub fn new(alloc: Global, id: PartId, first: &Arc<Course>) -> Result<Part, AllocError>
        ensures { IfOk result (λ p. p ≡ new_part id (arc_value first.now)) }
    {
        let first = Shared::new(Arc::try_clone(first)?);
        let course = first.again()?;
        let held = ranges_of(alloc, id, first.as_arc().old_plan())?;
        let mut logs = Vec::with_capacity(alloc, 1)?;
        logs.push(Log::new(alloc, id, course)?)?;
        Ok(Part {
            id,
            first,
            board: Board::new(alloc),
            held,
            logs,
        })
    }

    /// Changes nothing: after it a proof knows what holds of every partition.
    pub fn known(&self)
        ensures { IsPart self.now }
    {
        let _logs = &self.logs;
    }

    /// Takes every report of the delta, and knows the courses that it issues. An error means that
    /// an allocation failed, or that a count of owners is full. The partition is then unchanged.
    pub fn absorb(&mut self, delta: &Delta) -> Result<(), AllocError>
        ensures takes { OnOk result (TakesBoard self.old.board delta.now self.new.board) }
        ensures same { self.new ≡ record self.old { board = self.new.board; logs = self.new.logs } }
        ensures given { (n : ℕ) → given_by self.new n ≡ given_by self.old n }
        ensures loaded { (n : ℕ) → loaded_by self.new n ≡ loaded_by self.old n }
        ensures closed { (n : ℕ) → closed_by self.new n ≡ closed_by self.old n }
        ensures err { OnErr result (self.new ≡ self.old) }
    {
        self.known();
        delta.known();
        let fresh = self.fresh_logs(delta)?;
        self.logs.reserve(fresh.len())?;
        self.board.merge(delta)?;
        self.board.known();
        put_all_ready(&mut self.logs, fresh);
        Ok(())
    }

    /// The partition's number.
    pub fn id(&self) -> PartId
        ensures { result ≡ self.now.id }
    {
        self.id
    }

    /// The keys that it holds.
    pub fn held(&self) -> &SpanSet
        ensures { result.now ≡ self.now.held }
    {
        &self.held
    }

    /// The keys that it gave under the number. None if it does not know the number's course.
    pub fn given(&self, number: u32) -> Option<&SpanSet>
        ensures { option_map (λ set. set.now) result ≡ option_map (λ course. given_by self.now number) (known_to self.now number) }
    {
        self.known();
        let at = self.known_place(number)?;
        Some(&self.logs[at].given)
    }

    /// The keys that it loaded under the number. None if it does not know the number's course.
    pub fn loaded(&self, number: u32) -> Option<&SpanSet>
        ensures { option_map (λ set. set.now) result ≡ option_map (λ course. loaded_by self.now number) (known_to self.now number) }
    {
        self.known();
        let at = self.known_place(number)?;
        Some(&self.logs[at].loaded)
    }

    /// What it has heard, and what it reported itself.
    pub fn board(&self) -> &Board
        ensures { result.now ≡ self.now.board }
    {
        &self.board
    }
}
