//! Courses.

ghost use Rattle.std.specs.Prelude.{◌≡◌, ◌≢◌, ◌≤◌, ◌==◌, ◌&&◌, ℕ, Bool, IfOk, IfErr, Err};
ghost use Rattle.std.specs.List.{list_any};
ghost use Rattle.std.specs.List.Sorted.{IsNonDecreasingBy};
ghost use Rattle.squall_course.specs.declared.fault.CourseFault.TheVariants.{ZeroNumber, NoMemory};
ghost use Rattle.squall_span.specs.Spans.{has};
ghost use Rattle.squall_key.specs.Keys.{part_limit};
ghost use Rattle.squall_plan.specs.Ranges.{owner_of};
ghost use Rattle.squall_course.specs.Change.{ArePlans};
ghost use Rattle.squall_course.specs.declared.moving.Move.{Move};
ghost use Rattle.squall_course.specs.Subplans.{subplan_of, subplan_count, dest_of};
ghost use Rattle.squall_course.specs.Statuses.{IsStatus};
ghost use Rattle.squall_course.specs.Moves.{moves_of, AreMoves, is_incoming, is_outgoing, receivers_of};

use crate::fault::CourseFault;
use crate::filing::{by_dest, by_source};
use crate::gather;
use crate::link::Table;
use crate::moving::Move;
use crate::owners::Owners;
use crate::status::Status;
use crate::transfer::transfers;
use squall_key::{Key, PartId};
use squall_plan::Plan;
use squall_span::{Span, SpanSet};
use std::alloc::{AllocError, Global};
use std::marker::Model;

/// A change from an old plan to a new one, under the number of its reconfiguration.
///
/// Contracts see a course as its number, from 1 on, and both plans. A key moves if its owners
/// differ. The destinations of a source, in rising number, get the sub-plans 0, 1, 2 and so on. So
/// a source sends keys to at most one destination in each.
#[derive(Drop)]
pub struct Course {
    number: u32,
    old: Plan,
    new: Plan,
    table: Table,
    moves: Vec<Move>,
    // The same moves in two other orders: by sub-plan, source and key, and by sub-plan, destination
    // and key. So those of a partition in a sub-plan are side by side.
    leaving: Vec<Move>,
    arriving: Vec<Move>,
    subplans: u32,
}

impl Model for Course {
    ghost use Rattle.squall_course.specs.Change.{Change};
    ghost use Rattle.squall_course.specs.Steps.{IsKept};

    ghost Value = { Change };

    ghost view = { λ c. record { number = c.number; old = c.old; new = c.new } };

    ghost invariant = { λ c. IsKept c.number c.old c.new c.table c.moves.items c.leaving.items c.arriving.items c.subplans };
}

impl Course {
    /// The course of the number from the old plan to the new one. The error is `ZeroNumber` if the
    /// number is 0, which is refused before anything is allocated. It is `NoMemory` if an
    /// allocation fails.
    pub fn new(alloc: Global, number: u32, old: &Plan, new: &Plan) -> Result<Course, CourseFault>
        ensures course { IfOk result (λ c. c ≡ record { number = number; old = old.now; new = new.now }) }
        ensures numbered { IfOk result (λ c. 1 ≤ c.number) }
        ensures fault { IfErr result (λ e. e ≢ NoMemory → (e ≡ ZeroNumber) × (number ≡ 0)) }
        ensures memory { result ≡ Err NoMemory → 1 ≤ number }
    {
        if number == 0 {
            return Err(CourseFault::ZeroNumber);
        }
        let old = old.copied(alloc)?;
        let new = new.copied(alloc)?;
        let transfers = transfers(alloc, old.ranges(), new.ranges())?;
        let table = Table::of(alloc, &transfers)?;
        let moves = table.number(alloc, &transfers)?;
        let leaving = by_source(alloc, &moves)?;
        let arriving = by_dest(alloc, &moves)?;
        let subplans = table.most(old.ranges()) as u32;
        Ok(Course {
            number,
            old,
            new,
            table,
            moves,
            leaving,
            arriving,
            subplans,
        })
    }

    /// The course of number 1 from the old plan to the new one. An error means that an allocation
    /// failed.
    pub fn first(alloc: Global, old: &Plan, new: &Plan) -> Result<Course, AllocError>
        ensures course { IfOk result (λ c. c ≡ record { number = 1; old = old.now; new = new.now }) }
        ensures numbered { IfOk result (λ c. 1 ≤ c.number) }
    {
        // The number is not 0, so the only possible error is a failed allocation.
        match Course::new(alloc, 1, old, new) {
            Ok(course) => Ok(course),
            Err(_) => Err(AllocError),
        }
    }

    /// The number of the reconfiguration, from 1 on.
    pub fn number(&self) -> u32
        ensures value { result ≡ self.now.number }
        ensures some { 1 ≤ result }
    {
        self.number
    }

    /// The old plan.
    pub fn old_plan(&self) -> &Plan
        ensures value { result.now ≡ self.now.old }
        ensures plans { ArePlans self.now.old self.now.new }
    {
        &self.old
    }

    /// The new plan.
    pub fn new_plan(&self) -> &Plan
        ensures value { result.now ≡ self.now.new }
        ensures plans { ArePlans self.now.old self.now.new }
    {
        &self.new
    }

    /// The partition of the key in the old plan.
    pub fn old_owner(&self, key: Key) -> PartId
        ensures { result ≡ owner_of self.now.old key }
    {
        self.old.owner(key)
    }

    /// The partition of the key in the new plan.
    pub fn new_owner(&self, key: Key) -> PartId
        ensures { result ≡ owner_of self.now.new key }
    {
        self.new.owner(key)
    }

    /// The owners of the key and the sub-plan in which it moves, from one search in each plan.
    pub fn owners(&self, key: Key) -> Owners
        ensures old { result.old ≡ owner_of self.now.old key }
        ensures new { result.new ≡ owner_of self.now.new key }
        ensures sub { result.sub ≡ subplan_of self.now.old self.now.new key }
    {
        // The proof learns that the rank lies below the top, so both plans have the key.
        let _ = key.rank();
        let old = self.old_owner(key);
        let new = self.new_owner(key);
        if old == new {
            let sub = None;
            return Owners { old, new, sub };
        }
        let sub = Some(self.table.sub(old, new));
        Owners { old, new, sub }
    }

    /// The sub-plan in which the key moves: the place of its new partition among the destinations
    /// of its old one, from 0. None if the key does not move.
    pub fn subplan_of(&self, key: Key) -> Option<u32>
        ensures { result ≡ subplan_of self.now.old self.now.new key }
    {
        self.owners(key).sub
    }

    /// The moves by rising key: the longest spans whose keys have one source, another dest and one
    /// sub-plan. A key that moves is in exactly one of them, and no other key is in one.
    pub fn moves(&self) -> &[Move]
        ensures list { result.now ≡ moves_of self.now.old self.now.new }
        ensures meaning { AreMoves self.now.old self.now.new result.now }
        ensures plans { ArePlans self.now.old self.now.new }
    {
        &self.moves
    }

    /// The moves of the sub-plan, by rising destination. A test finds a move among these exactly if
    /// it finds one among the course's moves of that sub-plan.
    pub fn arrivals(&self, sub: u32) -> &[Move]
        ensures same { (p : Move → Bool) → list_any p result.now ≡ list_any (λ m. (m.sub == sub) && p m) (moves_of self.now.old self.now.new) }
        ensures rise { IsNonDecreasingBy (λ m. m.dest) result.now }
    {
        gather::arrivals(&self.arriving, sub)
    }

    /// How many sub-plans there are: the greatest number of destinations of a source. It is at most
    /// 10000, the limit of partitions.
    pub fn subplans(&self) -> u32
        ensures value { result ≡ subplan_count self.now.old self.now.new }
        ensures most { result ≤ part_limit }
        ensures plans { ArePlans self.now.old self.now.new }
    {
        self.subplans
    }

    /// The partition to which keys of `part` go in the sub-plan: the destination at the place
    /// `sub`, from 0, among those of `part`. None if `part` has at most `sub` destinations.
    pub fn dest(&self, sub: u32, part: PartId) -> Option<PartId>
        ensures { result ≡ dest_of self.now.old self.now.new sub part }
    {
        let link = self.table.row(part).get(sub as usize)?;
        Some(link.dest)
    }

    /// The keys that move to `part` in the sub-plan. An error means that an allocation failed.
    pub fn incoming(&self, alloc: Global, sub: u32, part: PartId) -> Result<SpanSet, AllocError>
        ensures { IfOk result (λ set. (k : ℕ) → has set k ≡ is_incoming self.now.old self.now.new sub part k) }
    {
        gather::incoming(alloc, &self.arriving, sub, part)
    }

    /// The keys that move away from `part` in the sub-plan. An error means that an allocation
    /// failed.
    pub fn outgoing(&self, alloc: Global, sub: u32, part: PartId) -> Result<SpanSet, AllocError>
        ensures { IfOk result (λ set. (k : ℕ) → has set k ≡ is_outgoing self.now.old self.now.new sub part k) }
    {
        gather::outgoing(alloc, &self.leaving, sub, part)
    }

    /// The partitions to which keys move in the sub-plan, in rising number. An error means that an
    /// allocation failed.
    pub fn receivers(&self, alloc: Global, sub: u32) -> Result<Vec<PartId>, AllocError>
        ensures { IfOk result (λ v. v.items ≡ receivers_of (moves_of self.now.old self.now.new) sub) }
    {
        gather::receivers(alloc, &self.arriving, sub)
    }

    /// Whether none, some or all keys of the span are in the set: for a span that is to be loaded,
    /// and the keys that are.
    pub fn status(&self, span: &Span, set: &SpanSet) -> Status
        ensures { IsStatus span.now set.now result }
    {
        Status::of(span, set)
    }
}
