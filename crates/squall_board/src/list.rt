//! What a board holds, as lists.

ghost use Rattle.std.specs.Prelude.{◌≡◌, ◌≢◌, ◌++◌, ℕ, map, IfOk, OnOk, IsTrue, false};
ghost use Rattle.std.specs.Arc.{arc_value};
ghost use Rattle.squall_join.specs.Flats.{flat_map};
ghost use Rattle.squall_join.specs.declared.flat.Flat.TheVariants.{Unknown};
ghost use Rattle.squall_board.specs.Boards.{issued};
ghost use Rattle.squall_board.specs.Listed.{AreCellsOfParts, AreCellsOfSubs, AreCellsOfNumbers, AreCells, AreOpenings, AreIssues, cells_of_parts};
ghost use Rattle.squall_board.specs.Listed.{cells_of_subs, cells_of_numbers, cells_of, openings_of_counts, openings_of, issues_of};

use crate::board::{Board, CellParts};
use crate::cell::Cell;
use crate::opening::Opening;
use squall_join::{Flat, Join, JoinMap, Max, Shared};
use squall_report::{CellId, Issue};
use std::alloc::{AllocError, Global};
use std::sync::Arc;

/// Adds the cells of the partitions.
fn push_parts(
    alloc: Global,
    out: &mut Vec<Cell>,
    number: u32,
    sub: u32,
    parts: &[(u32, CellParts)],
) -> Result<(), AllocError>
    requires { AreCellsOfParts number sub parts.now }
    ensures { OnOk result (out.new.items ≡ out.old.items ++ cells_of_parts number sub parts.now) }
{
    for entry in parts {
        let spans = entry.1.first.copied(alloc)?;
        let complete = entry.1.second.get();
        let place = CellId::of(number, sub, entry.0);
        out.push(Cell::of_entry(place, complete, spans))?;
    }
    Ok(())
}

/// Adds the cells of the sub-plans.
fn push_subs(
    alloc: Global,
    out: &mut Vec<Cell>,
    number: u32,
    subs: &[(u32, JoinMap<u32, CellParts>)],
) -> Result<(), AllocError>
    requires { AreCellsOfSubs number subs.now }
    ensures { OnOk result (out.new.items ≡ out.old.items ++ cells_of_subs number subs.now) }
{
    for entry in subs {
        push_parts(alloc, out, number, entry.0, entry.1.entries())?;
    }
    Ok(())
}

/// Adds the cells of the numbers.
fn push_numbers(
    alloc: Global,
    out: &mut Vec<Cell>,
    numbers: &[(u32, JoinMap<u32, JoinMap<u32, CellParts>>)],
) -> Result<(), AllocError>
    requires { AreCellsOfNumbers numbers.now }
    ensures { OnOk result (out.new.items ≡ out.old.items ++ cells_of_numbers numbers.now) }
{
    for entry in numbers {
        push_subs(alloc, out, entry.0, entry.1.entries())?;
    }
    Ok(())
}

/// The openings of the counts.
fn openings_of(alloc: Global, counts: &[(u32, Max)]) -> Result<Vec<Opening>, AllocError>
    ensures { IfOk result (λ os. os.items ≡ openings_of_counts counts.now) }
{
    let mut openings = Vec::with_capacity(alloc, counts.len())?;
    for entry in counts {
        openings.push(Opening {
            number: entry.0,
            count: entry.1.get(),
        })?;
    }
    Ok(openings)
}

/// One more owner of the issue, if there is one.
fn owned(issue: &Flat<Shared<Issue>>) -> Result<Flat<Arc<Issue>>, AllocError>
    ensures { IfOk result (λ owned. flat_map arc_value owned ≡ issue.now) }
{
    match issue {
        Flat::Unknown => Ok(Flat::Unknown),
        Flat::One(issue) => Ok(Flat::One(Arc::try_clone(issue.as_arc())?)),
        Flat::Clash => Ok(Flat::Clash),
    }
}

/// The entries, with one more owner of each issue.
fn owned_all(
    alloc: Global,
    issues: &[(u32, Flat<Shared<Issue>>)],
) -> Result<Vec<(u32, Flat<Arc<Issue>>)>, AllocError>
    ensures { IfOk result (λ es. map (λ e. (e.0, flat_map arc_value e.1)) es.items ≡ issues.now) }
{
    let mut out = Vec::with_capacity(alloc, issues.len())?;
    for entry in issues {
        out.push((entry.0, owned(&entry.1)?))?;
    }
    Ok(out)
}

impl Board {
    /// How many sub-plans are opened, by rising number. An error means that an allocation failed.
    pub fn openings(&self) -> Result<Vec<Opening>, AllocError>
        ensures openings { IfOk result (λ os. os.items ≡ openings_of self.now) }
        ensures listed { IfOk result (λ os. AreOpenings self.now os.items) }
    {
        self.known();
        openings_of(self.allocator(), self.opening_map().entries())
    }

    /// What is issued, by rising number, and a clash if different pairs of plans were. Issues are
    /// shared, and not copied. An error means that an allocation failed, or that the count of an
    /// issue's owners is full.
    pub fn issues(&self) -> Result<Vec<(u32, Flat<Arc<Issue>>)>, AllocError>
        ensures issues { IfOk result (λ es. map (λ e. (e.0, flat_map arc_value e.1)) es.items ≡ issues_of self.now) }
        ensures listed { IfOk result (λ es. AreIssues self.now (map (λ e. (e.0, flat_map arc_value e.1)) es.items)) }
    {
        self.known();
        owned_all(self.allocator(), self.issue_map().entries())
    }

    /// Whether anything is issued, a clash included. It allocates nothing.
    pub fn has_issues(&self) -> bool
        ensures some { IsTrue result → (n : ℕ) × (issued self.now n ≢ Unknown) }
        ensures none { (result ≡ false) → (n : ℕ) → issued self.now n ≡ Unknown }
    {
        self.known();
        !self.issue_map().is_bottom()
    }

    /// What was reported of each partition in each sub-plan, by rising number, sub-plan and
    /// partition. An error means that an allocation failed.
    pub fn cells(&self) -> Result<Vec<Cell>, AllocError>
        ensures cells { IfOk result (λ cs. cs.items ≡ cells_of self.now) }
        ensures listed { IfOk result (λ cs. AreCells self.now cs.items) }
    {
        self.known();
        let alloc = self.allocator();
        let mut cells = Vec::new(alloc);
        push_numbers(alloc, &mut cells, self.parts.second.entries())?;
        Ok(cells)
    }
}
