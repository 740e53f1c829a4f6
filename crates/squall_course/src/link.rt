//! Which partition sends keys to which.

ghost use Rattle.std.specs.Prelude.{◌≡◌, ℕ, ◌≤◌, map, length, IfOk};
ghost use Rattle.std.specs.List.{list_any};
ghost use Rattle.squall_key.specs.Keys.{part_limit};
ghost use Rattle.squall_course.specs.Links.{Sorted, link_of, is_link, goes, links_of, lower_links, most_links, numbered_by};

use crate::moving::Move;
use crate::transfer::Transfer;
use squall_key::PartId;
use squall_plan::PlanRange;
use std::alloc::{AllocError, Global};
use std::marker::Model;

/// Keys of `source` go to `dest`. Links are ordered by source, then by dest.
#[derive(Clone, Copy, PartialEq, Eq, PartialOrd, Ord)]
pub(crate) struct Link {
    pub(crate) source: PartId,
    pub(crate) dest: PartId,
}

/// The links between two plans, each once and in order. Contracts see it as their list.
#[derive(Drop)]
pub(crate) struct Table {
    links: Vec<Link>,
}

impl Model for Table {
    ghost use Rattle.std.specs.Prelude.{List};
    ghost use Rattle.squall_course.specs.declared.link.Link.{Link};
    ghost use Rattle.squall_course.specs.Links.{Sorted};

    ghost Value = { List Link };

    ghost view = { λ t. t.links.items };

    ghost invariant = { λ t. Sorted t.links.items };
}

/// The link of each transfer.
fn links(alloc: Global, transfers: &[Transfer]) -> Result<Vec<Link>, AllocError>
    ensures { IfOk result (λ v. v.items ≡ map link_of transfers.now) }
{
    transfers
        .iter()
        .map(|transfer| Link {
            source: transfer.source,
            dest: transfer.dest,
        })
        .collect(alloc)
}

impl Table {
    /// The links of the transfers.
    pub(crate) fn of(alloc: Global, transfers: &[Transfer]) -> Result<Table, AllocError>
        ensures same { IfOk result (λ t. (source dest : ℕ) → list_any (is_link source dest) t ≡ list_any (goes source dest) transfers.now) }
        ensures sorted { IfOk result (λ t. Sorted t) }
    {
        let mut links = links(alloc, transfers)?;
        links.sort_unstable();
        links.dedup();
        Ok(Table { links })
    }

    /// The links of a source.
    pub(crate) fn row(&self, source: PartId) -> &[Link]
        ensures value { result.now ≡ links_of source self.now }
        ensures sorted { Sorted self.now }
    {
        let first = self.links.partition_point(|link| link.source < source);
        let from = &self.links[first..];
        let len = from.partition_point(|link| link.source <= source);
        &from[..len]
    }

    /// How many links of the source go to a lower destination.
    pub(crate) fn sub(&self, source: PartId, dest: PartId) -> u32
        ensures { result ≡ lower_links source dest self.now }
    {
        let _number = dest.get();
        self.row(source).partition_point(|link| link.dest < dest) as u32
    }

    /// The transfers with their sub-plans.
    pub(crate) fn number(
        &self,
        alloc: Global,
        transfers: &[Transfer],
    ) -> Result<Vec<Move>, AllocError>
        ensures { IfOk result (λ v. v.items ≡ map (numbered_by self.now) transfers.now) }
    {
        transfers
            .iter()
            .map(|transfer| Move {
                span: transfer.span,
                source: transfer.source,
                dest: transfer.dest,
                sub: self.sub(transfer.source, transfer.dest),
            })
            .collect(alloc)
    }

    /// The greatest number of links of a partition of the ranges.
    pub(crate) fn most(&self, ranges: &[PlanRange]) -> usize
        ensures { result ≡ most_links self.now ranges.now }
    {
        let mut most = 0;
        for range in ranges {
            most = most.max(self.row(range.part).len());
        }
        most
    }
}
