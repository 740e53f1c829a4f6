//! Reads the ranges that a text lists.

ghost use Rattle.std.specs.Prelude.{◌≡◌, ◌&&◌, codes, option_and_then, IfOk};
ghost use Rattle.std.specs.List.{filter_map};
ghost use Rattle.serde_json.specs.Data.{Data, Items as DataItems};
ghost use Rattle.serde_json.specs.Find.{get, as_array};
ghost use Rattle.squall_plan.specs.declared.fault.PlanFault.TheVariants.{Json, Shape};
ghost use Rattle.squall_plan.specs.Arranged.{GivesSeen};
ghost use Rattle.squall_plan.specs.Form.{whole_of, list_of, pair_in, pair_of, is_end, to_of, entry_of, entries_of, part_of, bound_in, bounds_of};
ghost use Rattle.squall_plan.specs.Form.{range_of, ranges_in, lacking, ranges_of_data, ranges_of_text};
ghost use Rattle.squall_plan.specs.Shown.{Shows, ShowsItems, FindsItems};

use crate::fault::PlanFault;
use crate::range::PlanRange;
use crate::tape::{next_item, read_items, read_member, read_string, read_tape, read_whole};
use json::{Element, Items, Scratch};
use squall_key::{Bound, PartId};
use squall_span::Span;
use std::alloc::{AllocError, Global};

/// The numbers of an entry of the text. The text `end` is read as the pair of the top.
#[derive(Clone, Copy)]
pub(crate) struct Entry {
    pub part: u64,
    pub from: (u64, u64),
    pub to: (u64, u64),
}

// ---- one entry

/// Two whole numbers, if the items are two of them.
fn read_two(items: &mut Items<'_, '_>) -> Option<(u64, u64)>
    ensures { (ds : DataItems) → ShowsItems items.old ds → result ≡ pair_in ds }
{
    let first = next_item(items)?;
    let second = next_item(items)?;
    if next_item(items).is_some() {
        return None;
    }
    Some((read_whole(&first)?, read_whole(&second)?))
}

fn read_pair(value: &Element<'_, '_>) -> Option<(u64, u64)>
    ensures { (d : Data) → Shows value.now d → result ≡ pair_of d }
{
    let mut items = read_items(value)?;
    read_two(&mut items)
}

/// Whether it is the text `end`.
fn is_end(value: &Element<'_, '_>) -> bool
    ensures { (d : Data) → Shows value.now d → result ≡ is_end d }
{
    match read_string(value) {
        Some(text) => text == "end",
        None => false,
    }
}

/// A pair, or `end` for the top.
fn read_to(value: &Element<'_, '_>) -> Option<(u64, u64)>
    ensures { (d : Data) → Shows value.now d → result ≡ to_of d }
{
    if is_end(value) {
        return Some((4294967295, 0));
    }
    read_pair(value)
}

/// The whole number of the member `part`.
fn read_part(value: &Element<'_, '_>) -> Option<u64>
    ensures { (d : Data) → Shows value.now d
        → result ≡ option_and_then whole_of (get (codes "part") d) }
{
    read_whole(&read_member(value, "part")?)
}

/// The pair of the member `from`.
fn read_from(value: &Element<'_, '_>) -> Option<(u64, u64)>
    ensures { (d : Data) → Shows value.now d
        → result ≡ option_and_then pair_of (get (codes "from") d) }
{
    read_pair(&read_member(value, "from")?)
}

/// The pair of the member `to`, or the top.
fn read_end(value: &Element<'_, '_>) -> Option<(u64, u64)>
    ensures { (d : Data) → Shows value.now d
        → result ≡ option_and_then to_of (get (codes "to") d) }
{
    read_to(&read_member(value, "to")?)
}

fn read_entry(value: &Element<'_, '_>) -> Option<Entry>
    ensures { (d : Data) → Shows value.now d → result ≡ entry_of d }
{
    let part = read_part(value)?;
    let from = read_from(value)?;
    let to = read_end(value)?;
    Some(Entry { part, from, to })
}

fn part_in(entry: &Entry) -> Option<PartId>
    ensures { result ≡ part_of entry.now }
{
    PartId::new(u32::try_from(entry.part).ok()?)
}

fn read_bound(pair: (u64, u64)) -> Option<Bound>
    ensures { result ≡ bound_in pair }
{
    let root = u32::try_from(pair.0).ok()?;
    let second = u32::try_from(pair.1).ok()?;
    Bound::new(root, second)
}

fn bounds_in(entry: &Entry) -> Option<(Bound, Bound)>
    ensures { result ≡ bounds_of entry.now }
{
    Some((read_bound(entry.from)?, read_bound(entry.to)?))
}

fn range_in(entry: &Entry) -> Option<PlanRange>
    ensures { result ≡ range_of entry.now }
{
    let part = part_in(entry)?;
    let (lo, hi) = bounds_in(entry)?;
    let span = Span::new(lo, hi)?;
    Some(PlanRange { span, part })
}

// ---- all entries

fn first_bad_part(entries: &[Entry]) -> Option<usize>
    ensures { result ≡ lacking part_of entries.now }
{
    entries.iter().position(|entry| part_in(entry).is_none())
}

fn first_bad_bound(entries: &[Entry]) -> Option<usize>
    ensures { result ≡ lacking bounds_of entries.now }
{
    entries.iter().position(|entry| bounds_in(entry).is_none())
}

fn first_empty(entries: &[Entry]) -> Option<usize>
    ensures { result ≡ lacking range_of entries.now }
{
    entries.iter().position(|entry| range_in(entry).is_none())
}

/// The entries that are ranges.
fn ranged(alloc: Global, entries: &[Entry]) -> Result<Vec<PlanRange>, AllocError>
    ensures { IfOk result (λ rs. rs.items ≡ filter_map range_of entries.now) }
{
    entries.iter().filter_map(range_in).collect(alloc)
}

/// The entries, or the fault of the first value that is none.
fn read_entries(alloc: Global, items: &mut Items<'_, '_>) -> Result<Vec<Entry>, PlanFault>
    ensures { (ds : DataItems) → ShowsItems items.old ds
        → GivesSeen (λ v. v.items) result (entries_of (list_of ds)) }
{
    let mut found = Vec::new(alloc);
    while let Some(item) = next_item(items) {
        match read_entry(&item) {
            Some(entry) => found.push(entry)?,
            None => return Err(PlanFault::Shape(Some(found.len()))),
        }
    }
    Ok(found)
}

fn read_ranges(alloc: Global, entries: &[Entry]) -> Result<Vec<PlanRange>, PlanFault>
    ensures { GivesSeen (λ v. v.items) result (ranges_in entries.now) }
{
    if let Some(index) = first_bad_part(entries) {
        return Err(PlanFault::BadPart(index));
    }
    if let Some(index) = first_bad_bound(entries) {
        return Err(PlanFault::BadBound(index));
    }
    if let Some(index) = first_empty(entries) {
        return Err(PlanFault::EmptyRange(index));
    }
    Ok(ranged(alloc, entries)?)
}

// ---- the whole

/// The items of the member `plan`, if that is an array.
fn read_listed<'t, 'a>(root: &Element<'t, 'a>) -> Option<Items<'t, 'a>>
    ensures { (d : Data) → Shows root.now d
        → FindsItems result (option_and_then as_array (get (codes "plan") d)) }
{
    read_items(&read_member(root, "plan")?)
}

/// The ranges that a value lists, or the fault of its form that comes first in [`PlanFault`].
fn read_data(alloc: Global, root: &Element<'_, '_>) -> Result<Vec<PlanRange>, PlanFault>
    ensures { (d : Data) → Shows root.now d
        → GivesSeen (λ v. v.items) result (ranges_of_data d) }
{
    let mut items = match read_listed(root) {
        Some(items) => items,
        None => return Err(PlanFault::Shape(None)),
    };
    let entries = read_entries(alloc, &mut items)?;
    read_ranges(alloc, &entries)
}

/// The ranges that a text lists, in its order, or what is wrong with its form.
fn read_str(alloc: Global, text: &str) -> Result<Vec<PlanRange>, PlanFault>
    ensures { GivesSeen (λ v. v.items) result (ranges_of_text text.now) }
{
    let mut scratch = Scratch::new(alloc);
    let tape = read_tape(alloc, text, &mut scratch)?;
    read_data(alloc, &tape.root())
}

/// The ranges that bytes list, in their order, or what is wrong with their form.
pub(crate) fn read_text(alloc: Global, text: &[u8]) -> Result<Vec<PlanRange>, PlanFault>
    ensures { GivesSeen (λ v. v.items) result (ranges_of_text text.now) }
{
    match std::str::from_utf8(text) {
        Ok(text) => read_str(alloc, text),
        Err(_) => Err(PlanFault::Json),
    }
}
