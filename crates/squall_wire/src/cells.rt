//! How cells are written.

ghost use Rattle.std.specs.Prelude.{◌≡◌, ◌∷◌, [], ◌<◌, ◌++◌, length, OnOk, Err};
ghost use Rattle.std.specs.List.{AllByRecursion};
ghost use Rattle.squall_board.specs.Listed.{entry_with, cell_entry, cells_of};
ghost use Rattle.squall_wire.specs.declared.encoding.EncodeFault.TheVariants.{TooLong};
ghost use Rattle.squall_wire.specs.Fits.{IsWordCell};
ghost use Rattle.squall_wire.specs.Limits.{body_limit, word_limit};
ghost use Rattle.squall_wire.specs.Spelling.{word, spell_place, spell_done, spell_cell, spell_list};

use crate::encoding::EncodeFault;
use crate::write::{BODY_LIMIT, count_bytes, write_items};
use squall_board::{Board, CellParts};
use squall_report::CellId;
use squall_span::SpanSet;
use std::alloc::AllocError;

/// How many spans of 16 bytes a body could hold.
const SPAN_LIMIT: usize = 65_536;

/// The byte that says whether a cell is complete.
fn done_byte(complete: bool) -> u8
    ensures { spell_done complete ≡ result ∷ [] }
{
    if complete { 1 } else { 0 }
}

/// The bytes of the place.
fn place_bytes(place: CellId) -> [u8; 12]
    ensures bytes { result ≡ spell_place place }
    ensures known { place.number < word_limit }
{
    let mut bytes = [0; 12];
    bytes[..4].copy_from_slice(&place.number().to_be_bytes());
    bytes[4..8].copy_from_slice(&place.sub().to_be_bytes());
    bytes[8..].copy_from_slice(&place.part().get().to_be_bytes());
    bytes
}

/// The bytes before the spans of a cell.
fn head_bytes(place: CellId, complete: bool, spans: usize) -> [u8; 17]
    ensures bytes { result ≡ spell_place place ++ (spell_done complete ++ word spans) }
    ensures known { place.number < word_limit }
{
    let mut bytes = [0; 17];
    bytes[..12].copy_from_slice(&place_bytes(place));
    bytes[12] = done_byte(complete);
    bytes[13..].copy_from_slice(&count_bytes(spans));
    bytes
}

/// Adds the cell: its place, whether it is complete, and its spans.
pub(crate) fn write_cell(
    out: &mut Vec<u8>,
    place: CellId,
    complete: bool,
    spans: &SpanSet,
) -> Result<(), AllocError>
    ensures written { OnOk result (out.new.items ≡ out.old.items ++ spell_cell (entry_with place complete spans.now)) }
    ensures known { OnOk result (place.number < word_limit) }
{
    let list = spans.list(*out.allocator())?;
    let spans = list.spans();
    out.extend_from_slice(&head_bytes(place, complete, spans.len()))?;
    write_items(out, spans)
}

/// Adds a cell of a board in the form that it has in a delta: its place, whether it is complete,
/// and its spans. An error means that an allocation failed: a part of the cell may then have been
/// added.
pub fn write_lent_cell(out: &mut Vec<u8>, place: CellId, cell: &CellParts) -> Result<(), AllocError>
    ensures { OnOk result (out.new.items ≡ out.old.items ++ spell_cell (cell_entry place cell.now)) }
{
    let complete = cell.second.get();
    write_cell(out, place, complete, &cell.first)
}

/// Adds the cell. `TooLong` means that the bytes with it are too many for a body.
fn write_within(out: &mut Vec<u8>, place: CellId, cell: &CellParts) -> Result<(), EncodeFault>
    ensures written { OnOk result (out.new.items ≡ out.old.items ++ spell_cell (cell_entry place cell.now)) }
    ensures known { OnOk result (place.number < word_limit) }
    ensures long { result ≡ Err TooLong → body_limit < length (out.old.items ++ spell_cell (cell_entry place cell.now)) }
{
    if cell.first.len() > SPAN_LIMIT {
        return Err(EncodeFault::TooLong);
    }
    write_cell(out, place, cell.second.get(), &cell.first)?;
    if out.len() > BODY_LIMIT {
        return Err(EncodeFault::TooLong);
    }
    Ok(())
}

/// Adds the count of the cells of the board and the cells. `TooLong` means that the bytes are too
/// many for a body. Keys are copied into the bytes alone.
pub(crate) fn write_cells(out: &mut Vec<u8>, board: &Board) -> Result<(), EncodeFault>
    ensures written { OnOk result (out.new.items ≡ out.old.items ++ spell_list spell_cell (cells_of board.now)) }
    ensures known { OnOk result (AllByRecursion IsWordCell (cells_of board.now)) }
    ensures long { result ≡ Err TooLong → body_limit < length (out.old.items ++ spell_list spell_cell (cells_of board.now)) }
{
    let cells = board.lent_cells()?;
    out.extend_from_slice(&count_bytes(cells.len()))?;
    for cell in &cells {
        write_within(out, cell.0, cell.1)?;
    }
    Ok(())
}
