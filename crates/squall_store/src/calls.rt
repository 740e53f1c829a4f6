//! The calls of stores in a system: what their contracts promise is what the theorem of systems asks
//! for. Each function here makes one call.

ghost use Rattle.std.specs.Prelude.{◌≡◌, ℕ, [], Some, IfOk, OnOk, OnErr};
ghost use Rattle.std.specs.List.{slice_get};
ghost use Rattle.squall_course.specs.Change.{Change};
ghost use Rattle.squall_store.specs.Systems.{StoresValue, after_command, after_gift, with_store, with_partition, done_by, IsStoreIn, IsCalledIn, HasCopies};

use crate::rows::Rows;
use crate::store::{Asked, Store};
use squall_board::Delta;
use squall_key::Key;
use squall_part::{FinishFault, GiveFault, Load, LoadFault};
use squall_protocol::Chunk;
use squall_report::Report;
use std::alloc::AllocError;

/// Does a command, as [`Store::ask`] does. If memory was missing nothing happened.
pub fn ask_in<D: Rows>(
    store: &mut Store<D>,
    key: Key,
    after: u32,
    command: &D::Command,
) -> Result<Asked<D::Reply>, AllocError>
    ensures asked { IfOk result (λ asked. (first : Change) (s : StoresValue D.Row) (p : ℕ) → IsStoreIn s p store.old.part (D.row_of store.old.rows)
        → IsCalledIn D.run first s (done_by key command.now asked) (after_command s p (D.row_of store.new.rows)) p store.new.part (D.row_of store.new.rows)) }
    ensures err { OnErr result ((s : StoresValue D.Row) (p : ℕ) → IsStoreIn s p store.old.part (D.row_of store.old.rows)
        → IsStoreIn s p store.new.part (D.row_of store.new.rows)) }
{
    // The proof learns that the key lies below the top.
    let _rank = key.rank();
    store.ask(key, after, command)
}

/// Gives, as [`Store::give`] does: the chunk takes copies of the store's rows along.
pub fn give_in<D: Rows>(store: &mut Store<D>, max: u64) -> Result<Chunk, GiveFault>
    ensures { (first : Change) (s : StoresValue D.Row) (p : ℕ) → IsStoreIn s p store.old.part (D.row_of store.old.rows)
        → IsCalledIn D.run first s [] (after_gift s p store.new.part result) p store.new.part (D.row_of store.new.rows) }
{
    let given = store.give(max);
    store.part().known();
    given
}

/// Gives a key, as [`Store::give_at`] does.
pub fn give_at_in<D: Rows>(store: &mut Store<D>, key: Key) -> Result<Chunk, GiveFault>
    ensures { (first : Change) (s : StoresValue D.Row) (p : ℕ) → IsStoreIn s p store.old.part (D.row_of store.old.rows)
        → IsCalledIn D.run first s [] (after_gift s p store.new.part result) p store.new.part (D.row_of store.new.rows) }
{
    let given = store.give_at(key);
    store.part().known();
    given
}

/// Copies the rows of a chunk, as [`Store::copy`] does: those that travel with it, if the store still
/// has these, as it does when it has just given the chunk.
pub fn copy_in<D: Rows>(store: &Store<D>, chunk: &Chunk) -> Result<D::Batch, AllocError>
    ensures { IfOk result (λ batch. (s : StoresValue D.Row) (i : ℕ) → HasCopies s i chunk.now (D.row_of store.now.rows)
        → HasCopies s i chunk.now (D.copied batch)) }
{
    store.copy(chunk)
}

/// Loads a chunk with its rows, as [`Store::load`] does.
pub fn load_in<D: Rows>(
    store: &mut Store<D>,
    chunk: &Chunk,
    batch: &D::Batch,
) -> Result<Load, LoadFault>
    ensures { (first : Change) (s : StoresValue D.Row) (i : ℕ) → IsStoreIn s chunk.now.dest store.old.part (D.row_of store.old.rows)
        → slice_get s.nodes.chunks i ≡ Some chunk.now → HasCopies s i chunk.now (D.copied batch.now)
        → IsCalledIn D.run first s [] (with_store s chunk.now.dest store.new.part (D.row_of store.new.rows)) chunk.now.dest store.new.part
        (D.row_of store.new.rows) }
{
    let loaded = store.load(chunk, batch);
    store.part().known();
    loaded
}

/// Gives no more, as [`Store::close`] does.
pub fn close_in<D: Rows>(store: &mut Store<D>) -> u32
    ensures { (first : Change) (s : StoresValue D.Row) (p : ℕ) → IsStoreIn s p store.old.part (D.row_of store.old.rows)
        → IsCalledIn D.run first s [] (with_partition s p store.new.part) p store.new.part (D.row_of store.new.rows) }
{
    let number = store.close();
    store.part().known();
    number
}

/// Finishes, as [`Store::finish`] does.
pub fn finish_in<D: Rows>(store: &mut Store<D>, sub: u32) -> Result<Report, FinishFault>
    ensures { (first : Change) (s : StoresValue D.Row) (p : ℕ) → IsStoreIn s p store.old.part (D.row_of store.old.rows)
        → IsCalledIn D.run first s [] (with_partition s p store.new.part) p store.new.part (D.row_of store.new.rows) }
{
    let finished = store.finish(sub);
    store.part().known();
    finished
}

/// Absorbs a board that a node sent, as [`Store::absorb`] does. If memory was missing nothing
/// happened.
pub fn absorb_in<D: Rows>(store: &mut Store<D>, delta: &Delta) -> Result<(), AllocError>
    ensures { OnOk result ((first : Change) (s : StoresValue D.Row) (p i : ℕ) → IsStoreIn s p store.old.part (D.row_of store.old.rows)
        → slice_get s.nodes.messages i ≡ Some delta.now
        → IsCalledIn D.run first s [] (with_partition s p store.new.part) p store.new.part (D.row_of store.new.rows)) }
{
    let absorbed = store.absorb(delta);
    store.part().known();
    absorbed
}
