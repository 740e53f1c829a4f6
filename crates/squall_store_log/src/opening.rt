//! A store from its log.

ghost use Rattle.std.specs.Prelude.{◌≡◌, ◌++◌, ◌-◌, ℕ, List, [], length, take, IfOk, IfErr, OnOk};
ghost use Rattle.squall_log.specs.Entries.{EndsIn};
ghost use Rattle.squall_store_log.specs.declared.answer.Answer.{Answer};
ghost use Rattle.squall_store_log.specs.declared.answer.MakeFault.{MakeFault as MakeFaultValue};
ghost use Rattle.squall_store_log.specs.declared.opening.Stop.TheVariants.{Declined};
ghost use Rattle.squall_store_log.specs.Steps.{Rows as StoreWithRows, first_store, Makes, Declines, Wrote, IsStep, IsStopped, IsOpened, IsAfterCut, StopsAt};

use crate::answer::MakeFault;
use crate::fault::ReadFault;
use crate::logged::LoggedStore;
use crate::make::make;
use crate::reading::read_record;
use crate::record::Record;
use squall_log::{End, first_entry};
use squall_part::Part;
use squall_replay::laws::one_partition;
use squall_store::{MemoryRows, Store};
use std::alloc::Global;

/// Why no more of a log is read.
#[derive(Drop)]
pub enum Stop {
    /// No whole entry follows.
    Ends(End),
    /// The payload of the next entry is of no record.
    Strange,
    /// The store refuses the call of the next record, so this is the log of another one.
    Declined(MakeFault),
    /// An allocation failed.
    NoMemory,
}

/// A store that was opened.
#[derive(Drop)]
pub struct Opened {
    /// The store after the calls of the log. Nothing waits.
    pub store: LoggedStore,
    /// How many bytes the whole entries of the log have. The log goes on there.
    pub size: usize,
    /// How the log ends after them.
    pub end: End,
}

/// Makes the call of a record of a log.
fn make_again(store: &mut Store<MemoryRows>, alloc: Global, record: &Record) -> Result<(), Stop>
    ensures ok { OnOk result ((answer : Answer) × Makes store.old record.now answer store.new) }
    ensures fault { IfErr result (λ stop. (fault : MakeFaultValue) × (stop ≡ Declined fault) × Declines store.old.part record.now 0 fault) }
{
    match make(store, alloc, record, 0) {
        Ok(_answer) => Ok(()),
        Err(fault) => Err(Stop::Declined(fault)),
    }
}

/// Reads the record that begins the bytes and makes its call. It gives the bytes after it.
fn step<'a>(store: &mut Store<MemoryRows>, alloc: Global, bytes: &'a [u8]) -> Result<&'a [u8], Stop>
    ensures ok { IfOk result (λ rest. IsStep store.old bytes.now store.new rest.now) }
    ensures stop { IfErr result (λ stop. IsStopped store.old bytes.now store.new stop) }
{
    let (payload, rest) = match first_entry(bytes) {
        Ok(entry) => entry,
        Err(end) => return Err(Stop::Ends(end)),
    };
    let record = match read_record(alloc, payload) {
        Ok(record) => record,
        Err(ReadFault::Strange) => return Err(Stop::Strange),
        Err(ReadFault::NoMemory) => return Err(Stop::NoMemory),
    };
    match make_again(store, alloc, &record) {
        Ok(()) => Ok(rest),
        Err(stop) => Err(stop),
    }
}

/// Makes the calls of a log's records, as far as whole entries go. It gives what follows them, and
/// how that ends.
fn make_all<'a>(
    store: &mut Store<MemoryRows>,
    alloc: Global,
    log: &'a [u8],
) -> Result<(&'a [u8], End), Stop>
    ensures opened { IfOk result (λ x. IsOpened store.old log.now store.new x.0.now) }
    ensures end { IfOk result (λ x. EndsIn x.1 x.0.now) }
    ensures stop { IfErr result (λ stop. StopsAt store.old log.now stop) }
{
    let mut rest = log;
    loop {
        match step(store, alloc, rest) {
            Ok(after) => rest = after,
            Err(Stop::Ends(end)) => return Ok((rest, end)),
            Err(stop) => return Err(stop),
        }
    }
}

impl LoggedStore {
    /// The store after the calls of a log. `part` is the partition as it was when the log was begun:
    /// of the same number and first course, and new.
    ///
    /// A log that was cut off anywhere is opened up to the cut (`cut`). The host cuts its file at
    /// `size` if the end is torn, and goes on writing there. If the end is damaged, an operator has
    /// to look: records after that point may be lost.
    ///
    /// `Strange`, `Declined`: the log is of another store. `NoMemory`: an allocation failed.
    pub fn open(alloc: Global, part: Part, log: &[u8]) -> Result<Opened, Stop>
        ensures opened { IfOk result (λ o. (rest : List ℕ) × IsOpened (first_store part) log.now o.store.store rest × EndsIn o.end rest
            × (o.size ≡ length log.now - length rest)) }
        ensures empty { IfOk result (λ o. o.store.waiting ≡ []) }
        ensures cut { IfOk result (λ o. (written : List ℕ) (last : StoreWithRows) (n : ℕ) → Wrote (first_store part) written last
            → log.now ≡ take n written → IsAfterCut (first_store part) written last n o.size o.end o.store.store) }
        ensures stop { IfErr result (λ stop. StopsAt (first_store part) log.now stop) }
    {
        part.known();
        one_partition();
        let mut store = Store::new(part, MemoryRows::new(alloc));
        match make_all(&mut store, alloc, log) {
            Ok((rest, end)) => {
                let size = log.len().saturating_sub(rest.len());
                let waiting = Vec::new(alloc);
                let store = LoggedStore {
                    alloc,
                    store,
                    waiting,
                };
                Ok(Opened { store, size, end })
            }
            Err(stop) => Err(stop),
        }
    }
}
