//! What a partition loads.

ghost use Rattle.std.specs.Prelude.{◌≡◌, ◌↔◌, ℕ, IsTrue, IfOk, IfErr, OnOk, OnErr, Err, MatchBool, option_copied};
ghost use Rattle.std.specs.List.{find};
ghost use Rattle.std.specs.List.Sorted.{IsNonDecreasingBy};
ghost use Rattle.squall_part.specs.Steps.{IsLoadPlace};
ghost use Rattle.squall_protocol.specs.Carried.{ends_beyond, carries, Carried};
ghost use Rattle.squall_part.specs.declared.loading.LoadFault.TheVariants.{NoMemory};
ghost use Rattle.squall_span.specs.Spans.{has, IsSet};
ghost use Rattle.squall_part.specs.Loading.{IsLoaded, MayLoad, AllLoaded, SomeMissing, IsFresh, is_new, after_load};
ghost use Rattle.squall_protocol.specs.Chunks.{load_report};

use crate::part::{Part, know_set};
use squall_course::{Course, Move, Status};
use squall_key::{Bound, ended};
use squall_protocol::Chunk;
use squall_report::Report;
use squall_span::SpanSet;
use std::alloc::AllocError;
use thiserror::Error;

/// What came of a chunk.
#[derive(Drop)]
pub enum Load {
    /// Each of its keys was loaded before under its number.
    Again,
    /// It was loaded: the report of the whole chunk, which the partition's own board has taken.
    Loaded(Report),
}

/// Why a chunk is not loaded.
#[derive(Debug, Drop, Error)]
pub enum LoadFault {
    /// The chunk's course is known, and as far as the partition knows its sub-plan is not opened.
    #[error("NotOpen")]
    NotOpen,
    /// The chunk's course is not known, or some key of the chunk does not come from its source to
    /// this partition in its sub-plan.
    #[error("Stranger")]
    Stranger,
    /// An allocation failed.
    #[error("NoMemory")]
    NoMemory,
}

impl From<AllocError> for LoadFault {
    ghost from_gives = { λ _ e. e ≡ NoMemory };

    fn from(_error: AllocError) -> LoadFault {
        LoadFault::NoMemory
    }
}

/// The report of the load of the whole chunk.
fn report_of(chunk: &Chunk) -> Report
    ensures { result ≡ load_report chunk.now }
{
    let number = chunk.number();
    let sub = chunk.sub();
    let part = chunk.dest().get();
    let Some(report) = Report::loaded(number, sub, part, chunk.span()) else {
        unreachable!();
    };
    report
}

/// The first move that ends beyond the bound.
fn move_beyond(moves: &[Move], bound: Bound) -> Option<&Move>
    requires { IsNonDecreasingBy (λ m. m.span.hi) moves.now }
    ensures { option_copied result ≡ find (ends_beyond bound) moves.now }
{
    moves.get(ended(moves, bound))
}

/// Whether the move has each key of the chunk, on its way and in its sub-plan.
fn carries(m: &Move, chunk: &Chunk) -> bool
    ensures { result ≡ carries m.now chunk.now }
{
    m.source == chunk.source()
        && m.dest == chunk.dest()
        && m.sub == chunk.sub()
        && m.span.lo() <= chunk.span().lo()
        && chunk.span().hi() <= m.span.hi()
}

/// Whether each key of the chunk goes from its source to its destination in its sub-plan. Moves
/// are as long as possible, so its keys are in one move, which its first key finds.
fn fits(course: &Course, chunk: &Chunk) -> bool
    ensures { IsTrue result ↔ Carried course.now chunk.now }
{
    match move_beyond(course.moves(), chunk.span().lo()) {
        Some(m) => carries(m, chunk),
        None => false,
    }
}

impl Part {
    /// The place of the log of the chunk's course, if the chunk may be loaded.
    fn place_for(&self, chunk: &Chunk) -> Result<usize, LoadFault>
        ensures ok { IfOk result (λ at. MayLoad self.now chunk.now × IsLoadPlace self.now chunk.now at) }
        ensures err { IfErr result (λ e. IsLoaded self.now chunk.now (Err e) self.now) }
    {
        let Some(at) = self.known_place(chunk.number()) else {
            return Err(LoadFault::Stranger);
        };
        if self.opened(chunk.number()) <= chunk.sub() {
            return Err(LoadFault::NotOpen);
        }
        if chunk.dest() != self.id {
            return Err(LoadFault::Stranger);
        }
        if !fits(self.logs[at].course(), chunk) {
            return Err(LoadFault::Stranger);
        }
        Ok(at)
    }

    /// Whether each key of the chunk was loaded before.
    fn has_loaded(&self, at: usize, chunk: &Chunk) -> bool
        requires { IsLoadPlace self.now chunk.now at }
        ensures { MatchBool result (AllLoaded self.now chunk.now) (SomeMissing self.now chunk.now) }
    {
        self.known();
        let log = &self.logs[at];
        match log.course().status(&chunk.span(), &log.loaded) {
            Status::Complete => true,
            Status::NotStarted => false,
            Status::Partial => false,
        }
    }

    /// The keys of the chunk that are neither loaded, by the log of its course at `at`, nor held. An
    /// error means that an allocation failed.
    fn missing(&self, at: usize, chunk: &Chunk) -> Result<SpanSet, AllocError>
        requires { IsLoadPlace self.now chunk.now at }
        ensures set { IfOk result (λ keys. IsSet keys) }
        ensures new { IfOk result (λ keys. (k : ℕ) → has keys k ≡ is_new self.now chunk.now k) }
    {
        self.known();
        let alloc = self.allocator();
        let log = &self.logs[at];
        let keys = SpanSet::of(alloc, &chunk.span())?;
        let unloaded = keys.minus(alloc, &log.loaded)?;
        let missing = unloaded.minus(alloc, &self.held)?;
        know_set(&missing);
        Ok(missing)
    }

    /// Loads the keys of the chunk, and takes the report. `at` is the place of the log of its
    /// course. An error means that an allocation failed. The partition is then unchanged.
    fn take_in(&mut self, at: usize, chunk: &Chunk, report: &Report) -> Result<(), AllocError>
        requires place { IsLoadPlace self.old chunk.now at }
        requires report { report.now ≡ load_report chunk.now }
        ensures ok { OnOk result (self.new ≡ after_load self.old chunk.now) }
        ensures err { OnErr result (self.new ≡ self.old) }
    {
        let alloc = self.allocator();
        let log = &mut self.logs[at];
        log.load(alloc, &mut self.board, &mut self.held, chunk.span(), report)
    }

    /// The keys of the chunk that are new here: neither loaded under its number nor held.
    ///
    /// A host puts the chunk's rows of these keys in place before it loads the chunk, and no others:
    /// the partition may have changed the row of any other key since. A chunk that came before has
    /// no new key.
    ///
    /// `NotOpen`, `Stranger`: `load` refuses the chunk so. `NoMemory`: an allocation failed.
    pub fn fresh(&self, chunk: &Chunk) -> Result<SpanSet, LoadFault>
        ensures answer { IsFresh self.now chunk.now result }
    {
        let at = self.place_for(chunk)?;
        if self.has_loaded(at, chunk) {
            return Ok(SpanSet::empty(self.allocator()));
        }
        Ok(self.missing(at, chunk)?)
    }

    /// Takes a chunk. It loads, and then holds, those keys of the chunk that it has not loaded
    /// under the chunk's number. It reports the load of the whole chunk. A chunk that came before
    /// changes nothing, even if the partition has given its keys since.
    ///
    /// `NotOpen`, `Stranger`, the first of these that is so; or `NoMemory`. A fault leaves the
    /// partition unchanged.
    pub fn load(&mut self, chunk: &Chunk) -> Result<Load, LoadFault>
        ensures answer { IsLoaded self.old chunk.now result self.new }
    {
        let at = self.place_for(chunk)?;
        if self.has_loaded(at, chunk) {
            return Ok(Load::Again);
        }
        let report = report_of(chunk);
        self.take_in(at, chunk, &report)?;
        Ok(Load::Loaded(report))
    }
}
