//! A partition with its rows.

ghost use Rattle.std.specs.Prelude.{◌≡◌, ◌≢◌, ℕ, true, IfOk, OnOk, OnErr, IfSome, IfNone};
ghost use Rattle.squall_span.specs.Spans.{span_has};
ghost use Rattle.squall_board.specs.Takes.{TakesBoard};
ghost use Rattle.squall_part.specs.Parts.{course_of_part, closed_by, given_by, loaded_by};
ghost use Rattle.squall_part.specs.Giving.{IsGiven, IsGivenAt, after_close};
ghost use Rattle.squall_part.specs.Loading.{IsFinished};
ghost use Rattle.squall_store.specs.Stores.{IsAsked, IsAnswered, NewRowsAre, OthersStay, HoldsAll, IsFirstNotHeld};

use crate::rows::Rows;
use squall_board::Delta;
use squall_errand::Reply;
use squall_key::Key;
use squall_part::{FinishFault, GiveFault, Load, LoadFault, Part};
use squall_protocol::Chunk;
use squall_report::Report;
use std::alloc::AllocError;
use std::marker::Model;

/// The outcome of a command.
#[derive(Drop)]
pub enum Asked<R> {
    /// The partition held the key, and the command ran.
    Ran(R),
    /// The partition did not hold the key, and nothing ran: its reply, which leads on.
    NotHeld(Reply),
}

/// A partition with its rows.
///
/// Contracts see a store as the partition and the rows.
#[derive(Drop)]
pub struct Store<D: Rows> {
    part: Part,
    rows: D,
}

impl<D: Rows> Model for Store<D> {
    ghost use Rattle.squall_store.specs.Stores.{StoreValue};

    ghost Value = { StoreValue D };

    ghost view = { λ s. record { part = s.part; rows = s.rows } };
}

impl<D: Rows> Store<D> {
    /// The partition with these rows. Rows of keys that it does not hold may be any.
    pub fn new(part: Part, rows: D) -> Store<D>
        ensures part { result.part ≡ part }
        ensures rows { result.rows ≡ rows }
    {
        Store { part, rows }
    }

    /// The partition.
    pub fn part(&self) -> &Part
        ensures { result.now ≡ self.now.part }
    {
        &self.part
    }

    /// The rows.
    pub fn rows(&self) -> &D
        ensures { result.now ≡ self.now.rows }
    {
        &self.rows
    }

    /// Does a command on a key, if the partition holds the key. `after` is the number of the last
    /// move that the client followed, or 0. An error means that nothing was done.
    pub fn ask(
        &mut self,
        key: Key,
        after: u32,
        command: &D::Command,
    ) -> Result<Asked<D::Reply>, AllocError>
        ensures answer { IfOk result (IsAsked D.run self.old.part key after command.now (D.row_of self.old.rows key) (D.row_of self.new.rows key)) }
        ensures err { OnErr result (D.row_of self.new.rows key ≡ D.row_of self.old.rows key) }
        ensures others { (k : ℕ) → k ≢ key → D.row_of self.new.rows k ≡ D.row_of self.old.rows k }
        ensures part { self.new.part ≡ self.old.part }
    {
        match self.part.serve(key, after) {
            Reply::Held => Ok(Asked::Ran(self.rows.run(key, command)?)),
            reply => Ok(Asked::NotHeld(reply)),
        }
    }

    /// The first of these keys that the partition does not hold, by its place, and the partition's
    /// reply. None means that it holds them all. Then each command on them runs, until keys are given.
    ///
    /// So a host does commands on several keys as one transaction: under one lock it asks this, and
    /// then does one command after another. In a run they stand side by side.
    pub fn first_not_held(&self, keys: &[Key], after: u32) -> Option<(usize, Reply)>
        ensures held { IfNone result (HoldsAll self.now.part keys.now) }
        ensures first { IfSome result (λ r. IsFirstNotHeld self.now.part keys.now after r.0 r.1) }
    {
        for (at, key) in keys.iter().enumerate() {
            match self.part.serve(*key, after) {
                Reply::Held => {}
                reply => return Some((at, reply)),
            }
        }
        None
    }

    /// Gives keys, as the partition does. Their rows stay here as they are, and no command runs on
    /// them any more, so `copy` may be called now and later, until the load of the chunk is
    /// reported.
    pub fn give(&mut self, max: u64) -> Result<Chunk, GiveFault>
        ensures answer { IsGiven self.old.part max result self.new.part }
        ensures rows { self.new.rows ≡ self.old.rows }
    {
        self.part.give(max)
    }

    /// Gives one key, as the partition does. Its row stays here as it is.
    pub fn give_at(&mut self, key: Key) -> Result<Chunk, GiveFault>
        ensures answer { IsGivenAt self.old.part key result self.new.part }
        ensures rows { self.new.rows ≡ self.old.rows }
    {
        self.part.give_at(key)
    }

    /// Gives no more in the newest course, as the partition does: the answer is that course's number.
    /// Rows stay.
    pub fn close(&mut self) -> u32
        ensures number { result ≡ (course_of_part self.old.part).number }
        ensures part { self.new.part ≡ after_close self.old.part }
        ensures rows { self.new.rows ≡ self.old.rows }
    {
        self.part.close()
    }

    /// Copies the rows that travel with a chunk that was given. An error means that an allocation
    /// failed.
    pub fn copy(&self, chunk: &Chunk) -> Result<D::Batch, AllocError>
        ensures rows { IfOk result (λ batch. (k : ℕ) → span_has chunk.now.span k ≡ true → D.copied batch k ≡ D.row_of self.now.rows k) }
    {
        self.rows.copy(chunk.span())
    }

    /// Takes a chunk and its rows. The rows of its new keys are put in place first, and then the
    /// partition loads it. So no key is held at any moment that lacks its row.
    ///
    /// `NotOpen`, `Stranger`: the partition refuses the chunk, and nothing has changed. `NoMemory`:
    /// an allocation failed. The partition is then unchanged, the chunk's new keys may have any
    /// rows, and the call may be repeated.
    pub fn load(&mut self, chunk: &Chunk, batch: &D::Batch) -> Result<Load, LoadFault>
        ensures answer { IsAnswered self.old.part chunk.now result self.new.part }
        ensures installed { OnOk result (NewRowsAre (D.copied batch.now) self.old.part chunk.now (D.row_of self.new.rows)) }
        ensures others { OthersStay self.old.part chunk.now (D.row_of self.old.rows) (D.row_of self.new.rows) }
    {
        let fresh = self.part.fresh(chunk)?;
        self.rows.install(batch, &fresh)?;
        self.part.load(chunk)
    }

    /// Takes every report of the delta, as the partition does. Rows stay.
    pub fn absorb(&mut self, delta: &Delta) -> Result<(), AllocError>
        ensures takes { OnOk result (TakesBoard self.old.part.board delta.now self.new.part.board) }
        ensures same { self.new.part ≡ record self.old.part { board = self.new.part.board; logs = self.new.part.logs } }
        ensures closed { (n : ℕ) → closed_by self.new.part n ≡ closed_by self.old.part n }
        ensures given { (n : ℕ) → given_by self.new.part n ≡ given_by self.old.part n }
        ensures loaded { (n : ℕ) → loaded_by self.new.part n ≡ loaded_by self.old.part n }
        ensures err { OnErr result (self.new.part ≡ self.old.part) }
        ensures rows { self.new.rows ≡ self.old.rows }
    {
        self.part.absorb(delta)
    }

    /// Reports that all keys of a sub-plan are here, as the partition does. Rows stay.
    pub fn finish(&mut self, sub: u32) -> Result<Report, FinishFault>
        ensures answer { IsFinished self.old.part sub result self.new.part }
        ensures rows { self.new.rows ≡ self.old.rows }
    {
        self.part.finish(sub)
    }
}
