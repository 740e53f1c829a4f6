//! The trait of a host's database.

ghost use Rattle.std.specs.Prelude.{◌≡◌, ◌≢◌, ℕ, true, false, IfOk, OnOk, OnErr};
ghost use Rattle.squall_span.specs.Spans.{has, span_has};

use squall_key::Key;
use squall_span::{Span, SpanSet};
use std::alloc::AllocError;

/// The rows of one partition, in a database of the host.
///
/// A row is whatever lies under one key. In a database in which a key may have no value a row is
/// an `Option`, and a copy of rows says so of each of its keys.
pub trait Rows: Drop {
    /// The value under one key.
    type Row;

    /// A request of a client for one row.
    type Command;

    /// The answer of a command.
    type Reply;

    /// Copies of rows.
    type Batch;

    /// The row of each key.
    ghost row_of: { Self → ℕ → Self.Row };

    /// The row of each key in a batch.
    ghost copied: { Self.Batch → ℕ → Self.Row };

    /// The row that a command makes of one, and its reply.
    ghost run: { Self.Command → Self.Row → Self.Row × Self.Reply };

    /// Does a command on one row. An error means that it was not done, and the row is the same.
    fn run(&mut self, key: Key, command: &Self::Command) -> Result<Self::Reply, AllocError>
        ensures reply { IfOk result (λ reply. reply ≡ (run command.now (row_of self.old key)).1) }
        ensures made { OnOk result (row_of self.new key ≡ (run command.now (row_of self.old key)).0) }
        ensures err { OnErr result (row_of self.new key ≡ row_of self.old key) }
        ensures others { (k : ℕ) → k ≢ key → row_of self.new k ≡ row_of self.old k };

    /// Copies the rows of a span.
    fn copy(&self, span: Span) -> Result<Self::Batch, AllocError>
        ensures rows { IfOk result (λ batch. (k : ℕ) → span_has span k ≡ true → copied batch k ≡ row_of self.now k) };

    /// Puts the batch's rows of these keys in place of its own. So a key that has no value in the
    /// batch has none from then on, even if it had one here: whoever only inserts brings rows back
    /// that were deleted elsewhere. After an error these keys may have any rows. Rows of other keys
    /// stay in any case.
    fn install(&mut self, batch: &Self::Batch, keys: &SpanSet) -> Result<(), AllocError>
        ensures inside { OnOk result ((k : ℕ) → has keys.now k ≡ true → row_of self.new k ≡ copied batch.now k) }
        ensures outside { (k : ℕ) → has keys.now k ≡ false → row_of self.new k ≡ row_of self.old k };
}
