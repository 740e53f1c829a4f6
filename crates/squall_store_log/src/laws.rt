//! Laws of stores with a log, each the contract of a function that does nothing.

ghost use Rattle.std.specs.Prelude.{◌≡◌, ◌++◌, ℕ, List, Ok};
ghost use Rattle.squall_store_log.specs.declared.record.Record.{Record as RecordValue};
ghost use Rattle.squall_store_log.specs.declared.answer.Answer.{Answer as AnswerValue};
ghost use Rattle.squall_store_log.specs.Records.{spell_record, Fits};
ghost use Rattle.squall_store_log.specs.Steps.{Rows, IsAlike, Makes, IsRecord, Wrote, logged_by};
ghost use Rattle.squall_store_log.specs.Restarts.{Restarts};

/// Each record has one payload, and no payload is of two records.
pub fn one_record()
    ensures { (r s : RecordValue) → Fits r → Fits s → spell_record r ≡ spell_record s → r ≡ s }
{}

/// What a store wrote goes on with what each call adds to it. So whatever calls a store makes, the
/// bytes that it wrote are a log of them. A store that was opened goes on with the log that it was
/// opened from.
pub fn what_is_written_goes_on()
    ensures made { (first s t : Rows) (log : List ℕ) (r : RecordValue) (a : AnswerValue) → Wrote first log s → IsRecord r → Makes s r a t
        → Wrote first (log ++ logged_by (Ok a) r) t }
    ensures alike { (first s t : Rows) (log : List ℕ) → Wrote first log s → IsAlike s t → Wrote first log t }
{}

/// A store that was opened after a cut is what `stores_are_one_map` allows as a restart: the
/// partition is the same, and the rows of all keys that it holds are there. `there` is the store as
/// it was after the calls whose records are whole.
pub fn an_opened_store_restarts()
    ensures { Restarts }
{}
