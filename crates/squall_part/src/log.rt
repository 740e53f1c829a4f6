//! What a partition did under one course.

ghost use Rattle.std.specs.Prelude.{◌≡◌, ◌<◌, ◌≤◌, ◌==◌, ◌&&◌, ◌+◌, ℕ, true, false, [], ◌∷◌, length, Some, IfOk};
ghost use Rattle.std.specs.Prelude.{IfSome, IfNone, OnOk, OnErr, option_copied, vec_len, vec_capacity};
ghost use Rattle.std.specs.List.{position, insert as inserted};
ghost use Rattle.squall_span.specs.Spans.{has, insert_span, union, minus};
ghost use Rattle.squall_plan.specs.Ranges.{owner_of};
ghost use Rattle.squall_course.specs.Subplans.{moves};
ghost use Rattle.squall_board.specs.Boards.{IsBoard};
ghost use Rattle.squall_board.specs.Takes.{TakesReport};
ghost use Rattle.squall_part.specs.Logs.{has_number, number_in, awaits};
ghost use Rattle.squall_part.specs.Parts.{AreRising, log_with};
ghost use Rattle.squall_part.specs.Fresh.{is_above, put_log, put_logs};

use crate::moving::load_awaited;
use squall_board::Board;
use squall_course::Course;
use squall_join::Shared;
use squall_key::{Key, PartId};
use squall_report::Report;
use squall_span::{Span, SpanSet};
use std::alloc::{AllocError, Global};
use std::marker::Model;

/// What a partition did under a course that it knows or knew.
#[derive(Drop)]
pub(crate) struct Log {
    // The partition whose log it is.
    part: PartId,
    pub(crate) course: Shared<Course>,
    pub(crate) given: SpanSet,
    pub(crate) loaded: SpanSet,
    // The keys that come in to the partition by the course and are not loaded. Once all are loaded
    // it is empty, so a finished course costs a search almost nothing.
    awaited: SpanSet,
    // Whether the partition gives no more under the course.
    pub(crate) closed: bool,
}

impl Model for Log {
    ghost use Rattle.squall_part.specs.Parts.{Log, log_with};
    ghost use Rattle.squall_part.specs.Logs.{IsAwaited};

    ghost Value = { Log };

    ghost view = { λ l. log_with l.course l.given l.loaded l.closed };

    ghost invariant = { λ l. IsAwaited l.part l.course l.loaded l.awaited };
}

/// The keys that come in to the partition by the course. An error means that an allocation failed.
fn incoming_keys(alloc: Global, part: PartId, course: &Course) -> Result<SpanSet, AllocError>
    ensures { IfOk result (λ set. (k : ℕ) → has set k ≡ (moves course.now.old course.now.new k && (owner_of course.now.new k == part))) }
{
    let mut keys = SpanSet::empty(alloc);
    for one in course.moves() {
        if one.dest == part {
            keys.insert(one.span)?;
        }
    }
    Ok(keys)
}

impl Log {
    /// The partition's log of a course under which nothing was done. An error means that an
    /// allocation failed.
    pub(crate) fn new(
        alloc: Global,
        part: PartId,
        course: Shared<Course>,
    ) -> Result<Log, AllocError>
        ensures { IfOk result (λ l. l ≡ log_with course [] [] false) }
    {
        let awaited = incoming_keys(alloc, part, course.as_arc())?;
        Ok(Log {
            part,
            course,
            given: SpanSet::empty(alloc),
            loaded: SpanSet::empty(alloc),
            awaited,
            closed: false,
        })
    }

    /// Its course.
    pub(crate) fn course(&self) -> &Course
        ensures { result.now ≡ self.now.course }
    {
        self.course.as_arc()
    }

    /// The number of its course.
    pub(crate) fn number(&self) -> u32
        ensures value { result ≡ self.now.course.number }
        ensures some { 0 < result }
    {
        self.course().number()
    }

    /// Whether by its course the key comes in to the partition, and it is not loaded.
    pub(crate) fn awaits(&self, part: PartId, key: Key) -> bool
        ensures { result ≡ awaits part self.now.course self.now.loaded key }
    {
        if part == self.part {
            return self.awaited.has(key);
        }
        // A partition asks only its own logs. For another partition the plans give the answer, so a
        // caller need not prove whose log it is.
        let owners = self.course().owners(key);
        owners.old != owners.new && owners.new == part && !self.loaded.has(key)
    }

    /// Ends what the partition gives under its course.
    pub(crate) fn close(&mut self)
        ensures { self.new ≡ record self.old { closed = true } }
    {
        self.closed = true;
    }

    /// Loads the keys of the span. The partition then holds those that were not loaded, and the
    /// board has the report. All of them are loaded, and none is awaited. An error means that an
    /// allocation failed. The log, the board and the keys held are then unchanged.
    pub(crate) fn load(
        &mut self,
        alloc: Global,
        board: &mut Board,
        held: &mut SpanSet,
        span: Span,
        report: &Report,
    ) -> Result<(), AllocError>
        ensures takes { OnOk result (TakesReport board.old report.now board.new) }
        ensures valid { OnOk result (IsBoard board.new) }
        ensures held { OnOk result (held.new ≡ union held.old (minus (span ∷ []) self.old.loaded)) }
        ensures loaded { OnOk result (self.new.loaded ≡ insert_span span self.old.loaded) }
        ensures same { self.new ≡ log_with self.old.course self.old.given self.new.loaded self.old.closed }
        ensures err { OnErr result ((board.new ≡ board.old) × (held.new ≡ held.old) × (self.new.loaded ≡ self.old.loaded)) }
    {
        self.loaded.known();
        load_awaited(
            alloc,
            board,
            held,
            &mut self.loaded,
            &mut self.awaited,
            span,
            report,
        )
    }
}

/// The place of the log of the number.
pub(crate) fn place_of(logs: &[Log], number: u32) -> Option<usize>
    requires { AreRising logs.now }
    ensures { result ≡ position (has_number number) logs.now }
{
    // The newest course is asked for most, and its log is the last.
    let count = logs.len();
    if count > 0 && logs[count - 1].number() == number {
        return Some(count - 1);
    }
    logs.iter().position(|log| log.number() == number)
}

/// The place of the first log of a number above this one.
fn first_above(logs: &[Log], number: u32) -> Option<usize>
    ensures { result ≡ position (is_above number) logs.now }
{
    logs.iter().position(|log| number < log.number())
}

/// Puts a log at a place, before those from there on. There must be room for it.
fn put(logs: &mut Vec<Log>, at: usize, log: Log)
    requires within { at ≤ length logs.old.items }
    requires room { vec_len logs.old < vec_capacity logs.old }
    ensures value { logs.new.items ≡ inserted logs.old.items at log }
    ensures len { vec_len logs.new ≡ vec_len logs.old + 1 }
    ensures capacity { vec_capacity logs.new ≡ vec_capacity logs.old }
{
    logs.push_reserved(log);
    logs[at..].rotate_right(1);
}

/// Puts a log among the others, before the first one of a greater number. There must be room for
/// it.
fn put_ready(logs: &mut Vec<Log>, log: Log)
    requires room { vec_len logs.old < vec_capacity logs.old }
    ensures value { logs.new.items ≡ put_log log logs.old.items }
    ensures len { vec_len logs.new ≡ vec_len logs.old + 1 }
    ensures capacity { vec_capacity logs.new ≡ vec_capacity logs.old }
{
    match first_above(logs, log.number()) {
        Some(at) => put(logs, at, log),
        None => logs.push_reserved(log),
    }
}

/// Puts logs among the others. There must be room for them.
pub(crate) fn put_all_ready(logs: &mut Vec<Log>, mut fresh: Vec<Log>)
    requires room { vec_len logs.old + vec_len fresh ≤ vec_capacity logs.old }
    ensures { logs.new.items ≡ put_logs fresh.items logs.old.items }
{
    while let Some(log) = fresh.pop() {
        put_ready(logs, log);
    }
}

/// The number of the log, 0 if there is none.
pub(crate) fn number_of(log: Option<&Log>) -> u32
    ensures { result ≡ number_in (option_copied log.entry) }
{
    match log {
        Some(log) => log.number(),
        None => 0,
    }
}

/// The log, if its number is above the given one.
pub(crate) fn above(log: Option<&Log>, number: u32) -> Option<&Log>
    ensures some { IfSome result (λ l. (option_copied log.entry ≡ Some l.now) × (number < l.now.course.number)) }
    ensures none { IfNone result (number_in (option_copied log.entry) ≤ number) }
{
    match log {
        Some(log) if number < log.number() => Some(log),
        _ => None,
    }
}
