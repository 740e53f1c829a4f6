//! How far the keys of a span, and those of a move, have come.

ghost use Rattle.std.specs.Prelude.{◌≡◌, ◌≤◌};
ghost use Rattle.squall_key.specs.Keys.{top};
ghost use Rattle.squall_span.specs.Spans.{has, IsCanonical, EndsBeyond};
ghost use Rattle.squall_status.specs.Coming.{IsProgress, loaded_in, is_complete};
ghost use Rattle.squall_status.specs.Steps.{shared_count, start_upto, missing_in};
ghost use Rattle.squall_status.specs.Summary.{move_keys, move_loaded};

use squall_course::Move;
use squall_key::Bound;
use squall_span::{Span, SpanSet, Spans};

/// How far the keys of a span have come: a key has come once it is loaded.
#[derive(Clone, Copy, Debug, PartialEq, Eq)]
pub enum Progress {
    /// No key is loaded.
    NotStarted,
    /// Some keys are loaded, and some are not.
    Partial {
        /// How many are loaded.
        loaded: u64,
        /// The longest run of missing keys that begins at the least missing key.
        missing: Span,
    },
    /// Each key is loaded.
    Complete,
}

/// How many keys of the span lie in the spans, each of which ends beyond the start of the span. It
/// stops at the first that shares no key with the span.
fn count_shared(span: Span, spans: Spans<'_>) -> u64
    requires canonical { IsCanonical spans }
    requires ends { EndsBeyond span.lo spans }
    ensures { result ≡ shared_count span spans.entry }
{
    let mut count = 0;
    for one in spans {
        let lo = one.lo().max(span.lo());
        let hi = one.hi().min(span.hi());
        let Some(shared) = Span::new(lo, hi) else {
            return count;
        };
        count += shared.count();
    }
    count
}

/// The bound at which the first span begins, but at most `bound`.
fn start_upto(mut spans: Spans<'_>, bound: Bound) -> Bound
    ensures { result ≡ start_upto bound spans.entry }
{
    match spans.next() {
        Some(first) => first.lo().min(bound),
        None => bound,
    }
}

/// The first run of keys of the span that lie in none of the spans, each of which ends beyond the
/// start of the span.
fn first_missing(span: Span, mut spans: Spans<'_>) -> Option<Span>
    ensures { result ≡ missing_in span spans.entry }
{
    let Some(first) = spans.next() else {
        return Some(span);
    };
    if first.lo() <= span.lo() {
        Span::new(first.hi(), start_upto(spans, span.hi()))
    } else {
        Span::new(span.lo(), first.lo().min(span.hi()))
    }
}

impl Progress {
    /// How far the keys of the span have come, if those of the set have.
    pub(crate) fn of_set(span: Span, set: &SpanSet) -> Progress
        ensures { IsProgress span (has set.now) result }
    {
        // The proof learns that the span ends by the top.
        let _hi = span.hi();
        let spans = set.spans_beyond(span.lo());
        let Some(missing) = first_missing(span, spans) else {
            return Progress::Complete;
        };
        let loaded = count_shared(span, set.spans_beyond(span.lo()));
        if loaded == 0 {
            Progress::NotStarted
        } else {
            Progress::Partial { loaded, missing }
        }
    }

    /// How many keys of the span are loaded, if this is its progress.
    pub(crate) fn loaded_of(self, span: Span) -> u64
        ensures { result ≡ loaded_in span self }
    {
        match self {
            Progress::NotStarted => 0,
            Progress::Partial { loaded, .. } => loaded,
            Progress::Complete => span.count(),
        }
    }

    /// Whether each key is loaded.
    pub fn is_complete(self) -> bool
        ensures { result ≡ is_complete self }
    {
        matches!(self, Progress::Complete)
    }
}

/// A move, and how far its keys have come.
#[derive(Clone, Copy, Debug, PartialEq, Eq)]
pub struct MoveStatus {
    /// The move.
    pub moving: Move,
    /// How far its keys have come.
    pub progress: Progress,
}

impl MoveStatus {
    /// How many keys the move has.
    pub fn keys(&self) -> u64
        ensures value { result ≡ move_keys self.now }
        ensures most { result ≤ top }
    {
        self.moving.span.count()
    }

    /// How many keys of the move are loaded.
    pub fn loaded(&self) -> u64
        ensures { result ≡ move_loaded self.now }
    {
        self.progress.loaded_of(self.moving.span)
    }
}
