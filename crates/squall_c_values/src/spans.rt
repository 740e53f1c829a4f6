//! Spans of keys, as C sees them.

ghost use Rattle.std.specs.Prelude.{◌≡◌, length, drop};
ghost use Rattle.squall_c_values.specs.Rooms.{over};
ghost use Rattle.squall_c_values.specs.Values.{c_span, spans_that_fit};

use squall_span::{Span, Spans};

/// The keys from rank `lo` on, below rank `hi`.
#[repr(C)]
#[derive(Clone, Copy, Debug, PartialEq, Eq)]
pub struct CSpan {
    /// The rank of the least key.
    pub lo: u64,
    /// The rank above the greatest key.
    pub hi: u64,
}

/// The span as C sees it.
pub fn c_span(span: Span) -> CSpan
    ensures { result ≡ c_span span }
{
    CSpan {
        lo: span.lo().rank(),
        hi: span.hi().rank(),
    }
}

/// The spans without the first `count` of them.
fn without_first<'a>(mut spans: Spans<'a>, count: usize) -> Spans<'a>
    ensures { result ≡ drop count spans.entry }
{
    let mut passed = 0;
    while passed < count {
        let Some(_) = spans.next() else {
            return spans;
        };
        passed += 1;
    }
    spans
}

/// Writes the spans into the room, from its start on, as many as it holds, and answers how many.
fn put_all(mut spans: Spans<'_>, room: &mut [CSpan]) -> usize
    ensures spans { room.new ≡ over (spans_that_fit spans.entry 0 room.old) room.old }
    ensures count { result ≡ length (spans_that_fit spans.entry 0 room.old) }
{
    let mut count = 0;
    while count < room.len() {
        let Some(span) = spans.next() else {
            return count;
        };
        room[count] = c_span(span);
        count += 1;
    }
    count
}

/// Writes the spans, from the place `from` on, into the room, as many as it holds, and answers how
/// many.
pub fn put_spans(spans: Spans<'_>, from: usize, room: &mut [CSpan]) -> usize
    ensures spans { room.new ≡ over (spans_that_fit spans.entry from room.old) room.old }
    ensures count { result ≡ length (spans_that_fit spans.entry from room.old) }
{
    put_all(without_first(spans, from), room)
}
