//! Whether two answers are the same.

ghost use Rattle.std.specs.Prelude.{◌≡◌, IsTrue, IsFalse};
ghost use Rattle.squall_protocol.specs.declared.answer.Refusal.TheVariants.{NotDone, NotAll};
ghost use Rattle.squall_protocol.specs.declared.answer.Answer.TheVariants.{Gave, Begun, Refused, Served};

use crate::same::{same_report, same_span};
use squall_errand::Reply;
use squall_key::PartId;
use squall_protocol::{Answer, Chunk, Refusal};
use squall_span::Span;

/// Whether the chunks are the same.
pub(crate) fn same_chunk(a: Chunk, b: Chunk) -> bool
    ensures same { IsTrue result → a ≡ b }
    ensures apart { IsFalse result → a ≡ b → ⊥ }
{
    a.number() == b.number()
        && a.sub() == b.sub()
        && a.source().get() == b.source().get()
        && a.dest().get() == b.dest().get()
        && same_span(a.span(), b.span())
}

/// Whether the replies are the same.
fn same_reply(a: Reply, b: Reply) -> bool
    ensures same { IsTrue result → a ≡ b }
    ensures apart { IsFalse result → a ≡ b → ⊥ }
{
    a == b
}

/// Whether the refusal is of that sub-plan and partition.
fn is_not_done(refusal: &Refusal, sub: u32, part: PartId) -> bool
    ensures same { IsTrue result → refusal.now ≡ NotDone sub part }
    ensures apart { IsFalse result → refusal.now ≡ NotDone sub part → ⊥ }
{
    match refusal {
        Refusal::NotDone { sub: s, part: p } => *s == sub && p.get() == part.get(),
        _ => false,
    }
}

/// Whether the refusal is of that span.
fn is_not_all(refusal: &Refusal, span: Span) -> bool
    ensures same { IsTrue result → refusal.now ≡ NotAll span }
    ensures apart { IsFalse result → refusal.now ≡ NotAll span → ⊥ }
{
    match refusal {
        Refusal::NotAll(missing) => same_span(*missing, span),
        _ => false,
    }
}

/// Whether the refusals are the same.
fn same_refusal(a: &Refusal, b: &Refusal) -> bool
    ensures same { IsTrue result → a.now ≡ b.now }
    ensures apart { IsFalse result → a.now ≡ b.now → ⊥ }
{
    match a {
        Refusal::NoSuch => matches!(b, Refusal::NoSuch),
        Refusal::NotDone { sub, part } => is_not_done(b, *sub, *part),
        Refusal::NoMore => matches!(b, Refusal::NoMore),
        Refusal::Running => matches!(b, Refusal::Running),
        Refusal::NoNumber => matches!(b, Refusal::NoNumber),
        Refusal::NotOpen => matches!(b, Refusal::NotOpen),
        Refusal::Ended => matches!(b, Refusal::Ended),
        Refusal::NothingLeft => matches!(b, Refusal::NothingLeft),
        Refusal::ZeroMax => matches!(b, Refusal::ZeroMax),
        Refusal::NotOutgoing => matches!(b, Refusal::NotOutgoing),
        Refusal::Given => matches!(b, Refusal::Given),
        Refusal::NotHeld => matches!(b, Refusal::NotHeld),
        Refusal::Stranger => matches!(b, Refusal::Stranger),
        Refusal::NotAll(span) => is_not_all(b, *span),
        Refusal::NothingDue => matches!(b, Refusal::NothingDue),
        Refusal::NotKnown => matches!(b, Refusal::NotKnown),
    }
}

/// Whether the answers are the same.
pub(crate) fn same_answer(a: &Answer, b: &Answer) -> bool
    ensures same { IsTrue result → a.now ≡ b.now }
    ensures apart { IsFalse result → a.now ≡ b.now → ⊥ }
{
    match (a, b) {
        (Answer::Opened { sub }, Answer::Opened { sub: s }) => *sub == *s,
        (
            Answer::Begun { number, parts },
            Answer::Begun {
                number: n,
                parts: p,
            },
        ) => *number == *n && *parts == *p,
        (Answer::Closed { number }, Answer::Closed { number: n }) => *number == *n,
        (Answer::Gave { index, chunk }, Answer::Gave { index: i, chunk: c }) => *index == *i
            && same_chunk(*chunk, *c),
        (Answer::Loaded(report), Answer::Loaded(r)) => same_report(report, r),
        (Answer::Again, Answer::Again) => true,
        (Answer::Finished(report), Answer::Finished(r)) => same_report(report, r),
        (Answer::Sent { index }, Answer::Sent { index: i }) => *index == *i,
        (Answer::Delivered, Answer::Delivered) => true,
        (Answer::Routed(part), Answer::Routed(p)) => part.get() == p.get(),
        (Answer::Served(reply), Answer::Served(r)) => same_reply(*reply, *r),
        (Answer::Refused(refusal), Answer::Refused(r)) => same_refusal(refusal, r),
        _ => false,
    }
}
