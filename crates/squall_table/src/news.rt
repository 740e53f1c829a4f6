//! What a board and its table take.

ghost use Rattle.std.specs.Prelude.{◌≡◌, ℕ, [], ◌∷◌, IfOk, IfSome};
ghost use Rattle.squall_span.specs.Spans.{has, IsSet};
ghost use Rattle.squall_course.specs.Moves.{moves_of};
ghost use Rattle.squall_board.specs.Boards.{IsBoard, says};
ghost use Rattle.squall_table.specs.News.{news_board};
ghost use Rattle.squall_table.specs.Patching.{ComesTo};
ghost use Rattle.squall_table.specs.Touched.{is_touched};

use crate::single::{Brought, reported_load, touched_load};
use crate::touch::{touched, touched_by_report};
use squall_board::Delta;
use squall_course::Course;
use squall_report::Report;
use squall_span::{Span, SpanSet};
use std::alloc::{AllocError, Global};

/// What a board and its table take.
#[derive(Clone, Copy)]
pub enum News<'a> {
    /// What a delta tells.
    Delta(&'a Delta),
    /// What one report tells. No board of it is made.
    Report(&'a Report),
}

/// The spans of the set in one list. An error means that an allocation failed.
fn listed(alloc: Global, set: SpanSet) -> Result<Vec<Span>, AllocError>
    ensures value { IfOk result (λ list. list.items ≡ set) }
    ensures set { IfOk result (λ list. IsSet list.items) }
{
    set.known();
    set.into_list(alloc)
}

/// Changes nothing: after it a proof knows that what the news tell is a board.
pub(crate) fn know_news(news: News)
    ensures { IsBoard (news_board news.entry) }
{
    match news {
        News::Delta(delta) => delta.known(),
        News::Report(report) => {
            let _kind = report.kind();
        }
    }
}

/// The keys that the news touch, if they are one load under the course's number, and one move brings
/// all keys of that load to its cell. `None` means: use `spans_touched`.
pub(crate) fn load_touched(course: &Course, news: News) -> Option<Brought>
    ensures set { IfSome result (λ b. IsSet (b.span ∷ [])) }
    ensures keys { IfSome result (λ b. (k : ℕ) → has (b.span ∷ []) k ≡ is_touched course.now (says (news_board news.entry)) k) }
    ensures dest { IfSome result (λ b. ComesTo (moves_of course.now.old course.now.new) b.span b.dest) }
{
    match news {
        News::Delta(delta) => touched_load(course, delta),
        News::Report(report) => reported_load(course, report),
    }
}

/// The keys that the news touch. An error means that an allocation failed.
pub(crate) fn spans_touched(
    alloc: Global,
    course: &Course,
    news: News,
) -> Result<Vec<Span>, AllocError>
    ensures set { IfOk result (λ list. IsSet list.items) }
    ensures keys { IfOk result (λ list. (k : ℕ) → has list.items k ≡ is_touched course.now (says (news_board news.entry)) k) }
{
    match news {
        News::Delta(delta) => listed(alloc, touched(alloc, course, delta)?),
        News::Report(report) => listed(alloc, touched_by_report(alloc, course, report)?),
    }
}
