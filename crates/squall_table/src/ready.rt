//! Patches that are made or left out, once what can fail is done.

ghost use Rattle.std.specs.Prelude.{◌≡◌, [], ◌∷◌, IfOk, IfErr};
ghost use Rattle.squall_span.specs.Spans.{IsSet};
ghost use Rattle.squall_course.specs.Moves.{moves_of};
ghost use Rattle.squall_table.specs.declared.routes.Heard.TheVariants.{All};
ghost use Rattle.squall_table.specs.Legs.{said};
ghost use Rattle.squall_table.specs.News.{news_board};
ghost use Rattle.squall_table.specs.Patching.{ComesTo, IsRenewed};
ghost use Rattle.squall_table.specs.Readiness.{Absorbs};

use crate::fresh::know_moves;
use crate::load::prepare_load;
use crate::news::{News, know_news, load_touched, spans_touched};
use crate::runs::renew_runs;
use crate::single::Brought;
use crate::table::RouteTable;
use squall_blocks::{Draft, Prepared, Unprepared, Unready};
use squall_course::Course;
use squall_key::PartId;
use squall_span::Span;
use std::marker::Model;

/// A table with a patch that is made or left out. Neither can fail.
///
/// Use it to let a board and its table take news together. Prepare the patch, let the board take the
/// news, and then make the patch. If the board fails, leave the patch out.
///
/// Contracts see the legs before the patch, `before`, and with it, `after`.
#[derive(Drop)]
pub struct Ready {
    pending: Pending,
}

/// The patch: an edit of one block that is prepared, or edits that are made and may be undone.
#[derive(Drop)]
enum Pending {
    InBlock(Prepared<PartId>),
    Drafted(Draft<PartId>),
}

impl Model for Ready {
    ghost use Rattle.squall_table.specs.Readiness.{ReadyValue, before, after, AreLegLists};

    ghost Value = { ReadyValue };

    ghost view = { λ r. record { before = before r.pending; after = after r.pending } };

    ghost invariant = { λ r. AreLegLists (before r.pending) (after r.pending) };
}

impl Ready {
    /// Makes the patch. It needs no memory.
    pub fn make(self) -> RouteTable
        ensures { result ≡ self.after }
    {
        let Ready { pending } = self;
        match pending {
            Pending::InBlock(ready) => RouteTable { legs: ready.make() },
            Pending::Drafted(draft) => RouteTable { legs: draft.keep() },
        }
    }

    /// Leaves the patch out, and gives back the table unchanged. It needs no memory.
    pub fn leave(self) -> RouteTable
        ensures { result ≡ self.before }
    {
        let Ready { pending } = self;
        match pending {
            Pending::InBlock(ready) => RouteTable {
                legs: ready.leave(),
            },
            Pending::Drafted(draft) => RouteTable { legs: draft.undo() },
        }
    }
}

impl RouteTable {
    /// Renews the legs for the keys of the spans, as if each of them had come, in a draft.
    fn drafted(self, course: &Course, spans: &[Span]) -> Result<Ready, RouteTable>
        requires set { IsSet spans.now }
        ensures before { IfOk result (λ r. r.before ≡ self) }
        ensures after { IfOk result (λ r. IsRenewed course.now (said All) spans.now self r.after) }
        ensures err { IfErr result (λ t. t ≡ self) }
    {
        know_moves(course);
        let RouteTable { legs } = self;
        let mut draft = Draft::of(legs);
        match renew_runs(draft.allocator(), &mut draft, course, spans) {
            Ok(()) => Ok(Ready {
                pending: Pending::Drafted(draft),
            }),
            Err(_) => Err(RouteTable { legs: draft.undo() }),
        }
    }

    /// The same for one load, all of whose keys one move brings. If the edit stays in one block, it
    /// is prepared there, and no block is made anew.
    fn in_block(self, course: &Course, load: Brought) -> Result<Ready, RouteTable>
        requires set { IsSet (load.span ∷ []) }
        requires comes { ComesTo (moves_of course.now.old course.now.new) load.span load.dest }
        ensures before { IfOk result (λ r. r.before ≡ self) }
        ensures after { IfOk result (λ r. IsRenewed course.now (said All) (load.span ∷ []) self r.after) }
        ensures err { IfErr result (λ t. t ≡ self) }
    {
        know_moves(course);
        let spans = [load.span];
        let RouteTable { legs } = self;
        match prepare_load(legs, course, load) {
            Ok(ready) => Ok(Ready {
                pending: Pending::InBlock(ready),
            }),
            Err(Unprepared { blocks, why }) => {
                let table = RouteTable { legs: blocks };
                match why {
                    Unready::NoMemory => Err(table),
                    Unready::Spread => table.drafted(course, &spans),
                }
            }
        }
    }

    /// Prepares the patch by which the table of a board becomes that of the board with the news. It
    /// renews the keys that the news touch. Under the course's number a load touches those of its
    /// keys that come in to its cell, and a completion all keys that come in there. Other reports
    /// touch none.
    ///
    /// An error means that an allocation failed, and hands the table back as it was.
    pub fn prepare(self, course: &Course, news: News<'_>) -> Result<Ready, RouteTable>
        ensures before { IfOk result (λ r. r.before ≡ self) }
        ensures after { IfOk result (λ r. Absorbs course.now (news_board news.entry) self r.after) }
        ensures err { IfErr result (λ t. t ≡ self) }
    {
        know_moves(course);
        know_news(news);
        if let Some(load) = load_touched(course, news) {
            return self.in_block(course, load);
        }
        match spans_touched(self.legs.allocator(), course, news) {
            Ok(spans) => self.drafted(course, &spans),
            Err(_) => Err(self),
        }
    }
}
