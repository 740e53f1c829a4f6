//! Routers.

ghost use Rattle.std.specs.Prelude.{◌≡◌, ◌++◌, ◌∷◌, [], List, Err, IfOk, IfSome, IsOk, OnOk, OnErr, unwrap_or};
ghost use Rattle.std.specs.Arc.{arc_value};
ghost use Rattle.squall_course.specs.Change.{ArePlans};
ghost use Rattle.squall_report.specs.declared.report.ReportKind.{ReportKind};
ghost use Rattle.squall_report.specs.Issues.{PlanPair};
ghost use Rattle.squall_report.specs.Told.{TellsAll, TellsBoth, told_by_report};
ghost use Rattle.squall_board.specs.Takes.{TakesBoard, TakesReport};
ghost use Rattle.squall_board.specs.Boards.{IsBoard, HasTaken, empty_board, board_join, report_board, told};
ghost use Rattle.squall_board.specs.CourseRoute.{course_of_board};
ghost use Rattle.squall_table.specs.News.{news_board};
ghost use Rattle.squall_table.specs.Tables.{AreLegs, legs_between};
ghost use Rattle.squall_status.specs.Tallies.{tally_of, IsWithin};
ghost use Rattle.squall_router.specs.declared.fault.AbsorbFault.TheVariants.{Full};
ghost use Rattle.squall_router.specs.Routers.{router_with, course_of_router, route_of_router, IsTableOf};

use crate::fault::AbsorbFault;
use crate::hear::take_news;
use crate::held::Held;
use crate::issues::{both_issues, is_issue, issue_alone, issues_nothing};
use crate::known::{tells_report, tells_small};
use crate::newest::{course_of, number_of};
use crate::small::few_spans;
use squall_board::{Board, Delta};
use squall_course::Course;
use squall_errand::Routes;
use squall_join::Shared;
use squall_key::{Key, PartId};
use squall_report::Report;
use squall_span::Span;
use squall_status::Tally;
use squall_status::laws::a_join_is_within_the_sum;
use squall_table::laws::legs_are_key_by_key;
use squall_table::{Leg, News, RouteTable};
use std::alloc::{AllocError, Global};
use std::marker::Model;
use std::sync::Arc;

/// A router: it takes boards as messages bring them, in any order and any number of times. It
/// answers each key from a sorted table, which it patches for what changed.
///
/// Contracts see a router as its first course and its board: what it answers is determined by both.
#[derive(Drop)]
pub struct Router {
    alloc: Global,
    first: Shared<Course>,
    course: Shared<Course>,
    board: Board,
    table: Held,
    /// At most how much the board tells. `None` if that is not known.
    bound: Option<Tally>,
}

impl Model for Router {
    ghost use Rattle.squall_router.specs.Routers.{RouterValue, InStep, router_with};

    ghost Value = { RouterValue };

    ghost view = { λ r. router_with r.first r.board };

    ghost invariant = { λ r. InStep (router_with r.first r.board) r.course r.table r.bound };
}

/// The count, if it is at most `most`. The fault is `Full` and no other one, and only of a count above
/// that.
fn within(count: Tally, most: &Tally) -> Result<Tally, AbsorbFault>
    ensures count { IfOk result (λ t. t ≡ count) }
    ensures within { OnOk result (IsWithin count most.now) }
    ensures full { OnErr result (result ≡ Err Full) }
    ensures above { OnErr result (IsWithin count most.now → ⊥) }
{
    if count.is_within(most) {
        Ok(count)
    } else {
        Err(AbsorbFault::Full)
    }
}

impl Router {
    /// A router that has heard nothing: it uses the first course, and sends each key to its old
    /// partition. An error means that an allocation failed, or that the count of the course's
    /// owners is full.
    pub fn new(alloc: Global, first: &Arc<Course>) -> Result<Router, AllocError>
        ensures { IfOk result (λ r. r ≡ router_with (arc_value first.now) empty_board) }
    {
        let board = Board::new(alloc);
        let table = RouteTable::build(alloc, first, &board)?;
        let first = Shared::new(Arc::try_clone(first)?);
        let course = first.again()?;
        Ok(Router {
            alloc,
            first,
            course,
            board,
            table: Held::of(table),
            bound: None,
        })
    }

    /// Changes nothing: after it a proof knows what holds of every router.
    pub fn known(&self)
        ensures board { IsBoard self.now.board }
        ensures first { ArePlans self.now.first.old self.now.first.new }
        ensures course { ArePlans (course_of_router self.now).old (course_of_router self.now).new }
    {
        self.board.known();
        let _first = self.first.as_arc().old_plan();
        let _course = self.course.as_arc().old_plan();
    }

    /// Takes all that the delta tells, and answers from then on by all that it has heard. It
    /// patches its table if its course stays the newest, and builds one if another course becomes
    /// the newest. An error means that an allocation failed, or that a count of owners is full: the
    /// router is then unchanged.
    ///
    /// Its board is not copied. Its table is not copied either, if its course stays.
    pub fn absorb(&mut self, delta: &Delta) -> Result<(), AllocError>
        ensures first { self.new.first ≡ self.old.first }
        ensures takes { OnOk result (TakesBoard self.old.board delta.now self.new.board) }
        ensures err { OnErr result (self.new ≡ self.old) }
    {
        self.board.known();
        delta.known();
        if few_spans(delta).is_some() {
            if tells_small(&self.board, delta) {
                return Ok(());
            }
            return self.take_up(delta);
        }
        let news = delta.beyond(self.alloc, &self.board)?;
        news.known();
        self.take_up(&news)
    }

    /// Takes all that the delta tells, as [`Router::absorb`] does, if its board then tells at most as
    /// much as `most`. So a limit holds for what strangers send.
    ///
    /// - `Full`: the board would tell more.
    /// - `NoMemory`: an allocation failed, or a count of owners is full.
    ///
    /// After either fault the router is unchanged. The router keeps a count that is at least that of
    /// its board. It makes a copy of its board only if that count and the delta's are above `most`.
    pub fn absorb_within(&mut self, delta: &Delta, most: &Tally) -> Result<(), AbsorbFault>
        ensures first { self.new.first ≡ self.old.first }
        ensures takes { OnOk result (TakesBoard self.old.board delta.now self.new.board) }
        ensures within { OnOk result (IsWithin (tally_of self.new.board) most.now) }
        ensures full { result ≡ Err Full → IsWithin (tally_of (board_join self.old.board delta.now)) most.now → ⊥ }
        ensures err { OnErr result (self.new ≡ self.old) }
    {
        let bound = self.bound_with(delta, most)?;
        self.absorb(delta)?;
        self.bound = Some(bound);
        Ok(())
    }

    /// At most how much the board tells once it takes the delta, if that is at most `most`.
    fn bound_with(&self, delta: &Delta, most: &Tally) -> Result<Tally, AbsorbFault>
        ensures bound { IfOk result (λ t. IsWithin (tally_of (board_join self.now.board delta.now)) t) }
        ensures within { IfOk result (λ t. IsWithin t most.now) }
        ensures full { result ≡ Err Full → IsWithin (tally_of (board_join self.now.board delta.now)) most.now → ⊥ }
    {
        match self.sum_with(delta)? {
            Some(sum) if sum.is_within(most) => Ok(sum),
            _ => within(self.count_with(delta)?, most),
        }
    }

    /// How much the board and the delta tell together at most, without a look at what both tell.
    fn sum_with(&self, delta: &Delta) -> Result<Option<Tally>, AllocError>
        ensures { IfOk result (λ sum. IfSome sum (λ t. IsWithin (tally_of (board_join self.now.board delta.now)) t)) }
    {
        a_join_is_within_the_sum();
        let own = match self.bound {
            Some(bound) => bound,
            None => Tally::of(&self.board)?,
        };
        Ok(own.plus(Tally::of(delta)?))
    }

    /// How much the board tells once it takes the delta, counted over their join. It knows no limit: an
    /// error means that an allocation failed, or that a count of owners is full.
    fn count_with(&self, delta: &Delta) -> Result<Tally, AllocError>
        ensures { IfOk result (λ t. t ≡ tally_of (board_join self.now.board delta.now)) }
    {
        let mut board = self.board.copied(self.alloc)?;
        board.merge(delta)?;
        Tally::of(&board)
    }

    /// Takes the report, and answers from then on by it too, as after [`Router::absorb`] of its
    /// board. The router patches its table if the report moves keys, and builds one if the report
    /// makes another course the newest. An error means that an allocation failed, or that a count
    /// of owners is full: the router is then unchanged.
    ///
    /// The report goes into board and table in place. A board of it is made only if it is an issue.
    /// A report that the board tells already is looked up, and then nothing else is done.
    pub fn take(&mut self, report: &Report) -> Result<(), AllocError>
        ensures first { self.new.first ≡ self.old.first }
        ensures takes { OnOk result (TakesReport self.old.board report.now self.new.board) }
        ensures known { TellsAll (told self.old.board) (told_by_report report.now) → IsOk result }
        ensures err { OnErr result (self.new ≡ self.old) }
    {
        self.known();
        // The proof learns that the report lies within the limits, so that its board is one.
        let _kind = report.kind();
        if tells_report(&self.board, report) {
            return Ok(());
        }
        if is_issue(report) {
            let issue = issue_alone(self.alloc, report)?;
            return self.take_up(&issue);
        }
        self.stay(News::Report(report))
    }

    /// Takes all of the news, whether its board told it before or not.
    fn take_up(&mut self, news: &Delta) -> Result<(), AllocError>
        ensures ok { OnOk result (self.new ≡ router_with self.old.first (board_join self.old.board news.now)) }
        ensures err { OnErr result (self.new ≡ self.old) }
    {
        match self.other_course(news)? {
            Some(course) => self.turn_to(course, news),
            None => self.stay(News::Delta(news)),
        }
    }

    /// Takes news after which the course stays. The patch of the table is prepared, which may fail.
    /// Then the board takes the news. Last, the patch is made or left out, which cannot fail.
    fn stay(&mut self, news: News<'_>) -> Result<(), AllocError>
        requires { course_of_router self.old ≡ course_of_board self.old.first (board_join self.old.board (news_board news)) }
        ensures ok { OnOk result (self.new ≡ router_with self.old.first (board_join self.old.board (news_board news.entry))) }
        ensures err { OnErr result (self.new ≡ self.old) }
    {
        self.board.known();
        let table = self.table.take();
        let ready = match table.prepare(self.course.as_arc(), news) {
            Ok(ready) => ready,
            Err(table) => {
                self.table.put(table);
                return Err(AllocError);
            }
        };
        match take_news(&mut self.board, news) {
            Ok(()) => {
                self.bound = None;
                self.table.put(ready.make());
                Ok(())
            }
            Err(error) => {
                self.table.put(ready.leave());
                Err(error)
            }
        }
    }

    /// The course that the router has to use once it takes the news. `None` if that is the course
    /// that it uses now. Issues alone decide this, so the call looks at nothing else of the board.
    /// It looks only at the newest issue of both, if the other one issues nothing under that
    /// number.
    fn other_course(&self, news: &Delta) -> Result<Option<Shared<Course>>, AllocError>
        ensures { IfOk result (λ other. unwrap_or other (course_of_router self.now) ≡ course_of_board self.now.first (board_join self.now.board news.now)) }
    {
        self.board.known();
        news.known();
        if !news.has_issues() {
            return Ok(None);
        }
        let newest = news.newest(self.first.as_arc());
        let number = number_of(self.first.as_arc(), &newest);
        let current = self.course.as_arc().number();
        if current < number && issues_nothing(&self.board, number) {
            return Ok(Some(course_of(self.alloc, &self.first, &newest)?));
        }
        if number <= current && issues_nothing(news, current) {
            return Ok(None);
        }
        self.other_by_all(news)
    }

    /// The same if both may issue under one number, so that plans may clash. It makes a board of
    /// all that they issue.
    fn other_by_all(&self, news: &Delta) -> Result<Option<Shared<Course>>, AllocError>
        ensures { IfOk result (λ other. unwrap_or other (course_of_router self.now) ≡ course_of_board self.now.first (board_join self.now.board news.now)) }
    {
        self.board.known();
        news.known();
        let issues = both_issues(self.alloc, &self.board, news)?;
        issues.known();
        let newest = issues.newest(self.first.as_arc());
        if number_of(self.first.as_arc(), &newest) == self.course.as_arc().number() {
            return Ok(None);
        }
        Ok(Some(course_of(self.alloc, &self.first, &newest)?))
    }

    /// Takes the news, and uses the course from then on. The board is not copied: the course's
    /// table is built of what it has, and both take the news in place.
    fn turn_to(&mut self, course: Shared<Course>, news: &Delta) -> Result<(), AllocError>
        requires { course ≡ course_of_board self.old.first (board_join self.old.board news.now) }
        ensures ok { OnOk result (self.new ≡ router_with self.old.first (board_join self.old.board news.now)) }
        ensures err { OnErr result (self.new ≡ self.old) }
    {
        self.board.known();
        let table = RouteTable::build(self.alloc, course.as_arc(), &self.board)?;
        let Ok(ready) = table.prepare(course.as_arc(), News::Delta(news)) else {
            return Err(AllocError);
        };
        self.board.merge(news)?;
        self.bound = None;
        self.course = course;
        self.table.put(ready.make());
        Ok(())
    }

    /// The course with which the router was made.
    pub fn first(&self) -> &Arc<Course>
        ensures { arc_value result.now ≡ self.now.first }
    {
        self.first.as_arc()
    }

    /// The course that it uses: the newest that its board tells of, or the first.
    pub fn course(&self) -> &Arc<Course>
        ensures { arc_value result.now ≡ course_of_router self.now }
    {
        self.course.as_arc()
    }

    /// The partition to ask for the key, by a binary search. It is the key's new partition by the
    /// router's course, if the key does not move, or if its load there or that partition's
    /// completion was heard. Otherwise it is the key's old partition.
    pub fn route(&self, key: Key) -> PartId
        ensures { result ≡ route_of_router self.now key }
    {
        self.table.get().owner(key)
    }

    /// The legs of the span: its keys by rising key, with the partition to ask for them. An error
    /// means that an allocation failed.
    pub fn route_span(&self, alloc: Global, span: &Span) -> Result<Vec<Leg>, AllocError>
        ensures legs { IfOk result (λ legs. AreLegs (route_of_router self.now) span.now.lo span.now.hi legs.items) }
        ensures value { IfOk result (λ legs. legs.items ≡ legs_between (route_of_router self.now) span.now.lo span.now.hi) }
    {
        // The proof learns that the span ends at the top at most, so that the table has its keys.
        let _ = (span.lo(), span.hi());
        legs_are_key_by_key();
        self.table.get().legs(alloc, span)
    }

    /// What it has heard.
    pub fn board(&self) -> &Board
        ensures { result.now ≡ self.now.board }
    {
        &self.board
    }

    /// What it has heard. Nothing is copied.
    pub fn into_board(self) -> Board
        ensures { result ≡ self.board }
    {
        let Self {
            alloc: _,
            first,
            course,
            board,
            table,
            bound: _,
        } = self;
        drop((first, course, table));
        board
    }

    /// Its table: that of its course and its board.
    pub fn table(&self) -> &RouteTable
        ensures { IsTableOf self.now result.now }
    {
        self.table.get()
    }
}

impl Routes for Router {
    ghost routed = { route_of_router };

    fn route(&self, key: Key) -> PartId {
        Router::route(self, key)
    }
}
