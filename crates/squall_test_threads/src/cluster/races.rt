//! What races are run with, and what they have to give, whatever the schedule. Numbers of senders and readers, and
//! limits, are shown by the cases of the built program.

use super::{course, done};
use squall_board::Board;
use squall_cluster::{Gate, RaceFault, Raced, Start, Tasks, race};
use squall_course::Course;
use squall_key::{Bound, Key};
use squall_report::Report;
use squall_span::Span;
use std::alloc::Global;
use std::sync::{Arc, Wait};
use std::thread::Threads;

/// A report: of the load at partition 3 of the keys from one bound to another, or of the completion.
#[derive(Clone, Copy)]
pub(super) enum Told {
    Load((u32, u32), (u32, u32)),
    Done,
}

/// The report that says it.
fn report(told: Told) -> Option<Report> {
    match told {
        Told::Load(lo, hi) => {
            let span = Span::new(Bound::new(lo.0, lo.1)?, Bound::new(hi.0, hi.1)?)?;
            Report::loaded(1, 0, 3, span)
        }
        Told::Done => done(),
    }
}

/// Adds the reports to the list. None if an allocation fails.
fn push_reports(list: &mut Vec<Report>, told: &[Told]) -> Option<()> {
    for each in told {
        list.push(report(*each)?).ok()?;
    }
    Some(())
}

/// The reports as a list. None if an allocation fails.
fn list_of(alloc: Global, told: &[Told]) -> Option<Vec<Report>> {
    let mut list = Vec::new(alloc);
    push_reports(&mut list, told)?;
    Some(list)
}

/// Adds the list. None if an allocation fails.
fn push_list(lists: &mut Vec<Vec<Report>>, list: Option<Vec<Report>>) -> Option<()> {
    lists.push(list?).ok()
}

/// Adds these lists. None if an allocation fails.
fn push_lists(alloc: Global, lists: &mut Vec<Vec<Report>>, told: &[&[Told]]) -> Option<()> {
    for each in told {
        push_list(lists, list_of(alloc, each))?;
    }
    Some(())
}

/// These lists of reports. None if an allocation fails.
fn lists_of(alloc: Global, told: &[&[Told]]) -> Option<Vec<Vec<Report>>> {
    let mut lists = Vec::new(alloc);
    push_lists(alloc, &mut lists, told)?;
    Some(lists)
}

/// The load of the keys from 2:0 up to 3:0.
pub(super) const LOAD: Told = Told::Load((2, 0), (3, 0));

/// The first half of that load.
const HALF: Told = Told::Load((2, 0), (2, 7));

/// The load in two halves, and its first half again with the completion: they say what the load and
/// the completion say.
const TWO_LISTS: [&[Told]; 2] = [&[HALF, Told::Load((2, 7), (3, 0))], &[HALF, Told::Done]];

/// The keys 2:0, 6:0 and 9:0.
pub(super) fn three_keys() -> Option<[Key; 3]> {
    Some([Key::new(2, 0)?, Key::new(6, 0)?, Key::new(9, 0)?])
}

/// What a race is run with, and the board that it has to give.
#[derive(Drop)]
pub(super) struct Setting {
    first: Arc<Course>,
    opening: Board,
    lists: Vec<Vec<Report>>,
    wanted: Board,
}

/// Course 1 and the empty board, with these lists, whose race has to give that board. None if an
/// allocation fails.
fn setting_of(alloc: Global, lists: Vec<Vec<Report>>, wanted: Board) -> Option<Setting> {
    let first = course(alloc)?;
    Some(Setting {
        first,
        opening: Board::new(alloc),
        lists,
        wanted,
    })
}

/// The same for lists and a board of reports. None if an allocation fails.
pub(super) fn told_setting(alloc: Global, lists: &[&[Told]], wanted: &[Told]) -> Option<Setting> {
    let lists = lists_of(alloc, lists)?;
    setting_with(alloc, lists, wanted)
}

/// The same for lists, and a board of reports. None if an allocation fails.
fn setting_with(alloc: Global, lists: Vec<Vec<Report>>, wanted: &[Told]) -> Option<Setting> {
    let wanted = board_of(alloc, wanted)?;
    setting_of(alloc, lists, wanted)
}

/// The board takes these reports. None if an allocation fails.
fn take_all(board: &mut Board, told: &[Told]) -> Option<()> {
    for each in told {
        board.take(&report(*each)?).ok()?;
    }
    Some(())
}

/// The board of these reports. None if an allocation fails.
fn board_of(alloc: Global, told: &[Told]) -> Option<Board> {
    let mut board = Board::new(alloc);
    take_all(&mut board, told)?;
    Some(board)
}

impl Setting {
    /// A race in this setting.
    pub(super) fn race<G: Gate + Sync, R: Threads + Wait + Sync>(
        &self,
        rt: &R,
        alloc: Global,
        keys: &[Key],
        readers: usize,
        capacity: usize,
        gate: &G,
    ) -> Result<Raced, RaceFault> {
        let start = Start::new(&self.first, &self.opening);
        let tasks = Tasks {
            lists: &self.lists,
            keys,
            readers,
            capacity,
        };
        race(rt, alloc, start, tasks, gate)
    }

    /// Whether the board sends these keys to 3, 4 and 4.
    fn sends_all_on(&self, board: &Board, keys: &[Key; 3]) -> bool {
        let course: &Course = &self.first;
        board.route(course, keys[0]).get() == 3
            && board.route(course, keys[1]).get() == 4
            && board.route(course, keys[2]).get() == 4
    }

    /// Whether the race gave the wanted board, and that many lists of routes.
    pub(super) fn gave_wanted(&self, raced: &Raced, readers: usize) -> bool {
        raced.board == self.wanted && raced.routes.len() == readers
    }

    /// Whether a race of the two lists ended as it has to. It ends with that many lists of three
    /// routes, and with the wanted board, which sends the keys to new partitions.
    pub(super) fn ended_well(&self, raced: &Raced, keys: &[Key; 3], readers: usize) -> bool {
        self.gave_wanted(raced, readers)
            && self.sends_all_on(&raced.board, keys)
            && raced.routes.iter().all(|routes| routes.len() == 3)
    }
}

/// The setting of the two lists. None if an allocation fails.
pub(super) fn two_list_setting(alloc: Global) -> Option<Setting> {
    told_setting(alloc, &TWO_LISTS, &[LOAD, Told::Done])
}
