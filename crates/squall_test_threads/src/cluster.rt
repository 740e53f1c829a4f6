//! Tests of running clusters. The plans, reports and partitions were worked out by hand.

ghost use Rattle.std.specs.Prelude.{◌≡◌, [], ◌∷◌, length, All, IfSome, None};
ghost use Rattle.std.specs.Arc.{arc_value};
ghost use Rattle.squall_cluster_inbox.specs.Ends.{posting_of, vouching};
ghost use Rattle.squall_cluster_desk.specs.Start.{IsStartOf};
ghost use Rattle.squall_cluster.specs.Owners.{owning_with, IsBoardOfPosted};
ghost use Rattle.squall_cluster.specs.CloseFaults.{owner_of, spent_of};

mod clusters;
mod example;
mod gates;
mod made;
mod races;
mod sizes;
mod steps;
mod tolerant;

use squall_board::Board;
use squall_cluster::{
    CloseFault, Cluster, Constants, Letter, Owner, Sender, Setup, Sizes, Start, close,
};
use squall_course::Course;
use squall_key::Key;
use squall_report::Report;
use squall_test_example::take;
use std::alloc::Global;
use std::sync::{Arc, Wait};

/// Course 1 of the example plans. None if an allocation fails.
fn course(alloc: Global) -> Option<Arc<Course>> {
    let course = squall_test_example::course(alloc)?;
    Arc::new(alloc, course).ok()
}

/// From 2:0 to 3:0 the keys are loaded at partition 3.
fn load() -> Option<Report> {
    squall_test_example::load("2:0", "3:0")
}

/// Partition 4 is done.
fn done() -> Option<Report> {
    Report::done(1, 0, 4)
}

/// The board of these reports. None if an allocation fails.
fn board(alloc: Global, reports: &[Report]) -> Option<Board> {
    let mut board = Board::new(alloc);
    board.take_all(reports).ok()?;
    Some(board)
}

/// The letter of the report. None if an allocation fails.
fn letter(alloc: Global, report: &Report) -> Option<Letter> {
    let mut board = Board::new(alloc);
    board.take(report).ok()?;
    Some(Letter::new(board))
}

/// The letter with the board of the load. None if an allocation fails.
pub(crate) fn load_letter(alloc: Global) -> Option<Letter> {
    let report = load()?;
    letter(alloc, &report)
}

/// The letter of the load alone.
pub(crate) fn load_alone() -> Option<Letter> {
    let report = load()?;
    Some(Letter::of(report))
}

/// The letter of the completion alone.
fn done_letter() -> Option<Letter> {
    let report = done()?;
    Some(Letter::of(report))
}

/// The letter of the load, and that of the completion. None if an allocation fails.
fn two_letters(alloc: Global) -> Option<(Letter, Letter)> {
    let first = load_letter(alloc)?;
    let second = done_letter()?;
    Some((first, second))
}

/// The board takes the load and the completion. None if an allocation fails.
fn take_both(board: &mut Board) -> Option<()> {
    take(board, load())?;
    take(board, done())
}

/// The board of the load and the completion. None if an allocation fails.
fn board_of_both(alloc: Global) -> Option<Board> {
    let mut board = Board::new(alloc);
    take_both(&mut board)?;
    Some(board)
}

/// Whether the board is that of the load and the completion. None if an allocation fails.
fn is_board_of_both(alloc: Global, board: &Board) -> Option<bool> {
    let wanted = board_of_both(alloc)?;
    Some(*board == wanted)
}

/// What a cluster begins with: its course and its opening board.
#[derive(Drop)]
pub(crate) struct Origin {
    first: Arc<Course>,
    opening: Board,
}

impl Origin {
    /// The start of a cluster that begins with this.
    pub(crate) fn start(&self) -> Start
        ensures first { result.first ≡ arc_value self.now.first }
        ensures board { result.board ≡ self.now.opening }
    {
        Start::new(&self.first, &self.opening)
    }
}

/// Course 1 and the board of no report. None if an allocation fails.
pub(crate) fn empty_origin(alloc: Global) -> Option<Origin> {
    let first = course(alloc)?;
    let opening = Board::new(alloc);
    Some(Origin { first, opening })
}

/// A cluster of two senders, as a test has it.
#[derive(Drop)]
struct Pair<K: Constants, R: Wait + Drop> {
    cluster: Cluster<K>,
    first: Sender<K>,
    second: Sender<K>,
    owner: Owner<K, R>,
}

/// A cluster of two senders and that many readers, whose inbox has room for that many letters. None if
/// an allocation fails.
fn opened<K: Constants, R: Wait + Drop>(
    rt: R,
    alloc: Global,
    start: Start,
    readers: usize,
    capacity: usize,
) -> Option<Pair<K, R>>
    requires { IsStartOf K.book K.first K.opening start }
    ensures { IfSome result (λ pair. (pair.first ≡ posting_of pair.owner.inbox 0 []) × (pair.second ≡ posting_of pair.owner.inbox 1 [])
        × (pair.owner ≡ owning_with pair.owner.inbox 2)) }
{
    let sizes = Sizes {
        senders: 2,
        readers,
        capacity,
    };
    let Ok(setup) = Cluster::<K>::new(rt, alloc, start, sizes) else {
        return None;
    };
    let Setup {
        cluster,
        mut senders,
        owner,
    } = setup;
    let second = senders.pop()?;
    let first = senders.pop()?;
    Some(Pair {
        cluster,
        first,
        second,
        owner,
    })
}

/// Closes the cluster by what came back of a try without memory. None if there is none again.
fn closed_again<K: Constants, R: Wait + Drop>(fault: CloseFault<K, R>) -> Option<Board>
    requires inbox { All (λ s. s.inbox ≡ (owner_of fault).inbox) (spent_of fault) }
    requires all { length (vouching (spent_of fault) (owner_of fault).vouched) ≡ (owner_of fault).made }
    ensures { IfSome result (IsBoardOfPosted K.allowed K.opening (vouching (spent_of fault) (owner_of fault).vouched)) }
{
    match fault {
        CloseFault::NoMemory { spent, owner } => close(spent, owner).ok(),
    }
}

/// Ends both senders and closes the cluster, at a second try if the first had no memory. None if
/// that has none either.
fn closed<K: Constants, R: Wait + Drop>(
    alloc: Global,
    first: Sender<K>,
    second: Sender<K>,
    owner: Owner<K, R>,
) -> Option<Board>
    requires inbox { (first.inbox ≡ owner.inbox) × (second.inbox ≡ owner.inbox) }
    requires all { (owner.vouched ≡ []) × (owner.made ≡ 2) }
    ensures { IfSome result (IsBoardOfPosted K.allowed K.opening ((second.from, second.posted) ∷ (first.from, first.posted) ∷ [])) }
{
    let mut spent = Vec::new(alloc);
    spent.push(first.end()).ok()?;
    spent.push(second.end()).ok()?;
    match close(spent, owner) {
        Ok(board) => Some(board),
        Err(fault) => closed_again(fault),
    }
}

/// The key 2:0.
fn moving_key() -> Option<Key> {
    Key::new(2, 0)
}
