//! Senders, owner and readers at once.

ghost use Rattle.std.specs.Prelude.{◌≡◌, Some, length, IfOk, IfErr};
ghost use Rattle.std.specs.Thread.{IsSync};
ghost use Rattle.squall_cluster_desk.specs.Start.{IsStartOf};
ghost use Rattle.squall_cluster.specs.Owners.{SameSenders};
ghost use Rattle.squall_cluster.specs.RaceFaults.{RaceFaultOf};
ghost use Rattle.squall_cluster.specs.Race.{Ready, SentAll, AllRead, AreRoutesOf, Ran, IsBoardOfReports, lists_of, sizes_of};

use crate::closing::close;
use crate::cluster::{Cluster, Setup};
use crate::gate::{Actor, Gate, Steps};
use crate::halt::{Off, RaceFault, Stop};
use crate::owner::Owner;
use crate::reading::{Reads, read_all};
use crate::sending::{Sends, send_all};
use crate::shared::Shared;
use crate::tasks::Tasks;
use squall_board::Board;
use squall_cluster_desk::{Seat, Start};
use squall_cluster_inbox::{Constants, Sender, Spent};
use squall_key::{Key, PartId};
use squall_report::Report;
use std::alloc::Global;
use std::marker::Brand;
use std::sync::Wait;
use std::thread;
use std::thread::Threads;

/// Turns until that many letters are published, or the race is off.
fn turn_all<K: Constants, G: Gate, R: Wait, W: Wait + Drop>(
    shared: &Shared<G, R>,
    owner: &mut Owner<K, W>,
    total: u64,
)
    ensures { SameSenders owner.old owner.new }
{
    let mut steps = Steps::new(&shared.gate, Actor::Owner);
    let mut count = 0u64;
    for _ in shared.rt.forever() {
        if count >= total || shared.halt.check().is_err() {
            return;
        }
        steps.begin();
        let turn = owner.turn();
        steps.end();
        match turn {
            Ok(turn) if turn.took => count += 1,
            Ok(_) => thread::yield_now(),
            Err(_) => {
                shared.stop(Stop::NoMemory);
            }
        }
    }
}

/// The owner turns in this thread, until that many letters are published. Each reader has a thread of
/// its own beside it. All have ended when it returns.
fn turn_and_read<
    K: Constants + Send + Sync,
    G: Gate + Sync,
    R: Threads + Wait + Sync,
    W: Wait + Drop,
>(
    shared: &Shared<G, R>,
    owner: Owner<K, W>,
    total: u64,
    seats: Vec<Seat<K>>,
    keys: &[Key],
) -> (Owner<K, W>, Result<Vec<Vec<PartId>>, Off>)
    ensures owner { SameSenders owner result.0 }
    ensures read { IfOk result.1 (λ v. AllRead K.allowed K.first K.opening keys.now (length seats.items) v.items) }
{
    thread::scope(
        thread::scope_env(),
        &shared.rt,
        move |scope| -> (Owner<K, W>, Result<Vec<Vec<PartId>>, Off>)
            requires { IsSync R.row × IsSync G.row }
            ensures owner { SameSenders owner result.0 }
            ensures read { IfOk result.1 (λ v. AllRead K.allowed K.first K.opening keys.entry.now (length seats.items) v.items) }
        {
            let mut owner = owner;
            let reads = Reads::<K>::of(seats.len(), keys);
            let Ok(reading) = scope.spawn_with(
                reads,
                move || -> Result<Vec<Vec<PartId>>, Off>
                    requires { IsSync R.row × IsSync G.row }
                    ensures { IfOk result (λ v. AllRead K.allowed K.first K.opening keys.entry.now (length seats.items) v.items) }
                { read_all(shared, 0, seats, keys) },
            ) else {
                return (owner, Err(shared.stop(Stop::NoThread)));
            };
            turn_all(shared, &mut owner, total);
            let routes = reading.join(&shared.rt);
            (owner, routes)
        },
    )
}

/// What all senders and all readers of a race give back.
#[derive(Drop)]
struct Given {
    spent: Vec<Spent>,
    routes: Vec<Vec<PartId>>,
}

/// What both gave, if neither heard that the race is off.
fn both(spent: Result<Vec<Spent>, Off>, routes: Result<Vec<Vec<PartId>>, Off>) -> Result<Given, Off>
    ensures spent { IfOk result (λ r. spent ≡ Ok r.spent) }
    ensures routes { IfOk result (λ r. routes ≡ Ok r.routes) }
{
    let spent = spent?;
    let routes = routes?;
    Ok(Given { spent, routes })
}

/// All of them at once: the owner in this thread, each sender and each reader in one of its own. All
/// have ended when it returns.
fn run_all<K: Constants + Send + Sync, G: Gate + Sync, R: Threads + Wait + Sync, W: Wait + Drop>(
    shared: &Shared<G, R>,
    senders: Vec<Sender<K>>,
    lists: &[Vec<Report>],
    owner: Owner<K, W>,
    seats: Vec<Seat<K>>,
    keys: &[Key],
) -> (Owner<K, W>, Result<Given, Off>)
    requires { Ready K.allowed senders.items lists.now }
    ensures owner { SameSenders owner result.0 }
    ensures sent { IfOk result.1 (λ r. SentAll senders.items (lists_of lists.now) r.spent.items) }
    ensures read { IfOk result.1 (λ r. AllRead K.allowed K.first K.opening keys.now (length seats.items) r.routes.items) }
{
    thread::scope(
        thread::scope_env(),
        &shared.rt,
        move |scope| -> (Owner<K, W>, Result<Given, Off>)
            requires { IsSync R.row × IsSync G.row × Ready K.allowed senders.items lists.now }
            ensures owner { SameSenders owner result.0 }
            ensures sent { IfOk result.1 (λ r. SentAll senders.items (lists_of lists.entry.now) r.spent.items) }
            ensures read { IfOk result.1 (λ r. AllRead K.allowed K.first K.opening keys.entry.now (length seats.items) r.routes.items) }
        {
            let sends = Sends::of(&senders, lists);
            let Ok(sending) = scope.spawn_with(
                sends,
                move || -> Result<Vec<Spent>, Off>
                    requires { IsSync R.row × IsSync G.row × Ready K.allowed senders.items lists.now }
                    ensures { IfOk result (λ v. SentAll senders.items (lists_of lists.entry.now) v.items) }
                { send_all(shared, 0, senders, lists) },
            ) else {
                return (owner, Err(shared.stop(Stop::NoThread)));
            };
            let (owner, routes) = turn_and_read(shared, owner, total_of(lists), seats, keys);
            let spent = sending.join(&shared.rt);
            (owner, both(spent, routes))
        },
    )
}

/// How a race ended.
#[derive(Drop)]
pub struct Raced {
    /// What was reported: the join of the opening board and of all reports of the lists.
    pub board: Board,
    /// For each reader the partitions to which it was sent, one for each key.
    pub routes: Vec<Vec<PartId>>,
}

/// How many reports all lists have.
fn total_of(lists: &[Vec<Report>]) -> u64 {
    let mut total = 0u64;
    for list in lists {
        total = total.saturating_add(list.len() as u64);
    }
    total
}

/// That many seats, or the first refusal.
fn seats_of<K: Constants>(
    alloc: Global,
    cluster: &Cluster<K>,
    readers: usize,
) -> Result<Vec<Seat<K>>, Stop>
    ensures { IfOk result (λ v. length v.items ≡ readers) }
{
    let mut seats = Vec::new(alloc);
    for _ in 0..readers {
        let seat = match cluster.seat() {
            Ok(seat) => seat,
            Err(fault) => return Err(Stop::from(fault)),
        };
        if seats.push(seat).is_err() {
            return Err(Stop::NoMemory);
        }
    }
    Ok(seats)
}

/// A race in a cluster whose constants are known. A refused turn of the owner calls it off too, even if
/// all others have ended well.
fn race_in<K: Constants + Send + Sync, G: Gate + Sync, R: Threads + Wait + Sync>(
    rt: &R,
    alloc: Global,
    start: Start,
    tasks: Tasks,
    gate: &G,
) -> Result<Raced, RaceFault>
    requires start { IsStartOf K.book K.first K.opening start }
    requires allowed { K.allowed ≡ Some (lists_of tasks.lists.now) }
    ensures board { IfOk result (λ r. Ran start.entry.board (lists_of tasks.entry.lists.now) r.board) }
    ensures routes { IfOk result (λ r. AreRoutesOf start.entry tasks.entry r.routes.items) }
    ensures fault { IfErr result (RaceFaultOf (sizes_of tasks.entry)) }
{
    let setup = match Cluster::<K>::new(rt, alloc, start, tasks.sizes()) {
        Ok(setup) => setup,
        Err(fault) => return Err(RaceFault::from(fault)),
    };
    let Setup {
        cluster,
        senders,
        owner,
    } = setup;
    let seats = match seats_of(alloc, &cluster, tasks.readers) {
        Ok(seats) => seats,
        Err(stop) => return Err(RaceFault::from(stop)),
    };
    let shared = Shared::new(rt, alloc, gate);
    let (owner, ran) = run_all(&shared, senders, tasks.lists, owner, seats, tasks.keys);
    if shared.halt.check().is_err() {
        return Err(RaceFault::from(shared.halt.cause()));
    }
    let Given { spent, routes } = match ran {
        Ok(given) => given,
        Err(_) => return Err(RaceFault::from(shared.halt.cause())),
    };
    match close(spent, owner) {
        Ok(board) => Ok(Raced { board, routes }),
        Err(_) => Err(RaceFault::NoMemory),
    }
}

/// Runs a cluster to its end. Each list is posted by a thread of its own in its order, one letter a
/// report, and again while the inbox is full. Each reader routes each key once, in a thread of its own.
/// One owner turns in the caller's thread until all letters are published. The gate is called round
/// each of these steps.
///
/// The board that it gives tells what the opening board and all reports of the lists tell, whatever
/// the schedule. Each reader's routes are by the first course and by boards that only grow. Such a
/// board is the opening board joined with letters, each of which brings a report of the lists.
///
/// The faults of the sizes are tried in this order. `BadSenders` comes unless there are 1 to 64
/// lists, and `BadReaders` if there are more than 64 readers. `BadCapacity` comes unless the inbox
/// has room for 1 to 65536 letters. Then come `NoPlace` if a seat or a look is refused, `NoThread`
/// if a thread cannot be started, and `NoMemory`. No thread of the call is left running.
pub fn race<G: Gate + Sync, R: Threads + Wait + Sync>(
    rt: &R,
    alloc: Global,
    start: Start,
    tasks: Tasks,
    gate: &G,
) -> Result<Raced, RaceFault>
    ensures board { IfOk result (λ r. IsBoardOfReports start.entry.board (lists_of tasks.entry.lists.now) r.board) }
    ensures routes { IfOk result (λ r. AreRoutesOf start.entry tasks.entry r.routes.items) }
    ensures fault { IfErr result (RaceFaultOf (sizes_of tasks.entry)) }
{
    start.known();
    race_in::<Brand, G, R>(rt, alloc, start, tasks, gate)
}
