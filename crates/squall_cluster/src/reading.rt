//! The readers of a race: each routes each key once, in a thread of its own.

ghost use Rattle.std.specs.Prelude.{◌≡◌, ◌+◌, ◌<◌, length, IfOk};
ghost use Rattle.std.specs.Thread.{IsSync};
ghost use Rattle.squall_cluster.specs.Race.{Read, AllRead};

use crate::gate::{Actor, Gate, Steps};
use crate::halt::{Off, Stop};
use crate::shared::Shared;
use squall_cluster_desk::Seat;
use squall_cluster_inbox::Constants;
use squall_key::{Key, PartId};
use std::marker::PhantomData;
use std::sync::Wait;
use std::thread;
use std::thread::{Promise, Threads};

/// Routes each key once. The routes are by letters that only grow.
fn route_all<K: Constants, G: Gate, R>(
    shared: &Shared<G, R>,
    mut steps: Steps<'_, G>,
    mut seat: Seat<K>,
    keys: &[Key],
) -> Result<Vec<PartId>, Off>
    ensures { IfOk result (λ v. Read K.allowed K.first K.opening keys.now v.items) }
{
    let mut routes = Vec::new(shared.alloc);
    for key in keys {
        steps.begin();
        let route = seat.route(*key);
        steps.end();
        let Some(route) = route else {
            return Err(shared.stop(Stop::NoPlace));
        };
        if routes.reserve(1).is_err() {
            return Err(shared.stop(Stop::NoMemory));
        }
        routes.push_reserved(route);
    }
    Ok(routes)
}

/// The routes of one reader, as a list of one.
fn read_one<K: Constants, G: Gate, R>(
    shared: &Shared<G, R>,
    number: usize,
    seat: Seat<K>,
    keys: &[Key],
) -> Result<Vec<Vec<PartId>>, Off>
    ensures { IfOk result (λ v. AllRead K.allowed K.first K.opening keys.now 1 v.items) }
{
    let steps = Steps::new(&shared.gate, Actor::Reader(number));
    let routes = route_all(shared, steps, seat, keys)?;
    let mut all = Vec::new(shared.alloc);
    match all.push(routes) {
        Ok(()) => Ok(all),
        Err(_) => Err(shared.stop(Stop::NoMemory)),
    }
}

/// What a thread of that many readers promises: at `Ok` the routes of each.
#[derive(Drop)]
pub(crate) struct Reads<'a, K> {
    pub(crate) count: usize,
    pub(crate) keys: &'a [Key],
    pub(crate) of: PhantomData<K>,
}

impl<'a, K: Constants> Reads<'a, K> {
    /// The promise of that many readers, each for all of the keys.
    pub(crate) fn of(count: usize, keys: &'a [Key]) -> Reads<'a, K>
        ensures count { result.count ≡ count }
        ensures keys { result.keys ≡ keys.entry }
    {
        Reads {
            count,
            keys,
            of: PhantomData,
        }
    }
}

impl<'a, K: Constants> Promise<Result<Vec<Vec<PartId>>, Off>> for Reads<'a, K> {
    ghost kept_by = { λ p r. IfOk r (λ v. AllRead K.allowed K.first K.opening p.keys.now p.count v.items) };
}

/// Each seat has a thread of its own. The first of them has this thread.
#[cycle(reading)]
pub(crate) fn read_all<K: Constants + Send + Sync, G: Gate + Sync, R: Threads + Wait + Sync>(
    shared: &Shared<G, R>,
    first: usize,
    mut seats: Vec<Seat<K>>,
    keys: &[Key],
) -> Result<Vec<Vec<PartId>>, Off>
    ensures { IfOk result (λ v. AllRead K.allowed K.first K.opening keys.now (length seats.items) v.items) }
{
    if seats.len() < 2 {
        return match seats.pop() {
            Some(one) => read_one(shared, first, one, keys),
            None => Ok(Vec::new(shared.alloc)),
        };
    }
    let half = seats.len() / 2;
    let Ok(back) = seats.split_off(half) else {
        return Err(shared.stop(Stop::NoMemory));
    };
    read_halves(shared, first, seats, back, keys)
}

/// The second half of the seats has a thread of its own.
#[cycle(reading)]
fn read_halves<K: Constants + Send + Sync, G: Gate + Sync, R: Threads + Wait + Sync>(
    shared: &Shared<G, R>,
    first: usize,
    front: Vec<Seat<K>>,
    back: Vec<Seat<K>>,
    keys: &[Key],
) -> Result<Vec<Vec<PartId>>, Off>
    requires both { (0 < length front.items) × (0 < length back.items) }
    ensures { IfOk result (λ v. AllRead K.allowed K.first K.opening keys.now (length front.items + length back.items) v.items) }
{
    thread::scope(
        thread::scope_env(),
        &shared.rt,
        move |scope| -> Result<Vec<Vec<PartId>>, Off>
            requires { IsSync R.row × IsSync G.row × (0 < length front.items) × (0 < length back.items) }
            ensures { IfOk result (λ v. AllRead K.allowed K.first K.opening keys.entry.now (length front.items + length back.items) v.items) }
        {
            let promise = Reads::<K>::of(back.len(), keys);
            let second = first.saturating_add(front.len());
            let Ok(child) = scope.spawn_with(
                promise,
                move || -> Result<Vec<Vec<PartId>>, Off>
                    requires { IsSync R.row × IsSync G.row }
                    ensures { IfOk result (λ v. AllRead K.allowed K.first K.opening keys.entry.now (length back.items) v.items) }
                { read_all(shared, second, back, keys) },
            ) else {
                return Err(shared.stop(Stop::NoThread));
            };
            let mine = read_all(shared, first, front, keys);
            let theirs = child.join(&shared.rt);
            let mut all = mine?;
            let mut rest = theirs?;
            match all.append(&mut rest) {
                Ok(()) => Ok(all),
                Err(_) => Err(shared.stop(Stop::NoMemory)),
            }
        },
    )
}
