//! The senders of a race: each posts its list, in a thread of its own.

ghost use Rattle.std.specs.Prelude.{◌≡◌, [], ◌∷◌, ◌++◌, OnOk, IfOk};
ghost use Rattle.std.specs.Thread.{IsSync};
ghost use Rattle.squall_board.specs.Boards.{HasTaken, IsBoard, report_board};
ghost use Rattle.squall_cluster_inbox.specs.Letters.{IsAllowed};
ghost use Rattle.squall_cluster.specs.Race.{Bring, SentAll, Within, Ready, BothReady, lists_of};

use crate::gate::{Actor, Gate, Steps};
use crate::halt::{Off, Stop};
use crate::shared::Shared;
use squall_cluster_inbox::{Constants, Full, Letter, Sender, Spent};
use squall_report::Report;
use std::alloc::AllocError;
use std::snapshot::Snapshot;
use std::sync::Wait;
use std::thread;
use std::thread::{Promise, Threads};

/// The letter that brings one report. It fails if the report is an issue whose count of owners is
/// full.
fn letter_of(report: &Report) -> Result<Letter, AllocError>
    ensures value { IfOk result (λ l. l ≡ report_board report.now) }
    ensures taken { IfOk result (λ l. HasTaken l (report.now ∷ [])) }
    ensures board { IfOk result IsBoard }
{
    let report = report.copied()?;
    Ok(Letter::of(report))
}

/// Leaves the processor to other threads that many times. It answers how many times to do so if the
/// inbox is full again: twice as many, up to 64. A sender that tried again at once would take the
/// inbox's words in memory from the owner, which alone can make room.
fn pause(times: u32) -> u32 {
    for _ in 0..times {
        thread::yield_now();
    }
    times.saturating_mul(2).min(64)
}

/// Posts the letter, again while the inbox is full, unless the race is off.
fn post_one<K: Constants, G: Gate, R: Wait>(
    shared: &Shared<G, R>,
    steps: &mut Steps<'_, G>,
    sender: &mut Sender<K>,
    letter: Letter,
) -> Result<(), Off>
    requires { IsAllowed K.allowed letter }
    ensures end { (sender.new.inbox ≡ sender.old.inbox) × (sender.new.from ≡ sender.old.from) }
    ensures ok { OnOk result (sender.new.posted ≡ sender.old.posted ++ letter ∷ []) }
{
    let mut letter = letter;
    let mut times = 1;
    for _ in shared.rt.forever() {
        shared.halt.check()?;
        steps.begin();
        let posted = sender.post(&shared.rt, letter);
        steps.end();
        match posted {
            Ok(()) => return Ok(()),
            Err(Full(back)) => letter = back,
        }
        times = pause(times);
    }
    unreachable!()
}

/// Posts the whole list, one letter a report, unless the race is off.
fn post_all<K: Constants, G: Gate, R: Wait>(
    shared: &Shared<G, R>,
    mut steps: Steps<'_, G>,
    sender: &mut Sender<K>,
    list: &[Report],
) -> Result<(), Off>
    requires { (sender.old.posted ≡ []) × Within K.allowed list.now }
    ensures end { (sender.new.inbox ≡ sender.old.inbox) × (sender.new.from ≡ sender.old.from) }
    ensures ok { OnOk result (Bring sender.new.posted list.now) }
{
    for report in list {
        let Ok(letter) = letter_of(report) else {
            return Err(shared.stop(Stop::NoMemory));
        };
        post_one(shared, &mut steps, sender, letter)?;
    }
    Ok(())
}

/// Posts the list, and ends the sender.
fn send_one<K: Constants, G: Gate, R: Wait>(
    shared: &Shared<G, R>,
    number: usize,
    mut sender: Sender<K>,
    list: &[Report],
) -> Result<Vec<Spent>, Off>
    requires { (sender.posted ≡ []) × Within K.allowed list.now }
    ensures { IfOk result (λ v. SentAll (sender ∷ []) (list.now ∷ []) v.items) }
{
    let steps = Steps::new(&shared.gate, Actor::Sender(number));
    post_all(shared, steps, &mut sender, list)?;
    let mut spent = Vec::new(shared.alloc);
    match spent.push(sender.end()) {
        Ok(()) => Ok(spent),
        Err(_) => Err(shared.stop(Stop::NoMemory)),
    }
}

/// What a thread of senders promises: at `Ok` each of them has posted its list.
#[derive(Drop)]
pub(crate) struct Sends<'a, K: Constants> {
    pub(crate) senders: Snapshot<Vec<Sender<K>>>,
    pub(crate) lists: &'a [Vec<Report>],
}

impl<'a, K: Constants> Sends<'a, K> {
    /// The promise of these senders, each for its list.
    pub(crate) fn of(senders: &Vec<Sender<K>>, lists: &'a [Vec<Report>]) -> Sends<'a, K>
        ensures senders { result.senders.value ≡ senders.now }
        ensures lists { result.lists ≡ lists.entry }
    {
        Sends {
            senders: Snapshot::of(senders),
            lists,
        }
    }
}

impl<'a, K: Constants> Promise<Result<Vec<Spent>, Off>> for Sends<'a, K> {
    ghost kept_by = { λ p r. IfOk r (λ v. SentAll p.senders.value.items (lists_of p.lists.now) v.items) };
}

/// Each sender posts its list, in a thread of its own. The first of them has this thread.
#[cycle(sending)]
pub(crate) fn send_all<K: Constants + Send + Sync, G: Gate + Sync, R: Threads + Wait + Sync>(
    shared: &Shared<G, R>,
    first: usize,
    mut senders: Vec<Sender<K>>,
    lists: &[Vec<Report>],
) -> Result<Vec<Spent>, Off>
    requires { Ready K.allowed senders.items lists.now }
    ensures { IfOk result (λ v. SentAll senders.items (lists_of lists.now) v.items) }
{
    if senders.len() < 2 {
        return match senders.pop() {
            Some(one) => send_one(shared, first, one, lists[0].as_slice()),
            None => Ok(Vec::new(shared.alloc)),
        };
    }
    let half = senders.len() / 2;
    let Ok(back) = senders.split_off(half) else {
        return Err(shared.stop(Stop::NoMemory));
    };
    let (some, others) = lists.split_at(half);
    send_halves(shared, first, senders, back, some, others)
}

/// The second half of the senders has a thread of its own.
#[cycle(sending)]
fn send_halves<K: Constants + Send + Sync, G: Gate + Sync, R: Threads + Wait + Sync>(
    shared: &Shared<G, R>,
    first: usize,
    front: Vec<Sender<K>>,
    back: Vec<Sender<K>>,
    some: &[Vec<Report>],
    others: &[Vec<Report>],
) -> Result<Vec<Spent>, Off>
    requires { BothReady K.allowed front.items some.now back.items others.now }
    ensures { IfOk result (λ v. SentAll (front.items ++ back.items) (lists_of some.now ++ lists_of others.now) v.items) }
{
    thread::scope(
        thread::scope_env(),
        &shared.rt,
        move |scope| -> Result<Vec<Spent>, Off>
            requires { IsSync R.row × IsSync G.row × BothReady K.allowed front.items some.now back.items others.now }
            ensures { IfOk result (λ v. SentAll (front.items ++ back.items) (lists_of some.entry.now ++ lists_of others.entry.now) v.items) }
        {
            let promise = Sends::of(&back, others);
            let second = first.saturating_add(front.len());
            let Ok(child) = scope.spawn_with(
                promise,
                move || -> Result<Vec<Spent>, Off>
                    requires { IsSync R.row × IsSync G.row × Ready K.allowed back.items others.now }
                    ensures { IfOk result (λ v. SentAll back.items (lists_of others.entry.now) v.items) }
                { send_all(shared, second, back, others) },
            ) else {
                return Err(shared.stop(Stop::NoThread));
            };
            let mine = send_all(shared, first, front, some);
            let theirs = child.join(&shared.rt);
            let mut all = mine?;
            let mut rest = theirs?;
            match all.append(&mut rest) {
                Ok(()) => Ok(all),
                Err(_) => Err(shared.stop(Stop::NoMemory)),
            }
        },
    )
}
