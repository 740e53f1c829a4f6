//! Races held up at their gates: the work is done at once, and between the calls of the gate.

use super::moving_key;
use super::races::{LOAD, Setting, three_keys, told_setting, two_list_setting};
use squall_cluster::{Actor, Gate, Raced};
use squall_key::PartId;
use std::alloc::Global;
use std::sync::Wait;
use std::sync::atomic::{AtomicBool, Ordering};
use std::test::Fail;
use std::thread;
use std::thread::Threads;

/// Something that an actor has done, for others to wait for.
#[derive(Drop)]
pub(super) struct Flag {
    set: AtomicBool,
}

impl Flag {
    pub(super) fn new() -> Flag {
        Flag {
            set: AtomicBool::new(false),
        }
    }

    pub(super) fn set(&self) {
        self.set.store(true, Ordering::SeqCst);
    }

    pub(super) fn is_set(&self) -> bool {
        self.set.load(Ordering::SeqCst)
    }

    /// Waits, but not for ever. It says whether the flag was set.
    pub(super) fn wait(&self) -> bool {
        for _ in 0..100000000u64 {
            if self.is_set() {
                return true;
            }
            thread::yield_now();
        }
        false
    }
}

/// Each sender waits for the other, the owner's second turn for the reader, and the reader's first
/// route for that turn. So all have to run at once.
#[derive(Drop)]
struct Meeting {
    senders: [Flag; 2],
    owner: Flag,
    reader: Flag,
    late: Flag,
}

impl Gate for Meeting {
    fn before(&self, actor: Actor, call: u64) {
        let met = match (actor, call) {
            (Actor::Reader(_), 1) => {
                self.reader.set();
                self.owner.wait()
            }
            (Actor::Owner, 2) => self.reader.wait(),
            (Actor::Sender(0), 1) => {
                self.senders[0].set();
                self.senders[1].wait()
            }
            (Actor::Sender(1), 1) => {
                self.senders[1].set();
                self.senders[0].wait()
            }
            _ => true,
        };
        if !met {
            self.late.set();
        }
    }

    fn after(&self, actor: Actor, call: u64) {
        if let (Actor::Owner, 2) = (actor, call) {
            self.owner.set();
        }
    }
}

/// Whether a race of the two lists ends well whose actors have to run at once.
fn meets<R: Threads + Wait + Sync>(
    rt: &R,
    alloc: Global,
    setting: &Setting,
    gate: &Meeting,
) -> Option<bool> {
    let keys = three_keys()?;
    let raced = setting.race(rt, alloc, &keys, 1, 1, gate).ok()?;
    Some(setting.ended_well(&raced, &keys, 1))
}

#[test]
fn all_run_at_once(rt: HostRuntime) -> Result<(), Fail> {
    let gate = Meeting {
        senders: [Flag::new(), Flag::new()],
        owner: Flag::new(),
        reader: Flag::new(),
        late: Flag::new(),
    };
    let setting = two_list_setting(rt.alloc()).ok_or("a setting")?;
    assert!(rt; meets(&rt, rt.alloc(), &setting, &gate) == Some(true) && !gate.late.is_set());
    Ok(())
}

/// The owner's first turn waits for the post, and if `routed_first` is set also for the reader's
/// first route. The reader's route of number `waiting` waits for that turn.
#[derive(Drop)]
struct InOrder {
    posted: Flag,
    published: Flag,
    routed: Flag,
    late: Flag,
    routed_first: bool,
    waiting: u64,
}

impl Gate for InOrder {
    fn before(&self, actor: Actor, call: u64) {
        let met = match (actor, call) {
            (Actor::Owner, 1) => self.posted.wait() && (!self.routed_first || self.routed.wait()),
            (Actor::Reader(_), call) if call == self.waiting => self.published.wait(),
            _ => true,
        };
        if !met {
            self.late.set();
        }
    }

    fn after(&self, actor: Actor, call: u64) {
        match (actor, call) {
            (Actor::Sender(0), 1) => self.posted.set(),
            (Actor::Owner, 1) => self.published.set(),
            (Actor::Reader(_), 1) => self.routed.set(),
            _ => {}
        }
    }
}

/// The first two routes of the first reader.
fn first_routes(raced: &Raced) -> Option<(PartId, PartId)> {
    let routes = raced.routes.first()?;
    Some((*routes.first()?, *routes.get(1)?))
}

/// The reader's two routes of the key that moves.
fn two_routes<R: Threads + Wait + Sync>(
    rt: &R,
    alloc: Global,
    setting: &Setting,
    gate: &InOrder,
) -> Option<(PartId, PartId)> {
    let key = moving_key()?;
    let raced = setting.race(rt, alloc, &[key, key], 1, 1, gate).ok()?;
    first_routes(&raced)
}

/// A gate at which the reader's route of that number waits for the owner's first turn.
fn in_order(waiting: u64) -> InOrder {
    InOrder {
        posted: Flag::new(),
        published: Flag::new(),
        routed: Flag::new(),
        late: Flag::new(),
        routed_first: waiting == 2,
        waiting,
    }
}

/// Two routes, and whether somebody waited for too long.
type Routed = (Option<(PartId, PartId)>, bool);

/// The reader's routes in the setting, if that one of them waits.
fn setting_routes<R: Threads + Wait + Sync>(
    rt: &R,
    alloc: Global,
    setting: &Setting,
    waiting: u64,
) -> Routed {
    let gate = in_order(waiting);
    let routes = two_routes(rt, alloc, setting, &gate);
    (routes, gate.late.is_set())
}

/// A reader sees a turn that has ended, and before that what was published then. The load is in one
/// list; a second list is empty.
#[test]
fn readers_see_what_was_published(rt: HostRuntime) -> Result<(), Fail> {
    let old = PartId::new(1).ok_or("a partition")?;
    let new = PartId::new(3).ok_or("a partition")?;
    let setting = told_setting(rt.alloc(), &[&[LOAD], &[]], &[LOAD]).ok_or("a setting")?;
    for (waiting, first) in [(1, new), (2, old)] {
        let routed = setting_routes(&rt, rt.alloc(), &setting, waiting);
        assert!(rt; routed == (Some((first, new)), false), "{waiting}");
    }
    Ok(())
}
