//! What the lines of a race file have set up.

ghost use Rattle.std.specs.Prelude.{◌≡◌, map, length, IfOk, OnOk, ◌<◌, []};
ghost use Rattle.squall_cli_race.specs.RaceFiles.{at_start, at_next_line, silent, take_old, take_new, once_planned};
ghost use Rattle.squall_cli_race.specs.RaceFiles.{take_capacity, take_readers, take_senders, with_report, take_post, take_key, take_item};
ghost use Rattle.squall_cli_race.specs.Taken.{Took};

use crate::line::Item;
use squall_cli_words::{Reason, read_plan};
use squall_course::Course;
use squall_key::Key;
use squall_plan::Plan;
use squall_report::Report;
use std::alloc::{AllocError, Global};
use std::marker::Model;
use std::sync::Arc;

/// Which plans are read.
#[derive(Drop)]
pub(crate) enum Stage {
    /// None.
    Unplanned,
    /// The old one.
    Planned(Plan),
    /// Both: the course from the old one to the new one.
    Set(Arc<Course>),
}

/// A line that is bad, and why.
#[derive(Clone, Copy, Debug)]
pub(crate) struct BadLine {
    /// Lines are counted from 1.
    pub(crate) number: u64,
    pub(crate) reason: Reason,
}

/// A race after some lines of its file.
#[derive(Drop)]
pub(crate) struct RaceFile {
    /// How many lines there were, skipped ones too.
    pub(crate) line: u64,
    pub(crate) stage: Stage,
    /// For how many letters the inbox has room, if a line said so.
    pub(crate) capacity: Option<u32>,
    /// How many readers there are, if a line said so.
    pub(crate) readers: Option<u32>,
    /// Whether a line said how many senders there are, or one of them has a report to post.
    pub(crate) settled: bool,
    /// What each sender posts.
    pub(crate) lists: Vec<Vec<Report>>,
    pub(crate) keys: Vec<Key>,
}

impl Model for RaceFile {
    ghost use Rattle.std.specs.Prelude.{map, length};
    ghost use Rattle.squall_cli_race.specs.RaceFiles.{RaceState};
    ghost use Rattle.squall_cli_race.specs.Taken.{plans_seen, IsFirstCourse, FitsCluster};

    ghost Value = { RaceState };

    ghost view = { λ s. record {
      line = s.line;
      plans = plans_seen s.stage;
      capacity = s.capacity;
      readers = s.readers;
      settled = s.settled;
      lists = map (λ l. l.items) s.lists.items;
      keys = s.keys.items;
    } };

    ghost invariant = { λ s. IsFirstCourse s.stage × FitsCluster s.capacity s.readers (length s.lists.items) };
}

/// As many lists as senders, none of which has a report. It fails (memory).
fn silent(alloc: Global, senders: u32) -> Result<Vec<Vec<Report>>, AllocError>
    ensures { IfOk result (λ lists. map (λ l. l.items) lists.items ≡ silent senders) }
{
    let mut lists = Vec::new(alloc);
    for _ in 0..senders {
        lists.push(Vec::new(alloc))?;
    }
    Ok(lists)
}

/// Adds the report at the end of that list. It fails (memory).
fn post(lists: &mut [Vec<Report>], sender: usize, report: Report) -> Result<(), AllocError>
    requires there { sender < length lists.old }
    ensures { OnOk result (map (λ l. l.items) lists.new ≡ with_report sender report (map (λ l. l.items) lists.old)) }
{
    lists[sender].push(report)?;
    Ok(())
}

impl RaceFile {
    /// A race before the first line of its file.
    pub(crate) fn new(alloc: Global) -> Result<RaceFile, AllocError>
        ensures { IfOk result (λ file. file ≡ at_start) }
    {
        Ok(RaceFile {
            line: 0,
            stage: Stage::Unplanned,
            capacity: None,
            readers: None,
            settled: false,
            lists: silent(alloc, 2)?,
            keys: Vec::new(alloc),
        })
    }

    /// Counts one more line.
    pub(crate) fn count_line(&mut self)
        ensures { self.new ≡ at_next_line self.old }
    {
        self.line = self.line.saturating_add(1);
    }

    /// Takes the old plan, which comes before all else.
    pub(crate) fn take_old(&mut self, text: &[u8]) -> Result<Option<Reason>, AllocError>
        ensures { Took result self.new (take_old self.old self.old.plans text.now) }
    {
        let Stage::Unplanned = &self.stage else {
            return Ok(Some(Reason::Order));
        };
        match read_plan(*self.keys.allocator(), text)? {
            Ok(plan) => self.stage = Stage::Planned(plan),
            Err(fault) => return Ok(Some(Reason::Plan(fault))),
        }
        Ok(None)
    }

    /// Takes the new plan, which comes right after the old one.
    pub(crate) fn take_new(&mut self, text: &[u8]) -> Result<Option<Reason>, AllocError>
        ensures { Took result self.new (take_new self.old self.old.plans text.now) }
    {
        let Stage::Planned(old) = &self.stage else {
            return Ok(Some(Reason::Order));
        };
        let alloc = *self.keys.allocator();
        let plan = match read_plan(alloc, text)? {
            Ok(plan) => plan,
            Err(fault) => return Ok(Some(Reason::Plan(fault))),
        };
        let course = Course::first(alloc, old, &plan)?;
        self.stage = Stage::Set(Arc::new(alloc, course)?);
        Ok(None)
    }

    /// Takes for how many letters the inbox has room.
    fn take_capacity(&mut self, capacity: u32) -> Option<Reason>
        ensures { Took (Ok result) self.new (take_capacity self.old self.old.capacity capacity) }
    {
        if self.capacity.is_some() {
            return Some(Reason::Order);
        }
        if capacity == 0 || capacity > 65536 {
            return Some(Reason::Limit);
        }
        self.capacity = Some(capacity);
        None
    }

    /// Takes how many readers there are.
    fn take_readers(&mut self, readers: u32) -> Option<Reason>
        ensures { Took (Ok result) self.new (take_readers self.old self.old.readers readers) }
    {
        if self.readers.is_some() {
            return Some(Reason::Order);
        }
        if readers > 64 {
            return Some(Reason::Limit);
        }
        self.readers = Some(readers);
        None
    }

    /// Takes how many senders there are, before the first report.
    fn take_senders(&mut self, senders: u32) -> Result<Option<Reason>, AllocError>
        ensures { Took result self.new (take_senders self.old self.old.settled senders) }
    {
        if self.settled {
            return Ok(Some(Reason::Order));
        }
        if senders == 0 || senders > 64 {
            return Ok(Some(Reason::Limit));
        }
        self.lists = silent(*self.keys.allocator(), senders)?;
        self.settled = true;
        Ok(None)
    }

    /// Takes a report that a sender posts, if its numbers make a report.
    fn take_post(
        &mut self,
        sender: u32,
        report: Option<Report>,
    ) -> Result<Option<Reason>, AllocError>
        ensures { Took result self.new (take_post self.old sender report) }
    {
        let sender = sender as usize;
        let Some(report) = report else {
            return Ok(Some(Reason::Limit));
        };
        if sender >= self.lists.len() {
            return Ok(Some(Reason::Limit));
        }
        post(&mut self.lists, sender, report)?;
        self.settled = true;
        Ok(None)
    }

    /// Takes a key to route.
    fn take_key(&mut self, key: Key) -> Result<Option<Reason>, AllocError>
        ensures { Took result self.new (take_key self.old key) }
    {
        self.keys.push(key)?;
        Ok(None)
    }

    /// Takes an item.
    fn take_item(&mut self, item: Item) -> Result<Option<Reason>, AllocError>
        ensures { Took result self.new (take_item self.old item) }
    {
        match item {
            Item::Capacity(n) => Ok(self.take_capacity(n)),
            Item::Readers(n) => Ok(self.take_readers(n)),
            Item::Senders(n) => self.take_senders(n),
            Item::Post { sender, report } => self.take_post(sender, report.report()),
            Item::Ask(key) => self.take_key(key),
        }
    }

    /// Takes an item once both plans are read.
    pub(crate) fn take_in_order(&mut self, item: Item) -> Result<Option<Reason>, AllocError>
        ensures { Took result self.new (once_planned self.old.plans (take_item self.old item)) }
    {
        match &self.stage {
            Stage::Set(_) => self.take_item(item),
            Stage::Unplanned | Stage::Planned(_) => Ok(Some(Reason::Order)),
        }
    }
}
