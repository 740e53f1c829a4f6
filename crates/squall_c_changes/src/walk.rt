//! A walk along the legs of two tables, by rising key.

ghost use Rattle.std.specs.Prelude.{◌≡◌, ◌<◌, ◌≤◌, ℕ, not};
ghost use Rattle.squall_key.specs.Keys.{top};
ghost use Rattle.squall_c_changes.specs.Walks.{walk_over, walk_at, differs_on, NextChange};

use crate::side::Side;
use squall_c_values::CSpan;
use squall_key::Key;
use squall_table::RouteTable;
use std::marker::Model;

/// A walk along two tables from a rank on, up to another.
///
/// Contracts see both tables, the rank that the walk has reached, and the one at which it ends.
#[derive(Drop)]
pub(crate) struct Walk<'a> {
    old_table: &'a RouteTable,
    new_table: &'a RouteTable,
    before: Side<'a>,
    after: Side<'a>,
    at: u64,
    hi: u64,
}

impl<'a> Model for Walk<'a> {
    ghost use Rattle.squall_c_changes.specs.Walks.{WalkValue, walk_over, IsWalk};

    ghost Value = { WalkValue };

    ghost view = { λ w. walk_over w.old_table.now w.new_table.now w.at w.hi };

    ghost invariant = { λ w. IsWalk (walk_over w.old_table.now w.new_table.now w.at w.hi) w.before w.after };
}

impl<'a> Walk<'a> {
    /// A walk along both tables from the key on, below the rank `hi`.
    pub(crate) fn new(
        old_table: &'a RouteTable,
        new_table: &'a RouteTable,
        from: Key,
        hi: u64,
    ) -> Walk<'a>
        requires order { from ≤ hi }
        requires high { hi ≤ top }
        ensures { result ≡ walk_over old_table.now new_table.now from hi }
    {
        Walk {
            old_table,
            new_table,
            before: Side::from(old_table, from),
            after: Side::from(new_table, from),
            at: from.rank(),
            hi,
        }
    }

    /// Whether the tables differ at the key that the walk has reached.
    fn differs(&self) -> bool
        requires { self.now.at < self.now.hi }
        ensures { result ≡ differs_on self.now self.now.at }
    {
        self.before.part() != self.after.part()
    }

    /// Goes on to the next rank at which one of the tables has another leg, or to the end.
    fn step(&mut self)
        requires { self.old.at < self.old.hi }
        ensures rest { self.new ≡ walk_at self.old self.new.at }
        ensures ahead { self.old.at < self.new.at }
        ensures within { self.new.at ≤ self.old.hi }
        ensures keys { (k : ℕ) → self.old.at ≤ k → k < self.new.at → differs_on self.old k ≡ differs_on self.old self.old.at }
    {
        let end = self.before.end().min(self.after.end()).min(self.hi);
        self.before.pass(end);
        self.after.pass(end);
        self.at = end;
    }

    /// Goes on as long as both tables differ, or as long as they do not.
    fn run(&mut self, differing: bool)
        requires { self.old.at ≤ self.old.hi }
        ensures rest { self.new ≡ walk_at self.old self.new.at }
        ensures ahead { self.old.at ≤ self.new.at }
        ensures within { self.new.at ≤ self.old.hi }
        ensures keys { (k : ℕ) → self.old.at ≤ k → k < self.new.at → differs_on self.old k ≡ differing }
        ensures stops { self.new.at < self.old.hi → differs_on self.old self.new.at ≡ not differing }
    {
        while self.at < self.hi {
            if self.differs() != differing {
                return;
            }
            self.step();
        }
    }

    /// The next longest span in which the tables differ. None if there is none.
    pub(crate) fn next(&mut self) -> Option<CSpan>
        requires { self.old.at ≤ self.old.hi }
        ensures rest { self.new ≡ walk_at self.old self.new.at }
        ensures change { NextChange self.old result self.new.at }
    {
        self.run(false);
        let lo = self.at;
        if lo >= self.hi {
            return None;
        }
        self.run(true);
        Some(CSpan { lo, hi: self.at })
    }
}
