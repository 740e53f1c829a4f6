//! What a partition replies.

ghost use Rattle.std.specs.Prelude.{◌≡◌, ℕ, ◌<◌, ◌≤◌, IsTrue, IfSome, IfNone, option_copied};
ghost use Rattle.squall_plan.specs.Ranges.{owner_of};
ghost use Rattle.squall_part.specs.Parts.{course_of_part};
ghost use Rattle.squall_part.specs.Logs.{gave, last_of};
ghost use Rattle.squall_part.specs.Serving.{IsLastComing, IsReply};

use crate::log::{Log, above, number_of};
use crate::part::Part;
use squall_errand::Reply;
use squall_key::{Key, PartId};

impl Part {
    /// Whether it gave the key by the log's course, which it knows.
    fn gave(&self, log: &Log, key: Key) -> bool
        ensures value { result ≡ gave self.now key log.now }
        ensures number { IsTrue result → 0 < log.now.course.number }
    {
        // The set comes first: few logs have the key, and the board's search takes longer.
        log.given.has(key) && self.knows(log.number())
    }

    /// The log of the last course by which it gave the key. The newest course is tried first, and
    /// none before the one that is found.
    fn last_given(&self, key: Key) -> Option<&Log>
        ensures { option_copied result ≡ last_of (gave self.now key) self.now.logs }
    {
        self.known();
        let mut at = self.logs.len();
        while at > 0 {
            at -= 1;
            if self.gave(&self.logs[at], key) {
                return Some(&self.logs[at]);
            }
        }
        None
    }

    /// The log of the newest course, if its number is above the given one, and if by it the key
    /// comes in and is not loaded. A key that was to come in an earlier course and did not comes no
    /// more.
    fn last_coming(&self, key: Key, after: u32) -> Option<&Log>
        ensures course { IfSome result (λ log. log.now.course ≡ course_of_part self.now) }
        ensures some { IfSome result (λ log. IsLastComing self.now key log.now.course.number × (after < log.now.course.number)) }
        ensures none { IfNone result ((c : ℕ) × IsLastComing self.now key c × (c ≤ after)) }
    {
        self.known();
        let log = &self.logs[self.newest_place()];
        if log.number() <= after {
            return None;
        }
        if !log.awaits(self.id, key) {
            return None;
        }
        Some(log)
    }

    /// The partition of the key by the old plan of the newest course that it knows.
    fn newest_old_owner(&self, key: Key) -> PartId
        ensures { result ≡ owner_of (course_of_part self.now).old key }
    {
        match self.board.newest(self.first.as_arc()) {
            Some((_, issue)) => issue.old().owner(key),
            None => self.first.as_arc().old_owner(key),
        }
    }

    /// The reply to whoever asks for the key after following a `Moved` of the number `after` to
    /// this partition. An `after` of 0 says that no move was followed.
    ///
    /// `Held` if it holds the key. `Pending` if the key comes in by the newest course, is not
    /// loaded, and was not given under that course. `Moved` if it last gave the key under a
    /// number above `after`. `Behind` if `after` lies above every number that it knows. Else
    /// `Elsewhere`. The first of these that is so.
    pub fn serve(&self, key: Key, after: u32) -> Reply
        ensures { IsReply self.now key after result }
    {
        if self.held.has(key) {
            return Reply::Held;
        }
        self.known();
        let given = self.last_given(key);
        if let Some(log) = self.last_coming(key, number_of(given)) {
            return Reply::Pending {
                source: log.course().old_owner(key),
            };
        }
        if let Some(log) = above(given, after) {
            return Reply::Moved {
                dest: log.course().new_owner(key),
                number: log.number(),
            };
        }
        if self.newest_number() < after {
            return Reply::Behind;
        }
        Reply::Elsewhere {
            dest: self.newest_old_owner(key),
        }
    }
}
