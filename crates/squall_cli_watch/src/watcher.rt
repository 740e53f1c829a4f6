//! What is known of a course that is watched, and what is written of the next frames.

ghost use Rattle.std.specs.Prelude.{◌≡◌, ◌≢◌, ◌++◌, ℕ, List, [], IsTrue, IfOk, OnOk, map, string_bytes};
ghost use Rattle.std.specs.List.{concat};
ghost use Rattle.squall_board.specs.Boards.{board_join};
ghost use Rattle.squall_wire.specs.Messages.{body_of};
ghost use Rattle.squall_cli_watch.specs.Changed.{change_in};
ghost use Rattle.squall_status.specs.Summary.{StatusValue};
ghost use Rattle.squall_cli_watch.specs.Watched.{IsNewestStatus, status_shown};
ghost use Rattle.squall_cli_watch.specs.Drawing.{makes, JoinsFrame, JoinsFrames};
ghost use Rattle.squall_cli_watch.specs.Taken.{ShowsNewest, StaysNewest, next_with, plays, TakesFrame, TakesFrames};

use crate::changed::add_change;
use crate::ending::{Next, WatchEnd};
use crate::refusal::add_refusal;
use crate::status::{newest_status, next_with};
use squall_board::{Board, Delta};
use squall_cli_boards::status_text;
use squall_cli_command::WatchAsk;
use squall_course::Course;
use squall_status::Shown;
use squall_wire::laws::lists_make_the_board;
use squall_wire::{Message, WireFault};
use std::alloc::{AllocError, Global};

/// What is known of a course that is watched.
#[derive(Drop)]
pub(crate) struct Watcher {
    /// How the course is watched.
    pub(crate) how: WatchAsk,
    /// The course of the two plans.
    pub(crate) first: Course,
    /// The join of the boards so far.
    pub(crate) board: Board,
    /// The status that was answered last. Empty if none was.
    pub(crate) shown: String,
}

impl Watcher {
    /// Whether a status was answered, and the board has no news for it. It allocates nothing.
    fn knows(&self, delta: &Delta) -> bool
        ensures answered { IsTrue result → string_bytes self.now.shown ≢ [] }
        ensures same { IsTrue result → board_join self.now.board delta.now ≡ self.now.board }
    {
        self.board.known();
        delta.known();
        !self.shown.is_empty() && self.board.covers(delta)
    }

    /// Merges a board, adds what changes of the status, and says whether the watch goes on. A board
    /// without news costs a search for each of its reports.
    fn merge(&mut self, alloc: Global, delta: &Delta, out: &mut Vec<u8>) -> Result<Next, AllocError>
        requires current { ShowsNewest self.old }
        ensures how { OnOk result (self.new.how ≡ self.old.how) }
        ensures first { OnOk result (self.new.first ≡ self.old.first) }
        ensures board { OnOk result (self.new.board ≡ board_join self.old.board delta.now) }
        ensures status { IfOk result (λ next. (status : StatusValue) × IsNewestStatus self.old.first (board_join self.old.board delta.now) status
            × (string_bytes self.new.shown ≡ status_shown self.old.how status) × (next ≡ next_with self.old.how status)) }
        ensures out { OnOk result (out.new.items ≡ out.old.items ++ change_in self.old.how.form (string_bytes self.old.shown) (string_bytes self.new.shown)) }
    {
        if self.knows(delta) {
            return Ok(Next::On);
        }
        self.board.merge(delta)?;
        let status = newest_status(alloc, &self.first, &self.board)?;
        let form = self.how.form;
        let text = status_text(alloc, form, Shown::EachMove, &status)?;
        add_change(form, self.shown.as_bytes(), text.as_bytes(), out)?;
        self.shown = text;
        Ok(next_with(self.how, &status))
    }

    /// Answers a message. A digest is no board, and is refused.
    fn take_message(
        &mut self,
        alloc: Global,
        message: &Message,
        out: &mut Vec<u8>,
    ) -> Result<Next, AllocError>
        requires current { ShowsNewest self.old }
        ensures text { IfOk result (λ next. (text : List ℕ) × (out.new.items ≡ out.old.items ++ text)
            × TakesFrame next text (plays self.old) (plays self.new) (body_of message.now)) }
        ensures board { IfOk result (λ next. JoinsFrame next (makes self.old) (makes self.new) self.new.board (body_of message.now)) }
        ensures first { OnOk result (self.new.first ≡ self.old.first) }
        ensures current { IfOk result (λ next. StaysNewest next self.new) }
    {
        match message {
            Message::Delta(delta) => {
                lists_make_the_board(delta);
                self.merge(alloc, delta, out)
            }
            Message::Digest(_) => {
                add_refusal(alloc, self.how.form, WireFault::Kind, out)?;
                Ok(Next::End(WatchEnd::Refused))
            }
        }
    }

    /// Answers messages that such a fault follows, and then the fault.
    pub(crate) fn take_messages(
        &mut self,
        alloc: Global,
        messages: &[Message],
        fault: Option<WireFault>,
        out: &mut Vec<u8>,
    ) -> Result<Next, AllocError>
        requires current { ShowsNewest self.old }
        ensures texts { IfOk result (λ next. (texts : List (List ℕ)) × (out.new.items ≡ out.old.items ++ concat texts)
            × TakesFrames next texts (plays self.old) (plays self.new) (map body_of messages.now) fault) }
        ensures board { IfOk result (λ next. JoinsFrames next (makes self.old) (makes self.new) self.new.board (map body_of messages.now) fault) }
        ensures first { OnOk result (self.new.first ≡ self.old.first) }
        ensures current { IfOk result (λ next. StaysNewest next self.new) }
    {
        for message in messages {
            match self.take_message(alloc, message, out)? {
                Next::On => {}
                Next::End(end) => return Ok(Next::End(end)),
            }
        }
        match fault {
            Some(fault) => {
                add_refusal(alloc, self.how.form, fault, out)?;
                Ok(Next::End(WatchEnd::Refused))
            }
            None => Ok(Next::On),
        }
    }
}
