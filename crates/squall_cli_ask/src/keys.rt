//! Answers the keys that lines write.

ghost use Rattle.std.specs.Prelude.{◌≡◌, ◌++◌, ◌∷◌, [], ℕ, List, IfOk, string_bytes, refl};
ghost use Rattle.squall_key.specs.Keys.{key_of};
ghost use Rattle.squall_board.specs.Boards.{says};
ghost use Rattle.squall_board.specs.Route.{route};
ghost use Rattle.squall_cli_lines.specs.Words.{words_of};
ghost use Rattle.squall_cli_lines.specs.Script.{PlaysOnly};
ghost use Rattle.squall_cli_ask.specs.Keys.{key_or_bad, key_of_words, key_on_line, keys_script};
ghost use Rattle.squall_cli_ask.specs.Answered.{IsKeyReply};

use squall_cli_boards::Known;
use squall_cli_lines::machine::Machine;
use squall_cli_lines::words::{next_word, without_cr};
use squall_cli_lines::{Flow, LONGEST_LINE};
use squall_cli_words::{Reason, add_bad_line, add_route};
use squall_key::Key;
use std::alloc::AllocError;

/// The key that a word writes.
fn read_key(word: &[u8]) -> Result<Option<Key>, Reason>
    ensures { result ≡ key_or_bad (key_of word.now) }
{
    match Key::read_bytes(word) {
        Some(key) => Ok(Some(key)),
        None => Err(Reason::Word),
    }
}

/// The key that the words write, or none if there is no word.
fn key_of_words(words: &[u8]) -> Result<Option<Key>, Reason>
    ensures { result ≡ key_of_words (words_of words.now) }
{
    let Some((word, rest)) = next_word(words) else {
        return Ok(None);
    };
    match next_word(rest) {
        Some(_) => Err(Reason::Word),
        None => read_key(word),
    }
}

/// The key on a line whose line end is taken off, or none if the line has no word.
fn key_on_line(line: &[u8]) -> Result<Option<Key>, Reason>
    ensures { result ≡ key_on_line line.now }
{
    if line.len() > LONGEST_LINE {
        return Err(Reason::Long);
    }
    key_of_words(line)
}

/// Adds the route of the key on the line of that number, or why the line is bad.
fn answer_key(
    known: &Known,
    number: u64,
    key: Result<Option<Key>, Reason>,
    out: &mut String,
) -> Result<Flow, AllocError>
    ensures { IfOk result (λ flow. (text : List ℕ) × (string_bytes out.new ≡ string_bytes out.old ++ text)
        × IsKeyReply flow text (route known.now.course (says known.now.board)) number key) }
{
    match key {
        Ok(None) => Ok(Flow::On),
        Ok(Some(key)) => {
            add_route(key, known.board.route(&known.course, key), out)?;
            Ok(Flow::On)
        }
        Err(reason) => {
            add_bad_line(number, reason, out)?;
            Ok(Flow::End)
        }
    }
}

/// What answers lines with the routes of the keys that they write.
#[derive(Drop)]
pub(crate) struct Keys {
    /// What the routes follow from.
    pub(crate) known: Known,
    /// How many lines there were, bad and skipped ones too.
    pub(crate) lines: u64,
}

impl Machine for Keys {
    ghost plays = { λ k. PlaysOnly (keys_script (route k.known.course (says k.known.board)) k.lines) };

    ghost silent_at_first = { λ k. refl };

    #[tactic(auto, using(crate::proofs::ByLine::taken_line))]
    fn take(&mut self, line: &[u8], out: &mut String) -> Result<Flow, AllocError> {
        self.lines = self.lines.saturating_add(1);
        answer_key(&self.known, self.lines, key_on_line(without_cr(line)), out)
    }
}
