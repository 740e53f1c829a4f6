//! What a command answers.

ghost use Rattle.std.specs.Prelude.{◌≡◌, [], false, not, IfOk};
ghost use Rattle.squall_cli_boards.specs.Answers.{answer_of, answer_with, refusing};

use std::alloc::{AllocError, Global};
use std::marker::Model;

/// The bytes to write, whether they refuse what was given, and whether they show a course that is not
/// complete. Contracts see all three.
#[derive(Drop)]
pub struct Answer {
    text: Vec<u8>,
    refused: bool,
    incomplete: bool,
}

impl Model for Answer {
    ghost use Rattle.squall_cli_boards.specs.Answers.{AnswerValue, answer_of};

    ghost Value = { AnswerValue };

    ghost view = { λ a. answer_of a.text.items a.refused a.incomplete };
}

impl Answer {
    /// An answer that refuses nothing.
    pub(crate) fn fine(text: Vec<u8>) -> Answer
        ensures { result ≡ answer_with text.items false }
    {
        Answer {
            text,
            refused: false,
            incomplete: false,
        }
    }

    /// The text as an answer that refuses nothing.
    pub(crate) fn fine_text(alloc: Global, text: &str) -> Result<Answer, AllocError>
        ensures { IfOk result (λ a. a ≡ answer_with text.now false) }
    {
        Ok(Answer::fine(Vec::from_slice(alloc, text.as_bytes())?))
    }

    /// The text of a course as an answer that refuses nothing.
    pub(crate) fn of_course(
        alloc: Global,
        text: &str,
        is_complete: bool,
    ) -> Result<Answer, AllocError>
        ensures { IfOk result (λ a. a ≡ answer_of text.now false (not is_complete)) }
    {
        Ok(Answer {
            text: Vec::from_slice(alloc, text.as_bytes())?,
            refused: false,
            incomplete: !is_complete,
        })
    }

    /// The line as an answer that refuses what was given.
    pub(crate) fn refusing(alloc: Global, line: &str) -> Result<Answer, AllocError>
        ensures { IfOk result (λ a. a ≡ refusing line.now) }
    {
        Answer::of_text(alloc, line, true)
    }

    /// The text as an answer that refuses what was given or not.
    pub fn of_text(alloc: Global, text: &str, refused: bool) -> Result<Answer, AllocError>
        ensures { IfOk result (λ a. a ≡ answer_with text.now refused) }
    {
        let text = Vec::from_slice(alloc, text.as_bytes())?;
        Ok(Answer {
            text,
            refused,
            incomplete: false,
        })
    }

    /// An answer without bytes. It allocates nothing.
    pub(crate) fn silent(alloc: Global, refused: bool) -> Answer
        ensures { result ≡ answer_with [] refused }
    {
        Answer {
            text: Vec::new(alloc),
            refused,
            incomplete: false,
        }
    }

    /// The bytes to write.
    pub fn text(&self) -> &[u8]
        ensures { result.now ≡ self.now.text }
    {
        &self.text
    }

    /// Whether they refuse what was given.
    pub fn is_refused(&self) -> bool
        ensures { result ≡ self.now.refused }
    {
        self.refused
    }

    /// Whether they show a course that is not complete.
    pub fn is_incomplete(&self) -> bool
        ensures { result ≡ self.now.incomplete }
    {
        self.incomplete
    }
}
