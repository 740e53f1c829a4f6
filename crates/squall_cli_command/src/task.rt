//! What words ask for, and why nothing is done.

use crate::form::Form;
use crate::inquiry::Ask;
use crate::stream::Follow;
use std::alloc::AllocError;

/// What the program is to do. Files are as they are named in the words; `-` names standard input.
#[derive(Debug, Drop)]
pub enum Task {
    /// To check the plan of a file.
    Check(Form, String),
    /// To show the course from the plan of the first file to that of the second.
    Course(Form, String, String),
    /// To run the scenario of a file.
    Run(String),
    /// To run the race of a file.
    Race(String),
    /// To answer what is asked of files and words.
    Ask(Ask),
    /// To answer standard input as it comes.
    Stream(Follow),
}

/// Why the words ask for no task.
#[derive(Clone, Copy, Debug, PartialEq, Eq)]
pub enum LineFault {
    /// They ask for help or for the version.
    Help,
    /// They name no command, or have too few or too many words for it.
    Bad,
    /// An allocation failed.
    NoMemory,
}

impl From<AllocError> for LineFault {
    ghost use Rattle.std.specs.Prelude.{◌≡◌};
    ghost use Rattle.squall_cli_command.specs.declared.task.LineFault.TheVariants.{NoMemory};

    ghost from_gives = { λ _ e. e ≡ NoMemory };

    fn from(_e: AllocError) -> LineFault {
        LineFault::NoMemory
    }
}
