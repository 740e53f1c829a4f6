//! What refuses files, as lines and as JSON.

ghost use Rattle.std.specs.Prelude.{◌≡◌, IfOk, string_bytes};
ghost use Rattle.squall_cli_json.specs.Values.{json_line, json_of_refusal};
ghost use Rattle.squall_cli_boards.specs.Files.{refused_file, refusal_with};
ghost use Rattle.squall_cli_boards.specs.Answers.{refusing, refusing_file, refusing_plan};

use crate::answer::Answer;
use squall_cli_command::Form;
use squall_cli_json::refusal_json;
use squall_plan::PlanFault;
use squall_wire::WireFault;
use std::alloc::{AllocError, Global};
use std::marker::Model;

/// Why a file of frames is refused. Contracts see its name as bytes, and its fault.
#[derive(Drop)]
pub(crate) struct FileRefusal {
    name: String,
    fault: WireFault,
}

impl Model for FileRefusal {
    ghost use Rattle.std.specs.Prelude.{string_bytes};
    ghost use Rattle.squall_cli_boards.specs.Files.{RefusalValue, refusal_with};

    ghost Value = { RefusalValue };

    ghost view = { λ r. refusal_with (string_bytes r.name) r.fault };
}

impl FileRefusal {
    /// The file of that name has the fault.
    pub(crate) fn new(
        alloc: Global,
        name: &str,
        fault: WireFault,
    ) -> Result<FileRefusal, AllocError>
        ensures { IfOk result (λ r. r ≡ refusal_with name.now fault) }
    {
        let name = String::from_str(alloc, name)?;
        Ok(FileRefusal { name, fault })
    }

    /// The line that refuses the file.
    pub(crate) fn line(&self, alloc: Global) -> Result<String, AllocError>
        ensures { IfOk result (λ line. string_bytes line ≡ refused_file self.now.name self.now.fault) }
    {
        let name = self.name.as_str();
        let fault = self.fault;
        format!(in alloc; "refused {name} {fault}\n")
    }

    /// The answer that refuses the file.
    pub(crate) fn answer(&self, alloc: Global, form: Form) -> Result<Answer, AllocError>
        ensures { IfOk result (λ a. a ≡ refusing_file form self.now) }
    {
        match form {
            Form::Lines => Answer::refusing(alloc, self.line(alloc)?.as_str()),
            Form::Json => {
                let fault = self.fault;
                let fault = format!(in alloc; "{fault}")?;
                refusing_json(alloc, self.name.as_str(), fault.as_str())
            }
        }
    }
}

/// The JSON object that refuses something, as an answer.
pub(crate) fn refusing_json(alloc: Global, what: &str, fault: &str) -> Result<Answer, AllocError>
    ensures { IfOk result (λ a. a ≡ refusing (json_line (json_of_refusal what.now fault.now))) }
{
    let text = refusal_json(alloc, what, fault)?;
    Answer::refusing(alloc, text.as_str())
}

/// The answer that refuses a plan, of which `which` says whether it is the old or the new one.
pub(crate) fn refused_plan(
    alloc: Global,
    form: Form,
    which: &str,
    fault: PlanFault,
) -> Result<Answer, AllocError>
    ensures { IfOk result (λ a. a ≡ refusing_plan form which.now fault) }
{
    match form {
        Form::Lines => {
            let line = format!(in alloc; "refused {which} {fault}\n")?;
            Answer::refusing(alloc, line.as_str())
        }
        Form::Json => {
            let fault = format!(in alloc; "{fault}")?;
            refusing_json(alloc, which, fault.as_str())
        }
    }
}
