//! Why something is refused, as JSON.

ghost use Rattle.std.specs.Prelude.{◌≡◌, ◌++◌, IfOk, OnOk, string_bytes};
ghost use Rattle.squall_cli_json.specs.Tokens.{tokens_of};
ghost use Rattle.squall_cli_json.specs.Values.{json_line, json_of_refusal};

use crate::write::{write_text_member, written_line};
use json::Writer;
use std::alloc::{AllocError, Global};

/// Writes what is refused, and its fault.
fn write_refusal(writer: &mut Writer, what: &str, fault: &str) -> Result<(), AllocError>
    ensures tokens { OnOk result (writer.new.tokens ≡ writer.old.tokens ++ tokens_of (json_of_refusal what.now fault.now)) }
    ensures before { writer.new.before ≡ writer.old.before }
{
    writer.begin_object()?;
    write_text_member(writer, "fault", fault)?;
    write_text_member(writer, "refused", what)?;
    writer.end_object()
}

/// What is refused, and its fault, as a JSON object on a line. The error comes if an allocation
/// failed.
pub fn refusal_json(alloc: Global, what: &str, fault: &str) -> Result<String, AllocError>
    ensures { IfOk result (λ s. string_bytes s ≡ json_line (json_of_refusal what.now fault.now)) }
{
    let mut writer = Writer::new(Vec::new(alloc));
    write_refusal(&mut writer, what, fault)?;
    written_line(writer)
}
