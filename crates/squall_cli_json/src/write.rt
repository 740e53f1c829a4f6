//! Writes parts of an answer, token by token. The text of an answer grows in one buffer, and no
//! tree of values is made.

ghost use Rattle.std.specs.Prelude.{◌≡◌, ◌++◌, ◌∷◌, [], IfOk, OnOk, codes, decimal, string_bytes};
ghost use Rattle.json.specs.Print.{print};
ghost use Rattle.json.specs.Token.{key, string, number, boolean};
ghost use Rattle.squall_key.specs.Keys.{text_of_bound};
ghost use Rattle.squall_cli_json.specs.Tokens.{tokens_of};
ghost use Rattle.squall_cli_json.specs.Values.{json_of_span};

use json::Writer;
use squall_key::{Bound, PartId};
use squall_span::Span;
use std::alloc::AllocError;
use std::fmt::Write;

/// The text of the bound, in room that is kept from bound to bound.
fn text_of(bound: Bound, room: &mut String) -> Result<(), AllocError>
    ensures { OnOk result (string_bytes room.new ≡ text_of_bound bound) }
{
    room.clear();
    write!(room, "{bound}")?;
    Ok(())
}

/// Writes a member of an object that is a bound.
pub(crate) fn write_bound_member(
    writer: &mut Writer,
    room: &mut String,
    name: &str,
    bound: Bound,
) -> Result<(), AllocError>
    ensures tokens { OnOk result (writer.new.tokens ≡ writer.old.tokens ++ key name.now ∷ string (text_of_bound bound) ∷ []) }
    ensures before { writer.new.before ≡ writer.old.before }
{
    text_of(bound, room)?;
    writer.key(name)?;
    writer.string(room)
}

/// Writes the span.
pub(crate) fn write_span(
    writer: &mut Writer,
    room: &mut String,
    span: Span,
) -> Result<(), AllocError>
    ensures tokens { OnOk result (writer.new.tokens ≡ writer.old.tokens ++ tokens_of (json_of_span span)) }
    ensures before { writer.new.before ≡ writer.old.before }
{
    writer.begin_object()?;
    write_bound_member(writer, room, "hi", span.hi())?;
    write_bound_member(writer, room, "lo", span.lo())?;
    writer.end_object()
}

/// Writes a member of an object that is a number.
pub(crate) fn write_count_member(
    writer: &mut Writer,
    name: &str,
    count: u64,
) -> Result<(), AllocError>
    ensures tokens { OnOk result (writer.new.tokens ≡ writer.old.tokens ++ key name.now ∷ number (decimal count) ∷ []) }
    ensures before { writer.new.before ≡ writer.old.before }
{
    writer.key(name)?;
    writer.u64(count)
}

/// Writes a member of an object that is a number of 32 bits.
pub(crate) fn write_number_member(
    writer: &mut Writer,
    name: &str,
    count: u32,
) -> Result<(), AllocError>
    ensures tokens { OnOk result (writer.new.tokens ≡ writer.old.tokens ++ key name.now ∷ number (decimal count) ∷ []) }
    ensures before { writer.new.before ≡ writer.old.before }
{
    write_count_member(writer, name, u64::from(count))
}

/// Writes a member of an object that is a partition.
pub(crate) fn write_part_member(
    writer: &mut Writer,
    name: &str,
    part: PartId,
) -> Result<(), AllocError>
    ensures tokens { OnOk result (writer.new.tokens ≡ writer.old.tokens ++ key name.now ∷ number (decimal part) ∷ []) }
    ensures before { writer.new.before ≡ writer.old.before }
{
    write_number_member(writer, name, part.get())
}

/// Writes a member of an object that is true or false.
pub(crate) fn write_flag_member(
    writer: &mut Writer,
    name: &str,
    flag: bool,
) -> Result<(), AllocError>
    ensures tokens { OnOk result (writer.new.tokens ≡ writer.old.tokens ++ key name.now ∷ boolean flag ∷ []) }
    ensures before { writer.new.before ≡ writer.old.before }
{
    writer.key(name)?;
    writer.boolean(flag)
}

/// Writes a member of an object that is a text.
pub(crate) fn write_text_member(
    writer: &mut Writer,
    name: &str,
    text: &str,
) -> Result<(), AllocError>
    ensures tokens { OnOk result (writer.new.tokens ≡ writer.old.tokens ++ key name.now ∷ string text.now ∷ []) }
    ensures before { writer.new.before ≡ writer.old.before }
{
    writer.key(name)?;
    writer.string(text)
}

/// What was written, as text on a line.
pub(crate) fn written_line(writer: Writer) -> Result<String, AllocError>
    requires { writer.before ≡ [] }
    ensures { IfOk result (λ s. string_bytes s ≡ print writer.tokens ++ codes "\n") }
{
    match String::from_utf8(writer.into_inner()) {
        Ok(text) => {
            let mut text = text;
            text.push_str("\n")?;
            Ok(text)
        }
        Err(_) => Err(AllocError),
    }
}
