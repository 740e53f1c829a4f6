//! What changes from one text to the next.

ghost use Rattle.std.specs.Prelude.{◌≡◌, ◌++◌, ◌∷◌, [], ℕ, List, OnOk, if◌then◌else◌};
ghost use Rattle.squall_cli_lines.specs.Lines.{lines_of};
ghost use Rattle.squall_cli_watch.specs.Changed.{changed, changed_text, text_unless_same, change_in};

use squall_cli_command::Form;
use squall_cli_lines::next_line;
use std::alloc::AllocError;

/// Whether the first line of a text is this one, and the text after its first line.
fn compare_first<'a>(text: &'a [u8], line: &[u8]) -> (bool, &'a [u8])
    ensures { (lines : List (List ℕ)) → changed (lines_of text.now) (line.now ∷ lines)
        ≡ (if result.0 then [] else line.now ∷ []) ++ changed (lines_of result.1.now) lines }
{
    match next_line(text) {
        Some((first, rest)) => (first == line, rest),
        None => (false, text),
    }
}

/// Adds the line with its LF.
fn add_line(line: &[u8], out: &mut Vec<u8>) -> Result<(), AllocError>
    ensures { OnOk result (out.new.items ≡ out.old.items ++ line.now ++ 10 ∷ []) }
{
    out.extend_from_slice(line)?;
    out.extend_from_slice(b"\n")
}

/// Adds the lines of `after` that differ from the line of `before` at the same place.
fn add_changed(before: &[u8], after: &[u8], out: &mut Vec<u8>) -> Result<(), AllocError>
    ensures { OnOk result (out.new.items ≡ out.old.items ++ changed_text before.now after.now) }
{
    let mut earlier = before;
    let mut rest = after;
    while let Some((line, others)) = next_line(rest) {
        let (is_same, later) = compare_first(earlier, line);
        if !is_same {
            add_line(line, out)?;
        }
        earlier = later;
        rest = others;
    }
    Ok(())
}

/// Adds `after` if it is not `before`.
fn add_unless_same(before: &[u8], after: &[u8], out: &mut Vec<u8>) -> Result<(), AllocError>
    ensures { OnOk result (out.new.items ≡ out.old.items ++ text_unless_same before.now after.now) }
{
    if before == after {
        return Ok(());
    }
    out.extend_from_slice(after)
}

/// Adds what changes from `before` to `after`: the lines of `after` that differ from the line at the
/// same place, or the JSON object if it is another. An error means that an allocation failed.
pub(crate) fn add_change(
    form: Form,
    before: &[u8],
    after: &[u8],
    out: &mut Vec<u8>,
) -> Result<(), AllocError>
    ensures { OnOk result (out.new.items ≡ out.old.items ++ change_in form before.now after.now) }
{
    match form {
        Form::Lines => add_changed(before, after, out),
        Form::Json => add_unless_same(before, after, out),
    }
}
