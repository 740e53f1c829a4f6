//! What refuses an input.

ghost use Rattle.std.specs.Prelude.{◌≡◌, ◌++◌, IfOk, OnOk, string_bytes};
ghost use Rattle.squall_wire.specs.declared.fault.WireFault.TheVariants.{Short};
ghost use Rattle.squall_cli_watch.specs.Watched.{refused_frame};

use squall_cli_command::Form;
use squall_cli_json::refusal_json;
use squall_wire::WireFault;
use std::alloc::{AllocError, Global};

/// What refuses the input for a fault.
fn refusal(alloc: Global, form: Form, fault: WireFault) -> Result<String, AllocError>
    ensures { IfOk result (λ text. string_bytes text ≡ refused_frame form fault) }
{
    match form {
        Form::Lines => format!(in alloc; "refused - {fault}\n"),
        Form::Json => {
            let fault = format!(in alloc; "{fault}")?;
            refusal_json(alloc, "-", fault.as_str())
        }
    }
}

/// Adds what refuses the input for a fault.
pub(crate) fn add_refusal(
    alloc: Global,
    form: Form,
    fault: WireFault,
    out: &mut Vec<u8>,
) -> Result<(), AllocError>
    ensures { OnOk result (out.new.items ≡ out.old.items ++ refused_frame form fault) }
{
    let text = refusal(alloc, form, fault)?;
    out.extend_from_slice(text.as_bytes())
}

/// What refuses an input that ends within a frame.
pub(crate) fn unfinished(form: Form) -> &'static [u8]
    ensures { result.now ≡ refused_frame form Short }
{
    match form {
        Form::Lines => b"refused - Short\n",
        Form::Json => b"{\"fault\":\"Short\",\"refused\":\"-\"}\n",
    }
}
