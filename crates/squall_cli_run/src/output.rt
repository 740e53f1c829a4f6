//! Writes an output whose text is ready.

ghost use Rattle.std.specs.Prelude.{◌≢◌, ℕ, List, Err};
ghost use Rattle.squall_cli_device.specs.States.{TookBytes};
ghost use Rattle.squall_cli_lines.specs.Heeding.{HeedsWrites};
ghost use Rattle.squall_cli_run.specs.Output.{Output, IsReady, IsWritten};

use squall_cli_device::Sink;
use squall_cli_lines::{Ended, RunFault, send_text};

/// Writes the text, and answers what it ended in. After a write fault the writer took a prefix of
/// it.
pub(crate) fn write_output<K: Sink>(
    writer: &mut K,
    ended: Ended,
    text: &str,
) -> Result<Ended, RunFault>
    ensures written { (output : Output) → IsReady ended text.now output
        → (written : List ℕ) × TookBytes (K.state writer.old) (K.state writer.new) written × IsWritten result output written }
    ensures unread { result ≢ Err RunFault.Read }
    ensures heeds_writes { HeedsWrites result (K.state writer.old) (K.state writer.new) }
{
    match send_text(writer, text) {
        Ok(()) => Ok(ended),
        Err(_) => Err(RunFault::Write),
    }
}
