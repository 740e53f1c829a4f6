//! Sends what is to go out to a sink.
ghost use Rattle.std.specs.Prelude.{◌≡◌, ℕ, [], length, take, string_bytes, IfErr, OnOk, OnErr};
ghost use Rattle.squall_cli_device.specs.States.{TookBytes, OutputFails, NoWriteFails};
ghost use Rattle.squall_cli_lines.specs.Heeding.{HeedsWrites};

use super::RunFault;
use squall_cli_device::{DeviceFault, Sink};

/// Writes all the bytes. After a fault the writer took a prefix of them, and it failed or took no
/// byte of some.
pub fn send<K: Sink>(writer: &mut K, bytes: &[u8]) -> Result<(), DeviceFault>
    ensures ok { OnOk result (TookBytes (K.state writer.old) (K.state writer.new) bytes.now) }
    ensures err { OnErr result ((n : ℕ) × TookBytes (K.state writer.old) (K.state writer.new) (take n bytes.now)) }
    ensures uncounted { OnOk result (NoWriteFails (K.state writer.old) (K.state writer.new)) }
    ensures counted { OnErr result (OutputFails (K.state writer.old) (K.state writer.new)) }
{
    let mut rest = bytes;
    while !rest.is_empty() {
        let n = writer.write(rest)?;
        if n == 0 {
            return Err(DeviceFault);
        }
        rest = &rest[n..];
    }
    Ok(())
}

/// Writes the text. After a fault, which is always `Write`, the writer took a prefix of the text,
/// and it failed or took no byte of some.
pub fn send_text<K: Sink>(writer: &mut K, text: &str) -> Result<(), RunFault>
    ensures ok { OnOk result (TookBytes (K.state writer.old) (K.state writer.new) text.now) }
    ensures err { OnErr result ((n : ℕ) × TookBytes (K.state writer.old) (K.state writer.new) (take n text.now)) }
    ensures only { IfErr result (λ e. e ≡ RunFault.Write) }
    ensures heeds { HeedsWrites result (K.state writer.old) (K.state writer.new) }
{
    match send(writer, text.as_bytes()) {
        Ok(()) => Ok(()),
        Err(DeviceFault) => Err(RunFault::Write),
    }
}

/// Writes the text, and empties it. After a fault the writer took a prefix of the text.
pub fn flush<K: Sink>(writer: &mut K, out: &mut String) -> Result<(), RunFault>
    ensures ok { OnOk result (TookBytes (K.state writer.old) (K.state writer.new) (string_bytes out.old)) }
    ensures empty { OnOk result (string_bytes out.new ≡ []) }
    ensures err { OnErr result ((n : ℕ) × TookBytes (K.state writer.old) (K.state writer.new) (take n (string_bytes out.old))) }
    ensures only { IfErr result (λ e. e ≡ RunFault.Write) }
    ensures heeds { HeedsWrites result (K.state writer.old) (K.state writer.new) }
{
    if send(writer, out.as_bytes()).is_err() {
        return Err(RunFault::Write);
    }
    out.clear();
    Ok(())
}
