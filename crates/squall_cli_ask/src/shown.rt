//! Names of files and words as messages show them.

ghost use Rattle.std.specs.Prelude.{◌≡◌, ◌<◌, ℕ, take, IfErr, OnOk, OnErr};
ghost use Rattle.std.specs.List.{list_all};
ghost use Rattle.squall_cli_device.specs.States.{TookBytes, OutputFails, NoWriteFails};
ghost use Rattle.squall_cli_lines.specs.Heeding.{HeedsWrites};
ghost use Rattle.squall_cli_ask.specs.Shown.{is_plain, hex_digit, shown_byte, shown};

use squall_cli_device::{DeviceFault, Sink};
use squall_cli_lines::{RunFault, send, send_text};

/// Whether the byte is shown as it is: it is no control character, and no backslash.
fn is_plain(byte: u8) -> bool
    ensures { result ≡ is_plain byte }
{
    byte >= b' ' && byte != 0x7f && byte != b'\\'
}

/// Whether each of the bytes is shown as it is.
fn are_plain(bytes: &[u8]) -> bool
    ensures { result ≡ list_all is_plain bytes.now }
{
    for byte in bytes {
        if !is_plain(*byte) {
            return false;
        }
    }
    true
}

/// The hex digit of a number below 16.
fn hex_digit(n: u8) -> u8
    requires { n < 16 }
    ensures { result ≡ hex_digit n }
{
    if n < 10 { b'0' + n } else { b'a' + (n - 10) }
}

/// Writes the byte as it is shown.
fn send_byte<E: Sink>(byte: u8, err: &mut E) -> Result<(), DeviceFault>
    ensures ok { OnOk result (TookBytes (E.state err.old) (E.state err.new) (shown_byte byte)) }
    ensures err { OnErr result ((n : ℕ) × TookBytes (E.state err.old) (E.state err.new) (take n (shown_byte byte))) }
    ensures uncounted { OnOk result (NoWriteFails (E.state err.old) (E.state err.new)) }
    ensures counted { OnErr result (OutputFails (E.state err.old) (E.state err.new)) }
{
    if is_plain(byte) {
        return send(err, &[byte]);
    }
    send(
        err,
        &[b'\\', b'x', hex_digit(byte / 16), hex_digit(byte % 16)],
    )
}

/// Writes the bytes as they are shown.
fn send_bytes<E: Sink>(bytes: &[u8], err: &mut E) -> Result<(), RunFault>
    ensures ok { OnOk result (TookBytes (E.state err.old) (E.state err.new) (shown bytes.now)) }
    ensures err { OnErr result ((n : ℕ) × TookBytes (E.state err.old) (E.state err.new) (take n (shown bytes.now))) }
    ensures only { IfErr result (λ e. e ≡ RunFault.Write) }
    ensures heeds { HeedsWrites result (E.state err.old) (E.state err.new) }
{
    for byte in bytes {
        if send_byte(*byte, err).is_err() {
            return Err(RunFault::Write);
        }
    }
    Ok(())
}

/// Writes a text in which each control character and each backslash is shown as `\x` and two hex
/// digits. After a fault, which is always `Write`, the writer took a prefix of that.
pub(crate) fn send_shown<E: Sink>(text: &str, err: &mut E) -> Result<(), RunFault>
    ensures ok { OnOk result (TookBytes (E.state err.old) (E.state err.new) (shown text.now)) }
    ensures err { OnErr result ((n : ℕ) × TookBytes (E.state err.old) (E.state err.new) (take n (shown text.now))) }
    ensures only { IfErr result (λ e. e ≡ RunFault.Write) }
    ensures heeds { HeedsWrites result (E.state err.old) (E.state err.new) }
{
    if are_plain(text.as_bytes()) {
        return send_text(err, text);
    }
    send_bytes(text.as_bytes(), err)
}
