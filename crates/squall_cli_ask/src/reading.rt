//! Reads files by their names.

ghost use Rattle.std.specs.Prelude.{◌≡◌, ◌≢◌, ◌⊎◌, ◌++◌, ◌∷◌, ◌||◌, ℕ, List, [], true, false, map, string_bytes, Contains, Err, IfErr, IfOk, IsOk, OnOk};
ghost use Rattle.std.specs.List.{list_all, list_any};
ghost use Rattle.squall_cli_device.specs.States.{FoundEnd, GaveAll, GaveBytes, NoReadFails};
ghost use Rattle.squall_cli_lines.specs.Heeding.{InputFails, Says};
ghost use Rattle.squall_cli_boards.specs.Files.{file_with};
ghost use Rattle.squall_cli_ask.specs.Files.{is_input, AddsNames};
ghost use Rattle.squall_cli_ask.specs.Reads.{inputs_at, ReadsFrom, ReadsAll};
ghost use Rattle.squall_cli_ask.specs.Told.{IsTold, IsUnread};
ghost use Rattle.squall_cli_ask.specs.Gathered.{AreRead, IsNextRead, TakesSome};

use crate::console::Console;
use crate::files::Files;
use crate::messages::{tell_fault, tell_file_fault, tell_unopened};
use squall_cli_boards::NamedFile;
use squall_cli_device::Source;
use squall_cli_lines::{RunFault, read_all};
use std::alloc::{AllocError, Global};

/// The bytes of the source of that name, up to its end. If they can't be had, it says why, and gives the
/// status.
fn read_source<S: Source, E: Console>(
    alloc: Global,
    name: &str,
    source: &mut S,
    err: &mut E,
) -> Result<Vec<u8>, u8>
    ensures bytes { (read : List ℕ) × GaveBytes (S.state source.old) (S.state source.new) read × IfOk result (λ bytes. bytes.items ≡ read) }
    ensures all { OnOk result (GaveAll (S.state source.old) (S.state source.new)) }

    // Status 3 comes if a read failed or there were too many. It is the only one after a failed read.
    ensures device { IfErr result (λ status. status ≡ 3 → InputFails (S.state source.old) (S.state source.new)) }
    ensures heeds { result ≢ Err 3 → NoReadFails (S.state source.old) (S.state source.new) }
    ensures fault { IfErr result IsUnread }
    ensures told { IfErr result (λ status. (text : List ℕ) × IsTold (λ file. file ≡ name.now) status text × Says (E.state err.old) (E.state err.new) text) }
    ensures quiet { IsOk result → err.new ≡ err.old }
{
    match read_all(alloc, source) {
        Ok(bytes) => Ok(bytes),
        Err(fault) => Err(tell_file_fault(name, fault, err)),
    }
}

/// The bytes of a file. If they can't be had, it says why, and gives the status.
pub fn read_named<F: Files, S: Source, E: Console>(
    alloc: Global,
    name: &str,
    files: &mut F,
    input: &mut S,
    err: &mut E,
) -> Result<Vec<u8>, u8>
    ensures bytes { (read : List ℕ)
        × ReadsFrom (inputs_at (F.known files.old) (S.state input.old)) (inputs_at (F.known files.new) (S.state input.new)) name.now read
        × IfOk result (λ bytes. (bytes.items ≡ read)
        × ReadsAll (inputs_at (F.known files.old) (S.state input.old)) (inputs_at (F.known files.new) (S.state input.new)) name.now read) }
    ensures once { is_input name.now ≡ false → AddsNames (F.opened files.old) (F.opened files.new) (name.now ∷ []) }
    ensures unopened { is_input name.now ≡ true → F.opened files.new ≡ F.opened files.old }
    ensures ended { is_input name.now ≡ true → IsOk result → FoundEnd (S.state input.old) (S.state input.new) }
    ensures kept { is_input name.now ≡ false → input.new ≡ input.old }
    ensures files { F.known files.new ≡ F.known files.old }
    ensures fault { IfErr result IsUnread }
    ensures device { IfErr result (λ status. status ≡ 3
        → InputFails (S.state input.old) (S.state input.new) ⊎ (is_input name.now ≡ false)) }
    ensures heeds { result ≢ Err 3 → NoReadFails (S.state input.old) (S.state input.new) }
    ensures told { IfErr result (λ status. (text : List ℕ) × IsTold (λ file. file ≡ name.now) status text × Says (E.state err.old) (E.state err.new) text) }
    ensures quiet { IsOk result → err.new ≡ err.old }
{
    if name == "-" {
        return read_source(alloc, name, input, err);
    }
    match files.open(name) {
        Some(mut file) => read_source(alloc, name, &mut file, err),
        None => Err(tell_unopened(name, err)),
    }
}

/// The bytes of the next file. There are none if it is standard input and was named before.
fn read_next<F: Files, S: Source, E: Console>(
    alloc: Global,
    name: &str,
    is_taken: bool,
    files: &mut F,
    input: &mut S,
    err: &mut E,
) -> Result<Vec<u8>, u8>
    ensures bytes { IfOk result (λ bytes. IsNextRead (F.known files.old) (S.state input.old).remaining (S.state input.new).remaining
        is_taken name.now bytes.items) }
    ensures some { TakesSome (S.state input.old).remaining (S.state input.new).remaining }
    ensures ended { is_input name.now ≡ true → is_taken ≡ false → IsOk result → FoundEnd (S.state input.old) (S.state input.new) }
    ensures kept { is_taken ≡ true → input.new ≡ input.old }
    ensures kept_too { is_input name.now ≡ false → input.new ≡ input.old }
    ensures files { F.known files.new ≡ F.known files.old }
    ensures fault { IfErr result IsUnread }
    ensures device { IfErr result (λ status. status ≡ 3
        → ((is_taken ≡ false) × InputFails (S.state input.old) (S.state input.new)) ⊎ (is_input name.now ≡ false)) }
    ensures heeds { result ≢ Err 3 → NoReadFails (S.state input.old) (S.state input.new) }
    ensures told { IfErr result (λ status. (text : List ℕ) × IsTold (λ file. file ≡ name.now) status text × Says (E.state err.old) (E.state err.new) text) }
    ensures quiet { IsOk result → err.new ≡ err.old }
{
    if is_taken && name == "-" {
        return Ok(Vec::new(alloc));
    }
    read_named(alloc, name, files, input, err)
}

/// Whether standard input was named before, or is named now.
fn is_named(is_taken: bool, name: &str) -> bool
    ensures { result ≡ (is_taken || is_input name.now) }
{
    is_taken || name == "-"
}

/// Adds a file of this name and these bytes.
fn add_file(
    alloc: Global,
    name: &str,
    bytes: Vec<u8>,
    files: &mut Vec<NamedFile>,
) -> Result<(), AllocError>
    ensures { OnOk result (files.new.items ≡ files.old.items ++ file_with name.now bytes.items ∷ []) }
{
    let name = String::from_str(alloc, name)?;
    files.push(NamedFile::new(name, bytes))?;
    Ok(())
}

/// The files of these names, in their order. If standard input is named again, it is empty. If a
/// file can't be had, it says why, and gives the status.
pub(crate) fn read_files<F: Files, S: Source, E: Console>(
    alloc: Global,
    names: &[String],
    files: &mut F,
    input: &mut S,
    err: &mut E,
) -> Result<Vec<NamedFile>, u8>
    ensures read { IfOk result (λ read. AreRead (F.known files.old) (S.state input.old).remaining (S.state input.new).remaining
        (map string_bytes names.now) read.items) }
    ensures some { TakesSome (S.state input.old).remaining (S.state input.new).remaining }
    ensures ended { list_any is_input (map string_bytes names.now) ≡ true → IsOk result → FoundEnd (S.state input.old) (S.state input.new) }
    ensures kept { list_any is_input (map string_bytes names.now) ≡ false → input.new ≡ input.old }
    ensures files { F.known files.new ≡ F.known files.old }
    ensures fault { IfErr result IsUnread }
    ensures device { IfErr result (λ status. status ≡ 3 → InputFails (S.state input.old) (S.state input.new)
        ⊎ (list_all is_input (map string_bytes names.now) ≡ false)) }
    ensures heeds { result ≢ Err 3 → NoReadFails (S.state input.old) (S.state input.new) }
    ensures told { IfErr result (λ status. (text : List ℕ) × IsTold (Contains (map string_bytes names.now)) status text
        × Says (E.state err.old) (E.state err.new) text) }
    ensures quiet { IsOk result → err.new ≡ err.old }
{
    let mut read = Vec::new(alloc);
    let mut is_taken = false;
    for name in names {
        let name = name.as_str();
        let bytes = match read_next(alloc, name, is_taken, files, input, err) {
            Ok(bytes) => bytes,
            Err(status) => return Err(status),
        };
        is_taken = is_named(is_taken, name);
        let Ok(()) = add_file(alloc, name, bytes, &mut read) else {
            return Err(tell_fault(RunFault::NoMemory, err));
        };
    }
    Ok(read)
}
