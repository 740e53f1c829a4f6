//! The program: does what its words ask for, over the files of the system.
//!
//! Its status is 0 if all went well, and 1 if the input was refused. It is 2 if the words ask for
//! nothing that there is, 3 if a device failed and 4 if an allocation failed. Standard error says
//! what stopped it. `squall status --exit-status` ends with 5 if the course is not complete. If nobody
//! reads the output any more, the status is 141, and standard error says nothing. Frames are not written
//! to a terminal: the status is then 2.
#![tactic(auto)]

ghost use Rattle.std.specs.Prelude.{◌≡◌, ◌≢◌, IfErr, IfOk, map, string_bytes};
ghost use Rattle.std.specs.IoError.{error_kind};
ghost use Rattle.squall_cli_run.specs.Line.{words_of};

mod build;
mod system;

use build::TITLE;
use squall_cli_run::{Program, Reader, Writer};
use std::alloc::{AllocError, Global};
use std::io::ErrorKind;
use std::process::ExitCode;
use std::sync::Wait;
use std::thread::Threads;
use std::{env, io};
use system::{Failure, Kept, Messages, Outlet, Output, SystemFiles};

/// The status if the words are no UTF-8, or ask for frames on a terminal.
const BAD_WORDS: u8 = 2;

/// The status if a device failed.
const DEVICE: u8 = 3;

/// The status if there was no memory for the words.
const NO_MEMORY: u8 = 4;

/// The status if nobody reads the output any more: that of a program which SIGPIPE ends.
const UNREAD: u8 = 141;

/// The words that the program was started with.
fn words_given(rt: &HostRuntime) -> io::Result<Vec<String>> {
    let mut words = Vec::new(rt.alloc());
    for word in env::args(rt)? {
        words.push(word)?;
    }
    Ok(words)
}

/// The words as texts.
fn texts<'a>(alloc: Global, words: &'a [String]) -> Result<Vec<&'a str>, AllocError>
    ensures { IfOk result (λ texts. words_of texts.items ≡ map string_bytes words.entry.now) }
{
    let mut texts = Vec::new(alloc);
    for word in words {
        texts.push(word.as_str())?;
    }
    Ok(texts)
}

/// The status of a task by what standard output came to: if a write failed, 141 if nobody reads it any
/// more, and 2 if it is a terminal and frames were to be written to it.
fn status_for(status: u8, outlet: Outlet) -> u8
    ensures other { status ≢ 3 → result ≡ status }
    ensures open { outlet ≡ Outlet.Open → result ≡ status }
    ensures unread { status ≡ 3 → outlet ≡ Outlet.Unread → result ≡ 141 }
    ensures terminal { status ≡ 3 → outlet ≡ Outlet.Terminal → result ≡ 2 }
{
    if status != DEVICE {
        return status;
    }
    match outlet {
        Outlet::Open => status,
        Outlet::Unread => UNREAD,
        Outlet::Terminal => BAD_WORDS,
    }
}

/// Does what the words ask for, and gives the status. A race starts its threads by `threads`, and
/// waits for them. If nobody reads the output any more, the status alone says it.
fn run<R: Threads + Wait + Sync>(rt: &HostRuntime, threads: &R) -> io::Result<u8> {
    let given = words_given(rt)?;
    let words = texts(rt.alloc(), &given)?;
    let failure = Failure::new();
    let mut files = SystemFiles::new(rt, &failure);
    let mut input = Reader::new(Kept::new(rt.stdin(), &failure));
    let mut out = Writer::new(Output::new(rt.stdout(), &failure));
    let mut err = Messages::new(rt.stderr(), &failure);
    let program = Program {
        alloc: rt.alloc(),
        title: TITLE,
    };
    let status = program.perform(threads, &words, &mut files, &mut input, &mut out, &mut err);
    Ok(status_for(status, failure.outlet()))
}

/// The status byte: that of what was done, or that of the error that kept the words away.
fn status(done: &io::Result<u8>) -> u8
    ensures done { IfOk done.now (λ status. result ≡ status) }
    ensures memory { IfErr done.now (λ error. error_kind error ≡ ErrorKind.OutOfMemory → result ≡ 4) }
    ensures words { IfErr done.now (λ error. error_kind error ≢ ErrorKind.OutOfMemory → result ≡ 2) }
{
    match done {
        Ok(status) => *status,
        Err(error) if error.kind() == ErrorKind::OutOfMemory => NO_MEMORY,
        Err(_) => BAD_WORDS,
    }
}

/// Says what kept the words away. If standard error fails too, only the status says it.
fn tell(rt: &HostRuntime, error: &io::Error) {
    let text = if error.kind() == ErrorKind::OutOfMemory {
        "squall: no memory"
    } else {
        "squall: the words are no UTF-8"
    };
    let _ = eprintln!(rt; "{text}");
}

fn main(rt: HostRuntime) -> ExitCode {
    // The runtime is a handle for threads in `main` alone.
    let done = run(&rt, &rt);
    if let Err(error) = &done {
        tell(&rt, error);
    }
    ExitCode::from(status(&done))
}
