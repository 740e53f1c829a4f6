// What the adapters pass on of readers and writers that end, fail, or take nothing.
ghost use Rattle.std.specs.Prelude.{◌≡◌, IfOk};

use super::{DeviceFault, Reader, Sink, Source, Writer};
use std::io;
use std::io::{ErrorKind, IsTerminal, Read, Write};
use std::test::Fail;

/// Gives and takes one byte at each second call, and is interrupted at each other one.
#[derive(Drop)]
struct Fitful {
    calls: u32,
}

impl Fitful {
    fn turn(&mut self) -> io::Result<usize>
        ensures { IfOk result (λ n. n ≡ 1) }
    {
        self.calls = self.calls.saturating_add(1);
        if self.calls % 2 == 0 {
            Ok(1)
        } else {
            Err(io::Error::from(ErrorKind::Interrupted))
        }
    }
}

impl Read for Fitful {
    fn read(&mut self, buf: &mut [u8]) -> io::Result<usize> {
        if buf.is_empty() {
            return Ok(0);
        }
        self.turn()
    }
}

impl Write for Fitful {
    fn write(&mut self, buf: &[u8]) -> io::Result<usize> {
        if buf.is_empty() {
            return Ok(0);
        }
        self.turn()
    }

    fn flush(&mut self) -> io::Result<()> {
        Ok(())
    }
}

/// Takes no byte.
#[derive(Drop)]
struct Full;

impl Write for Full {
    fn write(&mut self, _buf: &[u8]) -> io::Result<usize> {
        Ok(0)
    }

    fn flush(&mut self) -> io::Result<()> {
        Ok(())
    }
}

/// Takes no byte, and says whether it is a terminal.
#[derive(Drop)]
struct Screen {
    is_there: bool,
}

impl Write for Screen {
    fn write(&mut self, _buf: &[u8]) -> io::Result<usize> {
        Ok(0)
    }

    fn flush(&mut self) -> io::Result<()> {
        Ok(())
    }
}

impl IsTerminal for Screen {
    fn is_terminal(&self) -> bool {
        self.is_there
    }
}

fn first_read<S: Source>(source: &mut S, buf: &mut [u8]) -> Result<usize, DeviceFault> {
    source.read(buf)
}

fn first_write<K: Sink>(sink: &mut K, buf: &[u8]) -> Result<usize, DeviceFault> {
    sink.write(buf)
}

fn is_screen<K: Sink>(sink: &K) -> bool {
    sink.is_terminal()
}

#[test]
fn reads_pass_through(rt: HostRuntime) {
    let text = b"abc";
    let mut reader = Reader::new(text.as_slice());
    let mut room = [0u8; 2];
    assert!(rt; first_read(&mut reader, &mut room) == Ok(2));
    assert!(rt; room == [b'a', b'b']);
    assert!(rt; reader.read(&mut room) == Ok(1));
    assert!(rt; room == [b'c', b'b']);
    assert!(rt; reader.read(&mut room) == Ok(0));
    assert!(rt; reader.reads == 3);
    assert!(rt; reader.ends == 1);
    assert!(rt; reader.faults == 0);
}

/// Each call is one call of what lies below, and answers as that does: none is tried again, and none
/// faults by itself.
#[test]
fn one_call_is_one_call_below(rt: HostRuntime) {
    let mut room = [0u8; 2];
    let mut reader = Reader::new(Fitful { calls: 0 });
    let mut writer = Writer::new(Fitful { calls: 0 });
    for call in 1..=1000u32 {
        let wanted = if call % 2 == 0 {
            Ok(1)
        } else {
            Err(DeviceFault)
        };
        assert!(rt; first_read(&mut reader, &mut room) == wanted);
        assert!(rt; reader.inner.calls == call);
        assert!(rt; first_write(&mut writer, b"ab") == wanted);
        assert!(rt; writer.inner.calls == call);
    }
    assert!(rt; reader.faults == 500);
    assert!(rt; writer.faults == 500);
}

#[test]
fn writes_pass_through(rt: HostRuntime) -> Result<(), Fail> {
    let mut taken = Vec::new(rt.alloc());
    let mut writer = Writer::new(&mut taken);
    assert!(rt; first_write(&mut writer, b"ab") == Ok(2));
    assert!(rt; writer.write(b"c") == Ok(1));
    assert!(rt; taken.as_slice() == b"abc".as_slice());
    let mut full = Writer::new(Full);
    assert!(rt; full.write(b"") == Ok(0));
    assert!(rt; full.empties == 0);
    assert!(rt; full.write(b"a") == Ok(0));
    assert!(rt; full.empties == 1);
    Ok(())
}

/// A writer is a terminal only if it was asked and said so. Writes don't change that.
#[test]
fn terminals_say_so(rt: HostRuntime) {
    assert!(rt; !is_screen(&Writer::new(Screen { is_there: true })));
    for is_there in [false, true] {
        let mut writer = Writer::on_stream(Screen { is_there });
        assert!(rt; is_screen(&writer) == is_there);
        assert!(rt; writer.write(b"a") == Ok(0));
        assert!(rt; is_screen(&writer) == is_there);
    }
}
