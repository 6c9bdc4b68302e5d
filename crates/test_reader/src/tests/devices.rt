//! Devices made of the standard library's readers and writers.
ghost use Rattle.std.specs.Prelude.{◌≡◌, false};

use sno_io::{Device, DeviceFault, Sink, Source, put};
use std::alloc::Global;
use std::io::{self, BufWriter, ErrorKind, Read, Write};
use std::process::Abort;
use std::test::Fail;

const TEXT: &[u8] = b"several bytes";

/// Takes `at_once` bytes at a time and `room` in all. Where it is full it takes none, or answers an `Err`.
#[derive(Drop)]
struct Narrow {
    taken: Vec<u8>,
    at_once: usize,
    room: usize,
    takes_none: bool,
    flushes: usize,
}

fn narrow_device(alloc: Global, at_once: usize, room: usize, takes_none: bool) -> Device<Narrow>
    ensures { result.has_failed ≡ false }
{
    Device::new(Narrow {
        taken: Vec::new(alloc),
        at_once,
        room,
        takes_none,
        flushes: 0,
    })
}

impl Write for Narrow {
    fn write(&mut self, bytes: &[u8]) -> io::Result<usize> {
        let count = bytes.len().min(self.at_once).min(self.room);
        if count == 0 && !self.takes_none {
            return Err(ErrorKind::BrokenPipe.into());
        }
        self.taken.extend_from_slice(&bytes[..count])?;
        self.room -= count;
        Ok(count)
    }

    fn flush(&mut self) -> io::Result<()> {
        self.flushes = self.flushes.saturating_add(1);
        if self.room == 0 {
            Err(ErrorKind::BrokenPipe.into())
        } else {
            Ok(())
        }
    }
}

/// Puts the text into a writer with so much room: all of it is taken, or a beginning.
fn check_put<R: Abort + AllocGlobal>(rt: &R, at_once: usize, room: usize, takes_none: bool) {
    let mut device = narrow_device(rt.alloc(), at_once, room, takes_none);
    let done = put(&mut device, TEXT);
    let fits = room >= TEXT.len();
    assert!(rt; done.is_ok() == fits, "at {room}");
    assert!(rt; Sink::failed(&device) == !fits, "at {room}");
    let taken = device.into_inner().taken;
    assert!(rt;
        taken.as_slice() == &TEXT[..room.min(TEXT.len())],
        "at {room}"
    );
}

#[test]
fn puts_all_or_a_beginning(rt: HostRuntime) {
    for room in 0..TEXT.len() + 2 {
        for at_once in &[1, 2, 5, 100] {
            check_put(&rt, *at_once, room, false);
            check_put(&rt, *at_once, room, true);
        }
    }
}

#[test]
fn puts_into_memory(rt: HostRuntime) -> Result<(), Fail> {
    let mut device = Device::new(Vec::new(rt.alloc()));
    put(&mut device, b"one, ")?;
    put(&mut device, b"")?;
    put(&mut device, b"two")?;
    assert!(rt; device.into_inner().as_slice() == b"one, two".as_slice());
    Ok(())
}

#[test]
fn reads_to_the_end(rt: HostRuntime) -> Result<(), Fail> {
    let bytes: &[u8] = b"abc";
    let mut device = Device::new(bytes);
    let mut buf = [0; 2];
    let counts = (device.read(&mut buf)?, buf);
    assert!(rt; counts.0 == 2 && counts.1 == [97, 98]);
    let count = device.read(&mut buf)?;
    assert!(rt; count == 1 && buf[0] == 99);
    let count = device.read(&mut buf)?;
    assert!(rt; count == 0 && !Source::failed(&device));
    Ok(())
}

/// A reader that fails at its first read.
#[derive(Drop)]
struct Broken;

impl Read for Broken {
    fn read(&mut self, _buf: &mut [u8]) -> io::Result<usize> {
        Err(ErrorKind::PermissionDenied.into())
    }
}

#[test]
fn keeps_a_read_fault(rt: HostRuntime) {
    let mut device = Device::new(Broken);
    assert!(rt; device.read(&mut [0; 4]) == Err(DeviceFault));
    assert!(rt; Source::failed(&device));
}

/// A reader or writer that is interrupted so often before each call that it answers.
#[derive(Drop)]
struct Interrupted<T> {
    inner: T,
    times: usize,
    asked: usize,
}

impl<T> Interrupted<T> {
    fn new(inner: T, times: usize) -> Interrupted<T> {
        Interrupted {
            inner,
            times,
            asked: 0,
        }
    }

    /// Whether this call is interrupted.
    fn interrupts(&mut self) -> bool {
        if self.asked < self.times {
            self.asked += 1;
            return true;
        }
        self.asked = 0;
        false
    }
}

impl<T: Read> Read for Interrupted<T> {
    fn read(&mut self, buf: &mut [u8]) -> io::Result<usize> {
        if self.interrupts() {
            return Err(ErrorKind::Interrupted.into());
        }
        let len = buf.len().min(1);
        self.inner.read(&mut buf[..len])
    }
}

impl<T: Write> Write for Interrupted<T> {
    fn write(&mut self, bytes: &[u8]) -> io::Result<usize> {
        if self.interrupts() {
            return Err(ErrorKind::Interrupted.into());
        }
        self.inner.write(&bytes[..bytes.len().min(1)])
    }

    fn flush(&mut self) -> io::Result<()> {
        if self.interrupts() {
            return Err(ErrorKind::Interrupted.into());
        }
        self.inner.flush()
    }
}

/// Reads a text a byte at a time from a reader that is interrupted so often before each byte.
fn check_interrupted_reads<R: Abort + AllocGlobal>(rt: &R, times: usize) -> Result<(), Fail> {
    let mut device = Device::new(Interrupted::new(TEXT, times));
    let mut buf = [0; 4];
    for byte in TEXT {
        let count = device.read(&mut buf)?;
        assert!(rt; count == 1 && buf[0] == *byte, "{times} times");
    }
    let count = device.read(&mut buf)?;
    assert!(rt; count == 0, "{times} times");
    assert!(rt; !Source::failed(&device), "{times} times");
    Ok(())
}

/// Writes a text to a writer that takes a byte at a time and is interrupted so often before each.
fn check_interrupted_writes<R: Abort + AllocGlobal>(rt: &R, times: usize) -> Result<(), Fail> {
    let mut device = Device::new(Interrupted::new(Vec::new(rt.alloc()), times));
    put(&mut device, TEXT)?;
    device.flush()?;
    assert!(rt; !Sink::failed(&device), "{times} times");
    assert!(rt;
        device.into_inner().inner.as_slice() == TEXT,
        "{times} times"
    );
    Ok(())
}

#[test]
fn asks_again_where_it_is_interrupted(rt: HostRuntime) -> Result<(), Fail> {
    for times in &[1, 2, 100] {
        check_interrupted_reads(&rt, *times)?;
        check_interrupted_writes(&rt, *times)?;
    }
    Ok(())
}

#[test]
fn flushes_what_is_held_back(rt: HostRuntime) -> Result<(), Fail> {
    let inner = Vec::new(rt.alloc());
    let mut device = Device::new(BufWriter::with_capacity(rt.alloc(), 8, inner)?);
    put(&mut device, b"abc")?;
    device.flush()?;
    let (written, held_back) = device.into_inner().into_parts();
    assert!(rt; written.as_slice() == b"abc".as_slice() && held_back.is_empty());
    Ok(())
}

#[test]
fn flush_faults_once(rt: HostRuntime) {
    let mut device = narrow_device(rt.alloc(), 1, 0, false);
    assert!(rt; device.flush() == Err(DeviceFault));
    assert!(rt; Sink::failed(&device));
    assert!(rt; device.flush() == Err(DeviceFault));
    assert!(rt; device.into_inner().flushes == 1);
}
