//! Devices made of the standard library's readers and writers.
ghost use Rattle.std.specs.Prelude.{◌≡◌, ◌≢◌, ◌==◌, false, true, IfErr, IsErr, OnErr, OnOk};
ghost use Rattle.std.specs.Io.{ReadsAtMost, WritesAtMost};
ghost use Rattle.std.specs.Io.KnownBytes.{Keeps, ReadConsumes, WriteAppends};
ghost use Rattle.std.specs.IoError.{error_kind};

use crate::devices::{DeviceFault, Sink, Source};
use std::io::{self, Error, ErrorKind, Read, Write};

/// How often a reader or writer that is interrupted is asked again, one time behind another: no run lives to see it.
const MOST_TRIES: u64 = u64::MAX;

/// A reader or a writer of the standard library as a device, which keeps whether it told its end and whether it has
/// failed. It has left and has taken what the reader or writer says. One that was interrupted is asked again, since
/// that is no failure.
#[derive(Debug, Drop)]
pub struct Device<T> {
    inner: T,
    told_end: bool,
    has_failed: bool,
}

impl<T> Device<T> {
    /// The reader or writer as a device that has not failed.
    pub fn new(inner: T) -> Device<T>
        ensures { result ≡ record { inner = inner; told_end = false; has_failed = false } }
    {
        Device {
            inner,
            told_end: false,
            has_failed: false,
        }
    }

    /// The reader or writer, given back.
    pub fn into_inner(self) -> T
        ensures { result ≡ self.inner }
    {
        self.inner
    }

    /// Keeps that the reader or writer has failed, as this error says.
    fn fault(&mut self, _error: Error) -> DeviceFault
        requires { error_kind _error ≢ ErrorKind.Interrupted }
        ensures { self.new ≡ record self.old { has_failed = true } }
    {
        self.has_failed = true;
        DeviceFault
    }
}

impl<W: Write> Device<W> {
    /// Passes on what the writer holds back. An `Err` is a failure; a writer that has failed before is not asked again.
    pub fn flush(&mut self) -> Result<(), DeviceFault>
        ensures bytes { Keeps (W.contents self.old.inner) (W.contents self.new.inner) }
        ensures sound { OnOk result ((self.old.has_failed ≡ false) × (self.new.has_failed ≡ false)) }
        ensures fault { OnErr result (self.new.has_failed ≡ true) }
        ensures again { self.old.has_failed ≡ true → self.new ≡ self.old }
        ensures told_end { self.new.told_end ≡ self.old.told_end }
    {
        if self.has_failed {
            return Err(DeviceFault);
        }
        match flush_through(&mut self.inner) {
            Ok(()) => Ok(()),
            Err(error) => Err(self.fault(error)),
        }
    }
}

impl<R: Read> Source for Device<R> {
    ghost feed = { λ d. record { left = R.remaining d.inner; at_end = d.told_end; broken = d.has_failed } };

    fn read(&mut self, buf: &mut [u8]) -> Result<usize, DeviceFault> {
        match read_through(&mut self.inner, buf) {
            Ok(count) => {
                self.told_end = count == 0;
                Ok(count)
            }
            Err(error) => Err(self.fault(error)),
        }
    }

    fn failed(&self) -> bool {
        self.has_failed
    }
}

impl<W: Write> Sink for Device<W> {
    ghost drain = { λ d. record { taken = W.contents d.inner; broken = d.has_failed } };

    fn write(&mut self, bytes: &[u8]) -> Result<usize, DeviceFault> {
        match write_through(&mut self.inner, bytes) {
            Ok(count) => {
                self.has_failed = count == 0;
                Ok(count)
            }
            Err(error) => Err(self.fault(error)),
        }
    }

    fn failed(&self) -> bool {
        self.has_failed
    }
}

/// One read, asked for again where it is interrupted.
fn read_through<R: Read>(reader: &mut R, buf: &mut [u8]) -> io::Result<usize>
    ensures bound { ReadsAtMost result buf.new }
    ensures bytes { ReadConsumes (R.remaining reader.old) (R.remaining reader.new) result buf.new }
    ensures uninterrupted { IfErr result (λ e. error_kind e ≢ ErrorKind.Interrupted) }
{
    'tries: for _ in 0..MOST_TRIES {
        match reader.read(buf) {
            Ok(count) => return Ok(count),
            Err(error) => {
                if error.kind() != ErrorKind::Interrupted {
                    return Err(error);
                }
            }
        }
    }
    Err(ErrorKind::TimedOut.into())
}

/// One write, asked for again where it is interrupted.
fn write_through<W: Write>(writer: &mut W, bytes: &[u8]) -> io::Result<usize>
    ensures bound { WritesAtMost result bytes.now }
    ensures bytes { WriteAppends (W.contents writer.old) (W.contents writer.new) result bytes.now }
    ensures uninterrupted { IfErr result (λ e. error_kind e ≢ ErrorKind.Interrupted) }
{
    'tries: for _ in 0..MOST_TRIES {
        match writer.write(bytes) {
            Ok(count) => return Ok(count),
            Err(error) => {
                if error.kind() != ErrorKind::Interrupted {
                    return Err(error);
                }
            }
        }
    }
    Err(ErrorKind::TimedOut.into())
}

/// One flush, asked for again where it is interrupted.
fn flush_through<W: Write>(writer: &mut W) -> io::Result<()>
    ensures bytes { Keeps (W.contents writer.old) (W.contents writer.new) }
    ensures uninterrupted { IfErr result (λ e. error_kind e ≢ ErrorKind.Interrupted) }
{
    'tries: for _ in 0..MOST_TRIES {
        match writer.flush() {
            Ok(()) => return Ok(()),
            Err(error) => {
                if error.kind() != ErrorKind::Interrupted {
                    return Err(error);
                }
            }
        }
    }
    Err(ErrorKind::TimedOut.into())
}
