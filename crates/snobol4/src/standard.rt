//! Standard input and output, of which the one knows the other: what was written is written out before more is read, so
//! that who reads the output and answers it never waits for a line that is held back.
ghost use Rattle.std.specs.Prelude.{◌≡◌};

use std::cell::RefCell;
use std::io::{self, BufWriter, ErrorKind, IsTerminal, Read, Stdin, Stdout, Write};

/// Standard output behind a buffer, which is written out at each line feed where it is a terminal. Where that has
/// failed each call fails.
#[derive(Drop)]
pub(crate) struct Output {
    buffer: BufWriter<Stdout>,
    by_lines: bool,
    has_failed: bool,
}

impl Output {
    /// Standard output with nothing in its buffer.
    pub fn new(rt: &HostRuntime) -> io::Result<Output> {
        let stdout = rt.stdout();
        let by_lines = stdout.is_terminal();
        let buffer = BufWriter::new(rt.alloc(), stdout)?;
        Ok(Output {
            buffer,
            by_lines,
            has_failed: false,
        })
    }

    /// Lets the buffer go with what it holds: dropped as it is, it would write that.
    pub fn let_go(self) {
        let (_stdout, _held) = self.buffer.into_parts();
    }

    /// Keeps in mind that a call has failed, but for one that was interrupted, which is made again.
    #[cold]
    fn fails(&mut self, error: io::Error) -> io::Error
        ensures { result ≡ error }
    {
        if error.kind() != ErrorKind::Interrupted {
            self.has_failed = true;
        }
        error
    }
}

impl Write for Output {
    fn write(&mut self, bytes: &[u8]) -> io::Result<usize> {
        if self.has_failed {
            return Err(ErrorKind::BrokenPipe.into());
        }
        let count = match self.buffer.write(bytes) {
            Ok(count) => count,
            Err(error) => return Err(self.fails(error)),
        };
        if self.by_lines && bytes[..count].contains(&b'\n') {
            self.flush()?;
        }
        Ok(count)
    }

    fn flush(&mut self) -> io::Result<()> {
        if self.has_failed {
            return Err(ErrorKind::BrokenPipe.into());
        }
        match self.buffer.flush() {
            Ok(()) => Ok(()),
            Err(error) => Err(self.fails(error)),
        }
    }
}

/// Writes to an output that others use too.
#[derive(Drop)]
pub(crate) struct Writing<'a> {
    pub output: &'a RefCell<Output>,
}

impl Write for Writing<'_> {
    fn write(&mut self, bytes: &[u8]) -> io::Result<usize> {
        match self.output.try_borrow_mut() {
            Ok(mut output) => output.write(bytes),
            Err(_) => Err(ErrorKind::ResourceBusy.into()),
        }
    }

    fn flush(&mut self) -> io::Result<()> {
        match self.output.try_borrow_mut() {
            Ok(mut output) => output.flush(),
            Err(_) => Err(ErrorKind::ResourceBusy.into()),
        }
    }
}

/// Reads standard input, once the output is written out.
#[derive(Drop)]
pub(crate) struct Asking<'a> {
    pub input: Stdin,
    pub output: &'a RefCell<Output>,
}

impl Read for Asking<'_> {
    fn read(&mut self, buf: &mut [u8]) -> io::Result<usize> {
        if let Ok(mut output) = self.output.try_borrow_mut() {
            output.flush()?;
        }
        self.input.read(buf)
    }
}
