//! The lines of an input.
ghost use Rattle.std.specs.Prelude.{◌≡◌, ◌↔◌, ◌⊎◌, ℕ, ◌≤◌, ◌++◌, [], false, length, true, Contains, IfErr, IfOk};
ghost use Rattle.std.specs.Prelude.{IfSome, IsErrOf, List, None, OnOk, Some};
ghost use Rattle.sno_io.specs.Lines.{line_length, GivesLine, IsAgain, LeavesReader, ReadsLine};
ghost use Rattle.sno_io.specs.inner.Held.{IsSettled, Joins};

use crate::buffer::Buffer;
use crate::devices::{DeviceFault, Source};
use bstr::ByteSlice;
use std::alloc::{AllocError, Global};
use std::marker::Model;

/// The most bytes of a line, without its line feed.
const LONGEST_LINE: usize = 1_000_000;

/// Why there is no next line. By this profile.
#[derive(Clone, Copy, Debug, PartialEq, Eq)]
pub enum LineError {
    /// The line has more than 1,000,000 bytes.
    TooLong,
    /// The reader has failed.
    ReadFault,
    /// Memory was refused.
    NoMemory,
}

impl From<DeviceFault> for LineError {
    ghost use Rattle.std.specs.Prelude.{◌≡◌};
    ghost use Rattle.sno_io.specs.declared.lines.LineError.TheVariants.{ReadFault};

    ghost from_gives = { λ _ e. e ≡ ReadFault };

    fn from(_fault: DeviceFault) -> LineError {
        LineError::ReadFault
    }
}

impl From<AllocError> for LineError {
    ghost use Rattle.std.specs.Prelude.{◌≡◌};
    ghost use Rattle.sno_io.specs.declared.lines.LineError.TheVariants.{NoMemory};

    ghost from_gives = { λ _ e. e ≡ NoMemory };

    fn from(_error: AllocError) -> LineError {
        LineError::NoMemory
    }
}

/// How many bytes stand before the first line feed, or in all
/// where there is none. It is not among the first `searched`.
fn line_end(bytes: &[u8], searched: usize) -> usize
    requires { searched ≤ line_length bytes.now }
    ensures { result ≡ line_length bytes.now }
{
    match (&bytes[searched..]).find_byte(b'\n') {
        Some(before) => searched + before,
        None => bytes.len(),
    }
}

/// The lines that a reader gives, one after another. Contracts see the bytes that are held, whether the reader has told
/// its end, and the error that was answered.
#[derive(Drop)]
pub struct Lines {
    alloc: Global,
    buffer: Buffer,
    told_end: bool,
    stopped: Option<LineError>,
}

impl Model for Lines {
    ghost use Rattle.sno_io.specs.inner.Held.{held_in};
    ghost use Rattle.sno_io.specs.Lines.{Input};

    ghost Value = { Input };

    ghost view = { λ l. record { held = held_in l.buffer; told_end = l.told_end; stopped = l.stopped } };
}

impl Lines {
    /// The lines of a reader of which nothing was read. It takes no memory.
    pub fn new(alloc: Global) -> Lines
        ensures { result ≡ record { held = []; told_end = false; stopped = None } }
    {
        Lines {
            alloc,
            buffer: Buffer::new(alloc),
            told_end: false,
            stopped: None,
        }
    }

    /// The bytes that were read and not handed out.
    pub fn held(&self) -> &[u8]
        ensures { result.now ≡ self.now.held }
    {
        self.buffer.held()
    }

    /// The next line without its line feed, `None` at the end: what a use of `INPUT` reads, by the book's chapter on
    /// input and output. A line ends at a line feed alone, a carriage return is a byte of it, and a last line without a
    /// line feed counts: by this profile.
    ///
    /// `TooLong` comes where the next line has more than 1,000,000 bytes, `ReadFault` where the reader fails in the
    /// call, and `NoMemory` where memory is refused; what was read stays held. After an `Err` each call gives it again,
    /// asks nothing and changes nothing. The reader is asked only where no line feed is held, and no more once it has
    /// told its end.
    ///
    /// The caller owes a reader that has not failed, and that of
    /// the call before as that left it; after an `Err` neither.
    pub fn next<R: Source>(&mut self, reader: &mut R) -> Result<Option<Vec<u8>>, LineError>
        requires sound { self.old.stopped ≡ None → (R.feed reader.old).broken ≡ false }
        requires same { self.old.stopped ≡ None → self.old.told_end ≡ true → (R.feed reader.old).at_end ≡ true }
        ensures line { self.old.stopped ≡ None → ReadsLine (R.feed reader.old).left (R.feed reader.new).left
            self.old self.new result }
        ensures unasked { (self.old.told_end ≡ true) ⊎ Contains self.old.held 10 → reader.new ≡ reader.old }
        ensures ok { OnOk result (self.new.stopped ≡ None) }
        ensures stops { IfErr result (λ e. self.new.stopped ≡ Some e) }
        ensures again { IfSome self.old.stopped (λ e. IsAgain self.old self.new result e × (reader.new ≡ reader.old)) }
        ensures reader { LeavesReader self.old self.new (R.feed reader.new) result }
    {
        if let Some(error) = self.stopped {
            return Err(error);
        }
        match self.read_line(reader) {
            Ok(line) => Ok(line),
            Err(error) => {
                self.stopped = Some(error);
                Err(error)
            }
        }
    }

    /// The next line, where no call has answered an `Err`.
    fn read_line<R: Source>(&mut self, reader: &mut R) -> Result<Option<Vec<u8>>, LineError>
        requires sound { (R.feed reader.old).broken ≡ false }
        requires same { self.old.told_end ≡ true → (R.feed reader.old).at_end ≡ true }
        ensures line { ReadsLine (R.feed reader.old).left (R.feed reader.new).left self.old self.new result }
        ensures unasked { (self.old.told_end ≡ true) ⊎ Contains self.old.held 10 → reader.new ≡ reader.old }
        ensures stopped { self.new.stopped ≡ self.old.stopped }
        ensures sound { OnOk result ((R.feed reader.new).broken ≡ false) }
        ensures fault { IsErrOf result LineError.ReadFault ↔ ((R.feed reader.new).broken ≡ true) }
        ensures same { self.new.told_end ≡ true → (R.feed reader.new).at_end ≡ true }
    {
        let len = self.fill(reader)?;
        let line = self.take_line(len)?;
        Ok(line)
    }

    /// Reads until a line feed is held, more bytes are held than a line may have, or the end is told. The answer says
    /// how many bytes stand before the line feed, or in all where there is none.
    fn fill<R: Source>(&mut self, reader: &mut R) -> Result<usize, LineError>
        requires sound { (R.feed reader.old).broken ≡ false }
        requires same { self.old.told_end ≡ true → (R.feed reader.old).at_end ≡ true }
        ensures given { Joins (R.feed reader.old).left (R.feed reader.new).left self.old self.new }
        ensures len { IfOk result (λ len. (len ≡ line_length self.new.held) × IsSettled len self.new) }
        ensures unasked { (self.old.told_end ≡ true) ⊎ Contains self.old.held 10 → reader.new ≡ reader.old }
        ensures stopped { self.new.stopped ≡ self.old.stopped }
        ensures sound { OnOk result ((R.feed reader.new).broken ≡ false) }
        ensures fault { IsErrOf result LineError.ReadFault ↔ ((R.feed reader.new).broken ≡ true) }
        ensures same { self.new.told_end ≡ true → (R.feed reader.new).at_end ≡ true }
        ensures fits { IsErrOf result LineError.TooLong → ⊥ }
    {
        let mut len = line_end(self.buffer.held(), 0);
        'reads: while self.wants_more(len) {
            let count = self.buffer.read_from(reader)?;
            self.told_end = count == 0;
            len = line_end(self.buffer.held(), len);
        }
        Ok(len)
    }

    /// Whether more is to be read, where `len` bytes stand before the first line feed that is held, or in all.
    fn wants_more(&self, len: usize) -> bool
        requires { len ≤ length self.now.held }
        ensures wants { result ≡ true → (len ≡ length self.now.held) × (len ≤ 1000000) × (self.now.told_end ≡ false) }
        ensures settled { result ≡ false → IsSettled len self.now }
    {
        if len < self.buffer.held().len() || len > LONGEST_LINE {
            return false;
        }
        !self.told_end
    }

    /// Hands out the line of `len` bytes that is held. Its line feed goes too.
    fn take_line(&mut self, len: usize) -> Result<Option<Vec<u8>>, LineError>
        requires len { len ≡ line_length self.old.held }
        requires settled { IsSettled len self.old }
        ensures line { (more : List ℕ) → (self.old.told_end ≡ true → more ≡ [])
            → GivesLine result (self.old.held ++ more) (self.new.held ++ more) }
        ensures told_end { self.new.told_end ≡ self.old.told_end }
        ensures stopped { self.new.stopped ≡ self.old.stopped }
        ensures no_fault { IsErrOf result LineError.ReadFault → ⊥ }
    {
        if len > LONGEST_LINE {
            return Err(LineError::TooLong);
        }
        if self.buffer.held().is_empty() {
            return Ok(None);
        }
        let line = Vec::from_slice(self.alloc, &self.buffer.held()[..len])?;
        self.buffer.consume(len + 1);
        Ok(Some(line))
    }
}
