//! Variables that are read: INPUT gives a line of the input.
ghost use Rattle.std.specs.Prelude.{◌≡◌, ◌⊎◌, Err};
ghost use Rattle.sno_runtime.specs.Values.{shown, IsValueOf};
ghost use Rattle.sno_runtime.specs.Runtime.{IsReady};
ghost use Rattle.sno_runtime.specs.inner.Runtime.{value_of_line, Reads};
ghost use Rattle.sno_runtime.specs.Variables.{line_kept, reads, reads_line};

use crate::errors::TOO_LONG;
use crate::runtime::{Runtime, is_input};
use crate::stops::{Exit, Stop, error};
use sno_io::{LineError, Source};
use sno_value::{Name, Text, Value, trim};
use std::alloc::Global;

impl Runtime {
    /// The value of a variable. INPUT reads a line: it fails at the end of the input, and a line of more than 1,000,000
    /// bytes is error 8.
    #[inline(always)]
    pub fn read<R: Source>(&mut self, reader: &mut R, name: Name) -> Result<Value, Exit>
        requires { IsReady self.old (R.feed reader.old) }
        ensures { Reads shown IsValueOf (reads name) self.old self.new (R.feed reader.old) (R.feed reader.new) result }
    {
        if is_input(name) {
            return self.read_line(reader);
        }
        self.stored(name)
    }

    /// The next line of the input, without its trailing spaces where &TRIM isn't 0.
    #[inline(never)]
    fn read_line<R: Source>(&mut self, reader: &mut R) -> Result<Value, Exit>
        requires { IsReady self.old (R.feed reader.old) }
        ensures { Reads shown IsValueOf reads_line self.old self.new (R.feed reader.old) (R.feed reader.new) result }
    {
        let line = self.lines.next(reader);
        value_of_line(self.alloc, self.keywords.trim(), line)
    }
}

/// What the answer of the input is to a program.
fn value_of_line(
    alloc: Global,
    trims: i64,
    line: Result<Option<Vec<u8>>, LineError>,
) -> Result<Value, Exit>
    ensures { (result ≡ Err (Exit.Halt Stop.NoMemory)) ⊎ (result ≡ value_of_line trims line) }
{
    match line {
        Ok(Some(line)) => {
            let text = Text::new(alloc, line_kept(trims, line))?;
            Ok(Value::Str(text))
        }
        Ok(None) => Err(Exit::Failure),
        Err(LineError::TooLong) => Err(error(TOO_LONG)),
        Err(LineError::ReadFault) => Err(Exit::Halt(Stop::ReadFault)),
        Err(LineError::NoMemory) => Err(Exit::Halt(Stop::NoMemory)),
    }
}

/// What is kept of a line of input.
fn line_kept(trims: i64, mut line: Vec<u8>) -> Vec<u8>
    ensures { result.items ≡ line_kept trims line.items }
{
    if trims != 0 {
        let length = trim(&line).len();
        line.truncate(length);
    }
    line
}
