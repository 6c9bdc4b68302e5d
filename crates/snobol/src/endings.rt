//! How a job ends: the status of each ending, and the line that tells it.
ghost use Rattle.std.specs.Prelude.{◌≡◌, ◌+◌, ◌<◌, [], ◌∷◌, decimal, false, true, OnErr, OnOk};
ghost use Rattle.sno_io.specs.Devices.{TakesBytes};
ghost use Rattle.snobol.specs.inner.Endings.{line_of, number_text};
ghost use Rattle.snobol.specs.Jobs.{Tells, error_status, listed, ran, refused, unread, well};

use crate::enumeration::WaysOutcome;
use crate::execution::Outcome;
use sno_io::{DeviceFault, Sink, put};
use sno_text::ReadError;
use std::marker::Model;

/// A line on standard error: `snobol4: ` and two texts, each with a number behind it or none.
#[derive(Clone, Copy)]
struct FaultLine<'a> {
    text: &'a str,
    number: Option<u32>,
    more: &'a str,
    last: Option<u32>,
}

/// How a job ended: the program's status, and the line that tells it, if there is one.
#[derive(Drop)]
pub(crate) struct Ending<'a> {
    status: u8,
    line: Option<FaultLine<'a>>,
}

impl<'a> Model for Ending<'a> {
    ghost use Rattle.snobol.specs.inner.Endings.{report_of};
    ghost use Rattle.snobol.specs.Jobs.{Report};

    ghost Value = { Report };

    ghost view = { λ e. report_of e.status e.line };
}

impl<'a> Ending<'a> {
    /// All went well.
    pub fn well() -> Ending<'a>
        ensures { result ≡ well }
    {
        Ending {
            status: 0,
            line: None,
        }
    }

    /// The file of this name can't be read.
    pub fn unread(name: &'a str) -> Ending<'a>
        ensures { result ≡ unread name.entry.now }
    {
        Ending::told(3, "cannot read ", None, name, None)
    }

    /// A text was refused.
    pub fn refused(error: ReadError) -> Ending<'a>
        ensures { result ≡ refused error }
    {
        match error {
            ReadError::Syntax { line, code } => {
                Ending::told(2, "syntax ", Some(u32::from(code)), " at line ", Some(line))
            }
            ReadError::DuplicateLabel { line } => {
                Ending::told(2, "duplicate label at line ", Some(line), "", None)
            }
            ReadError::NoEnd => Ending::told(2, "no END", None, "", None),
            ReadError::TooLarge { line } => {
                Ending::told(2, "too large at line ", Some(line), "", None)
            }
            ReadError::NoMemory => Ending::told(6, "no memory", None, "", None),
        }
    }

    /// A pattern's ways were listed.
    pub fn listed(outcome: &WaysOutcome) -> Ending<'a>
        ensures { result ≡ listed outcome.now }
    {
        match outcome {
            WaysOutcome::Done => Ending::well(),
            WaysOutcome::Refused(error) => Ending::refused(*error),
            WaysOutcome::Error { code } => {
                let status = error_status(*code);
                Ending::told(status, "error ", Some(u32::from(*code)), "", None)
            }
            WaysOutcome::NoMemory => Ending::told(6, "no memory", None, "", None),
            WaysOutcome::WriteFault => Ending::told(7, "write fault", None, "", None),
        }
    }

    /// A program was run.
    pub fn ran(outcome: &Outcome) -> Ending<'a>
        ensures { result ≡ ran outcome.now }
    {
        match outcome {
            Outcome::Ended => Ending::well(),
            Outcome::Error { code, statement } => {
                let status = error_status(*code);
                let number = Some(u32::from(*code));
                Ending::told(status, "error ", number, " in statement ", Some(*statement))
            }
            Outcome::NoMemory => Ending::told(6, "no memory", None, "", None),
            Outcome::ReadFault => Ending::told(7, "read fault", None, "", None),
            Outcome::WriteFault => Ending::told(7, "write fault", None, "", None),
        }
    }

    fn told(
        status: u8,
        text: &'a str,
        number: Option<u32>,
        more: &'a str,
        last: Option<u32>,
    ) -> Ending<'a>
        ensures { result ≡ record { status = status; line = line_of text.entry.now number more.entry.now last } }
    {
        Ending {
            status,
            line: Some(FaultLine {
                text,
                number,
                more,
                last,
            }),
        }
    }

    /// Writes the line, if there is one, and answers the status.
    /// That `errors` fails changes nothing. It takes no memory.
    pub fn tell<E: Sink>(&self, errors: &mut E) -> u8
        requires { (E.drain errors.old).broken ≡ false }
        ensures status { result ≡ self.now.status }
        ensures line { Tells (E.drain errors.old).taken (E.drain errors.new).taken
            (E.drain errors.new).broken self.now.line }
    {
        if let Some(line) = self.line {
            let _ = put_line(errors, line);
        }
        self.status
    }
}

/// Tells how a listing ended, as the program does: `errors` gets the line, if there is one, and the status is answered.
/// That `errors` fails changes nothing. It takes no memory.
pub fn tell_ways<E: Sink>(outcome: &WaysOutcome, errors: &mut E) -> u8
    requires { (E.drain errors.old).broken ≡ false }
    ensures status { result ≡ (listed outcome.now).status }
    ensures line { Tells (E.drain errors.old).taken (E.drain errors.new).taken
        (E.drain errors.new).broken (listed outcome.now).line }
{
    let ending = Ending::listed(outcome);
    ending.tell(errors)
}

/// Writes a line.
fn put_line<E: Sink>(errors: &mut E, line: FaultLine<'_>) -> Result<(), DeviceFault>
    requires { (E.drain errors.old).broken ≡ false }
    ensures bytes { TakesBytes (E.drain errors.old).taken (E.drain errors.new).taken result
        (line_of line.entry.text.now line.entry.number line.entry.more.now line.entry.last) }
    ensures fault { OnErr result ((E.drain errors.new).broken ≡ true) }
{
    put(errors, b"snobol4: ")?;
    put(errors, line.text.as_bytes())?;
    put_number(errors, line.number)?;
    put(errors, line.more.as_bytes())?;
    put_number(errors, line.last)?;
    put(errors, b"\n")?;
    Ok(())
}

/// Writes a number, if there is one.
fn put_number<E: Sink>(errors: &mut E, number: Option<u32>) -> Result<(), DeviceFault>
    requires { (E.drain errors.old).broken ≡ false }
    ensures bytes { TakesBytes (E.drain errors.old).taken (E.drain errors.new).taken result (number_text number) }
    ensures sound { OnOk result ((E.drain errors.new).broken ≡ false) }
    ensures fault { OnErr result ((E.drain errors.new).broken ≡ true) }
{
    if let Some(number) = number {
        put_digits(errors, number)?;
    }
    Ok(())
}

/// Writes a number in decimal.
fn put_digits<E: Sink>(errors: &mut E, number: u32) -> Result<(), DeviceFault>
    requires { (E.drain errors.old).broken ≡ false }
    ensures bytes { TakesBytes (E.drain errors.old).taken (E.drain errors.new).taken result (decimal number) }
    ensures sound { OnOk result ((E.drain errors.new).broken ≡ false) }
    ensures fault { OnErr result ((E.drain errors.new).broken ≡ true) }
{
    if number < 10 {
        put_digit(errors, number)?;
        return Ok(());
    }
    put_digits(errors, number / 10)?;
    put_digit(errors, number % 10)?;
    Ok(())
}

/// Writes a digit.
fn put_digit<E: Sink>(errors: &mut E, digit: u32) -> Result<(), DeviceFault>
    requires sound { (E.drain errors.old).broken ≡ false }
    requires digit { digit < 10 }
    ensures bytes { TakesBytes (E.drain errors.old).taken (E.drain errors.new).taken result ((48 + digit) ∷ []) }
    ensures sound { OnOk result ((E.drain errors.new).broken ≡ false) }
    ensures fault { OnErr result ((E.drain errors.new).broken ≡ true) }
{
    put(errors, &[b'0' + digit as u8])?;
    Ok(())
}

/// The status of an error: the two limits have one of their own.
fn error_status(code: u8) -> u8
    ensures { result ≡ error_status code }
{
    match code {
        20 => 4,
        21 => 5,
        _ => 1,
    }
}
