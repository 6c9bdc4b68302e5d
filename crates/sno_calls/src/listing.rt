//! The listing of a program, over a text in memory.
ghost use Rattle.std.specs.Prelude.{◌≡◌, ◌++◌, ◌≤◌, ◌<◌, [], IfOk, codes, decimal, length};
ghost use Rattle.sno_calls.specs.Calls.{Holds, IsListedIn, asked};

use crate::Told;
use crate::room::copy_into;
use sno_listing::{Report, make_report};
use sno_value::int_text;
use std::alloc::{AllocError, Global};

/// The status where memory is refused.
const NO_MEMORY: u32 = 6;

/// The status where the listing finds no room.
const FAULT: u32 = 7;

/// The status where the statement isn't there.
const MISSING: u32 = 64;

/// Lists a program, or its statement with this number where that isn't 0.
pub fn tell_listing(
    alloc: Global,
    program: &[u8],
    number: u32,
    out: &mut [u8],
    line: &mut [u8],
    told: &mut Told,
)
    ensures { IsListedIn program.now number out.old out.new line.old line.new told.new }
{
    match make_report(alloc, program, wanted(number)) {
        Ok(Some(report)) => tell_report(&report, out, line, told),
        Ok(None) => match missing(alloc, number) {
            Ok(said) => tell(MISSING, b"", said.as_slice(), out, line, told),
            Err(_) => tell_no_memory(out, line, told),
        },
        Err(_) => tell_no_memory(out, line, told),
    }
}

/// The statement that is listed alone, none for 0.
fn wanted(number: u32) -> Option<u32>
    ensures { result ≡ asked number }
{
    if number == 0 { None } else { Some(number) }
}

/// Tells a report, which has failed where it finds no room.
fn tell_report(report: &Report, out: &mut [u8], line: &mut [u8], told: &mut Told)
    ensures output { Holds out.old out.new told.new.written report.now.text.items }
    ensures fits { length report.now.text.items ≤ length out.old → told.new.status ≡ report.now.status }
    ensures no_line { length report.now.text.items ≤ length out.old → Holds line.old line.new told.new.told [] }
    ensures cut { length out.old < length report.now.text.items → told.new.status ≡ 7 }
    ensures fault { length out.old < length report.now.text.items
        → Holds line.old line.new told.new.told (codes "snobol4-list: write fault\n") }
{
    let text = report.text.as_slice();
    if text.len() <= out.len() {
        return tell(u32::from(report.status), text, b"", out, line, told);
    }
    tell(FAULT, text, b"snobol4-list: write fault\n", out, line, told);
}

/// The line that tells that a statement isn't there.
fn missing(alloc: Global, number: u32) -> Result<Vec<u8>, AllocError>
    ensures { IfOk result (λ said. said.items
        ≡ codes "snobol4-list: no statement " ++ (decimal number ++ codes "\n")) }
{
    let digits = int_text(alloc, i64::from(number))?;
    let mut said = Vec::new(alloc);
    said.extend_from_slice(b"snobol4-list: no statement ")?;
    said.extend_from_slice(digits.as_slice())?;
    said.extend_from_slice(b"\n")?;
    Ok(said)
}

/// Tells that memory was refused.
fn tell_no_memory(out: &mut [u8], line: &mut [u8], told: &mut Told)
    ensures status { told.new.status ≡ 6 }
    ensures output { Holds out.old out.new told.new.written [] }
    ensures message { Holds line.old line.new told.new.told (codes "snobol4-list: no memory\n") }
{
    tell(
        NO_MEMORY,
        b"",
        b"snobol4-list: no memory\n",
        out,
        line,
        told,
    );
}

/// Answers a status, what was written, and a line.
fn tell(status: u32, wrote: &[u8], said: &[u8], out: &mut [u8], line: &mut [u8], told: &mut Told)
    ensures status { told.new.status ≡ status }
    ensures output { Holds out.old out.new told.new.written wrote.now }
    ensures message { Holds line.old line.new told.new.told said.now }
{
    told.status = status;
    told.written = copy_into(wrote, out);
    told.told = copy_into(said, line);
}
