//! Devices that fail in the middle of a match, recursion without an end, and inputs at their limits.
use super::asking::{Checks, Programs};
use super::rows::check_rows;
use sno_text::{Program, read_program};
use snobol::{Device, Limits, Outcome, run};
use std::alloc::Global;
use std::io::{self, ErrorKind, Read, Write};
use std::process::Abort;
use std::test::Fail;

const LIMITS: Limits = Limits {
    statements: 1_000_000,
    match_steps: 1_000_000,
};

/// A match inside each start of another: it writes `X`, `X`, `X`, `B`.
const INNER_MATCHES: &[u8] =
    b" DEFINE('F()') :(M)\nF 'XY' LEN(1) . C\n OUTPUT = C\n F = 'B' :(RETURN)\nM 'AAB' *F() . D :F(END)\n OUTPUT = D\nEND\n";

/// A deferred part that reads a line at each start of its match.
const READS_IN_A_MATCH: &[u8] =
    b" DEFINE('G()') :(M)\nG G = INPUT :S(RETURN)F(FRETURN)\nM 'AB' LEN(1) $ OUTPUT *G()\n OUTPUT = 'end'\nEND\n";

/// A writer that takes at most so many bytes a call, and fails when it has no room.
#[derive(Drop)]
struct Narrow {
    taken: Vec<u8>,
    at_once: usize,
    room: usize,
}

impl Write for Narrow {
    fn write(&mut self, bytes: &[u8]) -> io::Result<usize> {
        let count = bytes.len().min(self.at_once).min(self.room);
        if count == 0 {
            return Err(ErrorKind::PermissionDenied.into());
        }
        self.taken.extend_from_slice(&bytes[..count])?;
        self.room -= count;
        Ok(count)
    }

    fn flush(&mut self) -> io::Result<()> {
        Ok(())
    }
}

/// A reader that gives what it holds in one call, and fails at each call behind it.
#[derive(Drop)]
struct Once<'a> {
    bytes: &'a [u8],
}

impl Read for Once<'_> {
    fn read(&mut self, buf: &mut [u8]) -> io::Result<usize> {
        let count = self.bytes.len().min(buf.len());
        if count == 0 {
            return Err(ErrorKind::PermissionDenied.into());
        }
        buf[..count].copy_from_slice(&self.bytes[..count]);
        self.bytes = &self.bytes[count..];
        Ok(count)
    }
}

/// How a run ends on a writer of so many bytes a call with so much room, and what the writer has taken.
fn ran_narrow(alloc: Global, program: &Program, at_once: usize, room: usize) -> (Outcome, Vec<u8>) {
    let taken = Vec::new(alloc);
    let mut input = Device::new(b"".as_slice());
    let mut output = Device::new(Narrow {
        taken,
        at_once,
        room,
    });
    let outcome = run(alloc, program, &mut input, &mut output, LIMITS);
    let Narrow { taken, .. } = output.into_inner();
    (outcome, taken)
}

/// Runs the match inside each start over writers of so many bytes a call that fail behind 0 bytes, 1 byte and so on.
fn check_writers<R: Abort + AllocGlobal>(
    rt: &R,
    at_once: usize,
    written: &[u8],
) -> Result<(), Fail> {
    let program = read_program(rt.alloc(), INNER_MATCHES)?;
    for room in 0..written.len() {
        let (outcome, taken) = ran_narrow(rt.alloc(), &program, at_once, room);
        check_ended(rt, outcome, Outcome::WriteFault, &taken, &written[..room]);
    }
    let (outcome, taken) = ran_narrow(rt.alloc(), &program, at_once, written.len());
    check_ended(rt, outcome, Outcome::Ended, &taken, written);
    Ok(())
}

/// Compares how a run ended, and what its writer has taken, with what must be.
fn check_ended<R: Abort + AllocGlobal>(
    rt: &R,
    outcome: Outcome,
    ending: Outcome,
    taken: &[u8],
    written: &[u8],
) {
    assert_eq!(rt; outcome, ending);
    assert_eq!(rt; taken, written);
}

#[test]
fn a_match_whose_writer_fails(rt: HostRuntime) -> Result<(), Fail> {
    check_writers(&rt, 100, b"X\nX\nX\nB\n")?;
    check_writers(&rt, 1, b"X\nX\nX\nB\n")
}

/// How a run ends on a reader that fails behind these bytes, and what it has written.
fn ran_once(alloc: Global, program: &Program, bytes: &[u8]) -> (Outcome, Vec<u8>) {
    let mut input = Device::new(Once { bytes });
    let mut output = Device::new(Vec::new(alloc));
    let outcome = run(alloc, program, &mut input, &mut output, LIMITS);
    (outcome, output.into_inner())
}

/// Runs the deferred part that reads lines over a reader that fails behind these bytes.
fn check_reader<R: Abort + AllocGlobal>(rt: &R, bytes: &[u8], written: &[u8]) -> Result<(), Fail> {
    let program = read_program(rt.alloc(), READS_IN_A_MATCH)?;
    let (outcome, taken) = ran_once(rt.alloc(), &program, bytes);
    check_ended(rt, outcome, Outcome::ReadFault, &taken, written);
    Ok(())
}

#[test]
fn a_match_whose_reader_fails(rt: HostRuntime) -> Result<(), Fail> {
    check_reader(&rt, b"", b"A\n")?;
    check_reader(&rt, b"X\n", b"A\nB\n")
}

/// Patterns without an end, lines and names at their limits, and bytes of every kind.
const PROGRAMS: &str = r"
 P = *Q\n Q = *P\n 'A' P\nEND\n => status 5: snobol4: error 21 in statement 3\n
 S = DUPL('A',1000000)\n $S = 'long'\n OUTPUT = $S\nEND\n => long\n
 S = DUPL('A',1000000)\n $(S 'A') = 'long'\nEND\n => status 1: snobol4: error 8 in statement 2\n
 OUTPUT = SIZE('\t\r\v\0\d')\nEND\n => 5\n
 OUTPUT = INPUT '.'\nEND\n <- a\r\n => a\r.\n
";

/// A statement of 8,000 bytes, and of one more.
const STATEMENTS: &str = r"
 X = '\<7993:A\>'\nEND\n => status 0
 X = '\<7994:A\>'\nEND\n => status 2: snobol4: too large at line 1\n
";

#[test]
fn rows(rt: HostRuntime) -> Result<(), Fail> {
    check_rows::<Programs, _>(&rt, PROGRAMS)?;
    check_rows::<Checks, _>(&rt, STATEMENTS)
}
