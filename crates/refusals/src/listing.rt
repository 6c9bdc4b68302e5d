//! Lists of the ways of a pattern.
use sno_text::ReadError;
use snobol::{Device, WaysOutcome, ways};
use std::alloc::{AllocError, Global};

/// Room for what a list has, so that the writer takes no memory.
const ROOM: usize = 256;

/// A pattern, a subject, the lines of the ways from 0, and how the list ends.
type Row = (&'static [u8], &'static [u8], &'static [u8], WaysOutcome);

const REPETITION: Row = (
    b"ARBNO('A' | 'AA')",
    b"AAA",
    b"way 0 0\nway 0 1\nway 0 2\nway 0 3\nway 0 3\nway 0 2\nway 0 3\nexhausted\n",
    WaysOutcome::Done,
);

const PENDING: Row = (
    b"(LEN(1) . A LEN(1)) . B",
    b"XY",
    b"way 0 2 A=0-1 B=0-2\nexhausted\n",
    WaysOutcome::Done,
);

const VALUE: Row = (
    b"LEN(1) $ X *X",
    b"AA",
    b"set X 0 1\nway 0 2\nexhausted\n",
    WaysOutcome::Done,
);

const OTHER_VALUE: Row = (
    b"LEN(1) $ X *X",
    b"AB",
    b"set X 0 1\nexhausted\n",
    WaysOutcome::Done,
);

const ERROR: Row = (b"'A' | LEN(-1)", b"A", b"", WaysOutcome::Error { code: 7 });

const REFUSED: Row = (
    b"'A",
    b"A",
    b"",
    WaysOutcome::Refused(ReadError::Syntax { line: 1, code: 1 }),
);

/// Whether each list has its lines, also where it is made again behind a refusal.
pub(crate) fn holds(alloc: Global) -> Result<bool, AllocError> {
    for row in [REPETITION, PENDING, VALUE, OTHER_VALUE, ERROR, REFUSED] {
        if !lists(alloc, row)? {
            return Ok(false);
        }
    }
    Ok(true)
}

fn lists(alloc: Global, row: Row) -> Result<bool, AllocError> {
    let (_, _, wanted, end) = row;
    let (outcome, written) = list_once(alloc, row)?;
    if outcome != WaysOutcome::NoMemory {
        return Ok(outcome == end && written.as_slice() == wanted);
    }
    let (outcome, again) = list_once(alloc, row)?;
    Ok(wanted.starts_with(&written) && outcome == end && again.as_slice() == wanted)
}

/// How a list ends, and what was written of it.
fn list_once(alloc: Global, row: Row) -> Result<(WaysOutcome, Vec<u8>), AllocError> {
    let (pattern, subject, _, _) = row;
    let mut writer = Device::new(Vec::with_capacity(alloc, ROOM)?);
    let outcome = ways(alloc, pattern, subject, true, 1000, &mut writer);
    Ok((outcome, writer.into_inner()))
}
