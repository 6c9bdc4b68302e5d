//! A machine that is asked for patterns and for a match.
ghost use Rattle.std.specs.Prelude.{◌≡◌, ◌<◌, ◌≤◌, length, None, OnErr};
ghost use Rattle.sno_statement.specs.Running.{CanRun, devices};

use sno_text::{Program, ReadError, read_expression};
use sno_value::{ExprId, PatId};
use snobol::{Device, Limits, Machine, Outcome, Sink, Source};
use std::alloc::{AllocError, Global};

const LIMITS: Limits = Limits {
    statements: 1_000_000,
    match_steps: 1_000_000,
};

/// Room for what the machine writes, so that the writer takes no memory.
const ROOM: usize = 64;

/// The first expressions of its text are 1 and LEN(1).
const TEXT: &[u8] = b"(LEN(1) $ OUTPUT 'B') . OUTPUT";

const PART: ExprId = ExprId(1);

/// What a match of it in AB writes.
const WRITTEN: &[u8] = b"A\nAB\n";

/// What a match answers.
type Found = Result<Option<(usize, usize)>, Outcome>;

/// Whether a machine answers what it must. One that has stopped for want of memory answers the same again, and writes
/// nothing.
pub(crate) fn holds(alloc: Global) -> Result<bool, AllocError> {
    let (program, whole) = match read_expression(alloc, TEXT) {
        Ok(read) => read,
        Err(ReadError::NoMemory) => return Err(AllocError),
        Err(_) => return Ok(false),
    };
    let mut holds = answers(alloc, &program, whole)?;
    if holds.is_none() {
        holds = answers(alloc, &program, whole)?;
    }
    Ok(holds == Some(true))
}

/// Asks a new machine for the pattern of a part, then for that of the whole, and then for a match of it. None where
/// memory for the machine was refused.
fn answers(alloc: Global, program: &Program, whole: ExprId) -> Result<Option<bool>, AllocError> {
    let mut reader = Device::new(b"".as_slice());
    let mut writer = Device::new(Vec::with_capacity(alloc, ROOM)?);
    let mut machine = match Machine::new(alloc, program, LIMITS) {
        Ok(machine) => machine,
        Err(Outcome::NoMemory) => return Ok(None),
        Err(_) => return Ok(Some(false)),
    };
    let part = machine.pattern(&mut reader, &mut writer, PART);
    let found = find(&mut machine, &mut reader, &mut writer, whole);
    let written = writer.into_inner();
    match part {
        Ok(Some(part)) => {
            let holds = is_found(alloc, &mut machine, whole, part, found, &written)?;
            Ok(Some(holds))
        }
        Ok(None) => Ok(Some(false)),
        Err(why) => {
            Ok(Some(why == Outcome::NoMemory && found == Err(why) && written.is_empty()))
        }
    }
}

/// Where the pattern of an expression first matches in AB.
fn find<R: Source, W: Sink>(
    machine: &mut Machine<'_>,
    reader: &mut R,
    writer: &mut W,
    expression: ExprId,
) -> Found
    requires ready { machine.old.stopped ≡ None
        → CanRun machine.old.state (devices (R.feed reader.old) (W.drain writer.old)) }
    ensures stopped { OnErr result (machine.new.stopped ≡ None → ⊥) }
    ensures nodes { length machine.old.state.nodes ≤ length machine.new.state.nodes }
{
    match machine.pattern(reader, writer, expression) {
        Ok(Some(pattern)) => machine.match_first(reader, writer, pattern, b"AB"),
        Ok(None) => Ok(None),
        Err(why) => Err(why),
    }
}

/// Whether a match was found and has written what it must, or a machine that has stopped stays as it is.
fn is_found(
    alloc: Global,
    machine: &mut Machine<'_>,
    whole: ExprId,
    part: PatId,
    found: Found,
    written: &[u8],
) -> Result<bool, AllocError>
    requires part { part.0 < length machine.old.state.nodes }
    requires stopped { OnErr found (machine.old.stopped ≡ None → ⊥) }
{
    match found {
        Ok(found) => Ok(found == Some((0, 2)) && written == WRITTEN),
        Err(why) => {
            let stays = stays_stopped(alloc, machine, whole, part)?;
            Ok(why == Outcome::NoMemory && WRITTEN.starts_with(written) && stays)
        }
    }
}

/// Whether a machine that has stopped answers the same again and writes nothing.
fn stays_stopped(
    alloc: Global,
    machine: &mut Machine<'_>,
    expression: ExprId,
    pattern: PatId,
) -> Result<bool, AllocError>
    requires pattern { pattern.0 < length machine.old.state.nodes }
    requires stopped { machine.old.stopped ≡ None → ⊥ }
{
    let mut reader = Device::new(b"".as_slice());
    let mut writer = Device::new(Vec::with_capacity(alloc, ROOM)?);
    let found = machine.match_first(&mut reader, &mut writer, pattern, b"AB");
    let again = machine.pattern(&mut reader, &mut writer, expression);
    let written = writer.into_inner();
    Ok(found == Err(Outcome::NoMemory) && again == Err(Outcome::NoMemory) && written.is_empty())
}
