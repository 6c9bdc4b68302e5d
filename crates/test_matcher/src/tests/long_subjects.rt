//! Worked rows on a subject of a thousand bytes: the events in order, their steps, and how few goals are kept.
ghost use Rattle.std.specs.Prelude.{◌≡◌, ◌<◌, false, length, IfOk};

use super::driver::{begin, check_event, check_last, next_event};
use super::forms::variable;
use sno_match::{CopiedGoals, Engine, Event, Points, SharedGoals};
use sno_pattern::{Arg, BuildError, Patterns};
use sno_value::{PatId, Prim};
use std::alloc::Global;
use std::process::Abort;
use std::test::Fail;

/// How many bytes the subject has.
const BYTES: usize = 1000;

/// A step enters ARBNO first, and four lead from each way to the next: the repetition is taken up, LEN and its close
/// are entered, and ARBNO again. Behind the last byte the repetition is taken up once more, and LEN is entered in vain.
const STEPS_OF_REPETITIONS: u32 = 4003;

/// At a start before the last byte five goals are entered: the concatenation, `$`, LEN, the close of `$` and FAIL;
/// behind the last byte three. Each start but the first is taken up by a step.
const STEPS_OF_ASSIGNMENTS: u32 = 6003;

/// The most records that are kept at an event, however many starts there were.
const MOST_RECORDS: usize = 8;

/// Tells one way for each number of repetitions, the fewest first.
fn check_ways<P: Points>(rt: &impl Abort, m: &mut Engine<P>, table: &Patterns) -> Result<(), Fail>
    requires table { m.old.nodes ≡ table.now }
    requires asked { m.old.waits ≡ false }
{
    'ways: for end in 0..=BYTES {
        let told = next_event(m, table)?;
        check_event(rt, "the ways", told, Event::Way { start: 0, end });
        if m.is_waiting() {
            return Err(Fail::from("a value is wanted"));
        }
    }
    check_last(rt, m, table, STEPS_OF_REPETITIONS)
}

fn check_repetitions<P: Points>(
    rt: &impl Abort,
    alloc: Global,
    table: &Patterns,
    pattern: PatId,
    subject: &[u8],
) -> Result<(), Fail>
    requires { pattern.0 < length table.now }
{
    let mut m = begin::<P>(alloc, table, pattern, subject, true, 1_000_000)?;
    check_ways(rt, &mut m, table)
}

/// Adds ARBNO(LEN(1)).
fn add_repetition(table: &mut Patterns) -> Result<PatId, BuildError>
    ensures { IfOk result (λ id. id.0 < length table.new) }
{
    let byte = table.prim(Prim::Len, Arg::Count(1))?;
    let pattern = table.arbno(byte)?;
    Ok(pattern)
}

#[test]
fn each_number_of_repetitions(rt: HostRuntime) -> Result<(), Fail> {
    let subject = vec![in rt.alloc(); b'A'; BYTES]?;
    let mut table = Patterns::new(rt.alloc());
    let pattern = add_repetition(&mut table)?;
    check_repetitions::<SharedGoals>(&rt, rt.alloc(), &table, pattern, &subject)?;
    check_repetitions::<CopiedGoals>(&rt, rt.alloc(), &table, pattern, &subject)
}

/// Tells an assignment at each start, and keeps no more records at the last than at the first.
fn check_starts<P: Points>(rt: &impl Abort, m: &mut Engine<P>, table: &Patterns) -> Result<(), Fail>
    requires table { m.old.nodes ≡ table.now }
    requires asked { m.old.waits ≡ false }
{
    'starts: for start in 0..BYTES {
        let told = next_event(m, table)?;
        let assigned = Event::Assign {
            target: variable(9),
            start,
            end: start + 1,
        };
        check_event(rt, "the starts", told, assigned);
        assert!(rt; m.records() <= MOST_RECORDS);
        if m.is_waiting() {
            return Err(Fail::from("a value is wanted"));
        }
    }
    check_last(rt, m, table, STEPS_OF_ASSIGNMENTS)?;
    assert!(rt; m.records() <= MOST_RECORDS);
    Ok(())
}

fn check_assignments<P: Points>(
    rt: &impl Abort,
    alloc: Global,
    table: &Patterns,
    pattern: PatId,
    subject: &[u8],
) -> Result<(), Fail>
    requires { pattern.0 < length table.now }
{
    let mut m = begin::<P>(alloc, table, pattern, subject, false, 1_000_000)?;
    check_starts(rt, &mut m, table)
}

/// Adds LEN(1) $ V9 FAIL.
fn add_assignment(table: &mut Patterns) -> Result<PatId, BuildError>
    ensures { IfOk result (λ id. id.0 < length table.new) }
{
    let byte = table.prim(Prim::Len, Arg::Count(1))?;
    let assigned = table.imm(byte, variable(9))?;
    let none = table.fail()?;
    let pattern = table.cat(assigned, none)?;
    Ok(pattern)
}

#[test]
fn records_of_abandoned_starts_are_dropped(rt: HostRuntime) -> Result<(), Fail> {
    let subject = vec![in rt.alloc(); b'A'; BYTES]?;
    let mut table = Patterns::new(rt.alloc());
    let pattern = add_assignment(&mut table)?;
    check_assignments::<SharedGoals>(&rt, rt.alloc(), &table, pattern, &subject)?;
    check_assignments::<CopiedGoals>(&rt, rt.alloc(), &table, pattern, &subject)
}
