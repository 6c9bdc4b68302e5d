//! Asks a match for all its events.
ghost use Rattle.std.specs.Prelude.{◌≡◌, ◌<◌, ◌↔◌, false, true, length, IfOk, IfSome, IsTrue, OnErr, OnOk};
ghost use Rattle.sno_match.specs.Matching.{Begins};

use sno_match::{Engine, Event, Pending, Points};
use sno_pattern::Patterns;
use sno_value::{PatId, Text};
use std::alloc::{AllocError, Global};
use std::process::Abort;
use std::test::Fail;

/// An event, how many steps were taken when it was told, and the pending list of the last way.
#[derive(Drop)]
pub struct Told {
    pub event: Event,
    pub steps: u32,
    pub pending: Vec<Pending>,
}

/// A match over a stack of this type.
pub fn begin<P: Points>(
    alloc: Global,
    table: &Patterns,
    pattern: PatId,
    subject: &[u8],
    anchored: bool,
    limit: u32,
) -> Result<Engine<P>, AllocError>
    requires { pattern.0 < length table.now }
    ensures table { IfOk result (λ m. m.nodes ≡ table.now) }
    ensures asked { IfOk result (λ m. m.waits ≡ false) }
{
    let m = Engine::new(alloc, table, pattern, subject, anchored, limit)?;
    Ok(m)
}

/// The match begun again. Of what `begin_again` ensures this says no more than that a test may go on.
pub fn begin_again<P: Points>(
    m: &mut Engine<P>,
    table: &Patterns,
    pattern: PatId,
    subject: &[u8],
    anchored: bool,
    limit: u32,
) -> Result<(), AllocError>
    requires { pattern.0 < length table.now }
    ensures table { OnOk result (m.new.nodes ≡ table.now) }
    ensures asked { OnOk result (m.new.waits ≡ false) }
{
    m.begin_again(table, pattern, subject, anchored, limit)?;
    Ok(())
}

/// The same, of a subject that is lent.
pub fn begin_on<P: Points>(
    m: &mut Engine<P>,
    table: &Patterns,
    pattern: PatId,
    subject: &Text,
    anchored: bool,
    limit: u32,
) -> Result<(), AllocError>
    requires { pattern.0 < length table.now }
    ensures table { OnOk result (m.new.nodes ≡ table.now) }
    ensures asked { OnOk result (m.new.waits ≡ false) }
{
    m.begin_on(table, pattern, subject, anchored, limit)?;
    Ok(())
}

/// The next event. Of what `next` ensures this says no more than that a test may go on.
pub fn next_event<P: Points>(m: &mut Engine<P>, table: &Patterns) -> Result<Event, AllocError>
    requires table { m.old.nodes ≡ table.now }
    requires asked { m.old.waits ≡ false }
    ensures table { m.new.nodes ≡ table.now }
    ensures refused { OnErr result (m.new.waits ≡ false) }
{
    let event = m.next(table)?;
    Ok(event)
}

/// Answers a value.
pub fn give<P: Points>(
    m: &mut Engine<P>,
    table: &Patterns,
    answer: Option<PatId>,
) -> Result<(), AllocError>
    requires table { m.old.nodes ≡ table.now }
    requires waiting { m.old.waits ≡ true }
    requires known { IfSome answer (λ id. id.0 < length table.now) }
    ensures table { m.new.nodes ≡ table.now }
    ensures asked { OnOk result (m.new.waits ≡ false) }
{
    m.answer(table, answer)?;
    Ok(())
}

/// Answers a value by a node of a table that may have become longer since.
pub fn give_new<P: Points>(
    m: &mut Engine<P>,
    table: &Patterns,
    answer: PatId,
) -> Result<(), AllocError>
    requires table { Begins m.old.nodes table.now }
    requires waiting { m.old.waits ≡ true }
    requires known { answer.0 < length table.now }
    ensures table { m.new.nodes ≡ table.now }
    ensures asked { OnOk result (m.new.waits ≡ false) }
{
    m.answer(table, Some(answer))?;
    Ok(())
}

/// An event that was told just now.
fn told_by<P: Points>(alloc: Global, m: &Engine<P>, event: Event) -> Result<Told, AllocError> {
    let pending = m.pending().to_vec(alloc)?;
    Ok(Told {
        event,
        steps: m.steps(),
        pending,
    })
}

/// The events that a match tells, at most so many, up to the last or to a Value for which there is no answer.
pub fn events_of<P: Points>(
    alloc: Global,
    m: &mut Engine<P>,
    table: &Patterns,
    answers: &[Option<PatId>],
    most: usize,
) -> Result<Vec<Told>, AllocError>
    requires table { m.old.nodes ≡ table.now }
    requires asked { m.old.waits ≡ false }
{
    let mut told = Vec::new(alloc);
    let mut given = 0;
    'events: for _ in 0..most {
        let event = next_event(m, table)?;
        told.push(told_by(alloc, m, event)?)?;
        if m.is_waiting() {
            let Some(answer) = answers.get(given) else {
                return Ok(told);
            };
            if !is_known(table, *answer) {
                return Ok(told);
            }
            give(m, table, *answer)?;
            given += 1;
        } else if is_last(event) {
            return Ok(told);
        }
    }
    Ok(told)
}

/// Compares an event of the match that a test names with the one that is wanted.
pub fn check_event(rt: &impl Abort, of: &str, told: Event, want: Event) {
    assert_eq!(rt; told, want, "of {of}");
}

/// Compares a number of the match that a test names with the one that is wanted.
pub fn check_number(rt: &impl Abort, of: &str, told: usize, want: usize) {
    assert_eq!(rt; told, want, "of {of}");
}

/// Nothing but the end is left, which is told behind so many steps.
pub fn check_last<P: Points>(
    rt: &impl Abort,
    m: &mut Engine<P>,
    table: &Patterns,
    steps: u32,
) -> Result<(), Fail>
    requires table { m.old.nodes ≡ table.now }
    requires asked { m.old.waits ≡ false }
{
    let last = next_event(m, table)?;
    check_event(rt, "the end", last, Event::Exhausted);
    check_number(rt, "the steps", m.steps() as usize, steps as usize);
    Ok(())
}

fn is_last(event: Event) -> bool {
    matches!(event, Event::Exhausted | Event::Aborted | Event::Limit)
}

/// Whether an answer is of the table.
fn is_known(table: &Patterns, answer: Option<PatId>) -> bool
    ensures { IsTrue result ↔ IfSome answer (λ id. id.0 < length table.now) }
{
    match answer {
        None => true,
        Some(id) => id.0 < table.len(),
    }
}
