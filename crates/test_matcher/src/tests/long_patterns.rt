//! Long patterns and long runs: they are searched in the time and the memory that a test has.
ghost use Rattle.std.specs.Prelude.{◌≡◌, ◌<◌, false, length, IfOk};

use super::driver::{begin, check_event, check_number, give, next_event};
use super::matches::events_over;
use super::searches::{Search, table_of_words};
use sno_match::{CopiedGoals, Engine, Event, Matcher, Points, SharedGoals};
use sno_pattern::{BuildError, Patterns};
use sno_value::{ExprId, PatId};
use std::alloc::Global;
use std::process::Abort;
use std::test::Fail;

/// How many concatenations a long chain has.
const LONG: u32 = 300_000;

const LONG_EVENTS: &str = "way 0 0 at 600001; exhausted at 600001;";

/// Adds a chain of null texts to the left.
fn add_chain(table: &mut Patterns) -> Result<PatId, BuildError>
    ensures { IfOk result (λ id. id.0 < length table.new) }
{
    let null = table.text(b"")?;
    let mut chain = null;
    for _part in 0..LONG {
        chain = table.cat(chain, null)?;
    }
    Ok(chain)
}

fn check_chain<P: Points>(
    rt: &impl Abort,
    alloc: Global,
    table: &Patterns,
    chain: PatId,
) -> Result<(), Fail>
    requires { chain.0 < length table.now }
{
    let s = Search {
        subject: b"",
        anchored: true,
        limit: 1_000_000,
        answers: &[],
    };
    let text = events_over::<P>(alloc, table, chain, s)?;
    assert_eq!(rt; text.as_str(), LONG_EVENTS);
    Ok(())
}

/// Texts that are chained to the left, so that as many goals wait as there are concatenations. A move that copied them
/// would take longer than a test may.
#[test]
fn a_long_chain(rt: HostRuntime) -> Result<(), Fail> {
    let mut table = Patterns::new(rt.alloc());
    let chain = add_chain(&mut table)?;
    check_chain::<SharedGoals>(&rt, rt.alloc(), &table, chain)?;
    check_chain::<CopiedGoals>(&rt, rt.alloc(), &table, chain)
}

/// How many bytes a long run has.
const RUN: usize = 50_000;

/// The first way is found in the whole run, and leaves few points and records.
fn check_way<P: Points>(rt: &impl Abort, m: &mut Engine<P>, table: &Patterns) -> Result<(), Fail>
    requires table { m.old.nodes ≡ table.now }
    requires asked { m.old.waits ≡ false }
{
    let way = next_event(m, table)?;
    check_event(rt, "a run of cuts", way, Event::Way { start: 0, end: RUN });
    assert!(rt; m.points() <= 2);
    assert!(rt; m.records() <= 10);
    Ok(())
}

fn check_cuts<P: Points>(
    rt: &impl Abort,
    alloc: Global,
    table: &Patterns,
    pattern: PatId,
) -> Result<(), Fail>
    requires { pattern.0 < length table.now }
{
    let run = vec![in alloc; b'A'; RUN]?;
    let mut m = begin::<P>(alloc, table, pattern, &run, true, 1_000_000)?;
    check_way(rt, &mut m, table)
}

/// ARBNO(FENCE('A' | 'AA')) RPOS(0): a cut that was closed leaves no point, so that the stack doesn't grow with the
/// run.
#[test]
fn cuts_that_were_closed_leave_no_point(rt: HostRuntime) -> Result<(), Fail> {
    let (table, pattern) = table_of_words(
        rt.alloc(),
        "TEXT:A TEXT:AA |:0,1 CUT:2 ARBNO:3 RPOS:0 &:4,5",
    )?;
    check_cuts::<SharedGoals>(&rt, rt.alloc(), &table, pattern)?;
    check_cuts::<CopiedGoals>(&rt, rt.alloc(), &table, pattern)
}

/// How many times a pattern names itself.
const LEVELS: u32 = 100_000;

/// The value of the deferred part.
const VALUE: Event = Event::Value {
    prim: None,
    expr: ExprId(4),
};

/// Asks for the value of the deferred part at each level, and answers it by the whole pattern.
fn check_levels(
    rt: &impl Abort,
    m: &mut Matcher,
    table: &Patterns,
    pattern: PatId,
) -> Result<(), Fail>
    requires table { m.old.nodes ≡ table.now }
    requires asked { m.old.waits ≡ false }
    requires pattern { pattern.0 < length table.now }
{
    'levels: for level in 0..LEVELS {
        let told = next_event(m, table)?;
        check_event(rt, "a level", told, VALUE);
        check_number(
            rt,
            "the steps of a level",
            m.steps() as usize,
            3 * level as usize + 3,
        );
        assert!(rt; m.records() <= 2 * m.steps() as usize + 2);
        if !m.is_waiting() {
            return Err(Fail::from("no value is wanted"));
        }
        give(m, table, Some(pattern))?;
    }
    let last = next_event(m, table)?;
    check_event(rt, "the last level", last, Event::Limit);
    check_number(rt, "the points", m.points(), LEVELS as usize + 1);
    Ok(())
}

fn name_itself(rt: &impl Abort, alloc: Global, table: &Patterns, pattern: PatId) -> Result<(), Fail>
    requires { pattern.0 < length table.now }
{
    let mut m: Matcher = begin(alloc, table, pattern, b"A", true, 3 * LEVELS)?;
    check_levels(rt, &mut m, table, pattern)
}

/// Adds P = *P 'A' | 'A'.
fn add_levels(table: &mut Patterns) -> Result<PatId, BuildError>
    ensures { IfOk result (λ id. id.0 < length table.new) }
{
    let a = table.text(b"A")?;
    let same = table.defer(ExprId(4))?;
    let longer = table.cat(same, a)?;
    let pattern = table.alt(longer, a)?;
    Ok(pattern)
}

/// P = *P 'A' | 'A' names itself first, so that at each level one goal more waits behind the deferred part, and a point
/// stays at the `|`. Goals that were copied there would not fit into memory.
#[test]
fn a_pattern_that_names_itself_first(rt: HostRuntime) -> Result<(), Fail> {
    let mut table = Patterns::new(rt.alloc());
    let pattern = add_levels(&mut table)?;
    name_itself(&rt, rt.alloc(), &table, pattern)
}
