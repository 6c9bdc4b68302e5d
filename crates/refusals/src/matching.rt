//! Matches over either stack of points.
ghost use Rattle.std.specs.Prelude.{◌≡◌, ◌<◌, length, false, true, IfOk, IfSome, IsTrue};

use sno_match::{Engine, Event, Pending, Points};
use sno_pattern::{Arg, BuildError, Patterns};
use sno_value::{ExprId, Name, PatId, Prim, SymId, Text};
use std::alloc::{AllocError, Global};

/// An event, and how many steps were taken when it was told.
type Told = (Event, u32);

const X: Name = Name::Var(SymId(9));

const Y: Name = Name::Var(SymId(10));

/// ARBNO('A' | 'AA') on AAA, from 0 alone.
const REPETITION: &[Told] = &[
    (Event::Way { start: 0, end: 0 }, 1),
    (Event::Way { start: 0, end: 1 }, 6),
    (Event::Way { start: 0, end: 2 }, 11),
    (Event::Way { start: 0, end: 3 }, 16),
    (Event::Way { start: 0, end: 3 }, 27),
    (Event::Way { start: 0, end: 2 }, 36),
    (Event::Way { start: 0, end: 3 }, 41),
    (Event::Exhausted, 48),
];

/// FENCE(FENCE('A' | 'AA') 'A') REM on AAA, from 0 alone.
const CUTS: &[Told] = &[
    (Event::Way { start: 0, end: 3 }, 10),
    (Event::Exhausted, 10),
];

/// (LEN(1) . X LEN(1)) . Y on XY, from 0 alone, and its pending list.
const PENDING: &[Told] = &[(Event::Way { start: 0, end: 2 }, 7), (Event::Exhausted, 7)];

const ASSIGNMENTS: &[Pending] = &[
    Pending {
        target: X,
        start: 0,
        end: 1,
    },
    Pending {
        target: Y,
        start: 0,
        end: 2,
    },
];

/// LEN(1) $ X *X on AA, from 0 alone; X is then 'A'.
const VALUE: &[Told] = &[
    (
        Event::Assign {
            target: X,
            start: 0,
            end: 1,
        },
        4,
    ),
    (
        Event::Value {
            prim: None,
            expr: ExprId(7),
        },
        5,
    ),
    (Event::Way { start: 0, end: 2 }, 6),
    (Event::Exhausted, 6),
];

/// BAL 'X' on `((((`, from each start, where the aid to BAL is made on the way.
const BALANCE: &[Told] = &[(Event::Exhausted, 14)];

/// The pattern of a row.
#[derive(Clone, Copy)]
enum RowPattern {
    Repetition,
    Cuts,
    Pending,
    Value,
    Balance,
}

/// A match, and what it tells.
#[derive(Clone, Copy)]
struct Row {
    pattern: RowPattern,
    subject: &'static [u8],
    anchored: bool,
    told: &'static [Told],
    pending: &'static [Pending],
}

const ROWS: [Row; 5] = [
    Row {
        pattern: RowPattern::Repetition,
        subject: b"AAA",
        anchored: true,
        told: REPETITION,
        pending: &[],
    },
    Row {
        pattern: RowPattern::Cuts,
        subject: b"AAA",
        anchored: true,
        told: CUTS,
        pending: &[],
    },
    Row {
        pattern: RowPattern::Pending,
        subject: b"XY",
        anchored: true,
        told: PENDING,
        pending: ASSIGNMENTS,
    },
    Row {
        pattern: RowPattern::Value,
        subject: b"AA",
        anchored: true,
        told: VALUE,
        pending: &[],
    },
    Row {
        pattern: RowPattern::Balance,
        subject: b"((((",
        anchored: false,
        told: BALANCE,
        pending: &[],
    },
];

/// Whether each match tells its events, also where one is asked for again behind a refusal.
pub(crate) fn holds<P: Points>(alloc: Global) -> Result<bool, AllocError> {
    let mut table = Patterns::new(alloc);
    for row in ROWS {
        let Ok(pattern) = add_pattern(&mut table, row.pattern) else {
            return Err(AllocError);
        };
        if pattern.0 >= table.len() || !tells::<P>(alloc, &table, pattern, row) {
            return Ok(false);
        }
    }
    Ok(true)
}

/// Adds the pattern of a row. The first of the table is then the text A.
fn add_pattern(table: &mut Patterns, pattern: RowPattern) -> Result<PatId, BuildError> {
    match pattern {
        RowPattern::Repetition => add_repetition(table),
        RowPattern::Cuts => add_cuts(table),
        RowPattern::Pending => add_pending(table),
        RowPattern::Value => add_value(table),
        RowPattern::Balance => add_balance(table),
    }
}

/// Adds 'A' | 'AA'.
fn add_choice(table: &mut Patterns) -> Result<PatId, BuildError>
    ensures { IfOk result (λ id. id.0 < length table.new) }
{
    let a = table.text(b"A")?;
    let aa = table.text(b"AA")?;
    let choice = table.alt(a, aa)?;
    Ok(choice)
}

fn add_repetition(table: &mut Patterns) -> Result<PatId, BuildError> {
    let choice = add_choice(table)?;
    let repetition = table.arbno(choice)?;
    Ok(repetition)
}

fn add_cuts(table: &mut Patterns) -> Result<PatId, BuildError> {
    let choice = add_choice(table)?;
    let inner = table.cut(choice)?;
    let a = table.text(b"A")?;
    let both = table.cat(inner, a)?;
    let outer = table.cut(both)?;
    let rest = table.rem()?;
    let cuts = table.cat(outer, rest)?;
    Ok(cuts)
}

fn add_pending(table: &mut Patterns) -> Result<PatId, BuildError> {
    let one = table.prim(Prim::Len, Arg::Count(1))?;
    let first = table.cond(one, X)?;
    let both = table.cat(first, one)?;
    let pending = table.cond(both, Y)?;
    Ok(pending)
}

fn add_value(table: &mut Patterns) -> Result<PatId, BuildError> {
    let one = table.prim(Prim::Len, Arg::Count(1))?;
    let first = table.imm(one, X)?;
    let part = table.defer(ExprId(7))?;
    let value = table.cat(first, part)?;
    Ok(value)
}

fn add_balance(table: &mut Patterns) -> Result<PatId, BuildError> {
    let balanced = table.bal()?;
    let x = table.text(b"X")?;
    let balance = table.cat(balanced, x)?;
    Ok(balance)
}

/// Whether a match tells its events, and tells them anew where it is begun again.
fn tells<P: Points>(alloc: Global, table: &Patterns, pattern: PatId, row: Row) -> bool
    requires { pattern.0 < length table.now }
{
    let Some(mut m) = begin::<P>(alloc, table, pattern, row) else {
        return false;
    };
    let Some(text) = text_of(alloc, row.subject) else {
        return false;
    };
    tells_all(&mut m, table, row)
        && begins_again(&mut m, table, pattern, row, None)
        && begins_again(&mut m, table, pattern, row, Some(&text))
        && tells_all(&mut m, table, row)
        && begins_again(&mut m, table, pattern, row, None)
        && tells_all(&mut m, table, row)
}

/// A subject as a string.
fn text_of(alloc: Global, subject: &[u8]) -> Option<Text> {
    match Text::from_slice(alloc, subject) {
        Ok(text) => Some(text),
        Err(_) => Text::from_slice(alloc, subject).ok(),
    }
}

/// Whether a match that has begun tells its events. A deferred part is answered by the first pattern of the table.
fn tells_all<P: Points>(m: &mut Engine<P>, table: &Patterns, row: Row) -> bool
    requires table { m.old.nodes ≡ table.now }
    requires asked { m.old.waits ≡ false }
{
    let mut told = 0u64;
    'events: for (event, steps) in row.told {
        if ask(m, table, *steps) != Some(*event) || m.steps() != *steps {
            return false;
        }
        told = told.saturating_add(1);
        if m.told() != told || !is_answered(m, table) {
            return false;
        }
    }
    m.pending() == row.pending
}

/// Begins a match again, once more behind a refusal, which has changed nothing. Its subject may be lent.
fn begins_again<P: Points>(
    m: &mut Engine<P>,
    table: &Patterns,
    pattern: PatId,
    row: Row,
    lent: Option<&Text>,
) -> bool
    requires { pattern.0 < length table.now }
    ensures table { IsTrue result → m.new.nodes ≡ table.now }
    ensures asked { IsTrue result → m.new.waits ≡ false }
{
    let told = m.told();
    let steps = m.steps();
    let points = m.points();
    if begin_once(m, table, pattern, row, lent) {
        return true;
    }
    if m.told() != told || m.steps() != steps || m.points() != points {
        return false;
    }
    begin_once(m, table, pattern, row, lent)
}

/// Begins a match again. It is false where memory was refused.
fn begin_once<P: Points>(
    m: &mut Engine<P>,
    table: &Patterns,
    pattern: PatId,
    row: Row,
    lent: Option<&Text>,
) -> bool
    requires { pattern.0 < length table.now }
    ensures table { IsTrue result → m.new.nodes ≡ table.now }
    ensures asked { IsTrue result → m.new.waits ≡ false }
{
    match lent {
        Some(text) => m.begin_on(table, pattern, text, row.anchored, 1000).is_ok(),
        None => m
            .begin_again(table, pattern, row.subject, row.anchored, 1000)
            .is_ok(),
    }
}

/// The match of a row.
fn begin<P: Points>(alloc: Global, table: &Patterns, pattern: PatId, row: Row) -> Option<Engine<P>>
    requires { pattern.0 < length table.now }
    ensures nodes { IfSome result (λ m. m.nodes ≡ table.now) }
    ensures asked { IfSome result (λ m. m.waits ≡ false) }
{
    match Engine::new(alloc, table, pattern, row.subject, row.anchored, 1000) {
        Ok(m) => Some(m),
        Err(_) => Engine::new(alloc, table, pattern, row.subject, row.anchored, 1000).ok(),
    }
}

/// The next event, which is asked for again behind a refusal: none was told, and the steps are no fewer than before and
/// no more than those of this event.
fn ask<P: Points>(m: &mut Engine<P>, table: &Patterns, most: u32) -> Option<Event>
    requires table { m.old.nodes ≡ table.now }
    requires asked { m.old.waits ≡ false }
    ensures { m.new.nodes ≡ table.now }
{
    let told = m.told();
    let steps = m.steps();
    let event = ask_once(m, table);
    if event.is_some() {
        return event;
    }
    if m.told() != told || m.is_waiting() || m.steps() < steps || m.steps() > most {
        return None;
    }
    ask_once(m, table)
}

/// The next event, or None where memory was refused.
#[tactic(auto, using(crate::proofs::Tables::table_facts))]
fn ask_once<P: Points>(m: &mut Engine<P>, table: &Patterns) -> Option<Event>
    requires table { m.old.nodes ≡ table.now }
    requires asked { m.old.waits ≡ false }
    ensures { m.new.nodes ≡ table.now }
{
    m.next(table).ok()
}

/// Answers a match that waits, again behind a refusal, which has answered nothing.
fn is_answered<P: Points>(m: &mut Engine<P>, table: &Patterns) -> bool
    requires { m.old.nodes ≡ table.now }
    ensures table { m.new.nodes ≡ table.now }
    ensures asked { IsTrue result → m.new.waits ≡ false }
{
    if !m.is_waiting() {
        return true;
    }
    let told = m.told();
    let steps = m.steps();
    let answers = m.answers().len();
    if answer_once(m, table) {
        return true;
    }
    if !m.is_waiting() || m.told() != told || m.steps() != steps || m.answers().len() != answers {
        return false;
    }
    answer_once(m, table)
}

/// Answers a deferred part by the first pattern of the table. It is false where memory was refused.
#[tactic(auto, using(crate::proofs::Tables::table_facts))]
fn answer_once<P: Points>(m: &mut Engine<P>, table: &Patterns) -> bool
    requires table { m.old.nodes ≡ table.now }
    requires waiting { m.old.waits ≡ true }
    ensures table { m.new.nodes ≡ table.now }
    ensures asked { IsTrue result → m.new.waits ≡ false }
{
    if table.len() == 0 {
        return false;
    }
    m.answer(table, Some(PatId(0))).is_ok()
}
