//! One event at a time: what is told next, behind an answer and behind the last event.
ghost use Rattle.std.specs.Prelude.{◌≡◌, ◌<◌, false, length, IfOk};

use super::drawing::drawn_with;
use super::driver::{begin, give, give_new, next_event};
use super::rows::{Question, check_rows};
use super::searches::{Search, search_of, table_of_words};
use sno_match::Matcher;
use sno_pattern::Patterns;
use sno_value::{ExprId, PatId};
use std::alloc::{AllocError, Global};
use std::process::Abort;
use std::test::Fail;

/// The first event, and where it is a value also the event behind the answer, which is the first form: each with the
/// steps up to it, how many events were told, and the length of the subject, which the match takes over.
#[derive(Drop)]
struct FirstEvents;

impl Question for FirstEvents {
    fn answer(alloc: Global, text: &'static str) -> Result<String, Fail> {
        let (s, words) = search_of(text)?;
        let (table, pattern) = table_of_words(alloc, words)?;
        first_events(alloc, &table, pattern, s)
    }
}

fn first_events(
    alloc: Global,
    table: &Patterns,
    pattern: PatId,
    s: Search<'_>,
) -> Result<String, Fail>
    requires { pattern.0 < length table.now }
{
    let mut m = match_over(alloc, table, pattern, s)?;
    next_events(alloc, &mut m, table)
}

fn match_over(
    alloc: Global,
    table: &Patterns,
    pattern: PatId,
    s: Search<'_>,
) -> Result<Matcher, AllocError>
    requires { pattern.0 < length table.now }
    ensures table { IfOk result (λ m. m.nodes ≡ table.now) }
    ensures asked { IfOk result (λ m. m.waits ≡ false) }
{
    let subject = s.subject.to_vec(alloc)?;
    let m = Matcher::over(alloc, table, pattern, subject, s.anchored, s.limit)?;
    Ok(m)
}

/// The next event, and behind a value the one after it.
fn next_events(alloc: Global, m: &mut Matcher, table: &Patterns) -> Result<String, Fail>
    requires table { m.old.nodes ≡ table.now }
    requires asked { m.old.waits ≡ false }
    requires some { 0 < length table.now }
{
    let mut text = next_drawn(alloc, m, table)?;
    if m.is_waiting() {
        give(m, table, Some(PatId(0)))?;
        push_next(alloc, &mut text, m, table)?;
    }
    Ok(text)
}

fn push_next(
    alloc: Global,
    text: &mut String,
    m: &mut Matcher,
    table: &Patterns,
) -> Result<(), AllocError>
    requires table { m.old.nodes ≡ table.now }
    requires asked { m.old.waits ≡ false }
{
    let next = next_drawn(alloc, m, table)?;
    text.push_str("; ")?;
    text.push_str(next.as_str())?;
    Ok(())
}

/// The next event, the steps, how many events were told, and the length of the subject.
fn next_drawn(alloc: Global, m: &mut Matcher, table: &Patterns) -> Result<String, AllocError>
    requires table { m.old.nodes ≡ table.now }
    requires asked { m.old.waits ≡ false }
    ensures { m.new.nodes ≡ table.now }
{
    let event = next_event(m, table)?;
    let facts = [m.steps() as usize, m.told() as usize, m.subject().len()];
    let text = drawn_with(alloc, event, &facts)?;
    Ok(text)
}

/// SUCCEED has ways without end, also behind *E, which is answered by the empty text.
const FIRST_EVENTS: &str = r"
anchored 1000000000 : SUCCEED => way 0 0 1 1 0
anchored 1000000000 : TEXT: *:4 SUCCEED &:1,2 => value 4 2 1 0; way 0 0 4 2 0
floating 10 BA: TEXT:A => way 1 2 3 1 2
";

/// What a deferred part in a subject tells when it is answered by 'A', which joins the table behind its event: the next
/// event, the steps, and how many events were told.
#[derive(Drop)]
struct Answered;

impl Question for Answered {
    fn answer(alloc: Global, text: &'static str) -> Result<String, Fail> {
        let mut table = Patterns::new(alloc);
        let part = table.defer(ExprId(4))?;
        answered_by_new_node(alloc, &mut table, part, text.as_bytes())
    }
}

fn answered_by_new_node(
    alloc: Global,
    table: &mut Patterns,
    part: PatId,
    subject: &[u8],
) -> Result<String, Fail>
    requires { part.0 < length table.old }
{
    let mut m: Matcher = begin(alloc, table, part, subject, true, 10)?;
    told_behind_value(alloc, &mut m, table)
}

/// What is told behind a value that a node answers which the table got meanwhile.
fn told_behind_value(alloc: Global, m: &mut Matcher, table: &mut Patterns) -> Result<String, Fail>
    requires table { m.old.nodes ≡ table.old }
    requires asked { m.old.waits ≡ false }
{
    let _value = next_event(m, table)?;
    if !m.is_waiting() {
        return Err(Fail::from("no value is wanted"));
    }
    let a = table.text(b"A")?;
    give_new(m, table, a)?;
    told_behind(alloc, m, table, a)
}

/// What is told behind an answer, the first.
fn told_behind(
    alloc: Global,
    m: &mut Matcher,
    table: &Patterns,
    answer: PatId,
) -> Result<String, Fail>
    requires table { m.old.nodes ≡ table.now }
    requires asked { m.old.waits ≡ false }
{
    if m.answers() != [Some(answer)].as_slice() {
        return Err(Fail::from("another answer is known"));
    }
    let event = next_event(m, table)?;
    let facts = [m.steps() as usize, m.told() as usize];
    let text = drawn_with(alloc, event, &facts)?;
    Ok(text)
}

/// A value that is answered.
const ANSWERED: &str = r"
AB => way 0 1 2 2
BA => exhausted 2 2
";

/// What FAIL tells in a subject when it is asked twice: the second event, how many were told, and how many points and
/// records are left.
#[derive(Drop)]
struct Ended;

impl Question for Ended {
    fn answer(alloc: Global, text: &'static str) -> Result<String, Fail> {
        let mut table = Patterns::new(alloc);
        let none = table.fail()?;
        told_twice(alloc, &table, none, text.as_bytes())
    }
}

fn told_twice(alloc: Global, table: &Patterns, none: PatId, subject: &[u8]) -> Result<String, Fail>
    requires { none.0 < length table.now }
{
    let mut m: Matcher = begin(alloc, table, none, subject, true, 10)?;
    told_again(alloc, &mut m, table)
}

fn told_again(alloc: Global, m: &mut Matcher, table: &Patterns) -> Result<String, Fail>
    requires table { m.old.nodes ≡ table.now }
    requires asked { m.old.waits ≡ false }
{
    let _first = next_event(m, table)?;
    if m.is_waiting() {
        return Err(Fail::from("a value is wanted"));
    }
    let event = next_event(m, table)?;
    let facts = [m.told() as usize, m.points(), m.records()];
    let text = drawn_with(alloc, event, &facts)?;
    Ok(text)
}

/// The last event is told again.
const ENDED: &str = r"
AB => exhausted 1 0 0
";

#[test]
fn one_event_is_searched_for_at_a_time(rt: HostRuntime) -> Result<(), Fail> {
    check_rows::<FirstEvents, _>(&rt, FIRST_EVENTS)?;
    check_rows::<Answered, _>(&rt, ANSWERED)?;
    check_rows::<Ended, _>(&rt, ENDED)
}

/// Whether the bytes of a subject between two places are these.
fn has_part(m: &Matcher, start: usize, end: usize, part: &[u8]) -> bool {
    start <= end && end <= m.subject().len() && m.part(start, end) == part
}

fn check_parts(rt: &impl Abort, alloc: Global, table: &Patterns, pattern: PatId) -> Result<(), Fail>
    requires { pattern.0 < length table.now }
{
    let m: Matcher = begin(alloc, table, pattern, b"AB", true, 10)?;
    assert!(rt; has_part(&m, 0, 1, b"A"));
    assert!(rt; has_part(&m, 1, 2, b"B"));
    Ok(())
}

#[test]
fn parts_of_the_subject(rt: HostRuntime) -> Result<(), Fail> {
    let mut table = Patterns::new(rt.alloc());
    let none = table.fail()?;
    check_parts(&rt, rt.alloc(), &table, none)
}
