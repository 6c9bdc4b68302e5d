//! A match that begins again: it tells what a new one tells, whatever the match before was left at.
ghost use Rattle.std.specs.Prelude.{◌≡◌, ◌<◌, false, length, OnOk};

use super::drawing::drawn_events;
use super::driver::{Told, begin, begin_again, begin_on, events_of};
use super::forms::{Form, table_of};
use super::generated::{Chance, SUBJECTS};
use super::reference::search_events;
use super::rows::{Question, check_rows, parts};
use super::searches::{Search, check_same, search_of, table_of_words};
use sno_match::{CopiedGoals, Engine, Points, SharedGoals};
use sno_pattern::Patterns;
use sno_value::{PatId, Text};
use std::alloc::{AllocError, Global};
use std::process::Abort;
use std::test::Fail;

/// What a row asks for: `COUNT of SEARCH then SEARCH`. So many events of the first search are told, and then all of the
/// other one. The first form answers the first deferred part, and no other is answered.
#[derive(Drop)]
struct Again;

impl Question for Again {
    fn answer(alloc: Global, text: &'static str) -> Result<String, Fail> {
        let (before, after) = parts(text, " then ")?;
        let text = told_behind::<SharedGoals>(alloc, before, after)?;
        let copied = told_behind::<CopiedGoals>(alloc, before, after)?;
        if text.as_str() != copied.as_str() {
            return Err(Fail::from("the stacks tell different events"));
        }
        Ok(text)
    }
}

/// The events of a search by a match that has told some of another, twice: of a subject that is lent too, where they
/// must be the same.
fn told_behind<P: Points>(
    alloc: Global,
    before: &'static str,
    after: &'static str,
) -> Result<String, Fail> {
    let copied = told_once::<P>(alloc, before, after, false)?;
    let lent = told_once::<P>(alloc, before, after, true)?;
    if lent.as_str() != copied.as_str() {
        return Err(Fail::from("a subject that is lent tells different events"));
    }
    Ok(copied)
}

fn told_once<P: Points>(
    alloc: Global,
    before: &'static str,
    after: &'static str,
    lent: bool,
) -> Result<String, Fail> {
    let mut m = left_match::<P>(alloc, before)?;
    told_next(alloc, &mut m, after, lent)
}

/// The events of a search by a match that begins again.
fn told_next<P: Points>(
    alloc: Global,
    m: &mut Engine<P>,
    after: &'static str,
    lent: bool,
) -> Result<String, Fail> {
    let (s, words) = search_of(after)?;
    let (table, pattern) = table_of_words(alloc, words)?;
    drawn_again(alloc, m, &table, pattern, s, lent)
}

fn drawn_again<P: Points>(
    alloc: Global,
    m: &mut Engine<P>,
    table: &Patterns,
    pattern: PatId,
    s: Search<'_>,
    lent: bool,
) -> Result<String, Fail>
    requires { pattern.0 < length table.now }
{
    let told = events_again(alloc, m, table, pattern, s, lent, 100)?;
    let text = drawn_events(alloc, &told)?;
    Ok(text)
}

/// At most so many events of a search by a match that begins again.
fn events_again<P: Points>(
    alloc: Global,
    m: &mut Engine<P>,
    table: &Patterns,
    pattern: PatId,
    s: Search<'_>,
    lent: bool,
    most: usize,
) -> Result<Vec<Told>, AllocError>
    requires { pattern.0 < length table.now }
{
    begin_search(alloc, m, table, pattern, s, lent)?;
    events_of(alloc, m, table, s.answers, most)
}

/// A match that has told some events, as `COUNT of SEARCH` has it.
fn left_match<P: Points>(alloc: Global, text: &'static str) -> Result<Engine<P>, Fail> {
    let (count, search) = parts(text, " of ")?;
    let count: usize = count.parse()?;
    let (s, words) = search_of(search)?;
    left_by_words::<P>(alloc, words, s, count)
}

fn left_by_words<P: Points>(
    alloc: Global,
    words: &'static str,
    s: Search<'_>,
    count: usize,
) -> Result<Engine<P>, Fail> {
    let (table, pattern) = table_of_words(alloc, words)?;
    left_over::<P>(alloc, &table, pattern, s, count)
}

fn left_over<P: Points>(
    alloc: Global,
    table: &Patterns,
    pattern: PatId,
    s: Search<'_>,
    count: usize,
) -> Result<Engine<P>, Fail>
    requires { pattern.0 < length table.now }
{
    let mut m = begin::<P>(alloc, table, pattern, s.subject, s.anchored, s.limit)?;
    tell_some(alloc, &mut m, table, s, count)?;
    Ok(m)
}

/// Has so many events told, which are let go.
fn tell_some<P: Points>(
    alloc: Global,
    m: &mut Engine<P>,
    table: &Patterns,
    s: Search<'_>,
    count: usize,
) -> Result<(), AllocError>
    requires table { m.old.nodes ≡ table.now }
    requires asked { m.old.waits ≡ false }
{
    let _told = events_of(alloc, m, table, s.answers, count)?;
    Ok(())
}

/// Begins a search. Its subject is copied, or lent: the match is the only one that holds it then.
fn begin_search<P: Points>(
    alloc: Global,
    m: &mut Engine<P>,
    table: &Patterns,
    pattern: PatId,
    s: Search<'_>,
    lent: bool,
) -> Result<(), AllocError>
    requires { pattern.0 < length table.now }
    ensures table { OnOk result (m.new.nodes ≡ table.now) }
    ensures asked { OnOk result (m.new.waits ≡ false) }
{
    if lent {
        let subject = Text::from_slice(alloc, s.subject)?;
        begin_on(m, table, pattern, &subject, s.anchored, s.limit)?;
        return Ok(());
    }
    begin_again(m, table, pattern, s.subject, s.anchored, s.limit)?;
    Ok(())
}

/// The match before is left behind a way, with points and a pending list; exhausted; aborted; out of steps; waiting for
/// an answer behind another; before its first event; with a table of BAL's ends and runs of the same primitives; and with
/// subjects that are as long as a string whose block is shared.
const LEFT: &str = r"
1 of floating 1000 ABAB: LEN:1 .:0,3 TEXT:A |:1,2 then anchored 1000 AB: TEXT:A TEXT:AB |:0,1 => way 0 1 at 2; way 0 2 at 4; exhausted at 4;
1 of floating 1000 ABAB: LEN:1 .:0,3 TEXT:A |:1,2 then anchored 1000 AB: TEXT:B => exhausted at 1;
9 of anchored 1000 AB: LEN:1 .:0,3 then floating 3 A: TEXT:A => way 0 1 at 1; exhausted at 3;
9 of floating 1000 BA: TEXT:A ABORT &:0,1 TEXT:B |:2,3 then floating 1000 BBA: TEXT:A => way 2 3 at 5; exhausted at 7;
9 of floating 3 : SUCCEED then anchored 1000 A: TEXT:A .:0,7 CUT:1 => way 0 1 at 5 with 7 0 1; exhausted at 5 with 7 0 1;
9 of floating 3 : SUCCEED then anchored 3 AB: TEXT:A TEXT:AB |:0,1 => way 0 1 at 2; limit at 3;
9 of anchored 1000 AB: TEXT:A *:4 &:0,1 *:4 &:2,3 then anchored 10 AB: TEXT:A *:4 => value 4 at 1; way 0 1 at 2; exhausted at 2;
0 of floating 1000 AB: LEN:1 then anchored 1000 B: FENCE TEXT:A &:0,1 TEXT:B |:2,3 => aborted at 4;
9 of floating 1000 ((((: BAL TEXT:X &:0,1 then floating 1000 (A): BAL => way 0 3 at 1; way 1 2 at 3; exhausted at 7;
9 of floating 1000 AAAB: SPAN:A TEXT:C &:0,1 then floating 1000 BAAB: SPAN:A => way 1 3 at 3; way 2 3 at 5; exhausted at 9;
1 of floating 1000 AAAAAAAAAAAAAAAAAAAAAAAAAB: TEXT:A then anchored 1000 BBBBBBBBBBBBBBBBBBBBBBBBBBBBBB: SPAN:B => way 0 30 at 1; exhausted at 1;
1 of floating 1000 ABABABABABABABABABABABABAB: TEXT:A then anchored 1000 A: SPAN:B TEXT:A |:0,1 => way 0 1 at 4; exhausted at 4;
";

#[test]
fn a_match_begins_again(rt: HostRuntime) -> Result<(), Fail> {
    check_rows::<Again, _>(&rt, LEFT)
}

/// How many patterns one match is begun again with.
const PATTERNS: usize = 2_000;

/// Compares what a match that begins again and the plain search tell of a pattern, and then leaves the match behind
/// some of the pattern's events.
fn compare<P: Points>(
    rt: &impl Abort,
    alloc: Global,
    chance: &mut Chance,
    m: &mut Engine<P>,
) -> Result<usize, Fail> {
    let forms = chance.forms(alloc)?;
    compare_forms(rt, alloc, chance, m, &forms)
}

fn compare_forms<P: Points>(
    rt: &impl Abort,
    alloc: Global,
    chance: &mut Chance,
    m: &mut Engine<P>,
    forms: &[Form],
) -> Result<usize, Fail> {
    let (table, pattern) = table_of(alloc, forms)?;
    compare_answered(rt, alloc, chance, m, forms, &table, pattern)
}

fn compare_answered<P: Points>(
    rt: &impl Abort,
    alloc: Global,
    chance: &mut Chance,
    m: &mut Engine<P>,
    forms: &[Form],
    table: &Patterns,
    pattern: PatId,
) -> Result<usize, Fail>
    requires { pattern.0 < length table.now }
{
    let answers = chance.answers(alloc, forms.len())?;
    let s = Search {
        subject: chance.among(&SUBJECTS),
        anchored: chance.below(2) == 0,
        limit: chance.below(90) as u32,
        answers: &answers,
    };
    let events = compare_twice(rt, alloc, m, forms, table, pattern, s)?;
    begin_search(alloc, m, table, pattern, s, events % 2 == 0)?;
    tell_some(alloc, m, table, s, chance.below(8))?;
    Ok(events)
}

/// Compares the events of a subject that is copied, and of one that is lent, and gives their number.
fn compare_twice<P: Points>(
    rt: &impl Abort,
    alloc: Global,
    m: &mut Engine<P>,
    forms: &[Form],
    table: &Patterns,
    pattern: PatId,
    s: Search<'_>,
) -> Result<usize, AllocError>
    requires { pattern.0 < length table.now }
{
    let want = search_events(
        alloc, forms, pattern, s.subject, s.anchored, s.limit, s.answers,
    )?;
    check_again(rt, alloc, m, table, pattern, s, false, &want)?;
    check_again(rt, alloc, m, table, pattern, s, true, &want)?;
    Ok(want.len())
}

fn check_again<P: Points>(
    rt: &impl Abort,
    alloc: Global,
    m: &mut Engine<P>,
    table: &Patterns,
    pattern: PatId,
    s: Search<'_>,
    lent: bool,
    want: &[Told],
) -> Result<(), AllocError>
    requires { pattern.0 < length table.now }
{
    let told = events_again(alloc, m, table, pattern, s, lent, 100_000)?;
    check_same(rt, &told, want);
    Ok(())
}

/// Begins one match over a stack of this type again and again, and gives the number of events.
fn compare_all<P: Points>(rt: &impl Abort, alloc: Global, seed: u64) -> Result<usize, Fail> {
    let mut m = left_match::<P>(alloc, "0 of floating 9 A: TEXT:A")?;
    compare_with(rt, alloc, &mut m, seed)
}

fn compare_with<P: Points>(
    rt: &impl Abort,
    alloc: Global,
    m: &mut Engine<P>,
    seed: u64,
) -> Result<usize, Fail> {
    let mut chance = Chance(seed);
    let mut events = 0usize;
    for _ in 0..PATTERNS {
        let more = compare(rt, alloc, &mut chance, m)?;
        events = events.saturating_add(more);
    }
    Ok(events)
}

#[test]
fn one_match_tells_what_the_plain_search_tells(rt: HostRuntime) -> Result<(), Fail> {
    assert!(rt; compare_all::<SharedGoals>(&rt, rt.alloc(), 5)? > 6_000);
    assert!(rt; compare_all::<CopiedGoals>(&rt, rt.alloc(), 6)? > 6_000);
    Ok(())
}
