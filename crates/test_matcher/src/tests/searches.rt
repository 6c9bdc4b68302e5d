//! A search of a pattern in a subject: all its events by a match over either stack, beside those that are wanted.
ghost use Rattle.std.specs.Prelude.{◌<◌, length, IfOk};

use super::driver::{Told, begin, events_of};
use super::forms::{Form, table_of};
use super::notation::forms_of;
use super::reference::search_events;
use super::rows::parts;
use sno_match::{CopiedGoals, Direct, DirectWay, Event, Points, SharedGoals, direct_way};
use sno_pattern::Patterns;
use sno_value::PatId;
use std::alloc::{AllocError, Global};
use std::process::Abort;
use std::test::Fail;

/// What is searched, from where, with at most how many steps, and what answers the deferred parts in turn.
#[derive(Clone, Copy, Drop)]
pub struct Search<'a> {
    pub subject: &'a [u8],
    pub anchored: bool,
    pub limit: u32,
    pub answers: &'a [Option<PatId>],
}

/// The first form answers the first deferred part, and no other is answered.
const ANSWERS: &[Option<PatId>] = &[Some(PatId(0))];

/// The search for which `anchored LIMIT SUBJECT: FORMS` or `floating LIMIT SUBJECT: FORMS` asks, and its forms.
pub fn search_of(text: &'static str) -> Result<(Search<'static>, &'static str), Fail> {
    let (mode, rest) = parts(text, " ")?;
    let (limit, rest) = parts(rest, " ")?;
    let (subject, words) = parts(rest, ": ")?;
    let limit: u32 = limit.parse()?;
    let s = Search {
        subject: subject.as_bytes(),
        anchored: mode == "anchored",
        limit,
        answers: ANSWERS,
    };
    Ok((s, words))
}

/// A table of the forms that words stand for, and the number of the last.
pub fn table_of_words(alloc: Global, words: &'static str) -> Result<(Patterns, PatId), Fail>
    ensures { IfOk result (λ made. made.1.0 < length made.0) }
{
    let forms = forms_of(alloc, words)?;
    let made = table_of(alloc, &forms)?;
    Ok(made)
}

/// The events of a match over a stack of this type, up to the last or to a Value for which there is no answer.
pub fn all_events<P: Points>(
    alloc: Global,
    table: &Patterns,
    pattern: PatId,
    s: Search<'_>,
) -> Result<Vec<Told>, AllocError>
    requires { pattern.0 < length table.now }
{
    let mut m = begin::<P>(alloc, table, pattern, s.subject, s.anchored, s.limit)?;
    events_of(alloc, &mut m, table, s.answers, 100_000)
}

/// Whether two events are equal, with their counts and pending lists.
fn is_same(got: &Told, want: &Told) -> bool {
    got.event == want.event
        && got.steps == want.steps
        && got.pending.as_slice() == want.pending.as_slice()
}

/// Compares events with those that are wanted.
pub fn check_same(rt: &impl Abort, got: &[Told], want: &[Told]) {
    assert_eq!(rt; got.len(), want.len());
    for (g, w) in got.iter().zip(want) {
        assert!(rt; is_same(g, w));
    }
}

/// Whether what is found directly, if anything is, is what was told first.
pub fn is_first(table: &Patterns, pattern: PatId, s: Search<'_>, told: &[Told]) -> bool
    requires { pattern.0 < length table.now }
{
    let mut way = DirectWay::new();
    let found = direct_way(table, pattern, s.subject, s.anchored, s.limit, &mut way);
    let Some(first) = told.first() else {
        return false;
    };
    let (start, end) = (way.start, way.end);
    match found {
        Direct::Way => {
            first.event == Event::Way { start, end } && first.pending.as_slice() == way.pending()
        }
        Direct::Vain => first.event == Event::Exhausted,
        Direct::Unknown => true,
    }
}

/// Compares what a match over a stack of this type tells with the events that are wanted.
fn check_stack<P: Points>(
    rt: &impl Abort,
    alloc: Global,
    table: &Patterns,
    pattern: PatId,
    s: Search<'_>,
    want: &[Told],
) -> Result<(), AllocError>
    requires { pattern.0 < length table.now }
{
    let told = all_events::<P>(alloc, table, pattern, s)?;
    check_same(rt, &told, want);
    Ok(())
}

/// Compares what a match over either stack tells with the events that are wanted.
pub fn check_stacks(
    rt: &impl Abort,
    alloc: Global,
    table: &Patterns,
    pattern: PatId,
    s: Search<'_>,
    want: &[Told],
) -> Result<(), AllocError>
    requires { pattern.0 < length table.now }
{
    check_stack::<SharedGoals>(rt, alloc, table, pattern, s, want)?;
    check_stack::<CopiedGoals>(rt, alloc, table, pattern, s, want)
}

/// Compares what a match over either stack and the plain search tell, and what is found directly, and gives the number of
/// events.
fn compare_over(
    rt: &impl Abort,
    alloc: Global,
    table: &Patterns,
    pattern: PatId,
    forms: &[Form],
    s: Search<'_>,
) -> Result<usize, Fail>
    requires { pattern.0 < length table.now }
{
    let want = search_events(
        alloc, forms, pattern, s.subject, s.anchored, s.limit, s.answers,
    )?;
    check_stacks(rt, alloc, table, pattern, s, &want)?;
    assert!(rt; is_first(table, pattern, s, &want));
    Ok(want.len())
}

/// The same of the last of some forms.
pub fn compare_forms(
    rt: &impl Abort,
    alloc: Global,
    forms: &[Form],
    s: Search<'_>,
) -> Result<usize, Fail> {
    let (table, pattern) = table_of(alloc, forms)?;
    compare_over(rt, alloc, &table, pattern, forms, s)
}

/// The same of the last form for which words stand.
pub fn compare_words(
    rt: &impl Abort,
    alloc: Global,
    words: &'static str,
    s: Search<'_>,
) -> Result<usize, Fail> {
    let forms = forms_of(alloc, words)?;
    compare_forms(rt, alloc, &forms, s)
}
