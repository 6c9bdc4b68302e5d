//! Refused memory: a stack of points that refuses growths, which are then asked for again.
ghost use Rattle.std.specs.Prelude.{◌≡◌, ◌<◌, ◌+◌, false, length, IfOk};

use super::driver::{begin, check_number, next_event};
use sno_match::{CopiedGoals, Engine, Event, Goal, Pending, Points, SharedGoals, Top};
use sno_pattern::{BuildError, Looks, Patterns};
use sno_value::PatId;
use std::alloc::{AllocError, Global};
use std::process::Abort;
use std::test::Fail;

/// Refuses growths. Which ones, the number of the pattern modulo 64 says, since nothing else reaches a stack from a
/// test: every second one for the pattern with the number 3, the first alone for that with 4, the second for that with
/// 5, and so on.
#[derive(Drop)]
struct Refusing<P: Points> {
    inner: P,
    pattern: u32,
    asked: u32,
}

impl<P: Points> Refusing<P> {
    /// Whether the growth that is asked for now is refused.
    fn refuses(&mut self) -> bool
        ensures { self.new.inner ≡ self.old.inner }
    {
        self.asked = self.asked.saturating_add(1);
        if self.pattern == 3 {
            self.asked % 2 == 1
        } else {
            self.asked == self.pattern.saturating_sub(3)
        }
    }
}

impl<P: Points> Points for Refusing<P> {
    ghost points = { λ s. P.points s.inner };

    ghost records = { λ s. P.records s.inner };

    fn empty(alloc: Global) -> Refusing<P> {
        Refusing {
            inner: P::empty(alloc),
            pattern: 0,
            asked: 0,
        }
    }

    fn depth(&self) -> usize {
        self.inner.depth()
    }

    fn count_records(&self) -> usize {
        self.inner.count_records()
    }

    fn top(&self) -> Top {
        self.inner.top()
    }

    fn replace(&mut self, front: &[Goal], cursor: usize) -> Result<(), AllocError> {
        if self.refuses() {
            return Err(AllocError);
        }
        self.inner.replace(front, cursor)
    }

    fn branch(&mut self, front: &[Goal], cursor: usize, next: usize) -> Result<(), AllocError> {
        if self.refuses() {
            return Err(AllocError);
        }
        self.inner.branch(front, cursor, next)
    }

    fn close(&mut self, assignment: Pending) -> Result<(), AllocError> {
        if self.refuses() {
            return Err(AllocError);
        }
        self.inner.close(assignment)
    }

    fn cut(&mut self, depth: usize) {
        self.inner.cut(depth)
    }

    /// None, so that each growth is asked for here.
    fn take_silent_steps(
        &mut self,
        _steps: &mut u32,
        _looks: &mut Looks,
        _patterns: &Patterns,
        _subject: &[u8],
        _limit: u32,
    ) {}

    fn pop(&mut self) {
        self.inner.pop()
    }

    fn finish(&mut self, way: &mut Vec<Pending>) -> Result<(), AllocError> {
        if self.refuses() {
            return Err(AllocError);
        }
        self.inner.finish(way)
    }

    fn begin(&mut self, goal: Goal, cursor: usize) -> Result<(), AllocError> {
        if let Goal::Match(pattern) = goal {
            self.pattern = pattern.0 % 64;
            self.asked = 0;
        }
        self.inner.begin(goal, cursor)
    }
}

/// Adds 'A' | 'AA'.
fn add_choice(table: &mut Patterns) -> Result<PatId, BuildError>
    ensures { IfOk result (λ id. id.0 < length table.new) }
{
    let a = table.text(b"A")?;
    let aa = table.text(b"AA")?;
    let choice = table.alt(a, aa)?;
    Ok(choice)
}

/// Adds ARBNO('A' | 'AA').
fn add_repetition(table: &mut Patterns) -> Result<PatId, BuildError>
    ensures { IfOk result (λ id. id.0 < length table.new) }
{
    let choice = add_choice(table)?;
    let some = table.arbno(choice)?;
    Ok(some)
}

/// What a pattern tells in AAA from 0.
#[derive(Clone, Copy, Drop)]
struct Expected {
    /// The ends of its ways, and their counts of steps.
    ways: &'static [(usize, u32)],
    /// The count of steps when no way is left.
    steps: u32,
}

const REPETITION: Expected = Expected {
    ways: &[(0, 1), (1, 6), (2, 11), (3, 16), (3, 27), (2, 36), (3, 41)],
    steps: 48,
};

/// FENCE(FENCE('A' | 'AA') 'A') REM.
const CUTS: Expected = Expected {
    ways: &[(3, 10)],
    steps: 10,
};

/// One for each of its steps but 7 and 9, at which a cut is closed, and one for the way.
const GROWTHS_OF_CUTS: u32 = 9;

/// The growths of the repetition behind `new`: one for each step but 19, 21, 23, 30, 32, 44, 46 and 48, which fail, and
/// one for each way.
const GROWTHS: u32 = 47;

/// The next event, asked for again after each refusal: none was told, and the steps are no fewer than those of the
/// event before, and no more than those of this one.
fn ask_again<P: Points>(
    rt: &impl Abort,
    m: &mut Engine<P>,
    table: &Patterns,
    steps: u32,
    refused: &mut u32,
) -> Option<Event>
    requires table { m.old.nodes ≡ table.now }
    requires asked { m.old.waits ≡ false }
    ensures { m.new.nodes ≡ table.now }
{
    let told = m.told();
    let since = m.steps();
    'asking: for _ in 0..1000 {
        match next_event(m, table) {
            Ok(event) => return Some(event),
            Err(_) => {
                *refused = refused.saturating_add(1);
                assert_eq!(rt; m.told(), told);
                assert!(rt; since <= m.steps());
                assert!(rt; m.steps() <= steps);
            }
        }
    }
    None
}

/// Asks for the next event, again after each refusal, which are counted, and compares it and its steps with those that
/// are wanted.
fn check_next<P: Points>(
    rt: &impl Abort,
    m: &mut Engine<P>,
    table: &Patterns,
    want: Event,
    steps: u32,
    refused: &mut u32,
)
    requires table { m.old.nodes ≡ table.now }
    requires asked { m.old.waits ≡ false }
    ensures { m.new.nodes ≡ table.now }
{
    let told = ask_again(rt, m, table, steps, refused);
    assert_eq!(rt; told, Some(want));
    assert_eq!(rt; m.steps(), steps);
}

/// Asks for all events, and gives the number of refusals.
fn ask_for_all<P: Points>(
    rt: &impl Abort,
    m: &mut Engine<P>,
    table: &Patterns,
    expected: Expected,
) -> u32
    requires table { m.old.nodes ≡ table.now }
    requires asked { m.old.waits ≡ false }
{
    let mut refused = 0u32;
    'ways: for (end, steps) in expected.ways {
        let way = Event::Way {
            start: 0,
            end: *end,
        };
        check_next(rt, m, table, way, *steps, &mut refused);
        assert!(rt; !m.is_waiting());
    }
    check_next(rt, m, table, Event::Exhausted, expected.steps, &mut refused);
    assert_eq!(rt; m.told(), expected.ways.len() as u64 + 1);
    refused
}

/// Asks a pattern for all its events, and gives the number of refusals. An Err is a refusal before the first.
fn asked_again<P: Points>(
    rt: &impl Abort,
    table: &Patterns,
    pattern: PatId,
    alloc: Global,
    expected: Expected,
) -> Result<u32, AllocError>
    requires { pattern.0 < length table.now }
{
    let mut m = begin::<P>(alloc, table, pattern, b"AAA", true, 1000)?;
    let refused = ask_for_all(rt, &mut m, table, expected);
    Ok(refused)
}

/// The number of refusals, also where the first is in `new`.
fn asked_in_full<P: Points>(
    rt: &impl Abort,
    table: &Patterns,
    pattern: PatId,
    alloc: Global,
    expected: Expected,
) -> Result<u32, AllocError>
    requires { pattern.0 < length table.now }
{
    match asked_again::<P>(rt, table, pattern, alloc, expected) {
        Ok(refused) => Ok(refused),
        Err(_) => {
            let refused = asked_again::<P>(rt, table, pattern, alloc, expected)?;
            Ok(refused.saturating_add(1))
        }
    }
}

/// The numbers of refusals over either stack, which are the same.
fn count_refusals(
    rt: &impl Abort,
    table: &Patterns,
    pattern: PatId,
    alloc: Global,
    expected: Expected,
) -> Result<u32, AllocError>
    requires { pattern.0 < length table.now }
{
    let shared = asked_again::<Refusing<SharedGoals>>(rt, table, pattern, alloc, expected)?;
    let copied = asked_again::<Refusing<CopiedGoals>>(rt, table, pattern, alloc, expected)?;
    assert_eq!(rt; shared, copied);
    Ok(shared)
}

#[test]
fn every_second_growth_is_refused(rt: HostRuntime) -> Result<(), Fail> {
    let mut table = Patterns::new(rt.alloc());
    let some = add_repetition(&mut table)?;
    assert_eq!(rt; some.0, 3);
    let refusals = count_refusals(&rt, &table, some, rt.alloc(), REPETITION)?;
    assert_eq!(rt; refusals, GROWTHS);
    Ok(())
}

/// Refuses each growth of a choice that is repeated once, in a match of its own, and gives the number of growths.
fn count_growths(
    rt: &impl Abort,
    table: &mut Patterns,
    choice: PatId,
    alloc: Global,
) -> Result<u32, Fail>
    requires { choice.0 < length table.old }
{
    let mut growths = 0u32;
    'growths: for k in 0..1000u32 {
        let some = table.arbno(choice)?;
        check_number(rt, "the repetition", some.0 as usize, k as usize + 4);
        let refusals = count_refusals(rt, table, some, alloc, REPETITION)?;
        if refusals == 0 {
            break;
        }
        check_number(rt, "the refusals", refusals as usize, 1);
        growths = k + 1;
    }
    Ok(growths)
}

/// Each growth behind `new` is refused once; that in `new` is left to the test below.
#[test]
fn each_growth_is_refused_once(rt: HostRuntime) -> Result<(), Fail> {
    let mut table = Patterns::new(rt.alloc());
    check_each(&rt, &mut table, rt.alloc())
}

fn check_each(rt: &impl Abort, table: &mut Patterns, alloc: Global) -> Result<(), Fail> {
    let choice = add_choice(table)?;
    let _third = table.arbno(choice)?;
    let growths = count_growths(rt, table, choice, alloc)?;
    assert_eq!(rt; growths, GROWTHS);
    Ok(())
}

/// Adds FENCE(FENCE('A' | 'AA') 'A') and REM.
fn add_cuts(table: &mut Patterns) -> Result<(PatId, PatId), BuildError>
    ensures first { IfOk result (λ made. made.0.0 < length table.new) }
    ensures second { IfOk result (λ made. made.1.0 < length table.new) }
{
    let choice = add_choice(table)?;
    let inner = table.cut(choice)?;
    let a = table.text(b"A")?;
    let both = table.cat(inner, a)?;
    let outer = table.cut(both)?;
    let rest = table.rem()?;
    Ok((outer, rest))
}

/// Refuses each growth of a cut in a cut once, and then none.
fn check_growths_of_cuts(
    rt: &impl Abort,
    table: &mut Patterns,
    outer: PatId,
    rest: PatId,
    alloc: Global,
) -> Result<(), Fail>
    requires outer { outer.0 < length table.old }
    requires rest { rest.0 < length table.old }
{
    for _other in table.len()..68 {
        let _none = table.fail()?;
    }
    'growths: for k in 0..20u32 {
        let pattern = table.cat(outer, rest)?;
        check_number(rt, "the pattern", pattern.0 as usize, k as usize + 68);
        let refusals = count_refusals(rt, table, pattern, alloc, CUTS)?;
        let refused = if k < GROWTHS_OF_CUTS { 1 } else { 0 };
        check_number(rt, "the refusals", refusals as usize, refused);
    }
    Ok(())
}

/// The same of a cut in a cut.
#[test]
fn each_growth_of_cuts_is_refused_once(rt: HostRuntime) -> Result<(), Fail> {
    let mut table = Patterns::new(rt.alloc());
    let (outer, rest) = add_cuts(&mut table)?;
    check_growths_of_cuts(&rt, &mut table, outer, rest, rt.alloc())
}

/// With `rt try --test --fail-alloc N` the Nth allocation is refused, wherever it stands: while the table is built, in
/// `new` or in `next`. What was refused is asked for again.
#[test]
fn a_refused_allocation_is_no_event(rt: HostRuntime) -> Result<(), Fail> {
    let mut table = Patterns::new(rt.alloc());
    let mut before = 0u32;
    let some = match add_repetition(&mut table) {
        Ok(some) => some,
        Err(_) => {
            before = 1;
            add_repetition(&mut table)?
        }
    };
    let shared = asked_in_full::<SharedGoals>(&rt, &table, some, rt.alloc(), REPETITION)?;
    let copied = asked_in_full::<CopiedGoals>(&rt, &table, some, rt.alloc(), REPETITION)?;
    assert!(rt; shared <= 1);
    assert!(rt; copied <= 1);
    assert!(rt; before + shared + copied <= 1);
    Ok(())
}
