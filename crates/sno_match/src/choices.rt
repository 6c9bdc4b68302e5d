//! Starts at which a choice fails with which a pattern begins.
ghost use Rattle.std.specs.Prelude.{◌<◌, ◌≤◌, ◌-◌, ◌+◌, false, length, IfSome};
ghost use Rattle.std.specs.List.{AllByRecursion};
ghost use Rattle.sno_pattern.specs.Places.{BeginsWith};
ghost use Rattle.sno_pattern.specs.Table.{tree};
ghost use Rattle.sno_match.specs.inner.Sides.{sides_of, FailsWithSides, IsSide};
ghost use Rattle.sno_match.specs.inner.Starts.{Passes, FailsAt, FailsWith};

use crate::heads::Head;
use crate::side_list::SideList;
use crate::sides::{MOST_DEPTH, sides_in_vain, steps_in_vain};
use crate::starts::{Passed, pass_others};
use sno_pattern::{Beginning, Patterns};
use sno_value::PatId;

/// The last of the starts behind this one that fail where the pattern begins with a choice: those at which none of its
/// first bytes stands, and those at which one does and each side fails nevertheless.
pub(crate) fn pass_choice(
    patterns: &Patterns,
    pattern: PatId,
    head: Head,
    subject: &[u8],
    start: usize,
    left: u32,
) -> Passed
    requires known { head.id.0 < length patterns.now }
    requires fails { FailsWith (tree patterns.now pattern.0) (tree patterns.now head.id.0) head.above }
    requires near { head.above ≤ left - 2 }
    requires before { start < length subject.now }
    ensures inside { result.start ≤ length subject.now }
    ensures enough { result.steps ≤ left }
    ensures passes { Passes false (tree patterns.now pattern.0) subject.now start result.start result.steps }
{
    let none = Passed { start, steps: 0 };
    let Some(begins) = patterns.choice_begins(head.id) else {
        return none;
    };
    if begins.steps >= left - head.above {
        return none;
    }
    let price = begins.steps + head.above;
    let passed = pass_others(&begins.set, subject, start, price, left);
    if passed.start >= subject.len() || left - passed.steps <= head.above {
        return passed;
    }
    let left_there = left - passed.steps - head.above;
    let Some(_steps) = choice_in_vain(patterns, head.id, subject, passed.start + 1, left_there)
    else {
        return passed;
    };
    let passed = pass_sides(
        patterns, pattern, head, &begins, subject, start, passed, left,
    );
    passed
}

/// The same behind starts that were passed, where the next one is likely to be in vain: the sides are listed first.
#[inline(never)]
fn pass_sides(
    patterns: &Patterns,
    pattern: PatId,
    head: Head,
    begins: &Beginning,
    subject: &[u8],
    start: usize,
    before: Passed,
    left: u32,
) -> Passed
    requires known { head.id.0 < length patterns.now }
    requires fails { FailsWith (tree patterns.now pattern.0) (tree patterns.now head.id.0) head.above }
    requires begins { BeginsWith begins.now.set begins.now.steps (tree patterns.now head.id.0) }
    requires paid { begins.now.steps + head.above < 4294967295 }
    requires inside { before.start ≤ length subject.now }
    requires enough { before.steps ≤ left }
    requires passes { Passes false (tree patterns.now pattern.0) subject.now start before.start before.steps }
    ensures inside { result.start ≤ length subject.now }
    ensures enough { result.steps ≤ left }
    ensures passes { Passes false (tree patterns.now pattern.0) subject.now start result.start result.steps }
{
    let mut sides = SideList::new();
    let listed = sides.add_choice(patterns, head.id, begins.steps);
    let price = begins.steps + head.above;
    let mut passed = before;
    'starts: while passed.start < subject.len() {
        let here = passed.start + 1;
        let left = left - passed.steps;
        if left <= head.above {
            return passed;
        }
        let left_there = left - head.above;
        let Some(steps) = told_in_vain(patterns, head.id, &sides, listed, subject, here, left_there)
        else {
            return passed;
        };
        let steps = steps + head.above;
        let behind = pass_others(&begins.set, subject, here, price, left - steps - 1);
        passed.start = behind.start;
        passed.steps += steps + 1 + behind.steps;
    }
    passed
}

/// How many steps a choice's search takes in vain from a place, as its sides tell, where they are listed with the steps
/// that they take.
#[inline(always)]
fn told_in_vain(
    patterns: &Patterns,
    id: PatId,
    sides: &SideList,
    listed: Option<u32>,
    subject: &[u8],
    at: usize,
    left: u32,
) -> Option<u32>
    requires known { id.0 < length patterns.now }
    requires sides { AllByRecursion (IsSide patterns.now) (sides_of sides.now) }
    requires listed { IfSome listed (λ steps. FailsWithSides patterns.now (tree patterns.now id.0) steps (sides_of sides.now)) }
    requires inside { at ≤ length subject.now }
    requires some { 0 < left }
    ensures fails { IfSome result (λ steps. FailsAt (tree patterns.now id.0) subject.now steps at) }
    ensures near { IfSome result (λ steps. steps < left) }
{
    match listed {
        Some(steps) => {
            if steps >= left || !sides.fails_at(patterns, subject, at) {
                return None;
            }
            Some(steps)
        }
        None => {
            let steps = choice_in_vain(patterns, id, subject, at, left)?;
            Some(steps)
        }
    }
}

/// How many steps a choice's search takes in vain from a place, as `steps_in_vain` has it, however many sides it has.
fn choice_in_vain(
    patterns: &Patterns,
    id: PatId,
    subject: &[u8],
    at: usize,
    left: u32,
) -> Option<u32>
    requires known { id.0 < length patterns.now }
    requires inside { at ≤ length subject.now }
    requires some { 0 < left }
    ensures fails { IfSome result (λ steps. FailsAt (tree patterns.now id.0) subject.now steps at) }
    ensures near { IfSome result (λ steps. steps < left) }
{
    let rest = sides_in_vain(patterns, id, subject, at, left);
    let last = steps_in_vain(
        patterns,
        rest.id,
        subject,
        at,
        left - rest.steps,
        MOST_DEPTH,
    )?;
    Some(rest.steps + last)
}
