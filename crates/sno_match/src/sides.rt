//! Sides of a choice that fail at once.
ghost use Rattle.std.specs.Prelude.{◌<◌, ◌≤◌, length, IfSome, IsTrue};
ghost use Rattle.sno_pattern.specs.Table.{tree};
ghost use Rattle.sno_match.specs.inner.Starts.{FailsAt, GivesWay};

use sno_pattern::{Patterns, Shape};
use sno_value::PatId;

/// How deep choices may stand in one another's first sides, where it is asked whether they fail at once.
pub(crate) const MOST_DEPTH: u32 = 500;

/// What is left of a choice, and the steps of the sides before it.
#[derive(Clone, Copy, Drop)]
pub(crate) struct Sides {
    pub id: PatId,
    pub steps: u32,
}

/// What is left of a choice behind the sides that a search from a place tries in vain, where these begin with choices of
/// primitives without an end there. A step is left for it.
pub(crate) fn sides_in_vain(
    patterns: &Patterns,
    id: PatId,
    subject: &[u8],
    at: usize,
    left: u32,
) -> Sides
    requires known { id.0 < length patterns.now }
    requires inside { at ≤ length subject.now }
    requires some { 0 < left }
    ensures known { result.id.0 < length patterns.now }
    ensures near { result.steps < left }
    ensures gives_way { GivesWay (tree patterns.now id.0) (tree patterns.now result.id.0) subject.now result.steps at }
{
    let mut rest = Sides { id, steps: 0 };
    'sides: while left - rest.steps > 2 {
        let Shape::Alt(first, second) = patterns.shape(rest.id) else {
            return rest;
        };
        let left = left - rest.steps - 2;
        let Some(steps) = steps_in_vain(patterns, first, subject, at, left, MOST_DEPTH) else {
            return rest;
        };
        rest.id = second;
        rest.steps += steps + 2;
    }
    rest
}

/// How many steps a pattern's search takes in vain from a place, where it begins with choices of primitives and none of
/// them has an end there. If one has, or there are hardly so many steps, there is no such number.
pub(crate) fn steps_in_vain(
    patterns: &Patterns,
    id: PatId,
    subject: &[u8],
    at: usize,
    left: u32,
    depth: u32,
) -> Option<u32>
    requires known { id.0 < length patterns.now }
    requires inside { at ≤ length subject.now }
    ensures fails { IfSome result (λ steps. FailsAt (tree patterns.now id.0) subject.now steps at) }
    ensures near { IfSome result (λ steps. steps < left) }
{
    if depth == 0 || left <= 2 {
        return None;
    }
    match patterns.shape(id) {
        Shape::Primitive => {
            if !patterns.fails_at(id, subject, at) {
                return None;
            }
            Some(1)
        }
        Shape::Alt(first, second) => {
            let before = steps_in_vain(patterns, first, subject, at, left - 2, depth - 1)?;
            let left = left - 2 - before;
            let behind = steps_in_vain(patterns, second, subject, at, left, depth - 1)?;
            Some(before + behind + 2)
        }
        Shape::Cat(part, _second) => {
            let steps = steps_in_vain(patterns, part, subject, at, left - 1, depth - 1)?;
            Some(steps + 1)
        }
        Shape::Cond(part, _target) => {
            let steps = steps_in_vain(patterns, part, subject, at, left - 1, depth - 1)?;
            Some(steps + 1)
        }
        Shape::Imm(part, _target) => {
            let steps = steps_in_vain(patterns, part, subject, at, left - 1, depth - 1)?;
            Some(steps + 1)
        }
        _ => None,
    }
}

/// Whether a pattern is a primitive that has no end from a place, as its count tells, or the byte there.
pub(crate) fn is_missed(patterns: &Patterns, id: PatId, subject: &[u8], at: usize) -> bool
    requires known { id.0 < length patterns.now }
    requires inside { at ≤ length subject.now }
    ensures { IsTrue result → FailsAt (tree patterns.now id.0) subject.now 1 at }
{
    match patterns.shape(id) {
        Shape::Primitive => patterns.misses(id, subject, at),
        _ => false,
    }
}
