//! What a pattern begins with.
ghost use Rattle.std.specs.Prelude.{◌<◌, ◌≤◌, ◌-◌, length, IfSome};
ghost use Rattle.sno_pattern.specs.Table.{tree};
ghost use Rattle.sno_match.specs.inner.Starts.{FailsAt, FailsWith};

use sno_pattern::{Patterns, Shape};
use sno_value::PatId;

/// The pattern that another begins with, and how many
/// concatenations and assignments of a part stand above it.
#[derive(Clone, Copy, Drop)]
pub(crate) struct Head {
    pub id: PatId,
    pub above: u32,
}

/// How many steps a pattern's search takes in vain from a place, where it begins with a primitive whose first bytes tell
/// that it has no end there.
#[inline(always)]
pub(crate) fn head_in_vain(
    patterns: &Patterns,
    pattern: PatId,
    subject: &[u8],
    at: usize,
    left: u32,
) -> Option<u32>
    requires known { pattern.0 < length patterns.now }
    requires inside { at ≤ length subject.now }
    ensures fails { IfSome result (λ steps. FailsAt (tree patterns.now pattern.0) subject.now steps at) }
    ensures near { IfSome result (λ steps. steps ≤ left) }
{
    let head = head_of(patterns, pattern, left)?;
    let Shape::Primitive = patterns.shape(head.id) else {
        return None;
    };
    if left <= head.above || !patterns.fails_at(head.id, subject, at) {
        return None;
    }
    Some(head.above + 1)
}

/// The pattern that a pattern begins with, if there are steps to reach it from a further start.
pub(crate) fn head_of(patterns: &Patterns, pattern: PatId, left: u32) -> Option<Head>
    requires known { pattern.0 < length patterns.now }
    ensures known { IfSome result (λ head. head.id.0 < length patterns.now) }
    ensures fails { IfSome result
        (λ head. FailsWith (tree patterns.now pattern.0) (tree patterns.now head.id.0) head.above) }
    ensures near { IfSome result (λ head. head.above ≤ left - 2) }
{
    let mut head = Head {
        id: pattern,
        above: 0,
    };
    'chain: while let Some(first) = first_part(patterns, head.id) {
        if head.above + 2 >= left {
            return None;
        }
        head.id = first;
        head.above += 1;
    }
    Some(head)
}

/// The pattern that is the first goal behind another's own step, where the other fails if this one does.
fn first_part(patterns: &Patterns, id: PatId) -> Option<PatId>
    requires { id.0 < length patterns.now }
    ensures below { IfSome result (λ part. part.0 < id.0) }
    ensures fails { IfSome result (λ part. FailsWith (tree patterns.now id.0) (tree patterns.now part.0) 1) }
{
    match patterns.shape(id) {
        Shape::Cat(first, _second) => Some(first),
        Shape::Cond(body, _target) => Some(body),
        Shape::Imm(body, _target) => Some(body),
        _ => None,
    }
}
