//! Starts that fail at once.
ghost use Rattle.std.specs.Prelude.{◌≡◌, ◌<◌, ◌≤◌, ◌-◌, ◌*◌, ◌+◌, ◌/◌, false, length, IfSome};
ghost use Rattle.sno_pattern.specs.Pattern.{Pattern};
ghost use Rattle.sno_pattern.specs.Shape.{IsPrimitive};
ghost use Rattle.sno_pattern.specs.Looks.{AreTrue};
ghost use Rattle.sno_pattern.specs.Table.{tree};
ghost use Rattle.sno_match.specs.inner.Starts.{Passes, FailsAt, FailsWith, FailsOutside};

use crate::choices::pass_choice;
use crate::doubt::Doubts;
use crate::heads::{Head, head_of};
use crate::straight::straight_in_vain;
use sno_pattern::{ByteSet, Looks, Patterns, Shape, place_in_set};
use sno_value::PatId;

/// The number of no pattern: a table doesn't come to have so many.
pub(crate) const NO_PATTERN: PatId = PatId(4_294_967_295);

/// A start whose search is exhausted, and how many steps lead there.
#[derive(Clone, Copy, Drop)]
pub(crate) struct Passed {
    pub start: usize,
    pub steps: u32,
}

/// The last of the starts behind this one that fail at once, one after another, as far as there are steps for them: the
/// pattern begins with a primitive that has no end there, or with a choice none of whose first bytes stands there, or
/// its search goes one way alone and is in vain. Such a start costs a step to take it up, and those of its search.
#[inline(always)]
pub(crate) fn pass_failing_starts(
    patterns: &Patterns,
    looks: &mut Looks,
    doubts: &mut Doubts,
    pattern: PatId,
    subject: &[u8],
    anchored: bool,
    start: usize,
    left: u32,
) -> Passed
    requires known { pattern.0 < length patterns.now }
    requires inside { start ≤ length subject.now }
    requires looks { AreTrue patterns.now subject.now looks.old }
    ensures looks { AreTrue patterns.now subject.now looks.new }
    ensures inside { result.start ≤ length subject.now }
    ensures enough { result.steps ≤ left }
    ensures passes { Passes anchored (tree patterns.now pattern.0) subject.now start result.start result.steps }
{
    let none = Passed { start, steps: 0 };
    if anchored || start >= subject.len() {
        return none;
    }
    let Some(head) = head_of(patterns, pattern, left) else {
        return none;
    };
    let passed = pass_by_head(patterns, looks, pattern, head, subject, start, left);
    if passed.start >= subject.len() || !asks_for_more(patterns, pattern, head) {
        return passed;
    }
    if !doubts.asks(pattern) {
        return passed;
    }
    let passed = pass_in_vain(
        patterns, looks, doubts, pattern, head, subject, start, passed, left,
    );
    passed
}

/// The same as far as the beginning of the pattern tells.
#[inline(always)]
fn pass_by_head(
    patterns: &Patterns,
    looks: &mut Looks,
    pattern: PatId,
    head: Head,
    subject: &[u8],
    start: usize,
    left: u32,
) -> Passed
    requires known { head.id.0 < length patterns.now }
    requires fails { FailsWith (tree patterns.now pattern.0) (tree patterns.now head.id.0) head.above }
    requires near { head.above ≤ left - 2 }
    requires before { start < length subject.now }
    requires looks { AreTrue patterns.now subject.now looks.old }
    ensures looks { AreTrue patterns.now subject.now looks.new }
    ensures inside { result.start ≤ length subject.now }
    ensures enough { result.steps ≤ left }
    ensures passes { Passes false (tree patterns.now pattern.0) subject.now start result.start result.steps }
{
    match patterns.shape(head.id) {
        Shape::Primitive => {
            let passed = pass_primitive(patterns, looks, pattern, head, subject, start, left);
            passed
        }
        Shape::Alt(_first, _second) => {
            let passed = pass_choice(patterns, pattern, head, subject, start, left);
            passed
        }
        _ => Passed { start, steps: 0 },
    }
}

/// Whether something comes behind the beginning of a pattern.
#[inline(always)]
fn asks_for_more(patterns: &Patterns, pattern: PatId, head: Head) -> bool
    requires { pattern.0 < length patterns.now }
{
    match patterns.shape(pattern) {
        Shape::Cat(_first, _second) => true,
        _ => head.above > 1,
    }
}

/// The last of the starts that fail at once behind those that were passed.
#[inline(never)]
fn pass_in_vain(
    patterns: &Patterns,
    looks: &mut Looks,
    doubts: &mut Doubts,
    pattern: PatId,
    head: Head,
    subject: &[u8],
    start: usize,
    before: Passed,
    left: u32,
) -> Passed
    requires known { pattern.0 < length patterns.now }
    requires head { head.id.0 < length patterns.now }
    requires fails { FailsWith (tree patterns.now pattern.0) (tree patterns.now head.id.0) head.above }
    requires looks { AreTrue patterns.now subject.now looks.old }
    requires inside { before.start ≤ length subject.now }
    requires enough { before.steps ≤ left }
    requires near { head.above ≤ left - 2 }
    requires passes { Passes false (tree patterns.now pattern.0) subject.now start before.start before.steps }
    ensures looks { AreTrue patterns.now subject.now looks.new }
    ensures inside { result.start ≤ length subject.now }
    ensures enough { result.steps ≤ left }
    ensures passes { Passes false (tree patterns.now pattern.0) subject.now start result.start result.steps }
{
    let mut passed = before;
    let near = steps_near(patterns, head);
    let mut vain = 0u32;
    'starts: while passed.start < subject.len() {
        let here = passed.start + 1;
        let left = left - passed.steps;
        let Some(steps) = straight_in_vain(patterns, looks, pattern, subject, here, left) else {
            doubts.note(pattern, vain);
            return passed;
        };
        vain = vain.saturating_add(1);
        let left = left - steps - 1;
        let behind = pass_behind(
            patterns, looks, pattern, head, subject, here, steps, near, left,
        );
        passed.start = behind.start;
        passed.steps += steps + 1 + behind.steps;
    }
    passed
}

/// How many steps a search takes in vain by the beginning of its pattern, where that is a primitive, or 0.
fn steps_near(patterns: &Patterns, head: Head) -> u32
    requires known { head.id.0 < length patterns.now }
    requires near { head.above < 4294967295 }
{
    match patterns.shape(head.id) {
        Shape::Primitive => head.above + 1,
        _ => 0,
    }
}

/// The starts behind this one that fail by the beginning of the pattern, where this one did, as the steps of its search
/// tell, or where the pattern begins with a choice.
#[inline(always)]
fn pass_behind(
    patterns: &Patterns,
    looks: &mut Looks,
    pattern: PatId,
    head: Head,
    subject: &[u8],
    start: usize,
    steps: u32,
    near: u32,
    left: u32,
) -> Passed
    requires known { head.id.0 < length patterns.now }
    requires fails { FailsWith (tree patterns.now pattern.0) (tree patterns.now head.id.0) head.above }
    requires inside { start ≤ length subject.now }
    requires looks { AreTrue patterns.now subject.now looks.old }
    ensures looks { AreTrue patterns.now subject.now looks.new }
    ensures inside { result.start ≤ length subject.now }
    ensures enough { result.steps ≤ left }
    ensures passes { Passes false (tree patterns.now pattern.0) subject.now start result.start result.steps }
{
    let none = Passed { start, steps: 0 };
    if near > 0 && steps != near {
        return none;
    }
    if start >= subject.len() || left < 2 || head.above > left - 2 {
        return none;
    }
    let passed = pass_by_head(patterns, looks, pattern, head, subject, start, left);
    passed
}

/// The same where the pattern begins with a primitive.
fn pass_primitive(
    patterns: &Patterns,
    looks: &mut Looks,
    pattern: PatId,
    head: Head,
    subject: &[u8],
    start: usize,
    left: u32,
) -> Passed
    requires known { head.id.0 < length patterns.now }
    requires primitive { IsPrimitive (tree patterns.now head.id.0) }
    requires fails { FailsWith (tree patterns.now pattern.0) (tree patterns.now head.id.0) head.above }
    requires near { head.above ≤ left - 2 }
    requires before { start < length subject.now }
    requires looks { AreTrue patterns.now subject.now looks.old }
    ensures looks { AreTrue patterns.now subject.now looks.new }
    ensures inside { result.start ≤ length subject.now }
    ensures enough { result.steps ≤ left }
    ensures passes { Passes false (tree patterns.now pattern.0) subject.now start result.start result.steps }
{
    let price = head.above + 2;
    let room = room_for(subject, start, price, left);
    let next = patterns.look_for_place(looks, head.id, subject, start + 1, start + 1 + room);
    passed_before(start, next, price, left)
}

/// The last of the starts behind this one that fail by the beginning of the pattern, with no looks: None where that is a
/// primitive whose places may be far, or whose search has no steps.
#[inline(always)]
pub(crate) fn pass_near(
    patterns: &Patterns,
    pattern: PatId,
    subject: &[u8],
    start: usize,
    left: u32,
) -> Option<Passed>
    requires known { pattern.0 < length patterns.now }
    requires inside { start ≤ length subject.now }
    ensures inside { IfSome result (λ passed. passed.start ≤ length subject.now) }
    ensures enough { IfSome result (λ passed. passed.steps ≤ left) }
    ensures passes { IfSome result (λ passed.
        Passes false (tree patterns.now pattern.0) subject.now start passed.start passed.steps) }
{
    if start >= subject.len() {
        return Some(Passed { start, steps: 0 });
    }
    let head = head_of(patterns, pattern, left)?;
    match patterns.shape(head.id) {
        Shape::Primitive => {
            let price = head.above + 2;
            let until = start + 1 + room_for(subject, start, price, left);
            let next = patterns.near_place(head.id, subject, start + 1, until)?;
            Some(passed_before(start, next, price, left))
        }
        Shape::Alt(_first, _second) => {
            let passed = pass_choice(patterns, pattern, head, subject, start, left);
            Some(passed)
        }
        _ => None,
    }
}

/// The last of the starts behind this one at which no byte of a set stands, as far as there are steps for them: where
/// none stands, the pattern is searched in vain in so many steps.
pub(crate) fn pass_others(
    set: &ByteSet,
    subject: &[u8],
    start: usize,
    steps: u32,
    left: u32,
) -> Passed
    requires inside { start ≤ length subject.now }
    requires paid { steps ≤ 4294967294 }
    ensures behind { start ≤ result.start }
    ensures inside { result.start ≤ length subject.now }
    ensures enough { result.steps ≤ left }
    ensures passes { (p : Pattern) → FailsOutside p set.now steps
        → Passes false p subject.now start result.start result.steps }
{
    if start == subject.len() {
        return Passed { start, steps: 0 };
    }
    let price = steps + 1;
    let room = room_for(subject, start, price, left);
    let next = place_in_set(set, subject, start + 1, start + 1 + room);
    passed_before(start, next, price, left)
}

/// The pattern that was seen last to have no match at a first start, behind a search from a start in vain: the one in
/// hand, where the starts behind its first one were passed for as many steps each as that one took.
pub(crate) fn vain_behind(
    vain: PatId,
    pattern: PatId,
    start: usize,
    steps: u32,
    passed: Passed,
) -> PatId {
    if start > 0 || vain.0 == pattern.0 || passed.start == 0 {
        return vain;
    }
    let each = u64::from(steps) + 1;
    if u64::from(passed.steps) != each.wrapping_mul(passed.start as u64) {
        return vain;
    }
    pattern
}

/// How many of the starts behind this one there are, as far as there are steps for them at this price each.
pub(crate) fn room_for(subject: &[u8], start: usize, price: u32, left: u32) -> usize
    requires start { start ≤ length subject.now }
    requires price { 0 < price }
    ensures inside { start + result ≤ length subject.now }
    ensures paid { result ≤ left / price }
{
    (subject.len() - start).min((left / price) as usize)
}

/// The starts between this one and the next that may match are passed, at this price each.
pub(crate) fn passed_before(start: usize, next: usize, price: u32, left: u32) -> Passed
    requires behind { start < next }
    requires price { 0 < price }
    requires paid { next - start - 1 ≤ left / price }
    ensures start { result.start ≡ start + (next - start - 1) }
    ensures steps { result.steps ≡ (next - start - 1) * price }
    ensures enough { result.steps ≤ left }
{
    let passed = next - start - 1;
    Passed {
        start: start + passed,
        steps: passed as u32 * price,
    }
}
