//! Ends of ARB behind which the search fails at once.
ghost use Rattle.std.specs.Prelude.{◌≡◌, ◌<◌, ◌≤◌, ◌+◌, ◌-◌, ◌*◌, ◌/◌, false, Some, length, reverse, IfSome};
ghost use Rattle.sno_pattern.specs.Looks.{AreTrue};
ghost use Rattle.sno_pattern.specs.Places.{has_end, stands_at};
ghost use Rattle.sno_pattern.specs.Shape.{IsPrimitive};
ghost use Rattle.sno_pattern.specs.Table.{tree};
ghost use Rattle.sno_match.specs.Remaining.{AllKnown, IsStack};
ghost use Rattle.sno_match.specs.Silent.{Stands, LeadsOn};
ghost use Rattle.sno_match.specs.inner.Arb.{StandsBehind, Jumps, JumpsOver, PassesEnds};
ghost use Rattle.sno_match.specs.inner.Shared.{Falls, Holds, goals_of, points_of};

use crate::asked::{Asked, Places};
use crate::event::Pending;
use crate::goal::Goal;
use crate::hand::first_record;
use crate::heads::{Head, head_of};
use crate::records::GoalRecord;
use crate::shared::{Held, Lists};
use crate::silent::take_step;
use sno_pattern::{Beginning, Looks, Patterns, Shape, place_in_set};
use sno_value::PatId;

/// The least number of ends for which asking pays, where others stand behind them.
const WORTHWHILE: u32 = 2;

/// The pattern behind an ARB, and how many ends of parts stand between them.
#[derive(Clone, Copy, Drop)]
pub(crate) struct Behind {
    pub id: PatId,
    pub closes: u32,
}

/// A later end of the newest point, and the steps of those before it.
#[derive(Clone, Copy, Drop)]
pub(crate) struct Jump {
    pub place: u32,
    pub price: u32,
    /// How many ends those are.
    pub passed: u32,
}

/// Takes the next end of the newest point, where that is one of ARB, behind those from which what comes behind it fails
/// at once: how many steps were taken then.
#[inline(always)]
pub(crate) fn take_next_end(
    lists: &mut Lists,
    asked: &mut Asked,
    looks: &mut Looks,
    patterns: &Patterns,
    subject: &[u8],
    taken: u32,
    limit: u32,
) -> u32
    requires holds { Holds lists.old.records.items lists.old.pending.items lists.old.top lists.old.below.items }
    requires stands { Stands patterns.now subject.now looks.old limit taken
        (points_of lists.old.records.items lists.old.pending.items lists.old.top lists.old.below.items) }
    requires due { taken < limit }
    ensures looks { AreTrue patterns.now subject.now looks.new }
    ensures holds { Holds lists.new.records.items lists.new.pending.items lists.new.top lists.new.below.items }
    ensures leads { LeadsOn patterns.now subject.now limit
        (points_of lists.old.records.items lists.old.pending.items lists.old.top lists.old.below.items) taken
        (points_of lists.new.records.items lists.new.pending.items lists.new.top lists.new.below.items) result }
    ensures records { length lists.new.records.items + 2 * taken ≤ length lists.old.records.items + 2 * result }
{
    if !goes_back(&lists.top) {
        return taken;
    }
    let steps = take_later_end(lists, asked, looks, patterns, subject, taken, limit);
    steps
}

/// Whether the newest point has another alternative.
#[inline(always)]
fn goes_back(top: &Option<Held>) -> bool {
    match top {
        Some(point) => point.next.is_some(),
        None => false,
    }
}

/// The same where the newest point has another alternative.
#[inline(never)]
fn take_later_end(
    lists: &mut Lists,
    asked: &mut Asked,
    looks: &mut Looks,
    patterns: &Patterns,
    subject: &[u8],
    taken: u32,
    limit: u32,
) -> u32
    requires holds { Holds lists.old.records.items lists.old.pending.items lists.old.top lists.old.below.items }
    requires stands { Stands patterns.now subject.now looks.old limit taken
        (points_of lists.old.records.items lists.old.pending.items lists.old.top lists.old.below.items) }
    requires due { taken < limit }
    ensures looks { AreTrue patterns.now subject.now looks.new }
    ensures holds { Holds lists.new.records.items lists.new.pending.items lists.new.top lists.new.below.items }
    ensures leads { LeadsOn patterns.now subject.now limit
        (points_of lists.old.records.items lists.old.pending.items lists.old.top lists.old.below.items) taken
        (points_of lists.new.records.items lists.new.pending.items lists.new.top lists.new.below.items) result }
    ensures records { length lists.new.records.items + 2 * taken ≤ length lists.old.records.items + 2 * result }
{
    let passed = pass_ends(
        &lists.records,
        &lists.pending,
        &lists.below,
        &mut lists.top,
        asked,
        looks,
        patterns,
        subject,
        limit - taken,
    );
    let steps = taken + passed;
    if steps >= limit {
        return steps;
    }
    let mut top = lists.top;
    let Some(point) = top else {
        return steps;
    };
    let took = take_step(
        &mut lists.records,
        &mut lists.pending,
        &mut lists.below,
        &mut top,
        Places::all(),
        looks,
        patterns,
        subject,
        point,
    );
    lists.top = top;
    if took { steps + 1 } else { steps }
}

/// Passes the next ends of the newest point, where that is one of ARB and what comes behind it fails at once from them:
/// how many steps that takes.
#[inline(always)]
fn pass_ends(
    records: &[GoalRecord],
    pending: &[Pending],
    below: &[Held],
    top: &mut Option<Held>,
    asked: &mut Asked,
    looks: &mut Looks,
    patterns: &Patterns,
    subject: &[u8],
    left: u32,
) -> u32
    requires holds { Holds records.now pending.now top.old below.now }
    requires stack { IsStack patterns.now subject.now (points_of records.now pending.now top.old below.now) }
    requires small { length subject.now ≤ 4294967295 }
    requires looks { AreTrue patterns.now subject.now looks.old }
    ensures looks { AreTrue patterns.now subject.now looks.new }
    ensures near { result ≤ left }
    ensures passes { PassesEnds patterns.now subject.now records.now pending.now below.now top.old top.new left result }
{
    let Some(point) = *top else {
        return 0;
    };
    let Some(jump) = jump_of(records, looks, patterns, subject, point, left) else {
        asked.note_plain(point.goals);
        return 0;
    };
    let pays = jump.passed >= WORTHWHILE || jump.place as usize == subject.len();
    asked.note(point.goals, pays);
    *top = Some(Held {
        next: Some(jump.place),
        ..point
    });
    jump.price
}

/// The first end from which what comes behind an ARB may match, or the last, as far as there are steps for those before.
/// There is none where nothing is known to fail behind it.
#[inline(always)]
fn jump_of(
    records: &[GoalRecord],
    looks: &mut Looks,
    patterns: &Patterns,
    subject: &[u8],
    point: Held,
    left: u32,
) -> Option<Jump>
    requires falls { Falls (reverse records.now) }
    requires inside { point.goals ≤ length records.now }
    requires known { AllKnown patterns.now (goals_of records.now point.goals) }
    requires small { length subject.now ≤ 4294967295 }
    requires looks { AreTrue patterns.now subject.now looks.old }
    ensures looks { AreTrue patterns.now subject.now looks.new }
    ensures jumps { IfSome result (λ j. Jumps patterns.now subject.now (goals_of records.now point.goals) point.next left j) }
{
    let at = point.next? as usize;
    if at > subject.len() {
        return None;
    }
    let behind = behind_arb(records, patterns, point.goals)?;
    let head = head_of(patterns, behind.id, left.saturating_sub(behind.closes))?;
    match patterns.shape(head.id) {
        Shape::Primitive => {
            if patterns.is_arb(head.id) {
                return None;
            }
            let jump = jump_to_primitive(patterns, looks, head, behind.closes, subject, at, left);
            Some(jump)
        }
        Shape::Alt(_first, _second) => {
            let begins = patterns.choice_begins(head.id)?;
            let jump = jump_to_choice(&begins, head, behind.closes, subject, at, left);
            Some(jump)
        }
        _ => None,
    }
}

/// The first end at which a primitive has an end behind so many goals, or the last, as far as there are steps.
#[inline(always)]
fn jump_to_primitive(
    patterns: &Patterns,
    looks: &mut Looks,
    head: Head,
    closes: u32,
    subject: &[u8],
    at: usize,
    left: u32,
) -> Jump
    requires known { head.id.0 < length patterns.now }
    requires primitive { IsPrimitive (tree patterns.now head.id.0) }
    requires near { head.above ≤ left - closes - 2 }
    requires closes { closes ≤ 1 }
    requires inside { at ≤ length subject.now }
    requires small { length subject.now ≤ 4294967295 }
    requires looks { AreTrue patterns.now subject.now looks.old }
    ensures looks { AreTrue patterns.now subject.now looks.new }
    ensures jumps { JumpsOver (λ e. has_end (tree patterns.now head.id.0) subject.now e ≡ false) at
        (head.above + 2 + closes) left (length subject.now) result }
{
    let price = head.above + 2 + closes;
    let until = last_within(subject, at, price, left);
    let place = patterns.look_for_place(looks, head.id, subject, at, until);
    jump_over(at, place, price, left)
}

/// The first end at which one of a choice's first bytes stands, or the last, as far as there are steps.
#[inline(always)]
fn jump_to_choice(
    begins: &Beginning,
    head: Head,
    closes: u32,
    subject: &[u8],
    at: usize,
    left: u32,
) -> Jump
    requires near { head.above ≤ left - closes - 2 }
    requires closes { closes ≤ 1 }
    requires inside { at ≤ length subject.now }
    requires small { length subject.now ≤ 4294967295 }
    ensures jumps { JumpsOver (λ e. stands_at begins.now.set subject.now e ≡ false) at
        (begins.now.steps + head.above + 1 + closes) left (length subject.now) result }
{
    let above = head.above + 1 + closes;
    if begins.steps >= left.saturating_sub(above) {
        return Jump {
            place: at as u32,
            price: 0,
            passed: 0,
        };
    }
    let price = begins.steps + above;
    let until = last_within(subject, at, price, left);
    let place = place_in_set(&begins.set, subject, at, until);
    jump_over(at, place, price, left)
}

/// The last end, as far as there are steps for those before it at this price each.
fn last_within(subject: &[u8], at: usize, price: u32, left: u32) -> usize
    requires inside { at ≤ length subject.now }
    requires price { 0 < price }
    ensures behind { at ≤ result }
    ensures inside { result ≤ length subject.now }
    ensures paid { result - at ≤ left / price }
{
    at + (subject.len() - at).min((left / price) as usize)
}

/// The ends before this place are passed, at this price each.
fn jump_over(at: usize, place: usize, price: u32, left: u32) -> Jump
    requires behind { at ≤ place }
    requires small { place ≤ 4294967295 }
    requires price { 0 < price }
    requires paid { place - at ≤ left / price }
    ensures place { result.place ≡ place }
    ensures price { result.price ≡ (place - at) * price }
    ensures enough { result.price ≤ left }
{
    let passed = (place - at) as u32;
    Jump {
        place: place as u32,
        price: passed * price,
        passed,
    }
}

/// What stands behind the first goal of a list, where that is ARB.
#[inline(always)]
fn behind_arb(records: &[GoalRecord], patterns: &Patterns, goals: u32) -> Option<Behind>
    requires falls { Falls (reverse records.now) }
    requires inside { goals ≤ length records.now }
    requires known { AllKnown patterns.now (goals_of records.now goals) }
    ensures behind { IfSome result (λ b. StandsBehind patterns.now (goals_of records.now goals) b) }
{
    let arb = first_record(records, goals)?;
    let Goal::Match(id) = arb.goal else {
        return None;
    };
    if !patterns.is_arb(id) {
        return None;
    }
    let next = first_record(records, arb.behind)?;
    match next.goal {
        Goal::Match(id) => Some(Behind { id, closes: 0 }),
        Goal::CloseCond { .. } => {
            let second = first_record(records, next.behind)?;
            let Goal::Match(id) = second.goal else {
                return None;
            };
            Some(Behind { id, closes: 1 })
        }
        _ => None,
    }
}
