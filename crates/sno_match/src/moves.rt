//! One move of the search: what is due at the newest resumption point is done.
ghost use Rattle.std.specs.Prelude.{◌≡◌, ℕ, List, ◌<◌, ◌≤◌, ◌+◌, ◌-◌, ◌*◌, length, IfOk, IfSome, OnOk, OnErr};
ghost use Rattle.sno_match.specs.Point.{HasFirst};
ghost use Rattle.sno_match.specs.Remaining.{IsKnown, IsStack};
ghost use Rattle.sno_match.specs.inner.Remaining.{HasPoint};
ghost use Rattle.sno_match.specs.Scopes.{HasCuts};
ghost use Rattle.sno_match.specs.Silent.{Stands, LeadsOn};
ghost use Rattle.sno_pattern.specs.Looks.{AreTrue};
ghost use Rattle.sno_match.specs.inner.Move.{IsAtTop, Makes, EnteredGivesWay, answered, owed_by};

use crate::event::{Event, Pending};
use crate::goal::{Goal, Mark, Top};
use crate::heads::head_in_vain;
use crate::points::Points;
use crate::sides::{Sides, sides_in_vain};
use crate::starts::NO_PATTERN;
use crate::steps::{Due, due_at, take_step};
use sno_pattern::{Looks, Patterns, Shape};
use sno_value::PatId;
use std::alloc::AllocError;

/// Does what is due at the newest point, and tells at most one event: a step is taken, or several where they pass sides
/// of a choice that fail at once. Where memory is refused none is told and nothing has changed. Where a step is due and
/// none is left, the event is `Limit`.
pub(crate) fn make_move<P: Points>(
    points: &mut P,
    steps: &mut u32,
    way: &mut Vec<Pending>,
    looks: &mut Looks,
    patterns: &Patterns,
    subject: &[u8],
    start: usize,
    limit: u32,
) -> Result<Option<Event>, AllocError>
    requires stands { Stands patterns.now subject.now looks.old limit steps.old (P.points points.old) }
    requires some { HasPoint (P.points points.old) }
    ensures stands { Stands patterns.now subject.now looks.new limit steps.new (P.points points.new) }
    ensures records { P.records points.new + 2 * steps.old + owed_by result ≤ P.records points.old + 2 * steps.new }
    ensures ok { IfOk result (λ told. Makes patterns.now subject.now start limit (P.points points.old) steps.old
        way.old.items told (P.points points.new) steps.new way.new.items) }
    ensures err { OnErr result (LeadsOn patterns.now subject.now limit (P.points points.old) steps.old
        (P.points points.new) steps.new) }
    ensures way { OnErr result (way.new.items ≡ way.old.items) }
{
    match points.top() {
        Top::Empty => unreachable!(),
        Top::Complete {
            cursor: end,
            mark: _mark,
        } => {
            points.finish(way)?;
            Ok(Some(Event::Way { start, end }))
        }
        Top::Open { goal, cursor, mark } => {
            match due_at(patterns, goal, mark) {
                Due::BackIntoFence => return Ok(Some(Event::Aborted)),
                Due::BackIntoCut => {
                    points.pop();
                    return Ok(None);
                }
                Due::Step => {}
            }
            if *steps == limit {
                return Ok(Some(Event::Limit));
            }
            let told = make_step(
                points, steps, looks, patterns, subject, goal, cursor, mark, limit,
            )?;
            Ok(told)
        }
    }
}

/// Takes the step that is due at the newest point, or those that pass a choice's sides which fail at once.
#[inline(always)]
fn make_step<P: Points>(
    points: &mut P,
    steps: &mut u32,
    looks: &mut Looks,
    patterns: &Patterns,
    subject: &[u8],
    goal: Goal,
    cursor: usize,
    mark: Mark,
    limit: u32,
) -> Result<Option<Event>, AllocError>
    requires stands { Stands patterns.now subject.now looks.old limit steps.old (P.points points.old) }
    requires top { IsAtTop patterns.now goal cursor mark (P.points points.old) }
    requires room { steps.old < limit }
    ensures stands { Stands patterns.now subject.now looks.new limit steps.new (P.points points.new) }
    ensures records { P.records points.new + 2 * steps.old + owed_by result ≤ P.records points.old + 2 * steps.new }
    ensures ok { (start : ℕ) (way : List Pending) → IfOk result (λ told. Makes patterns.now subject.now start limit
        (P.points points.old) steps.old way told (P.points points.new) steps.new way) }
    ensures err { OnErr result (LeadsOn patterns.now subject.now limit (P.points points.old) steps.old
        (P.points points.new) steps.new) }
{
    let left = limit - *steps;
    if let Some(rest) = lone_sides_in_vain(points, patterns, subject, goal, cursor, mark, left) {
        points.replace(&[Goal::Match(rest.id)], cursor)?;
        *steps += rest.steps;
        return Ok(None);
    }
    let mut told = None;
    take_step(
        points,
        &mut told,
        patterns,
        looks,
        subject,
        goal,
        cursor,
        mark,
        left - 1,
    )?;
    *steps += 1;
    Ok(told)
}

/// What is left of a choice that is entered at the only point, behind the sides that fail at once. Where there are more
/// points it isn't asked, since a choice within a choice would be asked again for each that stands around it.
#[inline(always)]
fn lone_sides_in_vain<P: Points>(
    points: &P,
    patterns: &Patterns,
    subject: &[u8],
    goal: Goal,
    cursor: usize,
    mark: Mark,
    left: u32,
) -> Option<Sides>
    requires known { IsKnown patterns.now goal }
    requires inside { cursor ≤ length subject.now }
    requires some { 0 < left }
    ensures known { IfSome result (λ rest. rest.id.0 < length patterns.now) }
    ensures near { IfSome result (λ rest. rest.steps < left) }
    ensures some { IfSome result (λ rest. 0 < rest.steps) }
    ensures gives_way { IfSome result
        (λ rest. EnteredGivesWay patterns.now subject.now goal mark rest.id rest.steps cursor) }
{
    let Mark::Enter = mark else {
        return None;
    };
    let Goal::Match(id) = goal else {
        return None;
    };
    let Shape::Alt(_first, _second) = patterns.shape(id) else {
        return None;
    };
    if points.depth() != 1 {
        return None;
    }
    let rest = sides_in_vain(patterns, id, subject, cursor, left);
    if rest.steps == 0 {
        return None;
    }
    Some(rest)
}

/// Takes steps that tell nothing, as many as the stack takes by itself. Where none was taken yet and the pattern was seen
/// last to have no match at a first start, it is asked first whether that is so again.
#[inline(always)]
pub(crate) fn go_on<P: Points>(
    points: &mut P,
    steps: &mut u32,
    looks: &mut Looks,
    patterns: &Patterns,
    subject: &[u8],
    vain: &mut PatId,
    pattern: PatId,
    limit: u32,
)
    requires stands { Stands patterns.now subject.now looks.old limit steps.old (P.points points.old) }
    ensures looks { AreTrue patterns.now subject.now looks.new }
    ensures leads { LeadsOn patterns.now subject.now limit (P.points points.old) steps.old (P.points points.new) steps.new }
    ensures records { P.records points.new + 2 * steps.old ≤ P.records points.old + 2 * steps.new }
{
    if vain.0 != pattern.0 || *steps > 0 {
        points.take_silent_steps(steps, looks, patterns, subject, limit);
        return;
    }
    if drop_in_vain(points, steps, patterns, subject, limit) {
        return;
    }
    *vain = NO_PATTERN;
    points.take_silent_steps(steps, looks, patterns, subject, limit);
}

/// Drops the newest point, with the steps that its search takes, where that is in vain as the first bytes of its pattern
/// tell: whether it did.
#[inline(always)]
fn drop_in_vain<P: Points>(
    points: &mut P,
    steps: &mut u32,
    patterns: &Patterns,
    subject: &[u8],
    limit: u32,
) -> bool
    requires steps_in { steps.old ≤ limit }
    requires stack { IsStack patterns.now subject.now (P.points points.old) }
    requires cuts { HasCuts patterns.now (limit - steps.old) (P.points points.old) }
    ensures leads { LeadsOn patterns.now subject.now limit (P.points points.old) steps.old (P.points points.new) steps.new }
    ensures records { P.records points.new + 2 * steps.old ≤ P.records points.old + 2 * steps.new }
{
    let Top::Open { goal, cursor, mark } = points.top() else {
        return false;
    };
    let Mark::Enter = mark else {
        return false;
    };
    let Goal::Match(id) = goal else {
        return false;
    };
    let Some(price) = head_in_vain(patterns, id, subject, cursor, limit - *steps) else {
        return false;
    };
    points.pop();
    *steps += price;
    true
}

/// The deferred part that the newest point waits for fails, or a pattern takes its place.
pub(crate) fn put_answer<P: Points>(points: &mut P, given: Option<PatId>) -> Result<(), AllocError>
    requires { HasFirst (P.points points.old) }
    ensures ok { OnOk result (P.points points.new ≡ answered given (P.points points.old)) }
    ensures records { P.records points.new ≤ P.records points.old + 1 }
    ensures err { OnErr result ((P.points points.new ≡ P.points points.old)
        × (P.records points.new ≡ P.records points.old)) }
{
    let Some(id) = given else {
        points.pop();
        return Ok(());
    };
    let Top::Open { cursor, .. } = points.top() else {
        unreachable!();
    };
    points.replace(&[Goal::Match(id)], cursor)?;
    Ok(())
}
