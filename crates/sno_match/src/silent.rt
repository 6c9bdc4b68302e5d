//! Steps that tell nothing, one after another, with the newest point in hand.
ghost use Rattle.std.specs.Prelude.{◌≡◌, ◌<◌, ◌≤◌, ◌+◌, ◌*◌, List, Some, length};
ghost use Rattle.sno_pattern.specs.Looks.{AreTrue};
ghost use Rattle.sno_pattern.specs.Table.{tree};
ghost use Rattle.sno_match.specs.Remaining.{IsStack, IsKnown, HasNext};
ghost use Rattle.sno_match.specs.Silent.{Stands, LeadsOn};
ghost use Rattle.sno_match.specs.inner.Move.{IsCursor};
ghost use Rattle.sno_match.specs.inner.Shared.{Holds, points_of};
ghost use Rattle.sno_match.specs.inner.Hand.{IsBehind, Enters, Leads};

use crate::arb::take_next_end;
use crate::asked::{Asked, Places};
use crate::event::Pending;
use crate::goal::{Goal, Mark};
use crate::hand::{
    close, drop_point, first_record, put_one, put_two, stay, stay_and_put, take_end,
};
use crate::records::GoalRecord;
use crate::shared::{Held, Lists};
use sno_pattern::{Head, Looks, Patterns, Shape};
use sno_value::PatId;

/// Takes the steps that are due, up to one that is left to the general way: how many were taken then. Ends of ARB behind
/// which the search fails at once are passed.
pub(crate) fn take_steps_and_ends(
    lists: &mut Lists,
    asked: &mut Asked,
    looks: &mut Looks,
    patterns: &Patterns,
    subject: &[u8],
    taken: u32,
    limit: u32,
) -> u32
    requires holds { Holds lists.old.records.items lists.old.pending.items lists.old.top lists.old.below.items }
    requires stands { Stands patterns.now subject.now looks.old limit taken
        (points_of lists.old.records.items lists.old.pending.items lists.old.top lists.old.below.items) }
    ensures looks { AreTrue patterns.now subject.now looks.new }
    ensures holds { Holds lists.new.records.items lists.new.pending.items lists.new.top lists.new.below.items }
    ensures leads { LeadsOn patterns.now subject.now limit
        (points_of lists.old.records.items lists.old.pending.items lists.old.top lists.old.below.items) taken
        (points_of lists.new.records.items lists.new.pending.items lists.new.top lists.new.below.items) result }
    ensures records { length lists.new.records.items + 2 * taken ≤ length lists.old.records.items + 2 * result }
{
    let mut steps = take_steps(lists, asked.plain, looks, patterns, subject, taken, limit);
    'ends: while steps < limit {
        let behind = take_next_end(lists, asked, looks, patterns, subject, steps, limit);
        if behind == steps {
            return steps;
        }
        steps = take_steps(lists, asked.plain, looks, patterns, subject, behind, limit);
    }
    steps
}

/// Takes the steps that are due, up to one that is left to the general way or the next end of an ARB that isn't plain:
/// how many were taken then.
#[inline(never)]
pub(crate) fn take_steps(
    lists: &mut Lists,
    plain: Places,
    looks: &mut Looks,
    patterns: &Patterns,
    subject: &[u8],
    taken: u32,
    limit: u32,
) -> u32
    requires holds { Holds lists.old.records.items lists.old.pending.items lists.old.top lists.old.below.items }
    requires stands { Stands patterns.now subject.now looks.old limit taken
        (points_of lists.old.records.items lists.old.pending.items lists.old.top lists.old.below.items) }
    ensures looks { AreTrue patterns.now subject.now looks.new }
    ensures holds { Holds lists.new.records.items lists.new.pending.items lists.new.top lists.new.below.items }
    ensures leads { LeadsOn patterns.now subject.now limit
        (points_of lists.old.records.items lists.old.pending.items lists.old.top lists.old.below.items) taken
        (points_of lists.new.records.items lists.new.pending.items lists.new.top lists.new.below.items) result }
    ensures records { length lists.new.records.items + 2 * taken ≤ length lists.old.records.items + 2 * result }
{
    let mut top = lists.top;
    let mut steps = taken;
    'steps: while steps < limit {
        let Some(point) = top else {
            lists.top = None;
            return steps;
        };
        if !take_step(
            &mut lists.records,
            &mut lists.pending,
            &mut lists.below,
            &mut top,
            plain,
            looks,
            patterns,
            subject,
            point,
        ) {
            lists.top = top;
            return steps;
        }
        steps += 1;
    }
    lists.top = top;
    steps
}

/// Takes the step of this point, which is the newest.
#[inline(always)]
pub(crate) fn take_step(
    records: &mut Vec<GoalRecord>,
    pending: &mut Vec<Pending>,
    below: &mut Vec<Held>,
    top: &mut Option<Held>,
    plain: Places,
    looks: &mut Looks,
    patterns: &Patterns,
    subject: &[u8],
    point: Held,
) -> bool
    requires top { top.old ≡ Some point }
    requires holds { Holds records.old.items pending.old.items (Some point) below.old.items }
    requires stack { IsStack patterns.now subject.now
        (points_of records.old.items pending.old.items (Some point) below.old.items) }
    requires small { length subject.now ≤ 4294967295 }
    requires looks { AreTrue patterns.now subject.now looks.old }
    ensures looks { AreTrue patterns.now subject.now looks.new }
    ensures leads { Leads result patterns.now subject.now records.old.items pending.old.items point below.old.items
        records.new.items pending.new.items top.new below.new.items }
{
    let Some(first) = first_record(records, point.goals) else {
        return false;
    };
    let behind = first.behind;
    match point.next {
        None => enter_goal(
            records, pending, below, top, looks, patterns, subject, point, behind, first.goal,
        ),
        Some(at) => match first.goal {
            Goal::Match(id) => go_back(
                records, below, top, plain, patterns, subject, point, behind, id, at,
            ),
            _ => false,
        },
    }
}

/// The step of a goal that is entered.
#[inline(always)]
fn enter_goal(
    records: &mut Vec<GoalRecord>,
    pending: &mut Vec<Pending>,
    below: &mut Vec<Held>,
    top: &mut Option<Held>,
    looks: &mut Looks,
    patterns: &Patterns,
    subject: &[u8],
    point: Held,
    behind: u32,
    goal: Goal,
) -> bool
    requires top { top.old ≡ Some point }
    requires holds { Holds records.old.items pending.old.items (Some point) below.old.items }
    requires behind { IsBehind records.old.items point.goals behind }
    requires known { IsKnown patterns.now goal }
    requires inside { IsCursor subject.now point.cursor }
    requires looks { AreTrue patterns.now subject.now looks.old }
    ensures looks { AreTrue patterns.now subject.now looks.new }
    ensures enters { Enters result patterns.now subject.now goal point.cursor Mark.Enter
        records.old.items pending.old.items point below.old.items
        records.new.items pending.new.items top.new below.new.items }
{
    match goal {
        Goal::Match(id) => enter(
            records, below, top, looks, patterns, subject, point, behind, id,
        ),
        Goal::CloseCond { target, start } => {
            let start = start as usize;
            let end = point.cursor as usize;
            close(pending, top, point, behind, Pending { target, start, end })
        }
        Goal::CloseRepeat { arbno, start } => {
            if point.cursor == start {
                drop_point(records, below, top, point)
            } else {
                put_one(records, top, point, behind, Goal::Match(arbno))
            }
        }
        _ => false,
    }
}

/// The step of a pattern that is entered.
#[inline(always)]
fn enter(
    records: &mut Vec<GoalRecord>,
    below: &mut Vec<Held>,
    top: &mut Option<Held>,
    looks: &mut Looks,
    patterns: &Patterns,
    subject: &[u8],
    point: Held,
    behind: u32,
    id: PatId,
) -> bool
    requires top { top.old ≡ Some point }
    requires behind { IsBehind records.old.items point.goals behind }
    requires known { id.0 < length patterns.now }
    requires inside { IsCursor subject.now point.cursor }
    requires looks { AreTrue patterns.now subject.now looks.old }
    ensures looks { AreTrue patterns.now subject.now looks.new }
    ensures enters { (pending : List Pending) → Holds records.old.items pending (Some point) below.old.items
        → Enters result patterns.now subject.now (Goal.Match id) point.cursor Mark.Enter
        records.old.items pending point below.old.items records.new.items pending top.new below.new.items }
{
    let cursor = point.cursor as usize;
    match patterns.head(id, subject, cursor) {
        Head::Ends { first, next } => match first {
            None => drop_point(records, below, top, point),
            Some(end) => take_end(records, below, top, point, behind, end, next),
        },
        Head::Other(shape) => match shape {
            Shape::Primitive => {
                if !patterns.has_one_end(id) {
                    return false;
                }
                match patterns.look(looks, id, subject, cursor) {
                    None => drop_point(records, below, top, point),
                    Some(end) => take_end(records, below, top, point, behind, end, None),
                }
            }
            Shape::Cat(p, q) => put_two(
                records,
                top,
                point,
                behind,
                Goal::Match(p),
                Goal::Match(q),
            ),
            Shape::Cond(p, target) => {
                let start = point.cursor;
                let close = Goal::CloseCond { target, start };
                put_two(records, top, point, behind, Goal::Match(p), close)
            }
            Shape::Alt(p, _q) => {
                // A choice at the only point may be in vain, which the general way asks.
                if below.is_empty() {
                    return false;
                }
                stay_and_put(records, below, top, point, behind, Goal::Match(p))
            }
            Shape::Arbno(_p) => stay(
                records,
                below,
                top,
                point,
                behind,
                point.cursor,
                point.cursor,
            ),
            _ => false,
        },
    }
}

/// The step of a pattern's next alternative, which goes on from `at`.
#[inline(always)]
fn go_back(
    records: &mut Vec<GoalRecord>,
    below: &mut Vec<Held>,
    top: &mut Option<Held>,
    plain: Places,
    patterns: &Patterns,
    subject: &[u8],
    point: Held,
    behind: u32,
    id: PatId,
    at: u32,
) -> bool
    requires top { top.old ≡ Some point }
    requires behind { IsBehind records.old.items point.goals behind }
    requires known { id.0 < length patterns.now }
    requires inside { IsCursor subject.now point.cursor }
    requires next { HasNext (tree patterns.now id.0) subject.now point.cursor at }
    ensures { (pending : List Pending) → Holds records.old.items pending (Some point) below.old.items
        → Enters result patterns.now subject.now (Goal.Match id) point.cursor (Mark.Next at)
        records.old.items pending point below.old.items records.new.items pending top.new below.new.items }
{
    match patterns.head_behind(id, subject, at as usize) {
        // Ends of ARB may be passed, which is done apart.
        Head::Ends { next, .. } => {
            if !plain.has(point.goals) {
                return false;
            }
            take_end(records, below, top, point, behind, at as usize, next)
        }
        Head::Other(shape) => match shape {
            Shape::Alt(_p, q) => put_one(records, top, point, behind, Goal::Match(q)),
            Shape::Arbno(p) => {
                let start = point.cursor;
                let close = Goal::CloseRepeat { arbno: id, start };
                put_two(records, top, point, behind, Goal::Match(p), close)
            }
            _ => false,
        },
    }
}
