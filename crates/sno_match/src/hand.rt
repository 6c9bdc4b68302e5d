//! The newest point in hand: what the moves of the search do to it, where that takes no memory.
ghost use Rattle.std.specs.Prelude.{◌≡◌, ◌≤◌, List, Some, length, reverse, IfSome};
ghost use Rattle.sno_match.specs.inner.Plan.{end_plan};
ghost use Rattle.sno_match.specs.inner.Shared.{Falls, Holds};
ghost use Rattle.sno_match.specs.inner.Hand.{IsFirst, IsBehind, Carries};

use crate::event::Pending;
use crate::goal::Goal;
use crate::plan::{Front, Plan};
use crate::records::GoalRecord;
use crate::shared::{Held, larger};

/// The greatest number of a record behind which two more have numbers.
const MOST_KEPT: u32 = 4_294_967_293;

/// The first record of a list.
#[inline(always)]
pub(crate) fn first_record(records: &[GoalRecord], goals: u32) -> Option<GoalRecord>
    requires falls { Falls (reverse records.now) }
    requires inside { goals ≤ length records.now }
    ensures { IfSome result (λ first. IsFirst records.now goals first) }
{
    if goals == 0 {
        return None;
    }
    Some(records[goals as usize - 1])
}

/// A primitive's step to an end, with another behind it or none.
#[inline(always)]
pub(crate) fn take_end(
    records: &mut Vec<GoalRecord>,
    below: &mut Vec<Held>,
    top: &mut Option<Held>,
    point: Held,
    behind: u32,
    end: usize,
    next: Option<usize>,
) -> bool
    requires top { top.old ≡ Some point }
    requires behind { IsBehind records.old.items point.goals behind }
    requires end { end ≤ 4294967295 }
    requires next { IfSome next (λ n. n ≤ 4294967295) }
    ensures { (pending : List Pending) → Holds records.old.items pending (Some point) below.old.items
        → Carries result (end_plan end next) records.old.items pending point below.old.items
        records.new.items pending top.new below.new.items }
{
    let cursor = end as u32;
    match next {
        None => {
            *top = Some(Held {
                goals: behind,
                cursor,
                next: None,
                floor: point.floor,
                assigned: point.assigned,
            });
            true
        }
        Some(next) => stay(records, below, top, point, behind, cursor, next as u32),
    }
}

/// The newest point is dropped.
#[inline(always)]
pub(crate) fn drop_point(
    records: &mut Vec<GoalRecord>,
    below: &mut Vec<Held>,
    top: &mut Option<Held>,
    point: Held,
) -> bool
    requires top { top.old ≡ Some point }
    ensures { (pending : List Pending) → Holds records.old.items pending (Some point) below.old.items
        → Carries result Plan.Fail records.old.items pending point below.old.items
        records.new.items pending top.new below.new.items }
{
    let newest = below.pop();
    records.truncate(point.floor as usize);
    *top = newest;
    true
}

/// The goal takes the place of the first one.
#[inline(always)]
pub(crate) fn put_one(
    records: &mut Vec<GoalRecord>,
    top: &mut Option<Held>,
    point: Held,
    behind: u32,
    goal: Goal,
) -> bool
    requires top { top.old ≡ Some point }
    requires behind { IsBehind records.old.items point.goals behind }
    ensures { (pending : List Pending) (below : List Held) → Holds records.old.items pending (Some point) below
        → Carries result (Plan.Replace (Front.One goal) point.cursor) records.old.items pending point below
        records.new.items pending top.new below }
{
    let keep = larger(behind, point.floor);
    if keep > MOST_KEPT || keep as usize + 1 > records.capacity() {
        return false;
    }
    records.truncate(keep as usize);
    records.push_reserved(GoalRecord { goal, behind });
    *top = Some(Held {
        goals: keep + 1,
        cursor: point.cursor,
        next: None,
        floor: point.floor,
        assigned: point.assigned,
    });
    true
}

/// The two goals take the place of the first one.
#[inline(always)]
pub(crate) fn put_two(
    records: &mut Vec<GoalRecord>,
    top: &mut Option<Held>,
    point: Held,
    behind: u32,
    first: Goal,
    second: Goal,
) -> bool
    requires top { top.old ≡ Some point }
    requires behind { IsBehind records.old.items point.goals behind }
    ensures { (pending : List Pending) (below : List Held) → Holds records.old.items pending (Some point) below
        → Carries result (Plan.Replace (Front.Two first second) point.cursor) records.old.items pending point below
        records.new.items pending top.new below }
{
    let keep = larger(behind, point.floor);
    if keep > MOST_KEPT || keep as usize + 2 > records.capacity() {
        return false;
    }
    records.truncate(keep as usize);
    records.push_reserved(GoalRecord {
        goal: second,
        behind,
    });
    records.push_reserved(GoalRecord {
        goal: first,
        behind: keep + 1,
    });
    *top = Some(Held {
        goals: keep + 2,
        cursor: point.cursor,
        next: None,
        floor: point.floor,
        assigned: point.assigned,
    });
    true
}

/// The point stays with its next alternative, and above it the first goal is done.
#[inline(always)]
pub(crate) fn stay(
    records: &mut Vec<GoalRecord>,
    below: &mut Vec<Held>,
    top: &mut Option<Held>,
    point: Held,
    behind: u32,
    cursor: u32,
    next: u32,
) -> bool
    requires top { top.old ≡ Some point }
    requires behind { IsBehind records.old.items point.goals behind }
    ensures { (pending : List Pending) → Holds records.old.items pending (Some point) below.old.items
        → Carries result (Plan.Branch Front.Nothing cursor next) records.old.items pending point below.old.items
        records.new.items pending top.new below.new.items }
{
    if below.len() >= below.capacity() {
        return false;
    }
    let keep = larger(point.goals, point.floor);
    records.truncate(keep as usize);
    below.push_reserved(Held {
        goals: point.goals,
        cursor: point.cursor,
        next: Some(next),
        floor: point.floor,
        assigned: point.assigned,
    });
    *top = Some(Held {
        goals: behind,
        cursor,
        next: None,
        floor: keep,
        assigned: point.assigned,
    });
    true
}

/// The point stays with its next alternative, and above it the goal takes the place of the first one.
#[inline(always)]
pub(crate) fn stay_and_put(
    records: &mut Vec<GoalRecord>,
    below: &mut Vec<Held>,
    top: &mut Option<Held>,
    point: Held,
    behind: u32,
    goal: Goal,
) -> bool
    requires top { top.old ≡ Some point }
    requires behind { IsBehind records.old.items point.goals behind }
    ensures { (pending : List Pending) → Holds records.old.items pending (Some point) below.old.items
        → Carries result (Plan.Branch (Front.One goal) point.cursor point.cursor)
        records.old.items pending point below.old.items records.new.items pending top.new below.new.items }
{
    let keep = larger(point.goals, point.floor);
    if keep > MOST_KEPT || keep as usize + 1 > records.capacity() {
        return false;
    }
    if below.len() >= below.capacity() {
        return false;
    }
    records.truncate(keep as usize);
    records.push_reserved(GoalRecord { goal, behind });
    below.push_reserved(Held {
        goals: point.goals,
        cursor: point.cursor,
        next: Some(point.cursor),
        floor: point.floor,
        assigned: point.assigned,
    });
    *top = Some(Held {
        goals: keep + 1,
        cursor: point.cursor,
        next: None,
        floor: keep,
        assigned: point.assigned,
    });
    true
}

/// The assignment joins the pending list, and the first goal is done.
#[inline(always)]
pub(crate) fn close(
    pending: &mut Vec<Pending>,
    top: &mut Option<Held>,
    point: Held,
    behind: u32,
    assignment: Pending,
) -> bool
    requires top { top.old ≡ Some point }
    ensures { (records : List GoalRecord) (below : List Held) → IsBehind records point.goals behind
        → Holds records pending.old.items (Some point) below
        → Carries result (Plan.Close assignment) records pending.old.items point below
        records pending.new.items top.new below }
{
    if point.assigned > MOST_KEPT || point.assigned as usize + 1 > pending.capacity() {
        return false;
    }
    pending.truncate(point.assigned as usize);
    pending.push_reserved(assignment);
    *top = Some(Held {
        goals: behind,
        cursor: point.cursor,
        next: None,
        floor: point.floor,
        assigned: point.assigned + 1,
    });
    true
}
