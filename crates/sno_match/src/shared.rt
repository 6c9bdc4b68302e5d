//! Resumption points whose goal lists are numbered records, shared between them.
ghost use Rattle.std.specs.Prelude.{◌≡◌, ℕ, ◌≤◌, [], ◌∷◌, ◌++◌, length, reverse, take, OnOk, OnErr};
ghost use Rattle.sno_match.specs.inner.Shared.{Fits, marked};

use crate::asked::Asked;
use crate::event::Pending;
use crate::goal::{Goal, Mark, Top};
use crate::points::Points;
use crate::records::{GoalRecord, behind_first, first_of, in_32_bits, make_room, put_front};
use crate::silent::take_steps_and_ends;
use sno_pattern::{Looks, Patterns};
use std::alloc::{AllocError, Global};
use std::marker::Model;

/// A resumption point. Its lists are numbers, and all its numbers have 32 bits, since a match may hold many points.
#[derive(Clone, Copy, Drop)]
pub(crate) struct Held {
    /// The number of its first goal's record, or 0 where no goal is left.
    pub goals: u32,
    /// Where the first goal begins.
    pub cursor: u32,
    /// Where the next alternative of the first goal goes on, if it was entered.
    pub next: Option<u32>,
    /// The points below it need no record past this number.
    pub floor: u32,
    /// How many entries of the pending list are its own: the first ones.
    pub assigned: u32,
}

/// What a stack is made of: the newest point, and those below it with the newest of them last. Record k has the number
/// k + 1.
#[derive(Drop)]
pub(crate) struct Lists {
    pub records: Vec<GoalRecord>,
    /// The assignments that wait on the way to the newest point, and maybe those of points that were dropped.
    pub pending: Vec<Pending>,
    pub top: Option<Held>,
    pub below: Vec<Held>,
}

/// A stack of points. No list is copied at a branch. The records of a point that is dropped are cut back with it, and
/// those that no list of the newest point or of one below has any more where the next ones are put. Entries of dropped
/// points are cut back where the next one is put.
#[derive(Drop)]
pub struct SharedGoals {
    lists: Lists,
    asked: Asked,
}

impl Model for SharedGoals {
    ghost use Rattle.std.specs.Prelude.{length};
    ghost use Rattle.sno_match.specs.Shared.{Seen};
    ghost use Rattle.sno_match.specs.inner.Shared.{Holds, points_of};

    ghost Value = { Seen };

    ghost view = { λ s. record {
      points = points_of s.lists.records.items s.lists.pending.items s.lists.top s.lists.below.items;
      count = length s.lists.records.items;
    } };

    ghost invariant = { λ s. Holds s.lists.records.items s.lists.pending.items s.lists.top s.lists.below.items };
}

impl Points for SharedGoals {
    ghost points = { λ s. s.points };

    ghost records = { λ s. s.count };

    fn empty(alloc: Global) -> SharedGoals {
        let lists = Lists {
            records: Vec::new(alloc),
            pending: Vec::new(alloc),
            top: None,
            below: Vec::new(alloc),
        };
        SharedGoals {
            lists,
            asked: Asked::none(),
        }
    }

    fn depth(&self) -> usize {
        match &self.lists.top {
            None => 0,
            Some(_) => self.lists.below.len() + 1,
        }
    }

    fn count_records(&self) -> usize {
        self.lists.records.len()
    }

    fn top(&self) -> Top {
        let Some(point) = self.lists.top else {
            return Top::Empty;
        };
        match first_of(&self.lists.records, point.goals) {
            None => Top::Complete {
                cursor: point.cursor as usize,
                mark: mark_of(point.next),
            },
            Some(goal) => Top::Open {
                goal,
                cursor: point.cursor as usize,
                mark: mark_of(point.next),
            },
        }
    }

    #[inline(always)]
    fn replace(&mut self, front: &[Goal], cursor: usize) -> Result<(), AllocError> {
        let Some(point) = self.lists.top else {
            return Ok(());
        };
        let cursor = in_32_bits(cursor)?;
        let behind = behind_first(&self.lists.records, point.goals);
        if front.is_empty() {
            self.lists.top = Some(Held {
                goals: behind,
                cursor,
                next: None,
                floor: point.floor,
                assigned: point.assigned,
            });
            return Ok(());
        }
        let keep = larger(behind, point.floor);
        let goals = put_front(&mut self.lists.records, keep, behind, front)?;
        self.lists.top = Some(Held {
            goals,
            cursor,
            next: None,
            floor: point.floor,
            assigned: point.assigned,
        });
        Ok(())
    }

    #[inline(always)]
    fn branch(&mut self, front: &[Goal], cursor: usize, next: usize) -> Result<(), AllocError> {
        let Some(point) = self.lists.top else {
            return Ok(());
        };
        let cursor = in_32_bits(cursor)?;
        let next = in_32_bits(next)?;
        self.lists.below.reserve(1)?;
        let behind = behind_first(&self.lists.records, point.goals);
        let keep = larger(point.goals, point.floor);
        let goals = put_front(&mut self.lists.records, keep, behind, front)?;
        self.lists.below.push_reserved(Held {
            goals: point.goals,
            cursor: point.cursor,
            next: Some(next),
            floor: point.floor,
            assigned: point.assigned,
        });
        self.lists.top = Some(Held {
            goals,
            cursor,
            next: None,
            floor: keep,
            assigned: point.assigned,
        });
        Ok(())
    }

    fn close(&mut self, assignment: Pending) -> Result<(), AllocError> {
        let Some(point) = self.lists.top else {
            return Ok(());
        };
        let assigned = in_32_bits(point.assigned as usize + 1)?;
        put_pending(&mut self.lists.pending, point.assigned as usize, assignment)?;
        self.lists.top = Some(Held {
            goals: behind_first(&self.lists.records, point.goals),
            cursor: point.cursor,
            next: None,
            floor: point.floor,
            assigned,
        });
        Ok(())
    }

    fn cut(&mut self, depth: usize) {
        if let Some(point) = self.lists.top {
            let goals = behind_first(&self.lists.records, point.goals);
            let floor = drop_newer(&mut self.lists.below, depth, point.floor);
            self.lists.top = Some(Held {
                goals,
                cursor: point.cursor,
                next: None,
                floor,
                assigned: point.assigned,
            });
        }
    }

    fn take_silent_steps(
        &mut self,
        steps: &mut u32,
        looks: &mut Looks,
        patterns: &Patterns,
        subject: &[u8],
        limit: u32,
    ) {
        let taken = take_steps_and_ends(
            &mut self.lists,
            &mut self.asked,
            looks,
            patterns,
            subject,
            *steps,
            limit,
        );
        *steps = taken;
    }

    fn pop(&mut self) {
        if let Some(point) = self.lists.top {
            self.lists.top = self.lists.below.pop();
            self.lists.records.truncate(point.floor as usize);
        }
    }

    fn finish(&mut self, way: &mut Vec<Pending>) -> Result<(), AllocError> {
        if let Some(point) = self.lists.top {
            copy_out(way, &self.lists.pending[..point.assigned as usize])?;
            self.pop();
        }
        Ok(())
    }

    fn begin(&mut self, goal: Goal, cursor: usize) -> Result<(), AllocError> {
        let cursor = in_32_bits(cursor)?;
        let goals = put_front(&mut self.lists.records, 0, 0, &[goal])?;
        self.lists.below.clear();
        self.asked.begin_at(cursor);
        self.lists.top = Some(Held {
            goals,
            cursor,
            next: None,
            floor: 0,
            assigned: 0,
        });
        Ok(())
    }
}

/// What is due at a point.
fn mark_of(next: Option<u32>) -> Mark
    ensures { result ≡ marked next }
{
    match next {
        None => Mark::Enter,
        Some(at) => Mark::Next(at as usize),
    }
}

/// Only the oldest points stay, so many. They and a newest point that needed none past `floor` need none past the
/// number that is given.
fn drop_newer(below: &mut Vec<Held>, count: usize, floor: u32) -> u32
    ensures points { below.new.items ≡ take count below.old.items }
    ensures floor { (assigned : ℕ) → Fits floor assigned (reverse below.old.items) → (result ≤ floor)
        × Fits result assigned (reverse below.new.items) }
{
    if count >= below.len() {
        return floor;
    }
    let least = below[count].floor;
    below.truncate(count);
    least
}

#[inline(always)]
pub(crate) fn larger(first: u32, second: u32) -> u32
    ensures first { first ≤ result }
    ensures second { second ≤ result }
    ensures least { (n : ℕ) → first ≤ n → second ≤ n → result ≤ n }
{
    if first < second { second } else { first }
}

/// Cuts the list back to its first `assigned` entries, which are the newest point's, and puts one more behind them.
fn put_pending(
    pending: &mut Vec<Pending>,
    assigned: usize,
    assignment: Pending,
) -> Result<(), AllocError>
    requires { assigned ≤ length pending.old.items }
    ensures ok { OnOk result (pending.new.items ≡ take assigned pending.old.items ++ assignment ∷ []) }
    ensures err { OnErr result (pending.new.items ≡ pending.old.items) }
{
    pending.reserve((assigned + 1).saturating_sub(pending.len()))?;
    pending.truncate(assigned);
    pending.push_reserved(assignment);
    Ok(())
}

/// Hands these entries over in place of those that were there.
fn copy_out(way: &mut Vec<Pending>, entries: &[Pending]) -> Result<(), AllocError>
    ensures ok { OnOk result (way.new.items ≡ entries.now) }
    ensures err { OnErr result (way.new.items ≡ way.old.items) }
{
    make_room(way, entries.len())?;
    way.clear();
    for entry in entries {
        way.push_reserved(*entry);
    }
    Ok(())
}
