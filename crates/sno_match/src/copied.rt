//! Resumption points whose goal lists are copied.
ghost use Rattle.std.specs.Prelude.{◌≡◌, ◌+◌, ◌≤◌, [], ◌∷◌, ◌++◌, length, reverse, take, vec_len, vec_capacity, IfNone};
ghost use Rattle.std.specs.Prelude.{IfSome};
ghost use Rattle.sno_match.specs.Point.{rest_of};

use crate::event::Pending;
use crate::goal::{Goal, Mark, Top};
use crate::points::Points;
use sno_pattern::{Looks, Patterns};
use std::alloc::{AllocError, Global};
use std::mem::swap;

/// A resumption point with lists of its own.
#[derive(Drop)]
struct Held {
    /// What is still to be matched, the first goal last: it is taken and replaced there without a look at the rest.
    goals: Vec<Goal>,
    /// Where the first goal begins.
    cursor: usize,
    /// The assignments that wait on the way to here.
    pending: Vec<Pending>,
    /// Whether the first goal is to be entered, or where its next alternative goes on.
    mark: Mark,
}

/// A stack of points: the newest, and those below it with the newest of them last. Lists that are no longer needed are
/// kept, so that a move takes memory only where no list has room for it. It is public so that a matcher with this stack
/// can be compared with the one in use.
#[derive(Drop)]
pub struct CopiedGoals {
    top: Option<Held>,
    below: Vec<Held>,
    /// Points that were dropped: their lists become those of new ones.
    spare: Vec<Held>,
    alloc: Global,
}

impl Points for CopiedGoals {
    ghost use Rattle.sno_match.specs.Copied.{points_of};

    ghost points = { λ c. points_of c.top c.below.items };

    ghost records = { λ c. 0 };

    fn empty(alloc: Global) -> CopiedGoals {
        CopiedGoals {
            top: None,
            below: Vec::new(alloc),
            spare: Vec::new(alloc),
            alloc,
        }
    }

    fn depth(&self) -> usize {
        match &self.top {
            None => 0,
            Some(_) => self.below.len() + 1,
        }
    }

    fn count_records(&self) -> usize {
        0
    }

    fn top(&self) -> Top {
        match &self.top {
            None => Top::Empty,
            Some(point) => match first_of(&point.goals) {
                None => Top::Complete {
                    cursor: point.cursor,
                    mark: point.mark,
                },
                Some(goal) => Top::Open {
                    goal,
                    cursor: point.cursor,
                    mark: point.mark,
                },
            },
        }
    }

    fn replace(&mut self, front: &[Goal], cursor: usize) -> Result<(), AllocError> {
        if let Some(point) = &mut self.top {
            point.goals.reserve(front.len())?;
            put_front(&mut point.goals, front);
            point.cursor = cursor;
            point.mark = Mark::Enter;
        }
        Ok(())
    }

    fn branch(&mut self, front: &[Goal], cursor: usize, next: usize) -> Result<(), AllocError> {
        let alloc = self.alloc;
        if let Some(point) = &mut self.top {
            point.goals.reserve(front.len())?;
            let mut stays = unused(&mut self.spare, alloc);
            stays.goals.extend_from_slice(&point.goals)?;
            stays.cursor = point.cursor;
            stays.pending.extend_from_slice(&point.pending)?;
            stays.mark = Mark::Next(next);
            self.below.push(stays)?;
            put_front(&mut point.goals, front);
            point.cursor = cursor;
            point.mark = Mark::Enter;
        }
        Ok(())
    }

    fn close(&mut self, assignment: Pending) -> Result<(), AllocError> {
        if let Some(point) = &mut self.top {
            point.pending.push(assignment)?;
            let _closed = point.goals.pop();
            point.mark = Mark::Enter;
        }
        Ok(())
    }

    fn cut(&mut self, depth: usize) {
        if let Some(point) = &mut self.top {
            put_front(&mut point.goals, &[]);
            point.mark = Mark::Enter;
            retire_newer(&mut self.below, depth, &mut self.spare);
        }
    }

    fn take_silent_steps(
        &mut self,
        _steps: &mut u32,
        _looks: &mut Looks,
        _patterns: &Patterns,
        _subject: &[u8],
        _limit: u32,
    ) {}

    fn pop(&mut self) {
        if let Some(point) = self.top.take() {
            self.top = self.below.pop();
            keep(&mut self.spare, point);
        }
    }

    fn finish(&mut self, way: &mut Vec<Pending>) -> Result<(), AllocError> {
        if let Some(mut point) = self.top.take() {
            swap(way, &mut point.pending);
            self.top = self.below.pop();
            keep(&mut self.spare, point);
        }
        Ok(())
    }

    fn begin(&mut self, goal: Goal, cursor: usize) -> Result<(), AllocError> {
        let mut point = unused(&mut self.spare, self.alloc);
        point.goals.push(goal)?;
        point.cursor = cursor;
        self.below.clear();
        self.top = Some(point);
        Ok(())
    }
}

/// A point with empty lists, which have the room of a spare point's where there is one.
fn unused(spare: &mut Vec<Held>, alloc: Global) -> Held
    ensures goals { result.goals.items ≡ [] }
    ensures pending { result.pending.items ≡ [] }
    ensures mark { result.mark ≡ Mark.Enter }
{
    let Some(mut point) = spare.pop() else {
        return Held {
            goals: Vec::new(alloc),
            cursor: 0,
            pending: Vec::new(alloc),
            mark: Mark::Enter,
        };
    };
    point.goals.clear();
    point.pending.clear();
    point.mark = Mark::Enter;
    point
}

/// A dropped point becomes a spare one. Where there is no memory for that, it is let go.
fn keep(spare: &mut Vec<Held>, point: Held) {
    let _kept = spare.push(point);
}

/// Only the oldest points stay, so many, and the others become spare ones.
fn retire_newer(below: &mut Vec<Held>, count: usize, spare: &mut Vec<Held>)
    ensures { below.new.items ≡ take count below.old.items }
{
    'points: while below.len() > count {
        if let Some(point) = below.pop() {
            keep(spare, point);
        }
    }
}

/// These goals take the place of the first.
fn put_front(goals: &mut Vec<Goal>, front: &[Goal])
    requires room { vec_len goals.old + length front.now ≤ vec_capacity goals.old }
    ensures { reverse goals.new.items ≡ front.now ++ rest_of (reverse goals.old.items) }
{
    let _first = goals.pop();
    for goal in front.iter().rev() {
        goals.push_reserved(*goal);
    }
}

fn first_of(goals: &[Goal]) -> Option<Goal>
    ensures none { IfNone result (reverse goals.now ≡ []) }
    ensures some { IfSome result (λ goal. reverse goals.now ≡ goal ∷ rest_of (reverse goals.now)) }
{
    match goals {
        [] => None,
        [.., goal] => Some(*goal),
    }
}
