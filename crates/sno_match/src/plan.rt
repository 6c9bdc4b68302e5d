//! What the step of a goal comes to, and how that is carried out.
ghost use Rattle.std.specs.Prelude.{◌≡◌, ◌≤◌, ◌+◌, [], ◌∷◌, length, None, OnOk, OnErr};
ghost use Rattle.sno_match.specs.Point.{HasFirst, replaced, branched, below};
ghost use Rattle.sno_match.specs.inner.Plan.{goals_in};
ghost use Rattle.sno_match.specs.inner.Move.{CarriesOut, Costs};

use crate::event::{Event, Pending};
use crate::goal::Goal;
use crate::points::Points;
use sno_value::{ExprId, Name, PatId, Prim};
use std::alloc::AllocError;

/// At most two goals.
#[derive(Clone, Copy, Drop)]
pub(crate) enum Front {
    Nothing,
    One(Goal),
    Two(Goal, Goal),
}

/// What the step of a goal comes to.
#[derive(Clone, Copy, Drop)]
pub(crate) enum Plan {
    /// The first goal gives way to these, from this cursor.
    Replace(Front, usize),
    /// The point stays, with the cursor from which its next alternative goes on, and above it these take the place of
    /// the first goal, from the cursor before.
    Branch(Front, usize, usize),
    /// The assignment joins the pending list.
    Close(Pending),
    /// The assignment is told.
    Assign(Pending),
    /// The cursor is told.
    Cursor(Name),
    /// The deferred part waits for an answer.
    Ask(Option<Prim>, ExprId),
    /// The goal fails, and the point is dropped.
    Fail,
    /// ABORT was entered.
    Abort,
    /// FENCE(P) was entered: the point stays, and above it stand P and the close.
    EnterCut(PatId),
    /// The close of FENCE(P) was entered: the goal is done, and of the points below only this many, the oldest, stay.
    CloseCut(usize),
}

/// Carries out a plan, behind whose step `left` are left, and puts the event that it tells into `told`.
#[inline(always)]
pub(crate) fn carry_out<P: Points>(
    points: &mut P,
    told: &mut Option<Event>,
    plan: Plan,
    cursor: usize,
    left: u32,
) -> Result<(), AllocError>
    requires first { HasFirst (P.points points.old) }
    requires silent { told.old ≡ None }
    ensures ok { OnOk result (CarriesOut plan cursor left (P.points points.old) told.new (P.points points.new)) }
    ensures costs { Costs result (P.points points.old) (P.records points.old) told.new (P.points points.new)
        (P.records points.new) }
{
    match plan {
        Plan::Replace(front, at) => replace_by(points, front, at)?,
        Plan::Branch(front, at, next) => branch_by(points, front, at, next)?,
        Plan::Close(assignment) => points.close(assignment)?,
        Plan::Assign(Pending { target, start, end }) => {
            points.replace(&[], cursor)?;
            *told = Some(Event::Assign { target, start, end });
        }
        Plan::Cursor(target) => {
            points.replace(&[], cursor)?;
            *told = Some(Event::Cursor { target, at: cursor });
        }
        Plan::Ask(prim, expr) => *told = Some(Event::Value { prim, expr }),
        Plan::Fail => points.pop(),
        Plan::Abort => *told = Some(Event::Aborted),
        Plan::EnterCut(body) => enter_cut(points, body, cursor, left)?,
        Plan::CloseCut(depth) => points.cut(depth),
    }
    Ok(())
}

/// FENCE(P) is entered, which leaves so many steps: its point stays under the body and the close.
fn enter_cut<P: Points>(
    points: &mut P,
    body: PatId,
    cursor: usize,
    left: u32,
) -> Result<(), AllocError>
    requires { HasFirst (P.points points.old) }
    ensures ok { OnOk result
        (P.points points.new ≡ branched (Goal.Match body ∷ Goal.CloseCut left (length (below (P.points points.old)))
        ∷ []) cursor left (P.points points.old)) }
    ensures records { P.records points.new ≤ P.records points.old + 2 }
    ensures err { OnErr result ((P.points points.new ≡ P.points points.old)
        × (P.records points.new ≡ P.records points.old)) }
{
    let Ok(depth) = u32::try_from(points.depth() - 1) else {
        return Err(AllocError);
    };
    let close = Goal::CloseCut { left, depth };
    points.branch(&[Goal::Match(body), close], cursor, left as usize)?;
    Ok(())
}

#[inline(always)]
fn replace_by<P: Points>(points: &mut P, front: Front, at: usize) -> Result<(), AllocError>
    requires { HasFirst (P.points points.old) }
    ensures ok { OnOk result (P.points points.new ≡ replaced (goals_in front) at (P.points points.old)) }
    ensures records { P.records points.new ≤ P.records points.old + 2 }
    ensures err { OnErr result ((P.points points.new ≡ P.points points.old)
        × (P.records points.new ≡ P.records points.old)) }
{
    match front {
        Front::Nothing => points.replace(&[], at),
        Front::One(goal) => points.replace(&[goal], at),
        Front::Two(first, second) => points.replace(&[first, second], at),
    }
}

#[inline(always)]
fn branch_by<P: Points>(
    points: &mut P,
    front: Front,
    at: usize,
    next: usize,
) -> Result<(), AllocError>
    requires { HasFirst (P.points points.old) }
    ensures ok { OnOk result (P.points points.new ≡ branched (goals_in front) at next (P.points points.old)) }
    ensures records { P.records points.new ≤ P.records points.old + 2 }
    ensures err { OnErr result ((P.points points.new ≡ P.points points.old)
        × (P.records points.new ≡ P.records points.old)) }
{
    match front {
        Front::Nothing => points.branch(&[], at, next),
        Front::One(goal) => points.branch(&[goal], at, next),
        Front::Two(first, second) => points.branch(&[first, second], at, next),
    }
}
