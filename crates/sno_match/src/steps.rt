//! The step of the newest point's first goal: what it comes to is carried out where it is known.
ghost use Rattle.std.specs.Prelude.{ℕ, ◌≡◌, ◌+◌, ◌<◌, ◌≤◌, length, Some, None, OnOk};
ghost use Rattle.sno_pattern.specs.Table.{tree};
ghost use Rattle.sno_pattern.specs.Shape.{IsPrimitive, end_of};
ghost use Rattle.sno_pattern.specs.Looks.{AreTrue};
ghost use Rattle.sno_match.specs.Point.{HasFirst};
ghost use Rattle.sno_match.specs.Remaining.{IsKnown};
ghost use Rattle.sno_match.specs.inner.Plan.{end_plan};
ghost use Rattle.sno_match.specs.inner.Move.{Steps, IsStep, IsCursor, IsReady, IsDueAs, CarriesOut, Costs, EndsAt};

use crate::event::{Event, Pending};
use crate::goal::{Goal, Mark};
use crate::plan::{Front, Plan, carry_out};
use crate::points::Points;
use sno_pattern::{Looks, Patterns, Shape};
use sno_value::PatId;
use std::alloc::AllocError;

/// What is due at a point: a step, or what costs none.
#[derive(Clone, Copy, Drop)]
pub(crate) enum Due {
    Step,
    /// FENCE is backed into, which ends the match.
    BackIntoFence,
    /// FENCE(P) is backed into, since P has no way: the point is dropped.
    BackIntoCut,
}

/// What is due at a point with this first goal and mark.
#[inline(always)]
pub(crate) fn due_at(patterns: &Patterns, goal: Goal, mark: Mark) -> Due
    requires { IsKnown patterns.now goal }
    ensures { IsDueAs patterns.now goal mark result }
{
    let Mark::Next(_at) = mark else {
        return Due::Step;
    };
    let Goal::Match(id) = goal else {
        return Due::Step;
    };
    match patterns.shape(id) {
        Shape::Fence => Due::BackIntoFence,
        Shape::Cut(_p) => Due::BackIntoCut,
        _ => Due::Step,
    }
}

/// Takes the step that is due at the newest point, behind which `left` are left, and puts the event
/// that it tells into `told`.
#[inline(always)]
pub(crate) fn take_step<P: Points>(
    points: &mut P,
    told: &mut Option<Event>,
    patterns: &Patterns,
    looks: &mut Looks,
    subject: &[u8],
    goal: Goal,
    cursor: usize,
    mark: Mark,
    left: u32,
) -> Result<(), AllocError>
    requires step { IsStep patterns.now subject.now goal cursor mark }
    requires inside { IsCursor subject.now cursor }
    requires ready { IsReady patterns.now subject.now looks.old (P.points points.old) told.old }
    ensures looks { AreTrue patterns.now subject.now looks.new }
    ensures ok { OnOk result (Steps patterns.now subject.now goal cursor mark left
        (P.points points.old) told.new (P.points points.new)) }
    ensures costs { Costs result (P.points points.old) (P.records points.old) told.new (P.points points.new)
        (P.records points.new) }
{
    match mark {
        Mark::Enter => enter_goal(points, told, patterns, looks, subject, goal, cursor, left),
        Mark::Next(at) => match goal {
            Goal::Match(id) => take_next(
                points, told, patterns, looks, subject, id, cursor, at, left,
            ),
            Goal::CloseCond { .. } => unreachable!(),
            Goal::CloseImm { .. } => unreachable!(),
            Goal::CloseRepeat { .. } => unreachable!(),
            Goal::CloseCut { .. } => unreachable!(),
        },
    }
}

/// The step of a goal that is entered.
#[inline(always)]
fn enter_goal<P: Points>(
    points: &mut P,
    told: &mut Option<Event>,
    patterns: &Patterns,
    looks: &mut Looks,
    subject: &[u8],
    goal: Goal,
    cursor: usize,
    left: u32,
) -> Result<(), AllocError>
    requires known { IsKnown patterns.now goal }
    requires inside { IsCursor subject.now cursor }
    requires ready { IsReady patterns.now subject.now looks.old (P.points points.old) told.old }
    ensures looks { AreTrue patterns.now subject.now looks.new }
    ensures ok { OnOk result (Steps patterns.now subject.now goal cursor Mark.Enter left
        (P.points points.old) told.new (P.points points.new)) }
    ensures costs { Costs result (P.points points.old) (P.records points.old) told.new (P.points points.new)
        (P.records points.new) }
{
    match goal {
        Goal::Match(id) => enter_pattern(points, told, patterns, looks, subject, id, cursor, left),
        Goal::CloseCond { target, start } => {
            let start = start as usize;
            let end = cursor;
            let plan = Plan::Close(Pending { target, start, end });
            carry_out(points, told, plan, cursor, left)
        }
        Goal::CloseImm { target, start } => {
            let start = start as usize;
            let end = cursor;
            let plan = Plan::Assign(Pending { target, start, end });
            carry_out(points, told, plan, cursor, left)
        }
        Goal::CloseCut { left: _left, depth } => {
            carry_out(points, told, Plan::CloseCut(depth as usize), cursor, left)
        }
        Goal::CloseRepeat { arbno, start } => {
            if cursor == start as usize {
                carry_out(points, told, Plan::Fail, cursor, left)
            } else {
                let front = Front::One(Goal::Match(arbno));
                carry_out(points, told, Plan::Replace(front, cursor), cursor, left)
            }
        }
    }
}

/// The step of a pattern that is entered.
#[inline(always)]
fn enter_pattern<P: Points>(
    points: &mut P,
    told: &mut Option<Event>,
    patterns: &Patterns,
    looks: &mut Looks,
    subject: &[u8],
    id: PatId,
    cursor: usize,
    left: u32,
) -> Result<(), AllocError>
    requires known { id.0 < length patterns.now }
    requires inside { IsCursor subject.now cursor }
    requires ready { IsReady patterns.now subject.now looks.old (P.points points.old) told.old }
    ensures looks { AreTrue patterns.now subject.now looks.new }
    ensures ok { OnOk result (Steps patterns.now subject.now (Goal.Match id) cursor Mark.Enter left
        (P.points points.old) told.new (P.points points.new)) }
    ensures costs { Costs result (P.points points.old) (P.records points.old) told.new (P.points points.new)
        (P.records points.new) }
{
    match patterns.shape(id) {
        Shape::Primitive => enter_primitive(
            points, told, patterns, looks, subject, id, cursor, left,
        ),
        Shape::Cat(p, q) => {
            let front = Front::Two(Goal::Match(p), Goal::Match(q));
            carry_out(points, told, Plan::Replace(front, cursor), cursor, left)
        }
        Shape::Alt(p, _q) => {
            let plan = Plan::Branch(Front::One(Goal::Match(p)), cursor, cursor);
            carry_out(points, told, plan, cursor, left)
        }
        Shape::Cond(p, target) => {
            let start = cursor as u32;
            let front = Front::Two(Goal::Match(p), Goal::CloseCond { target, start });
            carry_out(points, told, Plan::Replace(front, cursor), cursor, left)
        }
        Shape::Imm(p, target) => {
            let start = cursor as u32;
            let front = Front::Two(Goal::Match(p), Goal::CloseImm { target, start });
            carry_out(points, told, Plan::Replace(front, cursor), cursor, left)
        }
        Shape::Arbno(_p) => stay_and_go_on(points, told, cursor, left),
        Shape::Fence => stay_and_go_on(points, told, cursor, left),
        Shape::Succeed => stay_and_go_on(points, told, cursor, left),
        Shape::Cursor(target) => carry_out(points, told, Plan::Cursor(target), cursor, left),
        Shape::Cut(p) => carry_out(points, told, Plan::EnterCut(p), cursor, left),
        Shape::Abort => carry_out(points, told, Plan::Abort, cursor, left),
        Shape::Defer(e) => carry_out(points, told, Plan::Ask(None, e), cursor, left),
        Shape::DeferPrim(prim, e) => {
            let plan = Plan::Ask(Some(prim), e);
            carry_out(points, told, plan, cursor, left)
        }
    }
}

/// The goal matches null, and its point stays for another alternative from the same cursor.
fn stay_and_go_on<P: Points>(
    points: &mut P,
    told: &mut Option<Event>,
    cursor: usize,
    left: u32,
) -> Result<(), AllocError>
    requires first { HasFirst (P.points points.old) }
    requires silent { told.old ≡ None }
    ensures ok { OnOk result (CarriesOut (Plan.Branch Front.Nothing cursor cursor) cursor left
        (P.points points.old) told.new (P.points points.new)) }
    ensures costs { Costs result (P.points points.old) (P.records points.old) told.new (P.points points.new)
        (P.records points.new) }
{
    let plan = Plan::Branch(Front::Nothing, cursor, cursor);
    carry_out(points, told, plan, cursor, left)
}

/// The step of a primitive that is entered.
#[inline(always)]
fn enter_primitive<P: Points>(
    points: &mut P,
    told: &mut Option<Event>,
    patterns: &Patterns,
    looks: &mut Looks,
    subject: &[u8],
    id: PatId,
    cursor: usize,
    left: u32,
) -> Result<(), AllocError>
    requires known { id.0 < length patterns.now }
    requires primitive { IsPrimitive (tree patterns.now id.0) }
    requires inside { cursor ≤ length subject.now }
    requires ready { IsReady patterns.now subject.now looks.old (P.points points.old) told.old }
    ensures looks { AreTrue patterns.now subject.now looks.new }
    ensures ok { OnOk result (Steps patterns.now subject.now (Goal.Match id) cursor Mark.Enter left
        (P.points points.old) told.new (P.points points.new)) }
    ensures costs { Costs result (P.points points.old) (P.records points.old) told.new (P.points points.new)
        (P.records points.new) }
{
    match patterns.look(looks, id, subject, cursor) {
        None => carry_out(points, told, Plan::Fail, cursor, left),
        Some(end) => {
            if patterns.has_one_end(id) {
                let plan = Plan::Replace(Front::Nothing, end);
                return carry_out(points, told, plan, cursor, left);
            }
            take_end(
                points, told, patterns, looks, subject, id, cursor, end, left,
            )
        }
    }
}

/// The step of a pattern's next alternative, which goes on from `at`.
#[inline(always)]
fn take_next<P: Points>(
    points: &mut P,
    told: &mut Option<Event>,
    patterns: &Patterns,
    looks: &mut Looks,
    subject: &[u8],
    id: PatId,
    cursor: usize,
    at: usize,
    left: u32,
) -> Result<(), AllocError>
    requires step { IsStep patterns.now subject.now (Goal.Match id) cursor (Mark.Next at) }
    requires inside { IsCursor subject.now cursor }
    requires ready { IsReady patterns.now subject.now looks.old (P.points points.old) told.old }
    ensures looks { AreTrue patterns.now subject.now looks.new }
    ensures ok { OnOk result (Steps patterns.now subject.now (Goal.Match id) cursor (Mark.Next at) left
        (P.points points.old) told.new (P.points points.new)) }
    ensures costs { Costs result (P.points points.old) (P.records points.old) told.new (P.points points.new)
        (P.records points.new) }
{
    match patterns.shape(id) {
        Shape::Primitive => take_end(points, told, patterns, looks, subject, id, cursor, at, left),
        Shape::Alt(_p, q) => {
            let front = Front::One(Goal::Match(q));
            carry_out(points, told, Plan::Replace(front, cursor), cursor, left)
        }
        Shape::Arbno(p) => {
            let start = cursor as u32;
            let front = Front::Two(Goal::Match(p), Goal::CloseRepeat { arbno: id, start });
            carry_out(points, told, Plan::Replace(front, cursor), cursor, left)
        }
        Shape::Succeed => stay_and_go_on(points, told, cursor, left),
        _ => unreachable!(),
    }
}

/// A primitive's step to this end. Its point stays only where there is an end behind it.
#[inline(never)]
fn take_end<P: Points>(
    points: &mut P,
    told: &mut Option<Event>,
    patterns: &Patterns,
    looks: &mut Looks,
    subject: &[u8],
    id: PatId,
    cursor: usize,
    end: usize,
    left: u32,
) -> Result<(), AllocError>
    requires inside { cursor ≤ length subject.now }
    requires end { EndsAt patterns.now subject.now id cursor end }
    requires ready { IsReady patterns.now subject.now looks.old (P.points points.old) told.old }
    ensures looks { AreTrue patterns.now subject.now looks.new }
    ensures ok { (i : ℕ) → end_of (tree patterns.now id.0) subject.now cursor i ≡ Some end
        → OnOk result (CarriesOut (end_plan end (end_of (tree patterns.now id.0) subject.now cursor (i + 1)))
        cursor left (P.points points.old) told.new (P.points points.new)) }
    ensures costs { Costs result (P.points points.old) (P.records points.old) told.new (P.points points.new)
        (P.records points.new) }
{
    match patterns.look_behind(looks, id, subject, cursor, end) {
        None => carry_out(
            points,
            told,
            Plan::Replace(Front::Nothing, end),
            cursor,
            left,
        ),
        Some(next) => carry_out(
            points,
            told,
            Plan::Branch(Front::Nothing, end, next),
            cursor,
            left,
        ),
    }
}
