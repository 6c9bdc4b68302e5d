//! The sides of a choice in a list. It tells at each place by a look at the byte there whether the choice is searched in
//! vain, where the tree would be gone through side by side.
ghost use Rattle.std.specs.Prelude.{◌≡◌, ◌<◌, ◌≤◌, ◌∷◌, ◌++◌, [], length, slice_get, true, IfNone, IfSome, IsTrue, Some};
ghost use Rattle.std.specs.List.{AllByRecursion};
ghost use Rattle.sno_pattern.specs.Table.{tree};
ghost use Rattle.sno_match.specs.inner.Sides.{sides_of, FailsWithSides, IsSide, Lists, MissedAt};
ghost use Rattle.sno_match.specs.inner.Starts.{FailsAt};

use crate::sides::MOST_DEPTH;
use sno_pattern::{Patterns, Shape};
use sno_value::PatId;

/// The most sides of a list.
const MOST_SIDES: usize = 128;

/// How many steps a search of so many sides takes in vain: one for each, and two for each choice of two.
const MOST_STEPS: u32 = 382;

/// The primitive with which a side begins, and the byte with which that begins, where it is known.
#[derive(Clone, Copy, Drop)]
pub(crate) struct Side {
    pub id: PatId,
    pub byte: Option<u8>,
}

/// The sides of a choice.
#[derive(Clone, Copy, Drop)]
pub(crate) struct SideList {
    pub sides: [Side; MOST_SIDES],
    pub count: usize,
}

impl SideList {
    /// No side.
    #[inline(always)]
    pub(crate) fn new() -> SideList
        ensures { sides_of result ≡ [] }
    {
        let none = Side {
            id: PatId(0),
            byte: None,
        };
        SideList {
            sides: [none; MOST_SIDES],
            count: 0,
        }
    }

    /// The sides.
    #[inline(always)]
    fn as_slice(&self) -> &[Side]
        ensures { result.now ≡ sides_of self.now }
    {
        match self.sides.get(..self.count) {
            Some(sides) => sides,
            None => &self.sides,
        }
    }

    /// A side joins, if there is room for it.
    #[inline(always)]
    fn add(&mut self, side: Side) -> Option<()>
        ensures some { IfSome result (λ done. sides_of self.new ≡ sides_of self.old ++ side ∷ []) }
        ensures none { IfNone result (self.new ≡ self.old) }
    {
        if self.count >= MOST_SIDES {
            return None;
        }
        self.sides[self.count] = side;
        self.count += 1;
        Some(())
    }

    /// The sides of a choice join: how many steps its search takes in vain where each of them fails. None where there are
    /// too many of them, as its steps in vain tell before, or one doesn't begin with a primitive.
    pub(crate) fn add_choice(&mut self, patterns: &Patterns, id: PatId, steps: u32) -> Option<u32>
        requires known { id.0 < length patterns.now }
        requires sides { AllByRecursion (IsSide patterns.now) (sides_of self.old) }
        ensures sides { AllByRecursion (IsSide patterns.now) (sides_of self.new) }
        ensures lists { IfSome result (λ steps. Lists patterns.now (tree patterns.now id.0) steps (sides_of self.old)
            (sides_of self.new)) }
    {
        if steps > MOST_STEPS {
            return None;
        }
        let steps = add_sides(self, patterns, id, MOST_DEPTH)?;
        Some(steps)
    }

    /// Whether each side fails at a place.
    #[inline(always)]
    pub(crate) fn fails_at(&self, patterns: &Patterns, subject: &[u8], at: usize) -> bool
        requires sides { AllByRecursion (IsSide patterns.now) (sides_of self.now) }
        requires inside { at ≤ length subject.now }
        ensures { IsTrue result → AllByRecursion (MissedAt patterns.now subject.now at) (sides_of self.now) }
    {
        all_fail(self.as_slice(), patterns, subject, at)
    }
}

/// Whether each of these sides fails at a place.
#[inline(always)]
fn all_fail(sides: &[Side], patterns: &Patterns, subject: &[u8], at: usize) -> bool
    requires sides { AllByRecursion (IsSide patterns.now) sides.now }
    requires inside { at ≤ length subject.now }
    ensures { IsTrue result → AllByRecursion (MissedAt patterns.now subject.now at) sides.now }
{
    'sides: for side in sides.iter() {
        if !is_missed_by(side, patterns, subject, at) {
            return false;
        }
    }
    true
}

/// Whether a side fails at a place.
#[inline(always)]
fn is_missed_by(side: &Side, patterns: &Patterns, subject: &[u8], at: usize) -> bool
    requires side { IsSide patterns.now side.now }
    requires inside { at ≤ length subject.now }
    ensures { IsTrue result → MissedAt patterns.now subject.now at side.now }
{
    if let Some(byte) = side.byte {
        if !stands(subject, at, byte) {
            return true;
        }
    }
    patterns.fails_at(side.id, subject, at)
}

/// Whether a byte stands at a place.
#[inline(always)]
fn stands(subject: &[u8], at: usize, byte: u8) -> bool
    ensures { slice_get subject.now at ≡ Some byte → result ≡ true }
{
    match subject.get(at) {
        Some(there) => *there == byte,
        None => false,
    }
}

/// The sides of a pattern join, as those of a choice do.
fn add_sides(list: &mut SideList, patterns: &Patterns, id: PatId, depth: u32) -> Option<u32>
    requires known { id.0 < length patterns.now }
    requires sides { AllByRecursion (IsSide patterns.now) (sides_of list.old) }
    ensures sides { AllByRecursion (IsSide patterns.now) (sides_of list.new) }
    ensures lists { IfSome result (λ steps. Lists patterns.now (tree patterns.now id.0) steps (sides_of list.old)
        (sides_of list.new)) }
{
    if depth == 0 {
        return None;
    }
    match patterns.shape(id) {
        Shape::Primitive => {
            let byte = patterns.first_byte(id);
            list.add(Side { id, byte })?;
            Some(1)
        }
        Shape::Alt(first, second) => {
            let before = add_sides(list, patterns, first, depth - 1)?;
            let behind = add_sides(list, patterns, second, depth - 1)?;
            let both = before.checked_add(behind)?;
            let steps = both.checked_add(2)?;
            Some(steps)
        }
        Shape::Cat(part, _second) => {
            let before = add_sides(list, patterns, part, depth - 1)?;
            let steps = before.checked_add(1)?;
            Some(steps)
        }
        Shape::Cond(part, _target) => {
            let before = add_sides(list, patterns, part, depth - 1)?;
            let steps = before.checked_add(1)?;
            Some(steps)
        }
        Shape::Imm(part, _target) => {
            let before = add_sides(list, patterns, part, depth - 1)?;
            let steps = before.checked_add(1)?;
            Some(steps)
        }
        _ => None,
    }
}
