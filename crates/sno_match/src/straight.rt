//! Searches that go one way alone.
ghost use Rattle.std.specs.Prelude.{◌≡◌, ◌<◌, ◌≤◌, ◌+◌, ◌∷◌, ◌++◌, [], Some, None, length, IfSome};
ghost use Rattle.sno_pattern.specs.Looks.{AreTrue};
ghost use Rattle.sno_pattern.specs.Table.{tree};
ghost use Rattle.sno_match.specs.inner.Starts.{FailsAt};
ghost use Rattle.sno_match.specs.inner.Straight.{waits, Puts, Ends, Meets};

use crate::sides::{is_missed, sides_in_vain};
use crate::starts::NO_PATTERN;
use sno_pattern::{Head, Looks, Patterns, Shape};
use sno_value::PatId;

/// The most goals that wait.
const MOST: usize = 16;

/// How far a search has come, as long as it went one way alone: its goals, the next one last, the cursor and the steps.
/// The goal NO_PATTERN is the end of a part that is assigned.
#[derive(Clone, Copy)]
pub(crate) struct Straight {
    pub goals: [PatId; MOST],
    pub count: usize,
    pub cursor: usize,
    pub steps: u32,
}

/// What the step of a goal comes to.
#[derive(Clone, Copy, Drop)]
pub(crate) enum Met {
    /// The search goes on, one way alone.
    GoesOn,
    /// It is in vain.
    Fails,
    /// It has several ways, tells an event, or isn't known.
    Open,
}

impl Straight {
    /// A search that begins.
    #[inline(always)]
    fn new(pattern: PatId, at: usize) -> Straight
        ensures waits { waits result ≡ pattern ∷ [] }
        ensures cursor { result.cursor ≡ at }
        ensures steps { result.steps ≡ 0 }
    {
        let mut goals = [NO_PATTERN; MOST];
        goals[0] = pattern;
        Straight {
            goals,
            count: 1,
            cursor: at,
            steps: 0,
        }
    }

    /// The next goal, which waits no longer.
    #[inline(always)]
    fn next(&mut self) -> Option<PatId>
        ensures waits { IfSome result (λ id. waits self.old ≡ waits self.new ++ id ∷ []) }
        ensures cursor { self.new.cursor ≡ self.old.cursor }
        ensures steps { self.new.steps ≡ self.old.steps }
    {
        if self.count == 0 || self.count > self.goals.len() {
            return None;
        }
        self.count -= 1;
        Some(self.goals[self.count])
    }

    /// A goal waits behind so many steps, if there is room for it.
    #[inline(always)]
    fn put(&mut self, goal: PatId, steps: u32) -> Met
        requires few { self.old.steps + steps ≤ 4294967295 }
        ensures { Puts steps (goal ∷ []) self.old result self.new }
    {
        if steps == 0 || goal.0 >= NO_PATTERN.0 || self.count >= self.goals.len() {
            return Met::Open;
        }
        self.goals[self.count] = goal;
        self.count += 1;
        self.steps += steps;
        Met::GoesOn
    }

    /// Two goals wait behind a step, the first of them before the second, if there is room for them.
    #[inline(always)]
    fn put_two(&mut self, first: PatId, second: PatId) -> Met
        requires few { self.old.steps < 4294967295 }
        ensures { Puts 1 (second ∷ first ∷ []) self.old result self.new }
    {
        if self.count >= self.goals.len() - 1 {
            return Met::Open;
        }
        self.goals[self.count] = second;
        self.goals[self.count + 1] = first;
        self.count += 2;
        self.steps += 1;
        Met::GoesOn
    }

    /// A primitive's step, by its first end and the one behind that.
    #[inline(always)]
    fn take_end(&mut self, first: Option<usize>, next: Option<usize>) -> Met
        requires few { self.old.steps < 4294967295 }
        ensures { Ends first next self.old result self.new }
    {
        if let Some(_other) = next {
            return Met::Open;
        }
        self.steps += 1;
        let Some(end) = first else {
            return Met::Fails;
        };
        self.cursor = end;
        Met::GoesOn
    }

    /// The step of this goal.
    #[inline(always)]
    fn enter(
        &mut self,
        patterns: &Patterns,
        looks: &mut Looks,
        id: PatId,
        subject: &[u8],
        left: u32,
    ) -> Met
        requires known { id.0 < length patterns.now }
        requires pattern { id.0 < 4294967295 }
        requires inside { self.old.cursor ≤ length subject.now }
        requires some { 3 < left }
        requires few { self.old.steps + left ≤ 4294967295 }
        requires looks { AreTrue patterns.now subject.now looks.old }
        ensures looks { AreTrue patterns.now subject.now looks.new }
        ensures meets { Meets patterns.now subject.now id left self.old result self.new }
    {
        match patterns.head(id, subject, self.cursor) {
            Head::Ends { first, next } => self.take_end(first, next),
            Head::Other(shape) => match shape {
                Shape::Primitive => {
                    if !patterns.has_one_end(id) {
                        return Met::Open;
                    }
                    let end = patterns.look(looks, id, subject, self.cursor);
                    self.take_end(end, None)
                }
                Shape::Cat(first, second) => self.put_two(first, second),
                Shape::Cond(part, _target) => self.put_two(part, NO_PATTERN),
                Shape::Alt(first, second) => {
                    let rest = sides_in_vain(patterns, id, subject, self.cursor, left);
                    if rest.steps > 0 {
                        return self.put(rest.id, rest.steps);
                    }
                    if !is_missed(patterns, first, subject, self.cursor) {
                        return Met::Open;
                    }
                    self.put(second, 3)
                }
                _ => Met::Open,
            },
        }
    }
}

/// How many steps a pattern's search takes in vain from a place, where it goes one way alone.
#[inline(never)]
pub(crate) fn straight_in_vain(
    patterns: &Patterns,
    looks: &mut Looks,
    pattern: PatId,
    subject: &[u8],
    at: usize,
    left: u32,
) -> Option<u32>
    requires known { pattern.0 < length patterns.now }
    requires inside { at ≤ length subject.now }
    requires looks { AreTrue patterns.now subject.now looks.old }
    ensures looks { AreTrue patterns.now subject.now looks.new }
    ensures fails { IfSome result (λ steps. FailsAt (tree patterns.now pattern.0) subject.now steps at) }
    ensures near { IfSome result (λ steps. steps < left) }
{
    if pattern.0 >= NO_PATTERN.0 {
        return None;
    }
    let mut search = Straight::new(pattern, at);
    'goals: loop {
        let Some(goal) = search.next() else {
            return None;
        };
        let left = left - search.steps;
        if left < 4 {
            return None;
        }
        if goal.0 == NO_PATTERN.0 {
            search.steps += 1;
            continue 'goals;
        }
        match search.enter(patterns, looks, goal, subject, left) {
            Met::GoesOn => {}
            Met::Fails => return Some(search.steps),
            Met::Open => return None,
        }
    }
}
