//! The patterns that expressions made as their wholes, which are looked at again where an expression may make the same.
//! They are numbers that may be of anything: what is looked at is held to the code of the expression.
ghost use Rattle.std.specs.Prelude.{◌≡◌};

use crate::runtime::Runtime;
use crate::runtime::made::NO_NODE;
use sno_value::{ExprId, PatId};
use std::alloc::{AllocError, Global};

/// How many expressions have a place.
const EXPRESSIONS: usize = 512;

/// How many places there are for what expressions made, by what their variables held.
const VARYING: usize = 4096;

/// How often an expression is evaluated behind one that made another pattern before it, until its pattern is kept again:
/// what makes a new one each time would be compared in vain.
const APART: u32 = 64;

/// How often it is evaluated before that without a look by what its variables hold, behind such a look that was in vain.
const REST: u32 = 16;

/// The patterns that expressions made. What is no number of one counts, up to `NO_NODE`, how often none is kept.
#[derive(Drop)]
pub(super) struct Wholes {
    /// A place for each expression.
    last: Vec<PatId>,
    /// A place for an expression and what its variables held: none before the first look.
    varying: Vec<PatId>,
    /// Where of these the expression was looked for that is evaluated.
    looked: usize,
}

impl Wholes {
    /// No pattern.
    pub(super) fn new(alloc: Global) -> Result<Wholes, AllocError> {
        let last = vec![in alloc; NO_NODE; EXPRESSIONS]?;
        Ok(Wholes {
            last,
            varying: Vec::new(alloc),
            looked: VARYING,
        })
    }

    /// What stands at the place of an expression.
    #[inline(always)]
    fn last(&self, expression: ExprId) -> PatId {
        match self.last.get(expression.0 as usize % EXPRESSIONS) {
            Some(id) => *id,
            None => NO_NODE,
        }
    }

    /// Keeps the pattern that an expression made, where it is time for that again.
    #[inline(always)]
    fn keep(&mut self, expression: ExprId, id: PatId) {
        let place = expression.0 as usize % EXPRESSIONS;
        if place < self.last.len() {
            let last = self.last[place].0;
            let is_apart = last < NO_NODE.0 && last >= NO_NODE.0 - APART - REST;
            self.last[place] = if is_apart { PatId(last + 1) } else { id };
        }
        if self.looked < self.varying.len() {
            self.varying[self.looked] = id;
        }
    }

    /// Keeps none that many times for an expression that made another one.
    #[inline(always)]
    fn forget(&mut self, expression: ExprId, times: u32) {
        let place = expression.0 as usize % EXPRESSIONS;
        if place < self.last.len() {
            self.last[place] = PatId(NO_NODE.0 - times);
        }
    }
}

impl Runtime {
    /// The pattern that was kept for this expression, or for another one; any number where none is.
    #[inline(always)]
    pub fn whole(&self, expression: ExprId) -> PatId {
        self.made.wholes.last(expression)
    }

    /// Keeps the pattern that an expression made.
    #[inline]
    pub fn keep_whole(&mut self, expression: ExprId, id: PatId)
        ensures { self.new ≡ self.old }
    {
        self.made.wholes.keep(expression, id);
    }

    /// Keeps none for an expression that makes another one than was kept.
    #[inline]
    pub fn forget_whole(&mut self, expression: ExprId)
        ensures { self.new ≡ self.old }
    {
        self.made.wholes.forget(expression, APART);
    }

    /// Whether it is worth a look what this expression made where its variables held the same.
    #[inline(always)]
    pub fn may_vary(&mut self, expression: ExprId) -> bool
        ensures { self.new ≡ self.old }
    {
        self.made.wholes.looked = VARYING;
        self.whole(expression).0 >= NO_NODE.0 - APART
    }

    /// The pattern that was kept for this expression where its variables held what has this key, or for another one; any
    /// number where none is.
    #[inline(always)]
    pub fn varying_whole(&mut self, expression: ExprId, key: u32) -> PatId
        ensures { self.new ≡ self.old }
    {
        let place = expression.0.wrapping_mul(61).wrapping_add(key) as usize % VARYING;
        self.made.wholes.looked = place;
        match self.made.wholes.varying.get(place) {
            Some(id) => *id,
            None => self.begin_varying(),
        }
    }

    /// Makes the places by what variables hold. Where memory is refused there are none, and each look is in vain.
    #[cold]
    #[inline(never)]
    fn begin_varying(&mut self) -> PatId
        ensures { self.new ≡ self.old }
    {
        if let Ok(varying) = vec![in self.alloc; NO_NODE; VARYING] {
            self.made.wholes.varying = varying;
        }
        NO_NODE
    }

    /// Keeps none for an expression that makes another one than was kept for its variables.
    #[inline]
    pub fn forget_varying(&mut self, expression: ExprId)
        ensures { self.new ≡ self.old }
    {
        self.made.wholes.forget(expression, APART + REST);
    }
}
