//! The nodes that expressions made before, which are taken again where they make the same.
//!
//! An expression that makes a pattern is mostly evaluated often, and mostly makes the same nodes. So the numbers of those
//! that it made last are kept, from a place on that its own number gives. A node that is wanted is compared with the one
//! that is kept at the next place; where it is the same it is counted and not made.
ghost use Rattle.std.specs.Prelude.{◌≡◌, ◌≤◌, ◌<◌, ◌+◌, false, IsTrue, length};
ghost use Rattle.sno_pattern.specs.Pattern.{Leaf, Text};
ghost use Rattle.sno_pattern.specs.Shape.{HasShape};
ghost use Rattle.sno_pattern.specs.Table.{StandsFor};
ghost use Rattle.sno_runtime.specs.Runtime.{made_nodes};
ghost use Rattle.sno_runtime.specs.inner.Runtime.{TellsAgain, counting};

use crate::errors::STORE_FULL;
use crate::runtime::Runtime;
use crate::runtime::direct::DirectLooks;
use crate::runtime::wholes::Wholes;
use crate::stops::{Exit, error};
use sno_pattern::Shape;
use sno_value::{ExprId, PatId};
use std::alloc::{AllocError, Global};

/// How many nodes a program makes at most.
const MOST_NODES: usize = 4_000_000;

/// How many places there are for the nodes of expressions.
const PLACES: usize = 4096;

/// The first place for the nodes of deferred expressions, which are evaluated amid others.
const DEFERRED: usize = 2048;

/// The longest text that is compared with the one that was made before, but for an answer to a deferred expression: what
/// that made is kept for the run, and to make a long text takes as long as to compare it.
const COMPARED: usize = 256;

/// A place where no node is kept.
pub(super) const NO_NODE: PatId = PatId(u32::MAX);

/// The nodes that were made last.
#[derive(Drop)]
pub(crate) struct Made {
    nodes: Vec<PatId>,
    /// The place of the next node; from `PLACES` on it has none.
    place: usize,
    pub(super) wholes: Wholes,
    pub(super) looks: DirectLooks,
}

impl Made {
    /// No node.
    pub(crate) fn new(alloc: Global) -> Result<Made, AllocError> {
        let nodes = vec![in alloc; NO_NODE; PLACES]?;
        let wholes = Wholes::new(alloc)?;
        let looks = DirectLooks::new(alloc)?;
        Ok(Made {
            nodes,
            place: PLACES,
            wholes,
            looks,
        })
    }

    /// The node at the next place.
    #[inline(always)]
    fn last(&self) -> PatId {
        match self.nodes.get(self.place) {
            Some(id) => *id,
            None => NO_NODE,
        }
    }

    /// Whether a text of this length is compared with that of the node at the next place.
    #[inline(always)]
    fn compares(&self, len: usize) -> bool {
        len <= COMPARED || self.place >= DEFERRED
    }

    /// Keeps a node at the next place.
    #[inline(always)]
    fn keep(&mut self, id: PatId) {
        if self.place < self.nodes.len() {
            self.nodes[self.place] = id;
        }
        self.pass();
    }

    /// Goes to the place behind. The parts of an expression have smaller numbers than it has, so places count down.
    #[inline(always)]
    fn pass(&mut self) {
        if self.place < PLACES {
            self.place = self.place.wrapping_sub(1);
        }
    }
}

impl Runtime {
    /// From here on the nodes of this expression are made, which is evaluated anew.
    #[inline]
    pub fn makes_for(&mut self, expression: ExprId)
        ensures { self.new ≡ self.old }
    {
        self.made.place = expression.0 as usize % DEFERRED;
    }

    /// The same of an expression that a match has come to.
    #[inline]
    pub fn answers_for(&mut self, expression: ExprId)
        ensures { self.new ≡ self.old }
    {
        self.made.place = DEFERRED + expression.0 as usize % DEFERRED;
    }

    /// From here on nodes are made of which none is kept.
    #[inline]
    pub fn makes_once(&mut self)
        ensures { self.new ≡ self.old }
    {
        self.made.place = PLACES;
    }

    /// Counts so many nodes, which are there, as made. It is false where there would be more than 4,000,000, and then
    /// counts none.
    #[inline(always)]
    pub fn count_nodes(&mut self, count: u32) -> bool
        ensures room { IsTrue result → made_nodes self.old + count ≤ 4000000 }
        ensures counted { IsTrue result → self.new ≡ counting self.old count }
        ensures refused { result ≡ false → self.new ≡ self.old }
    {
        let made = self.patterns.len() as usize + self.counted as usize;
        if made > MOST_NODES || count as usize > MOST_NODES - made {
            return false;
        }
        self.counted += count;
        true
    }

    /// The node that was made last at the next place; any number where none was.
    #[inline(always)]
    pub(crate) fn made_last(&self) -> PatId {
        self.made.last()
    }

    /// Whether a number is that of a node with this head. It is false for a number that the table doesn't have.
    #[inline(always)]
    pub(crate) fn has_shape(&self, id: PatId, shape: Shape) -> bool
        ensures inside { IsTrue result → id.0 < length self.now.nodes }
        ensures shape { IsTrue result → HasShape self.now.nodes id.0 shape }
    {
        if id.0 >= self.patterns.len() {
            return false;
        }
        self.patterns.shape(id) == shape
    }

    /// Whether a number is that of a node for this text. It is false for a number that the table doesn't have, and for a
    /// text that is sooner shared than compared.
    #[inline(always)]
    pub(crate) fn has_text(&self, id: PatId, bytes: &[u8]) -> bool
        ensures { IsTrue result → StandsFor self.now.nodes id (Leaf (Text bytes.now)) }
    {
        self.made.compares(bytes.len()) && self.patterns.is_text(id, bytes)
    }

    /// The node that was made last, where it is the one that is wanted; it is counted. None where that must be made.
    /// Error 9 where there are 4,000,000.
    #[inline(always)]
    pub(crate) fn again(&mut self, same: bool, last: PatId) -> Result<Option<PatId>, Exit>
        ensures { TellsAgain same last self.old self.new result }
    {
        if self.patterns.len() as usize + self.counted as usize >= MOST_NODES {
            return Err(error(STORE_FULL));
        }
        if !same {
            return Ok(None);
        }
        self.counted += 1;
        self.made.pass();
        Ok(Some(last))
    }

    /// Keeps a node that was made at the next place.
    #[inline(always)]
    pub(crate) fn keep_made(&mut self, id: PatId) -> PatId
        ensures same { self.new ≡ self.old }
        ensures id { result ≡ id }
    {
        self.made.keep(id);
        id
    }
}
