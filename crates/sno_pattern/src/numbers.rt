//! The numbers by which nodes that search for the same bytes share what is remembered of them.
ghost use Rattle.std.specs.Prelude.{◌≤◌, length};

use crate::kind::{Entry, Kind, is_same_search};
use crate::looks::is_far;

/// How many numbers are given in order.
const ASKED: usize = 64;

/// The node for which no number was given.
const NO_NODE: u32 = u32::MAX;

/// The numbers that were given.
#[derive(Drop)]
pub(crate) struct Numbers {
    /// How many there are.
    count: u32,
    /// The node for which the first one with a hash was given.
    given: [u32; ASKED],
}

impl Numbers {
    /// None was given.
    pub(crate) fn new() -> Numbers {
        Numbers {
            count: 0,
            given: [NO_NODE; ASKED],
        }
    }

    /// The number of a node that comes behind these entries: that of an equal one, or the next. Where another search has
    /// the place of the hash it is the hash, so that an equal one has it too. What is told of a run is asked again where
    /// it is used (`Patterns::recall`), so a number may be any.
    pub(crate) fn number_behind(&mut self, entries: &[Entry], kind: &Kind) -> u32
        requires { length entries.now ≤ 4000000 }
    {
        let Kind::Among(prim, set) = kind else {
            return 0;
        };
        if !is_far(kind) {
            return 0;
        }
        let hash = set.hash() ^ (*prim as u32) << 1;
        let place = hash as usize % ASKED;
        if let Some(entry) = entries.get(self.given[place] as usize)
            && is_far(&entry.kind)
        {
            return if is_same_search(&entry.kind, kind) {
                entry.number
            } else {
                hash / 2
            };
        }
        self.given[place] = entries.len() as u32;
        self.count = self.count.wrapping_add(1);
        self.count
    }
}
