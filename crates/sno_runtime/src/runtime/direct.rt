//! For which patterns the first way of a match is looked for directly. It decides how a way is found, not which.
use sno_value::PatId;
use std::alloc::{AllocError, Global};

/// How many places there are.
const PLACES: usize = 256;

/// The most matches that go by behind a look in vain, but for what the subject's length adds.
const MOST: u16 = 1023;

/// How many bytes of a subject count as much as a match: a look in vain may have come to the subject's end.
const BYTES: usize = 32;

/// The most matches that a subject counts.
const MOST_BYTES: usize = 32_000;

/// Where the looks for a pattern stand, by its number.
#[derive(Clone, Copy, Drop)]
struct Look {
    /// How many matches go by before the next look.
    left: u16,
    /// How many go by behind the next look that is in vain: more with each one, and none behind one that found a way.
    rest: u16,
}

/// Where the looks for all patterns stand.
#[derive(Drop)]
pub(super) struct DirectLooks {
    looks: Vec<Look>,
}

impl DirectLooks {
    /// A look for each pattern.
    pub(super) fn new(alloc: Global) -> Result<DirectLooks, AllocError> {
        let looks = vec![in alloc; Look { left: 0, rest: 1 }; PLACES]?;
        Ok(DirectLooks { looks })
    }

    /// Whether a look is worth it; if not, it is sooner for the next match.
    #[inline(always)]
    pub(super) fn is_worth(&mut self, pattern: PatId) -> bool {
        let place = pattern.0 as usize % PLACES;
        if place >= self.looks.len() {
            return false;
        }
        let left = self.looks[place].left;
        if left == 0 {
            return true;
        }
        self.looks[place].left = left - 1;
        false
    }

    /// Tells whether a look has found a way in a subject of this length.
    #[inline(always)]
    pub(super) fn tell(&mut self, pattern: PatId, len: usize, found: bool) {
        let place = pattern.0 as usize % PLACES;
        if place >= self.looks.len() {
            return;
        }
        if found {
            self.looks[place].rest = 0;
            return;
        }
        let rest = self.looks[place].rest;
        if rest > 0 {
            let bytes = (len / BYTES).min(MOST_BYTES) as u16;
            self.looks[place].left = rest.saturating_add(bytes);
        }
        self.looks[place].rest = rest.saturating_mul(2).saturating_add(1).min(MOST);
    }
}
