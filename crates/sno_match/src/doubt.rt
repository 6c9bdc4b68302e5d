//! Patterns whose searches are seldom in vain by one way alone.

use sno_value::PatId;

/// The patterns that are remembered.
const MOST: u32 = 4;

/// The most starts that are searched before it is asked again.
const MOST_STARTS: u32 = 255;

/// How many starts of a pattern are searched before it is asked again whether such a search goes one way alone in vain:
/// more of them each time that none does.
#[derive(Clone, Copy)]
struct Doubt {
    pattern: PatId,
    starts: u32,
    most: u32,
}

/// What is remembered of patterns, each at a place by its number.
#[derive(Clone, Copy, Drop)]
pub(crate) struct Doubts {
    places: [Doubt; MOST as usize],
}

impl Doubts {
    /// No pattern is in doubt.
    pub(crate) fn none() -> Doubts {
        let none = Doubt {
            pattern: PatId(0),
            starts: 0,
            most: 0,
        };
        Doubts {
            places: [none; MOST as usize],
        }
    }

    /// Whether it is asked at the next start of this pattern.
    #[inline(always)]
    pub(crate) fn asks(&mut self, pattern: PatId) -> bool {
        let place = &mut self.places[(pattern.0 % MOST) as usize];
        if place.pattern.0 != pattern.0 || place.starts == 0 {
            return true;
        }
        place.starts -= 1;
        false
    }

    /// A start of this pattern was asked, and so many before it were in vain.
    pub(crate) fn note(&mut self, pattern: PatId, vain: u32) {
        let place = &mut self.places[(pattern.0 % MOST) as usize];
        let mut most = 0;
        if place.pattern.0 == pattern.0 && vain < 2 {
            most = place.most;
        }
        if vain == 0 {
            most = most.saturating_mul(2).saturating_add(1).min(MOST_STARTS);
        }
        *place = Doubt {
            pattern,
            starts: most,
            most,
        };
    }
}
