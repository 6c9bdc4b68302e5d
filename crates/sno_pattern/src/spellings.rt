//! The lists that the sets of nodes were made of, so that the same list needn't be made a set once more.
ghost use Rattle.std.specs.Prelude.{◌≡◌, IfSome};
ghost use Rattle.sno_pattern.specs.Sets.{set_of};
ghost use Rattle.sno_pattern.specs.Masks.{members};

use sno_value::{PatId, Text};
use std::alloc::Global;
use std::marker::Model;

/// How many lists are kept.
const PLACES: usize = 256;

/// The longest list that is kept, in bytes.
const LONGEST: usize = 256;

/// A list and the mask of its bytes. Contracts see the list.
#[derive(Drop)]
struct Spelling {
    list: Text,
    words: [u64; 4],
}

impl Model for Spelling {
    ghost use Rattle.std.specs.Prelude.{◌≡◌, List, ℕ};
    ghost use Rattle.sno_pattern.specs.Sets.{set_of};
    ghost use Rattle.sno_pattern.specs.Masks.{members};

    ghost Value = { List ℕ };

    ghost view = { λ spelling. spelling.list };

    ghost invariant = { λ spelling. members spelling.words ≡ set_of spelling.list };
}

/// The lists of nodes. What is kept is true of itself, so it may be kept for any node.
#[derive(Drop)]
pub(crate) struct Spellings {
    /// A list has the place of its node's number, modulo `PLACES`.
    kept: Vec<Option<Spelling>>,
    alloc: Global,
}

impl Spellings {
    /// No list. It takes no memory.
    pub(crate) fn new(alloc: Global) -> Spellings {
        Spellings {
            kept: Vec::new(alloc),
            alloc,
        }
    }

    /// The mask of a list, where that is kept for the node.
    #[inline(always)]
    pub(crate) fn find(&self, id: PatId, bytes: &[u8]) -> Option<[u64; 4]>
        ensures { IfSome result (λ words. members words ≡ set_of bytes.now) }
    {
        let Some(Some(spelling)) = self.kept.get(id.0 as usize % PLACES) else {
            return None;
        };
        if spelling.list.as_slice() == bytes {
            Some(spelling.words)
        } else {
            None
        }
    }

    /// Keeps the list of a node with its mask, if it isn't too long and memory is given.
    #[inline(never)]
    pub(crate) fn keep(&mut self, id: PatId, bytes: &[u8], words: [u64; 4])
        requires { members words ≡ set_of bytes.now }
    {
        if bytes.len() > LONGEST {
            return;
        }
        let place = id.0 as usize % PLACES;
        let Ok(list) = Text::from_slice(self.alloc, bytes) else {
            return;
        };
        self.make_places(place + 1);
        if let Some(kept) = self.kept.get_mut(place) {
            *kept = Some(Spelling { list, words });
        }
    }

    /// Makes this many places, if memory is given.
    fn make_places(&mut self, count: usize) {
        for _more in self.kept.len()..count {
            if self.kept.push(None).is_err() {
                return;
            }
        }
    }
}
