//! Which ARBs are asked how far what comes behind them fails.

/// How many lists of goals are told apart.
const MOST: u32 = 32;

/// Behind so many starts what didn't pay may pay again.
const AGAIN: u32 = 16;

/// Lists of goals, by their numbers; those whose numbers differ by a multiple of 32 are taken for one.
#[derive(Clone, Copy, Drop)]
pub(crate) struct Places {
    bits: u32,
}

/// What asking at the ARBs that are first of their lists came to.
#[derive(Clone, Copy, Drop)]
pub(crate) struct Asked {
    /// These aren't asked: their ends are taken one by one.
    pub plain: Places,
    /// It didn't pay the last time.
    doubted: Places,
}

impl Places {
    /// No list.
    fn none() -> Places {
        Places { bits: 0 }
    }

    /// Every list.
    #[inline(always)]
    pub(crate) fn all() -> Places {
        Places { bits: u32::MAX }
    }

    /// Whether this list is one of them.
    #[inline(always)]
    pub(crate) fn has(self, goals: u32) -> bool {
        self.bits >> (goals % MOST) & 1 == 1
    }

    /// This list is one of them.
    fn put(&mut self, goals: u32) {
        self.bits |= 1 << (goals % MOST);
    }

    /// This list is none of them.
    fn remove(&mut self, goals: u32) {
        self.bits &= !(1 << (goals % MOST));
    }
}

impl Asked {
    /// Nothing was asked.
    pub(crate) fn none() -> Asked {
        Asked {
            plain: Places::none(),
            doubted: Places::none(),
        }
    }

    /// A search begins from this start.
    #[inline(always)]
    pub(crate) fn begin_at(&mut self, start: u32) {
        if start % AGAIN == 0 {
            *self = Asked::none();
        }
    }

    /// At this list nothing can be told.
    pub(crate) fn note_plain(&mut self, goals: u32) {
        self.plain.put(goals);
    }

    /// It paid at this list, or it didn't: the second time in a row it is asked no more.
    pub(crate) fn note(&mut self, goals: u32, pays: bool) {
        if pays {
            self.doubted.remove(goals);
        } else if self.doubted.has(goals) {
            self.plain.put(goals);
        } else {
            self.doubted.put(goals);
        }
    }
}
