//! Which bytes are present in the parts of a subject, so that a part in which none is looked for is passed as a whole.
ghost use Rattle.std.specs.Prelude.{◌≡◌, ◌≤◌, ◌<◌, ◌+◌, ◌/◌, ◌-◌, [], ℕ, List, false, length, get_or, IfOk};
ghost use Rattle.sno_pattern.specs.Present.{IsLevel, ArePresent};
ghost use Rattle.sno_pattern.specs.inner.Lanes.{passes};
ghost use Rattle.sno_pattern.specs.inner.Present.{ArePassed, IsAbove, NonePasses};

use crate::byte_set::ByteSet;
use std::alloc::{AllocError, Global};
use std::marker::Model;

/// How many bytes a part of the lowest level has.
const BLOCK: usize = 64;

/// How many parts of a level one of the level above has.
const FAN: usize = 8;

/// The masks are made once looks have passed so many times the subject's length.
const MANY: usize = 4;

/// The bytes that are present in each part of a subject, as masks of 256 bits.
#[derive(Drop)]
pub(crate) struct Level {
    masks: Vec<[u64; 4]>,
}

impl Model for Level {
    ghost use Rattle.std.specs.Prelude.{ℕ, List};

    ghost Value = { List (List ℕ) };

    ghost view = { λ level. level.masks.items };
}

impl Level {
    /// The masks of blocks of 64 bytes.
    fn of_blocks(alloc: Global, subject: &[u8]) -> Result<Level, AllocError>
        ensures { IfOk result (λ level. IsLevel subject.now 0 level) }
    {
        let mut masks = vec![in alloc; [0u64; 4]; subject.len() / BLOCK + 1]?;
        let mut at = 0;
        'bytes: while at < subject.len() {
            let mut set = ByteSet::with_words(masks[at / BLOCK]);
            set.add(subject[at]);
            masks[at / BLOCK] = set.words();
            at += 1;
        }
        Ok(Level { masks })
    }

    /// The masks of parts that have eight parts of this level each.
    fn above(&self, alloc: Global) -> Result<Level, AllocError>
        ensures level { IfOk result (λ above. IsAbove self.now above) }
        ensures shorter { IfOk result (λ above. length above ≡ length self.now / 8 + 1) }
    {
        let mut masks = vec![in alloc; [0u64; 4]; self.masks.len() / FAN + 1]?;
        let mut part = 0;
        'parts: while part < self.masks.len() {
            let mut set = ByteSet::with_words(masks[part / FAN]);
            set.add_all(&ByteSet::with_words(self.masks[part]));
            masks[part / FAN] = set.words();
            part += 1;
        }
        Ok(Level { masks })
    }

    /// The first part of a range in which a byte may pass, or the end of the range or of the level.
    fn first_part(&self, set: &ByteSet, inside: bool, from: usize, until: usize) -> usize
        ensures { (part : ℕ) → from ≤ part → part < result
            → NonePasses inside set.now (get_or self.now part []) }
    {
        let end = until.min(self.masks.len());
        let mut part = from;
        'parts: while part < end && set.passes_over(&self.masks[part], inside) {
            part += 1;
        }
        part
    }
}

/// The levels of masks for one subject. The bytes that looks without them pass are counted, and once they are many times
/// those of the subject the masks are made: few looks take no memory, and many, of whatever sets, little time each.
#[derive(Drop)]
pub(crate) struct Present {
    /// Empty as long as they are not made.
    levels: Vec<Level>,
    looked: usize,
    alloc: Global,
}

impl Model for Present {
    ghost use Rattle.std.specs.Prelude.{ℕ, List};

    ghost Value = { List (List (List ℕ)) };

    ghost view = { λ present. present.levels.items };
}

impl Present {
    /// No masks are made.
    pub(crate) fn new(alloc: Global) -> Present
        ensures { result ≡ [] }
    {
        Present {
            levels: Vec::new(alloc),
            looked: 0,
            alloc,
        }
    }

    /// The masks are let go, and what looks pass is counted anew.
    pub(crate) fn clear(&mut self)
        ensures { self.new ≡ [] }
    {
        if !self.levels.is_empty() {
            self.levels = Vec::new(self.alloc);
        }
        self.looked = 0;
    }

    /// Whether the masks are made.
    #[inline(always)]
    pub(crate) fn are_made(&self) -> bool {
        !self.levels.is_empty()
    }

    /// Counts the bytes that a look passed.
    pub(crate) fn count(&mut self, subject: &[u8], passed: usize)
        requires { ArePresent subject.now self.old }
        ensures { ArePresent subject.now self.new }
    {
        self.looked = self.looked.saturating_add(passed);
        if self.looked / MANY > subject.len() && self.levels.is_empty() {
            self.make(subject);
        }
    }

    /// Makes the masks. Where memory is refused looks go on without, and are counted anew.
    #[inline(never)]
    fn make(&mut self, subject: &[u8])
        requires { ArePresent subject.now self.old }
        ensures { ArePresent subject.now self.new }
    {
        self.looked = 0;
        if let Ok(levels) = levels_of(self.alloc, subject) {
            self.levels = levels;
        }
    }

    /// A cursor up to which no byte from another on is among a set, or each is where `inside` is false: the next one that
    /// passes is looked for in its own block, and then block by block, eight blocks at a time, and so on.
    #[inline(never)]
    pub(crate) fn cursor_near(
        &self,
        set: &ByteSet,
        inside: bool,
        subject: &[u8],
        at: usize,
    ) -> usize
        requires at { at ≤ length subject.now }
        requires present { ArePresent subject.now self.now }
        ensures behind { at ≤ result }
        ensures inside { result ≤ length subject.now }
        ensures passed { (c : ℕ) → at ≤ c → c < result → passes inside set.now (get_or subject.now c 0) ≡ false }
    {
        let end = (at / BLOCK * BLOCK)
            .saturating_add(BLOCK)
            .min(subject.len());
        if set.first_that_passes(&subject[at..end], inside).is_some() {
            return at;
        }
        let part = self.part_near(0, set, inside, end / BLOCK);
        let cursor = part.saturating_mul(BLOCK).min(subject.len()).max(end);
        cursor
    }

    /// A part of a level up to which, from another on, no byte passes.
    fn part_near(&self, number: usize, set: &ByteSet, inside: bool, from: usize) -> usize
        ensures { (s : List ℕ) → ArePresent s self.now → ArePassed inside set.now s number from result }
    {
        if number >= self.levels.len() {
            return from;
        }
        let level = &self.levels[number];
        let edge = level.first_part(set, inside, from, from.saturating_add(FAN - 1) / FAN * FAN);
        if edge % FAN != 0 {
            return edge;
        }
        let above = self.part_near(number + 1, set, inside, edge / FAN);
        let first = above.saturating_mul(FAN);
        let part = level.first_part(set, inside, first, first.saturating_add(FAN));
        part
    }
}

/// The levels of a subject's masks, from that of its blocks up to one of at most eight parts.
fn levels_of(alloc: Global, subject: &[u8]) -> Result<Vec<Level>, AllocError>
    ensures { IfOk result (λ levels. ArePresent subject.now levels.items) }
{
    let mut levels = Vec::new(alloc);
    let mut top = Level::of_blocks(alloc, subject)?;
    'levels: while top.masks.len() > FAN {
        let above = top.above(alloc)?;
        levels.push(top)?;
        top = above;
    }
    levels.push(top)?;
    Ok(levels)
}
