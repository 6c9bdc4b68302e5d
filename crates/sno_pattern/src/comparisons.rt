//! How far long texts agreed with the subject, and where the subject repeats itself: a text that agreed from one cursor
//! agrees from another as far as the subject does there, so that neither is gone through again.
ghost use Rattle.std.specs.Prelude.{◌≡◌, ◌<◌, ◌≤◌, ◌+◌, [], ℕ, List, drop, length, IfSome, IfOk};
ghost use Rattle.sno_pattern.specs.Agreement.{AreSame, Agree};
ghost use Rattle.sno_pattern.specs.Compared.{AreCompared, AreComparisons, ArePeriods, IsTrueComparison, IsTruePeriod};
ghost use Rattle.sno_pattern.specs.inner.Compared.{none_compared, HaveNoText, HaveNoByte};
ghost use Rattle.sno_pattern.specs.Table.{Node};

use crate::agreement::agreement;
use sno_value::PatId;
use std::alloc::{AllocError, Global};
use std::marker::Model;

/// How many periods are remembered.
const PERIODS: usize = 32;

/// For how many texts there are places at first.
const FEWEST: usize = 64;

/// For how many texts there are places at most.
const MOST: usize = 65_536;

/// How many bytes behind those that are asked for the subject is compared with itself.
const MORE: usize = 4_096;

/// How many bytes of a node's text agreed with the subject from a cursor.
#[derive(Clone, Copy, Drop)]
pub(crate) struct Comparison {
    pub id: PatId,
    pub cursor: usize,
    pub count: usize,
}

/// No byte agreed.
const NO_COMPARISON: Comparison = Comparison {
    id: PatId(0),
    cursor: 0,
    count: 0,
};

/// A range of the subject each byte of which stands at a distance once more.
#[derive(Clone, Copy, Drop)]
pub(crate) struct Period {
    pub distance: usize,
    pub from: usize,
    pub until: usize,
}

/// A range with no byte.
const NO_PERIOD: Period = Period {
    distance: 0,
    from: 0,
    until: 0,
};

/// What comparisons with one subject have found out. It takes memory once a long text is compared.
#[derive(Drop)]
pub(crate) struct Comparisons {
    /// A text has the place of its node's number, modulo their count.
    texts: Vec<Comparison>,
    /// A period has the place of its distance, modulo their count.
    periods: Vec<Period>,
    alloc: Global,
}

impl Model for Comparisons {
    ghost use Rattle.sno_pattern.specs.Compared.{Compared};

    ghost Value = { Compared };

    ghost view = { λ all. record { texts = all.texts.items; periods = all.periods.items } };
}

impl Comparisons {
    /// Nothing was compared.
    pub(crate) fn new(alloc: Global) -> Comparisons
        ensures { result ≡ none_compared }
    {
        Comparisons {
            texts: Vec::new(alloc),
            periods: Vec::new(alloc),
            alloc,
        }
    }

    /// Forgets what was found out.
    pub(crate) fn clear(&mut self)
        ensures { self.new ≡ none_compared }
    {
        if !self.texts.is_empty() {
            self.texts = Vec::new(self.alloc);
        }
        if !self.periods.is_empty() {
            self.periods = Vec::new(self.alloc);
        }
    }

    /// How far the text of a node agreed from some cursor, if some bytes did.
    pub(crate) fn find(&self, id: PatId) -> Option<Comparison>
        ensures id { IfSome result (λ before. before.id.0 ≡ id.0) }
        ensures some { IfSome result (λ before. 0 < before.count) }
        ensures told { (nodes : List Node) (s : List ℕ) → AreComparisons nodes s self.now.texts
            → IfSome result (λ before. IsTrueComparison nodes s before) }
    {
        let count = self.texts.len();
        if count == 0 {
            return None;
        }
        let before = self.texts[id.0 as usize % count];
        if before.id.0 == id.0 && before.count > 0 {
            Some(before)
        } else {
            None
        }
    }

    /// Remembers how far a text agreed, unless its node is known to agree for more than twice as many bytes elsewhere.
    pub(crate) fn remember(&mut self, told: Comparison)
        ensures { (nodes : List Node) (s : List ℕ) → AreCompared nodes s self.old → IsTrueComparison nodes s told
            → AreCompared nodes s self.new }
    {
        self.make_room(told.id);
        let count = self.texts.len();
        if count == 0 {
            return;
        }
        let place = told.id.0 as usize % count;
        let before = self.texts[place];
        if before.id.0 == told.id.0 && before.count / 2 > told.count {
            return;
        }
        self.texts[place] = told;
    }

    /// Makes a place for a text where another has it, as long as that may be and memory is given. What was told is
    /// compared once more.
    fn make_room(&mut self, id: PatId)
        ensures { (nodes : List Node) (s : List ℕ) → AreCompared nodes s self.old → AreCompared nodes s self.new }
    {
        let count = self.texts.len();
        if count > 0 {
            let before = self.texts[id.0 as usize % count];
            if before.count == 0 || before.id.0 == id.0 {
                return;
            }
        }
        let more = count.saturating_mul(4).max(FEWEST);
        if more > MOST {
            return;
        }
        if let Ok(texts) = no_texts(self.alloc, more) {
            self.texts = texts;
        }
    }

    /// How many bytes of the subject from one cursor on are the same as from another. It stops behind `most`.
    pub(crate) fn repeated(
        &mut self,
        subject: &[u8],
        from: usize,
        distance: usize,
        most: usize,
    ) -> usize
        requires inside { from + distance ≤ length subject.now }
        requires periods { ArePeriods subject.now self.old.periods }
        ensures compared { (nodes : List Node) → AreCompared nodes subject.now self.old
            → AreCompared nodes subject.now self.new }
        ensures same { AreSame (drop from subject.now) (drop (from + distance) subject.now) result }
        ensures apart { result < most → Agree (drop from subject.now) (drop (from + distance) subject.now) result }
    {
        let known = self.known_period(subject, from, distance);
        if known >= most {
            return known;
        }
        let count = agreement(
            &subject[from..],
            &subject[from + distance..],
            known,
            most.saturating_add(MORE),
        );
        if count > known {
            let until = from + count;
            self.remember_period(
                subject,
                Period {
                    distance,
                    from,
                    until,
                },
            );
        }
        count
    }

    /// The same as far as a period tells it.
    fn known_period(&self, subject: &[u8], from: usize, distance: usize) -> usize
        requires inside { from + distance ≤ length subject.now }
        requires periods { ArePeriods subject.now self.now.periods }
        ensures { AreSame (drop from subject.now) (drop (from + distance) subject.now) result }
    {
        let count = self.periods.len();
        if count == 0 {
            return 0;
        }
        let period = self.periods[distance % count];
        if period.distance == distance && period.from <= from && from < period.until {
            period.until - from
        } else {
            0
        }
    }

    /// Makes the places for periods, if there are none yet and memory is given.
    fn make_periods(&mut self)
        ensures { (nodes : List Node) (s : List ℕ) → AreCompared nodes s self.old → AreCompared nodes s self.new }
    {
        if !self.periods.is_empty() {
            return;
        }
        if let Ok(periods) = no_periods(self.alloc) {
            self.periods = periods;
        }
    }

    /// Remembers a period of the subject, with that before it where both are one range, if memory is given.
    fn remember_period(&mut self, subject: &[u8], period: Period)
        requires { IsTruePeriod subject.now period }
        ensures { (nodes : List Node) → AreCompared nodes subject.now self.old → AreCompared nodes subject.now self.new }
    {
        self.make_periods();
        let count = self.periods.len();
        if count == 0 {
            return;
        }
        let place = period.distance % count;
        let all = joined(self.periods[place], period);
        self.periods[place] = all;
    }
}

/// Both periods in one range where they have the same distance and nothing lies between them, or else the second.
fn joined(before: Period, behind: Period) -> Period
    ensures { (s : List ℕ) → IsTruePeriod s before → IsTruePeriod s behind → IsTruePeriod s result }
{
    let apart = behind.from > before.until || before.from > behind.until;
    if apart || before.distance != behind.distance || before.from >= before.until {
        return behind;
    }
    Period {
        distance: behind.distance,
        from: before.from.min(behind.from),
        until: before.until.max(behind.until),
    }
}

/// Places for so many texts of which no byte agreed.
fn no_texts(alloc: Global, count: usize) -> Result<Vec<Comparison>, AllocError>
    ensures { IfOk result (λ texts. HaveNoText texts.items) }
{
    let texts = vec![in alloc; NO_COMPARISON; count]?;
    Ok(texts)
}

/// Places for periods that have no byte.
fn no_periods(alloc: Global) -> Result<Vec<Period>, AllocError>
    ensures { IfOk result (λ periods. HaveNoByte periods.items) }
{
    let periods = vec![in alloc; NO_PERIOD; PERIODS]?;
    Ok(periods)
}
