//! What the looks through a subject have found out, so that a later look need not repeat them.
ghost use Rattle.std.specs.Prelude.{◌≡◌, ℕ, List, ◌<◌, ◌≤◌, ◌+◌, drop, length, slice_get, IfSome};
ghost use Rattle.sno_pattern.specs.BalanceTable.{IsTableIfMade};
ghost use Rattle.sno_pattern.specs.Agreement.{AreSame, Agree};
ghost use Rattle.sno_pattern.specs.Compared.{ArePeriods, IsTrueComparison};
ghost use Rattle.sno_pattern.specs.Ends.{ends};
ghost use Rattle.sno_pattern.specs.inner.Kinds.{node_of};
ghost use Rattle.sno_pattern.specs.inner.Looks.{AreBefore, AreEarlier};
ghost use Rattle.sno_pattern.specs.Looks.{IsTrueRun, AreTrue};
ghost use Rattle.sno_pattern.specs.Pattern.{Bal};
ghost use Rattle.sno_pattern.specs.Places.{IsFirstPlace};
ghost use Rattle.sno_pattern.specs.Present.{ArePresent};
ghost use Rattle.sno_pattern.specs.inner.Places.{leaf_has_end};
ghost use Rattle.sno_pattern.specs.Shape.{end_of};
ghost use Rattle.sno_pattern.specs.inner.Shape.{end_of_node};
ghost use Rattle.sno_pattern.specs.Table.{Node, tree};

use crate::balance_table::Balance;
use crate::comparisons::{Comparison, Comparisons};
use crate::ends::is_long;
use crate::kind::Kind;
use crate::more_runs::MoreRuns;
use crate::present::Present;
use sno_value::{PatId, Prim};
use std::alloc::Global;
use std::marker::Model;

/// How many runs are remembered in places that take no memory.
const RUNS: usize = 32;

/// Keys below this are numbers of primitives, under which their first ends are remembered.
const FIRST_BEHIND: u32 = 1 << 31;

/// An odd number of which a multiple has a bit of each factor in its upper half.
const SPREAD: u64 = 0x9E37_79B9_7F4A_7C15;

/// A run of cursors from each of which the first end of a primitive is the same.
#[derive(Clone, Copy, Drop)]
pub(crate) struct Run {
    pub id: PatId,
    pub from: usize,
    pub until: usize,
    pub end: Option<usize>,
    /// The subject of which it is told.
    pub turn: u32,
    /// What it is looked up by.
    pub key: u32,
}

/// A run of no subject, which has no cursor.
pub(crate) const NO_RUN: Run = Run {
    id: PatId(0),
    from: 1,
    until: 0,
    end: None,
    turn: 0,
    key: 0,
};

/// What the looks through one subject have found out: the last runs that SPAN, BREAK and BREAKX looked through, and
/// BAL's first ends, which bytes are present in its parts, and how far long texts agreed with it.
#[derive(Drop)]
pub struct Looks {
    runs: [Run; RUNS],
    /// The runs whose place among these another primitive has, and those of ends behind others.
    more: MoreRuns,
    /// The number of the subject: what was told of others counts no more.
    turn: u32,
    balance: Balance,
    present: Present,
    compared: Comparisons,
    /// Whether anything may have been kept since they were cleared.
    used: bool,
}

impl Model for Looks {
    ghost use Rattle.std.specs.Prelude.{◌≡◌, ◌+◌, ℕ, List, false};
    ghost use Rattle.sno_pattern.specs.Looks.{AreTrue, Found};
    ghost use Rattle.sno_pattern.specs.Table.{Node};
    ghost use Rattle.sno_pattern.specs.inner.Looks.{found_of, AreBefore, AreEarlier};

    ghost Value = { Found };

    ghost view = { λ looks. found_of looks.runs looks.more looks.turn looks.balance looks.present looks.compared };

    ghost invariant = { λ looks. AreBefore (looks.turn + 1) looks.runs × (AreEarlier (looks.turn + 1) looks.more × (looks.used ≡ false
        → (nodes : List Node) (s : List ℕ) → AreTrue nodes s (found_of looks.runs looks.more looks.turn looks.balance looks.present looks.compared))) };
}

impl Looks {
    /// Nothing was looked through. That is true of each subject. It takes no memory.
    pub fn new(alloc: Global) -> Looks
        ensures { (nodes : List Node) (s : List ℕ) → AreTrue nodes s result }
    {
        Looks {
            runs: no_runs(),
            more: MoreRuns::new(alloc),
            turn: 1,
            balance: Balance::new(alloc),
            present: Present::new(alloc),
            compared: Comparisons::new(alloc),
            used: false,
        }
    }

    /// Forgets what was found out: nothing was looked through, as `new` has it.
    pub fn clear(&mut self)
        ensures { (nodes : List Node) (s : List ℕ) → AreTrue nodes s self.new }
    {
        if self.used {
            self.turn = next_turn(&mut self.runs, &mut self.more, self.turn);
            self.balance.clear();
            self.present.clear();
            self.compared.clear();
            self.used = false;
        }
    }

    /// The run under a key that has a cursor.
    pub(crate) fn find(&self, key: u32, at: usize) -> Option<Run>
        ensures { (nodes : List Node) (s : List ℕ) → AreTrue nodes s self.now
            → IfSome result (λ run. run.end ≡ end_of (tree nodes run.id.0) s at 0) }
    {
        let run = &self.runs[place_of(key)];
        if run.turn == self.turn && run.key == key && run.from <= at && at <= run.until {
            return Some(*run);
        }
        let found = self.more.find(key, self.turn, at);
        found
    }

    /// Remembers a run under its key. That of a first end has a place of its own, unless another primitive has that.
    pub(crate) fn remember(&mut self, run: Run)
        ensures { (nodes : List Node) (s : List ℕ) → AreTrue nodes s self.old → IsTrueRun nodes s run
            → AreTrue nodes s self.new }
    {
        let told = Run {
            turn: self.turn,
            ..run
        };
        self.used = true;
        let place = place_of(run.key);
        let before = self.runs[place];
        if run.key < FIRST_BEHIND && (before.turn != self.turn || before.key == run.key) {
            self.runs[place] = told;
        } else {
            self.more.remember(told);
        }
    }

    /// Counts the bytes that a look passed, so that looks at many sets come to share the masks of the subject.
    pub(crate) fn count(&mut self, subject: &[u8], passed: usize)
        requires present { ArePresent subject.now self.old.present }
        ensures looks { (nodes : List Node) → AreTrue nodes subject.now self.old → AreTrue nodes subject.now self.new }
    {
        self.used = true;
        self.present.count(subject, passed);
    }

    /// A cursor from which SPAN, BREAK or BREAKX has the same first end, near to that end where the masks are made.
    #[inline(always)]
    pub(crate) fn near_end(&self, kind: &Kind, subject: &[u8], at: usize) -> usize
        requires at { at ≤ length subject.now }
        requires present { ArePresent subject.now self.now.present }
        ensures inside { result ≤ length subject.now }
        ensures same { end_of_node (node_of kind.now) subject.now result 0 ≡ end_of_node (node_of kind.now) subject.now at 0 }
    {
        if !self.present.are_made() {
            return at;
        }
        let cursor = cursor_by_masks(&self.present, kind, subject, at);
        cursor
    }

    /// How far the text of a node agreed with the subject from some cursor, if some bytes did.
    pub(crate) fn find_comparison(&self, id: PatId) -> Option<Comparison>
        ensures id { IfSome result (λ before. before.id.0 ≡ id.0) }
        ensures some { IfSome result (λ before. 0 < before.count) }
        ensures told { (nodes : List Node) (s : List ℕ) → AreTrue nodes s self.now
            → IfSome result (λ before. IsTrueComparison nodes s before) }
    {
        let before = self.compared.find(id);
        before
    }

    /// Remembers how far a text agreed.
    pub(crate) fn remember_comparison(&mut self, told: Comparison)
        ensures { (nodes : List Node) (s : List ℕ) → AreTrue nodes s self.old → IsTrueComparison nodes s told
            → AreTrue nodes s self.new }
    {
        self.used = true;
        self.compared.remember(told);
    }

    /// How many bytes of the subject from one cursor on are the same as at a distance. It stops behind `most`.
    pub(crate) fn repeated(
        &mut self,
        subject: &[u8],
        from: usize,
        distance: usize,
        most: usize,
    ) -> usize
        requires inside { from + distance ≤ length subject.now }
        requires periods { ArePeriods subject.now self.old.compared.periods }
        ensures looks { (nodes : List Node) → AreTrue nodes subject.now self.old → AreTrue nodes subject.now self.new }
        ensures same { AreSame (drop from subject.now) (drop (from + distance) subject.now) result }
        ensures apart { result < most → Agree (drop from subject.now) (drop (from + distance) subject.now) result }
    {
        self.used = true;
        let count = self.compared.repeated(subject, from, distance, most);
        count
    }

    /// BAL's first end from a cursor.
    pub(crate) fn balanced_end(&mut self, subject: &[u8], at: usize) -> Option<usize>
        requires at { at ≤ length subject.now }
        requires balance { IsTableIfMade subject.now self.old.first_ends }
        ensures looks { (nodes : List Node) → AreTrue nodes subject.now self.old → AreTrue nodes subject.now self.new }
        ensures balance { IsTableIfMade subject.now self.new.first_ends }
        ensures value { result ≡ slice_get (ends Bal subject.now at) 0 }
    {
        self.used = true;
        let end = self.balance.first_end(subject, at);
        end
    }

    /// The first place of a range from which BAL has an end, or the range's end.
    pub(crate) fn balanced_place(&mut self, subject: &[u8], from: usize, until: usize) -> usize
        requires range { from ≤ until }
        requires inside { until ≤ length subject.now + 1 }
        requires balance { IsTableIfMade subject.now self.old.first_ends }
        ensures looks { (nodes : List Node) → AreTrue nodes subject.now self.old → AreTrue nodes subject.now self.new }
        ensures place { IsFirstPlace (leaf_has_end Bal subject.now) from until result }
    {
        let mut place = from;
        'places: while place < until {
            if self.balanced_end(subject, place).is_some() {
                return place;
            }
            place += 1;
        }
        place
    }
}

/// Nothing was looked through.
fn no_runs() -> [Run; RUNS]
    ensures { AreBefore 1 result }
{
    let runs = [NO_RUN; RUNS];
    runs
}

/// The number of the next subject, of which no run is told.
fn next_turn(runs: &mut [Run; RUNS], more: &mut MoreRuns, turn: u32) -> u32
    requires runs { AreBefore (turn + 1) runs.old }
    requires more { AreEarlier (turn + 1) more.old }
    ensures runs { AreBefore result runs.new }
    ensures more { AreEarlier result more.new }
{
    match turn.checked_add(1) {
        Some(next) => next,
        None => {
            forget_all(runs, more);
            1
        }
    }
}

/// Clears the runs when all numbers of subjects were given.
#[inline(never)]
fn forget_all(runs: &mut [Run; RUNS], more: &mut MoreRuns)
    ensures runs { AreBefore 1 runs.new }
    ensures more { AreEarlier 1 more.new }
{
    *runs = no_runs();
    more.clear();
}

/// The place in which the first end under a key stands.
fn place_of(key: u32) -> usize
    ensures { result < 32 }
{
    key as usize % RUNS
}

/// The key for the end behind another, which is never that for a first end. It is another for few others.
pub(crate) fn key_behind(number: u32, last: usize) -> u32 {
    let both = (last as u64).wrapping_mul(SPREAD) ^ u64::from(number);
    (both.wrapping_mul(SPREAD) >> 32) as u32 | FIRST_BEHIND
}

/// Whether the first end of a primitive may be so far that it is worth remembering.
pub(crate) fn is_far(kind: &Kind) -> bool {
    matches!(
        kind,
        Kind::Among(Prim::Span | Prim::Break | Prim::BreakX, _)
    )
}

/// Whether the first end of a primitive is found at once, so that nothing is looked up or remembered for it.
pub(crate) fn is_near(kind: &Kind) -> bool {
    match kind {
        Kind::Text(text) => !is_long(text.as_slice()),
        Kind::Bal => false,
        Kind::Among(prim, _set) => !matches!(prim, Prim::Span | Prim::Break | Prim::BreakX),
        _ => true,
    }
}

/// A cursor from which SPAN, BREAK or BREAKX has the same first end, found by masks.
#[inline(never)]
fn cursor_by_masks(present: &Present, kind: &Kind, subject: &[u8], at: usize) -> usize
    requires at { at ≤ length subject.now }
    requires present { ArePresent subject.now present.now }
    ensures inside { result ≤ length subject.now }
    ensures same { end_of_node (node_of kind.now) subject.now result 0 ≡ end_of_node (node_of kind.now) subject.now at 0 }
{
    match kind {
        Kind::Among(prim, set) => match prim {
            Prim::Span => {
                let behind = present.cursor_near(set, false, subject, at);
                behind.saturating_sub(1).max(at)
            }
            Prim::Break => {
                let end = present.cursor_near(set, true, subject, at);
                end
            }
            Prim::BreakX => {
                let end = present.cursor_near(set, true, subject, at);
                end
            }
            _ => at,
        },
        _ => at,
    }
}

/// The last cursor of the run that begins at one with this first end.
pub(crate) fn last_with_end(kind: &Kind, subject: &[u8], at: usize, end: Option<usize>) -> usize
    requires { end ≡ end_of_node (node_of kind.now) subject.now at 0 }
    ensures { (c : ℕ) → at ≤ c → c ≤ result → end_of_node (node_of kind.now) subject.now c 0 ≡ end }
{
    match kind {
        Kind::Among(prim, _set) => match prim {
            Prim::Span => match end {
                Some(end) => end.saturating_sub(1),
                None => at,
            },
            Prim::Break => end.unwrap_or(subject.len()),
            Prim::BreakX => end.unwrap_or(subject.len()),
            _ => at,
        },
        _ => at,
    }
}
