//! The runs for which there is no place among the first ones, in a list that grows.
ghost use Rattle.std.specs.Prelude.{◌≡◌, ℕ, [], List, ◌<◌, ◌≤◌, ◌+◌, length, IfSome, IfOk};
ghost use Rattle.sno_pattern.specs.inner.Looks.{AreEarlier, HaveNoCursor};
ghost use Rattle.sno_pattern.specs.Looks.{IsTrueRun, AreTrueRuns};
ghost use Rattle.sno_pattern.specs.Shape.{end_of};
ghost use Rattle.sno_pattern.specs.Table.{Node, tree};

use crate::looks::{NO_RUN, Run};
use std::alloc::{AllocError, Global};
use std::marker::Model;

/// How many places there are at first.
const FEWEST: usize = 64;

/// How many places there are at most.
const MOST: usize = 65_536;

/// How many places, one behind another, are looked into for a run.
const WAYS: usize = 8;

/// From how many bytes on a run is remembered here. A subject has few such runs.
const WORTH_KEEPING: usize = 64;

/// An odd number of which a multiple has a bit of each factor in its upper half.
const SPREAD: u64 = 0x9E37_79B9_7F4A_7C15;

/// Runs that are looked up by their keys, a number that few of them share. Where those of one subject have no room the
/// list is made anew, four times as long, and what it held is looked through once more.
#[derive(Drop)]
pub(crate) struct MoreRuns {
    /// Empty as long as none was remembered.
    runs: Vec<Run>,
    /// The last subject of which one was remembered.
    turn: u32,
    alloc: Global,
}

impl Model for MoreRuns {
    ghost use Rattle.std.specs.Prelude.{List};
    ghost use Rattle.sno_pattern.specs.declared.looks.Run.{Run};

    ghost Value = { List Run };

    ghost view = { λ more. more.runs.items };
}

impl MoreRuns {
    /// No run. It takes no memory.
    pub(crate) fn new(alloc: Global) -> MoreRuns
        ensures { result ≡ [] }
    {
        MoreRuns {
            runs: Vec::new(alloc),
            turn: 0,
            alloc,
        }
    }

    /// Forgets all runs.
    pub(crate) fn clear(&mut self)
        ensures { self.new ≡ [] }
    {
        self.runs = Vec::new(self.alloc);
        self.turn = 0;
    }

    /// The run under a key that is told of the subject and has the cursor.
    #[inline(always)]
    pub(crate) fn find(&self, key: u32, turn: u32, at: usize) -> Option<Run>
        ensures { (nodes : List Node) (s : List ℕ) → AreTrueRuns nodes s turn self.now
            → IfSome result (λ run. run.end ≡ end_of (tree nodes run.id.0) s at 0) }
    {
        if self.turn != turn {
            return None;
        }
        let found = self.find_there(key, turn, at);
        found
    }

    /// The same where some run is told of the subject.
    #[inline(never)]
    fn find_there(&self, key: u32, turn: u32, at: usize) -> Option<Run>
        ensures { (nodes : List Node) (s : List ℕ) → AreTrueRuns nodes s turn self.now
            → IfSome result (λ run. run.end ≡ end_of (tree nodes run.id.0) s at 0) }
    {
        let count = self.runs.len();
        if count == 0 {
            return None;
        }
        let first = place_of(key);
        let mut way = 0;
        'ways: while way < WAYS {
            let run = self.runs[(first + way) % count];
            if run.key == key && run.turn == turn && run.from <= at && at <= run.until {
                return Some(run);
            }
            way += 1;
        }
        None
    }

    /// Remembers a run under its key. Where it finds no room it takes the place of another, or is not remembered.
    #[inline(never)]
    pub(crate) fn remember(&mut self, run: Run)
        ensures true_runs { (nodes : List Node) (s : List ℕ) → AreTrueRuns nodes s run.turn self.old
            → IsTrueRun nodes s run → AreTrueRuns nodes s run.turn self.new }
        ensures earlier { AreEarlier (run.turn + 1) self.old → AreEarlier (run.turn + 1) self.new }
    {
        if run.until < run.from.saturating_add(WORTH_KEEPING) {
            return;
        }
        if free_place(&self.runs, run.key, run.turn).is_none() {
            self.grow();
        }
        let count = self.runs.len();
        if count == 0 {
            return;
        }
        let place = match free_place(&self.runs, run.key, run.turn) {
            Some(place) => place,
            None => place_of(run.key) % count,
        };
        self.turn = run.turn;
        self.runs[place] = run;
    }

    /// Makes the list anew, four times as long, if it may be and memory is given.
    fn grow(&mut self)
        ensures true_runs { (nodes : List Node) (s : List ℕ) (turn : ℕ) → AreTrueRuns nodes s turn self.old
            → AreTrueRuns nodes s turn self.new }
        ensures earlier { (turn : ℕ) → AreEarlier (turn + 1) self.old → AreEarlier (turn + 1) self.new }
    {
        let count = self.runs.len().saturating_mul(4).max(FEWEST);
        if count > MOST {
            return;
        }
        if let Ok(runs) = places(self.alloc, count) {
            self.runs = runs;
        }
    }
}

/// A list of so many runs that have no cursor.
fn places(alloc: Global, count: usize) -> Result<Vec<Run>, AllocError>
    ensures { IfOk result (λ runs. HaveNoCursor runs.items) }
{
    let runs = vec![in alloc; NO_RUN; count]?;
    Ok(runs)
}

/// The first place for a key: less than 2^32, to be taken modulo the number of places.
fn place_of(key: u32) -> usize
    ensures { result ≤ 4294967295 }
{
    (u64::from(key).wrapping_mul(SPREAD) >> 32) as u32 as usize
}

/// A place for a key that no other run of the subject has.
fn free_place(runs: &[Run], key: u32, turn: u32) -> Option<usize>
    ensures { IfSome result (λ place. place < length runs.now) }
{
    let count = runs.len();
    if count == 0 {
        return None;
    }
    let first = place_of(key);
    let mut way = 0;
    'ways: while way < WAYS {
        let place = (first + way) % count;
        if runs[place].turn != turn || runs[place].key == key {
            return Some(place);
        }
        way += 1;
    }
    None
}
