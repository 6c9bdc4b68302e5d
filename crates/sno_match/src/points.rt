//! The stack of resumption points.
ghost use Rattle.std.specs.Prelude.{◌≡◌, ◌≤◌, ◌+◌, ◌*◌, List, ℕ, [], ◌∷◌, length, OnOk, OnErr};
ghost use Rattle.sno_match.specs.Point.{Point, HasFirst, replaced, branched, closed, cut_back, below};
ghost use Rattle.sno_pattern.specs.Looks.{AreTrue};
ghost use Rattle.sno_match.specs.Silent.{Stands, LeadsOn};
ghost use Rattle.sno_match.specs.Top.{IsTop, Finishes, first_point};

use crate::event::Pending;
use crate::goal::{Goal, Top};
use sno_pattern::{Looks, Patterns};
use std::alloc::{AllocError, Global};

/// A stack of resumption points, seen as a list of (goals, cursor, pending list, mark), the newest first. A call that
/// is refused memory changes nothing.
///
/// A move of the search is one call, so that a refusal never tears it. `replace` splits a point into its first goal and
/// the rest, and puts goals in front of the rest; `branch` does so in a new point above, under which the old one waits.
pub trait Points: Drop + Sized {
    ghost points: { Self → List Point };

    /// How many continuation records the points share, where they share any.
    ghost records: { Self → ℕ };

    /// A stack without points. It takes no memory.
    fn empty(alloc: Global) -> Self
        ensures points { points result ≡ [] }
        ensures records { records result ≡ 0 };

    /// How many points there are.
    fn depth(&self) -> usize
        ensures { result ≡ length (points self.now) };

    /// How many continuation records there are.
    fn count_records(&self) -> usize
        ensures { result ≡ records self.now };

    /// The newest point's first goal, cursor and mark.
    fn top(&self) -> Top
        ensures { IsTop (points self.now) result };

    /// These goals take the place of the newest point's first goal, to be entered from this cursor.
    fn replace(&mut self, front: &[Goal], cursor: usize) -> Result<(), AllocError>
        requires { HasFirst (points self.old) }
        ensures ok { OnOk result (points self.new ≡ replaced front.now cursor (points self.old)) }
        ensures records { records self.new ≤ records self.old + length front.now }
        ensures err { OnErr result ((points self.new ≡ points self.old) × (records self.new ≡ records self.old)) };

    /// The newest point stays, with the cursor from which its next alternative goes on, and above it these goals take
    /// the place of its first.
    fn branch(&mut self, front: &[Goal], cursor: usize, next: usize) -> Result<(), AllocError>
        requires { HasFirst (points self.old) }
        ensures ok { OnOk result (points self.new ≡ branched front.now cursor next (points self.old)) }
        ensures records { records self.new ≤ records self.old + length front.now }
        ensures err { OnErr result ((points self.new ≡ points self.old) × (records self.new ≡ records self.old)) };

    /// The assignment joins the newest point's pending list, and its first goal is dropped.
    fn close(&mut self, assignment: Pending) -> Result<(), AllocError>
        requires { HasFirst (points self.old) }
        ensures ok { OnOk result (points self.new ≡ closed assignment (points self.old)) }
        ensures records { records self.new ≤ records self.old }
        ensures err { OnErr result ((points self.new ≡ points self.old) × (records self.new ≡ records self.old)) };

    /// The newest point's first goal is dropped, and of the points below it only the oldest `depth` stay.
    fn cut(&mut self, depth: usize)
        ensures points { points self.new ≡ cut_back depth (points self.old) }
        ensures records { records self.new ≤ records self.old };

    /// Takes steps that are due and tell nothing, as many as it likes. It takes no memory.
    fn take_silent_steps(
        &mut self,
        steps: &mut u32,
        looks: &mut Looks,
        patterns: &Patterns,
        subject: &[u8],
        limit: u32,
    )
        requires stands { Stands patterns.now subject.now looks.old limit steps.old (points self.old) }
        ensures looks { AreTrue patterns.now subject.now looks.new }
        ensures leads { LeadsOn patterns.now subject.now limit (points self.old) steps.old (points self.new) steps.new }
        ensures records { records self.new + 2 * steps.old ≤ records self.old + 2 * steps.new };

    /// The newest point is dropped.
    fn pop(&mut self)
        ensures points { points self.new ≡ below (points self.old) }
        ensures records { records self.new ≤ records self.old };

    /// The newest point is dropped, and its pending list is handed over.
    fn finish(&mut self, way: &mut Vec<Pending>) -> Result<(), AllocError>
        ensures ok { OnOk result (Finishes (points self.old) (points self.new) way.new.items) }
        ensures records { records self.new ≤ records self.old }
        ensures err { OnErr result ((points self.new ≡ points self.old) × (records self.new ≡ records self.old)
            × (way.new.items ≡ way.old.items)) };

    /// The first point of a search from a start takes the place of all points.
    fn begin(&mut self, goal: Goal, cursor: usize) -> Result<(), AllocError>
        ensures ok { OnOk result (points self.new ≡ first_point goal cursor ∷ []) }
        ensures records { OnOk result (records self.new ≤ 1) }
        ensures err { OnErr result ((points self.new ≡ points self.old) × (records self.new ≡ records self.old)) };
}
