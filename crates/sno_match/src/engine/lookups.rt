//! What is looked up of a match.
ghost use Rattle.std.specs.Prelude.{◌≡◌, ◌≤◌, ◌+◌, ◌-◌, ◌*◌, [], length, drop, take};
ghost use Rattle.sno_match.specs.Matching.{told_of, last_pending};

use crate::engine::{Engine, State};
use crate::event::Pending;
use crate::points::Points;
use sno_value::PatId;

impl<P: Points> Engine<P> {
    /// Whether a Value was told and not yet answered.
    pub fn is_waiting(&self) -> bool
        ensures { result ≡ self.now.waits }
    {
        matches!(self.state, State::Waiting)
    }

    /// How many events were told, a last one once.
    pub fn told(&self) -> u64
        ensures value { result ≡ self.now.told }
        ensures few { self.now.told ≤ 2 * self.now.limit + 2 }
    {
        self.told
    }

    /// How many steps were taken. Behind an event it is the event's count.
    pub fn steps(&self) -> u32
        ensures value { result ≡ self.now.steps }
        ensures limit { self.now.steps ≤ self.now.limit }
    {
        self.steps
    }

    /// How many resumption points are held: at most one more than steps were taken.
    pub fn points(&self) -> usize
        ensures value { result ≡ self.now.points }
        ensures bound { self.now.points ≤ self.now.steps + 1 }
    {
        self.points.depth()
    }

    /// How many continuation records the points share: at most two more than twice the steps.
    pub fn records(&self) -> usize
        ensures value { result ≡ self.now.records }
        ensures bound { self.now.records ≤ 2 * self.now.steps + 2 }
    {
        self.points.count_records()
    }

    /// The stack of resumption points, to be looked at: it has as many points and records as `points` and `records`
    /// count.
    pub fn stack(&self) -> &P
        ensures points { length (P.points result.now) ≡ self.now.points }
        ensures records { P.records result.now ≡ self.now.records }
    {
        &self.points
    }

    /// The pending list of the last way that was told, empty before the first.
    pub fn pending(&self) -> &[Pending]
        ensures value { result.now ≡ self.now.way }
        ensures last { self.now.way ≡ last_pending [] (told_of self.now) }
    {
        &self.way
    }

    /// The answers given so far, in order.
    pub fn answers(&self) -> &[Option<PatId>]
        ensures { result.now ≡ self.now.answers }
    {
        &self.answers
    }

    /// The bytes of the subject from `start` to `end`.
    pub fn part(&self, start: usize, end: usize) -> &[u8]
        requires order { start ≤ end }
        requires inside { end ≤ length self.now.subject }
        ensures { result.now ≡ take (end - start) (drop start self.now.subject) }
    {
        &self.subject.as_slice()[start..end]
    }

    /// The bytes of the subject.
    pub fn subject(&self) -> &[u8]
        ensures { result.now ≡ self.now.subject }
    {
        self.subject.as_slice()
    }
}
