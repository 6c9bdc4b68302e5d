//! A match that is asked for one event after another.
ghost use Rattle.std.specs.Prelude.{◌≡◌, ◌<◌, ◌≤◌, ◌+◌, ◌++◌, [], ◌∷◌, false, true, length, IfOk, IfSome, IsOk, OnOk};
ghost use Rattle.std.specs.Prelude.{OnErr};
ghost use Rattle.sno_match.specs.Matching.{SameMatch, IsTold, StaysAt, IsCounted, TellsWays, Begins, begins, told_of};
ghost use Rattle.sno_match.specs.Matching.{in_trace, IsWithin};
ghost use Rattle.sno_match.specs.declared.engine.State.TheVariants.{Going};
ghost use Rattle.sno_match.specs.inner.State.{after};
ghost use Rattle.sno_match.specs.inner.Subject.{searched};
ghost use Rattle.sno_match.specs.inner.Running.{Advances, GoesOn, work};

mod lookups;
mod parts;

use crate::doubt::Doubts;
use crate::event::{Event, Pending};
use crate::goal::{Goal, Top};
use crate::moves::{go_on, make_move, put_answer};
use crate::points::Points;
use crate::snapshot::Snapshot;
use crate::starts::{NO_PATTERN, pass_failing_starts, vain_behind};
use crate::subject::Subject;
use sno_pattern::{Looks, Patterns};
use sno_value::{PatId, Text};
use std::alloc::{AllocError, Global};
use std::marker::Model;

/// How many bytes a subject has at most: a cursor is kept in 32 bits.
const MOST_BYTES: usize = 4_294_967_295;

/// What the next call may be.
#[derive(Clone, Copy, Drop)]
pub(crate) enum State {
    /// `next`.
    Going,
    /// `answer`, to the Value that was told.
    Waiting,
    /// `next`, which tells the last event again.
    Ended(Event),
}

/// A match over any stack of resumption points. It is asked for its events one after another, and does no more of the
/// search than each needs.
#[derive(Drop)]
pub struct Engine<P: Points> {
    points: P,
    lent: Snapshot<Patterns>,
    pattern: PatId,
    subject: Subject,
    /// What was found out of the subject.
    looks: Looks,
    anchored: bool,
    limit: u32,
    /// Where the search under way began.
    start: usize,
    steps: u32,
    told: u64,
    /// The pattern that was seen last to have no match at a first start, or none.
    vain: PatId,
    doubts: Doubts,
    /// The pending list of the last way.
    way: Vec<Pending>,
    answers: Vec<Option<PatId>>,
    state: State,
}

impl<P: Points> Model for Engine<P> {
    ghost use Rattle.std.specs.Prelude.{length, ◌≤◌};
    ghost use Rattle.sno_match.specs.Matching.{Matching};
    ghost use Rattle.sno_match.specs.inner.Running.{IsMatch, seen};
    ghost use Rattle.sno_pattern.specs.Looks.{AreTrue};

    ghost Value = { Matching };

    ghost view = { λ m. seen m.lent.value m.pattern m.subject.bytes m.anchored m.limit m.answers.items m.told m.steps
        m.state m.way.items (P.points m.points) (P.records m.points) };

    ghost invariant = { λ m. IsMatch
        (seen m.lent.value m.pattern m.subject.bytes m.anchored m.limit m.answers.items m.told m.steps m.state
        m.way.items (P.points m.points) (P.records m.points)) m.start (P.points m.points) m.state
        × AreTrue m.lent.value m.subject.bytes m.looks × (length m.subject.bytes ≤ 4294967295) };
}

impl<P: Points> Engine<P> {
    /// A match of a pattern in a subject: from every start in rising order or, where it is anchored, from 0 alone; with
    /// at most `limit` steps. It copies the subject. One of more than 4,294,967,295 bytes is want of memory.
    pub fn new(
        alloc: Global,
        patterns: &Patterns,
        pattern: PatId,
        subject: &[u8],
        anchored: bool,
        limit: u32,
    ) -> Result<Engine<P>, AllocError>
        requires { pattern.0 < length patterns.now }
        ensures begins { IfOk result (λ m. m ≡ begins patterns.now pattern subject.now anchored limit m.records) }
        ensures counts { IfOk result (λ m. IsCounted m) }
    {
        let subject = subject.to_vec(alloc)?;
        let made = Engine::over(alloc, patterns, pattern, subject, anchored, limit)?;
        Ok(made)
    }

    /// A match as `new` gives it, of a subject that is the match's own from then on. It takes no memory for that. A
    /// longer subject than `new` takes is want of memory here too.
    pub fn over(
        alloc: Global,
        patterns: &Patterns,
        pattern: PatId,
        subject: Vec<u8>,
        anchored: bool,
        limit: u32,
    ) -> Result<Engine<P>, AllocError>
        requires { pattern.0 < length patterns.now }
        ensures begins { IfOk result (λ m. m ≡ begins patterns.now pattern subject.items anchored limit m.records) }
        ensures counts { IfOk result (λ m. IsCounted m) }
    {
        if subject.len() > MOST_BYTES {
            return Err(AllocError);
        }
        let mut points = P::empty(alloc);
        points.begin(Goal::Match(pattern), 0)?;
        let looks = Looks::new(alloc);
        Ok(Engine {
            points,
            lent: Snapshot::of(patterns),
            pattern,
            subject: Subject::of(subject),
            looks,
            anchored,
            limit,
            start: 0,
            steps: 0,
            told: 0,
            vain: NO_PATTERN,
            doubts: Doubts::none(),
            way: Vec::new(alloc),
            answers: Vec::new(alloc),
            state: State::Going,
        })
    }

    /// Begins a match as `new` does, with the lists of the one before: they keep their room, and of what they held
    /// nothing is left. Where memory is refused the match before goes on, and a longer subject than `new` takes is want
    /// of memory.
    pub fn begin_again(
        &mut self,
        patterns: &Patterns,
        pattern: PatId,
        subject: &[u8],
        anchored: bool,
        limit: u32,
    ) -> Result<(), AllocError>
        requires { pattern.0 < length patterns.now }
        ensures begins { OnOk result
            (self.new ≡ begins patterns.now pattern subject.now anchored limit self.new.records) }
        ensures err { OnErr result (self.new ≡ self.old) }
        ensures counts { IsCounted self.new }
    {
        // what is kept of the match before is in order
        let _ = &self.points;
        if subject.len() > MOST_BYTES {
            return Err(AllocError);
        }
        self.begin_in(patterns, pattern, None, subject, anchored, limit)?;
        Ok(())
    }

    /// Begins a match as `begin_again` does, of a subject that is lent: it shares the block of a long string, so that no
    /// byte is copied, until the match begins again.
    #[inline(always)]
    pub fn begin_on(
        &mut self,
        patterns: &Patterns,
        pattern: PatId,
        subject: &Text,
        anchored: bool,
        limit: u32,
    ) -> Result<(), AllocError>
        requires { pattern.0 < length patterns.now }
        ensures begins { OnOk result
            (self.new ≡ begins patterns.now pattern subject.now anchored limit self.new.records) }
        ensures err { OnErr result (self.new ≡ self.old) }
        ensures counts { IsCounted self.new }
    {
        let _ = &self.points;
        if subject.as_slice().len() > MOST_BYTES {
            return Err(AllocError);
        }
        let lent = subject.copy()?;
        self.begin_in(patterns, pattern, Some(lent), &[], anchored, limit)?;
        Ok(())
    }

    /// The same, of the string that is lent, or else of these bytes, which are copied.
    #[inline(always)]
    fn begin_in(
        &mut self,
        patterns: &Patterns,
        pattern: PatId,
        lent: Option<Text>,
        copied: &[u8],
        anchored: bool,
        limit: u32,
    ) -> Result<(), AllocError>
        requires known { pattern.0 < length patterns.now }
        requires short { length (searched lent copied.now) ≤ 4294967295 }
        ensures begins { OnOk result
            (self.new ≡ begins patterns.now pattern (searched lent copied.now) anchored limit self.new.records) }
        ensures err { OnErr result (self.new ≡ self.old) }
        ensures counts { IsCounted self.new }
    {
        self.subject.make_room(copied.len())?;
        self.points.begin(Goal::Match(pattern), 0)?;
        self.lent = Snapshot::of(patterns);
        self.pattern = pattern;
        self.subject.put(lent, copied);
        self.looks.clear();
        self.anchored = anchored;
        self.limit = limit;
        self.start = 0;
        self.steps = 0;
        self.told = 0;
        self.way.clear();
        self.answers.clear();
        self.state = State::Going;
        Ok(())
    }

    /// The next event. Behind one of the last three it is that event again, and no memory is taken. Where memory is
    /// refused no event was told, and the call may be made again. What an event tells lies within the subject.
    ///
    /// The table is that of the call before, at first that of `new`; builders may have made it longer.
    pub fn next(&mut self, patterns: &Patterns) -> Result<Event, AllocError>
        requires table { Begins self.old.nodes patterns.now }
        requires asked { self.old.waits ≡ false }
        ensures table { self.new.nodes ≡ patterns.now }
        ensures same { SameMatch self.old self.new }
        ensures ok { IfOk result (λ event. IsTold self.old self.new event) }
        ensures err { OnErr result (StaysAt self.old self.new) }
        ensures again { self.old.ended ≡ true → IsOk result × (self.new ≡ record self.old { nodes = patterns.now }) }
        ensures counts { IsCounted self.new }
        ensures ways { TellsWays self.new result }
        ensures within { IfOk result (λ event. IsWithin (length self.new.subject) (in_trace event self.new.way)) }
    {
        self.lent = Snapshot::of(patterns);
        if let State::Ended(event) = self.state {
            return Ok(event);
        }
        loop {
            self.go_silently(patterns);
            if let Some(event) = self.advance(patterns)? {
                return Ok(event);
            }
        }
    }

    /// Steps that tell nothing, as many as the stack takes by itself.
    fn go_silently(&mut self, patterns: &Patterns)
        requires table { self.old.nodes ≡ patterns.now }
        requires going { self.old.waits ≡ false }
        requires on { self.old.ended ≡ false }
        ensures goes { GoesOn self.old self.new }
        ensures work { work self.new ≤ work self.old }
    {
        go_on(
            &mut self.points,
            &mut self.steps,
            &mut self.looks,
            patterns,
            self.subject.as_slice(),
            &mut self.vain,
            self.pattern,
            self.limit,
        );
    }

    /// One move or, where no point is left, the next start: the event that is told, if there is one. Where memory is
    /// refused the match goes on from where it is.
    fn advance(&mut self, patterns: &Patterns) -> Result<Option<Event>, AllocError>
        requires table { self.old.nodes ≡ patterns.now }
        requires going { self.old.waits ≡ false }
        requires on { self.old.ended ≡ false }
        ensures ok { IfOk result (λ told. Advances self.old told self.new) }
        ensures err { OnErr result (GoesOn self.old self.new) }
        ensures counts { IsCounted self.new }
    {
        if let Top::Empty = self.points.top() {
            let told = self.take_start(patterns)?;
            return Ok(told);
        }
        let told = make_move(
            &mut self.points,
            &mut self.steps,
            &mut self.way,
            &mut self.looks,
            patterns,
            self.subject.as_slice(),
            self.start,
            self.limit,
        )?;
        if let Some(event) = told {
            self.told += 1;
            go_behind(&mut self.state, event);
        }
        Ok(told)
    }

    /// The search from a start is exhausted: the next start is taken up, which is a step, if there is one. Those that
    /// fail at once are passed without a point.
    fn take_start(&mut self, patterns: &Patterns) -> Result<Option<Event>, AllocError>
        requires table { self.old.nodes ≡ patterns.now }
        requires going { self.old.waits ≡ false }
        requires on { self.old.ended ≡ false }
        requires none { self.old.points ≡ 0 }
        ensures ok { IfOk result (λ told. Advances self.old told self.new) }
        ensures err { OnErr result (self.new ≡ self.old) }
        ensures counts { IsCounted self.new }
    {
        let subject = self.subject.as_slice();
        let passed = pass_failing_starts(
            patterns,
            &mut self.looks,
            &mut self.doubts,
            self.pattern,
            subject,
            self.anchored,
            self.start,
            self.limit - self.steps,
        );
        let end = subject.len();
        self.vain = vain_behind(self.vain, self.pattern, self.start, self.steps, passed);
        let steps = self.steps + passed.steps;
        if self.anchored || passed.start == end {
            self.start = passed.start;
            self.steps = steps;
            self.told += 1;
            self.state = State::Ended(Event::Exhausted);
            return Ok(Some(Event::Exhausted));
        }
        if steps == self.limit {
            self.start = passed.start;
            self.steps = steps;
            self.told += 1;
            self.state = State::Ended(Event::Limit);
            return Ok(Some(Event::Limit));
        }
        self.points
            .begin(Goal::Match(self.pattern), passed.start + 1)?;
        self.start = passed.start + 1;
        self.steps = steps + 1;
        Ok(None)
    }

    /// The answer to the Value that was told last: None lets the deferred part fail, and a number puts its tree in the
    /// part's place. Where memory is refused nothing was answered, and the call may be made again.
    ///
    /// The table is that of the call before; builders may have made it longer.
    pub fn answer(&mut self, patterns: &Patterns, given: Option<PatId>) -> Result<(), AllocError>
        requires table { Begins self.old.nodes patterns.now }
        requires waiting { self.old.waits ≡ true }
        requires known { IfSome given (λ id. id.0 < length patterns.now) }
        ensures ok { OnOk result
            (self.new ≡ record self.old {
              nodes = patterns.now;
              answers = self.old.answers ++ given ∷ [];
              waits = false;
              points = self.new.points;
              records = self.new.records;
            }) }
        ensures err { OnErr result (self.new ≡ record self.old { nodes = patterns.now }) }
        ensures told { told_of self.new ≡ told_of self.old }
        ensures counts { IsCounted self.new }
    {
        self.lent = Snapshot::of(patterns);
        self.answers.push(given)?;
        if let Err(refused) = put_answer(&mut self.points, given) {
            let _taken_back = self.answers.pop();
            return Err(refused);
        }
        self.state = State::Going;
        Ok(())
    }
}

/// The state of a match that was going is that behind an event.
#[inline(always)]
fn go_behind(state: &mut State, event: Event)
    requires going { state.old ≡ Going }
    ensures behind { state.new ≡ after event }
{
    match event {
        Event::Value { .. } => *state = State::Waiting,
        Event::Exhausted | Event::Aborted | Event::Limit => *state = State::Ended(event),
        _ => {}
    }
}
