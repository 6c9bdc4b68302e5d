//! The first way of a match that is found directly: from a start along the first alternative of each goal, or along a
//! later one where those before it were searched in vain. No point is kept on the way, so it needs no engine; where it
//! can't be found so, that is asked.
ghost use Rattle.std.specs.Prelude.{◌≡◌, ◌<◌, ◌≤◌, ◌∷◌, ◌++◌, [], ℕ, List, false, suc, length, IfSome};
ghost use Rattle.sno_pattern.specs.Pattern.{Arb, Leaf, Pattern};
ghost use Rattle.sno_pattern.specs.Shape.{end_of, IsPrimitive};
ghost use Rattle.sno_pattern.specs.Table.{tree};
ghost use Rattle.sno_match.specs.Direct.{IsFirst, IsInVain, pending_of};
ghost use Rattle.sno_match.specs.Matching.{IsWithin};
ghost use Rattle.sno_match.specs.Search.{CloseCond, Goal, Match, Way, assigns};
ghost use Rattle.sno_match.specs.inner.Direct.{Comes, FailsBehind, Follows, IsBehind, IsNumber, Keeps, opened, PassesEnds};
ghost use Rattle.sno_match.specs.inner.Starts.{GoalsFail};

use crate::event::Pending;
use crate::heads::head_of;
use crate::starts::{NO_PATTERN, Passed, pass_near, passed_before, room_for};
use sno_pattern::{Head, Patterns, Shape};
use sno_value::{Name, PatId, SymId};

/// How deep parts are followed in one another.
const MOST_DEPTH: u32 = 16;

/// The most assignments that wait.
const MOST_PENDING: usize = 8;

/// The most starts behind the first that are followed.
const MOST_STARTS: u32 = 4;

/// What is found of a match directly.
#[derive(Clone, Copy, Debug, Drop, PartialEq, Eq)]
pub enum Direct {
    /// Its first way.
    Way,
    /// That it has none.
    Vain,
    /// Nothing, which only the search tells.
    Unknown,
}

/// A way, or how far one has come.
#[derive(Clone, Copy, Drop)]
pub struct DirectWay {
    /// Where it begins.
    pub start: usize,
    /// Where it ends.
    pub end: usize,
    /// The assignments that wait for its end, in their order, as many as are counted.
    pub pending: [Pending; MOST_PENDING],
    pub count: u32,
    /// The pattern that stands behind the one that is followed, where that is known.
    pub(crate) behind: PatId,
}

/// What is found out of a pattern's search where it is followed, and how many steps are left behind that.
#[derive(Clone, Copy, Drop)]
pub(crate) enum Followed {
    /// The search goes on behind the pattern, one way alone.
    Alone(u32),
    /// It goes on there first, and has other ways.
    First(u32),
    /// It is in vain.
    Vain(u32),
    /// Nothing.
    Open,
}

impl DirectWay {
    /// A way that begins at 0.
    #[inline(always)]
    pub fn new() -> DirectWay
        ensures start { result.start ≡ 0 }
        ensures end { result.end ≡ 0 }
        ensures pending { pending_of result ≡ [] }
    {
        let none = Pending {
            target: Name::Var(SymId(0)),
            start: 0,
            end: 0,
        };
        DirectWay {
            start: 0,
            end: 0,
            pending: [none; MOST_PENDING],
            count: 0,
            behind: NO_PATTERN,
        }
    }

    /// The assignments that wait, in their order.
    #[inline(always)]
    pub fn pending(&self) -> &[Pending]
        ensures { result.now ≡ pending_of self.now }
    {
        match self.pending.get(..self.count as usize) {
            Some(pending) => pending,
            None => &self.pending,
        }
    }

    /// The way begins at this start.
    #[inline(always)]
    fn begin(&mut self, start: usize)
        ensures start { self.new.start ≡ start }
        ensures end { self.new.end ≡ start }
        ensures pending { pending_of self.new ≡ [] }
        ensures behind { self.new.behind.0 ≡ 4294967295 }
    {
        self.start = start;
        self.end = start;
        self.count = 0;
        self.behind = NO_PATTERN;
    }

    /// The way goes back to where it ended with so many assignments, before this pattern.
    #[inline(always)]
    fn go_back(&mut self, end: usize, count: u32, behind: PatId)
        ensures { self.new ≡ record self.old { end = end; count = count; behind = behind } }
    {
        self.end = end;
        self.count = count;
        self.behind = behind;
    }

    /// A primitive's step, by its first end and the one behind that, behind which so many are left.
    #[inline(always)]
    fn take_end(&mut self, first: Option<usize>, next: Option<usize>, left: u32) -> Followed
        ensures comes { (p : Pattern) (s : List ℕ) (rest : List Goal) → IsPrimitive p → self.old.end ≤ length s
            → end_of p s self.old.end 0 ≡ first → end_of p s self.old.end 1 ≡ next
            → Comes s (Match p ∷ rest) (suc left) self.old result rest self.new }
        ensures rest { self.new ≡ record self.old { end = self.new.end } }
    {
        let Some(end) = first else {
            return Followed::Vain(left);
        };
        self.end = end;
        match next {
            Some(_next) => Followed::First(left),
            None => Followed::Alone(left),
        }
    }

    /// The end of a part that is assigned, which was followed from `start` on: a step, behind which the assignment waits,
    /// if there is room for it.
    #[inline(always)]
    fn close(&mut self, followed: Followed, target: Name, start: usize) -> Followed
        ensures comes { (s : List ℕ) (from rest : List Goal) (due : ℕ) (before : DirectWay)
            → Comes s from due before followed (CloseCond target start ∷ rest) self.old
            → Comes s from due before result rest self.new }
        ensures start { self.new.start ≡ self.old.start }
        ensures keeps { Keeps self.old self.new }
    {
        match followed {
            Followed::Alone(left) => match self.wait(target, start, left) {
                Some(rest) => Followed::Alone(rest),
                None => Followed::Open,
            },
            Followed::First(left) => match self.wait(target, start, left) {
                Some(rest) => Followed::First(rest),
                None => Followed::Open,
            },
            Followed::Vain(left) => Followed::Vain(left),
            Followed::Open => Followed::Open,
        }
    }

    /// An assignment of the part from `start` on waits, if there is a step and room for it: how many steps are left.
    #[inline(always)]
    fn wait(&mut self, target: Name, start: usize, left: u32) -> Option<u32>
        ensures steps { IfSome result (λ rest. left ≡ suc rest) }
        ensures pending { IfSome result (λ rest. pending_of self.new
            ≡ pending_of self.old ++ assigns target start self.old.end ∷ []) }
        ensures end { self.new.end ≡ self.old.end }
        ensures start { self.new.start ≡ self.old.start }
        ensures keeps { Keeps self.old self.new }
    {
        if self.count as usize >= MOST_PENDING || left == 0 {
            return None;
        }
        let end = self.end;
        self.pending[self.count as usize] = Pending { target, start, end };
        self.count += 1;
        Some(left - 1)
    }
}

/// Finds the first way of a match with at most `limit` steps, or that it has none, where no event is told before, and from
/// each start one way alone is in vain before that. It takes no memory.
#[inline(always)]
pub fn direct_way(
    patterns: &Patterns,
    pattern: PatId,
    subject: &[u8],
    anchored: bool,
    limit: u32,
    way: &mut DirectWay,
) -> Direct
    requires pattern { pattern.0 < length patterns.now }
    ensures first { result ≡ Direct.Way → IsFirst (tree patterns.now pattern.0) subject.now anchored limit
        way.new.start way.new.end (pending_of way.new) }
    ensures within { result ≡ Direct.Way
        → IsWithin (length subject.now) (Way way.new.start way.new.end (pending_of way.new)) }
    ensures vain { result ≡ Direct.Vain → IsInVain (tree patterns.now pattern.0) subject.now anchored limit }
{
    way.begin(0);
    match follow(patterns, pattern, subject, limit, MOST_DEPTH, way) {
        Followed::Alone(_left) => Direct::Way,
        Followed::First(_left) => Direct::Way,
        Followed::Vain(left) => {
            if anchored {
                return Direct::Vain;
            }
            later_way(patterns, pattern, subject, limit, left, way)
        }
        Followed::Open => Direct::Unknown,
    }
}

/// The same where the search from the first start was in vain, and so many steps are left.
#[inline(never)]
fn later_way(
    patterns: &Patterns,
    pattern: PatId,
    subject: &[u8],
    limit: u32,
    left: u32,
    way: &mut DirectWay,
) -> Direct
    requires pattern { pattern.0 < length patterns.now }
    requires vain { IsBehind (tree patterns.now pattern.0) subject.now limit 0 left }
    ensures first { result ≡ Direct.Way → IsFirst (tree patterns.now pattern.0) subject.now false limit
        way.new.start way.new.end (pending_of way.new) }
    ensures within { result ≡ Direct.Way
        → IsWithin (length subject.now) (Way way.new.start way.new.end (pending_of way.new)) }
    ensures vain { result ≡ Direct.Vain → IsInVain (tree patterns.now pattern.0) subject.now false limit }
{
    let mut start = 0;
    let mut left = left;
    'starts: for _start in 0..MOST_STARTS {
        let Some(passed) = pass_near(patterns, pattern, subject, start, left) else {
            return Direct::Unknown;
        };
        if passed.start >= subject.len() {
            return Direct::Vain;
        }
        if left == passed.steps {
            return Direct::Unknown;
        }
        start = passed.start + 1;
        left = left - passed.steps - 1;
        way.begin(start);
        match follow(patterns, pattern, subject, left, MOST_DEPTH, way) {
            Followed::Alone(_left) => return Direct::Way,
            Followed::First(_left) => return Direct::Way,
            Followed::Vain(rest) => left = rest,
            Followed::Open => return Direct::Unknown,
        }
    }
    Direct::Unknown
}

/// Follows the search for a pattern, as long as there are so many steps.
fn follow(
    patterns: &Patterns,
    id: PatId,
    subject: &[u8],
    left: u32,
    depth: u32,
    way: &mut DirectWay,
) -> Followed
    requires known { id.0 < length patterns.now }
    requires inside { way.old.end ≤ length subject.now }
    requires behind { IsNumber patterns.now way.old.behind }
    ensures follows { Follows patterns.now subject.now (tree patterns.now id.0) left way.old result way.new }
    ensures start { way.new.start ≡ way.old.start }
    ensures keeps { Keeps way.old way.new }
{
    if left == 0 || depth == 0 {
        return Followed::Open;
    }
    let left = left - 1;
    match patterns.head(id, subject, way.end) {
        Head::Ends { first, next } => {
            if next.is_some() && patterns.is_arb(id) {
                return pass_arb(patterns, way.behind, 0, subject, left, way);
            }
            way.take_end(first, next, left)
        }
        Head::Other(shape) => match shape {
            Shape::Primitive => far_end(patterns, id, subject, left, way),
            Shape::Cat(first, second) => {
                let behind = way.behind;
                way.behind = second;
                match follow(patterns, first, subject, left, depth - 1, way) {
                    Followed::Alone(left) => {
                        way.behind = behind;
                        follow(patterns, second, subject, left, depth - 1, way)
                    }
                    Followed::First(left) => {
                        way.behind = behind;
                        opened(follow(patterns, second, subject, left, depth - 1, way))
                    }
                    Followed::Vain(left) => Followed::Vain(left),
                    Followed::Open => Followed::Open,
                }
            }
            Shape::Cond(body, target) => {
                let start = way.end;
                if patterns.is_arb(body) && left > 0 {
                    let passed = pass_arb(patterns, way.behind, 1, subject, left - 1, way);
                    return way.close(passed, target, start);
                }
                way.behind = NO_PATTERN;
                let followed = follow(patterns, body, subject, left, depth - 1, way);
                way.close(followed, target, start)
            }
            Shape::Alt(first, second) => {
                let (end, count, behind) = (way.end, way.count, way.behind);
                match follow(patterns, first, subject, left, depth - 1, way) {
                    Followed::Vain(left) => {
                        if left == 0 {
                            return Followed::Open;
                        }
                        way.go_back(end, count, behind);
                        follow(patterns, second, subject, left - 1, depth - 1, way)
                    }
                    tried => opened(tried),
                }
            }
            Shape::Arbno(_body) => Followed::First(left),
            Shape::Fence => Followed::First(left),
            _ => Followed::Open,
        },
    }
}

/// The step of a primitive whose ends may be far, behind which so many are left.
#[inline(always)]
fn far_end(
    patterns: &Patterns,
    id: PatId,
    subject: &[u8],
    left: u32,
    way: &mut DirectWay,
) -> Followed
    requires known { id.0 < length patterns.now }
    requires primitive { IsPrimitive (tree patterns.now id.0) }
    requires inside { way.old.end ≤ length subject.now }
    ensures comes { (rest : List Goal)
        → Comes subject.now (Match (tree patterns.now id.0) ∷ rest) (suc left) way.old result rest way.new }
    ensures rest { way.new ≡ record way.old { end = way.new.end } }
{
    let Some(end) = patterns.end_at(id, subject, way.end, 0) else {
        return Followed::Vain(left);
    };
    way.end = end;
    if patterns.has_one_end(id) {
        Followed::Alone(left)
    } else {
        Followed::First(left)
    }
}

/// The step of ARB, behind which so many are left: its ends are passed from which the pattern behind it, and behind so many
/// ends of parts, is in vain at once.
#[inline(never)]
fn pass_arb(
    patterns: &Patterns,
    behind: PatId,
    closes: u32,
    subject: &[u8],
    left: u32,
    way: &mut DirectWay,
) -> Followed
    requires behind { IsNumber patterns.now behind }
    requires closes { closes ≤ 1 }
    requires inside { way.old.end ≤ length subject.now }
    ensures comes { (goals : List Goal) → FailsBehind patterns.now subject.now behind closes goals
        → Comes subject.now (Match (Leaf Arb) ∷ goals) (suc left) way.old result goals way.new }
    ensures rest { way.new ≡ record way.old { end = way.new.end } }
{
    let Some(passed) = ends_in_vain(patterns, behind, closes, subject, way.end, left) else {
        return Followed::First(left);
    };
    way.end = passed.start;
    if passed.start == subject.len() {
        Followed::Alone(left - passed.steps)
    } else {
        Followed::First(left - passed.steps)
    }
}

/// The ends of ARB from one on that are passed so, up to the one that may not be, or the last.
#[inline(always)]
fn ends_in_vain(
    patterns: &Patterns,
    behind: PatId,
    closes: u32,
    subject: &[u8],
    at: usize,
    left: u32,
) -> Option<Passed>
    requires behind { IsNumber patterns.now behind }
    requires closes { closes ≤ 1 }
    requires inside { at ≤ length subject.now }
    ensures inside { IfSome result (λ passed. passed.start ≤ length subject.now) }
    ensures enough { IfSome result (λ passed. passed.steps ≤ left) }
    ensures vain { IfSome result (λ passed. (goals : List Goal) → FailsBehind patterns.now subject.now behind closes goals
        → PassesEnds subject.now goals at passed.start passed.steps) }
{
    if behind.0 >= NO_PATTERN.0 {
        return None;
    }
    let head = head_of(patterns, behind, left.saturating_sub(closes))?;
    let Shape::Primitive = patterns.shape(head.id) else {
        return None;
    };
    let price = head.above + 2 + closes;
    let until = at + room_for(subject, at, price, left);
    let place = patterns.near_place(head.id, subject, at, until)?;
    Some(passed_before(at, place + 1, price, left))
}

/// What is found out behind a pattern that has other ways: where that is in vain, these are open.
#[inline(always)]
fn opened(followed: Followed) -> Followed
    ensures { result ≡ opened followed }
{
    match followed {
        Followed::Alone(left) => Followed::First(left),
        Followed::First(left) => Followed::First(left),
        _ => Followed::Open,
    }
}
