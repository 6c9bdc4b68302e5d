//! What is looked up of a pattern in the table.
ghost use Rattle.std.specs.Prelude.{◌≡◌, ℕ, ◌+◌, ◌<◌, ◌≤◌, ◌↔◌, length, List, Some, None, IfSome, IsTrue, Contains};
ghost use Rattle.std.specs.Prelude.{false};
ghost use Rattle.sno_pattern.specs.Pattern.{IsQuiet, Leaf, Arb};
ghost use Rattle.sno_pattern.specs.Shape.{HasShape, HasHead, GoesOnAs, IsPrimitive, end_of};
ghost use Rattle.sno_pattern.specs.Table.{tree};
ghost use Rattle.sno_pattern.specs.NextEnd.{ends_of, next_end};
ghost use Rattle.sno_pattern.specs.Places.{IsFirstPlace, has_end, IsAmong, BeginsAmong, BeginsWith, BeginsWithByte};
ghost use Rattle.sno_pattern.specs.Looks.{AreTrue};
ghost use Rattle.sno_pattern.specs.inner.Looks.{IsBal, StopsOften};

use crate::byte_set::ByteSet;
use crate::ends::{end_behind_of_kind, end_of_kind, has_one_end};
use crate::first_bytes::{
    Beginning, add_first_bytes_of_kind, first_byte_of_kind, kind_fails_at, kind_misses,
};
use crate::head::{Head, behind_in_arb, head_of_kind};
use crate::kind::{Kind, is_same_search, shape_of_kind};
use crate::looks::{Looks, Run, is_far, is_near, key_behind, last_with_end};
use crate::places::first_place_of_kind;
use crate::shape::Shape;
use crate::table::Patterns;
use sno_value::{PatId, Prim};

/// From how many bytes on a run is remembered: a shorter one is looked through again sooner than it is written down.
const WORTH_KEEPING: usize = 8;

impl Patterns {
    /// The head of a number's tree.
    #[tactic(auto, using(crate::proofs::ShapeLaws::has_shape))]
    pub fn shape(&self, id: PatId) -> Shape
        requires { id.0 < length self.now }
        ensures { HasShape self.now id.0 result }
    {
        shape_of_kind(&self.entries[id.0 as usize].kind)
    }

    /// What a number's tree comes to at a cursor.
    #[inline(always)]
    pub fn head(&self, id: PatId, subject: &[u8], at: usize) -> Head
        requires id { id.0 < length self.now }
        requires at { at ≤ length subject.now }
        ensures { HasHead self.now id.0 subject.now at result }
    {
        head_of_kind(&self.entries[id.0 as usize].kind, subject, at)
    }

    /// The head of a number's tree; for ARB its end behind `last`.
    #[inline(always)]
    pub fn head_behind(&self, id: PatId, subject: &[u8], last: usize) -> Head
        requires { id.0 < length self.now }
        ensures { GoesOnAs self.now id.0 subject.now last result }
    {
        let kind = &self.entries[id.0 as usize].kind;
        match kind {
            Kind::Arb => {
                let first = Some(last);
                let next = behind_in_arb(subject, last);
                Head::Ends { first, next }
            }
            _ => Head::Other(shape_of_kind(kind)),
        }
    }

    /// Whether a number's tree has no deferred part, bare FENCE, ABORT or SUCCEED. A FENCE(P) is as quiet as its P.
    pub fn is_quiet(&self, id: PatId) -> bool
        requires { id.0 < length self.now }
        ensures { IsTrue result ↔ IsQuiet (tree self.now id.0) }
    {
        self.entries[id.0 as usize].quiet
    }

    /// The end of a primitive with the number `i`, counted from 0 in order of trial, if it has that many.
    pub fn end_at(&self, id: PatId, subject: &[u8], at: usize, i: usize) -> Option<usize>
        requires id { id.0 < length self.now }
        requires primitive { IsPrimitive (tree self.now id.0) }
        requires at { at ≤ length subject.now }
        ensures value { result ≡ end_of (tree self.now id.0) subject.now at i }
        ensures ahead { IfSome result (λ e. at ≤ e) }
        ensures inside { IfSome result (λ e. e ≤ length subject.now) }
        ensures few { IfSome result (λ _. i ≤ length subject.now) }
    {
        end_of_kind(&self.entries[id.0 as usize].kind, subject, at, i)
    }

    /// The end of a primitive from the cursor `at` that is tried after its end `last`, if there is one. It is the least
    /// that is greater. For ARB that takes constant time, for BAL and BREAKX a look at the bytes from `last` on.
    pub fn end_behind(&self, id: PatId, subject: &[u8], at: usize, last: usize) -> Option<usize>
        requires id { id.0 < length self.now }
        requires at { at ≤ length subject.now }
        requires last { Contains (ends_of (tree self.now id.0) subject.now at) last }
        ensures value { result ≡ next_end (tree self.now id.0) subject.now at last }
        ensures by_number { (i : ℕ) → end_of (tree self.now id.0) subject.now at i ≡ Some last
            → result ≡ end_of (tree self.now id.0) subject.now at (i + 1) }
        ensures inside { IfSome result (λ e. e ≤ length subject.now) }
    {
        end_behind_of_kind(&self.entries[id.0 as usize].kind, subject, last)
    }

    /// Whether a primitive has no end behind its first, from no cursor of no subject.
    pub fn has_one_end(&self, id: PatId) -> bool
        requires id { id.0 < length self.now }
        requires primitive { IsPrimitive (tree self.now id.0) }
        ensures { IsTrue result → (s : List ℕ) (c : ℕ) → end_of (tree self.now id.0) s c 1 ≡ None }
    {
        has_one_end(&self.entries[id.0 as usize].kind)
    }

    /// The first place, from `from` up to `until`, at which a
    /// primitive has an end; `until` where it has none before that.
    #[inline(always)]
    pub fn first_place(&self, id: PatId, subject: &[u8], from: usize, until: usize) -> usize
        requires id { id.0 < length self.now }
        requires primitive { IsPrimitive (tree self.now id.0) }
        requires start { from ≤ length subject.now }
        requires range { from ≤ until }
        requires inside { until ≤ length subject.now + 1 }
        ensures { IsFirstPlace (has_end (tree self.now id.0) subject.now) from until result }
    {
        first_place_of_kind(&self.entries[id.0 as usize].kind, subject, from, until)
    }

    /// The same, where it takes no longer than a look at the bytes up to there: None for BAL, ARB and a long text.
    #[inline(always)]
    pub fn near_place(&self, id: PatId, subject: &[u8], from: usize, until: usize) -> Option<usize>
        requires id { id.0 < length self.now }
        requires primitive { IsPrimitive (tree self.now id.0) }
        requires start { from ≤ length subject.now }
        requires range { from ≤ until }
        requires inside { until ≤ length subject.now + 1 }
        ensures { IfSome result (IsFirstPlace (has_end (tree self.now id.0) subject.now) from until) }
    {
        if self.is_bal(id) || self.is_arb(id) || self.is_long_text(id) {
            return None;
        }
        let near = self.first_place(id, subject, from, until);
        Some(near)
    }

    /// Adds the bytes with which a primitive begins to a set: the first one of a text, and those of ANY and SPAN. It is
    /// false for any other pattern, and for the null text.
    pub fn add_first_bytes(&self, id: PatId, set: &mut ByteSet) -> bool
        requires { id.0 < length self.now }
        ensures grows { IsAmong set.old set.new }
        ensures known { IsTrue result → BeginsAmong (tree self.now id.0) set.new }
    {
        add_first_bytes_of_kind(&self.entries[id.0 as usize].kind, set)
    }

    /// The bytes with which a choice begins, where each of its sides begins with a literal, ANY or SPAN, behind further
    /// choices, and concatenations or assignments of a part, that are not too deep in one another. It is None for any
    /// other pattern. The node keeps them, so that they are not put together anew.
    pub fn choice_begins(&self, id: PatId) -> Option<Beginning>
        requires { id.0 < length self.now }
        ensures { IfSome result (λ begins. BeginsWith begins.set begins.steps (tree self.now id.0)) }
    {
        let Kind::Alt(_first, _second, begins) = &self.entries[id.0 as usize].kind else {
            return None;
        };
        let steps = begins.steps?;
        let set = ByteSet::with_words(begins.words);
        Some(Beginning { set, steps })
    }

    /// The byte with which a text begins: it has an end nowhere else. None for any other pattern, and for the null text.
    #[inline(always)]
    pub fn first_byte(&self, id: PatId) -> Option<u8>
        requires { id.0 < length self.now }
        ensures { IfSome result (BeginsWithByte (tree self.now id.0)) }
    {
        let byte = first_byte_of_kind(&self.entries[id.0 as usize].kind)?;
        Some(byte)
    }

    /// Whether a primitive whose first bytes are known has no end from a cursor. It looks at no more bytes than a text
    /// has, and is false for any other pattern.
    pub fn fails_at(&self, id: PatId, subject: &[u8], at: usize) -> bool
        requires id { id.0 < length self.now }
        requires at { at ≤ length subject.now }
        ensures { IsTrue result → has_end (tree self.now id.0) subject.now at ≡ false }
    {
        kind_fails_at(&self.entries[id.0 as usize].kind, subject, at)
    }

    /// Whether a primitive with a count, or NOTANY, has no end from a cursor. It is false for any other pattern.
    pub fn misses(&self, id: PatId, subject: &[u8], at: usize) -> bool
        requires id { id.0 < length self.now }
        requires at { at ≤ length subject.now }
        ensures { IsTrue result → has_end (tree self.now id.0) subject.now at ≡ false }
    {
        kind_misses(&self.entries[id.0 as usize].kind, subject, at)
    }

    /// The first end of a primitive, as `end_at` gives it, by what was found out before where that says it. What is
    /// found out by this look is remembered.
    pub fn look(&self, looks: &mut Looks, id: PatId, subject: &[u8], at: usize) -> Option<usize>
        requires id { id.0 < length self.now }
        requires primitive { IsPrimitive (tree self.now id.0) }
        requires at { at ≤ length subject.now }
        requires looks { AreTrue self.now subject.now looks.old }
        ensures looks { AreTrue self.now subject.now looks.new }
        ensures value { result ≡ end_of (tree self.now id.0) subject.now at 0 }
        ensures ahead { IfSome result (λ e. at ≤ e) }
        ensures inside { IfSome result (λ e. e ≤ length subject.now) }
    {
        if is_near(&self.entries[id.0 as usize].kind) {
            let end = self.end_at(id, subject, at, 0);
            return end;
        }
        let key = self.entries[id.0 as usize].number;
        let end = self.look_by(looks, key, id, subject, at);
        end
    }

    /// The end of a primitive behind another, as `end_behind`
    /// gives it, by what was found out before where that says it.
    pub fn look_behind(
        &self,
        looks: &mut Looks,
        id: PatId,
        subject: &[u8],
        at: usize,
        last: usize,
    ) -> Option<usize>
        requires id { id.0 < length self.now }
        requires at { at ≤ length subject.now }
        requires last { Contains (ends_of (tree self.now id.0) subject.now at) last }
        requires looks { AreTrue self.now subject.now looks.old }
        ensures looks { AreTrue self.now subject.now looks.new }
        ensures value { result ≡ next_end (tree self.now id.0) subject.now at last }
        ensures by_number { (i : ℕ) → end_of (tree self.now id.0) subject.now at i ≡ Some last
            → result ≡ end_of (tree self.now id.0) subject.now at (i + 1) }
        ensures inside { IfSome result (λ e. e ≤ length subject.now) }
    {
        if self.is_bal(id) {
            let end = looks.balanced_end(subject, last);
            return end;
        }
        if last < subject.len() && self.stops_often(id) {
            let key = key_behind(self.entries[id.0 as usize].number, last);
            let end = self.look_by(looks, key, id, subject, last + 1);
            return end;
        }
        let end = self.end_behind(id, subject, at, last);
        end
    }

    /// The first place of a range at which a primitive has an end, as `first_place` gives it. Where it may be far to
    /// the end from the first of them, that is looked for first, and remembered.
    pub fn look_for_place(
        &self,
        looks: &mut Looks,
        id: PatId,
        subject: &[u8],
        from: usize,
        until: usize,
    ) -> usize
        requires id { id.0 < length self.now }
        requires primitive { IsPrimitive (tree self.now id.0) }
        requires start { from ≤ length subject.now }
        requires range { from ≤ until }
        requires inside { until ≤ length subject.now + 1 }
        requires looks { AreTrue self.now subject.now looks.old }
        ensures looks { AreTrue self.now subject.now looks.new }
        ensures place { IsFirstPlace (has_end (tree self.now id.0) subject.now) from until result }
    {
        if self.is_bal(id) {
            let place = looks.balanced_place(subject, from, until);
            return place;
        }
        if self.is_long_text(id) {
            let place = self.place_of_text(looks, id, subject, from, until);
            return place;
        }
        if is_far(&self.entries[id.0 as usize].kind)
            && self.look(looks, id, subject, from).is_some()
        {
            return from;
        }
        let place = self.first_place(id, subject, from, until);
        place
    }

    /// Whether a number's tree is BREAKX, whose end behind another is its first end from the byte behind that.
    fn stops_often(&self, id: PatId) -> bool
        requires { id.0 < length self.now }
        ensures { IsTrue result → StopsOften (tree self.now id.0) }
    {
        match &self.entries[id.0 as usize].kind {
            Kind::Among(prim, _set) => matches!(prim, Prim::BreakX),
            _ => false,
        }
    }

    /// Whether a number's tree is ARB.
    #[inline(always)]
    pub fn is_arb(&self, id: PatId) -> bool
        requires { id.0 < length self.now }
        ensures { IsTrue result → tree self.now id.0 ≡ Leaf Arb }
    {
        matches!(&self.entries[id.0 as usize].kind, Kind::Arb)
    }

    /// Whether a number's tree is BAL, whose end behind another is its first end from there.
    fn is_bal(&self, id: PatId) -> bool
        requires { id.0 < length self.now }
        ensures { IsTrue result → IsBal (tree self.now id.0) }
    {
        matches!(&self.entries[id.0 as usize].kind, Kind::Bal)
    }

    /// The first end of a primitive from a cursor, if a run under this key tells it: that of this node or of an equal one.
    fn recall(&self, looks: &Looks, key: u32, id: PatId, at: usize) -> Option<Option<usize>>
        requires id { id.0 < length self.now }
        ensures { (s : List ℕ) → AreTrue self.now s looks.now
            → IfSome result (λ end. end ≡ end_of (tree self.now id.0) s at 0) }
    {
        let run = looks.find(key, at)?;
        if run.id.0 == id.0 || self.searches_same(run.id, id) {
            Some(run.end)
        } else {
            None
        }
    }

    /// Whether a number of a node stands for the same primitive, with the same set, as another.
    fn searches_same(&self, id: PatId, other: PatId) -> bool
        requires { other.0 < length self.now }
        ensures { IsTrue result → tree self.now id.0 ≡ tree self.now other.0 }
    {
        if id.0 >= self.len() {
            return false;
        }
        let kind = &self.entries[id.0 as usize].kind;
        is_same_search(kind, &self.entries[other.0 as usize].kind)
    }

    /// The first end of a primitive, looked for from near it where the masks of the subject are made.
    #[inline(always)]
    fn end_from_near(&self, looks: &Looks, id: PatId, subject: &[u8], at: usize) -> Option<usize>
        requires id { id.0 < length self.now }
        requires primitive { IsPrimitive (tree self.now id.0) }
        requires at { at ≤ length subject.now }
        requires looks { AreTrue self.now subject.now looks.now }
        ensures value { result ≡ end_of (tree self.now id.0) subject.now at 0 }
        ensures ahead { IfSome result (λ e. at ≤ e) }
        ensures inside { IfSome result (λ e. e ≤ length subject.now) }
    {
        let near = looks.near_end(&self.entries[id.0 as usize].kind, subject, at);
        let end = self.end_at(id, subject, near, 0);
        end
    }

    /// The first end of a primitive. A run that is looked through is remembered under the key.
    fn look_by(
        &self,
        looks: &mut Looks,
        key: u32,
        id: PatId,
        subject: &[u8],
        at: usize,
    ) -> Option<usize>
        requires id { id.0 < length self.now }
        requires primitive { IsPrimitive (tree self.now id.0) }
        requires at { at ≤ length subject.now }
        requires looks { AreTrue self.now subject.now looks.old }
        ensures looks { AreTrue self.now subject.now looks.new }
        ensures value { result ≡ end_of (tree self.now id.0) subject.now at 0 }
        ensures ahead { IfSome result (λ e. at ≤ e) }
        ensures inside { IfSome result (λ e. e ≤ length subject.now) }
    {
        if self.is_bal(id) {
            let end = looks.balanced_end(subject, at);
            return end;
        }
        let kind = &self.entries[id.0 as usize].kind;
        if !is_far(kind) {
            let end = self.end_of_text(looks, id, subject, at);
            return end;
        }
        if let Some(end) = self.recall(looks, key, id, at) {
            return end;
        }
        let end = self.end_from_near(looks, id, subject, at);
        let until = last_with_end(kind, subject, at, end);
        if at + WORTH_KEEPING <= until {
            looks.count(subject, until - at);
            looks.remember(Run {
                id,
                from: at,
                until,
                end,
                turn: 0,
                key,
            });
        }
        end
    }
}
