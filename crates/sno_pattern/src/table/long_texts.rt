//! The ends and the places of long texts, by how far they agreed with the subject before.
ghost use Rattle.std.specs.Prelude.{◌≡◌, ℕ, ◌+◌, ◌<◌, ◌≤◌, drop, length, IfSome, false};
ghost use Rattle.sno_pattern.specs.Agreement.{Agree};
ghost use Rattle.sno_pattern.specs.Looks.{AreTrue};
ghost use Rattle.sno_pattern.specs.Pattern.{Leaf, Text};
ghost use Rattle.sno_pattern.specs.Places.{IsFirstPlace, has_end};
ghost use Rattle.sno_pattern.specs.Shape.{IsPrimitive, end_of};
ghost use Rattle.sno_pattern.specs.Table.{tree};

use crate::agreement::agreement;
use crate::comparisons::Comparison;
use crate::ends::{is_long, may_begin_with};
use crate::kind::Kind;
use crate::looks::Looks;
use crate::places::place_of_beginning;
use crate::table::Patterns;
use sno_value::PatId;

impl Patterns {
    /// Whether a number's tree is a long text.
    pub(crate) fn is_long_text(&self, id: PatId) -> bool
        requires id { id.0 < length self.now }
    {
        match &self.entries[id.0 as usize].kind {
            Kind::Text(text) => is_long(text.as_slice()),
            _ => false,
        }
    }

    /// The first end of a primitive; that of a text by how far it agreed before.
    #[inline(never)]
    pub(crate) fn end_of_text(
        &self,
        looks: &mut Looks,
        id: PatId,
        subject: &[u8],
        at: usize,
    ) -> Option<usize>
        requires id { id.0 < length self.now }
        requires primitive { IsPrimitive (tree self.now id.0) }
        requires at { at ≤ length subject.now }
        requires looks { AreTrue self.now subject.now looks.old }
        ensures looks { AreTrue self.now subject.now looks.new }
        ensures value { result ≡ end_of (tree self.now id.0) subject.now at 0 }
        ensures ahead { IfSome result (λ e. at ≤ e) }
        ensures inside { IfSome result (λ e. e ≤ length subject.now) }
    {
        let Kind::Text(text) = &self.entries[id.0 as usize].kind else {
            let end = self.end_at(id, subject, at, 0);
            return end;
        };
        let text = text.as_slice();
        if !may_begin_with(&subject[at..], text) {
            return None;
        }
        let count = self.agreement_at(looks, id, text, subject, at);
        if count == text.len() {
            Some(at + count)
        } else {
            None
        }
    }

    /// The first place of a range at which a text has an end, or any other primitive.
    #[inline(never)]
    pub(crate) fn place_of_text(
        &self,
        looks: &mut Looks,
        id: PatId,
        subject: &[u8],
        from: usize,
        until: usize,
    ) -> usize
        requires id { id.0 < length self.now }
        requires primitive { IsPrimitive (tree self.now id.0) }
        requires start { from ≤ length subject.now }
        requires range { from ≤ until }
        requires inside { until ≤ length subject.now + 1 }
        requires looks { AreTrue self.now subject.now looks.old }
        ensures looks { AreTrue self.now subject.now looks.new }
        ensures place { IsFirstPlace (has_end (tree self.now id.0) subject.now) from until result }
    {
        let mut place = self.place_that_begins(id, subject, from, until);
        'places: while place < until && self.end_of_text(looks, id, subject, place).is_none() {
            place = self.place_that_begins(id, subject, place + 1, until);
        }
        place
    }

    /// A place of a range from none before which a text has an end, or any other primitive.
    fn place_that_begins(&self, id: PatId, subject: &[u8], from: usize, until: usize) -> usize
        requires id { id.0 < length self.now }
        requires range { from ≤ until }
        requires inside { until ≤ length subject.now + 1 }
        ensures behind { from ≤ result }
        ensures within { result ≤ until }
        ensures none { (c : ℕ) → from ≤ c → c < result → has_end (tree self.now id.0) subject.now c ≡ false }
    {
        let Kind::Text(text) = &self.entries[id.0 as usize].kind else {
            return from;
        };
        if from == until {
            return from;
        }
        let place = place_of_beginning(text.as_slice(), subject, from, until);
        place
    }

    /// How many bytes of a text agree with the subject from a cursor, which is remembered.
    fn agreement_at(
        &self,
        looks: &mut Looks,
        id: PatId,
        text: &[u8],
        subject: &[u8],
        at: usize,
    ) -> usize
        requires id { id.0 < length self.now }
        requires text { tree self.now id.0 ≡ Leaf (Text text.now) }
        requires at { at ≤ length subject.now }
        requires looks { AreTrue self.now subject.now looks.old }
        ensures looks { AreTrue self.now subject.now looks.new }
        ensures agree { Agree text.now (drop at subject.now) result }
    {
        let count = self.agreement_by(looks, id, text, subject, at);
        looks.remember_comparison(Comparison {
            id,
            cursor: at,
            count,
        });
        count
    }

    /// The same: as many as it agreed from another cursor, where the subject repeats itself from there further or less
    /// far than that.
    fn agreement_by(
        &self,
        looks: &mut Looks,
        id: PatId,
        text: &[u8],
        subject: &[u8],
        at: usize,
    ) -> usize
        requires id { id.0 < length self.now }
        requires text { tree self.now id.0 ≡ Leaf (Text text.now) }
        requires at { at ≤ length subject.now }
        requires looks { AreTrue self.now subject.now looks.old }
        ensures looks { AreTrue self.now subject.now looks.new }
        ensures agree { Agree text.now (drop at subject.now) result }
    {
        let mut known = 0;
        if let Some(before) = looks.find_comparison(id) {
            let from = before.cursor.min(at);
            let distance = before.cursor.max(at) - from;
            let repeated = looks.repeated(subject, from, distance, before.count);
            if repeated != before.count {
                return repeated.min(before.count);
            }
            known = repeated;
        }
        let count = agreement(text, &subject[at..], known, text.len());
        count
    }
}
