//! The next place at which a primitive has an end.
ghost use Rattle.std.specs.Prelude.{◌≡◌, ◌≤◌, ◌<◌, ℕ, Bool, false, ◌+◌, ◌==◌, ◌-◌, length, take, drop, position};
ghost use Rattle.sno_value.specs.declared.kind.PrimitiveKind.TheVariants.{NotAny, Break};
ghost use Rattle.sno_pattern.specs.Pattern.{Text, Counted, Among};
ghost use Rattle.sno_pattern.specs.inner.Kinds.{node_of};
ghost use Rattle.sno_pattern.specs.Places.{IsFirstPlace, stands_at};
ghost use Rattle.sno_pattern.specs.inner.Places.{leaf_has_end, node_has_end, byte_passes};

use crate::byte_set::{ByteSet, FEW};
use crate::counts::count_end;
use crate::ends::{beginning, begins_with, first_end};
use crate::kind::Kind;
use crate::lanes::first_in;
use crate::sets::break_end;
use sno_value::Prim;

/// The first place, from `from` up to `until`, at which a primitive
/// node has an end; `until` where it has none before that.
#[inline(always)]
pub(crate) fn first_place_of_kind(kind: &Kind, subject: &[u8], from: usize, until: usize) -> usize
    requires start { from ≤ length subject.now }
    requires range { from ≤ until }
    requires inside { until ≤ length subject.now + 1 }
    ensures { IsFirstPlace (node_has_end (node_of kind.now) subject.now) from until result }
{
    match kind {
        Kind::Text(text) => place_of_text(text.as_slice(), subject, from, until),
        Kind::Counted(prim, n) => place_of_count(*prim, *n, subject, from, until),
        Kind::Among(prim, set) => match prim {
            Prim::Any => place_in_set(set, subject, from, until),
            Prim::NotAny => place_outside_set(set, subject, from, until),
            Prim::Span => place_in_set(set, subject, from, until),
            Prim::Break => place_before_set(set, subject, from, until),
            Prim::BreakX => place_before_set(set, subject, from, until),
            _ => place_of_end(kind, subject, from, until),
        },
        _ => place_of_end(kind, subject, from, until),
    }
}

/// The first place at which a primitive with a count has an end. POS and RPOS have one at a place alone; where another
/// has none, it has none behind that.
fn place_of_count(prim: Prim, n: u64, subject: &[u8], from: usize, until: usize) -> usize
    requires start { from ≤ length subject.now }
    requires range { from ≤ until }
    requires inside { until ≤ length subject.now + 1 }
    ensures { IsFirstPlace (leaf_has_end (Counted prim n) subject.now) from until result }
{
    match prim {
        Prim::Pos => place_between(n, from, until),
        Prim::Rpos => match (subject.len() as u64).checked_sub(n) {
            Some(place) => place_between(place, from, until),
            None => until,
        },
        _ => match count_end(prim, n, subject, from) {
            Some(_first) => from,
            None => until,
        },
    }
}

/// A place, if it is between two, and else the second of them.
#[inline(always)]
fn place_between(place: u64, from: usize, until: usize) -> usize
    requires { from ≤ until }
    ensures { (test : ℕ → Bool) → ((c : ℕ) → test c ≡ (c == place)) → IsFirstPlace test from until result }
{
    if from as u64 <= place && place < until as u64 {
        place as usize
    } else {
        until
    }
}

/// The first place at which a text stands.
#[inline(always)]
fn place_of_text(text: &[u8], subject: &[u8], from: usize, until: usize) -> usize
    requires start { from ≤ length subject.now }
    requires range { from ≤ until }
    requires inside { until ≤ length subject.now + 1 }
    ensures { IsFirstPlace (leaf_has_end (Text text.now) subject.now) from until result }
{
    if text.is_empty() {
        return from;
    }
    let first = text[0];
    let mut place = place_of_byte(first, subject, from, until);
    if text.len() == 1 {
        return place;
    }
    'places: while place < until && !begins_with(&subject[place..], text) {
        place = place_of_byte(first, subject, place + 1, until);
    }
    place
}

/// The first place at which the beginning of a text stands: from no place before that the text has an end.
pub(crate) fn place_of_beginning(text: &[u8], subject: &[u8], from: usize, until: usize) -> usize
    requires start { from ≤ length subject.now }
    requires range { from ≤ until }
    requires inside { until ≤ length subject.now + 1 }
    ensures behind { from ≤ result }
    ensures within { result ≤ until }
    ensures none { (c : ℕ) → from ≤ c → c < result → leaf_has_end (Text text.now) subject.now c ≡ false }
{
    let place = place_of_text(beginning(text), subject, from, until);
    place
}

/// The first place at which a byte stands.
fn place_of_byte(byte: u8, subject: &[u8], from: usize, until: usize) -> usize
    requires start { from ≤ length subject.now }
    requires range { from ≤ until }
    requires inside { until ≤ length subject.now + 1 }
    ensures { IsFirstPlace (byte_passes (λ b. b == byte) subject.now) from until result }
{
    match index_of(byte, bytes_between(subject, from, until)) {
        Some(before) => from + before,
        None => until,
    }
}

/// The bytes from one place up to another, as far as the subject has them.
fn bytes_between(subject: &[u8], from: usize, until: usize) -> &[u8]
    requires start { from ≤ length subject.now }
    requires range { from ≤ until }
    ensures { result.now ≡ take (until - from) (drop from subject.now) }
{
    &subject[from..until.min(subject.len())]
}

/// The index of a byte in a list, if it stands there.
fn index_of(byte: u8, bytes: &[u8]) -> Option<usize>
    ensures { result ≡ position (λ b. b == byte) bytes.now }
{
    if bytes.len() < FEW {
        return bytes.iter().position(|b| *b == byte);
    }
    first_in(bytes, &[byte; 8])
}

/// The first place, from `from` up to `until`, whose byte is in a set; `until` where there is none before that.
pub fn place_in_set(set: &ByteSet, subject: &[u8], from: usize, until: usize) -> usize
    requires start { from ≤ length subject.now }
    requires range { from ≤ until }
    requires inside { until ≤ length subject.now + 1 }
    ensures { IsFirstPlace (stands_at set.now subject.now) from until result }
{
    match set.first_in(bytes_between(subject, from, until)) {
        Some(before) => from + before,
        None => until,
    }
}

/// The first place whose byte is not in a set.
fn place_outside_set(set: &ByteSet, subject: &[u8], from: usize, until: usize) -> usize
    requires start { from ≤ length subject.now }
    requires range { from ≤ until }
    requires inside { until ≤ length subject.now + 1 }
    ensures { IsFirstPlace (leaf_has_end (Among NotAny set.now) subject.now) from until result }
{
    match set.first_not_in(bytes_between(subject, from, until)) {
        Some(before) => from + before,
        None => until,
    }
}

/// The first place at which a byte of a set stands or is ahead. Where one is ahead of the beginning that is the place,
/// and else no place has one ahead.
fn place_before_set(set: &ByteSet, subject: &[u8], from: usize, until: usize) -> usize
    requires start { from ≤ length subject.now }
    requires range { from ≤ until }
    ensures { IsFirstPlace (leaf_has_end (Among Break set.now) subject.now) from until result }
{
    match break_end(set, subject, from) {
        Some(_end) => from,
        None => until,
    }
}

/// The first place at which a node of any kind has an end, by a look at each.
fn place_of_end(kind: &Kind, subject: &[u8], from: usize, until: usize) -> usize
    requires start { from ≤ length subject.now }
    requires range { from ≤ until }
    requires inside { until ≤ length subject.now + 1 }
    ensures { IsFirstPlace (node_has_end (node_of kind.now) subject.now) from until result }
{
    let mut place = from;
    'places: while place < until && first_end(kind, subject, place).is_none() {
        place += 1;
    }
    place
}
