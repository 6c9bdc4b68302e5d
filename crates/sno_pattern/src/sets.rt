//! The ends of primitives with a set.
ghost use Rattle.std.specs.Prelude.{◌≡◌, ◌≢◌, ◌≤◌, ◌+◌, ℕ, List, length, slice_get, None, Some, IsTrue};
ghost use Rattle.sno_value.specs.declared.kind.PrimitiveKind.TheVariants.{Any, NotAny, Span, Break, BreakX};
ghost use Rattle.sno_pattern.specs.Ends.{set_ends};

use crate::byte_set::ByteSet;
use sno_value::Prim;

/// The end of a primitive with its set that is tried first.
pub(crate) fn first_set_end(prim: Prim, set: &ByteSet, subject: &[u8], at: usize) -> Option<usize>
    requires { at ≤ length subject.now }
    ensures { result ≡ slice_get (set_ends prim set.now subject.now at) 0 }
{
    match prim {
        Prim::Any => any_end(set, subject, at),
        Prim::NotAny => not_any_end(set, subject, at),
        Prim::Span => span_end(set, subject, at),
        Prim::Break => break_end(set, subject, at),
        Prim::BreakX => first_stop(set, subject, at),
        _ => None,
    }
}

/// The end of a primitive with its set that has the number `i`, behind the first.
pub(crate) fn later_set_end(
    prim: Prim,
    set: &ByteSet,
    subject: &[u8],
    at: usize,
    i: usize,
) -> Option<usize>
    requires at { at ≤ length subject.now }
    requires later { i ≢ 0 }
    ensures { result ≡ slice_get (set_ends prim set.now subject.now at) i }
{
    match prim {
        Prim::BreakX => stop_at(set, subject, at, i),
        _ => None,
    }
}

/// The end of a primitive with its set that is tried after another.
#[inline(never)]
pub(crate) fn set_end_behind(
    prim: Prim,
    set: &ByteSet,
    subject: &[u8],
    last: usize,
) -> Option<usize>
    ensures { (c k : ℕ) → slice_get (set_ends prim set.now subject.now c) k ≡ Some last
        → result ≡ slice_get (set_ends prim set.now subject.now c) (k + 1) }
{
    match prim {
        Prim::BreakX => stop_behind(set, subject, last),
        _ => None,
    }
}

/// Whether a primitive that takes a set has no end behind its first, whatever its set is.
pub(crate) fn has_one_set_end(prim: Prim) -> bool
    ensures { IsTrue result → (set s : List ℕ) (c : ℕ) → slice_get (set_ends prim set s c) 1 ≡ None }
{
    match prim {
        Prim::BreakX => false,
        _ => true,
    }
}

/// ANY(s): the place behind the byte at the cursor, if it is in the set.
pub(crate) fn any_end(set: &ByteSet, subject: &[u8], at: usize) -> Option<usize>
    ensures { result ≡ slice_get (set_ends Any set.now subject.now at) 0 }
{
    if at < subject.len() && set.contains(subject[at]) {
        Some(at + 1)
    } else {
        None
    }
}

/// NOTANY(s): the place behind the byte at the cursor, if there is one and it is not in the set.
#[inline(always)]
pub(crate) fn not_any_end(set: &ByteSet, subject: &[u8], at: usize) -> Option<usize>
    ensures { result ≡ slice_get (set_ends NotAny set.now subject.now at) 0 }
{
    if at < subject.len() && !set.contains(subject[at]) {
        Some(at + 1)
    } else {
        None
    }
}

/// SPAN(s): the end of the longest run of bytes in the set, if it has one byte or more.
fn span_end(set: &ByteSet, subject: &[u8], at: usize) -> Option<usize>
    requires { at ≤ length subject.now }
    ensures { result ≡ slice_get (set_ends Span set.now subject.now at) 0 }
{
    let rest = &subject[at..];
    let run = set.first_not_in(rest).unwrap_or(rest.len());
    if run == 0 { None } else { Some(at + run) }
}

/// BREAK(s): the place of the first byte in the set, if there is one.
pub(crate) fn break_end(set: &ByteSet, subject: &[u8], at: usize) -> Option<usize>
    requires { at ≤ length subject.now }
    ensures { result ≡ slice_get (set_ends Break set.now subject.now at) 0 }
{
    match set.first_in(&subject[at..]) {
        Some(before) => Some(at + before),
        None => None,
    }
}

/// BREAKX(s): the place of the first byte in the set, if there is one.
fn first_stop(set: &ByteSet, subject: &[u8], at: usize) -> Option<usize>
    requires { at ≤ length subject.now }
    ensures { result ≡ slice_get (set_ends BreakX set.now subject.now at) 0 }
{
    break_end(set, subject, at)
}

/// BREAKX(s): the place of the next byte in the set behind the place `last` of one, if there is one.
fn stop_behind(set: &ByteSet, subject: &[u8], last: usize) -> Option<usize>
    ensures { (c k : ℕ) → slice_get (set_ends BreakX set.now subject.now c) k ≡ Some last
        → result ≡ slice_get (set_ends BreakX set.now subject.now c) (k + 1) }
{
    if last < subject.len() {
        first_stop(set, subject, last + 1)
    } else {
        None
    }
}

/// BREAKX(s): the place with the number `i` among those of the bytes in the set.
fn stop_at(set: &ByteSet, subject: &[u8], at: usize, i: usize) -> Option<usize>
    requires { at ≤ length subject.now }
    ensures { result ≡ slice_get (set_ends BreakX set.now subject.now at) i }
{
    let mut stop = first_stop(set, subject, at)?;
    for _more in 0..i {
        stop = stop_behind(set, subject, stop)?;
    }
    Some(stop)
}
