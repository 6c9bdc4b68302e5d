//! Where a primitive ends.
ghost use Rattle.std.specs.Prelude.{◌≡◌, ℕ, ◌≤◌, ◌<◌, ◌+◌, length, slice_get, IsTrue, List, None, Some, false, nat_eq};
ghost use Rattle.std.specs.List.{starts_with};
ghost use Rattle.sno_pattern.specs.Pattern.{Text};
ghost use Rattle.sno_pattern.specs.Ends.{ends};
ghost use Rattle.sno_pattern.specs.inner.Shape.{end_of_node};
ghost use Rattle.sno_pattern.specs.inner.Kinds.{node_of};

use crate::balance::{balanced_end, balanced_end_at};
use crate::counts::count_end;
use crate::kind::Kind;
use crate::sets::{first_set_end, has_one_set_end, later_set_end, set_end_behind};

/// The end of a primitive node with the number `i`, in order of trial.
pub(crate) fn end_of_kind(kind: &Kind, subject: &[u8], at: usize, i: usize) -> Option<usize>
    requires { at ≤ length subject.now }
    ensures { result ≡ end_of_node (node_of kind.now) subject.now at i }
{
    if i == 0 {
        return first_end(kind, subject, at);
    }
    match kind {
        Kind::Arb => {
            if i <= subject.len() - at {
                Some(at + i)
            } else {
                None
            }
        }
        Kind::Bal => balanced_end_at(subject, at, i),
        Kind::Among(prim, set) => later_set_end(*prim, set, subject, at, i),
        _ => None,
    }
}

/// The end of a primitive node that is tried after another.
pub(crate) fn end_behind_of_kind(kind: &Kind, subject: &[u8], last: usize) -> Option<usize>
    requires { last ≤ length subject.now }
    ensures { (c k : ℕ) → c ≤ length subject.now → end_of_node (node_of kind.now) subject.now c k ≡ Some last
        → result ≡ end_of_node (node_of kind.now) subject.now c (k + 1) }
{
    match kind {
        Kind::Arb => {
            if last < subject.len() {
                Some(last + 1)
            } else {
                None
            }
        }
        Kind::Bal => balanced_end(subject, last),
        Kind::Among(prim, set) => set_end_behind(*prim, set, subject, last),
        _ => None,
    }
}

/// Whether a primitive node has no end behind its first.
pub(crate) fn has_one_end(kind: &Kind) -> bool
    ensures { IsTrue result → (s : List ℕ) (c : ℕ) → end_of_node (node_of kind.now) s c 1 ≡ None }
{
    match kind {
        Kind::Arb => false,
        Kind::Bal => false,
        Kind::Among(prim, _set) => has_one_set_end(*prim),
        _ => true,
    }
}

/// The end of a primitive node that is tried first.
pub(crate) fn first_end(kind: &Kind, subject: &[u8], at: usize) -> Option<usize>
    requires { at ≤ length subject.now }
    ensures { result ≡ end_of_node (node_of kind.now) subject.now at 0 }
{
    match kind {
        Kind::Text(text) => text_end(text.as_slice(), subject, at),
        Kind::Counted(prim, n) => count_end(*prim, *n, subject, at),
        Kind::Among(prim, set) => first_set_end(*prim, set, subject, at),
        Kind::Arb => Some(at),
        Kind::Bal => balanced_end(subject, at),
        Kind::Rem => Some(subject.len()),
        _ => None,
    }
}

/// From how many bytes on a text is long: how far it agrees with a subject is remembered.
const LONG: usize = 4_096;

/// How many bytes at the beginning of a long text are looked at before it is asked how far it agrees.
const BEGINNING: usize = 64;

/// Whether a text is long.
#[inline(always)]
pub(crate) fn is_long(text: &[u8]) -> bool
    ensures long { IsTrue result → 4096 ≤ length text.now }
    ensures short { result ≡ false → length text.now < 4096 }
{
    text.len() >= LONG
}

/// As many bytes of a text as are looked at before it is asked how far it agrees: all but those of a long one.
#[inline(always)]
pub(crate) fn beginning(text: &[u8]) -> &[u8]
    ensures none { (bytes : List ℕ) → starts_with nat_eq bytes result.now ≡ false
        → starts_with nat_eq bytes text.now ≡ false }
    ensures short { length text.now < 4096 → result.now ≡ text.now }
{
    if is_long(text) {
        return &text[..BEGINNING];
    }
    text
}

/// A text of one byte: the place behind it, if it stands at the cursor.
#[inline(always)]
pub(crate) fn byte_end(text: &[u8], subject: &[u8], at: usize) -> Option<usize>
    requires { length text.now ≡ 1 }
    ensures { result ≡ slice_get (ends (Text text.now) subject.now at) 0 }
{
    if at < subject.len() && subject[at] == text[0] {
        Some(at + 1)
    } else {
        None
    }
}

/// A text: the place behind it, if it stands at the cursor.
#[inline(always)]
pub(crate) fn text_end(text: &[u8], subject: &[u8], at: usize) -> Option<usize>
    requires { at ≤ length subject.now }
    ensures { result ≡ slice_get (ends (Text text.now) subject.now at) 0 }
{
    if begins_with(&subject[at..], text) {
        Some(at + text.len())
    } else {
        None
    }
}

/// Whether bytes begin with a text. Its last byte is looked at first, since a long text that fails there again and again
/// would else be gone through each time.
pub(crate) fn begins_with(bytes: &[u8], text: &[u8]) -> bool
    ensures { result ≡ starts_with nat_eq bytes.now text.now }
{
    if text.len() > bytes.len() {
        return false;
    }
    if text.len() > 1 && bytes[text.len() - 1] != text[text.len() - 1] {
        return false;
    }
    bytes.starts_with(text)
}

/// Whether bytes may begin with a text, by its length, its last byte and its beginning: of one that isn't long, whether
/// they do.
#[inline(always)]
pub(crate) fn may_begin_with(bytes: &[u8], text: &[u8]) -> bool
    ensures none { result ≡ false → starts_with nat_eq bytes.now text.now ≡ false }
    ensures short { length text.now < 4096 → result ≡ starts_with nat_eq bytes.now text.now }
{
    if text.len() > bytes.len() {
        return false;
    }
    if text.len() > 1 && bytes[text.len() - 1] != text[text.len() - 1] {
        return false;
    }
    begins_with(bytes, beginning(text))
}
