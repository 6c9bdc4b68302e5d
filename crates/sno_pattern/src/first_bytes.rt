//! The bytes with which a primitive begins.
ghost use Rattle.std.specs.Prelude.{◌≡◌, ◌<◌, ◌≤◌, ℕ, List, false, true, length, slice_get, IsTrue, IfSome, Some};
ghost use Rattle.sno_pattern.specs.Pattern.{Alt};
ghost use Rattle.sno_pattern.specs.inner.Kinds.{node_of, nodes_of, IsTable};
ghost use Rattle.sno_pattern.specs.Masks.{members};
ghost use Rattle.sno_pattern.specs.inner.Places.{node_has_end};
ghost use Rattle.sno_pattern.specs.Places.{IsAmong, BeginsWith, stands_at};
ghost use Rattle.sno_pattern.specs.Table.{tree};

use crate::byte_set::ByteSet;
use crate::counts::count_end;
use crate::ends::may_begin_with;
use crate::kind::{Entry, Kind};
use crate::sets::{any_end, not_any_end};
use sno_value::{PatId, Prim};

/// How many heads are gone through up to the choice or the primitive that a pattern begins with.
const MOST_HEADS: u32 = 100;

/// The bytes with which a choice begins.
#[derive(Drop)]
pub struct Beginning {
    /// The bytes.
    pub set: ByteSet,
    /// How many steps a search for the choice takes in vain where none of them stands.
    pub steps: u32,
}

/// The same as a node keeps it, without steps where the bytes aren't known.
#[derive(Clone, Copy, Drop)]
pub(crate) struct FirstBytes {
    pub(crate) words: [u64; 4],
    pub(crate) steps: Option<u32>,
}

/// The bytes with which a choice of two patterns begins.
pub(crate) fn first_bytes_of_choice(entries: &[Entry], first: PatId, second: PatId) -> FirstBytes
    requires table { IsTable entries.now }
    requires first { first.0 < length entries.now }
    requires second { second.0 < length entries.now }
    ensures { IfSome result.steps (λ steps. BeginsWith (members result.words) steps
        (Alt (tree (nodes_of entries.now) first.0) (tree (nodes_of entries.now) second.0))) }
{
    let mut set = ByteSet::none();
    let steps = add_both(entries, first, second, &mut set);
    FirstBytes {
        words: set.words(),
        steps,
    }
}

/// Adds the bytes with which two patterns begin to a set: how many steps a choice of them takes in vain where none of
/// them stands. Where they aren't known there is no such number.
fn add_both(entries: &[Entry], first: PatId, second: PatId, set: &mut ByteSet) -> Option<u32>
    requires table { IsTable entries.now }
    requires first { first.0 < length entries.now }
    requires second { second.0 < length entries.now }
    ensures { IfSome result (λ steps. BeginsWith set.new steps
        (Alt (tree (nodes_of entries.now) first.0) (tree (nodes_of entries.now) second.0))) }
{
    let before = add_beginning(entries, first, set, MOST_HEADS)?;
    let behind = add_beginning(entries, second, set, MOST_HEADS)?;
    let both = before.checked_add(behind)?;
    let steps = both.checked_add(2)?;
    Some(steps)
}

/// Adds the bytes with which a pattern begins to a set: how many steps its search takes in vain where none of them
/// stands. Where they aren't known, or stand behind too many heads, there is no such number.
fn add_beginning(entries: &[Entry], id: PatId, set: &mut ByteSet, depth: u32) -> Option<u32>
    requires table { IsTable entries.now }
    requires known { id.0 < length entries.now }
    ensures grows { IsAmong set.old set.new }
    ensures begins { IfSome result (λ steps. BeginsWith set.new steps (tree (nodes_of entries.now) id.0)) }
{
    if depth == 0 {
        return None;
    }
    let kind = &entries[id.0 as usize].kind;
    match kind {
        Kind::Alt(_first, _second, begins) => {
            let steps = begins.steps?;
            set.add_all(&ByteSet::with_words(begins.words));
            Some(steps)
        }
        Kind::Cat(part, _second) => {
            let steps = add_beginning(entries, *part, set, depth - 1)?;
            let more = steps.checked_add(1)?;
            Some(more)
        }
        Kind::Cond(part, _target) => {
            let steps = add_beginning(entries, *part, set, depth - 1)?;
            let more = steps.checked_add(1)?;
            Some(more)
        }
        Kind::Imm(part, _target) => {
            let steps = add_beginning(entries, *part, set, depth - 1)?;
            let more = steps.checked_add(1)?;
            Some(more)
        }
        Kind::Text(_text) => {
            if !add_first_bytes_of_kind(kind, set) {
                return None;
            }
            Some(1)
        }
        Kind::Among(_prim, _set) => {
            if !add_first_bytes_of_kind(kind, set) {
                return None;
            }
            Some(1)
        }
        _ => None,
    }
}

/// Adds the bytes with which a node's text or run begins to a set. It is false for a node of which they aren't known.
pub(crate) fn add_first_bytes_of_kind(kind: &Kind, set: &mut ByteSet) -> bool
    ensures grows { IsAmong set.old set.new }
    ensures known { IsTrue result → (s : List ℕ) (c : ℕ) → stands_at set.new s c ≡ false
        → node_has_end (node_of kind.now) s c ≡ false }
{
    match kind {
        Kind::Text(text) => {
            let text = text.as_slice();
            if text.is_empty() {
                return false;
            }
            set.add(text[0]);
            true
        }
        Kind::Among(prim, members) => match prim {
            Prim::Any => {
                set.add_all(members);
                true
            }
            Prim::Span => {
                set.add_all(members);
                true
            }
            _ => false,
        },
        _ => false,
    }
}

/// The byte with which a node's text begins.
#[inline(always)]
pub(crate) fn first_byte_of_kind(kind: &Kind) -> Option<u8>
    ensures { IfSome result (λ byte. (s : List ℕ) (c : ℕ) → node_has_end (node_of kind.now) s c ≡ true
        → slice_get s c ≡ Some byte) }
{
    let Kind::Text(text) = kind else {
        return None;
    };
    let byte = text.as_slice().first()?;
    Some(*byte)
}

/// Whether a node whose first bytes are known has no end from a cursor, which takes a look at no more bytes than its
/// text has. It is false for any other node.
pub(crate) fn kind_fails_at(kind: &Kind, subject: &[u8], at: usize) -> bool
    requires { at ≤ length subject.now }
    ensures { IsTrue result → node_has_end (node_of kind.now) subject.now at ≡ false }
{
    match kind {
        Kind::Text(text) => !may_begin_with(&subject[at..], text.as_slice()),
        Kind::Among(prim, members) => match prim {
            Prim::Any => any_end(members, subject, at).is_none(),
            Prim::Span => any_end(members, subject, at).is_none(),
            _ => false,
        },
        _ => false,
    }
}

/// Whether a node with a count, or of NOTANY, has no end from a cursor. It is false for any other node.
pub(crate) fn kind_misses(kind: &Kind, subject: &[u8], at: usize) -> bool
    requires { at ≤ length subject.now }
    ensures { IsTrue result → node_has_end (node_of kind.now) subject.now at ≡ false }
{
    match kind {
        Kind::Counted(prim, n) => count_end(*prim, *n, subject, at).is_none(),
        Kind::Among(prim, members) => match prim {
            Prim::NotAny => not_any_end(members, subject, at).is_none(),
            _ => false,
        },
        _ => false,
    }
}
