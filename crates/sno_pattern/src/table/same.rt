//! Whether a node is one that a builder would make.
ghost use Rattle.std.specs.Prelude.{◌≡◌, IsTrue};
ghost use Rattle.sno_pattern.specs.Pattern.{Leaf, Text};
ghost use Rattle.sno_pattern.specs.Arguments.{primitive_of};
ghost use Rattle.sno_pattern.specs.Sets.{set_of};
ghost use Rattle.sno_pattern.specs.Table.{LeafNode, StandsFor};
ghost use Rattle.sno_pattern.specs.inner.Kinds.{node_of};

use crate::argument::Arg;
use crate::byte_set::ByteSet;
use crate::kind::Kind;
use crate::spellings::Spellings;
use crate::table::Patterns;
use sno_value::{PatId, Prim};

impl Patterns {
    /// Whether a number is that of a node for this text. It is false for a number that the table doesn't have.
    pub fn is_text(&self, id: PatId, bytes: &[u8]) -> bool
        ensures { IsTrue result → StandsFor self.now id (Leaf (Text bytes.now)) }
    {
        if id.0 >= self.len() {
            return false;
        }
        match &self.entries[id.0 as usize].kind {
            Kind::Text(text) => text.as_slice() == bytes,
            _ => false,
        }
    }

    /// Whether a number is that of a node for this primitive with this argument. It is false for a number that the
    /// table doesn't have.
    #[inline(always)]
    pub fn is_prim(&self, id: PatId, prim: Prim, arg: Arg<'_>) -> bool
        ensures { IsTrue result → StandsFor self.now id (Leaf (primitive_of prim arg.entry)) }
    {
        if id.0 >= self.len() {
            return false;
        }
        is_prim_of(
            &self.entries[id.0 as usize].kind,
            prim,
            arg,
            &self.spellings,
            id,
        )
    }
}

/// Whether a node is this primitive with this argument. Its list may be kept under its number.
#[inline(always)]
fn is_prim_of(kind: &Kind, prim: Prim, arg: Arg<'_>, spellings: &Spellings, id: PatId) -> bool
    ensures { IsTrue result → node_of kind.now ≡ LeafNode (primitive_of prim arg.entry) }
{
    match kind {
        Kind::Counted(other, count) => match arg {
            Arg::Count(n) => *other == prim && n >= 0 && *count == n as u64,
            Arg::Set(_bytes) => false,
        },
        Kind::Among(other, set) => match arg {
            Arg::Set(bytes) => *other == prim && is_made_of(set, spellings, id, bytes),
            Arg::Count(_n) => false,
        },
        _ => false,
    }
}

/// Whether a set is that of the bytes in a list, by the mask of the list where that is kept.
#[inline(always)]
fn is_made_of(set: &ByteSet, spellings: &Spellings, id: PatId, bytes: &[u8]) -> bool
    ensures { IsTrue result → set.now ≡ set_of bytes.now }
{
    match spellings.find(id, bytes) {
        Some(words) => set.has_words(words),
        None => set.is_same(&ByteSet::of(bytes)),
    }
}
