//! What the table stores of a pattern.
ghost use Rattle.std.specs.Prelude.{◌≡◌, length, IsTrue};
ghost use Rattle.sno_pattern.specs.inner.Table.{PartsBelow};
ghost use Rattle.sno_pattern.specs.inner.Shape.{shape_of};
ghost use Rattle.sno_pattern.specs.inner.Kinds.{node_of, flags_of, quiet_over};

use crate::byte_set::ByteSet;
use crate::first_bytes::FirstBytes;
use crate::shape::Shape;
use sno_value::{ExprId, Name, PatId, Prim, Text};

/// A pattern's head as the table keeps it: with its text, count or set, and the numbers of its parts.
#[derive(Drop)]
pub(crate) enum Kind {
    Text(Text),
    Counted(Prim, u64),
    Among(Prim, ByteSet),
    Arb,
    Bal,
    Rem,
    Fail,
    Fence,
    Cut(PatId),
    Abort,
    Succeed,
    Arbno(PatId),
    /// With the bytes with which it begins.
    Alt(PatId, PatId, FirstBytes),
    Cat(PatId, PatId),
    Cond(PatId, Name),
    Imm(PatId, Name),
    Cursor(Name),
    Defer(ExprId),
    DeferPrim(Prim, ExprId),
}

/// A node of the table. Whether its tree is quiet is kept beside it, since trees are too deep to be walked.
#[derive(Drop)]
pub(crate) struct Entry {
    pub(crate) kind: Kind,
    pub(crate) quiet: bool,
    /// Where its runs are remembered, which it shares with equal nodes (`numbers`).
    pub(crate) number: u32,
}

/// Whether two nodes are the same primitive with the same set of bytes.
pub(crate) fn is_same_search(kind: &Kind, other: &Kind) -> bool
    ensures { IsTrue result → node_of kind.now ≡ node_of other.now }
{
    match kind {
        Kind::Among(prim, set) => match other {
            Kind::Among(other_prim, other_set) => prim == other_prim && set.is_same(other_set),
            _ => false,
        },
        _ => false,
    }
}

/// The head of a node.
pub(crate) fn shape_of_kind(kind: &Kind) -> Shape
    ensures { result ≡ shape_of (node_of kind.now) }
{
    match kind {
        Kind::Fence => Shape::Fence,
        Kind::Cut(p) => Shape::Cut(*p),
        Kind::Abort => Shape::Abort,
        Kind::Succeed => Shape::Succeed,
        Kind::Arbno(p) => Shape::Arbno(*p),
        Kind::Alt(p, q, _begins) => Shape::Alt(*p, *q),
        Kind::Cat(p, q) => Shape::Cat(*p, *q),
        Kind::Cond(p, target) => Shape::Cond(*p, *target),
        Kind::Imm(p, target) => Shape::Imm(*p, *target),
        Kind::Cursor(target) => Shape::Cursor(*target),
        Kind::Defer(e) => Shape::Defer(*e),
        Kind::DeferPrim(prim, e) => Shape::DeferPrim(*prim, *e),
        _ => Shape::Primitive,
    }
}

/// Whether a node over these entries is quiet.
pub(crate) fn is_quiet_over(entries: &[Entry], kind: &Kind) -> bool
    requires { PartsBelow (node_of kind.now) (length entries.now) }
    ensures { result ≡ quiet_over (flags_of entries.now) (node_of kind.now) }
{
    match kind {
        Kind::Fence | Kind::Abort | Kind::Succeed | Kind::Defer(_) | Kind::DeferPrim(_, _) => false,
        Kind::Cut(p) | Kind::Arbno(p) | Kind::Cond(p, _) | Kind::Imm(p, _) =>
            entries[p.0 as usize].quiet,
        Kind::Alt(p, q, _) | Kind::Cat(p, q) => {
            entries[p.0 as usize].quiet && entries[q.0 as usize].quiet
        }
        _ => true,
    }
}
