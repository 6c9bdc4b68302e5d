//! What a pattern comes to at a cursor.
ghost use Rattle.std.specs.Prelude.{◌≡◌, ℕ, ◌≤◌, ◌+◌, length, slice_get, Some};
ghost use Rattle.sno_pattern.specs.Pattern.{Arb};
ghost use Rattle.sno_pattern.specs.Ends.{ends};
ghost use Rattle.sno_pattern.specs.inner.Shape.{IsHead};
ghost use Rattle.sno_pattern.specs.inner.Kinds.{node_of};

use crate::counts::count_end;
use crate::ends::{byte_end, is_long, text_end};
use crate::kind::{Kind, shape_of_kind};
use crate::sets::{any_end, not_any_end};
use crate::shape::Shape;
use sno_value::Prim;

/// What a pattern comes to at a cursor, as far as one look at its node tells it.
#[derive(Clone, Copy, Debug, PartialEq, Eq)]
pub enum Head {
    /// A primitive: the end that is tried first, and the one behind it.
    Ends {
        first: Option<usize>,
        next: Option<usize>,
    },
    /// Any other pattern, and a primitive whose ends may be far.
    Other(Shape),
}

/// What a node comes to at a cursor.
#[inline(always)]
pub(crate) fn head_of_kind(kind: &Kind, subject: &[u8], at: usize) -> Head
    requires { at ≤ length subject.now }
    ensures { IsHead (node_of kind.now) subject.now at result }
{
    match kind {
        Kind::Text(text) => {
            let text = text.as_slice();
            if text.len() == 1 {
                let first = byte_end(text, subject, at);
                return Head::Ends { first, next: None };
            }
            if is_long(text) {
                return Head::Other(Shape::Primitive);
            }
            let first = text_end(text, subject, at);
            Head::Ends { first, next: None }
        }
        Kind::Counted(prim, n) => {
            let first = count_end(*prim, *n, subject, at);
            Head::Ends { first, next: None }
        }
        Kind::Among(prim, set) => match prim {
            Prim::Any => {
                let first = any_end(set, subject, at);
                Head::Ends { first, next: None }
            }
            Prim::NotAny => {
                let first = not_any_end(set, subject, at);
                Head::Ends { first, next: None }
            }
            _ => Head::Other(Shape::Primitive),
        },
        Kind::Arb => {
            let first = Some(at);
            let next = behind_in_arb(subject, at);
            Head::Ends { first, next }
        }
        Kind::Rem => {
            let first = Some(subject.len());
            Head::Ends { first, next: None }
        }
        Kind::Fail => Head::Ends {
            first: None,
            next: None,
        },
        _ => Head::Other(shape_of_kind(kind)),
    }
}

/// ARB's end behind another.
#[inline(always)]
pub(crate) fn behind_in_arb(subject: &[u8], last: usize) -> Option<usize>
    ensures { (c i : ℕ) → c ≤ length subject.now → slice_get (ends Arb subject.now c) i ≡ Some last
        → slice_get (ends Arb subject.now c) (i + 1) ≡ result }
{
    if last < subject.len() {
        Some(last + 1)
    } else {
        None
    }
}
