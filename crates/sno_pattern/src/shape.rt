//! The head of a pattern.
use sno_value::{ExprId, Name, PatId, Prim};

/// A pattern's head, with the numbers of its parts.
#[derive(Clone, Copy, Debug, PartialEq, Eq)]
pub enum Shape {
    /// A text, a primitive with a count or a set, ARB, BAL, REM or FAIL.
    Primitive,
    /// P Q
    Cat(PatId, PatId),
    /// P | Q
    Alt(PatId, PatId),
    /// ARBNO(P)
    Arbno(PatId),
    /// P . N
    Cond(PatId, Name),
    /// P $ N
    Imm(PatId, Name),
    /// @N
    Cursor(Name),
    /// FENCE
    Fence,
    /// FENCE(P): a cut
    Cut(PatId),
    /// ABORT
    Abort,
    /// SUCCEED
    Succeed,
    /// *E
    Defer(ExprId),
    /// A primitive whose argument is *E.
    DeferPrim(Prim, ExprId),
}
