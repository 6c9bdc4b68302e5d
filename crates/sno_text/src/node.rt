//! Expressions as numbered nodes.
use sno_value::ExprId;

/// A binary operator.
#[derive(Clone, Copy, Debug, PartialEq, Eq)]
pub enum Operator {
    /// `P | Q`
    Alternate,
    /// `X Y`
    Concatenate,
    /// `X + Y`
    Add,
    /// `X - Y`
    Subtract,
    /// `X / Y`
    Divide,
    /// `X * Y`
    Multiply,
    /// `X ** Y`
    Power,
    /// `P . X`, assigned when the whole match succeeds
    Conditional,
    /// `P $ X`, assigned as soon as P matches
    Immediate,
}

/// A unary operator.
#[derive(Clone, Copy, Debug, PartialEq, Eq)]
pub enum UnaryOperator {
    /// `+X`
    Plus,
    /// `-X`
    Minus,
    /// `$X`, the variable that X names
    Indirect,
    /// `.X`, the name of X
    NameOf,
    /// `*E`, E unevaluated
    Defer,
    /// `@X`, the cursor's position
    Cursor,
    /// `?E`, null where E succeeds
    Query,
    /// `~E`, null where E fails
    Not,
}

/// Where a token stands in the text: from `start` up to `end`, counted in bytes from 0.
#[derive(Clone, Copy, Debug, PartialEq, Eq)]
pub struct Span {
    pub start: usize,
    pub end: usize,
}

/// An expression, by the numbers of its operands, each of which is smaller than its own.
#[derive(Debug, Drop)]
pub enum Node {
    /// A variable by its name.
    Variable(Span),
    Integer(i64),
    /// What stands between the quotes; empty for an argument that is left out.
    Literal(Span),
    /// `&K`, by the name K.
    Keyword(Span),
    Unary(UnaryOperator, ExprId),
    Binary(Operator, ExprId, ExprId),
    /// `F(..)`: the function's name and its arguments.
    Call(Span, Vec<ExprId>),
    /// `A<..>` or `A[..]`: the variable's name and the subscripts.
    Item(Span, Vec<ExprId>),
}
