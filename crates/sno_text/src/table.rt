//! The table of nodes as it grows, and what a part of the text was read as.
ghost use Rattle.std.specs.Prelude.{◌≡◌, ◌+◌, ◌^◌, ◌<◌, ◌∷◌, ◌++◌, ◌&&◌, [], length, OnOk, OnErr, IfOk};
ghost use Rattle.sno_text.specs.inner.Parsed.{applied_node};

use crate::node::{Node, Operator, Span};
use sno_value::ExprId;
use std::alloc::AllocError;

/// What a part of the text was read as.
#[derive(Clone, Copy)]
pub struct Found {
    /// The expression.
    pub id: ExprId,
    /// Where it ends.
    pub end: usize,
    /// Whether each integer is in range.
    pub fits: bool,
}

/// What a list of arguments was read as.
#[derive(Drop)]
pub struct FoundList {
    /// The arguments.
    pub ids: Vec<ExprId>,
    /// Where the last one ends.
    pub end: usize,
    /// Whether each integer is in range.
    pub fits: bool,
}

/// What a part of a statement was read as.
#[derive(Clone, Copy)]
pub struct Read<T> {
    pub what: T,
    /// Where it ends.
    pub end: usize,
    /// Whether each integer is in range.
    pub fits: bool,
}

/// Appends a node.
pub fn push_node(nodes: &mut Vec<Node>, node: Node) -> Result<ExprId, AllocError>
    requires { length nodes.old.items < 2 ^ 32 }
    ensures pushed { IfOk result (λ id. (id.0 ≡ length nodes.old.items)
        × (nodes.new.items ≡ nodes.old.items ++ node ∷ [])) }
    ensures err { OnErr result (nodes.new.items ≡ nodes.old.items) }
{
    let id = ExprId(nodes.len() as u32);
    nodes.push(node)?;
    Ok(id)
}

/// Appends the node of an operator between two operands.
pub fn push_binary(
    nodes: &mut Vec<Node>,
    operator: Operator,
    left: Found,
    right: Found,
) -> Result<Found, AllocError>
    requires { length nodes.old.items < 2 ^ 32 }
    ensures id { IfOk result (λ f. f.id.0 ≡ length nodes.old.items) }
    ensures end { IfOk result (λ f. f.end ≡ right.end) }
    ensures fits { IfOk result (λ f. f.fits ≡ (left.fits && right.fits)) }
    ensures pushed { OnOk result (nodes.new.items ≡ nodes.old.items ++ Node.Binary operator left.id right.id ∷ []) }
    ensures err { OnErr result (nodes.new.items ≡ nodes.old.items) }
{
    let id = push_node(nodes, Node::Binary(operator, left.id, right.id))?;
    Ok(Found {
        id,
        end: right.end,
        fits: left.fits && right.fits,
    })
}

/// Appends the node of a name with arguments in brackets.
pub fn push_applied(
    nodes: &mut Vec<Node>,
    opening: u8,
    span: Span,
    ids: Vec<ExprId>,
) -> Result<ExprId, AllocError>
    requires { length nodes.old.items < 2 ^ 32 }
    ensures id { IfOk result (λ id. id.0 ≡ length nodes.old.items) }
    ensures pushed { OnOk result (nodes.new.items ≡ nodes.old.items ++ applied_node opening span ids ∷ []) }
    ensures err { OnErr result (nodes.new.items ≡ nodes.old.items) }
{
    if opening == b'(' {
        push_node(nodes, Node::Call(span, ids))
    } else {
        push_node(nodes, Node::Item(span, ids))
    }
}

/// Whether both are true.
pub fn both(first: bool, second: bool) -> bool
    ensures { result ≡ (first && second) }
{
    first && second
}
