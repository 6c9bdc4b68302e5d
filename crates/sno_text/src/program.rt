//! What the reader gives.
ghost use Rattle.std.specs.Prelude.{◌≡◌, ◌≤◌, ◌<◌, ◌-◌, ◌^◌, ◌==◌, ℕ, length, None, Some, IfSome, IfNone};
ghost use Rattle.std.specs.Prelude.{if◌then◌else◌, option_copied, slice_get, slice_range};
ghost use Rattle.sno_text.specs.Program.{IsTable, OperandsBelow, SpansWithin, IsStatementOf, IsLabelled};
ghost use Rattle.sno_text.specs.inner.Program.{IsWhole};

use crate::node::{Node, Span};
use crate::statement::Statement;
use sno_value::ExprId;
use std::collections::BTreeMap;
use std::marker::Model;

/// A text that was read: the nodes of its expressions, numbered from 0, and its statements, numbered from 1. The
/// operands of a node have smaller numbers than it, and all spans lie in the text.
#[derive(Drop)]
pub struct Program {
    text: Vec<u8>,
    nodes: Vec<Node>,
    statements: Vec<Statement>,
    labels: BTreeMap<Vec<u8>, u32>,
}

impl Model for Program {
    ghost use Rattle.sno_text.specs.Program.{Program};
    ghost use Rattle.sno_text.specs.inner.Program.{IsWhole};

    ghost Value = { Program };

    ghost view = { λ p. record { text = p.text.items; nodes = p.nodes.items; statements = p.statements.items } };

    ghost invariant = { λ p. IsWhole p.text.items p.nodes.items p.statements.items p.labels.entries };
}

impl Program {
    /// A program of its parts, where `labels` has the numbers of the statements by their labels.
    pub(crate) fn new(
        text: Vec<u8>,
        nodes: Vec<Node>,
        statements: Vec<Statement>,
        labels: BTreeMap<Vec<u8>, u32>,
    ) -> Program
        requires { IsWhole text.items nodes.items statements.items labels.entries }
        ensures text { result.text ≡ text.items }
        ensures nodes { result.nodes ≡ nodes.items }
        ensures statements { result.statements ≡ statements.items }
    {
        Program {
            text,
            nodes,
            statements,
            labels,
        }
    }

    /// How many nodes there are.
    pub fn nodes(&self) -> u32
        ensures count { result ≡ length self.now.nodes }
        ensures table { IsTable (length self.now.text) self.now.nodes }
    {
        self.nodes.len() as u32
    }

    /// The node with a number of this table.
    pub fn node(&self, id: ExprId) -> &Node
        requires { id.0 < length self.now.nodes }
        ensures node { slice_get self.now.nodes id.0 ≡ Some result.now }
        ensures operands { OperandsBelow result.now id.0 }
        ensures spans { SpansWithin result.now (length self.now.text) }
    {
        &self.nodes[id.0 as usize]
    }

    /// The bytes of the text that lie in a span: those of a token of this text, and null where there are none.
    #[tactic(auto, using(crate::proofs::Spans::clamped_range))]
    pub fn text(&self, span: Span) -> &[u8]
        ensures { result.now ≡ slice_range self.now.text span.start span.end }
    {
        let end = span.end.min(self.text.len());
        let start = span.start.min(end);
        &self.text.as_slice()[start..end]
    }

    /// The statement with this number, from 1; None where there are fewer, and at 0. A program has at most 100,000.
    pub fn statement(&self, number: u32) -> Option<&Statement>
        ensures statement { option_copied result
            ≡ (if number == 0 then None else slice_get self.now.statements (number - 1)) }
        ensures sound { IfSome result (λ st. IsStatementOf (length self.now.text) (length self.now.nodes) st.now) }
        ensures count { length self.now.statements ≤ 100000 }
    {
        let statements = self.statements.as_slice();
        if number == 0 {
            return None;
        }
        statements.get(number as usize - 1)
    }

    /// The number of the statement with this label, END among them; None where no statement has it. No two statements
    /// have the same label.
    pub fn label(&self, name: &[u8]) -> Option<u32>
        ensures found { IfSome result (λ n. IsLabelled self.now.text self.now.statements name.now n) }
        ensures only { IfSome result (λ n. (m : ℕ) → IsLabelled self.now.text self.now.statements name.now m → m ≡ n) }
        ensures none { IfNone result ((n : ℕ) → IsLabelled self.now.text self.now.statements name.now n → ⊥) }
    {
        self.labels.get(name).copied()
    }
}
