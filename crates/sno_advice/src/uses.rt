//! What a program names, sets and defines, as far as its text tells.
use crate::definitions::{first_word, prototype_at};
use crate::names::{Folded, Names};
use crate::survey::{MOST_STATEMENTS, node_at, part};
use sno_text::{Node, Operator, Program, UnaryOperator};
use std::alloc::{AllocError, Global};

/// The names of a program.
#[derive(Drop)]
pub struct Uses {
    /// All names and words of its expressions.
    pub named: Names,
    /// The variables that it sets by themselves.
    pub set: Names,
    /// The same, to be found by others in other letters.
    pub folded: Folded,
    /// All words of its literals, which may name variables.
    pub words: Names,
    /// The functions and types that its prototypes define.
    pub functions: Names,
    /// Whether it sets variables by computed names.
    pub is_open: bool,
}

/// What a program names.
pub fn find_uses(alloc: Global, text: &[u8], program: &Program) -> Result<Uses, AllocError> {
    let mut uses = Uses {
        named: Names::new(alloc),
        set: Names::new(alloc),
        folded: Folded::new(alloc),
        words: Names::new(alloc),
        functions: Names::new(alloc),
        is_open: false,
    };
    learn_nodes(text, program, &mut uses)?;
    learn_statements(text, program, &mut uses)?;
    Ok(uses)
}

/// Learns from each node by itself.
fn learn_nodes(text: &[u8], program: &Program, uses: &mut Uses) -> Result<(), AllocError> {
    for id in 0..program.nodes() {
        match node_at(program, id) {
            Some(Node::Variable(name) | Node::Item(name, _) | Node::Call(name, _)) => {
                uses.named.add(part(text, *name))?;
            }
            Some(Node::Literal(span)) => {
                uses.named.add_words(part(text, *span))?;
                uses.words.add_words(part(text, *span))?;
            }
            Some(Node::Unary(UnaryOperator::NameOf, target)) => {
                learn_target(text, program, target.0, uses)?;
            }
            _ => {}
        }
        if let Some(target) = target_at(program, id) {
            learn_target(text, program, target, uses)?;
        }
        if let Some(prototype) = prototype_at(text, program, id) {
            uses.functions.add(first_word(prototype))?;
        }
    }
    Ok(())
}

/// The number of the node that a node of a pattern assigns to.
pub fn target_at(program: &Program, id: u32) -> Option<u32> {
    match node_at(program, id) {
        Some(
            Node::Binary(Operator::Conditional | Operator::Immediate, _, target)
            | Node::Unary(UnaryOperator::Cursor, target),
        ) => Some(target.0),
        _ => None,
    }
}

/// Learns from what statements set.
fn learn_statements(text: &[u8], program: &Program, uses: &mut Uses) -> Result<(), AllocError> {
    for number in 1..MOST_STATEMENTS + 1 {
        let Some(statement) = program.statement(number) else {
            return Ok(());
        };
        if let Some(core) = statement.core {
            if core.equals {
                learn_target(text, program, core.subject.0, uses)?;
            }
        }
    }
    Ok(())
}

/// Learns that a node is set.
fn learn_target(
    text: &[u8],
    program: &Program,
    id: u32,
    uses: &mut Uses,
) -> Result<(), AllocError> {
    match node_at(program, id) {
        Some(Node::Variable(name)) => {
            uses.set.add(part(text, *name))?;
            uses.folded.add(part(text, *name))?;
        }
        Some(Node::Unary(UnaryOperator::Indirect, _)) => uses.is_open = true,
        _ => {}
    }
    Ok(())
}
