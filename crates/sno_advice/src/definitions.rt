//! The functions and types that a program defines, as far as its text tells.
use crate::names::Names;
use crate::survey::{node_at, part};
use crate::words::{is_one_of, word_at};
use sno_text::{Node, Program};
use sno_value::ExprId;
use std::alloc::{AllocError, Global};

/// The functions whose first argument defines names.
pub const DEFINING: &[u8] = b"DEFINE DATA";

/// The words of all prototypes and entry labels that are literals.
#[derive(Drop)]
pub struct Definitions {
    pub names: Names,
    /// Whether a prototype or an entry label is no literal, so that it may define any name.
    pub is_open: bool,
}

/// What a program defines.
pub fn find_definitions(
    alloc: Global,
    text: &[u8],
    program: &Program,
) -> Result<Definitions, AllocError> {
    let mut definitions = Definitions {
        names: Names::new(alloc),
        is_open: false,
    };
    for id in 0..program.nodes() {
        match node_at(program, id) {
            Some(Node::Call(name, arguments)) if is_one_of(part(text, *name), DEFINING) => {
                add_arguments(text, program, arguments.as_slice(), &mut definitions)?;
            }
            // (a call that is none for a blank before its parenthesis)
            Some(Node::Variable(name)) if is_one_of(part(text, *name), DEFINING) => {
                definitions.is_open = true;
            }
            _ => {}
        }
    }
    Ok(definitions)
}

/// Adds what the arguments of a definition name.
fn add_arguments(
    text: &[u8],
    program: &Program,
    arguments: &[ExprId],
    definitions: &mut Definitions,
) -> Result<(), AllocError> {
    for argument in arguments {
        match node_at(program, argument.0) {
            Some(Node::Literal(span)) => definitions.names.add_words(part(text, *span))?,
            _ => definitions.is_open = true,
        }
    }
    Ok(())
}

/// The prototype of a node that defines a function or a type by a literal.
pub fn prototype_at<'a>(text: &'a [u8], program: &Program, id: u32) -> Option<&'a [u8]> {
    let Some(Node::Call(name, arguments)) = node_at(program, id) else {
        return None;
    };
    if !is_one_of(part(text, *name), DEFINING) {
        return None;
    }
    literal_at(text, program, arguments.as_slice(), 0)
}

/// An argument that is a literal, by its place.
pub fn literal_at<'a>(
    text: &'a [u8],
    program: &Program,
    arguments: &[ExprId],
    at: usize,
) -> Option<&'a [u8]> {
    let argument = arguments.get(at)?;
    match node_at(program, argument.0) {
        Some(Node::Literal(span)) => Some(part(text, *span)),
        _ => None,
    }
}

/// The first word of a prototype: the name that it defines.
pub fn first_word(prototype: &[u8]) -> &[u8] {
    match word_at(prototype, 0) {
        Some(word) => word,
        None => b"".as_slice(),
    }
}
