//! What an error is, and the names in a program that it may be of.
ghost use Rattle.std.specs.Prelude.{◌≡◌, [], false, IfOk};
ghost use Rattle.sno_advice.specs.inner.Errors.{is_error};

use crate::definitions::{Definitions, find_definitions};
use crate::explained::explanation;
use crate::survey::{
    Place, count_statements, digits_of, label_of, node_at, node_places, part, place_of, targets_of,
};
use crate::uses::target_at;
use crate::words::{FIXED_KEYWORDS, FUNCTIONS, KEYWORDS, RETURNS, is_one_of};
use sno_text::{Node, Program, Statement, Target, UnaryOperator};
use std::alloc::{AllocError, Global};

/// What is told of an error by its number; nothing where there is no such error.
pub fn explain(alloc: Global, error: u32) -> Result<Vec<u8>, AllocError>
    ensures { is_error error ≡ false → IfOk result (λ told. told.items ≡ []) }
{
    let text = match explanation(error) {
        Some(text) => text,
        None => "",
    };
    let told = text.as_bytes().to_vec(alloc)?;
    Ok(told)
}

/// Appends the names that an error may be of, a line each: those of a statement, or of the whole program.
pub fn push_names(
    alloc: Global,
    told: &mut Vec<u8>,
    text: &[u8],
    program: &Program,
    error: u32,
    number: Option<u32>,
) -> Result<(), AllocError> {
    let places = node_places(alloc, program)?;
    let defined = find_definitions(alloc, text, program)?;
    for id in 0..program.nodes() {
        let place = place_of(places.as_slice(), id);
        if !is_asked(place.number, number) {
            continue;
        }
        if let Some(name) = name_at(text, program, id, error, &defined) {
            push_name(alloc, told, place, name)?;
        }
    }
    push_of_statements(alloc, told, text, program, error, number)
}

/// Appends the names that statements have by themselves.
fn push_of_statements(
    alloc: Global,
    told: &mut Vec<u8>,
    text: &[u8],
    program: &Program,
    error: u32,
    asked: Option<u32>,
) -> Result<(), AllocError> {
    for number in 1..count_statements(program).saturating_add(1) {
        if !is_asked(number, asked) {
            continue;
        }
        if let Some(statement) = program.statement(number) {
            push_of_statement(alloc, told, text, program, error, number, statement)?;
        }
    }
    Ok(())
}

/// Whether a statement is asked for.
fn is_asked(number: u32, asked: Option<u32>) -> bool {
    match asked {
        Some(asked) => asked == number,
        None => true,
    }
}

/// Appends a name with its statement.
fn push_name(
    alloc: Global,
    told: &mut Vec<u8>,
    place: Place,
    name: &[u8],
) -> Result<(), AllocError> {
    told.extend_from_slice(b"line ")?;
    let line = digits_of(alloc, place.line)?;
    told.extend_from_slice(line.as_slice())?;
    told.extend_from_slice(b", statement ")?;
    let number = digits_of(alloc, place.number)?;
    told.extend_from_slice(number.as_slice())?;
    told.extend_from_slice(b": ")?;
    told.extend_from_slice(name)?;
    told.push(b'\n')?;
    Ok(())
}

/// The name of a node that an error may be of.
fn name_at<'a>(
    text: &'a [u8],
    program: &Program,
    id: u32,
    error: u32,
    defined: &Definitions,
) -> Option<&'a [u8]> {
    match (error, node_at(program, id)) {
        (4, Some(Node::Call(name, _))) => {
            let name = part(text, *name);
            let is_there = is_one_of(name, FUNCTIONS) || defined.names.count(name) > 0;
            if is_there { None } else { Some(name) }
        }
        (14, Some(Node::Keyword(name))) => {
            let name = part(text, *name);
            if is_one_of(name, KEYWORDS) {
                None
            } else {
                Some(name)
            }
        }
        (15, Some(Node::Unary(UnaryOperator::NameOf, target))) => {
            nameless(text, program, target.0, defined)
        }
        (15, Some(_)) => nameless(text, program, target_at(program, id)?, defined),
        _ => None,
    }
}

/// What stands in the place of a variable, and has no name.
fn nameless<'a>(
    text: &'a [u8],
    program: &Program,
    id: u32,
    defined: &Definitions,
) -> Option<&'a [u8]> {
    match node_at(program, id) {
        Some(Node::Literal(span) | Node::Keyword(span)) => Some(part(text, *span)),
        Some(Node::Call(name, _)) => {
            let name = part(text, *name);
            if defined.names.count(name) > 0 {
                None
            } else {
                Some(name)
            }
        }
        Some(Node::Integer(_)) => Some(b"a number"),
        Some(Node::Unary(UnaryOperator::Defer, inner)) => match node_at(program, inner.0) {
            Some(Node::Variable(name) | Node::Call(name, _)) => Some(part(text, *name)),
            _ => Some(b"an expression that is not evaluated"),
        },
        _ => None,
    }
}

/// Appends the names that a statement by itself has: labels that aren't there, computed gotos, and what is set.
fn push_of_statement(
    alloc: Global,
    told: &mut Vec<u8>,
    text: &[u8],
    program: &Program,
    error: u32,
    number: u32,
    statement: &Statement,
) -> Result<(), AllocError> {
    let place = Place {
        line: statement.line,
        number,
    };
    let (first, second) = targets_of(statement.jump);
    if let Some(name) = name_of_target(text, program, first, error) {
        push_name(alloc, told, place, name)?;
    }
    if let Some(name) = name_of_target(text, program, second, error) {
        push_name(alloc, told, place, name)?;
    }
    if let Some(name) = name_set(text, program, statement, error) {
        push_name(alloc, told, place, name)?;
    }
    Ok(())
}

/// The name of a target that an error may be of.
fn name_of_target<'a>(
    text: &'a [u8],
    program: &Program,
    target: Option<Target>,
    error: u32,
) -> Option<&'a [u8]> {
    match (error, target) {
        (5, Some(Target::Label(_))) => {
            let label = label_of(text, target)?;
            let is_there = program.label(label).is_some() || is_one_of(label, RETURNS);
            if is_there { None } else { Some(label) }
        }
        (11, Some(Target::Computed(id))) => match node_at(program, id.0) {
            Some(Node::Variable(name) | Node::Item(name, _) | Node::Call(name, _)) => {
                Some(part(text, *name))
            }
            _ => Some(b"the expression behind $"),
        },
        _ => None,
    }
}

/// The name of what a statement sets and can't.
fn name_set<'a>(
    text: &'a [u8],
    program: &Program,
    statement: &Statement,
    error: u32,
) -> Option<&'a [u8]> {
    let core = statement.core?;
    if !core.equals {
        return None;
    }
    match (error, node_at(program, core.subject.0)) {
        (14, Some(Node::Keyword(name))) => {
            let name = part(text, *name);
            let is_fixed = is_one_of(name, FIXED_KEYWORDS) || name == b"STLIMIT".as_slice();
            if is_fixed { Some(name) } else { None }
        }
        (15, Some(Node::Literal(span))) => Some(part(text, *span)),
        (15, Some(Node::Integer(_))) => Some(b"a number"),
        (15, Some(Node::Call(name, _))) => Some(part(text, *name)),
        _ => None,
    }
}
