//! Items that a pattern assigns to by a name that it sets itself: the item is named before the match.
use crate::names::Names;
use crate::survey::{MOST_STATEMENTS, Place, node_at, part};
use crate::uses::target_at;
use crate::warnings::Warnings;
use sno_text::{Node, Program, Statement};
use sno_value::ExprId;
use std::alloc::{AllocError, Global};

/// Warns of items.
pub fn warn(
    alloc: Global,
    text: &[u8],
    program: &Program,
    warnings: &mut Warnings,
) -> Result<(), AllocError> {
    for number in 1..MOST_STATEMENTS + 1 {
        let Some(statement) = program.statement(number) else {
            return Ok(());
        };
        let place = Place {
            line: statement.line,
            number,
        };
        if let Some((first, end)) = nodes_of(statement) {
            let set = set_names(alloc, text, program, first, end)?;
            if set.is_empty() {
                continue;
            }
            warn_of_items(place, text, program, first, end, &set, warnings)?;
        }
    }
    Ok(())
}

/// The numbers of the nodes of a statement's core, up to one behind the last.
fn nodes_of(statement: &Statement) -> Option<(u32, u32)> {
    let core = statement.core?;
    let mut last = core.subject.0;
    if let Some(pattern) = core.pattern {
        last = pattern.0;
    }
    if let Some(object) = core.object {
        last = object.0;
    }
    Some((core.subject.0, last.saturating_add(1)))
}

/// The target of a node that assigns within a pattern.
fn target_of(program: &Program, id: u32) -> Option<&Node> {
    node_at(program, target_at(program, id)?)
}

/// The variables that these nodes set.
fn set_names(
    alloc: Global,
    text: &[u8],
    program: &Program,
    first: u32,
    end: u32,
) -> Result<Names, AllocError> {
    let mut names = Names::new(alloc);
    for id in first..end {
        if let Some(Node::Variable(name)) = target_of(program, id) {
            names.add(part(text, *name))?;
        }
    }
    Ok(names)
}

/// Warns of each item that these nodes set by one of the names.
fn warn_of_items(
    place: Place,
    text: &[u8],
    program: &Program,
    first: u32,
    end: u32,
    set: &Names,
    warnings: &mut Warnings,
) -> Result<(), AllocError> {
    for id in first..end {
        if let Some(Node::Item(name, subscripts)) = target_of(program, id) {
            if let Some(other) = subscript_of(text, program, subscripts.as_slice(), set) {
                warnings.add_with_other(
                    place,
                    b"the item of ",
                    part(text, *name),
                    b" is named before the match, with the value that ",
                    other,
                    b" has then",
                )?;
            }
        }
    }
    Ok(())
}

/// The first of some subscripts that is one of these names.
fn subscript_of<'a>(
    text: &'a [u8],
    program: &Program,
    subscripts: &[ExprId],
    names: &Names,
) -> Option<&'a [u8]> {
    for subscript in subscripts {
        if let Some(Node::Variable(name)) = node_at(program, subscript.0) {
            let name = part(text, *name);
            if names.count(name) > 0 {
                return Some(name);
            }
        }
    }
    None
}
