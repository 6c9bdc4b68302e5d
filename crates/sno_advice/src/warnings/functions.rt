//! Functions that nothing defines.
use crate::definitions::Definitions;
use crate::names::Folded;
use crate::survey::{Place, node_at, part, place_of};
use crate::uses::Uses;
use crate::warnings::Warnings;
use crate::words::{FUNCTIONS, in_capitals, is_one_of};
use sno_text::{Node, Program};
use sno_value::ExprId;
use std::alloc::{AllocError, Global};

/// Warns of calls of functions that neither the language has nor a literal of the program defines.
pub fn warn(
    alloc: Global,
    text: &[u8],
    program: &Program,
    places: &[Place],
    defined: &Definitions,
    uses: &Uses,
    warnings: &mut Warnings,
) -> Result<(), AllocError> {
    if defined.is_open {
        return Ok(());
    }
    let mut others = Folded::new(alloc);
    others.add_all(&uses.functions)?;
    for id in 0..program.nodes() {
        if let Some(Node::Call(name, arguments)) = node_at(program, id) {
            let name = part(text, *name);
            if !is_there(name, defined) {
                let place = place_of(places, id);
                match others.other(name)? {
                    Some(other) => tell_other(place, name, other, warnings)?,
                    None => tell(
                        place,
                        name,
                        hint(text, program, name, arguments.as_slice(), uses),
                        warnings,
                    )?,
                }
            }
        }
    }
    Ok(())
}

/// Tells of a function.
fn tell(
    place: Place,
    name: &[u8],
    behind: &[u8],
    warnings: &mut Warnings,
) -> Result<(), AllocError> {
    warnings.add(place, b"there is no function ", name, behind)
}

/// Tells of a function, and of one that differs from it in large and small letters.
fn tell_other(
    place: Place,
    name: &[u8],
    other: &[u8],
    warnings: &mut Warnings,
) -> Result<(), AllocError> {
    warnings.add_with_other(
        place,
        b"there is no function ",
        name,
        b": to call it is error 4, and ",
        other,
        b" is another function",
    )
}

/// What a call of a function that isn't there may be meant to be.
fn hint(
    text: &[u8],
    program: &Program,
    name: &[u8],
    arguments: &[ExprId],
    uses: &Uses,
) -> &'static [u8] {
    let is_goto = name == b"S".as_slice() || name == b"F".as_slice();
    if is_goto && names_label(text, program, arguments.first()) {
        return b": to call it is error 4, and a goto has a colon";
    }
    if uses.set.count(name) > 0 {
        return b": to call it is error 4, and subscripts stand in < and >";
    }
    b": to call it is error 4"
}

/// Whether an argument is the name of a label.
fn names_label(text: &[u8], program: &Program, argument: Option<&ExprId>) -> bool {
    let Some(argument) = argument else {
        return false;
    };
    match node_at(program, argument.0) {
        Some(Node::Variable(name)) => program.label(part(text, *name)).is_some(),
        _ => false,
    }
}

/// Whether a function is there, or would be in capitals.
fn is_there(name: &[u8], defined: &Definitions) -> bool {
    is_one_of(name, FUNCTIONS)
        || defined.names.count(name) > 0
        || in_capitals(name, FUNCTIONS).is_some()
}
