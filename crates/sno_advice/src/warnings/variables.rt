//! Variables that a program names once, or reads and doesn't set.
use crate::cards::is_blank;
use crate::definitions::Definitions;
use crate::furthest::{byte_at, tail};
use crate::names::Names;
use crate::survey::{Place, node_at, part, place_of};
use crate::uses::Uses;
use crate::warnings::Warnings;
use crate::words::{FUNCTIONS, VARIABLES, in_capitals, is_one_of};
use sno_text::{Node, Program, Span};
use std::alloc::{AllocError, Global};

/// Warns of variables, of each that is set nowhere where it first stands.
pub fn warn(
    alloc: Global,
    text: &[u8],
    program: &Program,
    places: &[Place],
    defined: &Definitions,
    uses: &Uses,
    warnings: &mut Warnings,
) -> Result<(), AllocError> {
    let mut told = Names::new(alloc);
    let is_open = defined.is_open || uses.is_open;
    for id in 0..program.nodes() {
        if let Some(span) = variable_at(program, id) {
            let name = part(text, span);
            let place = place_of(places, id);
            if is_call(text, span, uses) {
                warnings.add(
                    place,
                    b"a blank before ( makes no call: ",
                    name,
                    b" is a variable here",
                )?;
            } else if !is_known(name) && told.count(name) == 0 {
                told.add(name)?;
                tell(place, text, program, span, uses, is_open, warnings)?;
            }
        }
    }
    Ok(())
}

/// Whether a name is that of a function, with blanks and `(` behind it.
fn is_call(text: &[u8], span: Span, uses: &Uses) -> bool {
    let name = part(text, span);
    let is_function = is_one_of(name, FUNCTIONS) || uses.functions.count(name) > 0;
    is_function && !is_one_of(name, VARIABLES) && stands_before_bracket(text, span.end)
}

/// Tells of a variable that is set nowhere, or named once.
fn tell(
    place: Place,
    text: &[u8],
    program: &Program,
    span: Span,
    uses: &Uses,
    is_open: bool,
    warnings: &mut Warnings,
) -> Result<(), AllocError> {
    let name = part(text, span);
    let is_once = uses.named.count(name) == 1;
    if is_open || is_set(uses, name) {
        return if is_once {
            warnings.add(place, b"the variable ", name, b" is named once")
        } else {
            Ok(())
        };
    }
    if program.label(name).is_some() && byte_at(text, span.start.saturating_sub(1)) == b'(' {
        return warnings.add(
            place,
            b"a goto has a colon before its (: the label ",
            name,
            b" is a variable here",
        );
    }
    tell_unset(place, name, is_once, uses, warnings)
}

/// Tells of a variable that is set nowhere.
fn tell_unset(
    place: Place,
    name: &[u8],
    is_once: bool,
    uses: &Uses,
    warnings: &mut Warnings,
) -> Result<(), AllocError> {
    match uses.folded.other(name)? {
        Some(other) => warnings.add_with_other(
            place,
            b"the variable ",
            name,
            b" is set nowhere, and ",
            other,
            b" is another one",
        ),
        None if is_once => warnings.add(place, b"the variable ", name, b" is named once"),
        None if name == b"NULL".as_slice() => Ok(()),
        None => warnings.add(
            place,
            b"the variable ",
            name,
            b" is read and set nowhere: it is null",
        ),
    }
}

/// Whether blanks and then `(` stand at a place.
fn stands_before_bracket(text: &[u8], at: usize) -> bool {
    let mut blanks: usize = 0;
    for byte in tail(text, at) {
        if !is_blank(*byte) {
            return blanks > 0 && *byte == b'(';
        }
        blanks = blanks.saturating_add(1);
    }
    false
}

/// The name of a node that is a variable, or an item of one.
fn variable_at(program: &Program, id: u32) -> Option<Span> {
    match node_at(program, id) {
        Some(Node::Variable(name) | Node::Item(name, _)) => Some(*name),
        _ => None,
    }
}

/// Whether a program sets a variable, maybe by its name in a literal.
fn is_set(uses: &Uses, name: &[u8]) -> bool {
    uses.set.count(name) > 0 || uses.words.count(name) > 0
}

/// Whether the language knows a name, also in capitals.
fn is_known(name: &[u8]) -> bool {
    name == b"END".as_slice()
        || is_one_of(name, VARIABLES)
        || in_capitals(name, VARIABLES).is_some()
}
