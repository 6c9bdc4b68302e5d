//! Signs that mean something else, or nothing, for want of a blank.
use crate::survey::{Place, node_at, part, place_of};
use crate::warnings::Warnings;
use crate::words::{NUMBERS, PREDICATES, is_one_of};
use sno_text::{Node, Operator, Program, UnaryOperator};
use std::alloc::AllocError;

/// Warns of operands with `.`, `+` or `-` right before them, and none but a blank before that: ` P .X` and ` N -1`.
pub fn warn(
    text: &[u8],
    program: &Program,
    places: &[Place],
    warnings: &mut Warnings,
) -> Result<(), AllocError> {
    for id in 0..program.nodes() {
        let place = place_of(places, id);
        match second_sign(text, program, id) {
            Some(UnaryOperator::NameOf) => {
                warnings.add(
                    place,
                    b"a . with no blank behind it assigns nothing: ",
                    b"it is the name of what follows",
                    b"",
                )?;
            }
            Some(UnaryOperator::Minus) => {
                warnings.add(
                    place,
                    b"a - with no blank behind it subtracts nothing: ",
                    b"it is the sign of what follows",
                    b"",
                )?;
            }
            Some(UnaryOperator::Plus) => {
                warnings.add(
                    place,
                    b"a + with no blank behind it adds nothing: ",
                    b"it is the sign of what follows",
                    b"",
                )?;
            }
            _ => {}
        }
    }
    Ok(())
}

/// The sign before the second operand of a concatenation, if it is most likely no sign: a value stands before it, and
/// for `+` and `-` one that may be a number.
fn second_sign(text: &[u8], program: &Program, id: u32) -> Option<UnaryOperator> {
    let Some(Node::Binary(Operator::Concatenate, first, second)) = node_at(program, id) else {
        return None;
    };
    let sign = sign_of(program, second.0)?;
    let fits = match last_operand(program, first.0) {
        Some(Node::Call(name, _)) => fits_call(part(text, *name), sign),
        Some(Node::Literal(_)) => sign == UnaryOperator::NameOf,
        _ => true,
    };
    if fits { Some(sign) } else { None }
}

/// Whether a sign behind a call of this function is most likely no sign.
fn fits_call(name: &[u8], sign: UnaryOperator) -> bool {
    if sign == UnaryOperator::NameOf {
        !is_one_of(name, PREDICATES)
    } else {
        is_one_of(name, NUMBERS)
    }
}

/// The operand of a concatenation that stands last in it; what is no concatenation is its own.
fn last_operand(program: &Program, id: u32) -> Option<&Node> {
    match node_at(program, id) {
        Some(Node::Binary(Operator::Concatenate, _, last)) => node_at(program, last.0),
        node => node,
    }
}

/// The sign before an operand.
fn sign_of(program: &Program, id: u32) -> Option<UnaryOperator> {
    match node_at(program, id) {
        Some(Node::Unary(sign, _)) => Some(*sign),
        _ => None,
    }
}
