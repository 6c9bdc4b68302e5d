//! Small letters in a name that the language has in capitals.
use crate::definitions::Definitions;
use crate::names::Names;
use crate::survey::{MOST_STATEMENTS, Place, label_of, node_at, part, place_of, targets_of};
use crate::warnings::Warnings;
use crate::words::{FUNCTIONS, KEYWORDS, LABELS, VARIABLES, in_capitals};
use sno_text::{Node, Program};
use std::alloc::{AllocError, Global};

/// Warns of names in small letters, of each where it first stands.
pub fn warn(
    alloc: Global,
    text: &[u8],
    program: &Program,
    places: &[Place],
    defined: &Definitions,
    warnings: &mut Warnings,
) -> Result<(), AllocError> {
    let mut told = Names::new(alloc);
    for id in 0..program.nodes() {
        let place = place_of(places, id);
        match node_at(program, id) {
            Some(Node::Variable(name) | Node::Item(name, _)) => {
                tell(place, part(text, *name), VARIABLES, &mut told, warnings)?;
            }
            Some(Node::Keyword(name)) => {
                tell(place, part(text, *name), KEYWORDS, &mut told, warnings)?;
            }
            Some(Node::Call(name, _)) if defined.names.count(part(text, *name)) == 0 => {
                tell(place, part(text, *name), FUNCTIONS, &mut told, warnings)?;
            }
            _ => {}
        }
    }
    warn_of_labels(text, program, &mut told, warnings)
}

/// Warns of labels in small letters.
fn warn_of_labels(
    text: &[u8],
    program: &Program,
    told: &mut Names,
    warnings: &mut Warnings,
) -> Result<(), AllocError> {
    for number in 1..MOST_STATEMENTS + 1 {
        let Some(statement) = program.statement(number) else {
            return Ok(());
        };
        let place = Place {
            line: statement.line,
            number,
        };
        if let Some(label) = statement.label {
            tell(place, part(text, label), LABELS, told, warnings)?;
        }
        let (first, second) = targets_of(statement.jump);
        if let Some(label) = label_of(text, first) {
            tell(place, label, LABELS, told, warnings)?;
        }
        if let Some(label) = label_of(text, second) {
            tell(place, label, LABELS, told, warnings)?;
        }
    }
    Ok(())
}

/// Tells of a name, if it is one of these words in small letters and was not told of.
fn tell(
    place: Place,
    name: &[u8],
    words: &[u8],
    told: &mut Names,
    warnings: &mut Warnings,
) -> Result<(), AllocError> {
    let Some(word) = in_capitals(name, words) else {
        return Ok(());
    };
    if told.count(name) > 0 {
        return Ok(());
    }
    told.add(name)?;
    warnings.add(place, name, b" is another name than ", word)
}
