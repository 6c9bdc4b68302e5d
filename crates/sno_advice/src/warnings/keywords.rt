//! Keywords that aren't there, and keywords that can't be set.
use crate::survey::{MOST_STATEMENTS, Place, node_at, part, place_of};
use crate::warnings::Warnings;
use crate::words::{FIXED_KEYWORDS, KEYWORDS, in_capitals, is_one_of};
use sno_text::{Node, Program, Span, Statement};
use std::alloc::AllocError;

/// Warns of keywords.
pub fn warn(
    text: &[u8],
    program: &Program,
    places: &[Place],
    warnings: &mut Warnings,
) -> Result<(), AllocError> {
    for id in 0..program.nodes() {
        if let Some(name) = keyword_at(program, id) {
            let name = part(text, name);
            if !is_one_of(name, KEYWORDS) && in_capitals(name, KEYWORDS).is_none() {
                let place = place_of(places, id);
                warnings.add(place, b"there is no keyword &", name, b": error 14")?;
            }
        }
    }
    warn_of_settings(text, program, warnings)
}

/// Warns of keywords that are set and can't be.
fn warn_of_settings(
    text: &[u8],
    program: &Program,
    warnings: &mut Warnings,
) -> Result<(), AllocError> {
    for number in 1..MOST_STATEMENTS + 1 {
        let Some(statement) = program.statement(number) else {
            return Ok(());
        };
        let Some(name) = keyword_set(program, statement) else {
            continue;
        };
        let name = part(text, name);
        let place = Place {
            line: statement.line,
            number,
        };
        if is_one_of(name, FIXED_KEYWORDS) {
            warnings.add(place, b"the keyword &", name, b" cannot be set: error 14")?;
        }
    }
    Ok(())
}

/// The keyword that a statement sets.
fn keyword_set(program: &Program, statement: &Statement) -> Option<Span> {
    let core = statement.core?;
    if !core.equals || core.pattern.is_some() {
        return None;
    }
    keyword_at(program, core.subject.0)
}

/// The name of a node that is a keyword.
fn keyword_at(program: &Program, id: u32) -> Option<Span> {
    match node_at(program, id) {
        Some(Node::Keyword(name)) => Some(*name),
        _ => None,
    }
}
