//! Prototypes that are error 12, and functions whose calls begin at no label.
use crate::definitions::{DEFINING, first_word, literal_at, prototype_at};
use crate::names::Names;
use crate::survey::{Place, goes_on, node_at, part, place_of};
use crate::warnings::Warnings;
use crate::words::{DEVICES, FUNCTIONS, TYPES, is_name_byte, is_one_of, word_at};
use sno_text::{Node, Program};
use std::alloc::{AllocError, Global};

/// The most names of a prototype.
const MOST_NAMES: usize = 100;

/// The most statements before a function that are looked at.
const FARTHEST: u32 = 1000;

/// Warns of prototypes that are literals.
pub fn warn(
    alloc: Global,
    text: &[u8],
    program: &Program,
    places: &[Place],
    warnings: &mut Warnings,
) -> Result<(), AllocError> {
    for id in 0..program.nodes() {
        let place = place_of(places, id);
        let Some(prototype) = prototype_at(text, program, id) else {
            if let Some(name) = bare_prototype(text, program, id) {
                warnings.add(place, b"the prototype of ", name, b" stands in no quotes")?;
            }
            continue;
        };
        let is_function = is_define(text, program, id);
        match fault_of(alloc, prototype, is_function)? {
            Some(reason) => {
                warnings.add_with_other(
                    place,
                    b"the prototype ",
                    prototype,
                    b" is error 12: ",
                    reason,
                    b"",
                )?;
            }
            None if is_function => warn_of_entry(place, text, program, id, prototype, warnings)?,
            None => {}
        }
    }
    Ok(())
}

/// The function that a node calls where its definition would have a prototype: `DEFINE(F(X))`.
fn bare_prototype<'a>(text: &'a [u8], program: &Program, id: u32) -> Option<&'a [u8]> {
    let Some(Node::Call(name, arguments)) = node_at(program, id) else {
        return None;
    };
    if !is_one_of(part(text, *name), DEFINING) {
        return None;
    }
    let first = arguments.first()?;
    match node_at(program, first.0) {
        Some(Node::Call(inner, _)) if !is_one_of(part(text, *inner), FUNCTIONS) => {
            Some(part(text, *inner))
        }
        _ => None,
    }
}

/// Whether a node calls DEFINE.
fn is_define(text: &[u8], program: &Program, id: u32) -> bool {
    match node_at(program, id) {
        Some(Node::Call(name, _)) => part(text, *name) == b"DEFINE".as_slice(),
        _ => false,
    }
}

/// Warns of a function whose calls begin at a label that isn't there.
fn warn_of_entry(
    place: Place,
    text: &[u8],
    program: &Program,
    id: u32,
    prototype: &[u8],
    warnings: &mut Warnings,
) -> Result<(), AllocError> {
    let Some(Node::Call(_, arguments)) = node_at(program, id) else {
        return Ok(());
    };
    let function = first_word(prototype);
    let entry = match literal_at(text, program, arguments.as_slice(), 1) {
        Some(entry) if !entry.is_empty() => entry,
        None if arguments.len() > 1 => return Ok(()),
        _ => function,
    };
    if let Some(number) = program.label(entry) {
        return warn_of_falling(program, number, function, warnings);
    }
    warnings.add_with_other(
        place,
        b"there is no label ",
        entry,
        b": calls of ",
        function,
        b" begin there, error 5",
    )
}

/// Warns of a function that a program runs into from its first statement on.
fn warn_of_falling(
    program: &Program,
    number: u32,
    function: &[u8],
    warnings: &mut Warnings,
) -> Result<(), AllocError> {
    let Some(entry) = program.statement(number) else {
        return Ok(());
    };
    if !is_run_into(program, number) {
        return Ok(());
    }
    let place = Place {
        line: entry.line,
        number,
    };
    warnings.add(
        place,
        b"the statement before runs into the function ",
        function,
        b", whose RETURN is error 13 then",
    )
}

/// Whether each statement from the first one on may go on to the next, up to this one. A label before it may be the entry
/// of another function, from which one may go on.
fn is_run_into(program: &Program, number: u32) -> bool {
    if begins_elsewhere(program) {
        return false;
    }
    for before in 1..number.min(FARTHEST) {
        match program.statement(before) {
            Some(statement) if goes_on(statement.jump) && statement.label.is_none() => {}
            _ => return false,
        }
    }
    number < FARTHEST
}

/// Whether a program begins at the label behind its END.
fn begins_elsewhere(program: &Program) -> bool {
    let Some(number) = program.label(b"END") else {
        return false;
    };
    match program.statement(number) {
        Some(end) => end.entry.is_some(),
        None => false,
    }
}

/// Why a prototype is error 12, if it is.
fn fault_of(
    alloc: Global,
    prototype: &[u8],
    is_function: bool,
) -> Result<Option<&'static [u8]>, AllocError> {
    if count_of(prototype, b' ') > 0 || count_of(prototype, b'\t') > 0 {
        return Ok(Some(b"it has a blank"));
    }
    let Some((name, rest)) = cut(prototype, b'(') else {
        return Ok(Some(b"it has no ("));
    };
    let Some((fields, locals)) = cut(rest, b')') else {
        return Ok(Some(b"it has no )"));
    };
    if !is_name(name) || !are_names(fields) || !are_names(locals) {
        return Ok(Some(b"not all in it are names, with commas between them"));
    }
    if is_function {
        return Ok(fault_of_function(prototype));
    }
    let fault = fault_of_type(alloc, prototype, name, fields, locals)?;
    Ok(fault)
}

fn fault_of_function(prototype: &[u8]) -> Option<&'static [u8]> {
    if has_word_of(prototype, DEVICES) {
        return Some(b"INPUT and OUTPUT cannot be among its names");
    }
    if count_words(prototype) > MOST_NAMES {
        return Some(b"it has more than 100 names");
    }
    None
}

fn fault_of_type(
    alloc: Global,
    prototype: &[u8],
    name: &[u8],
    fields: &[u8],
    locals: &[u8],
) -> Result<Option<&'static [u8]>, AllocError> {
    if fields.is_empty() {
        return Ok(Some(b"it has no field"));
    }
    if !locals.is_empty() {
        return Ok(Some(b"something stands behind its fields"));
    }
    if is_one_of(name, TYPES) {
        return Ok(Some(b"a type of the language has this name"));
    }
    if count_words(prototype) > MOST_NAMES {
        return Ok(Some(b"it has more than 100 names"));
    }
    if has_twice(alloc, prototype)? {
        return Ok(Some(b"a name stands twice"));
    }
    Ok(None)
}

/// A text cut at the first of a byte.
fn cut(text: &[u8], byte: u8) -> Option<(&[u8], &[u8])> {
    let place = text.iter().position(|b| *b == byte)?;
    Some((&text[..place], &text[place + 1..]))
}

fn count_of(text: &[u8], byte: u8) -> usize {
    text.iter().filter(|b| **b == byte).count()
}

/// Whether a text is a name: a letter, and then letters, digits, dots and underscores.
fn is_name(text: &[u8]) -> bool {
    match text.first() {
        Some(first) => first.is_ascii_alphabetic() && text.iter().all(|b| is_name_byte(*b)),
        None => false,
    }
}

/// Whether a list is of names, or empty.
fn are_names(list: &[u8]) -> bool {
    list.is_empty() || list.split(|byte| *byte == b',').all(|name| is_name(name))
}

/// Whether a text has one of these words.
fn has_word_of(text: &[u8], words: &[u8]) -> bool {
    for at in 0..text.len() {
        if let Some(word) = word_at(text, at) {
            if is_one_of(word, words) {
                return true;
            }
        }
    }
    false
}

fn count_words(text: &[u8]) -> usize {
    let mut count: usize = 0;
    for at in 0..text.len() {
        if word_at(text, at).is_some() {
            count = count.saturating_add(1);
        }
    }
    count
}

/// Whether a word stands twice in a text.
fn has_twice(alloc: Global, text: &[u8]) -> Result<bool, AllocError> {
    let mut names = Names::new(alloc);
    for at in 0..text.len() {
        if let Some(word) = word_at(text, at) {
            if names.count(word) > 0 {
                return Ok(true);
            }
            names.add(word)?;
        }
    }
    Ok(false)
}
