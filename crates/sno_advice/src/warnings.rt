//! Warnings: what a program most likely doesn't mean. They promise nothing, and no warning is a refusal.

mod blanks;
mod endless;
mod functions;
mod keywords;
mod labels;
mod letters;
mod lines;
mod patterns;
mod prototypes;
mod statements;
mod targets;
mod variables;

use crate::definitions::find_definitions;
use crate::loops::find_loops;
use crate::survey::{Place, digits_of, node_places};
use crate::uses::find_uses;
use sno_text::Program;
use std::alloc::{AllocError, Global};

/// A warning, and what it is of.
#[derive(Drop)]
struct Warning {
    place: Place,
    text: Vec<u8>,
}

/// Warnings as they are found.
#[derive(Drop)]
pub struct Warnings {
    alloc: Global,
    list: Vec<Warning>,
    /// What stands behind them.
    note: Vec<u8>,
}

impl Warnings {
    /// No warnings.
    pub fn new(alloc: Global) -> Warnings {
        Warnings {
            alloc,
            list: Vec::new(alloc),
            note: Vec::new(alloc),
        }
    }

    /// Adds a warning whose text has a name within.
    pub(crate) fn add(
        &mut self,
        place: Place,
        before: &[u8],
        name: &[u8],
        behind: &[u8],
    ) -> Result<(), AllocError> {
        let mut text = before.to_vec(self.alloc)?;
        text.extend_from_slice(name)?;
        text.extend_from_slice(behind)?;
        self.list.push(Warning { place, text })?;
        Ok(())
    }

    /// Adds a warning that ends in another name and what is said of it.
    pub(crate) fn add_with_other(
        &mut self,
        place: Place,
        before: &[u8],
        name: &[u8],
        between: &[u8],
        other: &[u8],
        behind: &[u8],
    ) -> Result<(), AllocError> {
        let mut rest = between.to_vec(self.alloc)?;
        rest.extend_from_slice(other)?;
        rest.extend_from_slice(behind)?;
        self.add(place, before, name, rest.as_slice())
    }

    /// The text of the warnings, in the order of their lines, and of the note, behind an empty line, if there are any.
    pub fn text(&mut self) -> Result<Vec<u8>, AllocError> {
        let mut text = Vec::new(self.alloc);
        if self.list.is_empty() && self.note.is_empty() {
            return Ok(text);
        }
        self.list.sort_by_key(|warning| warning.place.line)?;
        text.push(b'\n')?;
        for warning in self.list.as_slice() {
            append(self.alloc, &mut text, warning)?;
        }
        text.extend_from_slice(self.note.as_slice())?;
        Ok(text)
    }
}

/// Appends a warning.
fn append(alloc: Global, told: &mut Vec<u8>, warning: &Warning) -> Result<(), AllocError> {
    told.extend_from_slice(b"warning: line ")?;
    let line = digits_of(alloc, warning.place.line)?;
    told.extend_from_slice(line.as_slice())?;
    append_number(alloc, told, warning.place.number)?;
    told.extend_from_slice(b": ")?;
    told.extend_from_slice(warning.text.as_slice())?;
    told.push(b'\n')?;
    Ok(())
}

/// Appends the number of a statement, and nothing for 0.
fn append_number(alloc: Global, told: &mut Vec<u8>, number: u32) -> Result<(), AllocError> {
    if number == 0 {
        return Ok(());
    }
    told.extend_from_slice(b", statement ")?;
    let digits = digits_of(alloc, number)?;
    told.extend_from_slice(digits.as_slice())?;
    Ok(())
}

/// Adds what there is to say of a program. `text` is what it was read from.
pub fn warn(
    alloc: Global,
    text: &[u8],
    program: &Program,
    warnings: &mut Warnings,
) -> Result<(), AllocError> {
    let places = node_places(alloc, program)?;
    let places = places.as_slice();
    let defined = find_definitions(alloc, text, program)?;
    let uses = find_uses(alloc, text, program)?;
    let loops = find_loops(alloc, text, program)?;
    lines::warn(text, program, warnings)?;
    letters::warn(alloc, text, program, places, &defined, warnings)?;
    labels::warn(alloc, text, program, &defined, &uses, warnings)?;
    variables::warn(alloc, text, program, places, &defined, &uses, warnings)?;
    functions::warn(alloc, text, program, places, &defined, &uses, warnings)?;
    prototypes::warn(alloc, text, program, places, warnings)?;
    keywords::warn(text, program, places, warnings)?;
    blanks::warn(text, program, places, warnings)?;
    statements::warn(text, program, &defined, warnings)?;
    targets::warn(alloc, text, program, warnings)?;
    endless::warn(alloc, text, program, places, &defined, &loops, warnings)?;
    warnings.note = patterns::note(alloc, text, program, &defined, &loops)?;
    Ok(())
}
