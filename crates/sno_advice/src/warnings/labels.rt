//! Labels that are gone to and aren't there, and labels that nothing goes to.
use crate::definitions::Definitions;
use crate::names::{Folded, Names};
use crate::survey::{MOST_STATEMENTS, Place, expression_of, goes_on, label_of, part, targets_of};
use crate::uses::Uses;
use crate::warnings::Warnings;
use crate::words::{LABELS, RETURNS, VARIABLES, in_capitals, is_one_of};
use sno_text::{Program, Statement, Target};
use std::alloc::{AllocError, Global};

/// The labels that a program goes to.
#[derive(Drop)]
struct Goals {
    labels: Names,
    /// Whether a target is computed, so that it may be any label.
    is_open: bool,
    /// Whether one isn't there, and so may be misspelt.
    is_missing: bool,
}

/// Warns of labels.
pub fn warn(
    alloc: Global,
    text: &[u8],
    program: &Program,
    defined: &Definitions,
    uses: &Uses,
    warnings: &mut Warnings,
) -> Result<(), AllocError> {
    let mut goals = Goals {
        labels: Names::new(alloc),
        is_open: false,
        is_missing: false,
    };
    let labels = all_labels(alloc, text, program)?;
    warn_of_targets(text, program, &labels, &mut goals, warnings)?;
    if goals.is_open || defined.is_open {
        return Ok(());
    }
    warn_of_unused(text, program, &goals, defined, uses, warnings)
}

/// The labels of a program.
fn all_labels(alloc: Global, text: &[u8], program: &Program) -> Result<Folded, AllocError> {
    let mut labels = Folded::new(alloc);
    for number in 1..MOST_STATEMENTS + 1 {
        let Some(statement) = program.statement(number) else {
            return Ok(labels);
        };
        if let Some(label) = statement.label {
            labels.add(part(text, label))?;
        }
    }
    Ok(labels)
}

/// Warns of targets that aren't there, and collects all targets.
fn warn_of_targets(
    text: &[u8],
    program: &Program,
    labels: &Folded,
    goals: &mut Goals,
    warnings: &mut Warnings,
) -> Result<(), AllocError> {
    for number in 1..MOST_STATEMENTS + 1 {
        let Some(statement) = program.statement(number) else {
            return Ok(());
        };
        let place = Place {
            line: statement.line,
            number,
        };
        collect(text, statement, goals)?;
        let (first, second) = targets_of(statement.jump);
        if let Some(label) = missing_label(text, program, first) {
            goals.is_missing = true;
            warn_of_target(place, label, labels, warnings)?;
        }
        if let Some(label) = missing_label(text, program, second) {
            goals.is_missing = true;
            warn_of_target(place, label, labels, warnings)?;
        }
    }
    Ok(())
}

/// Collects the labels that a statement names.
fn collect(text: &[u8], statement: &Statement, goals: &mut Goals) -> Result<(), AllocError> {
    let (first, second) = targets_of(statement.jump);
    if expression_of(first).is_some() || expression_of(second).is_some() {
        goals.is_open = true;
    }
    if let Some(label) = label_of(text, first) {
        goals.labels.add(label)?;
    }
    if let Some(label) = label_of(text, second) {
        goals.labels.add(label)?;
    }
    if let Some(entry) = statement.entry {
        goals.labels.add(part(text, entry))?;
    }
    Ok(())
}

/// The label of a target that isn't there.
fn missing_label<'a>(
    text: &'a [u8],
    program: &Program,
    target: Option<Target>,
) -> Option<&'a [u8]> {
    let label = label_of(text, target)?;
    let is_there = program.label(label).is_some()
        || is_one_of(label, RETURNS)
        || in_capitals(label, LABELS).is_some();
    if is_there { None } else { Some(label) }
}

/// Warns of a target that isn't there.
fn warn_of_target(
    place: Place,
    label: &[u8],
    labels: &Folded,
    warnings: &mut Warnings,
) -> Result<(), AllocError> {
    match labels.other(label)? {
        Some(other) => warnings.add_with_other(
            place,
            b"there is no label ",
            label,
            b": to go there is error 5, and ",
            other,
            b" is another label",
        ),
        None => warnings.add(
            place,
            b"there is no label ",
            label,
            b": to go there is error 5",
        ),
    }
}

/// Warns of labels that nothing goes to: where the statement before doesn't go on there either, where the name is one
/// of a variable, or where some target is missing.
fn warn_of_unused(
    text: &[u8],
    program: &Program,
    goals: &Goals,
    defined: &Definitions,
    uses: &Uses,
    warnings: &mut Warnings,
) -> Result<(), AllocError> {
    let mut is_reached = true;
    for number in 1..MOST_STATEMENTS + 1 {
        let Some(statement) = program.statement(number) else {
            return Ok(());
        };
        let place = Place {
            line: statement.line,
            number,
        };
        if let Some(label) = statement.label {
            let label = part(text, label);
            let is_variable = uses.set.count(label) > 0 || is_one_of(label, VARIABLES);
            if is_unused(label, goals, defined)
                && (!is_reached || is_variable || goals.is_missing)
            {
                tell(place, label, is_variable, warnings)?;
            }
        }
        is_reached = goes_on(statement.jump);
    }
    Ok(())
}

/// Tells of a label that nothing goes to.
fn tell(
    place: Place,
    label: &[u8],
    is_variable: bool,
    warnings: &mut Warnings,
) -> Result<(), AllocError> {
    let behind = if is_variable {
        b": a statement without a label begins with a blank".as_slice()
    } else {
        b"".as_slice()
    };
    warnings.add(place, b"nothing goes to the label ", label, behind)
}

/// Whether a label is named by nothing that goes to labels.
fn is_unused(label: &[u8], goals: &Goals, defined: &Definitions) -> bool {
    label != b"END".as_slice()
        && in_capitals(label, LABELS).is_none()
        && goals.labels.count(label) == 0
        && defined.names.count(label) == 0
}
