//! Loops that nothing leads out of, or in which nothing changes.
use crate::definitions::Definitions;
use crate::loops::Loops;
use crate::survey::{
    Place, count_statements, digits_of, label_of, node_at, part, place_of, targets_of,
};
use crate::uses::target_at;
use crate::warnings::Warnings;
use crate::words::{FUNCTIONS, is_one_of};
use sno_text::{Jump, Node, Program, Statement, Target, UnaryOperator};
use std::alloc::{AllocError, Global};

/// The most statements of a loop that is looked at.
const LONGEST: u32 = 200;

/// The marks of statements: a variable may change there, or a function may lead elsewhere.
const CHANGES: u32 = 1;

const CALLS: u32 = 2;

/// Warns of loops.
pub fn warn(
    alloc: Global,
    text: &[u8],
    program: &Program,
    places: &[Place],
    defined: &Definitions,
    loops: &Loops,
    warnings: &mut Warnings,
) -> Result<(), AllocError> {
    if has_deferred(program) {
        return Ok(());
    }
    let acts = find_acts(alloc, text, program, places, defined)?;
    for number in 1..count_statements(program).saturating_add(1) {
        let end = loops.end(number);
        let Some(statement) = program.statement(number) else {
            return Ok(());
        };
        let is_short = number <= end && end <= number.saturating_add(LONGEST);
        if !is_short || has_mark(acts.as_slice(), CALLS, number, end) {
            continue;
        }
        let before = if is_closed(text, program, number, end) {
            b"nothing leads out of the loop of statement".as_slice()
        } else if !has_mark(acts.as_slice(), CHANGES, number, end)
            && is_whole(text, program, defined, loops, number, end)
        {
            b"nothing changes in the loop of statement".as_slice()
        } else {
            continue;
        };
        let place = Place {
            line: statement.line,
            number,
        };
        tell(alloc, place, before, end, warnings)?;
    }
    Ok(())
}

/// Tells of a loop that begins at a place.
fn tell(
    alloc: Global,
    place: Place,
    before: &[u8],
    end: u32,
    warnings: &mut Warnings,
) -> Result<(), AllocError> {
    let first = digits_of(alloc, place.number)?;
    if place.number == end {
        return warnings.add(place, before, b" ", first.as_slice());
    }
    let last = digits_of(alloc, end)?;
    warnings.add_with_other(
        place,
        before,
        b"s ",
        first.as_slice(),
        b" to ",
        last.as_slice(),
    )
}

/// Whether one of these statements has a mark.
fn has_mark(acts: &[u32], mark: u32, first: u32, last: u32) -> bool {
    for number in first..last.saturating_add(1) {
        match acts.get(number as usize) {
            Some(act) if *act < mark => {}
            _ => return true,
        }
    }
    false
}

/// Whether each statement from one to another goes to one of these.
fn is_closed(text: &[u8], program: &Program, first: u32, last: u32) -> bool {
    for number in first..last.saturating_add(1) {
        let Some(statement) = program.statement(number) else {
            return false;
        };
        let stays = match statement.jump {
            Jump::Fall => number < last,
            Jump::Always(target) => is_within(text, program, Some(target), first, last),
            Jump::Either(success, failure) => {
                (success.is_some() || number < last)
                    && (failure.is_some() || number < last)
                    && is_within(text, program, success, first, last)
                    && is_within(text, program, failure, first, last)
            }
        };
        if !stays {
            return false;
        }
    }
    true
}

/// Whether no other statements take part in the loop of these: none goes back to one before them, none behind them goes to
/// one of them, and no call of a function begins in them.
fn is_whole(
    text: &[u8],
    program: &Program,
    defined: &Definitions,
    loops: &Loops,
    first: u32,
    last: u32,
) -> bool {
    for number in first..last.saturating_add(1) {
        let Some(statement) = program.statement(number) else {
            return false;
        };
        let is_entry = match statement.label {
            Some(label) => defined.names.count(part(text, label)) > 0,
            None => false,
        };
        let (success, failure) = targets_of(statement.jump);
        let stays = is_within(text, program, success, first, u32::MAX)
            && is_within(text, program, failure, first, u32::MAX);
        if is_entry || !stays || loops.end(number) > last {
            return false;
        }
    }
    true
}

/// Whether a target, where there is one, is the label of one of these statements.
fn is_within(
    text: &[u8],
    program: &Program,
    target: Option<Target>,
    first: u32,
    last: u32,
) -> bool {
    if target.is_none() {
        return true;
    }
    match label_of(text, target) {
        Some(label) => match program.label(label) {
            Some(number) => first <= number && number <= last,
            None => false,
        },
        None => false,
    }
}

/// What statements do, by their numbers.
fn find_acts(
    alloc: Global,
    text: &[u8],
    program: &Program,
    places: &[Place],
    defined: &Definitions,
) -> Result<Vec<u32>, AllocError> {
    let mut acts = vec![in alloc; 0; count_statements(program) as usize + 1]?;
    for id in 0..program.nodes() {
        mark(
            &mut acts,
            place_of(places, id).number,
            node_act(text, program, id, defined),
        );
    }
    mark_statements(text, program, &mut acts);
    Ok(acts)
}

/// Marks statements by what they do by themselves.
fn mark_statements(text: &[u8], program: &Program, acts: &mut Vec<u32>) {
    for number in 1..count_statements(program).saturating_add(1) {
        if let Some(statement) = program.statement(number) {
            mark(acts, number, statement_act(text, program, statement));
        }
    }
}

/// Marks a statement, if it has no greater mark.
fn mark(acts: &mut Vec<u32>, number: u32, act: u32) {
    let at = number as usize;
    if at < acts.len() && acts[at] < act {
        acts[at] = act;
    }
}

/// What a node of a statement does: it may call a function that leads out, or change a variable, or read what changes.
fn node_act(text: &[u8], program: &Program, id: u32, defined: &Definitions) -> u32 {
    if target_at(program, id).is_some() {
        return CHANGES;
    }
    match node_at(program, id) {
        Some(Node::Call(name, _)) => {
            let name = part(text, *name);
            let is_other = !is_one_of(name, FUNCTIONS) || defined.names.count(name) > 0;
            if is_other { CALLS } else { 0 }
        }
        Some(Node::Keyword(_) | Node::Unary(UnaryOperator::Indirect, _)) => CHANGES,
        Some(Node::Variable(name)) if part(text, *name) == b"INPUT".as_slice() => CHANGES,
        _ => 0,
    }
}

/// Whether a statement sets another variable than OUTPUT.
fn statement_act(text: &[u8], program: &Program, statement: &Statement) -> u32 {
    match statement.core {
        // (a pattern in a variable may set others)
        Some(core) if core.pattern.is_some() => CHANGES,
        Some(core) if core.equals => match node_at(program, core.subject.0) {
            Some(Node::Variable(name)) if part(text, *name) == b"OUTPUT".as_slice() => 0,
            _ => CHANGES,
        },
        _ => 0,
    }
}

/// Whether a program has an expression that is evaluated in a match, which may call functions there.
fn has_deferred(program: &Program) -> bool {
    for id in 0..program.nodes() {
        if let Some(Node::Unary(UnaryOperator::Defer, _)) = node_at(program, id) {
            return true;
        }
    }
    false
}
