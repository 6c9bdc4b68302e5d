//! Statements that do less than they seem to.
use crate::definitions::Definitions;
use crate::furthest::tail;
use crate::survey::{MOST_STATEMENTS, Place, label_of, node_at, part, targets_of};
use crate::warnings::Warnings;
use crate::words::{FUNCTIONS, PRIMITIVES, is_one_of};
use sno_text::{Core, Jump, Node, Operator, Program, Statement, UnaryOperator};
use sno_value::ExprId;
use std::alloc::AllocError;

/// Warns of statements.
pub fn warn(
    text: &[u8],
    program: &Program,
    defined: &Definitions,
    warnings: &mut Warnings,
) -> Result<(), AllocError> {
    for number in 1..MOST_STATEMENTS + 1 {
        let Some(statement) = program.statement(number) else {
            return Ok(());
        };
        let place = Place {
            line: statement.line,
            number,
        };
        match statement.core {
            Some(core) => warn_of_core(place, text, program, statement, core, defined, warnings)?,
            None => warn_of_goto(place, statement.jump, warnings)?,
        }
    }
    Ok(())
}

/// Warns of a goto alone that asks for success or failure.
fn warn_of_goto(place: Place, jump: Jump, warnings: &mut Warnings) -> Result<(), AllocError> {
    let Jump::Either(_, failure) = jump else {
        return Ok(());
    };
    let text = if failure.is_some() {
        b"a goto alone succeeds, so F is never taken: it belongs to the line of another statement".as_slice()
    } else {
        b"a goto alone succeeds, so S is always taken: it belongs to the line of another statement".as_slice()
    };
    warnings.add(place, text, b"", b"")
}

/// Warns of what a statement does before its goto.
fn warn_of_core(
    place: Place,
    text: &[u8],
    program: &Program,
    statement: &Statement,
    core: Core,
    defined: &Definitions,
    warnings: &mut Warnings,
) -> Result<(), AllocError> {
    if core.equals {
        warn_of_subject(place, text, program, statement, core, warnings)?;
        if matches_again(text, program, statement, core) {
            warnings.add(
                place,
                b"this loop does not end: its pattern matches what is put in",
                b"",
                b"",
            )?;
        }
        return Ok(());
    }
    if is_end(text, program, core) {
        return warnings.add(place, b"END ends the program in column 1 alone", b"", b"");
    }
    let Some(pattern) = core.pattern else {
        return Ok(());
    };
    if matches!(statement.jump, Jump::Either(..)) {
        return Ok(());
    }
    if has_no_effect(text, program, core) && is_quiet(text, program, core, pattern, defined) {
        return warnings.add(
            place,
            b"this match sets nothing, and no goto asks whether it succeeds: is a = missing?",
            b"",
            b"",
        );
    }
    Ok(())
}

/// Whether a node is a variable of this name.
fn is_variable(text: &[u8], program: &Program, id: u32, name: &[u8]) -> bool {
    match node_at(program, id) {
        Some(Node::Variable(span)) => part(text, *span) == name,
        _ => false,
    }
}

/// Whether a statement goes to itself where a literal is replaced by one that has it in it.
fn matches_again(text: &[u8], program: &Program, statement: &Statement, core: Core) -> bool {
    let (Some(pattern), Some(object), Some(label)) = (core.pattern, core.object, statement.label)
    else {
        return false;
    };
    let (Some(Node::Literal(old)), Some(Node::Literal(new))) = (
        node_at(program, pattern.0),
        node_at(program, object.0),
    ) else {
        return false;
    };
    let (success, _) = targets_of(statement.jump);
    match label_of(text, success) {
        Some(goal) if goal == part(text, label) => {
            let old = part(text, *old);
            let new = part(text, *new);
            new.starts_with(old) || (contains(new, old) && !names_anchor(text, program))
        }
        _ => false,
    }
}

/// Whether a program names the keyword &ANCHOR.
fn names_anchor(text: &[u8], program: &Program) -> bool {
    for id in 0..program.nodes() {
        if let Some(Node::Keyword(name)) = node_at(program, id) {
            if part(text, *name) == b"ANCHOR".as_slice() {
                return true;
            }
        }
    }
    false
}

/// Whether a text stands in another.
fn contains(text: &[u8], word: &[u8]) -> bool {
    for at in 0..text.len().saturating_add(1) {
        if tail(text, at).starts_with(word) {
            return true;
        }
    }
    false
}

/// Warns of a literal that is set.
fn warn_of_subject(
    place: Place,
    text: &[u8],
    program: &Program,
    statement: &Statement,
    core: Core,
    warnings: &mut Warnings,
) -> Result<(), AllocError> {
    if !matches!(
        node_at(program, core.subject.0),
        Some(Node::Literal(_) | Node::Integer(_))
    ) {
        return Ok(());
    }
    match statement.label {
        Some(label) => warnings.add(
            place,
            b"a literal cannot be set: error 15, and ",
            part(text, label),
            b" in column 1 is a label",
        ),
        None => warnings.add(place, b"a literal cannot be set: error 15", b"", b""),
    }
}

/// Whether a core is the variable END alone.
fn is_end(text: &[u8], program: &Program, core: Core) -> bool {
    core.pattern.is_none() && is_variable(text, program, core.subject.0, b"END")
}

/// Whether the subject of a match does nothing by being evaluated, as INPUT and calls may, and is meant to be no call.
fn has_no_effect(text: &[u8], program: &Program, core: Core) -> bool {
    match node_at(program, core.subject.0) {
        Some(Node::Variable(name)) => {
            let name = part(text, *name);
            name != b"INPUT".as_slice() && !is_one_of(name, FUNCTIONS)
        }
        Some(Node::Literal(_) | Node::Integer(_) | Node::Keyword(_)) => true,
        _ => false,
    }
}

/// Whether a pattern sets nothing, whatever its variables hold: an operation on numbers, or of literals and primitives
/// alone, or where OUTPUT is matched, what assigns nothing by itself. Its nodes stand behind that of the subject.
fn is_quiet(
    text: &[u8],
    program: &Program,
    core: Core,
    pattern: ExprId,
    defined: &Definitions,
) -> bool {
    let is_output = is_variable(text, program, core.subject.0, b"OUTPUT");
    let may_read = is_output || is_arithmetic(program, pattern.0);
    for id in core.subject.0.saturating_add(1)..pattern.0.saturating_add(1) {
        let is_silent = match node_at(program, id) {
            Some(Node::Variable(_) | Node::Item(..) | Node::Keyword(_)) => may_read,
            Some(Node::Call(name, _)) => {
                let name = part(text, *name);
                is_output || (is_one_of(name, PRIMITIVES) && defined.names.count(name) == 0)
            }
            Some(Node::Unary(sign, _)) => {
                matches!(sign, UnaryOperator::Plus | UnaryOperator::Minus)
            }
            Some(Node::Binary(operator, _, _)) => {
                !matches!(operator, Operator::Conditional | Operator::Immediate)
            }
            _ => true,
        };
        if !is_silent {
            return false;
        }
    }
    true
}

/// Whether a node is an operation on two numbers.
fn is_arithmetic(program: &Program, id: u32) -> bool {
    match node_at(program, id) {
        Some(Node::Binary(operator, _, _)) => matches!(
            operator,
            Operator::Add
                | Operator::Subtract
                | Operator::Multiply
                | Operator::Divide
                | Operator::Power
        ),
        _ => false,
    }
}
