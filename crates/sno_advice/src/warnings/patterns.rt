//! Statements that build patterns at each pass of a loop, until error 9.
use crate::definitions::Definitions;
use crate::loops::Loops;
use crate::survey::{count_statements, digits_of, node_at, part};
use crate::words::{PRIMITIVES, is_one_of};
use sno_text::{Node, Operator, Program, Statement, UnaryOperator};
use sno_value::ExprId;
use std::alloc::{AllocError, Global};

/// The most pattern nodes of a run.
const MOST_NODES: u64 = 4_000_000;

/// The note on the statements of loops that build patterns; nothing where there are none, or where the program bounds
/// its statements so that it can't come to the limit.
pub fn note(
    alloc: Global,
    text: &[u8],
    program: &Program,
    defined: &Definitions,
    loops: &Loops,
) -> Result<Vec<u8>, AllocError> {
    let mut numbers = Vec::new(alloc);
    let mut count: u32 = 0;
    let mut most: u64 = 0;
    for number in 1..count_statements(program).saturating_add(1) {
        let Some(statement) = program.statement(number) else {
            break;
        };
        let nodes = built(text, program, statement, defined);
        if nodes > 0 && loops.contains(number) {
            if count > 0 {
                numbers.extend_from_slice(b", ")?;
            }
            let digits = digits_of(alloc, number)?;
            numbers.extend_from_slice(digits.as_slice())?;
            count = count.saturating_add(1);
            most = most.max(nodes);
        }
    }
    if count == 0 || bound(text, program).saturating_mul(most) < MOST_NODES {
        return Ok(Vec::new(alloc));
    }
    let before = if count == 1 {
        b"note: patterns are built anew by statement ".as_slice()
    } else {
        b"note: patterns are built anew by statements ".as_slice()
    };
    let mut note = before.to_vec(alloc)?;
    note.extend_from_slice(numbers.as_slice())?;
    note.extend_from_slice(b" (error 9 beyond 4,000,000 nodes)\n")?;
    Ok(note)
}

/// The most statements that a program allows itself, by setting &STLIMIT to a number.
fn bound(text: &[u8], program: &Program) -> u64 {
    let mut bound = None;
    for number in 1..count_statements(program).saturating_add(1) {
        if let Some(limit) = limit_of(text, program, program.statement(number)) {
            bound = Some(match bound {
                Some(other) => limit.max(other),
                None => limit,
            });
        }
    }
    match bound {
        Some(limit) => limit,
        None => u64::MAX,
    }
}

/// What a statement sets &STLIMIT to; no bound where it is no number.
fn limit_of(text: &[u8], program: &Program, statement: Option<&Statement>) -> Option<u64> {
    let core = statement?.core?;
    if !core.equals || core.pattern.is_some() {
        return None;
    }
    match node_at(program, core.subject.0) {
        Some(Node::Keyword(name)) if part(text, *name) == b"STLIMIT".as_slice() => {
            Some(number_of(program, core.object))
        }
        _ => None,
    }
}

fn number_of(program: &Program, id: Option<ExprId>) -> u64 {
    let Some(id) = id else {
        return u64::MAX;
    };
    match node_at(program, id.0) {
        Some(Node::Integer(number)) => match u64::try_from(*number) {
            Ok(number) => number,
            Err(_) => u64::MAX,
        },
        _ => u64::MAX,
    }
}

/// How many nodes of patterns a statement builds at most, to match them or to assign them: as many as it has behind its
/// subject, if one of these builds a pattern in any case.
fn built(text: &[u8], program: &Program, statement: &Statement, defined: &Definitions) -> u64 {
    let Some(core) = statement.core else {
        return 0;
    };
    let mut last = core.subject.0;
    if let Some(pattern) = core.pattern {
        last = pattern.0;
    }
    if let Some(object) = core.object {
        last = object.0;
    }
    for id in core.subject.0.saturating_add(1)..last.saturating_add(1) {
        if is_building(text, program, id, defined) {
            return u64::from(last.saturating_sub(core.subject.0));
        }
    }
    0
}

/// Whether a node builds a pattern, whatever its operands are.
fn is_building(text: &[u8], program: &Program, id: u32, defined: &Definitions) -> bool {
    match node_at(program, id) {
        Some(Node::Binary(operator, _, _)) => matches!(
            operator,
            Operator::Alternate | Operator::Conditional | Operator::Immediate
        ),
        Some(Node::Unary(UnaryOperator::Cursor, _)) => true,
        Some(Node::Call(name, _)) => {
            let name = part(text, *name);
            is_one_of(name, PRIMITIVES) && defined.names.count(name) == 0
        }
        _ => false,
    }
}
