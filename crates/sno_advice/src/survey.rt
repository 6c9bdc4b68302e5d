//! What the warnings ask of a program: its nodes with the statements that they belong to, how many statements there are
//! and how their numbers are written, and where statements go.
ghost use Rattle.std.specs.Prelude.{◌≡◌, ◌==◌, [], IfOk, decimal, if◌then◌else◌, length};

use sno_text::{Jump, Node, Program, Span, Statement, Target};
use sno_value::{ExprId, int_text};
use std::alloc::{AllocError, Global};

/// The most statements of a program.
pub const MOST_STATEMENTS: u32 = 100_000;

/// Where something stands: its line, and the number of its statement; 0 where it belongs to none.
#[derive(Clone, Copy)]
pub struct Place {
    pub line: u32,
    pub number: u32,
}

/// How many statements a program has.
pub fn count_statements(program: &Program) -> u32
    ensures { result ≡ length program.now.statements }
{
    for count in 0..MOST_STATEMENTS {
        if program.statement(count + 1).is_none() {
            return count;
        }
    }
    MOST_STATEMENTS
}

/// A number in decimal, and nothing for 0.
pub fn digits_of(alloc: Global, number: u32) -> Result<Vec<u8>, AllocError>
    ensures { IfOk result (λ digits. digits.items ≡ (if number == 0 then [] else decimal number)) }
{
    if number == 0 {
        return Ok(Vec::new(alloc));
    }
    let digits = int_text(alloc, i64::from(number))?;
    Ok(digits)
}

/// The bytes of a token; none where it lies outside of the text.
pub fn part(text: &[u8], span: Span) -> &[u8] {
    if span.start <= span.end && span.end <= text.len() {
        &text[span.start..span.end]
    } else {
        b""
    }
}

/// A node by its number, where it is there.
pub fn node_at(program: &Program, id: u32) -> Option<&Node> {
    if id < program.nodes() {
        Some(program.node(ExprId(id)))
    } else {
        None
    }
}

/// The place of a node, by the places of all nodes.
pub fn place_of(places: &[Place], id: u32) -> Place {
    match places.get(id as usize) {
        Some(place) => *place,
        None => Place { line: 0, number: 0 },
    }
}

/// The places of all nodes. The nodes of a statement stand behind those of the statement before it, and its last one is
/// one of its expressions.
pub fn node_places(alloc: Global, program: &Program) -> Result<Vec<Place>, AllocError> {
    let mut places = Vec::new(alloc);
    for number in 1..MOST_STATEMENTS + 1 {
        let Some(statement) = program.statement(number) else {
            return Ok(places);
        };
        let place = Place {
            line: statement.line,
            number,
        };
        fill(&mut places, nodes_up_to(statement), place)?;
    }
    Ok(places)
}

/// Appends a place until there are so many.
fn fill(places: &mut Vec<Place>, count: usize, place: Place) -> Result<(), AllocError> {
    for _ in places.len()..count {
        places.push(place)?;
    }
    Ok(())
}

/// How many nodes there are up to the last one of a statement; 0 where it has no expression.
fn nodes_up_to(statement: &Statement) -> usize {
    let mut last = 0;
    if let Some(core) = statement.core {
        last = count_with(Some(core.subject))
            .max(count_with(core.pattern))
            .max(count_with(core.object));
    }
    let (first, second) = targets_of(statement.jump);
    last.max(count_with(expression_of(first)))
        .max(count_with(expression_of(second)))
}

/// How many nodes there are up to an expression; 0 where there is none.
fn count_with(id: Option<ExprId>) -> usize {
    match id {
        Some(ExprId(id)) => id as usize + 1,
        None => 0,
    }
}

/// Where a jump may lead.
pub fn targets_of(jump: Jump) -> (Option<Target>, Option<Target>) {
    match jump {
        Jump::Fall => (None, None),
        Jump::Always(target) => (Some(target), None),
        Jump::Either(success, failure) => (success, failure),
    }
}

/// The expression of a computed target.
pub fn expression_of(target: Option<Target>) -> Option<ExprId> {
    match target {
        Some(Target::Computed(id)) => Some(id),
        _ => None,
    }
}

/// The label of a target that is no computed one.
pub fn label_of(text: &[u8], target: Option<Target>) -> Option<&[u8]> {
    match target {
        Some(Target::Label(span)) => Some(part(text, span)),
        _ => None,
    }
}

/// Whether the statement behind one may be reached from it.
pub fn goes_on(jump: Jump) -> bool {
    match jump {
        Jump::Fall => true,
        Jump::Always(_) => false,
        Jump::Either(success, failure) => success.is_none() || failure.is_none(),
    }
}
