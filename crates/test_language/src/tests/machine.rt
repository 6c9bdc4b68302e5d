//! Expressions and matches that a machine is asked for, call after call.
ghost use Rattle.std.specs.Prelude.{◌≡◌, ◌≤◌, ◌<◌, None, length, IfOk, IfSome};
ghost use Rattle.sno_statement.specs.Running.{CanRun, devices};

use super::rows::{Question, check_blocks};
use sno_text::{Program, read_expression};
use sno_value::{ExprId, PatId};
use snobol::{Device, Limits, Machine, Outcome, Sink, Source};
use std::alloc::Global;
use std::str::from_utf8;
use std::test::Fail;

const LIMITS: Limits = Limits {
    statements: 1_000_000,
    match_steps: 100,
};

/// The most bytes of a subject.
const MOST_BYTES: usize = 1_000_000;

/// What a match answers.
type Found = Result<Option<(usize, usize)>, Outcome>;

/// An error outside any statement.
fn error(code: u8) -> Outcome {
    Outcome::Error { code, statement: 0 }
}

/// The pattern of an expression. Of what `pattern` ensures this says no more than that a test may go on.
fn pattern<R: Source, W: Sink>(
    machine: &mut Machine<'_>,
    reader: &mut R,
    writer: &mut W,
    expression: ExprId,
) -> Result<Option<PatId>, Outcome>
    requires ready { machine.old.stopped ≡ None
        → CanRun machine.old.state (devices (R.feed reader.old) (W.drain writer.old)) }
    ensures ready { machine.new.stopped ≡ None
        → CanRun machine.new.state (devices (R.feed reader.new) (W.drain writer.new)) }
    ensures nodes { length machine.old.state.nodes ≤ length machine.new.state.nodes }
    ensures pattern { IfOk result (λ answer. IfSome answer (λ id. id.0 < length machine.new.state.nodes)) }
{
    let answer = machine.pattern(reader, writer, expression);
    answer
}

/// Where a pattern first matches. Of what `match_first` ensures this says no more than that a test may go on.
fn match_first<R: Source, W: Sink>(
    machine: &mut Machine<'_>,
    reader: &mut R,
    writer: &mut W,
    pattern: PatId,
    subject: &[u8],
) -> Found
    requires pattern { pattern.0 < length machine.old.state.nodes }
    requires subject { length subject.now ≤ 1_000_000 }
    requires ready { machine.old.stopped ≡ None
        → CanRun machine.old.state (devices (R.feed reader.old) (W.drain writer.old)) }
    ensures ready { machine.new.stopped ≡ None
        → CanRun machine.new.state (devices (R.feed reader.new) (W.drain writer.new)) }
{
    let found = machine.match_first(reader, writer, pattern, subject);
    found
}

/// Where the pattern that an expression gives first matches.
fn find<R: Source, W: Sink>(
    machine: &mut Machine<'_>,
    reader: &mut R,
    writer: &mut W,
    expression: ExprId,
    subject: &[u8],
) -> Found
    requires subject { length subject.now ≤ 1_000_000 }
    requires ready { machine.old.stopped ≡ None
        → CanRun machine.old.state (devices (R.feed reader.old) (W.drain writer.old)) }
    ensures ready { machine.new.stopped ≡ None
        → CanRun machine.new.state (devices (R.feed reader.new) (W.drain writer.new)) }
{
    match pattern(machine, reader, writer, expression) {
        Ok(Some(pattern)) => match_first(machine, reader, writer, pattern, subject),
        Ok(None) => Ok(None),
        Err(outcome) => Err(outcome),
    }
}

/// The number of the pattern that an expression gives.
#[derive(Drop)]
pub struct PatternNumbers;

impl Question for PatternNumbers {
    fn answer(alloc: Global, text: &[u8]) -> Result<String, Fail> {
        match pattern_of(alloc, text)? {
            Ok(Some(pattern)) => Ok(format!(in alloc; "pattern {}", pattern.0)?),
            Ok(None) => Ok(String::from_str(alloc, "fails")?),
            Err(outcome) => stop_text(alloc, outcome),
        }
    }
}

/// What a new machine answers for the pattern of an expression.
fn pattern_of(alloc: Global, text: &[u8]) -> Result<Result<Option<PatId>, Outcome>, Fail> {
    let (program, expression) = read_expression(alloc, text)?;
    let pattern = pattern_by_new(alloc, &program, expression);
    Ok(pattern)
}

/// The same over a program that is lent.
fn pattern_by_new(
    alloc: Global,
    program: &Program,
    expression: ExprId,
) -> Result<Option<PatId>, Outcome> {
    let mut machine = Machine::new(alloc, program, LIMITS)?;
    let mut input = Device::new(b"".as_slice());
    let mut output = Device::new(Vec::new(alloc));
    let answer = pattern(&mut machine, &mut input, &mut output, expression);
    answer
}

/// `PATTERN ; SUBJECT ; SUBJECT`: what is found of an expression's pattern in a first and in a second subject, where
/// INPUT gives the lines `A` and `B`, behind what is written.
#[derive(Drop)]
pub struct Finds;

impl Question for Finds {
    fn answer(alloc: Global, text: &[u8]) -> Result<String, Fail> {
        let (pattern, subjects) = from_utf8(text)?.split_once(" ; ").unwrap_or_default();
        let (first, second) = subjects.split_once(" ; ").unwrap_or_default();
        if first.len() > MOST_BYTES || second.len() > MOST_BYTES {
            return Err(Fail::from("a subject is too long"));
        }
        let (first, second, written) = found_in_both(
            alloc,
            pattern.as_bytes(),
            first.as_bytes(),
            second.as_bytes(),
        )?;
        let first = found_text(alloc, first)?;
        let second = found_text(alloc, second)?;
        Ok(format!(in alloc; "{}{first}, {second}", from_utf8(&written)?)?)
    }
}

/// What one machine finds of an expression's pattern in a first and in a second subject, and what it writes.
fn found_in_both(
    alloc: Global,
    pattern: &[u8],
    first: &[u8],
    second: &[u8],
) -> Result<(Found, Found, Vec<u8>), Fail>
    requires first { length first.now ≤ 1_000_000 }
    requires second { length second.now ≤ 1_000_000 }
{
    let (program, expression) = read_expression(alloc, pattern)?;
    let found = found_by_new(alloc, &program, expression, first, second)?;
    Ok(found)
}

/// The same over a program that is lent.
fn found_by_new(
    alloc: Global,
    program: &Program,
    expression: ExprId,
    first: &[u8],
    second: &[u8],
) -> Result<(Found, Found, Vec<u8>), Outcome>
    requires first { length first.now ≤ 1_000_000 }
    requires second { length second.now ≤ 1_000_000 }
{
    let mut machine = Machine::new(alloc, program, LIMITS)?;
    let mut input = Device::new(b"A\nB".as_slice());
    let mut output = Device::new(Vec::new(alloc));
    let first = find(&mut machine, &mut input, &mut output, expression, first);
    let second = find(&mut machine, &mut input, &mut output, expression, second);
    Ok((first, second, output.into_inner()))
}

fn stop_text(alloc: Global, outcome: Outcome) -> Result<String, Fail> {
    match outcome {
        Outcome::Error { code, statement } => {
            Ok(format!(in alloc; "error {code} in statement {statement}")?)
        }
        other => Ok(format!(in alloc; "{other:?}")?),
    }
}

fn found_text(alloc: Global, found: Found) -> Result<String, Fail> {
    match found {
        Ok(Some((start, end))) => Ok(format!(in alloc; "{start}-{end}")?),
        Ok(None) => Ok(String::from_str(alloc, "none")?),
        Err(outcome) => stop_text(alloc, outcome),
    }
}

const FIRST_WAYS: &str = r"
LEN(1) . X ; AB ;  => 0-1, none
'B' ; B ; AC => 0-1, none
LEN(1) $ OUTPUT ; AB ; C => A\nC\n0-1, 0-1
LEN(1) . OUTPUT RPOS(0) ; A ; AB => A\nB\n0-1, 1-2
";

/// Patterns are read from the input, line after line, up to its end.
const PATTERNS_OF_INPUT: &str = r"
INPUT ; AB ; AB => 0-1, 1-2
INPUT INPUT INPUT ; AB ; AB => none, none
";

/// What stops a machine is answered again, and it writes nothing more.
const STOPS: &str = r"
ARBNO(ARBNO('A')) 'B' ; AAAAAAAAAAAA ; B => error 21 in statement 0, error 21 in statement 0
ARBNO(ARBNO('A')) 'B' ; B ; AAAAAAAAAAAA => 0-1, error 21 in statement 0
LEN(-1) ; A ; A => error 7 in statement 0, error 7 in statement 0
";

/// What a machine answers behind an error: for the expression whose pattern is the error, and for a match.
type Refused = (Result<Option<PatId>, Outcome>, Found);

/// Asks for the pattern of a part, and then for that of the whole, which is an error, and for a match of the part.
fn asked_behind_error<R: Source, W: Sink>(
    machine: &mut Machine<'_>,
    reader: &mut R,
    writer: &mut W,
    part: ExprId,
    whole: ExprId,
) -> Option<Refused>
    requires ready { machine.old.stopped ≡ None
        → CanRun machine.old.state (devices (R.feed reader.old) (W.drain writer.old)) }
{
    let Ok(Some(id)) = pattern(machine, reader, writer, part) else {
        return None;
    };
    let refused = pattern(machine, reader, writer, whole);
    let again = match_first(machine, reader, writer, id, b"A");
    Some((refused, again))
}

/// What a new machine answers behind an error, and what it has written then; None where the part has no pattern.
fn refused_by_new(
    alloc: Global,
    program: &Program,
    whole: ExprId,
) -> Result<(Option<Refused>, Vec<u8>), Outcome> {
    // The first four expressions are 1, LEN(1), OUTPUT and LEN(1) $ OUTPUT.
    let part = ExprId(3);
    let mut machine = Machine::new(alloc, program, LIMITS)?;
    let mut input = Device::new(b"".as_slice());
    let mut output = Device::new(Vec::new(alloc));
    let refused = asked_behind_error(&mut machine, &mut input, &mut output, part, whole);
    Ok((refused, output.into_inner()))
}

/// What is refused behind the error of LEN(-1), and what is written then.
fn refused_behind_error(alloc: Global) -> Result<(Option<Refused>, Vec<u8>), Fail> {
    let (program, whole) = read_expression(alloc, b"LEN(1) $ OUTPUT | LEN(-1)")?;
    let refused = refused_by_new(alloc, &program, whole)?;
    Ok(refused)
}

/// Each later call answers the error, whatever it asks, and writes nothing.
#[test]
fn errors_stay(rt: HostRuntime) -> Result<(), Fail> {
    let (refused, written) = refused_behind_error(rt.alloc())?;
    assert_eq!(rt; refused, Some((Err(error(7)), Err(error(7)))));
    assert!(rt; written.is_empty());
    Ok(())
}

#[test]
fn rows(rt: HostRuntime) -> Result<(), Fail> {
    check_blocks::<Finds, _>(&rt, &[FIRST_WAYS, PATTERNS_OF_INPUT, STOPS])
}
