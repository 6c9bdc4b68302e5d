//! The next line of a listing.
ghost use Rattle.std.specs.Prelude.{◌≡◌, ◌≤◌, ℕ, List, [], None, Some, Ok, Err, false, true, length, IfOk};
ghost use Rattle.std.specs.Io.KnownBytes.{Appends};
ghost use Rattle.sno_expression.specs.inner.Forms.{IsOrdered};
ghost use Rattle.sno_runtime.specs.Runtime.{IsPatternOf, tree_of, world};
ghost use Rattle.sno_statement.specs.inner.Given.{IsGivenOf, given_of};
ghost use Rattle.sno_statement.specs.Running.{Runs, devices};
ghost use Rattle.sno_statement.specs.Statements.{pattern_value};
ghost use Rattle.sno_statement.specs.Turns.{answers};
ghost use Rattle.snobol.specs.Enumeration.{Goes, TellsLine, left_of, lists_rest};
ghost use Rattle.snobol.specs.Listing.{lists};
ghost use Rattle.snobol.specs.Meaning.{calls};
ghost use Rattle.snobol.specs.inner.Running.{no_input};
ghost use Rattle.snobol.specs.inner.Telling.{CanGoOn, IsAt, Resumes, Stands, ended_by};

use crate::listing::list_event;
use crate::no_input::NoInput;
use crate::scope::Outermost;
use sno_expression::value_of;
use sno_io::{Sink, Source, put};
use sno_match::{Event, Matcher};
use sno_runtime::{Exit, Runtime, Stop};
use sno_statement::{Code, answer_of, evaluate, pattern_of};
use sno_text::Program;
use sno_value::{ExprId, PatId, Prim};

/// Tells the next line of a listing. It answers whether more may come.
pub(crate) fn tell_next<W: Sink>(
    runtime: &mut Runtime,
    program: &Program,
    expression: ExprId,
    reader: &mut NoInput,
    search: &mut Option<Matcher>,
    subject: &[u8],
    anchored: bool,
    limit: u32,
    writer: &mut W,
) -> Result<bool, Exit>
    requires stands { Stands program.now subject.now limit runtime.old (no_input reader.old.told_end) search.old }
    requires sound { (W.drain writer.old).broken ≡ false }
    ensures does { (wrote : List ℕ) × Appends (W.drain writer.old).taken (W.drain writer.new).taken wrote
        × Goes (left_of program.now expression subject.now anchored limit search.old (world runtime.old []))
        (left_of program.now expression subject.now anchored limit search.new (world runtime.new [])) wrote
        (ended_by result) }
    ensures line { result ≡ Ok true → TellsLine search.old search.new limit }
    ensures stands { result ≡ Ok true
        → Stands program.now subject.now limit runtime.new (no_input reader.new.told_end) search.new }
    ensures sound { result ≡ Ok true → (W.drain writer.new).broken ≡ false }
    ensures fault { result ≡ Err (Exit.Halt Stop.WriteFault) → (W.drain writer.new).broken ≡ true }
{
    if let Some(matcher) = search {
        return tell_line(runtime, program, reader, matcher, subject, writer);
    }
    tell_first(
        runtime, program, expression, reader, search, subject, anchored, limit, writer,
    )
}

/// Evaluates the pattern, and tells the first line of its search, which stays. A pattern that fails has no way.
fn tell_first<W: Sink>(
    runtime: &mut Runtime,
    program: &Program,
    expression: ExprId,
    reader: &mut NoInput,
    search: &mut Option<Matcher>,
    subject: &[u8],
    anchored: bool,
    limit: u32,
    writer: &mut W,
) -> Result<bool, Exit>
    requires ordered { IsOrdered program.now }
    requires subject { length subject.now ≤ 1_000_000 }
    requires can { CanGoOn runtime.old (devices (no_input reader.old.told_end) (W.drain writer.old)) }
    ensures does { (wrote : List ℕ) × Appends (W.drain writer.old).taken (W.drain writer.new).taken wrote
        × Goes (lists program.now expression subject.now anchored limit (world runtime.old []))
        (left_of program.now expression subject.now anchored limit search.new (world runtime.new [])) wrote
        (ended_by result) }
    ensures line { result ≡ Ok true → TellsLine None search.new limit }
    ensures at { result ≡ Ok true → IsAt search.new runtime.new.nodes subject.now limit }
    ensures can { result ≡ Ok true → CanGoOn runtime.new
        (devices (no_input reader.new.told_end) (W.drain writer.new)) }
    ensures fault { result ≡ Err (Exit.Halt Stop.WriteFault) → (W.drain writer.new).broken ≡ true }
{
    match evaluate_pattern(runtime, program, expression, reader, writer) {
        Ok(pattern) => {
            let alloc = runtime.alloc();
            let patterns = runtime.patterns();
            let mut matcher = Matcher::new(alloc, patterns, pattern, subject, anchored, limit)?;
            let told = tell_line(runtime, program, reader, &mut matcher, subject, writer);
            *search = Some(matcher);
            told
        }
        Err(Exit::Failure) => {
            if let Err(_fault) = put(writer, b"exhausted\n") {
                return Err(Exit::Halt(Stop::WriteFault));
            }
            Ok(false)
        }
        Err(Exit::Halt(stop)) => Err(Exit::Halt(stop)),
    }
}

/// The pattern that the expression gives.
fn evaluate_pattern<W: Sink>(
    runtime: &mut Runtime,
    program: &Program,
    expression: ExprId,
    reader: &mut NoInput,
    writer: &mut W,
) -> Result<PatId, Exit>
    requires ordered { IsOrdered program.now }
    requires can { CanGoOn runtime.old (devices (no_input reader.old.told_end) (W.drain writer.old)) }
    ensures { Runs tree_of IsPatternOf (pattern_value program.now (calls program.now) expression)
        runtime.old runtime.new (devices (no_input reader.old.told_end) (W.drain writer.old))
        (devices (no_input reader.new.told_end) (W.drain writer.new)) result }
{
    let code = Code::of(runtime.alloc(), runtime, program)?;
    let scope = Outermost { code: &code };
    let pattern = pattern_of(runtime, &scope, reader, writer, expression)?;
    Ok(pattern)
}

/// Tells the next line of a match: the event's line is written, and then the event takes effect. Deferred parts before
/// it are evaluated, and have no line. It answers whether more may come.
fn tell_line<W: Sink>(
    runtime: &mut Runtime,
    program: &Program,
    reader: &mut NoInput,
    matcher: &mut Matcher,
    subject: &[u8],
    writer: &mut W,
) -> Result<bool, Exit>
    requires ordered { IsOrdered program.now }
    requires subject { length subject.now ≤ 1_000_000 }
    requires resumes { Resumes matcher.old runtime.old.nodes subject.now matcher.old.limit }
    requires can { CanGoOn runtime.old (devices (no_input reader.old.told_end) (W.drain writer.old)) }
    ensures does { (wrote : List ℕ) × Appends (W.drain writer.old).taken (W.drain writer.new).taken wrote
        × Goes (lists_rest program.now matcher.old (world runtime.old []))
        (lists_rest program.now matcher.new (world runtime.new [])) wrote (ended_by result) }
    ensures line { IfOk result (λ more. TellsLine (Some matcher.old) (Some matcher.new) matcher.old.limit) }
    ensures resumes { result ≡ Ok true
        → Resumes matcher.new runtime.new.nodes subject.now matcher.old.limit }
    ensures can { result ≡ Ok true → CanGoOn runtime.new
        (devices (no_input reader.new.told_end) (W.drain writer.new)) }
    ensures fault { result ≡ Err (Exit.Halt Stop.WriteFault) → (W.drain writer.new).broken ≡ true }
{
    'parts: loop {
        let event = matcher.next(runtime.patterns())?;
        match event {
            Event::Value { prim, expr } => {
                let given = answer_part(runtime, program, reader, writer, prim, expr)?;
                matcher.answer(runtime.patterns(), given)?;
            }
            Event::Exhausted | Event::Aborted | Event::Limit => {
                list_event(runtime, subject, event, matcher.pending(), writer)?;
                return Ok(false);
            }
            _ => {
                list_event(runtime, subject, event, matcher.pending(), writer)?;
                return Ok(true);
            }
        }
    }
}

/// What a deferred part stands for; None where its expression fails. Its code is made for it alone.
fn answer_part<W: Sink>(
    runtime: &mut Runtime,
    program: &Program,
    reader: &mut NoInput,
    writer: &mut W,
    prim: Option<Prim>,
    expr: ExprId,
) -> Result<Option<PatId>, Exit>
    requires ordered { IsOrdered program.now }
    requires can { CanGoOn runtime.old (devices (no_input reader.old.told_end) (W.drain writer.old)) }
    ensures { Runs given_of IsGivenOf (answers program.now (calls program.now) prim expr.0) runtime.old runtime.new
        (devices (no_input reader.old.told_end) (W.drain writer.old))
        (devices (no_input reader.new.told_end) (W.drain writer.new)) result }
{
    let code = Code::of(runtime.alloc(), runtime, program)?;
    let scope = Outermost { code: &code };
    let value = evaluate(runtime, &scope, reader, writer, Some(value_of(expr)));
    let given = answer_of(runtime, prim, value)?;
    Ok(given)
}
