//! What is asked: commands, programs, patterns and values.
ghost use Rattle.snobol.specs.Jobs.{IsInRange};

use super::rows::Question;
use sno_text::{Program, read_program};
use snobol::{Device, Job, Limits, Outcome, command, perform, run, status_of};
use std::alloc::{AllocError, Global};
use std::str::from_utf8;
use std::test::Fail;

/// The limits of a run without options.
const LIMITS: Limits = Limits {
    statements: 1_000_000,
    match_steps: 1_000_000,
};

/// The words of a command, with no file. Where they are refused the answer is the status alone.
#[derive(Drop)]
pub struct Commands;

impl Question for Commands {
    fn answer(alloc: Global, text: &[u8]) -> Result<String, Fail> {
        let words = words_of(alloc, from_utf8(text)?, "", &[])?;
        told(alloc, &words, None, b"")
    }
}

/// `OPTIONS ; PATTERN ; SUBJECT`, `PATTERN ; SUBJECT`, or a pattern alone, whose subject is A. The answer is the
/// listing.
#[derive(Drop)]
pub struct Ways;

impl Question for Ways {
    fn answer(alloc: Global, text: &[u8]) -> Result<String, Fail> {
        let (options, pattern, subject) = pattern_and_subject(from_utf8(text)?);
        let words = words_of(alloc, "snobol4 ways", options, &[pattern, subject])?;
        told(alloc, &words, None, b"")
    }
}

/// `OPTIONS ; PROGRAM <- INPUT`, where the options and the input may be missing. The answer is what the program writes.
#[derive(Drop)]
pub struct Programs;

impl Question for Programs {
    fn answer(alloc: Global, text: &[u8]) -> Result<String, Fail> {
        let text = from_utf8(text)?;
        let (options, text) = text.split_once(" ; ").unwrap_or(("", text));
        let (program, input) = text.split_once(" <- ").unwrap_or((text, ""));
        let words = words_of(alloc, "snobol4 run", options, &["f.sno"])?;
        told(alloc, &words, Some(program.as_bytes()), input.as_bytes())
    }
}

/// A program that is checked.
#[derive(Drop)]
pub struct Checks;

impl Question for Checks {
    fn answer(alloc: Global, text: &[u8]) -> Result<String, Fail> {
        told(alloc, &["snobol4", "check", "f.sno"], Some(text), b"")
    }
}

/// An expression whose value a program writes between `<` and `>`; `fails` where it fails, and `error` and the code
/// where it is an error.
#[derive(Drop)]
pub struct Values;

impl Question for Values {
    fn answer(alloc: Global, text: &[u8]) -> Result<String, Fail> {
        let program = program_of(alloc, text)?;
        let program = read_program(alloc, &program)?;
        let answer = value_of(alloc, &program)?;
        Ok(answer)
    }
}

/// A program that writes the value of an expression.
fn program_of(alloc: Global, text: &[u8]) -> Result<Vec<u8>, AllocError> {
    let mut program = Vec::new(alloc);
    program.extend_from_slice(b" OUTPUT = '<' (")?;
    program.extend_from_slice(text)?;
    program.extend_from_slice(b") '>' :S(END)\n OUTPUT = 'fails'\nEND\n")?;
    Ok(program)
}

/// What such a program tells of the value.
fn value_of(alloc: Global, program: &Program) -> Result<String, Fail> {
    let (outcome, written) = ran(alloc, program);
    let answer = value_text(alloc, outcome, from_utf8(&written)?)?;
    Ok(answer)
}

/// How a run without input ends, and what it writes.
fn ran(alloc: Global, program: &Program) -> (Outcome, Vec<u8>) {
    let mut input = Device::new(b"".as_slice());
    let mut output = Device::new(Vec::new(alloc));
    let outcome = run(alloc, program, &mut input, &mut output, LIMITS);
    (outcome, output.into_inner())
}

fn value_text(alloc: Global, outcome: Outcome, written: &str) -> Result<String, AllocError> {
    match outcome {
        Outcome::Ended => String::from_str(alloc, written.strip_suffix("\n").unwrap_or(written)),
        Outcome::Error { code, .. } => format!(in alloc; "error {code}"),
        other => format!(in alloc; "{other:?}"),
    }
}

/// The words of two texts, and further ones behind them.
fn words_of<'a>(
    alloc: Global,
    first: &'a str,
    second: &'a str,
    others: &[&'a str],
) -> Result<Vec<&'a str>, AllocError> {
    let mut words = Vec::new(alloc);
    push_words(&mut words, first)?;
    push_words(&mut words, second)?;
    words.extend_from_slice(others)?;
    Ok(words)
}

fn push_words<'a>(words: &mut Vec<&'a str>, text: &'a str) -> Result<(), AllocError> {
    for word in text.split_whitespace() {
        words.push(word)?;
    }
    Ok(())
}

fn pattern_and_subject(text: &str) -> (&str, &str, &str) {
    let Some((first, behind)) = text.split_once(" ; ") else {
        return ("", text, "A");
    };
    match behind.split_once(" ; ") {
        Some((pattern, subject)) => (first, pattern, subject),
        None => ("", first, behind),
    }
}

/// What a command gives, whose file and whose standard input hold these bytes: what it writes to standard output and,
/// where it ends with another status than 0 or writes nothing, `status` and the status. Behind that and `: ` stands
/// what it writes to standard error, if anything.
fn told(alloc: Global, words: &[&str], file: Option<&[u8]>, input: &[u8]) -> Result<String, Fail> {
    let job = match command(alloc, words) {
        Ok(job) => job,
        Err(error) => return Ok(format!(in alloc; "status {}", status_of(&error))?),
    };
    let (status, output, errors) = performed(alloc, &job, file, input);
    let answer = answer_of(alloc, &output, &errors, status)?;
    Ok(answer)
}

/// The status of a job, what it writes to standard output, and what it writes to standard error.
fn performed(
    alloc: Global,
    job: &Job<'_>,
    file: Option<&[u8]>,
    input: &[u8],
) -> (u8, Vec<u8>, Vec<u8>)
    requires { IsInRange job.now }
{
    let mut input = Device::new(input);
    let mut output = Device::new(Vec::new(alloc));
    let mut errors = Device::new(Vec::new(alloc));
    let status = perform(alloc, job, file, &mut input, &mut output, &mut errors);
    (status, output.into_inner(), errors.into_inner())
}

fn answer_of(alloc: Global, output: &[u8], errors: &[u8], status: u8) -> Result<String, Fail> {
    let mut answer = String::from_str(alloc, from_utf8(output)?)?;
    if status != 0 || output.is_empty() || !errors.is_empty() {
        let line = format!(in alloc; "status {status}")?;
        answer.push_str(line.as_str())?;
    }
    if !errors.is_empty() {
        answer.push_str(": ")?;
        answer.push_str(from_utf8(errors)?)?;
    }
    Ok(answer)
}
