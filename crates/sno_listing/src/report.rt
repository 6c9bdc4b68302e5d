//! What is written of a program's text: its listing, with warnings behind it.
ghost use Rattle.std.specs.Prelude.{◌⊎◌, IfOk};
ghost use Rattle.sno_text.specs.Programs.{IsRefusedProgram, LacksMemory};
ghost use Rattle.sno_listing.specs.Report.{IsAccepted, IsReported};

use crate::listing::listing;
use crate::single::single;
use sno_advice::{
    Beginning, Fault, Warnings, completed, explain, find_beginning, find_fault, push_names, up_to,
    warn,
};
use sno_text::{Program, ReadError, read_program};
use std::alloc::{AllocError, Global};

/// The status of a program that is refused.
const REFUSED: u8 = 2;

/// What is written of a program.
#[derive(Drop)]
pub struct Report {
    pub text: Vec<u8>,
    pub status: u8,
}

/// The report of a text: all of it, or a statement of it by its number; None where it has no such statement.
pub fn make_report(
    alloc: Global,
    text: &[u8],
    number: Option<u32>,
) -> Result<Option<Report>, AllocError>
    ensures { IfOk result (λ report. IsReported text.now number report) }
{
    match read_program(alloc, text) {
        Ok(program) => accepted(alloc, text, &program, number),
        Err(error) => refused(alloc, text, error, number),
    }
}

/// The report of an error: what it is, the statement that is asked for, and the names that the error may be of. None
/// where the program has no such statement.
pub fn make_answer(
    alloc: Global,
    text: &[u8],
    error: u32,
    number: Option<u32>,
) -> Result<Option<Report>, AllocError> {
    let mut told = explain(alloc, error)?;
    told.push(b'\n')?;
    match read_program(alloc, text) {
        Ok(program) => {
            if let Some(number) = number {
                let Some(listed) = single(alloc, text, &program, number)? else {
                    return Ok(None);
                };
                told.extend_from_slice(listed.as_slice())?;
            }
            push_names(alloc, &mut told, text, &program, error, number)?;
            Ok(Some(Report {
                text: told,
                status: 0,
            }))
        }
        Err(refusal) => refused(alloc, text, refusal, number),
    }
}

/// The report of a program.
fn accepted(
    alloc: Global,
    text: &[u8],
    program: &Program,
    number: Option<u32>,
) -> Result<Option<Report>, AllocError>
    requires { IsAccepted text.now program.now }
    ensures { IfOk result (λ report. IsReported text.now number report) }
{
    if let Some(number) = number {
        return match single(alloc, text, program, number)? {
            Some(text) => Ok(Some(Report { text, status: 0 })),
            None => Ok(None),
        };
    }
    let mut listing = listing(alloc, text, program)?;
    let mut warnings = Warnings::new(alloc);
    warn(alloc, text, program, &mut warnings)?;
    let advice = warnings.text()?;
    listing.extend_from_slice(advice.as_slice())?;
    Ok(Some(Report {
        text: listing,
        status: 0,
    }))
}

/// The report of a text that is refused, for which there may be no memory: up to the line of the refusal, or to that in which its reason is found, and
/// both below it.
fn refused(
    alloc: Global,
    text: &[u8],
    error: ReadError,
    number: Option<u32>,
) -> Result<Option<Report>, AllocError>
    requires { LacksMemory text.now error ⊎ IsRefusedProgram text.now error }
    ensures { IfOk result (λ report. IsReported text.now number report) }
{
    if let ReadError::NoMemory = error {
        return Err(AllocError);
    }
    let mut listed = Vec::new(alloc);
    let mut warnings = Warnings::new(alloc);
    if let Some(known) = known_of(alloc, text, error)? {
        let fault = find_fault(alloc, text, error, &known)?;
        let shown = shown_of(text, error, &fault);
        listed = part_of(alloc, shown, &known.program, number)?;
        push_fault(&mut listed, text, &fault, number)?;
        if matches!(error, ReadError::NoEnd) && number.is_none() {
            warn(alloc, known.text.as_slice(), &known.program, &mut warnings)?;
        }
    }
    let line = error.to_string(alloc)?;
    listed.extend_from_slice(line.as_bytes())?;
    listed.push(b'\n')?;
    let advice = warnings.text()?;
    listed.extend_from_slice(advice.as_slice())?;
    Ok(Some(Report {
        text: listed,
        status: REFUSED,
    }))
}

/// What is known of a program that is refused.
fn known_of(alloc: Global, text: &[u8], error: ReadError) -> Result<Option<Beginning>, AllocError> {
    match line_of(error) {
        Some(0) => Ok(None),
        Some(line) => {
            let is_full = matches!(error, ReadError::TooLarge { .. });
            let known = find_beginning(alloc, text, line, is_full)?;
            Ok(known)
        }
        None => {
            let known = completed(alloc, text)?;
            Ok(known)
        }
    }
}

/// The lines of a program that are listed where it is refused.
fn shown_of<'a>(text: &'a [u8], error: ReadError, fault: &Option<Fault>) -> &'a [u8] {
    match (fault, line_of(error)) {
        (Some(fault), Some(line)) => up_to(text, line.max(fault.line)),
        (None, Some(line)) => up_to(text, line),
        (_, None) => text,
    }
}

/// Appends the reason below what is listed, if it belongs to that.
fn push_fault(
    listed: &mut Vec<u8>,
    text: &[u8],
    fault: &Option<Fault>,
    number: Option<u32>,
) -> Result<(), AllocError> {
    let Some(fault) = fault else {
        return Ok(());
    };
    if number.is_none() || number == Some(fault.number) {
        fault.append_to(listed, text)?;
    }
    Ok(())
}

/// The listing of what is shown of a program, or of a statement of it, of which there is nothing where it isn't there.
fn part_of(
    alloc: Global,
    shown: &[u8],
    program: &Program,
    number: Option<u32>,
) -> Result<Vec<u8>, AllocError> {
    let Some(number) = number else {
        let listed = listing(alloc, shown, program)?;
        return Ok(listed);
    };
    match single(alloc, shown, program, number)? {
        Some(listed) => Ok(listed),
        None => Ok(Vec::new(alloc)),
    }
}

/// The line that a refusal names; None where it names none.
fn line_of(error: ReadError) -> Option<u32> {
    match error {
        ReadError::Syntax { line, .. }
        | ReadError::DuplicateLabel { line }
        | ReadError::TooLarge { line } => Some(line),
        ReadError::NoEnd | ReadError::NoMemory => None,
    }
}
