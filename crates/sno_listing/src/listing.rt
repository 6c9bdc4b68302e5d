//! The listing: each line of a text behind the number of the first statement that begins in it.
ghost use Rattle.std.specs.Prelude.{◌≡◌, ℕ, ◌+◌, ◌-◌, ◌<◌, ◌≤◌, ◌==◌, ◌++◌, if◌then◌else◌, drop, length};
ghost use Rattle.std.specs.Prelude.{slice_index, OnOk, IfOk};
ghost use Rattle.bstr.specs.Text.{lines_of};
ghost use Rattle.sno_listing.specs.Listing.{listed, listed_line, margin, ended, blanks};
ghost use Rattle.sno_listing.specs.inner.Listing.{AreNumbers};

use bstr::ByteSlice;
use sno_advice::{count_statements, digits_of};
use sno_text::Program;
use std::alloc::{AllocError, Global};

/// The columns of a number.
const COLUMNS: usize = 6;

/// The listing of a text: its lines in their order, each with its own bytes, behind the number that the program gives
/// to the first statement that begins in it. The number stands at the right of six columns, which are blank where no
/// statement begins, and two blanks follow. A last line without a line feed gets one.
pub fn listing(alloc: Global, text: &[u8], program: &Program) -> Result<Vec<u8>, AllocError>
    ensures { IfOk result (λ l. l.items ≡ listed text.now program.now.statements) }
{
    let numbers = first_numbers(alloc, program, count_lines(text))?;
    let mut listing = Vec::new(alloc);
    let mut at = 0;
    for line in text.lines_with_terminator() {
        push_line(alloc, &mut listing, numbers[at], line)?;
        at += 1;
    }
    Ok(listing)
}

/// How many lines a text has.
fn count_lines(text: &[u8]) -> usize
    ensures { result ≡ length (lines_of text.now) }
{
    let mut count = 0;
    for _line in text.lines_with_terminator() {
        count += 1;
    }
    count
}

/// The number of the first statement that begins in each line, line 1 first; 0 where none does. The statements are gone
/// through from the last to the first, so that the first of a line is the one that stays.
#[tactic(auto, using(crate::proofs::Numbers::number_facts))]
fn first_numbers(alloc: Global, program: &Program, lines: usize) -> Result<Vec<u32>, AllocError>
    ensures { IfOk result (λ v. AreNumbers lines 1 program.now.statements v.items) }
{
    let mut numbers = vec![in alloc; 0; lines]?;
    let mut number = count_statements(program);
    'statements: while number > 0 {
        mark_statement(&mut numbers, program, number);
        number -= 1;
    }
    Ok(numbers)
}

/// Sets the number of the line in which a statement begins.
fn mark_statement(numbers: &mut Vec<u32>, program: &Program, number: u32)
    requires some { 0 < number }
    requires within { number ≤ length program.now.statements }
    ensures { (lines : ℕ) → AreNumbers lines (number + 1) (drop number program.now.statements) numbers.old.items
        → AreNumbers lines number (drop (number - 1) program.now.statements) numbers.new.items }
{
    if let Some(statement) = program.statement(number) {
        mark(numbers, statement.line, number);
    }
}

/// Sets the number of a line, where there is this line.
fn mark(numbers: &mut Vec<u32>, line: u32, number: u32)
    ensures count { length numbers.new.items ≡ length numbers.old.items }
    ensures each { (k : ℕ) → k < length numbers.old.items →
        slice_index numbers.new.items k ≡ (if line == k + 1 then number else slice_index numbers.old.items k) }
{
    let at = line as usize;
    if at > 0 && at <= numbers.len() {
        numbers[at - 1] = number;
    }
}

/// Appends a line as it is listed.
pub fn push_line(
    alloc: Global,
    listing: &mut Vec<u8>,
    number: u32,
    line: &[u8],
) -> Result<(), AllocError>
    ensures { OnOk result (listing.new.items ≡ listing.old.items ++ listed_line number line.now) }
{
    push_margin(alloc, listing, number)?;
    push_ended(listing, line)?;
    Ok(())
}

/// Appends what stands before a line.
fn push_margin(alloc: Global, listing: &mut Vec<u8>, number: u32) -> Result<(), AllocError>
    ensures { OnOk result (listing.new.items ≡ listing.old.items ++ margin number) }
{
    let digits = digits_of(alloc, number)?;
    push_blanks(listing, COLUMNS.saturating_sub(digits.len()))?;
    listing.extend_from_slice(digits.as_slice())?;
    listing.push(b' ')?;
    listing.push(b' ')?;
    Ok(())
}

/// Appends blanks.
#[tactic(auto, using(crate::proofs::Listings::listing_facts))]
fn push_blanks(listing: &mut Vec<u8>, count: usize) -> Result<(), AllocError>
    ensures { OnOk result (listing.new.items ≡ listing.old.items ++ blanks count) }
{
    for _ in 0..count {
        listing.push(b' ')?;
    }
    Ok(())
}

/// Appends a line's own bytes, and a line feed where they don't end in one.
fn push_ended(listing: &mut Vec<u8>, line: &[u8]) -> Result<(), AllocError>
    ensures { OnOk result (listing.new.items ≡ listing.old.items ++ ended line.now) }
{
    listing.extend_from_slice(line)?;
    if line.is_empty() || line[line.len() - 1] != b'\n' {
        listing.push(b'\n')?;
    }
    Ok(())
}
