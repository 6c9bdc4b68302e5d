//! Where a statement that is refused is most likely wrong, and why.
ghost use Rattle.std.specs.Prelude.{◌≡◌, length, IfOk, IfSome};

use crate::cards::is_skipped;
use crate::furthest::{byte_at, furthest, head, join, tail};
use crate::reasons::find_reason;
use crate::refused::{Beginning, line_start, step_quote};
use crate::survey::count_statements;
use crate::words::is_name_byte;
use bstr::ByteSlice;
use sno_text::ReadError;
use std::alloc::{AllocError, Global};

/// The columns before the lines of a listing.
const MARGIN: &[u8] = b"        ";

/// The length of what stands behind a beginning: END and a line feed.
const END_LENGTH: usize = 4;

/// A place of a text, and why the statement there is most likely refused.
#[derive(Drop)]
pub struct Fault {
    at: usize,
    pub line: u32,
    /// The number that the statement would have.
    pub number: u32,
    reason: Vec<u8>,
}

impl Fault {
    /// Appends a mark below the line that was listed last, and the reason.
    pub fn append_to(&self, listing: &mut Vec<u8>, text: &[u8]) -> Result<(), AllocError> {
        listing.extend_from_slice(MARGIN)?;
        let start = line_start(text, self.line);
        for at in start..self.at {
            let byte = byte_at(text, at);
            if byte == b'\t' {
                listing.push(byte)?;
            } else if !is_later_byte(byte) {
                listing.push(b' ')?;
            }
        }
        listing.extend_from_slice(b"^ perhaps: ")?;
        listing.extend_from_slice(self.reason.as_slice())?;
        listing.push(b'\n')?;
        Ok(())
    }
}

/// Whether a byte is one of UTF-8 that begins no character, and so takes no column.
fn is_later_byte(byte: u8) -> bool {
    (0x80..0xc0).contains(&byte)
}

/// The fault of a statement that is refused by its grammar or by an open literal, where the statements before it are
/// known.
pub fn find_fault(
    alloc: Global,
    text: &[u8],
    error: ReadError,
    known: &Beginning,
) -> Result<Option<Fault>, AllocError>
    ensures { IfOk result (λ found. IfSome found (λ fault. fault.number ≡ length known.now.program.statements)) }
{
    let ReadError::Syntax { code, .. } = error else {
        return Ok(None);
    };
    if !known.is_exact {
        return Ok(None);
    }
    let start = known.text.len().saturating_sub(END_LENGTH);
    let number = count_statements(&known.program);
    match code {
        1 => {
            let found = open_literal(alloc, text, start, number)?;
            Ok(found)
        }
        3 => {
            let found = wrong_place(alloc, text, start, number)?;
            Ok(Some(found))
        }
        _ => Ok(None),
    }
}

/// The furthest place of the statement that begins at a place, and the reason there.
fn wrong_place(alloc: Global, text: &[u8], start: usize, number: u32) -> Result<Fault, AllocError>
    ensures { IfOk result (λ fault. fault.number ≡ number) }
{
    let begins_line = start == 0 || byte_at(text, start.saturating_sub(1)) == b'\n';
    let statement = join(alloc, text, start, begins_line && number > 1)?;
    let bytes = statement.bytes.as_slice();
    let at = furthest(alloc, bytes)?;
    let found = find_reason(bytes, at);
    let mut reason = found.before.to_vec(alloc)?;
    reason.extend_from_slice(found.sign)?;
    reason.extend_from_slice(found.behind)?;
    let at = statement.place(at);
    Ok(Fault {
        at,
        line: line_at(text, at),
        number,
        reason,
    })
}

/// The first literal behind a place that is open at the end of its line.
fn open_literal(
    alloc: Global,
    text: &[u8],
    start: usize,
    number: u32,
) -> Result<Option<Fault>, AllocError>
    ensures { IfOk result (λ found. IfSome found (λ fault. fault.number ≡ number)) }
{
    let mut from = start;
    let rest = tail(text, start);
    for line in rest.lines_with_terminator() {
        if let Some(quote) = open_quote(line) {
            let at = from.saturating_add(quote);
            let reason = if ends_another(line, quote) {
                b"a literal ends at the next quote like its first: one with ' in it stands in \"".as_slice()
            } else {
                b"the literal that begins here has no end in this line".as_slice()
            };
            return Ok(Some(Fault {
                at,
                line: line_at(text, at),
                number,
                reason: reason.to_vec(alloc)?,
            }));
        }
        from = from.saturating_add(line.len());
    }
    Ok(None)
}

/// Where the literal begins that is open at the end of a line, if one is.
fn open_quote(line: &[u8]) -> Option<usize> {
    if is_skipped(line) {
        return None;
    }
    let mut quote = 0;
    let mut open = None;
    for at in 0..line.len() {
        let before = quote;
        quote = step_quote(quote, byte_at(line, at));
        if before == 0 && quote != 0 {
            open = Some(at);
        }
    }
    if quote == 0 { None } else { open }
}

/// Whether a quote of a line most likely ends a literal with such a quote in it: right behind a letter, and not the first.
fn ends_another(line: &[u8], at: usize) -> bool {
    let byte = byte_at(line, at);
    if !is_name_byte(byte_at(line, at.saturating_sub(1))) {
        return false;
    }
    for other in head(line, at) {
        if *other == byte {
            return true;
        }
    }
    false
}

/// The line of a place.
fn line_at(text: &[u8], at: usize) -> u32 {
    let mut line: u32 = 1;
    for byte in head(text, at) {
        if *byte == b'\n' {
            line = line.saturating_add(1);
        }
    }
    line
}
