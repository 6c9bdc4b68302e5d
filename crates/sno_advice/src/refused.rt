//! What is known of a program that the reader refuses: its statements before the one that is refused.
ghost use Rattle.std.specs.Prelude.{◌≡◌, ◌≤◌, ◌++◌, length, IfOk, IfSome, List, ℕ};
ghost use Rattle.sno_advice.specs.inner.Beginning.{IsAccepted};

use sno_text::{Program, ReadError, read_program};
use std::alloc::{AllocError, Global};

/// The statements before the one that is refused, read with an END behind them.
#[derive(Drop)]
pub struct Beginning {
    pub text: Vec<u8>,
    pub program: Program,
    /// Whether END stands in the place of the statement that is refused, and so has its number.
    pub is_exact: bool,
}

/// The beginning of a text in which the statement that is refused begins in this line, from 1. Where that is refused
/// since the program is full, END may stand in the place of the statement before it.
pub fn find_beginning(
    alloc: Global,
    text: &[u8],
    line: u32,
    is_full: bool,
) -> Result<Option<Beginning>, AllocError>
    ensures accepted { IfOk result (λ found. IfSome found IsAccepted) }
{
    let cuts = cuts_of(alloc, text, line)?;
    let found = last_accepted(alloc, text, cuts.as_slice())?;
    if found.is_some() {
        return Ok(found);
    }
    let mut back = 1;
    for _ in 0..32 {
        let before = line.saturating_sub(back);
        let found = before_line(alloc, text, line, before, is_full)?;
        if found.is_some() {
            return Ok(found);
        }
        back = back.saturating_mul(2);
    }
    Ok(None)
}

/// A text without END, with one behind it; where it has no room for that, in the place of its last statement.
pub fn completed(alloc: Global, text: &[u8]) -> Result<Option<Beginning>, AllocError>
    ensures accepted { IfOk result (λ found. IfSome found IsAccepted) }
{
    let found = read_with_end(alloc, text, 1, false)?;
    if found.is_some() {
        return Ok(found);
    }
    find_beginning(alloc, text, last_line(text), true)
}

/// The number of the last line of a text.
fn last_line(text: &[u8]) -> u32 {
    let mut line: u32 = 1;
    for at in 0..text.len().saturating_sub(1) {
        if text[at] == b'\n' {
            line = line.saturating_add(1);
        }
    }
    line
}

/// The places at which a statement may begin in a line: its start, and behind each `;` outside literals.
fn cuts_of(alloc: Global, text: &[u8], line: u32) -> Result<Vec<usize>, AllocError> {
    let start = line_start(text, line);
    let mut cuts = Vec::new(alloc);
    cuts.push(start)?;
    let mut quote = 0;
    for at in start..line_end(text, start) {
        if quote == 0 && text[at] == b';' {
            cuts.push(at + 1)?;
        }
        quote = step_quote(quote, text[at]);
    }
    Ok(cuts)
}

/// The beginning up to the last of these places up to which the text is accepted. It is so up to the statement that is
/// refused and not behind it, but maybe at the first place, which may lie within a statement.
fn last_accepted(
    alloc: Global,
    text: &[u8],
    cuts: &[usize],
) -> Result<Option<Beginning>, AllocError>
    ensures accepted { IfOk result (λ found. IfSome found IsAccepted) }
{
    let mut best = None;
    let mut low = 1;
    let mut high = cuts.len();
    for _ in 0..64 {
        if low >= high {
            break;
        }
        let middle = low + (high - low) / 2;
        let Some(cut) = cuts.get(middle) else {
            break;
        };
        match read_to(alloc, text, *cut)? {
            Some(found) => {
                best = Some(found);
                low = middle + 1;
            }
            None => high = middle,
        }
    }
    match (best, cuts.first()) {
        (None, Some(first)) => read_to(alloc, text, *first),
        (best, _) => Ok(best),
    }
}

/// The beginning up to a place, with END there.
fn read_to(alloc: Global, text: &[u8], end: usize) -> Result<Option<Beginning>, AllocError>
    ensures accepted { IfOk result (λ found. IfSome found IsAccepted) }
{
    let end = end.min(text.len());
    read_with_end(alloc, &text[..end], 0, true)
}

/// The beginning up to the start of a line, with END behind another line; of a full program with END in its place, if
/// a statement begins there.
fn before_line(
    alloc: Global,
    text: &[u8],
    line: u32,
    before: u32,
    is_full: bool,
) -> Result<Option<Beginning>, AllocError>
    ensures accepted { IfOk result (λ found. IfSome found IsAccepted) }
{
    let start = line_start(text, before);
    if is_full && begins_statement(text, start) {
        let found = read_with_end(alloc, &text[..start], 0, false)?;
        if found.is_some() {
            return Ok(found);
        }
    }
    cut_lines(alloc, text, line, before)
}

/// Whether the line that begins at a place is no comment, no control line and no continuation.
fn begins_statement(text: &[u8], start: usize) -> bool {
    match text.get(start) {
        Some(byte) => !matches!(*byte, b'*' | b'-' | b'+' | b'.' | b'\n'),
        None => false,
    }
}

/// The beginning up to the start of a line, with END behind another line.
fn cut_lines(
    alloc: Global,
    text: &[u8],
    line: u32,
    before: u32,
) -> Result<Option<Beginning>, AllocError>
    ensures accepted { IfOk result (λ found. IfSome found IsAccepted) }
{
    let end = line_start(text, before);
    let feeds = line.saturating_sub(before).saturating_add(1);
    read_with_end(alloc, &text[..end], feeds as usize, false)
}

/// Reads a text with so many line feeds and END behind it. None where it is refused.
fn read_with_end(
    alloc: Global,
    text: &[u8],
    feeds: usize,
    is_exact: bool,
) -> Result<Option<Beginning>, AllocError>
    ensures accepted { IfOk result (λ found. IfSome found IsAccepted) }
{
    let mut text = text.to_vec(alloc)?;
    for _ in 0..feeds {
        text.push(b'\n')?;
    }
    text.extend_from_slice(b"END\n")?;
    match read_program(alloc, text.as_slice()) {
        Ok(program) => Ok(Some(Beginning {
            text,
            program,
            is_exact,
        })),
        Err(ReadError::NoMemory) => Err(AllocError),
        Err(_) => Ok(None),
    }
}

/// Where a line begins; the end of the text where there is no such line.
pub fn line_start(text: &[u8], line: u32) -> usize
    ensures { result ≤ length text.now }
{
    let mut here: u32 = 1;
    if line <= 1 {
        return 0;
    }
    for at in 0..text.len() {
        if text[at] == b'\n' {
            here = here.saturating_add(1);
            if here == line {
                return at + 1;
            }
        }
    }
    text.len()
}

/// Where the line at a place ends, its line feed with it.
pub fn line_end(text: &[u8], from: usize) -> usize
    requires { from ≤ length text.now }
    ensures order { from ≤ result }
    ensures within { result ≤ length text.now }
{
    for at in from..text.len() {
        if text[at] == b'\n' {
            return at + 1;
        }
    }
    text.len()
}

/// A text up to the end of a line.
pub fn up_to(text: &[u8], line: u32) -> &[u8]
    ensures { (rest : List ℕ) × (text.now ≡ result.now ++ rest) }
{
    let end = line_end(text, line_start(text, line));
    &text[..end]
}

/// The quote of the literal that is open behind a byte, 0 where none is.
pub fn step_quote(quote: u8, byte: u8) -> u8 {
    if quote == 0 && (byte == b'\'' || byte == b'"') {
        byte
    } else if byte == quote {
        0
    } else {
        quote
    }
}
