//! How far a statement that is refused could still become one of the grammar. The reader itself is asked of each
//! beginning, with what may be missing behind it: a quote, an operand, a goto's target, brackets.
ghost use Rattle.std.specs.Prelude.{◌≤◌, length};

use crate::cards::{is_continuation, is_skipped};
use crate::refused::step_quote;
use bstr::ByteSlice;
use sno_text::{ReadError, read_program};
use std::alloc::{AllocError, Global};

/// A statement as one line: signs of continuations are blanks, and line ends and skipped lines are left out.
#[derive(Drop)]
pub struct Joined {
    pub bytes: Vec<u8>,
    /// Where each byte stands in the text.
    places: Vec<usize>,
    start: usize,
}

impl Joined {
    /// Where a byte of the statement stands in the text; behind its last byte the place behind that.
    pub fn place(&self, at: usize) -> usize {
        if let Some(place) = self.places.get(at) {
            return *place;
        }
        match self.places.last() {
            Some(place) => place.saturating_add(1),
            None => self.start,
        }
    }
}

/// The statement that begins at a place. `continues` tells that a sign of a continuation there continues another line.
pub fn join(
    alloc: Global,
    text: &[u8],
    start: usize,
    continues: bool,
) -> Result<Joined, AllocError> {
    let mut joined = Joined {
        bytes: Vec::new(alloc),
        places: Vec::new(alloc),
        start,
    };
    let mut at = start;
    let mut is_open = true;
    let rest = tail(text, start);
    for line in rest.lines_with_terminator() {
        let is_sign = is_continuation(line);
        if at == start {
            is_open = add_line(&mut joined, line, at, continues && is_sign)?;
        } else if !is_skipped(line) {
            if !is_open || !is_sign {
                return Ok(joined);
            }
            is_open = add_line(&mut joined, line, at, true)?;
        }
        at = at.saturating_add(line.len());
    }
    Ok(joined)
}

/// Adds a line up to its end, or up to a `;` outside literals, and tells whether it came to its end.
fn add_line(
    joined: &mut Joined,
    line: &[u8],
    from: usize,
    continues: bool,
) -> Result<bool, AllocError> {
    let mut quote = 0;
    for at in 0..length_of(line) {
        let Some(byte) = line.get(at) else {
            return Ok(true);
        };
        if quote == 0 && *byte == b';' {
            return Ok(false);
        }
        quote = step_quote(quote, *byte);
        joined
            .bytes
            .push(if continues && at == 0 { b' ' } else { *byte })?;
        joined.places.push(from.saturating_add(at))?;
    }
    Ok(true)
}

/// The length of a line without its end.
fn length_of(line: &[u8]) -> usize {
    let length = line.len();
    if byte_at(line, length.saturating_sub(1)) != b'\n' {
        return length;
    }
    if length > 1 && byte_at(line, length.saturating_sub(2)) == b'\r' {
        return length.saturating_sub(2);
    }
    length.saturating_sub(1)
}

/// A byte of some, 0 where there is none.
pub fn byte_at(bytes: &[u8], at: usize) -> u8 {
    match bytes.get(at) {
        Some(byte) => *byte,
        None => 0,
    }
}

/// The first bytes of some.
pub fn head(bytes: &[u8], count: usize) -> &[u8]
    ensures { length result.now ≤ length bytes.now }
{
    let count = count.min(bytes.len());
    &bytes[..count]
}

/// The bytes of some from a place on.
pub fn tail(bytes: &[u8], from: usize) -> &[u8] {
    let from = from.min(bytes.len());
    &bytes[from..]
}

/// How many bytes the longest beginning of a statement has with which some statement of the grammar begins. Since each
/// beginning of such a one is such a one, it is found by halving.
pub fn furthest(alloc: Global, bytes: &[u8]) -> Result<usize, AllocError> {
    // (a line of its own that begins so is a comment)
    if matches!(byte_at(bytes, 0), b'*' | b'-') {
        return Ok(0);
    }
    let mut low: usize = 0;
    let mut high = bytes.len();
    for _ in 0..64 {
        if low >= high {
            break;
        }
        let middle = high - (high - low) / 2;
        if is_beginning(alloc, head(bytes, middle))? {
            low = middle;
        } else {
            high = middle.saturating_sub(1);
        }
    }
    Ok(low)
}

/// What is open behind some bytes: a literal's quote, 0 where none is, and the brackets that close the open ones.
#[derive(Drop)]
struct Closing {
    quote: u8,
    brackets: Vec<u8>,
}

/// What may stand behind a beginning, beside what closes what is open in it.
const ENDINGS: u32 = 4;

fn ending(number: u32) -> &'static [u8] {
    match number {
        0 => b"".as_slice(),
        1 => b"X".as_slice(),
        2 => b" X".as_slice(),
        _ => b"(X)".as_slice(),
    }
}

/// Whether a statement of the grammar begins so.
fn is_beginning(alloc: Global, bytes: &[u8]) -> Result<bool, AllocError> {
    let closing = closing_of(alloc, bytes)?;
    for number in 0..ENDINGS {
        if is_statement(alloc, bytes, ending(number), &closing)? {
            return Ok(true);
        }
    }
    Ok(false)
}

fn closing_of(alloc: Global, bytes: &[u8]) -> Result<Closing, AllocError> {
    let mut closing = Closing {
        quote: 0,
        brackets: Vec::new(alloc),
    };
    for byte in bytes {
        if closing.quote == 0 {
            step_brackets(&mut closing.brackets, *byte)?;
        }
        closing.quote = step_quote(closing.quote, *byte);
    }
    Ok(closing)
}

/// Puts what closes a bracket before the others, or takes the first one away.
fn step_brackets(brackets: &mut Vec<u8>, byte: u8) -> Result<(), AllocError> {
    let closes = match byte {
        b'(' => b')',
        b'<' => b'>',
        b'[' => b']',
        b')' | b'>' | b']' => {
            if !brackets.is_empty() {
                brackets.remove(0);
            }
            return Ok(());
        }
        _ => return Ok(()),
    };
    brackets.insert(0, closes)?;
    Ok(())
}

/// Whether these bytes are a statement of the grammar, with an ending and what closes the rest behind them.
fn is_statement(
    alloc: Global,
    bytes: &[u8],
    ending: &[u8],
    closing: &Closing,
) -> Result<bool, AllocError> {
    let mut text = bytes.to_vec(alloc)?;
    if closing.quote != 0 {
        text.push(closing.quote)?;
    }
    text.extend_from_slice(ending)?;
    text.extend_from_slice(closing.brackets.as_slice())?;
    text.extend_from_slice(b"\nEND\n")?;
    match read_program(alloc, text.as_slice()) {
        Err(ReadError::Syntax { code: 3, .. }) => Ok(false),
        Err(ReadError::NoMemory) => Err(AllocError),
        _ => Ok(true),
    }
}
