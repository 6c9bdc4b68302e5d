//! Why a statement is most likely refused: guesses, from the bytes around the furthest place that the reader came to.
mod brackets;
mod cores;
mod gotos;

use crate::furthest::{byte_at, head};
use crate::words::is_name_byte;
use brackets::{is_in_goto, last_colon};

/// A reason, with a part of the statement within.
#[derive(Clone, Copy)]
pub struct Reason<'a> {
    pub before: &'a [u8],
    pub sign: &'a [u8],
    pub behind: &'a [u8],
}

/// A reason that names nothing.
fn plain<'a>(text: &'a [u8]) -> Reason<'a> {
    Reason {
        before: text,
        sign: b"".as_slice(),
        behind: b"".as_slice(),
    }
}

/// A reason that begins with a part of the statement.
fn of_sign<'a>(sign: &'a [u8], behind: &'a [u8]) -> Reason<'a> {
    Reason {
        before: b"".as_slice(),
        sign,
        behind,
    }
}

/// The reason that fits best where a statement can't go on at a place; some of its bytes stand before it.
pub fn find_reason(bytes: &[u8], at: usize) -> Reason<'_> {
    let label = label_length(bytes);
    if at <= label {
        return in_label(bytes, at);
    }
    if head(bytes, label) == b"END".as_slice() {
        return plain(b"END has nothing behind it but a label");
    }
    if is_in_goto(bytes, at) {
        return gotos::in_goto(bytes, at, last_colon(bytes, at));
    }
    cores::in_core(bytes, at)
}

/// How many bytes the name in column 1 has.
fn label_length(bytes: &[u8]) -> usize {
    for at in 0..bytes.len() {
        if !is_name_byte(byte_at(bytes, at)) {
            return at;
        }
    }
    bytes.len()
}

/// The reason where the furthest place is the label or right behind it.
fn in_label(bytes: &[u8], at: usize) -> Reason<'_> {
    let byte = byte_at(bytes, at);
    if at == 0 {
        return match byte {
            b':' => plain(b"what stands in column 1 is a label: a goto wants a blank before it"),
            b'+' | b'.' => plain(b"there is no line that this one continues"),
            b'*' | b'-' => plain(b"a comment is a line of its own"),
            b'#' | b'/' | b'%' => plain(b"a comment has * in column 1"),
            _ => plain(
                b"what stands in column 1 is a label: a statement without one begins with a blank",
            ),
        };
    }
    match byte {
        b' ' | b'\t' | 0 => plain(b"RETURN and FRETURN are no labels of statements"),
        b':' if matches!(byte_at(bytes, at.saturating_add(1)), b' ' | b'\t' | 0) => {
            plain(b"a label has no colon behind it, but a blank")
        }
        b':' => plain(b"a goto wants a blank before its colon"),
        _ => plain(
            b"what stands in column 1 is a label, of letters, digits, . and _: a statement without one begins with a blank",
        ),
    }
}
