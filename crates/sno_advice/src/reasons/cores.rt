//! Why a statement is refused between its label and its goto.
use super::brackets::{has_equals, last_sign, open_bracket, word_start};
use super::{Reason, of_sign, plain};
use crate::furthest::byte_at;
use crate::survey::part;
use crate::words::is_name_byte;
use sno_text::Span;

/// What is said of operators that compare or assign in other languages.
const NO_COMPARISON: &[u8] =
    b"there is no such operator: = assigns, and functions compare, as NE and DIFFER do";

/// The bytes from one place up to another.
fn cut(bytes: &[u8], start: usize, end: usize) -> &[u8] {
    part(bytes, Span { start, end })
}

fn is_blank(byte: u8) -> bool {
    byte == b' ' || byte == b'\t' || byte == 0
}

/// Whether a byte may end an operand.
fn ends_operand(byte: u8) -> bool {
    is_name_byte(byte) || matches!(byte, b')' | b'>' | b']' | b'\'' | b'"')
}

/// Whether a byte may begin an operand that has no sign before it.
fn begins_operand(byte: u8) -> bool {
    is_name_byte(byte) || matches!(byte, b'(' | b'\'' | b'"' | b'&')
}

/// The reason at a place of the core.
pub fn in_core(bytes: &[u8], at: usize) -> Reason<'_> {
    let byte = byte_at(bytes, at);
    match byte {
        0 => at_end(bytes, at),
        b':' => before_goto(bytes, at),
        b'=' => at_equals(bytes, at),
        b',' => at_comma(bytes, at),
        b')' | b'>' | b']' => at_closing(bytes, at),
        _ => at_sign(bytes, at, byte),
    }
}

/// The reason where the statement ends too early.
fn at_end(bytes: &[u8], at: usize) -> Reason<'_> {
    match open_bracket(bytes, at) {
        Some(open) if last_sign(bytes, at) != byte_at(bytes, open) => {
            of_sign(cut(bytes, open, open.saturating_add(1)), b" is not closed")
        }
        Some(_) => plain(b"something is missing behind an opening bracket, and what closes it"),
        None => plain(b"an operand is missing behind the last sign"),
    }
}

fn before_goto(bytes: &[u8], at: usize) -> Reason<'_> {
    if let Some(open) = open_bracket(bytes, at) {
        return of_sign(
            cut(bytes, open, open.saturating_add(1)),
            b" is not closed before the goto",
        );
    }
    if is_blank(byte_at(bytes, at.saturating_sub(1))) {
        return plain(b"an operand is missing before the goto");
    }
    plain(b"a goto wants a blank before its colon")
}

fn at_equals(bytes: &[u8], at: usize) -> Reason<'_> {
    let before = byte_at(bytes, at.saturating_sub(1));
    if before == b'=' {
        return plain(b"= assigns: EQ compares numbers, IDENT texts");
    }
    if open_bracket(bytes, at).is_some() {
        return plain(
            b"no = may stand in brackets: an assignment is a statement of its own, or one is not closed",
        );
    }
    if has_equals(bytes, at) {
        return plain(b"a statement has one =");
    }
    if !is_blank(before) && !ends_operand(before) {
        return plain(
            b"there is no such operator: = assigns, and functions compare, as NE and DIFFER do",
        );
    }
    if word_start(bytes, at) == 0 || is_behind_label(bytes, at) {
        return plain(
            b"what stands in column 1 is a label: a statement without one begins with a blank",
        );
    }
    plain(b"= wants a blank on each side")
}

/// Whether nothing but a label stands before a place.
fn is_behind_label(bytes: &[u8], at: usize) -> bool {
    let mut is_label = true;
    for here in 0..at {
        let is_name = is_name_byte(byte_at(bytes, here));
        if is_name && !is_label {
            return false;
        }
        is_label = is_name;
        if !is_name && !is_blank(byte_at(bytes, here)) {
            return false;
        }
    }
    is_name_byte(byte_at(bytes, 0))
}

fn at_comma(bytes: &[u8], at: usize) -> Reason<'_> {
    let Some(open) = open_bracket(bytes, at) else {
        return plain(b"commas stand between arguments and subscripts alone");
    };
    let before = byte_at(bytes, open.saturating_sub(1));
    let far = byte_at(bytes, open.saturating_sub(2));
    if byte_at(bytes, open) == b'(' && is_blank(before) && is_name_byte(far) {
        return plain(b"no blank may stand between a function's name and (");
    }
    plain(b"commas stand between arguments and subscripts alone")
}

fn at_closing(bytes: &[u8], at: usize) -> Reason<'_> {
    let sign = cut(bytes, at, at.saturating_add(1));
    match open_bracket(bytes, at) {
        None if sign == b">".as_slice() => plain(b"functions compare: GT, GE, LGT"),
        None => of_sign(sign, b" closes nothing"),
        Some(open) if is_pair(byte_at(bytes, open), byte_at(bytes, at)) => {
            plain(b"an operand is missing before the closing bracket")
        }
        Some(open) => of_sign(
            cut(bytes, open, open.saturating_add(1)),
            b" is closed by another bracket",
        ),
    }
}

fn is_pair(opening: u8, closing: u8) -> bool {
    matches!(
        (opening, closing),
        (b'(', b')') | (b'<', b'>') | (b'[', b']')
    )
}

/// The reason at another byte.
fn at_sign(bytes: &[u8], at: usize, byte: u8) -> Reason<'_> {
    let before = byte_at(bytes, at.saturating_sub(1));
    if matches!(byte, b'+' | b'-' | b'*' | b'/' | b'|' | b'.' | b'$') && ends_operand(before) {
        return at_operator(bytes, at, byte);
    }
    if matches!(
        before,
        b'=' | b'|' | b'/' | b'+' | b'-' | b'*' | b'.' | b'$'
    ) && !is_blank(byte)
    {
        return behind_operator(bytes, at);
    }
    if is_blank(byte) {
        return at_blank(bytes, at, before);
    }
    if begins_operand(byte) && ends_operand(before) && before != byte {
        return between_operands(bytes, at, before);
    }
    at_other(bytes, at, before, byte)
}

/// The reason at a byte that belongs to nothing before it.
fn at_other(bytes: &[u8], at: usize, before: u8, byte: u8) -> Reason<'_> {
    match byte {
        b'\'' | b'"' if before == byte => {
            plain(
                b"a literal has no escapes: one with ' in it stands in \", and two values want a blank between them",
            )
        }
        b'<' | b'[' if is_blank(before) => {
            plain(
                b"no blank may stand between a name and the bracket of its subscripts, and functions compare: LT, LE",
            )
        }
        b'<' | b'[' => plain(b"subscripts stand right behind a name"),
        _ if byte >= 0x80 => plain(b"outside of literals there are signs of ASCII alone"),
        b'!' if byte_at(bytes, at.saturating_add(1)) == b'=' => plain(NO_COMPARISON),
        b'^' | b'!' if is_blank(before) => {
            of_sign(
                cut(bytes, at, at.saturating_add(1)),
                b" is no operator here: ** is the power",
            )
        }
        b'_' => plain(b"a name begins with a letter"),
        b'|' | b'/' => of_sign(
            cut(bytes, at, at.saturating_add(1)),
            b" has no operand before it",
        ),
        b'?' | b'@' | b'~' | b'&' | b'$' | b'*' => {
            of_sign(
                cut(bytes, at, at.saturating_add(1)),
                b" wants a blank before it, and what it belongs to right behind it",
            )
        }
        _ => of_sign(
            cut(bytes, at, at.saturating_add(1)),
            b" is no sign that may stand here",
        ),
    }
}

/// The reason at an operator that has no blank before it.
fn at_operator(bytes: &[u8], at: usize, byte: u8) -> Reason<'_> {
    let start = word_start(bytes, at);
    let behind = byte_at(bytes, at.saturating_add(1));
    if byte == b'.' && byte_at(bytes, start).is_ascii_digit() {
        return plain(b"a number has no point: there are integers alone");
    }
    if byte == b'*' && behind == b'*' {
        return plain(b"** wants a blank on each side");
    }
    if byte == b'-' && byte_at(bytes, start).is_ascii_alphabetic() && is_name_byte(behind) {
        return plain(b"- wants a blank on each side, and no name has a - in it");
    }
    of_sign(
        cut(bytes, at, at.saturating_add(1)),
        b" wants a blank on each side",
    )
}

/// The reason right behind an operator.
fn behind_operator(bytes: &[u8], at: usize) -> Reason<'_> {
    let sign = at.saturating_sub(1);
    let start = if byte_at(bytes, sign.saturating_sub(1)) == b'*' {
        sign.saturating_sub(1)
    } else {
        sign
    };
    of_sign(cut(bytes, start, at), b" wants a blank on each side")
}

/// The reason at a blank.
fn at_blank(bytes: &[u8], at: usize, before: u8) -> Reason<'_> {
    let sign = cut(bytes, at.saturating_sub(1), at);
    match before {
        b'?' => plain(b"? stands right before its operand, and is no operator between two"),
        b'&' => plain(b"& stands right before a keyword's name: texts are joined by a blank"),
        b'+' | b'-' | b'$' | b'.' | b'*' | b'@' | b'~' => {
            of_sign(
                sign,
                b" has no operand before it, and so stands right before one",
            )
        }
        _ => plain(b"no blank may stand here"),
    }
}

/// The reason between two operands that stand side by side.
fn between_operands(bytes: &[u8], at: usize, before: u8) -> Reason<'_> {
    let start = word_start(bytes, at);
    if is_name_byte(before) && byte_at(bytes, start).is_ascii_digit() {
        return plain(b"a name begins with a letter, and two values want a blank between them");
    }
    plain(b"two values want a blank between them")
}
