//! Why a statement is refused in its goto.
use super::brackets::{depth, last_sign, next_sign};
use super::{Reason, plain};
use crate::furthest::byte_at;

/// What a goto has to be.
const SHAPE: &[u8] = b"a goto is :(L), :S(L), :F(L) or :S(L)F(M), with its labels in parentheses";

/// The reason at a place behind a goto's colon.
pub fn in_goto(bytes: &[u8], at: usize, colon: usize) -> Reason<'_> {
    let byte = byte_at(bytes, at);
    let before = byte_at(bytes, at.saturating_sub(1));
    if depth(bytes, at) > depth(bytes, colon) {
        return in_target(bytes, at, byte);
    }
    match byte {
        b's' | b'f' => plain(b"S and F of a goto are capitals"),
        b'<' | b'[' => plain(b"a label of a goto stands in parentheses: there are no direct gotos"),
        b' ' | b'\t' if is_letter(before) && next_sign(bytes, at) == b'(' => {
            plain(b"no blank may stand between S or F and (")
        }
        b':' => plain(b"a goto has one colon: :S(L)F(M)"),
        b',' => plain(b"nothing stands between the parts of a goto: :S(L)F(M)"),
        b'S' | b'F' | b'(' if last_sign(bytes, at) == b')' => {
            plain(b"S and F stand once each in a goto, and a goto to any other label stands alone")
        }
        0 => plain(SHAPE),
        _ if last_sign(bytes, at) == b')' => plain(b"nothing may stand behind a goto"),
        _ => plain(SHAPE),
    }
}

fn is_letter(byte: u8) -> bool {
    byte == b'S' || byte == b'F'
}

/// The reason within the parentheses of a goto.
fn in_target(bytes: &[u8], at: usize, byte: u8) -> Reason<'_> {
    match byte {
        0 | b':' => plain(b"( is not closed"),
        b')' => plain(b"a label is missing"),
        b'\'' | b'"' => plain(b"a label has no quotes, or a $ before them"),
        _ if last_sign(bytes, at) == b'(' => {
            plain(b"a label is of letters, digits, . and _, and a computed one begins with $")
        }
        _ => plain(b"a label is of letters, digits, . and _ alone, and ) stands behind it"),
    }
}
