//! What stands before a place of a statement, outside literals: brackets, colons and names.
use crate::furthest::{byte_at, tail};
use crate::refused::step_quote;
use crate::words::is_name_byte;

/// The place of the last `:` before a place; the place itself where none is.
pub fn last_colon(bytes: &[u8], at: usize) -> usize {
    let mut quote = 0;
    let mut last = at;
    for here in 0..at {
        let byte = byte_at(bytes, here);
        if quote == 0 && byte == b':' {
            last = here;
        }
        quote = step_quote(quote, byte);
    }
    last
}

/// Whether the goto of a statement begins before a place.
pub fn is_in_goto(bytes: &[u8], at: usize) -> bool {
    last_colon(bytes, at) < at
}

/// How many brackets are open at a place.
pub fn depth(bytes: &[u8], at: usize) -> usize {
    let mut quote = 0;
    let mut depth: usize = 0;
    for here in 0..at {
        let byte = byte_at(bytes, here);
        if quote == 0 {
            depth = step_depth(depth, byte);
        }
        quote = step_quote(quote, byte);
    }
    depth
}

fn step_depth(depth: usize, byte: u8) -> usize {
    match byte {
        b'(' | b'<' | b'[' => depth.saturating_add(1),
        b')' | b'>' | b']' => depth.saturating_sub(1),
        _ => depth,
    }
}

/// The place of the innermost bracket that is open at a place, if one is.
pub fn open_bracket(bytes: &[u8], at: usize) -> Option<usize> {
    let wanted = depth(bytes, at);
    let mut quote = 0;
    let mut depth: usize = 0;
    let mut found = None;
    for here in 0..at {
        let byte = byte_at(bytes, here);
        if quote == 0 {
            let deeper = step_depth(depth, byte);
            if deeper > depth && deeper == wanted {
                found = Some(here);
            }
            depth = deeper;
        }
        quote = step_quote(quote, byte);
    }
    found
}

/// Whether a `=` stands before a place.
pub fn has_equals(bytes: &[u8], at: usize) -> bool {
    let mut quote = 0;
    for here in 0..at {
        let byte = byte_at(bytes, here);
        if quote == 0 && byte == b'=' {
            return true;
        }
        quote = step_quote(quote, byte);
    }
    false
}

/// The last byte before a place that is no blank, 0 where none is.
pub fn last_sign(bytes: &[u8], at: usize) -> u8 {
    let mut last = 0;
    for here in 0..at {
        let byte = byte_at(bytes, here);
        if byte != b' ' && byte != b'\t' {
            last = byte;
        }
    }
    last
}

/// The first byte from a place on that is no blank, 0 where none is.
pub fn next_sign(bytes: &[u8], at: usize) -> u8 {
    for byte in tail(bytes, at) {
        if *byte != b' ' && *byte != b'\t' {
            return *byte;
        }
    }
    0
}

/// Where the name or number begins that ends before a place; the place itself where none does.
pub fn word_start(bytes: &[u8], at: usize) -> usize {
    let mut start = at;
    for back in 1..at.saturating_add(1) {
        if !is_name_byte(byte_at(bytes, at.saturating_sub(back))) {
            return start;
        }
        start = at.saturating_sub(back);
    }
    start
}
