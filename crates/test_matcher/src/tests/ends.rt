//! Where the primitive forms end: each place up to the end of the subject is looked at.
use super::forms::Form;
use sno_value::Prim;
use std::alloc::{AllocError, Global};

/// The ends of a primitive from a cursor, in rising order.
pub fn ends(
    alloc: Global,
    form: Form,
    subject: &[u8],
    at: usize,
) -> Result<Vec<usize>, AllocError> {
    let mut ends = Vec::new(alloc);
    for end in 0..=subject.len() {
        if is_end(form, subject, at, end) {
            ends.push(end)?;
        }
    }
    Ok(ends)
}

fn is_end(form: Form, subject: &[u8], at: usize, end: usize) -> bool {
    if at > end || end > subject.len() {
        return false;
    }
    let part = &subject[at..end];
    match form {
        Form::Text(text) => part == text,
        Form::Count(prim, n) => is_counted(prim, part.len(), end, subject.len(), n as usize),
        Form::Set(prim, set) => is_among(prim, set, part, subject.get(end).copied()),
        Form::Arb => true,
        Form::Bal => !part.is_empty() && is_balanced(part),
        Form::Rem => end == subject.len(),
        _ => false,
    }
}

/// Whether a part of so many bytes, which ends here in a subject of this length, is one for the count.
fn is_counted(prim: Prim, bytes: usize, end: usize, length: usize, n: usize) -> bool {
    match prim {
        Prim::Len => bytes == n,
        Prim::Pos => bytes == 0 && end == n,
        Prim::Rpos => bytes == 0 && length.saturating_sub(end) == n,
        Prim::Tab => end == n,
        Prim::Rtab => length.saturating_sub(end) == n,
        _ => false,
    }
}

/// Whether a part is one for the set, where this byte is behind it.
fn is_among(prim: Prim, set: &[u8], part: &[u8], behind: Option<u8>) -> bool {
    let of_set = count_of(set, part);
    let stops = behind.is_some_and(|byte| set.contains(&byte));
    match prim {
        Prim::Any => part.len() == 1 && of_set == 1,
        Prim::NotAny => part.len() == 1 && of_set == 0,
        Prim::Span => !part.is_empty() && of_set == part.len() && !stops,
        Prim::Break => of_set == 0 && stops,
        Prim::BreakX => stops,
        _ => false,
    }
}

/// The first end of a primitive with a set: each place up to the end of the subject is looked at.
pub fn first_set_end(prim: Prim, set: &[u8], subject: &[u8], at: usize) -> Option<usize> {
    for end in at..=subject.len() {
        if at <= end && end <= subject.len() {
            let behind = subject.get(end).copied();
            if is_among(prim, set, &subject[at..end], behind) {
                return Some(end);
            }
        }
    }
    None
}

/// How many bytes of a part the set has.
fn count_of(set: &[u8], part: &[u8]) -> usize {
    let mut count = 0usize;
    for byte in part {
        if set.contains(byte) {
            count = count.saturating_add(1);
        }
    }
    count
}

fn is_balanced(part: &[u8]) -> bool {
    let mut open = 0u64;
    for byte in part {
        if *byte == b'(' {
            open = open.saturating_add(1);
        }
        if *byte == b')' {
            if open == 0 {
                return false;
            }
            open -= 1;
        }
    }
    open == 0
}
