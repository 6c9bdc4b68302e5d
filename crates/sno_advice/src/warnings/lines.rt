//! Lines that are not read as one may think: what stands behind END, and control lines that name a file.
use crate::cards::{is_continuation, is_skipped, last_line};
use crate::survey::Place;
use crate::warnings::Warnings;
use bstr::ByteSlice;
use sno_text::Program;
use std::alloc::AllocError;

/// Warns of lines.
pub fn warn(text: &[u8], program: &Program, warnings: &mut Warnings) -> Result<(), AllocError> {
    let end = last_line(program);
    let mut at: u32 = 0;
    let mut in_end = true;
    for line in text.lines_with_terminator() {
        at = at.saturating_add(1);
        let place = Place {
            line: at,
            number: 0,
        };
        if at <= end {
            warn_of_control(place, line, warnings)?;
        } else if !is_skipped(line) && !(in_end && is_continuation(line)) {
            if in_end {
                warnings.add(place, b"what stands behind END is not read", b"", b"")?;
            }
            in_end = false;
        }
    }
    Ok(())
}

/// Warns of a control line that takes in a file elsewhere.
fn warn_of_control(place: Place, line: &[u8], warnings: &mut Warnings) -> Result<(), AllocError> {
    if begins_with(line, b"-INCLUDE") || begins_with(line, b"-COPY") {
        warnings.add(
            place,
            b"a control line is a comment: it takes in no file",
            b"",
            b"",
        )?;
    }
    Ok(())
}

/// Whether a line begins with this word, in large or small letters.
fn begins_with(line: &[u8], word: &[u8]) -> bool {
    line.len() >= word.len() && line[..word.len()].eq_ignore_ascii_case(word)
}
