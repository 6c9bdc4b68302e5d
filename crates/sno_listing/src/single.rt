//! One statement alone: the lines in which it stands.
ghost use Rattle.std.specs.Prelude.{◌≡◌, IfOk};
ghost use Rattle.std.specs.Option.{is_some};
ghost use Rattle.sno_listing.specs.Report.{statement_with};

use crate::listing::push_line;
use bstr::ByteSlice;
use sno_advice::{is_closed, is_continuation, is_skipped};
use sno_text::Program;
use std::alloc::{AllocError, Global};

/// The lines of the statement with this number, listed, None where there is none: the line in which it begins, and
/// those in which it goes on.
pub fn single(
    alloc: Global,
    text: &[u8],
    program: &Program,
    number: u32,
) -> Result<Option<Vec<u8>>, AllocError>
    ensures { IfOk result (λ told. is_some told ≡ is_some (statement_with number program.now.statements)) }
{
    let Some(statement) = program.statement(number) else {
        return Ok(None);
    };
    let first = statement.line;
    let last = last_line_of(text, first, line_behind(program, number));
    let mut listing = Vec::new(alloc);
    let mut at: u32 = 0;
    for line in text.lines_with_terminator() {
        at = at.saturating_add(1);
        if first <= at && at <= last {
            push_line(
                alloc,
                &mut listing,
                if at == first { number } else { 0 },
                line,
            )?;
        }
    }
    Ok(Some(listing))
}

/// The line in which the statement behind one begins; the last line that there can be where none is behind it.
fn line_behind(program: &Program, number: u32) -> u32 {
    match program.statement(number.saturating_add(1)) {
        Some(statement) => statement.line,
        None => u32::MAX,
    }
}

/// The last line of a statement that begins in the line `first`, the next one beginning in the line `next`.
fn last_line_of(text: &[u8], first: u32, next: u32) -> u32 {
    let mut last = first;
    let mut at: u32 = 0;
    let mut closed = false;
    for line in text.lines_with_terminator() {
        at = at.saturating_add(1);
        if at == first {
            closed = is_closed(line);
        } else if at > first && !is_skipped(line) {
            if !is_continuation(line) || at > next || (at == next && closed) {
                return last;
            }
            last = at;
            closed = is_closed(line);
        }
    }
    last
}
