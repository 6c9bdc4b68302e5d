//! What a line is: of blanks, a comment or a control line, or one that continues another.
ghost use Rattle.std.specs.Prelude.{◌≡◌, ◌==◌, ◌||◌, true};
ghost use Rattle.sno_text.specs.Bytes.{byte};
ghost use Rattle.sno_text.specs.Lines.{is_continuation};

use crate::survey::MOST_STATEMENTS;
use sno_text::Program;

/// Whether a line continues the one before it, where there is one.
pub fn is_continuation(line: &[u8]) -> bool
    ensures { result ≡ is_continuation line.now }
{
    !line.is_empty() && (line[0] == b'+' || line[0] == b'.')
}

/// Whether a line is a comment, a control line or of blanks alone.
pub fn is_skipped(line: &[u8]) -> bool
    ensures { ((byte line.now 0 == 42) || (byte line.now 0 == 45)) ≡ true → result ≡ true }
{
    if !line.is_empty() && (line[0] == b'*' || line[0] == b'-') {
        return true;
    }
    for byte in line {
        if !is_blank(*byte) {
            return false;
        }
    }
    true
}

/// Whether a byte is a blank, or one of a line's end.
pub fn is_blank(byte: u8) -> bool {
    byte == b' ' || byte == b'\t' || byte == b'\r' || byte == b'\n'
}

/// Whether a line ends in `;`, which ends a statement, as no literal of a statement that was read is open there.
pub fn is_closed(line: &[u8]) -> bool {
    let mut last = 0;
    for byte in line {
        if *byte != b'\r' && *byte != b'\n' {
            last = *byte;
        }
    }
    last == b';'
}

/// The line in which a program's last statement begins.
pub fn last_line(program: &Program) -> u32 {
    let mut line = 0;
    for number in 1..MOST_STATEMENTS + 1 {
        let Some(statement) = program.statement(number) else {
            return line;
        };
        line = statement.line;
    }
    line
}
