//! A whole program: its text is laid out, and its statements are judged in their order.
ghost use Rattle.std.specs.Prelude.{◌≡◌, ◌≢◌, ◌+◌, ◌<◌, ◌≤◌, ◌==◌, ◌⊎◌, Some, true, false, ℕ, List, length, take};
ghost use Rattle.std.specs.Prelude.{codes, IfOk, IfErr};
ghost use Rattle.std.specs.List.{count_by, prefix_len};
ghost use Rattle.sno_text.specs.Program.{IsWithin, IsOptionWithin};
ghost use Rattle.sno_text.specs.Lines.{part};
ghost use Rattle.sno_text.specs.Statements.{StatementTree};
ghost use Rattle.sno_text.specs.Programs.{IsProgram, IsRefusedProgram, LacksMemory};
ghost use Rattle.sno_text.specs.Phrases.{StandsProgram};

use crate::error::ReadError;
use crate::judge::{judge, push_statement};
use crate::layout::lay_out;
use crate::node::Span;
use crate::phrase::{Phrase, is_name};
use crate::program::Program;
use std::alloc::Global;
use std::collections::BTreeMap;

/// The most bytes of a program.
const LONGEST_TEXT: usize = 4_000_000;

/// A place of a text, and the line in which it lies.
#[derive(Clone, Copy)]
pub struct Place {
    pub at: usize,
    pub line: u32,
}

/// The place of the first byte of a statement: LFs are none.
#[tactic(auto, using(crate::proofs::Places::place_facts))]
fn first_byte(joined: &[u8], extent: Span) -> usize
    requires { IsWithin extent (length joined.now) }
    ensures order { extent.start ≤ result }
    ensures within { result ≤ extent.end }
    ensures place { result ≡ extent.start + prefix_len (λ b. b == 10) (part joined.now extent) }
{
    let mut at = extent.start;
    'feeds: while at < extent.end && joined[at] == b'\n' {
        at += 1;
    }
    at
}

/// The line of a place that stands behind another, or is it.
#[tactic(auto, using(crate::proofs::Places::line_facts))]
fn line_at(text: &[u8], place: Place, end: usize) -> u32
    requires small { length text.now ≤ 4000000 }
    requires order { place.at ≤ end }
    requires within { end ≤ length text.now }
    requires line { place.line ≡ 1 + count_by (λ b. b == 10) (take place.at text.now) }
    ensures { result ≡ 1 + count_by (λ b. b == 10) (take end text.now) }
{
    let mut at = place.at;
    let mut line = place.line;
    'bytes: while at < end {
        if text[at] == b'\n' {
            line += 1;
        }
        at += 1;
    }
    line
}

/// Whether a statement is labelled END.
fn is_end(text: &[u8], phrase: Phrase) -> bool
    requires { IsOptionWithin phrase.label (length text.now) }
    ensures end { result ≡ true → (span : Span) × (phrase.label ≡ Some span) × (part text.now span ≡ codes "END") }
    ensures other { result ≡ false → (span : Span) → phrase.label ≡ Some span → part text.now span ≢ codes "END" }
{
    match phrase.label {
        Some(label) => is_name(text, label, b"END"),
        None => false,
    }
}

/// Reads a program: its statements up to END, in their order. The error is that of the first statement that is refused,
/// by the first of these that fits: TooLarge, it is statement 100,001; code 1, a literal is open at the end of a line
/// of it; TooLarge, it has more than 8,000 bytes or more than 40 open brackets; code 3, it isn't of the grammar; code
/// 2, an integer is greater than 9223372036854775807; DuplicateLabel, an earlier statement has its label; code 4, it is
/// `END L`, and L is no label of the program. The line told is that in which the statement begins. A text of more than
/// 4,000,000 bytes is TooLarge in line 0, and one whose statements are accepted, with no END among them, is NoEnd.
/// NoMemory comes where memory is refused, and never for a text of more than 4,000,000 bytes.
pub fn read_program(alloc: Global, text: &[u8]) -> Result<Program, ReadError>
    ensures accepted { IfOk result (λ p. (ts : List StatementTree) × IsProgram text.now ts
        × StandsProgram p text.now ts) }
    ensures source { IfOk result (λ p. p.text ≡ text.now) }
    ensures refused { IfErr result (λ e. LacksMemory text.now e ⊎ IsRefusedProgram text.now e) }
{
    if text.len() > LONGEST_TEXT {
        return Err(ReadError::TooLarge { line: 0 });
    }
    let layout = lay_out(alloc, text)?;
    let joined = layout.joined.as_slice();
    let mut nodes = Vec::new(alloc);
    let mut statements = Vec::new(alloc);
    let mut labels = BTreeMap::new(alloc);
    let mut place = Place { at: 0, line: 1 };
    for extent in layout.extents.as_slice() {
        let at = first_byte(joined, *extent);
        let line = line_at(text, place, at);
        place = Place { at, line };
        let count = statements.len();
        let phrase = judge(
            alloc, text, joined, &mut nodes, &labels, count, *extent, line,
        )?;
        push_statement(alloc, text, &mut statements, &mut labels, phrase, line)?;
        if is_end(text, phrase) {
            let text = text.to_vec(alloc)?;
            return Ok(Program::new(text, nodes, statements, labels));
        }
    }
    Err(ReadError::NoEnd)
}
