//! The readers of a whole text.
ghost use Rattle.std.specs.Prelude.{◌≡◌, ◌<◌, ◌≤◌, ◌^◌, [], ◌∷◌, true, false, ℕ, List, Contains, length, IfOk, IfErr};
ghost use Rattle.sno_text.specs.Program.{IsTable};
ghost use Rattle.sno_text.specs.Trees.{Tree, Stands, Uses};
ghost use Rattle.sno_text.specs.Refusals.{IsAccepted, IsRefused};

use crate::bytes::{Class, run_end};
use crate::error::ReadError;
use crate::expression::read_level;
use crate::program::Program;
use crate::scan::{has_open_literal, nests_deep};
use sno_value::ExprId;
use std::alloc::Global;
use std::collections::BTreeMap;

/// The most bytes of a statement.
pub const LONGEST: usize = 8000;

/// Whether an LF stands in the text.
fn has_line_end(text: &[u8]) -> bool
    ensures some { result ≡ true → Contains text.now 10 }
    ensures none { result ≡ false → Contains text.now 10 → ⊥ }
{
    for byte in text {
        if *byte == b'\n' {
            return true;
        }
    }
    false
}

/// [b] expr [b]
///
/// Reads a text that is one expression between blanks, as one statement in line 1. An LF is no blank there: it ends the
/// line, and the text is refused. The errors, the first that fits: code 1, a literal is open at the end of a line;
/// TooLarge, the text has more than 8,000 bytes or more than 40 open brackets; code 3, it is no expression; code 2, an
/// integer is greater than 9223372036854775807. NoMemory comes where memory is refused, which is asked for when the
/// first two are known not to fit.
#[tactic(auto, using(crate::proofs::Expressions::expression_facts))]
pub fn read_expression(alloc: Global, text: &[u8]) -> Result<(Program, ExprId), ReadError>
    ensures accepted { IfOk result (λ r. (t : Tree) × IsAccepted text.now t × Stands r.0.nodes r.1 t
        × Uses r.0.nodes 0 (r.1 ∷ [])) }
    ensures source { IfOk result (λ r. r.0.text ≡ text.now) }
    ensures number { IfOk result (λ r. r.1.0 < length r.0.nodes) }
    ensures table { IfOk result (λ r. IsTable (length r.0.text) r.0.nodes) }
    ensures statements { IfOk result (λ r. r.0.statements ≡ []) }
    ensures refused { IfErr result (λ e. IsRefused text.now e) }
{
    if has_open_literal(text) {
        return Err(ReadError::Syntax { line: 1, code: 1 });
    }
    if text.len() > LONGEST || nests_deep(text) {
        return Err(ReadError::TooLarge { line: 1 });
    }
    if has_line_end(text) {
        return Err(ReadError::Syntax { line: 1, code: 3 });
    }
    let mut nodes = Vec::new(alloc);
    let start = run_end(text, Class::Blank, 0);
    let Some(found) = read_level(alloc, text, &mut nodes, 0, start)? else {
        return Err(ReadError::Syntax { line: 1, code: 3 });
    };
    let end = run_end(text, Class::Blank, found.end);
    if end != text.len() {
        return Err(ReadError::Syntax { line: 1, code: 3 });
    }
    if !found.fits {
        return Err(ReadError::Syntax { line: 1, code: 2 });
    }
    let text = text.to_vec(alloc)?;
    let program = Program::new(text, nodes, Vec::new(alloc), BTreeMap::new(alloc));
    Ok((program, found.id))
}
