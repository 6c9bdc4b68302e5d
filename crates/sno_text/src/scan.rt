//! The scans over a statement that come before its grammar: literals that are open, and brackets.
ghost use Rattle.std.specs.Prelude.{◌≡◌, ◌≤◌};
ghost use Rattle.sno_text.specs.Refusals.{quote_step, depth_step, is_deep};
ghost use Rattle.sno_text.specs.Refusals as spec;

use crate::bytes::{Class, is_in};

/// The deepest that brackets may nest.
const DEEPEST: u8 = 40;

/// The quote of the literal that is open after a byte, 0 where none is.
pub fn step_quote(quote: u8, byte: u8) -> u8
    ensures { result ≡ quote_step quote byte }
{
    if byte == b'\n' {
        0
    } else if quote == 0 {
        if byte == b'\'' || byte == b'"' {
            byte
        } else {
            0
        }
    } else if byte == quote {
        0
    } else {
        quote
    }
}

/// Whether a literal is open at the end of a line.
#[tactic(auto, using(crate::proofs::Scans::scan_facts))]
pub fn has_open_literal(text: &[u8]) -> bool
    ensures { result ≡ spec.has_open_literal 0 text.now }
{
    let mut quote = 0;
    for byte in text {
        if *byte == b'\n' && quote != 0 {
            return true;
        }
        quote = step_quote(quote, *byte);
    }
    quote != 0
}

/// The running count of brackets after a byte.
fn step_depth(quote: u8, depth: u8, byte: u8) -> u8
    requires { depth ≤ 40 }
    ensures step { result ≡ depth_step quote depth byte }
    ensures within { result ≤ 41 }
{
    if quote != 0 {
        depth
    } else if is_in(Class::Opening, byte) {
        depth + 1
    } else if is_in(Class::Closing, byte) {
        depth.saturating_sub(1)
    } else {
        depth
    }
}

/// Whether the running count of brackets outside literals passes 40.
#[tactic(auto, using(crate::proofs::Scans::scan_facts))]
pub fn nests_deep(text: &[u8]) -> bool
    ensures { result ≡ is_deep 0 0 text.now }
{
    let mut quote = 0;
    let mut depth: u8 = 0;
    for byte in text {
        depth = step_depth(quote, depth, *byte);
        if depth > DEEPEST {
            return true;
        }
        quote = step_quote(quote, *byte);
    }
    false
}
