//! The primaries that are one token.
ghost use Rattle.std.specs.Prelude.{◌≡◌, ◌+◌, ◌-◌, ◌^◌, ◌<◌, ◌≤◌, ◌⊎◌, pos, true, ℕ, length, IfOk, MatchOption};
ghost use Rattle.sno_text.specs.Bytes.{byte, is_digit};
ghost use Rattle.sno_text.specs.Grammar.{decimal, Primary};
ghost use Rattle.sno_text.specs.inner.Links.{Stops};
ghost use Rattle.sno_text.specs.inner.Parsed.{Parsed, Extends};

use crate::bytes::{Class, byte_at, is_in, literal_end, run_end};
use crate::node::{Node, Span};
use crate::table::{Found, push_node};
use std::alloc::AllocError;

/// The number that digits stand for, if it is in range.
fn decimal_value(digits: &[u8]) -> Option<i64>
    requires { (k : ℕ) → k < length digits.now → is_digit (byte digits.now k) ≡ true }
    ensures { MatchOption result (2 ^ 63 ≤ decimal 0 digits.now) (λ value. (value ≡ pos (decimal 0 digits.now))
        × (decimal 0 digits.now < 2 ^ 63)) }
{
    let mut value: u64 = 0;
    for digit in digits {
        let next = u128::from(value) * 10 + u128::from(*digit - 48);
        if next >= 9223372036854775808 {
            return None;
        }
        value = next as u64;
    }
    Some(value as i64)
}

/// integer = digit {digit}
#[tactic(auto, using(crate::proofs::Tables::table_facts))]
pub fn read_integer(
    text: &[u8],
    nodes: &mut Vec<Node>,
    from: usize,
) -> Result<Option<Found>, AllocError>
    requires digit { is_digit (byte text.now from) ≡ true }
    requires within { from ≤ length text.now }
    requires room { length nodes.old.items + length text.now < from + 2 ^ 32 }
    ensures read { IfOk result (Parsed text.now Primary (Stops text.now 7) from nodes.old.items nodes.new.items) }
    ensures extends { Extends (length text.now) nodes.old.items nodes.new.items }
{
    let end = run_end(text, Class::Digit, from);
    let (value, fits) = match decimal_value(&text[from..end]) {
        Some(value) => (value, true),
        None => (i64::MAX, false),
    };
    let id = push_node(nodes, Node::Integer(value))?;
    Ok(Some(Found { id, end, fits }))
}

/// literal = "'" {byte} "'" | '"' {byte} '"'
#[tactic(auto, using(crate::proofs::Tables::table_facts))]
pub fn read_literal(
    text: &[u8],
    nodes: &mut Vec<Node>,
    from: usize,
) -> Result<Option<Found>, AllocError>
    requires quote { (byte text.now from ≡ 39) ⊎ (byte text.now from ≡ 34) }
    requires within { from < length text.now }
    requires room { length nodes.old.items + length text.now < from + 2 ^ 32 }
    ensures read { IfOk result (Parsed text.now Primary (Stops text.now 7) from nodes.old.items nodes.new.items) }
    ensures extends { Extends (length text.now) nodes.old.items nodes.new.items }
{
    let start = from + 1;
    let Some(end) = literal_end(text, text[from], start) else {
        return Ok(None);
    };
    let id = push_node(nodes, Node::Literal(Span { start, end }))?;
    Ok(Some(Found {
        id,
        end: end + 1,
        fits: true,
    }))
}

/// keyword = "&" name
#[tactic(auto, using(crate::proofs::Tables::table_facts))]
pub fn read_keyword(
    text: &[u8],
    nodes: &mut Vec<Node>,
    from: usize,
) -> Result<Option<Found>, AllocError>
    requires ampersand { byte text.now from ≡ 38 }
    requires within { from < length text.now }
    requires room { length nodes.old.items + length text.now < from + 2 ^ 32 }
    ensures read { IfOk result (Parsed text.now Primary (Stops text.now 7) from nodes.old.items nodes.new.items) }
    ensures extends { Extends (length text.now) nodes.old.items nodes.new.items }
{
    let start = from + 1;
    if !is_in(Class::Letter, byte_at(text, start)) {
        return Ok(None);
    }
    let end = run_end(text, Class::NameByte, start);
    let id = push_node(nodes, Node::Keyword(Span { start, end }))?;
    Ok(Some(Found {
        id,
        end,
        fits: true,
    }))
}
