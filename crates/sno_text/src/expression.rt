//! Expressions, read from left to right. Each function reads one part of the grammar from a place on: it tells where
//! the part ends and its number in the table, None where no such part stands there, or that memory was refused. Unary
//! signs and the operators of a level are read by loops; the functions call each other only into brackets, along the
//! levels and to the right operand of `**`.
ghost use Rattle.std.specs.Prelude.{◌≡◌, ◌+◌, ◌^◌, ◌<◌, ◌≤◌, true, false, length, IfOk, MatchOption};
ghost use Rattle.sno_text.specs.Bytes.{byte, is_letter};
ghost use Rattle.sno_text.specs.Grammar.{IsPair, Level, Element, Primary};
ghost use Rattle.sno_text.specs.inner.Links.{Links, NoLink, Stops};
ghost use Rattle.sno_text.specs.inner.Parsed.{Parsed, ParsedArgument, ParsedList, Extends};

use crate::bytes::{Class, byte_at, is_in, run_end};
use crate::node::{Node, Operator, Span};
use crate::operator::{joint, level_number, unary_operator};
use crate::table::{Found, FoundList, push_applied, push_binary, push_node};
use crate::token::{read_integer, read_keyword, read_literal};
use std::alloc::{AllocError, Global};

/// The level of an element, the tightest.
const ELEMENT: u8 = 7;

/// The level of `**`, which groups to the right.
const POWER: u8 = 5;

/// Whether the brackets are a pair.
fn is_pair(opening: u8, closing: u8) -> bool
    ensures pair { result ≡ true → IsPair opening closing }
    ensures none { result ≡ false → IsPair opening closing → ⊥ }
{
    match opening {
        b'(' => closing == b')',
        b'<' => closing == b'>',
        b'[' => closing == b']',
        _ => false,
    }
}

/// expr   = cat {b "|" b cat}                (level 0)
/// cat    = sum {b sum}                      (level 1)
/// sum    = quot {b ("+" | "-") b quot}      (level 2)
/// quot   = prod {b "/" b prod}              (level 3)
/// prod   = power {b "*" b power}            (level 4)
/// power  = assign [b "**" b power]          (level 5)
/// assign = element {b ("." | "$") b element} (level 6)
#[cycle(reader)]
#[tactic(auto, using(crate::proofs::Steps::step_facts))]
pub fn read_level(
    alloc: Global,
    text: &[u8],
    nodes: &mut Vec<Node>,
    level: u8,
    from: usize,
) -> Result<Option<Found>, AllocError>
    requires within { from ≤ length text.now }
    requires level { level ≤ 7 }
    requires room { length nodes.old.items + length text.now < from + 2 ^ 32 }
    ensures read { IfOk result
        (Parsed text.now (Level level) (Stops text.now level) from nodes.old.items nodes.new.items) }
    ensures extends { Extends (length text.now) nodes.old.items nodes.new.items }
{
    if level == ELEMENT {
        return read_element(alloc, text, nodes, from);
    }
    if level == POWER {
        return read_power(alloc, text, nodes, from);
    }
    let Some(mut left) = read_level(alloc, text, nodes, level + 1, from)? else {
        return Ok(None);
    };
    'operands: while let Some((operator, at)) = joint_apart(text, left.end) {
        if level_number(operator) != level {
            break;
        }
        let Some(right) = read_level(alloc, text, nodes, level + 1, at)? else {
            return Ok(None);
        };
        left = push_binary(nodes, operator, left, right)?;
    }
    Ok(Some(left))
}

/// The operator that follows an operand. What finds it is gone from the machine's stack when the next operand is read.
#[inline(never)]
fn joint_apart(text: &[u8], from: usize) -> Option<(Operator, usize)>
    requires { from ≤ length text.now }
    ensures { MatchOption result (NoLink text.now from)
        (λ found. Links text.now found.0 from found.1 × (from < found.1) × (found.1 ≤ length text.now)) }
{
    joint(text, from)
}

/// power = assign [b "**" b power]
///
/// It has a function of its own, whose frame is small: the operands of `**` lie in one another.
#[cycle(reader)]
#[tactic(auto, using(crate::proofs::Steps::step_facts))]
#[inline(never)]
fn read_power(
    alloc: Global,
    text: &[u8],
    nodes: &mut Vec<Node>,
    from: usize,
) -> Result<Option<Found>, AllocError>
    requires within { from ≤ length text.now }
    requires room { length nodes.old.items + length text.now < from + 2 ^ 32 }
    ensures read { IfOk result (Parsed text.now (Level 5) (Stops text.now 5) from nodes.old.items nodes.new.items) }
    ensures extends { Extends (length text.now) nodes.old.items nodes.new.items }
{
    let Some(left) = read_level(alloc, text, nodes, POWER + 1, from)? else {
        return Ok(None);
    };
    let Some((operator, at)) = joint_apart(text, left.end) else {
        return Ok(Some(left));
    };
    if level_number(operator) != POWER {
        return Ok(Some(left));
    }
    let Some(right) = read_power(alloc, text, nodes, at)? else {
        return Ok(None);
    };
    let found = push_binary(nodes, operator, left, right)?;
    Ok(Some(found))
}

/// element = {"+" | "-" | "$" | "." | "*" | "@" | "?" | "~"} primary
#[cycle(reader)]
#[tactic(auto, using(crate::proofs::Steps::step_facts))]
pub fn read_element(
    alloc: Global,
    text: &[u8],
    nodes: &mut Vec<Node>,
    from: usize,
) -> Result<Option<Found>, AllocError>
    requires within { from ≤ length text.now }
    requires room { length nodes.old.items + length text.now < from + 2 ^ 32 }
    ensures read { IfOk result (Parsed text.now Element (Stops text.now 7) from nodes.old.items nodes.new.items) }
    ensures extends { Extends (length text.now) nodes.old.items nodes.new.items }
{
    let mut at = run_end(text, Class::UnarySign, from);
    let Some(mut found) = read_primary(alloc, text, nodes, at)? else {
        return Ok(None);
    };
    'signs: while at > from {
        at -= 1;
        let operator = unary_operator(text[at]);
        let id = push_node(nodes, Node::Unary(operator, found.id))?;
        found = Found {
            id,
            end: found.end,
            fits: found.fits,
        };
    }
    Ok(Some(found))
}

/// primary = name | name "(" args ")" | name "<" args ">" | name "[" args "]" | integer | literal | "&" name | group
#[cycle(reader)]
#[tactic(auto, using(crate::proofs::Steps::step_facts))]
fn read_primary(
    alloc: Global,
    text: &[u8],
    nodes: &mut Vec<Node>,
    from: usize,
) -> Result<Option<Found>, AllocError>
    requires within { from ≤ length text.now }
    requires room { length nodes.old.items + length text.now < from + 2 ^ 32 }
    ensures read { IfOk result (Parsed text.now Primary (Stops text.now 7) from nodes.old.items nodes.new.items) }
    ensures extends { Extends (length text.now) nodes.old.items nodes.new.items }
{
    let first = byte_at(text, from);
    if is_in(Class::Letter, first) {
        return read_name(alloc, text, nodes, from);
    }
    if is_in(Class::Digit, first) {
        return read_integer(text, nodes, from);
    }
    match first {
        b'\'' | b'"' => read_literal(text, nodes, from),
        b'&' => read_keyword(text, nodes, from),
        b'(' => read_group(alloc, text, nodes, from),
        _ => Ok(None),
    }
}

/// name = letter {letter | digit | "." | "_"}, and the arguments in brackets where a bracket follows it
#[cycle(reader)]
#[tactic(auto, using(crate::proofs::Steps::step_facts))]
fn read_name(
    alloc: Global,
    text: &[u8],
    nodes: &mut Vec<Node>,
    from: usize,
) -> Result<Option<Found>, AllocError>
    requires letter { is_letter (byte text.now from) ≡ true }
    requires within { from ≤ length text.now }
    requires room { length nodes.old.items + length text.now < from + 2 ^ 32 }
    ensures read { IfOk result (Parsed text.now Primary (Stops text.now 7) from nodes.old.items nodes.new.items) }
    ensures extends { Extends (length text.now) nodes.old.items nodes.new.items }
{
    let end = run_end(text, Class::NameByte, from);
    let span = Span { start: from, end };
    let opening = byte_at(text, end);
    if !is_in(Class::Opening, opening) {
        let id = push_node(nodes, Node::Variable(span))?;
        return Ok(Some(Found {
            id,
            end,
            fits: true,
        }));
    }
    let Some(arguments) = read_arguments(alloc, text, nodes, end + 1)? else {
        return Ok(None);
    };
    if !is_pair(opening, byte_at(text, arguments.end)) {
        return Ok(None);
    }
    let FoundList {
        ids,
        end: last,
        fits,
    } = arguments;
    let id = push_applied(nodes, opening, span, ids)?;
    Ok(Some(Found {
        id,
        end: last + 1,
        fits,
    }))
}

/// args = arg {"," arg}
#[cycle(reader)]
#[tactic(auto, using(crate::proofs::Steps::step_facts))]
fn read_arguments(
    alloc: Global,
    text: &[u8],
    nodes: &mut Vec<Node>,
    from: usize,
) -> Result<Option<FoundList>, AllocError>
    requires within { from ≤ length text.now }
    requires room { length nodes.old.items + length text.now < from + 2 ^ 32 }
    ensures read { IfOk result (ParsedList text.now from nodes.old.items nodes.new.items) }
    ensures extends { Extends (length text.now) nodes.old.items nodes.new.items }
{
    let Some(first) = read_argument(alloc, text, nodes, from)? else {
        return Ok(None);
    };
    let mut ids = Vec::new(alloc);
    ids.push(first.id)?;
    let mut end = first.end;
    let mut fits = first.fits;
    'arguments: while byte_at(text, end) == b',' {
        let Some(next) = read_argument(alloc, text, nodes, end + 1)? else {
            return Ok(None);
        };
        ids.push(next.id)?;
        end = next.end;
        fits = fits && next.fits;
    }
    Ok(Some(FoundList { ids, end, fits }))
}

/// arg = [b] [expr [b]]
#[cycle(reader)]
#[tactic(auto, using(crate::proofs::Steps::step_facts))]
fn read_argument(
    alloc: Global,
    text: &[u8],
    nodes: &mut Vec<Node>,
    from: usize,
) -> Result<Option<Found>, AllocError>
    requires within { from ≤ length text.now }
    requires room { length nodes.old.items + length text.now < from + 2 ^ 32 }
    ensures read { IfOk result (ParsedArgument text.now from nodes.old.items nodes.new.items) }
    ensures extends { Extends (length text.now) nodes.old.items nodes.new.items }
{
    let start = run_end(text, Class::Blank, from);
    let first = byte_at(text, start);
    if first == b',' || is_in(Class::Closing, first) {
        let id = push_node(nodes, Node::Literal(Span { start, end: start }))?;
        return Ok(Some(Found {
            id,
            end: start,
            fits: true,
        }));
    }
    let Some(found) = read_level(alloc, text, nodes, 0, start)? else {
        return Ok(None);
    };
    let end = run_end(text, Class::Blank, found.end);
    Ok(Some(Found {
        id: found.id,
        end,
        fits: found.fits,
    }))
}

/// group = "(" [b] expr [b] ")"
#[cycle(reader)]
#[tactic(auto, using(crate::proofs::Steps::step_facts))]
fn read_group(
    alloc: Global,
    text: &[u8],
    nodes: &mut Vec<Node>,
    from: usize,
) -> Result<Option<Found>, AllocError>
    requires opening { byte text.now from ≡ 40 }
    requires within { from < length text.now }
    requires room { length nodes.old.items + length text.now < from + 2 ^ 32 }
    ensures read { IfOk result (Parsed text.now Primary (Stops text.now 7) from nodes.old.items nodes.new.items) }
    ensures extends { Extends (length text.now) nodes.old.items nodes.new.items }
{
    let start = run_end(text, Class::Blank, from + 1);
    let Some(inner) = read_level(alloc, text, nodes, 0, start)? else {
        return Ok(None);
    };
    let end = run_end(text, Class::Blank, inner.end);
    if byte_at(text, end) != b')' {
        return Ok(None);
    }
    Ok(Some(Found {
        id: inner.id,
        end: end + 1,
        fits: inner.fits,
    }))
}
