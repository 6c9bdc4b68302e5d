//! Operators: their signs and how tightly they bind.
ghost use Rattle.std.specs.Prelude.{◌≡◌, ◌≤◌, ◌<◌, length, true, MatchOption};
ghost use Rattle.sno_text.specs.Bytes.{is_unary};
ghost use Rattle.sno_text.specs.Trees as trees;
ghost use Rattle.sno_text.specs.Grammar.{level_of};
ghost use Rattle.sno_text.specs.inner.Links.{sign_at, width, Links, NoLink};

use crate::bytes::{Class, byte_at, is_in, run_end};
use crate::node::{Operator, UnaryOperator};

/// The operator of a unary sign.
pub fn unary_operator(sign: u8) -> UnaryOperator
    requires { is_unary sign ≡ true }
    ensures { result ≡ trees.unary_operator sign }
{
    match sign {
        b'+' => UnaryOperator::Plus,
        b'-' => UnaryOperator::Minus,
        b'$' => UnaryOperator::Indirect,
        b'.' => UnaryOperator::NameOf,
        b'*' => UnaryOperator::Defer,
        b'@' => UnaryOperator::Cursor,
        b'?' => UnaryOperator::Query,
        _ => UnaryOperator::Not,
    }
}

/// The level of an operator, 0 the loosest.
pub fn level_number(operator: Operator) -> u8
    ensures { result ≡ level_of operator }
{
    match operator {
        Operator::Alternate => 0,
        Operator::Concatenate => 1,
        Operator::Add | Operator::Subtract => 2,
        Operator::Divide => 3,
        Operator::Multiply => 4,
        Operator::Power => 5,
        Operator::Conditional | Operator::Immediate => 6,
    }
}

/// How many bytes the sign of an operator has.
fn sign_width(operator: Operator) -> usize
    ensures { result ≡ width operator }
{
    match operator {
        Operator::Power => 2,
        _ => 1,
    }
}

/// The operator whose sign stands at a place, with a blank behind it.
#[tactic(auto, unfolding(crate::specs::inner::Links::sign_of, crate::specs::inner::Links::single, crate::specs::Bytes::is_blank))]
fn sign(text: &[u8], at: usize) -> Option<Operator>
    requires { at ≤ length text.now }
    ensures { result ≡ sign_at text.now at }
{
    let first = byte_at(text, at);
    let second = byte_at(text, at + 1);
    if is_in(Class::Blank, second) {
        return match first {
            b'|' => Some(Operator::Alternate),
            b'+' => Some(Operator::Add),
            b'-' => Some(Operator::Subtract),
            b'/' => Some(Operator::Divide),
            b'*' => Some(Operator::Multiply),
            b'.' => Some(Operator::Conditional),
            b'$' => Some(Operator::Immediate),
            _ => None,
        };
    }
    if first == b'*' && second == b'*' && is_in(Class::Blank, byte_at(text, at + 2)) {
        return Some(Operator::Power);
    }
    None
}

/// The operator that follows an operand, and the place of the operand behind it.
#[tactic(auto, using(crate::proofs::Joints::link_facts))]
pub fn joint(text: &[u8], from: usize) -> Option<(Operator, usize)>
    requires { from ≤ length text.now }
    ensures { MatchOption result (NoLink text.now from)
        (λ found. Links text.now found.0 from found.1 × (from < found.1) × (found.1 ≤ length text.now)) }
{
    let at = run_end(text, Class::Blank, from);
    if at == from {
        return None;
    }
    match sign(text, at) {
        Some(operator) => {
            let next = at + sign_width(operator);
            Some((operator, run_end(text, Class::Blank, next)))
        }
        None => {
            let first = byte_at(text, at);
            if is_in(Class::Start, first) {
                Some((Operator::Concatenate, at))
            } else {
                None
            }
        }
    }
}
