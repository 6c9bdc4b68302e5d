//! The binary operators.
ghost use Rattle.std.specs.Prelude.{◌≡◌, ◌<◌, List, length, IsTrue};
ghost use Rattle.sno_pattern.specs.Table.{Node};
ghost use Rattle.sno_runtime.specs.Values.{shown, IsValueOf};
ghost use Rattle.sno_runtime.specs.Operators.{makes_value, joined, joined_patterns, concatenation, alternation};
ghost use Rattle.sno_runtime.specs.Operators.{operation, pattern_with_target};
ghost use Rattle.sno_runtime.specs.Numbers.{number_of, result_of};
ghost use Rattle.sno_runtime.specs.Variables.{text_of};
ghost use Rattle.sno_runtime.specs.inner.Operations.{join_of, assignment_of, both, is_arithmetic, calculated};
ghost use Rattle.sno_runtime.specs.inner.Converted.{IsThere, has_text};
ghost use Rattle.sno_runtime.specs.Runtime.{Runtime, tree_of};
ghost use Rattle.sno_runtime.specs.inner.Runtime.{Does};

use crate::convert::{as_pattern, has_text, is_null, is_patternable, number_of, text_of};
use crate::errors::{BAD_COUNT, DATA_TYPE, DIVISION_BY_ZERO, OVERFLOW, TOO_LONG};
use crate::limits::MOST_BYTES;
use crate::runtime::Runtime;
use crate::stops::{Exit, error};
use sno_text::Operator;
use sno_value::{Arith, Name, PatId, Text, Value, add, div, mul, pow, sub};
use std::alloc::Global;

/// How two patterns become one.
#[derive(Clone, Copy)]
enum Join {
    /// One behind the other.
    Cat,
    /// One or the other.
    Alt,
}

/// When a part that was matched is assigned.
#[derive(Clone, Copy)]
enum Assignment {
    /// When the whole match has succeeded.
    Conditional,
    /// As soon as the pattern matches.
    Immediate,
}

/// A binary operator on its operands.
pub fn operation(
    runtime: &mut Runtime,
    operator: Operator,
    x: Value,
    y: Value,
) -> Result<Value, Exit>
    requires x { IsValueOf runtime.old.nodes x }
    requires y { IsValueOf runtime.old.nodes y }
    ensures { Does shown IsValueOf (operation operator (shown runtime.old.nodes x) (shown runtime.old.nodes y))
        runtime.old runtime.new result }
{
    match operator {
        Operator::Alternate => alternation(runtime, x, y),
        Operator::Concatenate => concatenation(runtime, x, y),
        Operator::Add
        | Operator::Subtract
        | Operator::Divide
        | Operator::Multiply
        | Operator::Power => {
            let (x, y) = numbers(&x, &y)?;
            computed(calculated(operator, x, y))
        }
        Operator::Conditional => pattern_with_target(runtime, Assignment::Conditional, x, y),
        Operator::Immediate => pattern_with_target(runtime, Assignment::Immediate, x, y),
    }
}

/// P . X or P $ X, where X was taken as a name.
fn pattern_with_target(
    runtime: &mut Runtime,
    assignment: Assignment,
    x: Value,
    y: Value,
) -> Result<Value, Exit>
    requires { IsValueOf runtime.old.nodes x }
    ensures { Does shown IsValueOf
        (pattern_with_target (assignment_of assignment) (shown runtime.old.nodes x) (shown runtime.old.nodes y))
        runtime.old runtime.new result }
{
    let Value::Name(target) = y else {
        return Err(error(DATA_TYPE));
    };
    if !is_patternable(&x) {
        return Err(error(DATA_TYPE));
    }
    let body = as_pattern(runtime, x)?;
    assigned(runtime, assignment, body, target)
}

/// The pattern of a pattern with a target.
fn assigned(
    runtime: &mut Runtime,
    assignment: Assignment,
    body: PatId,
    target: Name,
) -> Result<Value, Exit>
    requires { body.0 < length runtime.old.nodes }
    ensures { Does shown IsValueOf (makes_value (assignment_of assignment (tree_of runtime.old.nodes body) target))
        runtime.old runtime.new result }
{
    match assignment {
        Assignment::Conditional => {
            let id = runtime.cond(body, target)?;
            Ok(Value::Pat(id))
        }
        Assignment::Immediate => {
            let id = runtime.imm(body, target)?;
            Ok(Value::Pat(id))
        }
    }
}

/// X | Y.
fn alternation(runtime: &mut Runtime, x: Value, y: Value) -> Result<Value, Exit>
    requires x { IsValueOf runtime.old.nodes x }
    requires y { IsValueOf runtime.old.nodes y }
    ensures { Does shown IsValueOf (alternation (shown runtime.old.nodes x) (shown runtime.old.nodes y))
        runtime.old runtime.new result }
{
    joined_patterns(runtime, Join::Alt, x, y)
}

/// X Y: where one is null the other, of two texts their string, else a pattern.
fn concatenation(runtime: &mut Runtime, x: Value, y: Value) -> Result<Value, Exit>
    requires x { IsValueOf runtime.old.nodes x }
    requires y { IsValueOf runtime.old.nodes y }
    ensures { Does shown IsValueOf (concatenation (shown runtime.old.nodes x) (shown runtime.old.nodes y))
        runtime.old runtime.new result }
{
    if is_null(&x) {
        return Ok(y);
    }
    if is_null(&y) {
        return Ok(x);
    }
    if has_text(&x) && has_text(&y) {
        return joined_texts(runtime.alloc(), x, y);
    }
    joined_patterns(runtime, Join::Cat, x, y)
}

/// Two texts as one; error 8 where that has more than 1,000,000 bytes.
fn joined_texts(alloc: Global, x: Value, y: Value) -> Result<Value, Exit>
    requires x { IsTrue (has_text x) }
    requires y { IsTrue (has_text y) }
    ensures { (s : Runtime) → IsValueOf s.nodes x → IsValueOf s.nodes y
        → Does shown IsValueOf (joined (text_of (shown s.nodes x)) (text_of (shown s.nodes y)) (shown s.nodes x)
        (shown s.nodes y)) s s result }
{
    let first = text_of(alloc, x)?;
    let second = text_of(alloc, y)?;
    if first.as_slice().len() + second.as_slice().len() > MOST_BYTES {
        return Err(error(TOO_LONG));
    }
    let text = Text::joined(alloc, first.as_slice(), second.as_slice())?;
    Ok(Value::Str(text))
}

/// A pattern of two. Both types are judged before a node is made.
fn joined_patterns(runtime: &mut Runtime, join: Join, x: Value, y: Value) -> Result<Value, Exit>
    requires x { IsValueOf runtime.old.nodes x }
    requires y { IsValueOf runtime.old.nodes y }
    ensures { Does shown IsValueOf
        (joined_patterns (join_of join) (shown runtime.old.nodes x) (shown runtime.old.nodes y))
        runtime.old runtime.new result }
{
    if !is_patternable(&x) || !is_patternable(&y) {
        return Err(error(DATA_TYPE));
    }
    let first = as_pattern(runtime, x)?;
    let second = as_pattern(runtime, y)?;
    pattern_of(runtime, join, first, second)
}

/// The pattern of two patterns.
fn pattern_of(runtime: &mut Runtime, join: Join, first: PatId, second: PatId) -> Result<Value, Exit>
    requires first { first.0 < length runtime.old.nodes }
    requires second { second.0 < length runtime.old.nodes }
    ensures { Does shown IsValueOf
        (makes_value (join_of join (tree_of runtime.old.nodes first) (tree_of runtime.old.nodes second)))
        runtime.old runtime.new result }
{
    match join {
        Join::Cat => {
            let id = runtime.cat(first, second)?;
            Ok(Value::Pat(id))
        }
        Join::Alt => {
            let id = runtime.alt(first, second)?;
            Ok(Value::Pat(id))
        }
    }
}

/// The numbers of two operands.
fn numbers(x: &Value, y: &Value) -> Result<(i64, i64), Exit>
    ensures { (nodes : List Node)
        → IsThere (λ p. p) (both (number_of (shown nodes x.now)) (number_of (shown nodes y.now))) result }
{
    let x = number_of(x)?;
    let y = number_of(y)?;
    Ok((x, y))
}

/// What an operator of arithmetic gives.
fn calculated(operator: Operator, x: i64, y: i64) -> Result<i64, Arith>
    requires { IsTrue (is_arithmetic operator) }
    ensures { result ≡ calculated operator x y }
{
    match operator {
        Operator::Add => add(x, y),
        Operator::Subtract => sub(x, y),
        Operator::Divide => div(x, y),
        Operator::Multiply => mul(x, y),
        Operator::Power => pow(x, y),
        _ => unreachable!(),
    }
}

/// The value that arithmetic gave.
pub fn computed(outcome: Result<i64, Arith>) -> Result<Value, Exit>
    ensures { (s : Runtime) → Does shown IsValueOf (result_of outcome) s s result }
{
    match outcome {
        Ok(number) => Ok(Value::Int(number)),
        Err(Arith::Overflow) => Err(error(OVERFLOW)),
        Err(Arith::DivisionByZero) => Err(error(DIVISION_BY_ZERO)),
        Err(Arith::BadExponent) => Err(error(BAD_COUNT)),
    }
}
