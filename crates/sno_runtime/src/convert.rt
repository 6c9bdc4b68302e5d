//! The number, the text and the pattern of a value.
ghost use Rattle.std.specs.Prelude.{◌≡◌, ◌≤◌, List, [], length, IfOk};
ghost use Rattle.std.specs.Fmt.{signed_decimal};
ghost use Rattle.sno_pattern.specs.Table.{Node};
ghost use Rattle.sno_runtime.specs.Values.{shown, IsValueOf, is_null};
ghost use Rattle.sno_runtime.specs.Operators.{as_pattern, is_patternable};
ghost use Rattle.sno_runtime.specs.Numbers.{number_of};
ghost use Rattle.sno_runtime.specs.Functions.{null_where};
ghost use Rattle.sno_runtime.specs.Variables.{text_of};
ghost use Rattle.sno_runtime.specs.inner.Converted.{IsThere, has_text};
ghost use Rattle.sno_runtime.specs.Runtime.{Runtime, tree_of, IsPatternOf};
ghost use Rattle.sno_runtime.specs.inner.Runtime.{Does};

use crate::errors::DATA_TYPE;
use crate::runtime::Runtime;
use crate::stops::{Exit, error};
use sno_value::{Digits, PatId, Text, Value, to_int};
use std::alloc::{AllocError, Global};

/// The number of an integer, or of a string that writes one.
pub fn number(value: &Value) -> Option<i64>
    ensures { (nodes : List Node) → result ≡ number_of (shown nodes value.now) }
{
    match value {
        Value::Int(number) => Some(*number),
        Value::Str(text) => to_int(text.as_slice()),
        _ => None,
    }
}

/// The same, or error 1 where there is none.
pub fn number_of(value: &Value) -> Result<i64, Exit>
    ensures { (nodes : List Node) → IsThere (λ n. n) (number_of (shown nodes value.now)) result }
{
    match number(value) {
        Some(number) => Ok(number),
        None => Err(error(DATA_TYPE)),
    }
}

/// The text of a string, or of an integer in decimal; else error 1.
pub fn text_of(alloc: Global, value: Value) -> Result<Text, Exit>
    ensures text { (nodes : List Node) → IsThere (λ t. t) (text_of (shown nodes value)) result }
    ensures short { (nodes : List Node) → IsValueOf nodes value → IfOk result (λ t. length t ≤ 1_000_000) }
{
    match value {
        Value::Str(text) => Ok(text),
        Value::Int(number) => {
            let text = digits_of(alloc, number)?;
            Ok(text)
        }
        _ => Err(error(DATA_TYPE)),
    }
}

/// The digits of an integer as a string. They stand here alone, so that `text_of` stays small.
#[inline(never)]
fn digits_of(alloc: Global, number: i64) -> Result<Text, AllocError>
    ensures digits { IfOk result (λ text. text ≡ signed_decimal number) }
    ensures short { length (signed_decimal number) ≤ 20 }
{
    let digits = Digits::of(number);
    let text = Text::from_slice(alloc, digits.as_slice())?;
    Ok(text)
}

/// Whether a value is a string or an integer.
pub fn has_text(value: &Value) -> bool
    ensures { result ≡ has_text value.now }
{
    match value {
        Value::Str(_) | Value::Int(_) => true,
        _ => false,
    }
}

/// The null string where the condition holds, else failure.
pub fn null_where(holds: bool) -> Result<Value, Exit>
    ensures { (s : Runtime) → Does shown IsValueOf (null_where holds) s s result }
{
    if holds {
        Ok(Value::null())
    } else {
        Err(Exit::Failure)
    }
}

/// Whether a value is the null string.
pub fn is_null(value: &Value) -> bool
    ensures { (nodes : List Node) → result ≡ is_null (shown nodes value.now) }
{
    match value {
        Value::Str(text) => text.as_slice().is_empty(),
        _ => false,
    }
}

/// Whether a value can stand for a pattern.
pub fn is_patternable(value: &Value) -> bool
    ensures { (nodes : List Node) → result ≡ is_patternable (shown nodes value.now) }
{
    match value {
        Value::Str(_) | Value::Int(_) | Value::Pat(_) | Value::Expr(_) => true,
        _ => false,
    }
}

/// The pattern that a value stands for; error 1 where there is none. An expression is a deferred part.
pub fn as_pattern(runtime: &mut Runtime, value: Value) -> Result<PatId, Exit>
    requires { IsValueOf runtime.old.nodes value }
    ensures { Does tree_of IsPatternOf (as_pattern (shown runtime.old.nodes value)) runtime.old runtime.new result }
{
    match value {
        Value::Str(text) => {
            let id = runtime.text_of(&text)?;
            Ok(id)
        }
        Value::Int(number) => {
            let digits = Digits::of(number);
            let id = runtime.text(digits.as_slice())?;
            Ok(id)
        }
        Value::Pat(id) => Ok(id),
        Value::Expr(expression) => {
            let id = runtime.defer(expression)?;
            Ok(id)
        }
        _ => Err(error(DATA_TYPE)),
    }
}
