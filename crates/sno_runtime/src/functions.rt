//! Calls of functions.
ghost use Rattle.std.specs.Prelude.{◌≡◌, ◌<◌, List, map, pos, slice_set, IsTrue, IsFalse};
ghost use Rattle.std.specs.List.{AllByRecursion};
ghost use Rattle.sno_value.specs.Kind.{takes_count};
ghost use Rattle.sno_pattern.specs.Table.{Node};
ghost use Rattle.sno_runtime.specs.Values.{shown, IsValueOf};
ghost use Rattle.sno_runtime.specs.Operators.{answer, argument, called, count_primitive, cut, primitive};
ghost use Rattle.sno_runtime.specs.Operators.{primitive_value, repetition, set_primitive};
ghost use Rattle.sno_runtime.specs.Calls.{define};
ghost use Rattle.sno_runtime.specs.Numbers.{number_of};
ghost use Rattle.sno_runtime.specs.Variables.{text_of};
ghost use Rattle.sno_runtime.specs.Runtime.{Runtime, tree_of, IsPatternOf};
ghost use Rattle.sno_runtime.specs.inner.Runtime.{Does};

use crate::builtins::{Builtin, plain_value};
use crate::containers::{array, convert, prototype, table};
use crate::convert::{as_pattern, number_of, text_of};
use crate::errors::UNDEFINED_FUNCTION;
use crate::runtime::Runtime;
use crate::stops::{Exit, error};
use crate::types::{datatype, define_type};
use sno_pattern::Arg;
use sno_value::{PatId, Prim, Value};

/// What a function gives of its operands. Missing operands are null, and further ones are dropped.
pub fn called(
    runtime: &mut Runtime,
    function: Option<Builtin>,
    operands: &mut [Value],
) -> Result<Value, Exit>
    requires { AllByRecursion (IsValueOf runtime.old.nodes) operands.old }
    ensures { Does shown IsValueOf (called function (map (shown runtime.old.nodes) operands.old))
        runtime.old runtime.new result }
{
    let Some(function) = function else {
        return Err(error(UNDEFINED_FUNCTION))
    };
    let x = argument(operands, 0);
    match function {
        Builtin::Primitive(prim) => primitive_value(runtime, prim, x),
        Builtin::Arbno => repetition(runtime, x),
        Builtin::Cut => cut(runtime, x),
        Builtin::Convert => {
            let kind = argument(operands, 1);
            convert(runtime, x, kind)
        }
        Builtin::MakeArray => {
            let value = argument(operands, 1);
            array(runtime, x, &value)
        }
        Builtin::MakeTable => table(runtime),
        Builtin::Prototype => prototype(runtime, &x),
        Builtin::Define => {
            let entry = argument(operands, 1);
            define(runtime, x, entry)
        }
        Builtin::Data => define_type(runtime, x),
        Builtin::Datatype => datatype(runtime, &x),
        Builtin::Plain(function) => {
            let alloc = runtime.alloc();
            let y = argument(operands, 1);
            let z = argument(operands, 2);
            plain_value(alloc, function, x, y, z)
        }
    }
}

/// The operand with a number, which is taken out; null where there is none.
pub fn argument(operands: &mut [Value], k: usize) -> Value
    ensures value { (nodes : List Node) → shown nodes result ≡ argument (map (shown nodes) operands.old) k }
    ensures rest { operands.new ≡ slice_set operands.old k (Value.Int (pos 0)) }
    ensures known { (nodes : List Node) → AllByRecursion (IsValueOf nodes) operands.old → IsValueOf nodes result }
{
    if k < operands.len() {
        std::mem::replace(&mut operands[k], Value::Int(0))
    } else {
        Value::null()
    }
}

/// What a function that makes a primitive gives of its argument. An expression makes a deferred one.
fn primitive_value(runtime: &mut Runtime, prim: Prim, operand: Value) -> Result<Value, Exit>
    ensures { Does shown IsValueOf (primitive_value prim (shown runtime.old.nodes operand))
        runtime.old runtime.new result }
{
    if let Value::Expr(expression) = operand {
        let id = runtime.defer_prim(prim, expression)?;
        return Ok(Value::Pat(id));
    }
    let id = primitive(runtime, prim, operand)?;
    Ok(Value::Pat(id))
}

/// The answer to a deferred part that a match has reached: the pattern that the value stands for, or the primitive
/// whose argument it is. It is error 1 where there is none.
pub fn answer(runtime: &mut Runtime, prim: Option<Prim>, value: Value) -> Result<PatId, Exit>
    requires { IsValueOf runtime.old.nodes value }
    ensures { Does tree_of IsPatternOf (answer prim (shown runtime.old.nodes value)) runtime.old runtime.new result }
{
    match prim {
        None => as_pattern(runtime, value),
        Some(prim) => primitive(runtime, prim, value),
    }
}

/// A primitive with its argument; error 1 where that has no number, or no text.
fn primitive(runtime: &mut Runtime, prim: Prim, operand: Value) -> Result<PatId, Exit>
    ensures { Does tree_of IsPatternOf (primitive prim (shown runtime.old.nodes operand))
        runtime.old runtime.new result }
{
    if prim.takes_count() {
        count_primitive(runtime, prim, &operand)
    } else {
        set_primitive(runtime, prim, operand)
    }
}

/// A primitive with a count.
fn count_primitive(runtime: &mut Runtime, prim: Prim, operand: &Value) -> Result<PatId, Exit>
    requires { IsTrue (takes_count prim) }
    ensures { Does tree_of IsPatternOf (count_primitive prim (number_of (shown runtime.old.nodes operand.now)))
        runtime.old runtime.new result }
{
    let count = number_of(operand)?;
    let id = runtime.prim(prim, Arg::Count(count))?;
    Ok(id)
}

/// A primitive with a set of bytes.
fn set_primitive(runtime: &mut Runtime, prim: Prim, operand: Value) -> Result<PatId, Exit>
    requires { IsFalse (takes_count prim) }
    ensures { Does tree_of IsPatternOf (set_primitive prim (text_of (shown runtime.old.nodes operand)))
        runtime.old runtime.new result }
{
    let set = text_of(runtime.alloc(), operand)?;
    let id = runtime.prim(prim, Arg::Set(set.as_slice()))?;
    Ok(id)
}

/// DEFINE(P,E).
fn define(runtime: &mut Runtime, prototype: Value, entry: Value) -> Result<Value, Exit>
    requires { IsValueOf runtime.old.nodes prototype }
    ensures { Does shown IsValueOf (define (shown runtime.old.nodes prototype) (shown runtime.old.nodes entry))
        runtime.old runtime.new result }
{
    let prototype = text_of(runtime.alloc(), prototype)?;
    let entry = text_of(runtime.alloc(), entry)?;
    runtime.define(prototype.as_slice(), entry.as_slice())?;
    Ok(Value::null())
}

/// ARBNO(P).
fn repetition(runtime: &mut Runtime, operand: Value) -> Result<Value, Exit>
    requires { IsValueOf runtime.old.nodes operand }
    ensures { Does shown IsValueOf (repetition (shown runtime.old.nodes operand)) runtime.old runtime.new result }
{
    let body = as_pattern(runtime, operand)?;
    let id = runtime.arbno(body)?;
    Ok(Value::Pat(id))
}

/// FENCE(P).
fn cut(runtime: &mut Runtime, operand: Value) -> Result<Value, Exit>
    requires { IsValueOf runtime.old.nodes operand }
    ensures { Does shown IsValueOf (cut (shown runtime.old.nodes operand)) runtime.old runtime.new result }
{
    let body = as_pattern(runtime, operand)?;
    let id = runtime.cut(body)?;
    Ok(Value::Pat(id))
}
