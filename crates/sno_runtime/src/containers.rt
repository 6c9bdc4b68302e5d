//! The functions that make arrays and tables, and CONVERT.
ghost use Rattle.sno_runtime.specs.Values.{shown, IsValueOf};
ghost use Rattle.sno_runtime.specs.Operators.{convert, converted, pattern_if};
ghost use Rattle.sno_runtime.specs.Containers.{array, table, prototype, as_array};
ghost use Rattle.sno_runtime.specs.Functions.{with_text};
ghost use Rattle.sno_runtime.specs.Runtime.{Runtime};
ghost use Rattle.sno_runtime.specs.inner.Runtime.{Does};

use crate::builtins::{Conversion, conversion_named};
use crate::convert::{as_pattern, has_text, is_patternable, number, text_of};
use crate::errors::DATA_TYPE;
use crate::runtime::Runtime;
use crate::stops::{Exit, error};
use sno_value::Value;
use std::alloc::Global;

/// ARRAY(P,V): an array with the prototype P, each of whose elements is V.
pub fn array(runtime: &mut Runtime, prototype: Value, value: &Value) -> Result<Value, Exit>
    requires prototype { IsValueOf runtime.old.nodes prototype }
    requires value { IsValueOf runtime.old.nodes value.now }
    ensures { Does shown IsValueOf (array (shown runtime.old.nodes prototype) (shown runtime.old.nodes value.now))
        runtime.old runtime.new result }
{
    let text = text_of(runtime.alloc(), prototype)?;
    let id = runtime.new_array(text.as_slice(), value)?;
    Ok(Value::Array(id))
}

/// TABLE(): a table without entries.
pub fn table(runtime: &mut Runtime) -> Result<Value, Exit>
    ensures { Does shown IsValueOf table runtime.old runtime.new result }
{
    let id = runtime.new_table()?;
    Ok(Value::Table(id))
}

/// PROTOTYPE(A): the text that an array was made by.
pub fn prototype(runtime: &Runtime, array: &Value) -> Result<Value, Exit>
    ensures { Does shown IsValueOf (prototype (shown runtime.now.nodes array.now)) runtime.now runtime.now result }
{
    match array {
        Value::Array(id) => runtime.prototype(*id),
        _ => Err(error(DATA_TYPE)),
    }
}

/// CONVERT(X,T): X as a value of the type that T names; error 1 where it names none.
pub fn convert(runtime: &mut Runtime, value: Value, kind: Value) -> Result<Value, Exit>
    requires { IsValueOf runtime.old.nodes value }
    ensures { Does shown IsValueOf (with_text (shown runtime.old.nodes kind) (convert (shown runtime.old.nodes value)))
        runtime.old runtime.new result }
{
    let text = text_of(runtime.alloc(), kind)?;
    match conversion_named(text.as_slice()) {
        Some(conversion) => converted(runtime, conversion, value),
        None => Err(error(DATA_TYPE)),
    }
}

/// A value as one of another type; it fails where it can't be one.
fn converted(runtime: &mut Runtime, conversion: Conversion, value: Value) -> Result<Value, Exit>
    requires { IsValueOf runtime.old.nodes value }
    ensures { Does shown IsValueOf (converted conversion (shown runtime.old.nodes value))
        runtime.old runtime.new result }
{
    match conversion {
        Conversion::ToString => to_string(runtime.alloc(), value),
        Conversion::ToInteger => to_integer(&value),
        Conversion::ToPattern => to_pattern(runtime, value),
        Conversion::ToArray => to_array(runtime, &value),
    }
}

fn to_string(alloc: Global, value: Value) -> Result<Value, Exit>
    ensures { (s : Runtime) → IsValueOf s.nodes value
        → Does shown IsValueOf (converted Conversion.ToString (shown s.nodes value)) s s result }
{
    if !has_text(&value) {
        return Err(Exit::Failure);
    }
    let text = text_of(alloc, value)?;
    Ok(Value::Str(text))
}

fn to_integer(value: &Value) -> Result<Value, Exit>
    ensures { (s : Runtime) → Does shown IsValueOf (converted Conversion.ToInteger (shown s.nodes value.now))
        s s result }
{
    match number(value) {
        Some(number) => Ok(Value::Int(number)),
        None => Err(Exit::Failure),
    }
}

fn to_pattern(runtime: &mut Runtime, value: Value) -> Result<Value, Exit>
    requires { IsValueOf runtime.old.nodes value }
    ensures { Does shown IsValueOf (pattern_if (shown runtime.old.nodes value)) runtime.old runtime.new result }
{
    if !is_patternable(&value) {
        return Err(Exit::Failure);
    }
    let id = as_pattern(runtime, value)?;
    Ok(Value::Pat(id))
}

/// An array itself; of a table the array of its entries whose value isn't null, if there are any.
fn to_array(runtime: &mut Runtime, value: &Value) -> Result<Value, Exit>
    ensures { Does shown IsValueOf (as_array (shown runtime.old.nodes value.now)) runtime.old runtime.new result }
{
    match value {
        Value::Array(id) => Ok(Value::Array(*id)),
        Value::Table(id) => match runtime.table_to_array(*id)? {
            Some(array) => Ok(Value::Array(array)),
            None => Err(Exit::Failure),
        },
        _ => Err(Exit::Failure),
    }
}
