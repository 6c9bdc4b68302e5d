//! Objects of a program's own types, and their fields.
ghost use Rattle.std.specs.Prelude.{◌≡◌, map, option_map};
ghost use Rattle.std.specs.List.{AllByRecursion};
ghost use Rattle.sno_store.specs.Symbols.{found};
ghost use Rattle.sno_runtime.specs.Fields.{asks_field, constructs, field_as_name, field_of, field_value};
ghost use Rattle.sno_runtime.specs.Fields.{is_field_named};
ghost use Rattle.sno_runtime.specs.Values.{shown, IsValueOf};
ghost use Rattle.sno_runtime.specs.Runtime.{itself};
ghost use Rattle.sno_runtime.specs.inner.Runtime.{Does, any};

use crate::errors::{DATA_TYPE, NO_VARIABLE};
use crate::runtime::Runtime;
use crate::stops::{Exit, error};
use sno_value::{Name, SymId, Value};

/// A new object of a type: missing arguments are null, and extra ones are dropped.
pub fn construct(runtime: &mut Runtime, number: u32, arguments: &mut [Value]) -> Result<Value, Exit>
    requires { AllByRecursion (IsValueOf runtime.old.nodes) arguments.old }
    ensures { Does shown IsValueOf (constructs number (map (shown runtime.old.nodes) arguments.old))
        runtime.old runtime.new result }
{
    let id = runtime.new_data(number, arguments)?;
    Ok(Value::Data(id))
}

/// What the field of an object holds; error 1 where the value is no object, or has no such field.
pub fn field_value(runtime: &Runtime, symbol: SymId, object: &Value) -> Result<Value, Exit>
    ensures { Does shown IsValueOf (field_value symbol.0 (shown runtime.now.nodes object.now))
        runtime.now runtime.now result }
{
    let name = field_of(runtime, symbol, object)?;
    runtime.stored(name)
}

/// The name of the field of an object with this function's name, as a value; error 1 where the value is no object, or
/// has no such field.
pub fn field_as_name(runtime: &Runtime, function: &[u8], object: &Value) -> Result<Value, Exit>
    ensures { Does shown IsValueOf (field_as_name function.now (shown runtime.now.nodes object.now))
        runtime.now runtime.now result }
{
    let Some(symbol) = runtime.store().find_symbol(function) else {
        return Err(error(DATA_TYPE));
    };
    let name = field_of(runtime, symbol, object)?;
    Ok(Value::Name(name))
}

/// Null where a function is a field at this moment; else its calls have no name, which is error 15.
pub fn ask_field(runtime: &Runtime, function: &[u8]) -> Result<Value, Exit>
    ensures { Does shown IsValueOf (asks_field function.now) runtime.now runtime.now result }
{
    if !is_field_named(runtime, function) {
        return Err(error(NO_VARIABLE));
    }
    Ok(Value::null())
}

fn is_field_named(runtime: &Runtime, function: &[u8]) -> bool
    ensures { result ≡ is_field_named (found function.now runtime.now.store.symbols) runtime.now.store.functions }
{
    match runtime.store().find_symbol(function) {
        Some(symbol) => runtime.store().is_field(symbol),
        None => false,
    }
}

/// The field of an object that a symbol names; error 1 where the value is no object, or has no such field.
fn field_of(runtime: &Runtime, symbol: SymId, object: &Value) -> Result<Name, Exit>
    ensures { Does itself any (field_of symbol.0 (shown runtime.now.nodes object.now)) runtime.now runtime.now result }
{
    let Value::Data(id) = object else {
        return Err(error(DATA_TYPE));
    };
    match runtime.store().field(*id, symbol) {
        Some(name) => Ok(name),
        None => Err(error(DATA_TYPE)),
    }
}
