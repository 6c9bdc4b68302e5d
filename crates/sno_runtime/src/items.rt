//! Items of arrays and tables, by their subscripts.
ghost use Rattle.std.specs.Prelude.{◌≡◌, ◌∷◌, [], List, map, length, IfOk, IfErr, IfSome, Ok, Some};
ghost use Rattle.std.specs.List.{AllByRecursion};
ghost use Rattle.sno_pattern.specs.Table.{Node};
ghost use Rattle.sno_runtime.specs.Values.{shown, Array, Int, IsValueOf};
ghost use Rattle.sno_runtime.specs.Operators.{item_name};
ghost use Rattle.sno_runtime.specs.Containers.{item, item_named, element_numbered, entry_read, numbers_of};
ghost use Rattle.sno_runtime.specs.inner.Converted.{IsThere};
ghost use Rattle.sno_runtime.specs.Runtime.{itself};
ghost use Rattle.sno_runtime.specs.inner.Runtime.{Does, any};

use crate::convert::number_of;
use crate::errors::{BAD_PROTOTYPE, DATA_TYPE};
use crate::runtime::Runtime;
use crate::stops::{Exit, Stop, error};
use sno_value::{Name, ObjId, Value};
use std::alloc::Global;

/// What A<i,..> gives, where A holds this value: an element, or what a table holds for a key.
pub fn item(runtime: &mut Runtime, holder: Value, subscripts: &mut [Value]) -> Result<Value, Exit>
    requires holder { IsValueOf runtime.old.nodes holder }
    requires subscripts { AllByRecursion (IsValueOf runtime.old.nodes) subscripts.old }
    ensures { Does shown IsValueOf
        (item (shown runtime.old.nodes holder) (map (shown runtime.old.nodes) subscripts.old))
        runtime.old runtime.new result }
{
    match holder {
        Value::Array(array) => {
            let name = element(runtime, array, subscripts)?;
            runtime.stored(name)
        }
        Value::Table(table) => {
            let key = only(subscripts)?;
            entry_read(runtime, table, &key)
        }
        _ => Err(error(DATA_TYPE)),
    }
}

/// The name of A<i,..>, where A holds this value: an element,
/// or an entry of a table, which is made where there is none.
pub fn item_name(
    runtime: &mut Runtime,
    holder: Value,
    subscripts: &mut [Value],
) -> Result<Value, Exit>
    requires holder { IsValueOf runtime.old.nodes holder }
    requires subscripts { AllByRecursion (IsValueOf runtime.old.nodes) subscripts.old }
    ensures { Does shown IsValueOf
        (item_name (shown runtime.old.nodes holder) (map (shown runtime.old.nodes) subscripts.old))
        runtime.old runtime.new result }
{
    let name = item_named(runtime, holder, subscripts)?;
    Ok(Value::Name(name))
}

fn item_named(runtime: &mut Runtime, holder: Value, subscripts: &mut [Value]) -> Result<Name, Exit>
    requires holder { IsValueOf runtime.old.nodes holder }
    requires subscripts { AllByRecursion (IsValueOf runtime.old.nodes) subscripts.old }
    ensures { Does itself any
        (item_named (shown runtime.old.nodes holder) (map (shown runtime.old.nodes) subscripts.old))
        runtime.old runtime.new result }
{
    match holder {
        Value::Array(array) => element(runtime, array, subscripts),
        Value::Table(table) => {
            let key = only(subscripts)?;
            runtime.entry(table, key)
        }
        _ => Err(error(DATA_TYPE)),
    }
}

/// The element of an array with these subscripts; it fails where one is out of range.
fn element(runtime: &Runtime, array: ObjId, subscripts: &[Value]) -> Result<Name, Exit>
    ensures { Does itself any (element_numbered array (numbers_of (map (shown runtime.now.nodes) subscripts.now)))
        runtime.now runtime.now result }
{
    let numbers = numbers_of(runtime.alloc(), subscripts)?;
    match runtime.store().element(array, &numbers)? {
        Some(name) => Ok(name),
        None => Err(Exit::Failure),
    }
}

/// The element of an array that one integer names, where it is in range and the array has one dimension.
#[inline]
pub fn element_at(runtime: &Runtime, array: ObjId, subscript: i64) -> Option<Name>
    ensures { IfSome result (λ name. Does itself any (item_named (Array array.0) (Int subscript ∷ []))
        runtime.now runtime.now (Ok name)) }
{
    let subscripts = std::slice::from_ref(&subscript);
    match runtime.store().element(array, subscripts) {
        Ok(name) => name,
        Err(_refused) => None,
    }
}

/// The numbers of subscripts; error 1 where one has none.
fn numbers_of(alloc: Global, subscripts: &[Value]) -> Result<Vec<i64>, Exit>
    ensures { (nodes : List Node)
        → IsThere (λ numbers. numbers.items) (numbers_of (map (shown nodes) subscripts.now)) result }
{
    let mut numbers = Vec::new(alloc);
    for subscript in subscripts {
        numbers.push(number_of(subscript)?)?;
    }
    Ok(numbers)
}

/// The only subscript, which is taken out; error 12 where there are more or fewer.
fn only(subscripts: &mut [Value]) -> Result<Value, Exit>
    ensures one { IfOk result (λ key. subscripts.old ≡ key ∷ []) }
    ensures other { IfErr result (λ e. (e ≡ Exit.Halt (Stop.Error 12)) × (length subscripts.old ≡ 1 → ⊥)) }
{
    if subscripts.len() != 1 {
        return Err(error(BAD_PROTOTYPE));
    }
    Ok(std::mem::replace(&mut subscripts[0], Value::Int(0)))
}

/// What a table holds for a key: null where it has no entry.
fn entry_read(runtime: &Runtime, table: ObjId, key: &Value) -> Result<Value, Exit>
    ensures { Does shown IsValueOf (entry_read table (shown runtime.now.nodes key.now)) runtime.now runtime.now result }
{
    match runtime.store().find(table, key)? {
        Some(name) => runtime.stored(name),
        None => Ok(Value::null()),
    }
}
