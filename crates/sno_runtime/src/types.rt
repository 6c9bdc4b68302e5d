//! The functions of types.
ghost use Rattle.std.specs.Prelude.{◌≡◌, List};
ghost use Rattle.sno_pattern.specs.Table.{Node};
ghost use Rattle.sno_runtime.specs.Values.{shown, IsValueOf};
ghost use Rattle.sno_runtime.specs.Functions.{ident, differ, same, integer};
ghost use Rattle.sno_runtime.specs.Types.{data_called, type_made, datatype};
ghost use Rattle.sno_runtime.specs.Runtime.{Runtime};
ghost use Rattle.sno_runtime.specs.inner.Runtime.{Does};

use crate::convert::{null_where, number, text_of};
use crate::errors::{DATA_TYPE, UNDEFINED_FUNCTION};
use crate::runtime::Runtime;
use crate::stops::{Exit, error};
use sno_value::{Text, Value};

/// IDENT: null where both values are the same.
pub fn ident(x: &Value, y: &Value) -> Result<Value, Exit>
    ensures { (s : Runtime) → Does shown IsValueOf (ident (shown s.nodes x.now) (shown s.nodes y.now)) s s result }
{
    match same(x, y) {
        Some(equal) => null_where(equal),
        None => Err(error(DATA_TYPE)),
    }
}

/// DIFFER: null where the values aren't the same.
pub fn differ(x: &Value, y: &Value) -> Result<Value, Exit>
    ensures { (s : Runtime) → Does shown IsValueOf (differ (shown s.nodes x.now) (shown s.nodes y.now)) s s result }
{
    match same(x, y) {
        Some(equal) => null_where(!equal),
        None => Err(error(DATA_TYPE)),
    }
}

/// Whether two values are equal in type and value. An object is equal to itself alone. Two patterns aren't compared,
/// and neither are two expressions.
pub fn same(x: &Value, y: &Value) -> Option<bool>
    ensures { (nodes : List Node) → result ≡ same (shown nodes x.now) (shown nodes y.now) }
{
    match (x, y) {
        (Value::Pat(_), Value::Pat(_)) | (Value::Expr(_), Value::Expr(_)) => None,
        _ => Some(*x == *y),
    }
}

/// INTEGER: null where the value is an integer, or a string that writes one.
pub fn integer(x: &Value) -> Result<Value, Exit>
    ensures { (s : Runtime) → Does shown IsValueOf (integer (shown s.nodes x.now)) s s result }
{
    null_where(number(x).is_some())
}

/// DATATYPE: the name of the value's type.
pub fn datatype(runtime: &Runtime, x: &Value) -> Result<Value, Exit>
    ensures { Does shown IsValueOf (datatype (shown runtime.now.nodes x.now)) runtime.now runtime.now result }
{
    let name = Text::from_slice(runtime.alloc(), runtime.type_name(x))?;
    Ok(Value::Str(name))
}

/// DATA(P), which is error 4 where DATA is no function.
pub fn define_type(runtime: &mut Runtime, prototype: Value) -> Result<Value, Exit>
    requires { IsValueOf runtime.old.nodes prototype }
    ensures { Does shown IsValueOf (data_called (shown runtime.old.nodes prototype)) runtime.old runtime.new result }
{
    if !runtime.has_data() {
        return Err(error(UNDEFINED_FUNCTION));
    }
    type_made(runtime, prototype)
}

/// The type of a prototype is made.
fn type_made(runtime: &mut Runtime, prototype: Value) -> Result<Value, Exit>
    requires { IsValueOf runtime.old.nodes prototype }
    ensures { Does shown IsValueOf (type_made (shown runtime.old.nodes prototype)) runtime.old runtime.new result }
{
    let prototype = text_of(runtime.alloc(), prototype)?;
    runtime.define_data(prototype.as_slice())?;
    Ok(Value::null())
}
