//! The unary operators, and the names of forms.
ghost use Rattle.std.specs.Prelude.{◌≡◌};
ghost use Rattle.sno_runtime.specs.Values.{shown, IsValueOf};
ghost use Rattle.sno_runtime.specs.Operators.{unary, unary_name, cursor_pattern, name_of};
ghost use Rattle.sno_runtime.specs.Numbers.{number_of};
ghost use Rattle.sno_runtime.specs.Variables.{named_by};
ghost use Rattle.sno_runtime.specs.Runtime.{Runtime, IsReady, itself};
ghost use Rattle.sno_runtime.specs.inner.Runtime.{Does, Reads, any};

use crate::convert::{number_of, text_of};
use crate::errors::{DATA_TYPE, NO_VARIABLE};
use crate::operators::computed;
use crate::runtime::Runtime;
use crate::stops::{Exit, error};
use sno_io::Source;
use sno_text::UnaryOperator;
use sno_value::{Name, Value, sub};

/// A unary operator on its operand, which is a name behind `.` and `@`. `*` is none, since it leaves its operand as it
/// is: evaluation gives the expression before it comes here.
pub fn unary<R: Source>(
    runtime: &mut Runtime,
    reader: &mut R,
    operator: UnaryOperator,
    x: Value,
) -> Result<Value, Exit>
    requires value { IsValueOf runtime.old.nodes x }
    requires ready { IsReady runtime.old (R.feed reader.old) }
    ensures { Reads shown IsValueOf (unary operator (shown runtime.old.nodes x))
        runtime.old runtime.new (R.feed reader.old) (R.feed reader.new) result }
{
    match operator {
        UnaryOperator::Plus => plus(&x),
        UnaryOperator::Minus => minus(&x),
        UnaryOperator::Indirect => {
            let target = named_by(runtime, x)?;
            runtime.read(reader, target)
        }
        UnaryOperator::NameOf => name_of(runtime, &x),
        UnaryOperator::Cursor => cursor_pattern(runtime, &x),
        UnaryOperator::Query => Ok(Value::null()),
        UnaryOperator::Not => Err(Exit::Failure),
        UnaryOperator::Defer => Err(Exit::Failure),
    }
}

/// +X.
fn plus(x: &Value) -> Result<Value, Exit>
    ensures { (s : Runtime) → Does shown IsValueOf (unary UnaryOperator.Plus (shown s.nodes x.now)) s s result }
{
    let number = number_of(x)?;
    Ok(Value::Int(number))
}

/// -X.
fn minus(x: &Value) -> Result<Value, Exit>
    ensures { (s : Runtime) → Does shown IsValueOf (unary UnaryOperator.Minus (shown s.nodes x.now)) s s result }
{
    let number = number_of(x)?;
    computed(sub(0, number))
}

/// The name of a unary operator's form, which $X alone has.
pub fn unary_name(runtime: &mut Runtime, operator: UnaryOperator, x: Value) -> Result<Value, Exit>
    requires { IsValueOf runtime.old.nodes x }
    ensures { Does shown IsValueOf (unary_name operator (shown runtime.old.nodes x)) runtime.old runtime.new result }
{
    match operator {
        UnaryOperator::Indirect => {
            let target = named_by(runtime, x)?;
            Ok(Value::Name(target))
        }
        _ => Err(error(NO_VARIABLE)),
    }
}

/// The variable that a value names: a name itself, and a text by its symbol.
fn named_by(runtime: &mut Runtime, x: Value) -> Result<Name, Exit>
    requires { IsValueOf runtime.old.nodes x }
    ensures { Does itself any (named_by (shown runtime.old.nodes x)) runtime.old runtime.new result }
{
    if let Value::Name(target) = x {
        return Ok(target);
    }
    let text = text_of(runtime.alloc(), x)?;
    let target = runtime.variable(text.as_slice())?;
    Ok(target)
}

/// .X, where X was taken as a name.
fn name_of(runtime: &Runtime, x: &Value) -> Result<Value, Exit>
    ensures { Does shown IsValueOf (name_of (shown runtime.now.nodes x.now)) runtime.now runtime.now result }
{
    match x {
        Value::Name(target) => runtime.name_value(*target),
        _ => Err(error(DATA_TYPE)),
    }
}

/// @X, where X was taken as a name.
fn cursor_pattern(runtime: &mut Runtime, x: &Value) -> Result<Value, Exit>
    ensures { Does shown IsValueOf (cursor_pattern (shown runtime.old.nodes x.now)) runtime.old runtime.new result }
{
    match x {
        Value::Name(target) => {
            let id = runtime.cursor(*target)?;
            Ok(Value::Pat(id))
        }
        _ => Err(error(DATA_TYPE)),
    }
}
