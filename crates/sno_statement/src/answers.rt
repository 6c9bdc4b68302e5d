//! The answer to a deferred part that a match has reached.
ghost use Rattle.sno_runtime.specs.Action.{Action, settles};
ghost use Rattle.sno_runtime.specs.Runtime.{OnAnswer, Runtime};
ghost use Rattle.sno_runtime.specs.Values.{Value as Shown, shown, IsValueOf};
ghost use Rattle.sno_statement.specs.inner.Given.{IsGivenOf, given_of};
ghost use Rattle.sno_statement.specs.Running.{Devices, Runs};
ghost use Rattle.sno_statement.specs.Turns.{answer_of};

use sno_runtime::{Exit, Runtime, answer};
use sno_value::{PatId, Prim, Value};

/// The pattern that stands in the place of a deferred part: that of its expression's value or, for a primitive, the
/// primitive with that value. It is None where the expression fails, and then the part does.
pub fn answer_of(
    runtime: &mut Runtime,
    prim: Option<Prim>,
    value: Result<Value, Exit>,
) -> Result<Option<PatId>, Exit>
    requires { OnAnswer (IsValueOf runtime.old.nodes) value }
    ensures { (act : Action Shown) (before : Runtime) (old new : Devices)
        → Runs shown IsValueOf act before runtime.old old new value
        → Runs given_of IsGivenOf (settles act (answer_of prim)) before runtime.new old new result }
{
    match value {
        Ok(value) => {
            let pattern = answer(runtime, prim, value)?;
            Ok(Some(pattern))
        }
        Err(Exit::Failure) => Ok(None),
        Err(Exit::Halt(stop)) => Err(Exit::Halt(stop)),
    }
}
