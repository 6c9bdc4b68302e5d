//! Calls of the functions that a program has made.
ghost use Rattle.std.specs.Prelude.{◌≡◌, ◌<◌, ◌-◌, None, Some, true, IfSome, map};
ghost use Rattle.std.specs.List.{AllByRecursion};
ghost use Rattle.sno_runtime.specs.Action.{gives};
ghost use Rattle.sno_runtime.specs.Fields.{field_value};
ghost use Rattle.sno_runtime.specs.Operators.{argument};
ghost use Rattle.sno_runtime.specs.Runtime.{itself};
ghost use Rattle.sno_runtime.specs.inner.Runtime.{Does, any};
ghost use Rattle.sno_runtime.specs.Values.{shown, IsValueOf};
ghost use Rattle.sno_statement.specs.inner.Calling.{CanRunIn};
ghost use Rattle.sno_expression.specs.inner.Flat.{IsCallOf, IsFormOf, IsNameOf};
ghost use Rattle.sno_expression.specs.declared.forms.Part.{Part};
ghost use Rattle.sno_text.specs.Program.{Program};
ghost use Rattle.sno_expression.specs.Evaluate.{function_called, made_call, made_function};
ghost use Rattle.sno_expression.specs.Forms.{node_at};
ghost use Rattle.sno_statement.specs.Running.{devices, Runs};

use crate::calls::Calls;
use sno_expression::{Form, Instruction, Known, Part, Wanted};
use sno_io::{Sink, Source};
use sno_runtime::{Exit, Runtime, argument, construct, field_value};
use sno_text::{Node, Program};
use sno_value::{Name, SymId, Value};

/// The function that an instruction calls, where the program has made it.
#[inline(always)]
pub(crate) fn called_function(
    runtime: &mut Runtime,
    program: &Program,
    next: &Instruction,
) -> Result<Option<SymId>, Exit>
    requires known { IsFormOf program.now next.now.part next.now.form }
    ensures does { Does itself any
        (function_called program.now.text (node_at program.now next.now.part) next.now.part.wanted)
        runtime.old runtime.new result }
    ensures halts { result ≡ Err Exit.Failure → ⊥ }
{
    if let Some(name) = called_name(&next.form)
        && let Some(id) = name.symbol(runtime, program)
    {
        return Ok(made_function(runtime, Name::Var(id)));
    }
    if calls_nothing(&next.form) {
        return Ok(None);
    }
    searched_function(runtime, program, next.part)
}

/// The name of the function that a form calls, if it is a call.
#[inline(always)]
fn called_name(form: &Form) -> Option<&Known>
    ensures { IfSome result (λ name. (program : Program) (part : Part) → IsFormOf program part form.now
        → IsCallOf program part name.now.span × IsNameOf program.text name.now) }
{
    match form {
        Form::Call(_, name) => Some(name),
        Form::Comparison(_, name) => Some(name),
        Form::Remainder(name) => Some(name),
        Form::Examination(_, name) => Some(name),
        _ => None,
    }
}

/// Whether a form is known to be no call. Where that isn't known, its node tells.
#[inline(always)]
fn calls_nothing(form: &Form) -> bool
    ensures { result ≡ true → (program : Program) (part : Part) → IsFormOf program part form.now
        → function_called program.text (node_at program part) part.wanted ≡ gives None }
{
    match form {
        Form::Concatenation => true,
        Form::Binary(_) => true,
        Form::Item => true,
        Form::ItemName => true,
        Form::Plane => true,
        Form::PlaneName => true,
        _ => false,
    }
}

/// The function that a form calls, whose name is looked for.
#[inline(never)]
fn searched_function(
    runtime: &mut Runtime,
    program: &Program,
    part: Part,
) -> Result<Option<SymId>, Exit>
    ensures does { Does itself any (function_called program.now.text (node_at program.now part) part.wanted)
        runtime.old runtime.new result }
    ensures halts { result ≡ Err Exit.Failure → ⊥ }
{
    if !matches!(part.wanted, Wanted::Value) || part.node.0 >= program.nodes() {
        return Ok(None);
    }
    let Node::Call(name, _) = program.node(part.node) else {
        return Ok(None);
    };
    let name = runtime.variable_at(name.start, program.text(*name))?;
    Ok(made_function(runtime, name))
}

/// The number of the function with a name, where the program has made one.
fn made_function(runtime: &Runtime, name: Name) -> Option<SymId>
    ensures { result ≡ made_function runtime.now.store.functions name }
{
    match name {
        Name::Var(id) if runtime.is_made(id) => Some(id),
        _ => None,
    }
}

/// What the object that is the first argument holds in a field. It stands apart, so that a call does without its frame.
#[inline(never)]
fn field_of(runtime: &Runtime, function: SymId, arguments: &mut [Value]) -> Result<Value, Exit>
    ensures { Does shown IsValueOf
        (field_value function.0 (argument (map (shown runtime.now.nodes) arguments.old) 0))
        runtime.now runtime.now result }
{
    let object = argument(arguments, 0);
    field_value(runtime, function, &object)
}

/// What a call of a function gives that the program has made: a constructor makes an object, a field is what its object
/// holds there, and a defined function is called. The arguments are moved out of their places.
#[inline(always)]
pub(crate) fn call_made<R: Source, W: Sink, S: Calls<R, W>>(
    runtime: &mut Runtime,
    scope: &S,
    reader: &mut R,
    writer: &mut W,
    function: SymId,
    arguments: &mut [Value],
) -> Result<Value, Exit>
    requires values { AllByRecursion (IsValueOf runtime.old.nodes) arguments.old }
    requires within { CanRunIn (S.within scope.now) runtime.old (devices (R.feed reader.old) (W.drain writer.old)) }
    ensures { Runs shown IsValueOf (made_call (S.caller scope.now) function.0
        (map (shown runtime.old.nodes) arguments.old)) runtime.old runtime.new
        (devices (R.feed reader.old) (W.drain writer.old)) (devices (R.feed reader.new) (W.drain writer.new)) result }
{
    if let Some(number) = runtime.store().constructor(function) {
        return construct(runtime, number, arguments);
    }
    if runtime.store().is_field(function) {
        return field_of(runtime, function, arguments);
    }
    scope.call(runtime, reader, writer, function, arguments)
}
