//! The answers to deferred parts that a match has come to.
ghost use Rattle.std.specs.Prelude.{◌≡◌, [], length, Ok, OnOk};
ghost use Rattle.sno_value.specs.declared.value.Value.{Value as Held};
ghost use Rattle.sno_value.specs.declared.value.Value.TheVariants as Stored;
ghost use Rattle.sno_pattern.specs.Pattern.{Leaf, Text as Literal};
ghost use Rattle.sno_runtime.specs.Action.{Action, settles};
ghost use Rattle.sno_runtime.specs.Operators.{makes};
ghost use Rattle.sno_runtime.specs.Runtime.{tree_of, IsPatternOf};
ghost use Rattle.sno_runtime.specs.Values.{Value as Shown, shown, IsValueOf};
ghost use Rattle.sno_runtime.specs.Variables.{holds};
ghost use Rattle.sno_runtime.specs.inner.Runtime.{Does};
ghost use Rattle.sno_expression.specs.inner.Flat.{after, AreKnown};
ghost use Rattle.sno_statement.specs.inner.Calling.{CanRunIn};
ghost use Rattle.sno_statement.specs.inner.Given.{given_of, IsGivenOf};
ghost use Rattle.sno_statement.specs.inner.StringNodes.{AreStringNodes};
ghost use Rattle.sno_statement.specs.Running.{CanRun, Devices, devices, Runs};
ghost use Rattle.sno_statement.specs.Turns.{answer_of, answers};

use crate::answers::answer_of;
use crate::calls::Calls;
use crate::evaluation::{evaluate, run_code};
use crate::held::only_held;
use crate::string_nodes::StringNodes;
use sno_expression::{Form, Instruction, only_place, value_of};
use sno_io::{Sink, Source};
use sno_runtime::{Exit, Runtime};
use sno_value::{ExprId, Name, PatId, Prim, Text, Value};

/// From how many bytes on the node of a string is told by the name under which it is held: a shorter one is compared with
/// the node that was made before.
const LONG: usize = 257;

/// The answer to a deferred part. Where its expression is a variable, it is mostly found at once.
#[inline(always)]
pub(crate) fn answer_to<R: Source, W: Sink, S: Calls<R, W>>(
    runtime: &mut Runtime,
    scope: &S,
    reader: &mut R,
    writer: &mut W,
    prim: Option<Prim>,
    expr: ExprId,
    nodes: &mut StringNodes,
) -> Result<Option<PatId>, Exit>
    requires within { CanRunIn (S.within scope.now) runtime.old (devices (R.feed reader.old) (W.drain writer.old)) }
    requires nodes { AreStringNodes runtime.old nodes.old }
    ensures does { Runs given_of IsGivenOf (answers (S.code scope.now) (S.caller scope.now) prim expr.0)
        runtime.old runtime.new
        (devices (R.feed reader.old) (W.drain writer.old)) (devices (R.feed reader.new) (W.drain writer.new)) result }
    ensures nodes { OnOk result (AreStringNodes runtime.new nodes.new) }
{
    let part = value_of(expr);
    let Some(code) = scope.code().code_of(part) else {
        nodes.clear();
        return answered_apart(runtime, scope, reader, writer, prim, expr);
    };
    let held = only_held(runtime, scope.program(), code);
    if is_asked_by_name(held, code)
        && let Some(name) = only_place(runtime, scope.program(), code)
    {
        return answered_at(runtime, prim, expr, name, nodes);
    }
    let Some(held) = held else {
        nodes.clear();
        return answered_by(runtime, scope, reader, writer, prim, expr, code);
    };
    if let Value::Pat(id) = held
        && prim.is_none()
    {
        return Ok(Some(*id));
    }
    let value = held.copy()?;
    runtime.answers_for(expr);
    let answer = answer_of(runtime, prim, Ok(value));
    runtime.makes_once();
    answer
}

/// Whether it may serve to know the name of what code gives: that of a variable which holds a long string, or of an item.
#[inline(always)]
fn is_asked_by_name(held: Option<&Value>, code: &[Instruction]) -> bool {
    match held {
        Some(Value::Str(text)) => text.as_slice().len() >= LONG,
        Some(_) => false,
        None => match code.first() {
            Some(last) => matches!(last.form, Form::Item),
            None => false,
        },
    }
}

/// The answer to a deferred part by what its code gives. It stands apart, since it is much code, and so that the match
/// has no place for a value in its frame.
#[inline(never)]
fn answered_by<R: Source, W: Sink, S: Calls<R, W>>(
    runtime: &mut Runtime,
    scope: &S,
    reader: &mut R,
    writer: &mut W,
    prim: Option<Prim>,
    expr: ExprId,
    code: &[Instruction],
) -> Result<Option<PatId>, Exit>
    requires known { AreKnown (S.code scope.now) code.now }
    requires within { CanRunIn (S.within scope.now) runtime.old (devices (R.feed reader.old) (W.drain writer.old)) }
    ensures { Runs given_of IsGivenOf (settles
        (after (S.code scope.now) (S.caller scope.now) code.now (length code.now) []) (answer_of prim))
        runtime.old runtime.new
        (devices (R.feed reader.old) (W.drain writer.old)) (devices (R.feed reader.new) (W.drain writer.new)) result }
{
    runtime.answers_for(expr);
    let value = run_code(runtime, scope, reader, writer, code);
    // A call may have made nodes of its own.
    runtime.answers_for(expr);
    let answer = answer_of(runtime, prim, value);
    runtime.makes_once();
    answer
}

/// The answer to a deferred part whose expression gives what is held under a name.
#[inline(never)]
fn answered_at(
    runtime: &mut Runtime,
    prim: Option<Prim>,
    expr: ExprId,
    name: Name,
    nodes: &mut StringNodes,
) -> Result<Option<PatId>, Exit>
    requires nodes { AreStringNodes runtime.old nodes.old }
    ensures does { (act : Action Shown) (d : Devices) → CanRun runtime.old d
        → ((v : Held) → Does shown IsValueOf (holds name) runtime.old runtime.old (Ok v)
        → Does shown IsValueOf act runtime.old runtime.old (Ok v))
        → Runs given_of IsGivenOf (settles act (answer_of prim)) runtime.old runtime.new d d result }
    ensures nodes { (d : Devices) → CanRun runtime.old d → OnOk result (AreStringNodes runtime.new nodes.new) }
{
    let held = runtime.held(name);
    let value = held.copy()?;
    if prim.is_none()
        && let Value::Str(text) = &value
        && text.as_slice().len() >= LONG
    {
        let id = string_node(runtime, name, text, nodes)?;
        return Ok(Some(id));
    }
    runtime.answers_for(expr);
    let answer = answer_of(runtime, prim, Ok(value));
    runtime.makes_once();
    answer
}

/// The node for a text that is held under a name: the one that the match has for that, which is counted, or a new one.
#[inline(always)]
fn string_node(
    runtime: &mut Runtime,
    name: Name,
    text: &Text,
    nodes: &mut StringNodes,
) -> Result<PatId, Exit>
    requires held { Does shown IsValueOf (holds name) runtime.old runtime.old (Ok (Stored.Str text.now)) }
    requires nodes { AreStringNodes runtime.old nodes.old }
    ensures does { Does tree_of IsPatternOf (makes (Leaf (Literal text.now))) runtime.old runtime.new result }
    ensures nodes { OnOk result (AreStringNodes runtime.new nodes.new) }
{
    if let Some(id) = nodes.find(name)
        && runtime.count_nodes(1)
    {
        return Ok(id);
    }
    let id = runtime.text_of(text)?;
    nodes.keep(name, id);
    Ok(id)
}

/// The answer to a deferred part whose code is made for this evaluation alone.
#[inline(never)]
fn answered_apart<R: Source, W: Sink, S: Calls<R, W>>(
    runtime: &mut Runtime,
    scope: &S,
    reader: &mut R,
    writer: &mut W,
    prim: Option<Prim>,
    expr: ExprId,
) -> Result<Option<PatId>, Exit>
    requires { CanRunIn (S.within scope.now) runtime.old (devices (R.feed reader.old) (W.drain writer.old)) }
    ensures { Runs given_of IsGivenOf (answers (S.code scope.now) (S.caller scope.now) prim expr.0)
        runtime.old runtime.new
        (devices (R.feed reader.old) (W.drain writer.old)) (devices (R.feed reader.new) (W.drain writer.new)) result }
{
    let value = evaluate(runtime, scope, reader, writer, Some(value_of(expr)));
    answer_of(runtime, prim, value)
}
