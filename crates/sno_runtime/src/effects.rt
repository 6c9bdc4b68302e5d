//! What the events of a match do.
ghost use Rattle.std.specs.Prelude.{◌≡◌, ◌≤◌, ◌++◌, [], List, codes, length, false, true, OnErr, OnOk};
ghost use Rattle.sno_io.specs.Devices.{TakesBytes};
ghost use Rattle.sno_pattern.specs.Table.{Node};
ghost use Rattle.sno_match.specs.Matching.{in_trace, IsWithin};
ghost use Rattle.sno_runtime.specs.Values.{shown, IsValueOf};
ghost use Rattle.sno_runtime.specs.Variables.{assigns, is_output, text_of};
ghost use Rattle.sno_runtime.specs.Effects.{effect};
ghost use Rattle.sno_runtime.specs.inner.Performs.{Performs, WritesLine};

use crate::errors::DATA_TYPE;
use crate::runtime::{Runtime, is_output};
use crate::stops::Stop;
use sno_io::{DeviceFault, Sink, put};
use sno_match::{Event, Matcher};
use sno_value::{Digits, Name, Text, Value};

/// What an event does: `$` sets its target to a part of the subject, and `@` to the cursor.
pub fn take_effect<W: Sink>(
    runtime: &mut Runtime,
    subject: &[u8],
    event: Event,
    writer: &mut W,
) -> Result<(), Stop>
    requires subject { length subject.now ≤ 1_000_000 }
    requires within { IsWithin (length subject.now) (in_trace event []) }
    requires sound { (W.drain writer.old).broken ≡ false }
    ensures does { Performs (effect subject.now (in_trace event [])) runtime.old runtime.new (W.drain writer.old).taken
        (W.drain writer.new).taken result }
    ensures nodes { runtime.new.nodes ≡ runtime.old.nodes }
    ensures sound { OnOk result ((W.drain writer.new).broken ≡ false) }
    ensures fault { result ≡ Err Stop.WriteFault → (W.drain writer.new).broken ≡ true }
{
    match event {
        Event::Assign { target, start, end } => {
            let part = Text::from_slice(runtime.alloc(), &subject[start..end])?;
            assign(runtime, target, Value::Str(part), writer)
        }
        Event::Cursor { target, at } => assign(runtime, target, Value::Int(at as i64), writer),
        _ => Ok(()),
    }
}

/// What an event of a match does, as `take_effect` has it, in the subject of the match. A long part that `$` assigns
/// shares the subject's block.
pub fn take_effect_in<W: Sink>(
    runtime: &mut Runtime,
    matcher: &Matcher,
    event: Event,
    writer: &mut W,
) -> Result<(), Stop>
    requires subject { length matcher.now.subject ≤ 1_000_000 }
    requires within { IsWithin (length matcher.now.subject) (in_trace event []) }
    requires sound { (W.drain writer.old).broken ≡ false }
    ensures does { Performs (effect matcher.now.subject (in_trace event [])) runtime.old runtime.new
        (W.drain writer.old).taken (W.drain writer.new).taken result }
    ensures nodes { runtime.new.nodes ≡ runtime.old.nodes }
    ensures sound { OnOk result ((W.drain writer.new).broken ≡ false) }
    ensures fault { result ≡ Err Stop.WriteFault → (W.drain writer.new).broken ≡ true }
{
    match event {
        Event::Assign { target, start, end } => {
            let part = matcher.text(runtime.alloc(), start, end)?;
            assign(runtime, target, Value::Str(part), writer)
        }
        _ => take_effect(runtime, matcher.subject(), event, writer),
    }
}

/// Sets what is named. OUTPUT is given a value that has a text, else it is error 1, and writes it as a line.
#[inline(always)]
pub fn assign<W: Sink>(
    runtime: &mut Runtime,
    target: Name,
    value: Value,
    writer: &mut W,
) -> Result<(), Stop>
    requires value { IsValueOf runtime.old.nodes value }
    requires sound { (W.drain writer.old).broken ≡ false }
    ensures does { Performs (assigns target (shown runtime.old.nodes value))
        runtime.old runtime.new (W.drain writer.old).taken (W.drain writer.new).taken result }
    ensures nodes { runtime.new.nodes ≡ runtime.old.nodes }
    ensures sound { OnOk result ((W.drain writer.new).broken ≡ false) }
    ensures fault { result ≡ Err Stop.WriteFault → (W.drain writer.new).broken ≡ true }
{
    if is_output(target) {
        return assign_output(runtime, target, value, writer);
    }
    runtime.set(target, value);
    Ok(())
}

/// Writes a value as a line, and gives it to OUTPUT.
#[inline(never)]
fn assign_output<W: Sink>(
    runtime: &mut Runtime,
    target: Name,
    value: Value,
    writer: &mut W,
) -> Result<(), Stop>
    requires output { is_output target ≡ true }
    requires value { IsValueOf runtime.old.nodes value }
    requires sound { (W.drain writer.old).broken ≡ false }
    ensures does { Performs (assigns target (shown runtime.old.nodes value))
        runtime.old runtime.new (W.drain writer.old).taken (W.drain writer.new).taken result }
    ensures nodes { runtime.new.nodes ≡ runtime.old.nodes }
    ensures sound { OnOk result ((W.drain writer.new).broken ≡ false) }
    ensures fault { result ≡ Err Stop.WriteFault → (W.drain writer.new).broken ≡ true }
{
    write_value(&value, writer)?;
    runtime.set(target, value);
    Ok(())
}

/// Writes the text of a value as a line. The text is whole before its first byte is written.
fn write_value<W: Sink>(value: &Value, writer: &mut W) -> Result<(), Stop>
    requires { (W.drain writer.old).broken ≡ false }
    ensures line { (nodes : List Node) → WritesLine (text_of (shown nodes value.now))
        (W.drain writer.old).taken (W.drain writer.new).taken result }
    ensures sound { OnOk result ((W.drain writer.new).broken ≡ false) }
    ensures fault { result ≡ Err Stop.WriteFault → (W.drain writer.new).broken ≡ true }
{
    match value {
        Value::Str(text) => write_line(text.as_slice(), writer)?,
        Value::Int(number) => {
            let digits = Digits::of(*number);
            write_line(digits.as_slice(), writer)?
        }
        _ => return Err(Stop::Error(DATA_TYPE)),
    }
    Ok(())
}

/// Writes a text and then a line feed, or on a fault a beginning of them.
fn write_line<W: Sink>(text: &[u8], writer: &mut W) -> Result<(), DeviceFault>
    requires { (W.drain writer.old).broken ≡ false }
    ensures bytes { TakesBytes (W.drain writer.old).taken (W.drain writer.new).taken result (text.now ++ codes "\n") }
    ensures sound { OnOk result ((W.drain writer.new).broken ≡ false) }
    ensures fault { OnErr result ((W.drain writer.new).broken ≡ true) }
{
    put(writer, text)?;
    put(writer, b"\n")?;
    Ok(())
}
