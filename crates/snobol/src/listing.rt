//! The listing of the events of a match.
ghost use Rattle.std.specs.Prelude.{◌≡◌, ◌<◌, ◌≤◌, [], false, true, length, OnOk};
ghost use Rattle.sno_pattern.specs.Table.{tree};
ghost use Rattle.sno_match.specs.Matching.{in_trace, IsWithin};
ghost use Rattle.sno_runtime.specs.Effects.{listed};
ghost use Rattle.sno_runtime.specs.inner.Performs.{Performs};
ghost use Rattle.sno_runtime.specs.Runtime.{itself};
ghost use Rattle.sno_runtime.specs.inner.Runtime.{any};
ghost use Rattle.sno_statement.specs.inner.Calling.{CanRunIn};
ghost use Rattle.snobol.specs.Listing.{lists_events};
ghost use Rattle.snobol.specs.Meaning.{calls};
ghost use Rattle.sno_statement.specs.Running.{Runs, devices};
ghost use Rattle.sno_statement.specs.Turns.{most_events};

use sno_expression::value_of;
use sno_io::{Sink, Source, put};
use sno_match::{Event, Matcher, Pending};
use sno_runtime::{Exit, Runtime, Stop, line_of, take_effect};
use sno_statement::{Calls, answer_of, evaluate};
use sno_value::PatId;

/// Lists the events of a match, up to the last: each event's line is written, and then it takes effect. A deferred part
/// is evaluated, and has no line.
pub(crate) fn list_ways<R: Source, W: Sink, S: Calls<R, W>>(
    runtime: &mut Runtime,
    scope: &S,
    reader: &mut R,
    pattern: PatId,
    subject: &[u8],
    anchored: bool,
    limit: u32,
    writer: &mut W,
) -> Result<(), Exit>
    requires outermost { S.caller scope.now ≡ calls (S.code scope.now) }
    requires pattern { pattern.0 < length runtime.old.nodes }
    requires subject { length subject.now ≤ 1_000_000 }
    requires within { CanRunIn (S.within scope.now) runtime.old (devices (R.feed reader.old) (W.drain writer.old)) }
    ensures { Runs itself any (lists_events (S.code scope.now) (tree runtime.old.nodes pattern.0) subject.now anchored
        limit (most_events limit) [] 0) runtime.old runtime.new
        (devices (R.feed reader.old) (W.drain writer.old)) (devices (R.feed reader.new) (W.drain writer.new)) result }
{
    let alloc = runtime.alloc();
    let mut matcher = Matcher::new(alloc, runtime.patterns(), pattern, subject, anchored, limit)?;
    'events: loop {
        let event = matcher.next(runtime.patterns())?;
        match event {
            Event::Value { prim, expr } => {
                let value = evaluate(runtime, scope, reader, writer, Some(value_of(expr)));
                let given = answer_of(runtime, prim, value)?;
                matcher.answer(runtime.patterns(), given)?;
            }
            Event::Exhausted | Event::Aborted | Event::Limit => {
                list_event(runtime, subject, event, matcher.pending(), writer)?;
                return Ok(());
            }
            _ => list_event(runtime, subject, event, matcher.pending(), writer)?,
        }
    }
}

/// Writes the line of an event, which then takes effect.
pub(crate) fn list_event<W: Sink>(
    runtime: &mut Runtime,
    subject: &[u8],
    event: Event,
    way: &[Pending],
    writer: &mut W,
) -> Result<(), Stop>
    requires subject { length subject.now ≤ 1_000_000 }
    requires within { IsWithin (length subject.now) (in_trace event way.now) }
    requires sound { (W.drain writer.old).broken ≡ false }
    ensures does { Performs (listed subject.now (in_trace event way.now))
        runtime.old runtime.new (W.drain writer.old).taken (W.drain writer.new).taken result }
    ensures nodes { runtime.new.nodes ≡ runtime.old.nodes }
    ensures sound { OnOk result ((W.drain writer.new).broken ≡ false) }
    ensures fault { result ≡ Err Stop.WriteFault → (W.drain writer.new).broken ≡ true }
{
    let line = line_of(runtime, event, way)?;
    put(writer, &line)?;
    take_effect(runtime, subject, event, writer)
}
