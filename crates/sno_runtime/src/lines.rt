//! The lines that `ways` writes.
ghost use Rattle.std.specs.Prelude.{◌≡◌, ◌++◌, IfOk, OnOk, codes, string_bytes};
ghost use Rattle.sno_match.specs.Matching.{in_trace};
ghost use Rattle.sno_runtime.specs.Variables.{text_of_name};
ghost use Rattle.sno_runtime.specs.Lines.{line_of, pending_part, pending_parts};

use crate::runtime::Runtime;
use sno_match::{Event, Pending};
use sno_value::Name;
use std::alloc::AllocError;

/// The line of an event, with its line feed. `way` is the pending list of the last way.
pub fn line_of(runtime: &Runtime, event: Event, way: &[Pending]) -> Result<Vec<u8>, AllocError>
    ensures { IfOk result (λ line. line.items ≡ line_of runtime.now.store.symbols (in_trace event way.now)) }
{
    let alloc = runtime.alloc();
    match event {
        Event::Way { start, end } => way_line(runtime, start, end, way),
        Event::Assign { target, start, end } => {
            let places = format!(in alloc; " {start} {end}\n")?;
            target_line(runtime, b"set ", target, places.as_bytes())
        }
        Event::Cursor { target, at } => {
            let place = format!(in alloc; " {at}\n")?;
            target_line(runtime, b"cursor ", target, place.as_bytes())
        }
        Event::Exhausted => b"exhausted\n".to_vec(alloc),
        Event::Aborted => b"aborted\n".to_vec(alloc),
        Event::Limit => b"limit\n".to_vec(alloc),
        Event::Value { .. } => Ok(Vec::new(alloc)),
    }
}

/// The line of a way, with the assignments that wait for its end.
fn way_line(
    runtime: &Runtime,
    start: usize,
    end: usize,
    pending: &[Pending],
) -> Result<Vec<u8>, AllocError>
    ensures { IfOk result (λ line. line.items ≡ line_of runtime.now.store.symbols
        (in_trace (Event.Way start end) pending.now)) }
{
    let mut line = format!(in runtime.alloc(); "way {start} {end}")?.into_bytes();
    for assignment in pending {
        push_pending(runtime, &mut line, *assignment)?;
    }
    line.push(b'\n')?;
    Ok(line)
}

/// Puts an assignment that waits behind a line.
fn push_pending(
    runtime: &Runtime,
    line: &mut Vec<u8>,
    assignment: Pending,
) -> Result<(), AllocError>
    ensures { OnOk result (line.new.items ≡ line.old.items ++ pending_part runtime.now.store.symbols assignment) }
{
    let Pending { target, start, end } = assignment;
    let places = format!(in runtime.alloc(); "={start}-{end}")?;
    line.push(b' ')?;
    line.extend_from_slice(runtime.name_text(target))?;
    line.extend_from_slice(places.as_bytes())?;
    Ok(())
}

/// A line with a name between two texts.
fn target_line(
    runtime: &Runtime,
    word: &[u8],
    target: Name,
    places: &[u8],
) -> Result<Vec<u8>, AllocError>
    ensures { IfOk result (λ line. line.items ≡ word.now
        ++ (text_of_name runtime.now.store.symbols target ++ places.now)) }
{
    let mut line = word.to_vec(runtime.alloc())?;
    line.extend_from_slice(runtime.name_text(target))?;
    line.extend_from_slice(places)?;
    Ok(line)
}
