//! What the program does for a job.
ghost use Rattle.std.specs.Prelude.{◌≡◌, ℕ, List, false};
ghost use Rattle.std.specs.Io.KnownBytes.{Consumes, Appends};
ghost use Rattle.snobol.specs.Running.{IsLimits};
ghost use Rattle.snobol.specs.Jobs.{IsChecked, IsDone, IsInRange, IsRunFile, Report, Tells};

use crate::endings::Ending;
use crate::enumeration::ways;
use crate::execution::run;
use sno_io::{Job, Limits, Sink, Source};
use sno_text::read_program;
use std::alloc::Global;

/// Does what a job asks. `file` is what its FILE holds, None where that can't be read and for a job without one. A
/// program reads its input from `reader`. What the job writes or lists goes to `writer` and, where something went
/// wrong, one line that says what to `errors`, for which no memory is taken. It answers the program's status: 0 ended,
/// listed or accepted, 1 an error, 2 the program or pattern is refused, 3 FILE can't be read, 4 and 5 errors 20 and 21,
/// 6 memory refused, 7 the reader or the writer failed. Each but 0 has its line. That `errors` fails cuts the line off
/// and changes nothing else. The caller owes devices that have not failed, and limits in their ranges.
pub fn perform<R: Source, W: Sink, E: Sink>(
    alloc: Global,
    job: &Job<'_>,
    file: Option<&[u8]>,
    reader: &mut R,
    writer: &mut W,
    errors: &mut E,
) -> u8
    requires reader { (R.feed reader.old).broken ≡ false }
    requires writer { (W.drain writer.old).broken ≡ false }
    requires errors { (E.drain errors.old).broken ≡ false }
    requires limits { IsInRange job.now }
    ensures { (report : Report) × (given : List ℕ) × (wrote : List ℕ)
        × Consumes (R.feed reader.old).left (R.feed reader.new).left given
        × Appends (W.drain writer.old).taken (W.drain writer.new).taken wrote
        × IsDone job.now file.entry report given (R.feed reader.new).at_end wrote
        × (result ≡ report.status) × Tells (E.drain errors.old).taken (E.drain errors.new).taken
        (E.drain errors.new).broken report.line }
{
    let ending = end_of(alloc, job, file, reader, writer);
    ending.tell(errors)
}

/// Does what a job asks, and answers how it ended.
fn end_of<'a, R: Source, W: Sink>(
    alloc: Global,
    job: &Job<'a>,
    file: Option<&[u8]>,
    reader: &mut R,
    writer: &mut W,
) -> Ending<'a>
    requires reader { (R.feed reader.old).broken ≡ false }
    requires writer { (W.drain writer.old).broken ≡ false }
    requires limits { IsInRange job.now }
    ensures { (given : List ℕ) × (wrote : List ℕ) × Consumes (R.feed reader.old).left (R.feed reader.new).left given
        × Appends (W.drain writer.old).taken (W.drain writer.new).taken wrote
        × IsDone job.now file.entry result given (R.feed reader.new).at_end wrote }
{
    match job {
        Job::Run { file: name, limits } => match file {
            Some(text) => run_file(alloc, text, *limits, reader, writer),
            None => Ending::unread(name),
        },
        Job::Ways {
            anchored,
            steps,
            pattern,
            subject,
        } => {
            let (pattern, subject) = (pattern.as_bytes(), subject.as_bytes());
            let outcome = ways(alloc, pattern, subject, *anchored, *steps, writer);
            Ending::listed(&outcome)
        }
        Job::Check { file: name } => match file {
            Some(text) => check(alloc, text),
            None => Ending::unread(name),
        },
    }
}

/// Reads a program and runs it, or answers why it is refused.
fn run_file<'a, R: Source, W: Sink>(
    alloc: Global,
    text: &[u8],
    limits: Limits,
    reader: &mut R,
    writer: &mut W,
) -> Ending<'a>
    requires reader { (R.feed reader.old).broken ≡ false }
    requires writer { (W.drain writer.old).broken ≡ false }
    requires limits { IsLimits limits }
    ensures { (given : List ℕ) × (wrote : List ℕ) × Consumes (R.feed reader.old).left (R.feed reader.new).left given
        × Appends (W.drain writer.old).taken (W.drain writer.new).taken wrote
        × IsRunFile text.now limits result given (R.feed reader.new).at_end wrote }
{
    match read_program(alloc, text) {
        Ok(program) => {
            let outcome = run(alloc, &program, reader, writer, limits);
            Ending::ran(&outcome)
        }
        Err(error) => Ending::refused(error),
    }
}

/// Reads a program, and answers why it is refused where it is.
fn check<'a>(alloc: Global, text: &[u8]) -> Ending<'a>
    ensures { IsChecked text.now result }
{
    match read_program(alloc, text) {
        Ok(_program) => Ending::well(),
        Err(error) => Ending::refused(error),
    }
}
