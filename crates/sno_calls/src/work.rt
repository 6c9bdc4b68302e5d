//! The jobs of the interpreter, over texts in memory.
ghost use Rattle.std.specs.Prelude.{◌≡◌, false, true};
ghost use Rattle.snobol.specs.Jobs.{IsInRange};
ghost use Rattle.sno_calls.specs.Calls.{Holds, IsDoneIn};

use crate::Told;
use crate::input::Lent;
use crate::room::Held;
use snobol::{Job, Sink, perform};
use std::alloc::Global;

/// The status where memory is refused.
const NO_MEMORY: u32 = 6;

/// The status of a call outside what it may be given: a limit out of its range, or a text that is not UTF-8.
const USAGE: u32 = 64;

/// How long a line may be that tells what went wrong.
pub(crate) const LONGEST_LINE: usize = 64;

/// Does a job over texts in memory.
pub fn obey(
    alloc: Global,
    job: &Job<'_>,
    file: &[u8],
    input: &[u8],
    out: &mut [u8],
    line: &mut [u8],
    told: &mut Told,
)
    requires { IsInRange job.now }
    ensures { IsDoneIn job.now file.entry input.now out.old out.new line.old line.new told.new }
{
    let mut reader = Lent::new(input);
    let mut writer = Held::new(alloc, out.len());
    let mut errors = Held::endless(alloc, LONGEST_LINE);
    let status = perform(
        alloc,
        job,
        Some(file),
        &mut reader,
        &mut writer,
        &mut errors,
    );
    tell(&errors, status, line, told);
    told.written = writer.hand_over(out);
}

/// Tells a status and the line that was written, or that there was no memory to hold it.
pub(crate) fn tell(errors: &Held, status: u8, line: &mut [u8], told: &mut Told)
    ensures told { errors.now.failed ≡ false
        → (told.new.status ≡ status) × Holds line.old line.new told.new.told errors.now.bytes.items }
    ensures untold { errors.now.failed ≡ true
        → (told.new.status ≡ 6) × (told.new.told ≡ 0) × (line.new ≡ line.old) }
    ensures written { told.new.written ≡ told.old.written }
{
    if errors.failed() {
        told.status = NO_MEMORY;
        told.told = 0;
    } else {
        told.status = u32::from(status);
        told.told = errors.hand_over(line);
    }
}

/// Answers a call that is outside what it may be given.
pub fn refuse(told: &mut Told)
    ensures { told.new ≡ record { status = 64; written = 0; told = 0 } }
{
    told.status = USAGE;
    told.written = 0;
    told.told = 0;
}
