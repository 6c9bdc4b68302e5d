//! The interpreter as functions for C and for WebAssembly, whose callers have numbers and memory.
//!
//! A caller lends the bytes of the texts, and two rooms: for what is written, and for the line that tells what went wrong. What
//! doesn't fit ends the call as a writer that fails does. Nothing is kept from call to call but by a matcher, whose owner is the
//! caller.
#![tactic(auto)]

ghost use Rattle.std.specs.Borrow.{Bor};
ghost use Rattle.std.specs.Prelude.{◌≡◌, ◌≤◌, ◌<◌, [], List, ℕ, true, false, None};
ghost use Rattle.std.specs.Str.{IsUtf8};
ghost use Rattle.sno_io.specs.declared.jobs.Job.TheVariants as job;
ghost use Rattle.sno_calls.specs.Calls.{IsDoneIn, IsListedIn, IsRefusedIn};
ghost use Rattle.sno_calls.specs.Searches.{GivesIn, IsBegunIn, IsNotBegunIn, IsNothingIn};

#[cfg(test)]
mod tests;

use sno_calls::{Matcher, Told, begin, obey, refuse, tell_listing};
use snobol::{Job, Limits};
use std::alloc::Global;

/// The most statements of a run.
const MOST_STATEMENTS: u64 = 1_000_000_000_000;

/// The most steps of a match.
const MOST_STEPS: u32 = 1_000_000_000;

/// The greatest number of a statement.
const MOST_NUMBER: u32 = 100_000;

/// Begins a listing that stays, of what `snobol4_ways` lists. Status 0 where there is one, which `snobol4_matcher_next` tells
/// and `snobol4_matcher_free` lets go; else the matcher holds none. What it held before is let go.
#[unsafe(no_mangle)]
pub extern "C" fn snobol4_matcher_new(
    alloc: Global,
    pattern: &[u8],
    subject: &[u8],
    anchored: bool,
    steps: u32,
    matcher: &mut Matcher,
    line: &mut [u8],
    told: &mut Told,
)
    ensures done { steps ≤ 1_000_000_000 → IsUtf8 pattern.now → IsUtf8 subject.now
        → IsBegunIn pattern.now subject.now anchored steps matcher.new.held matcher.new.handle.value line.old line.new told.new }
    ensures steps { 1_000_000_000 < steps → IsNotBegunIn line.old line.new matcher.new.held told.new }
    ensures pattern { ¬ (IsUtf8 pattern.now) → IsNotBegunIn line.old line.new matcher.new.held told.new }
    ensures subject { ¬ (IsUtf8 subject.now) → IsNotBegunIn line.old line.new matcher.new.held told.new }
{
    let _before = matcher.take(alloc);
    if steps > MOST_STEPS {
        return refuse(told);
    }
    let (Ok(_), Ok(_)) = (str::from_utf8(pattern), str::from_utf8(subject)) else {
        return refuse(told);
    };
    if let Some(search) = begin(alloc, pattern, subject, anchored, steps, line, told) {
        matcher.put(search);
    }
}

/// Gives the next line of a listing with what its event writes, all of it or nothing: at status 7 it finds no room and is given
/// by the next call. Nothing is written behind the listing's end, which each call then tells.
#[unsafe(no_mangle)]
pub extern "C" fn snobol4_matcher_next(
    alloc: Global,
    matcher: &mut Matcher,
    out: &mut [u8],
    line: &mut [u8],
    told: &mut Told,
)
    ensures gives { matcher.old.held ≡ true → GivesIn matcher.old.handle.value matcher.new.handle.value matcher.new.held
        out.old out.new line.old line.new told.new }
    ensures none { matcher.old.held ≡ false → IsNothingIn out.old out.new line.old line.new told.new }
    ensures held { matcher.new.held ≡ matcher.old.held }
{
    let Some(mut search) = matcher.take(alloc) else {
        return refuse(told);
    };
    search.give(alloc, out, line, told);
    matcher.put(search);
}

/// Lets a listing go, at its end or before, and gives its memory back. Where none is held nothing is done.
#[unsafe(no_mangle)]
pub extern "C" fn snobol4_matcher_free(alloc: Global, matcher: &mut Matcher)
    ensures held { matcher.new.held ≡ false }
    ensures value { matcher.new.handle.value ≡ None }
{
    let _search = matcher.take(alloc);
}

/// Lists the ways in which a pattern matches a subject, as the command `ways`: at most 1,000,000,000 steps, and both texts
/// in UTF-8.
#[unsafe(no_mangle)]
pub extern "C" fn snobol4_ways(
    alloc: Global,
    pattern: &[u8],
    subject: &[u8],
    anchored: bool,
    steps: u32,
    out: &mut [u8],
    line: &mut [u8],
    told: &mut Told,
)
    ensures done { steps ≤ 1_000_000_000 → IsUtf8 pattern.now → IsUtf8 subject.now
        → (p : Bor (List ℕ)) × (s : Bor (List ℕ)) × (file : Bor (List ℕ)) × (p.now ≡ pattern.now) × (s.now ≡ subject.now)
        × IsDoneIn (job.Ways anchored steps p s) file [] out.old out.new line.old line.new told.new }
    ensures steps { 1_000_000_000 < steps → IsRefusedIn out.old out.new line.old line.new told.new }
    ensures pattern { ¬ (IsUtf8 pattern.now) → IsRefusedIn out.old out.new line.old line.new told.new }
    ensures subject { ¬ (IsUtf8 subject.now) → IsRefusedIn out.old out.new line.old line.new told.new }
{
    if steps > MOST_STEPS {
        return refuse(told);
    }
    let (Ok(pattern), Ok(subject)) = (str::from_utf8(pattern), str::from_utf8(subject)) else {
        return refuse(told);
    };
    let job = Job::Ways {
        anchored,
        steps,
        pattern,
        subject,
    };
    obey(alloc, &job, b"", b"", out, line, told);
}

/// Runs a program on an input, as the command `run`: 1 to 1,000,000,000,000 statements, and at most 1,000,000,000 steps of a
/// match.
#[unsafe(no_mangle)]
pub extern "C" fn snobol4_run(
    alloc: Global,
    program: &[u8],
    input: &[u8],
    statements: u64,
    match_steps: u32,
    out: &mut [u8],
    line: &mut [u8],
    told: &mut Told,
)
    ensures done { 1 ≤ statements → statements ≤ 1_000_000_000_000 → match_steps ≤ 1_000_000_000 → (name : Bor (List ℕ))
        × IsDoneIn (job.Run name (record { statements = statements; match_steps = match_steps })) program.entry input.now
        out.old out.new line.old line.new told.new }
    ensures none { statements ≡ 0 → IsRefusedIn out.old out.new line.old line.new told.new }
    ensures statements { 1_000_000_000_000 < statements → IsRefusedIn out.old out.new line.old line.new told.new }
    ensures steps { 1_000_000_000 < match_steps → IsRefusedIn out.old out.new line.old line.new told.new }
{
    if statements == 0 || statements > MOST_STATEMENTS || match_steps > MOST_STEPS {
        return refuse(told);
    }
    let limits = Limits {
        statements,
        match_steps,
    };
    let job = Job::Run { file: "", limits };
    obey(alloc, &job, program, input, out, line, told);
}

/// Reads a program, and tells the first thing that is wrong with it, as the command `check`.
#[unsafe(no_mangle)]
pub extern "C" fn snobol4_check(alloc: Global, program: &[u8], line: &mut [u8], told: &mut Told)
    ensures { (name : Bor (List ℕ)) × IsDoneIn (job.Check name) program.entry [] [] [] line.old line.new told.new }
{
    let job = Job::Check { file: "" };
    let mut out: [u8; 0] = [];
    obey(alloc, &job, program, b"", &mut out, line, told);
}

/// Lists a program with the numbers of its statements and with warnings, or its statement with this number where that
/// isn't 0, as the program `snobol4-list`: a number of at most 100,000.
#[unsafe(no_mangle)]
pub extern "C" fn snobol4_list(
    alloc: Global,
    program: &[u8],
    number: u32,
    out: &mut [u8],
    line: &mut [u8],
    told: &mut Told,
)
    ensures done { number ≤ 100_000 → IsListedIn program.now number out.old out.new line.old line.new told.new }
    ensures refused { 100_000 < number → IsRefusedIn out.old out.new line.old line.new told.new }
{
    if number > MOST_NUMBER {
        return refuse(told);
    }
    tell_listing(alloc, program, number, out, line, told);
}
