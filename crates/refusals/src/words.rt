//! The words of the command line.
use sno_io::{Job, Limits, command, status_of};
use std::alloc::{AllocError, Global};

/// The status where memory is refused.
const NO_MEMORY: u8 = 6;

const LIMITS: Limits = Limits {
    statements: 7,
    match_steps: 9,
};

const RUN: Job<'static> = Job::Run {
    file: "f.sno",
    limits: LIMITS,
};

const CHECK: Job<'static> = Job::Check { file: "f.sno" };

const WAYS: Job<'static> = Job::Ways {
    anchored: true,
    steps: 5,
    pattern: "LEN(1)",
    subject: "A",
};

/// Whether the words of each job, for help and of a fault of usage are understood.
pub(crate) fn hold(alloc: Global) -> Result<bool, AllocError> {
    let run = [
        "snobol4",
        "run",
        "--statements=7",
        "--match-steps",
        "9",
        "f.sno",
    ];
    let ways = ["snobol4", "ways", "--anchor", "--steps=5", "LEN(1)", "A"];
    Ok(
        mean(alloc, &run, Ok(RUN))?
            && mean(alloc, &["snobol4", "check", "f.sno"], Ok(CHECK))?
            && mean(alloc, &ways, Ok(WAYS))?
            && mean(alloc, &["snobol4", "--help"], Err(0))?
            && mean(alloc, &["snobol4", "run", "--steps=1"], Err(64))?,
    )
}

/// Whether words mean a job, or end with a status.
fn mean(alloc: Global, words: &[&str], wanted: Result<Job<'_>, u8>) -> Result<bool, AllocError> {
    let mut meant = meaning(alloc, words)?;
    if meant == Err(NO_MEMORY) {
        meant = meaning(alloc, words)?;
    }
    Ok(meant == wanted)
}

/// The job that words mean, or the status with which they end. Want of memory has no text of a fault of usage.
fn meaning<'a>(alloc: Global, words: &'a [&'a str]) -> Result<Result<Job<'a>, u8>, AllocError> {
    match command(alloc, words) {
        Ok(job) => Ok(Ok(job)),
        Err(error) => {
            let status = status_of(&error);
            let text = error.to_string(alloc)?;
            let is_refused = text.as_str() == "error: out of memory\n";
            if is_refused == (status == NO_MEMORY) {
                Ok(Err(status))
            } else {
                Ok(Err(u8::MAX))
            }
        }
    }
}
