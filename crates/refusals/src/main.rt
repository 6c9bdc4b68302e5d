//! The program `refusals`: calls of the library, of which one growth may be refused, whichever it is.
//! `tests/refused-calls` runs it with each growth of the process refused in turn.
//!
//! It does the row that each of its words names, or all rows, and writes `ok` where all that it compared was as it must
//! be. A row makes calls, and where one answers that memory was refused, it sees that nothing has changed and makes the
//! call again, which has to succeed: no more than one growth is refused. Where a growth of the row's own is refused, in
//! making arguments or in comparing, the row is done again.
#![tactic(auto)]

mod asking;
mod building;
mod lines;
mod listing;
mod matching;
mod reading;
mod running;
mod storing;
mod twins;
mod values;
mod words;

use sno_match::{CopiedGoals, SharedGoals};
use std::alloc::{AllocError, Global};
use std::env;
use std::io::Write;
use std::process::ExitCode;

/// The rows, each of which is a kind of calls.
const ROWS: [&str; 12] = [
    "values",
    "reading",
    "building",
    "new-store",
    "storing",
    "matching",
    "copied-matching",
    "lines",
    "words",
    "running",
    "listing",
    "asking",
];

fn main(rt: HostRuntime) -> ExitCode {
    let all_hold = match obey(&rt) {
        Ok(all_hold) => all_hold,
        // A growth of the words was refused.
        Err(_) => obey(&rt) == Ok(true),
    };
    if all_hold && rt.stdout().write_all(b"ok\n").is_ok() {
        ExitCode::from(0)
    } else {
        ExitCode::from(1)
    }
}

/// Does the rows that the words name, or all of them, and answers whether all that was compared was as it must be.
fn obey(rt: &HostRuntime) -> Result<bool, AllocError> {
    let Ok(args) = env::args(rt) else {
        return Err(AllocError);
    };
    let words = args.collect::<Vec<String>>(rt.alloc())?;
    let mut all_hold = true;
    if words.len() < 2 {
        for row in ROWS {
            all_hold &= holds(rt, row);
        }
    } else {
        for word in &words[1..] {
            all_hold &= holds(rt, word.as_str());
        }
    }
    Ok(all_hold)
}

/// Whether a row is as it must be, which is done again where a growth of its own was refused.
fn holds(rt: &HostRuntime, row: &str) -> bool {
    let alloc = rt.alloc();
    let holds = match done(alloc, row) {
        Ok(holds) => holds,
        Err(_) => done(alloc, row) == Ok(true),
    };
    if !holds {
        let _ = rt.stderr().write_all(b"not as it must be: ");
        let _ = rt.stderr().write_all(row.as_bytes());
        let _ = rt.stderr().write_all(b"\n");
    }
    holds
}

/// Does a row. An `Err` is a growth of its own that was refused.
fn done(alloc: Global, row: &str) -> Result<bool, AllocError> {
    match row {
        "values" => values::hold(alloc),
        "reading" => Ok(reading::holds(alloc)),
        "building" => building::holds(alloc),
        "new-store" => storing::new_holds(alloc),
        "storing" => storing::holds(alloc),
        "matching" => matching::holds::<SharedGoals>(alloc),
        "copied-matching" => matching::holds::<CopiedGoals>(alloc),
        "lines" => lines::hold(alloc),
        "words" => words::hold(alloc),
        "running" => running::holds(alloc),
        "listing" => listing::holds(alloc),
        "asking" => asking::holds(alloc),
        _ => Ok(false),
    }
}
