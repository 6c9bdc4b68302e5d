//! The interpreter: programs that run, the listing of the ways in which a pattern matches, and a machine that does
//! either for its caller.
//!
//! `job` does what the command line asks for, and `endings` tells how it ended. `execution` goes through the
//! statements of a run, each of which `sno_statement` performs. `calls` performs the statements of a function that the
//! program defines, and `scope` is what statements are performed in: the program itself, or a call. `enumeration` is
//! the listing of a pattern, and `listing` its loop over events; `enumerator` is a listing that stays, whose next line
//! `telling` tells; `machine` evaluates and matches, call after call. `laws` has what is true of every program's
//! meaning.
#![tactic(auto)]

mod calls;
mod endings;
mod enumeration;
mod enumerator;
mod execution;
mod job;
mod laws;
mod listing;
mod machine;
mod no_input;
mod scope;
mod telling;

pub use endings::tell_ways;
pub use enumeration::{WaysOutcome, ways};
pub use enumerator::Ways;
pub use execution::{Outcome, run};
pub use job::perform;
pub use laws::{chains_end, sessions_end};
pub use machine::Machine;
pub use sno_io::{Device, DeviceFault, Job, Limits, Sink, Source, command, put, status_of};
pub use sno_text::ReadError;

/// Why a machine has stopped: how a run ends, `Ended` where a function that was called went to END.
pub type Stop = Outcome;
