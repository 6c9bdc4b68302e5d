//! The devices of a run, the lines that are read from them and the bytes that are written to them, and the words of
//! the command line.
//!
//! `devices` says what a reader and a writer promise, `streams` makes them of those of the standard library, and
//! `lines` cuts what a reader gives, read ahead into a `buffer`, into lines. `words` reads the command line with
//! `clap` and tells which of the `jobs` it asks for; `help` is what the program says of itself.
#![tactic(auto)]

mod buffer;
mod devices;
mod help;
mod jobs;
mod lines;
mod streams;
mod words;

pub use devices::{DeviceFault, Sink, Source, put};
pub use jobs::{Job, Limits};
pub use lines::{LineError, Lines};
pub use streams::Device;
pub use words::{command, status_of};
