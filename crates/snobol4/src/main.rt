//! The program `snobol4`: the words of the command line, the devices, and the status.
#![tactic(auto)]

ghost use Rattle.snobol.specs.Jobs.{IsInRange};

mod standard;

use snobol::{Device, Job, command, perform, status_of};
use standard::{Asking, Output, Writing};
use std::alloc::{AllocError, Global};
use std::cell::RefCell;
use std::env;
use std::fs::File;
use std::io::{self, ErrorKind, Read, Write};
use std::process::ExitCode;

/// The most bytes that are read of a file: one more than a program may have.
const MOST_READ: u64 = 4_000_001;

/// How long a line on standard error may be, but for the name of a file.
const LONGEST_LINE: usize = 64;

/// The status of a usage fault.
const USAGE: u8 = 64;

/// The status where memory is refused.
const NO_MEMORY: u8 = 6;

/// The status of a device's fault.
const FAULT: u8 = 7;

fn main(rt: HostRuntime) -> ExitCode {
    let status = match env::args(&rt) {
        Ok(args) => match args.collect::<Vec<String>>(rt.alloc()) {
            Ok(words) => obey(&rt, &words),
            Err(_) => no_memory(&rt),
        },
        Err(error) if error.kind() == ErrorKind::OutOfMemory => no_memory(&rt),
        Err(_) => {
            let _ = eprintln!(rt; "error: a word of the command line is not UTF-8");
            USAGE
        }
    };
    ExitCode::from(status)
}

/// The words of the command line as they are read: the program's name, however it was called, and those behind it.
fn words_of<'a>(alloc: Global, args: &'a [String]) -> Result<Vec<&'a str>, AllocError> {
    let mut words = Vec::with_capacity(alloc, args.len())?;
    words.push("snobol4")?;
    for arg in args.iter().skip(1) {
        words.push(arg.as_str())?;
    }
    Ok(words)
}

/// Does what the words ask for.
fn obey(rt: &HostRuntime, args: &[String]) -> u8 {
    let alloc = rt.alloc();
    let Ok(words) = words_of(alloc, args) else {
        return no_memory(rt);
    };
    match command(alloc, &words) {
        Ok(job) => work(rt, &job),
        Err(error) => {
            let status = status_of(&error);
            if status == NO_MEMORY {
                return no_memory(rt);
            }
            if error.print(rt).is_err() && status == 0 {
                return write_fault(rt);
            }
            status
        }
    }
}

/// Reads the file that a job names, if it names one, and does the job.
fn work(rt: &HostRuntime, job: &Job) -> u8
    requires { IsInRange job.now }
{
    match job {
        Job::Run { file, .. } | Job::Check { file } => match read(rt, file) {
            Ok(text) => finish(rt, job, Some(text.as_slice()), file.len()),
            Err(error) if error.kind() == ErrorKind::OutOfMemory => no_memory(rt),
            Err(_) => finish(rt, job, None, file.len()),
        },
        Job::Ways { .. } => finish(rt, job, None, 0),
    }
}

/// What a file holds, as far as it tells whether a program is too large: a device may have no end.
fn read(rt: &HostRuntime, file: &str) -> io::Result<Vec<u8>> {
    let mut text = Vec::new(rt.alloc());
    File::open(rt, file)?
        .take(MOST_READ)
        .read_to_end(&mut text)?;
    Ok(text)
}

/// Does a job on the standard devices, and writes out what the buffer holds before a fault is told; where it can't be
/// written, it is let go, so that nothing stands behind the fault. `name` is how long the name of the job's file is:
/// room for the longest line that may be told is made first.
fn finish(rt: &HostRuntime, job: &Job, file: Option<&[u8]>, name: usize) -> u8
    requires { IsInRange job.now }
{
    let alloc = rt.alloc();
    let Ok(line) = Vec::with_capacity(alloc, name.saturating_add(LONGEST_LINE)) else {
        return no_memory(rt);
    };
    let Ok(output) = Output::new(rt) else {
        return no_memory(rt);
    };
    let output = RefCell::new(output);
    let mut reader = Device::new(Asking {
        input: rt.stdin(),
        output: &output,
    });
    let mut writer = Device::new(Writing { output: &output });
    let mut errors = Device::new(line);
    let status = perform(alloc, job, file, &mut reader, &mut writer, &mut errors);
    if writer.flush().is_err() {
        output.into_inner().let_go();
        return write_fault(rt);
    }
    let _ = rt.stderr().write_all(errors.into_inner().as_slice());
    status
}

fn no_memory(rt: &HostRuntime) -> u8 {
    let _ = eprintln!(rt; "snobol4: no memory");
    NO_MEMORY
}

fn write_fault(rt: &HostRuntime) -> u8 {
    let _ = eprintln!(rt; "snobol4: write fault");
    FAULT
}
