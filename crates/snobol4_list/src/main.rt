//! The program `snobol4-list`: lists a program with the numbers of its statements.
#![tactic(auto)]

mod command;
mod help;

use command::{Job, command, status_of};
use sno_advice::{explain, explanation};
use sno_listing::{Report, make_answer, make_report};
use std::alloc::{AllocError, Global};
use std::env;
use std::fs::File;
use std::io::{self, ErrorKind, Read, Write};
use std::process::ExitCode;

/// The most bytes that are read of a file: one more than a program may have.
const MOST_READ: u64 = 4_000_001;

/// The status where the file can't be read.
const UNREAD: u8 = 3;

/// The status where memory is refused.
const NO_MEMORY: u8 = 6;

/// The status where standard output fails.
const FAULT: u8 = 7;

/// The status of a usage fault.
const USAGE: u8 = 64;

fn main(rt: HostRuntime) -> ExitCode {
    let status = match env::args(&rt) {
        Ok(args) => match args.collect::<Vec<String>>(rt.alloc()) {
            Ok(words) => obey(&rt, &words),
            Err(_) => no_memory(&rt),
        },
        Err(error) if error.kind() == ErrorKind::OutOfMemory => no_memory(&rt),
        Err(_) => {
            let _ = eprintln!(rt; "error: a word of the command line is not UTF-8");
            USAGE
        }
    };
    ExitCode::from(status)
}

/// The words of the command line as they are read: the program's name, however it was called, and those behind it.
fn words_of<'a>(alloc: Global, args: &'a [String]) -> Result<Vec<&'a str>, AllocError> {
    let mut words = Vec::new(alloc);
    words.push("snobol4-list")?;
    for arg in args.iter().skip(1) {
        words.push(arg.as_str())?;
    }
    Ok(words)
}

/// Does what the words ask for.
fn obey(rt: &HostRuntime, args: &[String]) -> u8 {
    let alloc = rt.alloc();
    let Ok(words) = words_of(alloc, args) else {
        return no_memory(rt);
    };
    match command(alloc, &words) {
        Ok(job) => work(rt, job),
        Err(error) => {
            let status = status_of(&error);
            if status == NO_MEMORY {
                return no_memory(rt);
            }
            if error.print(rt).is_err() && status == 0 {
                return write_fault(rt);
            }
            status
        }
    }
}

/// Reads the file, if there is one, and lists it or tells what the error is.
fn work(rt: &HostRuntime, job: Job) -> u8 {
    if let Some(error) = job.error {
        if explanation(error).is_none() {
            return no_error(rt, error);
        }
    }
    let Some(file) = job.file else {
        return tell(rt, job);
    };
    let text = match read(rt, file) {
        Ok(text) => text,
        Err(error) if error.kind() == ErrorKind::OutOfMemory => return no_memory(rt),
        Err(_) => {
            let _ = eprintln!(rt; "snobol4-list: cannot read {file}");
            return UNREAD;
        }
    };
    let report = match job.error {
        Some(error) => make_answer(rt.alloc(), text.as_slice(), error, job.statement),
        None => make_report(rt.alloc(), text.as_slice(), job.statement),
    };
    match report {
        Ok(Some(report)) => write(rt, &report),
        Ok(None) => no_statement(rt, job.statement),
        Err(_) => no_memory(rt),
    }
}

/// Tells what an error is, without a program.
fn tell(rt: &HostRuntime, job: Job) -> u8 {
    let error = match job.error {
        Some(error) => error,
        None => 0,
    };
    match explain(rt.alloc(), error) {
        Ok(text) => write(rt, &Report { text, status: 0 }),
        Err(_) => no_memory(rt),
    }
}

/// What a file holds, as far as it tells whether a program is too large: a device may have no end.
fn read(rt: &HostRuntime, file: &str) -> io::Result<Vec<u8>> {
    let mut text = Vec::new(rt.alloc());
    File::open(rt, file)?
        .take(MOST_READ)
        .read_to_end(&mut text)?;
    Ok(text)
}

/// Writes a report to standard output.
fn write(rt: &HostRuntime, report: &Report) -> u8 {
    let mut output = rt.stdout();
    if output.write_all(report.text.as_slice()).is_err() || output.flush().is_err() {
        return write_fault(rt);
    }
    report.status
}

fn no_statement(rt: &HostRuntime, number: Option<u32>) -> u8 {
    let number = match number {
        Some(number) => number,
        None => 0,
    };
    let _ = eprintln!(rt; "snobol4-list: no statement {number}");
    USAGE
}

fn no_error(rt: &HostRuntime, number: u32) -> u8 {
    let _ = eprintln!(rt; "snobol4-list: no error {number}");
    USAGE
}

fn no_memory(rt: &HostRuntime) -> u8 {
    let _ = eprintln!(rt; "snobol4-list: no memory");
    NO_MEMORY
}

fn write_fault(rt: &HostRuntime) -> u8 {
    let _ = eprintln!(rt; "snobol4-list: write fault");
    FAULT
}
