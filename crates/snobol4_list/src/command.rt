//! The words of the command line, which `clap` reads.
use crate::help;
use clap::builder::ValueParser;
use clap::error::ErrorKind;
use clap::{Arg, ArgAction, Command, Error};
use std::alloc::{AllocError, Global};

/// What the words ask for.
#[derive(Clone, Copy)]
pub struct Job<'a> {
    /// The file that holds the program; none where an error is told without one.
    pub file: Option<&'a str>,
    /// The number of the statement that is listed alone.
    pub statement: Option<u32>,
    /// The number of the error that is told.
    pub error: Option<u32>,
}

/// The job that the words ask for; the first word is the program's name. An `Err` is a call for help, a fault of usage
/// or want of memory.
pub fn command<'a>(alloc: Global, words: &'a [&'a str]) -> Result<Job<'a>, Error> {
    let mut root = program(alloc)?;
    let matches = root.try_get_matches_from_mut(words)?;
    let statement = matches.get_one::<u32>("statement");
    let error = matches.get_one::<u32>("error");
    let file = matches.get_str("FILE");
    if file.is_none() && (error.is_none() || statement.is_some()) {
        return Err(root.error(ErrorKind::MissingRequiredArgument, "FILE is wanted")?);
    }
    Ok(Job {
        file,
        statement,
        error,
    })
}

/// The program with its words.
fn program<'a>(alloc: Global) -> Result<Command<'a>, AllocError> {
    let statement = Arg::new(alloc, "statement")
        .long("statement")
        .value_name("N")
        .action(ArgAction::Set)
        .value_parser(ValueParser::unsigned(1, 100_000))
        .help(help::STATEMENT);
    let error = Arg::new(alloc, "error")
        .long("error")
        .value_name("K")
        .action(ArgAction::Set)
        .value_parser(ValueParser::unsigned(1, 21))
        .help(help::ERROR);
    let file = Arg::new(alloc, "FILE")
        .action(ArgAction::Set)
        .help(help::FILE);
    let command = Command::new(alloc, "snobol4-list")
        .about(help::ABOUT)
        .long_about(help::LONG_ABOUT)
        .after_help(help::AFTER)
        .version(help::VERSION)
        .arg_required_else_help(true)
        .arg(statement)?
        .arg(error)?
        .arg(file)?;
    Ok(command)
}

/// The status with which the program ends where the words give no job: 0 for help, 6 for want of memory, and 64 for a
/// fault of usage.
pub fn status_of(error: &Error) -> u8 {
    match error.kind() {
        ErrorKind::DisplayHelp | ErrorKind::DisplayVersion => 0,
        ErrorKind::OutOfMemory => 6,
        _ => 64,
    }
}
