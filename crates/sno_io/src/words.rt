//! The words of the command line, which `clap` reads.
ghost use Rattle.std.specs.Prelude.{◌≡◌, ◌≤◌, ℕ, Bool, codes, false, map, IfErr, IfNone, IfOk, IfSome, List};
ghost use Rattle.clap.specs.Words.{app_of, found_of, kind_of, rows_of, rule_of, subcommand_rows_of};
ghost use Rattle.clap.specs.declared.builder.value_parser.ValueParser.TheVariants as parsers;
ghost use Rattle.sno_io.specs.declared.jobs.Job.{Job};
ghost use Rattle.sno_io.specs.declared.jobs.Limits.{Limits};
ghost use Rattle.sno_io.specs.Commands.{check_app, flag_rule, number_rule, run_app, snobol4, status, ways_app};
ghost use Rattle.sno_io.specs.Commands.{word_rule, HoldsJob, IsCheck, IsJob, IsJobOf, IsNumber, IsRefusalOf, IsRun};
ghost use Rattle.sno_io.specs.Commands.{IsWays};
ghost use Rattle.sno_io.specs.inner.Commands.{Makes};

use crate::help;
use crate::jobs::{Job, Limits};
use clap::builder::ValueParser;
use clap::error::ErrorKind;
use clap::{Arg, ArgAction, ArgMatches, Command, Error};
use std::alloc::{AllocError, Global};

/// The most statements of a run that the words may ask for.
const MOST_STATEMENTS: u64 = 1_000_000_000_000;

/// The statements of a run, where the words say nothing.
const DEFAULT_STATEMENTS: u64 = 1_000_000;

/// The most steps of a match that the words may ask for.
const MOST_STEPS: u64 = 1_000_000_000;

/// The steps of a match, where the words say nothing.
const DEFAULT_STEPS: u64 = 1_000_000;

const STATEMENTS_HELP: &str =
    "The most statements of the run: 1 to 1000000000000 [default: 1000000]";

const MATCH_STEPS_HELP: &str = "The most steps of each match: 0 to 1000000000 [default: 1000000]";

const STEPS_HELP: &str = "The most steps of the match: 0 to 1000000000 [default: 1000000]";

/// The job that the words ask for; the first word is the program's name. An `Err` is a call for help, a fault of usage
/// or want of memory: `status_of` tells which, and its text is for the user.
pub fn command<'a>(alloc: Global, words: &'a [&'a str]) -> Result<Job<'a>, Error>
    ensures job { IfOk result (IsJobOf (map (λ w. w.now) words.entry.now)) }
    ensures refused { IfErr result (IsRefusalOf (map (λ w. w.now) words.entry.now)) }
{
    let mut root = program(alloc)?;
    let matches = root.try_get_matches_from_mut(words)?;
    match job_of(&matches) {
        Some(job) => Ok(job),
        // The parse has refused such words before, but its contract does not say so of a command's own words.
        None => Err(root.error(ErrorKind::MissingSubcommand, "a command is wanted")?),
    }
}

/// The status with which the program ends where the words give no job: 0 for help, 6 for want of memory, and 64 for a
/// fault of usage.
pub fn status_of(error: &Error) -> u8
    ensures { result ≡ status (kind_of error.now) }
{
    match error.kind() {
        ErrorKind::DisplayHelp | ErrorKind::DisplayVersion => 0,
        ErrorKind::OutOfMemory => 6,
        _ => 64,
    }
}

/// The program with its commands.
fn program<'a>(alloc: Global) -> Result<Command<'a>, AllocError>
    ensures { IfOk result (λ c. app_of c ≡ snobol4) }
{
    let run = run_command(alloc)?;
    let check = check_command(alloc)?;
    let ways = ways_command(alloc)?;
    let root = Command::new(alloc, "snobol4")
        .about(help::PROGRAM)
        .long_about(help::PROGRAM_LONG)
        .after_help(help::PROGRAM_AFTER)
        .override_usage(help::PROGRAM_USAGE)
        .version(help::VERSION)
        .subcommand_required(true)
        .arg_required_else_help(true)
        .subcommand(run)?
        .subcommand(check)?
        .subcommand(ways)?;
    Ok(root)
}

/// The command `run`.
fn run_command<'a>(alloc: Global) -> Result<Command<'a>, AllocError>
    ensures { IfOk result (λ c. Makes c run_app) }
{
    let run = Command::new(alloc, "run")
        .about(help::RUN)
        .long_about(help::RUN_LONG)
        .after_help(help::RUN_AFTER)
        .arg(number(alloc, "statements", STATEMENTS_HELP, 1, MOST_STATEMENTS))?
        .arg(number(alloc, "match-steps", MATCH_STEPS_HELP, 0, MOST_STEPS))?
        .arg(word(alloc, "FILE", "The file that holds the program"))?;
    Ok(run)
}

/// The command `check`.
fn check_command<'a>(alloc: Global) -> Result<Command<'a>, AllocError>
    ensures { IfOk result (λ c. Makes c check_app) }
{
    let check = Command::new(alloc, "check")
        .about(help::CHECK)
        .long_about(help::CHECK_LONG)
        .after_help(help::CHECK_AFTER)
        .arg(word(alloc, "FILE", "The file that holds the program"))?;
    Ok(check)
}

/// The command `ways`.
fn ways_command<'a>(alloc: Global) -> Result<Command<'a>, AllocError>
    ensures { IfOk result (λ c. Makes c ways_app) }
{
    let ways = Command::new(alloc, "ways")
        .about(help::WAYS)
        .long_about(help::WAYS_LONG)
        .after_help(help::WAYS_AFTER)
        .arg(flag(alloc, "anchor", "Start at the subject's first byte alone"))?
        .arg(number(alloc, "steps", STEPS_HELP, 0, MOST_STEPS))?
        .arg(word(alloc, "PATTERN", "A pattern, written as in a program"))?
        .arg(word(alloc, "SUBJECT", "The text in which it is matched"))?;
    Ok(ways)
}

/// A word that has to be there.
fn word<'a>(alloc: Global, id: &'a str, help: &'a str) -> Arg<'a>
    ensures rule { rule_of result ≡ word_rule id.entry.now }
    ensures local { result.global ≡ false }
{
    Arg::new(alloc, id)
        .required(true)
        .action(ArgAction::Set)
        .help(help)
}

/// An option with a number in a range.
fn number<'a>(alloc: Global, id: &'a str, help: &'a str, least: u64, most: u64) -> Arg<'a>
    ensures rule { rule_of result ≡ number_rule id.entry.now (parsers.Unsigned least most) }
    ensures local { result.global ≡ false }
{
    Arg::new(alloc, id)
        .long(id)
        .value_name("N")
        .action(ArgAction::Set)
        .value_parser(ValueParser::unsigned(least, most))
        .help(help)
}

/// A flag.
fn flag<'a>(alloc: Global, id: &'a str, help: &'a str) -> Arg<'a>
    ensures rule { rule_of result ≡ flag_rule id.entry.now }
    ensures local { result.global ≡ false }
{
    Arg::new(alloc, id)
        .long(id)
        .action(ArgAction::SetTrue)
        .help(help)
}

/// The job of the matches, None where they hold none.
fn job_of<'a>(matches: &ArgMatches<'a>) -> Option<Job<'a>>
    ensures some { IfSome result (HoldsJob (subcommand_rows_of matches.now)) }
    ensures none { IfNone result ((job : Job) → HoldsJob (subcommand_rows_of matches.now) job → ⊥) }
{
    let (name, found) = matches.subcommand()?;
    match name {
        "run" => run_of(found),
        "check" => check_of(found),
        "ways" => ways_of(found),
        _ => None,
    }
}

/// The job of the matches of the command `run`, None where they hold none.
fn run_of<'a>(found: &ArgMatches<'a>) -> Option<Job<'a>>
    ensures some { IfSome result (IsJob (codes "run") (rows_of (found_of found.now))) }
    ensures none { IfNone result ((file : List ℕ) (limits : Limits)
        → IsRun (rows_of (found_of found.now)) file limits → ⊥) }
{
    let statements = number_of(found, "statements", 1, MOST_STATEMENTS, DEFAULT_STATEMENTS)?;
    let match_steps = steps_of(found, "match-steps")?;
    let name = found.get_str("FILE")?;
    Some(Job::Run {
        file: name,
        limits: Limits {
            statements,
            match_steps,
        },
    })
}

/// The job of the matches of the command `check`, None where they hold none.
fn check_of<'a>(found: &ArgMatches<'a>) -> Option<Job<'a>>
    ensures some { IfSome result (IsJob (codes "check") (rows_of (found_of found.now))) }
    ensures none { IfNone result ((file : List ℕ) → IsCheck (rows_of (found_of found.now)) file → ⊥) }
{
    let file = found.get_str("FILE")?;
    Some(Job::Check { file })
}

/// The job of the matches of the command `ways`, None where they hold none.
fn ways_of<'a>(found: &ArgMatches<'a>) -> Option<Job<'a>>
    ensures some { IfSome result (IsJob (codes "ways") (rows_of (found_of found.now))) }
    ensures none { IfNone result ((anchored : Bool) (steps : ℕ) (pattern subject : List ℕ)
        → IsWays (rows_of (found_of found.now)) anchored steps pattern subject → ⊥) }
{
    let steps = steps_of(found, "steps")?;
    let pattern = found.get_str("PATTERN")?;
    let subject = found.get_str("SUBJECT")?;
    Some(Job::Ways {
        anchored: found.get_flag("anchor"),
        steps,
        pattern,
        subject,
    })
}

/// The number of steps that an option asks for, None where it is no number or out of its range.
fn steps_of(found: &ArgMatches<'_>, id: &str) -> Option<u32>
    ensures some { IfSome result (IsNumber 0 1000000000 1000000 id.now (rows_of (found_of found.now))) }
    ensures none { IfNone result ((n : ℕ) → IsNumber 0 1000000000 1000000 id.now (rows_of (found_of found.now)) n → ⊥) }
{
    let steps = number_of(found, id, 0, MOST_STEPS, DEFAULT_STEPS)?;
    Some(steps as u32)
}

/// The number that an option asks for, or the default where the words don't have it; None where it is no number or out
/// of its range. The range is tested here too, since the clauses of a parse don't say that it was.
fn number_of(found: &ArgMatches<'_>, id: &str, least: u64, most: u64, default: u64) -> Option<u64>
    requires low { least ≤ default }
    requires high { default ≤ most }
    ensures some { IfSome result (IsNumber least most default id.now (rows_of (found_of found.now))) }
    ensures none { IfNone result ((n : ℕ) → IsNumber least most default id.now (rows_of (found_of found.now)) n → ⊥) }
{
    if found.get_str(id).is_none() {
        return Some(default);
    }
    let number = found.get_one::<u64>(id)?;
    if least <= number && number <= most {
        Some(number)
    } else {
        None
    }
}
