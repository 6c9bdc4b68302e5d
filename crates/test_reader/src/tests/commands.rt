//! The words of the command line, and the texts of help.
use super::help_texts::{CHECK_HELP, HELP, NO_COMMAND, RUN_HELP, SHORT_CHECK_HELP, WAYS_HELP};
use super::rows::{Question, check_blocks, check_texts};
use sno_io::{Job, command, status_of};
use std::alloc::{AllocError, Global};
use std::test::Fail;

/// The job that words ask for, which stand with `|` between them; or the status where they are refused.
#[derive(Drop)]
struct Commands;

impl Question for Commands {
    fn answer(alloc: Global, text: &[u8]) -> Result<String, Fail> {
        let words = words_of(alloc, text)?;
        let answer = answer_to(alloc, &words)?;
        Ok(answer)
    }
}

fn answer_to(alloc: Global, words: &[&str]) -> Result<String, AllocError> {
    match command(alloc, words) {
        Ok(job) => job_text(alloc, &job),
        Err(error) => format!(in alloc; "status {}", status_of(&error)),
    }
}

fn words_of<'a>(alloc: Global, text: &'a [u8]) -> Result<Vec<&'a str>, Fail> {
    let mut words = Vec::new(alloc);
    for word in str::from_utf8(text)?.split("|") {
        words.push(word)?;
    }
    Ok(words)
}

fn job_text(alloc: Global, job: &Job<'_>) -> Result<String, AllocError> {
    match job {
        Job::Check { file } => format!(in alloc; "check [{file}]"),
        Job::Run { file, limits } => {
            let (statements, steps) = (limits.statements, limits.match_steps);
            format!(in alloc; "run [{file}] {statements} statements, {steps} steps")
        }
        Job::Ways {
            anchored,
            steps,
            pattern,
            subject,
        } => {
            let place = if *anchored { "anchored" } else { "anywhere" };
            format!(in alloc; "ways [{pattern}] [{subject}] {place}, {steps} steps")
        }
    }
}

/// Accepts check.
const CHECKS: &str = r"
snobol4|check|f.sno => check [f.sno]
other name|check|dir/f => check [dir/f]
snobol4|check|--|-f => check [-f]
snobol4|check|--|--help => check [--help]
snobol4|check|- => check [-]
snobol4|check| => check []
";

/// Accepts run.
const RUNS: &str = r"
snobol4|run|F => run [F] 1000000 statements, 1000000 steps
other name|run|dir/f => run [dir/f] 1000000 statements, 1000000 steps
snobol4|run|--|-f => run [-f] 1000000 statements, 1000000 steps
snobol4|run|--|--statements => run [--statements] 1000000 statements, 1000000 steps
snobol4|run|- => run [-] 1000000 statements, 1000000 steps
snobol4|run| => run [] 1000000 statements, 1000000 steps
snobol4|run|--statements|7|--match-steps|9|F => run [F] 7 statements, 9 steps
snobol4|run|--match-steps=9|F|--statements=7 => run [F] 7 statements, 9 steps
snobol4|run|--statements=1|F => run [F] 1 statements, 1000000 steps
snobol4|run|--statements=5|F => run [F] 5 statements, 1000000 steps
snobol4|run|--statements=+005|F => run [F] 5 statements, 1000000 steps
snobol4|run|--statements=4294967297|F => run [F] 4294967297 statements, 1000000 steps
snobol4|run|--statements=1000000000000|F => run [F] 1000000000000 statements, 1000000 steps
snobol4|run|--match-steps=0|F => run [F] 1000000 statements, 0 steps
snobol4|run|--match-steps=1|F => run [F] 1000000 statements, 1 steps
snobol4|run|--match-steps=1000000|F => run [F] 1000000 statements, 1000000 steps
snobol4|run|--match-steps=1000000000|F => run [F] 1000000 statements, 1000000000 steps
";

/// Accepts ways.
const WAYS: &str = r"
snobol4|ways|'A'|AB => ways ['A'] [AB] anywhere, 1000000 steps
snobol4|ways|--anchor|--steps|5|'A'|AB => ways ['A'] [AB] anchored, 5 steps
snobol4|ways|--anchor|--steps=5|'A'|AB => ways ['A'] [AB] anchored, 5 steps
snobol4|ways|'A'|AB|--steps|+5|--anchor => ways ['A'] [AB] anchored, 5 steps
snobol4|ways|'A'|--steps|005|--anchor|AB => ways ['A'] [AB] anchored, 5 steps
other name|ways|--|'A'|AB => ways ['A'] [AB] anywhere, 1000000 steps
snobol4|ways|--|-X|--anchor => ways [-X] [--anchor] anywhere, 1000000 steps
snobol4|ways|--steps|1000000000|-| => ways [-] [] anywhere, 1000000000 steps
snobol4|ways|--steps|1000000|'A'|AB => ways ['A'] [AB] anywhere, 1000000 steps
";

const REFUSED: &str = r"
snobol4
snobol4|ways
snobol4|ways|'A'
snobol4|ways|'A'|AB|C
snobol4|way|'A'|AB
snobol4|check
snobol4|check|a|b
snobol4|check|--anchor|f
snobol4|check|--steps|5|f
snobol4|check|-f
snobol4|check|f|--|-g
snobol4|checks|f
snobol4|--|check|f
snobol4|--anchor|ways|'A'|AB
snobol4|ways|--anchor|--anchor|'A'|AB
snobol4|ways|--anchor=x|'A'|AB
snobol4|ways|--anch|'A'|AB
snobol4|ways|--steps|5|--steps|5|'A'|AB
snobol4|ways|--steps|1000000001|'A'|AB
snobol4|ways|--steps|99999999999999999999|'A'|AB
snobol4|ways|--steps|-1|'A'|AB
snobol4|ways|--steps|many|'A'|AB
snobol4|ways|--steps=|'A'|AB
snobol4|ways|--steps| 5|'A'|AB
snobol4|ways|'A'|AB|--steps
snobol4|ways|-X|AB
snobol4|ways|'A'|-1
snobol4|ways|--version|'A'|AB
snobol4|run|-V
snobol4|--version=1
snobol4|help|runs
snobol4|run
snobol4|run|--
snobol4|run|--statements|5
snobol4|run|a|b
snobol4|run|-f
snobol4|runs|f
snobol4|--statements=5|run|f
snobol4|run|f|--match-steps
snobol4|run|--statements|-1|f
snobol4|run|--statements=5|--statements=5|f
snobol4|run|--anchor|F
snobol4|run|--steps=5|F
snobol4|run|--statement=5|F
snobol4|run|--statements=|F
snobol4|run|--statements=many|F
snobol4|run|--statements=0|F
snobol4|run|--statements=1000000000001|F
snobol4|run|--statements=99999999999999999999|F
snobol4|run|--match-steps=1000000001|F
snobol4|run|--match-steps=4294967296|F
";

#[test]
fn refuses(rt: HostRuntime) -> Result<(), Fail> {
    check_texts::<Commands, _>(&rt, "status 64", REFUSED)
}

const HELPS: &str = r"
snobol4|--help
snobol4|-h
snobol4|help
snobol4|help|run
snobol4|help|check
snobol4|help|ways
snobol4|run|--help
snobol4|run|-h|--statements|0
snobol4|check|--help
snobol4|check|-h
snobol4|ways|--help
snobol4|ways|-h|--steps|many
snobol4|--version
snobol4|-V
";

#[test]
fn helps(rt: HostRuntime) -> Result<(), Fail> {
    check_texts::<Commands, _>(&rt, "status 0", HELPS)
}

#[test]
fn refuses_no_words(rt: HostRuntime) {
    match command(rt.alloc(), &[]) {
        Ok(_) => assert!(rt; false),
        Err(error) => assert!(rt; status_of(&error) == 64),
    }
}

/// The text that is told where words are refused.
fn help_text(alloc: Global, text: &[u8]) -> Result<String, Fail> {
    let words = words_of(alloc, text)?;
    let told = told_of(alloc, &words)?;
    Ok(told)
}

fn told_of(alloc: Global, words: &[&str]) -> Result<String, AllocError> {
    match command(alloc, words) {
        Ok(_) => String::from_str(alloc, "accepted"),
        Err(error) => format!(in alloc; "{error}"),
    }
}

/// Words that are refused, and what is told then.
const TOLD: [(&str, &str); 8] = [
    ("snobol4|--help", HELP),
    ("snobol4|run|--help", RUN_HELP),
    ("snobol4|check|--help", CHECK_HELP),
    ("snobol4|ways|--help", WAYS_HELP),
    ("snobol4|check|-h", SHORT_CHECK_HELP),
    ("snobol4|hello.sno", NO_COMMAND),
    ("snobol4|--version", "snobol4 0.9.0\n"),
    ("other name|-V", "snobol4 0.9.0\n"),
];

#[test]
fn shows_help(rt: HostRuntime) -> Result<(), Fail> {
    for (words, wanted) in TOLD {
        let told = help_text(rt.alloc(), words.as_bytes())?;
        assert!(rt; told.as_str() == wanted, "{words}");
    }
    Ok(())
}

/// All blocks: behind a call a test is proved without their bytes.
fn blocks() -> [&'static str; 3] {
    [CHECKS, RUNS, WAYS]
}

#[test]
fn rows(rt: HostRuntime) -> Result<(), Fail> {
    check_blocks::<Commands, _>(&rt, &blocks())
}
