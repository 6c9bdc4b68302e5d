//! The table of patterns: the heads of its nodes, what it refuses, and a table that is full.
ghost use Rattle.std.specs.Prelude.{◌≤◌, ◌<◌, length, IfOk};

use super::drawing::{push_head, push_number};
use super::driver::check_number;
use super::rows::{Question, check_rows};
use super::searches::table_of_words;
use sno_pattern::{Arg, BuildError, Patterns, Shape};
use sno_value::{PatId, Prim};
use std::alloc::{AllocError, Global};
use std::process::Abort;
use std::test::Fail;

/// How many nodes a table holds at most.
const MOST_NODES: u32 = 4_000_000;

/// The heads of all nodes of a table in order, in the notation of the forms, and which of them are quiet; then how many
/// there are.
#[derive(Drop)]
struct Heads;

impl Question for Heads {
    fn answer(alloc: Global, text: &'static str) -> Result<String, Fail> {
        let (patterns, _) = table_of_words(alloc, text)?;
        let text = heads_of(alloc, &patterns)?;
        Ok(text)
    }
}

fn heads_of(alloc: Global, patterns: &Patterns) -> Result<String, AllocError> {
    let mut text = String::new(alloc);
    'nodes: for number in 0..patterns.len() {
        let id = PatId(number);
        push_head(alloc, &mut text, patterns.shape(id))?;
        push_quiet(&mut text, patterns.is_quiet(id))?;
    }
    push_number(alloc, &mut text, Some(patterns.len() as usize))?;
    Ok(text)
}

fn push_quiet(text: &mut String, quiet: bool) -> Result<(), AllocError> {
    if quiet {
        text.push_str(" quiet")?;
    }
    text.push_str(",")?;
    Ok(())
}

const HEADS: &str = r"
TEXT:A FENCE ABORT SUCCEED ARBNO:0 |:0,4 &:5,1 .:5,7 $:6,7 @:7 *:3 *SPAN:4 => primitive quiet, FENCE, ABORT, SUCCEED, ARBNO 0 quiet, | 0 4 quiet, & 5 1, . 5 7 quiet, $ 6 7, @ 7 quiet, * 3, *SPAN 4, 12
TEXT:A FENCE CUT:0 CUT:1 *:3 CUT:4 BREAKX:A CUT:6 ARBNO:7 => primitive quiet, FENCE, CUT 0 quiet, CUT 1, * 3, CUT 4, primitive quiet, CUT 6 quiet, ARBNO 7 quiet, 9
@:7 *:3 *SPAN:4 &:0,2 ARBNO:3 => @ 7 quiet, * 3, *SPAN 4, & 0 2, ARBNO 3, 5
";

#[test]
fn heads_and_numbers(rt: HostRuntime) -> Result<(), Fail> {
    check_rows::<Heads, _>(&rt, HEADS)
}

/// What a call answers that would add a node.
type Made = Result<PatId, BuildError>;

/// Compares the answer of a call that would add a node with the one that is wanted.
fn check_made(rt: &impl Abort, of: &str, made: Made, want: Made) {
    assert_eq!(rt; made, want, "of {of}");
}

#[test]
fn refusals(rt: HostRuntime) -> Result<(), Fail> {
    let mut patterns = Patterns::new(rt.alloc());
    let null_set = patterns.prim(Prim::Span, Arg::Set(b""));
    check_made(&rt, "a null set", null_set, Err(BuildError::NullSet));
    let below_zero = patterns.prim(Prim::Len, Arg::Count(-1));
    check_made(
        &rt,
        "a count below zero",
        below_zero,
        Err(BuildError::BadCount),
    );
    let least = patterns.prim(Prim::Pos, Arg::Count(i64::MIN));
    check_made(&rt, "the least count", least, Err(BuildError::BadCount));
    check_number(&rt, "no nodes", patterns.len() as usize, 0);
    let zero = patterns.prim(Prim::Len, Arg::Count(0));
    check_made(&rt, "the count zero", zero, Ok(PatId(0)));
    Ok(())
}

/// A call that would add a node to a table, over its first node and its last.
#[derive(Clone, Copy, Drop)]
enum Call {
    Arb,
    Text,
    Alternate,
    Cut,
    Length(i64),
    NullSet,
}

/// What a full table answers.
const REFUSALS: [(Call, BuildError); 7] = [
    (Call::Arb, BuildError::Full),
    (Call::Text, BuildError::Full),
    (Call::Alternate, BuildError::Full),
    (Call::Cut, BuildError::Full),
    (Call::Length(1), BuildError::Full),
    (Call::Length(-1), BuildError::BadCount),
    (Call::NullSet, BuildError::NullSet),
];

fn make(patterns: &mut Patterns, call: Call, first: PatId, last: PatId) -> Result<PatId, BuildError>
    requires first { first.0 < length patterns.old }
    requires last { last.0 < length patterns.old }
    ensures { length patterns.old ≤ length patterns.new }
{
    match call {
        Call::Arb => patterns.arb(),
        Call::Text => patterns.text(b"A"),
        Call::Alternate => patterns.alt(first, last),
        Call::Cut => patterns.cut(last),
        Call::Length(count) => patterns.prim(Prim::Len, Arg::Count(count)),
        Call::NullSet => patterns.prim(Prim::Any, Arg::Set(b"")),
    }
}

/// Adds as many nodes as a table may hold: a text, and then concatenations of the one before with it. They are the
/// first and the last.
fn fill(patterns: &mut Patterns) -> Result<(PatId, PatId), BuildError>
    ensures first { IfOk result (λ made. made.0.0 < length patterns.new) }
    ensures last { IfOk result (λ made. made.1.0 < length patterns.new) }
{
    let first = patterns.text(b"A")?;
    let mut deepest = first;
    for _node in 1..MOST_NODES {
        deepest = patterns.cat(deepest, first)?;
    }
    Ok((first, deepest))
}

fn check_refusals(rt: &impl Abort, patterns: &mut Patterns, first: PatId, last: PatId)
    requires first { first.0 < length patterns.old }
    requires last { last.0 < length patterns.old }
    ensures { last.0 < length patterns.new }
{
    'refusals: for (call, refusal) in &REFUSALS {
        let answer = make(patterns, *call, first, last);
        check_made(rt, "a full table", answer, Err(*refusal));
    }
}

#[test]
fn full(rt: HostRuntime) -> Result<(), Fail> {
    let mut patterns = Patterns::new(rt.alloc());
    let (first, deepest) = fill(&mut patterns)?;
    check_number(&rt, "the last node", deepest.0 as usize, 3_999_999);
    check_refusals(&rt, &mut patterns, first, deepest);
    check_number(&rt, "the nodes", patterns.len() as usize, 4_000_000);
    assert!(rt; patterns.is_quiet(deepest));
    let shape = patterns.shape(deepest);
    assert_eq!(rt; shape, Shape::Cat(PatId(3_999_998), first));
    Ok(())
}
