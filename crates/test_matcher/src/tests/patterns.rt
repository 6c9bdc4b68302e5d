//! The ends of primitives and the places where they have one, on worked rows: those of the book's descriptions.
ghost use Rattle.std.specs.Prelude.{◌≤◌, ◌<◌, ◌+◌, length};
ghost use Rattle.sno_pattern.specs.Shape.{IsPrimitive};
ghost use Rattle.sno_pattern.specs.Table.{tree};

use super::drawing::push_number;
use super::rows::{Question, check_blocks, check_rows, parts};
use super::searches::table_of_words;
use sno_pattern::{Arg, Patterns, Shape};
use sno_value::{PatId, Prim};
use std::alloc::{AllocError, Global};
use std::test::Fail;

/// All ends of a primitive from a cursor in a subject, in order of trial: `FORM from CURSOR of SUBJECT`.
#[derive(Drop)]
struct Ends;

impl Question for Ends {
    fn answer(alloc: Global, text: &'static str) -> Result<String, Fail> {
        let (words, rest) = parts(text, " from ")?;
        let (at, subject) = parts(rest, " of ")?;
        let at: usize = at.parse()?;
        let (patterns, id) = table_of_words(alloc, words)?;
        ends_from(alloc, &patterns, id, subject.as_bytes(), at)
    }
}

fn ends_from(
    alloc: Global,
    patterns: &Patterns,
    id: PatId,
    subject: &[u8],
    at: usize,
) -> Result<String, Fail>
    requires { id.0 < length patterns.now }
{
    if at > subject.len() {
        return Err(Fail::from("the cursor is outside"));
    }
    match patterns.shape(id) {
        Shape::Primitive => {
            let text = ends_of(alloc, patterns, id, subject, at)?;
            Ok(text)
        }
        _ => Err(Fail::from("no primitive")),
    }
}

/// The ends by their numbers, where each of them is the one behind the one before it.
fn ends_of(
    alloc: Global,
    patterns: &Patterns,
    id: PatId,
    subject: &[u8],
    at: usize,
) -> Result<String, AllocError>
    requires id { id.0 < length patterns.now }
    requires primitive { IsPrimitive (tree patterns.now id.0) }
    requires at { at ≤ length subject.now }
{
    let mut text = String::new(alloc);
    text.push_str("ends")?;
    let mut behind = patterns.end_at(id, subject, at, 0);
    'ends: for i in 0..1000usize {
        let end = patterns.end_at(id, subject, at, i);
        push_end(alloc, &mut text, end, behind)?;
        let Some(end) = end else {
            break;
        };
        behind = patterns.end_behind(id, subject, at, end);
    }
    Ok(text)
}

/// Adds an end by its number, and a sign where it is another than that behind the end before it.
fn push_end(
    alloc: Global,
    text: &mut String,
    end: Option<usize>,
    behind: Option<usize>,
) -> Result<(), AllocError> {
    if end != behind {
        text.push_str(" but")?;
        push_number(alloc, text, behind)?;
    }
    push_number(alloc, text, end)
}

const COUNTS: &str = r"
LEN:2 from 1 of ABC => ends 3
LEN:2 from 2 of ABC => ends
LEN:0 from 0 of  => ends 0
LEN:9223372036854775807 from 3 of ABC => ends
POS:1 from 1 of ABC => ends 1
POS:1 from 0 of ABC => ends
RPOS:0 from 3 of ABC => ends 3
RPOS:1 from 3 of ABC => ends
TAB:1 from 0 of ABC => ends 1
TAB:1 from 2 of ABC => ends
TAB:4 from 0 of ABC => ends
RTAB:1 from 0 of ABC => ends 2
RTAB:1 from 3 of ABC => ends
";

const SETS: &str = r"
ANY:BC from 2 of ABC => ends 3
ANY:BC from 0 of ABC => ends
ANY:BC from 3 of ABC => ends
NOTANY:BC from 0 of ABC => ends 1
NOTANY:BC from 1 of ABC => ends
NOTANY:BC from 3 of ABC => ends
SPAN:AB from 0 of ABAC => ends 3
SPAN:BAB from 0 of ABA => ends 3
SPAN:AB from 0 of CAB => ends
SPAN:AB from 2 of AB => ends
BREAK:, from 0 of ABC => ends
BREAK:, from 0 of ,A => ends 0
BREAK:;, from 1 of AB,; => ends 2
BREAK:, from 0 of AAAAAAAAAAAAAAAAAAAAAAAAAAAAAAAA, => ends 32
BREAK:, from 1 of AAAAAAAAAAAAAAAAAAAAAAAAAAAAAAAA, => ends 32
BREAK:, from 0 of AAAAAAAAAAAAAAAAAAAAAAAAAAAAAAAAAAAAAAAAAAAAAAAAAAAAAAAAAAAAAAAA => ends
SPAN:A from 0 of AAAAAAAAAAAAAAAAAAAAAAAAAAAAAAAAAAAAAAAAAAAAAAAAAAAAAAAAAAAAAAAAAAAAAAAAAAAAAAAAAAAAAAAAAAAAAAAAAAAAB => ends 100
SPAN:A from 100 of AAAAAAAAAAAAAAAAAAAAAAAAAAAAAAAAAAAAAAAAAAAAAAAAAAAAAAAAAAAAAAAAAAAAAAAAAAAAAAAAAAAAAAAAAAAAAAAAAAAAB => ends
SPAN:ABCDEFGH from 0 of ABCDEFGHABCDEFGHABCDEFGHABCDEFGHABCDEFGHABCDEFGHABCDEFGHABCDEFGHA => ends 65
SPAN:ABCDEFGHI from 0 of IHGFEDCBAIHGFEDCBAIHGFEDCBAIHGFEDCBAIHGFEDCBAIHGFEDCBAIHGFEDCBAIH => ends 65
BREAKX:B from 0 of AAA => ends
BREAKX:B from 2 of BB => ends
";

const SEVERAL_ENDS: &str = r"
ARB from 0 of AB => ends 0 1 2
ARB from 2 of AB => ends 2
BREAKX:B from 0 of ABAB => ends 1 3
BREAKX:B from 2 of ABAB => ends 3
BREAKX:B from 0 of BB => ends 0 1
BREAKX:BC from 1 of BCABAC => ends 1 3 5
BAL from 0 of (A)B => ends 3 4
BAL from 1 of (A)B => ends 2
BAL from 0 of ()) => ends 2
BAL from 0 of ) => ends
BAL from 0 of )( => ends
BAL from 0 of (() => ends
BAL from 1 of A => ends
REM from 1 of ABC => ends 3
FAIL from 1 of ABC => ends
TEXT:BC from 1 of ABC => ends 3
TEXT:BC from 0 of ABC => ends
TEXT: from 0 of  => ends 0
";

#[test]
fn ends_of_primitives(rt: HostRuntime) -> Result<(), Fail> {
    check_blocks::<Ends, _>(&rt, &[COUNTS, SETS, SEVERAL_ENDS])
}

/// The first place at which a primitive has an end: `FORM from FROM to UNTIL of SUBJECT`.
#[derive(Drop)]
struct Places;

impl Question for Places {
    fn answer(alloc: Global, text: &'static str) -> Result<String, Fail> {
        let (words, rest) = parts(text, " from ")?;
        let (from, rest) = parts(rest, " to ")?;
        let (until, subject) = parts(rest, " of ")?;
        let from: usize = from.parse()?;
        let until: usize = until.parse()?;
        let (patterns, id) = table_of_words(alloc, words)?;
        place_from(alloc, &patterns, id, subject.as_bytes(), from, until)
    }
}

fn place_from(
    alloc: Global,
    patterns: &Patterns,
    id: PatId,
    subject: &[u8],
    from: usize,
    until: usize,
) -> Result<String, Fail>
    requires { id.0 < length patterns.now }
{
    if from > subject.len() || until < from || until > subject.len() + 1 {
        return Err(Fail::from("the places are outside"));
    }
    match patterns.shape(id) {
        Shape::Primitive => {
            let text = place_of(alloc, patterns, id, subject, from, until)?;
            Ok(text)
        }
        _ => Err(Fail::from("no primitive")),
    }
}

/// The place, and a sign where a look at each place in turn finds another.
fn place_of(
    alloc: Global,
    patterns: &Patterns,
    id: PatId,
    subject: &[u8],
    from: usize,
    until: usize,
) -> Result<String, AllocError>
    requires id { id.0 < length patterns.now }
    requires primitive { IsPrimitive (tree patterns.now id.0) }
    requires start { from ≤ length subject.now }
    requires range { from ≤ until }
    requires inside { until ≤ length subject.now + 1 }
{
    let mut text = String::new(alloc);
    text.push_str("place")?;
    let place = patterns.first_place(id, subject, from, until);
    let mut seen = until;
    'places: for at in from..until {
        if patterns.end_at(id, subject, at, 0).is_some() {
            seen = at;
            break;
        }
    }
    push_end(alloc, &mut text, Some(place), Some(seen))?;
    Ok(text)
}

const PLACES: &str = r"
TEXT:BC from 0 to 4 of ABC => place 1
TEXT:BC from 0 to 6 of ABBCB => place 2
TEXT:BC from 0 to 1 of ABC => place 1
TEXT:BC from 2 to 4 of ABC => place 4
TEXT:BC from 1 to 3 of BCB => place 3
TEXT:AB from 0 to 1 of ABC => place 0
TEXT:A from 1 to 1 of ABC => place 1
TEXT: from 3 to 4 of ABC => place 3
ANY:BC from 0 to 4 of AABC => place 2
ANY:BC from 4 to 5 of AABC => place 5
NOTANY:AB from 0 to 5 of ABBC => place 3
NOTANY:AB from 0 to 4 of ABB => place 4
SPAN:BC from 0 to 5 of AABC => place 2
SPAN:BC from 0 to 3 of AAA => place 3
BREAK:, from 0 to 4 of AB, => place 0
BREAK:, from 1 to 3 of ,AB => place 3
BREAK:, from 0 to 4 of ABC => place 4
BREAK:, from 1 to 4 of A,B => place 1
BREAK:, from 2 to 4 of A,B => place 4
BREAK:, from 3 to 3 of AB, => place 3
BREAK:, from 0 to 2 of , => place 0
BREAK:, from 3 to 4 of AB, => place 4
BREAKX:, from 0 to 4 of AB, => place 0
BREAKX:, from 1 to 3 of ,AB => place 3
LEN:2 from 0 to 4 of ABC => place 0
LEN:2 from 2 to 4 of ABC => place 4
LEN:0 from 3 to 4 of ABC => place 3
LEN:4 from 0 to 4 of ABC => place 4
POS:2 from 0 to 4 of ABC => place 2
POS:2 from 2 to 3 of ABC => place 2
POS:2 from 0 to 2 of ABC => place 2
POS:2 from 3 to 4 of ABC => place 4
POS:4 from 0 to 4 of ABC => place 4
RPOS:0 from 0 to 4 of ABC => place 3
RPOS:1 from 2 to 4 of ABC => place 2
RPOS:1 from 0 to 1 of ABC => place 1
RPOS:1 from 3 to 4 of ABC => place 4
RPOS:3 from 1 to 4 of ABC => place 4
RPOS:4 from 0 to 4 of ABC => place 4
TAB:1 from 0 to 4 of ABC => place 0
TAB:1 from 2 to 4 of ABC => place 4
TAB:4 from 0 to 4 of ABC => place 4
RTAB:1 from 2 to 4 of ABC => place 2
RTAB:1 from 3 to 4 of ABC => place 4
ARB from 3 to 4 of ABC => place 3
BAL from 0 to 4 of )(A) => place 1
BAL from 0 to 3 of ))( => place 3
REM from 3 to 4 of ABC => place 3
FAIL from 0 to 4 of ABC => place 4
";

#[test]
fn first_places(rt: HostRuntime) -> Result<(), Fail> {
    check_rows::<Places, _>(&rt, PLACES)
}

/// The first and the last byte of each word of a mask, and their neighbours.
const CORNERS: &[u8] = b"\x00\x3f\x40\x7f\x80\xbf\xc0\xff";

const NEIGHBOURS: &[u8] = b"\x01\x3e\x41\x7e\x81\xbe\xc1\xfe";

#[test]
fn words_of_masks(rt: HostRuntime) -> Result<(), Fail> {
    let mut patterns = Patterns::new(rt.alloc());
    let span = patterns.prim(Prim::Span, Arg::Set(CORNERS))?;
    assert_eq!(rt; patterns.end_at(span, CORNERS, 0, 0), Some(8));
    let until = patterns.prim(Prim::Break, Arg::Set(CORNERS))?;
    assert_eq!(rt; patterns.end_at(until, NEIGHBOURS, 0, 0), None);
    Ok(())
}
