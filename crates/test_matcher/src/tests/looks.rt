//! What a match remembers of its looks: it tells what the plain search tells, and runs are looked through once.
ghost use Rattle.std.specs.Prelude.{◌≡◌, ◌<◌, false, length};
ghost use Rattle.sno_pattern.specs.Looks.{AreTrue};

use super::driver::{begin, check_event, check_last, check_number, give_new, next_event};
use super::rows::parts;
use super::searches::{Search, compare_words, table_of_words};
use sno_match::{Event, Matcher};
use sno_pattern::{Arg, Looks, Patterns, Shape};
use sno_value::{ExprId, PatId, Prim};
use std::alloc::Global;
use std::process::Abort;
use std::test::Fail;

/// Each row is tried with every limit below this.
const LIMITS: u32 = 160;

/// Compares what a match over either stack and the plain search tell of the row `SUBJECT: FORMS` with this limit. The
/// first form answers a deferred part, but for the second that is reached, which fails.
fn compare(
    rt: &impl Abort,
    alloc: Global,
    row: &'static str,
    anchored: bool,
    limit: u32,
) -> Result<(), Fail> {
    let (subject, words) = parts(row, ": ")?;
    let s = Search {
        subject: subject.as_bytes(),
        anchored,
        limit,
        answers: &[Some(PatId(0)), None, Some(PatId(0))],
    };
    let _events = compare_words(rt, alloc, words, s)?;
    Ok(())
}

const RUNS: &str = r"
AAAAAAAAAAAAAA: SPAN:A TEXT:B &:0,1
AAAAAAAAAABAAAAAAAAAAB: SPAN:A TEXT:B &:0,1
AAAAAAAAAAAAAA: SPAN:A SPAN:A |:0,1 TEXT:B &:2,3
A,B;C: BREAK:, BREAK:; &:0,1
AAAAAAAAAA;BBBBBBBBBB,C: BREAK:, BREAK:; &:0,1
AAAAAAAAAAAAAA: BREAK:, BREAK:; |:0,1
A,A,AA;: BREAK:, LEN:1 &:0,1 BREAK:; &:2,3
AABBA: SPAN:A TEXT:B |:0,1 ARBNO:2 RPOS:0 &:3,4
AABCA: SPAN:A TEXT:B |:0,1 ARBNO:2 RPOS:0 &:3,4
A,B,A,,A: BREAKX:, TEXT:, &:0,1
AAAAAAAAAA,BBBBBBBBBB,A,,A: BREAKX:, LEN:2 &:0,1 FAIL &:2,3
A,,B,;: BREAKX:, LEN:1 &:0,1 ARBNO:2 TEXT:; &:3,4
A,B;A,: BREAKX:, BREAKX:; &:0,1
AAAAAAAAAABBAA: SPAN:A *:0 &:0,1 TEXT:B &:2,3
AABAAB: SPAN:A *:0 |:0,1 TEXT:B &:2,3
";

/// Nine primitives and more, which stand apart.
const PUSHED_OUT: &str = r"
ABCDEFGHI: SPAN:A SPAN:B SPAN:C SPAN:D SPAN:E SPAN:F SPAN:G SPAN:H SPAN:I &:0,1 &:9,2 &:10,3 &:11,4 &:12,5 &:13,6 &:14,7 &:15,8
ABBCDEFGHI: SPAN:A SPAN:B SPAN:C SPAN:D SPAN:E SPAN:F SPAN:G SPAN:H SPAN:I &:0,1 &:9,2 &:10,3 &:11,4 &:12,5 &:13,6 &:14,7 &:15,8
AAAAAAAAAABBBBBBBBBBAABB: SPAN:A TEXT: TEXT: TEXT: TEXT: TEXT: TEXT: TEXT: SPAN:B |:0,8 ARBNO:9 TEXT:C &:10,11
AAAAAAAAAA,BBBBBBBBBB;A,B;: BREAKX:, TEXT: TEXT: TEXT: TEXT: TEXT: TEXT: TEXT: BREAKX:; &:0,8 TEXT:C &:9,10
";

/// 36 different sets, for which there are not enough places in the match itself, on runs that are long enough for the
/// places behind these.
const MANY_SETS: &str = r"
AAAAAAAAAAAAAAAAAAAAAAAAAAAAAAAAAAAAAAAAAAAAAAAAAAAAAAAAAAAAAAAAAAAA,: SPAN:AB SPAN:AC SPAN:AD SPAN:AE SPAN:AF SPAN:AG SPAN:AH SPAN:AI SPAN:AJ SPAN:AK SPAN:AL SPAN:AM SPAN:AN SPAN:AO SPAN:AP SPAN:AQ SPAN:AR SPAN:AS SPAN:AT SPAN:AU SPAN:AV SPAN:AW SPAN:AX SPAN:AY SPAN:AZ SPAN:Ab SPAN:Ac SPAN:Ad SPAN:Ae SPAN:Af SPAN:Ag SPAN:Ah SPAN:Ai SPAN:Aj SPAN:Ak SPAN:Al |:34,35 |:33,36 |:32,37 |:31,38 |:30,39 |:29,40 |:28,41 |:27,42 |:26,43 |:25,44 |:24,45 |:23,46 |:22,47 |:21,48 |:20,49 |:19,50 |:18,51 |:17,52 |:16,53 |:15,54 |:14,55 |:13,56 |:12,57 |:11,58 |:10,59 |:9,60 |:8,61 |:7,62 |:6,63 |:5,64 |:4,65 |:3,66 |:2,67 |:1,68 |:0,69 TEXT:! &:70,71
AAAAAAAAAAAAAAAAAAAAAAAAAAAAAAAAAAAAAAAAAAAAAAAAAAAAAAAAAAAAAAAAAAAA,: BREAK:B BREAK:C BREAK:D BREAK:E BREAK:F BREAK:G BREAK:H BREAK:I BREAK:J BREAK:K BREAK:L BREAK:M BREAK:N BREAK:O BREAK:P BREAK:Q BREAK:R BREAK:S BREAK:T BREAK:U BREAK:V BREAK:W BREAK:X BREAK:Y BREAK:Z BREAK:b BREAK:c BREAK:d BREAK:e BREAK:f BREAK:g BREAK:h BREAK:i BREAK:j BREAK:k BREAK:, |:34,35 |:33,36 |:32,37 |:31,38 |:30,39 |:29,40 |:28,41 |:27,42 |:26,43 |:25,44 |:24,45 |:23,46 |:22,47 |:21,48 |:20,49 |:19,50 |:18,51 |:17,52 |:16,53 |:15,54 |:14,55 |:13,56 |:12,57 |:11,58 |:10,59 |:9,60 |:8,61 |:7,62 |:6,63 |:5,64 |:4,65 |:3,66 |:2,67 |:1,68 |:0,69 TEXT:! &:70,71
AAAAAAAAAAAAAAAAAAAAAAAAAAAAAAAAAAAAAAAAAAAAAAAAAAAAAAAAAAAAAAAAABAAAAAAAAAAAAAAAAAAAAAAAAAAAAAAAAAAAAAAAAAAAAAAAAAAAAAAAAAAAAAAAAAn,: BREAKX:B BREAKX:C BREAKX:D BREAKX:E BREAKX:F BREAKX:G BREAKX:H BREAKX:I BREAKX:J BREAKX:K BREAKX:L BREAKX:M BREAKX:N BREAKX:O BREAKX:P BREAKX:Q BREAKX:R BREAKX:S BREAKX:T BREAKX:U BREAKX:V BREAKX:W BREAKX:X BREAKX:Y BREAKX:Z BREAKX:b BREAKX:c BREAKX:d BREAKX:e BREAKX:f BREAKX:g BREAKX:h BREAKX:i BREAKX:n BREAKX:B BREAKX:A |:34,35 |:33,36 |:32,37 |:31,38 |:30,39 |:29,40 |:28,41 |:27,42 |:26,43 |:25,44 |:24,45 |:23,46 |:22,47 |:21,48 |:20,49 |:19,50 |:18,51 |:17,52 |:16,53 |:15,54 |:14,55 |:13,56 |:12,57 |:11,58 |:10,59 |:9,60 |:8,61 |:7,62 |:6,63 |:5,64 |:4,65 |:3,66 |:2,67 |:1,68 |:0,69 TEXT:! &:70,71
";

/// Stops so far apart that the ends behind them are remembered.
const FAR_STOPS: &str = r"
AAAAAAAAAAAAAAAAAAAAAAAAAAAAAAAAAAAAAAAAAAAAAAAAAAAAAAAAAAAAAAAAAABAAAAAAAAAAAAAAAAAAAAAAAAAAAAAAAAAAAAAAAAAAAAAAAAAAAAAAAAAAAAAAAAAABAAA: BREAKX:B TEXT:C &:0,1
AAAAAAAAAAAAAAAAAAAAAAAAAAAAAAAAAAAAAAAAAAAAAAAAAAAAAAAAAAAAAAAAAABAAAAAAAAAAAAAAAAAAAAAAAAAAAAAAAAAAAAAAAAAAAAAAAAAAAAAAAAAAAAAAAAAABAAAAAAAAAAAAAAAAAAAAAAAAAAAAAAAAAAAAAAAAAAAAAAAAAAAAAAAAAAAAAAAAAAAAAA: BREAKX:B SPAN:A TEXT:C |:0,1 &:3,2
AAAAAAAAAAAAAAAAAAAAAAAAAAAAAAAAAAAAAAAAAAAAAAAAAAAAAAAAAAAAAAAAAABAAAAAAAAAAAAAAAAAAAAAAAAAAAAAAAAAAAAAAAAAAAAAAAAAAAAAAAAAAAAAAAAAACAAAAAAAAAAAAAAAAAAAAAAAAAAAAAAAAAAAAAAAAAAAAAAAAAAAAAAAAAAAAAAAAAA: BREAKX:B BREAKX:C BREAKX:BC |:0,1 |:3,2 TEXT:D &:4,5
";

/// BAL at the heads of patterns, behind other parts and backed into, so that it is looked for more often than the
/// subject is long and its ends come from the table.
const BALANCED: &str = r"
((((: BAL TEXT:X &:0,1
(())(): BAL TEXT:X &:0,1
()()): BAL TEXT:X &:0,1
(A)(B): BAL BAL &:0,1 TEXT:X &:2,3
(A(B)C)D)E(: BAL TEXT:X &:0,1
A)B(C)): BAL BAL |:0,1 TEXT:X &:2,3
((A)(B): BAL RPOS:0 &:0,1
((A)(B))(C: LEN:1 BAL &:0,1 BAL &:2,1 TEXT:X &:3,4
)(A)(: ARB BAL &:0,1 TEXT:X &:2,3
(A)((B): BAL ARBNO:0 TEXT:X &:1,2
";

/// Compares each row of some blocks with this limit.
fn compare_blocks(
    rt: &impl Abort,
    alloc: Global,
    blocks: &[&'static str],
    limit: u32,
) -> Result<(), Fail> {
    for block in blocks {
        for row in block.lines() {
            if !row.is_empty() {
                compare(rt, alloc, row, false, limit)?;
                compare(rt, alloc, row, true, limit)?;
            }
        }
    }
    Ok(())
}

/// Patterns that take many steps have a few limits.
#[test]
fn remembered_looks_change_no_event(rt: HostRuntime) -> Result<(), Fail> {
    for limit in 0..LIMITS {
        compare_blocks(&rt, rt.alloc(), &[RUNS, BALANCED, PUSHED_OUT], limit)?;
    }
    for limit in [75, 150, 400] {
        compare_blocks(&rt, rt.alloc(), &[MANY_SETS, FAR_STOPS], limit)?;
    }
    Ok(())
}

/// How many bytes a long run has. If each start looked through it again, a thousand million bytes would be looked at.
const LONG: usize = 50_000;

/// A pattern has no way in the subject, which is found out by so many steps.
fn check_no_way(
    rt: &impl Abort,
    alloc: Global,
    table: &Patterns,
    pattern: PatId,
    subject: &[u8],
    steps: u32,
) -> Result<(), Fail>
    requires { pattern.0 < length table.now }
{
    let mut m: Matcher = begin(alloc, table, pattern, subject, false, 1_000_000)?;
    check_last(rt, &mut m, table, steps)
}

/// The forms fail at each start of a long run that a byte follows, behind a look through all that is left of it.
fn check_long_run(
    rt: &impl Abort,
    alloc: Global,
    words: &'static str,
    subject: &[u8],
    steps: u32,
) -> Result<(), Fail> {
    let (table, pattern) = table_of_words(alloc, words)?;
    check_no_way(rt, alloc, &table, pattern, subject, steps)
}

/// Forms, and the steps by which they are found to have no way. At each start within the run three goals are entered:
/// the concatenation, the primitive and the text. At a start where the primitive fails two are. Each start but the
/// first is taken up by a step.
const LONG_RUNS: [(&str, u32); 4] = [
    ("SPAN:A TEXT:B &:0,1", 200_005),
    ("BREAK:, TEXT:B &:0,1", 200_006),
    ("BREAKX:, TEXT:B &:0,1", 200_006),
    ("LEN:1 BREAK:; &:0,1", 200_006),
];

#[test]
fn long_runs_are_looked_through_once(rt: HostRuntime) -> Result<(), Fail> {
    let mut subject = vec![in rt.alloc(); b'A'; LONG]?;
    subject.push(b',')?;
    for (words, steps) in LONG_RUNS {
        check_long_run(&rt, rt.alloc(), words, &subject, steps)?;
    }
    Ok(())
}

/// Places in AA,A,A, and where SPAN('A') or BREAKX(',') ends from there.
const SPANS: &[(usize, Option<usize>)] = &[(0, Some(2)), (1, Some(2)), (2, None)];

const STOPS: &[(usize, Option<usize>)] = &[(0, Some(2)), (3, Some(4)), (5, None)];

/// Compares the ends of a primitive.
fn check_ends(
    rt: &impl Abort,
    patterns: &Patterns,
    looks: &mut Looks,
    id: PatId,
    subject: &[u8],
    rows: &[(usize, Option<usize>)],
) -> Result<(), Fail>
    requires id { id.0 < length patterns.now }
    requires looks { AreTrue patterns.now subject.now looks.old }
    ensures looks { AreTrue patterns.now subject.now looks.new }
{
    'rows: for (at, end) in rows {
        let found = look(patterns, looks, id, subject, *at)?;
        assert_eq!(rt; found, *end);
    }
    Ok(())
}

pub fn look(
    patterns: &Patterns,
    looks: &mut Looks,
    id: PatId,
    subject: &[u8],
    at: usize,
) -> Result<Option<usize>, Fail>
    requires id { id.0 < length patterns.now }
    requires looks { AreTrue patterns.now subject.now looks.old }
    ensures looks { AreTrue patterns.now subject.now looks.new }
{
    if at > subject.len() || patterns.shape(id) != Shape::Primitive {
        return Err(Fail::from("no look is possible"));
    }
    Ok(patterns.look(looks, id, subject, at))
}

/// The first place from one on at which a primitive has an end, or one more than the length of the subject.
pub fn place(
    patterns: &Patterns,
    looks: &mut Looks,
    id: PatId,
    subject: &[u8],
    from: usize,
) -> Result<usize, Fail>
    requires id { id.0 < length patterns.now }
    requires looks { AreTrue patterns.now subject.now looks.old }
    ensures looks { AreTrue patterns.now subject.now looks.new }
{
    if from > subject.len() || patterns.shape(id) != Shape::Primitive {
        return Err(Fail::from("no look is possible"));
    }
    let until = subject.len() + 1;
    Ok(patterns.look_for_place(looks, id, subject, from, until))
}

/// Compares the ends of both primitives, and the first places at which they have one.
fn check_looks(
    rt: &impl Abort,
    patterns: &Patterns,
    looks: &mut Looks,
    span: PatId,
    stops: PatId,
    subject: &[u8],
) -> Result<(), Fail>
    requires span { span.0 < length patterns.now }
    requires stops { stops.0 < length patterns.now }
    requires looks { AreTrue patterns.now subject.now looks.old }
{
    check_ends(rt, patterns, looks, span, subject, SPANS)?;
    check_ends(rt, patterns, looks, stops, subject, STOPS)?;
    let behind = place(patterns, looks, span, subject, 2)?;
    check_number(rt, "the place of a run", behind, 3);
    let behind = place(patterns, looks, stops, subject, 5)?;
    check_number(rt, "the place of a stop", behind, 7);
    Ok(())
}

#[test]
fn looks_give_the_ends(rt: HostRuntime) -> Result<(), Fail> {
    let mut patterns = Patterns::new(rt.alloc());
    let span = patterns.prim(Prim::Span, Arg::Set(b"A"))?;
    let stops = patterns.prim(Prim::BreakX, Arg::Set(b","))?;
    let mut looks = Looks::new(rt.alloc());
    check_looks(&rt, &patterns, &mut looks, span, stops, b"AA,A,A")
}

/// Asks for the value of `*E`, and answers it by a node that the table got meanwhile.
fn answer_by_new_node(
    rt: &impl Abort,
    alloc: Global,
    table: &mut Patterns,
    pattern: PatId,
) -> Result<(), Fail>
    requires { pattern.0 < length table.old }
{
    let mut m: Matcher = begin(alloc, table, pattern, b"AAB", false, 100)?;
    check_answer(rt, &mut m, table)
}

fn check_answer(rt: &impl Abort, m: &mut Matcher, table: &mut Patterns) -> Result<(), Fail>
    requires table { m.old.nodes ≡ table.old }
    requires asked { m.old.waits ≡ false }
{
    let asked = next_event(m, table)?;
    assert!(rt; matches!(asked, Event::Value { .. }));
    if !m.is_waiting() {
        return Err(Fail::from("no value is wanted"));
    }
    let tail = table.prim(Prim::Span, Arg::Set(b"B"))?;
    give_new(m, table, tail)?;
    let way = next_event(m, table)?;
    check_event(rt, "the new node", way, Event::Way { start: 0, end: 3 });
    Ok(())
}

/// SPAN('A') *E: behind the answer the table is longer, and what was found out of it before still holds.
#[test]
fn a_longer_table_keeps_what_was_found(rt: HostRuntime) -> Result<(), Fail> {
    let mut table = Patterns::new(rt.alloc());
    let span = table.prim(Prim::Span, Arg::Set(b"A"))?;
    let value = table.defer(ExprId(0))?;
    let pattern = table.cat(span, value)?;
    answer_by_new_node(&rt, rt.alloc(), &mut table, pattern)
}
