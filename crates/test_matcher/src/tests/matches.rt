//! Worked rows: what a match tells, with the steps where they were counted by hand.
ghost use Rattle.std.specs.Prelude.{◌<◌, length};

use super::drawing::drawn_events;
use super::rows::{Question, check_blocks};
use super::searches::{Search, all_events, is_first, search_of, table_of_words};
use sno_match::{CopiedGoals, Points, SharedGoals};
use sno_pattern::Patterns;
use sno_value::PatId;
use std::alloc::{AllocError, Global};
use std::test::Fail;

/// The events of a pattern over a stack of this type.
pub fn events_over<P: Points>(
    alloc: Global,
    table: &Patterns,
    pattern: PatId,
    s: Search<'_>,
) -> Result<String, AllocError>
    requires { pattern.0 < length table.now }
{
    let told = all_events::<P>(alloc, table, pattern, s)?;
    drawn_events(alloc, &told)
}

/// The events of a pattern, which either stack tells.
fn events_of_both(
    alloc: Global,
    table: &Patterns,
    pattern: PatId,
    s: Search<'_>,
) -> Result<String, Fail>
    requires { pattern.0 < length table.now }
{
    let told = all_events::<SharedGoals>(alloc, table, pattern, s)?;
    if !is_first(table, pattern, s, &told) {
        return Err(Fail::from("something else is found directly"));
    }
    let text = drawn_events(alloc, &told)?;
    let copied = events_over::<CopiedGoals>(alloc, table, pattern, s)?;
    if text.as_str() != copied.as_str() {
        return Err(Fail::from("the stacks tell different events"));
    }
    Ok(text)
}

/// The events of the last form in the subject, with at most so many steps. The first form answers a deferred part.
#[derive(Drop)]
pub struct Matches;

impl Question for Matches {
    fn answer(alloc: Global, text: &'static str) -> Result<String, Fail> {
        let (s, words) = search_of(text)?;
        let (table, pattern) = table_of_words(alloc, words)?;
        events_of_both(alloc, &table, pattern, s)
    }
}

/// Alternatives in their order.
const ALTERNATIVES: &str = r"
anchored 1000 AB: TEXT:A TEXT:AB |:0,1 => way 0 1 at 2; way 0 2 at 4; exhausted at 4;
anchored 4 AB: TEXT:A TEXT:AB |:0,1 => way 0 1 at 2; way 0 2 at 4; exhausted at 4;
anchored 3 AB: TEXT:A TEXT:AB |:0,1 => way 0 1 at 2; limit at 3;
";

/// A repetition with its steps.
const REPETITION: &str = r"
anchored 48 AAA: TEXT:A TEXT:AA |:0,1 ARBNO:2 => way 0 0 at 1; way 0 1 at 6; way 0 2 at 11; way 0 3 at 16; way 0 3 at 27; way 0 2 at 36; way 0 3 at 41; exhausted at 48;
anchored 1000 A: TEXT: ARBNO:0 => way 0 0 at 1; exhausted at 4;
anchored 47 AAA: TEXT:A TEXT:AA |:0,1 ARBNO:2 => way 0 0 at 1; way 0 1 at 6; way 0 2 at 11; way 0 3 at 16; way 0 3 at 27; way 0 2 at 36; way 0 3 at 41; limit at 47;
";

/// Steps run out.
const LIMITS: &str = r"
floating 0 A: TEXT:A => limit at 0;
floating 1 A: TEXT:A => way 0 1 at 1; limit at 1;
floating 2 A: TEXT:A => way 0 1 at 1; limit at 2;
floating 3 A: TEXT:A => way 0 1 at 1; exhausted at 3;
anchored 6 A: TEXT:A ARBNO:0 => way 0 0 at 1; way 0 1 at 5; limit at 6;
anchored 7 A: TEXT:A ARBNO:0 => way 0 0 at 1; way 0 1 at 5; exhausted at 7;
";

/// Starts that fail. They are 'A'; SPAN('A'); 'A' 'B'; and ('A' LEN(0)) LEN(0).
const FAILING_STARTS: &str = r"
floating 1000 BBA: TEXT:A => way 2 3 at 5; exhausted at 7;
floating 6 BBA: TEXT:A => way 2 3 at 5; limit at 6;
floating 5 BBA: TEXT:A => way 2 3 at 5; limit at 5;
floating 4 BBA: TEXT:A => limit at 4;
floating 3 BBA: TEXT:A => limit at 3;
floating 2 BBA: TEXT:A => limit at 2;
anchored 1000 BBA: TEXT:A => exhausted at 1;
floating 1000 BAAB: SPAN:A => way 1 3 at 3; way 2 3 at 5; exhausted at 9;
floating 12 BAB: TEXT:A TEXT:B &:0,1 => way 1 3 at 6; exhausted at 12;
floating 1000 ACAB: TEXT:A TEXT:B &:0,1 => way 2 4 at 10; exhausted at 16;
floating 11 BAB: TEXT:A TEXT:B &:0,1 => way 1 3 at 6; limit at 11;
floating 10 BAB: TEXT:A TEXT:B &:0,1 => way 1 3 at 6; limit at 10;
floating 9 BAB: TEXT:A TEXT:B &:0,1 => way 1 3 at 6; limit at 9;
floating 8 BAB: TEXT:A TEXT:B &:0,1 => way 1 3 at 6; limit at 8;
floating 1000 BBA: TEXT:A LEN:0 &:0,1 &:2,1 => way 2 3 at 13; exhausted at 17;
floating 7 BBA: TEXT:A LEN:0 &:0,1 &:2,1 => limit at 7;
";

/// Concatenations and choices.
const CONCATENATIONS: &str = r"
anchored 1000 AB: TEXT:A LEN:1 &:0,1 |:2,1 => way 0 2 at 4; way 0 1 at 6; exhausted at 6;
anchored 5 AB: TEXT:A LEN:1 &:0,1 |:2,1 => way 0 2 at 4; limit at 5;
floating 14 ABB: LEN:1 TEXT:B &:0,1 => way 0 2 at 3; way 1 3 at 7; exhausted at 14;
floating 13 ABB: LEN:1 TEXT:B &:0,1 => way 0 2 at 3; way 1 3 at 7; limit at 13;
";

/// The primitives.
const PRIMITIVES: &str = r"
floating 1000 AB: ARB => way 0 0 at 1; way 0 1 at 2; way 0 2 at 3; way 1 1 at 5; way 1 2 at 6; way 2 2 at 8; exhausted at 8;
anchored 1000 (A)B: BAL => way 0 3 at 1; way 0 4 at 2; exhausted at 2;
anchored 1000 ()): BAL => way 0 2 at 1; exhausted at 1;
anchored 1000 ): BAL => exhausted at 1;
anchored 1000 )(: BAL => exhausted at 1;
floating 1000 ABC: POS:1 REM &:0,1 => way 1 3 at 6; exhausted at 12;
floating 1000 ABC: BREAK:, => exhausted at 7;
anchored 1000 12: TEXT:12 => way 0 2 at 1; exhausted at 1;
floating 1000 A: TEXT: => way 0 0 at 1; way 1 1 at 3; exhausted at 3;
anchored 1000 ABC: RTAB:1 ANY:BC &:0,1 => way 0 3 at 3; exhausted at 3;
anchored 1000 ABAC: SPAN:AB LEN:1 &:0,1 => way 0 4 at 3; exhausted at 3;
anchored 1000 ABA: SPAN:AB LEN:1 &:0,1 => exhausted at 3;
anchored 1000 ABC: LEN:2 TAB:1 &:0,1 => exhausted at 3;
anchored 1000 ,A: BREAK:, => way 0 0 at 1; exhausted at 1;
anchored 1000 ABC: BREAK:, => exhausted at 1;
floating 1000 : TEXT: => way 0 0 at 1; exhausted at 1;
floating 1000 : FAIL => exhausted at 1;
";

/// What stops a search.
const STOPS: &str = r"
floating 1000 ACAB: TEXT:A FENCE TEXT:B &:1,2 &:0,3 => aborted at 5;
floating 1000 BA: TEXT:A ABORT &:0,1 TEXT:B |:2,3 => way 0 1 at 5; aborted at 10;
anchored 1000 B: FENCE TEXT:A &:0,1 TEXT:B |:2,3 => aborted at 4;
floating 3 : SUCCEED => way 0 0 at 1; way 0 0 at 2; way 0 0 at 3; limit at 3;
";

/// Each byte of a set is a stop. They are BREAKX('B') 'B' and BREAKX('B').
const STOPS_AT_EACH: &str = r"
anchored 1000 ABAB: BREAKX:B TEXT:B &:0,1 => way 0 2 at 3; way 0 4 at 5; exhausted at 5;
anchored 4 ABAB: BREAKX:B TEXT:B &:0,1 => way 0 2 at 3; limit at 4;
anchored 1000 BB: BREAKX:B => way 0 0 at 1; way 0 1 at 2; exhausted at 2;
";

/// A cut has one way. They are FENCE('AB' | 'A') 'C'; FENCE('A' | 'AB') 'C' three times; FENCE('A') 'X' | 'AB';
/// FENCE(FENCE('A' | 'AB') ('C' | 'BC')) REM; FENCE(ARBNO('A')) 'A'; ARBNO(FENCE('A' | 'AA')); FENCE('A' FENCE) and
/// FENCE(FENCE 'C') 'D', where a bare FENCE is no cut.
const CUTS: &str = r"
anchored 1000 ABC: TEXT:AB TEXT:A |:0,1 CUT:2 TEXT:C &:3,4 => way 0 3 at 6; exhausted at 6;
anchored 1000 ABC: TEXT:A TEXT:AB |:0,1 CUT:2 TEXT:C &:3,4 => exhausted at 6;
anchored 5 ABC: TEXT:A TEXT:AB |:0,1 CUT:2 TEXT:C &:3,4 => limit at 5;
floating 1000 ABAC: TEXT:A TEXT:AB |:0,1 CUT:2 TEXT:C &:3,4 => way 2 4 at 20; exhausted at 34;
anchored 1000 AB: TEXT:A CUT:0 TEXT:X &:1,2 TEXT:AB |:3,4 => way 0 2 at 8; exhausted at 8;
anchored 1000 ABC: TEXT:A TEXT:AB |:0,1 CUT:2 TEXT:C TEXT:BC |:4,5 &:3,6 CUT:7 REM &:8,9 => way 0 3 at 13; exhausted at 13;
anchored 1000 AA: TEXT:A ARBNO:0 CUT:1 &:2,0 => way 0 1 at 5; exhausted at 5;
anchored 1000 AAA: TEXT:A TEXT:AA |:0,1 CUT:2 ARBNO:3 => way 0 0 at 1; way 0 1 at 8; way 0 2 at 15; way 0 3 at 22; exhausted at 28;
anchored 1000 AB: TEXT:A FENCE &:0,1 CUT:2 => way 0 1 at 5; exhausted at 5;
floating 1000 AB: FENCE TEXT:C &:0,1 CUT:2 TEXT:D &:3,4 => aborted at 5;
";

/// Assignments in a cut. They are FENCE(LEN(1) $ X | LEN(2) $ X) 'C'; FENCE('A' . X); FENCE('A') . X; FENCE('A' . X 'X'
/// | 'AB' . Y) 'C'; and FENCE(*E) 'B', where E gives 'A'.
const CUTS_AND_ASSIGNMENTS: &str = r"
anchored 1000 ABC: LEN:1 $:0,7 LEN:2 $:2,7 |:1,3 CUT:4 TEXT:C &:5,6 => assign 7 0 1 at 6; exhausted at 8;
anchored 1000 A: TEXT:A .:0,7 CUT:1 => way 0 1 at 5 with 7 0 1; exhausted at 5 with 7 0 1;
anchored 1000 A: TEXT:A CUT:0 .:1,7 => way 0 1 at 5 with 7 0 1; exhausted at 5 with 7 0 1;
anchored 1000 ABC: TEXT:A .:0,1 TEXT:X &:1,2 TEXT:AB .:4,2 |:3,5 CUT:6 TEXT:C &:7,8 => way 0 3 at 14 with 2 0 2; exhausted at 14 with 2 0 2;
anchored 1000 AB: TEXT:A *:4 CUT:1 TEXT:B &:2,3 => value 4 at 3; way 0 2 at 6; exhausted at 6;
";

/// Assignments on the way.
const ASSIGNMENTS: &str = r"
anchored 1000 AB: LEN:1 $:0,7 &:1,0 => assign 7 0 1 at 4; way 0 2 at 5; exhausted at 5;
floating 1000 AB: LEN:1 $:0,7 FAIL &:1,2 => assign 7 0 1 at 4; assign 7 1 2 at 10; exhausted at 15;
floating 1000 AB: @:7 TEXT:B &:0,1 => cursor 7 0 at 2; cursor 7 1 at 6; way 1 2 at 7; cursor 7 2 at 10; exhausted at 11;
";

/// Assignments that wait. They are (LEN(1) . A LEN(1)) . B; ('A' . X 'C' | 'A' . Y) 'B'; LEN(1) . X | LEN(2) . Y;
/// LEN(1) $ X . Y; and LEN(1) . Z.
const PENDING: &str = r"
anchored 1000 XY: LEN:1 .:0,1 &:1,0 .:2,2 => way 0 2 at 7 with 1 0 1 with 2 0 2; exhausted at 7 with 1 0 1 with 2 0 2;
anchored 1000 AB: TEXT:A .:0,1 TEXT:C &:1,2 .:0,2 |:3,4 TEXT:B &:5,6 => way 0 2 at 12 with 2 0 1; exhausted at 12 with 2 0 1;
anchored 1000 AB: LEN:1 .:0,1 LEN:2 .:2,2 |:1,3 => way 0 1 at 4 with 1 0 1; way 0 2 at 8 with 2 0 2; exhausted at 8 with 2 0 2;
anchored 1000 AB: LEN:1 $:0,1 .:1,2 => assign 1 0 1 at 4; way 0 1 at 5 with 2 0 1; exhausted at 5 with 2 0 1;
anchored 4 AB: LEN:1 $:0,1 .:1,2 => assign 1 0 1 at 4; limit at 4;
anchored 1000 A: LEN:1 .:0,7 => way 0 1 at 3 with 7 0 1; exhausted at 3 with 7 0 1;
";

/// Values that are told. They are *E; LEN(1) $ X *X, where X has been set to 'A'; and LEN(1) $ N LEN(*N), where N has
/// been set to 2 and to 0.
const VALUES: &str = r"
anchored 10 AB: TEXT:A *:4 => value 4 at 1; way 0 1 at 2; exhausted at 2;
anchored 1000 AA: TEXT:A LEN:1 $:1,7 *:4 &:2,3 => assign 7 0 1 at 4; value 4 at 5; way 0 2 at 6; exhausted at 6;
anchored 1000 AB: TEXT:A LEN:1 $:1,7 *:4 &:2,3 => assign 7 0 1 at 4; value 4 at 5; exhausted at 6;
anchored 1000 2ABC: LEN:2 LEN:1 $:1,7 *LEN:4 &:2,3 => assign 7 0 1 at 4; value 4 at 5; way 0 3 at 6; exhausted at 6;
anchored 1000 0A: LEN:0 LEN:1 $:1,7 *LEN:4 &:2,3 => assign 7 0 1 at 4; value 4 at 5; way 0 1 at 6; exhausted at 6;
anchored 5 2ABC: LEN:2 LEN:1 $:1,7 *LEN:4 &:2,3 => assign 7 0 1 at 4; value 4 at 5; limit at 5;
";

#[test]
fn events_of_matches(rt: HostRuntime) -> Result<(), Fail> {
    check_blocks::<Matches, _>(
        &rt,
        &[
            ALTERNATIVES,
            REPETITION,
            LIMITS,
            FAILING_STARTS,
            CONCATENATIONS,
            PRIMITIVES,
            STOPS,
            STOPS_AT_EACH,
            CUTS,
            CUTS_AND_ASSIGNMENTS,
            ASSIGNMENTS,
            PENDING,
            VALUES,
        ],
    )
}
