//! First ways that are found directly, or that there is none, and where only the search tells, worked out by hand.
use super::drawing::drawn_way;
use super::rows::{Question, check_blocks};
use super::searches::{search_of, table_of_words};
use sno_match::{Direct, DirectWay, direct_way};
use std::alloc::Global;
use std::test::Fail;

/// What is found of the last form in the subject, with at most so many steps.
#[derive(Drop)]
struct Found;

impl Question for Found {
    fn answer(alloc: Global, text: &'static str) -> Result<String, Fail> {
        let (s, words) = search_of(text)?;
        let (table, pattern) = table_of_words(alloc, words)?;
        let mut way = DirectWay::new();
        let text = match direct_way(&table, pattern, s.subject, s.anchored, s.limit, &mut way) {
            Direct::Way => drawn_way(alloc, &way)?,
            Direct::Vain => String::from_str(alloc, "in vain")?,
            Direct::Unknown => String::from_str(alloc, "unknown")?,
        };
        Ok(text)
    }
}

/// Ways with their assignments: LEN(1) . X; LEN(1) . X REM . Y; ('A' | 'AB') 'B'; ARBNO('A') . X 'A'; FENCE 'A'; and
/// (LEN(1) . X) . Y, whose inner part is assigned first.
const WAYS: &str = r"
anchored 1000 AB: LEN:1 .:0,7 => way 0 1 with 7 0 1
floating 1000 AB: LEN:1 .:0,7 => way 0 1 with 7 0 1
anchored 1000 ABC: LEN:1 .:0,7 REM .:2,8 &:1,3 => way 0 3 with 7 0 1 with 8 1 3
anchored 1000 AB: TEXT:A TEXT:AB |:0,1 TEXT:B &:2,3 => way 0 2
anchored 1000 AA: TEXT:A ARBNO:0 .:1,7 TEXT:A &:2,3 => way 0 1 with 7 0 0
anchored 1000 A: FENCE TEXT:A &:0,1 => way 0 1
anchored 1000 AB: LEN:1 .:0,7 .:1,8 => way 0 1 with 7 0 1 with 8 0 1
anchored 1000 (A)B: BAL RTAB:0 &:0,1 => way 0 4
anchored 1000 : TEXT: => way 0 0
anchored 1000 AB,C: BREAK:, .:0,7 TEXT:, &:1,2 => way 0 3 with 7 0 2
";

/// Behind a start or a side in vain: 'A'; 'A' | 'B'; ('A' . X 'C' | 'AB') . Y, whose first side assigns nothing then; and
/// ('AB' | 'CD') . X.
const BEHIND: &str = r"
floating 1000 BA: TEXT:A => way 1 2
floating 1000 BCDA: TEXT:A .:0,7 => way 3 4 with 7 3 4
anchored 1000 B: TEXT:A TEXT:B |:0,1 => way 0 1
anchored 1000 C: TEXT:A TEXT:B |:0,1 TEXT:C |:2,3 => way 0 1
anchored 1000 AB: TEXT:A .:0,7 TEXT:C &:1,2 TEXT:AB |:3,4 .:5,8 => way 0 2 with 8 0 2
floating 1000 XCD: TEXT:AB TEXT:CD |:0,1 .:2,7 => way 1 3 with 7 1 3
floating 1000 AAAAAB: ANY:A TEXT:B &:0,1 => way 4 6
floating 1000 AB1: SPAN:0123456789 .:0,7 => way 2 3 with 7 2 3
floating 1000 AB: RPOS:0 => way 2 2
";

/// Ends of ARB are passed from which what comes behind it is in vain: ARB 'B'; ARB . X 'B'; '(' ARB . X ')'; and where it
/// goes on behind that, in vain, only the search tells.
const ARB: &str = r"
anchored 1000 AXB: ARB TEXT:B &:0,1 => way 0 3
anchored 1000 AXB: ARB .:0,7 TEXT:B &:1,2 => way 0 3 with 7 0 2
anchored 1000 AB: ARB RPOS:0 &:0,1 => way 0 2
anchored 1000 AB: ARB .:0,7 => way 0 0 with 7 0 0
floating 1000 K(V): TEXT:( ARB .:1,7 &:0,2 TEXT:) &:3,4 => way 1 4 with 7 2 3
anchored 1000 AB: ARB TEXT:X &:0,1 => in vain
anchored 1000 ABBC: ARB TEXT:B &:0,1 TEXT:C &:2,3 => unknown
anchored 1000 ABX: TEXT:A ARB &:0,1 .:2,7 TEXT:X &:3,4 => unknown
anchored 4 AB: ARB TEXT:B &:0,1 => unknown
anchored 5 AB: ARB TEXT:B &:0,1 => way 0 2
anchored 7 AB: ARB .:0,7 TEXT:B &:1,2 => unknown
anchored 8 AB: ARB .:0,7 TEXT:B &:1,2 => way 0 2 with 7 0 1
anchored 6 AB: ARB TEXT:X &:0,1 => unknown
anchored 7 AB: ARB TEXT:X &:0,1 => in vain
";

/// No way: no start is left at which the pattern may begin, or the only one is in vain.
const VAIN: &str = r"
anchored 1000 BA: TEXT:A => in vain
anchored 1000 : LEN:1 => in vain
anchored 1000 AB: TEXT:A TEXT:C &:0,1 => in vain
anchored 1000 AB: LEN:1 .:0,7 TEXT:C &:1,2 => in vain
anchored 1000 C: TEXT:A TEXT:B |:0,1 => in vain
anchored 1000 A: FAIL => in vain
floating 1000 BCD: TEXT:A => in vain
floating 1000 : TEXT:A => in vain
floating 1000 AB: POS:0 TEXT:B &:0,1 => in vain
floating 1000 AB: BREAK:, TEXT:, &:0,1 => in vain
floating 1000 BCD: TEXT:AB TEXT:XY |:0,1 => in vain
";

/// Unknown: behind a first alternative it fails, an event comes before, a cut, there is no room for as many assignments,
/// or too many starts are in vain.
const UNKNOWN: &str = r"
anchored 1000 AC: TEXT:A TEXT:AC |:0,1 RPOS:0 &:2,3 => unknown
anchored 1000 AB: TEXT:A TEXT: |:0,1 TEXT:X &:2,3 => unknown
anchored 1000 AB: FENCE TEXT:X &:0,1 => unknown
anchored 1000 AB: TEXT:A ARBNO:0 TEXT:X &:1,2 => unknown
anchored 1000 AB: LEN:1 $:0,7 => unknown
anchored 1000 AB: @:7 LEN:1 &:0,1 => unknown
anchored 1000 AB: LEN:1 CUT:0 => unknown
anchored 1000 AB: ABORT => unknown
anchored 1000 AB: SUCCEED => unknown
anchored 1000 A: LEN:1 .:0,7 .:1,7 .:2,7 .:3,7 .:4,7 .:5,7 .:6,7 .:7,7 .:8,7 => unknown
floating 1000 AAAAAAB: ANY:A TEXT:B &:0,1 => unknown
";

/// LEN(1) . X takes three steps, and ('A' | 'B') two, or four where its second side is taken. A start in vain takes those of
/// its search, and the next one takes one.
const LIMITS: &str = r"
anchored 0 AB: LEN:1 .:0,7 => unknown
anchored 1 AB: LEN:1 .:0,7 => unknown
anchored 2 AB: LEN:1 .:0,7 => unknown
anchored 3 AB: LEN:1 .:0,7 => way 0 1 with 7 0 1
anchored 1 AB: TEXT:A TEXT:B |:0,1 => unknown
anchored 2 AB: TEXT:A TEXT:B |:0,1 => way 0 1
anchored 3 B: TEXT:A TEXT:B |:0,1 => unknown
anchored 4 B: TEXT:A TEXT:B |:0,1 => way 0 1
anchored 0 B: TEXT:A => unknown
anchored 1 B: TEXT:A => in vain
floating 2 BA: TEXT:A => unknown
floating 3 BA: TEXT:A => way 1 2
floating 2 B: TEXT:A => unknown
floating 3 B: TEXT:A => in vain
";

#[test]
fn rows(rt: HostRuntime) -> Result<(), Fail> {
    check_blocks::<Found, _>(&rt, &[WAYS, BEHIND, ARB, VAIN, UNKNOWN, LIMITS])
}
