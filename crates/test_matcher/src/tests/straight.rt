//! Patterns whose searches go one way alone: starts at which they are in vain are passed, with their steps.
use super::matches::Matches;
use super::rows::check_blocks;
use std::process::Abort;
use std::test::Fail;

/// They are LEN(1) . X 'B', whose search from a start takes five steps, the end of the assigned part among them, and
/// (POS(0) | 'D') 'B', each with all limits up to the last step.
const LIMITS: &str = r"
floating 0 CCB: LEN:1 .:0,7 TEXT:B &:1,2 => limit at 0;
floating 1 CCB: LEN:1 .:0,7 TEXT:B &:1,2 => limit at 1;
floating 2 CCB: LEN:1 .:0,7 TEXT:B &:1,2 => limit at 2;
floating 3 CCB: LEN:1 .:0,7 TEXT:B &:1,2 => limit at 3;
floating 4 CCB: LEN:1 .:0,7 TEXT:B &:1,2 => limit at 4;
floating 5 CCB: LEN:1 .:0,7 TEXT:B &:1,2 => limit at 5;
floating 6 CCB: LEN:1 .:0,7 TEXT:B &:1,2 => limit at 6;
floating 7 CCB: LEN:1 .:0,7 TEXT:B &:1,2 => limit at 7;
floating 8 CCB: LEN:1 .:0,7 TEXT:B &:1,2 => limit at 8;
floating 9 CCB: LEN:1 .:0,7 TEXT:B &:1,2 => limit at 9;
floating 10 CCB: LEN:1 .:0,7 TEXT:B &:1,2 => limit at 10;
floating 11 CCB: LEN:1 .:0,7 TEXT:B &:1,2 => way 1 3 at 11 with 7 1 2; limit at 11 with 7 1 2;
floating 12 CCB: LEN:1 .:0,7 TEXT:B &:1,2 => way 1 3 at 11 with 7 1 2; limit at 12 with 7 1 2;
floating 13 CCB: LEN:1 .:0,7 TEXT:B &:1,2 => way 1 3 at 11 with 7 1 2; limit at 13 with 7 1 2;
floating 14 CCB: LEN:1 .:0,7 TEXT:B &:1,2 => way 1 3 at 11 with 7 1 2; limit at 14 with 7 1 2;
floating 15 CCB: LEN:1 .:0,7 TEXT:B &:1,2 => way 1 3 at 11 with 7 1 2; limit at 15 with 7 1 2;
floating 16 CCB: LEN:1 .:0,7 TEXT:B &:1,2 => way 1 3 at 11 with 7 1 2; limit at 16 with 7 1 2;
floating 17 CCB: LEN:1 .:0,7 TEXT:B &:1,2 => way 1 3 at 11 with 7 1 2; limit at 17 with 7 1 2;
floating 18 CCB: LEN:1 .:0,7 TEXT:B &:1,2 => way 1 3 at 11 with 7 1 2; limit at 18 with 7 1 2;
floating 19 CCB: LEN:1 .:0,7 TEXT:B &:1,2 => way 1 3 at 11 with 7 1 2; limit at 19 with 7 1 2;
floating 20 CCB: LEN:1 .:0,7 TEXT:B &:1,2 => way 1 3 at 11 with 7 1 2; limit at 20 with 7 1 2;
floating 21 CCB: LEN:1 .:0,7 TEXT:B &:1,2 => way 1 3 at 11 with 7 1 2; exhausted at 21 with 7 1 2;
floating 0 DADB: POS:0 TEXT:D |:0,1 TEXT:B &:2,3 => limit at 0;
floating 1 DADB: POS:0 TEXT:D |:0,1 TEXT:B &:2,3 => limit at 1;
floating 2 DADB: POS:0 TEXT:D |:0,1 TEXT:B &:2,3 => limit at 2;
floating 3 DADB: POS:0 TEXT:D |:0,1 TEXT:B &:2,3 => limit at 3;
floating 4 DADB: POS:0 TEXT:D |:0,1 TEXT:B &:2,3 => limit at 4;
floating 5 DADB: POS:0 TEXT:D |:0,1 TEXT:B &:2,3 => limit at 5;
floating 6 DADB: POS:0 TEXT:D |:0,1 TEXT:B &:2,3 => limit at 6;
floating 7 DADB: POS:0 TEXT:D |:0,1 TEXT:B &:2,3 => limit at 7;
floating 8 DADB: POS:0 TEXT:D |:0,1 TEXT:B &:2,3 => limit at 8;
floating 9 DADB: POS:0 TEXT:D |:0,1 TEXT:B &:2,3 => limit at 9;
floating 10 DADB: POS:0 TEXT:D |:0,1 TEXT:B &:2,3 => limit at 10;
floating 11 DADB: POS:0 TEXT:D |:0,1 TEXT:B &:2,3 => limit at 11;
floating 12 DADB: POS:0 TEXT:D |:0,1 TEXT:B &:2,3 => limit at 12;
floating 13 DADB: POS:0 TEXT:D |:0,1 TEXT:B &:2,3 => limit at 13;
floating 14 DADB: POS:0 TEXT:D |:0,1 TEXT:B &:2,3 => limit at 14;
floating 15 DADB: POS:0 TEXT:D |:0,1 TEXT:B &:2,3 => limit at 15;
floating 16 DADB: POS:0 TEXT:D |:0,1 TEXT:B &:2,3 => limit at 16;
floating 17 DADB: POS:0 TEXT:D |:0,1 TEXT:B &:2,3 => limit at 17;
floating 18 DADB: POS:0 TEXT:D |:0,1 TEXT:B &:2,3 => limit at 18;
floating 19 DADB: POS:0 TEXT:D |:0,1 TEXT:B &:2,3 => limit at 19;
floating 20 DADB: POS:0 TEXT:D |:0,1 TEXT:B &:2,3 => way 2 4 at 20; limit at 20;
floating 21 DADB: POS:0 TEXT:D |:0,1 TEXT:B &:2,3 => way 2 4 at 20; limit at 21;
floating 22 DADB: POS:0 TEXT:D |:0,1 TEXT:B &:2,3 => way 2 4 at 20; limit at 22;
floating 23 DADB: POS:0 TEXT:D |:0,1 TEXT:B &:2,3 => way 2 4 at 20; limit at 23;
floating 24 DADB: POS:0 TEXT:D |:0,1 TEXT:B &:2,3 => way 2 4 at 20; limit at 24;
floating 25 DADB: POS:0 TEXT:D |:0,1 TEXT:B &:2,3 => way 2 4 at 20; limit at 25;
floating 26 DADB: POS:0 TEXT:D |:0,1 TEXT:B &:2,3 => way 2 4 at 20; limit at 26;
floating 27 DADB: POS:0 TEXT:D |:0,1 TEXT:B &:2,3 => way 2 4 at 20; limit at 27;
floating 28 DADB: POS:0 TEXT:D |:0,1 TEXT:B &:2,3 => way 2 4 at 20; limit at 28;
floating 29 DADB: POS:0 TEXT:D |:0,1 TEXT:B &:2,3 => way 2 4 at 20; limit at 29;
floating 30 DADB: POS:0 TEXT:D |:0,1 TEXT:B &:2,3 => way 2 4 at 20; limit at 30;
floating 31 DADB: POS:0 TEXT:D |:0,1 TEXT:B &:2,3 => way 2 4 at 20; limit at 31;
floating 32 DADB: POS:0 TEXT:D |:0,1 TEXT:B &:2,3 => way 2 4 at 20; exhausted at 32;
";

/// Counts, sets and texts in a row, also where the search fails at its first, its second or its third part, where it
/// leads to a way, and where more parts wait than are looked at.
const PARTS: &str = r"
floating 1000 AABCC: LEN:2 RPOS:0 &:0,1 => way 3 5 at 15; exhausted at 21;
floating 1000 AAB: SPAN:A TEXT:C &:0,1 => exhausted at 13;
floating 1000 DADB: TAB:2 TEXT:B &:0,1 => exhausted at 17;
floating 1000 ABAC: TEXT:A TEXT:B &:0,1 TEXT:C &:2,3 => exhausted at 22;
floating 1000 ABAC: TEXT:B TEXT:A &:0,1 TEXT:B &:2,3 => exhausted at 21;
floating 1000 ABAC: TEXT:A ANY:CD &:0,1 .:2,7 => way 2 4 at 14 with 7 2 4; exhausted at 22 with 7 2 4;
floating 1000 AAAB: NOTANY:B NOTANY:B &:0,1 TEXT:B &:2,3 => way 1 4 at 11; exhausted at 24;
floating 1000 AB,B: BREAK:, .:0,7 TEXT:,A &:1,2 => exhausted at 25;
floating 1000 CABAB: TEXT:A TEXT:C |:0,1 TEXT:B &:2,3 => way 1 3 at 11; way 3 5 at 24; exhausted at 38;
floating 1000 ABC: RTAB:1 TEXT:B &:0,1 => exhausted at 14;
floating 1000 AA: POS:1 TEXT:A &:0,1 LEN:1 &:2,3 => exhausted at 13;
floating 1000 BAAA: SPAN:A RPOS:1 &:0,1 => exhausted at 17;
floating 1000 : LEN:0 TEXT:A &:0,1 => exhausted at 3;
floating 1000 AAAAAA: TEXT:A TEXT:A &:0,1 TEXT:A &:2,3 TEXT:B &:4,5 => exhausted at 49;
floating 1000 AAAAAAAAAAAAAAAAAAAAAA: TEXT:A TEXT:A &:0,1 TEXT:A &:2,3 TEXT:A &:4,5 TEXT:A &:6,7 TEXT:A &:8,9 TEXT:A &:10,11 TEXT:A &:12,13 TEXT:A &:14,15 TEXT:A &:16,17 TEXT:A &:18,19 TEXT:A &:20,21 TEXT:A &:22,23 TEXT:A &:24,25 TEXT:A &:26,27 TEXT:A &:28,29 TEXT:A &:30,31 TEXT:A &:32,33 TEXT:A &:34,35 TEXT:B &:36,37 => exhausted at 729;
";

#[test]
fn starts_of_one_way_that_fail(rt: HostRuntime) -> Result<(), Fail> {
    check_blocks::<Matches, _>(&rt, &[LIMITS, PARTS])
}
