//! Ends of ARB behind which the search fails at once are passed, with their steps.
use super::matches::Matches;
use super::rows::check_blocks;
use std::process::Abort;
use std::test::Fail;

/// They are ARB . X 'B', where each end of ARB before the last takes three steps, the end of the assigned part among
/// them, and ARB ('A' | 'B'), each with all limits up to the last step.
const LIMITS: &str = r"
anchored 0 CCB: ARB .:0,7 TEXT:B &:1,2 => limit at 0;
anchored 1 CCB: ARB .:0,7 TEXT:B &:1,2 => limit at 1;
anchored 2 CCB: ARB .:0,7 TEXT:B &:1,2 => limit at 2;
anchored 3 CCB: ARB .:0,7 TEXT:B &:1,2 => limit at 3;
anchored 4 CCB: ARB .:0,7 TEXT:B &:1,2 => limit at 4;
anchored 5 CCB: ARB .:0,7 TEXT:B &:1,2 => limit at 5;
anchored 6 CCB: ARB .:0,7 TEXT:B &:1,2 => limit at 6;
anchored 7 CCB: ARB .:0,7 TEXT:B &:1,2 => limit at 7;
anchored 8 CCB: ARB .:0,7 TEXT:B &:1,2 => limit at 8;
anchored 9 CCB: ARB .:0,7 TEXT:B &:1,2 => limit at 9;
anchored 10 CCB: ARB .:0,7 TEXT:B &:1,2 => limit at 10;
anchored 11 CCB: ARB .:0,7 TEXT:B &:1,2 => way 0 3 at 11 with 7 0 2; limit at 11 with 7 0 2;
anchored 12 CCB: ARB .:0,7 TEXT:B &:1,2 => way 0 3 at 11 with 7 0 2; limit at 12 with 7 0 2;
anchored 13 CCB: ARB .:0,7 TEXT:B &:1,2 => way 0 3 at 11 with 7 0 2; limit at 13 with 7 0 2;
anchored 14 CCB: ARB .:0,7 TEXT:B &:1,2 => way 0 3 at 11 with 7 0 2; exhausted at 14 with 7 0 2;
anchored 0 CDB: ARB TEXT:A TEXT:B |:1,2 &:0,3 => limit at 0;
anchored 1 CDB: ARB TEXT:A TEXT:B |:1,2 &:0,3 => limit at 1;
anchored 2 CDB: ARB TEXT:A TEXT:B |:1,2 &:0,3 => limit at 2;
anchored 3 CDB: ARB TEXT:A TEXT:B |:1,2 &:0,3 => limit at 3;
anchored 4 CDB: ARB TEXT:A TEXT:B |:1,2 &:0,3 => limit at 4;
anchored 5 CDB: ARB TEXT:A TEXT:B |:1,2 &:0,3 => limit at 5;
anchored 6 CDB: ARB TEXT:A TEXT:B |:1,2 &:0,3 => limit at 6;
anchored 7 CDB: ARB TEXT:A TEXT:B |:1,2 &:0,3 => limit at 7;
anchored 8 CDB: ARB TEXT:A TEXT:B |:1,2 &:0,3 => limit at 8;
anchored 9 CDB: ARB TEXT:A TEXT:B |:1,2 &:0,3 => limit at 9;
anchored 10 CDB: ARB TEXT:A TEXT:B |:1,2 &:0,3 => limit at 10;
anchored 11 CDB: ARB TEXT:A TEXT:B |:1,2 &:0,3 => limit at 11;
anchored 12 CDB: ARB TEXT:A TEXT:B |:1,2 &:0,3 => limit at 12;
anchored 13 CDB: ARB TEXT:A TEXT:B |:1,2 &:0,3 => limit at 13;
anchored 14 CDB: ARB TEXT:A TEXT:B |:1,2 &:0,3 => limit at 14;
anchored 15 CDB: ARB TEXT:A TEXT:B |:1,2 &:0,3 => limit at 15;
anchored 16 CDB: ARB TEXT:A TEXT:B |:1,2 &:0,3 => way 0 3 at 16; limit at 16;
anchored 17 CDB: ARB TEXT:A TEXT:B |:1,2 &:0,3 => way 0 3 at 16; limit at 17;
anchored 18 CDB: ARB TEXT:A TEXT:B |:1,2 &:0,3 => way 0 3 at 16; limit at 18;
anchored 19 CDB: ARB TEXT:A TEXT:B |:1,2 &:0,3 => way 0 3 at 16; limit at 19;
anchored 20 CDB: ARB TEXT:A TEXT:B |:1,2 &:0,3 => way 0 3 at 16; limit at 20;
anchored 21 CDB: ARB TEXT:A TEXT:B |:1,2 &:0,3 => way 0 3 at 16; exhausted at 21;
";

/// Texts, sets, counts and choices behind an ARB, also where nothing is passed, where an end is assigned twice, where an
/// ARB comes behind an ARB, where one of a choice's first bytes stands and its sides fail nevertheless, and where the
/// limit comes amid the ends that are passed.
const PARTS: &str = r"
floating 1000 CCBCB: ARB TEXT:B &:0,1 => way 0 3 at 7; way 0 5 at 11; way 1 3 at 19; way 1 5 at 23; way 2 3 at 29; way 2 5 at 33; way 3 5 at 41; way 4 5 at 47; exhausted at 53;
floating 1000 CCC: ARB TEXT:B &:0,1 => exhausted at 27;
floating 1000 : ARB TEXT:B &:0,1 => exhausted at 3;
floating 1000 B: ARB TEXT:B &:0,1 TEXT:B &:2,3 => exhausted at 12;
floating 1000 CCBCB: POS:0 ARB .:1,7 &:0,2 TEXT:B &:3,4 RPOS:0 &:5,6 => way 0 5 at 22 with 7 0 4; exhausted at 50 with 7 0 4;
floating 1000 ACAB: TEXT:A ARB &:0,1 TEXT:B &:2,3 => way 0 4 at 9; way 2 4 at 21; exhausted at 31;
anchored 1000 ABACB: TEXT:A ARB .:1,7 &:0,2 TEXT:B .:4,8 &:3,5 => way 0 2 at 9 with 7 1 1 with 8 1 2; way 0 5 at 22 with 7 1 4 with 8 4 5; exhausted at 26 with 7 1 4 with 8 4 5;
floating 1000 CABAC: ARB TEXT:A TEXT:B |:1,2 &:0,3 => way 0 2 at 9; way 0 3 at 16; way 0 4 at 19; way 1 2 at 36; way 1 3 at 43; way 1 4 at 46; way 2 3 at 65; way 2 4 at 68; way 3 4 at 85; exhausted at 116;
floating 1000 CCAB: ARB .:0,7 TEXT:A TEXT:C &:2,3 TEXT:B |:4,5 &:1,6 => way 0 4 at 31 with 7 0 3; way 1 4 at 63 with 7 1 3; way 2 4 at 88 with 7 2 3; way 3 4 at 105 with 7 3 3; exhausted at 122 with 7 3 3;
anchored 1000 CCAB: ARB TEXT:A TEXT:CC |:1,2 TEXT:AB |:3,4 &:0,5 => way 0 2 at 7; way 0 3 at 21; way 0 4 at 25; exhausted at 41;
floating 1000 CAB: ARB .:0,7 .:1,8 TEXT:B &:2,3 => way 0 3 at 15 with 7 0 2 with 8 0 2; way 1 3 at 31 with 7 1 2 with 8 1 2; way 2 3 at 43 with 7 2 2 with 8 2 2; exhausted at 55 with 7 2 2 with 8 2 2;
anchored 1000 CBAB: ARB ARB &:0,1 TEXT:B &:2,3 => way 0 2 at 7; way 0 4 at 11; way 0 2 at 16; way 0 4 at 20; way 0 4 at 27; way 0 4 at 32; exhausted at 37;
anchored 1000 CBAB: ARB TEXT:B &:0,1 ARB &:2,3 TEXT:A &:4,5 => way 0 3 at 9; exhausted at 21;
floating 1000 AABB: ARB ANY:B &:0,1 => way 0 3 at 7; way 0 4 at 9; way 1 3 at 17; way 1 4 at 19; way 2 3 at 25; way 2 4 at 27; way 3 4 at 33; exhausted at 39;
floating 1000 AABA: ARB NOTANY:A &:0,1 => way 0 3 at 7; way 1 3 at 17; way 2 3 at 25; exhausted at 39;
floating 1000 CCAAC: ARB SPAN:A &:0,1 => way 0 4 at 7; way 0 4 at 9; way 1 4 at 19; way 1 4 at 21; way 2 4 at 29; way 2 4 at 31; way 3 4 at 39; exhausted at 53;
anchored 1000 CC,CC: ARB BREAK:, &:0,1 => way 0 2 at 3; way 0 2 at 5; way 0 2 at 7; exhausted at 13;
anchored 1000 ABCDE: ARB LEN:2 &:0,1 RPOS:0 &:2,3 => way 0 5 at 14; exhausted at 18;
anchored 1000 ABCDE: ARB RPOS:1 &:0,1 => way 0 4 at 11; exhausted at 13;
anchored 1000 ABCDE: ARB POS:3 &:0,1 => way 0 3 at 9; exhausted at 13;
anchored 1000 ABCDE: ARB TAB:2 &:0,1 => way 0 2 at 3; way 0 2 at 5; way 0 2 at 7; exhausted at 13;
anchored 1000 ABCB: ARB TEXT:B .:1,7 &:0,2 RPOS:0 &:3,4 => way 0 4 at 18 with 7 3 4; exhausted at 21 with 7 3 4;
anchored 1000 CBCB: TEXT:C ARB |:0,1 TEXT:B &:2,3 => way 0 2 at 4; way 0 2 at 9; way 0 4 at 13; exhausted at 15;
anchored 1000 CCCA: ARB TEXT:B &:0,1 ARB TEXT:A &:3,4 |:2,5 => way 0 4 at 22; exhausted at 24;
anchored 1000 CCCACB: ARB TEXT:A &:0,1 .:2,7 ARB &:3,4 TEXT:B &:5,6 => way 0 6 at 17 with 7 0 4; exhausted at 25 with 7 0 4;
anchored 11 CCCCCCCCCC: ARB TEXT:B &:0,1 => limit at 11;
anchored 12 CCCCCCCCCC: ARB TEXT:B &:0,1 => limit at 12;
anchored 22 CCCCCCCCCCB: ARB TEXT:B &:0,1 => limit at 22;
anchored 23 CCCCCCCCCCB: ARB TEXT:B &:0,1 => way 0 11 at 23; limit at 23;
anchored 24 CCCCCCCCCCB: ARB TEXT:B &:0,1 => way 0 11 at 23; limit at 24;
";

#[test]
fn ends_of_arb_that_fail(rt: HostRuntime) -> Result<(), Fail> {
    check_blocks::<Matches, _>(&rt, &[LIMITS, PARTS])
}
