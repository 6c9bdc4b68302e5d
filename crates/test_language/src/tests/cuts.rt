//! FENCE(P) and BREAKX, worked out by hand.
use super::asking::{Programs, Values, Ways};
use super::rows::{check_blocks, check_rows};
use std::test::Fail;

/// Each byte of a set is a stop.
const STOPS_AT_EACH: &str = r"
--anchor --steps 5 ; BREAKX('B') 'B' ; ABAB => way 0 2\nway 0 4\nexhausted\n
--anchor --steps 4 ; BREAKX('B') 'B' ; ABAB => way 0 2\nlimit\n
--anchor ; BREAKX('B') ; BB => way 0 0\nway 0 1\nexhausted\n
--anchor ; BREAKX('B') ; AA => exhausted\n
--anchor ; LEN(1) $ S BREAKX(*S) 'BC' ; BABBC => set S 0 1\nway 0 5\nexhausted\n
--anchor ; BREAKX('') ; A => status 1: snobol4: error 6\n
--anchor ; BREAKX(TABLE()) ; A => status 1: snobol4: error 1\n
--anchor ; BREAKX(*X) ; A => status 1: snobol4: error 6\n
";

/// A cut has one way.
const CUTS: &str = r"
--anchor --steps 6 ; FENCE('AB' | 'A') 'C' ; ABC => way 0 3\nexhausted\n
--anchor --steps 5 ; FENCE('AB' | 'A') 'C' ; ABC => limit\n
--anchor --steps 6 ; FENCE('A' | 'AB') 'C' ; ABC => exhausted\n
--anchor --steps 5 ; FENCE('A' | 'AB') 'C' ; ABC => limit\n
--steps 34 ; FENCE('A' | 'AB') 'C' ; ABAC => way 2 4\nexhausted\n
--steps 33 ; FENCE('A' | 'AB') 'C' ; ABAC => way 2 4\nlimit\n
--anchor --steps 8 ; FENCE('A') 'X' | 'AB' ; AB => way 0 2\nexhausted\n
--anchor --steps 7 ; FENCE('A') 'X' | 'AB' ; AB => limit\n
--anchor --steps 13 ; FENCE(FENCE('A' | 'AB') ('C' | 'BC')) REM ; ABC => way 0 3\nexhausted\n
--anchor --steps 12 ; FENCE(FENCE('A' | 'AB') ('C' | 'BC')) REM ; ABC => limit\n
--anchor --steps 5 ; FENCE(ARBNO('A')) 'A' ; AA => way 0 1\nexhausted\n
--anchor ; FENCE('X' | 'A') ; A => way 0 1\nexhausted\n
--anchor --steps 28 ; ARBNO(FENCE('A' | 'AA')) ; AAA => way 0 0\nway 0 1\nway 0 2\nway 0 3\nexhausted\n
--anchor --steps 27 ; ARBNO(FENCE('A' | 'AA')) ; AAA => way 0 0\nway 0 1\nway 0 2\nway 0 3\nlimit\n
--anchor ; FENCE() ; A => way 0 0\nexhausted\n
--anchor ; FENCE(1,2) ; 12 => way 0 1\nexhausted\n
";

/// A bare FENCE inside a cut aborts the match until the cut has ended, and then it is cut off as well.
const BARE_FENCES_IN_CUTS: &str = r"
--anchor --steps 5 ; FENCE('A' FENCE) ; AB => way 0 1\nexhausted\n
--anchor --steps 4 ; FENCE('A' FENCE) ; AB => limit\n
FENCE(FENCE 'C') 'D' ; AB => aborted\n
--anchor ; FENCE(FENCE 'A') 'D' | 'AB' ; AB => way 0 2\nexhausted\n
--anchor ; FENCE FENCE('A' | 'AB') 'C' ; ABC => aborted\n
";

/// What was told inside a cut stands, and what waits is that of the way on which the cut ended.
const ASSIGNMENTS_IN_CUTS: &str = r"
--anchor --steps 8 ; FENCE(LEN(1) $ X | LEN(2) $ X) 'C' ; ABC => set X 0 1\nexhausted\n
--anchor ; FENCE('A' . X 'X' | 'AB' . Y) 'C' ; ABC => way 0 3 Y=0-2\nexhausted\n
--anchor ; FENCE('A' | 'AB') . X REM ; ABC => way 0 3 X=0-1\nexhausted\n
--anchor ; FENCE('A' | 'AB') $ X 'C' ; ABC => set X 0 1\nexhausted\n
--anchor ; FENCE(*FENCE('A' | 'AB') 'BC') ; ABC => way 0 3\nexhausted\n
--anchor ; FENCE(*FENCE('A' | 'AB') 'C') ; ABC => exhausted\n
--anchor ; FENCE(*TABLE()) ; A => status 1: snobol4: error 1\n
";

const PROGRAMS_WITH_CUTS: &str = r"
 &ANCHOR = 1\n P = FENCE('(' *P ')' | 'X')\n '((X))' P . W :F(END)\n OUTPUT = W\nEND\n => ((X))\n
 Q = FENCE('A' | 'AB')\n P = FENCE(*Q 'C')\n 'ABC' P :S(END)\n OUTPUT = 'none'\nEND\n => none\n
 S = 'AAB'\n S FENCE(SPAN('A')) = 'x'\n OUTPUT = S\nEND\n => xB\n
 DEFINE('F()')\n 'AB' FENCE('A' *F()) . W :F(END)\n OUTPUT = W V :(END)\nF 'XYZ' FENCE('XY' | 'X') . V\n F = 'B' :(RETURN)\nEND\n => ABXY\n
 X = TABLE()\n 'A' FENCE(*X)\nEND\n => status 1: snobol4: error 1 in statement 2\n
 'name=text' BREAKX('=') . K '=' REM . V\n OUTPUT = V ' ' K\nEND\n => text name\n
";

/// The variable FENCE and the function don't touch, and what a program defines hides the functions.
const NAMES_OF_CUTS: &str = r"
 FENCE = 'A'\n 'AB' FENCE('A' | 'B') . X\n OUTPUT = FENCE X\nEND\n => AA\n
 DEFINE('FENCE(S)')\n OUTPUT = FENCE('A') :(END)\nFENCE FENCE = 'mine ' S :(RETURN)\nEND\n => mine A\n
 DEFINE('BREAKX(S)')\n OUTPUT = BREAKX('A') :(END)\nBREAKX BREAKX = 'mine ' S :(RETURN)\nEND\n => mine A\n
";

const TYPES_OF_CUTS: &str = r"
DATATYPE(FENCE('A')) => <PATTERN>
DATATYPE(FENCE) => <PATTERN>
DATATYPE(BREAKX('A')) => <PATTERN>
DATATYPE(BREAKX(*X)) => <PATTERN>
FENCE(TABLE()) => error 1
BREAKX('') => error 6
BREAKX() => error 6
BREAKX(TABLE()) => error 1
BREAKX(ARB) => error 1
";

#[test]
fn rows(rt: HostRuntime) -> Result<(), Fail> {
    check_blocks::<Ways, _>(
        &rt,
        &[
            STOPS_AT_EACH,
            CUTS,
            BARE_FENCES_IN_CUTS,
            ASSIGNMENTS_IN_CUTS,
        ],
    )?;
    check_blocks::<Programs, _>(&rt, &[PROGRAMS_WITH_CUTS, NAMES_OF_CUTS])?;
    check_rows::<Values, _>(&rt, TYPES_OF_CUTS)
}
