//! Assignments to variables, to the cursor's place and to OUTPUT, and the lines that tell them.
use super::asking::Ways;
use super::rows::check_blocks;
use std::test::Fail;

const IMMEDIATE_ASSIGNMENTS: &str = r"
LEN(1) $ X FAIL ; AB => set X 0 1\nset X 1 2\nexhausted\n
LEN(1) $ X ; AB => set X 0 1\nway 0 1\nset X 1 2\nway 1 2\nexhausted\n
'B' $ X ; ABC => set X 1 2\nway 1 2\nexhausted\n
--anchor ; ARB $ X ; AB => set X 0 0\nway 0 0\nset X 0 1\nway 0 1\nset X 0 2\nway 0 2\nexhausted\n
--anchor ; ('A' $ X 'C' | 'A' $ Y) 'B' ; AB => set X 0 1\nset Y 0 1\nway 0 2\nexhausted\n
--anchor ; (LEN(1) $ X LEN(1)) $ Y ; AB => set X 0 1\nset Y 0 2\nway 0 2\nexhausted\n
--anchor ; LEN(1) $ X $ Y ; A => set X 0 1\nset Y 0 1\nway 0 1\nexhausted\n
--anchor ; LEN(1) $ X FENCE FAIL ; A => set X 0 1\naborted\n
--anchor ; '' $ X ; A => set X 0 0\nway 0 0\nexhausted\n
--anchor ; 12 $ X ; 12 => set X 0 2\nway 0 2\nexhausted\n
";

const PENDING_ASSIGNMENTS: &str = r"
(LEN(1) . A LEN(1)) . B ; XY => way 0 2 A=0-1 B=0-2\nexhausted\n
--anchor ; LEN(1) $ X . Y ; AB => set X 0 1\nway 0 1 Y=0-1\nexhausted\n
--anchor ; LEN(1) . X $ Y ; AB => set Y 0 1\nway 0 1 X=0-1\nexhausted\n
--anchor ; LEN(1) . A LEN(1) . B ; XY => way 0 2 A=0-1 B=1-2\nexhausted\n
--anchor ; LEN(1) . B . A ; X => way 0 1 B=0-1 A=0-1\nexhausted\n
--anchor ; LEN(1) . A LEN(1) . A ; XY => way 0 2 A=0-1 A=1-2\nexhausted\n
--anchor ; '' . X ; A => way 0 0 X=0-0\nexhausted\n
--anchor ; 12 . X ; 12 => way 0 2 X=0-2\nexhausted\n
--anchor ; Y . X ; A => way 0 0 X=0-0\nexhausted\n
";

/// What an abandoned choice left pending is gone.
const PENDING_ASSIGNMENTS_OF_ABANDONED_CHOICES: &str = r"
--anchor ; ('A' . X 'C' | 'A' . Y) 'B' ; AB => way 0 2 Y=0-1\nexhausted\n
--anchor ; LEN(1) . X | LEN(2) . Y ; AB => way 0 1 X=0-1\nway 0 2 Y=0-2\nexhausted\n
--anchor ; ARB . X ; AB => way 0 0 X=0-0\nway 0 1 X=0-1\nway 0 2 X=0-2\nexhausted\n
--anchor ; ARBNO(LEN(1) . X) ; AB => way 0 0\nway 0 1 X=0-1\nway 0 2 X=0-1 X=1-2\nexhausted\n
--anchor ; LEN(1) . X FAIL | 'A' ; A => way 0 1\nexhausted\n
";

const PLACES_OF_THE_CURSOR: &str = r"
@N 'B' ; AB => cursor N 0\ncursor N 1\nway 1 2\ncursor N 2\nexhausted\n
@N ;  => cursor N 0\nway 0 0\nexhausted\n
--anchor ; @A LEN(1) @B ; XY => cursor A 0\ncursor B 1\nway 0 1\nexhausted\n
--anchor ; @N . X ; A => cursor N 0\nway 0 0 X=0-0\nexhausted\n
--anchor ; LEN(1) @N $ X ; A => cursor N 1\nset X 1 1\nway 0 1\nexhausted\n
";

/// A value that OUTPUT is given is a line behind that of the event.
const LINES_OF_OUTPUT: &str = r"
@OUTPUT 'B' ; AB => cursor OUTPUT 0\n0\ncursor OUTPUT 1\n1\nway 1 2\ncursor OUTPUT 2\n2\nexhausted\n
LEN(1) $ OUTPUT FAIL ; AB => set OUTPUT 0 1\nA\nset OUTPUT 1 2\nB\nexhausted\n
--anchor ; LEN(1) $ OUTPUT LEN(1) ; AB => set OUTPUT 0 1\nA\nway 0 2\nexhausted\n
--anchor ; ARB $ OUTPUT ; A => set OUTPUT 0 0\n\nway 0 0\nset OUTPUT 0 1\nA\nway 0 1\nexhausted\n
--anchor ; LEN(1) $ $'OUTPUT' ; A => set OUTPUT 0 1\nA\nway 0 1\nexhausted\n
--anchor ; LEN(1) . OUTPUT ; A => way 0 1 OUTPUT=0-1\nexhausted\n
--anchor ; LEN(1) $ OUTPUTS ; A => set OUTPUTS 0 1\nway 0 1\nexhausted\n
--anchor ; LEN(1) $ output ; A => set output 0 1\nway 0 1\nexhausted\n
--anchor ; LEN(1) $ INPUT ; A => set INPUT 0 1\nway 0 1\nexhausted\n
--anchor ; @INPUT ; A => cursor INPUT 0\nway 0 0\nexhausted\n
";

/// The pattern is evaluated before a variable is set.
const VARIABLES_READ_BEFORE_THEY_ARE_SET: &str = r"
--anchor ; LEN(1) $ X X ; AA => set X 0 1\nway 0 1\nexhausted\n
--anchor ; LEN(1) $ OUTPUT OUTPUT ; AA => set OUTPUT 0 1\nA\nway 0 1\nexhausted\n
--anchor ; LEN(1) $ ARB ARB ; AB => set ARB 0 1\nway 0 1\nway 0 2\nexhausted\n
--anchor ; LEN(1) $ INPUT INPUT ; AA => exhausted\n
LEN(1) $ ARB ARB ; AB => set ARB 0 1\nway 0 1\nway 0 2\nset ARB 1 2\nway 1 2\nexhausted\n
";

const STEPS_OF_ASSIGNMENTS: &str = r"
--anchor --steps 5 ; LEN(1) $ X . Y ; AB => set X 0 1\nway 0 1 Y=0-1\nexhausted\n
--anchor --steps 4 ; LEN(1) $ X . Y ; AB => set X 0 1\nlimit\n
--anchor --steps 3 ; LEN(1) $ X . Y ; AB => limit\n
--steps 15 ; LEN(1) $ X FAIL ; AB => set X 0 1\nset X 1 2\nexhausted\n
--steps 14 ; LEN(1) $ X FAIL ; AB => set X 0 1\nset X 1 2\nlimit\n
--steps 11 ; @N 'B' ; AB => cursor N 0\ncursor N 1\nway 1 2\ncursor N 2\nexhausted\n
--steps 10 ; @N 'B' ; AB => cursor N 0\ncursor N 1\nway 1 2\ncursor N 2\nlimit\n
--steps 9 ; @N 'B' ; AB => cursor N 0\ncursor N 1\nway 1 2\nlimit\n
--anchor --steps 3 ; LEN(1) $ OUTPUT ; A => set OUTPUT 0 1\nA\nway 0 1\nexhausted\n
--anchor --steps 2 ; LEN(1) $ OUTPUT ; A => limit\n
";

#[test]
fn rows(rt: HostRuntime) -> Result<(), Fail> {
    check_blocks::<Ways, _>(
        &rt,
        &[
            IMMEDIATE_ASSIGNMENTS,
            PENDING_ASSIGNMENTS,
            PENDING_ASSIGNMENTS_OF_ABANDONED_CHOICES,
            PLACES_OF_THE_CURSOR,
            LINES_OF_OUTPUT,
            VARIABLES_READ_BEFORE_THEY_ARE_SET,
            STEPS_OF_ASSIGNMENTS,
        ],
    )
}
