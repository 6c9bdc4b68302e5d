//! Each primitive, and numbers as patterns.
use super::asking::Ways;
use super::rows::check_blocks;
use std::test::Fail;

const NUMBERS_AS_PATTERNS: &str = r"
--anchor ; 1 +2 ; 12 => way 0 2\nexhausted\n
--anchor ; 2 ** 3 ** 2 ; 512 => way 0 3\nexhausted\n
--anchor ; 2 * 3 / 2 * 2 ; 1 => way 0 1\nexhausted\n
--anchor -- ; 1 - 2 - 3 ; -4 => way 0 2\nexhausted\n
--anchor -- ; -7 / 2 ; -3 => way 0 2\nexhausted\n
--anchor ; 0 ** 0 ; 1 => way 0 1\nexhausted\n
--anchor ; +'007' ; 7 => way 0 1\nexhausted\n
--anchor ; LEN(1 + 1) ; AB => way 0 2\nexhausted\n
";

const EVERY_PRIMITIVE: &str = r"
ARB ; AB => way 0 0\nway 0 1\nway 0 2\nway 1 1\nway 1 2\nway 2 2\nexhausted\n
--anchor ; BAL ; (A)B => way 0 3\nway 0 4\nexhausted\n
--anchor ; BAL ; ()) => way 0 2\nexhausted\n
--anchor ; BAL ; ) => exhausted\n
--anchor ; BAL ; )( => exhausted\n
--anchor ; LEN(2) TAB(1) ; ABC => exhausted\n
BREAK(',') ; ABC => exhausted\n
--anchor ; BREAK(',') ; ,A => way 0 0\nexhausted\n
--anchor --steps 3 ; RTAB(1) ANY('BC') ; ABC => way 0 3\nexhausted\n
--anchor --steps 2 ; RTAB(1) ANY('BC') ; ABC => limit\n
--anchor ; SPAN('AB') LEN(1) ; ABAC => way 0 4\nexhausted\n
--anchor ; SPAN('AB') LEN(1) ; ABA => exhausted\n
POS(1) REM ; ABC => way 1 3\nexhausted\n
--anchor ; NOTANY('A') RPOS(0) ; B => way 0 1\nexhausted\n
";

#[test]
fn rows(rt: HostRuntime) -> Result<(), Fail> {
    check_blocks::<Ways, _>(&rt, &[NUMBERS_AS_PATTERNS, EVERY_PRIMITIVE])
}
