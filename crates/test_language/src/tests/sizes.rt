//! Long expressions and long subjects, and as many symbols as there may be.
use super::asking::{Programs, Ways};
use super::rows::{check_blocks, check_rows};
use std::test::Fail;

/// Long chains of signs and operators, evaluated by a loop.
const LONG_EXPRESSIONS: &str = r"
--anchor --steps 1000 ; \<7000:+\>1 ; 1 => way 0 1\nexhausted\n
--anchor --steps 1000 ; \<1900:1 + \>1 ; 1901 => way 0 4\nexhausted\n
";

const SIZES_AT_THEIR_LIMITS: &str = r"
--anchor --steps 1000 ; LEN(1000000) ; \<1000000:A\> => way 0 1000000\nexhausted\n
--anchor --steps 1000 ; LEN(1) ; \<1000001:A\> => status 1: snobol4: error 8\n
--anchor --steps 1000 ; 'A ; \<1000001:A\> => status 2: snobol4: syntax 1 at line 1\n
--anchor --steps 1000 ; \<41:(\> ;  => status 2: snobol4: too large at line 1\n
";

/// Many assignments of one part, and a long line of OUTPUT.
const LONG_ASSIGNMENTS: &str = r"
--anchor --steps 3801 ; LEN(1)\<1900: . X\> ; A => way 0 1\<1900: X=0-1\>\nexhausted\n
--anchor --steps 3800 ; LEN(1)\<1900: . X\> ; A => limit\n
--anchor --steps 1000 ; REM $ OUTPUT ; \<1000000:A\> => set OUTPUT 0 1000000\n\<1000000:A\>\nway 0 1000000\nexhausted\n
";

/// ~ turns failure round as often as it stands there.
const LONG_NEGATIONS: &str = r"
--anchor --steps 1000 ; \<7001:~\>INPUT ;  => way 0 0\nexhausted\n
--anchor --steps 1000 ; \<7000:~\>INPUT ;  => exhausted\n
";

/// The names of a program, that of its item among them, are symbols before its first statement: with N, LT, X, Z and
/// the eight subscripts there are 21, so that 999,979 more have room, and not the last one of 999,980.
const NAMES_OF_A_PROGRAM: &str = r"
L N = LT(N,99998) N + 1 :F(E)\n X = $('a' N) $('b' N) $('c' N) $('d' N) $('e' N) $('f' N) $('g' N) $('h' N) $('i' N) $('j' N) :(L)\nE Z<A,B,C,D,F,G,H,I>\nEND\n => status 1: snobol4: error 9 in statement 2\n
";

#[test]
fn rows(rt: HostRuntime) -> Result<(), Fail> {
    check_blocks::<Ways, _>(
        &rt,
        &[
            LONG_EXPRESSIONS,
            SIZES_AT_THEIR_LIMITS,
            LONG_ASSIGNMENTS,
            LONG_NEGATIONS,
        ],
    )?;
    check_rows::<Programs, _>(&rt, NAMES_OF_A_PROGRAM)
}
