//! Expressions that aren't evaluated until a match reaches them, worked out by hand.
use super::asking::{Programs, Values, Ways};
use super::rows::{check_blocks, check_rows};
use std::test::Fail;

/// An expression is evaluated each time that it is reached, and each time its value takes its place.
const EXPRESSIONS_IN_MATCHES: &str = r"
--anchor ; LEN(1) $ X *X ; AA => set X 0 1\nway 0 2\nexhausted\n
--anchor ; LEN(1) $ X *X ; AB => set X 0 1\nexhausted\n
LEN(1) $ X *X ; ABB => set X 0 1\nset X 1 2\nway 1 3\nset X 2 3\nexhausted\n
*X ; A => way 0 0\nway 1 1\nexhausted\n
--anchor ; *'A' ; A => way 0 1\nexhausted\n
--anchor ; *12 ; 12 => way 0 2\nexhausted\n
--anchor ; **'A' ; A => way 0 1\nexhausted\n
--anchor ; *LEN(1) *LEN(1) ; AB => way 0 2\nexhausted\n
--anchor ; *('A' | 'AB') ; AB => way 0 1\nway 0 2\nexhausted\n
--anchor ; *INPUT | 'A' ; A => way 0 1\nexhausted\n
--anchor ; *~'A' | 'A' ; A => way 0 1\nexhausted\n
--anchor ; *(LEN(1) . X) 'B' ; AB => way 0 2 X=0-1\nexhausted\n
--anchor ; LEN(1) $ OUTPUT *OUTPUT ; AA => set OUTPUT 0 1\nA\nway 0 2\nexhausted\n
--anchor ; ARBNO(*'A') 'B' ; AAB => way 0 3\nexhausted\n
--anchor ; *TABLE() ; A => status 1: snobol4: error 1\n
--anchor ; *(1 / 0) ; A => status 1: snobol4: error 3\n
--anchor ; 'B' *(1 / 0) ; A => exhausted\n
~*X => exhausted\n
--anchor ; ?*(1 / 0) ; A => way 0 0\nexhausted\n
";

/// The argument of a primitive may be such an expression. The second row's steps are the concatenation, `$`, LEN(1),
/// the close of `$`, the deferred LEN, and the LEN that takes its place.
const ARGUMENTS_IN_MATCHES: &str = r"
--anchor ; LEN(1) $ N LEN(*N) ; 2ABC => set N 0 1\nway 0 3\nexhausted\n
--anchor --steps 6 ; LEN(1) $ N LEN(*N) ; 2ABC => set N 0 1\nway 0 3\nexhausted\n
--anchor --steps 5 ; LEN(1) $ N LEN(*N) ; 2ABC => set N 0 1\nlimit\n
--anchor ; LEN(1) $ N LEN(*N) ; 0A => set N 0 1\nway 0 1\nexhausted\n
LEN(1) $ N POS(*N) ; 1A => set N 0 1\nway 0 1\nset N 1 2\nstatus 1: snobol4: error 1\n
--anchor ; LEN(1) $ S SPAN(*S) ; BBBA => set S 0 1\nway 0 3\nexhausted\n
--anchor ; LEN(1) $ S BREAK(*S) LEN(1) ; BAAB => set S 0 1\nway 0 4\nexhausted\n
--anchor ; RTAB(*1) ; ABC => way 0 2\nexhausted\n
--anchor ; ANY(*X) ; A => status 1: snobol4: error 6\n
--anchor ; LEN(*'-1') ; A => status 1: snobol4: error 7\n
--anchor ; LEN(*LEN(1)) ; A => status 1: snobol4: error 1\n
--anchor ; LEN(**1) ; A => status 1: snobol4: error 1\n
--anchor ; NOTANY(*INPUT) | REM ; A => way 0 1\nexhausted\n
";

const EXPRESSIONS_AS_VALUES: &str = r"
DATATYPE(*X) => <EXPRESSION>
DATATYPE(*X 'A') => <PATTERN>
DATATYPE(*X | 'A') => <PATTERN>
DATATYPE(*X '') => <EXPRESSION>
DATATYPE(*X . Y) => <PATTERN>
DATATYPE(LEN(*X)) => <PATTERN>
DATATYPE(CONVERT(*X,'PATTERN')) => <PATTERN>
DATATYPE(ARBNO(*X)) => <PATTERN>
CONVERT(*X,'STRING') => fails
IDENT(*X,*X) => error 1
DIFFER(*X,1) => <>
*X + 1 => error 1
*X => error 1
?*X => <>
~*X => fails
";

/// A pattern may name itself, since its name is read only when a match comes to it.
const PROGRAMS_WITH_EXPRESSIONS: &str = r"
 &ANCHOR = 1\n P = '(' *P ')' | 'X'\n '((X))' P . W :F(END)\n OUTPUT = W\nEND\n => ((X))\n
--match-steps 300 ;  P = *P 'A' | 'A'\n 'A' P\nEND\n => status 5: snobol4: error 21 in statement 2\n
 P = *P 'A' | 'A'\n 'A' P\nEND\n => status 5: snobol4: error 21 in statement 2\n
--match-steps 1000 ;  P = *Q\n Q = *P\n 'A' P\nEND\n => status 5: snobol4: error 21 in statement 3\n
 P = *Y\n Y = 'B'\n 'AB' P . Z\n Y = 'A'\n 'AB' P . W\n OUTPUT = Z W\nEND\n => BA\n
 'ABB' LEN(1) $ X *X . Y\n OUTPUT = X Y\nEND\n => BB\n
 X = *(1 / 0)\n 'A' 'B' X :S(END)\n OUTPUT = 'not reached'\nEND\n => not reached\n
 'A' *(1 / 0)\nEND\n => status 1: snobol4: error 3 in statement 1\n
 'A' *INPUT :S(END)\n OUTPUT = 'fails'\nEND\n => fails\n
 'AB' LEN(1) *INPUT . X\n OUTPUT = X\nEND\n <- B\n => B\n
 T = TABLE()\n T<*X> = 1\nEND\n => status 1: snobol4: error 1 in statement 2\n
 S = 'AXB'\n C = 'X'\n S *C = '-'\n OUTPUT = S\nEND\n => A-B\n
";

/// A variable alone gives what it holds when the match comes to it, of whatever type that is.
const VARIABLES_IN_MATCHES: &str = r"
 X = LEN(3)\n 'ABAB' FENCE LEN(1) $ X LEN(1) *X . Y\n OUTPUT = Y\nEND\n => A\n
 X = 'A'\n 'ABB' FENCE *X LEN(1) $ X *X . Y\n OUTPUT = Y\nEND\n => B\n
 DEFINE('F()') :(M)\nF X = 'C' :(RETURN)\nM X = 'A'\n 'ABC' *X 'B' *F() *X . Y\n OUTPUT = Y\nEND\n => C\n
 'AB' FENCE *X 'A' . Y\n OUTPUT = Y\nEND\n => A\n
 X =\n 'AB' FENCE *X 'A' . Y\n OUTPUT = Y\nEND\n => A\n
 N = 12\n '0123' *N . Y\n OUTPUT = Y\nEND\n => 12\n
 N = -3\n 'A-3B' *N . Y\n OUTPUT = Y\nEND\n => -3\n
 X = 'ABCDEFGHIJKLMNOPQRSTUVWXYZ'\n 'aABCDEFGHIJKLMNOPQRSTUVWXYZb' *X 'b' . Y\n OUTPUT = Y\nEND\n => b\n
 X = *Y\n Y = 'B'\n 'AB' LEN(1) *X . Z\n OUTPUT = Z\nEND\n => B\n
 'ABC' LEN(1) *REM . Y\n OUTPUT = Y\nEND\n => BC\n
 &ANCHOR = 1\n '1' *&ANCHOR . Y\n OUTPUT = Y\nEND\n => 1\n
 A = ARRAY(2)\n 'AB' *A\nEND\n => status 1: snobol4: error 1 in statement 2\n
 T = TABLE()\n 'AB' *T\nEND\n => status 1: snobol4: error 1 in statement 2\n
 A = ARRAY(2)\n N = .A<1>\n 'AB' *N\nEND\n => status 1: snobol4: error 1 in statement 3\n
 DATA('D(F)')\n X = D(1)\n 'AB' *X\nEND\n => status 1: snobol4: error 1 in statement 3\n
 N = 2\n 'ABC' LEN(*N) REM . Y\n OUTPUT = Y\nEND\n => C\n
 N = '2'\n 'ABC' TAB(*N) REM . Y\n OUTPUT = Y\nEND\n => C\n
 X = 'BA'\n 'ABC' SPAN(*X) REM . Y\n OUTPUT = Y\nEND\n => C\n
 X = 12\n '213' SPAN(*X) REM . Y\n OUTPUT = Y\nEND\n => 3\n
 A = ARRAY(2)\n 'AB' LEN(*A)\nEND\n => status 1: snobol4: error 1 in statement 2\n
 P = LEN(1)\n 'AB' ANY(*P)\nEND\n => status 1: snobol4: error 1 in statement 2\n
 X =\n 'AB' ANY(*X)\nEND\n => status 1: snobol4: error 6 in statement 2\n
 N = -1\n 'AB' LEN(*N)\nEND\n => status 1: snobol4: error 7 in statement 2\n
";

/// A long string's pattern is made once in a match, as long as nothing changes what is held under its name.
const LONG_STRINGS_IN_MATCHES: &str = r"
 X = DUPL('A',300)\n S = X 'B' X 'C'\n S *X 'C' @N\n OUTPUT = N\nEND\n => 602\n
 X = DUPL('A',300)\n S = X DUPL('B',600)\n S POS(0) *X LEN(300) $ X *X RPOS(0) :F(END)\n OUTPUT = 'yes'\nEND\n => yes\n
 X = DUPL('A',300)\n S = X 'B' X\n S POS(0) *X LEN(1) $ Y *X RPOS(0) :F(END)\n OUTPUT = Y\nEND\n => B\n
 X = DUPL('A',300)\n S = X '300'\n S POS(0) *X @X *X RPOS(0) :F(END)\n OUTPUT = X\nEND\n => 300\n
 A = ARRAY(2)\n A<1> = DUPL('A',300)\n S = A<1> DUPL('B',600)\n S POS(0) *A<1> LEN(300) $ A<1> *A<1> RPOS(0) :F(END)\n OUTPUT = 'yes'\nEND\n => yes\n
 A = ARRAY(2)\n A<1> = DUPL('A',300)\n S = A<1> 'B' A<1>\n S POS(0) *A<1> LEN(1) $ A<2> *A<1> RPOS(0) :F(END)\n OUTPUT = A<2>\nEND\n => B\n
 A = ARRAY(2)\n B = A\n A<1> = DUPL('A',300)\n S = A<1> DUPL('B',600)\n S POS(0) *A<1> LEN(300) $ B<1> *A<1> RPOS(0) :F(END)\n OUTPUT = 'yes'\nEND\n => yes\n
 A = ARRAY(1)\n A<1> = DUPL('A',300)\n S = A<1> 'B' A<1>\n S POS(0) *A<1> LEN(1) $ A *A<1>\nEND\n => status 1: snobol4: error 1 in statement 4\n
 K = 'K'\n T = TABLE()\n T<K> = DUPL('A',300)\n S = T<K> DUPL('B',600)\n S POS(0) *T<K> LEN(300) $ T<K> *T<K> RPOS(0) :F(END)\n OUTPUT = 'yes'\nEND\n => yes\n
 K = 'K'\n T = TABLE()\n T<K> = DUPL('A',300)\n T<'L'> = DUPL('B',300)\n S = T<K> 'L' T<'L'>\n S POS(0) *T<K> LEN(1) $ K *T<K> RPOS(0) :F(END)\n OUTPUT = K\nEND\n => L\n
 DEFINE('F()') :(M)\nF X = DUPL('B',300) :(RETURN)\nM X = DUPL('A',300)\n S = X DUPL('B',300)\n S POS(0) *X *F() *X RPOS(0) :F(END)\n OUTPUT = 'yes'\nEND\n => yes\n
 X = DUPL('A',300)\n 'BAAC' SPAN(*X) REM . Y\n OUTPUT = Y\nEND\n => C\n
 X = DUPL('1',300)\n 'BA' LEN(*X)\nEND\n => status 1: snobol4: error 1 in statement 2\n
";

#[test]
fn rows(rt: HostRuntime) -> Result<(), Fail> {
    check_blocks::<Ways, _>(&rt, &[EXPRESSIONS_IN_MATCHES, ARGUMENTS_IN_MATCHES])?;
    check_rows::<Values, _>(&rt, EXPRESSIONS_AS_VALUES)?;
    check_blocks::<Programs, _>(
        &rt,
        &[
            VARIABLES_IN_MATCHES,
            LONG_STRINGS_IN_MATCHES,
            PROGRAMS_WITH_EXPRESSIONS,
        ],
    )
}
