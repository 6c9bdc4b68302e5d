//! Programs, what they write, and how they end.
use super::asking::Programs;
use super::rows::check_blocks;
use std::test::Fail;

const INPUT_AND_OUTPUT: &str = r"
L OUTPUT = INPUT :S(L)F(END)\nEND\n <- a\n\nb => a\n\nb\n
L OUTPUT = INPUT :S(L)F(END)\nEND\n <- a\r\n => a\r\n
L OUTPUT = INPUT :S(L)F(END)\nEND\n => status 0
 &TRIM = 1\nL X = INPUT :F(END)\n X 'A' = 'B' :S(P)\n X = 'none'\nP OUTPUT = X :(L)\nEND\n <- CAT  \nDOG\n => CBT\nnone\n
 OUTPUT = INPUT INPUT\nEND\n <- a\nb\nc => ab\n
 INPUT\n OUTPUT = INPUT\nEND\n <- a\nb\n => b\n
 INPUT = 'x'\n OUTPUT = INPUT\nEND\n <- a\n => a\n
 X = ~INPUT<EQ(1,2)>\n OUTPUT = INPUT\nEND\n <- a\nb\n => b\n
 X = ~INPUT<INPUT,EQ(1,2)>\n OUTPUT = INPUT\nEND\n <- a\nb\nc\n => c\n
 X = 'INPUT'\n OUTPUT = $X\nEND\n <- a\n => a\n
 OUTPUT = 'a'\n OUTPUT = OUTPUT 'b'\nEND\n => a\nab\n
 OUTPUT = 7\n OUTPUT =\nEND\n => 7\n\n
 OUTPUT = 'a'\n OUTPUT = ARB\nEND\n => a\nstatus 1: snobol4: error 1 in statement 2\n
 $'OUTPUT' = 'a'\nEND\n => a\n
";

const GOTOS: &str = r"
 :($INPUT)\nEND\n => status 1: snobol4: error 11 in statement 1\n
 :($INPUT)\nEND\n <- END\n => status 0
 :($INPUT)\nEND\n <- \n => status 1: snobol4: error 6 in statement 1\n
 :($INPUT)\nEND\n <- NONE\n => status 1: snobol4: error 5 in statement 1\n
 :($ARB)\nEND\n => status 1: snobol4: error 1 in statement 1\n
 :(NONE)\nEND\n => status 1: snobol4: error 5 in statement 1\n
 :(RETURN)\nEND\n => status 1: snobol4: error 13 in statement 1\n
 X = 1\n :(FRETURN)\nEND\n => status 1: snobol4: error 13 in statement 2\n
 X = 1 :S(A)F(B)\nA OUTPUT = 'a' :(END)\nB OUTPUT = 'b'\nEND\n => a\n
 X = INPUT :S(A)F(B)\nA OUTPUT = 'a' :(END)\nB OUTPUT = 'b'\nEND\n => b\n
 X = INPUT :S(A)\n OUTPUT = 'b' :(END)\nA OUTPUT = 'a'\nEND\n => b\n
 X = 1 :F(A)\n OUTPUT = 'b' :(END)\nA OUTPUT = 'a'\nEND\n => b\n
 X = INPUT :(A)\n OUTPUT = 'b'\nA OUTPUT = 'a'\nEND\n => a\n
 X = 1 :S(NONE)F(END)\nEND\n => status 1: snobol4: error 5 in statement 1\n
 X = 1 :S(END)F($(1 / 0))\nEND\n => status 0
7 OUTPUT = 'a' :($X)\nEND\n => a\nstatus 1: snobol4: error 6 in statement 1\n
 X = 8 :($X)\n OUTPUT = 'b'\n8 OUTPUT = 'a'\nEND\n => a\n
 OUTPUT = 'a'\nL OUTPUT = 'b'\nEND L\n => b\n
 OUTPUT = 'a'\nEND END\n => status 0
";

const ASSIGNMENTS: &str = r"
 X = 1\n Y = X + 1\n OUTPUT = Y\nEND\n => 2\n
 X = 'Y'\n $X = 5\n OUTPUT = Y\nEND\n => 5\n
 X = 'a'\n X =\n OUTPUT = X 'b'\nEND\n => b\n
 X = 'a'\n X = INPUT\n OUTPUT = X\nEND\n => a\n
 5 = 'a'\nEND\n => status 1: snobol4: error 15 in statement 1\n
 $'' = 2\nEND\n => status 1: snobol4: error 6 in statement 1\n
 'a' = 1 / 0\nEND\n => status 1: snobol4: error 15 in statement 1\n
 F = 'f'\n N = 'n'\n OUTPUT = F (N)\nEND\n => fn\n
 OUTPUT = '-9223372036854775808' + 0\nEND\n => -9223372036854775808\n
 OUTPUT = -7 / 2\n OUTPUT = 2 ** 3 ** 2\n OUTPUT = 1 - 2 - 3\nEND\n => -3\n512\n-4\n
 OUTPUT = 1 / 0\nEND\n => status 1: snobol4: error 3 in statement 1\n
";

const KEYWORDS: &str = r"
 OUTPUT = &STCOUNT ' ' &STNO\nEND\n => 1 1\n
L OUTPUT = &STCOUNT ' ' &STNO\n X = X + 1\n LT(X,2) :S(L)\nEND\n => 1 1\n4 1\n
 &STLIMIT = 2\n X = 1\n Y = 2\nEND\n => status 4: snobol4: error 20 in statement 3\n
 &STLIMIT = 2\n X = 1\nEND\n => status 0
 &STLIMIT = 0\nEND\n => status 0
 &STLIMIT = 1000001\nEND\n => status 1: snobol4: error 14 in statement 1\n
 &STLIMIT = 1000000\n OUTPUT = &STLIMIT\nEND\n => 1000000\n
 &STLIMIT = -1\nEND\n => status 1: snobol4: error 14 in statement 1\n
 &STLIMIT = 'a'\nEND\n => status 1: snobol4: error 1 in statement 1\n
 &ANCHOR = '-2'\n OUTPUT = &ANCHOR + 1\nEND\n => -1\n
 &TRIM =\n OUTPUT = &TRIM\nEND\n => 0\n
 &STNO = OUTPUT\nEND\n => status 1: snobol4: error 14 in statement 1\n
 &FOO = 1 / 0\nEND\n => status 1: snobol4: error 14 in statement 1\n
 OUTPUT = &FOO\nEND\n => status 1: snobol4: error 14 in statement 1\n
 &ALPHABET = 1\nEND\n => status 1: snobol4: error 14 in statement 1\n
 &ANCHOR 'A' = 1\nEND\n => status 1: snobol4: error 15 in statement 1\n
 &ANCHOR 0\n OUTPUT = 'a'\nEND\n => a\n
 &FOO 'A'\nEND\n => status 1: snobol4: error 14 in statement 1\n
 (&ANCHOR) = 1\n 'AB' 'B' :S(END)\n OUTPUT = 'a'\nEND\n => a\n
 &ANCHOR = INPUT\n OUTPUT = 'a' &ANCHOR\nEND\n => a0\n
";

const MATCHES: &str = r"
 'AB' LEN(1) $ X FAIL :F(F)\n OUTPUT = 'succeeded' :(END)\nF OUTPUT = 'failed'\n OUTPUT = X\nEND\n => failed\nB\n
 &ANCHOR = 1\n 'AB' LEN(1) . X :F(B)\n OUTPUT = X\n '' LEN(1) . X :F(END)\nB OUTPUT = 'bad'\nEND\n => A\n
 'AB' LEN(1) $ OUTPUT 'B' . OUTPUT\nEND\n => A\nB\n
 'AB' LEN(1) . OUTPUT LEN(1) . OUTPUT\nEND\n => A\nB\n
 'AB' LEN(1) . X 'C'\n OUTPUT = X 'a'\nEND\n => a\n
 'AB' LEN(1) @N\n OUTPUT = N\nEND\n => 1\n
 'AB' ABORT :S(END)\n OUTPUT = 'a'\nEND\n => a\n
 12 '2' . X\n OUTPUT = X\nEND\n => 2\n
 ARB 'a'\nEND\n => status 1: snobol4: error 1 in statement 1\n
 ARB 1 / 0\nEND\n => status 1: snobol4: error 1 in statement 1\n
 INPUT 'a' :F(END)\n OUTPUT = 'b'\nEND\n => status 0
 'a' INPUT :F(END)\n OUTPUT = 'b'\nEND\n => status 0
 'a' LEN('x')\nEND\n => status 1: snobol4: error 1 in statement 1\n
 &ANCHOR = 1\n 'AB' 'B' :S(END)\n OUTPUT = 'a'\nEND\n => a\n
";

const REPLACEMENTS: &str = r"
 S = 'ABCABC'\n S 'B' = '--'\n OUTPUT = S\nEND\n => A--CABC\n
 S = 'AB'\n S LEN(1) . X = X X\n OUTPUT = S\nEND\n => AAB\n
 S = 'AB'\n S LEN(1) . S = '-'\n OUTPUT = S\nEND\n => -B\n
 X = 5\n X LEN(1) = '7'\n OUTPUT = X + 1\nEND\n => 8\n
 S = 'AB'\n S 'B' =\n OUTPUT = S\nEND\n => A\n
 S = 'AB'\n S 'C' = 'D' :S(END)\n OUTPUT = S\nEND\n => AB\n
 S = 'AB'\n S 'B' = 12\n OUTPUT = S\nEND\n => A12\n
 S = 'AB'\n S 'B' = ARB\nEND\n => status 1: snobol4: error 1 in statement 2\n
 S = 'AB'\n S LEN(1) . X = INPUT\n OUTPUT = S X\nEND\n => ABA\n
 5 LEN(1) = 'A'\nEND\n => status 1: snobol4: error 15 in statement 1\n
 INPUT 'A' = 'B'\n OUTPUT = 'c'\nEND\n <- A\n => c\n
 OUTPUT = 'ab'\n OUTPUT 'b' = 'c'\nEND\n => ab\nac\n
 S = 'A'\n S 'A' 1 / 0 = 'B'\nEND\n => status 1: snobol4: error 3 in statement 2\n
";

/// A match searches the bytes that its subject had when it began, whatever is assigned meanwhile. From 23 bytes on a
/// string lies in a block that others share.
const SUBJECTS_THAT_CHANGE: &str = r"
 S = 'ABCDEFGHIJKLMNOPQRSTUVWXYZ'\n S LEN(1) . S = '-'\n OUTPUT = S\nEND\n => -BCDEFGHIJKLMNOPQRSTUVWXYZ\n
 S = 'ABCDEFGHIJKLMNOPQRSTUVWXYZ'\n T = S\n S LEN(1) . S = '-'\n OUTPUT = T\nEND\n => ABCDEFGHIJKLMNOPQRSTUVWXYZ\n
 S = 'ABCDEFGHIJKLMNOPQRSTUVWXYZ'\n S LEN(2) $ S LEN(2) . T\n OUTPUT = S T\nEND\n => ABCD\n
 S = 'ABCDEFGHIJKLMNOPQRSTUVWXYZ'\n S LEN(2) $ S LEN(2) = '-'\n OUTPUT = S\nEND\n => -EFGHIJKLMNOPQRSTUVWXYZ\n
 DEFINE('F()') :(M)\nF S = S S :(RETURN)\nM S = 'ABCDEFGHIJKLMNOPQRSTUVWXYZ'\n S 'Y' *F() 'Z' RPOS(0) . T\n OUTPUT = SIZE(S)\nEND\n => 52\n
 DEFINE('F()') :(M)\nF S LEN(24) = :(RETURN)\nM S = 'ABCDEFGHIJKLMNOPQRSTUVWXYZ'\n S LEN(3) *F() LEN(3) . T\n OUTPUT = S T\nEND\n => YZDEF\n
 DEFINE('F()') :(M)\nF 'XYZ' LEN(1) . F :(RETURN)\nM 'AAAAAAAAAAAAAAAAAAAAAAAAAXB' *F() 'B' . T\n OUTPUT = T\nEND\n => B\n
 INPUT LEN(25) LEN(1) . T\n OUTPUT = T\nEND\n <- ABCDEFGHIJKLMNOPQRSTUVWXYZ\n => Z\n
 S = 'ABCDEFGHIJKLMNOPQRSTUVWXYZ'\n T = S\n S LEN(25)\n S = S 'a'\n S 'Za' . U\n OUTPUT = U T\nEND\n => ZaABCDEFGHIJKLMNOPQRSTUVWXYZ\n
 S = 'ABCDEFGHIJKLMNOPQRSTUVWXYZ'\nL S LEN(1) = :S(L)\n OUTPUT = SIZE(S)\nEND\n => 0\n
";

const LIMITS_OF_A_RUN: &str = r"
--statements 3 ; L :(L)\nEND\n => status 4: snobol4: error 20 in statement 1\n
--statements 1 ;  X = 1\nEND\n => status 0
--statements 1 ;  X = 1\n Y = 1\nEND\n => status 4: snobol4: error 20 in statement 2\n
--statements 1 ; END\n => status 0
--match-steps 0 ;  'A' 'A'\nEND\n => status 5: snobol4: error 21 in statement 1\n
--match-steps 1 ;  'A' 'A'\n OUTPUT = 'b'\nEND\n => b\n
--match-steps 4 ; L 'AAA' LEN(1) $ OUTPUT FAIL\nEND\n => A\nstatus 5: snobol4: error 21 in statement 1\n
";

#[test]
fn rows(rt: HostRuntime) -> Result<(), Fail> {
    check_blocks::<Programs, _>(
        &rt,
        &[
            INPUT_AND_OUTPUT,
            GOTOS,
            ASSIGNMENTS,
            KEYWORDS,
            MATCHES,
            REPLACEMENTS,
            SUBJECTS_THAT_CHANGE,
            LIMITS_OF_A_RUN,
        ],
    )
}
