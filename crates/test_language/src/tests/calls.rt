//! Functions that a program defines, and their calls, worked out by hand.
use super::asking::{Programs, Values, Ways};
use super::rows::{check_blocks, check_rows};
use std::test::Fail;

/// What a call gives, what it saves, and what comes back.
const CALLS: &str = r"
 DEFINE('FACT(N)') :(MAIN)\nFACT FACT = EQ(N,0) 1 :S(RETURN)\n FACT = N * FACT(N - 1) :(RETURN)\nMAIN OUTPUT = FACT(20)\n OUTPUT = FACT(21)\nEND\n => 2432902008176640000\nstatus 1: snobol4: error 2 in statement 3\n
 DEFINE('F(A)B') :(M)\nF B = 2\n F = 3 :(FRETURN)\nM A = 'a'\n B = 'b'\n F = 'f'\n F(1) :S(END)\n OUTPUT = F A B\nEND\n => fab\n
 DEFINE('F(A)B') :(M)\nF B = A\n F = B B :(RETURN)\nM A = 'a'\n B = 'b'\n F = 'f'\n OUTPUT = F(1) F A B\nEND\n => 11fab\n
 DEFINE('F(F)') :(M)\nF F = F + 1 :(RETURN)\nM F = 'old'\n OUTPUT = F(5) F\nEND\n => 6old\n
 DEFINE('F(A,A)') :(M)\nF F = A :(RETURN)\nM A = 'a'\n OUTPUT = F(1,2) A\nEND\n => 2a\n
 DEFINE('F(A)A') :(M)\nF F = '<' A '>' :(RETURN)\nM A = 'a'\n OUTPUT = F(1) A\nEND\n => <1>a\n
 DEFINE('F(A,B)') :(M)\nF F = '<' A '-' B '>' :(RETURN)\nM OUTPUT = F() F(1) F(1,2,3)\nEND\n => <-><1-><1-2>\n
 DEFINE('F(A,B)') :(M)\nF F = '<' A '-' B '>' :(RETURN)\nM OUTPUT = 'x' F('y',F(1,F(2,3)) 'z') 'w'\nEND\n => x<y-<1-<2-3>>z>w\n
 DEFINE('F(A)B,C')\n DEFINE('G()') :(M)\nF B = A\n F = G() A B :(RETURN)\nG A = 'x'\n G = '<' A B '>' :(RETURN)\nM A = 'a'\n B = 'b'\n OUTPUT = F(1) A B\nEND\n => <x1>x1ab\n
 DEFINE('F(A)') :(M)\nF DEFINE('F(B)C')\n A = 'in'\n F = 'f' :(RETURN)\nM A = 'a'\n B = 'b'\n C = 'c'\n OUTPUT = F(1) A B C\nEND\n => fabc\n
 DEFINE('F(T)') :(M)\nF T<1> = 'x'\n G = 'kept' :(RETURN)\nM T = TABLE()\n F(T)\n OUTPUT = T<1> G\nEND\n => xkept\n
 DEFINE('F(N)') :(M)\nF F = LT(N,2) N :S(RETURN)\n F = F(N - 1) + F(N - 2) :(RETURN)\nM OUTPUT = F(10)\nEND\n => 55\n
 DEFINE('F()') :(M)\nF F = INPUT :S(RETURN)F(FRETURN)\nM OUTPUT = F() :S(M)\n OUTPUT = 'end'\nEND\n <- a\nb\n => a\nb\nend\n
 DEFINE('F()') :(M)\nF OUTPUT = 'in' :(END)\nM X = F()\n OUTPUT = 'out'\nEND\n => in\n
 DEFINE('F()') :(M)\nF F = .X :(RETURN)\nM $F() = 'by name'\n OUTPUT = X\nEND\n => by name\n
";

/// Which function a call is of, and where it begins. The arguments come first.
const DEFINITIONS: &str = r"
 DEFINE('SIZE(X)') :(M)\nSIZE SIZE = 'own' :(RETURN)\nM OUTPUT = SIZE('abc')\nEND\n => own\n
 DEFINE('F()','A')\n DEFINE('F()','B') :(M)\nA F = 1 :(RETURN)\nB F = 2 :(RETURN)\nM OUTPUT = F()\nEND\n => 2\n
 DEFINE('F()','A') :(M)\nA F = 1 :(RETURN)\nB F = 2 :(RETURN)\nM OUTPUT = F() F()\n DEFINE('F()','B')\n OUTPUT = F() F()\nEND\n => 11\n22\n
 DEFINE('F()','A') :(M)\nA F = 1 :(RETURN)\nF F = 2 :(RETURN)\nM OUTPUT = F()\nEND\n => 1\n
 DEFINE('F()','') :(M)\nF F = 'null label' :(RETURN)\nM OUTPUT = F()\nEND\n => null label\n
 OUTPUT = F(DEFINE('F(X)')) :(END)\nF F = 'yes' :(RETURN)\nEND\n => yes\n
 DEFINE('F()','G')\n F()\nEND\n => status 1: snobol4: error 5 in statement 2\n
 DEFINE('F()','RETURN')\n F()\nEND\n => status 1: snobol4: error 5 in statement 2\n
 F()\nEND\n => status 1: snobol4: error 4 in statement 1\n
 DEFINE('F')\nEND\n => status 1: snobol4: error 12 in statement 1\n
 DEFINE('F(A')\nEND\n => status 1: snobol4: error 12 in statement 1\n
 DEFINE('F(INPUT)')\nEND\n => status 1: snobol4: error 12 in statement 1\n
 DEFINE('F (A)')\nEND\n => status 1: snobol4: error 12 in statement 1\n
 DEFINE('F(A,)')\nEND\n => status 1: snobol4: error 12 in statement 1\n
 DEFINE('1F()')\nEND\n => status 1: snobol4: error 12 in statement 1\n
 DEFINE(LEN(1))\nEND\n => status 1: snobol4: error 1 in statement 1\n
 DEFINE('F()',LEN(1))\nEND\n => status 1: snobol4: error 1 in statement 1\n
";

/// 200 calls may be open. The statement of a call goes on with its own number.
const LEVELS: &str = r"
 DEFINE('F(N)') :(M)\nF F = EQ(N,1) &FNCLEVEL :S(RETURN)\n F = F(N - 1) :(RETURN)\nM OUTPUT = F(200)\n OUTPUT = F(201)\nEND\n => 200\nstatus 1: snobol4: error 10 in statement 3\n
 DEFINE('F(N)') :(M)\nF F = F(N + 1) :(RETURN)\nM OUTPUT = F(1)\nEND\n => status 1: snobol4: error 10 in statement 2\n
 DEFINE('F()') :(M)\nF 'A' *F() :(RETURN)\nM F()\nEND\n => status 1: snobol4: error 10 in statement 2\n
 DEFINE('F()') :(M)\nF F = &FNCLEVEL :(RETURN)\nM OUTPUT = &FNCLEVEL F() &FNCLEVEL\nEND\n => 010\n
 DEFINE('F()') :(M)\nF F = &FNCLEVEL :(FRETURN)\nM F()\n OUTPUT = &FNCLEVEL\nEND\n => 0\n
 DEFINE('F()') :(M)\nF F = &STNO :(RETURN)\nM OUTPUT = F() '-' &STNO\nEND\n => 2-3\n
 DEFINE('F()') :(M)\nF F = 1 :(RETURN)\nM X = F() / 0\nEND\n => status 1: snobol4: error 3 in statement 3\n
 DEFINE('F()') :(M)\nF F = 1 / 0 :(RETURN)\nM X = F()\nEND\n => status 1: snobol4: error 3 in statement 2\n
--statements 4 ;  DEFINE('F()') :(M)\nF X = 1 :(F)\nM F()\nEND\n => status 4: snobol4: error 20 in statement 2\n
 X = 1 :(RETURN)\nEND\n => status 1: snobol4: error 13 in statement 1\n
 X = 'FRETURN' :($X)\nEND\n => status 1: snobol4: error 13 in statement 1\n
 DEFINE('F()') :(M)\nF F = 1\n X = 'RETURN' :($X)\nM OUTPUT = F()\n OUTPUT = 'out' :(RETURN)\nEND\n => 1\nout\nstatus 1: snobol4: error 13 in statement 5\n
";

/// A call inside a match may match, and the outer match goes on behind it.
const CALLS_IN_MATCHES: &str = r"
 DEFINE('F()') :(M)\nF 'XY' LEN(1) . C\n OUTPUT = C\n F = 'B' :(RETURN)\nM 'AAB' *F() . D :F(END)\n OUTPUT = D\nEND\n => X\nX\nX\nB\n
 DEFINE('F()') :(M)\nF OUTPUT = X :(FRETURN)\nM 'AB' LEN(1) $ X *F() :S(END)\n OUTPUT = 'no'\nEND\n => A\nB\nno\n
 DEFINE('F()') :(M)\nF OUTPUT = 'in' :(END)\nM 'A' *F() . D\n OUTPUT = 'out'\nEND\n => in\n
 DEFINE('G()') :(M)\nG G = INPUT :S(RETURN)F(FRETURN)\nM 'AB' LEN(1) $ OUTPUT *G()\n OUTPUT = 'end'\nEND\n <- B\n => A\nend\n
 DEFINE('F(S)') :(M)\nF S LEN(1) . F = :(RETURN)\nM S = 'kept'\n 'xyz' 'y' *F('zz') . W\n OUTPUT = S W\nEND\n => keptz\n
 DEFINE('F()') :(M)\nF F = LEN(N) :(RETURN)\nM N = 2\n 'abc' *F() . X\n OUTPUT = X\nEND\n => ab\n
";

/// Calls as operands, whose arguments are told or aren't.
const OPERANDS: &str = r"
 DEFINE('F(N)') :(M)\nF F = LT(N,2) 1 :S(RETURN)\n F = N * F(N - 1) :(RETURN)\nM OUTPUT = F(5)\n OUTPUT = F(3 + 3) - F(N + 1)\nEND\n => 120\n719\n
 DEFINE('F(N)') :(M)\nF F = LT(N,2) 1 :S(RETURN)\n F = F(N - 1) * N :(RETURN)\nM OUTPUT = F(6)\nEND\n => 720\n
 DEFINE('F(X)') :(M)\nF N = N + 1\n F = X * 10 + N :(RETURN)\nM N = 1\n OUTPUT = F(N) - F(N)\n N = 1\n OUTPUT = F(N) * (N + 1)\n N = 1\n OUTPUT = (N + 1) * F(N)\nEND\n => -11\n36\n24\n
 DEFINE('F(X)') :(M)\nF S = S X\n F = X :(RETURN)\nM OUTPUT = F(1) + F(2) * F(3)\n OUTPUT = F(4) + (F(5) - 1)\n OUTPUT = S\nEND\n => 7\n8\n12345\n
 DEFINE('F(X)') :(M)\nF S = S X\n F = NE(X,2) X :S(RETURN)F(FRETURN)\nM X = F(1) + F(2) :S(N)\n OUTPUT = 'failed'\nN X = F(2) + F(1) :S(END)\n OUTPUT = S X\nEND\n => failed\n122\n
 DEFINE('F(X)') :(M)\nF N = 'text'\n F = 1 :(RETURN)\nM N = 1\n OUTPUT = F(N + 1) + (N + 2)\nEND\n => status 1: snobol4: error 1 in statement 5\n
 DEFINE('F(X)') :(M)\nF N = '5'\n F = X :(RETURN)\nM N = 1\n OUTPUT = F(N + 1) + (N + 2)\n OUTPUT = F(N + 1) + N\nEND\n => 9\n11\n
 DEFINE('F(X)') :(M)\nF F = X '0' :(RETURN)\nM N = 1\n OUTPUT = F(N) - F(N + 1)\n OUTPUT = F(N + 1) + 5\n OUTPUT = F(N + 1) F(N)\nEND\n => -10\n25\n2010\n
 DEFINE('F(X)') :(M)\nF F = X 'a' :(RETURN)\nM OUTPUT = F(1 + 1)\n OUTPUT = F(1) - F(2)\nEND\n => 2a\nstatus 1: snobol4: error 1 in statement 4\n
 DEFINE('F(X)') :(M)\nF F = EQ(X,1) X :S(RETURN)F(FRETURN)\nM N = 1\n OUTPUT = 5 + ~F(N + 1)\n OUTPUT = ~F(N + 1) - 3\n OUTPUT = 5 + ~F(N) :S(END)\n OUTPUT = 'fails'\nEND\n => 5\n-3\nfails\n
 DEFINE('F(X)') :(M)\nF F = 9223372036854775807 - X :(RETURN)\nM OUTPUT = F(1) + F(9223372036854775806)\n OUTPUT = F(0) + F(9223372036854775806)\nEND\n => 9223372036854775807\nstatus 1: snobol4: error 2 in statement 4\n
 DEFINE('F(A,B)') :(M)\nF F = A + B + 1 :(RETURN)\nM OUTPUT = F(1 + 1) + 0\n OUTPUT = F(2,3) * F(1)\nEND\n => 3\n12\n
 DEFINE('F(X)')\n DEFINE('G(X)') :(M)\nF DEFINE('G(X)','H')\n F = X :(RETURN)\nG G = X + 1 :(RETURN)\nH G = X + 100 :(RETURN)\nM OUTPUT = G(1) + F(1)\n DEFINE('G(X)','G')\n OUTPUT = F(1) + G(1)\nEND\n => 3\n102\n
 DEFINE('F(X)') :(M)\nF DEFINE('SIZE(X)','H')\n F = X :(RETURN)\nH SIZE = 50 :(RETURN)\nM OUTPUT = SIZE(7 + 5) + F(3)\n OUTPUT = F(3) + SIZE(7 + 5)\nEND\n => 5\n53\n
 DEFINE('F(X)') :(M)\nF F = X * 10 :(RETURN)\nM OUTPUT = F(INPUT) + F(INPUT)\n OUTPUT = F(1) + INPUT\n OUTPUT = INPUT + F(1) :S(END)\n OUTPUT = 'none'\nEND\n <- 3\n4\n5\n => 70\n15\nnone\n
 DEFINE('F(X)') :(M)\nF F = X * 2 :(RETURN)\nM A = ARRAY(2,3)\n I = 1\n A<I> = F(A<I> + 1) + F(A<I + 1>)\n OUTPUT = A<1>\n OUTPUT = A<F(I)> - A<I>\nEND\n => 14\n-11\n
 DATA('BOX(V)') DATA('PAIR(X,Y)')\n B = BOX(2 + 3)\n OUTPUT = V(B) + 1\n P = PAIR(3,4)\n OUTPUT = X(P) * Y(P)\n OUTPUT = V(BOX(V(B) - 1))\nEND\n => 6\n12\n4\n
 N = 1\n 'abcdef' LEN(N + 1) . X\n OUTPUT = X\n OUTPUT = TRIM(N + 11)\n X = G(N - 1) * 2\nEND\n => ab\n12\nstatus 1: snobol4: error 4 in statement 5\n
 DEFINE('F(X)') :(M)\nF F = LT(X,199) F(X + 1) + 1 :S(RETURN)\n F = &FNCLEVEL :(RETURN)\nM OUTPUT = F(1)\n OUTPUT = F(0)\n OUTPUT = 1 + F(-1)\nEND\n => 397\n399\nstatus 1: snobol4: error 10 in statement 2\n
";

/// A listing has no statements, so that a function that it defines has no label to begin at.
const CALLS_IN_LISTINGS: &str = r"
DEFINE('F()') F() ; A => status 1: snobol4: error 5\n
DEFINE('F()') *F() ; A => status 1: snobol4: error 5\n
--anchor ; DEFINE('F()') 'A' ; A => way 0 1\nexhausted\n
";

const DEFINING: &str = r"
DEFINE('F()') => <>
DATATYPE(DEFINE('F(A,B)C,D','L')) => <STRING>
&FNCLEVEL => <0>
";

#[test]
fn rows(rt: HostRuntime) -> Result<(), Fail> {
    check_blocks::<Programs, _>(
        &rt,
        &[CALLS, DEFINITIONS, LEVELS, CALLS_IN_MATCHES, OPERANDS],
    )?;
    check_rows::<Ways, _>(&rt, CALLS_IN_LISTINGS)?;
    check_rows::<Values, _>(&rt, DEFINING)
}
