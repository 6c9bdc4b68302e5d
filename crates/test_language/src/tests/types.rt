//! Types that a program makes, worked out by hand.
use super::asking::{Programs, Ways};
use super::rows::{check_blocks, check_rows, check_texts};
use std::test::Fail;

/// Objects and their fields, as values and as names.
const OBJECTS: &str = r"
 DATA('NODE(VAL,NEXT)')\n P = NODE('a')\n P = NODE('b',P)\n VAL(P) = VAL(P) VAL(NEXT(P))\n OUTPUT = VAL(P) DATATYPE(P)\n 'XY' LEN(1) . VAL(NEXT(P))\n OUTPUT = VAL(NEXT(P))\n OUTPUT = VAL(NEXT(NEXT(P)))\nEND\n => baNODE\nX\nstatus 1: snobol4: error 1 in statement 8\n
 DATA('T(A,B)')\n X = T(1)\n OUTPUT = '[' B(X) ']'\n Y = T(1,2,3)\n OUTPUT = A(Y) B(Y)\n OUTPUT = A(Y,X)\nEND\n => []\n12\n1\n
 DATA('S(A,B)')\n DATA('T(C,B,A)')\n X = S(1,2)\n Y = T(3,4,5)\n OUTPUT = A(X) B(X) A(Y) B(Y) C(Y)\n OUTPUT = C(X)\nEND\n => 12543\nstatus 1: snobol4: error 1 in statement 6\n
 DATA('T(A,B)')\n X = T(1,2)\n DATA('T(B,A)')\n Y = T(3,4)\n OUTPUT = A(X) B(X) A(Y) B(Y) DATATYPE(X) DATATYPE(Y)\nEND\n => 1243TT\n
 DATA('T(A)')\n OUTPUT = A('x')\nEND\n => status 1: snobol4: error 1 in statement 2\n
 DATA('T(A)')\n OUTPUT = A()\nEND\n => status 1: snobol4: error 1 in statement 2\n
 DATA('T(A)')\n OUTPUT = T(1)\nEND\n => status 1: snobol4: error 1 in statement 2\n
 DATA('T(A)')\n X = T(1)\n Y = X ''\n OUTPUT = A(Y)\n OUTPUT = X 'a'\nEND\n => 1\nstatus 1: snobol4: error 1 in statement 5\n
 DATA('INPUT(OUTPUT)')\n X = INPUT(7)\n OUTPUT = OUTPUT(X)\n OUTPUT(X) = 8\n OUTPUT = OUTPUT(X)\nEND\n => 7\n8\n
";

/// What a function's name is, which the latest DEFINE or DATA tells.
const FUNCTIONS: &str = r"
 DATA('T(A)')\n DEFINE('T(X)') :(M)\nT T = X X :(RETURN)\nM OUTPUT = T('y')\n DATA('T(A)')\n OUTPUT = DATATYPE(T('y'))\n DEFINE('A(X)','T')\n OUTPUT = '[' A('y') ']'\nEND\n => yy\nT\n[]\n
 OUTPUT = DATATYPE(LEN(1))\n DATA('LEN(A)')\n OUTPUT = DATATYPE(LEN(1)) A(LEN(1))\n DATA('L(SIZE)')\n OUTPUT = SIZE(L('xyz'))\n OUTPUT = SIZE('xyz')\nEND\n => PATTERN\nLEN1\nxyz\nstatus 1: snobol4: error 1 in statement 6\n
 DATA('T(VAL)')\n P = T('p')\n DEFINE('F()') :(M)\nF DEFINE('VAL(X)')\n F = 'q' :(RETURN)\nVAL VAL = 'called ' X :(RETURN)\nM OUTPUT = VAL(F())\nEND\n => called q\n
 OUTPUT = T(1)\nEND\n => status 1: snobol4: error 4 in statement 1\n
";

/// The name of a call: its function is looked up first, and then the arguments are evaluated.
const NAMES: &str = r"
 DATA('T(VAL)')\n P = T('BAC')\n N = .VAL(P)\n OUTPUT = DATATYPE(N) $N\n VAL(P) 'A' = 'X'\n OUTPUT = VAL(P)\n $N = 'set'\n OUTPUT = VAL(P)\n 'abc' 'b' @VAL(P)\n OUTPUT = VAL(P)\n 'abc' LEN(2) $ VAL(P) LEN(2)\n OUTPUT = VAL(P)\nEND\n => NAMEBAC\nBXC\nset\n2\nbc\n
 X = .VAL(1 / 0)\nEND\n => status 1: snobol4: error 15 in statement 1\n
 DATA('T(VAL)')\n X = .VAL(1 / 0)\nEND\n => status 1: snobol4: error 3 in statement 2\n
 DATA('T(VAL)')\n X = .VAL(5)\nEND\n => status 1: snobol4: error 1 in statement 2\n
 DATA('T(VAL)')\n X = .T(5)\nEND\n => status 1: snobol4: error 15 in statement 2\n
 DATA('T(VAL)')\n P = T('p')\n DEFINE('F()') :(M)\nF DEFINE('VAL(X)')\n F = P :(RETURN)\nVAL VAL = 'called ' X :(RETURN)\nM VAL(F()) = 'kept'\n DATA('T(VAL)')\n OUTPUT = VAL(P)\nEND\n => kept\n
 DATA('T(A)')\n P = T('old')\n DEFINE('G()')\n DEFINE('F(S)') :(M)\nF S *G() . A(P) :(RETURN)\nG G = LEN(2) :(RETURN)\nM F('xyz')\n OUTPUT = A(P)\nEND\n => xy\n
";

/// Objects where values are compared, where they are keys, and where they are converted.
const VALUES: &str = r"
 DATA('T(A)')\n X = T(1)\n Y = T(1)\n B = TABLE()\n B<X> = 'x'\n B<Y> = 'y'\n OUTPUT = B<X> B<Y> '[' B<T(1)> ']'\nEND\n => xy[]\n
 DATA('T(A)')\n X = T(1)\n Y = T(1)\n OUTPUT = IDENT(X,X) 'same'\n OUTPUT = IDENT(X,Y) 'never'\n OUTPUT = DIFFER(X,Y) 'differ'\n OUTPUT = DIFFER(X,'T') 'type'\n Z = X\n A(Z) = 5\n OUTPUT = A(X) A(Y)\nEND\n => same\ndiffer\ntype\n51\n
 DATA('T(A)')\n X = T(1)\n OUTPUT = CONVERT(X,'STRING') 'no'\n OUTPUT = CONVERT(X,'INTEGER') 'no'\n OUTPUT = CONVERT(X,'PATTERN') 'no'\n OUTPUT = CONVERT(X,'ARRAY') 'no'\n OUTPUT = INTEGER(X) 'no'\n OUTPUT = CONVERT(X,'T')\nEND\n => status 1: snobol4: error 1 in statement 8\n
";

/// Texts that are no prototypes of types.
const NO_PROTOTYPES: &str = r"
 DATA('N')\nEND\n
 DATA('N()')\nEND\n
 DATA('N(A,A)')\nEND\n
 DATA('TABLE(A)')\nEND\n
 DATA('STRING(A)')\nEND\n
 DATA('N(N)')\nEND\n
 DATA('N(A,N)')\nEND\n
 DATA('N(A')\nEND\n
 DATA('N(A)B')\nEND\n
 DATA('N(A,)')\nEND\n
 DATA('N(A,1)')\nEND\n
 DATA(' N(A)')\nEND\n
 DATA('N (A)')\nEND\n
 DATA('1(A)')\nEND\n
 DATA('(A)')\nEND\n
 DATA('')\nEND\n
";

#[test]
fn no_prototypes(rt: HostRuntime) -> Result<(), Fail> {
    check_texts::<Programs, _>(
        &rt,
        r"status 1: snobol4: error 12 in statement 1\n",
        NO_PROTOTYPES,
    )
}

/// A prototype may have 99 fields.
const MANY_FIELDS: &str = r"
 P = 'T(F'\nL N = N + 1\n P = P ',G' N\n LT(N,98) :S(L)\n DATA(P ')')\n X = T()\n G98(X) = 'last'\n OUTPUT = G98(X)\nEND\n => last\n
 P = 'T(F'\nL N = N + 1\n P = P ',G' N\n LT(N,99) :S(L)\n DATA(P ')')\nEND\n => status 1: snobol4: error 12 in statement 5\n
";

/// DATA is no function of a listing, behind its arguments.
const LISTINGS: &str = r"
DATA('N(A)') => status 1: snobol4: error 4\n
DATA(INPUT) => exhausted\n
DATA(1 / 0) => status 1: snobol4: error 3\n
LEN(1) . VAL(1 / 0) => status 1: snobol4: error 15\n
";

#[test]
fn rows(rt: HostRuntime) -> Result<(), Fail> {
    check_blocks::<Programs, _>(&rt, &[OBJECTS, FUNCTIONS, NAMES, VALUES, MANY_FIELDS])?;
    check_rows::<Ways, _>(&rt, LISTINGS)
}
