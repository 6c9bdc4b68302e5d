//! Strings that are joined, worked out by hand.
use super::asking::Programs;
use super::rows::check_blocks;
use std::test::Fail;

/// Literals and variables that hold strings, and what else may stand among them.
const OPERANDS: &str = r"
 A = 'ab'\n B = 'cd'\n OUTPUT = A B\n OUTPUT = A '-' B\n OUTPUT = 'x' A 'y' B 'z'\nEND\n => abcd\nab-cd\nxabycdz\n
 A = 'ab'\n OUTPUT = A N\n OUTPUT = N A\n OUTPUT = A '' A\n X = N M\n OUTPUT = SIZE(X) DATATYPE(X)\nEND\n => ab\nab\nabab\n0STRING\n
 N = 12\n OUTPUT = 'n' N\n OUTPUT = N 'n'\n OUTPUT = 'a' N 'b' 3\n OUTPUT = N 3 + 1\n OUTPUT = DATATYPE('1' '2')\nEND\n => n12\n12n\na12b3\n124\nSTRING\n
 A = 'a'\n OUTPUT = A ('b' 'c') 'd'\n OUTPUT = (A 'b') (A 'c')\nEND\n => abcd\nabac\n
 OUTPUT = '<' INPUT '>'\n OUTPUT = '<' INPUT '>' :S(END)\n OUTPUT = 'none'\nEND\n <- x\n => <x>\nnone\n
 P = LEN(1)\n 'abc' 'a' P . X\n OUTPUT = X\n P = 'a' 'b'\n 'xab' P :F(END)\n OUTPUT = 'ab'\nEND\n => b\nab\n
 X = 'kept'\n X = 'a' LT(2,1) 'b' :S(END)\n OUTPUT = X 'still'\nEND\n => keptstill\n
 A = 'a'\n A = A 'b'\n A = 'c' A A\n OUTPUT = A\nEND\n => cabab\n
 DEFINE('F()') :(M)\nF A = 'new'\n F = '!' :(RETURN)\nM A = 'old'\n OUTPUT = A F() A\nEND\n => old!new\n
 A = ARRAY(2,'q')\n OUTPUT = 'x' A<1> 'y'\n OUTPUT = 'a' &ANCHOR 'b'\nEND\n => xqy\na0b\n
 LONGNAMED = 'l'\n LONGERNAME = 'm'\n OUTPUT = LONGNAMED LONGERNAME LONGNAMED\nEND\n => lml\n
";

/// Integers among the strings. Where one of two values is null, the other one stays what it is.
const INTEGERS: &str = r"
 N = 12\n A = 'ab'\n OUTPUT = A N\n OUTPUT = N A\n OUTPUT = A N A N\n OUTPUT = N A N A\nEND\n => ab12\n12ab\nab12ab12\n12ab12ab\n
 N = -7\n OUTPUT = '<' N '>' 0\n OUTPUT = 5 ' ' N\n OUTPUT = N N\n OUTPUT = N N 'x' N\nEND\n => <-7>0\n5 -7\n-7-7\n-7-7x-7\n
 N = 5\n X = '' N\n OUTPUT = DATATYPE(X) X\n X = N ''\n OUTPUT = DATATYPE(X) X\n X = M N\n OUTPUT = DATATYPE(X) X\nEND\n => INTEGER5\nINTEGER5\nINTEGER5\n
 N = 5\n X = '' N 'a'\n OUTPUT = DATATYPE(X) X\n X = N '' 6\n OUTPUT = DATATYPE(X) X\n X = '' '' N\n OUTPUT = DATATYPE(X) X\nEND\n => STRING5a\nSTRING56\nINTEGER5\n
 N = -9223372036854775807 - 1\n OUTPUT = '[' N ']'\n OUTPUT = 9223372036854775807 '!'\nEND\n => [-9223372036854775808]\n9223372036854775807!\n
 A = DUPL('a',999998)\n N = 12\n B = A N\n OUTPUT = SIZE(B)\n B = N A\n OUTPUT = SIZE(B)\n N = 123\n B = A N\nEND\n => 1000000\n1000000\nstatus 1: snobol4: error 8 in statement 8\n
 A = DUPL('a',999998)\n N = -12\n B = N A\nEND\n => status 1: snobol4: error 8 in statement 3\n
";

/// Strings of 22 bytes and more, which are joined in one block, and of as many as a string may have.
const LENGTHS: &str = r"
 A = '12345678901'\n B = A A\n OUTPUT = SIZE(B) ' ' B 'x'\n C = B 'x' B\n OUTPUT = SIZE(C) C\nEND\n => 22 1234567890112345678901x\n451234567890112345678901x1234567890112345678901\n
 A = DUPL('a',500000)\n B = A A\n OUTPUT = SIZE(B)\n C = B 'a'\nEND\n => 1000000\nstatus 1: snobol4: error 8 in statement 4\n
 A = DUPL('a',999999)\n B = A 'b'\n OUTPUT = SIZE(B)\n C = 'x' A 'b'\nEND\n => 1000000\nstatus 1: snobol4: error 8 in statement 4\n
 A = DUPL('a',1000000)\n B = A N\n OUTPUT = SIZE(B)\n B = N A\n OUTPUT = SIZE(B)\nEND\n => 1000000\n1000000\n
 A = '12345678901'\n B = A ',' A ',' A ';' A\n OUTPUT = B\nEND\n => 12345678901,12345678901,12345678901;12345678901\n
 A = DUPL('a',30)\n N = -7\n OUTPUT = A N '' M N 'x' A\n OUTPUT = A '' M\n OUTPUT = N A N\nEND\n => \<30:a\>-7-7x\<30:a\>\n\<30:a\>\n-7\<30:a\>-7\n
 A = DUPL('a',499999)\n B = A 'b' A 'c'\n OUTPUT = SIZE(B)\n C = A 'b' A 'c' 'd'\nEND\n => 1000000\nstatus 1: snobol4: error 8 in statement 4\n
 A = DUPL('a',499999)\n N = 12\n B = A 'b' A N\nEND\n => status 1: snobol4: error 8 in statement 3\n
 A = DUPL('a',30)\n P = LEN(1)\n B = A 'b' A P\n OUTPUT = DATATYPE(B)\n B = A 'b' A TABLE()\nEND\n => PATTERN\nstatus 1: snobol4: error 1 in statement 5\n
 A = DUPL('a',30)\n B = A ',' A\n C = B\n B = B 'x' A\n OUTPUT = C\n OUTPUT = B\nEND\n => \<30:a\>,\<30:a\>\n\<30:a\>,\<30:a\>x\<30:a\>\n
";

/// Strings that are long enough to grow where they lie, when tokens are joined to them: what else has their bytes keeps
/// them, and what ends otherwise goes the general way.
const GROWING: &str = r"
 X = DUPL('a',60)\nL X = X '0123456789'\n LT(SIZE(X),200) :S(L)\n OUTPUT = X\nEND\n => \<60:a\>\<14:0123456789\>\n
 X = 'a'\nL X = X 'bc'\n Y = X\n X = X 'd' Y\n LT(SIZE(X),40) :S(L)\n OUTPUT = X\nEND\n => abcdabcbcdabcdabcbcbcdabcdabcbcdabcdabcbcbc\n
 X = DUPL('a',70)\n Y = X\n X = X 'b'\n Y = Y 'c'\n X = X 'd'\n OUTPUT = X\n OUTPUT = Y\nEND\n => \<70:a\>bd\n\<70:a\>c\n
 X = DUPL('a',70)\n X = X 'b' X\n OUTPUT = X\n X = X X\n OUTPUT = SIZE(X)\nEND\n => \<70:a\>b\<70:a\>\n282\n
 N = -7\n X = DUPL('a',70)\n X = X 5 N '' M 'x'\n OUTPUT = X\nEND\n => \<70:a\>5-7x\n
 X = DUPL('a',40) DUPL('b',40)\n X LEN(70) . Y\n Y = Y 'c'\n X = X 'd'\n OUTPUT = Y\n OUTPUT = X\nEND\n => \<40:a\>\<30:b\>c\n\<40:a\>\<40:b\>d\n
 X = DUPL('a',40) DUPL('b',40)\n X LEN(10) =\n X = X 'c'\n OUTPUT = X\n X RPOS(6) REM =\n X = X 'd'\n OUTPUT = X\nEND\n => \<30:a\>\<40:b\>c\n\<30:a\>\<35:b\>d\n
 T = TABLE()\n X = DUPL('a',70)\n T<X> = 1\n X = X 'b'\n OUTPUT = T<X> T<DUPL('a',70)>\nEND\n => 1\n
 DEFINE('F(X)') :(M)\nF X = X 'b'\n F = X :(RETURN)\nM X = DUPL('a',70)\n OUTPUT = F(X)\n OUTPUT = X\nEND\n => \<70:a\>b\n\<70:a\>\n
 X = DUPL('a',70)\n P = X | 'c'\n X = X 'b'\n DUPL('a',70) P :F(END)\n OUTPUT = 'same'\nEND\n => same\n
 X = DUPL('a',70)\n DEFINE('F()') :(M)\nF X = X 'b' :(RETURN)\nM X LEN(69) *F() 'a' RPOS(0) :F(END)\n OUTPUT = X\nEND\n => \<70:a\>b\n
 LONGNAMED = DUPL('a',70)\n LONGNAMED = LONGNAMED 'b' LONGNAMED\n OUTPUT = LONGNAMED\n $'LONGNAMED' = LONGNAMED 'c'\n OUTPUT = SIZE(LONGNAMED)\nEND\n => \<70:a\>b\<70:a\>\n142\n
 X = DUPL('a',70)\n Y = X 'b'\n X = Y 'c'\n OUTPUT = X\n X = 'd' X\n OUTPUT = X\nEND\n => \<70:a\>bc\nd\<70:a\>bc\n
";

/// What is one token that is joined to a string that grows: a literal, a string of a variable, null, or digits.
const GROWING_BY_ONE: &str = r"
 X = DUPL('a',70)\n S = 'bc'\n N = -7\n X = X S\n X = X N\n X = X M\n X = X ''\n X = X 5\n X = X S S N\n OUTPUT = X\nEND\n => \<70:a\>bc-75bcbc-7\n
 X = DUPL('a',70)\n S = DUPL('b',30)\n X = X S\n S = S 'c'\n X = X S ',' S\n S = 'd'\n OUTPUT = X\nEND\n => \<70:a\>\<30:b\>\<30:b\>c,\<30:b\>c\n
 X = DUPL('a',70)\n LONGNAMED = 'b'\n X = X LONGNAMED\n X = X 'cdefghijklmnopqrstuvwxyz0123456789'\n OUTPUT = X\nEND\n => \<70:a\>bcdefghijklmnopqrstuvwxyz0123456789\n
 S = DUPL('b',30)\n X = DUPL('a',999970)\n X = X S\n OUTPUT = SIZE(X)\n X = X M\n OUTPUT = SIZE(X)\n X = X S\nEND\n => 1000000\n1000000\nstatus 1: snobol4: error 8 in statement 7\n
 P = LEN(1)\n X = DUPL('a',70)\n X = X P\n OUTPUT = DATATYPE(X)\nEND\n => PATTERN\n
 DEFINE('F(X)') :(M)\nF F = X :(RETURN)\nM S = 'ab'\n T = 'cd'\n OUTPUT = F(S T)\n OUTPUT = F('' 5)\n OUTPUT = F(S 5 T) + 1 :F(END)\nEND\n => abcd\n5\nstatus 1: snobol4: error 1 in statement 7\n
";

/// What grows elsewhere, or not at all.
const NOT_GROWING: &str = r"
 X = 5\n X = X 'a'\n OUTPUT = X\n Y = Y 'b'\n OUTPUT = Y\nEND\n => 5a\nb\n
 X = LEN(1)\n X = X 'b'\n 'ab' X :F(END)\n OUTPUT = DATATYPE(X)\nEND\n => PATTERN\n
 P = LEN(1)\n X = DUPL('a',70)\n X = X 'b' P\n OUTPUT = DATATYPE(X)\nEND\n => PATTERN\n
 A = ARRAY(2)\n X = DUPL('a',70)\n X = X A\nEND\n => status 1: snobol4: error 1 in statement 3\n
 X = DUPL('a',70)\n X = X &ANCHOR\n X = X SIZE(X)\n X = X LT(2,1) 'b'\n OUTPUT = X\nEND\n => \<70:a\>071\n
 DEFINE('F()') :(M)\nF X = X 'b'\n F = '!' :(RETURN)\nM X = DUPL('a',70)\n X = X F()\n OUTPUT = X\n X = F() X\n OUTPUT = X\nEND\n => \<70:a\>!\n!\<70:a\>!b\n
 X = DUPL('a',70)\n X = X INPUT\n OUTPUT = X\n X = X INPUT :S(END)\n OUTPUT = X\nEND\n <- b\n => \<70:a\>b\n\<70:a\>b\n
 INPUT = DUPL('a',70)\n INPUT = INPUT 'b' :S(END)\n OUTPUT = 'no line'\nEND\n => no line\n
 OUTPUT = DUPL('a',70)\n OUTPUT = OUTPUT 'b'\n OUTPUT = OUTPUT 'c'\nEND\n => \<70:a\>\n\<70:a\>b\n\<70:a\>bc\n
 X = DUPL('a',999998)\n X = X 'b'\n OUTPUT = SIZE(X)\n X = X 1\n OUTPUT = SIZE(X)\n X = X N ''\n OUTPUT = SIZE(X)\n X = X 'c'\nEND\n => 999999\n1000000\n1000000\nstatus 1: snobol4: error 8 in statement 8\n
 X = DUPL('a',999998)\n X = X 'b' 'cd'\nEND\n => status 1: snobol4: error 8 in statement 2\n
 X = DUPL('a',999998)\n N = -12\n X = X N\nEND\n => status 1: snobol4: error 8 in statement 3\n
";

/// Operands that are no tokens, joined to a string that is long enough for them to be joined apart: what they do and read in
/// their midst comes between, and what joins otherwise goes the general way.
const JOINED_APART: &str = r"
 DEFINE('F(N)') :(M)\nF F = '<' N '>' :(RETURN)\nM X = DUPL('a',300)\n X = X F('b') 'c' F(5)\n OUTPUT = X\nEND\n => \<300:a\><b>c<5>\n
 DEFINE('F()') :(M)\nF X = 'new'\n F = '!' :(RETURN)\nM X = DUPL('a',300)\n X = X F() X\n OUTPUT = X\nEND\n => \<300:a\>!new\n
 DEFINE('F()') :(M)\nF X = X 'b'\n F = '!' :(RETURN)\nM X = DUPL('a',300)\n Y = X\n X = X F() '-' F()\n OUTPUT = X\n OUTPUT = Y\nEND\n => \<300:a\>!-!\n\<300:a\>\n
 X = DUPL('a',300)\n X = X SIZE('bc') LT(2,1) 'd' :S(END)\n OUTPUT = X\nEND\n => \<300:a\>\n
 X = DUPL('a',300)\n X = X SIZE('b') LEN(1) 'c'\n OUTPUT = DATATYPE(X)\n (DUPL('a',300) '1zc') X :F(END)\n OUTPUT = 'found'\nEND\n => PATTERN\nfound\n
 DEFINE('F(N)') :(M)\nF OUTPUT = N\n F = N :(RETURN)\nM X = DUPL('a',999999)\n X = X F('b') F('c') F('d')\nEND\n => b\nc\nstatus 1: snobol4: error 8 in statement 5\n
 DEFINE('F(N)') :(M)\nF OUTPUT = N\n F = N :(RETURN)\nM X = DUPL('a',999998)\n X = X F('b') F('c')\n OUTPUT = SIZE(X)\nEND\n => b\nc\n1000000\n
 A = ARRAY(2,'q')\n T = TABLE()\n T<'k'> = 7\n X = DUPL('a',300)\n X = X A<1> T<'k'> &ANCHOR -5\n OUTPUT = X\nEND\n => \<300:a\>q70-5\n
 X = DUPL('a',300)\n X = X SIZE('bc') ~LT(2,1) 'd'\n OUTPUT = X\n X = X SIZE('bc') ~LT(1,2) 'e' :S(END)\n OUTPUT = SIZE(X)\nEND\n => \<300:a\>2d\n302\n
 X = DUPL('a',300)\n X = X INPUT 'c'\n OUTPUT = X\n X = X INPUT 'e' :S(END)\n OUTPUT = X\nEND\n <- b\n => \<300:a\>bc\n\<300:a\>bc\n
 X = DUPL('a',300)\n Y = X\n X = X SIZE('b')\n Y = Y 'c' SIZE('de')\n OUTPUT = X\n OUTPUT = Y\nEND\n => \<300:a\>1\n\<300:a\>c2\n
 OUTPUT = DUPL('a',300)\n OUTPUT = OUTPUT SIZE('b')\nEND\n => \<300:a\>\n\<300:a\>1\n
 X = DUPL('a',300)\n X = X TRIM(' ') SIZE('') N\n OUTPUT = X\n X = X ('b' SIZE(X)) 'c'\n OUTPUT = X\nEND\n => \<300:a\>0\n\<300:a\>0b301c\n
 X = DUPL('a',300)\n X = X $'X' SIZE(X)\n OUTPUT = X\n X = X TABLE()\nEND\n => \<600:a\>300\nstatus 1: snobol4: error 1 in statement 4\n
";

/// Elements, entries and fields that hold a string which is long enough to grow where it lies.
const ITEMS_GROW: &str = r"
 T = TABLE()\n T<'k'> = DUPL('a',300)\n T<'k'> = T<'k'> 5 'b'\n T<'k'> = T<'k'> ',' T<'k'>\n OUTPUT = T<'k'>\nEND\n => \<300:a\>5b,\<300:a\>5b\n
 A = ARRAY(2)\n A<1> = DUPL('a',300)\n A<2> = A<1>\n A<1> = A<1> 'b' 1\n A<2> = A<2> 'c' 2\n OUTPUT = A<1>\n OUTPUT = A<2>\nEND\n => \<300:a\>b1\n\<300:a\>c2\n
 DATA('P(V,W)')\n Q = P(DUPL('a',300),1)\n V(Q) = V(Q) W(Q) 'b'\n OUTPUT = V(Q)\n OUTPUT = W(Q)\nEND\n => \<300:a\>1b\n1\n
 DEFINE('F()') :(M)\nF T<1> = 'new'\n F = '!' :(RETURN)\nM T = TABLE()\n T<1> = DUPL('a',300)\n T<1> = T<1> F() T<1>\n OUTPUT = T<1>\nEND\n => \<300:a\>!new\n
 DEFINE('F()') :(M)\nF A = ARRAY(1,'z')\n F = '!' :(RETURN)\nM A = ARRAY(1)\n B = A\n A<1> = DUPL('a',300)\n A<1> = A<1> F()\n OUTPUT = A<1>\n OUTPUT = B<1>\nEND\n => z\n\<300:a\>!\n
 A = ARRAY(1)\n A<1> = DUPL('a',300)\n A<1> = A<1> LT(2,1) 'b' :S(END)\n A<1> = A<1> LT(1,2) 'b'\n OUTPUT = A<1>\n A<1> = A<1> LEN(1) 'c'\n OUTPUT = DATATYPE(A<1>)\nEND\n => \<300:a\>b\nPATTERN\n
 A = ARRAY(1)\n A<1> = DUPL('a',999999)\n A<1> = A<1> 'b' '' N\n OUTPUT = SIZE(A<1>)\n A<1> = A<1> '' 5\nEND\n => 1000000\nstatus 1: snobol4: error 8 in statement 5\n
 A = ARRAY('2,2')\n A<1,2> = DUPL('a',300)\n A<2,1> = DUPL('b',300)\n A<1,2> = A<2,1> 5 A<1,2>\n A<2,1> = 'x' A<2,1> 5\n OUTPUT = A<1,2>\n OUTPUT = A<2,1>\nEND\n => \<300:b\>5\<300:a\>\nx\<300:b\>5\n
 A = ARRAY(1)\n X = DUPL('a',300)\n A<1> = X\n A<1> = X 'b' SIZE(X)\n X = X 'c' SIZE(X)\n OUTPUT = A<1>\n OUTPUT = X\nEND\n => \<300:a\>b300\n\<300:a\>c300\n
";

/// Arguments that are absent, and literals in their place.
const ARGUMENTS: &str = r"
 DEFINE('F(A)') :(M)\nF F = '<' A '>' :(RETURN)\nM OUTPUT = F() F('') F('x') F(5)\nEND\n => <><><x><5>\n
 DEFINE('F(A,B)') :(M)\nF F = DATATYPE(A) SIZE(A) SIZE(B) :(RETURN)\nM X = F()\n OUTPUT = X\n X = F(' ')\n OUTPUT = X\n X = F(,'ab')\n OUTPUT = X\nEND\n => STRING00\nSTRING10\nSTRING02\n
 DEFINE('F()') :(M)\nF N = N + 1 :(RETURN)\nM F()\n F()\n F('x')\n OUTPUT = N\nEND\n => 3\n
";

#[test]
fn rows(rt: HostRuntime) -> Result<(), Fail> {
    check_blocks::<Programs, _>(
        &rt,
        &[
            INTEGERS,
            OPERANDS,
            LENGTHS,
            GROWING,
            GROWING_BY_ONE,
            NOT_GROWING,
            JOINED_APART,
            ITEMS_GROW,
            ARGUMENTS,
        ],
    )
}
