//! Arithmetic and comparisons of two integers beside the operands that have to be converted first, those that give an
//! error, and functions that a program defines under the same names, worked out by hand.
use super::asking::{Programs, Values};
use super::rows::check_blocks;
use std::test::Fail;

const ARITHMETIC: &str = r"
3 + 4 => <7>
3 + '4' => <7>
'3' + 4 => <7>
3 + 'A' => error 1
3 + ARB => error 1
9223372036854775807 + 0 => <9223372036854775807>
9223372036854775807 + 1 => error 2
3 - 4 => <-1>
4 - 3 => <1>
'' - 3 => <-3>
-9223372036854775807 - 1 => <-\#>
-9223372036854775807 - 2 => error 2
3 * 4 => <12>
3 * '' => <0>
3000000000 * 3000000000 => <9000000000000000000>
4000000000 * 4000000000 => error 2
(10 - 4) - (3 - 1) => <4>
DATATYPE(3 + 4) => <INTEGER>
DATATYPE('' 5) => <INTEGER>
DATATYPE(5 '') => <INTEGER>
DATATYPE(LT(1,2) 5) => <INTEGER>
DATATYPE(LT(1,2) LEN(2)) => <PATTERN>
DATATYPE('' '') => <STRING>
2 + 3 * 4 - 5 => <9>
";

const COMPARISONS: &str = r"
LT(1,2) => <>
LT(2,2) => fails
LT(2,1) => fails
LE(2,2) => <>
LE(3,2) => fails
GT(2,1) => <>
GT(2,2) => fails
GE(2,2) => <>
GE(1,2) => fails
EQ(2,2) => <>
EQ(1,2) => fails
NE(1,2) => <>
NE(2,2) => fails
LT(-2,1) => <>
LT('1',2) => <>
LT(1,'2') => <>
LT('A',2) => error 1
LT(1,ARB) => error 1
GT(1) => <>
LT(1) => fails
EQ() => <>
LT(1,2,0) 'Y' => <Y>
LT(2,1,5) => fails
";

/// Strings of digits.
const DIGITS: &str = r"
'007' + 1 => <8>
1 + '007' => <8>
'' + 1 => <1>
1 + '' => <1>
' 7' + 1 => error 1
1 + ' 7' => error 1
'7 ' + 1 => error 1
1 + '7 ' => error 1
'-7' + 1 => <-6>
1 + '-7' => <-6>
'+7' + 1 => <8>
1 + '+7' => <8>
'1e3' + 1 => error 1
1 + '1e3' => error 1
'7/' + 1 => error 1
1 + '7/' => error 1
':7' + 1 => error 1
1 + ':7' => error 1
'999999999999999999' + 1 => <1000000000000000000>
1 + '999999999999999999' => <1000000000000000000>
'1000000000000000000' + 1 => <1000000000000000001>
1 + '1000000000000000000' => <1000000000000000001>
'9223372036854775806' + 1 => <9223372036854775807>
1 + '9223372036854775806' => <9223372036854775807>
'9223372036854775807' + 1 => error 2
1 + '9223372036854775807' => error 2
'\#' + 1 => error 1
1 + '\#' => error 1
'10000000000000000000' + 1 => error 1
1 + '10000000000000000000' => error 1
'99999999999999999999' + 1 => error 1
1 + '99999999999999999999' => error 1
'000000000000000000000000007' + 1 => <8>
1 + '000000000000000000000000007' => <8>
'000000000000000000000000000' + 1 => <1>
1 + '000000000000000000000000000' => <1>
'18446744073709551623' + 1 => error 1
1 + '18446744073709551623' => error 1
'12' - '5' => <7>
'12' * '5' => <60>
'12' / '5' => <2>
'12' ** '2' => <144>
'9223372036854775807' + '1' => error 2
'3037000500' * '3037000500' => error 2
'12' '5' => <125>
'007' '' => <007>
'' '007' => <007>
DATATYPE('12' '') => <STRING>
DATATYPE('12' + '') => <INTEGER>
";

/// Compared strings of digits.
const COMPARED_DIGITS: &str = r"
LT('007',8) => <>
GE(8,'007') => <>
LT('',8) => <>
GE(8,'') => <>
LT(' 7',8) => error 1
GE(8,' 7') => error 1
LT('7 ',8) => error 1
GE(8,'7 ') => error 1
LT('-7',8) => <>
GE(8,'-7') => <>
LT('+7',8) => <>
GE(8,'+7') => <>
LT('1e3',8) => error 1
GE(8,'1e3') => error 1
LT('7/',8) => error 1
GE(8,'7/') => error 1
LT(':7',8) => error 1
GE(8,':7') => error 1
LT('999999999999999999',8) => fails
GE(8,'999999999999999999') => fails
LT('1000000000000000000',8) => fails
GE(8,'1000000000000000000') => fails
LT('9223372036854775806',8) => fails
GE(8,'9223372036854775806') => fails
LT('9223372036854775807',8) => fails
GE(8,'9223372036854775807') => fails
LT('\#',8) => error 1
GE(8,'\#') => error 1
LT('10000000000000000000',8) => error 1
GE(8,'10000000000000000000') => error 1
LT('99999999999999999999',8) => error 1
GE(8,'99999999999999999999') => error 1
LT('000000000000000000000000007',8) => <>
GE(8,'000000000000000000000000007') => <>
LT('000000000000000000000000000',8) => <>
GE(8,'000000000000000000000000000') => <>
LT('18446744073709551623',8) => error 1
GE(8,'18446744073709551623') => error 1
EQ('007','7') => <>
NE('007','7') => fails
IDENT('007','7') => fails
IDENT('7',7) => fails
DIFFER('7',7) => <>
LGT('10','9') => fails
GT('10','9') => <>
LE('10','9') => fails
";

/// Operations that stand alone.
const ALONE: &str = r"
 OUTPUT = 3 + 4\n OUTPUT = 3 - 4\n OUTPUT = 3 * 4\n OUTPUT = '7' - 3\n OUTPUT = 7 - '3'\nEND\n => 7\n-1\n12\n4\n4\n
 OUTPUT = 9223372036854775807 + 1\nEND\n => status 1: snobol4: error 2 in statement 1\n
 OUTPUT = 'A' + 1\nEND\n => status 1: snobol4: error 1 in statement 1\n
 OUTPUT = 7 / 2\n OUTPUT = 7 / 0\nEND\n => 3\nstatus 1: snobol4: error 3 in statement 2\n
 OUTPUT = '<' LT(1,2) '>'\n X = LT(1,2) :F(END)\n OUTPUT = DATATYPE(X) SIZE(X)\nEND\n => <>\nSTRING0\n
 X = 'kept'\n X = LT(2,1) :F(M)\n OUTPUT = 'in vain'\nM OUTPUT = X\nEND\n => kept\n
 GT(1,2) :S(END)\n GT(2,1) :F(END)\n OUTPUT = 'greater'\nEND\n => greater\n
 ~GT(1,2) :F(END)\n ~GT(2,1) :S(END)\n OUTPUT = 'greater'\nEND\n => greater\n
 DEFINE('LT(A,B)') :(M)\nLT LT = A '-' B :(RETURN)\nM OUTPUT = LT(2,1)\nEND\n => 2-1\n
 A = ARRAY(3,7)\n A<2> = 8\n OUTPUT = A<2>\n OUTPUT = A<3>\n OUTPUT = A<4> :S(END)\n OUTPUT = 'out'\nEND\n => 8\n7\nout\n
 A = ARRAY('-1:1',0)\n I = -1\n A<I> = 'low'\n OUTPUT = A<I>\n OUTPUT = A<1>\n I = 2\n A<I> = 'out' :F(M)\n OUTPUT = 'in vain'\nM I = '0'\n A<I> = 'middle'\n OUTPUT = A<I>\nEND\n => low\n0\nmiddle\n
 T = TABLE()\n I = 7\n T<I> = 'seven'\n OUTPUT = T<I>\n OUTPUT = '<' T<8> '>'\n OUTPUT = I<1>\nEND\n => seven\n<>\nstatus 1: snobol4: error 1 in statement 6\n
 X = 'abc'\n N = SIZE(X)\n OUTPUT = N\n N = -N\n OUTPUT = N\n Y = 'X'\n OUTPUT = $Y\n $Y = 'new'\n OUTPUT = X\n N = SIZE(7)\n OUTPUT = N\n N = -X :S(END)\nEND\n => 3\n-3\nabc\nnew\n1\nstatus 1: snobol4: error 1 in statement 12\n
 DEFINE('F(A)') :(M)\nF F = A A :(RETURN)\nM X = F('ab')\n OUTPUT = X\n X = F(X)\n OUTPUT = X\n OUTPUT = F(&STNO)\n X = F(NOTSET)\n OUTPUT = '<' X '>'\nEND\n => abab\nabababab\n77\n<>\n
 DEFINE('F(A)') :(M)\nF F = A :(FRETURN)\nM X = 'kept'\n X = F(1) :F(N)\n OUTPUT = 'in vain'\nN X = ~F(1)\n OUTPUT = '<' X '>'\nEND\n => <>\n
 N = 5\n OUTPUT = N 1\n OUTPUT = 1 N\n OUTPUT = X 5\nEND\n => 51\n15\n5\n
 OUTPUT = ~F()\n OUTPUT = ~G() :S(END)\n OUTPUT = 'end' :(END)\nF :(FRETURN)\nG :(RETURN)\nEND\n => status 1: snobol4: error 4 in statement 1\n
 DEFINE('F()')\n DEFINE('G()')\n X = ~F() :F(END)\n X = ~G() :S(END)\n OUTPUT = 'end' :(END)\nF :(FRETURN)\nG :(RETURN)\nEND\n => end\n
";

/// Operands of operations.
const OPERANDS: &str = r"
 OUTPUT = 1 + (2 + (3 + (4 + (5 + (6 + (7 + 8))))))\n OUTPUT = 1 + (2 + (3 + (4 + (5 + (6 + (7 + (8 + 9)))))))\nEND\n => 36\n45\n
 S = '2'\n OUTPUT = S + (S + (S + (S + (S + (S + (S + (S + (S + (S + S)))))))))\nEND\n => 22\n
 A = ARRAY(2)\n A<1> = 'one'\n A<2> = 2\n OUTPUT = SIZE(A<1>) + A<2>\n OUTPUT = IDENT(A<1>,'one') 'same'\n OUTPUT = A<A<2>> + 1\n A<A<2> - 1> = A<2> * A<2>\n OUTPUT = A<1> - SIZE(A<1>)\nEND\n => 5\nsame\n3\n3\n
 X = .Y\n $X = 'held'\n OUTPUT = Y\n OUTPUT = IDENT(X,.Y) 'same'\n OUTPUT = DIFFER(X,.Z) 'other'\nEND\n => held\nsame\nother\n
 N = 3\n N = ~LT(N,2) N + 1\n OUTPUT = N\n N = ~LT(N,9) N + 1 :S(END)\n OUTPUT = N\nEND\n => 4\n4\n
 DEFINE('F()') :(M)\nF S = 'new'\n F = 1 :(RETURN)\nM S = 'old'\n OUTPUT = SIZE(S) F() S\n S = 'old'\n OUTPUT = S F()\nEND\n => 31new\nold1\n
 I = 5\n S = 'text'\n OUTPUT = IDENT(I,5) 'i'\n OUTPUT = DIFFER(S,I) SIZE(I) + 1\n OUTPUT = LGT(S,'a') 'm'\n OUTPUT = INTEGER(I) SIZE(S) + 9\nEND\n => i\n2\nm\n13\n
 DEFINE('SIZE(X)') :(M)\nSIZE SIZE = X X :(RETURN)\nM OUTPUT = SIZE(1) - 8\n OUTPUT = SIZE('abc')\nEND\n => 3\nabcabc\n
 OUTPUT = EQ(E,0) 'zero'\n OUTPUT = E + 1\n OUTPUT = '<' IDENT(E) IDENT(E,E) '>'\n OUTPUT = DIFFER(E) 'no' :S(END)\n OUTPUT = 'end'\nEND\n => zero\n1\n<>\nend\n
 T = TABLE()\n T<1> = 5\n T<5> = 7\n OUTPUT = T<1> + 5\n OUTPUT = T<T<1>> - T<1>\n OUTPUT = SIZE(T<T<1>>)\nEND\n => 10\n2\n1\n
";

/// Quotients, remainders and powers of what variables hold.
const QUOTIENTS: &str = r"
 N = 17\n D = 5\n OUTPUT = N / D\n OUTPUT = REMDR(N,D)\n OUTPUT = -17 / D\n OUTPUT = REMDR(-17,D)\n OUTPUT = N / -5\n OUTPUT = REMDR(N,-5)\nEND\n => 3\n2\n-3\n-2\n-3\n2\n
 N = '17'\n D = '05'\n OUTPUT = N / D REMDR(N,D)\n OUTPUT = REMDR(N,D) + N / D\nEND\n => 32\n5\n
 N = 7\n OUTPUT = REMDR(N,Z)\nEND\n => status 1: snobol4: error 3 in statement 2\n
 N = 7\n OUTPUT = N / Z\nEND\n => status 1: snobol4: error 3 in statement 2\n
 N = 7\n X = ~REMDR(N,0)\nEND\n => status 1: snobol4: error 3 in statement 2\n
 N = 7\n OUTPUT = REMDR(N)\nEND\n => status 1: snobol4: error 3 in statement 2\n
 N = 7\n OUTPUT = REMDR(N,4,'more')\n OUTPUT = REMDR(N,4,LT(2,1)) :S(END)\n OUTPUT = 'failed'\nEND\n => 3\nfailed\n
 N = -9223372036854775807 - 1\n D = -1\n OUTPUT = REMDR(N,D)\n OUTPUT = N / D\nEND\n => 0\nstatus 1: snobol4: error 2 in statement 4\n
 N = 2\n E = 10\n OUTPUT = N ** E\n OUTPUT = Z ** Z\n OUTPUT = N ** 63\nEND\n => 1024\n1\nstatus 1: snobol4: error 2 in statement 5\n
 E = -1\n OUTPUT = 2 ** E\nEND\n => status 1: snobol4: error 7 in statement 2\n
 N = 7\n OUTPUT = REMDR(N,LEN(1))\nEND\n => status 1: snobol4: error 1 in statement 2\n
 N = 7\n S = 'x'\n OUTPUT = N / S\nEND\n => status 1: snobol4: error 1 in statement 3\n
 DEFINE('REMDR(A,B)') :(M)\nREMDR REMDR = A '-' B :(RETURN)\nM I = 7\n OUTPUT = REMDR(I,2)\n OUTPUT = IDENT(REMDR(I,0),'7-0') 'own'\nEND\n => 7-2\nown\n
 I = 7\nL OUTPUT = REMDR(I,2)\n N = N + 1\n EQ(N,2) :S(END)\n DEFINE('REMDR(A,B)') :(L)\nREMDR REMDR = A '-' B :(RETURN)\nEND\n => 1\n7-2\n
 A = ARRAY('0:2')\n I = 4\nL A<REMDR(I,3)> = A<REMDR(I,3)> I\n I = GT(I,1) I - 1 :S(L)\n OUTPUT = A<0> '/' A<1> '/' A<2>\nEND\n => 3/41/2\n
 A = 48\n B = 36\nL C = REMDR(A,B)\n A = B\n B = C\n NE(B,0) :S(L)\n OUTPUT = A\nEND\n => 12\n
 DEFINE('GCD(A,B)') :(M)\nGCD GCD = EQ(B,0) A :S(RETURN)\n GCD = GCD(B,REMDR(A,B)) :(RETURN)\nM OUTPUT = GCD(48,36) REMDR(GCD(48,36),5) REMDR(7,GCD(9,6)) 9 / GCD(9,6)\nEND\n => 12213\n
 S = '12'\n T = '3'\n P = S | T\n 'x3' P . W\n OUTPUT = W\n I = 1\n J = 2\n P = I | J\n 'a2' P . W\n OUTPUT = W\nEND\n => 3\n2\n
";

/// Signs before numbers and before what variables, elements and functions hold.
const SIGNS: &str = r"
 N = 7\n X = -N\n OUTPUT = X\n OUTPUT = -X\n OUTPUT = +N\n OUTPUT = --N\n OUTPUT = -+-N\n N = -5\n OUTPUT = N\nEND\n => -7\n7\n7\n7\n7\n-5\n
 S = '012'\n X = +S\n OUTPUT = X\n X = -S\n OUTPUT = X\n OUTPUT = DATATYPE(+S) DATATYPE(-S) DATATYPE(S)\nEND\n => 12\n-12\nINTEGERINTEGERSTRING\n
 X = -Z\n OUTPUT = X\n OUTPUT = DATATYPE(+Z) DATATYPE(X)\nEND\n => 0\nINTEGERINTEGER\n
 X = -9223372036854775807 - 1\n OUTPUT = +X\n OUTPUT = -X\nEND\n => -9223372036854775808\nstatus 1: snobol4: error 2 in statement 3\n
 S = 'x'\n X = -S\nEND\n => status 1: snobol4: error 1 in statement 2\n
 P = LEN(1)\n X = +P\nEND\n => status 1: snobol4: error 1 in statement 2\n
 I = -3\nL I = I + 1\n OUTPUT = LT(I,-1) I :S(L)\n OUTPUT = I\nEND\n => -2\n-1\n
 A = ARRAY('-2:2')\n I = 2\n A<-I> = 'low'\n A<-1> = 'next'\n J = -2\n OUTPUT = A<J> A<J + 1>\n A<I> = 5\n OUTPUT = -A<I> + A<-J>\nEND\n => lownext\n0\n
 T = TABLE()\n T<-1> = 'a'\n K = 1\n OUTPUT = T<-K> T<1>\nEND\n => a\n
 DEFINE('ABS(N)') :(M)\nABS ABS = N\n ABS = LT(N,0) -N :(RETURN)\nM OUTPUT = ABS(-4) ABS(4) ABS(-ABS(-3)) -ABS(2)\nEND\n => 443-2\n
 N = 3\n OUTPUT = N -1\n OUTPUT = N - 1\n OUTPUT = N * -1\n OUTPUT = 2 ** -(0 - 3)\nEND\n => 3-1\n2\n-3\n8\n
 OUTPUT = IDENT(-'5',-5) 'same'\n X = '-5'\n OUTPUT = IDENT(-X,5) EQ(+X,-5) 'and'\nEND\n => same\nand\n
 X = -SIZE('abc')\n OUTPUT = X\n OUTPUT = LT(-SIZE('abc'),-2) 'less'\n OUTPUT = (-LT(2,1)) 'none'\n OUTPUT = -LT(1,2)\nEND\n => -3\nless\n0\n
";

/// Variables and functions whose names are long, and differ in one letter.
const NAMES: &str = r"
 COUNTER.OF1 = 1\n COUNTER.OF2 = 2\n COUNTER.O = 3\n COUNTER.o = 4\n COUNTER_O = 5\n OUTPUT = COUNTER.OF1 COUNTER.OF2 COUNTER.O COUNTER.o COUNTER_O COUNTER\nEND\n => 12345\n
 TEN.LETTER = 1\n TEN.LETTERS = 2\n TEN.LETTER.S = 3\nL TEN.LETTER = LT(TEN.LETTER,4) TEN.LETTER + TEN.LETTER :S(L)\n $'TEN.LETTERS' = TEN.LETTERS TEN.LETTER\n OUTPUT = TEN.LETTERS TEN.LETTER.S\nEND\n => 243\n
 DEFINE('FACTORIAL(NUMBER)') :(M)\nFACTORIAL FACTORIAL = EQ(NUMBER,0) 1 :S(RETURN)\n FACTORIAL = NUMBER * FACTORIAL(NUMBER - 1) :(RETURN)\nM OUTPUT = FACTORIAL(10)\nEND\n => 3628800\n
 DEFINE('FACTORIAL.OF(NUMBER.GIVEN)') :(M)\nFACTORIAL.OF FACTORIAL.OF = EQ(NUMBER.GIVEN,0) 1 :S(RETURN)\n FACTORIAL.OF = NUMBER.GIVEN * FACTORIAL.OF(NUMBER.GIVEN - 1) :(RETURN)\nM OUTPUT = FACTORIAL.OF(10)\nEND\n => 3628800\n
";

/// Elements and entries.
const ELEMENTS: &str = r"
 A = ARRAY(3,4)\n I = 2\n OUTPUT = EQ(A<I> + A<I + 1> - A<I - 1>,4) 'four'\n OUTPUT = LT(A<I> * A<I>,16) 'less' :S(END)\n OUTPUT = A<I + 1> * 2 - 1\nEND\n => four\n7\n
 A = ARRAY(3,0)\n I = 3\n EQ(A<I + 1>,0) :S(END)\n EQ(A<I> + A<I + 1>,0) :S(END)\n OUTPUT = 'out'\nEND\n => out\n
 A = ARRAY(2,'5')\n I = 1\n OUTPUT = A<I> + 1\n OUTPUT = EQ(A<I + 1>,5) 'five'\n A<I> = 'x'\n OUTPUT = A<I + 1> + A<I>\nEND\n => 6\nfive\nstatus 1: snobol4: error 1 in statement 6\n
 A = ARRAY(2,9223372036854775807)\n I = 1\n OUTPUT = A<I> + A<I + 1>\nEND\n => status 1: snobol4: error 2 in statement 3\n
 A = ARRAY(2,3)\n I = 1\n X = ~EQ(A<I> + A<I + 1>,7) A<I> + 1\n OUTPUT = X\n X = ~EQ(A<I> + A<I + 1>,6) A<I> + 1 :F(M)\n OUTPUT = 'in vain'\nM OUTPUT = ~A<I + 2> + 1\nEND\n => 4\n1\n
 DEFINE('EQ(A,B)') :(M)\nEQ EQ = A '=' B :(RETURN)\nM A = ARRAY(2,3)\n I = 1\n OUTPUT = EQ(A<I> + 1,A<I + 1>)\nEND\n => 4=3\n
 DEFINE('SIZE(X)') :(M)\nSIZE SIZE = X X :(RETURN)\nM A = ARRAY(2,3)\n I = 1\n OUTPUT = SIZE(A<I>) - 1\nEND\n => 32\n
 T = TABLE()\n K = 'k'\n J = 'j'\n T<K> = T<K> + 1\n T<K> = T<K> + 1\n OUTPUT = T<K>\n OUTPUT = EQ(T<K>,2) 'two'\n OUTPUT = T<K> * T<K> - SIZE(K)\n OUTPUT = DIFFER(T<K>) 'some'\n OUTPUT = IDENT(T<J>) 'none'\n OUTPUT = EQ(T<J>,0) T<J> + 1\nEND\n => 2\ntwo\n3\nsome\nnone\n1\n
 T = TABLE()\n K = 'k'\n T<K> = 'text'\n OUTPUT = SIZE(T<K>) + 1\n OUTPUT = INTEGER(T<K>) 'integer' :S(END)\n T<K> = '12'\n OUTPUT = INTEGER(T<K>) T<K> + 1\n OUTPUT = IDENT(T<K>,K) 'same' :S(END)\n OUTPUT = LGT(K,T<K>) 'after'\nEND\n => 5\n13\nafter\n
 DEFINE('F()') :(M)\nF A = ARRAY(2,9)\n F = 1 :(RETURN)\nM A = ARRAY(2,1)\n I = 1\n OUTPUT = A<I> + F()\n A = ARRAY(2,1)\n OUTPUT = F() + A<I>\nEND\n => 2\n10\n
 A = ARRAY('2,2',1)\n I = 1\n OUTPUT = A<I,2> + 1\n OUTPUT = EQ(A<I>,1) 'one'\nEND\n => 2\nstatus 1: snobol4: error 12 in statement 4\n
 A = ARRAY(3,0)\n I = 1\n A<I + 1> = 5\n A<A<I + 1> - 2> = 6\n A<I + 3> = 7 :F(M)\n OUTPUT = 'in vain'\nM OUTPUT = A<1> A<2> A<3>\nEND\n => 056\n
 DEFINE('F()') :(M)\nF A = ARRAY(2,'new')\n I = 2\n F = 'f' :(RETURN)\nM A = ARRAY(2,'old')\n B = A\n I = 1\n A<I> = F()\n OUTPUT = A<1> B<1>\nEND\n => newf\n
 A = ARRAY(2,'abc')\n I = 1\n A<I + 1> 'b' = '-'\n OUTPUT = A<1> A<2>\nEND\n => abca-c\n
 A = ARRAY(2,3)\n I = 1\n A<2> = 8\n OUTPUT = LT(A<I>,A<I + 1>) A<I + 1> - A<I>\n OUTPUT = GT(A<I>,A<I + 1>) A<I> :S(END)\n OUTPUT = LT(A<I>,9) GT(A<I>,1) A<I> + 1\nEND\n => 5\n4\n
 N = 1\n OUTPUT = N + N + N + N + N + N + N + N + N + N + N + N + N + N + N + N + N + N + N + N + N + N + N + N + N + N + N + N + N + N + N + N + N + N + N + N + N + N + N + N\n OUTPUT = EQ(N + N + N + N + N + N + N + N + N + N + N + N + N + N + N + N + N + N + N + N,20) N + N + N + N + N + N + N + N + N + N + N + N + N + N + N + N + N + N + N + N\nEND\n => 40\n20\n
 I = 1\n OUTPUT = EQ(I<1>,0) 'item'\nEND\n => status 1: snobol4: error 1 in statement 2\n
";

const CONDITIONS: &str = r"
 I = 3\n OUTPUT = LT(I,4) I\n OUTPUT = LT(I,3) I :S(END)\n OUTPUT = LE(I,3) I * I\n OUTPUT = GE(I,4) I - 1 :S(END)\n OUTPUT = NE(I,0) EQ(I,3)\n OUTPUT = '<' NE(I,0) EQ(I,4) '>' :S(END)\n OUTPUT = 'end'\nEND\n => 3\n9\n\nend\n
 S = 'text'\n N = '07'\n OUTPUT = GT(2,1) S\n OUTPUT = GT(2,1) 'literal'\n OUTPUT = GT(N,1) N\n OUTPUT = GT(N,1) N + 1\n OUTPUT = GT(N,1) S + 1\nEND\n => text\nliteral\n07\n8\nstatus 1: snobol4: error 1 in statement 7\n
 OUTPUT = LT(1,2) 9223372036854775807 + 1\nEND\n => status 1: snobol4: error 2 in statement 1\n
 OUTPUT = LT(2,1) 9223372036854775807 + 1 :S(END)\n OUTPUT = LT(1,2) 7 / 2\n OUTPUT = LT(2,1) 7 / 0 :F(M)\nM OUTPUT = LT(1,2) 7 / 0\nEND\n => 3\nstatus 1: snobol4: error 3 in statement 4\n
 OUTPUT = LT('a',2) 5\nEND\n => status 1: snobol4: error 1 in statement 1\n
 OUTPUT = LT('a',2) 5 + 1\nEND\n => status 1: snobol4: error 1 in statement 1\n
 DEFINE('LT(A,B)') :(M)\nLT LT = A B :(RETURN)\nM OUTPUT = LT(2,1) 5\n OUTPUT = LT(1,2) 5 + 1\nEND\n => 215\n126\n
 N = 4\n OUTPUT = N LT(1,2)\n OUTPUT = (N + 1) LT(1,2)\n OUTPUT = N LT(2,1) :S(END)\n OUTPUT = (N + 1) N\n OUTPUT = (N + 1) N - 1\nEND\n => 4\n5\n54\n53\n
 N = 4\n OUTPUT = (LT(1,2) 3) + N * 2\n OUTPUT = LT(1,2) + N\n OUTPUT = LT(1,2) - N * 2\nEND\n => 11\n4\n-8\n
 N = 3\n X = ~LT(N,2) N :F(END)\n OUTPUT = X\n X = ~(LT(N,9) N) :S(END)\n X = ~(LT(N,2) N) 'none'\n OUTPUT = X\nEND\n => 3\nnone\n
 OUTPUT = LT(INPUT,5) INPUT + 1\n OUTPUT = LT(INPUT,5) INPUT + 1 :S(END)\n OUTPUT = INPUT\nEND\n <- 3\n4\n9\n2\n => 5\n2\n
";

const PROGRAMS: &str = r"
 I = 0\nL I = LT(I,3) I + 1 :S(L)\n OUTPUT = I\nEND\n => 3\n
 I = '0'\nL I = LT(I,3) I + 1 :S(L)\n OUTPUT = I\nEND\n => 3\n
 OUTPUT = LT(1,2) 'a'\n DEFINE('LT(A,B)')\n OUTPUT = LT(2,1) 'b' :(END)\nLT LT = 'mine' :(RETURN)\nEND\n => a\nmineb\n
 DATA('GT(A,B)')\n X = GT(1,2)\n OUTPUT = A(X) B(X)\nEND\n => 12\n
L N = N + INPUT :S(L)\n OUTPUT = N\nEND\n <- 3\n4\n => 7\n
 OUTPUT = INPUT + 1\n OUTPUT = 1 + INPUT\n OUTPUT = INPUT - INPUT\nEND\n <- 3\n4\n9\n2\n => 4\n5\n7\n
 N = '5'\n OUTPUT = N + 1\n OUTPUT = 1 + N\n OUTPUT = N - N\nEND\n => 6\n6\n0\n
 N = 3\n OUTPUT = 'a' ~LT(N,2) 'b'\n OUTPUT = 'a' ~GT(N,2) 'b'\n OUTPUT = 'c'\nEND\n => ab\nc\n
 DEFINE('F()') :(M)\nF N = 10\n F = 1 :(RETURN)\nM N = 3\n OUTPUT = N + F()\n OUTPUT = F() + N\nEND\n => 4\n11\n
 DEFINE('F()') :(M)\nF A = ARRAY(2,'new')\n F = 1 :(RETURN)\nM A = ARRAY(2,'old')\n OUTPUT = A<F()>\n OUTPUT = A<1>\nEND\n => old\nnew\n
 ABCDEF = 1\n ABCDEFG = 2\n ABCDEFGH = 3\n ABCDEFGHI = 4\n OUTPUT = ABCDEF + ABCDEFG * 10 + ABCDEFGH * 100 + ABCDEFGHI * 1000\nEND\n => 4321\n
 DEFINE('DOUBLED(X)')\n DEFINE('DOUBLED8(X)') :(M)\nDOUBLED DOUBLED = X + X :(RETURN)\nDOUBLED8 DOUBLED8 = X X :(RETURN)\nM OUTPUT = DOUBLED(4) + DOUBLED8(4)\nEND\n => 52\n
 A = ARRAY(3,0)\n A<2> = 5\n I = 1\n OUTPUT = A<I + 1> + A<I> A<I + 2> - 1\n A<I + 3> = 1 :S(END)\n OUTPUT = 'out'\nEND\n => 5-1\nout\n
 N = INPUT\n OUTPUT = N + 1\n OUTPUT = 1 + N\n OUTPUT = N + N\n OUTPUT = (2 * 3) - N\n OUTPUT = N N\n OUTPUT = N 1\nEND\n <- 007\n => 8\n8\n14\n-1\n007007\n0071\n
 N = INPUT\n OUTPUT = N + 1\n OUTPUT = 1 + N\n OUTPUT = N + N\n OUTPUT = (2 * 3) - N\n OUTPUT = N N\n OUTPUT = N 1\nEND\n <- -7\n => -6\n-6\n-14\n13\n-7-7\n-71\n
 N = INPUT\n OUTPUT = LT(N,8) 'a'\n OUTPUT = LT(6,N) 'b'\n OUTPUT = EQ(N,N) 'c'\n OUTPUT = GT(3 * 3,N) 'd'\n OUTPUT = NE(N,7) 'e'\nEND\n <- 07\n => a\nb\nc\nd\n
 N = INPUT\n T = TABLE()\n T<N> = 'text'\n T<7> = 'integer'\n OUTPUT = T<N>\n OUTPUT = T<N + 0>\n OUTPUT = IDENT(N,7) 'same'\n OUTPUT = DATATYPE(N)\nEND\n <- 7\n => text\ninteger\nSTRING\n
 N = INPUT\n A = ARRAY(3,'none')\n A<N> = 'text'\n OUTPUT = A<2>\n OUTPUT = A<N>\n OUTPUT = A<N - 1>\nEND\n <- 2\n => text\ntext\nnone\n
 DEFINE('LT(A,B)')\n N = INPUT\n OUTPUT = LT(N,1) 'b' :(END)\nLT LT = A 'mine' :(RETURN)\nEND\n <- 2\n => 2mineb\n
 N = INPUT\n OUTPUT = 'a' ~LT(N,2) 'b'\n OUTPUT = 'a' ~GT(N,2) 'b'\n OUTPUT = 'c'\nEND\n <- 3\n => ab\nc\n
 N = INPUT\n OUTPUT = N + 1\nEND\n <- 9223372036854775807\n => status 1: snobol4: error 2 in statement 2\n
 N = INPUT\n OUTPUT = LT(1,N) 'a'\n OUTPUT = N + 1\nEND\n <- 7 \n => status 1: snobol4: error 1 in statement 2\n
 OUTPUT = N + 1\n OUTPUT = LT(N,1) 'a'\n OUTPUT = GT(1,N) 'b'\nEND\n => 1\na\nb\n
";

#[test]
fn rows(rt: HostRuntime) -> Result<(), Fail> {
    check_blocks::<Values, _>(&rt, &[ARITHMETIC, COMPARISONS, DIGITS, COMPARED_DIGITS])?;
    check_blocks::<Programs, _>(
        &rt,
        &[
            ALONE, OPERANDS, QUOTIENTS, SIGNS, NAMES, ELEMENTS, CONDITIONS, PROGRAMS,
        ],
    )
}
