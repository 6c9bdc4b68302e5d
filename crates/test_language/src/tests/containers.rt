//! Arrays and tables, worked out by hand.
use super::asking::{Programs, Values};
use super::rows::check_blocks;
use std::test::Fail;

const ARRAYS: &str = r"
 A = ARRAY('2,-1:1','x')\n OUTPUT = PROTOTYPE(A) A<2,-1>\nEND\n => 2,-1:1x\n
 A = ARRAY('2,-1:1','x')\n A<3,0> :S(END)\n OUTPUT = 'fails'\nEND\n => fails\n
 A = ARRAY('2,-1:1','x')\n A<1,2> :S(END)\n OUTPUT = 'fails'\nEND\n => fails\n
 A = ARRAY('2,-1:1','x')\n A<1,-2> = 1 :S(END)\n OUTPUT = 'fails'\nEND\n => fails\n
 A = ARRAY('2,-1:1','x')\n X = A<1>\nEND\n => status 1: snobol4: error 12 in statement 2\n
 A = ARRAY('2,-1:1','x')\n A<1,1,1> = 1\nEND\n => status 1: snobol4: error 12 in statement 2\n
 A = ARRAY('2,-1:1','x')\n X = A<'a',LEN(1)>\nEND\n => status 1: snobol4: error 1 in statement 2\n
 A = ARRAY('2,-1:1','x')\n X = A<LEN(1)>\nEND\n => status 1: snobol4: error 1 in statement 2\n
 A = ARRAY('3')\n A<2> = 'b'\n A['3'] = 'c'\n OUTPUT = A<1> A<2> A<3>\nEND\n => bc\n
 A = ARRAY('3')\n B = A\n B<1> = 7\n OUTPUT = A<1>\n IDENT(A,B) :F(END)\n OUTPUT = DATATYPE(A)\nEND\n => 7\nARRAY\n
 A = ARRAY('2,2')\n A<1,2> = 'a'\n A<2,1> = 'b'\n OUTPUT = A<1,2> A<2,1> A<1,1> A<2,2>\nEND\n => ab\n
 A = ARRAY('-1:1',5)\n A<0> = A<-1> + A<1>\n OUTPUT = A<0>\nEND\n => 10\n
 A = ARRAY(2)\n I = 1\nL A<I> = I * I :F(E)\n I = I + 1 :(L)\nE OUTPUT = I A<2>\nEND\n => 34\n
 A = ARRAY('2')\n 'XY' LEN(1) . A<1> LEN(1) $ A<2>\n OUTPUT = A<2> A<1>\nEND\n => YX\n
 A = ARRAY('2')\n 'XY' LEN(1) @A<2> 'Y'\n OUTPUT = A<2>\nEND\n => 1\n
 A = ARRAY('2')\n 'X' LEN(1) . A<3> :S(END)\n OUTPUT = 'fails'\nEND\n => fails\n
 A = ARRAY('2')\n N = .A<2>\n $N = 'n'\n OUTPUT = A<2> DATATYPE(N)\nEND\n => nNAME\n
 A = ARRAY('1:9223372036854775807,2')\nEND\n => status 1: snobol4: error 9 in statement 1\n
 A = ARRAY('1000001')\nEND\n => status 1: snobol4: error 9 in statement 1\n
 A = ARRAY('999999')\n A<999999> = 'l'\n OUTPUT = A<999999>\n A<1000000> :S(END)\n OUTPUT = 'out'\nEND\n => l\nout\n
 A = ARRAY('1000,1000',1)\n OUTPUT = A<1000,1000>\nEND\n => 1\n
 A = ARRAY('1000,1001',1)\nEND\n => status 1: snobol4: error 9 in statement 1\n
 A = ARRAY(LEN(1))\nEND\n => status 1: snobol4: error 1 in statement 1\n
 A = ARRAY('2')\n A = A 'x'\nEND\n => status 1: snobol4: error 1 in statement 2\n
 A = ARRAY('2')\n OUTPUT = A\nEND\n => status 1: snobol4: error 1 in statement 2\n
 A = ARRAY('2')\n X = A + 1\nEND\n => status 1: snobol4: error 1 in statement 2\n
 A = ARRAY('2')\n 'x' A\nEND\n => status 1: snobol4: error 1 in statement 2\n
";

/// What makes a prototype, by what it gives: its own text, or an error.
const PROTOTYPES: &str = r"
PROTOTYPE(ARRAY('3')) => <3>
PROTOTYPE(ARRAY(3)) => <3>
PROTOTYPE(ARRAY('+3,-2:-1')) => <+3,-2:-1>
PROTOTYPE(ARRAY('007')) => <007>
PROTOTYPE(ARRAY('0:0')) => <0:0>
PROTOTYPE(ARRAY('5:5,1')) => <5:5,1>
PROTOTYPE(ARRAY('9223372036854775807:9223372036854775807')) => <9223372036854775807:9223372036854775807>
PROTOTYPE(ARRAY('-9223372036854775808:-9223372036854775808')) => <-9223372036854775808:-9223372036854775808>
ARRAY('0') => error 12
ARRAY('-1') => error 12
ARRAY('3:2') => error 12
ARRAY('') => error 12
ARRAY() => error 12
ARRAY('1,') => error 12
ARRAY(',1') => error 12
ARRAY('1,,1') => error 12
ARRAY(':') => error 12
ARRAY('1:') => error 12
ARRAY(':1') => error 12
ARRAY('1:2:3') => error 12
ARRAY(' 1') => error 12
ARRAY('1 ') => error 12
ARRAY('1, 2') => error 12
ARRAY('A') => error 12
ARRAY('+') => error 12
ARRAY('9223372036854775808') => error 12
ARRAY('1:9223372036854775808') => error 12
ARRAY('9223372036854775807,0') => error 12
ARRAY('1000001,A') => error 12
ARRAY('9223372036854775807,2') => error 9
ARRAY('-9223372036854775808:9223372036854775807') => error 9
ARRAY('4294967296,4294967296') => error 9
PROTOTYPE('A') => error 1
PROTOTYPE() => error 1
PROTOTYPE(TABLE()) => error 1
";

const TABLES: &str = r"
 T = TABLE()\n T<1> = 'a'\n T<'1'> = 'b'\n OUTPUT = T<1> T<'1'> T<'x'>\nEND\n => ab\n
 T = TABLE()\n T<1> = 'a'\n T<'1'> = 'b'\n A = CONVERT(T,'ARRAY')\n OUTPUT = PROTOTYPE(A) A<2,2>\n A<3,1> :S(END)\n OUTPUT = 'fails'\nEND\n => 2,2b\nfails\n
 T = TABLE()\n T<'b'> = 1\n T<'a'> = 2\n T<'b'> = 3\n C = CONVERT(T,'ARRAY')\n OUTPUT = C<1,1> C<1,2> C<2,1> C<2,2>\nEND\n => b3a2\n
 U = TABLE()\n N = .U<'k'>\n C = CONVERT(U,'ARRAY') :S(END)\n OUTPUT = 'failed'\nEND\n => failed\n
 U = TABLE()\n N = .U<'k'>\n U<'l'> = 1\n $N = 2\n C = CONVERT(U,'ARRAY')\n OUTPUT = C<1,1> C<1,2> C<2,1> C<2,2>\nEND\n => k2l1\n
 U = TABLE()\n X = U<'k'>\n U<'l'> = 1\n C = CONVERT(U,'ARRAY')\n OUTPUT = PROTOTYPE(C) C<1,1>\nEND\n => 1,2l\n
 U = TABLE()\n U<1> = 'a'\n U<2> = 'b'\n U<1> =\n C = CONVERT(U,'ARRAY')\n OUTPUT = PROTOTYPE(C) C<1,2>\nEND\n => 1,2b\n
 T = TABLE()\n X = T<LEN(1)>\nEND\n => status 1: snobol4: error 1 in statement 2\n
 T = TABLE()\n T<LEN(1)> = 1\nEND\n => status 1: snobol4: error 1 in statement 2\n
 T = TABLE()\n X = T<1,2>\nEND\n => status 1: snobol4: error 12 in statement 2\n
 T = TABLE()\n T<1,LEN(1)> = 1\nEND\n => status 1: snobol4: error 12 in statement 2\n
 T = TABLE()\n T<> = 'n'\n OUTPUT = T<''> T[]\nEND\n => nn\n
 T = TABLE()\n T<T> = 'self'\n A = ARRAY('1')\n T<A> = 'array'\n T<.A<1>> = 'name'\n OUTPUT = T<T> T<A> T<.A<1>>\nEND\n => selfarrayname\n
 T = TABLE()\n T<.X> = 'x'\n OUTPUT = T<'X'>\nEND\n => x\n
 T = TABLE()\n T<'007'> = 1\n OUTPUT = '<' T<7> T<'7'> '>'\nEND\n => <>\n
 T = TABLE()\n U = TABLE()\n IDENT(T,U) :S(END)\n IDENT(T,T) :F(END)\n OUTPUT = DATATYPE(T)\nEND\n => TABLE\n
 T = TABLE()\n T<'a'> = TABLE()\n T<'a'> = 1\n OUTPUT = T<'a'>\nEND\n => 1\n
 T = TABLE()\n 'AB' LEN(1) $ T<'x'> LEN(1) . T<'y'>\n OUTPUT = T<'y'> T<'x'>\nEND\n => BA\n
 T = TABLE()\n T<'n'> = T<'n'> + 1\n T<'n'> = T<'n'> + 1\n OUTPUT = T<'n'>\nEND\n => 2\n
 T = TABLE()\n A = 'x'\n B = 7\n T<A ':' B> = 'n'\n T<B ',' A> = 'm'\n X = T<A ':' B>\n Y = T<B ',' A>\n OUTPUT = X T<'x:7'> Y T<'7,x'> T<A ':' 8>\nEND\n => nnmm\n
 T = TABLE()\n S = DUPL('ab',20)\n N = -5\n T<S ',' N ';' S> = 'l'\n S = T<S ',' N ';' S>\n OUTPUT = S T<DUPL('ab',20) ',-5;' DUPL('ab',20)>\nEND\n => ll\n
 T = TABLE()\n A = 'x'\n B = 2\n X = T<A ':' B>\n T<A B> = 1\n C = CONVERT(T,'ARRAY')\n OUTPUT = PROTOTYPE(C) C<1,1>\nEND\n => 1,2x2\n
 T = TABLE()\n N = 1\n T<1 ''> = 'a'\n T<'1'> = 'b'\n X = T<N ''>\n Y = T<'' N>\n Z = T<'' '' 1>\n OUTPUT = T<1> X Y Z\nEND\n => aaaa\n
 T = TABLE()\n N = 1\n E =\n T<N E> = 'a'\n T<E N> = T<E N> 'c'\n T<E 'k' E> = 'd'\n X = T<N E E>\n OUTPUT = T<1> X T<'k'>\nEND\n => acacd\n
 T = TABLE()\n S = DUPL('a',999999)\n T<S 'b'> = 'in'\n OUTPUT = T<S 'b'>\n X = T<S 'b' 'c'>\nEND\n => in\nstatus 1: snobol4: error 8 in statement 5\n
 T = TABLE()\n S = DUPL('a',999999)\n T<S 12> = 'in'\nEND\n => status 1: snobol4: error 8 in statement 3\n
 T = TABLE()\n P = LEN(1)\n X = T<'a' P>\nEND\n => status 1: snobol4: error 1 in statement 3\n
 T = TABLE()\n P = LEN(1)\n T<'a' ':' P> = 1\nEND\n => status 1: snobol4: error 1 in statement 3\n
 T = TABLE()\n A = 'x'\n T<A ',' SIZE(A) ',' A> = 's'\n X = T<A ',' SIZE(A) ',' A>\n Y = T<A ',1,' A>\n OUTPUT = X Y\nEND\n => ss\n
 T = TABLE()\n J = 2\n T<3> = 'i'\n T<'3'> = 's'\n X = T<J + 1>\n Y = T<J * J>\n OUTPUT = X Y\nEND\n => i\n
 A = ARRAY(12)\n A<1 1> = 'e'\n X = A<1 '1'>\n A<1 3> :S(END)\n OUTPUT = A<11> X\nEND\n => ee\n
 S = 'a'\n X = S<'a' 'b'>\nEND\n => status 1: snobol4: error 1 in statement 2\n
 OUTPUT = 'a'\n OUTPUT<1> = 'b'\nEND\n => a\nstatus 1: snobol4: error 1 in statement 2\n
";

const CONVERSIONS: &str = r"
CONVERT(12,'STRING') => <12>
DATATYPE(CONVERT(12,'STRING')) => <STRING>
CONVERT('A','STRING') => <A>
CONVERT(LEN(1),'STRING') => fails
CONVERT(TABLE(),'STRING') => fails
CONVERT('007','INTEGER') => <7>
CONVERT('','INTEGER') => <0>
DATATYPE(CONVERT('7','INTEGER')) => <INTEGER>
CONVERT('A','INTEGER') => fails
CONVERT(' 7','INTEGER') => fails
CONVERT(LEN(1),'INTEGER') => fails
DATATYPE(CONVERT(12,'PATTERN')) => <PATTERN>
DATATYPE(CONVERT('A','PATTERN')) => <PATTERN>
DATATYPE(CONVERT(LEN(1),'PATTERN')) => <PATTERN>
CONVERT(TABLE(),'PATTERN') => fails
DATATYPE(CONVERT(ARRAY('2'),'ARRAY')) => <ARRAY>
CONVERT(TABLE(),'ARRAY') => fails
CONVERT('A','ARRAY') => fails
CONVERT('A','TABLE') => error 1
CONVERT('A','string') => error 1
CONVERT('A','STRING ') => error 1
CONVERT('A') => error 1
CONVERT('A',LEN(1)) => error 1
CONVERT(LEN(1),TABLE()) => error 1
";

#[test]
fn rows(rt: HostRuntime) -> Result<(), Fail> {
    check_blocks::<Programs, _>(&rt, &[ARRAYS, TABLES])?;
    check_blocks::<Values, _>(&rt, &[PROTOTYPES, CONVERSIONS])
}
