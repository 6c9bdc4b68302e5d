//! Operations and items inside others, worked out by hand.
use super::asking::Programs;
use super::rows::check_blocks;
use std::test::Fail;

/// As many operands wait as are told, and more.
const WAITING: &str = r"
 OUTPUT = 1 + (2 + (3 + (4 + (5 + (6 + 7)))))\nEND\n => 28\n
 OUTPUT = 1 + (2 + (3 + (4 + (5 + (6 + (7 + 8))))))\nEND\n => 36\n
 OUTPUT = 1 + (2 + (3 + (4 + (5 + (6 + (7 + (8 + 9)))))))\nEND\n => 45\n
 OUTPUT = 1 - (2 - (3 - (4 - (5 - (6 - (7 - (8 - (9 - 10))))))))\nEND\n => -5\n
 OUTPUT = 20 - 1 - 2 - 3 - 4 - 5 - 6 - 7 - 8\nEND\n => -16\n
";

/// Numbers, items and texts inside operations.
const OPERATIONS: &str = r"
 A = ARRAY('-2:2',4)\n A<-1> = 7\n OUTPUT = A<A<-1> - 8> + A<1>\nEND\n => 11\n
 A = ARRAY(3)\n A<1> = 3\n A<3> = 2\n A<2> = 'x'\n OUTPUT = A<A<A<1>>>\n OUTPUT = A<A<1> - 1> + 1\nEND\n => x\nstatus 1: snobol4: error 1 in statement 6\n
 A = ARRAY(3,5)\n N = 2\n A<N - 1> = A<N> - A<N + 1> * 2\n OUTPUT = A<1> A<2>\nEND\n => -55\n
 A = ARRAY(2,1)\n X = A<2 + 1> + 1 :F(N)\n OUTPUT = 'no' :(END)\nN OUTPUT = 'out'\n A<1 - 1> = 5 :F(END)\n OUTPUT = 'no'\nEND\n => out\n
 B = ARRAY('2,2',3)\n OUTPUT = B<1,2> + B<2,1> * 2\nEND\n => 9\n
 T = TABLE()\n T<3> = 5\n T<'3'> = 6\n N = 3\n OUTPUT = T<N> + T<N + 0> * 2\n S = '3'\n OUTPUT = T<S> - T<3>\n OUTPUT = T<N + 1> + 1\nEND\n => 15\n1\n1\n
 T = TABLE()\n A = ARRAY(1,'k')\n T<'k'> = 2\n OUTPUT = T<A<1>> * T<A<1>> + 1\n T<A<1>> = 7\n OUTPUT = T<'k'>\nEND\n => 5\n7\n
 A = '12'\n OUTPUT = A + A * '3' - ''\n A = '-4'\n OUTPUT = 1 - A * 2\n A = 'x'\n OUTPUT = 1 + A * 2\nEND\n => 48\n9\nstatus 1: snobol4: error 1 in statement 6\n
 X = 9223372036854775807\n OUTPUT = X - 1 + 1\n OUTPUT = X + 1 - 1\nEND\n => 9223372036854775807\nstatus 1: snobol4: error 2 in statement 3\n
 X = 6\n OUTPUT = X / 4 * 2 + X\n OUTPUT = 1 + X / (X - 6)\nEND\n => 6\nstatus 1: snobol4: error 3 in statement 3\n
 LONGNAMED = 4\n LONGERNAME = 5\n OUTPUT = LONGNAMED * LONGERNAME + LONGNAMED\nEND\n => 24\n
 N = 1\n OUTPUT = N + INPUT * 2\n OUTPUT = N + 1 + INPUT :S(END)\n OUTPUT = 'none'\nEND\n <- 5\n => 11\nnone\n
 A = LEN(1)\n OUTPUT = 1 + A * 2\nEND\n => status 1: snobol4: error 1 in statement 2\n
";

/// Comparisons and questions inside operations, and what is joined to them.
const CONDITIONS: &str = r"
 N = 2\n X = LT(N * 2 + 1,6) GT(N,1) N * (N + 1)\n OUTPUT = X\nEND\n => 6\n
 X = 'kept'\n X = LT(3,2) GT(1,0) 5 :S(Y)\n X = LT(1,2) GT(0,1) 5 :S(Y)\n OUTPUT = X 'failed' :(END)\nY OUTPUT = 'no'\nEND\n => keptfailed\n
 N = 3\n X = 5 LT(N,4)\n OUTPUT = X 1\n X = (N LT(N,4)) + 1\n OUTPUT = X\nEND\n => 51\n4\n
 OUTPUT = 1 + ~GT(1 + 1,3)\n OUTPUT = 1 + ~LT(1 + 1,3) :S(END)\n OUTPUT = 'fails'\nEND\n => 1\nfails\n
 OUTPUT = LT(1,2) + 5\n OUTPUT = EQ(LT(1,2),0) 7\nEND\n => 5\n7\n
 S = 'abc'\n OUTPUT = SIZE(S) * 2 + SIZE(S)\n OUTPUT = SIZE(12 + 345) + 1\n OUTPUT = INTEGER(3 + 4) 5\n X = INTEGER(S) 5 :S(END)\n OUTPUT = 'no integer'\nEND\n => 9\n4\n5\nno integer\n
 OUTPUT = IDENT(2 + 1,3) 7\n OUTPUT = DIFFER(2 + 1,4) 8\n N = '3'\n OUTPUT = DIFFER(2 + 1,N) 9\n X = IDENT(2 + 1,N) 7 :S(END)\n OUTPUT = 'differs'\nEND\n => 7\n8\n9\ndiffers\n
 A = ARRAY(2,'q')\n OUTPUT = IDENT(A<1>,A<2>) 1 + 1\n A<2> = 'r'\n OUTPUT = LGT(A<2>,A<1>) 3\n X = IDENT(A<1>,A<2>) 1 + 1 :S(END)\n OUTPUT = 'differs'\nEND\n => 2\n3\ndiffers\n
 DEFINE('EQ(X,Y)') :(M)\nEQ EQ = X - Y :(RETURN)\nM OUTPUT = EQ(7,3) + 1 + 1\n OUTPUT = EQ(3,3) 5\nEND\n => 6\n05\n
";

#[test]
fn rows(rt: HostRuntime) -> Result<(), Fail> {
    check_blocks::<Programs, _>(&rt, &[WAITING, OPERATIONS, CONDITIONS])
}
