//! Patterns that a statement makes again at each turn, worked out by hand: it takes the one that it made before, but
//! where a variable, a function or a target is another one by then.
use super::asking::Programs;
use super::rows::check_blocks;
use std::test::Fail;

/// What is the same at each turn.
const SAME: &str = r"
 S = 'abc'\nL S LEN(1) . C = :F(E)\n OUTPUT = C :(L)\nE OUTPUT = 'end' S\nEND\n => a\nb\nc\nend\n
 S = 'ab'\nL I = LT(I,3) I + 1 :F(END)\n S ('x' | '') . X REM . R\n OUTPUT = '<' X R '>' :(L)\nEND\n => <ab>\n<ab>\n<ab>\n
 S = 'abe'\nL I = LT(I,3) I + 1 :F(END)\n S 'e' @J\n OUTPUT = J\n S = 'x' S :(L)\nEND\n => 3\n4\n5\n
 S = 'ab'\nL I = LT(I,3) I + 1 :F(END)\n S LEN(1) . X\n S LEN(1) . Y RPOS(0)\n OUTPUT = X Y :(L)\nEND\n => ab\nab\nab\n
 S = 'aab'\nL I = LT(I,3) I + 1 :F(END)\n S ARBNO('a') . X 'b'\n S FENCE('a' | 'aa') $ Y 'b'\n OUTPUT = X ',' Y :(L)\nEND\n => aa,a\naa,a\naa,a\n
";

/// From the third turn on something is another.
const CHANGED: &str = r"
 S = 'xaybz'\nL I = LT(I,4) I + 1 :F(END)\n D = 'a'\n D = GT(I,2) 'y'\n S D REM . R\n OUTPUT = R :(L)\nEND\n => ybz\nybz\nbz\nbz\n
 S = 'abcdef'\nL I = LT(I,4) I + 1 :F(END)\n K = 2\n K = GT(I,2) 3\n S LEN(K) . X LEN(1) . Y\n OUTPUT = X Y :(L)\nEND\n => abc\nabc\nabcd\nabcd\n
 S = 'ab'\nL I = LT(I,4) I + 1 :F(END)\n N = ''\n N = GT(I,2) 'a'\n S N LEN(1) . X\n OUTPUT = X :(L)\nEND\n => a\na\nb\nb\n
 S = 'aab'\n E = 'a'\nL I = LT(I,4) I + 1 :F(END)\n E = GT(I,2) 'b'\n S *E $ X REM . R\n OUTPUT = X R :(L)\nEND\n => aab\naab\nb\nb\n
 P = 'a'\n S = 'xab'\nL I = LT(I,4) I + 1 :F(END)\n P = GT(I,2) LEN(2)\n S P . X RTAB(0)\n OUTPUT = X :(L)\nEND\n => a\na\nxa\nxa\n
 S = 'xyb'\nL I = LT(I,4) I + 1 :F(END)\n EQ(I,3) DEFINE('LEN(N)')\n S LEN(1) . X\n OUTPUT = X :(L)\nLEN LEN = 'b' :(RETURN)\nEND\n => x\nx\nb\nb\n
 A = ARRAY(3)\n S = 'xyz'\nL I = LT(I,3) I + 1 :F(P)\n S TAB(I - 1) LEN(1) . A<I> :(L)\nP OUTPUT = A<1> A<2> A<3>\nEND\n => xyz\n
 S = 'abcd'\nL I = LT(I,4) I + 1 :F(END)\n D = 'bc'\n D = GT(I,2) 'cd'\n S ANY(D) . X\n OUTPUT = X :(L)\nEND\n => b\nb\nc\nc\n
 S = 'xaby'\nL I = LT(I,4) I + 1 :F(END)\n D = 'ab'\n D = GT(I,2) 'ba'\n S SPAN(D) . X\n OUTPUT = X :(L)\nEND\n => ab\nab\nab\nab\n
 S = 'cb'\nL I = LT(I,4) I + 1 :F(END)\n D = DUPL('a',300) 'b'\n D = GT(I,2) DUPL('a',300) 'c'\n S ANY(D) . X\n OUTPUT = X :(L)\nEND\n => b\nb\nc\nc\n
 A = ARRAY('0:255')\n I = 0\nL &ALPHABET POS(I) LEN(1) . C\n A<I> = ANY(C)\n I = LT(I,255) I + 1 :S(L)\n I = 0\nM &ALPHABET POS(I) LEN(1) . C\n C A<I> :F(N)\n K = K + 1\nN I = LT(I,255) I + 1 :S(M)\n OUTPUT = K\nEND\n => 256\n
 S = 'a,b;c'\n D = ','\nL S BREAK(D) . X D = :F(E)\n OUTPUT = X\n D = ';' :(L)\nE OUTPUT = S\nEND\n => a\nb\nc\n
";

/// Turns in which a variable holds one value and then another, and the same again.
const VARYING: &str = r"
 S = 'abcd'\nL J = 0\nM S TAB(J) LEN(1) . C\n R = R C\n J = LT(J,3) J + 1 :S(M)\n I = LT(I,2) I + 1 :S(L)\n OUTPUT = R\nEND\n => abcdabcdabcd\n
 S = 'abcdefghi'\nL J = 1\nM S TAB(J - 1) LEN(2 * J) . C\n OUTPUT = C\n J = LT(J,3) J + 1 :S(M)\n I = LT(I,1) I + 1 :S(L)\nEND\n => ab\nbcde\ncdefgh\nab\nbcde\ncdefgh\n
 S = 'abc'\n K = '2'\nL S LEN(K - 1) . X\n OUTPUT = X\n I = LT(I,2) I + 1 :S(L)\nEND\n => a\na\na\n
 S = 'a fox'\nL I = LT(I,4) I + 1 :F(END)\n W = 'fox'\n W = EQ(REMDR(I,2),0) 'dog'\n R = 'no'\n S W :F(M)\n R = 'yes'\nM OUTPUT = R :(L)\nEND\n => yes\nno\nyes\nno\n
 S = 'ayb axb'\nL I = LT(I,4) I + 1 :F(END)\n W = 'axb'\n W = EQ(REMDR(I,2),0) 'ayb'\n S W @J\n OUTPUT = J :(L)\nEND\n => 7\n3\n7\n3\n
 S = 'abc'\n J = 4\nL J = J - 1\n S LEN(J - 1) . X\n OUTPUT = X :(L)\nEND\n => ab\na\n\nstatus 1: snobol4: error 7 in statement 4\n
";

/// First ways that are found with no match begun, and those for which that isn't enough.
const DIRECT: &str = r"
 S = 'abcdefghij'\n S LEN(1) . A LEN(1) . B LEN(1) . C LEN(1) . D LEN(1) . E LEN(1) . F LEN(1) . G LEN(1) . H LEN(1) . I\n OUTPUT = A B C D E F G H I\nEND\n => abcdefghi\n
 S = 'abc'\n S LEN(1) . S LEN(1) . T\n OUTPUT = S T\nEND\n => ab\n
 S = 'abc'\n S LEN(1) . OUTPUT LEN(1) . OUTPUT\n OUTPUT = 'end'\nEND\n => a\nb\nend\n
 S = 'abc'\n S FENCE LEN(1) . X 'b' REM . Y = X Y\n OUTPUT = S\nEND\n => ac\n
 S = 'aab'\n S ARBNO('a') . X LEN(1) . Y\n OUTPUT = '<' X '>' Y\nEND\n => <>a\n
 S = 'aab'\n S ('a' | 'aa') . X 'b' :S(F)\n OUTPUT = 'no'\nF OUTPUT = X\nEND\n => aa\n
 S = 'aab'\n P = LEN(1) . C\nL S P = :F(E)\n OUTPUT = C S :(L)\nE OUTPUT = 'end'\nEND\n => aab\nab\nb\nend\n
 S = 'xab'\n P = 'a' LEN(1) . C\n S P = '-'\n OUTPUT = S C\n S 'x' P :S(END)\n OUTPUT = 'no'\nEND\n => x-b\nno\n
";

#[test]
fn rows(rt: HostRuntime) -> Result<(), Fail> {
    check_blocks::<Programs, _>(&rt, &[SAME, CHANGED, VARYING, DIRECT])
}
