//! What an item is of is evaluated first, then the subscripts from left to right, and then both are judged.
use super::asking::{Programs, Ways};
use super::rows::check_blocks;
use std::test::Fail;

const ITEMS_THAT_FAIL: &str = r"
INPUT<1> => exhausted\n
INPUT<1 / 0> => exhausted\n
A<INPUT,1 / 0> => exhausted\n
A[B<INPUT>] => exhausted\n
~INPUT[1 / 0] => way 0 0\nway 1 1\nexhausted\n
~A<INPUT> => way 0 0\nway 1 1\nexhausted\n
.INPUT<1 / 0> => exhausted\n
@A<INPUT> => exhausted\n
LEN(1) . INPUT<1 / 0> => exhausted\n
LEN(1) $ A<INPUT,1 / 0> => exhausted\n
";

const ERRORS_OF_SUBSCRIPTS: &str = r"
A<1 / 0> => status 1: snobol4: error 3\n
A[1 / 0,INPUT] => status 1: snobol4: error 3\n
A<1 / 0,LEN('A')> => status 1: snobol4: error 3\n
A<B<1 / 0>> => status 1: snobol4: error 3\n
~A<1 / 0> => status 1: snobol4: error 3\n
.A<1 / 0> => status 1: snobol4: error 3\n
@A[1 / 0] => status 1: snobol4: error 3\n
LEN(1) . A<1,1 / 0> => status 1: snobol4: error 3\n
LEN(1) $ A<1 / 0> => status 1: snobol4: error 3\n
A<LEN('A'),1 / 0> => status 1: snobol4: error 1\n
";

/// Elements of two subscripts, entries and fields, as values and as names.
const PLACES: &str = r"
 A = ARRAY('2,3','z')\n A<1,2> = 'x'\n I = 2\n A<I,I + 1> = A<1,2> 'y'\n OUTPUT = A<1,2> A<2,3> A<2,1>\n A<2,4> = 1 :S(END)\n OUTPUT = A<3,1> :S(END)\n OUTPUT = 'out'\n A<1> = 2\nEND\n => xxyz\nout\nstatus 1: snobol4: error 12 in statement 9\n
 A = ARRAY('2,3','z')\n A<'2','3'> = 'w'\n A<'1',2> = A<2,'3'> 1\n OUTPUT = A<2,3> A<1,2>\n OUTPUT = A<1,'b'>\nEND\n => ww1\nstatus 1: snobol4: error 1 in statement 5\n
 T = TABLE()\n K = 'k'\n IDENT(T<K>) :F(END)\n X = T<K>\n OUTPUT = SIZE(X) DATATYPE(X)\n A = CONVERT(T,'ARRAY') :S(END)\n OUTPUT = 'none'\nEND\n => 0STRING\nnone\n
 T = TABLE()\n I = 3\n T<I> = 'a'\n T<I + 1> = 'b'\n T<'3'> = 'c'\n OUTPUT = T<3> T<4> T<'3'>\n T<I> = T<I> T<'4'> T<4>\n OUTPUT = T<3>\nEND\n => abc\nab\n
 T = TABLE()\n P = LEN(1)\n T<P> = 1\nEND\n => status 1: snobol4: error 1 in statement 3\n
 T = TABLE()\n P = LEN(1)\n X = T<P>\nEND\n => status 1: snobol4: error 1 in statement 3\n
 DATA('NODE(VAL,NEXT)')\n P = NODE(1,NODE(2,3))\n VAL(P) = VAL(P) + 10\n VAL(NEXT(P)) = 'b'\n OUTPUT = VAL(P) VAL(NEXT(P)) NEXT(NEXT(P))\nEND\n => 11b3\n
 DATA('NODE(VAL)')\n P = NODE(5)\n OUTPUT = VAL(P)\n DEFINE('VAL(X)')\n OUTPUT = VAL(P)\n VAL(P) = 1 :(END)\nVAL VAL = 'own' :(RETURN)\nEND\n => 5\nown\nstatus 1: snobol4: error 15 in statement 6\n
 DATA('PAIR(L,R)')\n DATA('ONE(V)')\n P = ONE(1)\n L(P) = 2\nEND\n => status 1: snobol4: error 1 in statement 4\n
 DATA('NODE(VAL)')\n P = NODE(1)\n VAL(P,Q) = 5\n OUTPUT = VAL(P,7)\n VAL(7) = 5\nEND\n => 5\nstatus 1: snobol4: error 1 in statement 5\n
 DATA('NODE(VAL,NEXT)')\n P = NODE(2,NODE(3))\n GT(VAL(NEXT(P)),VAL(P)) :F(END)\n IDENT(NEXT(NEXT(P))) :F(END)\n DIFFER(VAL(P),'2') :F(END)\n OUTPUT = VAL(P) * VAL(NEXT(P))\n OUTPUT = VAL(5)\nEND\n => 6\nstatus 1: snobol4: error 1 in statement 7\n
";

/// Strings, integers and null, compared with literals.
const COMPARED: &str = r"
 S = 'abc'\n DIFFER(S,'abc') :S(END)\n IDENT(S,'abc') :F(END)\n N = 5\n DIFFER(N,'5') :F(END)\n LGT(S,'abb') :F(END)\n LGT(S,'abc') :S(END)\n LGT(N,'4') :F(END)\n IDENT(M,'') :F(END)\n DIFFER(S,'') :F(END)\n OUTPUT = 'all'\nEND\n => all\n
 DEFINE('DIFFER(X,Y)') :(M)\nDIFFER DIFFER = X Y :(RETURN)\nM S = 'a'\n OUTPUT = DIFFER(S,'a')\nEND\n => aa\n
 T = TABLE()\n T<1> = 'b'\n IDENT(T<1>,'b') :F(END)\n IDENT(T<2>,'b') :S(END)\n LGT(T<1>,'a') :F(END)\n LGT(T<2>,'a') :S(END)\n OUTPUT = 'all'\nEND\n => all\n
";

#[test]
fn rows(rt: HostRuntime) -> Result<(), Fail> {
    check_blocks::<Ways, _>(&rt, &[ITEMS_THAT_FAIL, ERRORS_OF_SUBSCRIPTS])?;
    check_blocks::<Programs, _>(&rt, &[PLACES, COMPARED])
}
