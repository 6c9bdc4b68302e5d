//! The functions of numbers, texts and types, worked out by hand.
use super::asking::Values;
use super::rows::check_blocks;
use std::test::Fail;

const COMPARISONS_THAT_HOLD: &str = r"
EQ(1,1) => <>
EQ('01','+1') => <>
EQ('',0) => <>
EQ() => <>
NE(1,2) => <>
LT(-1,0) => <>
LT('-9223372036854775808',9223372036854775807) => <>
LE(0,0) => <>
LE(-1,0) => <>
GT(1,0) => <>
GT(0,'-9223372036854775808') => <>
GE(0,0) => <>
GE(10,9) => <>
";

const COMPARISONS_THAT_FAIL: &str = r"
EQ(1,2) => fails
EQ(1) => fails
NE(2,'2') => fails
LT(0,0) => fails
LT(1,0) => fails
LE(1,0) => fails
GT(0,0) => fails
GT(0,1) => fails
GE(-1,0) => fails
GE(9,10) => fails
";

const COMPARISONS_OF_OTHER_VALUES: &str = r"
EQ('a',1) => error 1
EQ(1,'a') => error 1
EQ(LEN(1),1) => error 1
EQ(1,ARB) => error 1
NE('a',1) => error 1
NE(1,'a') => error 1
NE(LEN(1),1) => error 1
NE(1,ARB) => error 1
LT('a',1) => error 1
LT(1,'a') => error 1
LT(LEN(1),1) => error 1
LT(1,ARB) => error 1
LE('a',1) => error 1
LE(1,'a') => error 1
LE(LEN(1),1) => error 1
LE(1,ARB) => error 1
GT('a',1) => error 1
GT(1,'a') => error 1
GT(LEN(1),1) => error 1
GT(1,ARB) => error 1
GE('a',1) => error 1
GE(1,'a') => error 1
GE(LEN(1),1) => error 1
GE(1,ARB) => error 1
EQ('a',LEN(1)) => error 1
EQ(1,'9223372036854775808') => error 1
";

const REMAINDERS: &str = r"
REMDR(-7,2) => <-1>
REMDR(7,-2) => <1>
REMDR('7','4') => <3>
REMDR() => error 3
REMDR(7,0) => error 3
REMDR('-9223372036854775808',-1) => <0>
REMDR('a',0) => error 1
REMDR(0,'a') => error 1
REMDR(LEN(1),2) => error 1
REMDR(2,LEN(1)) => error 1
";

const EQUAL_AND_OTHER_VALUES: &str = r"
IDENT(1,1) => <>
IDENT('A','A') => <>
IDENT() => <>
IDENT('',OUTPUT) => <>
IDENT(LEN(1),LEN(1)) => error 1
IDENT(ARB,ARB) => error 1
IDENT('1',1) => fails
IDENT('A','B') => fails
IDENT('A','AB') => fails
IDENT('','A') => fails
IDENT(1,2) => fails
IDENT(ARB,'ARB') => fails
IDENT('A',LEN(1)) => fails
IDENT(.X,'X') => <>
DIFFER('1',1) => <>
DIFFER('A','B') => <>
DIFFER(1,2) => <>
DIFFER(ARB,'ARB') => <>
DIFFER('A') => <>
DIFFER() => fails
DIFFER(1,1) => fails
DIFFER('A','A') => fails
DIFFER(LEN(1),LEN(1)) => error 1
DIFFER(ARB,REM) => error 1
";

const BYTE_ORDER: &str = r"
LGT('B','A') => <>
LGT('A','A') => fails
LGT('A','B') => fails
LGT('A','') => <>
LGT('','') => fails
LGT('AB','A') => <>
LGT('A','AB') => fails
LGT('B','AB') => <>
LGT(9,10) => <>
LGT('ÿ','z') => <>
LGT(LEN(1),'A') => error 1
LGT('A',LEN(1)) => error 1
";

const INTEGERS: &str = r"
INTEGER('') => <>
INTEGER() => <>
INTEGER(-5) => <>
INTEGER('-5') => <>
INTEGER('+007') => <>
INTEGER('9223372036854775807') => <>
INTEGER('9223372036854775808') => fails
INTEGER('-') => fails
INTEGER(' 1') => fails
INTEGER('1A') => fails
INTEGER(LEN(1)) => fails
";

const SIZES: &str = r"
SIZE(-10) => <3>
SIZE('') => <0>
SIZE() => <0>
SIZE('two words') => <9>
SIZE('A','BC') => <1>
SIZE(DUPL('AB',500000)) => <1000000>
DATATYPE(SIZE('A')) => <INTEGER>
SIZE(LEN(1)) => error 1
";

const TRAILING_SPACES: &str = r"
TRIM(' A B  ') => < A B>
TRIM('   ') => <>
TRIM('A') => <A>
TRIM('A\t ') => <A\t>
TRIM() => <>
TRIM(10) => <10>
DATATYPE(TRIM(10)) => <STRING>
TRIM(LEN(1)) => error 1
";

const COPIES: &str = r"
DUPL('AB',3) => <ABABAB>
DUPL('AB',1) => <AB>
DUPL('AB',0) => <>
DUPL('AB') => <>
DUPL(12,'2') => <1212>
DUPL('',9223372036854775807) => <>
DUPL('A',-1) => fails
DUPL('',-1) => fails
DUPL('A','-9223372036854775808') => fails
DUPL('AB',500001) => error 8
DUPL('A',9223372036854775807) => error 8
DUPL('A','x') => error 1
DUPL('A',LEN(1)) => error 1
DUPL(LEN(1),'x') => error 1
DUPL(LEN(1),-1) => error 1
";

const MANY_COPIES: &str = r"
IDENT(DUPL('AB',1000),DUPL('ABAB',500)) => <>
IDENT(DUPL('ABC',1001),'ABC' DUPL('ABC',1000)) => <>
IDENT(DUPL('ABC',1001),DUPL('ABC',1000) 'ABC') => <>
SIZE(DUPL('ABC',333333)) => <999999>
DUPL('ABC',333334) => error 8
";

const REPLACEMENTS: &str = r"
REPLACE('ABA','AB','XY') => <XYX>
REPLACE('A','AA','XY') => <Y>
REPLACE('ABC','C','A') => <ABA>
REPLACE('','A','X') => <>
REPLACE(121,1,3) => <323>
REPLACE('AB','AB','BA') => <BA>
DATATYPE(REPLACE(1,1,2)) => <STRING>
REPLACE('A','AB','X') => fails
REPLACE('A','A','XY') => fails
REPLACE('A','','') => fails
REPLACE('A','','X') => fails
REPLACE() => fails
REPLACE(LEN(1),'A','XY') => error 1
REPLACE('A',LEN(1),'X') => error 1
REPLACE('A','',LEN(1)) => error 1
";

const NAMES_OF_TYPES: &str = r"
DATATYPE('' 5) => <INTEGER>
DATATYPE(1 2) => <STRING>
DATATYPE('1') => <STRING>
DATATYPE(1) => <INTEGER>
DATATYPE() => <STRING>
DATATYPE(LEN(1)) => <PATTERN>
DATATYPE('A' | 'B') => <PATTERN>
DATATYPE(.X) => <STRING>
DATATYPE(DATATYPE(1)) => <STRING>
";

/// All are evaluated first; missing ones are null, and further ones are dropped.
const ARGUMENTS: &str = r"
SIZE(1 / 0) => error 3
EQ(1,1,2) => <>
EQ(1,1,1 / 0) => error 3
EQ(LEN(1),1 / 0) => error 3
SIZE(EQ(1,2)) => fails
EQ(INPUT,1 / 0) => fails
DUPL(LEN(1),EQ(1,2)) => fails
SIZE(INPUT) => fails
IDENT(X) => <>
EQ(N,0) 1 => <1>
'A' EQ(1,1) => <A>
";

const FUNCTIONS_BY_THEIR_NAMES: &str = r"
CONVERT(1 / 0) => error 3
ARRAY(1 / 0) => error 3
TABLE(1 / 0) => error 3
PROTOTYPE(1 / 0) => error 3
DEFINE(1 / 0) => error 3
NOSUCH(1) => error 4
size('A') => error 4
SIZES('A') => error 4
";

#[test]
fn rows(rt: HostRuntime) -> Result<(), Fail> {
    check_blocks::<Values, _>(
        &rt,
        &[
            COMPARISONS_THAT_HOLD,
            COMPARISONS_THAT_FAIL,
            COMPARISONS_OF_OTHER_VALUES,
            REMAINDERS,
            EQUAL_AND_OTHER_VALUES,
            BYTE_ORDER,
            INTEGERS,
            SIZES,
            TRAILING_SPACES,
            COPIES,
            MANY_COPIES,
            REPLACEMENTS,
            NAMES_OF_TYPES,
            ARGUMENTS,
            FUNCTIONS_BY_THEIR_NAMES,
        ],
    )
}
