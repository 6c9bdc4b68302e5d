//! Forms and what they give of their operands, worked out by hand.
use super::asking::Values;
use super::machine::PatternNumbers;
use super::rows::{check_blocks, check_rows};
use std::test::Fail;

const ARITHMETIC: &str = r"
-7 / 2 => <-3>
0 ** 0 => <1>
2 ** 62 => <4611686018427387904>
2 ** 63 => error 2
2 ** -1 => error 7
1 - 2 => <-1>
6 * 7 => <42>
1 / 0 => error 3
-5 => <-5>
-'-9223372036854775808' => error 2
+5 => <5>
12 => <12>
";

/// What arithmetic gives is an integer, and a text is a string.
const TYPES: &str = r"
DATATYPE(-7 / 2) => <INTEGER>
DATATYPE(0 ** 0) => <INTEGER>
DATATYPE(2 ** 62) => <INTEGER>
DATATYPE(1 - 2) => <INTEGER>
DATATYPE(6 * 7) => <INTEGER>
DATATYPE(-5) => <INTEGER>
DATATYPE(+5) => <INTEGER>
DATATYPE(12) => <INTEGER>
DATATYPE('AB') => <STRING>
DATATYPE('A' 'BC') => <STRING>
DATATYPE('' 'B') => <STRING>
DATATYPE(X) => <STRING>
DATATYPE($'Y') => <STRING>
DATATYPE(?'A') => <STRING>
DATATYPE(1 (-2)) => <STRING>
DATATYPE('' 5) => <INTEGER>
DATATYPE(.FENCE) => <STRING>
";

const STRINGS: &str = r"
'AB' => <AB>
'A' 'BC' => <ABC>
'' 'B' => <B>
'A' + '1' => error 1
&K => error 14
*X => error 1
A<1> => error 1
X => <>
$'Y' => <>
?'A' => <>
~'A' => fails
INPUT => fails
$'INPUT' => fails
$'' => error 6
SIZE(DUPL('A',500000) DUPL('A',500000)) => <1000000>
SIZE(DUPL('A',500000) DUPL('A',500001)) => error 8
1 (-2) => <1-2>
'' 5 => <5>
.FENCE => <FENCE>
";

/// Seven patterns are there from the start; each new one takes the next number.
const PATTERNS: &str = r"
ARB => pattern 0
FENCE => pattern 4
ABORT => pattern 5
SUCCEED => pattern 6
'A' | 'B' => pattern 9
ARBNO('A') => pattern 8
ARBNO() => pattern 8
LEN('3') => pattern 7
LEN() => pattern 7
LEN('A') => error 1 in statement 0
POS('-1') => error 7 in statement 0
SPAN('') => error 6 in statement 0
ANY() => error 6 in statement 0
BREAK(',') => pattern 7
BREAKX(',') => pattern 7
BREAKX() => error 6 in statement 0
FENCE('A') => pattern 8
FENCE() => pattern 8
FENCE(1,2) => pattern 8
FENCE(TABLE()) => error 1 in statement 0
TABLE('A') => error 1 in statement 0
'A' . OUTPUT => pattern 8
'A' $ OUTPUT => pattern 8
@OUTPUT => pattern 7
$.FENCE => pattern 4
$.INPUT => fails
";

#[test]
fn rows(rt: HostRuntime) -> Result<(), Fail> {
    check_blocks::<Values, _>(&rt, &[ARITHMETIC, TYPES, STRINGS])?;
    check_rows::<PatternNumbers, _>(&rt, PATTERNS)
}
