//! Texts and words that are refused, and errors.
use super::asking::{Commands, Ways};
use super::rows::{check_blocks, check_rows};
use std::test::Fail;

const TEXTS_THAT_ARE_REFUSED: &str = r"
'A => status 2: snobol4: syntax 1 at line 1\n
 => status 2: snobol4: syntax 3 at line 1\n
'A';'B' => status 2: snobol4: syntax 3 at line 1\n
LEN(1)'B' => status 2: snobol4: syntax 3 at line 1\n
'A'|'B' => status 2: snobol4: syntax 3 at line 1\n
() => status 2: snobol4: syntax 3 at line 1\n
9223372036854775808 => status 2: snobol4: syntax 2 at line 1\n
9223372036854775808 ) => status 2: snobol4: syntax 3 at line 1\n
";

const ERRORS_OF_PATTERNS: &str = r"
LEN(-1) => status 1: snobol4: error 7\n
POS(-1) => status 1: snobol4: error 7\n
SPAN('') => status 1: snobol4: error 6\n
ANY() => status 1: snobol4: error 6\n
LEN('A') => status 1: snobol4: error 1\n
LEN(LEN(1)) => status 1: snobol4: error 1\n
1 / 0 => status 1: snobol4: error 3\n
9223372036854775807 + 1 => status 1: snobol4: error 2\n
2 ** -1 => status 1: snobol4: error 7\n
NOSUCH(1 / 0) => status 1: snobol4: error 3\n
NOSUCH(1) => status 1: snobol4: error 4\n
CONVERT(1 / 0) => status 1: snobol4: error 3\n
";

/// A begins with the null string, which is neither an array nor a table; an object is no pattern.
const ITEMS_AND_OBJECTS: &str = r"
A<1> => status 1: snobol4: error 1\n
A<> => status 1: snobol4: error 1\n
A<1,LEN(1)> => status 1: snobol4: error 1\n
A<B[1],1 / 0> => status 1: snobol4: error 1\n
@A<1> => status 1: snobol4: error 1\n
.A[1] => status 1: snobol4: error 1\n
LEN(1) . A<1> => status 1: snobol4: error 1\n
LEN(1) $ A<1> => status 1: snobol4: error 1\n
TABLE() => status 1: snobol4: error 1\n
ARRAY('1') => status 1: snobol4: error 1\n
~ARRAY('1') => exhausted\n
$PROTOTYPE(1 / 0) => status 1: snobol4: error 3\n
$TABLE() => status 1: snobol4: error 1\n
";

/// A call for help is status 0, and the others are faults of usage.
const WORDS_THAT_ARE_REFUSED: &str = r"
snobol4 ways --steps 1000000001 'A' A => status 64
snobol4 ways --steps -1 'A' A => status 64
snobol4 ways --steps x 'A' A => status 64
snobol4 ways 'A' => status 64
snobol4 ways => status 64
snobol4 check => status 64
snobol4 => status 64
snobol4 --help => status 0
";

#[test]
fn rows(rt: HostRuntime) -> Result<(), Fail> {
    check_blocks::<Ways, _>(
        &rt,
        &[
            TEXTS_THAT_ARE_REFUSED,
            ERRORS_OF_PATTERNS,
            ITEMS_AND_OBJECTS,
        ],
    )?;
    check_rows::<Commands, _>(&rt, WORDS_THAT_ARE_REFUSED)
}
