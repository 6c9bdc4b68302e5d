//! Variables, how they are named, and the operators that turn failure round.
use super::asking::Ways;
use super::rows::check_blocks;
use std::test::Fail;

/// Every other variable begins with null.
const NEW_VARIABLES: &str = r"
X => way 0 0\nway 1 1\nexhausted\n
arb => way 0 0\nway 1 1\nexhausted\n
OUTPUT => way 0 0\nway 1 1\nexhausted\n
X Y => way 0 0\nway 1 1\nexhausted\n
X 'A' => way 0 1\nexhausted\n
X | 'A' => way 0 0\nway 0 1\nway 1 1\nexhausted\n
LEN(X) => way 0 0\nway 1 1\nexhausted\n
X + 1 ; 1 => way 0 1\nexhausted\n
-- ; -X ; 0 => way 0 1\nexhausted\n
INPUT => exhausted\n
'A' | INPUT => exhausted\n
LEN(INPUT) => exhausted\n
ANY(X) => status 1: snobol4: error 6\n
";

const QUERIES_AND_NEGATIONS: &str = r"
?'A' => way 0 0\nway 1 1\nexhausted\n
?INPUT => exhausted\n
~'A' => exhausted\n
~INPUT => way 0 0\nway 1 1\nexhausted\n
~~'A' => way 0 0\nway 1 1\nexhausted\n
~~INPUT => exhausted\n
~?INPUT => way 0 0\nway 1 1\nexhausted\n
?~INPUT => way 0 0\nway 1 1\nexhausted\n
~FAIL => exhausted\n
?FAIL => way 0 0\nway 1 1\nexhausted\n
~('A' INPUT) 'A' => way 0 1\nexhausted\n
'A' ~'B' => exhausted\n
~(1 / 0) => status 1: snobol4: error 3\n
?(1 / 0) => status 1: snobol4: error 3\n
";

/// $X is the variable that the text of X names.
const VARIABLES_BY_THEIR_NAMES: &str = r"
$'X' => way 0 0\nway 1 1\nexhausted\n
$'ARB' => way 0 0\nway 0 1\nway 1 1\nexhausted\n
$('A' 'RB') => way 0 0\nway 0 1\nway 1 1\nexhausted\n
$5 => way 0 0\nway 1 1\nexhausted\n
$'INPUT' => exhausted\n
$INPUT => exhausted\n
LEN(1) . $INPUT => exhausted\n
@$INPUT => exhausted\n
--anchor ; LEN(1) . $'Z' ; A => way 0 1 Z=0-1\nexhausted\n
--anchor ; LEN(1) . $('A' 'B') ; A => way 0 1 AB=0-1\nexhausted\n
--anchor ; LEN(1) . $'A B' ; A => way 0 1 A B=0-1\nexhausted\n
--anchor ; LEN(1) . $'A=' ; A => way 0 1 A==0-1\nexhausted\n
--anchor ; LEN(1) . $(2 + 3) ; A => way 0 1 5=0-1\nexhausted\n
--anchor ; LEN(1) . $-5 ; A => way 0 1 -5=0-1\nexhausted\n
--anchor ; LEN(1) $ $' ' ; A => set   0 1\nway 0 1\nexhausted\n
--anchor ; LEN(1) $ $'A B' ; A => set A B 0 1\nway 0 1\nexhausted\n
--anchor ; @$'A B' ; A => cursor A B 0\nway 0 0\nexhausted\n
--anchor ; LEN(1) . A.B_1 ; A => way 0 1 A.B_1=0-1\nexhausted\n
--anchor ; LEN(1) . (X) ; A => way 0 1 X=0-1\nexhausted\n
";

/// .X is the name of X as a string.
const NAMES_AS_VALUES: &str = r"
--anchor ; .X ; X => way 0 1\nexhausted\n
--anchor ; .(X) ; X => way 0 1\nexhausted\n
--anchor ; .ARB ; ARB => way 0 3\nexhausted\n
--anchor ; .INPUT ; INPUT => way 0 5\nexhausted\n
--anchor ; .$'A B' ; A B => way 0 3\nexhausted\n
--anchor ; .$5 + 1 ; 6 => way 0 1\nexhausted\n
--anchor ; .X .Y ; XY => way 0 2\nexhausted\n
--anchor ; $.X ; A => way 0 0\nexhausted\n
--anchor ; $.ARB ; A => way 0 0\nway 0 1\nexhausted\n
--anchor ; $.INPUT ; A => exhausted\n
--anchor ; .$.X ; X => way 0 1\nexhausted\n
--anchor ; LEN(1) . $.X ; A => way 0 1 X=0-1\nexhausted\n
";

const FORMS_WITHOUT_A_NAME: &str = r"
LEN(1) . 'Z' => status 1: snobol4: error 15\n
LEN(1) $ 'Z' => status 1: snobol4: error 15\n
LEN(1) . 5 => status 1: snobol4: error 15\n
LEN(1) . (A B) => status 1: snobol4: error 15\n
LEN(1) . (1 / 0) => status 1: snobol4: error 15\n
LEN(1) . LEN(1) => status 1: snobol4: error 15\n
LEN(1) $ -X => status 1: snobol4: error 15\n
LEN(1) . .X => status 1: snobol4: error 15\n
LEN(1) . @X => status 1: snobol4: error 15\n
LEN(1) . ?X => status 1: snobol4: error 15\n
LEN(1) . ~INPUT => status 1: snobol4: error 15\n
@'Z' => status 1: snobol4: error 15\n
@5 => status 1: snobol4: error 15\n
@(A B) => status 1: snobol4: error 15\n
@LEN(1) => status 1: snobol4: error 15\n
.'Z' => status 1: snobol4: error 15\n
.(A . B) => status 1: snobol4: error 15\n
..X => status 1: snobol4: error 15\n
@.X => status 1: snobol4: error 15\n
$.'Z' => status 1: snobol4: error 15\n
";

const NULL_NAMES_AND_WRONG_TYPES: &str = r"
$'' => status 1: snobol4: error 6\n
$X => status 1: snobol4: error 6\n
$$'X' => status 1: snobol4: error 6\n
@$'' => status 1: snobol4: error 6\n
.$'' => status 1: snobol4: error 6\n
LEN(1) . $'' => status 1: snobol4: error 6\n
LEN(1) $ $X => status 1: snobol4: error 6\n
LEN(1) . $(?X) => status 1: snobol4: error 6\n
$LEN(1) => status 1: snobol4: error 1\n
$ARB => status 1: snobol4: error 1\n
$(LEN(1) . X) => status 1: snobol4: error 1\n
@$ARB => status 1: snobol4: error 1\n
.$ARB => status 1: snobol4: error 1\n
LEN(1) . $LEN(1) => status 1: snobol4: error 1\n
LEN(LEN(1) . X) => status 1: snobol4: error 1\n
ANY(@X) => status 1: snobol4: error 1\n
1 + @X => status 1: snobol4: error 1\n
";

/// Operands are evaluated, or taken as names, from left to right; the first that fails or is an error decides.
const FAILURES_AND_ERRORS_IN_THEIR_ORDER: &str = r"
INPUT . 'Z' => exhausted\n
INPUT $ $'' => exhausted\n
INPUT . A<1> => exhausted\n
LEN(1) . $(INPUT (1 / 0)) => exhausted\n
~(INPUT . 'Z') => way 0 0\nway 1 1\nexhausted\n
(1 / 0) . 'Z' => status 1: snobol4: error 3\n
(1 / 0) $ $INPUT => status 1: snobol4: error 3\n
LEN(1) . $(1 / 0) => status 1: snobol4: error 3\n
LEN(-1) . 'Z' => status 1: snobol4: error 7\n
LEN(-1) . A<1> => status 1: snobol4: error 7\n
LEN('A') . 'Z' => status 1: snobol4: error 1\n
LEN(1) . 'Z' (1 / 0) => status 1: snobol4: error 15\n
~(LEN(1) . 'Z') => status 1: snobol4: error 15\n
";

#[test]
fn rows(rt: HostRuntime) -> Result<(), Fail> {
    check_blocks::<Ways, _>(
        &rt,
        &[
            NEW_VARIABLES,
            QUERIES_AND_NEGATIONS,
            VARIABLES_BY_THEIR_NAMES,
            NAMES_AS_VALUES,
            FORMS_WITHOUT_A_NAME,
            NULL_NAMES_AND_WRONG_TYPES,
            FAILURES_AND_ERRORS_IN_THEIR_ORDER,
        ],
    )
}
