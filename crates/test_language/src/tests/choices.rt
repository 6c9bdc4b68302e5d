//! Choices in the order in which they are tried, and the steps that they take.
use super::asking::Ways;
use super::rows::check_blocks;
use std::test::Fail;

const CHOICES_IN_ORDER: &str = r"
--anchor ; 'A' | 'AB' ; AB => way 0 1\nway 0 2\nexhausted\n
--anchor ; 'A' LEN(1) | LEN(1) ; AB => way 0 2\nway 0 1\nexhausted\n
LEN(1) 'B' ; ABB => way 0 2\nway 1 3\nexhausted\n
'A' 'B' ; ACAB => way 2 4\nexhausted\n
'' ;  => way 0 0\nexhausted\n
FAIL ;  => exhausted\n
-- ; '-' ; - => way 0 1\nexhausted\n
";

const STEPS_AND_THE_LIMIT: &str = r"
--anchor --steps 3 ; 'A' | 'AB' ; AB => way 0 1\nlimit\n
--anchor --steps 4 ; 'A' | 'AB' ; AB => way 0 1\nway 0 2\nexhausted\n
--steps 0 ; 'A' ; A => limit\n
--steps 1 ; 'A' ; A => way 0 1\nlimit\n
--steps 2 ; 'A' ; A => way 0 1\nlimit\n
--steps 3 ; 'A' ; A => way 0 1\nexhausted\n
--anchor --steps 6 ; 'A' LEN(1) | LEN(1) ; AB => way 0 2\nway 0 1\nexhausted\n
--anchor --steps 5 ; 'A' LEN(1) | LEN(1) ; AB => way 0 2\nlimit\n
--steps 14 ; LEN(1) 'B' ; ABB => way 0 2\nway 1 3\nexhausted\n
--steps 13 ; LEN(1) 'B' ; ABB => way 0 2\nway 1 3\nlimit\n
";

/// Two strings join to one text, which is one goal; a null operand leaves the other unchanged.
const GOALS_OF_A_CONCATENATION: &str = r"
--anchor --steps 1 ; 'A' 'B' ; AB => way 0 2\nexhausted\n
--anchor --steps 1 ; '' 'A' ; A => way 0 1\nexhausted\n
--anchor --steps 1 ; LEN(1) '' ; A => way 0 1\nexhausted\n
--anchor --steps 3 ; LEN(1) 'B' ; AB => way 0 2\nexhausted\n
--anchor --steps 2 ; LEN(1) 'B' ; AB => limit\n
";

const REPETITIONS_AND_STOPS: &str = r"
--anchor --steps 48 ; ARBNO('A' | 'AA') ; AAA => way 0 0\nway 0 1\nway 0 2\nway 0 3\nway 0 3\nway 0 2\nway 0 3\nexhausted\n
--anchor --steps 47 ; ARBNO('A' | 'AA') ; AAA => way 0 0\nway 0 1\nway 0 2\nway 0 3\nway 0 3\nway 0 2\nway 0 3\nlimit\n
--anchor ; ARBNO('') ; A => way 0 0\nexhausted\n
--anchor --steps 6 ; ARBNO('A') ; A => way 0 0\nway 0 1\nlimit\n
--anchor --steps 7 ; ARBNO('A') ; A => way 0 0\nway 0 1\nexhausted\n
'A' FENCE 'B' ; ACAB => aborted\n
--steps 3 ; SUCCEED ;  => way 0 0\nway 0 0\nway 0 0\nlimit\n
'A' ABORT | 'B' ; BA => way 0 1\naborted\n
--anchor ; FENCE 'A' | 'B' ; B => aborted\n
";

#[test]
fn rows(rt: HostRuntime) -> Result<(), Fail> {
    check_blocks::<Ways, _>(
        &rt,
        &[
            CHOICES_IN_ORDER,
            STEPS_AND_THE_LIMIT,
            GOALS_OF_A_CONCATENATION,
            REPETITIONS_AND_STOPS,
        ],
    )
}
