//! Variables that are set, and what OUTPUT writes of the values that it is given.
use super::asking::Programs;
use super::rows::check_blocks;
use std::test::Fail;

/// OUTPUT writes a text as a line, and keeps the value.
const VALUES_GIVEN_TO_OUTPUT: &str = r"
 OUTPUT = 'AB'\n OUTPUT = OUTPUT DATATYPE(OUTPUT)\nEND\n => AB\nABSTRING\n
 OUTPUT =\n OUTPUT = '<' OUTPUT '>'\nEND\n => \n<>\n
 OUTPUT = -5\n OUTPUT = OUTPUT DATATYPE(OUTPUT)\nEND\n => -5\n-5INTEGER\n
";

/// Other variables write nothing, and INPUT has no lines whatever it was given.
const VALUES_GIVEN_TO_VARIABLES: &str = r"
 OUTPUT = '<' X '>'\n X = 1\n OUTPUT = X DATATYPE(X)\nEND\n => <>\n1INTEGER\n
 INPUT = 1\nEND\n => status 0
 INPUT = 1\n X = INPUT :S(END)\n OUTPUT = 'fails'\nEND\n => fails\n
";

#[test]
fn rows(rt: HostRuntime) -> Result<(), Fail> {
    check_blocks::<Programs, _>(&rt, &[VALUES_GIVEN_TO_OUTPUT, VALUES_GIVEN_TO_VARIABLES])
}
