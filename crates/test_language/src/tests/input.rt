//! Lines of input as values.
use super::asking::Programs;
use super::rows::check_blocks;
use std::test::Fail;

const LINES_ARE_VALUES: &str = r"
 OUTPUT = INPUT\nEND\n <- a\nb\n => a\n
 OUTPUT = INPUT\nEND\n <- a => a\n
 OUTPUT = INPUT\nEND\n <- \nb => \n
 OUTPUT = '<' INPUT '>'\nEND\n <- a  \n => <a  >\n
 &TRIM = 1\n OUTPUT = '<' INPUT '>'\nEND\n <- a  \n => <a>\n
 &TRIM = -1\n OUTPUT = '<' INPUT '>'\nEND\n <- a \t \n => <a \t>\n
";

const INPUT_ENDS_IN_FAILURE: &str = r"
 X = INPUT :S(END)\n OUTPUT = 'fails'\nEND\n => fails\n
";

const LONG_LINES: &str = r"
 OUTPUT = SIZE(INPUT)\nEND\n <- \<1000000:A\> => 1000000\n
 OUTPUT = SIZE(INPUT)\nEND\n <- \<1000001:A\> => status 1: snobol4: error 8 in statement 1\n
";

#[test]
fn rows(rt: HostRuntime) -> Result<(), Fail> {
    check_blocks::<Programs, _>(&rt, &[LINES_ARE_VALUES, INPUT_ENDS_IN_FAILURE, LONG_LINES])
}
