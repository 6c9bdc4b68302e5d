//! The longest and deepest texts that are read, and the first that are not.
use super::reading::{Nodes, Sizes};
use super::rows::check_blocks;
use std::test::Fail;

const LONG_EXPRESSIONS: &str = r"
\<7000:+\>1 => 0 statements, 7001 nodes
\<7999: \>1 => 0 statements, 1 nodes
\<7999: \>1\s => snobol4: too large at line 1
\<1500:1 ** \>1 => 0 statements, 3001 nodes
\<2000:'' \> => 0 statements, 3999 nodes
";

/// All kinds count alike. One that closes makes room for another, those in literals aren't counted, and the count
/// doesn't fall below 0.
const BRACKETS: &str = r"
\<40:(\>1\<40:)\> => 0 statements, 1 nodes
\<40:(\>1\<40:)\> (1) => 0 statements, 3 nodes
'\<100:(<[\>' => 0 statements, 1 nodes
\<13:F(A<B[\>(1)\<13:]>)\> => 0 statements, 40 nodes
\<13:F(A<B[\>((1))\<13:]>)\> => snobol4: too large at line 1
)))\<40:(\> => snobol4: syntax 3 at line 1
)))\<40:(\>[ => snobol4: too large at line 1
";

const LARGE_PROGRAMS: &str = r"
\<99999: X = X 'ABCDEFGHIJKLMNOPQRSTUVWXYZ'\n\>END\n => 100000 statements, 399996 nodes
";

/// The bytes of a statement are those of its lines, their ends, the lines between and the `;` left out.
const LONG_STATEMENTS: &str = r"
 X\<7997: \>\n* note\n+\nEND => 2 statements, 1 nodes
 X\<7997: \>\r\n\r\n+\r\nEND => 2 statements, 1 nodes
 X\<7997: \>\n+;\nEND => 2 statements, 1 nodes
 X\<7997: \> ; X;END => 3 statements, 2 nodes
 X\<7997: \>\n+\n+\nEND => snobol4: too large at line 1
 X\<7997: \>  ;END => snobol4: too large at line 1
 X\<7997: \>\n+\t\nEND => snobol4: too large at line 1
";

#[test]
fn rows(rt: HostRuntime) -> Result<(), Fail> {
    check_blocks::<Nodes, _>(&rt, &[LONG_EXPRESSIONS, BRACKETS])?;
    check_blocks::<Sizes, _>(&rt, &[LARGE_PROGRAMS, LONG_STATEMENTS])
}
