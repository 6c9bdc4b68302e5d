//! Which refusal is told where several fit.
use super::reading::{Nodes, Sizes};
use super::rows::{check_blocks, check_rows, check_texts};
use sno_text::ReadError;
use std::test::Fail;

const SINGLE_REFUSALS: &str = r"
 X = 1\nEND => 2 statements, 2 nodes
 X = 'A\nEND => snobol4: syntax 1 at line 1
 X = \<8000: \>1\nEND => snobol4: too large at line 1
 X = \<41:(\>1\<41:)\>\nEND => snobol4: too large at line 1
 X = )\nEND => snobol4: syntax 3 at line 1
 X = \#\nEND => snobol4: syntax 2 at line 1
L\nL X = 1\nEND => snobol4: duplicate label at line 2
L\nEND M => snobol4: syntax 4 at line 2
L\nEND\n\n* note\n+ M => snobol4: syntax 4 at line 2
END RETURN => snobol4: syntax 4 at line 1
 X = '\<8000: \>\<41:(\>'\nEND => snobol4: too large at line 1
 X = '\<41:(\>'\nEND => 2 statements, 2 nodes
 X = 1\n => snobol4: no END
 => snobol4: no END
* note\n => snobol4: no END
 END\n => snobol4: no END
end\n => snobol4: no END
";

/// Each two rows of the table of refusals that fit one statement, the one before and behind the other in its text. A
/// label stands first, so nothing comes before a duplicate one. An END that was read ends the program, so no duplicate
/// label is in `END L`; nor is an integer: L is a label there.
const PAIRS_IN_ONE_STATEMENT: &str = r"
-- an open literal, and more than 40 brackets
 X = 'A\<41:(\>1\<41:)\>\nEND => snobol4: syntax 1 at line 1
 X = 'A\n+ \<41:(\>1\<41:)\>\nEND => snobol4: syntax 1 at line 1
 X = \<41:(\>1\<41:)\> 'A\nEND => snobol4: syntax 1 at line 1
 X = \<41:(\>1\<41:)\>\n+ 'A\nEND => snobol4: syntax 1 at line 1
-- an open literal, and more than 8,000 bytes
 X = 'A\<8000: \>\nEND => snobol4: syntax 1 at line 1
 X = 'A\n+\<8000: \>\nEND => snobol4: syntax 1 at line 1
 X = \<8000: \> 'A\nEND => snobol4: syntax 1 at line 1
 X = \<8000: \>\n+ 'A\nEND => snobol4: syntax 1 at line 1
-- an open literal, and a text that is not of the grammar
 X = 'A )\nEND => snobol4: syntax 1 at line 1
 X = 'A\n+ )\nEND => snobol4: syntax 1 at line 1
 ) X = 'A\nEND => snobol4: syntax 1 at line 1
RETURN X = 'A\nEND => snobol4: syntax 1 at line 1
-- an open literal, and an integer that is too large
 X = 'A \#\nEND => snobol4: syntax 1 at line 1
 X = 'A\n+ \#\nEND => snobol4: syntax 1 at line 1
 X = \# 'A\nEND => snobol4: syntax 1 at line 1
-- an open literal behind a duplicate label
L\nL X = 'A\nEND => snobol4: syntax 1 at line 2
-- an open literal, and `END L`
L\nEND M 'A => snobol4: syntax 1 at line 2
L\nEND 'A\n+ M => snobol4: syntax 1 at line 2
-- more than 40 brackets, and a text that is not of the grammar
 X = \<41:(\>1\<41:)\> )\nEND => snobol4: too large at line 1
 X = \<41:(\>1\nEND => snobol4: too large at line 1
 ) X = \<41:(\>1\<41:)\>\nEND => snobol4: too large at line 1
-- more than 8,000 bytes, and a text that is not of the grammar
 X = 1\<8000: \>)\nEND => snobol4: too large at line 1
 ) X\<8000: \>= 1\nEND => snobol4: too large at line 1
-- more than 40 brackets, and an integer that is too large
 X = \<41:(\>1\<41:)\> \#\nEND => snobol4: too large at line 1
 X = \<41:(\>\#\<41:)\>\nEND => snobol4: too large at line 1
 X = \# \<41:(\>1\<41:)\>\nEND => snobol4: too large at line 1
-- more than 8,000 bytes, and an integer that is too large
 X =\<8000: \>\#\nEND => snobol4: too large at line 1
 X = \#\<8000: \>\nEND => snobol4: too large at line 1
-- a statement that is too large, behind a duplicate label
L\nL X = \<41:(\>1\<41:)\>\nEND => snobol4: too large at line 2
L\nL\<8000: \>X = 1\nEND => snobol4: too large at line 2
-- a statement that is too large, and `END L`
L\nEND M \<41:(\> => snobol4: too large at line 2
L\nEND \<41:(\> M => snobol4: too large at line 2
L\nEND M\<8000: \> => snobol4: too large at line 2
L\nEND\<8000: \>M => snobol4: too large at line 2
-- a text that is not of the grammar, and an integer that is too large
 X = ) \#\nEND => snobol4: syntax 3 at line 1
 X = \# )\nEND => snobol4: syntax 3 at line 1
 X = (\#\nEND => snobol4: syntax 3 at line 1
 X = \#A\nEND => snobol4: syntax 3 at line 1
-- a text that is not of the grammar, behind a duplicate label
L\nL )\nEND => snobol4: syntax 3 at line 2
L\nL = 1\nEND => snobol4: syntax 3 at line 2
-- a text that is not of the grammar, and `END L`
L\nEND M ) => snobol4: syntax 3 at line 2
L\nEND ) M => snobol4: syntax 3 at line 2
-- an integer that is too large, behind a duplicate label
L\nL X = \#\nEND => snobol4: syntax 2 at line 2
L\nL \# X\nEND => snobol4: syntax 2 at line 2
L\nL :($\#)\nEND => snobol4: syntax 2 at line 2
-- a label of digits is no integer
\#\n\# X\nEND => snobol4: duplicate label at line 2
L\nEND \# => snobol4: syntax 4 at line 2
\# :(\#)\nEND \# => 2 statements, 0 nodes
-- no more labels are read behind END
END\nEND M => 1 statements, 0 nodes
";

/// NoEnd comes behind all others but code 4, which is of a program with END.
const REFUSALS_WITHOUT_END: &str = r"
 X = 'A => snobol4: syntax 1 at line 1
 X = \<41:(\>1\<41:)\> => snobol4: too large at line 1
 X = \<8000: \>1 => snobol4: too large at line 1
 X = ) => snobol4: syntax 3 at line 1
 X = \# => snobol4: syntax 2 at line 1
L\nL => snobol4: duplicate label at line 2
";

/// Of two statements the first that is refused is told, whatever rows fit them.
const PAIRS_OF_STATEMENTS: &str = r"
L\nL X = 'A\nL X = 'A\nEND\n => snobol4: syntax 1 at line 2
L\nL X = 'A\nL X = \<41:(\>1\<41:)\>\nEND\n => snobol4: syntax 1 at line 2
L\nL X = 'A\nL X = \<8000: \>1\nEND\n => snobol4: syntax 1 at line 2
L\nL X = 'A\nL X = )\nEND\n => snobol4: syntax 1 at line 2
L\nL X = 'A\nL X = \#\nEND\n => snobol4: syntax 1 at line 2
L\nL X = 'A\nL X = 1\nEND\n => snobol4: syntax 1 at line 2
L\nL X = 'A\nEND M\nEND\n => snobol4: syntax 1 at line 2
L\nL X = \<41:(\>1\<41:)\>\nL X = 'A\nEND\n => snobol4: too large at line 2
L\nL X = \<41:(\>1\<41:)\>\nL X = \<41:(\>1\<41:)\>\nEND\n => snobol4: too large at line 2
L\nL X = \<41:(\>1\<41:)\>\nL X = \<8000: \>1\nEND\n => snobol4: too large at line 2
L\nL X = \<41:(\>1\<41:)\>\nL X = )\nEND\n => snobol4: too large at line 2
L\nL X = \<41:(\>1\<41:)\>\nL X = \#\nEND\n => snobol4: too large at line 2
L\nL X = \<41:(\>1\<41:)\>\nL X = 1\nEND\n => snobol4: too large at line 2
L\nL X = \<41:(\>1\<41:)\>\nEND M\nEND\n => snobol4: too large at line 2
L\nL X = \<8000: \>1\nL X = 'A\nEND\n => snobol4: too large at line 2
L\nL X = \<8000: \>1\nL X = \<41:(\>1\<41:)\>\nEND\n => snobol4: too large at line 2
L\nL X = \<8000: \>1\nL X = \<8000: \>1\nEND\n => snobol4: too large at line 2
L\nL X = \<8000: \>1\nL X = )\nEND\n => snobol4: too large at line 2
L\nL X = \<8000: \>1\nL X = \#\nEND\n => snobol4: too large at line 2
L\nL X = \<8000: \>1\nL X = 1\nEND\n => snobol4: too large at line 2
L\nL X = \<8000: \>1\nEND M\nEND\n => snobol4: too large at line 2
L\nL X = )\nL X = 'A\nEND\n => snobol4: syntax 3 at line 2
L\nL X = )\nL X = \<41:(\>1\<41:)\>\nEND\n => snobol4: syntax 3 at line 2
L\nL X = )\nL X = \<8000: \>1\nEND\n => snobol4: syntax 3 at line 2
L\nL X = )\nL X = )\nEND\n => snobol4: syntax 3 at line 2
L\nL X = )\nL X = \#\nEND\n => snobol4: syntax 3 at line 2
L\nL X = )\nL X = 1\nEND\n => snobol4: syntax 3 at line 2
L\nL X = )\nEND M\nEND\n => snobol4: syntax 3 at line 2
L\nL X = \#\nL X = 'A\nEND\n => snobol4: syntax 2 at line 2
L\nL X = \#\nL X = \<41:(\>1\<41:)\>\nEND\n => snobol4: syntax 2 at line 2
L\nL X = \#\nL X = \<8000: \>1\nEND\n => snobol4: syntax 2 at line 2
L\nL X = \#\nL X = )\nEND\n => snobol4: syntax 2 at line 2
L\nL X = \#\nL X = \#\nEND\n => snobol4: syntax 2 at line 2
L\nL X = \#\nL X = 1\nEND\n => snobol4: syntax 2 at line 2
L\nL X = \#\nEND M\nEND\n => snobol4: syntax 2 at line 2
L\nL X = 1\nL X = 'A\nEND\n => snobol4: duplicate label at line 2
L\nL X = 1\nL X = \<41:(\>1\<41:)\>\nEND\n => snobol4: duplicate label at line 2
L\nL X = 1\nL X = \<8000: \>1\nEND\n => snobol4: duplicate label at line 2
L\nL X = 1\nL X = )\nEND\n => snobol4: duplicate label at line 2
L\nL X = 1\nL X = \#\nEND\n => snobol4: duplicate label at line 2
L\nL X = 1\nL X = 1\nEND\n => snobol4: duplicate label at line 2
L\nL X = 1\nEND M\nEND\n => snobol4: duplicate label at line 2
L\nEND M\nL X = 'A\nEND\n => snobol4: syntax 4 at line 2
L\nEND M\nL X = \<41:(\>1\<41:)\>\nEND\n => snobol4: syntax 4 at line 2
L\nEND M\nL X = \<8000: \>1\nEND\n => snobol4: syntax 4 at line 2
L\nEND M\nL X = )\nEND\n => snobol4: syntax 4 at line 2
L\nEND M\nL X = \#\nEND\n => snobol4: syntax 4 at line 2
L\nEND M\nL X = 1\nEND\n => snobol4: syntax 4 at line 2
L\nEND M\nEND M\nEND\n => snobol4: syntax 4 at line 2
";

/// Statement 100,001 is too large, whatever else fits it.
const STATEMENT_AND_SHAPE: &str = r"
L\<99998:\n X\>\n X\n X = 'A\nEND\n => snobol4: too large at line 100001
L\<99998:\n X\>\n X\n X = \<41:(\>1\<41:)\>\nEND\n => snobol4: too large at line 100001
L\<99998:\n X\>\n X\n X = \<8000: \>1\nEND\n => snobol4: too large at line 100001
L\<99998:\n X\>\n X\n )\nEND\n => snobol4: too large at line 100001
";

const STATEMENT_AND_LABELS: &str = r"
L\<99998:\n X\>\n X\n X = \#\nEND\n => snobol4: too large at line 100001
L\<99998:\n X\>\n X\nL\nEND\n => snobol4: too large at line 100001
L\<99998:\n X\>\n X\nEND M\n => snobol4: too large at line 100001
L\<99998:\n X\>\n X\n X\n => snobol4: too large at line 100001
L\<99998:\n X\>\n X\nEND\n => snobol4: too large at line 100001
";

/// The statement before it is judged as ever.
const LAST_STATEMENT_ALLOWED: &str = r"
L\<99998:\n X\>\n X\n => snobol4: no END
L\<99998:\n X\>\n )\n X\nEND\n => snobol4: syntax 3 at line 100000
L\<99998:\n X\>\nL\n X\nEND\n => snobol4: duplicate label at line 100000
L\<99998:\n X\>\nEND L\n X\n => 100000 statements, 99998 nodes
";

/// A program of 4,000,001 bytes is too large in line 0, whatever else fits it, before or behind its other bytes.
const ONE_BYTE_TOO_MANY: &str = r"
\<4000001:\n\>
 X = 'A\nEND\<3999990:\n\>
\<3999990:\n\> X = 'A\nEND
 X = \<41:(\>1\<41:)\>\nEND\<3999909:\n\>
\<3999909:\n\> X = \<41:(\>1\<41:)\>\nEND
 X = \<8000: \>1\nEND\<3991991:\n\>
\<3991991:\n\> X = \<8000: \>1\nEND
 X = )\nEND\<3999991:\n\>
\<3999991:\n\> X = )\nEND
 X = \#\nEND\<3999973:\n\>
\<3999973:\n\> X = \#\nEND
L\nL X = 1\nEND\<3999988:\n\>
\<3999988:\n\>L\nL X = 1\nEND
L\nEND M\<3999994:\n\>
\<3999994:\n\>L\nEND M
 X = 1\nEND\<3999991:\n\>
\<3999991:\n\> X = 1\nEND
\<100001: X = X 'ABCDEFGHIJKLMNOPQRSTUVWXYZ' Y 1\n\>
";

#[test]
fn one_byte_too_many(rt: HostRuntime) -> Result<(), Fail> {
    check_texts::<Sizes, _>(&rt, "snobol4: too large at line 0", ONE_BYTE_TOO_MANY)
}

/// One byte less is read.
const LAST_BYTE_ALLOWED: &str = r"
\<4000000:\n\> => snobol4: no END
\<3999997:\n\> X) => snobol4: syntax 3 at line 3999998
";

/// An expression is one statement in line 1, which an LF would end.
const PAIRS_IN_ONE_EXPRESSION: &str = r"
1 => 0 statements, 1 nodes
'A => snobol4: syntax 1 at line 1
\<41:(\>1\<41:)\> => snobol4: too large at line 1
\<8000: \>1 => snobol4: too large at line 1
) => snobol4: syntax 3 at line 1
1\n => snobol4: syntax 3 at line 1
\# => snobol4: syntax 2 at line 1
F(X,A<\#>) => snobol4: syntax 2 at line 1
'A\<41:(\>1\<41:)\> => snobol4: syntax 1 at line 1
'A\n\<41:(\>1\<41:)\> => snobol4: syntax 1 at line 1
\<41:(\>1\<41:)\> 'A => snobol4: syntax 1 at line 1
'A\<8000: \> => snobol4: syntax 1 at line 1
\<8000: \>'A => snobol4: syntax 1 at line 1
'A ) => snobol4: syntax 1 at line 1
'A\n) => snobol4: syntax 1 at line 1
) 'A => snobol4: syntax 1 at line 1
X\n'A => snobol4: syntax 1 at line 1
'A\nB' => snobol4: syntax 1 at line 1
'A \# => snobol4: syntax 1 at line 1
'A\n\# => snobol4: syntax 1 at line 1
\# 'A => snobol4: syntax 1 at line 1
\<41:(\>1\<41:)\> ) => snobol4: too large at line 1
) \<41:(\>1\<41:)\> => snobol4: too large at line 1
X\n\<41:(\>1\<41:)\> => snobol4: too large at line 1
\<41:(\>1\<41:)\>\nX => snobol4: too large at line 1
1\<8000: \>) => snobol4: too large at line 1
)\<8000: \>1 => snobol4: too large at line 1
\<41:(\>1\<41:)\> \# => snobol4: too large at line 1
\# \<41:(\>1\<41:)\> => snobol4: too large at line 1
\<8000: \>\# => snobol4: too large at line 1
\#\<8000: \> => snobol4: too large at line 1
\# ) => snobol4: syntax 3 at line 1
) \# => snobol4: syntax 3 at line 1
\#\n => snobol4: syntax 3 at line 1
\n\# => snobol4: syntax 3 at line 1
\#; => snobol4: syntax 3 at line 1
\<4000001: \> => snobol4: too large at line 1
\<4000001: \>' => snobol4: syntax 1 at line 1
";

/// Want of memory, which no row can have.
#[test]
fn no_memory(rt: HostRuntime) -> Result<(), Fail> {
    let text = format!(in rt.alloc(); "{}", ReadError::NoMemory)?;
    assert_eq!(rt; text.as_str(), "snobol4: no memory");
    Ok(())
}

/// All blocks: behind a call a test is proved without their bytes.
fn blocks() -> [&'static str; 8] {
    [
        SINGLE_REFUSALS,
        PAIRS_IN_ONE_STATEMENT,
        REFUSALS_WITHOUT_END,
        PAIRS_OF_STATEMENTS,
        STATEMENT_AND_SHAPE,
        STATEMENT_AND_LABELS,
        LAST_STATEMENT_ALLOWED,
        LAST_BYTE_ALLOWED,
    ]
}

#[test]
fn rows(rt: HostRuntime) -> Result<(), Fail> {
    check_blocks::<Sizes, _>(&rt, &blocks())?;
    check_rows::<Nodes, _>(&rt, PAIRS_IN_ONE_EXPRESSION)
}
