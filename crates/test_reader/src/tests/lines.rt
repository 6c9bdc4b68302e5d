//! Lines: how they are cut and joined into statements, and in which line each begins.
use super::reading::{Programs, Sizes};
use super::rows::{check_blocks, check_rows};
use std::test::Fail;

const SKIPPED_LINES: &str = r"
\n \t\n*\n-\nEND => 5 label END
* it's (((\n- 'A\nEND => 3 label END
\n\nX\n\nEND => 3 label X / 5 label END
\r\n X\r\n* Y\r\nEND\r\n => 2 subject X / 4 label END
 X\n;\n; ;\nEND => 1 subject X / 4 label END
";

const CONTINUED_LINES: &str = r"
* note\n-LIST\n X = 'A'\n+ 'B'\nEND => 3 subject X = object (cat 'A' 'B') / 5 label END
 X =\n+ 'A' 'B'\n. 'C'\nEND => 1 subject X = object (cat (cat 'A' 'B') 'C') / 4 label END
 X =\n* note\n\n \t\n-LIST\n+1\nEND => 1 subject X = object 1 / 7 label END
L\n+X\n.Y\nEND => 1 label L subject X pattern Y / 4 label END
 X\r\n+ Y\r\nEND\r\n => 1 subject X pattern Y / 3 label END
 X\n+\n.\nEND => 1 subject X / 4 label END
 X\n+.Y\n++1\nEND => 1 subject X pattern (cat (. Y) (+ 1)) / 4 label END
END\n+\n+ END => 1 label END entry END
L\nEND\n\n* note\n+ L => 1 label L / 2 label END entry L
 X\n+;Y\nEND => 1 subject X / 2 label Y / 3 label END
";

const CUT_LINES: &str = r#"
 X;Y;END => 1 subject X / 1 label Y / 1 label END
L1; X = 1;L2\nEND => 1 label L1 / 1 subject X = object 1 / 1 label L2 / 2 label END
;; X; ;\t;\nEND => 1 subject X / 2 label END
 X = 'A;B'; Y = ";'"\nEND => 1 subject X = object 'A;B' / 1 subject Y = object ';'' / 2 label END
 X = 'A\rB'\r\nEND => 1 subject X = object 'A\rB' / 2 label END
 X;\n+ Y\nEND => 1 subject X / 2 subject Y / 3 label END
 X; \n+ Y\nEND => 1 subject X / 1 subject Y / 3 label END
 X;\n* note\n+ Y\nEND => 1 subject X / 3 subject Y / 4 label END
 X; Y\n+ Z; W\nEND => 1 subject X / 1 subject Y pattern Z / 2 subject W / 3 label END
"#;

const REFUSED_LINES: &str = r"
  * X\nEND => snobol4: syntax 3 at line 1
 X\r\r\nEND => snobol4: syntax 3 at line 1
 X\n\rY\nEND => snobol4: syntax 3 at line 2
+\nEND => snobol4: syntax 3 at line 1
+ X = 1\nEND => snobol4: syntax 3 at line 1
. X = 1\nEND => snobol4: syntax 3 at line 1
* note\n\n+ X = 1\nEND => snobol4: syntax 3 at line 3
+;END => snobol4: syntax 3 at line 1
+ X\n+ Y\nEND => snobol4: syntax 3 at line 1
 X;* note\nEND => snobol4: syntax 3 at line 1
 X;-LIST\nEND => snobol4: syntax 3 at line 1
 X;+ Y\nEND => snobol4: syntax 3 at line 1
 X;. Y\nEND => snobol4: syntax 3 at line 1
 X;Y = 1\nEND => snobol4: syntax 3 at line 1
 X = F(1;2)\nEND => snobol4: syntax 3 at line 1
 X = 'A; Y = 'B\nEND => snobol4: syntax 3 at line 1
END\n+ ) => snobol4: syntax 3 at line 1
\nEND\n* note\n+ = 1 => snobol4: syntax 3 at line 2
 X = 1;\n+ )\nEND => snobol4: syntax 3 at line 2
 X = 1; \n+ )\nEND => snobol4: syntax 3 at line 1
 X = 1;\n* note\n+ )\nEND => snobol4: syntax 3 at line 3
 X\n\n* note\n )\nEND => snobol4: syntax 3 at line 4
 X\r\n Y\r\n )\r\nEND => snobol4: syntax 3 at line 3
";

const OPEN_LITERALS: &str = r#"
 X = 'A\nEND => snobol4: syntax 1 at line 1
 X = "A'\nEND => snobol4: syntax 1 at line 1
 X = 'A' "\nEND => snobol4: syntax 1 at line 1
 X = 'A\n+B'\nEND => snobol4: syntax 1 at line 1
 X = 'A\n* note\n+B'\nEND => snobol4: syntax 1 at line 1
 X = 'A\r\nEND => snobol4: syntax 1 at line 1
 X = 'A'\n+ 'B\n+ 'C'\nEND => snobol4: syntax 1 at line 1
 X;* it's\nEND => snobol4: syntax 1 at line 1
 X;\n+ 'A\nEND => snobol4: syntax 1 at line 2
\n X\n Y = 'A\nEND => snobol4: syntax 1 at line 3
+ X = 'A\nEND => snobol4: syntax 1 at line 1
END 'A => snobol4: syntax 1 at line 1
END\n+ 'A => snobol4: syntax 1 at line 1
"#;

/// The program that copies its input, cut to its first bytes.
const CUT_PROGRAMS: &str = r"
 => snobol4: no END
L => snobol4: no END
L\s => snobol4: no END
L O => snobol4: no END
L OU => snobol4: no END
L OUT => snobol4: no END
L OUTP => snobol4: no END
L OUTPU => snobol4: no END
L OUTPUT => snobol4: no END
L OUTPUT\s => snobol4: no END
L OUTPUT = => snobol4: no END
L OUTPUT =\s => snobol4: no END
L OUTPUT = I => snobol4: no END
L OUTPUT = IN => snobol4: no END
L OUTPUT = INP => snobol4: no END
L OUTPUT = INPU => snobol4: no END
L OUTPUT = INPUT => snobol4: no END
L OUTPUT = INPUT\s => snobol4: no END
L OUTPUT = INPUT : => snobol4: syntax 3 at line 1
L OUTPUT = INPUT :S => snobol4: syntax 3 at line 1
L OUTPUT = INPUT :S( => snobol4: syntax 3 at line 1
L OUTPUT = INPUT :S(L => snobol4: syntax 3 at line 1
L OUTPUT = INPUT :S(L) => snobol4: no END
L OUTPUT = INPUT :S(L)F => snobol4: syntax 3 at line 1
L OUTPUT = INPUT :S(L)F( => snobol4: syntax 3 at line 1
L OUTPUT = INPUT :S(L)F(E => snobol4: syntax 3 at line 1
L OUTPUT = INPUT :S(L)F(EN => snobol4: syntax 3 at line 1
L OUTPUT = INPUT :S(L)F(END => snobol4: syntax 3 at line 1
L OUTPUT = INPUT :S(L)F(END) => snobol4: no END
L OUTPUT = INPUT :S(L)F(END)\n => snobol4: no END
L OUTPUT = INPUT :S(L)F(END)\nE => snobol4: no END
L OUTPUT = INPUT :S(L)F(END)\nEN => snobol4: no END
L OUTPUT = INPUT :S(L)F(END)\nEND => 2 statements, 2 nodes
L OUTPUT = INPUT :S(L)F(END)\nEND\n => 2 statements, 2 nodes
";

/// All blocks: behind a call a test is proved without their bytes.
fn blocks() -> [&'static str; 5] {
    [
        SKIPPED_LINES,
        CONTINUED_LINES,
        CUT_LINES,
        REFUSED_LINES,
        OPEN_LITERALS,
    ]
}

#[test]
fn rows(rt: HostRuntime) -> Result<(), Fail> {
    check_blocks::<Programs, _>(&rt, &blocks())?;
    check_rows::<Sizes, _>(&rt, CUT_PROGRAMS)
}
