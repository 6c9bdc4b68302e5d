//! Statements: their parts, their trees, and texts that are none.
use super::reading::Programs;
use super::rows::{check_blocks, check_texts};
use sno_text::{Program, Span, read_program};
use std::process::Abort;
use std::test::Fail;

const LABELS_AND_CORES: &str = r"
L\nEND => 1 label L / 2 label END
L \t\nEND => 1 label L / 2 label END
1.x_\nEND => 1 label 1.x_ / 2 label END
007\n7\nEND => 1 label 007 / 2 label 7 / 3 label END
l\nL\nEND => 1 label l / 2 label L / 3 label END
 X\nEND => 1 subject X / 2 label END
 X =\nEND => 1 subject X = / 2 label END
 X = \nEND => 1 subject X = / 2 label END
 X = Y\nEND => 1 subject X = object Y / 2 label END
 X Y\nEND => 1 subject X pattern Y / 2 label END
 X Y =\nEND => 1 subject X pattern Y = / 2 label END
 X Y = Z\nEND => 1 subject X pattern Y = object Z / 2 label END
L X\nEND => 1 label L subject X / 2 label END
L X =\nEND => 1 label L subject X = / 2 label END
L X = Y\nEND => 1 label L subject X = object Y / 2 label END
L X Y\nEND => 1 label L subject X pattern Y / 2 label END
L X Y =\nEND => 1 label L subject X pattern Y = / 2 label END
L\tX  Y\t=  Z\t\nEND => 1 label L subject X pattern Y = object Z / 2 label END
 F (N)\nEND => 1 subject F pattern N / 2 label END
 F(N)\nEND => 1 subject (call F N) / 2 label END
 (X)\nEND => 1 subject X / 2 label END
 (X Y) Z\nEND => 1 subject (cat X Y) pattern Z / 2 label END
 X (Y | Z)\nEND => 1 subject X pattern (| Y Z) / 2 label END
 X Y | Z\nEND => 1 subject X pattern (| Y Z) / 2 label END
 X Y Z\nEND => 1 subject X pattern (cat Y Z) / 2 label END
 X Y . Z\nEND => 1 subject X pattern (. Y Z) / 2 label END
 X -1\nEND => 1 subject X pattern (- 1) / 2 label END
 X *Y\nEND => 1 subject X pattern (* Y) / 2 label END
 X .Y\nEND => 1 subject X pattern (. Y) / 2 label END
 -X Y\nEND => 1 subject (- X) pattern Y / 2 label END
 'A' 'B'\nEND => 1 subject 'A' pattern 'B' / 2 label END
 &K = 1\nEND => 1 subject &K = object 1 / 2 label END
 $X = 1\nEND => 1 subject ($ X) = object 1 / 2 label END
 A<1> = 2\nEND => 1 subject (item A 1) = object 2 / 2 label END
 A[1] B[2]\nEND => 1 subject (item A 1) pattern (item B 2) / 2 label END
 X = Y Z\nEND => 1 subject X = object (cat Y Z) / 2 label END
 X = -1 - 1\nEND => 1 subject X = object (- (- 1) 1) / 2 label END
 X 'A' | 'B' = 'C' 'D'\nEND => 1 subject X pattern (| 'A' 'B') = object (cat 'C' 'D') / 2 label END
 END = 1\nEND => 1 subject END = object 1 / 2 label END
 END\nEND => 1 subject END / 2 label END
 RETURN = 1\nEND => 1 subject RETURN = object 1 / 2 label END
RETURNS\nFRETURN.\nEND => 1 label RETURNS / 2 label FRETURN. / 3 label END
return\nEND => 1 label return / 2 label END
";

const GOTOS: &str = r"
 :(A)\nEND => 1 goto A / 2 label END
 :S(A)\nEND => 1 branch success A / 2 label END
 :F(A)\nEND => 1 branch failure A / 2 label END
 :S(A)F(B)\nEND => 1 branch success A failure B / 2 label END
 :S(A) \tF(B)\nEND => 1 branch success A failure B / 2 label END
 :F(A)S(B)\nEND => 1 branch success B failure A / 2 label END
 :F(A) S(B)\nEND => 1 branch success B failure A / 2 label END
 : (A)\nEND => 1 goto A / 2 label END
 :\tS( A )\t\nEND => 1 branch success A / 2 label END
  :  F(\tA )  S( B\t)  \nEND => 1 branch success B failure A / 2 label END
 :(1.x_)\nEND => 1 goto 1.x_ / 2 label END
 :(9223372036854775808)\nEND => 1 goto 9223372036854775808 / 2 label END
 :(S)\nEND => 1 goto S / 2 label END
 :S(S)F(F)\nEND => 1 branch success S failure F / 2 label END
 :S(RETURN)F(FRETURN)\nEND => 1 branch success RETURN failure FRETURN / 2 label END
 :(END)\nEND => 1 goto END / 2 label END
 :S(NOWHERE)\nEND => 1 branch success NOWHERE / 2 label END
 :($X)\nEND => 1 goto $X / 2 label END
 :( $'A' )\nEND => 1 goto $'A' / 2 label END
 :($(X Y))\nEND => 1 goto $(cat X Y) / 2 label END
 :($$X)\nEND => 1 goto $($ X) / 2 label END
 :($-1)\nEND => 1 goto $(- 1) / 2 label END
 :($A<1>)\nEND => 1 goto $(item A 1) / 2 label END
 :($F(X,Y))\nEND => 1 goto $(call F X Y) / 2 label END
 :S($X)\nEND => 1 branch success $X / 2 label END
 :F($X)S(A)\nEND => 1 branch success A failure $X / 2 label END
 :S($X)F($Y)\nEND => 1 branch success $X failure $Y / 2 label END
L :(L)\nEND => 1 label L goto L / 2 label END
 X :(A)\nEND => 1 subject X goto A / 2 label END
 X = :(A)\nEND => 1 subject X = goto A / 2 label END
 X = Y :F(A)\nEND => 1 subject X = object Y branch failure A / 2 label END
 X Y :S(A)\nEND => 1 subject X pattern Y branch success A / 2 label END
 X Y = :(A)\nEND => 1 subject X pattern Y = goto A / 2 label END
L X Y = Z :F(A)S($B) \nEND => 1 label L subject X pattern Y = object Z branch success $B failure A / 2 label END
";

const ENDS: &str = r"
END => 1 label END
END\n => 1 label END
END\r\n => 1 label END
END \t => 1 label END
END END => 1 label END entry END
L\nEND L => 1 label L / 2 label END entry L
L\nEND\t L \t\n => 1 label L / 2 label END entry L
1\nEND 1 => 1 label 1 / 2 label END entry 1
A X\n Y\nB Z\nEND B => 1 label A subject X / 2 subject Y / 3 label B subject Z / 4 label END entry B
end\nEnd\nEND => 1 label end / 2 label End / 3 label END
ENDX\nEND.\nEND_ END\nEND => 1 label ENDX / 2 label END. / 3 label END_ subject END / 4 label END
END\n ) => 1 label END
END\n' => 1 label END
END\nEND\nEND M => 1 label END
END\nL\nL => 1 label END
END;\n+ ) => 1 label END
END; 'A => 1 label END
 X = 1;END;' => 1 subject X = object 1 / 1 label END
";

const TEXTS_OF_NO_STATEMENT: &str = r"
_L
L.X=
L=1
L(X)
L:(A)
'A'
$X
=
 =
 = 1
 )
 X=1
 X =1
 X= 1
 X=
 X = Y = Z
 X Y = Z = W
 X = =
 X . Y
 X $ Y
 X + Y
 X - Y
 X * Y
 X / Y
 X ** Y
 X | Y
 X |Y
 X ? Y
 - X
 X = - 1
 A<1><2>
 A <1>
 'A'.X
 'A'B
 1A
 (X
 X)
 X(Y
 X Y)
 X = (Y
 & K
 X,Y
 X:(A)
 X :
 X :\s
 X :A
 X :()
 X :( )
 X :(A
 X :A)
 X :(A))
 X :(A B)
 X :(A + B)
 X :('A')
 X :(_A)
 X :(-A)
 X :(&A)
 X :((A))
 X :<A>
 X :[A]
 X :($)
 X :($ A)
 X :($A B)
 X :($A . B)
 X :(A).
 X :(A) Y
 X :(A)(B)
 X :(A)S(B)
 X :(A) F(B)
 X :S
 X :S()
 X :S (A)
 X :s(A)
 X :S(A)S(B)
 X :F(A)F(B)
 X :S(A)F
 X :S(A)F (B)
 X :S(A),F(B)
 X :S(A):F(B)
 X :S(A)(B)
 X :S(A)F(B)S(C)
 X :SF(A)
 X :(A) :(B)
 X =:(A)
 :(A) = 1
RETURN
RETURN X = 1
FRETURN
FRETURN :(A)
END = 1
END X Y
END 'X'
END $X
END 1 + 1
END _X
END (X)
END :(L)
END L :(L)
END,
END(X)
END:(L)
END\r
 X\r
 X\v
 X\0
 é
é
";

#[test]
fn texts_of_no_statement(rt: HostRuntime) -> Result<(), Fail> {
    check_texts::<Programs, _>(&rt, "snobol4: syntax 3 at line 1", TEXTS_OF_NO_STATEMENT)
}

const LABELLED: &[u8] = b"A X\n Y\nB Z = 'Q' :S(A)F($B)\nEND B";

/// Texts, and the statements that they label in this program.
const LABELS: [(&str, Option<u32>); 7] = [
    ("A", Some(1)),
    ("B", Some(3)),
    ("END", Some(4)),
    ("C", None),
    ("X", None),
    ("a", None),
    ("", None),
];

/// Compares the numbers of labels with those that are wanted, and looks for statements before the first and behind the
/// last.
fn check_labels(rt: &impl Abort, program: &Program) {
    for (label, number) in &LABELS {
        assert_eq!(rt; program.label(label.as_bytes()), *number, "{label}");
    }
    assert!(rt; program.statement(0).is_none());
    assert!(rt; program.statement(5).is_none());
}

/// Spans, and what of this program's 33 bytes lies in them.
const SPANS: [(usize, usize, &str); 8] = [
    (2, 3, "X"),
    (28, 31, "END"),
    (28, 33, "END B"),
    (28, 34, "END B"),
    (0, 0, ""),
    (3, 2, ""),
    (33, 34, ""),
    (1000, 2000, ""),
];

fn check_spans(rt: &impl Abort, program: &Program) {
    for (start, end, text) in &SPANS {
        let span = Span {
            start: *start,
            end: *end,
        };
        assert_eq!(rt; program.text(span), text.as_bytes(), "{start} {end}");
    }
}

#[test]
fn labels_and_spans(rt: HostRuntime) -> Result<(), Fail> {
    let program = read_program(rt.alloc(), LABELLED)?;
    check_labels(&rt, &program);
    check_spans(&rt, &program);
    Ok(())
}

/// All blocks: behind a call a test is proved without their bytes.
fn blocks() -> [&'static str; 3] {
    [LABELS_AND_CORES, GOTOS, ENDS]
}

#[test]
fn rows(rt: HostRuntime) -> Result<(), Fail> {
    check_blocks::<Programs, _>(&rt, &blocks())
}
