//! Expressions: their trees, and texts that are none.
use super::reading::Expressions;
use super::rows::{check_blocks, check_texts};
use std::test::Fail;

const PRIMARIES: &str = r#"
X => X
x => x
A1.b_Z9. => A1.b_Z9.
0 => 0
007 => 7
9223372036854775807 => 9223372036854775807
00000000000000000000000000000012 => 12
'A' => 'A'
"A" => 'A'
'A"B' => 'A"B'
"A'B" => 'A'B'
'' => ''
"" => ''
' ; (+ &K' => ' ; (+ &K'
'\0\t\r\dé' => '\0\t\r\dé'
&ANCHOR => &ANCHOR
&a.1_ => &a.1_
F(X) => (call F X)
F(X,1,'A') => (call F X 1 'A')
F() => (call F '')
F( \t) => (call F '')
F(,) => (call F '' '')
F(, N ,) => (call F '' N '')
F( X , Y ) => (call F X Y)
F(X Y,Z | W) => (call F (cat X Y) (| Z W))
F(G(),H(1,A<2>)) => (call F (call G '') (call H 1 (item A 2)))
A<1> => (item A 1)
A<1,2> => (item A 1 2)
A<> => (item A '')
A< I + 1 ,, B[J] > => (item A (+ I 1) '' (item B J))
A[1] => (item A 1)
A[1,2] => (item A 1 2)
A[] => (item A '')
A[ 'K' ] => (item A 'K')
A[B<C[D<E(F)>]>] => (item A (item B (item C (item D (call E F)))))
"#;

const PARENTHESES_AND_BLANKS: &str = r"
(X) => X
( \tX ) => X
(((1))) => 1
('A') => 'A'
((X | Y)) => (| X Y)
F((X)) => (call F X)
 X => X
X\t\s => X
 \tX \t+\t Y \s => (+ X Y)
F (N) => (cat F N)
F(N) => (call F N)
F\t(N) => (cat F N)
(F) (N) => (cat F N)
F(X) (Y) => (cat (call F X) Y)
(X Y) Z => (cat (cat X Y) Z)
X (Y Z) => (cat X (cat Y Z))
(X | Y) Z => (cat (| X Y) Z)
X (Y | Z) => (cat X (| Y Z))
(X Y) + Z => (+ (cat X Y) Z)
X - (Y - Z) => (- X (- Y Z))
(X + Y) / Z => (/ (+ X Y) Z)
(X / Y) * Z => (* (/ X Y) Z)
(X * Y) ** Z => (** (* X Y) Z)
(X ** Y) ** Z => (** (** X Y) Z)
(X ** Y) . Z => (. (** X Y) Z)
X . (Y $ Z) => (. X ($ Y Z))
-(X + Y) => (- (+ X Y))
";

const UNARY_OPERATORS: &str = r"
+X => (+ X)
-X => (- X)
$X => ($ X)
.X => (. X)
*X => (* X)
@X => (@ X)
?X => (? X)
~X => (~ X)
+-$.*@?~X => (+ (- ($ (. (* (@ (? (~ X))))))))
~?@*.$-+X => (~ (? (@ (* (. ($ (- (+ X))))))))
**X => (* (* X))
-1 => (- 1)
-9223372036854775807 => (- 9223372036854775807)
$'A B' => ($ 'A B')
.&K => (. &K)
.A<1> => (. (item A 1))
*F(X) => (* (call F X))
*(X | Y) => (* (| X Y))
-X . -Y => (. (- X) (- Y))
~*X . Y => (. (~ (* X)) Y)
-X ** -Y => (** (- X) (- Y))
X . .Y => (. X (. Y))
X $ $Y => ($ X ($ Y))
X * *Y => (* X (* Y))
X ** **Y => (** X (* (* Y)))
X + +Y => (+ X (+ Y))
X - -Y => (- X (- Y))
";

/// A sign with blanks on both sides is binary, and one with a blank before it alone is unary.
const SIGNS_BEHIND_A_BLANK: &str = r#"
1 + 2 => (+ 1 2)
 1 +2\s => (cat 1 (+ 2))
X -Y => (cat X (- Y))
X *Y => (cat X (* Y))
X **Y => (cat X (* (* Y)))
X .Y => (cat X (. Y))
X $Y => (cat X ($ Y))
X @Y => (cat X (@ Y))
X ?Y => (cat X (? Y))
X ~Y => (cat X (~ Y))
X -Y - Z => (cat X (- (- Y) Z))
X &K => (cat X &K)
X 'A' => (cat X 'A')
X "A" => (cat X 'A')
X 1 => (cat X 1)
1 X => (cat 1 X)
'A' 'B' => (cat 'A' 'B')
"#;

/// Each binary operator, and how like ones group.
const GROUPING: &str = r"
X | Y => (| X Y)
X Y => (cat X Y)
X + Y => (+ X Y)
X - Y => (- X Y)
X / Y => (/ X Y)
X * Y => (* X Y)
X ** Y => (** X Y)
X . Y => (. X Y)
X $ Y => ($ X Y)
'A' | 'AB' => (| 'A' 'AB')
X | Y | Z => (| (| X Y) Z)
X Y Z => (cat (cat X Y) Z)
X + Y + Z => (+ (+ X Y) Z)
X - Y - Z => (- (- X Y) Z)
X + Y - Z => (- (+ X Y) Z)
X - Y + Z => (+ (- X Y) Z)
X / Y / Z => (/ (/ X Y) Z)
X * Y * Z => (* (* X Y) Z)
X ** Y ** Z => (** X (** Y Z))
2 ** 3 ** 2 ** 1 => (** 2 (** 3 (** 2 1)))
X . Y . Z => (. (. X Y) Z)
X $ Y $ Z => ($ ($ X Y) Z)
X . Y $ Z => ($ (. X Y) Z)
X $ Y . Z => (. ($ X Y) Z)
W | X | Y | Z => (| (| (| W X) Y) Z)
W - X - Y - Z => (- (- (- W X) Y) Z)
";

/// Each two neighbouring levels of operators, in both orders, and all levels at once.
const PRECEDENCE: &str = r"
X | Y Z => (| X (cat Y Z))
X Y | Z => (| (cat X Y) Z)
X Y + Z => (cat X (+ Y Z))
X + Y Z => (cat (+ X Y) Z)
X Y - Z => (cat X (- Y Z))
X - Y Z => (cat (- X Y) Z)
X + Y / Z => (+ X (/ Y Z))
X / Y + Z => (+ (/ X Y) Z)
X - Y / Z => (- X (/ Y Z))
X / Y - Z => (- (/ X Y) Z)
X / Y * Z => (/ X (* Y Z))
X * Y / Z => (/ (* X Y) Z)
X * Y ** Z => (* X (** Y Z))
X ** Y * Z => (* (** X Y) Z)
X ** Y . Z => (** X (. Y Z))
X . Y ** Z => (** (. X Y) Z)
X ** Y $ Z => (** X ($ Y Z))
X $ Y ** Z => (** ($ X Y) Z)
W ** X * Y ** Z => (* (** W X) (** Y Z))
W / X - Y / Z => (- (/ W X) (/ Y Z))
W X | Y Z => (| (cat W X) (cat Y Z))
A | B . C => (| A (. B C))
A $ B | C => (| ($ A B) C)
A | B C + D / E * F ** G . H => (| A (cat B (+ C (/ D (* E (** F (. G H)))))))
A $ B ** C * D / E - F G | H => (| (cat (- (/ (* (** ($ A B) C) D) E) F) G) H)
";

const TEXTS_OF_NO_EXPRESSION: &str = r"

 \t
)
(
()
( )
(X
X)
(X))
(X]
(X,Y)
F(
F(X
F(X,
F(X]
F(X>
F(X))
F((X,Y))
F(X;Y)
A<
A<1
A<1,2]
A<1)
A[1>
A[1)
A[1,2
A<1><2>
A[1][2]
F(X)(Y)
(F)(X)
A <1>
A [1]
&
& ANCHOR
&1
&'A'
X&K
1A
1.
1_
1(X)
'A'B
'A''B'
'A'.X
'A'(X)
_X
X#
X,Y
+
- X
X+
1 +
1+2
X +
X |
X |Y
X| Y
X|Y
X /Y
X/ Y
X* Y
X** Y
X * * Y
X * / Y
| X
/X
X | | Y
X ** ** Y
* X
X =
X = Y
= X
X :(Y)
X:
'A';'B'
X;
;
X\n
\nX
X\nY
X\n'A'
X\r
X\v
X\0
é
X\_Y
";

#[test]
fn texts_of_no_expression(rt: HostRuntime) -> Result<(), Fail> {
    check_texts::<Expressions, _>(&rt, "snobol4: syntax 3 at line 1", TEXTS_OF_NO_EXPRESSION)
}

/// All blocks: behind a call a test is proved without their bytes.
fn blocks() -> [&'static str; 6] {
    [
        PRIMARIES,
        PARENTHESES_AND_BLANKS,
        UNARY_OPERATORS,
        SIGNS_BEHIND_A_BLANK,
        GROUPING,
        PRECEDENCE,
    ]
}

#[test]
fn rows(rt: HostRuntime) -> Result<(), Fail> {
    check_blocks::<Expressions, _>(&rt, &blocks())
}
