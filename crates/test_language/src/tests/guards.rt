//! Where a failure inside `~E` leads, worked out by hand: E's value or its failure is turned round, and what stands
//! before and behind `~E` goes on.
use super::asking::{Programs, Values};
use super::rows::check_rows;
use std::test::Fail;

/// INPUT fails here, since there is none.
const GUARDS: &str = r"
~INPUT => <>
~~INPUT => fails
~~'A' => <>
~~~INPUT => <>
'A' ~INPUT 'B' => <AB>
'A' ~'C' 'B' => fails
~('A' INPUT) 'B' => <B>
~(INPUT 'A') 'B' => <B>
~('A' ~INPUT) => fails
~('A' ~'B') 'C' => <C>
~(~INPUT INPUT) 'X' => <X>
'A' ~('B' ~(INPUT 'C') INPUT) 'D' => <AD>
SIZE('AB' ~('C' INPUT) 'D') => <3>
1 + ~INPUT => <1>
~(1 / 0) => error 3
~LT(1,2) 'Y' => fails
~LT(2,1) 'Y' => <Y>
LT(1,2) ~LT(2,1) 'Y' => <Y>
?INPUT => fails
~?INPUT => <>
~INPUT<INPUT> => <>
";

/// The values of an expression wait while its calls evaluate others, and those of a call that failed are gone.
const NESTED: &str = r"
 DEFINE('F(X)') :(M)\nF F = 'f' X 'f' :(RETURN)\nM OUTPUT = 'a' F('b' F('c') 'd') 'e'\nEND\n => afbfcfdfe\n
 DEFINE('F(X)') :(M)\nF F = 'f' ~X 'g' :S(RETURN)F(FRETURN)\nM OUTPUT = 'a' ~F('b') 'e'\nEND\n => ae\n
 DEFINE('F(X)') :(M)\nF X = GT(X,0) F(X - 1) 'b' :F(FRETURN)\n F = X :(RETURN)\nM OUTPUT = 'a' ~F(2) 'c'\nEND\n => ac\n
 DEFINE('F(X)') :(M)\nF F = EQ(X,0) 'z' :S(RETURN)\n F = X F(X - 1) X :(RETURN)\nM OUTPUT = 'a' F(2) 'c'\nEND\n => a21z12c\n
 DEFINE('F()') :(M)\nF :(FRETURN)\nM OUTPUT = 'a' F()\n OUTPUT = 'b' 'c'\nEND\n => bc\n
";

#[test]
fn rows(rt: HostRuntime) -> Result<(), Fail> {
    check_rows::<Values, _>(&rt, GUARDS)?;
    check_rows::<Programs, _>(&rt, NESTED)
}
