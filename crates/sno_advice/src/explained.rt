//! What each error means: the paragraphs of docs/ERRORS.md.
ghost use Rattle.std.specs.Prelude.{◌≡◌, is_some};
ghost use Rattle.sno_advice.specs.inner.Errors.{is_error};

/// What is told of an error: its name, what it is, and what to do. None where there is no such error.
pub fn explanation(error: u32) -> Option<&'static str>
    ensures { is_some result ≡ is_error error }
{
    match error {
        1 => Some(ERROR_1),
        2 => Some(ERROR_2),
        3 => Some(ERROR_3),
        4 => Some(ERROR_4),
        5 => Some(ERROR_5),
        6 => Some(ERROR_6),
        7 => Some(ERROR_7),
        8 => Some(ERROR_8),
        9 => Some(ERROR_9),
        10 => Some(ERROR_10),
        11 => Some(ERROR_11),
        12 => Some(ERROR_12),
        13 => Some(ERROR_13),
        14 => Some(ERROR_14),
        15 => Some(ERROR_15),
        20 => Some(ERROR_20),
        21 => Some(ERROR_21),
        _ => None,
    }
}

const ERROR_1: &str = "error 1: data type

A value of the wrong type: a pattern where a text is wanted, a text that
writes no integer where a number is wanted, a pattern as the key of a table,
an item of what is neither array nor table, another type in CONVERT.

`DATATYPE(X)` gives the type of X, `INTEGER(X)` succeeds where X can be read
as a number, and `TRIM` takes trailing spaces off. Blanks before or behind the
digits are the usual reason with numbers from an input.
";

const ERROR_2: &str = "error 2: overflow

The result of an arithmetic operation lies outside the integers from
-9223372036854775808 to 9223372036854775807.

Nothing wraps around. Test the operands before, as `GT(X,9223372036854775807 -
Y)` does for a sum of numbers that aren't negative.
";

const ERROR_3: &str = "error 3: division by zero

The right operand of `/`, or the second argument of REMDR, is 0. The null
string is 0 too.

Test the divisor: `NE(Y,0)`. A variable that was never set, or whose name is
misspelt, is null.
";

const ERROR_4: &str = "error 4: undefined function

A call of a name that the language doesn't have and that the program has not
defined by then.

A function of the program is there once its `DEFINE` or `DATA` was performed;
DATA is none in `ways`. docs/LANGUAGE.md tells which functions are left out. A
blank between the name and `(` makes no call.
";

const ERROR_5: &str = "error 5: undefined label

A goto that is taken goes to a label that the program doesn't have, or a call
begins at one.

Labels are told apart by large and small letters. The entry label of a
function is its name, or the second argument of `DEFINE`.
";

const ERROR_6: &str = "error 6: null string

The null string as the set of ANY, NOTANY, SPAN, BREAK or BREAKX, or as the
name or label behind `$`.

Most often the variable in the parentheses was never set. Before `$X` or
`ANY(X)` test `DIFFER(X)`, which fails where X is null.
";

const ERROR_7: &str = "error 7: bad count

A negative number for LEN, POS, RPOS, TAB or RTAB, or as an exponent.

Test the number: `GE(N,0)`.
";

const ERROR_8: &str = "error 8: string too long

A string of more than 1,000,000 bytes: by concatenation, DUPL, a replacement,
a line of the input, or the subject of `ways`.

Keep the parts in an array or a table, or write them out as they come.
";

const ERROR_9: &str = "error 9: store full

More than 1,000,000 elements of an array or entries of a table, 1,000,000
arrays, tables and objects, 100,000 types of the program's own, 1,000,000
symbols, or 4,000,000 pattern nodes.

Of pattern nodes: a loop builds a pattern each time that it goes round, which
`snobol4-list` notes. Build it once before the loop, `P =
CONVERT('b','PATTERN')` for a string (docs/LANGUAGE.md, limits). It names
statement 0 where the names of the program alone are too many.
";

const ERROR_10: &str = "error 10: call level

A call beside 200 open ones.

A recursion that doesn't end, or that is deeper than 200: keep what waits in
an array or a table and go round a loop.
";

const ERROR_11: &str = "error 11: failure in a goto

The expression of a computed target `$E` fails.

Evaluate E in a statement before, whose own goto takes its failure.
";

const ERROR_12: &str = "error 12: bad prototype

A wrong prototype of ARRAY, DEFINE or DATA, a blank in one, more than 100
names; of DEFINE also INPUT or OUTPUT among them, and of DATA no field, a name
that stands twice or the name of a type of the language; or a wrong number of
subscripts.

Prototypes have no blanks: `ARRAY('3,0:9')`, `DEFINE('F(A,B)L')`.
";

const ERROR_13: &str = "error 13: return outside a call

RETURN or FRETURN is gone to while no call is open.

The program runs into the statements of a function. Let the statement with
`DEFINE` go past them: `DEFINE('F()') :(MAIN)`.
";

const ERROR_14: &str = "error 14: keyword

A keyword that isn't there, setting one that can't be set, or a number out of
range for &STLIMIT.

docs/LANGUAGE.md has the list. Statements such as `&FULLSCAN = 1` and
`&MAXLNGTH = 5000` are taken out; for a larger &STLIMIT give `--statements`.
";

const ERROR_15: &str = "error 15: not a variable

A name is wanted of what has none: a literal, a call of what is no field, a
keyword, an expression that isn't evaluated.

What has a name is a variable, `$X`, an item of an array or a table, and a
field of an object, once its `DATA` was performed. A value in parentheses can
be matched and not replaced.
";

const ERROR_20: &str = "error 20: statement limit

&STCOUNT has reached &STLIMIT, which begins with the number of `--statements`,
and a statement would begin. The error names that statement. The status is 4.

`--statements N` allows N statements, up to 1,000,000,000,000; the default is
1,000,000. A program that should have ended goes round a loop.
";

const ERROR_21: &str = "error 21: match-step limit

A match needs a step more than it may take. The status is 5. In `ways` it is
no error: the listing ends with the line `limit`.

`--match-steps N` allows each match N steps, up to 1,000,000,000; the default
is 1,000,000. A pattern that names itself before anything has matched, as `P =
*P 'A' | 'A'`, takes any number of them; so do nested repetitions on long
subjects. docs/MATCHING.md tells what a step is.
";
