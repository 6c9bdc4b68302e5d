//! Values that no expression gives yet: names of elements and entries, arrays, tables and expressions.
ghost use Rattle.std.specs.Prelude.{List};
ghost use Rattle.sno_pattern.specs.Table.{Node};
ghost use Rattle.sno_runtime.specs.Values.{IsValueOf};

use super::rows::{Question, check_blocks, check_rows};
use sno_runtime::{
    Exit, Keywords, Runtime, Stop, assign, called, function_named, operation, unary_name,
};
use sno_text::{Operator, UnaryOperator};
use sno_value::{ExprId, Name, ObjId, SymId, Text, Value};
use snobol::{Device, Sink};
use std::alloc::{AllocError, Global};
use std::process::Abort;
use std::str::from_utf8;
use std::test::Fail;

const OUTPUT: Name = Name::Var(SymId(8));

/// The value for which a word of a row stands: the null string where it is none of these.
fn value_named(word: &str) -> Value
    ensures { (nodes : List Node) → IsValueOf nodes result }
{
    match word {
        "ARB" => Value::Name(Name::Var(SymId(0))),
        "BAL" => Value::Name(Name::Var(SymId(1))),
        "OUTPUT" => Value::Name(OUTPUT),
        "A<1>" => Value::Name(Name::Elem(ObjId(0), 1)),
        "A<2>" => Value::Name(Name::Elem(ObjId(0), 2)),
        "B<1>" => Value::Name(Name::Elem(ObjId(1), 1)),
        "T<1>" => Value::Name(Name::Entry(ObjId(0), 1)),
        "A" => Value::Array(ObjId(0)),
        "B" => Value::Array(ObjId(1)),
        "T" => Value::Table(ObjId(0)),
        "U" => Value::Table(ObjId(1)),
        "0" => Value::Int(0),
        "1" => Value::Int(1),
        "*X" => Value::Expr(ExprId(0)),
        _ => Value::null(),
    }
}

/// What is given, as a text.
fn given_text(alloc: Global, given: Result<Value, Exit>) -> Result<String, Fail> {
    match given {
        Ok(Value::Str(text)) => Ok(format!(in alloc; "'{}'", from_utf8(text.as_slice())?)?),
        Ok(value) => Ok(format!(in alloc; "{value:?}")?),
        Err(Exit::Failure) => Ok(String::from_str(alloc, "fails")?),
        Err(Exit::Halt(Stop::Error(code))) => Ok(format!(in alloc; "error {code}")?),
        Err(Exit::Halt(stop)) => Ok(format!(in alloc; "{stop:?}")?),
    }
}

/// Keywords as they are before a first statement.
fn new_runtime(alloc: Global) -> Result<Runtime, AllocError> {
    let runtime = Runtime::new(alloc, Keywords::new(false, 1_000_000, 1_000_000))?;
    Ok(runtime)
}

/// What a form or a function gives of two values.
fn given(runtime: &mut Runtime, form: &str, x: Value, y: Value) -> Result<Value, Exit>
    requires x { IsValueOf runtime.old.nodes x }
    requires y { IsValueOf runtime.old.nodes y }
{
    match form {
        "." => operation(runtime, Operator::Conditional, x, y),
        "$" => operation(runtime, Operator::Immediate, x, y),
        "|" => operation(runtime, Operator::Alternate, x, y),
        "&" => operation(runtime, Operator::Concatenate, x, y),
        "name" => unary_name(runtime, UnaryOperator::Indirect, x),
        _ => called(runtime, function_named(form.as_bytes()), &mut [x, y]),
    }
}

/// `FORM X Y`: what a form or a function gives of two values in a new runtime, and how many patterns there are then.
/// The form `&` is a concatenation, and `name` what `$X` names.
#[derive(Drop)]
struct Forms;

impl Question for Forms {
    fn answer(alloc: Global, text: &[u8]) -> Result<String, Fail> {
        let (form, values) = from_utf8(text)?.split_once(" ").unwrap_or_default();
        let (x, y) = values.split_once(" ").unwrap_or((values, ""));
        let (given, patterns) = given_by_new(alloc, form, x, y)?;
        let given = given_text(alloc, given)?;
        Ok(format!(in alloc; "{given}, {patterns} patterns")?)
    }
}

/// What a form or a function gives of two values in a new runtime, and how many patterns there are then.
fn given_by_new(
    alloc: Global,
    form: &str,
    x: &str,
    y: &str,
) -> Result<(Result<Value, Exit>, u32), AllocError> {
    let mut runtime = new_runtime(alloc)?;
    let given = given(&mut runtime, form, value_named(x), value_named(y));
    let patterns = runtime.patterns().len();
    Ok((given, patterns))
}

/// The types are judged before a pattern is made.
const OPERATORS: &str = r"
& A null => Array(ObjId(0)), 7 patterns
& 1 T => error 1, 7 patterns
| 1 T => error 1, 7 patterns
| *X 1 => Pat(PatId(9)), 10 patterns
. A OUTPUT => error 1, 7 patterns
$ BAL OUTPUT => error 1, 7 patterns
. 1 1 => error 1, 7 patterns
. *X OUTPUT => Pat(PatId(8)), 9 patterns
";

/// Nine symbols are there from the start, and a new one takes the next number.
const NAMES_BY_VALUES: &str = r"
name A<1> => Name(Elem(ObjId(0), 1)), 7 patterns
name 1 => Name(Var(SymId(9))), 7 patterns
name T => error 1, 7 patterns
name null => error 6, 7 patterns
";

const TYPES: &str = r"
DATATYPE ARB => 'NAME', 7 patterns
DATATYPE A<1> => 'NAME', 7 patterns
DATATYPE T<1> => 'NAME', 7 patterns
DATATYPE A => 'ARRAY', 7 patterns
DATATYPE T => 'TABLE', 7 patterns
DATATYPE *X => 'EXPRESSION', 7 patterns
SIZE ARB => error 1, 7 patterns
SIZE A<1> => error 1, 7 patterns
SIZE T<1> => error 1, 7 patterns
SIZE A => error 1, 7 patterns
SIZE T => error 1, 7 patterns
SIZE *X => error 1, 7 patterns
INTEGER ARB => fails, 7 patterns
INTEGER A<1> => fails, 7 patterns
INTEGER T<1> => fails, 7 patterns
INTEGER A => fails, 7 patterns
INTEGER T => fails, 7 patterns
INTEGER *X => fails, 7 patterns
LT 0 ARB => error 1, 7 patterns
LT 0 A<1> => error 1, 7 patterns
LT 0 T<1> => error 1, 7 patterns
LT 0 A => error 1, 7 patterns
LT 0 T => error 1, 7 patterns
LT 0 *X => error 1, 7 patterns
";

/// Values of the types that no other test has.
const OTHERS: [&str; 12] = [
    "ARB", "BAL", "A<1>", "A<2>", "B<1>", "T<1>", "A", "B", "T", "U", "0", "*X",
];

/// What a function gives of two values.
fn answered(alloc: Global, function: &str, x: &str, y: &str) -> Result<String, Fail> {
    let text = format!(in alloc; "{function} {x} {y}")?;
    let answer = Forms::answer(alloc, text.as_bytes())?;
    Ok(answer)
}

fn check_answered<R: Abort + AllocGlobal>(
    rt: &R,
    function: &str,
    x: &str,
    y: &str,
    expected: &str,
) -> Result<(), Fail> {
    let answer = answered(rt.alloc(), function, x, y)?;
    assert_eq!(rt; answer.as_str(), expected, "{function} {x} {y}");
    Ok(())
}

/// Compares what IDENT and DIFFER give of two values with what they must.
fn check_pair<R: Abort + AllocGlobal>(rt: &R, x: &str, y: &str) -> Result<(), Fail> {
    let (ident, differ) = if x != y {
        ("fails, 7 patterns", "'', 7 patterns")
    } else if x == "*X" {
        ("error 1, 7 patterns", "error 1, 7 patterns")
    } else {
        ("'', 7 patterns", "fails, 7 patterns")
    };
    check_answered(rt, "IDENT", x, y, ident)?;
    check_answered(rt, "DIFFER", x, y, differ)
}

#[test]
fn equal_and_other_values(rt: HostRuntime) -> Result<(), Fail> {
    for x in OTHERS {
        for y in OTHERS {
            check_pair(&rt, x, y)?;
        }
    }
    Ok(())
}

/// What OUTPUT writes of a value, and how that ends.
#[derive(Drop)]
struct Outputs;

impl Question for Outputs {
    fn answer(alloc: Global, text: &[u8]) -> Result<String, Fail> {
        let (ending, written) = assigned_by_new(alloc, from_utf8(text)?)?;
        Ok(format!(in alloc; "{}{ending:?}", from_utf8(&written)?)?)
    }
}

/// How it ends that a new runtime gives OUTPUT a value, and what is written then.
fn assigned_by_new(alloc: Global, word: &str) -> Result<(Result<(), Stop>, Vec<u8>), AllocError> {
    let mut runtime = new_runtime(alloc)?;
    let mut output = Device::new(Vec::new(alloc));
    let value = value_named(word);
    let ending = assign(&mut runtime, OUTPUT, value, &mut output);
    Ok((ending, output.into_inner()))
}

/// A value without a text is error 1.
const VALUES_OF_OUTPUT: &str = r"
1 => 1\nOk(())
null => \nOk(())
A => Err(Error(1))
OUTPUT => Err(Error(1))
*X => Err(Error(1))
";

#[test]
fn rows(rt: HostRuntime) -> Result<(), Fail> {
    check_blocks::<Forms, _>(&rt, &[OPERATORS, NAMES_BY_VALUES, TYPES])?;
    check_rows::<Outputs, _>(&rt, VALUES_OF_OUTPUT)
}
