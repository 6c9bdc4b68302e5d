//! Values and their copies, and the kinds of primitives.
ghost use Rattle.std.specs.Prelude.{◌≡◌, ◌↔◌, ◌≤◌, IsTrue, length};

use sno_value::{ExprId, Name, ObjId, PatId, Prim, SymId, Text, Value};
use std::alloc::{AllocError, Global};
use std::mem::size_of;
use std::process::Abort;
use std::slice::from_ref;
use std::test::Fail;

// `==` tells just whether two values are equal.
fn is_equal(a: &Value, b: &Value) -> bool
    ensures { IsTrue result ↔ (a.now ≡ b.now) }
{
    *a == *b
}

#[test]
fn compares_values(rt: HostRuntime) -> Result<(), Fail> {
    for i in 0..7u32 {
        for j in 0..7u32 {
            check_equal(&rt, rt.alloc(), i, j)?;
        }
    }
    Ok(())
}

/// One of seven different values.
fn value(alloc: Global, number: u32) -> Result<Value, AllocError> {
    let value = match number {
        0 => Value::Str(Text::from_slice(alloc, b"1")?),
        1 => Value::null(),
        2 => Value::Int(1),
        3 => Value::Int(0),
        4 => Value::Pat(PatId(1)),
        5 => Value::Array(ObjId(1)),
        _ => Value::Table(ObjId(1)),
    };
    Ok(value)
}

fn check_equal(rt: &impl Abort, alloc: Global, i: u32, j: u32) -> Result<(), AllocError> {
    let a = value(alloc, i)?;
    let b = value(alloc, j)?;
    assert!(rt; is_equal(&a, &b) == (i == j), "{i} {j}");
    Ok(())
}

const NAMES: [Name; 3] = [
    Name::Var(SymId(3)),
    Name::Elem(ObjId(1), 2),
    Name::Entry(ObjId(4), 0),
];

#[test]
fn copies_names(rt: HostRuntime) -> Result<(), Fail> {
    for name in &NAMES {
        assert_eq!(rt; Value::Name(*name).copy()?, Value::Name(*name));
    }
    Ok(())
}

#[test]
fn copies_numbers(rt: HostRuntime) -> Result<(), Fail> {
    check_value(&rt, &Value::Int(i64::MIN))?;
    check_value(&rt, &Value::Pat(PatId(7)))?;
    check_value(&rt, &Value::Expr(ExprId(8)))?;
    check_value(&rt, &Value::Array(ObjId(0)))?;
    check_value(&rt, &Value::Table(ObjId(0)))?;
    Ok(())
}

/// Compares a value with its copy.
fn check_value(rt: &impl Abort, value: &Value) -> Result<(), AllocError> {
    let copy = value.copy()?;
    assert_eq!(rt; copy, *value);
    Ok(())
}

/// Strings of 0, 1, 9, 21, 22, 23, 24 and 52 bytes: those of up to 22 lie in their value.
const STRINGS: [&str; 8] = [
    "",
    "A",
    "two words",
    "abcdefghijklmnopqrstu",
    "abcdefghijklmnopqrstuv",
    "abcdefghijklmnopqrstuvw",
    "abcdefghijklmnopqrstuvwx",
    "abcdefghijklmnopqrstuvwxyzabcdefghijklmnopqrstuvwxyz",
];

/// Compares a string with its copy.
fn check_copy(rt: &impl Abort, string: &Value, bytes: &[u8]) -> Result<(), Fail> {
    let Value::Str(copy) = string.copy()? else {
        return Err(Fail::from("no string"));
    };
    assert!(rt; copy.as_slice() == bytes);
    assert!(rt; *string == Value::Str(copy));
    Ok(())
}

/// Compares a string with one that is made of a list of its bytes.
fn check_list(
    rt: &impl Abort,
    alloc: Global,
    string: &Value,
    bytes: &[u8],
) -> Result<(), AllocError> {
    let list = Vec::from_slice(alloc, bytes)?;
    let made = Value::Str(Text::new(alloc, list)?);
    assert!(rt; *string == made);
    Ok(())
}

#[test]
fn copies_strings(rt: HostRuntime) -> Result<(), Fail> {
    for text in &STRINGS {
        let string = Value::Str(Text::from_slice(rt.alloc(), text.as_bytes())?);
        check_copy(&rt, &string, text.as_bytes())?;
        check_list(&rt, rt.alloc(), &string, text.as_bytes())?;
    }
    Ok(())
}

#[test]
fn joins_strings(rt: HostRuntime) -> Result<(), Fail> {
    for text in &STRINGS {
        let bytes = text.as_bytes();
        for at in 0..=bytes.len() {
            let joined = Text::joined(rt.alloc(), &bytes[..at], &bytes[at..])?;
            assert!(rt; joined.as_slice() == bytes, "{text} {at}");
        }
    }
    Ok(())
}

/// Compares what a string has from a place on, and the first half of that.
fn check_rest(
    rt: &impl Abort,
    alloc: Global,
    whole: &Text,
    bytes: &[u8],
    start: usize,
) -> Result<(), AllocError>
    requires whole { whole.now ≡ bytes.now }
    requires start { start ≤ length bytes.now }
{
    let rest = whole.part(alloc, start, bytes.len())?;
    assert!(rt; rest.as_slice() == &bytes[start..], "{bytes:?} {start}");
    check_half(rt, alloc, &rest)
}

fn check_half(rt: &impl Abort, alloc: Global, rest: &Text) -> Result<(), AllocError> {
    let bytes = rest.as_slice();
    let first = rest.part(alloc, 0, bytes.len() / 2)?;
    assert!(rt; first.as_slice() == &bytes[..bytes.len() / 2], "{bytes:?}");
    Ok(())
}

#[test]
fn takes_parts_of_strings(rt: HostRuntime) -> Result<(), Fail> {
    for text in &STRINGS {
        let bytes = text.as_bytes();
        let whole = Text::from_slice(rt.alloc(), bytes)?;
        for start in 0..=bytes.len() {
            check_rest(&rt, rt.alloc(), &whole, bytes, start)?;
        }
    }
    Ok(())
}

/// A part holds its bytes when the string that it was taken from is gone.
#[test]
fn keeps_parts_of_strings_that_are_gone(rt: HostRuntime) -> Result<(), Fail> {
    let part = last_letters(rt.alloc())?;
    assert!(rt; part.as_slice() == b"defghijklmnopqrstuvwxyz".as_slice());
    Ok(())
}

fn last_letters(alloc: Global) -> Result<Text, AllocError> {
    let letters = Text::from_slice(alloc, b"abcdefghijklmnopqrstuvwxyz")?;
    let length = letters.as_slice().len();
    letters.part(alloc, length.min(3), length)
}

/// Appends what a string has from a place on to what it has before it.
fn check_append(rt: &impl Abort, alloc: Global, bytes: &[u8], at: usize) -> Result<(), AllocError>
    requires { at ≤ length bytes.now }
{
    let mut string = Text::from_slice(alloc, &bytes[..at])?;
    string.append(alloc, &bytes[at..])?;
    assert!(rt; string.as_slice() == bytes, "{bytes:?} {at}");
    Ok(())
}

/// Appends bytes one by one.
fn append_each(alloc: Global, string: &mut Text, bytes: &[u8]) -> Result<(), AllocError> {
    for byte in bytes {
        string.append(alloc, from_ref(byte))?;
    }
    Ok(())
}

#[test]
fn appends_to_strings(rt: HostRuntime) -> Result<(), Fail> {
    for text in &STRINGS {
        let bytes = text.as_bytes();
        for at in 0..=bytes.len() {
            check_append(&rt, rt.alloc(), bytes, at)?;
        }
        let mut string = Text::null();
        append_each(rt.alloc(), &mut string, bytes)?;
        assert!(rt; string.as_slice() == bytes, "{text}");
    }
    Ok(())
}

const LETTERS: &[u8] = b"abcdefghijklmnopqrstuvwxyzabcdef";

/// What is appended to a string is seen neither in its copies nor in its parts, nor in what it is a part of.
#[test]
fn appends_to_one_of_many(rt: HostRuntime) -> Result<(), Fail> {
    let mut whole = Text::from_slice(rt.alloc(), LETTERS)?;
    whole.append(rt.alloc(), b"gh")?;
    check_copied(&rt, rt.alloc(), &mut whole)
}

fn check_copied(rt: &impl Abort, alloc: Global, whole: &mut Text) -> Result<(), Fail>
    requires { 34 ≤ length whole.old }
{
    let copy = whole.copy()?;
    check_first(rt, alloc, whole)?;
    assert!(rt; copy.as_slice() == b"abcdefghijklmnopqrstuvwxyzabcdefgh".as_slice());
    Ok(())
}

fn check_first(rt: &impl Abort, alloc: Global, whole: &mut Text) -> Result<(), AllocError>
    requires { 34 ≤ length whole.old }
{
    let mut first = whole.part(alloc, 0, 26)?;
    check_last(rt, alloc, whole, &mut first)
}

fn check_last(
    rt: &impl Abort,
    alloc: Global,
    whole: &mut Text,
    first: &mut Text,
) -> Result<(), AllocError>
    requires { 34 ≤ length whole.old }
{
    let mut last = whole.part(alloc, 8, 34)?;
    whole.append(alloc, b"1")?;
    first.append(alloc, b"2")?;
    last.append(alloc, b"3")?;
    assert!(rt; whole.as_slice() == b"abcdefghijklmnopqrstuvwxyzabcdefgh1".as_slice());
    assert!(rt; first.as_slice() == b"abcdefghijklmnopqrstuvwxyz2".as_slice());
    assert!(rt; last.as_slice() == b"ijklmnopqrstuvwxyzabcdefgh3".as_slice());
    Ok(())
}

/// A part that is left alone in its block grows there, whether it begins or ends within it.
#[test]
fn appends_to_parts(rt: HostRuntime) -> Result<(), Fail> {
    let wanted: &[u8] = b"defghijklmnopqrstuvwxyz0123456789012345678901234567890123456789";
    let mut first = grown_part(&rt, rt.alloc(), wanted)?;
    append_each(rt.alloc(), &mut first, &wanted[30..])?;
    assert!(rt; first.as_slice() == wanted);
    Ok(())
}

/// The first 30 bytes of a part that has grown, and is gone then.
fn grown_part(rt: &impl Abort, alloc: Global, wanted: &[u8]) -> Result<Text, AllocError>
    requires { 30 ≤ length wanted.now }
{
    let mut last = last_letters(alloc)?;
    append_each(alloc, &mut last, &wanted[23..])?;
    assert!(rt; last.as_slice() == wanted);
    let first = last.part(alloc, 0, 30)?;
    Ok(first)
}

/// A value takes four words, whatever it is.
#[test]
fn has_small_values(rt: HostRuntime) {
    assert!(rt; size_of::<Value>() == 32);
}

const COUNTS: [Prim; 5] = [Prim::Len, Prim::Pos, Prim::Rpos, Prim::Tab, Prim::Rtab];

const SETS: [Prim; 5] = [
    Prim::Any,
    Prim::NotAny,
    Prim::Span,
    Prim::Break,
    Prim::BreakX,
];

#[test]
fn counts_and_sets(rt: HostRuntime) {
    for kind in &COUNTS {
        assert!(rt; kind.takes_count());
    }
    for kind in &SETS {
        assert!(rt; !kind.takes_count());
    }
}
