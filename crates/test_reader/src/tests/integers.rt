//! Integers and their decimal texts.
use super::rows::{Question, check_rows, check_texts};
use sno_value::{Digits, int_text, to_int};
use std::alloc::Global;
use std::test::Fail;

/// The integer that a text writes.
#[derive(Drop)]
struct Integers;

impl Question for Integers {
    fn answer(alloc: Global, text: &[u8]) -> Result<String, Fail> {
        match to_int(text) {
            Some(number) => Ok(format!(in alloc; "{number}")?),
            None => Ok(format!(in alloc; "none")?),
        }
    }
}

/// The integer that a word of a row writes.
pub fn integer(word: &str) -> Result<i64, Fail> {
    let integer = to_int(word.as_bytes()).ok_or("no integer")?;
    Ok(integer)
}

const TEXTS_OF_INTEGERS: &str = r"
+7 => 7
-0 => 0
007 => 7
 => 0
-9223372036854775808 => -9223372036854775808
9223372036854775807 => 9223372036854775807
+9223372036854775807 => 9223372036854775807
09223372036854775807 => 9223372036854775807
-09223372036854775808 => -9223372036854775808
00000000000000000001 => 1
1000000000000000000 => 1000000000000000000
0 => 0
-10 => -10
7 => 7
1000000 => 1000000
\<1000000:0\> => 0
\<1000000:0\>7 => 7
";

#[test]
fn texts_of_integers(rt: HostRuntime) -> Result<(), Fail> {
    check_rows::<Integers, _>(&rt, TEXTS_OF_INTEGERS)
}

const NO_INTEGERS: &str = r"
-
 7
7\s
+9223372036854775808
9223372036854775808
-9223372036854775809
09223372036854775808
18446744073709551616
99999999999999999999
+
--1
+-1
1-
1.0
0x1
1a
\t1
1\n
\0
٣
\<1000000:0\>7\s
";

#[test]
fn texts_of_no_integer(rt: HostRuntime) -> Result<(), Fail> {
    check_texts::<Integers, _>(&rt, "none", NO_INTEGERS)
}

#[test]
fn single_bytes(rt: HostRuntime) {
    for byte in 0..=u8::MAX {
        let digit = byte.is_ascii_digit().then_some(i64::from(byte & 15));
        assert_eq!(rt; to_int(&[byte]), digit, "byte {byte}");
    }
}

const DECIMALS: [(i64, &str); 24] = [
    (0, "0"),
    (1, "1"),
    (7, "7"),
    (9, "9"),
    (10, "10"),
    (11, "11"),
    (42, "42"),
    (99, "99"),
    (100, "100"),
    (101, "101"),
    (999, "999"),
    (1_000, "1000"),
    (65_536, "65536"),
    (1_000_000, "1000000"),
    (1_234_567_890, "1234567890"),
    (999_999_999_999_999_999, "999999999999999999"),
    (1_000_000_000_000_000_000, "1000000000000000000"),
    (i64::MAX, "9223372036854775807"),
    (-1, "-1"),
    (-9, "-9"),
    (-10, "-10"),
    (-100, "-100"),
    (-9_223_372_036_854_775_807, "-9223372036854775807"),
    (i64::MIN, "-9223372036854775808"),
];

#[test]
fn decimal_texts(rt: HostRuntime) -> Result<(), Fail> {
    for (number, text) in &DECIMALS {
        let written = int_text(rt.alloc(), *number)?;
        assert_eq!(rt; written.as_slice(), text.as_bytes(), "{number}");
        let digits = Digits::of(*number);
        assert_eq!(rt; digits.as_slice(), text.as_bytes(), "{number}");
    }
    Ok(())
}
