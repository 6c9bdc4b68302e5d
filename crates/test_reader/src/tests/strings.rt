//! TRIM, DUPL, REPLACE and LGT on strings.
use super::integers::integer;
use super::rows::{Question, check_blocks};
use sno_value::{TextError, dupl, lgt, replace, trim};
use std::alloc::{AllocError, Global};
use std::process::Abort;
use std::test::Fail;

/// What a function gives of the texts behind its name, with `|` between them: a text in brackets, or none, how it is
/// refused, or whether it holds.
#[derive(Drop)]
struct Calls;

impl Question for Calls {
    fn answer(alloc: Global, text: &[u8]) -> Result<String, Fail> {
        let mut words = str::from_utf8(text)?.split("|");
        let function = words.next().unwrap_or("");
        let first = words.next().unwrap_or("").as_bytes();
        let second = words.next().unwrap_or("");
        let third = words.next().unwrap_or("").as_bytes();
        match function {
            "TRIM" => bracketed(alloc, trim(first)),
            "DUPL" => copies(alloc, first, integer(second)?),
            "REPLACE" => outcome(alloc, replace(alloc, first, second.as_bytes(), third)?),
            _ => Ok(format!(in alloc; "{}", lgt(first, second.as_bytes()))?),
        }
    }
}

fn copies(alloc: Global, text: &[u8], count: i64) -> Result<String, Fail> {
    match dupl(alloc, text, count) {
        Ok(copied) => outcome(alloc, copied),
        Err(error) => Ok(format!(in alloc; "{error}")?),
    }
}

fn outcome(alloc: Global, text: Option<Vec<u8>>) -> Result<String, Fail> {
    match text {
        Some(text) => bracketed(alloc, &text),
        None => Ok(String::from_str(alloc, "none")?),
    }
}

fn bracketed(alloc: Global, text: &[u8]) -> Result<String, Fail> {
    let text = str::from_utf8(text)?;
    Ok(format!(in alloc; "[{text}]")?)
}

/// Trims.
const TRIMMED: &str = r"
TRIM| => []
TRIM|\s => []
TRIM|A => [A]
TRIM|A \s => [A]
TRIM| A B\s => [ A B]
TRIM|A\t\s => [A\t]
TRIM|A \t => [A \t]
TRIM|\<1000000: \> => []
TRIM|\<1000000: \>A => [\<1000000: \>A]
";

/// Duplicates.
const COPIES: &str = r"
DUPL|A|0 => []
DUPL|A|1 => [A]
DUPL|A|2 => [AA]
DUPL|A|3 => [AAA]
DUPL|AB|0 => []
DUPL|AB|1 => [AB]
DUPL|AB|2 => [ABAB]
DUPL|AB|3 => [ABABAB]
DUPL|ABC|0 => []
DUPL|ABC|1 => [ABC]
DUPL|ABC|2 => [ABCABC]
DUPL|ABC|5 => [ABCABCABCABCABC]
DUPL||1000 => []
DUPL|A|999 => [\<999:A\>]
DUPL|A|1000 => [\<1000:A\>]
DUPL|A|1001 => [\<1001:A\>]
DUPL|AB|999 => [\<999:AB\>]
DUPL|AB|1000 => [\<1000:AB\>]
DUPL|AB|1001 => [\<1001:AB\>]
DUPL|ABC|999 => [\<999:ABC\>]
DUPL|ABC|1000 => [\<1000:ABC\>]
DUPL|ABC|1001 => [\<1001:ABC\>]
DUPL||9223372036854775807 => []
DUPL||0 => []
DUPL|A|-1 => none
DUPL|A|-9223372036854775808 => none
DUPL||-1 => none
-- up to the limit
DUPL|AB|500000 => [\<500000:AB\>]
DUPL|AB|499999 => [\<499999:AB\>]
DUPL|ABC|333333 => [\<333333:ABC\>]
DUPL|A|999999 => [\<999999:A\>]
DUPL|A|1000000 => [\<1000000:A\>]
DUPL|\<1000000:A\>|1 => [\<1000000:A\>]
DUPL|\<1000001:A\>|0 => []
DUPL|AB|500001 => string too long
DUPL|ABC|333334 => string too long
DUPL|A|1000001 => string too long
DUPL|A|9223372036854775807 => string too long
DUPL|AB|9223372036854775807 => string too long
DUPL|\<1000000:A\>|2 => string too long
DUPL|\<1000001:A\>|1 => string too long
";

/// Replaces.
const REPLACED: &str = r"
REPLACE|ABA|AB|XY => [XYX]
REPLACE|A|AA|XY => [Y]
REPLACE|A|AB|X => none
REPLACE|A|| => none
REPLACE||A|X => []
REPLACE|AB|BA|AB => [BA]
REPLACE|ABC|BAB|123 => [23C]
REPLACE|\<1000000:A\>|\<1000000:A\>|\<999999:X\>Z => [\<1000000:Z\>]
";

/// Compares.
const COMPARED: &str = r"
LGT|A| => true
LGT|| => false
LGT||A => false
LGT|B|A => true
LGT|A|A => false
LGT|AB|A => true
LGT|A|AB => false
LGT|a|B => true
LGT|B|AZ => true
LGT|\0| => true
LGT|\<1000001:A\>|\<1000000:A\> => true
LGT|\<1000000:A\>|\<1000001:A\> => false
LGT|\<64:A\>B|\<64:A\>A => true
LGT|\<64:A\>|\<63:A\>B => false
LGT|\<63:A\>BA|\<63:A\>AB => true
LGT|\<1000:A\>AB\<100:A\>|\<1000:A\>BA\<100:B\> => false
LGT|\<65:A\>|\<65:A\> => false
";

#[test]
fn every_byte(rt: HostRuntime) -> Result<(), Fail> {
    for byte in 0..=u8::MAX {
        check_trimmed(&rt, byte);
        assert!(rt; lgt(&[byte], &[127]) == (byte > 127), "byte {byte}");
        check_replaced(&rt, rt.alloc(), byte)?;
    }
    Ok(())
}

fn check_trimmed(rt: &impl Abort, byte: u8) {
    let kept = if byte == 32 { 0 } else { 1 };
    assert!(rt;
        trim(&[byte]).len() == kept && trim(&[byte, 32]).len() == kept,
        "byte {byte}"
    );
}

fn check_replaced(rt: &impl Abort, alloc: Global, byte: u8) -> Result<(), TextError> {
    let other = byte ^ 255;
    let replaced = replace(alloc, &[byte, other], &[byte], &[7])?;
    assert!(rt;
        replaced.as_deref() == Some([7, other].as_slice()),
        "byte {byte}"
    );
    Ok(())
}

/// Want of memory, which no row can have.
#[test]
fn no_memory(rt: HostRuntime) -> Result<(), Fail> {
    let text = TextError::from(AllocError).to_string(rt.alloc())?;
    assert!(rt; text.as_str() == "no memory");
    Ok(())
}

/// All blocks: behind a call a test is proved without their bytes.
fn blocks() -> [&'static str; 4] {
    [TRIMMED, COPIES, REPLACED, COMPARED]
}

#[test]
fn rows(rt: HostRuntime) -> Result<(), Fail> {
    check_blocks::<Calls, _>(&rt, &blocks())
}
