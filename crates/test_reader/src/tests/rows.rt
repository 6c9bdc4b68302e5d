//! Blocks of rows: each line has a text, ` => ` and the answer that the text must have. An empty line, or one that
//! begins with `-- `, is no row.
//!
//! In a row `\n`, `\t`, `\r`, `\v` and `\0` are the bytes that they are in C, `\d` is byte 127, `\s` a blank and `\\` a
//! backslash, `\#` is 9223372036854775808, and `\<40:TEXT\>` stands for 40 copies of TEXT.
use std::alloc::{AllocError, Global};
use std::process::Abort;
use std::test::Fail;

/// What is asked about the texts of a block.
pub trait Question {
    /// The answer for a text.
    fn answer(alloc: Global, text: &[u8]) -> Result<String, Fail>;
}

/// Compares the answer for the text of each row with that of the row.
pub fn check_rows<Q: Question, R: Abort + AllocGlobal>(rt: &R, block: &str) -> Result<(), Fail> {
    for row in block.lines() {
        match row.split_once(" => ") {
            Some((text, answer)) => check_row::<Q, R>(rt, text, answer)?,
            None => assert!(rt; row.is_empty() || row.starts_with("-- "), "no row: {row}"),
        }
    }
    Ok(())
}

/// The same of several blocks.
pub fn check_blocks<Q: Question, R: Abort + AllocGlobal>(
    rt: &R,
    blocks: &[&str],
) -> Result<(), Fail> {
    for block in blocks {
        check_rows::<Q, R>(rt, block)?;
    }
    Ok(())
}

/// The same of a block whose lines are texts that all have one answer.
pub fn check_texts<Q: Question, R: Abort + AllocGlobal>(
    rt: &R,
    answer: &str,
    block: &str,
) -> Result<(), Fail> {
    for text in block.lines() {
        if !text.is_empty() {
            check_row::<Q, R>(rt, text, answer)?;
        }
    }
    Ok(())
}

fn check_row<Q: Question, R: Abort + AllocGlobal>(
    rt: &R,
    text: &str,
    answer: &str,
) -> Result<(), Fail> {
    let text_bytes = decoded(rt.alloc(), text)?;
    let answer_bytes = decoded(rt.alloc(), answer)?;
    let given = Q::answer(rt.alloc(), &text_bytes)?;
    assert!(rt;
        given.as_bytes() == answer_bytes.as_slice(),
        "{text} => {given}"
    );
    Ok(())
}

/// The bytes for which a text of a row stands.
pub fn decoded(alloc: Global, text: &str) -> Result<Vec<u8>, Fail> {
    let mut bytes = Vec::new(alloc);
    let mut rest = text;
    for _ in 0..text.len() {
        let Some((before, behind)) = rest.split_once("\\<") else {
            break;
        };
        push_decoded(&mut bytes, before)?;
        rest = push_copies(alloc, &mut bytes, behind)?;
    }
    push_decoded(&mut bytes, rest)?;
    Ok(bytes)
}

/// Adds the copies that `COUNT:TEXT\>` at the head of a text asks for, and gives what is behind it.
fn push_copies<'a>(alloc: Global, bytes: &mut Vec<u8>, text: &'a str) -> Result<&'a str, Fail> {
    let Some((count, text)) = text.split_once(":") else {
        return Err(Fail::from("no colon"));
    };
    let Some((text, rest)) = text.split_once("\\>") else {
        return Err(Fail::from("no end"));
    };
    let count: u32 = count.parse()?;
    let mut copy = Vec::new(alloc);
    push_decoded(&mut copy, text)?;
    for _ in 0..count {
        bytes.extend_from_slice(&copy)?;
    }
    Ok(rest)
}

/// Adds a text without copies.
fn push_decoded(bytes: &mut Vec<u8>, text: &str) -> Result<(), AllocError> {
    let mut is_escaped = false;
    for byte in text.as_bytes() {
        if is_escaped {
            push_escaped(bytes, *byte)?;
            is_escaped = false;
        } else if *byte == b'\\' {
            is_escaped = true;
        } else {
            bytes.push(*byte)?;
        }
    }
    Ok(())
}

/// Adds that for which a byte behind a backslash stands.
fn push_escaped(bytes: &mut Vec<u8>, byte: u8) -> Result<(), AllocError> {
    let meant: &[u8] = match byte {
        b'n' => b"\n",
        b't' => b"\t",
        b'r' => b"\r",
        b'v' => b"\x0b",
        b'0' => b"\0",
        b'd' => b"\x7f",
        b's' => b" ",
        b'#' => b"9223372036854775808",
        _ => b"\\",
    };
    bytes.extend_from_slice(meant)?;
    Ok(())
}
