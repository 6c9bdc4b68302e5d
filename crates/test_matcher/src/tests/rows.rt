//! Blocks of rows: each line has a text, ` => ` and the answer that the text must have. An empty line is no row.
use std::alloc::Global;
use std::process::Abort;
use std::test::Fail;

/// What is asked about the texts of a block.
pub trait Question {
    /// The answer for a text.
    fn answer(alloc: Global, text: &'static str) -> Result<String, Fail>;
}

/// Compares the answer for the text of each row with that of the row.
pub fn check_rows<Q: Question, R: Abort + AllocGlobal>(
    rt: &R,
    block: &'static str,
) -> Result<(), Fail> {
    for row in block.lines() {
        if !row.is_empty() {
            let (text, answer) = parts(row, " => ")?;
            let given = Q::answer(rt.alloc(), text)?;
            assert!(rt; given.as_str() == answer, "{text} => {given}");
        }
    }
    Ok(())
}

/// The same of several blocks.
pub fn check_blocks<Q: Question, R: Abort + AllocGlobal>(
    rt: &R,
    blocks: &[&'static str],
) -> Result<(), Fail> {
    for block in blocks {
        check_rows::<Q, R>(rt, block)?;
    }
    Ok(())
}

/// What stands before a sign and behind it.
pub fn parts(text: &'static str, sign: &str) -> Result<(&'static str, &'static str), Fail> {
    let parts = text.split_once(sign).ok_or("a row lacks a sign")?;
    Ok(parts)
}
