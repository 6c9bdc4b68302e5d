//! The functions on values that take memory.
use sno_value::{Text, TextError, Value, dupl, dupl_text, int_text, replace, replace_text};
use std::alloc::{AllocError, Global};

/// Whether each gives what it must, or that memory was refused and then what it must.
pub(crate) fn hold(alloc: Global) -> Result<bool, AllocError> {
    let copies = copy_holds(alloc)?;
    let texts = texts_hold(alloc)?;
    Ok(
        copies
            && texts
            && integer_holds(alloc, -9_223_372_036_854_775_808, b"-9223372036854775808")
            && integer_holds(alloc, 0, b"0")
            && copies_hold(alloc)
            && replacement_holds(alloc)
            && text_of_copies_holds(alloc)
            && text_of_replacement_holds(alloc),
    )
}

fn integer_holds(alloc: Global, number: i64, wanted: &[u8]) -> bool {
    let text = match int_text(alloc, number) {
        Err(_) => int_text(alloc, number),
        text => text,
    };
    match text {
        Ok(text) => text.as_slice() == wanted,
        Err(_) => false,
    }
}

fn copies_hold(alloc: Global) -> bool {
    let copies = match dupl(alloc, b"abc", 4) {
        Err(TextError::NoMemory) => dupl(alloc, b"abc", 4),
        copies => copies,
    };
    match copies {
        Ok(Some(copies)) => copies.as_slice() == b"abcabcabcabc".as_slice(),
        _ => false,
    }
}

fn replacement_holds(alloc: Global) -> bool {
    let replaced = match replace(alloc, b"banana", b"an", b"on") {
        Err(_) => replace(alloc, b"banana", b"an", b"on"),
        replaced => replaced,
    };
    match replaced {
        Ok(Some(replaced)) => replaced.as_slice() == b"bonono".as_slice(),
        _ => false,
    }
}

fn text_of_copies_holds(alloc: Global) -> bool {
    let copies = match dupl_text(alloc, b"abc", 8) {
        Err(TextError::NoMemory) => dupl_text(alloc, b"abc", 8),
        copies => copies,
    };
    match copies {
        Ok(Some(copies)) => copies.as_slice() == b"abcabcabcabcabcabcabcabc".as_slice(),
        _ => false,
    }
}

fn text_of_replacement_holds(alloc: Global) -> bool {
    let replaced = match replace_text(alloc, b"bananabananabananabanana", b"an", b"on") {
        Err(_) => replace_text(alloc, b"bananabananabananabanana", b"an", b"on"),
        replaced => replaced,
    };
    match replaced {
        Ok(Some(replaced)) => replaced.as_slice() == b"bononobononobononobonono".as_slice(),
        _ => false,
    }
}

/// Strings that are too long to lie in their values, and parts of one: a part that is shorter than an eighth is copied.
fn texts_hold(alloc: Global) -> Result<bool, AllocError> {
    let bytes = [b'x'; 200];
    let list = Vec::from_slice(alloc, &bytes)?;
    let text = match Text::new(alloc, list) {
        Err(_) => Text::new(alloc, Vec::from_slice(alloc, &bytes)?)?,
        Ok(text) => text,
    };
    let copied = match Text::from_slice(alloc, &bytes) {
        Err(_) => Text::from_slice(alloc, &bytes)?,
        Ok(copied) => copied,
    };
    let joined = match Text::joined(alloc, &bytes[..40], &bytes[40..]) {
        Err(_) => Text::joined(alloc, &bytes[..40], &bytes[40..])?,
        Ok(joined) => joined,
    };
    Ok(
        text.as_slice() == bytes.as_slice()
            && copied == text
            && joined == text
            && part_holds(alloc, &text, 10, 90)?
            && part_holds(alloc, &text, 10, 34)?
            && text == copied,
    )
}

/// A part of a text, behind which the text is as before.
fn part_holds(alloc: Global, text: &Text, start: usize, end: usize) -> Result<bool, AllocError> {
    if start > end || end > text.as_slice().len() {
        return Ok(false);
    }
    let part = match text.part(alloc, start, end) {
        Err(_) => text.part(alloc, start, end)?,
        Ok(part) => part,
    };
    Ok(part.as_slice() == &text.as_slice()[start..end])
}

/// A copy of a text, behind which the text is as before.
fn copy_holds(alloc: Global) -> Result<bool, AllocError> {
    let value = Value::Str(Text::from_slice(alloc, b"a text")?);
    let copy = match value.copy() {
        Err(_) => value.copy(),
        copy => copy,
    };
    let Ok(Value::Str(copy)) = copy else {
        return Ok(false);
    };
    let Value::Str(text) = value else {
        return Ok(false);
    };
    Ok(copy.as_slice() == b"a text".as_slice() && text.as_slice() == b"a text".as_slice())
}
