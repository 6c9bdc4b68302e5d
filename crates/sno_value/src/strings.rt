//! The functions TRIM, DUPL, REPLACE and LGT on strings (the book, chapter 3).
ghost use Rattle.std.specs.Prelude.{◌≡◌, ◌↔◌, ◌<ℤ◌, ◌<◌, ◌≤◌, ◌*◌, ℕ, pos, length, map, Ok, Err, Some, None, unsigned_abs};
ghost use Rattle.std.specs.Prelude.{IfOk, IsOk, IsNone, IsOkAnd, slice_index};
ghost use Rattle.sno_value.specs.Strings.{trimmed, copies, duplicate, replacement, replaced, is_after, items_of};
ghost use Rattle.sno_value.specs.Strings.{message_of};
ghost use Rattle.sno_value.specs.declared.strings.TextError.TheVariants.{NoMemory};

use crate::text::{MOST_HERE, Text};
use std::alloc::{AllocError, Global};
use std::error::Error;
use std::fmt;

/// The most bytes that a string may have (this profile).
const MAX_TEXT: usize = 1_000_000;

/// Why there is no string.
#[derive(Clone, Copy, Debug, PartialEq, Eq)]
pub enum TextError {
    /// It would have more than 1,000,000 bytes.
    TooLong,
    /// Memory was refused.
    NoMemory,
}

impl From<AllocError> for TextError {
    ghost from_gives = { λ _ e. e ≡ NoMemory };

    fn from(_e: AllocError) -> Self {
        Self::NoMemory
    }
}

impl fmt::Display for TextError {
    ghost output = { λ e. Some (message_of e) };

    fn fmt<W: fmt::Write>(&self, f: &mut fmt::Formatter<W>) -> fmt::Result {
        f.write_str(match self {
            TextError::TooLong => "string too long",
            TextError::NoMemory => "no memory",
        })
    }
}

impl Error for TextError {}

/// TRIM: the text without its trailing spaces (byte 32 alone, this profile).
#[tactic(auto, using(crate::proofs::TrailingSpaces::trimming), unfolding(crate::specs::Strings::trimmed))]
pub fn trim(text: &[u8]) -> &[u8]
    ensures { result.now ≡ trimmed text.now }
{
    let mut kept = text;
    while let [rest @ .., b' '] = kept {
        kept = rest;
    }
    kept
}

/// DUPL: `count` copies of the text, one after another. It is None for a negative count, and too long where the copies
/// have more than 1,000,000 bytes (both this profile).
#[tactic(auto, using(crate::proofs::Copies::duplicate_at), unfolding(crate::specs::Strings::duplicate))]
pub fn dupl(alloc: Global, text: &[u8], count: i64) -> Result<Option<Vec<u8>>, TextError>
    ensures ok { IfOk result (λ answer. Ok (items_of answer) ≡ duplicate text.now count) }
    ensures too_long { (result ≡ Err TextError.TooLong) ↔ (duplicate text.now count ≡ Err TextError.TooLong) }
    ensures negative { count <ℤ pos 0 → IsOkAnd result IsNone }
    ensures null { unsigned_abs count * length text.now ≡ 0 → IsOk result }
{
    if count < 0 {
        return Ok(None);
    }
    let count = count as usize;
    match count.checked_mul(text.len()) {
        Some(total) if total <= MAX_TEXT => {
            let copied = copies_of(alloc, text, count)?;
            Ok(Some(copied))
        }
        _ => Err(TextError::TooLong),
    }
}

/// DUPL as a string: the same as `dupl` gives. Copies that a string holds in itself take no memory.
pub fn dupl_text(alloc: Global, text: &[u8], count: i64) -> Result<Option<Text>, TextError>
    ensures ok { IfOk result (λ answer. Ok answer ≡ duplicate text.now count) }
    ensures too_long { (result ≡ Err TextError.TooLong) ↔ (duplicate text.now count ≡ Err TextError.TooLong) }
    ensures negative { count <ℤ pos 0 → IsOkAnd result IsNone }
{
    if 0 < count && count <= MOST_HERE as i64 && text.len() <= MOST_HERE {
        let count = count as usize;
        if count * text.len() <= MOST_HERE {
            return Ok(Some(short_copies(text, count)));
        }
    }
    match dupl(alloc, text, count)? {
        Some(copied) => {
            let copied = Text::new(alloc, copied)?;
            Ok(Some(copied))
        }
        None => Ok(None),
    }
}

// Copies that a string holds in itself: behind the first one each byte is that which stands a text's length before it.
#[inline(always)]
fn short_copies(text: &[u8], count: usize) -> Text
    requires some { 1 ≤ count }
    requires few { count ≤ 22 }
    requires short { count * length text.now ≤ 22 }
    ensures { result ≡ copies count text.now }
{
    if let [byte] = text {
        return Text::first_of([*byte; MOST_HERE], count);
    }
    let total = count * text.len();
    let mut bytes = [0; MOST_HERE];
    bytes[..text.len()].copy_from_slice(text);
    for k in text.len()..total {
        bytes[k] = bytes[k - text.len()];
    }
    Text::first_of(bytes, total)
}

// So many copies of the text. Where they are null, they take no time and no memory. Each turn doubles them, so that a
// short text is not copied for itself each time.
#[tactic(auto, using(crate::proofs::Copies::copying))]
fn copies_of(alloc: Global, text: &[u8], count: usize) -> Result<Vec<u8>, AllocError>
    requires { count * length text.now ≤ 1_000_000 }
    ensures ok { IfOk result (λ copied. copied.items ≡ copies count text.now) }
    ensures null { count * length text.now ≡ 0 → IsOk result }
{
    let total = count * text.len();
    if total == 0 {
        return Ok(Vec::new(alloc));
    }
    let mut copied = Vec::with_capacity(alloc, total)?;
    copied.extend_from_slice(text)?;
    let mut made = 1;
    'doublings: while made < count {
        let more = made.min(count - made);
        copied.extend_from_within(..more * text.len())?;
        made += more;
    }
    Ok(copied)
}

/// REPLACE: the text with each byte that stands in `from` replaced by the byte of `to` at the last place where it
/// stands in `from`. It is None where `from` is empty or not as long as `to` (this profile).
#[tactic(auto, unfolding(crate::specs::Strings::replaced))]
pub fn replace(
    alloc: Global,
    text: &[u8],
    from: &[u8],
    to: &[u8],
) -> Result<Option<Vec<u8>>, AllocError>
    ensures ok { IfOk result (λ answer. items_of answer ≡ replaced text.now from.now to.now) }
    ensures refused { replaced text.now from.now to.now ≡ None → IsOkAnd result IsNone }
    ensures null { length text.now ≡ 0 → IsOk result }
{
    if from.is_empty() || from.len() != to.len() {
        return Ok(None);
    }
    let table = replacement_table(from, to);
    let mut output = Vec::with_capacity(alloc, text.len())?;
    output.extend_from_slice(text)?;
    for byte in output.iter_mut() {
        *byte = table[*byte as usize];
    }
    Ok(Some(output))
}

/// REPLACE as a string: the same as `replace` gives. A string that holds its bytes in itself takes no memory.
#[tactic(auto, unfolding(crate::specs::Strings::replaced))]
pub fn replace_text(
    alloc: Global,
    text: &[u8],
    from: &[u8],
    to: &[u8],
) -> Result<Option<Text>, AllocError>
    ensures ok { IfOk result (λ answer. answer ≡ replaced text.now from.now to.now) }
    ensures refused { replaced text.now from.now to.now ≡ None → IsOkAnd result IsNone }
{
    if text.len() <= MOST_HERE && !from.is_empty() && from.len() == to.len() {
        return Ok(Some(short_replaced(text, from, to)));
    }
    match replace(alloc, text, from, to)? {
        Some(bytes) => {
            let text = Text::new(alloc, bytes)?;
            Ok(Some(text))
        }
        None => Ok(None),
    }
}

// A text that a string holds in itself, with each byte replaced.
#[inline(always)]
fn short_replaced(text: &[u8], from: &[u8], to: &[u8]) -> Text
    requires short { length text.now ≤ 22 }
    requires pairs { length from.now ≡ length to.now }
    ensures { result ≡ map (replacement from.now to.now) text.now }
{
    let table = replacement_table(from, to);
    let mut bytes = [0; MOST_HERE];
    for (k, byte) in text.iter().enumerate() {
        bytes[k] = table[*byte as usize];
    }
    Text::first_of(bytes, text.len())
}

// What stands for each byte: a later place in `from` overwrites an earlier one.
#[tactic(auto, unfolding(crate::specs::Strings::replacement))]
#[inline(always)]
fn replacement_table(from: &[u8], to: &[u8]) -> [u8; 256]
    requires { length from.now ≡ length to.now }
    ensures { (byte : ℕ) → byte < 256 → slice_index result byte ≡ replacement from.now to.now byte }
{
    let mut table = [0; 256];
    for byte in 0..=u8::MAX {
        table[byte as usize] = byte;
    }
    for (old, new) in from.iter().zip(to) {
        table[*old as usize] = *new;
    }
    table
}

/// LGT: whether the text is after the other in byte order.
#[tactic(auto, using(crate::proofs::ByteOrder::greater_is_after))]
pub fn lgt(text: &[u8], other: &[u8]) -> bool
    ensures { result ≡ is_after text.now other.now }
{
    text.cmp(other).is_gt()
}
