//! The bytes of a text by class, and runs of them.
ghost use Rattle.std.specs.Prelude.{◌≡◌, ◌≢◌, ◌+◌, ◌≤◌, ◌<◌, ℕ, length, MatchOption};
ghost use Rattle.sno_text.specs.Bytes.{byte, in_class, IsWholeRun};
ghost use Rattle.sno_text.specs.inner.Bytes.{IsLiteralEnd, NoLiteralEnd};
ghost use Rattle.sno_text.specs.Bytes as spec;

/// A class of bytes.
#[derive(Clone, Copy)]
pub enum Class {
    /// A space, a tab, or the joint of a line and its continuation.
    Blank,
    /// A letter, a digit, `.` or `_`.
    NameByte,
    Digit,
    Letter,
    /// A sign before an operand.
    UnarySign,
    /// What an element begins with.
    Start,
    /// A closing bracket.
    Closing,
    /// An opening bracket.
    Opening,
}

/// Whether a byte is a unary operator.
#[tactic(auto, unfolding(crate::specs::Bytes::is_unary))]
fn is_unary(byte: u8) -> bool
    ensures { result ≡ spec.is_unary byte }
{
    matches!(byte, b'+' | b'-' | b'$' | b'.' | b'*' | b'@' | b'?' | b'~')
}

/// Whether a primary may begin with the byte.
#[tactic(auto, unfolding(crate::specs::Bytes::is_letter, crate::specs::Bytes::is_digit, crate::specs::Bytes::is_first))]
fn is_first(byte: u8) -> bool
    ensures { result ≡ spec.is_first byte }
{
    byte.is_ascii_alphabetic()
        || byte.is_ascii_digit()
        || matches!(byte, b'\'' | b'"' | b'&' | b'(')
}

/// Whether a byte is of the class.
#[tactic(auto, unfolding(crate::specs::Bytes::is_letter, crate::specs::Bytes::is_digit, crate::specs::Bytes::is_blank, crate::specs::Bytes::is_name_byte, crate::specs::Bytes::can_start, crate::specs::Bytes::is_opening, crate::specs::Bytes::is_closing))]
pub fn is_in(class: Class, byte: u8) -> bool
    ensures { result ≡ in_class class byte }
{
    match class {
        Class::Blank => matches!(byte, b' ' | b'\t' | b'\n'),
        Class::NameByte => {
            byte.is_ascii_alphabetic() || byte.is_ascii_digit() || byte == b'.' || byte == b'_'
        }
        Class::Digit => byte.is_ascii_digit(),
        Class::Letter => byte.is_ascii_alphabetic(),
        Class::UnarySign => is_unary(byte),
        Class::Start => is_unary(byte) || is_first(byte),
        Class::Closing => matches!(byte, b')' | b'>' | b']'),
        Class::Opening => matches!(byte, b'(' | b'<' | b'['),
    }
}

/// The byte at a place, 0 behind the end.
pub fn byte_at(text: &[u8], at: usize) -> u8
    ensures { result ≡ byte text.now at }
{
    text.get(at).copied().unwrap_or(0)
}

/// The end of the run of bytes of a class that begins at a place.
#[tactic(auto, using(crate::proofs::Runs::run_facts))]
pub fn run_end(text: &[u8], class: Class, from: usize) -> usize
    requires { from ≤ length text.now }
    ensures order { from ≤ result }
    ensures within { result ≤ length text.now }
    ensures run { IsWholeRun class text.now from result }
{
    let mut at = from;
    'bytes: while is_in(class, byte_at(text, at)) {
        at += 1;
    }
    at
}

/// The place of the quote that closes a literal, `from` being the first place inside it: the next such quote on the
/// same line.
pub fn literal_end(text: &[u8], quote: u8, from: usize) -> Option<usize>
    requires { from ≤ length text.now }
    ensures { MatchOption result (NoLiteralEnd text.now quote from) (λ at. IsLiteralEnd text.now quote from at) }
{
    let mut at = from;
    'bytes: while at < text.len() {
        if text[at] == quote {
            return Some(at);
        }
        if text[at] == b'\n' {
            return None;
        }
        at += 1;
    }
    None
}
