//! Words of a text: the longest runs of bytes that a name may have. And the words that the language knows.
ghost use Rattle.std.specs.Prelude.{◌≤◌, length};

/// The variables that have a meaning or a value from the start.
pub const VARIABLES: &[u8] = b"INPUT OUTPUT ARB BAL REM FAIL FENCE ABORT SUCCEED";

/// The variables that are devices.
pub const DEVICES: &[u8] = b"INPUT OUTPUT";

/// The types of the language.
pub const TYPES: &[u8] = b"STRING INTEGER PATTERN ARRAY TABLE NAME EXPRESSION";

/// The functions that make patterns.
pub const PRIMITIVES: &[u8] = b"LEN POS RPOS TAB RTAB ANY NOTANY SPAN BREAK BREAKX ARBNO FENCE";

/// The functions that are null where something holds, and those that give numbers.
pub const PREDICATES: &[u8] = b"EQ NE LT LE GT GE IDENT DIFFER LGT INTEGER";

pub const NUMBERS: &[u8] = b"SIZE REMDR";

/// All functions of the language.
pub const FUNCTIONS: &[u8] = b"LEN POS RPOS TAB RTAB ANY NOTANY SPAN BREAK BREAKX ARBNO FENCE
EQ NE LT LE GT GE IDENT DIFFER LGT INTEGER SIZE TRIM DUPL REPLACE REMDR DATATYPE CONVERT
ARRAY TABLE PROTOTYPE DEFINE DATA";

/// The keywords, and those of them that a program cannot set.
pub const KEYWORDS: &[u8] = b"ANCHOR TRIM STLIMIT STCOUNT STNO FNCLEVEL FULLSCAN MAXLNGTH ALPHABET";

pub const FIXED_KEYWORDS: &[u8] = b"STCOUNT STNO FNCLEVEL FULLSCAN MAXLNGTH ALPHABET";

/// The labels that have a meaning, and those of them that end a call.
pub const LABELS: &[u8] = b"END RETURN FRETURN";

pub const RETURNS: &[u8] = b"RETURN FRETURN";

/// Whether a name may have this byte.
pub fn is_name_byte(byte: u8) -> bool {
    byte.is_ascii_alphanumeric() || byte == b'.' || byte == b'_'
}

/// The end of the bytes of a name from a place on.
fn word_end(text: &[u8], from: usize) -> usize
    requires { from ≤ length text.now }
    ensures order { from ≤ result }
    ensures within { result ≤ length text.now }
{
    for at in from..text.len() {
        if !is_name_byte(text[at]) {
            return at;
        }
    }
    text.len()
}

/// The word that begins at a place, None where none begins there.
pub fn word_at(text: &[u8], at: usize) -> Option<&[u8]> {
    if at >= text.len() || !is_name_byte(text[at]) {
        return None;
    }
    if at > 0 && is_name_byte(text[at - 1]) {
        return None;
    }
    let end = word_end(text, at);
    Some(&text[at..end])
}

/// Whether a name is one of these words.
pub fn is_one_of(name: &[u8], words: &[u8]) -> bool {
    for at in 0..words.len() {
        if let Some(word) = word_at(words, at) {
            if word == name {
                return true;
            }
        }
    }
    false
}

/// The one of these words that a name would be if its small letters were large ones. A word itself has none.
pub fn in_capitals<'a>(name: &[u8], words: &'a [u8]) -> Option<&'a [u8]> {
    for at in 0..words.len() {
        if let Some(word) = word_at(words, at) {
            if word != name && word.eq_ignore_ascii_case(name) {
                return Some(word);
            }
        }
    }
    None
}
