//! The decimal text of an integer, with no memory of its own.
ghost use Rattle.std.specs.Prelude.{◌≡◌, ◌≤◌, length};
ghost use Rattle.std.specs.Fmt.{signed_decimal};

use std::marker::Model;

/// The most bytes that an integer's text has: a sign and 19 digits.
const MOST_BYTES: usize = 20;

/// An integer in decimal, with `-` before a negative one and no leading zeros. It takes no memory.
#[derive(Debug, Drop)]
pub struct Digits {
    bytes: [u8; MOST_BYTES],
    // Where the text begins. It goes to the end of the bytes.
    start: usize,
}

impl Model for Digits {
    ghost use Rattle.std.specs.Prelude.{List, ℕ, ◌≤◌, drop};

    ghost Value = { List ℕ };

    ghost view = { λ d. drop d.start d.bytes };

    ghost invariant = { λ d. d.start ≤ 20 };
}

impl Digits {
    /// The text of an integer, which `int_text` makes too.
    pub fn of(number: i64) -> Digits
        ensures text { result ≡ signed_decimal number }
        ensures short { length (signed_decimal number) ≤ 20 }
    {
        let mut bytes = [0; MOST_BYTES];
        let mut start = MOST_BYTES;
        let mut left = number.unsigned_abs();
        'tens: while left >= 10 {
            start -= 1;
            bytes[start] = b'0' + (left % 10) as u8;
            left /= 10;
        }
        start -= 1;
        bytes[start] = b'0' + left as u8;
        if number < 0 {
            start -= 1;
            bytes[start] = b'-';
        }
        Digits { bytes, start }
    }

    /// The bytes of the text.
    pub fn as_slice(&self) -> &[u8]
        ensures { result.now ≡ self.now }
    {
        &self.bytes[self.start..]
    }
}
