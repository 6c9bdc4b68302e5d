//! Names as numbers.
ghost use Rattle.std.specs.Prelude.{◌≡◌, ◌≤◌, ◌<◌, IfSome};
ghost use Rattle.sno_value.specs.Keys.{IsKeyOf, letter};

/// The most letters of a name that has a key: so many digits of base 66 fit 64 bits.
const MOST_LETTERS: usize = 10;

/// A name of one to ten letters, digits, dots and underscores as a number, by which it is told from every other name at
/// once; 0 for any other.
pub fn name_key(name: &[u8]) -> u64
    ensures { IsKeyOf name.now result }
{
    if name.is_empty() || name.len() > MOST_LETTERS {
        return 0;
    }
    let mut key: u64 = 0;
    let mut left = name.len();
    'letters: while left > 0 {
        left -= 1;
        let Some(digit) = digit_of(name[left]) else {
            return 0;
        };
        let Some(more) = key.checked_mul(66) else {
            return 0;
        };
        let Some(longer) = more.checked_add(digit) else {
            return 0;
        };
        key = longer;
    }
    key
}

/// The digit that stands for a byte: from 2 on, so that a name's key doesn't end before the name.
fn digit_of(byte: u8) -> Option<u64>
    ensures { IfSome result (λ digit. (2 ≤ digit) × (digit < 66) × (letter digit ≡ byte)) }
{
    match byte {
        b'A'..=b'Z' => Some(u64::from(byte - b'A') + 2),
        b'a'..=b'z' => Some(u64::from(byte - b'a') + 28),
        b'0'..=b'9' => Some(u64::from(byte - b'0') + 54),
        b'.' => Some(64),
        b'_' => Some(65),
        _ => None,
    }
}
