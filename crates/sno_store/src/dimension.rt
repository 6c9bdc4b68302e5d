//! Dimensions of arrays, and the texts that say them.
ghost use Rattle.std.specs.Prelude.{◌≡◌, ◌-◌, ◌^◌, ◌<◌, min, length, position, Some, IfSome};
ghost use Rattle.sno_store.specs.Arrays.{bound_of, range, dimension_of, is_colon, size, offset};

use sno_value::to_int;

/// The subscripts of a dimension, from the lowest to the highest.
#[derive(Clone, Copy)]
pub(crate) struct Dimension {
    pub(crate) low: i64,
    pub(crate) high: i64,
}

impl Dimension {
    /// The dimension that a text says: `l:u` is from l to u, and `n` from 1 to n.
    pub(crate) fn read(text: &[u8]) -> Option<Dimension>
        ensures { result ≡ dimension_of text.now }
    {
        match first_colon(text) {
            Some(colon) => between(bound(&text[..colon])?, bound(&text[colon + 1..])?),
            None => between(1, bound(text)?),
        }
    }

    /// How many subscripts there are. 2^64 is one too many to be told.
    pub(crate) fn size(self) -> u64
        ensures { result ≡ min (size self) (2 ^ 64 - 1) }
    {
        self.high.abs_diff(self.low).saturating_add(1)
    }

    /// How far a subscript stands behind the lowest one, if it is one of the dimension's.
    pub(crate) fn offset(self, subscript: i64) -> Option<u64>
        ensures { result ≡ offset self subscript }
    {
        if self.low <= subscript && subscript <= self.high {
            Some(subscript.abs_diff(self.low))
        } else {
            None
        }
    }
}

/// The place of the first colon, if there is one.
fn first_colon(text: &[u8]) -> Option<usize>
    ensures place { result ≡ position is_colon text.now }
    ensures within { IfSome result (λ colon. colon < length text.now) }
{
    text.iter().position(|byte| *byte == b':')
}

/// A bound: an optional sign and digits.
fn bound(text: &[u8]) -> Option<i64>
    ensures { result ≡ bound_of text.now }
{
    if text.is_empty() {
        return None;
    }
    to_int(text)
}

/// The dimension from one bound to another, if that is no less.
fn between(low: i64, high: i64) -> Option<Dimension>
    ensures { result ≡ range (Some low) (Some high) }
{
    if low <= high {
        Some(Dimension { low, high })
    } else {
        None
    }
}
