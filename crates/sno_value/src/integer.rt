//! Integers and their decimal texts.
ghost use Rattle.std.specs.Prelude.{◌≡◌, ◌≤◌, Some, IfOk, length};
ghost use Rattle.std.specs.Fmt.{signed_decimal};
ghost use Rattle.sno_value.specs.Integer.{integer_of};

use std::alloc::{AllocError, Global};

/// The integer that a text writes: 0 for the empty text, else an optional sign and one or more digits whose value lies
/// in the signed 64-bit range. Any other text has none, one with blanks included (this profile).
#[tactic(auto, using(crate::proofs::Decimal::no_text), unfolding(crate::specs::Integer::integer_of))]
pub fn to_int(text: &[u8]) -> Option<i64>
    ensures { result ≡ integer_of text.now }
{
    if text.is_empty() {
        return Some(0);
    }
    match str::from_utf8(text) {
        Ok(text) => text.parse().ok(),
        Err(_) => None,
    }
}

/// An integer in decimal, with `-` before a negative one and no leading zeros.
#[tactic(auto, using(crate::proofs::Decimal::writing))]
pub fn int_text(alloc: Global, n: i64) -> Result<Vec<u8>, AllocError>
    ensures text { IfOk result (λ text. text.items ≡ signed_decimal n) }
    ensures reads_back { integer_of (signed_decimal n) ≡ Some n }
    ensures short { length (signed_decimal n) ≤ 20 }
{
    let text = n.to_string(alloc)?;
    Ok(text.into_bytes())
}
