//! Arithmetic on integers of 64 bits (the book, chapter 3, for the operations; this profile for their refusals).
#![tactic(auto, unfolding(crate::specs::Arithmetic::fitted))]

ghost use Rattle.std.specs.Prelude.{◌≡◌, ℤ, Some};
ghost use Rattle.std.specs.Int.{int_pow};
ghost use Rattle.sno_value.specs.Arithmetic.{message_of, fitted, sum_of, difference_of, product_of, quotient_of};
ghost use Rattle.sno_value.specs.Arithmetic.{remainder_of, power, power_of};

use std::error::Error;
use std::fmt;

/// Why an operation has no result.
#[derive(Clone, Copy, Debug, PartialEq, Eq)]
pub enum Arith {
    /// The mathematical result lies outside the signed 64-bit range.
    Overflow,
    /// The divisor is 0.
    DivisionByZero,
    /// The exponent is negative (this profile).
    BadExponent,
}

impl fmt::Display for Arith {
    ghost output = { λ e. Some (message_of e) };

    fn fmt<W: fmt::Write>(&self, f: &mut fmt::Formatter<W>) -> fmt::Result {
        f.write_str(match self {
            Arith::Overflow => "overflow",
            Arith::DivisionByZero => "division by zero",
            Arith::BadExponent => "negative exponent",
        })
    }
}

impl Error for Arith {}

/// `a + b`, or an overflow where it does not fit 64 bits.
pub fn add(a: i64, b: i64) -> Result<i64, Arith>
    ensures { result ≡ sum_of a b }
{
    a.checked_add(b).ok_or(Arith::Overflow)
}

/// `a - b`, or an overflow where it does not fit 64 bits.
pub fn sub(a: i64, b: i64) -> Result<i64, Arith>
    ensures { result ≡ difference_of a b }
{
    a.checked_sub(b).ok_or(Arith::Overflow)
}

/// `a * b`, or an overflow where it does not fit 64 bits.
pub fn mul(a: i64, b: i64) -> Result<i64, Arith>
    ensures { result ≡ product_of a b }
{
    a.checked_mul(b).ok_or(Arith::Overflow)
}

/// `a / b`, truncated toward zero. It is refused where `b` is 0, and the least integer divided by -1 is an overflow.
pub fn div(a: i64, b: i64) -> Result<i64, Arith>
    ensures { result ≡ quotient_of a b }
{
    if b == 0 {
        return Err(Arith::DivisionByZero);
    }
    a.checked_div(b).ok_or(Arith::Overflow)
}

/// `base ** exponent`, or an overflow where it does not fit 64 bits. A negative exponent is refused, and 0 to the power
/// 0 is 1 (both this profile). It multiplies at most 64 times, however large the exponent.
pub fn pow(base: i64, exponent: i64) -> Result<i64, Arith>
    ensures { result ≡ power_of base exponent }
{
    if exponent < 0 {
        return Err(Arith::BadExponent);
    }
    base.checked_pow(small_exponent(exponent.unsigned_abs()))
        .ok_or(Arith::Overflow)
}

// An exponent that stands for a large one: from 64 on a power of -1, 0 or 1 goes by the exponent's parity, and that of
// any other base overflows.
#[tactic(auto, using(crate::proofs::Powers::large_exponents))]
fn small_exponent(exponent: u64) -> u32
    ensures { (base : ℤ) → fitted (int_pow base result) ≡ fitted (power base exponent) }
{
    if exponent < 64 {
        exponent as u32
    } else {
        64 + (exponent % 2) as u32
    }
}

/// What is left of `a` after division by `b`, with the sign of `a`; 0 for the least integer and -1. It is refused where
/// `b` is 0.
pub fn remdr(a: i64, b: i64) -> Result<i64, Arith>
    ensures { result ≡ remainder_of a b }
{
    if b == 0 {
        return Err(Arith::DivisionByZero);
    }
    Ok(a.wrapping_rem(b))
}
