//! The first byte that is among eight, or that is not, looked for 32 bytes at a time.
ghost use Rattle.std.specs.Prelude.{◌≡◌, ◌≤◌, ℕ, Bool, List, not, length, take, map, position};
ghost use Rattle.std.specs.Simd.Lanes.{mask_l};
ghost use Rattle.sno_pattern.specs.Ends.{is_in};
ghost use Rattle.sno_pattern.specs.inner.Lanes.{passes};

use std::simd::prelude::*;

/// How many bytes are looked at together.
const BLOCK: usize = 32;

/// The first place whose byte is among the eight. A smaller set is filled up with one of its bytes.
pub fn first_in(bytes: &[u8], set: &[u8; 8]) -> Option<usize>
    ensures { result ≡ position (is_in set.now) bytes.now }
{
    let place = first_that_passes(bytes, set, true);
    place
}

/// The first place whose byte is not among the eight. A smaller set is filled up with one of its bytes.
pub fn first_not_in(bytes: &[u8], set: &[u8; 8]) -> Option<usize>
    ensures { result ≡ position (λ byte. not (is_in set.now byte)) bytes.now }
{
    let place = first_that_passes(bytes, set, false);
    place
}

/// The first place whose byte is among the eight, or is not where `inside` is false.
#[inline(always)]
fn first_that_passes(bytes: &[u8], set: &[u8; 8], inside: bool) -> Option<usize>
    ensures { result ≡ position (passes inside set.now) bytes.now }
{
    let mut at = 0;
    'blocks: while bytes.len() - at >= BLOCK {
        if let Some(before) = first_in_block(&bytes[at..], set, inside) {
            return Some(at + before);
        }
        at += BLOCK;
    }
    match first_by_byte(&bytes[at..], set, inside) {
        Some(before) => Some(at + before),
        None => None,
    }
}

/// The same among the first 32 bytes.
#[inline(always)]
fn first_in_block(bytes: &[u8], set: &[u8; 8], inside: bool) -> Option<usize>
    requires { 32 ≤ length bytes.now }
    ensures { result ≡ position (passes inside set.now) (take 32 bytes.now) }
{
    let block = u8x32::from_slice(bytes);
    let among = block.simd_eq(u8x32::splat(set[0]))
        | block.simd_eq(u8x32::splat(set[1]))
        | block.simd_eq(u8x32::splat(set[2]))
        | block.simd_eq(u8x32::splat(set[3]))
        | block.simd_eq(u8x32::splat(set[4]))
        | block.simd_eq(u8x32::splat(set[5]))
        | block.simd_eq(u8x32::splat(set[6]))
        | block.simd_eq(u8x32::splat(set[7]));
    if inside {
        let place = lowest(among.to_bitmask());
        place
    } else {
        let place = lowest((!among).to_bitmask());
        place
    }
}

/// The place of the lowest bit that is set, which is the first lane that passes.
#[inline(always)]
fn lowest(mask: u64) -> Option<usize>
    ensures { (p : ℕ → Bool) (xs : List ℕ) → length xs ≤ 64 → mask ≡ mask_l (map p xs) → result ≡ position p xs }
{
    if mask == 0 {
        None
    } else {
        Some(mask.trailing_zeros() as usize)
    }
}

/// The same by a look at each byte.
#[inline(always)]
fn first_by_byte(bytes: &[u8], set: &[u8; 8], inside: bool) -> Option<usize>
    ensures { result ≡ position (passes inside set.now) bytes.now }
{
    if inside {
        bytes.iter().position(|byte| is_among(set, *byte))
    } else {
        bytes.iter().position(|byte| !is_among(set, *byte))
    }
}

#[inline(always)]
fn is_among(set: &[u8; 8], byte: u8) -> bool
    ensures { result ≡ is_in set.now byte }
{
    set.contains(&byte)
}
